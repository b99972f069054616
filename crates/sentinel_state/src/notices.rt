//! What a Sentinel notes of what its rules do, until somebody takes it to tell it. Nothing rests on it, and no contract
//! speaks of it: it stands outside what contracts see of a Sentinel.

use crate::noted::Noted;
use ballot_law::{Addr, Member, NODES_MAX, RunId, SENTINELS_MAX};
use std::alloc::{AllocError, Global};
use std::sync::atomic::{AtomicU64, Ordering};

/// How many notices are kept at most; a further one takes the place of the oldest. A tick of one master has at most one
/// for each of its nodes and for each Sentinel, and some ten more.
pub const NOTICES_MAX: usize = 512;

/// How long it is between two notices of Sentinels that no file names, in milliseconds.
const GHOST_MS: u64 = 60_000;

/// The same as a number of notices.
const KEPT: u64 = NOTICES_MAX as u64;

/// A master by its number, and the address that its configuration had.
#[derive(Clone, Copy)]
pub struct MasterThen {
    pub master: u16,
    pub addr: Addr,
}

/// What happened to a master or to its failover.
#[derive(Clone, Copy)]
pub enum MasterNotice {
    /// It is subjectively down.
    Down,
    /// It no longer is.
    Up,
    /// It is objectively down.
    AgreedDown,
    /// It no longer is.
    AgreedUp,
    /// A failover was begun.
    Begun,
    /// The Sentinel was elected.
    Elected,
    /// A failover ended, since the Sentinel wasn't elected.
    NotElected,
    /// A failover ended before a replica was told, since the master is up again.
    Back,
    /// A switch that was asked for ended before the master was told, since that was too long ago.
    Late,
    /// A failover ended, since no replica can be promoted.
    NoReplica,
    /// A failover ended, since its choice didn't become a master in time.
    NotPromoted,
    /// A failover ended with a new configuration.
    Ended,
    /// Its configuration names another address from now on.
    Moved,
    /// It was told to hand over, refused or didn't in time, and stays the master.
    Stays,
    /// All its nodes and all other Sentinels are down.
    AllDown,
    /// The next failover begins in `left` milliseconds at the earliest: twice the `failover-timeout` after the last one
    /// or the last vote.
    PutOff { left: u64, timeout: u64 },
    /// No failover can begin, since the current epoch is the greatest one.
    NoEpochLeft,
    /// It wasn't elected: of so many Sentinels so many are up, this one among them, and so many votes are needed.
    Short { up: u16, of: u16, need: u32 },
}

/// Why a replica can't be promoted.
#[derive(Clone, Copy)]
pub enum Unfit {
    /// It is subjectively down.
    Down,
    /// The connection to it was lost.
    Lost,
    /// Its priority is 0.
    NoPriority,
    /// It told no INFO, or answered nothing, for some seconds.
    Silent,
    /// It was given up a moment ago.
    GivenUp,
    /// Its link to the master has been down for so many seconds.
    LinkDown(u64),
}

/// What happened to a data node of a master that isn't the one of its configuration.
#[derive(Clone, Copy)]
pub enum ReplicaNotice {
    /// It is subjectively down.
    Down,
    /// It no longer is.
    Up,
    /// It was chosen, and is told to be a master.
    Chosen,
    /// It says that it is a master, and is the one of the configuration from now on.
    Promoted,
    /// It is told in a failover to follow the new master.
    Ordered,
    /// It called itself a master, and is told to follow the one of the configuration.
    Converted,
    /// It followed another master, and is told to follow the one of the configuration.
    Corrected,
    /// It was told to be a master, and refused or didn't obey in time: others go before it for a while.
    GivenUp,
    /// No replica can be promoted, this one for this reason.
    Unfit(Unfit),
}

/// What a Sentinel notes. `place` is that of a data node among its master's nodes, or that of a Sentinel in the roster.
#[derive(Clone, Copy)]
pub enum Notice {
    /// Whether the clock isn't to be trusted from now on.
    Tilted(bool),
    /// The current epoch was raised to this one.
    NewEpoch(u64),
    /// The vote of this epoch was given.
    Voted {
        leader: RunId,
        epoch: u64,
    },
    /// This happened to a master.
    OfMaster {
        of: MasterThen,
        what: MasterNotice,
    },
    /// This happened to a data node.
    OfReplica {
        of: MasterThen,
        place: u16,
        what: ReplicaNotice,
    },
    /// Another Sentinel is down, or no longer.
    OfSentinel {
        of: MasterThen,
        place: u16,
        down: bool,
    },
    /// This one, which no file names, asked for a vote, and got none.
    Ghost(RunId),
    /// The hello of this Sentinel brings a configuration with another address.
    Brought {
        of: MasterThen,
        by: Member,
    },
}

/// What a Sentinel noted, in room that was made beforehand, so that a notice takes no memory; how many it was since the
/// start, and how many of these were taken; and what was noted of each master.
#[derive(Drop)]
pub(crate) struct Notices {
    ring: Vec<Notice>,
    count: u64,
    taken: AtomicU64,
    is_tilted: bool,
    ghost_at: Option<u64>,
    masters: Vec<Noted>,
}

impl Notices {
    /// No notices, with room for them; `masters` is how many the Sentinel watches.
    pub(crate) fn with_room(alloc: Global, masters: u16) -> Result<Notices, AllocError> {
        Ok(Notices {
            ring: vec![in alloc; Notice::Tilted(false); NOTICES_MAX]?,
            count: 0,
            taken: AtomicU64::new(0),
            is_tilted: false,
            ghost_at: None,
            masters: vec![in alloc; Noted::new(); masters as usize]?,
        })
    }

    /// Adds a notice.
    pub(crate) fn push(&mut self, notice: Notice) {
        if let Some(slot) = self.ring.get_mut((self.count % KEPT) as usize) {
            *slot = notice;
        }
        self.count = self.count.saturating_add(1);
    }

    /// The oldest notice that wasn't taken and is kept still. From now on it is taken, for each who asks.
    pub(crate) fn take(&self) -> Option<Notice> {
        let lost = self.count.saturating_sub(KEPT);
        let number = self.taken.load(Ordering::SeqCst).max(lost);
        if number >= self.count {
            return None;
        }
        self.taken.store(number + 1, Ordering::SeqCst);
        let notice = self.ring.get((number % KEPT) as usize)?;
        Some(*notice)
    }

    /// This happened to a master.
    pub(crate) fn push_master(&mut self, of: MasterThen, what: MasterNotice) {
        self.push(Notice::OfMaster { of, what });
    }

    /// This happened to a data node of a master.
    pub(crate) fn push_replica(&mut self, of: MasterThen, place: u16, what: ReplicaNotice) {
        self.push(Notice::OfReplica { of, place, what });
    }

    /// A Sentinel that no file names asked for a vote at this moment: noted once a minute.
    pub(crate) fn see_ghost(&mut self, id: RunId, now: u64) {
        if let Some(noted) = self.ghost_at
            && now.saturating_sub(noted) < GHOST_MS
        {
            return;
        }
        self.ghost_at = Some(now);
        self.push(Notice::Ghost(id));
    }

    /// What was noted of a master.
    fn told(&mut self, of: MasterThen) -> Option<&mut Noted> {
        self.masters.get_mut(of.master as usize)
    }

    /// The clock is to be trusted or isn't.
    pub(crate) fn see_tilt(&mut self, is_tilted: bool) {
        if is_tilted != self.is_tilted {
            self.push(Notice::Tilted(is_tilted));
        }
        self.is_tilted = is_tilted;
    }

    /// The current epoch is this one, and was `before`.
    pub(crate) fn see_epoch(&mut self, before: u64, epoch: u64) {
        if before < epoch {
            self.push(Notice::NewEpoch(epoch));
        }
    }

    /// The Sentinel voted for another one, at this moment: its own campaign for the master may begin later only.
    pub(crate) fn see_start(&mut self, m: u16, now: u64) {
        if let Some(told) = self.masters.get_mut(m as usize) {
            told.begin(now);
        }
    }

    /// A failover of a master was begun, at this moment.
    pub(crate) fn see_begin(&mut self, of: MasterThen, now: u64) {
        self.see_start(of.master, now);
        self.push_master(of, MasterNotice::Begun);
    }

    /// A master's configuration names another address: there nothing was found down yet.
    pub(crate) fn see_move(&mut self, of: MasterThen) {
        if let Some(told) = self.told(of) {
            told.move_on();
        }
        self.push_master(of, MasterNotice::Moved);
    }

    /// A master is down or isn't, for this Sentinel and for enough of them.
    pub(crate) fn see_down(&mut self, of: MasterThen, down: bool, agreed: bool) {
        let Some(told) = self.told(of) else {
            return;
        };
        let (was_down, was_agreed) = told.see_down(down, agreed);
        if down && !was_down {
            self.push_master(of, MasterNotice::Down);
        }
        if agreed && !was_agreed {
            self.push_master(of, MasterNotice::AgreedDown);
        }
        if !agreed && was_agreed {
            self.push_master(of, MasterNotice::AgreedUp);
        }
        if !down && was_down {
            self.push_master(of, MasterNotice::Up);
        }
    }

    /// These data nodes of a master are told in a failover to follow it.
    pub(crate) fn see_orders(&mut self, of: MasterThen, ordered: &[bool; NODES_MAX]) {
        for place in 0..NODES_MAX {
            if ordered[place] {
                self.push_replica(of, place as u16, ReplicaNotice::Ordered);
            }
        }
    }

    /// Why these data nodes of a master can't be promoted.
    pub(crate) fn see_unfit(&mut self, of: MasterThen, unfit: &[Option<Unfit>; NODES_MAX]) {
        for place in 0..NODES_MAX {
            if let Some(why) = unfit[place] {
                self.push_replica(of, place as u16, ReplicaNotice::Unfit(why));
            }
        }
    }

    /// Which of a master's data nodes are down; it has `count`.
    pub(crate) fn see_replicas(&mut self, of: MasterThen, down: &[bool; NODES_MAX], count: usize) {
        for place in 0..count.min(NODES_MAX) {
            let Some(told) = self.told(of) else {
                return;
            };
            if told.see_replica(place, down[place]) {
                let what = if down[place] {
                    ReplicaNotice::Down
                } else {
                    ReplicaNotice::Up
                };
                self.push_replica(of, place as u16, what);
            }
        }
    }

    /// Which of the other Sentinels are down; with this one there are `count`.
    pub(crate) fn see_sentinels(
        &mut self,
        of: MasterThen,
        down: &[bool; SENTINELS_MAX],
        count: usize,
    ) {
        for place in 0..count.min(SENTINELS_MAX) {
            let Some(told) = self.told(of) else {
                return;
            };
            if told.see_sentinel(place, down[place]) {
                let (place, down) = (place as u16, down[place]);
                self.push(Notice::OfSentinel { of, place, down });
            }
        }
    }

    /// Looks whether all are down from here; a master has `nodes` data nodes, and `sentinels` Sentinels watch it.
    pub(crate) fn see_all_down(&mut self, of: MasterThen, nodes: usize, sentinels: usize) {
        if let Some(told) = self.told(of)
            && told.see_all_down(nodes, sentinels)
        {
            self.push_master(of, MasterNotice::AllDown);
        }
    }

    /// No failover of a master runs at this moment, though it is objectively down; `timeout` is its `failover-timeout`,
    /// `is_waiting` whether the next failover waits for twice that, and `is_spent` whether no epoch is left.
    pub(crate) fn see_wait(
        &mut self,
        of: MasterThen,
        now: u64,
        timeout: u64,
        is_waiting: bool,
        is_spent: bool,
    ) {
        if let Some(told) = self.told(of)
            && let Some(what) = told.see_wait(now, timeout, is_waiting, is_spent)
        {
            self.push_master(of, what);
        }
    }
}
