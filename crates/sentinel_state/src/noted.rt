//! What was noted of a master already, so that each change is noted once.

use crate::notices::MasterNotice;
use ballot_law::{NODES_MAX, SENTINELS_MAX};
use failover_states::SPREAD_MS;

/// For how long after its last start a Sentinel begins no failover, in timeouts.
const TIMEOUTS: u64 = 2;

/// How long it is between two notices that no epoch is left, in milliseconds.
const NO_EPOCH_MS: u64 = 60_000;

/// What was noted of a master. `started` is when the Sentinel last began a failover of it or voted for another one,
/// since its own start, `put_off` after which of these a start that is put off was noted since the master is
/// objectively down, and `spent` when it was noted that no epoch is left.
#[derive(Clone, Copy)]
pub(crate) struct Noted {
    down: bool,
    agreed: bool,
    all_down: bool,
    started: Option<u64>,
    put_off: Option<u64>,
    spent: Option<u64>,
    replicas: [bool; NODES_MAX],
    sentinels: [bool; SENTINELS_MAX],
}

/// Whether all of the first `count` are down but one: the master itself, or this Sentinel.
fn are_others_down(down: &[bool], count: usize) -> bool {
    let down_count = down.iter().take(count).filter(|is_down| **is_down).count();
    down_count + 1 >= count
}

impl Noted {
    /// Nothing was noted yet: no node is down, and no failover was begun.
    pub(crate) fn new() -> Noted {
        Noted {
            down: false,
            agreed: false,
            all_down: false,
            started: None,
            put_off: None,
            spent: None,
            replicas: [false; NODES_MAX],
            sentinels: [false; SENTINELS_MAX],
        }
    }

    /// The Sentinel began a failover of the master at this moment, or voted for another Sentinel.
    pub(crate) fn begin(&mut self, now: u64) {
        self.started = Some(now);
    }

    /// The master has another address: there nothing is down yet.
    pub(crate) fn move_on(&mut self) {
        self.down = false;
        self.agreed = false;
        self.replicas = [false; NODES_MAX];
        self.sentinels = [false; SENTINELS_MAX];
    }

    /// Whether the master is down, for this Sentinel and for enough of them: what was noted of that before.
    pub(crate) fn see_down(&mut self, down: bool, agreed: bool) -> (bool, bool) {
        let before = (self.down, self.agreed);
        self.down = down;
        self.agreed = agreed;
        if !agreed {
            self.put_off = None;
        }
        before
    }

    /// Whether the data node at a place is down: whether that is to be noted.
    pub(crate) fn see_replica(&mut self, place: usize, down: bool) -> bool {
        let Some(before) = self.replicas.get_mut(place) else {
            return false;
        };
        let is_new = *before != down;
        *before = down;
        is_new
    }

    /// Whether the Sentinel at a place is down: whether that is to be noted.
    pub(crate) fn see_sentinel(&mut self, place: usize, down: bool) -> bool {
        let Some(before) = self.sentinels.get_mut(place) else {
            return false;
        };
        let is_new = *before != down;
        *before = down;
        is_new
    }

    /// Whether it is to be noted that all of the master's `nodes` data nodes are down, and of `sentinels` Sentinels all
    /// but this one: it may be this Sentinel's own machine that fails.
    pub(crate) fn see_all_down(&mut self, nodes: usize, sentinels: usize) -> bool {
        let all_down = self.down
            && sentinels > 1
            && are_others_down(&self.replicas, nodes)
            && are_others_down(&self.sentinels, sentinels);
        let is_new = all_down && !self.all_down;
        self.all_down = all_down;
        is_new
    }

    /// No failover runs at this moment, though the master is objectively down: what is to be noted of that.
    /// `is_waiting` is whether the next failover waits for twice the `failover-timeout`, `is_spent` whether no epoch
    /// is left.
    pub(crate) fn see_wait(
        &mut self,
        now: u64,
        timeout: u64,
        is_waiting: bool,
        is_spent: bool,
    ) -> Option<MasterNotice> {
        if is_waiting && let Some(start) = self.started {
            let end = start.saturating_add(timeout.saturating_mul(TIMEOUTS));
            if now < end {
                return self.see_put_off(start, end.saturating_sub(now), timeout);
            }
            if now < end.saturating_add(SPREAD_MS) {
                return None;
            }
        }
        if is_spent { self.see_spent(now) } else { None }
    }

    /// The next start is `left` milliseconds away, after the one at `start`: noted once while the master is objectively
    /// down.
    fn see_put_off(&mut self, start: u64, left: u64, timeout: u64) -> Option<MasterNotice> {
        if self.put_off == Some(start) {
            return None;
        }
        self.put_off = Some(start);
        Some(MasterNotice::PutOff { left, timeout })
    }

    /// No epoch is left: noted once a minute.
    fn see_spent(&mut self, now: u64) -> Option<MasterNotice> {
        if let Some(noted) = self.spent
            && now.saturating_sub(noted) < NO_EPOCH_MS
        {
            return None;
        }
        self.spent = Some(now);
        Some(MasterNotice::NoEpochLeft)
    }
}
