//! Sentinels that are stopped and started while their group runs.
//!
//! The threads of a Sentinel that is stopped end, and its store comes back to whoever follows the orders. What the
//! store holds is then read as a file is read at a start, and a Sentinel that begins with it takes the place of the one
//! before.

ghost use Rattle.std.specs.Prelude.{◌≡◌, ◌<◌, ◌-◌, ◌^◌, ◌+◌, IfOk, OnOk, length};
ghost use Rattle.sentinel_runner.specs.declared.started.TheConstants.{BESIDE};

use crate::opened::{Opened, OpenedWith};
use crate::shared::Shared;
use crate::started::BESIDE;
use crate::threads::end_for_want;
use ballot_law::Roster;
use client_port::{Port, PortRoom};
use conf_lines::ConfFault;
use crossbeam_channel::{Receiver, RecvTimeoutError, Sender, unbounded};
use log::{Log, info, warn};
use sentinel_conf::{Conf, ConfStore, LoadFault, read};
use std::alloc::{AllocError, Global};
use std::io::ErrorKind;
use std::net::Net;
use std::rt::Clock;
use std::sync::Wait;
use std::sync::atomic::{AtomicU64, Ordering};
use std::time::Duration;
use thiserror::Error;

/// How long whoever follows the orders waits for the end of a Sentinel's threads before it looks whether the group
/// ends, in milliseconds.
const REST_MS: u64 = 50;

/// The store of a Sentinel whose threads have ended, with its place in the roster.
#[derive(Drop)]
pub(crate) struct Resting<S> {
    pub(crate) place: u16,
    pub(crate) store: S,
}

/// A Sentinel that is open again.
#[derive(Drop)]
pub(crate) struct Restart<S: ConfStore> {
    pub(crate) opened: Opened<S>,
    ghost seats: { opened.beside ≡ BESIDE },
}

/// The ends that the threads of a Sentinel have: where it comes in when it is open again, and where its store goes when
/// they have ended.
#[derive(Drop)]
pub(crate) struct LifeEnds<S: ConfStore> {
    pub(crate) restarts: Receiver<Restart<S>>,
    pub(crate) rests: Sender<Resting<S>>,
}

/// Why a stopped Sentinel isn't started. It stays stopped.
#[derive(Clone, Copy, Debug, PartialEq, Eq, Error)]
enum Unstarted {
    /// Its file can't be read.
    #[error("its file can't be read")]
    Unreadable,
    /// Its file is refused.
    #[error("its file is refused: {0}")]
    Refused(ConfFault),
    /// Its file isn't that of this Sentinel of this group any more.
    #[error("its file isn't that of this group any more")]
    OtherGroup,
    /// Its port can't be had.
    #[error("its port can't be had")]
    PortRefused,
    /// A growth was refused.
    #[error("there is no memory")]
    NoMemory,
}

/// A Sentinel as orders know it: the number of its port, where one that is open again goes, whether it is stopped, and
/// its store, which is here from the end of its threads until it is started.
#[derive(Drop)]
struct Member<S: ConfStore> {
    number: u16,
    to: Sender<Restart<S>>,
    is_stopped: bool,
    store: Option<S>,
}

/// The Sentinels of a group as orders know them, by their places in the roster.
#[derive(Drop)]
pub(crate) struct Restarts<S: ConfStore> {
    members: Vec<Option<Member<S>>>,
    to_rest: Sender<Resting<S>>,
    rests: Receiver<Resting<S>>,
    roster: Roster,
    room: PortRoom,
    alloc: Global,
}

/// What a store holds, as a conf.
fn conf_in<S: ConfStore>(alloc: Global, store: &mut S) -> Result<Conf, Unstarted>
    ensures { OnOk result (S.failure_count store.new < 2 ^ 64 - 1) }
{
    if store.failures() == u64::MAX {
        return Err(Unstarted::Unreadable);
    }
    let text = match store.load() {
        Ok(text) => text,
        Err(LoadFault::NoMemory) => return Err(Unstarted::NoMemory),
        Err(LoadFault::Failed) => return Err(Unstarted::Unreadable),
    };
    match read(alloc, text.as_slice()) {
        Ok(conf) => Ok(conf),
        Err(fault) => Err(Unstarted::Refused(fault)),
    }
}

/// What threads serve of the port with this number.
fn port_of<N: Net>(
    net: &N,
    alloc: Global,
    number: u16,
    room: PortRoom,
) -> Result<(Port, Vec<Port>), Unstarted>
    ensures { IfOk result (λ parts. length parts.1.items + 1 ≡ room.threads) }
{
    match Port::open(net, alloc, number, room) {
        Ok(parts) => Ok(parts),
        Err(error) => {
            if error.kind() == ErrorKind::OutOfMemory {
                return Err(Unstarted::NoMemory);
            }
            Err(Unstarted::PortRefused)
        }
    }
}

impl<S: ConfStore + Drop> Restarts<S> {
    /// Those of a group with this number of Sentinels and this roster, whose ports have this room; none is there yet.
    pub(crate) fn new(
        alloc: Global,
        sentinels: usize,
        roster: Roster,
        room: PortRoom,
    ) -> Result<Restarts<S>, AllocError> {
        let (to_rest, rests) = unbounded(alloc)?;
        let mut members = Vec::new(alloc);
        for _ in 0..sentinels {
            members.push(None)?;
        }
        Ok(Restarts {
            members,
            to_rest,
            rests,
            roster,
            room,
            alloc,
        })
    }

    /// How much room their ports have.
    pub(crate) fn room(&self) -> PortRoom
        ensures { result ≡ self.now.room }
    {
        self.room
    }

    /// How many there are.
    pub(crate) fn count(&self) -> u16 {
        self.members.len().min(u16::MAX as usize) as u16
    }

    /// The Sentinel at this place, whose port has this number: the ends that its threads have.
    pub(crate) fn add(&mut self, place: u16, number: u16) -> Result<LifeEnds<S>, AllocError> {
        let (to, restarts) = unbounded(self.alloc)?;
        let rests = self.to_rest.clone()?;
        if let Some(member) = self.members.get_mut(place as usize) {
            *member = Some(Member {
                number,
                to,
                is_stopped: false,
                store: None,
            });
        }
        Ok(LifeEnds { restarts, rests })
    }

    /// Has the Sentinel at this place stop: its threads end, which closes its port. Where it is stopped already nothing
    /// happens, and a note says so.
    pub(crate) fn stop<R: Log>(&mut self, rt: &R, shared: &Shared, place: u16) {
        if let Some(Some(member)) = self.members.get_mut(place as usize) {
            if member.is_stopped {
                return warn!(rt; "s{place} can't be stopped: it is stopped");
            }
            member.is_stopped = true;
            shared.stops.stop(place);
            info!(rt; "s{place} is stopped");
        }
    }

    /// Whether the Sentinel at this place is stopped.
    fn is_stopped(&self, place: u16) -> bool {
        match self.members.get(place as usize) {
            Some(Some(member)) => member.is_stopped,
            _ => false,
        }
    }

    /// Whether the store of the Sentinel at this place is here.
    fn has_store(&self, place: u16) -> bool {
        match self.members.get(place as usize) {
            Some(Some(member)) => member.store.is_some(),
            _ => false,
        }
    }

    /// Keeps the store of a Sentinel, where there is one at this place.
    fn keep(&mut self, place: u16, store: S) {
        if let Some(Some(member)) = self.members.get_mut(place as usize) {
            member.store = Some(store);
        }
    }

    /// The store of the Sentinel at this place, which is no longer here then.
    fn take_store(&mut self, place: u16) -> Option<S> {
        match self.members.get_mut(place as usize) {
            Some(Some(member)) => member.store.take(),
            _ => None,
        }
    }

    /// Waits until the store of the Sentinel at this place is here: whether it is, before the group ends.
    fn await_store<R: Wait + Clock>(&mut self, rt: &R, ending: &AtomicU64, place: u16) -> bool {
        for _ in rt.forever() {
            if self.has_store(place) {
                return true;
            }
            if ending.load(Ordering::SeqCst) != 0 {
                return false;
            }
            match self.rests.recv_timeout(rt, Duration::from_millis(REST_MS)) {
                Ok(resting) => self.keep(resting.place, resting.store),
                Err(RecvTimeoutError::Timeout) => {}
                Err(RecvTimeoutError::Disconnected) => return false,
            }
        }
        unreachable!()
    }

    /// Whether the conf is that of the Sentinel at this place.
    fn is_of(&self, conf: &Conf, place: u16) -> bool {
        match self.members.get(place as usize) {
            Some(Some(member)) => conf.place() == place
                && conf.port() == member.number
                && conf.roster().is_same(&self.roster),
            _ => false,
        }
    }

    /// What the Sentinel at this place, whose store this is, begins with: what the store holds, and what threads serve
    /// of its port.
    fn beginning<N: Net>(
        &self,
        net: &N,
        store: &mut S,
        place: u16,
    ) -> Result<(Conf, (Port, Vec<Port>)), Unstarted>
        ensures room { OnOk result (S.failure_count store.new < 2 ^ 64 - 1) }
        ensures threads { IfOk result (λ r. length r.1.1.items + 1 ≡ self.now.room.threads) }
    {
        let conf = conf_in(self.alloc, store)?;
        if !self.is_of(&conf, place) {
            drop(conf);
            return Err(Unstarted::OtherGroup);
        }
        match port_of(net, self.alloc, conf.port(), self.room) {
            Ok(ports) => Ok((conf, ports)),
            Err(why) => {
                drop(conf);
                Err(why)
            }
        }
    }

    /// The Sentinel at this place, open again at this reading of the clock. Where it can't be, its store is here again;
    /// without memory for the Sentinel itself it is lost, and the answer is None.
    fn reopened<N: Net>(
        &mut self,
        net: &N,
        now: u64,
        place: u16,
    ) -> Result<Option<Restart<S>>, Unstarted> {
        let Some(mut store) = self.take_store(place) else {
            return Ok(None);
        };
        let (conf, ports) = match self.beginning(net, &mut store, place) {
            Ok(both) => both,
            Err(why) => {
                self.keep(place, store);
                return Err(why);
            }
        };
        let beginning = OpenedWith {
            conf,
            store,
            reboots: Vec::new(self.alloc),
            now,
        };
        match Opened::with_port(self.alloc, beginning, ports, self.room, BESIDE) {
            Ok(opened) => Ok(Some(Restart { opened })),
            Err(_) => Ok(None),
        }
    }

    /// Hands the Sentinel at this place to its threads.
    fn hand<R: Wait + Log>(&mut self, rt: &R, shared: &Shared, place: u16, restart: Restart<S>) {
        let Some(Some(member)) = self.members.get_mut(place as usize) else {
            return drop(restart);
        };
        member.is_stopped = false;
        shared.stops.start(place);
        drop(member.to.send(rt, restart));
        info!(rt; "s{place} is started");
    }

    /// Has the Sentinel at this place start with what its store holds, once its threads have ended: its port opens
    /// again. Where it can't be started, as where it isn't stopped, nothing happens, and a note says why; without
    /// memory for it the group ends.
    pub(crate) fn start<R: Wait + Clock + Log, N: Net>(
        &mut self,
        rt: &R,
        net: &N,
        shared: &Shared,
        ending: &AtomicU64,
        place: u16,
    ) {
        if !self.is_stopped(place) {
            return warn!(rt; "s{place} can't be started: it runs");
        }
        if !self.await_store(rt, ending, place) {
            return;
        }
        match self.reopened(net, shared.state.clock.now(rt), place) {
            Ok(Some(restart)) => self.hand(rt, shared, place, restart),
            Ok(None) => end_for_want(&shared.state, ending),
            Err(why) => warn!(rt; "s{place} can't be started: {why}"),
        }
    }
}
