//! What a port's thread knows of its clients, and what the port counts.

ghost use Rattle.std.specs.Prelude.{◌≡◌};
ghost use Rattle.courteous_sessions.specs.Clients.{unsent_of};

use crate::connection::Connection;
use crate::process_times::{ProcessTimes, ReadsTimes};
use crate::seats::Seats;
use ballot_law::{Addr, RunId, Text};
use client_commands::{ClientEntry, Figures, PortFacts, Protocol};
use sentinel_conf::ConfStore;
use sentinel_runtime::{RunningSentinel, Which};
use std::alloc::{AllocError, Global};
use std::mem;
use std::net::SocketAddr;

/// How long the times of the process count, in milliseconds.
const TIMES_MS: u64 = 1_000;

/// Whence a connection came and where to, its number, and whether it has a seat that is kept for another Sentinel.
#[derive(Clone, Copy)]
pub(crate) struct Arrival {
    pub(crate) id: u64,
    pub(crate) address: SocketAddr,
    pub(crate) local: SocketAddr,
    pub(crate) came: u64,
    pub(crate) kept: bool,
}

/// What a thread of a port knows of its own clients, each at its key, and what all threads of the port count. It is
/// told to the session of a connection in its turn, and taken back after that. A port without courtesies has none.
#[derive(Drop)]
pub(crate) struct Roll {
    facts: PortFacts,
    is_kept: bool,
    most: u64,
    run_id: RunId,
    address: Addr,
    times: ProcessTimes,
    times_due: u64,
    alloc: Global,
}

/// The text of an address.
fn text_of(alloc: Global, address: SocketAddr) -> Result<Text, AllocError> {
    let text = format!(in alloc; "{address}")?;
    Ok(Text::from_vec(Vec::from_slice(alloc, text.as_bytes())?))
}

impl Roll {
    /// Nobody is there, where so many may be; `is_kept` is whether clients are told of it.
    pub(crate) fn new(alloc: Global, is_kept: bool, most: u64) -> Roll {
        Roll {
            facts: PortFacts::of(alloc, Figures::none()),
            is_kept,
            most,
            run_id: RunId { hi: 0, lo: 0 },
            address: Addr { ip: 0, port: 0 },
            times: ProcessTimes::none(),
            times_due: 0,
            alloc,
        }
    }

    /// The port is that of this Sentinel.
    pub(crate) fn serve<J: Which, S: ConfStore>(&mut self, member: &RunningSentinel<J, S>) {
        if let Some(own) = member.roster().sentinels().get(member.place() as usize) {
            self.run_id = own.id;
            self.address = own.addr;
        }
    }

    /// Looks at the times of the process, where they were looked at long before this reading of the clock.
    pub(crate) fn look_at_times<R: ReadsTimes>(&mut self, rt: &R, now: u64) {
        if self.is_kept && now >= self.times_due {
            self.times_due = now.saturating_add(TIMES_MS);
            if let Some(times) = rt.read_times(self.alloc) {
                self.times = times;
            }
        }
    }

    /// A client came, whose connection has this key.
    pub(crate) fn add(&mut self, key: usize, arrival: &Arrival) -> Result<(), AllocError> {
        if !self.is_kept {
            return Ok(());
        }
        let entry = ClientEntry {
            id: arrival.id,
            address: text_of(self.alloc, arrival.address)?,
            local: text_of(self.alloc, arrival.local)?,
            name: Text::from_vec(Vec::new(self.alloc)),
            protocol: Protocol::Two,
            came: arrival.came,
            heard: arrival.came,
            channels: 0,
            patterns: 0,
            place: key,
            gone: false,
            kept: arrival.kept,
        };
        match self.facts.clients.get_mut(key) {
            Some(old) => *old = entry,
            None => self.facts.clients.push(entry)?,
        }
        Ok(())
    }

    /// The client is gone whose connection had this key.
    pub(crate) fn remove(&mut self, key: usize) {
        if let Some(entry) = self.facts.clients.get_mut(key) {
            entry.gone = true;
        }
    }

    /// What the port counts at this reading of the clock.
    pub(crate) fn count(&mut self, seats: &Seats, now: u64) {
        if !self.is_kept {
            return;
        }
        self.facts.figures = Figures {
            process: self.times.process,
            run_id: self.run_id,
            address: self.address,
            clock: now,
            connected: seats.connected(),
            most: self.most,
            received: seats.received(),
            rejected: seats.rejected(),
            commands: seats.answered(),
            user_time: self.times.user,
            system_time: self.times.system,
        };
    }

    /// Tells a connection of it, or takes back what it was told. Nothing else of the connection changes.
    #[tactic(auto, using(crate::proofs::Sends::unsent_known))]
    pub(crate) fn swap<T: Drop>(&mut self, connection: &mut Connection<T>)
        ensures stream { connection.new.stream ≡ connection.old.stream }
        ensures unsent { unsent_of connection.new.session ≡ unsent_of connection.old.session }
    {
        if !self.is_kept {
            return;
        }
        let nothing = PortFacts::of(self.alloc, Figures::none());
        let mine = mem::replace(&mut self.facts, nothing);
        self.facts = connection.know_port(mine);
    }

    /// Notes what a connection with this key did in its turn.
    pub(crate) fn note<T: Drop>(&mut self, key: usize, connection: &Connection<T>) {
        let Some(entry) = self.facts.clients.get_mut(key) else {
            return;
        };
        entry.heard = connection.heard();
        let (channels, patterns) = connection.subscriptions();
        entry.channels = channels;
        entry.patterns = patterns;
        entry.protocol = connection.protocol();
        if entry.name.as_slice() != connection.name()
            && let Ok(name) = Text::from_slice(self.alloc, connection.name())
        {
            entry.name = name;
        }
    }

    /// Whether CLIENT KILL named the connection with this key.
    pub(crate) fn is_killed(&self, key: usize) -> bool {
        self.facts.killed.iter().any(|place| *place == key)
    }

    /// The keys of the connections that CLIENT KILL named since this was asked.
    pub(crate) fn take_killed(&mut self) -> Vec<usize> {
        mem::replace(&mut self.facts.killed, Vec::new(self.alloc))
    }
}
