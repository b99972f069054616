//! Which of a thread's connections has to go for a further one, and which is idle for long.

ghost use Rattle.std.specs.Prelude.{◌≡◌, ◌≤◌, [], false, true, IfSome};
ghost use Rattle.slab.specs.Slab.{get};
ghost use Rattle.courteous_sessions.specs.Clients.{listens_of, owes_password, unsent_of};
ghost use Rattle.client_port.specs.Admitting.{count_of, has_own_seat, MakesWay};
ghost use Rattle.client_port.specs.declared.standing.Look.TheVariants.{Goes};

use crate::ages::Ages;
use crate::connection::Connection;
use crate::crowds::Crowds;
use crate::key_queue::KeyQueue;
use crate::standing::Look;
use mio::net::TcpStream;
use slab::Slab;
use std::alloc::{AllocError, Global};

/// The connections of a thread.
pub(crate) type Connections = Slab<Connection<TcpStream>>;

/// A thread's connections by when they may have to go: `silent` has all by their last byte, but those that might not go
/// when they were looked at last, which are `aside`; `strangers` has those that owe the password by when they came; and
/// `crowds` counts them by their ips. `are_many_spent` is whether none of the ips from which many came might go when
/// they were looked at last.
#[derive(Drop)]
pub(crate) struct Seating {
    silent: Ages,
    strangers: Ages,
    aside: KeyQueue,
    crowds: Crowds,
    are_many_spent: bool,
}

/// What becomes of the connection with this key, as the first of those that owe the password, which counts since this
/// reading.
fn look_at_stranger(connections: &Connections, since: u64, key: usize) -> Look
    ensures goes { result ≡ Goes → IfSome (get connections.now key) (λ c. (has_own_seat c.origin.place ≡ false) × (owes_password c.session ≡ true)) }
{
    match connections.get(key) {
        Some(connection) => connection.standing().among_strangers(since),
        None => Look::Leaves,
    }
}

impl Seating {
    /// None is there. No memory is taken.
    pub(crate) fn new(alloc: Global) -> Seating {
        Seating {
            silent: Ages::new(alloc),
            strangers: Ages::new(alloc),
            aside: KeyQueue::new(alloc),
            crowds: Crowds::new(alloc),
            are_many_spent: false,
        }
    }

    /// Counts the connection that will have this key among those that are silent from this reading on, and among those
    /// that owe the password where its client does.
    pub(crate) fn add(&mut self, key: usize, since: u64, owes: bool) -> Result<(), AllocError> {
        self.aside.make_room(key)?;
        self.silent.add(key, since)?;
        if owes {
            self.strangers.add(key, since)?;
        }
        Ok(())
    }

    /// One more came from this ip.
    pub(crate) fn join_crowd(&mut self, ip: u32) -> Result<(), AllocError> {
        self.crowds.add(ip)
    }

    /// One of these is gone.
    pub(crate) fn leave_crowd(&mut self, ip: u32) {
        self.crowds.remove(ip);
    }

    /// The connection that owes the password for longest.
    fn first_stranger(&mut self, connections: &Connections) -> Option<usize>
        ensures goes { IfSome result (λ key. IfSome (get connections.now key) (λ c. (has_own_seat c.origin.place ≡ false) × (owes_password c.session ≡ true))) }
    {
        // (each is put off once at most)
        for _ in 0..self.strangers.len().saturating_mul(2) {
            let (since, key) = self.strangers.first()?;
            match look_at_stranger(connections, since, key) {
                Look::Goes => return Some(key),
                Look::Later(reading) => self.strangers.put_off(reading),
                Look::Aside | Look::Leaves | Look::Stays => self.strangers.drop_first(),
            }
        }
        None
    }

    /// What becomes of the connection with this key, as the first of those that are silent, which counts since this
    /// reading, where those go that came from an ip from which so many did.
    fn look_at_silent_one(
        &self,
        connections: &Connections,
        least: usize,
        since: u64,
        key: usize,
    ) -> Look
        ensures goes { result ≡ Goes → IfSome (get connections.now key) (λ c. (has_own_seat c.origin.place ≡ false)
            × (listens_of c.session ≡ false) × (unsent_of c.session ≡ [])) }
        ensures crowd { result ≡ Goes → IfSome (get connections.now key) (λ c. least ≤ count_of self.now.crowds.counts c.origin.ip) }
    {
        let Some(connection) = connections.get(key) else {
            return Look::Leaves;
        };
        if self.crowds.count(connection.ip()) < least {
            return Look::Aside;
        }
        connection.standing().among_silent(since)
    }

    /// The connection that has been silent for longest, of those that may go and that came from an ip from which so
    /// many did.
    fn silent_among(&mut self, connections: &Connections, least: usize) -> Option<usize>
        ensures goes { IfSome result (λ key. IfSome (get connections.now key) (λ c. (has_own_seat c.origin.place ≡ false)
            × (listens_of c.session ≡ false) × (unsent_of c.session ≡ []))) }
    {
        // (each is put off once at most)
        for _ in 0..self.silent.len().saturating_mul(2) {
            let (since, key) = self.silent.first()?;
            match self.look_at_silent_one(connections, least, since, key) {
                Look::Goes => return Some(key),
                Look::Later(reading) => self.silent.put_off(reading),
                Look::Aside => {
                    self.silent.drop_first();
                    self.aside.join(key);
                }
                Look::Leaves | Look::Stays => self.silent.drop_first(),
            }
        }
        None
    }

    /// The connection that has been silent for longest of those that may go: of the ips from which many came, and of
    /// all where none of these may.
    fn longest_silent(&mut self, connections: &Connections) -> Option<usize>
        ensures goes { IfSome result (λ key. IfSome (get connections.now key) (λ c. (has_own_seat c.origin.place ≡ false)
            × (listens_of c.session ≡ false) × (unsent_of c.session ≡ []))) }
    {
        if !self.are_many_spent {
            let many = self.crowds.many();
            if let Some(key) = self.silent_among(connections, many) {
                return Some(key);
            }
            self.bring_back(connections);
            self.are_many_spent = true;
        }
        self.silent_among(connections, 0)
    }

    /// The connection that has to go for a further one, where one has to.
    pub(crate) fn first_to_go(&mut self, connections: &Connections) -> Option<usize>
        ensures goes { IfSome result (λ key. IfSome (get connections.now key) (λ c. MakesWay c.origin.place c.session)) }
    {
        match self.first_stranger(connections) {
            Some(key) => Some(key),
            None => self.longest_silent(connections),
        }
    }

    /// Since when the connection is silent that has to go first: 0 where it owes the password, and the greatest reading
    /// where none has to.
    pub(crate) fn silent_since(&mut self, connections: &Connections) -> u64 {
        if self.first_stranger(connections).is_some() {
            return 0;
        }
        let Some(key) = self.longest_silent(connections) else {
            return u64::MAX;
        };
        match connections.get(key) {
            Some(connection) => connection.heard(),
            None => u64::MAX,
        }
    }

    /// Counts those again among the silent ones that were set aside, each since its last byte. One for which memory is
    /// refused stays aside.
    fn bring_back(&mut self, connections: &Connections) {
        for _ in 0..self.aside.len() {
            if let Some(key) = self.aside.next()
                && let Some(connection) = connections.get(key)
                && self.silent.add(key, connection.heard()).is_err()
            {
                self.aside.join(key);
            }
        }
    }

    /// Any of them may be looked at again.
    pub(crate) fn look_again(&mut self, connections: &Connections) {
        self.bring_back(connections);
        self.are_many_spent = false;
    }

    /// What becomes of the connection with this key, as the first of those that are silent, which counts since this
    /// reading, where those are closed that are idle for so long.
    fn look_at_idle_one(
        connections: &Connections,
        since: u64,
        idle_ms: u64,
        now: u64,
        key: usize,
    ) -> Look {
        if now.saturating_sub(since) < idle_ms {
            return Look::Stays;
        }
        match connections.get(key) {
            Some(connection) => connection.standing().among_idle(since, idle_ms, now),
            None => Look::Leaves,
        }
    }

    /// Takes away the first connection that is idle for so long; none is where that is 0.
    pub(crate) fn next_idle(
        &mut self,
        connections: &Connections,
        idle_ms: u64,
        now: u64,
    ) -> Option<usize> {
        if idle_ms == 0 {
            return None;
        }
        for _ in 0..self.silent.len() {
            let (since, key) = self.silent.first()?;
            match Seating::look_at_idle_one(connections, since, idle_ms, now, key) {
                Look::Goes => {
                    self.silent.drop_first();
                    return Some(key);
                }
                Look::Later(reading) => self.silent.put_off(reading),
                Look::Aside | Look::Leaves => self.silent.drop_first(),
                Look::Stays => return None,
            }
        }
        None
    }
}
