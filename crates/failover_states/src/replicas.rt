//! What a failover keeps of each node of its master, and whom it tells to follow the new one.

ghost use Rattle.std.specs.Prelude.{◌≡◌, ℕ, ◌<◌, ◌&&◌, IsTrue, true, false, map};
ghost use Rattle.ballot_law.specs.Clocks.{clock};
ghost use Rattle.failover_states.specs.Known.{known};
ghost use Rattle.failover_states.specs.Replicas.{forgotten, unordered, expired, is_unsent, is_due, is_next, told, all_from, followed};
ghost use Rattle.failover_states.specs.Orders.{ordered_from};
ghost use Rattle.failover_states.specs.Table.{is_replica, can_be_told, is_settled, busy_count};

use crate::periods::ORDER_MS;
use crate::states::Choice;
use crate::turns::Facts;
use ballot_law::clock_of;

/// How far a replica has come.
#[derive(Clone, Copy, PartialEq, Eq)]
pub enum Progress {
    /// REPLICAOF wasn't sent to it.
    Unsent,
    /// It was sent at this moment, in milliseconds.
    Sent(u64),
    /// It follows the new master, or was given long enough to.
    Done,
}

/// A node of the master, and whether the last turn tells it to follow the new master.
#[derive(Clone, Copy, PartialEq, Eq)]
pub struct Replica {
    pub progress: Progress,
    pub ordered: bool,
}

impl Replica {
    /// The replica, done where it was sent to long ago.
    fn after_time(self, now: u64) -> Replica
        ensures { result ≡ expired now self }
    {
        match self.progress {
            Progress::Sent(at) if now.saturating_sub(at) > ORDER_MS => Replica {
                progress: Progress::Done,
                ordered: self.ordered,
            },
            _ => self,
        }
    }

    /// The replica, done where it was sent to.
    pub(crate) fn follows(self) -> Replica
        ensures { result ≡ followed self }
    {
        match self.progress {
            Progress::Unsent => self,
            _ => Replica {
                progress: Progress::Done,
                ordered: self.ordered,
            },
        }
    }
}

/// The new master and the former one: all other nodes are to follow the new one.
#[derive(Clone, Copy)]
pub(crate) struct Masters {
    pub(crate) choice: Choice,
    pub(crate) former: u16,
}

impl Masters {
    fn is_replica(self, place: usize) -> bool
        ensures { result ≡ is_replica self.choice self.former place }
    {
        place != self.choice.place as usize && place != self.former as usize
    }

    fn can_tell(self, facts: &Facts, place: usize) -> bool
        ensures { result ≡ can_be_told self.choice self.former (known facts.entry.now) place }
    {
        self.is_replica(place) && !facts.is_down(place)
    }

    fn is_settled(self, facts: &Facts, place: usize, replica: Replica) -> bool
        ensures { result
            ≡ is_settled self.choice self.former (known facts.entry.now) place replica }
    {
        !self.is_replica(place) || replica.progress == Progress::Done || facts.is_down(place)
    }

    /// Whether each replica is done or down.
    pub(crate) fn are_settled(self, facts: &Facts, replicas: &[Replica]) -> bool
        ensures { let settled = is_settled self.choice self.former (known facts.entry.now) in
            result ≡ all_from settled 0 replicas.now }
    {
        for (place, replica) in replicas.iter().enumerate() {
            if !self.is_settled(facts, place, *replica) {
                return false;
            }
        }
        true
    }

    /// Whether the replica at a place takes one of the orders that are left.
    fn takes_order(self, facts: &Facts, place: usize, replica: Replica, left: u64) -> bool
        ensures yes { IsTrue result → (0 < left) × (is_unsent replica.progress ≡ true)
            × (can_be_told self.choice self.former (known facts.entry.now) place ≡ true) }
        ensures no { result ≡ false → 0 < left → (is_unsent replica.progress
            && can_be_told self.choice self.former (known facts.entry.now) place) ≡ false }
    {
        left > 0 && replica.progress == Progress::Unsent && self.can_tell(facts, place)
    }

    /// Tells so many more replicas to follow the new master, by their places.
    fn tell(self, facts: &Facts, replicas: &mut [Replica], free: u64)
        ensures { let can = can_be_told self.choice self.former (known facts.entry.now) in
            replicas.new ≡ ordered_from can (clock facts.entry.now.now) 0 free replicas.old }
    {
        let now = clock_of(facts.now);
        let mut left = free;
        for place in 0..replicas.len() {
            if self.takes_order(facts, place, replicas[place], left) {
                replicas[place] = Replica {
                    progress: Progress::Sent(now),
                    ordered: true,
                };
                left -= 1;
            }
        }
    }

    /// Tells all replicas to follow the new master that aren't down and were not told yet.
    pub(crate) fn tell_all(self, facts: &Facts, replicas: &mut [Replica])
        ensures { let can = can_be_told self.choice self.former (known facts.entry.now) in
            replicas.new ≡ told (is_due can replicas.old) (clock facts.entry.now.now) replicas.old }
    {
        let all = replicas.len() as u64;
        self.tell(facts, replicas, all);
    }

    /// Tells them by their places, while fewer than may be at once were told and aren't done.
    pub(crate) fn tell_next(self, facts: &Facts, replicas: &mut [Replica])
        ensures { let can = can_be_told self.choice self.former (known facts.entry.now) in
            let limit = facts.entry.now.parallel_syncs in
            let next = is_next can (busy_count replicas.old) limit replicas.old in
            replicas.new ≡ told next (clock facts.entry.now.now) replicas.old }
    {
        let free = facts.parallel_syncs.saturating_sub(busy(replicas) as u64);
        self.tell(facts, replicas, free);
    }
}

/// The orders of the turn before are over.
pub(crate) fn clear_orders(replicas: &mut [Replica])
    ensures { replicas.new ≡ map unordered replicas.old }
{
    for replica in replicas.iter_mut() {
        replica.ordered = false;
    }
}

/// Forgets what was sent.
pub(crate) fn forget(replicas: &mut [Replica])
    ensures { replicas.new ≡ map forgotten replicas.old }
{
    for replica in replicas.iter_mut() {
        replica.progress = Progress::Unsent;
    }
}

/// Those that were sent to long ago are done.
pub(crate) fn expire(replicas: &mut [Replica], now: u64)
    ensures { replicas.new ≡ map (expired now) replicas.old }
{
    for replica in replicas.iter_mut() {
        *replica = replica.after_time(now);
    }
}

/// How many were sent to and aren't done.
fn busy(replicas: &[Replica]) -> usize
    ensures { result ≡ busy_count replicas.now }
{
    replicas
        .iter()
        .filter(|replica| matches!(replica.progress, Progress::Sent(_)))
        .count()
}
