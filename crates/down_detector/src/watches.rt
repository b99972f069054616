//! What a Sentinel keeps of one node.

ghost use Rattle.std.specs.Prelude.{◌≡◌, ℕ, ◌+◌, ◌∷◌, List, [], is_some};
ghost use Rattle.ballot_law.specs.Clocks.{clock};
ghost use Rattle.ballot_law.specs.Watches.{WatchCall, HeardReply, ReportedRole, ChangedCard, passed_at, down_since, StandsForCalls, opened_at, after_reply, after_role, after_change, down_since_of};

use ballot_law::{DataRole, PingReply, REPLICA_MS, clock_of};
use std::marker::Model;

/// What a Sentinel keeps of one node: since when it has been silent, and since when it has reported itself a replica
/// without a break.
#[derive(Clone, Copy, PartialEq, Eq)]
pub struct Watch {
    silent_from: u64,
    replica_since: Option<u64>,
}

impl Model for Watch {
    ghost use Rattle.ballot_law.specs.Watches.{WatchState};

    ghost Value = { WatchState };

    ghost view = { λ watch. record {
      silent_from = watch.silent_from;
      replica_since = watch.replica_since;
    } };

    ghost inverse = { λ watched. record {
      silent_from = watched.silent_from;
      replica_since = watched.replica_since;
    } };
}

/// The end of a time that began at a moment, where more than the time has passed. The time is of two parts.
fn passed(began: u64, bound: u64, more: u64, now: u64) -> Option<u64>
    ensures { result ≡ passed_at began (bound + more) now }
{
    let past = now.saturating_sub(began);
    if past > bound && past - bound > more {
        Some(began + bound + more)
    } else {
        None
    }
}

impl Watch {
    /// The watch of a node of which nothing was heard yet. Its silence counts from now.
    pub fn new(now: u64) -> Watch
        ensures stands { StandsForCalls result (clock now) [] }
        ensures kept { result ≡ opened_at (clock now) }
    {
        Watch {
            silent_from: clock_of(now),
            replica_since: None,
        }
    }

    /// When its last valid answer to a PING came; before the first one when the watch was opened.
    pub fn silent_from(&self) -> u64
        ensures { result ≡ self.now.silent_from }
    {
        self.silent_from
    }

    /// The node answered a PING. A valid answer ends its silence, any other changes nothing.
    pub fn heard(&mut self, now: u64, reply: PingReply)
        ensures stands { (opened : ℕ) (calls : List WatchCall) → StandsForCalls self.old opened calls
            → StandsForCalls self.new opened (HeardReply (clock now) reply ∷ calls) }
        ensures kept { self.new ≡ after_reply (clock now) reply self.old }
    {
        match reply {
            PingReply::Pong | PingReply::Loading | PingReply::MasterDown => {
                self.silent_from = clock_of(now);
            }
            PingReply::Other => {}
        }
    }

    /// The node's INFO told its role.
    pub fn reported(&mut self, now: u64, role: DataRole)
        ensures stands { (opened : ℕ) (calls : List WatchCall) → StandsForCalls self.old opened calls
            → StandsForCalls self.new opened (ReportedRole (clock now) role ∷ calls) }
        ensures kept { self.new ≡ after_role (clock now) role self.old }
    {
        self.replica_since = match role {
            DataRole::Master => None,
            DataRole::Replica => Some(self.replica_since.unwrap_or(clock_of(now))),
        };
    }

    /// The address of the node's master changed: a node that last reported itself a replica counts as having done so
    /// since now.
    pub fn card_changed(&mut self, now: u64)
        ensures stands { (opened : ℕ) (calls : List WatchCall) → StandsForCalls self.old opened calls
            → StandsForCalls self.new opened (ChangedCard (clock now) ∷ calls) }
        ensures kept { self.new ≡ after_change (clock now) self.old }
    {
        if self.replica_since.is_some() {
            self.replica_since = Some(clock_of(now));
        }
    }

    /// Since when the node has reported itself a replica without a break, or its master's address last changed.
    pub fn replica_since(&self) -> Option<u64>
        ensures { result ≡ self.now.replica_since }
    {
        self.replica_since
    }

    /// Whether the node is subjectively down (the Redis Sentinel documentation, "SDOWN and ODOWN failure state"): it
    /// has been silent for more than `after_ms` milliseconds, or it is to be a master and has reported itself a replica
    /// without a break for more than `after_ms` and 20,000.
    pub fn is_sdown(&self, now: u64, after_ms: u64, as_master: bool) -> bool
        ensures down { (opened : ℕ) (calls : List WatchCall) → StandsForCalls self.now opened calls
            → result ≡ is_some (down_since opened calls (clock now) after_ms as_master) }
        ensures kept { result ≡ is_some (down_since_of self.now (clock now) after_ms as_master) }
    {
        self.sdown_since(now, after_ms, as_master).is_some()
    }

    /// Since when the node is subjectively down, in milliseconds: the end of the time that it was allowed, the earlier
    /// one where it is down for both causes. None where it isn't down.
    pub fn sdown_since(&self, now: u64, after_ms: u64, as_master: bool) -> Option<u64>
        ensures since { (opened : ℕ) (calls : List WatchCall) → StandsForCalls self.now opened calls
            → result ≡ down_since opened calls (clock now) after_ms as_master }
        ensures kept { result ≡ down_since_of self.now (clock now) after_ms as_master }
    {
        let now = clock_of(now);
        let silent = passed(self.silent_from, after_ms, 0, now);
        let demoted = match self.replica_since {
            Some(began) if as_master => passed(began, after_ms, REPLICA_MS, now),
            _ => None,
        };
        match (silent, demoted) {
            (Some(a), Some(b)) => Some(a.min(b)),
            (None, other) => other,
            (other, None) => other,
        }
    }
}
