//! Whether two rosters are one.

ghost use Rattle.std.specs.Prelude.{◌≡◌, ◌≢◌, ◌↔◌, IsTrue, IsFalse};

use crate::addresses::Addr;
use crate::rosters::{Member, Roster, Watched};

fn are_same_addrs(some: &[Addr], others: &[Addr]) -> bool
    ensures same { IsTrue result → some.now ≡ others.now }
    ensures other { IsFalse result → some.now ≢ others.now }
{
    some == others
}

fn are_same_members(some: &[Member], others: &[Member]) -> bool
    ensures same { IsTrue result → some.now ≡ others.now }
    ensures other { IsFalse result → some.now ≢ others.now }
{
    some == others
}

fn is_same_master(one: &Watched, other: &Watched) -> bool
    ensures same { IsTrue result → one.now ≡ other.now }
    ensures other { IsFalse result → one.now ≢ other.now }
{
    if !one.name.is_same(other.name) || one.quorum != other.quorum {
        return false;
    }
    are_same_addrs(one.nodes(), other.nodes())
}

fn are_same_masters(some: &[Watched], others: &[Watched]) -> bool
    ensures same { IsTrue result → some.now ≡ others.now }
    ensures other { IsFalse result → some.now ≢ others.now }
{
    if some.len() != others.len() {
        return false;
    }
    for place in 0..some.len() {
        if !is_same_master(&some[place], &others[place]) {
            return false;
        }
    }
    true
}

impl Roster {
    /// Whether the other is the same roster: the same Sentinels, and the same masters with the same data nodes and
    /// quorums.
    pub fn is_same(&self, other: &Roster) -> bool
        ensures { IsTrue result ↔ (self.now ≡ other.now) }
    {
        if !are_same_members(self.sentinels(), other.sentinels()) {
            return false;
        }
        are_same_masters(self.masters(), other.masters())
    }
}
