//! Who stands in a group.

ghost use Rattle.std.specs.Prelude.{◌≡◌, ◌<◌, ◌≤◌, IfSome, IfNone, length};
ghost use Rattle.scenario_replay.specs.Seating.{IsSeat};

use ballot_law::Roster;

/// A node of a group: a Sentinel by the place of its file, a data node and a client by their numbers. A client searches
/// for the master of its number.
#[derive(Clone, Copy, PartialEq, Eq)]
pub(crate) enum Seat {
    Sentinel(usize),
    Store(u16),
    Client(u16),
}

/// How many nodes of each kind a group has.
#[derive(Clone, Copy, PartialEq, Eq)]
pub(crate) struct Seats {
    pub(crate) sentinels: usize,
    pub(crate) stores: usize,
    pub(crate) clients: usize,
}

/// The number of a node of its kind, which a name can have.
fn number_of(number: usize) -> Option<u16>
    ensures { IfSome result (λ n. n ≡ number) }
{
    if number > u16::MAX as usize {
        return None;
    }
    Some(number as u16)
}

impl Seats {
    /// The seats of a group of so many files: with all data nodes of the roster, and a client for each master.
    pub(crate) fn of(files: usize, roster: &Roster) -> Seats
        ensures sentinels { result.sentinels ≡ files }
        ensures clients { result.clients ≡ length roster.now.masters }
    {
        Seats {
            sentinels: files,
            stores: roster.node_count(),
            clients: roster.masters().len(),
        }
    }

    /// How many there are.
    pub(crate) fn count(&self) -> usize
        ensures { self.now.sentinels ≤ result }
    {
        self.sentinels
            .saturating_add(self.stores)
            .saturating_add(self.clients)
    }

    /// The seat of this number: Sentinels first, each with the number of its file, then data nodes, then clients; none
    /// after the last.
    pub(crate) fn at(&self, number: usize) -> Option<Seat>
        ensures some { IfSome result (IsSeat self.now number) }
        ensures none { IfNone result (self.now.sentinels ≤ number) }
    {
        if number < self.sentinels {
            return Some(Seat::Sentinel(number));
        }
        let number = number - self.sentinels;
        if number < self.stores {
            return Some(Seat::Store(number_of(number)?));
        }
        let number = number - self.stores;
        if number < self.clients {
            return Some(Seat::Client(number_of(number)?));
        }
        None
    }
}
