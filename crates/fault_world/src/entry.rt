//! An entry of a report.

ghost use Rattle.std.specs.Prelude.{◌≡◌, ◌<◌, length};
ghost use Rattle.ballot_law.specs.Rosters.{size};
ghost use Rattle.fault_world.specs.Told.{entry_of_election, entry_of_said};

use ballot_law::{Advertisement, Card, Election, Name, Roster, RunId};

/// What happened, in the words of the roster.
#[derive(Clone, Copy, PartialEq, Eq)]
pub enum Entry {
    /// A Sentinel stored its election for a master.
    Elected {
        master: Name,
        /// The epoch of the Sentinel's campaign, at most `MAX_EPOCH`.
        epoch: u64,
        /// The Sentinel that was elected.
        id: RunId,
    },
    /// A Sentinel showed a master's configuration to a client or to other Sentinels.
    Said {
        /// The Sentinel that showed it.
        id: RunId,
        master: Name,
        card: Card,
    },
}

impl Entry {
    /// The entry of an election: the numbers of the Sentinel and of the master become its run id and its name. Both are
    /// in the roster.
    pub fn of_election(roster: &Roster, election: &Election) -> Entry
        requires sentinel { election.now.sentinel < size roster.now }
        requires master { election.now.master < length roster.now.masters }
        ensures { result ≡ entry_of_election roster.now election.now }
    {
        let master = &roster.masters()[election.master as usize];
        let sentinel = &roster.sentinels()[election.sentinel as usize];
        Entry::Elected {
            master: master.name,
            epoch: election.epoch,
            id: sentinel.id,
        }
    }

    /// The entry of a configuration that was shown: the numbers of the Sentinel and of the master become its run id and
    /// its name. Both are in the roster.
    pub fn of_said(roster: &Roster, said: &Advertisement) -> Entry
        requires sentinel { said.now.sentinel < size roster.now }
        requires master { said.now.master < length roster.now.masters }
        ensures { result ≡ entry_of_said roster.now said.now }
    {
        let master = &roster.masters()[said.master as usize];
        let sentinel = &roster.sentinels()[said.sentinel as usize];
        Entry::Said {
            id: sentinel.id,
            master: master.name,
            card: said.card,
        }
    }
}
