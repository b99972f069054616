//! What a turn of a failover looks at, and what it answers.

ghost use Rattle.std.specs.Prelude.{◌≡◌};
ghost use Rattle.failover_states.specs.Elections.{book_in, vote_in, is_elected};
ghost use Rattle.failover_states.specs.Known.{known, is_down};

use crate::states::Row;
use ballot_law::{Addr, RunId};
use vote_book::VoteBook;

/// What a turn of a failover looks at. Epochs are at most `MAX_EPOCH`; places are those of the master's nodes in the
/// roster, which are ordered by address.
#[derive(Clone, Copy)]
pub struct Facts<'a> {
    /// The reading of the Sentinel's clock, in milliseconds.
    pub now: u64,
    /// The random number of the tick.
    pub random: u64,
    /// Whether the master is objectively down.
    pub odown: bool,
    /// The Sentinel's current epoch.
    pub current: u64,
    /// The epoch of its last vote for this master, 0 where there is none.
    pub voted: u64,
    /// The candidate of that vote, where it is known.
    pub own: Option<RunId>,
    /// The Sentinel's own run id.
    pub me: RunId,
    /// How many votes elect.
    pub need: u32,
    /// The candidate with most of the votes heard at the campaign's epoch, or the Sentinel itself
    /// ([`vote_book::Heard::pick`]).
    pub pick: RunId,
    /// How many of the votes heard at the campaign's epoch are for the Sentinel ([`vote_book::Heard::count`]).
    pub count: u32,
    /// The best replica ([`replica_choice::choose`]), by place and address; none where no replica can be promoted.
    pub best: Option<(u16, Addr)>,
    /// The place of the node that the configuration names as the master.
    pub card_place: u16,
    /// Whether each of the master's nodes is subjectively down, by place.
    pub down: &'a [bool],
    /// The setting `failover-timeout`, in milliseconds.
    pub timeout: u64,
    /// The setting `parallel-syncs`.
    pub parallel_syncs: u64,
}

/// What a turn of a failover did.
#[derive(Clone, Copy, PartialEq, Eq)]
pub struct Act {
    /// The last row that was taken; none where none fits.
    pub row: Option<Row>,
    /// The vote that the Sentinel gives in the campaign's epoch, where it gives one.
    pub vote: Option<RunId>,
}

impl Act {
    /// A row with no vote.
    pub(crate) fn of(row: Row) -> Act
        ensures { result ≡ record { row = Some row; vote = None } }
    {
        Act {
            row: Some(row),
            vote: None,
        }
    }
}

impl Facts<'_> {
    /// The own vote before the turn.
    pub(crate) fn book(&self) -> VoteBook
        ensures { result ≡ book_in (known self.entry.now) }
    {
        VoteBook::with_leader(self.current, self.voted, self.own)
    }

    /// The vote that the Sentinel gives in the campaign's epoch, where it can still give one.
    pub(crate) fn vote_in(&self, epoch: u64) -> Option<RunId>
        ensures { result ≡ vote_in epoch (known self.entry.now) }
    {
        if self.book().grants(epoch) {
            Some(self.pick)
        } else {
            None
        }
    }

    /// Whether the votes heard in the campaign's epoch elect the Sentinel, with its own one.
    pub(crate) fn is_elected(&self, epoch: u64) -> bool
        ensures { result ≡ is_elected epoch (known self.entry.now) }
    {
        let mut book = self.book();
        book.ask(epoch, self.pick);
        book.elects(self.count, epoch, self.me, self.need)
    }

    /// Whether the node at a place is down.
    pub(crate) fn is_down(&self, place: usize) -> bool
        ensures { result ≡ is_down (known self.entry.now) place }
    {
        place < self.down.len() && self.down[place]
    }
}
