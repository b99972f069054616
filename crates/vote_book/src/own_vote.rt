//! The own vote for one master.

ghost use Rattle.std.specs.Prelude.{◌≡◌, max, ◌<◌, ◌≤◌, ◌⊎◌, Some, None, OnSome, IfSome, IfNone, IsSome, IsTrue, ◌↔◌};
ghost use Rattle.ballot_law.specs.OwnVotes.{raised, asked, grants};
ghost use Rattle.ballot_law.specs.VotesHeard.{own_votes};
ghost use Rattle.vote_book.specs.Elections.{can_open, next_epoch, elects};

use ballot_law::{MAX_EPOCH, RunId};
use std::marker::Model;

/// A vote as an answer to a request shows it.
#[derive(Clone, Copy, PartialEq, Eq)]
pub struct VoteAnswer {
    /// Whom the vote of this epoch went to: none where no vote was given since the start and none is in the file.
    pub leader: Option<RunId>,
    /// The epoch of the last vote, 0 where none was ever given.
    pub epoch: u64,
}

/// The current epoch and the last vote for one master, as a Sentinel keeps them.
///
/// A Sentinel votes once in an epoch, for the first candidate that asks. So no two Sentinels can win one epoch, which
/// is what makes a configuration epoch unique (documentation of Redis Sentinel, "Configuration epochs").
#[derive(Drop)]
pub struct VoteBook {
    current: u64,
    voted: u64,
    leader: Option<RunId>,
}

impl Model for VoteBook {
    ghost use Rattle.ballot_law.specs.OwnVotes.{Book};

    ghost Value = { Book };

    ghost view = { λ book. record { current = book.current; voted = book.voted; leader = book.leader } };
}

impl VoteBook {
    /// The book of a Sentinel that was just started: the current epoch, the epoch of the last vote and its candidate,
    /// as its file holds them. In epoch 0 no vote is given, so it has no candidate.
    pub fn of(current: u64, voted: u64, candidate: Option<RunId>) -> VoteBook
        requires no_vote { voted ≡ 0 → candidate ≡ None }
        ensures { result ≡ record { current = current; voted = voted; leader = candidate } }
    {
        VoteBook::with_leader(current, voted, candidate)
    }

    /// The book as it was read before by [`VoteBook::current`], [`VoteBook::voted`] and [`VoteBook::leader`]: for a
    /// Sentinel that keeps these three itself.
    pub fn with_leader(current: u64, voted: u64, leader: Option<RunId>) -> VoteBook
        ensures { result ≡ record { current = current; voted = voted; leader = leader } }
    {
        VoteBook {
            current,
            voted,
            leader,
        }
    }

    /// The current epoch: the greatest that the Sentinel has seen.
    pub fn current(&self) -> u64
        ensures { result ≡ self.now.current }
    {
        self.current
    }

    /// The epoch of the last vote, 0 where none was ever given.
    pub fn voted(&self) -> u64
        ensures { result ≡ self.now.voted }
    {
        self.voted
    }

    /// The candidate of the last vote: none where no vote was given since the start and none is in the file.
    pub fn leader(&self) -> Option<RunId>
        ensures { result ≡ self.now.leader }
    {
        self.leader
    }

    /// Whether a request for the vote of this epoch would get it: none was given in this epoch or a later one, and the
    /// epoch has not passed.
    pub fn grants(&self, epoch: u64) -> bool
        ensures { result ≡ grants self.now epoch }
    {
        self.voted < epoch && self.current <= epoch
    }

    /// Takes a candidate's request for the vote of an epoch, and answers the vote now kept.
    ///
    /// An epoch above the current one raises it. The candidate gets the vote where the book
    /// [`grants`](VoteBook::grants) it; else the vote stays as it was.
    pub fn ask(&mut self, epoch: u64, candidate: RunId) -> VoteAnswer
        ensures book { self.new ≡ asked self.old epoch candidate }
        ensures answer { result ≡ record { leader = self.new.leader; epoch = self.new.voted } }
        ensures current { self.new.current ≡ max self.old.current epoch }
        ensures granted { self.old.voted < epoch → self.old.current ≤ epoch →
            (self.new.voted ≡ epoch) × (self.new.leader ≡ Some candidate) }
        ensures refused { (epoch ≤ self.old.voted) ⊎ (epoch < self.old.current) →
            (self.new.voted ≡ self.old.voted) × (self.new.leader ≡ self.old.leader) }
        ensures never_falls { self.old.voted ≤ self.new.voted }
        ensures one_leader { self.new.voted ≡ self.old.voted → self.new.leader ≡ self.old.leader }
    {
        self.vote_for(epoch, candidate);
        VoteAnswer {
            leader: self.leader,
            epoch: self.voted,
        }
    }

    /// The same request, answered by whether the candidate got the vote by it.
    pub fn vote_for(&mut self, epoch: u64, candidate: RunId) -> bool
        ensures book { self.new ≡ asked self.old epoch candidate }
        ensures granted { result ≡ grants self.old epoch }
    {
        let is_granted = self.grants(epoch);
        if is_granted {
            self.leader = Some(candidate);
            self.voted = epoch;
        }
        self.raise(epoch);
        is_granted
    }

    /// Makes the current epoch at least this one; the vote stays.
    pub fn raise(&mut self, epoch: u64)
        ensures { self.new ≡ raised self.old epoch }
    {
        self.current = self.current.max(epoch);
    }

    /// Opens the epoch of a new campaign: raises the current epoch by one and gives it. None, with nothing changed, at
    /// the greatest epoch.
    pub fn open_campaign(&mut self) -> Option<u64>
        ensures some { IsSome result ↔ IsTrue (can_open self.old) }
        ensures epoch { IfSome result (λ epoch. epoch ≡ next_epoch self.old) }
        ensures opened { OnSome result (self.new ≡ record self.old { current = next_epoch self.old }) }
        ensures none { IfNone result (self.new ≡ self.old) }
    {
        if self.current >= MAX_EPOCH {
            return None;
        }
        self.current += 1;
        Some(self.current)
    }

    /// Whether `count` votes, plus our own if it went to `me` in this epoch, reach `need`: the greater of the majority
    /// of all Sentinels and the quorum (`Roster::need`).
    pub fn elects(&self, count: u32, epoch: u64, me: RunId, need: u32) -> bool
        ensures { result ≡ elects self.now count epoch me need }
    {
        need as u64 <= count as u64 + self.own_votes(epoch, me) as u64
    }

    /// One for the own vote, where it went to this candidate in this epoch.
    fn own_votes(&self, epoch: u64, candidate: RunId) -> u32
        ensures own { result ≡ own_votes self.now epoch candidate }
        ensures one { result ≤ 1 }
    {
        match self.leader {
            Some(leader) if self.voted == epoch && leader.is_same(&candidate) => 1,
            _ => 0,
        }
    }
}
