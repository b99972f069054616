//! The own vote for a master and what a vote does, and the votes heard.

ghost use Rattle.std.specs.Prelude.{◌≡◌};
ghost use Rattle.ballot_law.specs.Ballots.{kept_of};
ghost use Rattle.ballot_law.specs.Clocks.{clock};
ghost use Rattle.ballot_law.specs.VotesHeard.{kept_at};
ghost use Rattle.sentinel_rules.specs.News.{vote_heard};
ghost use Rattle.sentinel_rules.specs.Profiles.{marked_at};
ghost use Rattle.sentinel_rules.specs.States.{master_of};
ghost use Rattle.sentinel_rules.specs.Ticks.{with_vote, pick_of, count_of};
ghost use Rattle.sentinel_rules.specs.Votes.{book_of, with_book, mark_for, requested};

use crate::cores::Core;
use crate::nodes::Plan;
use crate::pauses::election_ms;
use ballot_law::{HeardVote, RunId, clock_of};
use failover_states::SPREAD_MS;
use sentinel_rules::Profile;
use vote_book::VoteBook;

impl Core {
    /// A candidate's request for the vote of an epoch: the vote is given where none was in this epoch or a later one
    /// and the epoch hasn't passed; else the current epoch is raised at most. A vote for another Sentinel puts the own
    /// failover off.
    #[tactic(auto, using(crate::proofs::OwnVotes::refused))]
    pub fn ask_vote(&mut self, plan: &Plan, m: u16, now: u64, epoch: u64, candidate: RunId)
        ensures { self.new ≡ requested plan.now m (clock now) epoch candidate self.old }
    {
        let mut book = self.book(m);
        if !book.vote_for(epoch, candidate) {
            self.set_current(book.current());
            return;
        }
        self.keep_book(m, &book);
        self.note_vote(epoch, candidate);
        self.mark_for(plan, m, now, candidate);
    }

    /// The vote that a turn of the failover gives in the campaign's epoch, where it gives one.
    pub fn give_vote(&mut self, plan: &Plan, m: u16, now: u64, epoch: u64, vote: Option<RunId>)
        ensures { self.new ≡ with_vote plan.now m (clock now) epoch vote self.old }
    {
        if let Some(candidate) = vote {
            let mut book = self.book(m);
            let is_granted = book.vote_for(epoch, candidate);
            self.keep_book(m, &book);
            if is_granted {
                self.note_vote(epoch, candidate);
            }
            self.mark_for(plan, m, now, candidate);
        }
    }

    /// What is kept as the last start at a vote for another candidate.
    fn mark_at(&self, plan: &Plan, m: u16, now: u64) -> u64
        ensures { result ≡ marked_at plan.now self.now m (clock now) }
    {
        let at = clock_of(now);
        match plan.profile() {
            Profile::Strict => at + self.random % SPREAD_MS,
            Profile::Redis => at + election_ms(plan, m) + self.pause(plan),
        }
    }

    /// A vote for another Sentinel counts as a start, so that the own campaign waits.
    fn mark_for(&mut self, plan: &Plan, m: u16, now: u64, candidate: RunId)
        ensures { self.new ≡ mark_for plan.now m (clock now) candidate self.old }
    {
        if candidate.is_same(&plan.me()) {
            return;
        }
        self.notices.see_start(m, now);
        let at = self.mark_at(plan, m, now);
        if let Some(master) = self.masters.get_mut(m as usize) {
            master.failover.mark(at);
        }
    }

    /// The own vote for a master.
    pub fn book(&self, m: u16) -> VoteBook
        ensures { result ≡ book_of self.now m }
    {
        VoteBook::with_leader(self.kept.current, self.voted(m), self.leader(m))
    }

    /// Keeps the own vote for a master as this book has it.
    fn keep_book(&mut self, m: u16, book: &VoteBook)
        ensures { self.new ≡ with_book self.old m book.now }
    {
        self.set_vote(m, book.voted(), book.leader());
        self.set_current(book.current());
    }

    /// The candidate of the last vote for a master.
    pub fn leader(&self, m: u16) -> Option<RunId>
        ensures { result ≡ (kept_of self.now.kept m).candidate }
    {
        self.entry(m).candidate
    }

    /// Takes the vote of the Sentinel at a place for a master.
    pub fn hear_vote(&mut self, voter: u16, m: u16, epoch: u64, leader: Option<RunId>)
        ensures { self.new ≡ vote_heard voter m epoch leader self.old }
    {
        if let Some(leader) = leader
            && let Some(master) = self.masters.get_mut(m as usize)
            && (voter as usize) < master.heard.voters()
        {
            master.heard.hear(voter, leader, epoch);
        }
    }

    /// The last vote for a master that was heard of the Sentinel at a place.
    pub fn heard_vote(&self, m: u16, voter: u16) -> Option<HeardVote>
        ensures { result ≡ kept_at (master_of self.now m).heard voter }
    {
        match self.masters.get(m as usize) {
            Some(master) => master.heard.vote_of(voter),
            None => None,
        }
    }

    /// The candidate with most of the votes heard for a master at an epoch, the smaller run id on a tie; the own run id
    /// where none was heard.
    pub fn pick(&self, plan: &Plan, m: u16, epoch: u64) -> RunId
        ensures { result ≡ pick_of plan.now self.now m epoch }
    {
        match self.masters.get(m as usize) {
            Some(master) => master.heard.pick(epoch, plan.me()),
            None => plan.me(),
        }
    }

    /// How many of the votes heard for a master at an epoch are for this Sentinel.
    pub fn count(&self, plan: &Plan, m: u16, epoch: u64) -> u32
        ensures { result ≡ count_of plan.now self.now m epoch }
    {
        match self.masters.get(m as usize) {
            Some(master) => master.heard.count(epoch, plan.me()),
            None => 0,
        }
    }
}
