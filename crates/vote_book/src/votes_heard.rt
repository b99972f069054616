//! The votes that were heard of for one master, one of each voter.

ghost use Rattle.std.specs.Prelude.{◌≡◌, ℕ, ◌<◌, ◌≤◌, ◌^◌, ◌∷◌, ◌↔◌, List, [], None, IfOk, IsTrue, length, replicate};
ghost use Rattle.ballot_law.specs.VotesHeard.{Hearing, hearing_of, latest, leads, leader_below, count_in, pick_in, IsPick, IsElectedIn, kept_at, StandsFor, with_hearing};

use crate::VoteBook;
use ballot_law::{HeardVote, NoMemory, RunId};
use std::alloc::Global;
use std::marker::Model;

/// The votes of the other Sentinels for one master, as a Sentinel hears of them in their answers.
///
/// One vote of each voter is kept: the one of the greatest epoch, and the first that was heard of that epoch. So a
/// voter counts once, and what it is heard to say later of the same epoch changes nothing. Voters go by their places.
///
/// The contracts speak of the whole list of votes that were heard, the latest first: what is kept stands for that list.
/// They also say what each call makes of what is kept; that this stands for the longer list is a law of its own
/// ([`law_heard_keeps_the_latest`](crate::law_heard_keeps_the_latest)).
#[derive(Drop)]
pub struct Heard {
    votes: Vec<Option<HeardVote>>,
}

impl Model for Heard {
    ghost use Rattle.std.specs.Prelude.{List, Option, ◌<◌, ◌^◌, vec_len};
    ghost use Rattle.ballot_law.specs.declared.hearings.HeardVote.{HeardVote};

    ghost Value = { List (Option HeardVote) };

    ghost view = { λ heard. heard.votes.items };

    ghost invariant = { λ heard. vec_len heard.votes < 2 ^ 16 };
}

/// How many of the votes have this epoch and candidate.
fn count_of(votes: &[Option<HeardVote>], epoch: u64, candidate: RunId) -> u32
    requires { length votes.now < 2 ^ 16 }
    ensures few { result < 2 ^ 16 }
    ensures count { result ≡ count_in (kept_at votes.now) (length votes.now) epoch candidate }
{
    let mut count = 0;
    for vote in votes {
        if let Some(vote) = *vote
            && vote.epoch == epoch
            && vote.candidate.is_same(&candidate)
        {
            count += 1;
        }
    }
    count
}

/// Whether the first candidate has more votes, or as many and the smaller run id.
fn is_ahead(votes: &[Option<HeardVote>], epoch: u64, first: RunId, second: RunId) -> bool
    requires { length votes.now < 2 ^ 16 }
    ensures { result ≡
        leads (count_in (kept_at votes.now) (length votes.now) epoch) first second }
{
    let of_first = count_of(votes, epoch, first);
    let of_second = count_of(votes, epoch, second);
    if of_first != of_second {
        return of_second < of_first;
    }
    first.is_before(&second)
}

/// The candidate with most votes of the epoch, the smaller run id on a tie.
fn leader_among(votes: &[Option<HeardVote>], epoch: u64) -> Option<RunId>
    requires { length votes.now < 2 ^ 16 }
    ensures { result ≡ leader_below
        (count_in (kept_at votes.now) (length votes.now) epoch)
        (kept_at votes.now) epoch (length votes.now) }
{
    let mut leader: Option<RunId> = None;
    for vote in votes {
        if let Some(further) = *vote
            && further.epoch == epoch
        {
            leader = match leader {
                Some(leader) if !is_ahead(votes, epoch, further.candidate, leader) => Some(leader),
                _ => Some(further.candidate),
            };
        }
    }
    leader
}

/// The candidate with most votes of the epoch, the smaller run id on a tie; `me` where there is none.
fn pick_among(votes: &[Option<HeardVote>], epoch: u64, me: RunId) -> RunId
    requires { length votes.now < 2 ^ 16 }
    ensures { result ≡ pick_in (kept_at votes.now) (length votes.now) epoch me }
{
    leader_among(votes, epoch).unwrap_or(me)
}

impl Heard {
    /// No vote heard yet, of `n` voters.
    pub fn new(alloc: Global, n: u16) -> Result<Heard, NoMemory>
        ensures voters { IfOk result (λ heard. length heard ≡ n) }
        ensures nothing_heard { IfOk result (λ heard. StandsFor heard []) }
        ensures kept { IfOk result (λ heard. heard ≡ replicate n None) }
    {
        Ok(Heard {
            votes: vec![in alloc; None; n as usize]?,
        })
    }

    /// For how many voters there is room.
    pub fn voters(&self) -> usize
        ensures { result ≡ length self.now }
    {
        self.votes.len()
    }

    /// The vote that is kept of the voter at a place.
    pub fn vote_of(&self, voter: u16) -> Option<HeardVote>
        ensures { result ≡ kept_at self.now voter }
    {
        match self.votes.get(voter as usize) {
            Some(vote) => *vote,
            None => None,
        }
    }

    /// Hears that the voter at this place, one of those that there is room for, voted so. It replaces the vote that is
    /// kept of the voter only if its epoch is greater.
    pub fn hear(&mut self, voter: u16, candidate: RunId, epoch: u64)
        requires { voter < length self.old }
        ensures voters { length self.new ≡ length self.old }
        ensures heard { (heard : List Hearing) → StandsFor self.old heard →
            StandsFor self.new (hearing_of voter epoch candidate ∷ heard) }
        ensures kept { self.new ≡ with_hearing voter epoch candidate self.old }
    {
        let kept = &mut self.votes[voter as usize];
        let is_newer = match *kept {
            Some(vote) => vote.epoch < epoch,
            None => true,
        };
        if is_newer {
            *kept = Some(HeardVote { candidate, epoch });
        }
    }

    /// How many voters voted for the candidate in the epoch, by the vote that counts for each.
    pub fn count(&self, epoch: u64, candidate: RunId) -> u32
        ensures few { result < 2 ^ 16 }
        ensures count { (heard : List Hearing) → StandsFor self.now heard →
            result ≡ count_in (latest heard) (length self.now) epoch candidate }
        ensures kept { result ≡ count_in (kept_at self.now) (length self.now) epoch candidate }
    {
        count_of(&self.votes, epoch, candidate)
    }

    /// The candidate with most votes of the epoch, the smaller run id on a tie; `me` where none was heard of that
    /// epoch. A Sentinel that has not voted in the epoch votes for this candidate.
    pub fn pick(&self, epoch: u64, me: RunId) -> RunId
        ensures pick { (heard : List Hearing) → StandsFor self.now heard →
            result ≡ pick_in (latest heard) (length self.now) epoch me }
        ensures kept { result ≡ pick_in (kept_at self.now) (length self.now) epoch me }
        ensures most { IsPick (kept_at self.now) (length self.now) epoch me result }
    {
        pick_among(&self.votes, epoch, me)
    }
}

/// Whether the votes for `me` in the epoch, the own vote among them, are at least as many as are needed.
///
/// The epoch is the campaign's own: votes of any other epoch don't count, also where the current epoch has passed it
/// since. A Sentinel that has the count at hand asks its book ([`VoteBook::elects`]).
pub fn elected(book: &VoteBook, heard: &Heard, epoch: u64, me: RunId, need: u32) -> bool
    ensures elected { (hearings : List Hearing) → StandsFor heard.now hearings →
        IsTrue result ↔
        IsElectedIn (latest hearings) book.now (length heard.now) epoch me need }
    ensures kept { IsTrue result ↔
        IsElectedIn (kept_at heard.now) book.now (length heard.now) epoch me need }
{
    book.elects(heard.count(epoch, me), epoch, me, need)
}
