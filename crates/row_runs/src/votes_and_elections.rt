//! The own vote of a Sentinel for one master, and the votes of others that it heard of.

use crate::given::{id, maybe_id, number, number_16, number_32};
use crate::told::{Told, Unplayed};
use ballot_law::RunId;
use std::alloc::Global;
use vote_book::{Heard, VoteBook, elected};

/// The own vote, and the votes heard.
#[derive(Drop)]
pub(crate) struct Votes {
    alloc: Global,
    book: VoteBook,
    heard: Heard,
}

impl Votes {
    /// No vote was given, and none can be heard.
    pub(crate) fn new(alloc: Global) -> Result<Votes, Unplayed> {
        Ok(Votes {
            alloc,
            book: VoteBook::of(0, 0, None),
            heard: Heard::new(alloc, 0)?,
        })
    }

    /// A Sentinel starts with these.
    fn start(
        &mut self,
        current: u64,
        voted: u64,
        candidate: Option<RunId>,
    ) -> Result<(), Unplayed> {
        if voted == 0 && candidate.is_some() {
            return Err(Unplayed::OutOfRange);
        }
        self.book = VoteBook::of(current, voted, candidate);
        Ok(())
    }

    /// A vote is heard.
    fn hear(&mut self, voter: u16, candidate: RunId, epoch: u64) -> Result<(), Unplayed> {
        if usize::from(voter) >= self.heard.voters() {
            return Err(Unplayed::OutOfRange);
        }
        self.heard.hear(voter, candidate, epoch);
        Ok(())
    }

    /// Tells what comes of a call about the own vote.
    fn play_book(
        &mut self,
        call: &str,
        words: &[Vec<u8>],
        told: &mut Told,
    ) -> Result<(), Unplayed> {
        match (call, words) {
            ("book", [current, voted, candidate]) => {
                self.start(number(current)?, number(voted)?, maybe_id(candidate)?)?;
                told.ok()
            }
            ("ask", [epoch, candidate]) => {
                let answer = self.book.ask(number(epoch)?, id(candidate)?);
                told.maybe_id(answer.leader)?;
                told.number(answer.epoch)
            }
            ("campaign", []) => told.maybe_number(self.book.open_campaign()),
            ("raise", [epoch]) => {
                self.book.raise(number(epoch)?);
                told.ok()
            }
            ("current", []) => told.number(self.book.current()),
            ("voted", []) => {
                told.maybe_id(self.book.leader())?;
                told.number(self.book.voted())
            }
            _ => Err(Unplayed::NoSuchCall),
        }
    }

    /// Tells what comes of a call with these words.
    pub(crate) fn play(
        &mut self,
        call: &str,
        words: &[Vec<u8>],
        told: &mut Told,
    ) -> Result<(), Unplayed> {
        match (call, words) {
            ("heard", [voters]) => {
                self.heard = Heard::new(self.alloc, number_16(voters)?)?;
                told.ok()
            }
            ("hear", [voter, candidate, epoch]) => {
                self.hear(number_16(voter)?, id(candidate)?, number(epoch)?)?;
                told.ok()
            }
            ("count", [epoch, candidate]) => {
                let count = self.heard.count(number(epoch)?, id(candidate)?);
                told.number(u64::from(count))
            }
            ("pick", [epoch, candidate]) => {
                let pick = self.heard.pick(number(epoch)?, id(candidate)?);
                told.maybe_id(Some(pick))
            }
            ("elected", [epoch, candidate, need]) => told.yes(elected(
                &self.book,
                &self.heard,
                number(epoch)?,
                id(candidate)?,
                number_32(need)?,
            )),
            _ => self.play_book(call, words, told),
        }
    }
}
