//! A client's search for a master.

use crate::given::{addr, number, says};
use crate::told::{Told, Unplayed};
use ballot_law::Addr;
use client_queries::{Move, Quest, QuestFault};
use std::alloc::Global;

/// A search; none before it began.
#[derive(Drop)]
pub(crate) struct Searches {
    alloc: Global,
    quest: Option<Quest>,
}

/// Tells a move; a Sentinel that is asked by its place in the list and its address.
fn tell_move(quest: &Quest, told: &mut Told) -> Result<(), Unplayed> {
    let (name, addr) = match quest.next_move() {
        Move::Ask(place) => {
            told.word("ask")?;
            told.number(place as u64)?;
            let addr = quest.at(place).ok_or(Unplayed::OutOfRange)?;
            return told.address(addr);
        }
        Move::Connect(addr) => ("connect", Some(addr)),
        Move::CheckRole(addr) => ("check", Some(addr)),
        Move::Wait => ("wait", None),
        Move::NoSentinel => ("no-sentinel", None),
        Move::Done(addr) => ("done", Some(addr)),
    };
    told.word(name)?;
    match addr {
        Some(addr) => told.address(addr),
        None => Ok(()),
    }
}

/// Has the search hear what came of its last move: whether that can come of it.
fn hear(quest: &mut Quest, call: &str, words: &[Vec<u8>]) -> Result<bool, Unplayed> {
    match (call, words) {
        ("answered", [word]) if word.as_slice() == b"None".as_slice() => Ok(quest.answered(None)),
        ("answered", [word]) => Ok(quest.answered(Some(addr(word)?))),
        ("connected", []) => Ok(quest.connected()),
        ("failed", []) => Ok(quest.failed()),
        ("failed_times", [times]) => {
            let mut fits = true;
            for _ in 0..number(times)? {
                fits = quest.failed();
            }
            Ok(fits)
        }
        ("role", [word]) => Ok(quest.role_was(says(word, "master", "slave")?)),
        ("waited", []) => Ok(quest.waited()),
        _ => Err(Unplayed::NoSuchCall),
    }
}

impl Searches {
    /// None began.
    pub(crate) fn new(alloc: Global) -> Searches {
        Searches { alloc, quest: None }
    }

    /// A search over these Sentinels begins, or the fault of the list is told.
    fn begin(&mut self, list: &[Addr], told: &mut Told) -> Result<(), Unplayed> {
        match Quest::new(self.alloc, list) {
            Ok(quest) => {
                tell_move(&quest, told)?;
                self.quest = Some(quest);
                Ok(())
            }
            Err(QuestFault::Empty) => told.word("Empty"),
            Err(QuestFault::TooMany) => told.word("TooMany"),
            Err(QuestFault::NoMemory) => Err(Unplayed::NoMemory),
        }
    }

    /// Tells what comes of a call with these words.
    pub(crate) fn play(
        &mut self,
        call: &str,
        words: &[Vec<u8>],
        told: &mut Told,
    ) -> Result<(), Unplayed> {
        let mut list = Vec::new(self.alloc);
        match (call, words) {
            ("search", words) => {
                for word in words {
                    list.push(addr(word)?)?;
                }
                return self.begin(&list, told);
            }
            ("search_alike", [count, word]) => {
                for _ in 0..number(count)? {
                    list.push(addr(word)?)?;
                }
                return self.begin(&list, told);
            }
            _ => {}
        }
        let quest = self.quest.as_mut().ok_or(Unplayed::OutOfRange)?;
        if !hear(quest, call, words)? {
            told.word("no")?;
        }
        tell_move(quest, told)
    }
}
