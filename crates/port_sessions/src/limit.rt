//! How many values that may store a call answers.

ghost use Rattle.std.specs.Prelude.{◌≡◌, ◌+◌, ◌++◌, ℕ, List, true, false, IfOk};
ghost use Rattle.port_sessions.specs.Stores.{may_store, one_if};
ghost use Rattle.resp2.specs.Framing.Stream.{reading, bytes_in};

use ballot_law::{Command, NoMemory};
use resp2::{CommandFault, Frames};
use std::alloc::Global;
use std::mem;

/// How far the answers of a call reach: whether all whole values of a stream are answered.
#[derive(Clone, Copy, Debug, PartialEq, Eq)]
pub enum Reach {
    /// They are.
    Done,
    /// The next one may store, and waits.
    Waits,
    /// So much is unsent that all that comes next waits until some of it went out. A session without courtesies has no
    /// such limit.
    Full,
}

/// Whether the answer to a command may be stored before it is told: FLUSHCONFIG's, and a vote.
pub fn may_store(asked: &Result<Command, CommandFault>) -> bool
    ensures { result ≡ may_store asked.now }
{
    match asked {
        Ok(Command::FlushConfig) => true,
        Ok(
            Command::IsMasterDownByAddr {
                addr: _,
                epoch: _,
                candidate,
            },
        ) => candidate.is_some(),
        _ => false,
    }
}

/// How many more values a call answers that may store, and a reader of the stream that stands before the next value:
/// the one that reads it goes back to that where the value has to wait.
#[derive(Drop)]
pub struct Limit {
    alloc: Global,
    mark: Frames,
    most: u64,
    ghost stands: { mark ≡ reading (bytes_in mark) },
}

impl Limit {
    /// So many more, where these bytes are held.
    pub fn new(alloc: Global, held: &[u8], most: u64) -> Result<Limit, NoMemory>
        ensures { IfOk result (λ limit. (limit.mark ≡ reading held.now) × (limit.most ≡ most)) }
    {
        let mut mark = Frames::new(alloc);
        match mark.feed(held) {
            Ok(()) => Ok(Limit { alloc, mark, most }),
            Err(_) => Err(NoMemory),
        }
    }

    /// Whether a value is answered that asks this, which counts where it may store.
    pub fn allows(&mut self, asked: &Result<Command, CommandFault>) -> bool
        ensures yes { result ≡ true → self.old.most ≡ one_if (may_store asked.now) + self.new.most }
        ensures no { result ≡ false → (may_store asked.now ≡ true) × (self.old.most ≡ 0) × (self.new.most ≡ 0) }
        ensures mark { self.new.mark ≡ self.old.mark }
    {
        if !may_store(asked) {
            return true;
        }
        if self.most == 0 {
            return false;
        }
        self.most -= 1;
        true
    }

    /// Stands before the next value again: these bytes are held still.
    pub fn follow(&mut self, held: &[u8])
        ensures mark { (front : List ℕ) → self.old.mark ≡ reading (front ++ held.now) → self.new.mark ≡ reading held.now }
        ensures most { self.new.most ≡ self.old.most }
    {
        let passed = self.mark.held().len().saturating_sub(held.len());
        self.mark.skip(passed);
    }

    /// The reader that stands before the next value. The call ends with it.
    pub fn take_mark(&mut self) -> Frames
        ensures mark { result ≡ self.old.mark }
        ensures most { self.new.most ≡ self.old.most }
    {
        mem::replace(&mut self.mark, Frames::new(self.alloc))
    }
}
