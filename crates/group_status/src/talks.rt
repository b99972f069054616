//! The conversation with one node, without its socket.

use crate::rows::names_told;
use crate::said::{Trouble, Unsaid};
use crate::targets::Credentials;
use ballot_law::NoMemory;
use bytes::BytesMut;
use resp2::{FrameFault, Frames, OutText, Value, push_words};
use std::alloc::Global;

/// The place of the answer to MASTERS among those of a Sentinel.
const MASTERS_AT: usize = 2;

/// The questions to a node and its answers so far. What it puts out and what comes may be cut anywhere. It is over once
/// all answers came, or once `trouble` says why they don't.
///
/// `due` is how many answers are wanted in all; `asks_more` whether the questions of each master aren't put out yet;
/// `logs_in` whether the next answer is that of the login.
#[derive(Drop)]
pub(crate) struct Talk {
    alloc: Global,
    frames: Frames,
    unsent: BytesMut,
    answers: Vec<Value>,
    due: usize,
    asks_more: bool,
    logs_in: bool,
    trouble: Option<Trouble>,
}

/// What an error says that refuses this client, and not the question alone.
fn refusal_of(text: &[u8]) -> Option<Trouble> {
    if text.starts_with(b"NOAUTH Authentication required") {
        return Some(Trouble::WantsPassword);
    }
    if text.starts_with(b"WRONGPASS ") {
        return Some(Trouble::WrongPassword);
    }
    if text.starts_with(b"NOPERM ") {
        return Some(Trouble::NoRights);
    }
    if text.starts_with(b"DENIED ") {
        return Some(Trouble::Protected);
    }
    if text.starts_with(b"ERR max number of clients reached") {
        return Some(Trouble::Full);
    }
    None
}

impl Talk {
    /// A conversation in which a Sentinel is asked for its run id, whether it is in TILT, and for its masters, then of
    /// each for its replicas, the other Sentinels and the quorum.
    pub(crate) fn with_sentinel(
        alloc: Global,
        credentials: &Credentials,
    ) -> Result<Talk, NoMemory> {
        let mut talk = Talk::begun(alloc, credentials)?;
        talk.ask(&[b"SENTINEL", b"MYID"])?;
        talk.ask(&[b"INFO", b"sentinel"])?;
        talk.ask(&[b"SENTINEL", b"MASTERS"])?;
        talk.asks_more = true;
        Ok(talk)
    }

    /// A conversation in which a data node is asked for its INFO.
    pub(crate) fn with_data_node(
        alloc: Global,
        credentials: &Credentials,
    ) -> Result<Talk, NoMemory> {
        let mut talk = Talk::begun(alloc, credentials)?;
        talk.ask(&[b"INFO"])?;
        Ok(talk)
    }

    /// One that begins with the login, where there is a password.
    fn begun(alloc: Global, credentials: &Credentials) -> Result<Talk, NoMemory> {
        let mut talk = Talk {
            alloc,
            frames: Frames::new(alloc),
            unsent: BytesMut::new(alloc),
            answers: Vec::new(alloc),
            due: 0,
            asks_more: false,
            logs_in: false,
            trouble: None,
        };
        let (user, pass) = (credentials.user(), credentials.pass());
        if pass.is_empty() {
            return Ok(talk);
        }
        if user.is_empty() {
            talk.put(&[b"AUTH", pass])?;
        } else {
            talk.put(&[b"AUTH", user, pass])?;
        }
        talk.logs_in = true;
        Ok(talk)
    }

    /// Puts out a command.
    fn put(&mut self, words: &[&[u8]]) -> Result<(), NoMemory> {
        let mut text = OutText::new(self.alloc);
        push_words(&mut text, words)?;
        match self.unsent.extend_from_slice(text.as_slice()) {
            Ok(()) => Ok(()),
            Err(_) => Err(NoMemory),
        }
    }

    /// Puts out a command whose answer is kept.
    fn ask(&mut self, words: &[&[u8]]) -> Result<(), NoMemory> {
        self.put(words)?;
        self.due = self.due.saturating_add(1);
        Ok(())
    }

    /// Asks of each master that a Sentinel told.
    fn ask_of_masters(&mut self) -> Result<(), NoMemory> {
        self.asks_more = false;
        let Some(rows) = self.answers.get(MASTERS_AT) else {
            return Ok(());
        };
        let names = match names_told(self.alloc, rows) {
            Ok(names) => names,
            Err(Unsaid::NoMemory) => return Err(NoMemory),
            // (what a Sentinel is that tells no masters is judged with all its answers)
            Err(Unsaid::Trouble(_)) => return Ok(()),
        };
        for name in &names {
            self.ask(&[b"SENTINEL", b"REPLICAS", name.as_slice()])?;
            self.ask(&[b"SENTINEL", b"SENTINELS", name.as_slice()])?;
            self.ask(&[b"SENTINEL", b"CKQUORUM", name.as_slice()])?;
        }
        Ok(())
    }

    /// Takes the next answer.
    fn take(&mut self, value: Value) -> Result<(), NoMemory> {
        if let Value::Fault(text) = &value {
            if let Some(trouble) = refusal_of(text.as_slice()) {
                self.trouble = Some(trouble);
                return Ok(());
            }
        }
        // (a node without a password refuses a login as an error of the command, and answers)
        if self.logs_in {
            self.logs_in = false;
            return Ok(());
        }
        self.answers.push(value)?;
        if self.asks_more && self.answers.len() >= self.due {
            self.ask_of_masters()?;
        }
        Ok(())
    }

    /// Takes the next piece of what the node sends, of any length. What comes once it is over is dropped.
    pub(crate) fn hear(&mut self, piece: &[u8]) -> Result<(), NoMemory> {
        if self.is_over() {
            return Ok(());
        }
        if let Err(fault) = self.frames.feed(piece) {
            return self.fail_in(fault);
        }
        for _ in 0..u64::MAX {
            if self.is_over() {
                break;
            }
            match self.frames.next() {
                Ok(Some(value)) => self.take(value)?,
                Ok(None) => break,
                Err(fault) => return self.fail_in(fault),
            }
        }
        Ok(())
    }

    /// The answers can't be read further.
    fn fail_in(&mut self, fault: FrameFault) -> Result<(), NoMemory> {
        if fault == FrameFault::NoMemory {
            return Err(NoMemory);
        }
        self.trouble = Some(Trouble::Garbage);
        Ok(())
    }

    /// It ends without the answers that are missing, for this reason. One that is over stays as it is.
    pub(crate) fn give_up(&mut self, trouble: Trouble) {
        if !self.is_over() {
            self.trouble = Some(trouble);
        }
    }

    /// Whether all answers came, or won't come.
    pub(crate) fn is_over(&self) -> bool {
        self.trouble.is_some() || (!self.asks_more && self.answers.len() >= self.due)
    }

    /// The bytes that aren't sent yet.
    pub(crate) fn unsent(&self) -> &[u8] {
        self.unsent.as_slice()
    }

    /// Takes away the first `count` bytes of what isn't sent yet, which the connection took.
    pub(crate) fn sent(&mut self, count: usize) {
        let count = count.min(self.unsent.len());
        self.unsent.advance(count);
    }

    /// The answers, or why there are none.
    pub(crate) fn answers(&self) -> Result<&[Value], Unsaid> {
        match self.trouble {
            Some(trouble) => Err(Unsaid::Trouble(trouble)),
            None => Ok(self.answers.as_slice()),
        }
    }
}
