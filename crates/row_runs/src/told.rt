//! What comes of a row, in words.

use crate::spelling::add_spelling;
use ballot_law::{Addr, NoMemory, RunId};
use std::alloc::{AllocError, AllocFailed, Global};
use std::fmt::Display;
use tokens::{ip_text, run_id_text};

/// Why a row isn't played.
#[derive(Clone, Copy, PartialEq, Eq)]
pub(crate) enum Unplayed {
    /// Memory was refused.
    NoMemory,
    /// No module has the name of the file that the row is in.
    NoSuchFamily,
    /// The module plays no such call.
    NoSuchCall,
    /// The line has no ` => `, or no words on one side of it.
    NoArrow,
    /// A word spells no bytes.
    WrongSpelling,
    /// A file that is named can't be read.
    NoSuchFile,
    /// The call wants other words.
    WrongWords,
    /// Nothing was made that the call acts on, or a number is beyond what it allows.
    OutOfRange,
    /// The call told nothing.
    NothingTold,
    /// A call that was refused memory left something else than it found: the same call was refused once more.
    Changed,
}

impl Unplayed {
    /// The variant's name.
    pub(crate) fn name(self) -> &'static str {
        match self {
            Unplayed::NoMemory => "NoMemory",
            Unplayed::NoSuchFamily => "NoSuchFamily",
            Unplayed::NoSuchCall => "NoSuchCall",
            Unplayed::NoArrow => "NoArrow",
            Unplayed::WrongSpelling => "WrongSpelling",
            Unplayed::NoSuchFile => "NoSuchFile",
            Unplayed::WrongWords => "WrongWords",
            Unplayed::OutOfRange => "OutOfRange",
            Unplayed::NothingTold => "NothingTold",
            Unplayed::Changed => "Changed",
        }
    }
}

impl From<AllocError> for Unplayed {
    fn from(_error: AllocError) -> Unplayed {
        Unplayed::NoMemory
    }
}

impl<T: Drop> From<AllocFailed<T>> for Unplayed {
    fn from(_error: AllocFailed<T>) -> Unplayed {
        Unplayed::NoMemory
    }
}

impl From<NoMemory> for Unplayed {
    fn from(_error: NoMemory) -> Unplayed {
        Unplayed::NoMemory
    }
}

/// How many bytes of what comes have room before a call is made, so that only the call itself can lack memory.
const ROOM: usize = 65_536;

/// Words that tell what comes, with a blank between two.
#[derive(Drop)]
pub(crate) struct Told {
    text: String,
}

impl Told {
    /// No words.
    pub(crate) fn new(alloc: Global) -> Told {
        Told {
            text: String::new(alloc),
        }
    }

    /// No words, with room for those of most calls.
    pub(crate) fn with_room(alloc: Global) -> Result<Told, Unplayed> {
        Ok(Told {
            text: String::with_capacity(alloc, ROOM)?,
        })
    }

    /// The words.
    pub(crate) fn as_str(&self) -> &str {
        self.text.as_str()
    }

    /// Begins a word.
    fn begin(&mut self) -> Result<(), Unplayed> {
        if !self.text.is_empty() {
            self.text.push(' ')?;
        }
        Ok(())
    }

    /// Adds a word, which has no blanks.
    pub(crate) fn word(&mut self, word: &str) -> Result<(), Unplayed> {
        self.begin()?;
        self.text.push_str(word)?;
        Ok(())
    }

    /// Adds that a call that gives nothing was made.
    pub(crate) fn ok(&mut self) -> Result<(), Unplayed> {
        self.word("ok")
    }

    /// Adds `nothing` where no word was added.
    pub(crate) fn nothing(&mut self) -> Result<(), Unplayed> {
        if self.text.is_empty() {
            return self.word("nothing");
        }
        Ok(())
    }

    /// Adds bytes as a word, as a row spells them.
    pub(crate) fn bytes(&mut self, bytes: &[u8]) -> Result<(), Unplayed> {
        self.begin()?;
        add_spelling(&mut self.text, bytes)
    }

    /// Adds bytes as a word after a mark.
    pub(crate) fn marked(&mut self, mark: char, bytes: &[u8]) -> Result<(), Unplayed> {
        self.begin()?;
        self.text.push(mark)?;
        add_spelling(&mut self.text, bytes)
    }

    /// Adds a number as a word after a mark.
    pub(crate) fn signed(&mut self, mark: char, number: i64) -> Result<(), Unplayed> {
        self.begin()?;
        write!(self.text, "{mark}{number}")?;
        Ok(())
    }

    /// Adds what is shown so as a word.
    pub(crate) fn shown<T: Display>(&mut self, value: &T) -> Result<(), Unplayed> {
        self.begin()?;
        write!(self.text, "{value}")?;
        Ok(())
    }

    /// Adds a number as a word.
    pub(crate) fn number(&mut self, number: u64) -> Result<(), Unplayed> {
        self.shown(&number)
    }

    /// Adds a name and a number in brackets as a word.
    pub(crate) fn numbered(&mut self, name: &str, number: u64) -> Result<(), Unplayed> {
        self.begin()?;
        write!(self.text, "{name}({number})")?;
        Ok(())
    }

    /// Adds a number as a word, or `None`.
    pub(crate) fn maybe_number(&mut self, number: Option<u64>) -> Result<(), Unplayed> {
        match number {
            Some(number) => self.number(number),
            None => self.word("None"),
        }
    }

    /// Adds a number as a word, in hexadecimal.
    pub(crate) fn hexadecimal(&mut self, number: u128) -> Result<(), Unplayed> {
        self.begin()?;
        write!(self.text, "{number:x}")?;
        Ok(())
    }

    /// Adds `true` or `false`.
    pub(crate) fn yes(&mut self, is_so: bool) -> Result<(), Unplayed> {
        self.word(if is_so { "true" } else { "false" })
    }

    /// Adds an address as a word.
    pub(crate) fn address(&mut self, addr: Addr) -> Result<(), Unplayed> {
        self.bytes(ip_text(addr.ip).as_slice())?;
        write!(self.text, ":{}", addr.port)?;
        Ok(())
    }

    /// Adds an address as a word, or `None`.
    pub(crate) fn maybe_address(&mut self, addr: Option<Addr>) -> Result<(), Unplayed> {
        match addr {
            Some(addr) => self.address(addr),
            None => self.word("None"),
        }
    }

    /// Adds a run id as a word, or `None`.
    pub(crate) fn maybe_id(&mut self, id: Option<RunId>) -> Result<(), Unplayed> {
        match id {
            Some(id) => self.bytes(run_id_text(id).as_slice()),
            None => self.word("None"),
        }
    }
}
