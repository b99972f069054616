//! Addresses, names and run ids as they are shown, and the text that a page is made of.

use ballot_law::{Addr, Name, NoMemory, RunId};
use std::alloc::Global;
use std::fmt;
use std::net::Ipv4Addr;
use std::str::from_utf8;

/// An address as `10.0.0.1:6379`.
#[derive(Clone, Copy)]
pub(crate) struct At(pub(crate) Addr);

impl fmt::Display for At {
    fn fmt<W: fmt::Write>(&self, f: &mut fmt::Formatter<W>) -> fmt::Result {
        write!(f, "{}:{}", Ipv4Addr::from(self.0.ip), self.0.port)
    }
}

/// A run id as 40 hex digits.
#[derive(Clone, Copy)]
pub(crate) struct IdDigits(pub(crate) RunId);

impl fmt::Display for IdDigits {
    fn fmt<W: fmt::Write>(&self, f: &mut fmt::Formatter<W>) -> fmt::Result {
        write!(f, "{:032x}{:08x}", self.0.hi, self.0.lo)
    }
}

/// The name of a master as text.
pub(crate) fn name_text(name: &Name) -> &str {
    from_utf8(name.as_slice()).unwrap_or("?")
}

/// A text that grows.
#[derive(Drop)]
pub(crate) struct Page {
    alloc: Global,
    text: String,
}

impl Page {
    /// An empty one.
    pub(crate) fn new(alloc: Global) -> Page {
        Page {
            alloc,
            text: String::new(alloc),
        }
    }

    /// Adds words.
    pub(crate) fn add(&mut self, words: &str) -> Result<(), NoMemory> {
        self.text.push_str(words)?;
        Ok(())
    }

    /// Adds what is shown.
    pub(crate) fn show<D: fmt::Display + Drop>(&mut self, shown: D) -> Result<(), NoMemory> {
        let words = format!(in self.alloc; "{shown}")?;
        self.add(words.as_str())
    }

    /// Adds what is shown, with spaces behind it up to this width, and one at least.
    pub(crate) fn column<D: fmt::Display + Drop>(
        &mut self,
        width: usize,
        shown: D,
    ) -> Result<(), NoMemory> {
        let words = format!(in self.alloc; "{shown}")?;
        self.add(words.as_str())?;
        for _ in words.len()..width.max(words.len().saturating_add(1)) {
            self.add(" ")?;
        }
        Ok(())
    }

    /// The text.
    pub(crate) fn into_text(self) -> String {
        self.text
    }
}
