//! Text that is written piece by piece.
ghost use Rattle.std.specs.Prelude.{◌≡◌, ℕ, ◌++◌, List, [], length, take, OnOk, OnErr};

use ballot_law::NoMemory;
use std::alloc::Global;
use std::marker::Model;

/// Text that is written piece by piece. Contracts see the list of its bytes.
#[derive(Drop)]
pub struct OutText {
    bytes: Vec<u8>,
}

impl Model for OutText {
    ghost Value = { List ℕ };

    ghost view = { λ text. text.bytes.items };
}

impl OutText {
    /// A text of no bytes. No memory is taken.
    pub fn new(alloc: Global) -> OutText
        ensures { result ≡ [] }
    {
        OutText {
            bytes: Vec::new(alloc),
        }
    }

    /// The bytes in order.
    pub fn as_slice(&self) -> &[u8]
        ensures { result.now ≡ self.now }
    {
        self.bytes.as_slice()
    }

    /// How many bytes the text has.
    pub fn len(&self) -> usize
        ensures { result ≡ length self.now }
    {
        self.bytes.len()
    }

    /// Drops all bytes and keeps their room. No memory is taken.
    pub fn clear(&mut self)
        ensures { self.new ≡ [] }
    {
        self.bytes.clear();
    }

    /// Drops the bytes behind the first `len`, with which a writer takes back what it wrote. No
    /// memory is taken.
    pub fn truncate(&mut self, len: usize)
        ensures { self.new ≡ take len self.old }
    {
        self.bytes.truncate(len);
    }

    /// Adds these bytes; `NoMemory` leaves the text unchanged.
    pub fn add(&mut self, bytes: &[u8]) -> Result<(), NoMemory>
        ensures ok { OnOk result (self.new ≡ self.old ++ bytes.now) }
        ensures err { OnErr result (self.new ≡ self.old) }
    {
        match self.bytes.extend_from_slice(bytes) {
            Ok(()) => Ok(()),
            Err(_) => Err(NoMemory),
        }
    }
}
