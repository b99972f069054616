//! The room for a rewritten file.

ghost use Rattle.std.specs.Prelude.{◌≡◌, ◌≤◌, ◌∷◌, ◌++◌, [], nat_lt, length, IfOk};
ghost use Rattle.sentinel_conf.specs.Room.{bounded};
ghost use Rattle.sentinel_conf.specs.Reading.{FILE_MAX};

use ballot_law::NoMemory;
use bounded_list::BoundedList;
use std::alloc::Global;
use std::marker::Model;

/// The greatest number of bytes of a file.
pub const FILE_MAX: usize = 67_536;

/// One byte more, so that a text that is too long shows.
const ROOM: usize = FILE_MAX + 1;

/// The text of a rewritten file, with its room made beforehand, so that rewriting takes no memory.
#[derive(Drop)]
pub struct ConfText {
    bytes: BoundedList<u8, ROOM>,
}

impl Model for ConfText {
    ghost use Rattle.std.specs.Prelude.{List, ℕ};

    ghost Value = { List ℕ };

    ghost view = { λ text. text.bytes };
}

impl ConfText {
    /// An empty text.
    pub(crate) fn new(alloc: Global) -> Result<ConfText, NoMemory>
        ensures { IfOk result (λ text. text ≡ []) }
    {
        let bytes = BoundedList::with_room(alloc)?;
        Ok(ConfText { bytes })
    }

    /// The bytes of the text.
    pub fn as_slice(&self) -> &[u8]
        ensures { result.now ≡ self.now }
    {
        self.bytes.as_slice()
    }

    /// Empties the text.
    pub(crate) fn clear(&mut self)
        ensures { self.new ≡ [] }
    {
        self.bytes.clear();
    }

    /// Whether the text is longer than a file may be.
    pub(crate) fn is_too_long(&self) -> bool
        ensures test { result ≡ nat_lt FILE_MAX (length self.now) }
        ensures whole { bounded self.now ≡ self.now }
    {
        FILE_MAX < self.bytes.as_slice().len()
    }

    /// Adds a byte, where there is room for one.
    pub(crate) fn add_byte(&mut self, byte: u8)
        ensures { self.new ≡ bounded (self.old ++ byte ∷ []) }
    {
        self.bytes.push(byte);
    }

    /// Adds what there is room for.
    pub(crate) fn add(&mut self, piece: &[u8])
        ensures { self.new ≡ bounded (self.old ++ piece.now) }
    {
        self.bytes.extend_from_slice(piece);
    }
}
