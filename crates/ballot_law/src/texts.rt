//! Texts inside plain data, which contracts see as lists of bytes.

ghost use Rattle.std.specs.Prelude.{◌≡◌, ◌↔◌, ◌≤◌, IsSome, IfSome, IfOk, length, nat_eq};
ghost use Rattle.std.specs.Cmp.{partial_equiv_from_equiv};
ghost use Rattle.std.specs.Cmp.Lexicographic.{pointwise, nat_list_eq_equiv};
ghost use Rattle.ballot_law.specs.declared.texts.TheConstants.{SHORT_TEXT_MAX};

use crate::memory::NoMemory;
use crate::padding::padded;
use std::alloc::Global;
use std::marker::Model;

/// A text of any length, as a bulk string of RESP2, the text of a message or the text of a file. Contracts see the list
/// of its bytes.
#[derive(Drop)]
pub struct Text {
    bytes: Vec<u8>,
}

impl Model for Text {
    ghost use Rattle.std.specs.Prelude.{List, ℕ};

    ghost Value = { List ℕ };

    ghost view = { λ text. text.bytes.items };
}

impl Text {
    /// A copy of the bytes, or `NoMemory`.
    pub fn from_slice(alloc: Global, bytes: &[u8]) -> Result<Text, NoMemory>
        ensures { IfOk result (λ text. text ≡ bytes.now) }
    {
        Ok(Text {
            bytes: Vec::from_slice(alloc, bytes)?,
        })
    }

    /// The text of these bytes, with no memory taken.
    pub fn from_vec(bytes: Vec<u8>) -> Text
        ensures { result ≡ bytes.items }
    {
        Text { bytes }
    }

    /// The bytes of the text, with no memory taken.
    pub fn into_vec(self) -> Vec<u8>
        ensures { result.items ≡ self }
    {
        self.bytes
    }

    /// The bytes of the text.
    pub fn as_slice(&self) -> &[u8]
        ensures { result.now ≡ self.now }
    {
        self.bytes.as_slice()
    }
}

impl PartialEq for Text {
    ghost eq = { pointwise nat_eq };

    ghost laws = { partial_equiv_from_equiv nat_list_eq_equiv };

    fn eq(&self, other: &Text) -> bool {
        self.bytes == other.bytes
    }
}

impl Eq for Text {
    ghost laws = { nat_list_eq_equiv };
}

/// The greatest length of a short text, in bytes.
pub const SHORT_TEXT_MAX: usize = 128;

/// A text of at most `SHORT_TEXT_MAX` bytes that takes no memory of its own, as the answer to a PING.
#[derive(Clone, Copy, PartialEq, Eq)]
pub struct ShortText {
    bytes: [u8; SHORT_TEXT_MAX],
    len: u8,
}

impl Model for ShortText {
    ghost use Rattle.std.specs.Prelude.{List, ℕ};
    ghost use Rattle.ballot_law.specs.ShortTexts.{IsPadded, bytes_of, text_of};
    ghost use Rattle.ballot_law.specs.ShortTextsAgain.{text_of_bytes_of};

    ghost Value = { List ℕ };

    ghost view = { bytes_of };

    ghost invariant = { IsPadded };

    ghost inverse = { text_of };

    ghost inverse_ok = { text_of_bytes_of };
}

impl ShortText {
    /// The text of these bytes; none where they are more than `SHORT_TEXT_MAX`.
    pub fn from_slice(bytes: &[u8]) -> Option<ShortText>
        ensures fits { IsSome result ↔ (length bytes.now ≤ SHORT_TEXT_MAX) }
        ensures value { IfSome result (λ text. text ≡ bytes.now) }
    {
        if bytes.len() > SHORT_TEXT_MAX {
            return None;
        }
        Some(ShortText {
            bytes: padded(bytes),
            len: bytes.len() as u8,
        })
    }

    /// The bytes of the text.
    pub fn as_slice(&self) -> &[u8]
        ensures { result.now ≡ self.now }
    {
        &self.bytes[..self.len as usize]
    }
}
