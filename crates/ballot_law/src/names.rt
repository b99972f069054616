//! The names of masters.

ghost use Rattle.std.specs.Prelude.{◌≡◌, ◌↔◌, ◌≤◌, ◌<◌, length, IsSome, IfSome, IsTrue};
ghost use Rattle.ballot_law.specs.Names.{IsName, IsNameByte};
ghost use Rattle.ballot_law.specs.Orders.{bytes_before};

use crate::comparisons::is_bytes_before;
use crate::ordering::Placed;
use crate::padding::padded;
use std::marker::Model;

/// The greatest length of a name, in bytes.
pub const NAME_MAX: usize = 64;

/// The name of a master: 1 to 64 bytes from letters, digits, `.`, `-` and `_`, as the comments of sentinel.conf allow.
/// Names are ordered as their bytes are.
#[derive(Clone, Copy, PartialEq, Eq, PartialOrd, Ord, Hash)]
pub struct Name {
    bytes: [u8; NAME_MAX],
    len: u8,
}

impl Model for Name {
    ghost use Rattle.std.specs.Prelude.{List, ℕ};

    ghost Value = { List ℕ };

    ghost use Rattle.ballot_law.specs.Names.{IsPaddedName, bytes_of, name_of};
    ghost use Rattle.ballot_law.specs.NamesAgain.{name_of_bytes_of};

    ghost view = { bytes_of };

    ghost invariant = { IsPaddedName };

    ghost inverse = { name_of };

    ghost inverse_ok = { name_of_bytes_of };
}

/// Whether the byte may stand in a name.
fn is_name_byte(byte: u8) -> bool
    ensures { IsTrue result ↔ IsNameByte byte }
{
    byte.is_ascii_alphanumeric() || byte == b'.' || byte == b'-' || byte == b'_'
}

impl Name {
    /// The name with these bytes; none where they aren't a name.
    pub fn from_slice(bytes: &[u8]) -> Option<Name>
        ensures some { IsSome result ↔ IsName bytes.now }
        ensures value { IfSome result (λ name. name ≡ bytes.now) }
    {
        if bytes.is_empty() || bytes.len() > NAME_MAX {
            return None;
        }
        if !bytes.iter().all(|byte| is_name_byte(*byte)) {
            return None;
        }
        Some(Name {
            bytes: padded(bytes),
            len: bytes.len() as u8,
        })
    }

    /// The bytes of the name.
    pub fn as_slice(&self) -> &[u8]
        ensures { result.now ≡ self.now }
    {
        &self.bytes[..self.len as usize]
    }

    /// Whether the two are one name.
    pub fn is_same(self, other: Name) -> bool
        ensures { IsTrue result ↔ (self ≡ other) }
    {
        self == other
    }
}

impl Placed for Name {
    ghost before = { bytes_before };

    fn is_before(&self, other: &Name) -> bool {
        is_bytes_before(self.as_slice(), other.as_slice())
    }
}
