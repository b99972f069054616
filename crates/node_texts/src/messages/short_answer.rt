//! Room on the stack, in which a small answer is put together.

ghost use Rattle.std.specs.Prelude.{◌≡◌, []};

use arrayvec::ArrayVec;
use ballot_law::NoMemory;
use resp2::ByteSink;
use std::marker::Model;

/// How many bytes an answer in room on the stack has at most: every address and every vote fits.
const SHORT_MAX: usize = 96;

/// An answer in room on the stack.
#[derive(Drop)]
pub struct ShortAnswer {
    bytes: ArrayVec<u8, SHORT_MAX>,
}

impl Model for ShortAnswer {
    ghost use Rattle.std.specs.Prelude.{ℕ, List};

    ghost Value = { List ℕ };

    ghost view = { λ answer. answer.bytes.items };
}

impl ShortAnswer {
    /// Nothing yet.
    pub fn new() -> ShortAnswer
        ensures { result ≡ [] }
    {
        ShortAnswer {
            bytes: ArrayVec::new(),
        }
    }

    /// The bytes in order.
    pub fn as_slice(&self) -> &[u8]
        ensures { result.now ≡ self.now }
    {
        self.bytes.as_slice()
    }
}

impl ByteSink for ShortAnswer {
    ghost bytes = { λ answer. answer };

    ghost within = { λ _. Unit {0} };

    ghost full = { λ _. Unit {0} };

    fn push(&mut self, piece: &[u8]) -> Result<(), NoMemory> {
        match self.bytes.try_extend_from_slice(piece) {
            Ok(()) => Ok(()),
            Err(_) => Err(NoMemory),
        }
    }
}
