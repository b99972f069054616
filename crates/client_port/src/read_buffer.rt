//! What was read of a client at once.

ghost use Rattle.std.specs.Prelude.{◌≡◌, ◌≤◌, ◌↔◌, [], IsTrue, IfOk, OnOk, OnErr, length};
ghost use Rattle.std.specs.Io.KnownBytes.{Consumes, Keeps};

use std::io::{self, Read};
use std::marker::Model;

/// How many bytes one read asks for.
pub(crate) const PIECE: usize = 1_024;

/// Up to `PIECE` bytes that were read at once, which contracts see.
#[derive(Drop)]
pub(crate) struct ReadBuffer {
    bytes: [u8; PIECE],
    count: usize,
}

impl Model for ReadBuffer {
    ghost use Rattle.std.specs.Prelude.{◌≤◌, ℕ, List, take};
    ghost use Rattle.client_port.specs.declared.read_buffer.TheConstants.{PIECE};

    ghost Value = { List ℕ };

    ghost view = { λ buffer. take buffer.count buffer.bytes };

    ghost invariant = { λ buffer. buffer.count ≤ PIECE };
}

impl ReadBuffer {
    /// Nothing was read.
    pub(crate) fn new() -> ReadBuffer
        ensures { result ≡ [] }
    {
        ReadBuffer {
            bytes: [0; PIECE],
            count: 0,
        }
    }

    /// Whether nothing was.
    pub(crate) fn is_empty(&self) -> bool
        ensures { IsTrue result ↔ (self.now ≡ []) }
    {
        self.all().is_empty()
    }

    /// Reads once: how many bytes came, 0 at the end of the stream. The error is the reader's, and nothing was read.
    pub(crate) fn fill<T: Read>(&mut self, reader: &mut T) -> io::Result<usize>
        requires { self.old ≡ [] }
        ensures ok { IfOk result (λ count. (length self.new ≡ count) × (count ≤ PIECE)) }
        ensures read { OnOk result (Consumes (T.remaining reader.old) (T.remaining reader.new) self.new) }
        ensures err { OnErr result ((self.new ≡ []) × Keeps (T.remaining reader.old) (T.remaining reader.new)) }
    {
        self.count = 0;
        let count = reader.read(&mut self.bytes)?;
        self.count = count;
        Ok(count)
    }

    /// All of them.
    pub(crate) fn all(&self) -> &[u8]
        ensures { result.now ≡ self.now }
    {
        &self.bytes[..self.count]
    }
}
