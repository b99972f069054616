//! A reader of values of which a bulk string may be long.

ghost use Rattle.std.specs.Prelude.{◌≡◌, ◌≤◌, ◌+◌, ◌++◌, [], length, IfOk, IfNone, IfErr, OnOk};
ghost use Rattle.resp2.specs.declared.framing.fault.FrameFault.TheVariants.{NoMemory};
ghost use Rattle.resp2.specs.Framing.Frame.{view};
ghost use Rattle.resp2.specs.Framing.Stream.{reading, bytes_in};
ghost use Rattle.resp2.specs.Long.LongValues.{LongAnswers};

use crate::framing::{FrameFault, Value};
use crate::long::long_reading::LongReading;
use std::alloc::Global;
use std::marker::Model;

/// A reader of the values of one stream, as `Frames`, but that a bulk string by itself may have 16 MiB.
///
/// Contracts see the bytes that came and weren't given yet, and how many of them are in memory: of a long bulk string
/// what stands behind its first 65,536 bytes is passed over as it comes, and stands as zeros in contracts. The pieces
/// may be cut anywhere. After a fault it isn't used again.
#[derive(Drop)]
pub struct LongFrames {
    inner: LongReading,
}

impl Model for LongFrames {
    ghost use Rattle.resp2.specs.Long.LongHeld.{LongStream, held_in, memory_in};

    ghost Value = { LongStream };

    ghost view = { λ frames. record { held = held_in frames.inner; memory = memory_in frames.inner } };
}

impl LongFrames {
    /// A reader to which no bytes came. No memory is taken.
    pub fn new(alloc: Global) -> LongFrames
        ensures { result ≡ record { held = reading []; memory = 0 } }
    {
        LongFrames {
            inner: LongReading::new(alloc),
        }
    }

    /// Adds the next piece of the stream, of any length.
    ///
    /// `NoMemory` leaves the reader unchanged.
    pub fn feed(&mut self, piece: &[u8]) -> Result<(), FrameFault>
        requires open { self.old.held ≡ reading (bytes_in self.old.held) }
        ensures held { OnOk result (self.new.held ≡ reading (bytes_in self.old.held ++ piece.now)) }
        ensures memory { OnOk result (self.new.memory ≡ self.old.memory + length piece.now) }
        ensures err { IfErr result (λ fault. fault ≡ NoMemory) }
    {
        self.inner.feed(piece)
    }

    /// Takes the first whole value out of the bytes that came: what is told of it; `None` where more bytes are needed.
    /// Before the next `feed` every whole value is taken, so that no more than 65,537 bytes and one piece are in
    /// memory.
    ///
    /// A fault is one of the bytes, or `NoMemory`; after it the reader isn't used again.
    pub fn next(&mut self) -> Result<Option<Value>, FrameFault>
        requires open { self.old.held ≡ reading (bytes_in self.old.held) }
        ensures answers { LongAnswers view (bytes_in self.old.held) result self.new.held }
        ensures memory { IfOk result (λ given. self.new.memory ≤ self.old.memory) }
        ensures bounded { IfOk result (λ given. IfNone given (self.new.memory ≤ 65537)) }
    {
        self.inner.next()
    }
}
