//! The reading of values of which a bulk string may be long, by its parts.

ghost use Rattle.std.specs.Prelude.{◌≡◌, ◌≤◌, ◌+◌, ◌++◌, [], List, length, true, None, IfOk, IfNone, IfErr, OnOk, IsTrue, IsSome};
ghost use Rattle.resp2.specs.declared.framing.fault.FrameFault.TheVariants.{NoMemory};
ghost use Rattle.resp2.specs.Framing.Frame.{view};
ghost use Rattle.resp2.specs.Framing.Stream.{reading, bytes_in, held_size};
ghost use Rattle.resp2.specs.Long.LongValues.{long_size, LongAnswers};
ghost use Rattle.resp2.specs.Long.LongHeld.{front_of, held_in, memory_in};

use crate::framing::{FrameFault, Frames, Value};
use crate::long::end::has_end;
use crate::long::header::{header_length, long_size};
use crate::long::long_bulk::LongBulk;
use std::alloc::Global;

/// How many bytes stand behind the text of a bulk string.
const END: usize = 2;

/// What a reader of long values holds: the bytes that came and weren't taken yet, and before them a long bulk string
/// that hasn't come whole.
#[derive(Drop)]
pub(crate) struct LongReading {
    alloc: Global,
    pub(crate) frames: Frames,
    pub(crate) long: Option<LongBulk>,
}

impl LongReading {
    /// A reader to which no bytes came. No memory is taken.
    pub(crate) fn new(alloc: Global) -> LongReading
        ensures held { held_in result ≡ reading [] }
        ensures memory { memory_in result ≡ 0 }
    {
        LongReading {
            alloc,
            frames: Frames::new(alloc),
            long: None,
        }
    }

    /// Adds the next piece of the stream, of any length.
    ///
    /// `NoMemory` leaves the reader unchanged.
    pub(crate) fn feed(&mut self, piece: &[u8]) -> Result<(), FrameFault>
        requires open { held_in self.old ≡ reading (bytes_in (held_in self.old)) }
        ensures held { OnOk result (held_in self.new ≡ reading (bytes_in (held_in self.old) ++ piece.now)) }
        ensures memory { OnOk result (memory_in self.new ≡ memory_in self.old + length piece.now) }
        ensures err { IfErr result (λ fault. fault ≡ NoMemory) }
    {
        self.frames.feed(piece)
    }

    /// Takes the header of a long bulk string away, where one stands whole at the front.
    fn begin(&mut self) -> Result<(), FrameFault>
        requires open { self.old.frames ≡ reading (bytes_in self.old.frames) }
        ensures open { OnOk result (self.new.frames ≡ reading (bytes_in self.new.frames)) }
        ensures held { OnOk result (held_in self.new ≡ held_in self.old) }
        ensures memory { OnOk result (memory_in self.new ≤ memory_in self.old) }
        ensures short { OnOk result (IfNone self.new.long (long_size (bytes_in self.new.frames) ≡ None)) }
        ensures err { IfErr result (λ fault. fault ≡ NoMemory) }
    {
        if self.long.is_some() {
            return Ok(());
        }
        let Some(size) = long_size(self.frames.held()) else {
            return Ok(());
        };
        self.long = Some(LongBulk::new(self.alloc, size as usize)?);
        self.frames.skip(header_length(size));
        Ok(())
    }

    /// Goes on in a long bulk string: its next bytes are taken, and what is told of it is given once its end is there.
    fn go_on(&mut self, mut bulk: LongBulk) -> Result<Option<Value>, FrameFault>
        requires open { self.old.frames ≡ reading (bytes_in self.old.frames) }
        requires none { self.old.long ≡ None }
        ensures answers { LongAnswers view (front_of (Some bulk) ++ bytes_in self.old.frames) result (held_in self.new) }
        ensures memory { IfOk result (λ given. memory_in self.new ≤ length bulk.kept.items + held_size self.old.frames) }
        ensures bounded { IfOk result (λ given. IfNone given (memory_in self.new ≤ 65537)) }
    {
        let held = self.frames.held();
        let count = held.len().min(bulk.left());
        bulk.take(&held[..count])?;
        self.frames.skip(count);
        if bulk.left() > 0 {
            self.long = Some(bulk);
            return Ok(None);
        }
        match has_end(self.frames.held()) {
            Ok(true) => {
                self.frames.skip(END);
                Ok(Some(Value::Bulk(bulk.into_text())))
            }
            Ok(false) => {
                self.long = Some(bulk);
                Ok(None)
            }
            Err(fault) => Err(fault),
        }
    }

    /// Takes the first whole value out of the bytes that came: what is told of it; `None` where more bytes are needed.
    /// Before the next `feed` every whole value is taken, so that no more than 65,537 bytes and one piece are in
    /// memory.
    ///
    /// A fault is one of the bytes, or `NoMemory`; after it the reader isn't used again.
    pub(crate) fn next(&mut self) -> Result<Option<Value>, FrameFault>
        requires open { held_in self.old ≡ reading (bytes_in (held_in self.old)) }
        ensures answers { LongAnswers view (bytes_in (held_in self.old)) result (held_in self.new) }
        ensures memory { IfOk result (λ given. memory_in self.new ≤ memory_in self.old) }
        ensures bounded { IfOk result (λ given. IfNone given (memory_in self.new ≤ 65537)) }
    {
        self.begin()?;
        match self.long.take() {
            Some(bulk) => self.go_on(bulk),
            None => self.frames.next(),
        }
    }
}
