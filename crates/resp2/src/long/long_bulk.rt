//! A long bulk string that hasn't come whole.

ghost use Rattle.std.specs.Prelude.{◌≡◌, ◌≤◌, ◌+◌, ◌-◌, ◌++◌, ◌<◌, [], length, take, min, nat_lt, true, IfOk, IfErr, OnOk, if◌then◌else◌};
ghost use Rattle.resp2.specs.declared.framing.fault.FrameFault.TheVariants.{NoMemory};
ghost use Rattle.resp2.specs.Long.LongValues.{is_long, whole_lines, last_end};

use crate::framing::FrameFault;
use ballot_law::Text;
use memchr::memrchr;
use std::alloc::Global;

/// How many bytes of a bulk string are told at most.
pub const TOLD_MAX: usize = 65_536;

/// How many bytes a bulk string may have.
pub const BULK_MAX: u64 = 16_777_216;

/// How many bytes are in memory at most of what came and is no whole value yet: the first ones of a bulk string, and
/// one of its end.
pub const HELD_MAX: usize = 65_537;

/// A bulk string that is longer than a frame and hasn't come whole: how many bytes it has, how many of them came, and
/// the first ones of these.
#[derive(Drop)]
pub(crate) struct LongBulk {
    pub(crate) size: usize,
    pub(crate) came: usize,
    pub(crate) kept: Vec<u8>,
    ghost long: { is_long size ≡ true },
    ghost within: { came ≤ size },
    ghost first: { length kept.items ≡ min came 65536 },
}

/// How many bytes stand before the end of the last line that has one, its LF among them; 0 where no line has an end.
fn last_end(text: &[u8]) -> usize
    ensures value { result ≡ last_end text.now }
    ensures within { result ≤ length text.now }
{
    match memrchr(b'\n', text) {
        Some(at) => at + 1,
        None => 0,
    }
}

impl LongBulk {
    /// Nothing of it came yet. Room for what will be told of it is made.
    pub(crate) fn new(alloc: Global, size: usize) -> Result<LongBulk, FrameFault>
        requires { is_long size ≡ true }
        ensures size { IfOk result (λ bulk. bulk.size ≡ size) }
        ensures came { IfOk result (λ bulk. bulk.came ≡ 0) }
        ensures kept { IfOk result (λ bulk. bulk.kept.items ≡ []) }
        ensures err { IfErr result (λ fault. fault ≡ NoMemory) }
    {
        Ok(LongBulk {
            size,
            came: 0,
            kept: Vec::with_capacity(alloc, TOLD_MAX)?,
        })
    }

    /// How many bytes of it are to come.
    pub(crate) fn left(&self) -> usize
        ensures { result ≡ self.now.size - self.now.came }
    {
        self.size - self.came
    }

    /// Takes the next bytes of it: those that may be told are kept, and the others are passed over.
    pub(crate) fn take(&mut self, bytes: &[u8]) -> Result<(), FrameFault>
        requires { length bytes.now ≤ self.old.size - self.old.came }
        ensures size { self.new.size ≡ self.old.size }
        ensures came { OnOk result (self.new.came ≡ self.old.came + length bytes.now) }
        ensures kept { OnOk result (self.new.kept.items ≡ self.old.kept.items ++ take (65536 - length self.old.kept.items) bytes.now) }
        ensures err { IfErr result (λ fault. fault ≡ NoMemory) }
    {
        let room = TOLD_MAX - self.kept.len();
        self.kept
            .extend_from_slice(&bytes[..bytes.len().min(room)])?;
        self.came += bytes.len();
        Ok(())
    }

    /// What is told of it, once all of it came.
    pub(crate) fn into_text(self) -> Text
        ensures { result ≡ (if nat_lt 65536 self.size then whole_lines self.kept.items else self.kept.items) }
    {
        let mut text = self.kept;
        if self.size > TOLD_MAX {
            text.truncate(last_end(text.as_slice()));
        }
        Text::from_vec(text)
    }
}
