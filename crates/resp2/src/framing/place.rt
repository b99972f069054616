//! Where the reading of a value stands that hasn't come whole.
ghost use Rattle.std.specs.Prelude.{◌≡◌, ◌↔◌, ℕ, ◌≤◌, ◌<◌, ◌+◌, List, [], length, Err, IsTrue, IfOk, IfSome};
ghost use Rattle.resp2.specs.declared.framing.fault.Unread.TheVariants.{NeedsMore};
ghost use Rattle.resp2.specs.declared.framing.fault.Stopped.TheVariants.{At};
ghost use Rattle.resp2.specs.Framing.Reading.{value_at};
ghost use Rattle.resp2.specs.Framing.Place.{Stands, Searched, way_left};

use crate::framing::fault::{Stopped, Unread};
use crate::framing::reading::{header_of, is_open_line, line_length_from, value_of};
use arrayvec::ArrayVec;
use std::alloc::Global;

/// How deep a frame may be.
pub const DEEPEST: usize = 8;

/// Where the reading of a first value stands that hasn't come whole: in front of it each item and each header of an
/// array was read once, and none of them is read again to see whether the value is whole.
///
/// The value itself counts as the one item of an outermost array.
#[derive(Drop)]
pub struct Place {
    /// How many items are to come behind the one that is being read, in each open array but the innermost; the
    /// outermost first.
    pub outer: ArrayVec<u64, DEEPEST>,
    /// How many items of the innermost open array are to come.
    pub left: u64,
    /// How many bytes are passed.
    pub at: usize,
    /// How many bytes behind these were searched for the end of a line that isn't there.
    pub line: usize,
}

impl Place {
    /// The place in front of a value.
    pub fn new() -> Place
        ensures stands { (bytes : List ℕ) → Stands bytes result.outer.items result.left result.at }
        ensures searched { (bytes : List ℕ) → Searched bytes result.at result.line }
    {
        Place {
            outer: ArrayVec::new(),
            left: 1,
            at: 0,
            line: 0,
        }
    }

    /// Whether anything was read in front of this place or searched behind it.
    pub fn is_begun(&self) -> bool
        ensures { IsTrue result ↔ (0 < self.now.at + self.now.line) }
    {
        self.at > 0 || self.line > 0
    }

    /// Goes on over all that came. `true` says that the value needs more bytes; `false` that it should be read, since
    /// it is whole, a fault shows, or memory was refused.
    pub fn waits(&mut self, alloc: Global, bytes: &[u8], more: usize) -> bool
        requires stands { Stands bytes.now self.old.outer.items self.old.left self.old.at }
        requires searched { Searched bytes.now self.old.at self.old.line }
        requires short { length bytes.now + more ≤ 65536 }
        ensures stands { Stands bytes.now self.new.outer.items self.new.left self.new.at }
        ensures searched { Searched bytes.now self.new.at self.new.line }
        ensures waits { IsTrue result → value_at 1024 more 8 bytes.now ≡ Err NeedsMore }
    {
        loop {
            match self.pass(alloc, bytes, more) {
                Ok(true) => {}
                Ok(false) => return false,
                Err(Stopped::At(Unread::NeedsMore)) => return true,
                Err(_) => return false,
            }
        }
    }

    /// Passes an item, the header of an array, or the end of one; `false` where the value is whole.
    fn pass(&mut self, alloc: Global, bytes: &[u8], more: usize) -> Result<bool, Stopped>
        requires stands { Stands bytes.now self.old.outer.items self.old.left self.old.at }
        requires searched { Searched bytes.now self.old.at self.old.line }
        requires short { length bytes.now + more ≤ 65536 }
        ensures stands { Stands bytes.now self.new.outer.items self.new.left self.new.at }
        ensures searched { Searched bytes.now self.new.at self.new.line }
        ensures less { IfOk result (λ passed. IsTrue passed
            → way_left bytes.now self.new.outer.items self.new.at
            < way_left bytes.now self.old.outer.items self.old.at) }
        ensures waits { result ≡ Err (At NeedsMore) → value_at 1024 more 8 bytes.now ≡ Err NeedsMore }
    {
        if self.left == 0 {
            return Ok(self.leave());
        }
        let (_, rest) = bytes.split_at(self.at);
        self.line = line_length_from(rest, self.line);
        if self.outer.len() < DEEPEST {
            if is_open_line(rest, self.line) {
                return Err(Stopped::At(Unread::NeedsMore));
            }
            if let Some((count, after)) = header_of(rest) {
                self.outer.push(self.left - 1);
                self.left = count;
                self.at = bytes.len() - after.len();
                self.line = 0;
                return Ok(true);
            }
        }
        let (_, after) = value_of(alloc, rest, more, DEEPEST - self.outer.len())?;
        self.left -= 1;
        self.at = bytes.len() - after.len();
        self.line = 0;
        Ok(true)
    }

    /// Leaves the innermost array, which is whole; `false` where no array is open.
    fn leave(&mut self) -> bool
        requires { self.old.left ≡ 0 }
        ensures stands { (bytes : List ℕ) → Stands bytes self.old.outer.items self.old.left self.old.at
            → Stands bytes self.new.outer.items self.new.left self.new.at }
        ensures less { IsTrue result → length self.new.outer.items < length self.old.outer.items }
        ensures kept { (self.new.at ≡ self.old.at) × (self.new.line ≡ self.old.line) }
    {
        match self.outer.pop() {
            Some(left) => {
                self.left = left;
                true
            }
            None => false,
        }
    }
}
