//! The header of a long bulk string.

ghost use Rattle.std.specs.Prelude.{◌≡◌, ◌≤◌, ℕ, List, length, Ok, IfSome, IfNone};
ghost use Rattle.resp2.specs.Framing.Reading.{line_at};
ghost use Rattle.resp2.specs.Long.LongValues.{header, is_long, long_size};

use crate::framing::line_length;
use crate::long::end::has_end;
use crate::long::long_bulk::BULK_MAX;
use itoa::Buffer;
use tokens::canonical_number_of;

/// How many bytes a frame may have.
const FRAME_MAX: u64 = 65_536;

/// How many bytes the header of a long bulk string has at most behind its `$`.
const LINE_MAX: usize = 10;

/// How many bytes of a header aren't digits: `$` and the line's end.
const AROUND: usize = 3;

/// A line that stands whole at the front, with its end.
fn whole_line(bytes: &[u8]) -> Option<&[u8]>
    ensures some { IfSome result (λ line. (rest : List ℕ) × (line_at bytes.now ≡ Ok (line.now, rest))) }
    ensures none { IfNone result ((x : List ℕ × List ℕ) → line_at bytes.now ≡ Ok x → ⊥) }
{
    let (line, tail) = bytes.split_at(line_length(bytes));
    match has_end(tail) {
        Ok(true) => Some(line),
        Ok(false) => None,
        Err(_) => None,
    }
}

/// How many bytes the header of a bulk string of this size has.
pub(crate) fn header_length(size: u64) -> usize
    ensures value { result ≡ length (header size) }
    ensures short { result ≤ 43 }
{
    let mut buffer = Buffer::new();
    buffer.format(size).len() + AROUND
}

/// Whether a bulk string of this size is longer than a frame.
fn is_longer(size: u64) -> bool
    requires { size ≤ BULK_MAX }
    ensures { result ≡ is_long size }
{
    header_length(size) as u64 + size + 2 > FRAME_MAX
}

/// The size of a long bulk string that begins here, where its header is whole.
#[tactic(auto, unfolding(crate::specs::Long::LongValues::long_size))]
pub(crate) fn long_size(bytes: &[u8]) -> Option<u64>
    ensures { result ≡ long_size bytes.now }
{
    let (kind, rest) = bytes.split_first()?;
    if *kind != b'$' {
        return None;
    }
    let line = whole_line(&rest[..rest.len().min(LINE_MAX)])?;
    let size = canonical_number_of(line, 0, BULK_MAX)?;
    if is_longer(size) { Some(size) } else { None }
}
