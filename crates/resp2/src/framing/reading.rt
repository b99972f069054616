//! Reads a value from the front of a list of bytes.
ghost use Rattle.std.specs.Prelude.{◌≡◌, ◌+◌, ◌-◌, ◌^◌, ◌||◌, ◌==◌, length, map, min, Some, None, Result, if◌then◌else◌, IfSome, IsTrue};
ghost use Rattle.std.specs.Str.{all_ascii_digits};
ghost use Rattle.ballot_law.specs.Cuts.{IsEnd};
ghost use Rattle.ballot_law.specs.Words.{number_on};
ghost use Rattle.resp2.specs.Framing.Faults.{IsKind};
ghost use Rattle.resp2.specs.Framing.Frame as frames;
ghost use Rattle.resp2.specs.Framing.Frame.{view, frames_view, simple, fault};
ghost use Rattle.resp2.specs.Framing.Reading as read;
ghost use Rattle.resp2.specs.Framing.Place.{IsOpenLine, OpensAt, Searched};
ghost use Rattle.resp2.specs.Framing.Reading.{Gives};

use crate::framing::fault::{FrameFault, Stopped, Unread};
use crate::framing::value::Value;
use ballot_law::Text;
use memchr::memchr2;
use std::alloc::Global;

/// How many items an array may have.
const MOST_ITEMS: u64 = 1_024;

/// For how many items room is made at an array's header, since that may say more than comes.
const FEW_ITEMS: u64 = 8;

/// What stands behind the byte that must come first.
fn behind(byte: u8, bytes: &[u8]) -> Result<&[u8], Stopped>
    ensures { Gives (λ rest. rest.now) result (read.expect byte bytes.now) }
{
    let Some((first, rest)) = bytes.split_first() else {
        return Err(Stopped::At(Unread::NeedsMore));
    };
    if *first == byte {
        Ok(rest)
    } else {
        Err(Stopped::fault(FrameFault::MissingEnd))
    }
}

/// What stands behind CR LF.
fn behind_end(bytes: &[u8]) -> Result<&[u8], Stopped>
    ensures { Gives (λ rest. rest.now) result (read.end_at bytes.now) }
{
    let rest = behind(b'\r', bytes)?;
    behind(b'\n', rest)
}

/// Where the first CR or LF stands, or the length where there is none.
fn first_end(bytes: &[u8]) -> usize
    ensures { IsEnd (λ b. (b == 13) || (b == 10)) bytes.now result }
{
    memchr2(b'\r', b'\n', bytes).unwrap_or(bytes.len())
}

/// How many bytes stand before the first CR or LF.
pub fn line_length(bytes: &[u8]) -> usize
    ensures { result ≡ read.line_length bytes.now }
{
    first_end(bytes)
}

/// The same where no line ends in the first bytes, so many of them.
pub fn line_length_from(bytes: &[u8], searched: usize) -> usize
    requires searched { Searched bytes.now 0 searched }
    ensures value { result ≡ read.line_length bytes.now }
    ensures searched { Searched bytes.now 0 result }
{
    let (_, rest) = bytes.split_at(searched);
    searched + line_length(rest)
}

/// A line, and what stands behind its end.
#[tactic(auto, unfolding(crate::specs::Framing::Reading::line_at))]
fn line_of(bytes: &[u8]) -> Result<(&[u8], &[u8]), Stopped>
    ensures { Gives (λ x. (x.0.now, x.1.now)) result (read.line_at bytes.now) }
{
    let (line, tail) = bytes.split_at(line_length(bytes));
    let rest = behind_end(tail)?;
    Ok((line, rest))
}

/// The number of a text of digits, or the greatest number.
fn digits_of(line: &[u8]) -> Option<u64>
    ensures { result ≡ (if all_ascii_digits line.now
        then Some (min (number_on 0 line.now) (2 ^ 64 - 1)) else None) }
{
    let mut number: u64 = 0;
    for digit in line {
        if !digit.is_ascii_digit() {
            return None;
        }
        number = number
            .saturating_mul(10)
            .saturating_add(u64::from(*digit - b'0'));
    }
    Some(number)
}

/// The number of a decimal text without a zero before others.
#[tactic(auto, unfolding(crate::specs::Framing::Reading::number_of))]
pub fn number_of(line: &[u8]) -> Option<u64>
    ensures { result ≡ read.number_of line.now }
{
    if line.is_empty() || (line.len() > 1 && line[0] == b'0') {
        return None;
    }
    digits_of(line)
}

/// How many bytes or items follow, `None` at the length -1.
#[tactic(auto, unfolding(crate::specs::Framing::Reading::size_of))]
fn size_of(line: &[u8]) -> Result<Option<u64>, Stopped>
    ensures { Gives (λ size. size) result (read.size_of line.now) }
{
    if let Some(number) = number_of(line) {
        return Ok(Some(number));
    }
    if line == b"-1".as_slice() {
        Ok(None)
    } else {
        Err(Stopped::fault(FrameFault::BadLength))
    }
}

/// An integer of 64 bits.
#[tactic(auto, unfolding(crate::specs::Framing::Reading::integer_of))]
fn integer_of(line: &[u8]) -> Option<i64>
    ensures { result ≡ read.integer_of line.now }
{
    if let Some(number) = number_of(line) {
        return if number < 1 << 63 {
            Some(number as i64)
        } else {
            None
        };
    }
    let (first, digits) = line.split_first()?;
    if *first != b'-' {
        return None;
    }
    let number = number_of(digits)?;
    if number == 0 || number > 1 << 63 {
        None
    } else {
        Some(-((number - 1) as i64) - 1)
    }
}

#[tactic(auto, unfolding(crate::specs::Framing::Reading::text_at))]
fn simple_of(alloc: Global, bytes: &[u8]) -> Result<(Value, &[u8]), Stopped>
    ensures { Gives (λ x. (view x.0, x.1.now)) result (read.text_at simple bytes.now) }
{
    let (line, rest) = line_of(bytes)?;
    Ok((Value::Simple(Text::from_slice(alloc, line)?), rest))
}

#[tactic(auto, unfolding(crate::specs::Framing::Reading::text_at))]
fn fault_of(alloc: Global, bytes: &[u8]) -> Result<(Value, &[u8]), Stopped>
    ensures { Gives (λ x. (view x.0, x.1.now)) result (read.text_at fault bytes.now) }
{
    let (line, rest) = line_of(bytes)?;
    Ok((Value::Fault(Text::from_slice(alloc, line)?), rest))
}

#[tactic(auto, unfolding(crate::specs::Framing::Reading::integer_at))]
fn int_of(bytes: &[u8]) -> Result<(Value, &[u8]), Stopped>
    ensures { Gives (λ x. (view x.0, x.1.now)) result (read.integer_at bytes.now) }
{
    let (line, rest) = line_of(bytes)?;
    match integer_of(line) {
        Some(number) => Ok((Value::Int(number), rest)),
        None => Err(Stopped::fault(FrameFault::BadNumber)),
    }
}

/// A block of `size` bytes and its end. `more` bytes may come after these before the frame is too
/// long.
#[tactic(auto, unfolding(crate::specs::Framing::Reading::block_at))]
fn block_of(alloc: Global, bytes: &[u8], more: usize, size: u64) -> Result<(Value, &[u8]), Stopped>
    ensures { Gives (λ x. (view x.0, x.1.now)) result (read.block_at more size bytes.now) }
{
    if bytes.len() as u128 + (more as u128) < size as u128 + 2 {
        return Err(Stopped::fault(FrameFault::TooLong));
    }
    if (bytes.len() as u64) < size {
        return Err(Stopped::At(Unread::NeedsMore));
    }
    let (block, tail) = bytes.split_at(size as usize);
    let after = behind_end(tail)?;
    Ok((Value::Bulk(Text::from_slice(alloc, block)?), after))
}

#[tactic(auto, unfolding(crate::specs::Framing::Reading::bulk_at))]
fn bulk_of(alloc: Global, bytes: &[u8], more: usize) -> Result<(Value, &[u8]), Stopped>
    ensures { Gives (λ x. (view x.0, x.1.now)) result (read.bulk_at more bytes.now) }
{
    let (line, rest) = line_of(bytes)?;
    match size_of(line)? {
        Some(size) => block_of(alloc, rest, more, size),
        None => Ok((Value::NullBulk, rest)),
    }
}

/// Whether this is the byte of a kind of value.
fn is_kind(byte: u8) -> bool
    ensures { IsTrue result → IsKind byte }
{
    matches!(byte, b'+' | b'-' | b':' | b'$' | b'*')
}

/// Whether a value has begun here with a line that is still without an end. The line has `line` bytes, the kind's with
/// them.
pub fn is_open_line(bytes: &[u8], line: usize) -> bool
    requires { line ≡ read.line_length bytes.now }
    ensures { IsTrue result → IsOpenLine bytes.now }
{
    let Some((kind, _)) = bytes.split_first() else {
        return false;
    };
    line == bytes.len() && is_kind(*kind)
}

/// How many items follow the header of an array that stands here, and what is behind it; `None` where no such header is
/// whole.
pub fn header_of(bytes: &[u8]) -> Option<(u64, &[u8])>
    ensures { IfSome result (λ header. OpensAt bytes.now header.0 header.1.now) }
{
    let (first, rest) = bytes.split_first()?;
    if *first != b'*' {
        return None;
    }
    match line_of(rest) {
        Ok((line, after)) => {
            let count = number_of(line)?;
            if MOST_ITEMS < count {
                None
            } else {
                Some((count, after))
            }
        }
        Err(_) => None,
    }
}

/// A value of at most this depth.
#[cycle(values)]
#[tactic(auto, unfolding(crate::specs::Framing::Reading::value_at, crate::specs::Framing::Reading::kind_at))]
pub fn value_of(
    alloc: Global,
    bytes: &[u8],
    more: usize,
    depth: usize,
) -> Result<(Value, &[u8]), Stopped>
    ensures { Gives (λ x. (view x.0, x.1.now)) result (read.value_at 1024 more depth bytes.now) }
{
    let Some((kind, rest)) = bytes.split_first() else {
        return Err(Stopped::At(Unread::NeedsMore));
    };
    if depth == 0 {
        return Err(Stopped::fault(FrameFault::TooDeep));
    }
    match *kind {
        b'+' => simple_of(alloc, rest),
        b'-' => fault_of(alloc, rest),
        b':' => int_of(rest),
        b'$' => bulk_of(alloc, rest, more),
        b'*' => items_of(alloc, rest, more, depth - 1),
        _ => Err(Stopped::fault(FrameFault::BadKind)),
    }
}

/// An array whose items are of at most this depth.
#[cycle(values)]
#[tactic(auto, unfolding(crate::specs::Framing::Reading::items_at))]
fn items_of(
    alloc: Global,
    bytes: &[u8],
    more: usize,
    depth: usize,
) -> Result<(Value, &[u8]), Stopped>
    ensures { Gives (λ x. (view x.0, x.1.now)) result
        (read.items_at 1024 (read.value_at 1024 more depth) bytes.now) }
{
    let (line, rest) = line_of(bytes)?;
    let Some(count) = size_of(line)? else {
        return Ok((Value::NullItems, rest));
    };
    if MOST_ITEMS < count {
        return Err(Stopped::fault(FrameFault::TooMany));
    }
    let (items, rest) = values_of(alloc, rest, more, depth, count)?;
    Ok((Value::Items(items), rest))
}

#[cycle(values)]
fn values_of(
    alloc: Global,
    bytes: &[u8],
    more: usize,
    depth: usize,
    count: u64,
) -> Result<(Vec<Value>, &[u8]), Stopped>
    ensures { Gives (λ x. (frames_view x.0.items, x.1.now)) result
        (read.values_at (read.value_at 1024 more depth) count bytes.now) }
{
    let mut values = Vec::with_capacity(alloc, count.min(FEW_ITEMS) as usize)?;
    let mut rest = bytes;
    for _ in 0..count {
        let (value, after) = value_of(alloc, rest, more, depth)?;
        values.push(value)?;
        rest = after;
    }
    Ok((values, rest))
}
