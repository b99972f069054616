//! The next command of what a client sent.

ghost use Rattle.std.specs.Prelude.{◌≡◌, ◌≢◌, ◌<◌, ℕ, [], IfOk, OnErr, length};
ghost use Rattle.resp2.specs.Framing.Stream.{reading, bytes_in};
ghost use Rattle.data_node_port.specs.declared.finding.Found.TheVariants.{Waits, Broken};
ghost use Rattle.data_node_port.specs.Readings.{turn_at, inline_at};
ghost use Rattle.data_node_port.specs.declared.finding.Line.TheVariants.{Ends};
ghost use Rattle.data_node_port.specs.Findings.{found_turn, array_at, line_turn, front_turn};

use crate::readings::{COMMAND_MAX, before_end, inline_words, words_of};
use ballot_law::{NoMemory, Text};
use resp2::{FrameFault, Frames};
use std::alloc::Global;

/// What was found at the front of the bytes.
#[derive(Drop)]
pub(crate) enum Found {
    /// The words of a command, which was taken away.
    Words(Vec<Text>),
    /// More bytes are needed.
    Waits,
    /// No command begins with them.
    Broken,
}

/// Takes away an array at the front.
fn find_array(alloc: Global, frames: &mut Frames) -> Result<Found, NoMemory>
    requires open { frames.old ≡ reading (bytes_in frames.old) }
    ensures found { IfOk result (λ found. found_turn found (bytes_in frames.new) ≡ array_at (bytes_in frames.old)) }
    ensures waits { IfOk result (λ found. found ≡ Waits → frames.new ≡ frames.old) }
    ensures open { IfOk result (λ found. found ≢ Broken → frames.new ≡ reading (bytes_in frames.new)) }
{
    match frames.next() {
        Ok(Some(value)) => match words_of(alloc, &value)? {
            Some(words) => Ok(Found::Words(words)),
            None => Ok(Found::Broken),
        },
        Ok(None) => Ok(Found::Waits),
        Err(FrameFault::NoMemory) => Err(NoMemory),
        Err(_) => Ok(Found::Broken),
    }
}

/// How a line at the front goes on.
#[derive(Clone, Copy)]
pub(crate) enum Line {
    /// Its LF stands after so many bytes.
    Ends(usize),
    /// More bytes are needed.
    Waits,
    /// It has too many bytes.
    TooLong,
}

/// How a line at the front goes on.
#[tactic(auto, unfolding(crate::specs::Readings::inline_at))]
fn line_of(bytes: &[u8]) -> Line
    ensures line { line_turn result bytes.now ≡ inline_at bytes.now }
    ensures within { (end : ℕ) → result ≡ Ends end → end < length bytes.now }
{
    let end = before_end(bytes);
    if end < bytes.len() && end < COMMAND_MAX {
        return Line::Ends(end);
    }
    if bytes.len() < COMMAND_MAX {
        return Line::Waits;
    }
    Line::TooLong
}

/// Takes away a line at the front.
fn find_line(alloc: Global, frames: &mut Frames) -> Result<Found, NoMemory>
    requires open { frames.old ≡ reading (bytes_in frames.old) }
    ensures found { IfOk result (λ found. found_turn found (bytes_in frames.new) ≡ inline_at (bytes_in frames.old)) }
    ensures waits { IfOk result (λ found. found ≡ Waits → frames.new ≡ frames.old) }
    ensures open { frames.new ≡ reading (bytes_in frames.new) }
{
    let bytes = frames.held();
    match line_of(bytes) {
        Line::Ends(end) => {
            let words = inline_words(alloc, &bytes[..end])?;
            frames.skip(end + 1);
            Ok(Found::Words(words))
        }
        Line::Waits => Ok(Found::Waits),
        Line::TooLong => Ok(Found::Broken),
    }
}

/// What the first byte tells.
#[derive(Clone, Copy)]
pub(crate) enum Front {
    /// There is none.
    Nothing,
    /// An array begins.
    Array,
    /// A line begins.
    Line,
}

/// What the first byte tells.
#[tactic(auto, using(crate::proofs::Lines::array_front, crate::proofs::Lines::line_front))]
fn front_of(bytes: &[u8]) -> Front
    ensures { front_turn result bytes.now ≡ turn_at bytes.now }
{
    match bytes {
        [] => Front::Nothing,
        [first, ..] => {
            if *first == b'*' {
                return Front::Array;
            }
            Front::Line
        }
    }
}

/// Takes away the command at the front.
fn find_first(alloc: Global, frames: &mut Frames) -> Result<Found, NoMemory>
    requires open { frames.old ≡ reading (bytes_in frames.old) }
    ensures found { IfOk result (λ found. found_turn found (bytes_in frames.new) ≡ turn_at (bytes_in frames.old)) }
    ensures waits { IfOk result (λ found. found ≡ Waits → frames.new ≡ frames.old) }
    ensures open { IfOk result (λ found. found ≢ Broken → frames.new ≡ reading (bytes_in frames.new)) }
{
    match front_of(frames.held()) {
        Front::Nothing => Ok(Found::Waits),
        Front::Array => find_array(alloc, frames),
        Front::Line => find_line(alloc, frames),
    }
}

/// Takes away the command at the front. After `Broken` nothing is held, and after `NoMemory` neither.
pub(crate) fn find(alloc: Global, frames: &mut Frames) -> Result<Found, NoMemory>
    requires open { frames.old ≡ reading (bytes_in frames.old) }
    ensures found { IfOk result (λ found. found_turn found (bytes_in frames.new) ≡ turn_at (bytes_in frames.old)) }
    ensures waits { IfOk result (λ found. found ≡ Waits → frames.new ≡ frames.old) }
    ensures broken { IfOk result (λ found. found ≡ Broken → frames.new ≡ reading []) }
    ensures open { frames.new ≡ reading (bytes_in frames.new) }
    ensures lost { OnErr result (frames.new ≡ reading []) }
{
    match find_first(alloc, frames) {
        Ok(Found::Words(words)) => Ok(Found::Words(words)),
        Ok(Found::Waits) => Ok(Found::Waits),
        Ok(Found::Broken) => {
            *frames = Frames::new(alloc);
            Ok(Found::Broken)
        }
        Err(NoMemory) => {
            *frames = Frames::new(alloc);
            Err(NoMemory)
        }
    }
}
