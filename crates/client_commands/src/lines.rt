//! Commands that come as lines.

ghost use Rattle.std.specs.Prelude.{◌≡◌, ◌≤◌, ◌<◌, ◌==◌, true, false, None, length, IfOk, IfSome, MatchOption};
ghost use Rattle.ballot_law.specs.Cuts.{IsEnd};
ghost use Rattle.resp2.specs.Asked.{IsCommon};
ghost use Rattle.ballot_law.specs.Limits.{IsWithin};
ghost use Rattle.resp2.specs.Framing.Frame.{view, spelling, HasLines};
ghost use Rattle.resp2.specs.Framing.Stream as streams;
ghost use Rattle.resp2.specs.Framing.Stream.{held_size, bytes_in};
ghost use Rattle.client_commands.specs.Attendants.{TakesCommon};
ghost use Rattle.client_commands.specs.Lines.{array_of, is_web, command_in, command_of_line, is_kind, begins_line, line_size, IsFound, Answers};

use crate::refusals::is_called;
use ballot_law::{Command, NoMemory, Text};
use memchr::memchr;
use resp2::{FrameFault, Frames, OutText, Value, write_value};
use std::alloc::Global;
use tokens::redis_words;

/// How many bytes a line may have before its LF, and its value in RESP2.
const LONGEST: usize = 65_536;

/// How many words a line may have.
const MOST_WORDS: usize = 1_024;

/// What the bytes are with which a stream begins that begins with a line.
#[derive(Drop)]
pub enum Line {
    /// A command and how many bytes the line has with its LF.
    Whole(Value, usize),
    /// The line has no LF yet.
    Open,
    /// No command.
    Broken,
}

/// Whether a value of RESP2 begins with the byte.
fn is_kind(byte: u8) -> bool
    ensures { result ≡ is_kind byte }
{
    byte == b'*' || byte == b'$' || byte == b'+' || byte == b'-' || byte == b':'
}

/// Whether a stream with these bytes begins with a line.
pub(crate) fn begins_line(bytes: &[u8]) -> bool
    ensures { result ≡ begins_line bytes.now }
{
    match bytes.first() {
        Some(first) => !is_kind(*first),
        None => false,
    }
}

/// Where the first LF is, or the length where there is none.
fn lf_place(bytes: &[u8]) -> usize
    ensures { IsEnd (λ b. b == 10) bytes.now result }
{
    memchr(b'\n', bytes).unwrap_or(bytes.len())
}

/// How many bytes come before the first LF.
#[tactic(auto, using(crate::proofs::LineLemmas::line_within))]
fn line_size(bytes: &[u8]) -> usize
    ensures size { result ≡ line_size bytes.now }
    ensures within { result ≤ length bytes.now }
{
    lf_place(bytes)
}

/// Whether a request of HTTP has such a line.
fn is_web(words: &[Text]) -> bool
    ensures { result ≡ is_web words.now }
{
    match words.first() {
        Some(word) => is_called(b"post", word.as_slice()) || is_called(b"host:", word.as_slice()),
        None => false,
    }
}

/// The array that has these words.
fn array_of(alloc: Global, words: &[Text]) -> Result<Value, NoMemory>
    ensures { IfOk result (λ value. view value ≡ array_of words.now) }
{
    let mut values = Vec::new(alloc);
    let mut rest = words;
    while let [word, more @ ..] = rest {
        values.push(Value::Bulk(Text::from_slice(alloc, word.as_slice())?))?;
        rest = more;
    }
    Ok(Value::Items(values))
}

/// How many bytes spell the value.
fn spelled_size(alloc: Global, value: &Value) -> Result<usize, NoMemory>
    requires { HasLines (view value.now) }
    ensures { IfOk result (λ size. size ≡ length (spelling (view value.now))) }
{
    let mut text = OutText::new(alloc);
    write_value(value, &mut text)?;
    Ok(text.len())
}

/// The array of a line's words; none where a stream may not hold it, or a request of HTTP has the line.
#[tactic(auto, using(crate::proofs::LineLemmas::array_has_lines))]
fn command_in(alloc: Global, words: &[Text]) -> Result<Option<Value>, NoMemory>
    ensures { IfOk result (λ found. MatchOption found (command_in words.now ≡ None) (λ value. command_in words.now ≡ Some (view value))) }
{
    if words.len() > MOST_WORDS || is_web(words) {
        return Ok(None);
    }
    let value = array_of(alloc, words)?;
    if spelled_size(alloc, &value)? > LONGEST {
        return Ok(None);
    }
    Ok(Some(value))
}

/// The command that a line is.
fn command_of_line(alloc: Global, line: &[u8]) -> Result<Option<Value>, NoMemory>
    ensures { IfOk result (λ found. MatchOption found (command_of_line line.now ≡ None) (λ value. command_of_line line.now ≡ Some (view value))) }
{
    match redis_words(alloc, line)? {
        Some(words) => command_in(alloc, words.as_slice()),
        None => Ok(None),
    }
}

/// The line with which these bytes begin.
fn line_in(alloc: Global, bytes: &[u8]) -> Result<Line, NoMemory>
    ensures { IfOk result (λ line. IsFound line bytes.now) }
{
    let size = line_size(bytes);
    if size > LONGEST {
        return Ok(Line::Broken);
    }
    if size == bytes.len() {
        return Ok(Line::Open);
    }
    let (line, _) = bytes.split_at(size);
    match command_of_line(alloc, line)? {
        Some(value) => Ok(Line::Whole(value, size + 1)),
        None => Ok(Line::Broken),
    }
}

/// The next value of RESP2, whose lines are lines.
fn next_frame(frames: &mut Frames) -> Result<Option<Value>, FrameFault>
    ensures exact { streams.Answers view frames.old result frames.new }
    ensures lines { IfOk result (λ given. IfSome given (λ value. HasLines (view value))) }
    ensures fewer { IfOk result (λ given. IfSome given (λ value. held_size frames.new < held_size frames.old)) }
{
    frames.next()
}

/// The next value, where the stream goes on with a line.
fn next_line(alloc: Global, frames: &mut Frames) -> Result<Option<Value>, FrameFault>
    requires { begins_line (bytes_in frames.old) ≡ true }
    ensures exact { Answers view frames.old result frames.new }
    ensures lines { IfOk result (λ given. IfSome given (λ value. HasLines (view value))) }
    ensures fewer { IfOk result (λ given. IfSome given (λ value. held_size frames.new < held_size frames.old)) }
{
    match line_in(alloc, frames.held()) {
        Ok(Line::Whole(value, size)) => {
            frames.skip(size);
            Ok(Some(value))
        }
        Ok(Line::Open) => Ok(None),
        Ok(Line::Broken) => next_frame(frames),
        Err(_) => Err(FrameFault::NoMemory),
    }
}

/// The next value of a client's stream, whose lines are lines: a value of RESP2, or the array of a line's words.
pub(crate) fn next_value(alloc: Global, frames: &mut Frames) -> Result<Option<Value>, FrameFault>
    ensures exact { Answers view frames.old result frames.new }
    ensures lines { IfOk result (λ given. IfSome given (λ value. HasLines (view value))) }
    ensures fewer { IfOk result (λ given. IfSome given (λ value. held_size frames.new < held_size frames.old)) }
{
    if begins_line(frames.held()) {
        next_line(alloc, frames)
    } else {
        next_frame(frames)
    }
}

/// Takes the next value, where it is a command that is read where it stands, and no line.
pub(crate) fn next_common(frames: &mut Frames) -> Option<Command>
    ensures taken { IfSome result (TakesCommon frames.old frames.new) }
    ensures common { IfSome result IsCommon }
    ensures within { IfSome result IsWithin }
    ensures fewer { IfSome result (λ command. held_size frames.new < held_size frames.old) }
    ensures left { result ≡ None → frames.new ≡ frames.old }
{
    if begins_line(frames.held()) {
        return None;
    }
    take_common(frames)
}

/// Takes the next value, where it is a command that is read where it stands; the stream goes on with no line.
fn take_common(frames: &mut Frames) -> Option<Command>
    requires { begins_line (bytes_in frames.old) ≡ false }
    ensures taken { IfSome result (TakesCommon frames.old frames.new) }
    ensures common { IfSome result IsCommon }
    ensures within { IfSome result IsWithin }
    ensures fewer { IfSome result (λ command. held_size frames.new < held_size frames.old) }
    ensures left { result ≡ None → frames.new ≡ frames.old }
{
    resp2::next_common(frames)
}
