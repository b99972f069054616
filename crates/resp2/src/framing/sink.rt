//! Places to which the bytes of values are added, and the parts that values are made of.
ghost use Rattle.std.specs.Prelude.{◌≡◌, ℕ, ◌∷◌, ◌++◌, List, decimal};
ghost use Rattle.std.specs.Fmt.{signed_decimal};
ghost use Rattle.resp2.specs.Framing.Frame as frames;
ghost use Rattle.resp2.specs.Framing.Frame.{spelling, line_end};
ghost use Rattle.resp2.specs.Framing.Writing.{Adds};

use crate::framing::out_text::OutText;
use ballot_law::NoMemory;
use itoa::Buffer;

/// A place where bytes are added at the end: a text that grows, or one whose room was made before.
pub trait ByteSink {
    // The bytes that it holds.
    ghost bytes: { Self → List ℕ };

    // What is true of it after each addition, as that it holds no more than its room.
    ghost within: { Self → Type 0 };

    // What is true of it where something had no room.
    ghost full: { Self → Type 0 };

    /// Adds exactly these bytes at the end. Where they have no room the answer is `NoMemory`: then what is held is what
    /// was held and a first part of these bytes, and the sink is full.
    fn push(&mut self, piece: &[u8]) -> Result<(), NoMemory>
        ensures added { Adds result (bytes self.old) (bytes self.new) piece.now (full self.new) }
        ensures within { within self.new };
}

impl ByteSink for OutText {
    ghost bytes = { λ text. text };

    ghost within = { λ _. Unit {0} };

    ghost full = { λ _. Unit {0} };

    fn push(&mut self, piece: &[u8]) -> Result<(), NoMemory> {
        self.add(piece)
    }
}

/// Adds these bytes and CR LF.
pub fn push_line<S: ByteSink>(sink: &mut S, line: &[u8]) -> Result<(), NoMemory>
    ensures added { Adds result (S.bytes sink.old) (S.bytes sink.new) (line.now ++ line_end)
        (S.full sink.new) }
    ensures within { S.within sink.new }
{
    sink.push(line)?;
    sink.push(b"\r\n")
}

/// Adds the byte of a kind, these bytes, and CR LF.
pub fn push_kind<S: ByteSink>(sink: &mut S, kind: u8, line: &[u8]) -> Result<(), NoMemory>
    ensures added { Adds result (S.bytes sink.old) (S.bytes sink.new) (kind ∷ (line.now ++ line_end))
        (S.full sink.new) }
    ensures within { S.within sink.new }
{
    sink.push(&[kind])?;
    push_line(sink, line)
}

/// Adds the byte of a kind, this number in decimal, and CR LF: the header of a bulk string or of an array.
pub fn push_size<S: ByteSink>(sink: &mut S, kind: u8, size: usize) -> Result<(), NoMemory>
    ensures added { Adds result (S.bytes sink.old) (S.bytes sink.new) (kind ∷ (decimal size ++ line_end))
        (S.full sink.new) }
    ensures within { S.within sink.new }
{
    let mut buffer = Buffer::new();
    push_kind(sink, kind, buffer.format(size).as_bytes())
}

/// Adds the integer of this number.
pub fn push_int<S: ByteSink>(sink: &mut S, number: i64) -> Result<(), NoMemory>
    ensures added { Adds result (S.bytes sink.old) (S.bytes sink.new) (spelling (frames.int number))
        (S.full sink.new) }
    ensures within { S.within sink.new }
{
    let mut buffer = Buffer::new();
    push_kind(sink, b':', buffer.format(number).as_bytes())
}

/// Adds the bulk string of these bytes.
pub fn push_bulk<S: ByteSink>(sink: &mut S, bytes: &[u8]) -> Result<(), NoMemory>
    ensures added { Adds result (S.bytes sink.old) (S.bytes sink.new) (spelling (frames.bulk bytes.now))
        (S.full sink.new) }
    ensures within { S.within sink.new }
{
    push_size(sink, b'$', bytes.len())?;
    push_line(sink, bytes)
}
