//! A reader of values from a stream that comes in pieces.
ghost use Rattle.std.specs.Prelude.{◌≡◌, ℕ, ◌≤◌, ◌++◌, [], List, length, take, drop, map, IfOk, IfSome, IsTrue, Ok, None, MatchResult, MatchOption};
ghost use Rattle.resp2.specs.declared.framing.fault.FrameFault.TheVariants.{NoMemory};
ghost use Rattle.resp2.specs.declared.framing.value.Value.{Value};
ghost use Rattle.resp2.specs.Framing.Frame.{Frame, view, spelling, IsFrame};
ghost use Rattle.resp2.specs.Framing.Place.{Stands, Searched};
ghost use Rattle.resp2.specs.Framing.Reading.{Gives, frame_at};
ghost use Rattle.resp2.specs.Framing.Stream.{Held, held_of, reading, bytes_in, Feeds, Answers};

use crate::framing::fault::{FrameFault, Stopped, Unread};
use crate::framing::place::{DEEPEST, Place};
use crate::framing::reading::value_of;
use crate::framing::value::Value;
use bytes::BytesMut;
use std::alloc::Global;
use std::marker::Model;

/// How many bytes a frame may have.
const LONGEST: usize = 65_536;

/// The bytes that a frame may have.
fn window_of(bytes: &[u8]) -> &[u8]
    ensures value { result.now ≡ take 65536 bytes.now }
    ensures short { length result.now ≤ 65536 }
    ensures within { length result.now ≤ length bytes.now }
{
    &bytes[..bytes.len().min(LONGEST)]
}

/// The first value, and how many bytes spell it.
fn frame_of(alloc: Global, bytes: &[u8]) -> Result<(Value, usize), Stopped>
    ensures gives { Gives (λ x. (view x.0, drop x.1 bytes.now)) result (frame_at bytes.now) }
    ensures within { IfOk result (λ x. x.1 ≤ length bytes.now) }
{
    let window = window_of(bytes);
    match value_of(alloc, window, LONGEST - window.len(), DEEPEST) {
        Ok((value, rest)) => Ok((value, window.len() - rest.len())),
        Err(Stopped::At(Unread::Faulty(fault))) => Err(Stopped::fault(fault)),
        Err(Stopped::At(Unread::NeedsMore)) => {
            if bytes.len() > LONGEST {
                Err(Stopped::fault(FrameFault::TooLong))
            } else {
                Err(Stopped::At(Unread::NeedsMore))
            }
        }
        Err(Stopped::Memory) => Err(Stopped::Memory),
    }
}

/// A reader of the values of one stream. Contracts see the bytes that came and were not given yet,
/// or the fault that was answered.
///
/// The pieces may be cut anywhere: the values are those of the whole stream. A value that is given
/// is cut off the front of the bytes held with no copy, and their room is used again, so the memory
/// taken goes with the bytes held and not with the length of the stream. Take every whole value
/// before the next `feed`, so that no more than one frame and one piece are held.
///
/// A value that comes in pieces is passed part by part, each part once, and is read when all of it is
/// there. So a piece costs what it adds to the stream, and not what came before it.
#[derive(Drop)]
pub struct Frames {
    bytes: BytesMut,
    fault: Option<FrameFault>,
    place: Place,
}

impl Model for Frames {
    ghost Value = { Held };

    ghost view = { λ frames. held_of frames.fault frames.bytes.items };

    // The reading of the first value stands behind bytes that are held.
    ghost invariant = { λ frames. Stands frames.bytes.items frames.place.outer.items frames.place.left frames.place.at
        × Searched frames.bytes.items frames.place.at frames.place.line };
}

impl Frames {
    /// A reader to which no bytes came. No memory is taken.
    pub fn new(alloc: Global) -> Frames
        ensures { result ≡ reading [] }
    {
        Frames {
            bytes: BytesMut::new(alloc),
            fault: None,
            place: Place::new(),
        }
    }

    /// Adds the next piece of the stream, of any length.
    ///
    /// `NoMemory` leaves the reader unchanged. Any other fault is one that `next` has answered
    /// before, and the piece is dropped.
    pub fn feed(&mut self, piece: &[u8]) -> Result<(), FrameFault>
        ensures { Feeds self.old piece.now result self.new }
    {
        if let Some(fault) = self.fault {
            return Err(fault);
        }
        match self.bytes.extend_from_slice(piece) {
            Ok(()) => Ok(()),
            Err(_) => Err(FrameFault::NoMemory),
        }
    }

    /// Takes the first whole value out of the bytes that came; `None` where more bytes are needed.
    ///
    /// `NoMemory` leaves the reader unchanged. Any other fault is one of the bytes: the values
    /// before it were given, and every later call of `next` and `feed` answers it again.
    pub fn next(&mut self) -> Result<Option<Value>, FrameFault>
        // What it answers, and what it leaves.
        ensures exact { Answers view self.old result self.new }
        // The value that is given stands at the front in its one spelling, and what is behind
        // it stays.
        ensures found { IfOk result (λ given. IfSome given (λ value.
            (rest : List ℕ) × IsFrame (view value)
            × (self.old ≡ reading (spelling (view value) ++ rest)) × (self.new ≡ reading rest))) }
        // Where a value stands at the front, that one is given, unless memory was refused.
        ensures only { (f : Frame) (rest : List ℕ) → IsFrame f
            → self.old ≡ reading (spelling f ++ rest)
            → MatchResult result
            (λ given. MatchOption given ⊥ (λ value. (view value ≡ f) × (self.new ≡ reading rest)))
            (λ fault. fault ≡ NoMemory) }
    {
        self.take_first()
    }

    /// The bytes that came and weren't given yet; none once a fault was answered.
    pub fn held(&self) -> &[u8]
        ensures { result.now ≡ bytes_in self.now }
    {
        if self.fault.is_some() {
            return &[];
        }
        self.bytes.as_slice()
    }

    /// Takes away the first `passed` bytes of those held, for a caller that read them where they stand: the next value
    /// begins behind them. No memory is taken.
    pub fn skip(&mut self, passed: usize)
        requires open { self.old ≡ reading (bytes_in self.old) }
        requires within { passed ≤ length (bytes_in self.old) }
        ensures { self.new ≡ reading (drop passed (bytes_in self.old)) }
    {
        self.bytes.advance(passed);
        self.place = Place::new();
    }

    /// Reads an incomplete value on where its reading stood, and the whole value once none of its parts is missing.
    fn take_first(&mut self) -> Result<Option<Value>, FrameFault>
        ensures { Answers view self.old result self.new }
    {
        if self.place.is_begun() && self.waits() {
            return Ok(None);
        }
        self.read_first()
    }

    fn read_first(&mut self) -> Result<Option<Value>, FrameFault>
        ensures { Answers view self.old result self.new }
    {
        if let Some(fault) = self.fault {
            return Err(fault);
        }
        if self.bytes.is_empty() {
            return Ok(None);
        }
        match frame_of(*self.bytes.allocator(), self.bytes.as_slice()) {
            Ok((value, count)) => {
                self.bytes.advance(count);
                self.place = Place::new();
                Ok(Some(value))
            }
            Err(Stopped::At(Unread::NeedsMore)) => {
                self.waits();
                Ok(None)
            }
            Err(Stopped::At(Unread::Faulty(fault))) => {
                self.fault = Some(fault);
                Err(fault)
            }
            Err(Stopped::Memory) => Err(FrameFault::NoMemory),
        }
    }

    /// Passes what came of the first value. `true` says that more bytes are needed, `false` that it should be read.
    fn waits(&mut self) -> bool
        ensures unchanged { self.new ≡ self.old }
        ensures waits { IsTrue result → Answers {V = Value} view self.old (Ok None) self.new }
    {
        if self.fault.is_some() {
            return false;
        }
        let bytes = self.bytes.as_slice();
        bytes.len() <= LONGEST
            && self
                .place
                .waits(*self.bytes.allocator(), bytes, LONGEST - bytes.len())
    }
}
