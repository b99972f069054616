//! All values of a stream that comes in pieces.
ghost use Rattle.std.specs.Prelude.{◌≡◌, ◌⊎◌, ℕ, List, map, IfOk, IfErr};
ghost use Rattle.std.specs.List.{flat_map};
ghost use Rattle.resp2.specs.declared.framing.fault.FrameFault.TheVariants.{NoMemory};
ghost use Rattle.resp2.specs.Framing.Frame.{Frame, view};
ghost use Rattle.resp2.specs.Framing.Stream.{Held, reading, ended, SoFar, Drained, Splits};

use crate::framing::fault::FrameFault;
use crate::framing::frames::Frames;
use crate::framing::value::Value;
use std::alloc::Global;

/// Adds each value that is whole.
fn take_whole(frames: &mut Frames, values: &mut Vec<Value>) -> Result<(), FrameFault>
    ensures { (stream : List ℕ) → SoFar stream (map view values.old.items) frames.old
        → Drained stream result (map view values.new.items) frames.new }
{
    while let Some(value) = frames.next()? {
        values.push(value)?;
    }
    Ok(())
}

/// The values of a stream that comes in these pieces.
pub fn values_of_pieces(alloc: Global, pieces: &[Vec<u8>]) -> Result<Vec<Value>, FrameFault>
    // Up to a rest that is no whole value, the stream is these values.
    ensures split { IfOk result (λ values. (rest : List ℕ)
        × Splits (flat_map (λ piece. piece.items) pieces.now) (map view values.items)
        (reading rest)) }
    // No other values are, so it doesn't matter how the stream was cut.
    ensures only { IfOk result (λ values. (fs : List Frame) (held : Held)
        → Splits (flat_map (λ piece. piece.items) pieces.now) fs held
        → map view values.items ≡ fs) }
    // A fault shows in the stream itself, behind whole values.
    ensures fault { IfErr result (λ fault. (fault ≡ NoMemory)
        ⊎ ((fs : List Frame)
        × Splits (flat_map (λ piece. piece.items) pieces.now) fs (ended fault))) }
{
    read_pieces(alloc, pieces)
}

fn read_pieces(alloc: Global, pieces: &[Vec<u8>]) -> Result<Vec<Value>, FrameFault>
    ensures ok { IfOk result (λ values. (rest : List ℕ)
        × Splits (flat_map (λ piece. piece.items) pieces.now) (map view values.items)
        (reading rest)) }
    ensures fault { IfErr result (λ fault. (fault ≡ NoMemory)
        ⊎ ((fs : List Frame)
        × Splits (flat_map (λ piece. piece.items) pieces.now) fs (ended fault))) }
{
    let mut frames = Frames::new(alloc);
    let mut values = Vec::new(alloc);
    for piece in pieces {
        frames.feed(piece.as_slice())?;
        take_whole(&mut frames, &mut values)?;
    }
    Ok(values)
}
