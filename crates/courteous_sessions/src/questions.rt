//! What is read of an answer that isn't sent yet.

ghost use Rattle.std.specs.Prelude.{◌≡◌, ◌≤◌, IfOk, drop, length};
ghost use Rattle.resp2.specs.Framing.Frame.{view};
ghost use Rattle.courteous_sessions.specs.OnTheWay.{BeginsWith};

use ballot_law::NoMemory;
use resp2::{Frames, Value};
use std::alloc::Global;

/// The bytes from this place on.
pub(crate) fn bytes_from(bytes: &[u8], start: usize) -> &[u8]
    requires { start ≤ length bytes.now }
    ensures { result.now ≡ drop start bytes.now }
{
    let (_, rest) = bytes.split_at(start);
    rest
}

/// The value with which these bytes begin; `NoMemory` where they begin with none, or memory was refused.
pub(crate) fn first_value(alloc: Global, bytes: &[u8]) -> Result<Value, NoMemory>
    ensures { IfOk result (λ value. BeginsWith bytes.now (view value)) }
{
    let mut frames = Frames::new(alloc);
    if frames.feed(bytes).is_err() {
        return Err(NoMemory);
    }
    match frames.next() {
        Ok(Some(value)) => Ok(value),
        _ => Err(NoMemory),
    }
}
