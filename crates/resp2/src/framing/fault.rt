//! What keeps a value from being read or written.
ghost use Rattle.std.specs.Prelude.{◌≡◌};
ghost use Rattle.resp2.specs.declared.framing.fault.FrameFault.TheVariants.{NoMemory};
ghost use Rattle.resp2.specs.declared.framing.fault.Unread.TheVariants.{Faulty};
ghost use Rattle.resp2.specs.declared.framing.fault.Stopped.TheVariants.{At, Memory};

use ballot_law::NoMemory;
use std::alloc::{AllocError, AllocFailed};
use thiserror::Error;

/// Why no value is read from a stream. The text of each is the variant's name.
///
/// Of several faults the one that shows first in the stream is told. All but `NoMemory` are faults
/// of the bytes: the stream can't be read on, and the connection should be closed.
#[derive(Clone, Copy, Debug, PartialEq, Eq, Error)]
pub enum FrameFault {
    /// The first byte of a value is none of `+`, `-`, `:`, `$` and `*`.
    #[error("BadKind")]
    BadKind,
    /// A length is neither a decimal number without leading zeros nor `-1`.
    #[error("BadLength")]
    BadLength,
    /// An integer isn't written as a decimal number without leading zeros, with `-` only before a
    /// number above 0, or doesn't fit 64 bits with a sign.
    #[error("BadNumber")]
    BadNumber,
    /// A line or a bulk string doesn't end in CR LF.
    #[error("MissingEnd")]
    MissingEnd,
    /// The frame has more than 65,536 bytes, or a bulk string's length says that it will.
    #[error("TooLong")]
    TooLong,
    /// A value begins at depth 9, the frame itself being at depth 1.
    #[error("TooDeep")]
    TooDeep,
    /// An array's length is above 1,024.
    #[error("TooMany")]
    TooMany,
    /// Memory was refused. Nothing is lost: the same call may be made again.
    #[error("NoMemory")]
    NoMemory,
}

impl From<AllocError> for FrameFault {
    ghost from_gives = { λ _ fault. fault ≡ NoMemory };

    fn from(_error: AllocError) -> FrameFault {
        FrameFault::NoMemory
    }
}

impl<T: Drop> From<AllocFailed<T>> for FrameFault {
    ghost from_gives = { λ _ fault. fault ≡ NoMemory };

    fn from(_error: AllocFailed<T>) -> FrameFault {
        FrameFault::NoMemory
    }
}

/// Why the bytes held begin with no whole value.
#[derive(Clone, Copy, PartialEq, Eq)]
pub enum Unread {
    /// No fault shows so far: the next bytes may make a value.
    NeedsMore,
    /// No value can begin like this. The fault is one of the bytes, and never `NoMemory`.
    Faulty(FrameFault),
}

/// Why the reading of a value ended without one.
#[derive(Clone, Copy, PartialEq, Eq)]
pub enum Stopped {
    /// The bytes gave none.
    At(Unread),
    /// Memory was refused, which says nothing of the bytes.
    Memory,
}

impl From<AllocError> for Stopped {
    ghost from_gives = { λ _ stopped. stopped ≡ Memory };

    fn from(_error: AllocError) -> Stopped {
        Stopped::Memory
    }
}

impl<T: Drop> From<AllocFailed<T>> for Stopped {
    ghost from_gives = { λ _ stopped. stopped ≡ Memory };

    fn from(_error: AllocFailed<T>) -> Stopped {
        Stopped::Memory
    }
}

impl From<NoMemory> for Stopped {
    ghost from_gives = { λ _ stopped. stopped ≡ Memory };

    fn from(_error: NoMemory) -> Stopped {
        Stopped::Memory
    }
}

impl Stopped {
    /// A fault of the bytes.
    pub fn fault(fault: FrameFault) -> Stopped
        ensures { result ≡ At (Faulty fault) }
    {
        Stopped::At(Unread::Faulty(fault))
    }
}
