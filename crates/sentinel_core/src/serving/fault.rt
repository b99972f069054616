//! Why the serving of a stream ends before the stream does.

use resp2::FrameFault;
use thiserror::Error;

/// Why the serving of a stream ends before the stream does. What was answered before stays written.
#[derive(Clone, Copy, Debug, PartialEq, Eq, Error)]
pub enum ServeFault {
    /// The bytes are no RESP2 value; `-ERR Protocol error` was written last.
    #[error(transparent)]
    Frame(FrameFault),
    /// The reader failed, or the stream takes more than 16,777,216 reads.
    #[error("Read")]
    Read,
    /// The writer failed, or takes no more bytes.
    #[error("Write")]
    Write,
    /// The store refused what an answer rests on: that answer wasn't given, and the Sentinel is halted.
    #[error("Halted")]
    Halted,
    /// A growth was refused.
    #[error("NoMemory")]
    NoMemory,
}
