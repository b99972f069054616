//! Why a link is closed.

use resp2::FrameFault;
use thiserror::Error;

/// Why a link is closed, and opened anew.
#[derive(Clone, Copy, Debug, PartialEq, Eq, Error)]
pub enum LinkFault {
    /// The bytes that came are no RESP2. A link tells which fault it is, as `Unread`.
    #[error("Frame")]
    Frame,
    /// A value came that answers no question.
    #[error("Unasked")]
    Unasked,
    /// A value came that doesn't answer its question.
    #[error("Strange")]
    Strange,
    /// So many questions wait that no further one is taken.
    #[error("Full")]
    Full,
    /// A growth was refused.
    #[error("NoMemory")]
    NoMemory,
    /// The bytes that came can't be read on, for this fault of a frame, whose name is the text.
    #[error(transparent)]
    Unread(FrameFault),
}
