//! Why a call on a Sentinel, or on another node, is refused.

use thiserror::Error;

/// Why no Sentinel was opened, or a stopped node wasn't started.
#[derive(Clone, Copy, Debug, PartialEq, Eq, Error)]
pub enum OpenFault {
    /// A growth was refused; the conf that was handed over is dropped, and a stopped node stays stopped.
    #[error("NoMemory")]
    NoMemory,
}

/// Why an input wasn't taken. Of several faults the first of this list is told, and nothing has changed.
#[derive(Clone, Copy, Debug, PartialEq, Eq, Error)]
pub enum TakeFault {
    /// The input before isn't released yet.
    #[error("Busy")]
    Busy,
    /// A store was refused: the node takes nothing more. Only a Sentinel stores.
    #[error("Halted")]
    Halted,
    /// The node is stopped.
    #[error("Stopped")]
    Stopped,
    /// The outbox doesn't fit the node's `room`: room is wanting, or outputs are held in it.
    #[error("NoRoom")]
    NoRoom,
}

/// Why nothing was stored.
#[derive(Clone, Copy, Debug, PartialEq, Eq, Error)]
pub enum StoreFault {
    /// No input waits to be stored; nothing has changed, and the store wasn't called.
    #[error("Nothing")]
    Nothing,
    /// The store refused the file, which holds the old text or the new one: the Sentinel is halted.
    #[error("Refused")]
    Refused,
}

/// Why nothing was released. Of several faults the first of this list is told, and nothing has changed.
#[derive(Clone, Copy, Debug, PartialEq, Eq, Error)]
pub enum ReleaseFault {
    /// A store was refused: what is held is never shown.
    #[error("Halted")]
    Halted,
    /// No input was stored that isn't released yet.
    #[error("Unstored")]
    Unstored,
}
