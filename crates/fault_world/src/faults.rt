//! Why nodes are no world, and how far a run came.

use thiserror::Error;

/// Why no world begins with these nodes. Where several fit, the first is told; the nodes come back as they were.
#[derive(Clone, Copy, Debug, PartialEq, Eq, Error)]
pub enum WorldFault {
    /// The nodes aren't each Sentinel and each data node of the roster, once each, with clients of different names; or
    /// one of them doesn't know the roster.
    #[error("NotTheRoster")]
    NotTheRoster,
    /// Two Sentinels begin with different configurations of a master.
    #[error("DifferentStart")]
    DifferentStart,
    #[error("NoMemory")]
    NoMemory,
}

/// Why not all steps of a run were made.
#[derive(Clone, Copy, Debug, PartialEq, Eq, Error)]
pub enum RunFault {
    /// Memory was refused: the first `step` steps are done, and the others aren't. The same call with those others goes
    /// on from there.
    #[error("NoMemory")]
    NoMemory { step: usize },
}
