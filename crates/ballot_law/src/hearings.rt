//! What a Sentinel keeps of what other Sentinels said of a master.

use crate::addresses::RunId;

/// A vote of another Sentinel, as its answer told it.
#[derive(Clone, Copy, PartialEq, Eq)]
pub struct HeardVote {
    pub candidate: RunId,
    /// At most `MAX_EPOCH`.
    pub epoch: u64,
}

/// Whether another Sentinel finds the master down, and when it said so, in milliseconds.
#[derive(Clone, Copy, PartialEq, Eq)]
pub struct DownReport {
    pub down: bool,
    pub at: u64,
}
