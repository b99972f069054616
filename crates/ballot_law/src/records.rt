//! What the model of a whole group writes down of its runs.

use crate::cards::Card;

/// The election of a Sentinel for a master in an epoch.
#[derive(Clone, Copy, PartialEq, Eq)]
pub struct Election {
    /// The Sentinel's place in the roster.
    pub sentinel: u16,
    pub master: u16,
    /// The epoch of the Sentinel's campaign, at most `MAX_EPOCH`.
    pub epoch: u64,
}

/// A configuration that a Sentinel showed to a client or to other Sentinels.
#[derive(Clone, Copy, PartialEq, Eq)]
pub struct Advertisement {
    /// The Sentinel's place in the roster.
    pub sentinel: u16,
    pub master: u16,
    pub card: Card,
}

/// A win that a Sentinel hasn't stored yet.
#[derive(Clone, Copy, PartialEq, Eq)]
pub struct Win {
    pub master: u16,
    /// The epoch of the Sentinel's campaign, at most `MAX_EPOCH`.
    pub epoch: u64,
}
