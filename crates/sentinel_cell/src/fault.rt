//! How calls answer.

use thiserror::Error;

/// Why a cell was not made, cut into seats or closed. What was handed in comes back.
#[derive(Clone, Copy, Debug, PartialEq, Eq, Error)]
pub enum CellFault {
    /// A growth was refused.
    #[error("NoMemory")]
    NoMemory,
    /// No seat was asked for, or more than 1,024.
    #[error("SeatCount")]
    SeatCount,
    /// The seat's share is 1, so no second seat can be cut from it.
    #[error("NoSeatLeft")]
    NoSeatLeft,
    /// The seat hasn't the whole share: another seat is out.
    #[error("SeatsOut")]
    SeatsOut,
}

/// Why an input was not taken or not stored. No output is shown.
#[derive(Clone, Copy, Debug, PartialEq, Eq, Error)]
pub enum ActFault {
    /// A growth was refused before the turn; nothing has changed.
    #[error("NoMemory")]
    NoMemory,
    /// 2^63 tickets were drawn; nothing has changed.
    #[error("Spent")]
    Spent,
    /// The Sentinel was halted by an earlier refusal of its store.
    #[error("Halted")]
    Halted,
    /// The store refused what the input changed; from then on the Sentinel is halted.
    #[error("StoreRefused")]
    StoreRefused,
}

/// Where the outputs of a call stand among those that the outbox shows, and its entry in the history.
#[derive(Clone, Copy, PartialEq, Eq)]
pub struct Reply {
    pub first: usize,
    pub count: usize,
    /// How many calls of `act` stand before this one in the history of all threads' calls.
    pub entry: u64,
}
