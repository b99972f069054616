//! One call of `act`, as the history has it.

use ballot_law::{Input, Output};
use std::collections::LinkedList;

/// How a call ended.
#[derive(Clone, Copy, PartialEq, Eq)]
pub enum Outcome {
    /// The input was taken and stored, and its outputs were shown.
    Stored,
    /// The store refused what the input changed, and the Sentinel was halted.
    Refused,
    /// The Sentinel was halted before.
    Halted,
}

/// An entry of the history: the number that the call was made under, its input and its outcome, the outputs that it
/// showed, and the failure count of the store after it. Contracts speak of entries; no value of them is made.
pub struct Entry {
    pub number: u64,
    pub input: Input,
    pub outcome: Outcome,
    pub outputs: LinkedList<Output>,
    pub failures: u64,
}
