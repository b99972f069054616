//! What is heard of a node: what each of its replies is.

use crate::sessions::questions::Question;
use ballot_law::{Event, Text};

/// What another Sentinel's row of a master says of its file: how many replicas it has of that master, how many other
/// Sentinels, and its quorum.
#[derive(Clone, Copy, PartialEq, Eq)]
pub struct Row {
    pub replicas: u64,
    pub others: u64,
    pub quorum: u64,
}

/// An error in answer to a question. `text` is the error without its `-`, whose first word is its code, and `event`
/// what the Sentinel is told by it, if anything.
#[derive(Drop)]
pub struct Refusal {
    pub question: Question,
    pub text: Text,
    pub event: Option<Event>,
}

/// What a reply is.
#[derive(Drop)]
pub enum Heard {
    /// It tells the Sentinel something.
    Told(Event),
    /// The node refuses what was asked.
    Refused(Refusal),
    /// It is another Sentinel's row of a master.
    Row(Row),
    /// It is as it should be, and tells nothing.
    Nothing,
}
