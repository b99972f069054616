//! What a seat knows. It is plain data that contracts speak of; no value of it is made.

use crate::entry::Entry;
use ballot_law::Card;
use std::collections::LinkedList;

/// How far a seat has come with its turn. The number in it is the seat's ticket.
pub enum Stage {
    /// It is the first seat of a new table, whose slot is empty.
    Opening,
    /// It fills that slot.
    Filling,
    /// It is between two calls.
    Idle,
    /// It saw a ticket word that is small enough.
    Looked,
    Waiting(u64),
    Serving(u64),
}

/// What a seat knows.
///
/// `front` is the history that it has seen. `numbers` are its own, and below `given` are all numbers that it knows to
/// be given out. `answers` are those of `address`, each with its master. `tickets` is the ticket word as it was last
/// seen. After a join `told` is the shorter of the two fronts, and `told_numbers` has the numbers of its seat. `flight`
/// has the entry that a serving seat has announced and not passed yet.
pub struct View {
    pub front: LinkedList<Entry>,
    pub told: LinkedList<Entry>,
    pub told_numbers: LinkedList<u64>,
    pub numbers: LinkedList<u64>,
    pub given: u64,
    pub answers: LinkedList<(u64, Card)>,
    pub share: u64,
    pub tickets: u64,
    pub stage: Stage,
    pub flight: LinkedList<Entry>,
}
