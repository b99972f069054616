//! One Sentinel and its store, shared by threads.
//!
//! The threads take turns: a thread draws a ticket, waits until it is served, has the Sentinel take its input, and
//! passes the turn. So all calls of `SharedSentinel::act` stand in one history that a single thread could have made.
//! The stored configuration of each master stands in a word of its own, which is raised before the turn is passed, so
//! `SharedSentinel::address` is one load of one word, and waits for nobody.
//!
//! A `Seat` is the right to act. Its contracts see its view: the beginning of the history that it has seen, the numbers
//! that its calls stand under, and the answers that it got from `address`.
#![tactic(auto)]

mod entry;
mod fault;
mod keeper;
mod laws;
mod observer;
mod place;
mod plays;
mod shared;
mod view;
mod word;

pub use entry::{Entry, Outcome};
pub use fault::{ActFault, CellFault, Reply};
pub use keeper::Keeper;
pub use laws::law_entry_is_steps;
pub use observer::Observer;
pub use shared::{MOST_SEATS, Seat, SharedSentinel, law_seats};
pub use view::{Stage, View};
pub use word::word_of;
