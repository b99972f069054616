//! How a client finds a master: which Sentinel it asks, where it connects, and when it may trust the address.
//!
//! Redis's "Guidelines for Redis clients with support for Sentinel" describe it: the client asks one Sentinel after
//! another for the master's address, puts the one that answered at the front of its list, connects to that address, and
//! checks by ROLE that a master answers there; where that fails it waits and begins again. `Quest` keeps where a client
//! stands in this. It sends nothing: its caller does what `next_move` says, and reports what came of it.
#![tactic(auto)]

mod moves;
mod quests;

pub use moves::Move;
pub use quests::{Quest, QuestFault};
