//! Whether a Sentinel group is well: what its nodes say of it, what of that isn't well, and what to do.
//!
//! - `Targets` are the nodes to ask: those of a sentinel.conf, or those found from some Sentinels' addresses.
//! - `Talk` is the conversation with one node, bytes in and bytes out. `ask_group` has all of them at once over
//!   sockets, each for at most two seconds: what each node said, or why it didn't, is a `GroupFacts`.
//! - `matters_of` lists what is looked at, each as a `Matter`; `specs/Wellness` defines when one is well. `findings`
//!   are the others, and each is a sentence with what to do. A `Status` holds all of it, and writes it as a page or as
//!   JSON.
#![tactic(auto)]

mod asking;
mod facts_json;
mod group;
mod infos_read;
mod matter_lists;
mod matters;
mod rows;
mod said;
mod sentences;
mod shown_texts;
mod status;
mod tables;
mod talks;
mod targets;
#[cfg(test)]
mod tests;

pub use asking::{AskFault, OPEN_MAX, TALK_MS, ask_group};
pub use group::{GroupFacts, NODES_ASKED_MAX};
pub use status::Status;
pub use targets::{Passwords, Targets};
