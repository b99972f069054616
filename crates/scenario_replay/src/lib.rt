//! A story of a whole group, played: the Sentinels of conf files, the data nodes that they watch, and a client for each
//! master.
//!
//! A `Story` is made of the bytes of a scenario, to which the files of the Sentinels are added; each is refused by its
//! own fault. Played, it gives the text of the elections and advertisements that it brought, or its trace: the scenario
//! again, with each message and each of those lines as a comment behind the line that caused it. A trace is a scenario
//! too, of the same steps.
#![tactic(auto)]

mod faults;
mod seats;
mod steps;
mod story;
mod traces;

pub use faults::ReplayFault;
pub use story::{Printed, Stop, Story};
