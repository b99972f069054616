//! A group of boxed nodes in one process, with all messages that they ever sent, and its steps.
//!
//! `FaultWorld::run` makes steps, as a scenario names them: a node takes an input or a message that was sent, stores or
//! finds its store refused, releases, stops, starts, or shows a client a configuration. Messages are lost, late,
//! repeated and out of order as the steps have it. In the model of the whole group each step is a step, so what holds
//! of every run of the model holds of this code.
//!
//! `Seated` is a node with its outbox, as a member of the group: it makes the calls of one step on its node, and each
//! of them moves every image that the member stands for as the model moves a node. `members_of` makes the members of a
//! world from fresh nodes, where they are the group of a roster and its Sentinels begin with the same configurations;
//! then they stand for a start of the model. A `Report` has what a run brought: who was elected, and which
//! configurations were shown, in the order in which it happened.
//!
//! The definitions read from below: `Seats` (what a member stands for, and what a call makes of it), `Standing` (the
//! world for which all members stand, and how a world is reached from a start), `Groups` (which nodes are a roster's
//! group, and when they begin alike), `Told` (the text of a report's entry, and of what it tells), `News` (what a
//! report tells of a step), `Runs` (what a run is), `Laws` (what holds of every run, and of all runs since the start
//! together), `Limits` (which numbers may stand in the steps of a run).
#![tactic(auto)]

mod alike;
mod boxes;
mod entry;
mod fault_world;
mod faults;
mod groups;
mod laws;
mod lines;
mod names;
mod report;
mod scenarios;
mod seated;
mod sending;
mod starts;
mod stops;
mod telling;

pub use ballot_law::KeptText;
pub use boxed_nodes::{ClientNode, DataNode, HowStored, Node, SentinelNode};
pub use entry::Entry;
pub use fault_world::FaultWorld;
pub use faults::{RunFault, WorldFault};
pub use laws::{law_reports_join, law_scenarios_are_within};
pub use report::Report;
pub use scenarios::{
    ScenarioFault, ScenarioKind, add_comment, add_message, read_scenario, read_scenario_as,
    words_of,
};
pub use seated::Seated;
pub use starts::members_of;
pub use stops::with_stop;
