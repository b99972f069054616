//! What the nodes of a Sentinel group share: the plain data that they keep and send each other, the fixed roster of the
//! group, and the definitions that speak of the group as a whole.
//!
//! Nothing here acts. The crates above read and write these values, and their contracts cite the definitions in this
//! crate's `specs/`, so that all of them speak of the same things.
#![tactic(auto)]

mod addresses;
mod cards;
mod clocks;
mod commands;
mod comparisons;
mod events;
mod hearings;
mod laws;
mod memory;
mod messages;
mod names;
mod node_places;
mod ordering;
mod padding;
mod periods;
mod records;
mod replies;
mod rosters;
mod same_rosters;
mod steps;
mod texts;

pub use addresses::{Addr, RunId};
pub use cards::{Card, Kept, KeptMaster, KeptMasters, MAX_EPOCH, Shown, ShownList};
pub use clocks::{LAST_READING, clock_of};
pub use commands::Command;
pub use comparisons::is_same_bytes;
pub use events::{Event, Input};
pub use hearings::{DownReport, HeardVote};
pub use laws::{
    law_elected_may_win, law_failover_happens, law_limits, law_never_falls, law_one_address,
    law_one_leader, law_periods, law_refusals_happen, law_runs_join,
};
pub use memory::NoMemory;
pub use messages::{
    ANSWER_MAX, Body, Heir, Message, NodeName, Note, OUTPUTS_MAX, Output, SHOWN_MAX,
};
pub use names::{NAME_MAX, Name};
pub use node_places::NodePlace;
pub use ordering::{Placed, ordered};
pub use periods::{HAND_OVER_MS, REPLICA_MS, REPORT_MS, STEP_MS, TILT_MS};
pub use records::{Advertisement, Election, Win};
pub use replies::{DataRole, Hello, Info, PingReply, Role};
pub use rosters::{MASTERS_MAX, Member, NODES_MAX, Roster, RosterFault, SENTINELS_MAX, Watched};
pub use steps::{KeptText, Step};
pub use texts::{SHORT_TEXT_MAX, ShortText, Text};
