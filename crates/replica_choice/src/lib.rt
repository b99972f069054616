//! Which replica takes the place of a master that is down.
//!
//! "High availability with Redis Sentinel" describes the choice: replicas that are down, of priority 0, or too long
//! without a link to their master are skipped; the others are sorted by priority, then by how much of the replication
//! stream they have, then by run id.
#![tactic(auto)]

mod candidates;
mod choices;

pub use candidates::{Candidate, Limits, law_fresh};
pub use choices::choose;
