//! The own vote of a Sentinel for one master, and the votes of the others that it heard of.
//!
//! A Sentinel votes once in an epoch, for the first candidate that asks: `VoteBook` keeps that vote. `Heard` keeps one
//! vote of each other Sentinel, and tells who leads in an epoch and, with the own vote, whether a candidate is elected.
#![tactic(auto)]

mod laws;
mod own_vote;
mod votes_heard;

pub use laws::{
    law_elected_has_votes, law_heard_keeps_the_latest, law_latest_is_greatest, law_pick_has_most,
};
pub use own_vote::{VoteAnswer, VoteBook};
pub use votes_heard::{Heard, elected};
