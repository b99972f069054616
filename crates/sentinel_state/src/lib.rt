//! A Sentinel at work: `State` is its plan, what it keeps (`Core`), and what the input in hand has put out so far.
//!
//! `Core` has the calls that read what is kept and those that set a part of it. Nothing here takes memory but the
//! opening. Each call's contract is an equation with the definitions of `sentinel_rules`. What an input does stands in
//! `sentinel_core`: each part of it is a call on the `State` with one clause, `state.new ≡ with_part state.old ..`.
//!
//! A rule that does something which somebody may want to hear of leaves a `Notice` where it acts. `Core` keeps the
//! notices until they are taken, outside what contracts see, so nothing is promised of them but that they are safe.
#![tactic(auto)]

mod cards;
mod cores;
mod endings;
mod failovers;
mod masters;
mod nodes;
mod noted;
mod notices;
mod noting;
mod pauses;
mod reports;
mod sending;
mod states;
mod switches;
mod votes;

pub use cores::Core;
pub use nodes::{
    FrameList, Node, Peer, Plan, Sending, greet_soon, move_all, ping_period, send_each_node,
    send_each_peer,
};
pub use notices::{MasterNotice, MasterThen, NOTICES_MAX, Notice, ReplicaNotice, Unfit};
pub use states::State;
