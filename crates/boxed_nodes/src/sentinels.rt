//! A Sentinel with its file in memory, as a node of a group.
//!
//! `SentinelNode` has the room of its file made beforehand, so a store or a stop takes no memory, and the world can
//! have a store refused with the old text or with the new one. `Files` defines how its store ends, `Kinds` which
//! Sentinel of the model it stands for.

mod sentinel_node;

pub use sentinel_node::SentinelNode;
