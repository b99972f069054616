//! Nodes of a group behind one interface, so that Sentinels, data nodes and clients stand in boxes side by side.
//!
//! `Node` is what a world asks of a node: it takes an input, stores, releases, stops and starts, and tells what it is.
//! In the model of the whole group a node stands for images of one Sentinel or of another node, and each call moves
//! each of these as the model moves a node. The definitions read from below: `Images` (what a node is to the model, and
//! what each call makes of it), `Sendable` (what may be sent and taken), `Moves` (what each call ensures).
//!
//! A node that isn't a Sentinel has nothing to store, so its turns are the same whatever it says: `Turn` answers the
//! calls of `Node` by how far the node has come with its last input alone (`Turns`: the images for which such a node
//! stands).
#![tactic(auto)]

mod calls;
mod clients;
mod data;
mod node;
mod sentinels;
mod turn;

pub use calls::HowStored;
pub use clients::ClientNode;
pub use data::DataNode;
pub use node::Node;
pub use sentinels::SentinelNode;
pub use turn::Turn;
