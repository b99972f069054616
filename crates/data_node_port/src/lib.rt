//! The data nodes of a group at ports of their own: what a client of one asks, what it is answered, and its connection.
//!
//! A `Session` has the bytes of one client: which command stands next in them (`next`), and the answer of a node that
//! shows this or that (`answer`), as Redis spells it. It knows no socket and no data node. `NodePorts` are the
//! listeners of all nodes with their connections, by readiness, in one thread, which asks `ShownNodes` what a node
//! shows.
#![tactic(auto)]

mod answers;
mod asks;
mod connection;
mod finding;
mod place;
mod ports;
mod readings;
mod session;

pub use asks::{Ask, Refusal, Sections};
pub use connection::ShownNodes;
pub use place::NODE_CONNECTIONS_MAX;
pub use ports::{NodePorts, descriptors_of};
pub use readings::COMMAND_MAX;
pub use session::Session;
