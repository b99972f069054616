//! The clients of a group: each searches for one master, as Redis's guidelines for clients with support for Sentinel
//! say.
//!
//! A client keeps a search (`client_queries`), and does what the search says: it asks a Sentinel for the address of the
//! master, connects to it, and asks the data node there for its role. Its timer is the tick. `specs/Searches` says what
//! comes of each input, and what a client says; `ClientNode` is such a client in a box.

mod client_node;
mod group;
mod search;

pub use client_node::ClientNode;
