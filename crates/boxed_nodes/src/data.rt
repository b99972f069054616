//! The data nodes of a group: masters and replicas that answer as Redis servers do, as far as Sentinels and clients ask
//! them.
//!
//! A data node answers PING, INFO and ROLE, follows REPLICAOF, and passes each hello that is published on its channel
//! to every Sentinel. It keeps no keys. `specs/Servers` says what it keeps and what it answers; `DataNode` is such a
//! node in a box.

mod data_node;
mod saying;
mod server;

pub use data_node::DataNode;
