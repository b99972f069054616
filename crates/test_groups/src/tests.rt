//! The tests, one file for each part.

mod clients;
mod confs;
mod groups;
mod node_ports;
mod note_queues;
mod orders;
mod outlets;
mod played_nodes;
mod ports;
mod stores_held;
mod talks;
mod told_files;
mod watches;
