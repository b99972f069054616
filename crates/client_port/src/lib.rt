//! The ports of a group that runs: a Sentinel's clients, over TCP, by readiness.
//!
//! A port is served by one thread or several. Each has connections of its own, none of which makes another one of them
//! wait for bytes, or for more than one store. What a client's bytes mean is its session's to say.
#![tactic(auto)]

mod admission;
mod ages;
mod budget;
mod clients;
mod connection;
mod crowding;
mod crowds;
mod handoff;
mod incoming;
mod key_queue;
mod listener;
mod port;
mod port_room;
mod process_times;
mod read_buffer;
mod roll;
mod seating;
mod seats;
mod serving;
mod standing;
mod waiting;

pub use admission::Admission;
pub use budget::{connections_beside, connections_of_each, seats_beside};
pub use listener::{PortAddress, Sockets};
pub use port::Port;
pub use port_room::{CONNECTIONS_MAX, PortRoom, SEATS_MAX};
pub use process_times::{ProcessTimes, ReadsTimes};
