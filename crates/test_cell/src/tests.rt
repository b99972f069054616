//! The tests, one file for each part.

mod calls;
mod files;
mod four_threads;
mod held_stores;
mod known_cell;
mod newer_addresses;
mod refused_memory;
mod two_seats;
