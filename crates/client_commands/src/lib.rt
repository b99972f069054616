//! What a port answers to clients beside a Sentinel's own commands: HELLO, AUTH, CLIENT, COMMAND, ROLE, PUBLISH, INFO,
//! PING with a text, the subcommands of SENTINEL that its rules don't know, and redis-sentinel's words for commands
//! that are unknown or have another number of words.
//!
//! `courtesy_of` says what becomes of a value. One that the Sentinel's rules answer is left to them; each that they
//! call unknown, or refuse for its number of words, has exactly one answer, by the table in docs/CLIENTS.md. Of the
//! Sentinel its roster alone is known here, so nothing of one is changed; what INFO says comes from the figures of the
//! port, and its last section from the Sentinel. The figures are handed over as `PortFacts` with the port's clients, of
//! which CLIENT LIST tells, and some of which CLIENT KILL names to be closed. A `CommandReader` reads the values of a
//! client, in whose stream a command may come as a line in place of an array.
#![tactic(auto)]

mod choosing;
mod classes;
mod client_info;
mod clients;
mod command_reader;
mod courtesies;
mod descriptions;
mod hellos;
mod helps;
mod infos;
mod kills;
mod laws;
mod lines;
mod listing;
mod lookup;
mod passwords;
mod pieces;
mod port_facts;
mod protocols;
mod refusals;
mod rows;
mod subcommands;
mod tables;
mod told_subcommands;
mod verbs;

pub use client_info::ClientInfo;
pub use command_reader::CommandReader;
pub use courtesies::{Courtesy, courtesy_of};
pub use infos::info;
pub use laws::{
    law_answers_are_values, law_lines_stay, law_nothing_is_answered_to_nothing,
    law_own_values_are_left, law_strangers_reach_nothing, law_values_are_spelled_or_lines,
};
pub use port_facts::{ClientEntry, Figures, PortFacts};
pub use protocols::Protocol;
