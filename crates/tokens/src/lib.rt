//! The words that commands, hellos and files are made of: decimal numbers, IPv4 addresses, ports and run ids, read
//! from bytes and written as bytes; and the parts of a text around a byte.
//!
//! Reading takes no memory. An address and a run id are written to an array of the greatest size that their text has,
//! and a number to the end of a `Vec<u8>`. What a word means is defined once, in `ballot_law`, and the readers and
//! writers here are proved to follow those definitions exactly.
//!
//! The words of a line, as Redis reads them, with their quotes: of a configuration file, and of a command that a client
//! sends as a line.
//!
//! `redis_words` splits a line into its words, and `is_comment` tells whether a line of a file is a comment, which has
//! none. What they are stands in `specs/Quotes`.
#![tactic(auto)]

mod addresses;
mod cuts;
mod digits;
mod numbers;
mod quotes;
mod run_ids;

pub use addresses::{
    IP_TEXT_MAX, PORT_MAX, address_of, canonical_address_of, canonical_port_of, ip_of, ip_text,
    port_of,
};
pub use cuts::{split_at_byte, split_line};
pub use digits::{are_digits, is_decimal};
pub use numbers::{add_number, canonical_number_of, number_of};
pub use quotes::{Quote, is_comment, redis_words};
pub use run_ids::{RUN_ID_LENGTH, run_id_of, run_id_text};
