//! Values of the Redis serialization protocol, version 2 (RESP2), read from a stream that comes in any pieces and
//! written in their one spelling.
//!
//! `Frames` reads and `write_value` writes to an `OutText`. The parts of a value are written by `push_bulk` and its kin
//! to any `ByteSink`: what they add at its end is exactly the spelling. The grammar, its limits and its faults stand in
//! docs/PROTOCOL.md.

mod fault;
mod frames;
mod laws;
mod out_text;
mod pieces;
mod place;
mod reading;
mod sink;
mod value;
mod writing;

pub use fault::{FrameFault, Unread};
pub use frames::Frames;
pub use laws::{
    law_fault_and_value_stay, law_faults, law_no_value_behind_a_fault, law_one_spelling,
    law_one_split, law_reading_is_spelling, law_waits_within_a_frame,
};
pub use out_text::OutText;
pub use pieces::values_of_pieces;
pub(crate) use reading::line_length;
pub use sink::{ByteSink, push_bulk, push_int, push_kind, push_line, push_size};
pub use value::Value;
pub use writing::write_value;
