//! Values of the Redis serialization protocol (RESP2) from bytes and to bytes, and the commands of a Sentinel's port.
//!
//! `Frames` and `LongFrames` read values, `write_value` and `push_words` write them. `command_of` tells what a value
//! asks of a Sentinel, and `next_command` reads what the next value of a stream asks. `words_of_items` gives the words
//! of any other command. The commands and their faults stand in docs/PROTOCOL.md.
#![tactic(auto)]

mod asked;
mod command;
mod command_stream;
mod framing;
mod laws;
mod long;
mod words;

pub use command::{CommandFault, command_of, redis_command_of};
pub use command_stream::{common_in, next_command, next_common};
pub use framing::{
    ByteSink, FrameFault, Frames, OutText, Unread, Value, law_fault_and_value_stay, law_faults,
    law_no_value_behind_a_fault, law_one_spelling, law_one_split, law_reading_is_spelling,
    law_waits_within_a_frame, push_bulk, push_int, push_kind, push_line, push_size,
    values_of_pieces, write_value,
};
pub use laws::law_ask_is_read_again;
pub use long::{BULK_MAX, HELD_MAX, LongFrames, TOLD_MAX, law_long_values};
pub use words::{are_bulk, push_words, word_of, words_of_items};
