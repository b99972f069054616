//! One Sentinel: what it takes, what it stores, and what it then sends.
//!
//! `Sentinel` takes an input, stores what the input changed, and releases what it has to say, in three calls:
//!
//! ```text
//! outbox.reserve(&sentinel.room())?;
//! sentinel.take(&input, &mut outbox)?;
//! sentinel.store(&mut file)?;
//! sentinel.release(&mut outbox)?;
//! send(outbox.outputs());
//! outbox.clear();
//! ```
//!
//! `Outbox` holds the outputs of an input back until what they rest on is stored, in room that was made before, so that
//! an input takes no memory. `message_text` writes a message as the bytes that stand on the wire. `Sentinel::serve`
//! does all of this for each command of a stream.
#![tactic(auto)]

mod acting;
mod inputs;
mod sentinel;
mod sentinel_port;
mod serving;
mod undo;

pub use inputs::{
    answer_by_text, answer_plainly, hear_answer, hear_pong, take_hello, take_info, tick,
};
pub use node_texts::message_text;
pub use sentinel::Sentinel;
pub use sentinel_outbox::{OpenFault, Outbox, ReleaseFault, Room, StoreFault, TakeFault, Took};
pub use serving::{PortSentinel, READS_MAX, ServeFault, Served, law_reads, serve_stream};
