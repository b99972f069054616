//! What one input does to a Sentinel at work: a tick of a master, what other nodes say, a command of its port.
//!
//! At a tick what is due is sent, and unless the clock is in TILT the master is judged, and its failover goes on. The
//! news of other nodes are hellos, answers of other Sentinels, replies to PING, INFO of data nodes. Each command of the
//! port has its answer, of what is kept. Each call's contract is an equation with the definition of that part of the
//! rules: what is kept after it, and what it puts out.

mod asking;
mod cards;
mod commands;
mod facts;
mod failing_over;
mod hellos;
mod infos;
mod known;
mod replies;
mod rows;
mod ticks;
mod unfit;

pub use commands::{answer_by_text, answer_plainly, answer_switch};
pub use hellos::take_hello;
pub use infos::take_info;
pub use replies::{hear_answer, hear_loss, hear_pong, hear_refusal};
pub use ticks::tick;
