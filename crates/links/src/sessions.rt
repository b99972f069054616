//! The conversation with one node on a connection that a Sentinel opened.
//!
//! A `LinkSession` has what lies between a Sentinel's messages and the bytes of one TCP connection: what was asked and
//! isn't answered yet, oldest first, the bytes that came and are no whole value yet, and the bytes that aren't sent
//! yet. RESP2 answers in the order of the questions, so the oldest question tells what a value that comes is about. It
//! knows no socket and no clock.
//!
//! ```text
//! let mut link = LinkSession::new(alloc, node);
//! link.ask(&message)?;                          // its spelling joins what is unsent
//! let count = connection.write(link.unsent())?;
//! link.sent(count);
//! link.received(piece, &mut heard)?;            // what the replies that are whole with it tell, in order
//! ```

mod conversation;
mod fault;
mod heard;
mod laws;
mod link_session;
mod questions;
mod replies;

pub use conversation::ASKED_MAX;
pub use fault::LinkFault;
pub use heard::{Heard, Refusal, Row};
pub use laws::law_pieces_join;
pub use link_session::LinkSession;
pub(crate) use questions::is_nobody;
pub use questions::{Question, question_of};
pub use replies::Vote;
