//! The conversation with one client of a port of a Sentinel that threads share.
//!
//! A client's bytes come in pieces of any length, and its answers are taken away as the connection takes them. A
//! `Session` has what lies between: the bytes that are no whole value yet, and the answers that aren't sent yet. It
//! knows no socket and no clock; who has the connection hands it what came.
//!
//! ```text
//! let mut session = Session::new(alloc);
//! // its answers stand behind those that aren't sent yet
//! let heard = session.received(rt, &cell, &mut seat, now, piece);
//! let count = connection.write(session.unsent())?;
//! session.sent(count);
//! if heard.is_err() && session.unsent().is_empty() { close(connection) }
//!
//! // a call of some thread's `act` answered this reply and showed this note
//! // where its client has subscribed and doesn't know of it yet
//! let told = session.notify(cell.roster(), &note, reply.entry);
//! ```
//!
//! What a stream of commands is answered stands in `Talks`, what a client that has subscribed is answered and told in
//! `Listening`, and which notes it is told in `Notes`.
#![tactic(auto)]

mod ahead;
mod exchange;
mod going_on;
mod hearing;
mod laws;
mod limit;
mod notes;
mod responder;
mod session;

pub use hearing::NotesHeard;
pub use laws::{law_answers_are_served, law_notes_rise, law_others_store_nothing, law_pieces_join};
pub use limit::{Limit, Reach, may_store};
pub use notes::add_note;
pub use responder::Responder;
pub use session::Session;
