//! The messages that nodes send each other: the bytes that stand on the wire, and what each becomes at its target.
//!
//! A command is a RESP2 array of bulk strings, a reply is a RESP2 value. Which bytes a message has stands in
//! `MessageTexts`.
//!
//! At a Sentinel a question is a command, an answer is heard, and hellos and INFO come as bytes; data nodes and clients
//! are handed the message itself. The rule stands in `Deliveries`, and it is one that the model of the whole group
//! allows.

mod bodies;
mod commands;
mod copies;
mod events;
mod replies;
mod short_answer;
mod texts;

pub use copies::copy_of;
pub use events::event_of;
pub use short_answer::ShortAnswer;
pub use texts::{message_text, short_text};
