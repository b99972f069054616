//! Notes that no thread waits for: they go through a queue with a bound to a thread of their own, which writes them to
//! standard error.
//!
//! A standard error that takes nothing, as a full pipe, stops that thread and no other. A note that comes while
//! `WAITING_MAX` wait is lost, and so is one for which there is no memory. How many were lost is told in a line of its
//! own, before the next note that isn't lost, or at the end.

mod backlog;
mod note_forms;
mod queue;

pub use backlog::WAITING_MAX;
pub use note_forms::NoteForm;
pub use queue::{NoteQueue, NoteWriter};
