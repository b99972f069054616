//! How far a node has come with its last input.

/// How far a node has come with its last input.
#[derive(Clone, Copy, PartialEq, Eq)]
pub enum Phase {
    /// The input before was released; the next one can be taken.
    Ready,
    /// An input was taken and waits to be stored; whether the file has to be written for it.
    Pending { must_store: bool },
    /// What the input changed is stored; its outputs wait to be released.
    Stored,
    /// A store was refused.
    Halted,
    /// It was stopped, and takes nothing more.
    Stopped,
}
