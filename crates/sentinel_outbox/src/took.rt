//! What a take tells of itself.

/// What an input did.
#[derive(Clone, Copy, PartialEq, Eq)]
pub struct Took {
    /// Whether what the file is to hold changed.
    pub changed: bool,
}
