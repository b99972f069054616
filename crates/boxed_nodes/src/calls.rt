//! How a step names a store.

/// How the store of a node ends. Where a node has nothing to store, no store of it is refused.
#[derive(Clone, Copy, PartialEq, Eq)]
pub enum HowStored {
    /// The new text is stored.
    Done,
    /// It is refused, and the old text stands.
    RefusedOld,
    /// It is refused, and the new text stands.
    RefusedNew,
}
