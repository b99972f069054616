//! What a Sentinel keeps of its connection to a node for those who ask.

/// What a Sentinel keeps of its connection to a node for those who ask; no rule goes by it. Moments are readings of the
/// Sentinel's clock in milliseconds, at most 2^62.
#[derive(Clone, Copy, PartialEq, Eq)]
pub struct Contact {
    /// When the first PING since the last valid reply was sent; before the first reply that of the start.
    pub waiting: Option<u64>,
    /// When the last reply to a PING came, valid or not; before the first one that of the start.
    pub replied: u64,
}
