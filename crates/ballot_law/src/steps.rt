//! What happens in a group, one step after another.

use crate::events::Input;
use crate::messages::NodeName;

/// Which text a refused store leaves in the file, or a stop within a take: the old one, or the one that was to be
/// stored.
#[derive(Clone, Copy, PartialEq, Eq)]
pub enum KeptText {
    Old,
    New,
}

/// A step of the whole group. One that doesn't apply, as the release of a node that has stored nothing, changes
/// nothing.
#[derive(Drop)]
pub enum Step {
    /// The node takes an input that no message brings.
    Take { node: NodeName, input: Input },
    /// The message with this number, counted from 0 in the order of release, reaches its target.
    Deliver { message: u64, now: u64 },
    /// The node stores what its last input changed.
    Store { node: NodeName },
    /// The store of the node is refused, which halts it.
    StoreRefused { node: NodeName, left: KeptText },
    /// The node sends what its last input gave.
    Release { node: NodeName },
    Stop { node: NodeName, left: KeptText },
    /// A stopped node begins anew from its file.
    Start { node: NodeName, now: u64 },
    /// A client asks a Sentinel for the address of a master, which it shows as last stored.
    Answer { node: NodeName, master: u16 },
}
