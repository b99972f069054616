//! What an input has a Sentinel put out, before it shows what is kept.

use ballot_law::{Addr, Heir, NodeName, OUTPUTS_MAX, RunId};

/// The greatest number of frames that one input puts out: each is one output.
pub const FRAMES_MAX: usize = OUTPUTS_MAX;

/// What an input has a Sentinel put out. The epochs and the configurations that it shows are those that are kept at the
/// end of the input, so they aren't written here. `master` is the number of a master in the roster.
#[derive(Clone, Copy, PartialEq, Eq)]
pub enum Frame {
    /// PING to a data node or a Sentinel.
    PingTo(NodeName),
    /// INFO to a data node.
    InfoTo(NodeName),
    /// A hello of a master, for the channel of a data node.
    HelloTo {
        target: NodeName,
        master: u16,
    },
    /// The question whether a master is down to the Sentinel at a place; with a candidate a request for its vote.
    AskTo {
        place: u16,
        master: u16,
        candidate: Option<RunId>,
    },
    /// REPLICAOF NO ONE to a data node.
    PromoteTo(NodeName),
    /// FAILOVER TO with the replica that is to take over, to a data node; without one FAILOVER ABORT.
    HandOverTo {
        target: NodeName,
        heir: Option<Heir>,
    },
    /// REPLICAOF with the address of a master's configuration, to a data node.
    FollowTo {
        target: NodeName,
        master: u16,
    },
    /// The note that a master's address is no longer the old one.
    NoteOf {
        master: u16,
        old: Addr,
    },
}
