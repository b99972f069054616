//! What rows say of a node beside its name, its address and its state. Strict answers show none of it.

use ballot_law::{Addr, DataRole, RunId};

/// When a node replied. Each is how many milliseconds ago that was.
#[derive(Clone, Copy, PartialEq, Eq)]
pub struct ContactRow {
    /// The first PING since the last valid reply; 0 where none waits for one.
    pub ping_ms: u64,
    /// The last valid reply to a PING, or the start of this Sentinel.
    pub valid_ms: u64,
    /// The last reply to a PING, or the start of this Sentinel.
    pub reply_ms: u64,
    /// Since when the node is down, where it is.
    pub down_ms: u64,
}

/// What a data node's INFO said of the node.
#[derive(Clone, Copy, PartialEq, Eq)]
pub struct SaidRow {
    /// Its run id, where it told one.
    pub id: Option<RunId>,
    /// How many milliseconds ago the last INFO came; 0 where none did.
    pub info_ms: u64,
    /// The role that the node says it has; before its first INFO the one that it should have.
    pub role: DataRole,
    /// For how many milliseconds it has said so.
    pub role_ms: u64,
}

/// What a replica's INFO said of its master.
#[derive(Clone, Copy, PartialEq, Eq)]
pub struct LinkRow {
    /// For how many milliseconds its link to the master has been down.
    pub down_ms: u64,
    /// Whether that link is up.
    pub up: bool,
    /// The address of that master, where it told one.
    pub master: Option<Addr>,
    /// Whether the replica may be told to clients.
    pub announced: bool,
}

/// How far a failover is.
#[derive(Clone, Copy, PartialEq, Eq)]
pub enum FailoverStage {
    /// None runs.
    NoFailover,
    /// Votes are awaited.
    WaitStart,
    /// A replica is to be chosen.
    SelectReplica,
    /// The choice is to be told that it is a master.
    SendPromotion,
    /// It was told, and hasn't said yet that it is one.
    WaitPromotion,
    /// The other replicas are told to follow it.
    ReconfReplicas,
    /// All was done that could be.
    UpdateConfig,
}
