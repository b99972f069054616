//! What an answer says of one node.

use crate::known_rows::{ContactRow, FailoverStage, LinkRow, SaidRow};
use ballot_law::{Addr, Name, RunId};

/// A master, as the answers to MASTER and MASTERS show it.
#[derive(Clone, Copy, PartialEq, Eq)]
pub struct MasterRow {
    /// The name by which clients ask for the master.
    pub name: Name,
    /// Where the current configuration has the master.
    pub addr: Addr,
    /// Whether this Sentinel finds the master down by itself.
    pub down: bool,
    /// Whether enough Sentinels agree that the master is down.
    pub odown: bool,
    /// Whether this Sentinel has lost its connection to the master, and heard nothing of it since.
    pub disconnected: bool,
    /// Whether this Sentinel runs a failover of the master.
    pub failing_over: bool,
    /// How many replicas of the master are known.
    pub replicas: u64,
    /// How many other Sentinels watch the master.
    pub others: u64,
    /// How many Sentinels have to agree that the master is down.
    pub quorum: u32,
    /// After how many milliseconds without a valid reply a node is down.
    pub after_ms: u64,
    /// How many milliseconds a step of a failover may take.
    pub timeout: u64,
    /// To how many replicas at a time the new master is told.
    pub parallel_syncs: u64,
    /// The epoch of the configuration.
    pub epoch: u64,
    /// How long ago this Sentinel found that enough Sentinels agree, where they do, in milliseconds.
    pub odown_ms: u64,
    /// How far the failover is.
    pub stage: FailoverStage,
    /// When the master replied.
    pub contact: ContactRow,
    /// What the master's INFO said.
    pub said: SaidRow,
}

/// A replica of a master, as the answer to REPLICAS shows it.
#[derive(Clone, Copy, PartialEq, Eq)]
pub struct ReplicaRow {
    /// Where the replica can be reached.
    pub addr: Addr,
    /// Whether this Sentinel finds the replica down.
    pub down: bool,
    /// Whether this Sentinel has lost its connection to the replica, and heard nothing of it since.
    pub disconnected: bool,
    /// The priority that the replica gave for its own promotion; the smaller goes first, and 0 is never promoted.
    pub priority: u64,
    /// How many bytes of the replication stream the replica has processed.
    pub offset: u64,
    /// After how many milliseconds without a valid reply the replica is down.
    pub after_ms: u64,
    /// When the replica replied.
    pub contact: ContactRow,
    /// What the replica's INFO said.
    pub said: SaidRow,
    /// What it said of the replica's master.
    pub link: LinkRow,
}

/// Another Sentinel, as the answer to SENTINELS shows it.
#[derive(Clone, Copy, PartialEq, Eq)]
pub struct SentinelRow {
    /// The Sentinel's run id, which is also its name in the answer.
    pub id: RunId,
    /// Where the Sentinel can be reached.
    pub addr: Addr,
    /// Whether this Sentinel finds the other one down.
    pub down: bool,
    /// Whether this Sentinel has lost its connection to the other one, and heard nothing of it since.
    pub disconnected: bool,
    /// How many masters both watch.
    pub masters: u64,
    /// After how many milliseconds without a valid reply the other one is down.
    pub after_ms: u64,
    /// How many milliseconds ago its last hello came.
    pub hello_ms: u64,
    /// The candidate of the last vote of it that was heard, and the epoch of that vote; 0 where none was.
    pub leader: Option<RunId>,
    pub leader_epoch: u64,
    /// When the other Sentinel replied.
    pub contact: ContactRow,
}
