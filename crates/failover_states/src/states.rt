//! How far a failover has come, and the rows of its table.

use ballot_law::Addr;

/// The replica that is to be the new master: its place among the master's nodes, and its address.
#[derive(Clone, Copy, PartialEq, Eq)]
pub struct Choice {
    pub place: u16,
    pub addr: Addr,
}

/// How far a failover has come. `epoch` is that of its campaign, at most `MAX_EPOCH`; `former` is the place of the
/// master that is replaced.
#[derive(Clone, Copy, PartialEq, Eq)]
pub enum FailoverState {
    /// No failover runs.
    Idle,
    /// Votes are awaited.
    WaitStart {
        epoch: u64,
    },
    /// The Sentinel was elected, a replica is to be chosen.
    SelectReplica {
        epoch: u64,
    },
    /// A replica was chosen, and is to be told that it is a master.
    SendPromotion {
        epoch: u64,
        choice: Choice,
    },
    /// It was told, and has not yet said that it is one.
    WaitPromotion {
        epoch: u64,
        choice: Choice,
        former: u16,
    },
    /// It is the master, and the other replicas are to follow it.
    ReconfReplicas {
        epoch: u64,
        choice: Choice,
        former: u16,
    },
    /// All was done that could be.
    UpdateConfig {
        epoch: u64,
        choice: Choice,
    },
}

/// A row of the failover table that a turn can take, in the table's order. The other four are taken by news
/// ([`crate::Failover::promoted`], [`crate::Failover::reconf`], [`crate::Failover::end`]), or always and first
/// (replicas that were sent to long ago count as done).
#[derive(Clone, Copy, PartialEq, Eq)]
pub enum Row {
    /// The master is objectively down: a campaign is opened, in the epoch after the current one.
    StartFailover,
    /// Enough votes: a replica is to be chosen.
    Elected,
    /// Too few votes for too long: the failover ends.
    ElectionTimeout,
    /// Too few votes yet.
    AwaitVotes,
    /// A replica was chosen.
    ReplicaChosen,
    /// None can be chosen: the failover ends.
    NoReplica,
    /// The choice has been down for too long: the failover ends.
    ChoiceTimeout,
    /// The choice is down.
    AwaitChoice,
    /// REPLICAOF NO ONE is to be sent to the choice.
    Promote,
    /// The choice has not become a master for too long: the failover ends.
    PromotionTimeout,
    /// The choice has not become a master yet.
    AwaitPromotion,
    /// Replicas are left for too long: all are told to follow the new master, and the failover is about to end.
    ReconfTimeout,
    /// No replica is left: the failover is about to end.
    ReconfDone,
    /// As many replicas as may be are told to follow the new master.
    Reconfigure,
    /// The failover ends.
    ConfigUpdated,
}
