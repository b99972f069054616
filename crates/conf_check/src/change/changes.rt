//! What is changed of a group, and why it isn't.

use crate::creation::NewMaster;
use ballot_law::{Addr, Member, Name, RunId};
use std::alloc::AllocError;
use thiserror::Error;

/// A replica of a master.
#[derive(Clone, Copy, PartialEq, Eq)]
pub struct ReplicaOf {
    /// The master's name.
    pub master: Name,
    pub addr: Addr,
}

/// A host that takes the place of another one, with all that ran there, at the same ports.
#[derive(Clone, Copy, PartialEq, Eq)]
pub struct Replacement {
    /// The ip of the host that goes.
    pub old: u32,
    /// The ip of the host that comes.
    pub new: u32,
    /// The run id of the Sentinel of the new host, where one ran on the old one.
    pub id: RunId,
}

/// Which setting of a master is set.
#[derive(Clone, Copy, PartialEq, Eq)]
pub enum MasterSetting {
    /// The quorum of the line `sentinel monitor`.
    Quorum,
    /// `sentinel down-after-milliseconds`.
    DownAfter,
    /// `sentinel failover-timeout`, in milliseconds.
    FailoverTimeout,
    /// `sentinel parallel-syncs`.
    ParallelSyncs,
}

/// A setting of a master with its new value.
#[derive(Clone, Copy, PartialEq, Eq)]
pub struct NewSetting {
    /// The master's name.
    pub master: Name,
    pub setting: MasterSetting,
    pub value: u32,
}

/// A change of a group.
#[derive(Drop)]
pub enum Change {
    AddMaster(NewMaster),
    RemoveMaster(Name),
    AddReplica(ReplicaOf),
    RemoveReplica(ReplicaOf),
    /// A Sentinel with a new run id.
    AddSentinel(Member),
    RemoveSentinel(RunId),
    ReplaceHost(Replacement),
    Set(NewSetting),
}

/// Why no files of a changed group are made.
#[derive(Clone, Copy, Debug, PartialEq, Eq, Error)]
pub enum ChangeFault {
    /// The files name different rosters, or a Sentinel that stays has no file or two.
    #[error("NotOneRoster")]
    NotOneRoster,
    /// Two of them hold configurations of a master that have one epoch, the greatest, and two addresses.
    #[error("TwoAddresses")]
    TwoAddresses,
    /// A master has this name already.
    #[error("SameName")]
    SameName,
    /// The group would be left without a master.
    #[error("LastMaster")]
    LastMaster,
    /// No master has this name.
    #[error("NoSuchMaster")]
    NoSuchMaster,
    /// The master has no replica at this address.
    #[error("NoSuchReplica")]
    NoSuchReplica,
    /// No Sentinel is the one that is to go.
    #[error("NoSuchSentinel")]
    NoSuchSentinel,
    /// No Sentinel and no data node is at this ip.
    #[error("NoSuchHost")]
    NoSuchHost,
    /// A Sentinel or a data node is there already.
    #[error("AddressTaken")]
    AddressTaken,
    /// By the newest configuration of these files a master is there.
    #[error("IsMaster")]
    IsMaster,
    /// The master would be left without a replica.
    #[error("LastReplica")]
    LastReplica,
    /// The group would be left without a Sentinel.
    #[error("LastSentinel")]
    LastSentinel,
    /// More than one Sentinel runs on the host.
    #[error("ManySentinels")]
    ManySentinels,
    /// The quorum of a master would be 0, or more than there are Sentinels.
    #[error("BadQuorum")]
    BadQuorum,
    /// The value of the setting is 0, and counts from 1.
    #[error("BadValue")]
    BadValue,
    /// The new files would hold more nodes, Sentinels or bytes than a file takes.
    #[error("TooMany")]
    TooMany,
    /// The new files, once they were made, didn't hold what they have to keep.
    #[error("Unkept")]
    Unkept,
    /// Memory was refused.
    #[error("NoMemory")]
    NoMemory,
}

impl From<AllocError> for ChangeFault {
    ghost use Rattle.std.specs.Prelude.{◌≡◌};
    ghost use Rattle.conf_check.specs.declared.change.changes.ChangeFault.TheVariants.{NoMemory};

    ghost from_gives = { λ _ fault. fault ≡ NoMemory };

    fn from(_error: AllocError) -> ChangeFault {
        ChangeFault::NoMemory
    }
}
