//! The commands of a Sentinel's port.

use crate::addresses::{Addr, RunId};
use crate::names::Name;

/// A command that a Sentinel answers. Where a master is named, None stands for a word that can't be a name, and so
/// names no master.
#[derive(Clone, Copy, PartialEq, Eq)]
pub enum Command {
    /// `PING`.
    Ping,
    /// `SENTINEL IS-MASTER-DOWN-BY-ADDR ip port epoch runid`; the candidate is None for `*`, which asks for no vote.
    IsMasterDownByAddr {
        addr: Addr,
        epoch: u64,
        candidate: Option<RunId>,
    },
    /// `SENTINEL GET-MASTER-ADDR-BY-NAME name`.
    GetMasterAddrByName(Option<Name>),
    /// `SENTINEL MASTERS`.
    Masters,
    /// `SENTINEL MASTER name`.
    Master(Option<Name>),
    /// `SENTINEL REPLICAS name`, also `SENTINEL SLAVES name`.
    Replicas(Option<Name>),
    /// `SENTINEL SENTINELS name`.
    Sentinels(Option<Name>),
    /// `SENTINEL MYID`.
    MyId,
    /// `SENTINEL CKQUORUM name`.
    CkQuorum(Option<Name>),
    /// `SENTINEL FAILOVER name`: the master is to hand over to a replica. Strict ports don't know it.
    Failover(Option<Name>),
    /// `SENTINEL FLUSHCONFIG`.
    FlushConfig,
    /// `SUBSCRIBE +switch-master`: the connection asks to be told of each new address of a master.
    Subscribe,
    /// The section of INFO that tells of the Sentinel. No words of a port become it: a session asks it by itself.
    Info,
}
