//! What a node said of its group, as plain data.

use ballot_law::{Addr, Name, NoMemory, RunId};
use std::alloc::{AllocError, AllocFailed};

/// Why a node has said nothing.
#[derive(Clone, Copy, PartialEq, Eq)]
pub(crate) enum Trouble {
    /// No connection stands: nothing listens there, or the network is down.
    Unreached,
    /// A connection stood, and the answers hadn't come after two seconds.
    Silent,
    /// The node ended the connection before its answers were whole.
    Closed,
    /// It wants a password, and none is known.
    WantsPassword,
    /// It refuses the user or the password.
    WrongPassword,
    /// It doesn't let the user ask this.
    NoRights,
    /// Its protected mode keeps other machines out.
    Protected,
    /// It has as many clients as it lets in.
    Full,
    /// It answers, but is no Sentinel.
    NoSentinel,
    /// What it answers can't be read.
    Garbage,
}

/// Why what a node answered isn't taken.
#[derive(Clone, Copy)]
pub(crate) enum Unsaid {
    Trouble(Trouble),
    NoMemory,
}

impl From<NoMemory> for Unsaid {
    fn from(_error: NoMemory) -> Unsaid {
        Unsaid::NoMemory
    }
}

impl From<AllocError> for Unsaid {
    fn from(_error: AllocError) -> Unsaid {
        Unsaid::NoMemory
    }
}

impl<T: Drop> From<AllocFailed<T>> for Unsaid {
    fn from(_error: AllocFailed<T>) -> Unsaid {
        Unsaid::NoMemory
    }
}

/// What a Sentinel says of the quorum for a master: `reached` where it can be had and a failover be authorized, and how
/// many Sentinels are usable, itself among them.
#[derive(Clone, Copy)]
pub(crate) struct Quorum {
    pub(crate) reached: bool,
    pub(crate) usable: u64,
}

/// What a Sentinel says of a replica: its address, and whether the Sentinel finds it down.
#[derive(Clone, Copy)]
pub(crate) struct ReplicaSaid {
    pub(crate) addr: Addr,
    pub(crate) down: bool,
}

/// What a Sentinel says of another one: whether it finds it down, and the last vote that it heard of it, with its
/// epoch; 0 where it heard none.
#[derive(Clone, Copy)]
pub(crate) struct PeerSaid {
    pub(crate) id: RunId,
    pub(crate) addr: Addr,
    pub(crate) down: bool,
    pub(crate) vote: Option<RunId>,
    pub(crate) vote_epoch: u64,
}

/// What a Sentinel says of a master: its address and the epoch of that configuration, whether the Sentinel finds it
/// down, alone or with enough others, and whether it runs a failover.
#[derive(Drop)]
pub(crate) struct MasterSaid {
    pub(crate) name: Name,
    pub(crate) addr: Addr,
    pub(crate) epoch: u64,
    pub(crate) down: bool,
    pub(crate) objectively: bool,
    pub(crate) fails_over: bool,
    pub(crate) quorum: Quorum,
    pub(crate) replicas: Vec<ReplicaSaid>,
    pub(crate) sentinels: Vec<PeerSaid>,
}

impl MasterSaid {
    /// What it says of the replica at this address.
    pub(crate) fn replica_at(&self, addr: Addr) -> Option<ReplicaSaid> {
        for replica in &self.replicas {
            if replica.addr == addr {
                return Some(*replica);
            }
        }
        None
    }

    /// What it says of the Sentinel with this run id.
    pub(crate) fn peer(&self, id: RunId) -> Option<PeerSaid> {
        for peer in &self.sentinels {
            if peer.id == id {
                return Some(*peer);
            }
        }
        None
    }
}

/// What a Sentinel said: its run id, whether it is in TILT (none where it doesn't tell), and of each master.
#[derive(Drop)]
pub(crate) struct SentinelSaid {
    pub(crate) id: RunId,
    pub(crate) tilt: Option<bool>,
    pub(crate) masters: Vec<MasterSaid>,
}

impl SentinelSaid {
    /// What it says of the master of this name.
    pub(crate) fn master(&self, name: &Name) -> Option<&MasterSaid> {
        for said in &self.masters {
            if said.name == *name {
                return Some(said);
            }
        }
        None
    }
}

/// What a data node said by INFO. `follows`, `link_up` and `priority` are a replica's; `follows` is none where it knows
/// its master by a name. `offset` counts bytes of the master's stream. `link_down_s` is for how many seconds the link
/// has been down; 0 where it isn't, or where the node doesn't tell.
#[derive(Clone, Copy)]
pub(crate) struct NodeSaid {
    pub(crate) is_master: bool,
    pub(crate) loads: bool,
    pub(crate) announced: bool,
    pub(crate) follows: Option<Addr>,
    pub(crate) link_up: bool,
    pub(crate) link_down_s: u64,
    pub(crate) priority: u64,
    pub(crate) offset: u64,
}
