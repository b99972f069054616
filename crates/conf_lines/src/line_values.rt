//! What a line gives, where it gives anything of the kind.

ghost use Rattle.std.specs.Prelude.{◌≡◌};
ghost use Rattle.conf_lines.specs.Values.{my_id_of, name_of, quorum_of, monitored_at, node_of, config_of, voted_of, candidate_of, epoch_of, known_of, port_of, announce_ip_of, announce_port_of, after_of, syncs_of, timeout_of};

use crate::lines::{Setting, StateLine};
use ballot_law::{Addr, Member, Name, RunId, is_same_bytes};

impl StateLine {
    /// The own run id.
    pub fn my_id(&self) -> Option<RunId>
        ensures { result ≡ my_id_of self.now }
    {
        match self {
            StateLine::MyId(id) => Some(*id),
            _ => None,
        }
    }

    /// The name of a master that is monitored.
    pub fn monitored_name(&self) -> Option<Name>
        ensures { result ≡ name_of self.now }
    {
        match self {
            StateLine::Monitor { name, .. } => Some(*name),
            _ => None,
        }
    }

    /// The quorum of the master of this name.
    pub fn quorum_of(&self, name: &Name) -> Option<u32>
        ensures { result ≡ quorum_of name.now self.now }
    {
        match self {
            StateLine::Monitor {
                name: other,
                quorum,
                ..
            } => {
                if is_same_bytes(name.as_slice(), other.as_slice()) {
                    return Some(*quorum);
                }
                None
            }
            _ => None,
        }
    }

    /// The address at which the master of this name is monitored.
    pub fn address_of(&self, name: &Name) -> Option<Addr>
        ensures { result ≡ monitored_at name.now self.now }
    {
        match self {
            StateLine::Monitor {
                name: other,
                addr,
                ..
            } => {
                if is_same_bytes(name.as_slice(), other.as_slice()) {
                    return Some(*addr);
                }
                None
            }
            _ => None,
        }
    }

    /// A node of the master of this name.
    pub fn node_of(&self, name: &Name) -> Option<Addr>
        ensures { result ≡ node_of name.now self.now }
    {
        match self {
            StateLine::KnownReplica { name: other, addr } => {
                if is_same_bytes(name.as_slice(), other.as_slice()) {
                    return Some(*addr);
                }
                None
            }
            _ => self.address_of(name),
        }
    }

    /// The epoch of the configuration of the master of this name.
    pub fn config_epoch_of(&self, name: &Name) -> Option<u64>
        ensures { result ≡ config_of name.now self.now }
    {
        match self {
            StateLine::ConfigEpoch { name: other, epoch } => {
                if is_same_bytes(name.as_slice(), other.as_slice()) {
                    return Some(*epoch);
                }
                None
            }
            _ => None,
        }
    }

    /// The epoch of the last vote for the master of this name.
    pub fn voted_of(&self, name: &Name) -> Option<u64>
        ensures { result ≡ voted_of name.now self.now }
    {
        match self {
            StateLine::LeaderEpoch { name: other, epoch } => {
                if is_same_bytes(name.as_slice(), other.as_slice()) {
                    return Some(*epoch);
                }
                None
            }
            _ => None,
        }
    }

    /// The candidate of the last vote for the master of this name.
    pub fn candidate_of(&self, name: &Name) -> Option<RunId>
        ensures { result ≡ candidate_of name.now self.now }
    {
        match self {
            StateLine::LeaderId { name: other, id } => {
                if is_same_bytes(name.as_slice(), other.as_slice()) {
                    return Some(*id);
                }
                None
            }
            _ => None,
        }
    }

    /// An epoch, whatever it is the epoch of.
    pub fn epoch(&self) -> Option<u64>
        ensures { result ≡ epoch_of self.now }
    {
        match self {
            StateLine::CurrentEpoch(epoch) => Some(*epoch),
            StateLine::ConfigEpoch { epoch, .. } => Some(*epoch),
            StateLine::LeaderEpoch { epoch, .. } => Some(*epoch),
            _ => None,
        }
    }

    /// Another Sentinel.
    pub fn sentinel(&self) -> Option<Member>
        ensures { result ≡ known_of self.now }
    {
        match self {
            StateLine::KnownSentinel { addr, id, .. } => Some(Member {
                id: *id,
                addr: *addr,
            }),
            _ => None,
        }
    }
}

impl Setting {
    /// The own port.
    pub fn port(&self) -> Option<u16>
        ensures { result ≡ port_of self.now }
    {
        match self {
            Setting::Port(port) => Some(*port),
            _ => None,
        }
    }

    /// The ip that is announced.
    pub fn announce_ip(&self) -> Option<u32>
        ensures { result ≡ announce_ip_of self.now }
    {
        match self {
            Setting::AnnounceIp(ip) => Some(*ip),
            _ => None,
        }
    }

    /// The port that is announced.
    pub fn announce_port(&self) -> Option<u16>
        ensures { result ≡ announce_port_of self.now }
    {
        match self {
            Setting::AnnouncePort(port) => Some(*port),
            _ => None,
        }
    }

    /// `down-after-milliseconds` of the master of this name.
    pub fn after_of(&self, name: &Name) -> Option<u64>
        ensures { result ≡ after_of name.now self.now }
    {
        match self {
            Setting::DownAfter { name: other, ms } => {
                if is_same_bytes(name.as_slice(), other.as_slice()) {
                    return Some(*ms);
                }
                None
            }
            _ => None,
        }
    }

    /// `parallel-syncs` of the master of this name.
    pub fn syncs_of(&self, name: &Name) -> Option<u64>
        ensures { result ≡ syncs_of name.now self.now }
    {
        match self {
            Setting::ParallelSyncs { name: other, count } => {
                if is_same_bytes(name.as_slice(), other.as_slice()) {
                    return Some(*count);
                }
                None
            }
            _ => None,
        }
    }

    /// `failover-timeout` of the master of this name.
    pub fn timeout_of(&self, name: &Name) -> Option<u64>
        ensures { result ≡ timeout_of name.now self.now }
    {
        match self {
            Setting::FailoverTimeout { name: other, ms } => {
                if is_same_bytes(name.as_slice(), other.as_slice()) {
                    return Some(*ms);
                }
                None
            }
            _ => None,
        }
    }
}
