//! What one line of a file says.

ghost use Rattle.std.specs.Prelude.{◌≡◌};
ghost use Rattle.conf_lines.specs.Lines.{same_key, state_name, setting_name, spoken_of};

use crate::faults::ConfKind;
use ballot_law::{Addr, Name, RunId, is_same_bytes};

/// A line that holds part of what a Sentinel keeps. A rewrite replaces these lines.
#[derive(Clone, Copy, PartialEq, Eq)]
pub enum StateLine {
    /// `sentinel myid <id>`: the own run id.
    MyId(RunId),
    /// `sentinel current-epoch <epoch>`.
    CurrentEpoch(u64),
    /// `sentinel monitor <name> <ip> <port> <quorum>`: a master and where it is.
    Monitor { name: Name, addr: Addr, quorum: u32 },
    /// `sentinel config-epoch <name> <epoch>`: the epoch of the master's configuration.
    ConfigEpoch { name: Name, epoch: u64 },
    /// `sentinel leader-epoch <name> <epoch>`: the epoch of the last vote for the master.
    LeaderEpoch { name: Name, epoch: u64 },
    /// `sentinel leader-id <name> <id>`: the candidate of that vote. This directive is this project's own.
    LeaderId { name: Name, id: RunId },
    /// `sentinel known-replica <name> <ip> <port>`, also with `known-slave`: a node of the master.
    KnownReplica { name: Name, addr: Addr },
    /// `sentinel known-sentinel <name> <ip> <port> <id>`: another Sentinel.
    KnownSentinel { name: Name, addr: Addr, id: RunId },
}

impl StateLine {
    /// Whether a file may hold only one of the two lines.
    pub fn has_key_of(&self, other: &StateLine) -> bool
        ensures { result ≡ same_key self.now other.now }
    {
        match (self, other) {
            (StateLine::MyId(_), StateLine::MyId(_)) => true,
            (StateLine::CurrentEpoch(_), StateLine::CurrentEpoch(_)) => true,
            (StateLine::Monitor { name, .. }, StateLine::Monitor { name: other, .. }) => {
                is_same_bytes(name.as_slice(), other.as_slice())
            }
            (StateLine::ConfigEpoch { name, .. }, StateLine::ConfigEpoch { name: other, .. }) => {
                is_same_bytes(name.as_slice(), other.as_slice())
            }
            (StateLine::LeaderEpoch { name, .. }, StateLine::LeaderEpoch { name: other, .. }) => {
                is_same_bytes(name.as_slice(), other.as_slice())
            }
            (StateLine::LeaderId { name, .. }, StateLine::LeaderId { name: other, .. }) => {
                is_same_bytes(name.as_slice(), other.as_slice())
            }
            (
                StateLine::KnownReplica { name, addr },
                StateLine::KnownReplica {
                    name: other,
                    addr: at,
                },
            ) => is_same_bytes(name.as_slice(), other.as_slice()) && addr.is_same(at),
            (
                StateLine::KnownSentinel { name, id, .. },
                StateLine::KnownSentinel {
                    name: other,
                    id: of,
                    ..
                },
            ) => is_same_bytes(name.as_slice(), other.as_slice()) && id.is_same(of),
            _ => false,
        }
    }

    /// The master of which the line speaks.
    pub fn master_name(&self) -> Option<Name>
        ensures { result ≡ state_name self.now }
    {
        match self {
            StateLine::MyId(_) | StateLine::CurrentEpoch(_) => None,
            StateLine::Monitor { name, .. }
            | StateLine::ConfigEpoch { name, .. }
            | StateLine::LeaderEpoch { name, .. }
            | StateLine::LeaderId { name, .. }
            | StateLine::KnownReplica { name, .. }
            | StateLine::KnownSentinel { name, .. } => Some(*name),
        }
    }
}

/// A line that sets something. The last one of its kind counts.
#[derive(Clone, Copy, PartialEq, Eq)]
pub enum Setting {
    /// `port <port>`.
    Port(u16),
    /// `sentinel announce-ip <ip>`.
    AnnounceIp(u32),
    /// `sentinel announce-port <port>`.
    AnnouncePort(u16),
    /// `sentinel down-after-milliseconds <name> <milliseconds>`.
    DownAfter { name: Name, ms: u64 },
    /// `sentinel parallel-syncs <name> <count>`.
    ParallelSyncs { name: Name, count: u64 },
    /// `sentinel failover-timeout <name> <milliseconds>`.
    FailoverTimeout { name: Name, ms: u64 },
}

impl Setting {
    /// The master of which the line speaks.
    fn master_name(&self) -> Option<Name>
        ensures { result ≡ setting_name self.now }
    {
        match self {
            Setting::Port(_) | Setting::AnnounceIp(_) | Setting::AnnouncePort(_) => None,
            Setting::DownAfter { name, .. }
            | Setting::ParallelSyncs { name, .. }
            | Setting::FailoverTimeout { name, .. } => Some(*name),
        }
    }
}

/// What a line is.
#[derive(Clone, Copy, PartialEq, Eq)]
pub enum Line {
    /// No directive of this project, or none at all: it stays as it is and has no effect.
    Kept,
    Setting(Setting),
    State(StateLine),
    Faulty(ConfKind),
}

impl Line {
    /// The master of which the line speaks.
    pub fn master_name(&self) -> Option<Name>
        ensures { result ≡ spoken_of self.now }
    {
        match self {
            Line::State(state) => state.master_name(),
            Line::Setting(setting) => setting.master_name(),
            Line::Kept | Line::Faulty(_) => None,
        }
    }
}
