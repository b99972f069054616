//! What nodes send each other.

use crate::addresses::{Addr, RunId};
use crate::cards::{Card, Shown, ShownList};
use crate::names::Name;
use crate::replies::{Hello, Info, Role};
use crate::rosters::MASTERS_MAX;
use crate::texts::{ShortText, Text};

/// A node, by its place among those of its kind: Sentinels by run id; data nodes master by master in the roster's
/// order, each master's by address; clients and ports by their numbers.
#[derive(Clone, Copy, PartialEq, Eq)]
pub enum NodeName {
    SentinelAt(u16),
    StoreAt(u16),
    ClientAt(u16),
    PortAt(u32),
}

/// The replica that takes over from a master: its name, which isn't on the wire, and its address.
#[derive(Clone, Copy, PartialEq, Eq)]
pub struct Heir {
    pub node: NodeName,
    pub addr: Addr,
}

/// What a message says.
#[derive(Drop)]
pub enum Body {
    /// Whether the master is down, which isn't named on the wire but by its address, and with a candidate a request for
    /// a vote.
    Ask {
        master: u16,
        addr: Addr,
        epoch: u64,
        candidate: Option<RunId>,
    },
    /// The answer to an Ask: the master and the address that it is about, which aren't on the wire, whether the sender
    /// finds that master down, and the vote that it keeps.
    Answer {
        master: u16,
        addr: Addr,
        down: bool,
        leader: Option<RunId>,
        epoch: u64,
    },
    Ping,
    /// The answer to a PING: a simple string, or an error.
    PingText {
        is_error: bool,
        text: ShortText,
    },
    InfoAsk,
    InfoText(Info),
    /// A hello for the channel of a data node.
    Publish(Hello),
    /// A hello as the data node passes it on.
    HelloText(Hello),
    /// REPLICAOF with the address, or REPLICAOF NO ONE.
    ReplicaOf(Option<Addr>),
    /// FAILOVER TO with the address of a replica and `HAND_OVER_MS`: a master is to hand over to it. Without one
    /// FAILOVER ABORT: it is to stay the master.
    HandOver(Option<Heir>),
    /// A client's question for the address of the master with this name.
    AddressAsk(Name),
    /// The answer to it: none for a name that no master has.
    AddressAnswer(Option<Shown>),
    /// Any other answer to a command: the configurations that it shows, and its bytes on the wire.
    PortReply {
        shown: ShownList,
        text: Text,
    },
    RoleAsk,
    RoleText(Role),
    /// `+OK` of a data node.
    Done,
}

/// A message with its sender and its target.
#[derive(Drop)]
pub struct Message {
    pub sender: NodeName,
    pub target: NodeName,
    pub body: Body,
}

/// The address of a master changed, as `+switch-master` tells: from the old one to that of the configuration.
#[derive(Clone, Copy, PartialEq, Eq)]
pub struct Note {
    pub master: u16,
    pub old: Addr,
    pub card: Card,
}

/// The greatest number of outputs that one input of a Sentinel gives: a tick sends at most 63 PINGs and 63 questions to
/// Sentinels, three messages and one order to each of 256 nodes, and one promotion.
pub const OUTPUTS_MAX: usize = 1_536;

/// The greatest number of bytes of an answer of a Sentinel's port: in redis-sentinel's words 256 replicas have room.
pub const ANSWER_MAX: usize = 262_144;

/// The greatest number of configurations that one output shows: one of each master.
pub const SHOWN_MAX: usize = MASTERS_MAX;

/// What one input of a node gives: messages, and notes, which are sent to no node.
#[derive(Drop)]
pub enum Output {
    Send(Message),
    Tell(Note),
}
