//! What happens at a node.

use crate::addresses::{Addr, RunId};
use crate::commands::Command;
use crate::messages::{Message, NodeName};
use crate::replies::PingReply;
use crate::texts::Text;

/// What happens at a node. An event carries its content, so a node needs no list of messages to take it.
#[derive(Drop)]
pub enum Event {
    /// The timer of a master, with a random number.
    Tick {
        master: u16,
        random: u64,
    },
    /// A command, or a message that is one: an Ask, a client's question, a PING.
    Command {
        sender: NodeName,
        command: Command,
    },
    /// An answer to an Ask, from the voter.
    Answered {
        voter: NodeName,
        master: u16,
        addr: Addr,
        down: bool,
        leader: Option<RunId>,
        epoch: u64,
    },
    /// The answer of a node to a PING.
    Pinged {
        node: NodeName,
        reply: PingReply,
    },
    /// The answer of a node to an INFO, as its bytes.
    InfoRead {
        node: NodeName,
        text: Text,
    },
    /// A hello that a data node passed on, as its bytes.
    HelloRead {
        text: Text,
    },
    /// A connection to this node was refused, reset, or given up since nothing came on it. Strict Sentinels take no
    /// notice of it.
    Disconnected {
        node: NodeName,
    },
    /// A data node answered with an error that it was told to hand over.
    Refused {
        node: NodeName,
    },
    /// A data node gets this priority, this replication offset, and a link to its master that has been down for so many
    /// seconds, or is up at 0. None is above 2^63 - 1.
    Become {
        priority: u64,
        offset: u64,
        link_down: u64,
    },
    /// Any other message, for data nodes and clients.
    Handed(Message),
}

/// An event at a reading of the node's clock, in milliseconds. A reading above 2^62 counts as 2^62.
#[derive(Drop)]
pub struct Input {
    pub now: u64,
    pub event: Event,
}
