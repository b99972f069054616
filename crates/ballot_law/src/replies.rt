//! What nodes say of themselves: hellos, and the answers to PING, INFO and ROLE.

ghost use Rattle.std.specs.Prelude.{◌≡◌};

use crate::addresses::{Addr, RunId};
use crate::cards::Card;
use crate::names::Name;

/// What a Sentinel publishes of itself and of one master, on the channel `__sentinel__:hello`.
#[derive(Clone, Copy, PartialEq, Eq)]
pub struct Hello {
    /// The address at which the sender is reached.
    pub addr: Addr,
    /// The sender's run id.
    pub id: RunId,
    /// The sender's current epoch, at most `MAX_EPOCH`.
    pub current: u64,
    /// The name of the master.
    pub master: Name,
    /// The sender's configuration of the master.
    pub card: Card,
}

/// The role that a data node has.
#[derive(Clone, Copy, PartialEq, Eq)]
pub enum DataRole {
    Master,
    Replica,
}

/// What a data node's INFO says.
#[derive(Clone, Copy, PartialEq, Eq)]
pub struct Info {
    /// The field `run_id`; none where it is missing.
    pub id: Option<RunId>,
    /// The field `role`.
    pub role: DataRole,
    /// The fields `master_host` and `master_port`; none where one of the two is missing.
    pub master: Option<Addr>,
    /// The field `master_link_status`: whether it is `up`. A missing one counts as down.
    pub link_up: bool,
    /// The field `master_link_down_since_seconds`, at most 2^63 - 1; 0 where it is missing or negative.
    pub link_down_s: u64,
    /// The field `slave_priority`, at most 2^63 - 1; 100 where it is missing.
    pub priority: u64,
    /// The field `slave_repl_offset`, at most 2^63 - 1; 0 where it is missing or negative.
    pub offset: u64,
}

/// What a data node's answer to ROLE says.
#[derive(Clone, Copy, PartialEq, Eq)]
pub enum Role {
    /// A master with its replication offset, at most 2^63 - 1.
    Master { offset: u64 },
    /// A replica of the master at the address, with its replication offset, at most 2^63 - 1.
    Replica { addr: Addr, offset: u64 },
}

/// What a node's answer to PING counts as. The first three are the valid answers of the Redis Sentinel documentation:
/// `+PONG`, an error `-LOADING ..`, an error `-MASTERDOWN ..`.
#[derive(Clone, Copy, PartialEq, Eq)]
pub enum PingReply {
    Pong,
    Loading,
    MasterDown,
    Other,
}

impl PingReply {
    ghost use Rattle.ballot_law.specs.PingReplies.{reply_of};

    /// What a simple string or an error counts as: the string `PONG` exactly, an error by how it begins. No memory.
    pub fn of(is_error: bool, text: &[u8]) -> PingReply
        ensures { result ≡ reply_of is_error text.now }
    {
        if is_error {
            if text.starts_with(b"LOADING") {
                PingReply::Loading
            } else if text.starts_with(b"MASTERDOWN") {
                PingReply::MasterDown
            } else {
                PingReply::Other
            }
        } else if text == b"PONG".as_slice() {
            PingReply::Pong
        } else {
            PingReply::Other
        }
    }
}
