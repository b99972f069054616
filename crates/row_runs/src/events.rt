//! What happens at a Sentinel, and the names of nodes, in words.

ghost use Rattle.std.specs.Prelude.{IfOk};
ghost use Rattle.ballot_law.specs.Limits.{IsWithin};
ghost use Rattle.ballot_law.specs.Limits.{IsWithinEvent};

use crate::commands::array;
use crate::given::{addr, maybe_id, number, number_16, number_32, says, text};
use crate::told::{Told, Unplayed};
use ballot_law::{Command, Event, NodeName, PingReply, Text};
use resp2::command_of;
use std::alloc::Global;

/// The node that a word names by a letter and a number, as scenarios do; a client of a port, which they don't name, has
/// `p`.
pub(crate) fn node(word: &[u8]) -> Result<NodeName, Unplayed> {
    match word {
        [b's', place @ ..] => Ok(NodeName::SentinelAt(number_16(place)?)),
        [b'd', number @ ..] => Ok(NodeName::StoreAt(number_16(number)?)),
        [b'c', number @ ..] => Ok(NodeName::ClientAt(number_16(number)?)),
        [b'p', number @ ..] => Ok(NodeName::PortAt(number_32(number)?)),
        _ => Err(Unplayed::WrongWords),
    }
}

/// Tells the name of a node.
pub(crate) fn tell_node(node: NodeName, told: &mut Told) -> Result<(), Unplayed> {
    match node {
        NodeName::SentinelAt(place) => told.signed('s', i64::from(place)),
        NodeName::StoreAt(number) => told.signed('d', i64::from(number)),
        NodeName::ClientAt(number) => told.signed('c', i64::from(number)),
        NodeName::PortAt(number) => told.signed('p', i64::from(number)),
    }
}

/// The command of a port that these words are.
fn command(alloc: Global, words: &[Vec<u8>]) -> Result<Command, Unplayed>
    ensures { IfOk result IsWithin }
{
    match command_of(&array(alloc, words)?) {
        Ok(command) => Ok(command),
        Err(_) => Err(Unplayed::WrongWords),
    }
}

/// What a voter says of a master: its number and address, whether it is down, and the vote that is kept.
fn answered(words: &[Vec<u8>]) -> Result<Event, Unplayed>
    ensures { IfOk result IsWithinEvent }
{
    let [voter, master, about, down, leader, epoch] = words else {
        return Err(Unplayed::WrongWords);
    };
    Ok(Event::Answered {
        voter: node(voter)?,
        master: number_16(master)?,
        addr: addr(about)?,
        down: says(down, "down", "up")?,
        leader: maybe_id(leader)?,
        epoch: number(epoch)?,
    })
}

/// What is heard of a node, or of the connection to it.
fn of_node(kind: &str, node: NodeName) -> Result<Event, Unplayed>
    ensures { IfOk result IsWithinEvent }
{
    let reply = match kind {
        "refused" => return Ok(Event::Refused { node }),
        "lost" => return Ok(Event::Disconnected { node }),
        "pong" => PingReply::Pong,
        "loading" => PingReply::Loading,
        "noauth" => PingReply::Other,
        _ => return Err(Unplayed::WrongWords),
    };
    Ok(Event::Pinged { node, reply })
}

/// What happens, in these words. A tick has the random number 0, and commands come from the first client of the port.
pub(crate) fn event(alloc: Global, words: &[Vec<u8>]) -> Result<Event, Unplayed>
    ensures { IfOk result IsWithinEvent }
{
    let [kind, words @ ..] = words else {
        return Err(Unplayed::WrongWords);
    };
    match (text(kind)?, words) {
        ("tick", [master]) => Ok(Event::Tick {
            master: number_16(master)?,
            random: 0,
        }),
        ("command", words) => Ok(Event::Command {
            sender: NodeName::PortAt(0),
            command: command(alloc, words)?,
        }),
        ("section", []) => Ok(Event::Command {
            sender: NodeName::PortAt(0),
            command: Command::Info,
        }),
        ("answer", words) => answered(words),
        ("info", [of, bytes]) => Ok(Event::InfoRead {
            node: node(of)?,
            text: Text::from_slice(alloc, bytes)?,
        }),
        ("hello", [bytes]) => Ok(Event::HelloRead {
            text: Text::from_slice(alloc, bytes)?,
        }),
        (kind, [of]) => of_node(kind, node(of)?),
        _ => Err(Unplayed::WrongWords),
    }
}
