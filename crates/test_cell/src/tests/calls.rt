//! Inputs of a Sentinel that watches a master at 6379 with replicas at 6380 and 6381, and what it answers.

ghost use Rattle.ballot_law.specs.Limits.{IsWithin, IsWithinEvent};

use ballot_law::{Addr, Body, Card, Command, Event, Input, NodeName, Output, RunId};

/// The run id of forty `a`.
const A: RunId = RunId {
    hi: 0xaaaa_aaaa_aaaa_aaaa_aaaa_aaaa_aaaa_aaaa,
    lo: 0xaaaa_aaaa,
};

/// A configuration of this epoch, with the master at a port of this machine.
pub(crate) fn card(epoch: u64, port: u16) -> Card {
    Card {
        epoch,
        addr: Addr {
            ip: 2_130_706_433,
            port,
        },
    }
}

/// A command of a client.
fn of_client(command: Command) -> Input
    requires { IsWithin command }
    ensures { IsWithinEvent result.event }
{
    let event = Event::Command {
        sender: NodeName::PortAt(0),
        command,
    };
    Input { now: 0, event }
}

/// The request of A for the vote of an epoch.
pub(crate) fn request(epoch: u32) -> Input
    ensures { IsWithinEvent result.event }
{
    of_client(Command::IsMasterDownByAddr {
        addr: card(0, 6379).addr,
        epoch: u64::from(epoch),
        candidate: Some(A),
    })
}

/// The epoch of A's vote, where that is the one output.
pub(crate) fn vote_in(outputs: &[Output]) -> Option<u64> {
    if let [Output::Send(message)] = outputs {
        if let Body::Answer { leader, epoch, .. } = &message.body {
            if *leader == Some(A) {
                return Some(*epoch);
            }
        }
    }
    None
}
