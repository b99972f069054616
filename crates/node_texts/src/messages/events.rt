//! The event that the delivery of a message is.

ghost use Rattle.std.specs.Prelude.{◌≡◌, ◌↔◌, IfOk, IfSome, IsSome};
ghost use Rattle.ballot_law.specs.Hellos.{IsHello, hello_text};
ghost use Rattle.ballot_law.specs.Messages.{Delivers, IsFor};
ghost use Rattle.node_texts.specs.Messages.Deliveries.{heard, event_of};
ghost use Rattle.node_texts.specs.Messages.MessageTexts.{IsWritable};
ghost use Rattle.node_texts.specs.Infos.{IsInfo, info_text};
ghost use Rattle.ballot_law.specs.Limits.{IsWithinEvent};
ghost use Rattle.ballot_law.specs.Limits.{IsWithinBody};

use crate::hellos::write_hello;
use crate::infos::write_info;
use crate::messages::copies::copy_of;
use ballot_law::{
    Addr, Body, Command, Event, Hello, Info, Message, NoMemory, NodeName, PingReply, RunId, Text,
};
use resp2::OutText;
use std::alloc::Global;

/// The bytes of an INFO.
fn text_of_info(alloc: Global, info: &Info) -> Result<Text, NoMemory>
    requires { IsInfo info.now }
    ensures { IfOk result (λ text. text ≡ info_text info.now) }
{
    let mut text = OutText::new(alloc);
    write_info(info, &mut text).map_err(|_| NoMemory)?;
    Text::from_slice(alloc, text.as_slice())
}

/// The bytes of a hello.
fn text_of_hello(alloc: Global, hello: &Hello) -> Result<Text, NoMemory>
    requires { IsHello hello.now }
    ensures { IfOk result (λ text. text ≡ hello_text hello.now) }
{
    let mut text = OutText::new(alloc);
    write_hello(hello, &mut text).map_err(|_| NoMemory)?;
    Text::from_slice(alloc, text.as_slice())
}

/// A command of this sender.
fn commanded(sender: NodeName, command: Command) -> Event
    ensures { result ≡ Event.Command sender command }
{
    Event::Command { sender, command }
}

/// This sender's question whether a master is down, and for a vote where there is a candidate.
fn question(sender: NodeName, addr: Addr, epoch: u64, candidate: Option<RunId>) -> Event
    ensures { result ≡ Event.Command sender (Command.IsMasterDownByAddr addr epoch candidate) }
{
    Event::Command {
        sender,
        command: Command::IsMasterDownByAddr {
            addr,
            epoch,
            candidate,
        },
    }
}

/// What a body becomes at a Sentinel; none where it isn't for Sentinels.
fn heard(alloc: Global, sender: NodeName, body: &Body) -> Result<Option<Event>, NoMemory>
    requires { IsWritable body.now }
    ensures { IfOk result (λ event. event ≡ heard sender body.now) }
{
    let event = match body {
        Body::Ask {
            addr,
            epoch,
            candidate,
            ..
        } => question(sender, *addr, *epoch, *candidate),
        Body::Answer {
            master,
            addr,
            down,
            leader,
            epoch,
        } => Event::Answered {
            voter: sender,
            master: *master,
            addr: *addr,
            down: *down,
            leader: *leader,
            epoch: *epoch,
        },
        Body::Ping => commanded(sender, Command::Ping),
        Body::PingText { is_error, text } => Event::Pinged {
            node: sender,
            reply: PingReply::of(*is_error, text.as_slice()),
        },
        Body::InfoText(info) => Event::InfoRead {
            node: sender,
            text: text_of_info(alloc, info)?,
        },
        Body::HelloText(hello) => Event::HelloRead {
            text: text_of_hello(alloc, hello)?,
        },
        Body::AddressAsk(name) => commanded(sender, Command::GetMasterAddrByName(Some(*name))),
        _ => return Ok(None),
    };
    Ok(Some(event))
}

/// The event that the delivery of a message is at its target; none where the target is a Sentinel and the body isn't
/// for Sentinels: a delivery of it doesn't apply.
///
/// At a Sentinel an ask, a client's question for an address and a PING are commands of the sender, the answer to an ask
/// is heard, the answer to a PING counts as `PingReply::of` says, and an INFO and a hello come as their bytes. A data
/// node and a client are handed a copy of the message. `NoMemory` leaves nothing.
///
/// The caller sees to it that the message can be written, and that the epoch of an ask in it is at most `MAX_EPOCH`.
pub fn event_of(alloc: Global, message: &Message) -> Result<Option<Event>, NoMemory>
    requires within { IsWithinBody message.now.body }
    requires writable { IsWritable message.now.body }
    ensures event { IfOk result (λ event. event ≡ event_of message.now) }
    ensures applies { IfOk result (λ event. IsSome event ↔ IsFor message.now.target message.now.body) }
    ensures delivers { IfOk result (λ event. IfSome event (Delivers message.now)) }
    ensures within { IfOk result (λ event. IfSome event IsWithinEvent) }
{
    match message.target {
        NodeName::SentinelAt(_) => heard(alloc, message.sender, &message.body),
        _ => Ok(Some(Event::Handed(copy_of(alloc, message)?))),
    }
}
