//! What a data node says in a take.

ghost use Rattle.std.specs.Prelude.{◌≡◌, ◌≤◌};
ghost use Rattle.ballot_law.specs.Messages.{published};
ghost use Rattle.sentinel_outbox.specs.Outboxes.{Fits, IsOtherNode};
ghost use Rattle.boxed_nodes.specs.Data.Servers.{to_each, answered, listener, reply, said_to, said};

use crate::data::server::Server;
use ballot_law::{Body, Event, Hello, Message, NodeName};
use sentinel_outbox::Outbox;

/// The hello that a message publishes.
fn published(body: &Body) -> Option<Hello>
    ensures { result ≡ published body.now }
{
    match body {
        Body::Publish(hello) => Some(*hello),
        Body::Ask { .. }
        | Body::Answer { .. }
        | Body::Ping
        | Body::PingText { .. }
        | Body::InfoAsk
        | Body::InfoText(_)
        | Body::HelloText(_)
        | Body::ReplicaOf(_)
        | Body::HandOver(_)
        | Body::AddressAsk(_)
        | Body::AddressAnswer(_)
        | Body::PortReply { .. }
        | Body::RoleAsk
        | Body::RoleText(_)
        | Body::Done => None,
    }
}

/// Passes a hello to each of so many Sentinels.
fn pass_on(name: NodeName, hello: &Hello, sentinels: u16, outbox: &mut Outbox)
    requires sender { IsOtherNode name }
    requires fits { Fits outbox.old (record { outputs = sentinels; text = 0; shown = 0 }) }
    ensures held { outbox.new.held ≡ to_each name hello.now sentinels }
    ensures shown { outbox.new.shown ≡ outbox.old.shown }
{
    for place in 0..sentinels {
        let _held = outbox.hold(Message {
            sender: name,
            target: NodeName::SentinelAt(place),
            body: Body::HelloText(*hello),
        });
    }
}

/// Who gets what is said to a message: its sender, but an order to hand over has its heir told.
fn listener(message: &Message) -> NodeName
    ensures { result ≡ listener message.now.sender message.now.body }
{
    match &message.body {
        Body::HandOver(Some(heir)) => heir.node,
        _ => message.sender,
    }
}

/// Sends the answer to a message, where there is one.
fn answer(name: NodeName, server: &Server, message: &Message, outbox: &mut Outbox)
    requires sender { IsOtherNode name }
    requires fits { Fits outbox.old (record { outputs = 1; text = 0; shown = 0 }) }
    ensures held { outbox.new.held ≡ answered name (listener message.now.sender message.now.body) (reply server.now message.now.body) }
    ensures shown { outbox.new.shown ≡ outbox.old.shown }
{
    if let Some(body) = server.reply(&message.body) {
        let _held = outbox.hold(Message {
            sender: name,
            target: listener(message),
            body,
        });
    }
}

/// Passes on what a message publishes, or answers it.
fn respond(name: NodeName, server: &Server, sentinels: u16, message: &Message, outbox: &mut Outbox)
    requires sender { IsOtherNode name }
    requires some { 1 ≤ sentinels }
    requires fits { Fits outbox.old (record { outputs = sentinels; text = 0; shown = 0 }) }
    ensures held { outbox.new.held
        ≡ said_to name sentinels server.now message.now.sender message.now.body (published message.now.body) }
    ensures shown { outbox.new.shown ≡ outbox.old.shown }
{
    match published(&message.body) {
        Some(hello) => pass_on(name, &hello, sentinels, outbox),
        None => answer(name, server, message, outbox),
    }
}

/// Says what the event asks for.
pub(crate) fn say(
    name: NodeName,
    server: &Server,
    sentinels: u16,
    event: &Event,
    outbox: &mut Outbox,
)
    requires sender { IsOtherNode name }
    requires some { 1 ≤ sentinels }
    requires fits { Fits outbox.old (record { outputs = sentinels; text = 0; shown = 0 }) }
    ensures held { outbox.new.held ≡ said name sentinels server.now event.now }
    ensures shown { outbox.new.shown ≡ outbox.old.shown }
{
    match event {
        Event::Handed(message) => respond(name, server, sentinels, message, outbox),
        Event::Tick { .. }
        | Event::Command { .. }
        | Event::Answered { .. }
        | Event::Pinged { .. }
        | Event::InfoRead { .. }
        | Event::HelloRead { .. }
        | Event::Disconnected { .. }
        | Event::Refused { .. }
        | Event::Become { .. } => {}
    }
}
