//! Copies of messages.

ghost use Rattle.std.specs.Prelude.{◌≡◌, IfOk};

use ballot_law::{Body, Message, NoMemory, ShortText, ShownList, Text};
use std::alloc::Global;

/// A copy of an answer of the port: the configurations that it shows, and its bytes.
fn copy_of_reply(alloc: Global, shown: &ShownList, text: &Text) -> Result<Body, NoMemory>
    ensures { IfOk result (λ copy. copy ≡ Body.PortReply shown.now text.now) }
{
    let shown = ShownList::from_vec(Vec::from_slice(alloc, shown.as_slice())?);
    let text = Text::from_slice(alloc, text.as_slice())?;
    Ok(Body::PortReply { shown, text })
}

/// The answer to a PING.
fn pinged(is_error: bool, text: ShortText) -> Body
    ensures { result ≡ Body.PingText is_error text }
{
    Body::PingText { is_error, text }
}

/// A copy of what a message says.
fn copy_of_body(alloc: Global, body: &Body) -> Result<Body, NoMemory>
    ensures { IfOk result (λ copy. copy ≡ body.now) }
{
    match body {
        Body::Ask {
            master,
            addr,
            epoch,
            candidate,
        } => Ok(Body::Ask {
            master: *master,
            addr: *addr,
            epoch: *epoch,
            candidate: *candidate,
        }),
        Body::Answer {
            master,
            addr,
            down,
            leader,
            epoch,
        } => Ok(Body::Answer {
            master: *master,
            addr: *addr,
            down: *down,
            leader: *leader,
            epoch: *epoch,
        }),
        Body::Ping => Ok(Body::Ping),
        Body::PingText { is_error, text } => Ok(pinged(*is_error, *text)),
        Body::InfoAsk => Ok(Body::InfoAsk),
        Body::InfoText(info) => Ok(Body::InfoText(*info)),
        Body::Publish(hello) => Ok(Body::Publish(*hello)),
        Body::HelloText(hello) => Ok(Body::HelloText(*hello)),
        Body::ReplicaOf(addr) => Ok(Body::ReplicaOf(*addr)),
        Body::HandOver(heir) => Ok(Body::HandOver(*heir)),
        Body::AddressAsk(name) => Ok(Body::AddressAsk(*name)),
        Body::AddressAnswer(shown) => Ok(Body::AddressAnswer(*shown)),
        Body::PortReply { shown, text } => copy_of_reply(alloc, shown, text),
        Body::RoleAsk => Ok(Body::RoleAsk),
        Body::RoleText(role) => Ok(Body::RoleText(*role)),
        Body::Done => Ok(Body::Done),
    }
}

/// A copy of a message. Memory is taken only for an answer of the port, whose length is its own; `NoMemory` leaves
/// nothing.
pub fn copy_of(alloc: Global, message: &Message) -> Result<Message, NoMemory>
    ensures { IfOk result (λ copy. copy ≡ message.now) }
{
    Ok(Message {
        sender: message.sender,
        target: message.target,
        body: copy_of_body(alloc, &message.body)?,
    })
}
