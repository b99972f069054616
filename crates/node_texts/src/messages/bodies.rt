//! What a message says, added to any place for bytes.

ghost use Rattle.std.specs.Prelude.{◌≡◌, ◌++◌, OnOk, OnErr};
ghost use Rattle.resp2.specs.Framing.Writing.{Begins};
ghost use Rattle.node_texts.specs.Messages.MessageTexts.{message_bytes, IsWritable};

use crate::messages::commands::{push_ask, push_hand_over, push_hello, push_replica_of};
use crate::messages::replies::{push_answer, push_info, push_pong, push_role, push_shown};
use ballot_law::{Body, NoMemory};
use resp2::{ByteSink, push_kind, push_words};
use std::alloc::Global;

/// Adds what a message says, as it stands on the wire; where memory is refused, a first part of it may be added.
pub fn push_body<S: ByteSink>(sink: &mut S, alloc: Global, body: &Body) -> Result<(), NoMemory>
    requires writable { IsWritable body.now }
    ensures ok { OnOk result (S.bytes sink.new ≡ S.bytes sink.old ++ message_bytes body.now) }
    ensures err { OnErr result (Begins (S.bytes sink.old) (S.bytes sink.new)) }
{
    match body {
        Body::Ask {
            addr,
            epoch,
            candidate,
            ..
        } => push_ask(sink, *addr, *epoch, *candidate),
        Body::Answer {
            down,
            leader,
            epoch,
            ..
        } => push_answer(sink, *down, *leader, *epoch),
        Body::Ping => push_words(sink, &[b"PING"]),
        Body::PingText { is_error, text } => push_pong(sink, *is_error, text.as_slice()),
        Body::InfoAsk => push_words(sink, &[b"INFO"]),
        Body::InfoText(info) => push_info(sink, alloc, info),
        Body::Publish(hello) => push_hello(sink, alloc, b"PUBLISH", hello),
        Body::HelloText(hello) => push_hello(sink, alloc, b"message", hello),
        Body::ReplicaOf(addr) => push_replica_of(sink, *addr),
        Body::HandOver(heir) => push_hand_over(sink, *heir),
        Body::AddressAsk(name) => {
            push_words(
                sink,
                &[b"SENTINEL", b"GET-MASTER-ADDR-BY-NAME", name.as_slice()],
            )
        },
        Body::AddressAnswer(shown) => push_shown(sink, shown),
        Body::PortReply { text, .. } => sink.push(text.as_slice()),
        Body::RoleAsk => push_words(sink, &[b"ROLE"]),
        Body::RoleText(role) => push_role(sink, alloc, role),
        Body::Done => push_kind(sink, b'+', b"OK"),
    }
}
