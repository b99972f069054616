//! Messages as the bytes that stand on the wire.

ghost use Rattle.std.specs.Prelude.{◌≡◌, ◌++◌, IfSome, OnOk, OnErr};
ghost use Rattle.node_texts.specs.Messages.MessageTexts.{message_bytes, IsWritable};

use crate::messages::bodies::push_body;
use crate::messages::short_answer::ShortAnswer;
use ballot_law::{Body, Message, NoMemory};
use resp2::OutText;
use std::alloc::Global;

/// Whether a message is one of the answers that a port gives most often, which are short.
fn is_short(body: &Body) -> bool {
    matches!(
        body,
        Body::Answer { .. } | Body::PingText { .. } | Body::AddressAnswer(_)
    )
}

/// Adds what a message says to the text itself, part by part; `NoMemory` leaves the text unchanged.
fn add_parts(alloc: Global, body: &Body, text: &mut OutText) -> Result<(), NoMemory>
    requires { IsWritable body.now }
    ensures ok { OnOk result (text.new ≡ text.old ++ message_bytes body.now) }
    ensures err { OnErr result (text.new ≡ text.old) }
{
    let len = text.len();
    match push_body(text, alloc, body) {
        Ok(()) => Ok(()),
        Err(_) => {
            text.truncate(len);
            Err(NoMemory)
        }
    }
}

/// What a message says as it stands on the wire, in room on the stack, where it is one of the answers that a port gives
/// most often and is short enough. The caller sees to what it says as for `message_text`.
pub fn short_text(alloc: Global, body: &Body) -> Option<ShortAnswer>
    requires { IsWritable body.now }
    ensures { IfSome result (λ short. short ≡ message_bytes body.now) }
{
    if !is_short(body) {
        return None;
    }
    let mut short = ShortAnswer::new();
    match push_body(&mut short, alloc, body) {
        Ok(()) => Some(short),
        Err(_) => None,
    }
}

/// Adds a message as it stands on the wire: a command as a RESP2 array of bulk strings, a reply as a RESP2 value.
///
/// The master of an Ask isn't written, nor are the master and the address of the answer to it: the link knows them. The
/// caller sees to it that no CR or LF stands in the answer to a PING, that a hello, an INFO and a ROLE can be read
/// again, and that the epoch of an answer is at most `MAX_EPOCH`. `NoMemory` leaves the text unchanged.
pub fn message_text(alloc: Global, message: &Message, text: &mut OutText) -> Result<(), NoMemory>
    requires { IsWritable message.now.body }
    ensures ok { OnOk result (text.new ≡ text.old ++ message_bytes message.now.body) }
    ensures err { OnErr result (text.new ≡ text.old) }
{
    match short_text(alloc, &message.body) {
        Some(short) => text.add(short.as_slice()),
        None => add_parts(alloc, &message.body, text),
    }
}
