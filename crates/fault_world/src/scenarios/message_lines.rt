//! A message as a comment of a scenario.

ghost use Rattle.std.specs.Prelude.{◌≡◌, OnErr};
ghost use Rattle.node_texts.specs.Messages.MessageTexts.{IsWritable};

use crate::scenarios::comments::add_comment;
use crate::scenarios::wording::words_of;
use ballot_law::{Message, NoMemory, NodeName};
use resp2::OutText;
use std::alloc::Global;

/// The letter and the number by which a scenario names a node; a client's port, which it doesn't name, has `p`.
fn word_of(node: NodeName) -> (char, u32) {
    match node {
        NodeName::SentinelAt(place) => ('s', u32::from(place)),
        NodeName::StoreAt(place) => ('d', u32::from(place)),
        NodeName::ClientAt(place) => ('c', u32::from(place)),
        NodeName::PortAt(place) => ('p', place),
    }
}

/// Adds a message as a comment: its number, its sender, its target, and its words, as `# 13 s0 d1 REPLICAOF NO ONE`.
///
/// The caller sees to it that the message can be written. `NoMemory` leaves the text unchanged.
pub fn add_message(
    alloc: Global,
    text: &mut OutText,
    number: usize,
    message: &Message,
) -> Result<(), NoMemory>
    requires { IsWritable message.now.body }
    ensures { OnErr result (text.new ≡ text.old) }
{
    let words = words_of(alloc, message)?;
    let (from, sender) = word_of(message.sender);
    let (to, target) = word_of(message.target);
    let mut line = OutText::new(alloc);
    line.add(format!(in alloc; "{number} {from}{sender} {to}{target} ")?.as_bytes())?;
    line.add(words.as_slice())?;
    add_comment(text, line.as_slice())
}
