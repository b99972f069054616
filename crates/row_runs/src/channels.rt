//! What a connection is answered of Pub/Sub, and what it is told.

use crate::commands::array;
use crate::told::{Told, Unplayed};
use pubsub::{Channel, Event, Subscriptions, Turn, is_match};
use resp2::OutText;
use std::alloc::Global;

/// The channels of all events.
const CHANNELS: [Channel; 23] = [
    Channel::SubjectivelyDown,
    Channel::SubjectivelyUp,
    Channel::ObjectivelyDown,
    Channel::ObjectivelyUp,
    Channel::NewEpoch,
    Channel::TryFailover,
    Channel::VoteForLeader,
    Channel::ElectedLeader,
    Channel::SelectReplica,
    Channel::SelectedReplica,
    Channel::SendReplicaOfNoOne,
    Channel::PromotedReplica,
    Channel::SwitchMaster,
    Channel::ReplicaReconfigured,
    Channel::FailoverEnd,
    Channel::AbortReplicaTimeout,
    Channel::AbortNotElected,
    Channel::AbortNoGoodReplica,
    Channel::ConfigUpdateFrom,
    Channel::ConvertToReplica,
    Channel::FixReplicaConfig,
    Channel::TiltEntered,
    Channel::TiltExited,
];

/// The words up to the first `/`, and those after it.
fn first_command(words: &[Vec<u8>]) -> (&[Vec<u8>], &[Vec<u8>]) {
    let end = words
        .iter()
        .position(|word| word.as_slice() == b"/".as_slice());
    let Some(end) = end else {
        return (words, &[]);
    };
    let (command, rest) = words.split_at(end);
    match rest.split_first() {
        Some((_, more)) => (command, more),
        None => (command, &[]),
    }
}

/// Has a connection send commands, with a `/` between two, and tells what becomes of each.
fn send(
    alloc: Global,
    held: &mut Subscriptions,
    words: &[Vec<u8>],
    told: &mut Told,
) -> Result<(), Unplayed> {
    let mut out = OutText::new(alloc);
    let mut rest = words;
    for _ in 0..words.len() {
        if rest.is_empty() {
            return Ok(());
        }
        let (command, more) = first_command(rest);
        match held.answer(&array(alloc, command)?, &mut out)? {
            Turn::Said => told.bytes(out.as_slice())?,
            Turn::Other => told.word("other")?,
        }
        rest = more;
    }
    Ok(())
}

/// Tells what a connection that sent these commands is told of a text on a channel.
fn tell(
    alloc: Global,
    channel: &[u8],
    text: &[u8],
    words: &[Vec<u8>],
    told: &mut Told,
) -> Result<(), Unplayed> {
    let mut held = Subscriptions::new(alloc);
    send(alloc, &mut held, words, &mut Told::new(alloc))?;
    let mut out = OutText::new(alloc);
    held.tell(channel, text, &mut out)?;
    told.bytes(out.as_slice())
}

/// Tells to how many channels and patterns a connection that sent these commands listens, and what they are.
fn tell_held(alloc: Global, words: &[Vec<u8>], told: &mut Told) -> Result<(), Unplayed> {
    let mut held = Subscriptions::new(alloc);
    send(alloc, &mut held, words, &mut Told::new(alloc))?;
    told.yes(held.is_listening())?;
    told.number(held.count() as u64)?;
    for name in held.channels() {
        told.bytes(name.as_slice())?;
    }
    for name in held.patterns() {
        told.bytes(name.as_slice())?;
    }
    Ok(())
}

/// Tells what a connection is told of each event with this text that listens to this pattern.
fn tell_events(
    alloc: Global,
    text: &[u8],
    words: &[Vec<u8>],
    told: &mut Told,
) -> Result<(), Unplayed> {
    let mut held = Subscriptions::new(alloc);
    send(alloc, &mut held, words, &mut Told::new(alloc))?;
    for channel in CHANNELS {
        let event = Event {
            channel,
            text: ballot_law::Text::from_slice(alloc, text)?,
        };
        let mut out = OutText::new(alloc);
        held.tell_event(&event, &mut out)?;
        told.bytes(out.as_slice())?;
    }
    Ok(())
}

/// Tells whether each text matches the pattern.
fn tell_matches(pattern: &[u8], texts: &[Vec<u8>], told: &mut Told) -> Result<(), Unplayed> {
    for text in texts {
        told.yes(is_match(pattern, text.as_slice()))?;
    }
    Ok(())
}

/// Tells what comes of a call with these words.
pub(crate) fn play(
    alloc: Global,
    call: &str,
    words: &[Vec<u8>],
    told: &mut Told,
) -> Result<(), Unplayed> {
    match (call, words) {
        ("send", words) => send(alloc, &mut Subscriptions::new(alloc), words, told),
        ("held", words) => tell_held(alloc, words, told),
        ("told", [channel, text, words @ ..]) => tell(alloc, channel, text, words, told),
        ("events", [text, words @ ..]) => tell_events(alloc, text, words, told),
        ("matches", [pattern, texts @ ..]) => tell_matches(pattern, texts, told),
        _ => Err(Unplayed::NoSuchCall),
    }
}
