//! Conversations with a node on a connection that a Sentinel opened: what is asked, and what each reply tells.

use crate::events::node;
use crate::message_rows::{message, tell_event};
use crate::told::{Told, Unplayed};
use links::{Heard, LinkFault, LinkSession};
use std::alloc::Global;

/// Takes a refused growth as such, and tells another fault.
fn tell_fault(fault: LinkFault, told: &mut Told) -> Result<(), Unplayed> {
    if fault == LinkFault::NoMemory {
        return Err(Unplayed::NoMemory);
    }
    told.shown(&fault)
}

/// Orders a command of these words.
fn order(alloc: Global, session: &mut LinkSession, words: &[Vec<u8>]) -> Result<(), LinkFault> {
    let mut slices = Vec::new(alloc);
    for word in words {
        if slices.push(word.as_slice()).is_err() {
            return Err(LinkFault::NoMemory);
        }
    }
    session.order(slices.as_slice())
}

/// Asks what these words say: a command after `Order`, or what a message says.
fn ask(
    alloc: Global,
    session: &mut LinkSession,
    words: &[Vec<u8>],
    told: &mut Told,
) -> Result<(), Unplayed> {
    let asked = match words {
        [kind, words @ ..] if kind.as_slice() == b"Order".as_slice() => {
            order(alloc, session, words)
        }
        words => session.ask(&message(alloc, b"s0", b"s1", words)?),
    };
    match asked {
        Ok(()) => Ok(()),
        Err(fault) => tell_fault(fault, told),
    }
}

/// Tells what a reply is: an error before the event that it tells.
fn tell_heard(alloc: Global, heard: &Heard, told: &mut Told) -> Result<(), Unplayed> {
    match heard {
        Heard::Told(event) => tell_event(alloc, event, told),
        Heard::Refused(refusal) => {
            told.word("Error")?;
            told.bytes(refusal.text.as_slice())?;
            match &refusal.event {
                Some(event) => tell_event(alloc, event, told),
                None => Ok(()),
            }
        }
        Heard::Row(row) => {
            told.word("Row")?;
            told.shown(&row.replicas)?;
            told.shown(&row.others)?;
            told.shown(&row.quorum)
        }
        Heard::Nothing => Ok(()),
    }
}

/// Tells what these pieces say, one after another, each fault, and whether an answer is awaited.
fn hear(
    alloc: Global,
    session: &mut LinkSession,
    pieces: &[Vec<u8>],
    told: &mut Told,
) -> Result<(), Unplayed> {
    for piece in pieces {
        let mut heard = Vec::new(alloc);
        let received = session.received(piece, &mut heard);
        for one in &heard {
            tell_heard(alloc, one, told)?;
        }
        if let Err(fault) = received {
            tell_fault(fault, told)?;
        }
    }
    told.word(if session.is_waiting() {
        "waits"
    } else {
        "idle"
    })
}

/// Tells what comes of a call with these words: the node, the questions with a word `,` between two, and after a word
/// `then` the pieces that it sends.
pub(crate) fn play(
    alloc: Global,
    call: &str,
    words: &[Vec<u8>],
    told: &mut Told,
) -> Result<(), Unplayed> {
    let [name, words @ ..] = words else {
        return Err(Unplayed::WrongWords);
    };
    let mut parts = words.split(|word| word.as_slice() == b"then".as_slice());
    let asks = parts.next().unwrap_or(&[]);
    let pieces = parts.next().unwrap_or(&[]);
    let mut session = match call {
        "asks" | "hears" => LinkSession::new(alloc, node(name)?),
        "listens" => LinkSession::listening(alloc, node(name)?),
        _ => return Err(Unplayed::NoSuchCall),
    };
    for words in asks.split(|word| word.as_slice() == b",".as_slice()) {
        ask(alloc, &mut session, words, told)?;
    }
    if call == "asks" {
        return told.bytes(session.unsent());
    }
    hear(alloc, &mut session, pieces, told)
}
