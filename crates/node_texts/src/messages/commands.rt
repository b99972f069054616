//! Commands, and hellos as they are passed on: arrays of words.

ghost use Rattle.std.specs.Prelude.{◌≡◌, ◌∷◌, ◌++◌, [], OnOk, OnErr};
ghost use Rattle.ballot_law.specs.Hellos.{IsHello, hello_text};
ghost use Rattle.resp2.specs.Commands.{ask_frame, candidate_text};
ghost use Rattle.resp2.specs.Framing.Frame.{spelling};
ghost use Rattle.resp2.specs.Framing.Writing.{Begins};
ghost use Rattle.node_texts.specs.Messages.MessageTexts.{words_frame, hello_channel, replica_of_frame, hand_over_frame};

use crate::hellos::write_hello;
use arrayvec::ArrayVec;
use ballot_law::{Addr, HAND_OVER_MS, Heir, Hello, NoMemory, RunId};
use itoa::Buffer;
use resp2::{ByteSink, OutText, push_words};
use std::alloc::Global;
use tokens::{RUN_ID_LENGTH, ip_text, run_id_text};

/// The channel on which Sentinels publish their hellos.
const HELLO_CHANNEL: &[u8] = b"__sentinel__:hello";

/// A run id as a word, `*` for none.
pub fn candidate_text(candidate: Option<RunId>) -> ArrayVec<u8, RUN_ID_LENGTH>
    ensures { result.items ≡ candidate_text candidate }
{
    match candidate {
        Some(id) => run_id_text(id),
        None => {
            let mut text = ArrayVec::new();
            text.push(b'*');
            text
        }
    }
}

/// Adds the question whether a master is down, with a request for a vote where there is a candidate.
pub fn push_ask<S: ByteSink>(
    sink: &mut S,
    addr: Addr,
    epoch: u64,
    candidate: Option<RunId>,
) -> Result<(), NoMemory>
    ensures ok { OnOk result
        (S.bytes sink.new ≡ S.bytes sink.old ++ spelling (ask_frame addr epoch candidate)) }
    ensures err { OnErr result (Begins (S.bytes sink.old) (S.bytes sink.new)) }
{
    let mut port = Buffer::new();
    let mut digits = Buffer::new();
    push_words(
        sink,
        &[
            b"SENTINEL",
            b"IS-MASTER-DOWN-BY-ADDR",
            ip_text(addr.ip).as_slice(),
            port.format(addr.port).as_bytes(),
            digits.format(epoch).as_bytes(),
            candidate_text(candidate).as_slice(),
        ],
    )
}

/// Adds a hello behind the word and the channel with which it is published, or passed on. Its text is written to memory
/// of its own first.
pub fn push_hello<S: ByteSink>(
    sink: &mut S,
    alloc: Global,
    word: &[u8],
    hello: &Hello,
) -> Result<(), NoMemory>
    requires { IsHello hello.now }
    ensures ok { OnOk result (S.bytes sink.new
        ≡ S.bytes sink.old
        ++ spelling (words_frame (word.now ∷ hello_channel ∷ hello_text hello.now ∷ []))) }
    ensures err { OnErr result (Begins (S.bytes sink.old) (S.bytes sink.new)) }
{
    let mut text = OutText::new(alloc);
    write_hello(hello, &mut text).map_err(|_| NoMemory)?;
    push_words(sink, &[word, HELLO_CHANNEL, text.as_slice()])
}

/// Adds the order to follow the master at an address, or none.
pub fn push_replica_of<S: ByteSink>(sink: &mut S, addr: Option<Addr>) -> Result<(), NoMemory>
    ensures ok { OnOk result
        (S.bytes sink.new ≡ S.bytes sink.old ++ spelling (replica_of_frame addr)) }
    ensures err { OnErr result (Begins (S.bytes sink.old) (S.bytes sink.new)) }
{
    let Some(addr) = addr else {
        return push_words(sink, &[b"REPLICAOF", b"NO", b"ONE"]);
    };
    let mut port = Buffer::new();
    push_words(
        sink,
        &[
            b"REPLICAOF",
            ip_text(addr.ip).as_slice(),
            port.format(addr.port).as_bytes(),
        ],
    )
}

/// Adds the order to hand over to a replica, or to stay the master.
pub fn push_hand_over<S: ByteSink>(sink: &mut S, heir: Option<Heir>) -> Result<(), NoMemory>
    ensures ok { OnOk result
        (S.bytes sink.new ≡ S.bytes sink.old ++ spelling (hand_over_frame heir)) }
    ensures err { OnErr result (Begins (S.bytes sink.old) (S.bytes sink.new)) }
{
    let Some(heir) = heir else {
        return push_words(sink, &[b"FAILOVER", b"ABORT"]);
    };
    let mut port = Buffer::new();
    let mut timeout = Buffer::new();
    push_words(
        sink,
        &[
            b"FAILOVER",
            b"TO",
            ip_text(heir.addr.ip).as_slice(),
            port.format(heir.addr.port).as_bytes(),
            b"TIMEOUT",
            timeout.format(HAND_OVER_MS).as_bytes(),
        ],
    )
}
