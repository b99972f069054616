//! CLIENT, PING, ROLE and PUBLISH.

ghost use Rattle.std.specs.Prelude.{◌≡◌, ◌++◌, OnOk, length, map, pos, decimal};
ghost use Rattle.resp2.specs.Framing.Frame as frames;
ghost use Rattle.resp2.specs.Framing.Frame.{spelling, spellings, frames_of, line_end};
ghost use Rattle.client_commands.specs.Courtesies.{get_name, no_evict, reply, names_of, role, is_hello_channel, publish, pong};

use crate::hellos::first;
use crate::refusals::{is_called, say};
use ballot_law::{NoMemory, Text, Watched};
use itoa::Buffer;
use resp2::{OutText, push_bulk};

/// The answer is a bulk string.
pub(crate) fn say_bulk(out: &mut OutText, bytes: &[u8]) -> Result<(), NoMemory>
    ensures { OnOk result (out.new ≡ spelling (frames.bulk bytes.now)) }
{
    out.clear();
    push_bulk(out, bytes)
}

/// The answer is a number.
pub(crate) fn say_number(out: &mut OutText, number: u64) -> Result<(), NoMemory>
    ensures { OnOk result (out.new ≡ spelling (frames.int (pos number))) }
{
    say(out, b":")?;
    add_number(out, number)
}

/// The answer is an array of no items.
pub(crate) fn say_none(out: &mut OutText) -> Result<(), NoMemory>
    ensures { OnOk result (out.new ≡ spelling (frames.items frames.no_frames)) }
{
    say(out, b"*0\r\n")
}

/// Adds a number and the end of its line.
pub(crate) fn add_number(out: &mut OutText, number: u64) -> Result<(), NoMemory>
    ensures { OnOk result (out.new ≡ out.old ++ (decimal number ++ line_end)) }
{
    let mut buffer = Buffer::new();
    out.add(buffer.format(number).as_bytes())?;
    out.add(b"\r\n")
}

/// The answer is a bulk string after a text.
fn say_before(out: &mut OutText, before: &[u8], word: &[u8]) -> Result<(), NoMemory>
    ensures { OnOk result (out.new ≡ before.now ++ spelling (frames.bulk word.now)) }
{
    say(out, before)?;
    push_bulk(out, word)
}

/// The answer to PING of a connection that listens.
pub(crate) fn pong(words: &[Text], out: &mut OutText) -> Result<(), NoMemory>
    ensures { OnOk result (out.new ≡ spelling (pong words.now)) }
{
    say_before(out, b"*2\r\n$4\r\npong\r\n", first(words))
}

/// The answer to CLIENT GETNAME on a connection with this name.
pub(crate) fn get_name(name: &[u8], out: &mut OutText) -> Result<(), NoMemory>
    ensures { OnOk result (out.new ≡ spelling (get_name name.now)) }
{
    if name.is_empty() {
        return say(out, b"$-1\r\n");
    }
    say_bulk(out, name)
}

/// The answer to CLIENT NO-EVICT with these words.
pub(crate) fn no_evict(words: &[Text], out: &mut OutText) -> Result<(), NoMemory>
    ensures { OnOk result (out.new ≡ spelling (no_evict words.now)) }
{
    let word = first(words);
    if is_called(b"on", word) || is_called(b"off", word) {
        return say(out, b"+OK\r\n");
    }
    say(out, b"-ERR syntax error\r\n")
}

/// The answer to CLIENT REPLY with these words: each value has its answer, so a client can't do without.
pub(crate) fn reply(words: &[Text], out: &mut OutText) -> Result<(), NoMemory>
    ensures { OnOk result (out.new ≡ spelling (reply words.now)) }
{
    if is_called(b"on", first(words)) {
        return say(out, b"+OK\r\n");
    }
    say(out, b"-ERR syntax error\r\n")
}

/// Adds the names of masters.
fn add_names(out: &mut OutText, masters: &[Watched]) -> Result<(), NoMemory>
    ensures { OnOk result (out.new ≡ out.old ++ spellings (frames_of (map frames.bulk (names_of masters.now)))) }
{
    let mut rest = masters;
    while let [master, more @ ..] = rest {
        push_bulk(out, master.name.as_slice())?;
        rest = more;
    }
    Ok(())
}

/// The answer is the number of masters and then their names, after a text.
fn say_names(out: &mut OutText, before: &[u8], masters: &[Watched]) -> Result<(), NoMemory>
    ensures { OnOk result (out.new ≡ before.now ++ ((decimal (length masters.now) ++ line_end) ++ spellings (frames_of (map frames.bulk (names_of masters.now))))) }
{
    say(out, before)?;
    add_number(out, masters.len() as u64)?;
    add_names(out, masters)
}

/// The answer to ROLE at a Sentinel with these masters.
pub(crate) fn role(masters: &[Watched], out: &mut OutText) -> Result<(), NoMemory>
    ensures { OnOk result (out.new ≡ spelling (role (names_of masters.now))) }
{
    say_names(out, b"*2\r\n$8\r\nsentinel\r\n*", masters)
}

/// Whether the channel is that on which Sentinels say hello.
fn is_hello_channel(word: &[u8]) -> bool
    ensures { result ≡ is_hello_channel word.now }
{
    word == b"__sentinel__:hello".as_slice()
}

/// The answer to PUBLISH with these words: what others say isn't heard.
pub(crate) fn publish(words: &[Text], out: &mut OutText) -> Result<(), NoMemory>
    ensures { OnOk result (out.new ≡ spelling (publish words.now)) }
{
    if is_hello_channel(first(words)) {
        return say_number(out, 1);
    }
    say(
        out,
        b"-ERR Only HELLO messages are accepted by Sentinel instances.\r\n",
    )
}
