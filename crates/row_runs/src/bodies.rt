//! What messages say, from words.

ghost use Rattle.std.specs.Prelude.{IfOk};
ghost use Rattle.ballot_law.specs.Hellos.{IsHello};
ghost use Rattle.node_texts.specs.Messages.MessageTexts.{IsWritable};
ghost use Rattle.ballot_law.specs.Limits.{AnswersWithin, HasEpochWithin, IsWithinBody};

use crate::given::{addr, maybe_addr, maybe_id, number, number_16, says, text};
use crate::told::Unplayed;
use crate::writable::is_line;
use crate::{infos, roles};
use ballot_law::{Body, Card, Hello, MAX_EPOCH, Name, Role, ShortText, Shown, ShownList, Text};
use node_texts::{read_hello, read_info};
use std::alloc::Global;

/// A question about a master: its number and address, the epoch, and the candidate.
fn ask(words: &[Vec<u8>]) -> Result<Body, Unplayed>
    ensures within { IfOk result IsWithinBody }
    ensures epochs { IfOk result AnswersWithin }
    ensures writable { IfOk result IsWritable }
{
    let [master, about, epoch, candidate] = words else {
        return Err(Unplayed::WrongWords);
    };
    let epoch = number(epoch)?;
    if epoch > MAX_EPOCH {
        return Err(Unplayed::OutOfRange);
    }
    Ok(Body::Ask {
        master: number_16(master)?,
        addr: addr(about)?,
        epoch,
        candidate: maybe_id(candidate)?,
    })
}

/// The answer to it: the number and address of the master, whether it is down, the vote and its epoch.
fn answer(words: &[Vec<u8>]) -> Result<Body, Unplayed>
    ensures within { IfOk result IsWithinBody }
    ensures epochs { IfOk result AnswersWithin }
    ensures writable { IfOk result IsWritable }
{
    let [master, about, down, leader, epoch] = words else {
        return Err(Unplayed::WrongWords);
    };
    let epoch = number(epoch)?;
    if epoch > MAX_EPOCH {
        return Err(Unplayed::OutOfRange);
    }
    Ok(Body::Answer {
        master: number_16(master)?,
        addr: addr(about)?,
        down: says(down, "down", "up")?,
        leader: maybe_id(leader)?,
        epoch,
    })
}

/// The answer to a PING, which begins with `+` or `-`.
fn ping_text(word: &[u8]) -> Result<Body, Unplayed>
    ensures within { IfOk result IsWithinBody }
    ensures epochs { IfOk result AnswersWithin }
    ensures writable { IfOk result IsWritable }
{
    let [mark, line @ ..] = word else {
        return Err(Unplayed::WrongWords);
    };
    let Some(text) = ShortText::from_slice(line) else {
        return Err(Unplayed::WrongWords);
    };
    if !is_line(text.as_slice()) {
        return Err(Unplayed::OutOfRange);
    }
    Ok(Body::PingText {
        is_error: says(&[*mark], "-", "+")?,
        text,
    })
}

/// The INFO of these bytes.
fn info(bytes: &[u8]) -> Result<Body, Unplayed>
    ensures within { IfOk result IsWithinBody }
    ensures epochs { IfOk result AnswersWithin }
    ensures writable { IfOk result IsWritable }
{
    match read_info(bytes) {
        Ok(info) if infos::can_be_written(&info) => Ok(Body::InfoText(info)),
        _ => Err(Unplayed::WrongWords),
    }
}

/// The hello of these bytes.
fn hello(bytes: &[u8]) -> Result<Hello, Unplayed>
    ensures { IfOk result IsHello }
{
    match read_hello(bytes) {
        Ok(hello) => Ok(hello),
        Err(_) => Err(Unplayed::WrongWords),
    }
}

/// The configuration of a master with a number: its epoch and address.
fn shown(words: &[Vec<u8>]) -> Result<Shown, Unplayed>
    ensures { IfOk result HasEpochWithin }
{
    let [master, epoch, at] = words else {
        return Err(Unplayed::WrongWords);
    };
    let epoch = number(epoch)?;
    if epoch > MAX_EPOCH {
        return Err(Unplayed::OutOfRange);
    }
    Ok(Shown {
        master: number_16(master)?,
        card: Card {
            epoch,
            addr: addr(at)?,
        },
    })
}

/// The answer of a port with these bytes, which shows no configuration or one.
fn port_reply(alloc: Global, bytes: &[u8], words: &[Vec<u8>]) -> Result<Body, Unplayed>
    ensures within { IfOk result IsWithinBody }
    ensures epochs { IfOk result AnswersWithin }
    ensures writable { IfOk result IsWritable }
{
    let mut list = Vec::new(alloc);
    if !words.is_empty() {
        list.push(shown(words)?)?;
    }
    Ok(Body::PortReply {
        shown: ShownList::from_vec(list),
        text: Text::from_slice(alloc, bytes)?,
    })
}

/// The role of a master, or of a replica of the one at an address, with an offset.
fn role(words: &[Vec<u8>]) -> Result<Body, Unplayed>
    ensures within { IfOk result IsWithinBody }
    ensures epochs { IfOk result AnswersWithin }
    ensures writable { IfOk result IsWritable }
{
    let role = match words {
        [offset] => Role::Master {
            offset: number(offset)?,
        },
        [at, offset] => Role::Replica {
            addr: addr(at)?,
            offset: number(offset)?,
        },
        _ => return Err(Unplayed::WrongWords),
    };
    if !roles::can_be_written(&role) {
        return Err(Unplayed::OutOfRange);
    }
    Ok(Body::RoleText(role))
}

/// What a message says: the kind of it, and what goes with that.
pub(crate) fn body(alloc: Global, words: &[Vec<u8>]) -> Result<Body, Unplayed>
    ensures within { IfOk result IsWithinBody }
    ensures epochs { IfOk result AnswersWithin }
    ensures writable { IfOk result IsWritable }
{
    let [kind, words @ ..] = words else {
        return Err(Unplayed::WrongWords);
    };
    match (text(kind)?, words) {
        ("Ask", words) => ask(words),
        ("Answer", words) => answer(words),
        ("Ping", []) => Ok(Body::Ping),
        ("PingText", [line]) => ping_text(line),
        ("InfoAsk", []) => Ok(Body::InfoAsk),
        ("InfoText", [bytes]) => info(bytes),
        ("Publish", [bytes]) => Ok(Body::Publish(hello(bytes)?)),
        ("HelloText", [bytes]) => Ok(Body::HelloText(hello(bytes)?)),
        ("ReplicaOf", [master]) => Ok(Body::ReplicaOf(maybe_addr(master)?)),
        ("AddressAsk", [name]) => match Name::from_slice(name) {
            Some(name) => Ok(Body::AddressAsk(name)),
            None => Err(Unplayed::WrongWords),
        },
        ("AddressAnswer", []) => Ok(Body::AddressAnswer(None)),
        ("AddressAnswer", words) => Ok(Body::AddressAnswer(Some(shown(words)?))),
        ("PortReply", [bytes, words @ ..]) => port_reply(alloc, bytes, words),
        ("RoleAsk", []) => Ok(Body::RoleAsk),
        ("RoleText", words) => role(words),
        ("Done", []) => Ok(Body::Done),
        _ => Err(Unplayed::WrongWords),
    }
}
