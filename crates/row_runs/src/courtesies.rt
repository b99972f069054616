//! What a port answers to commands beside a Sentinel's own.

ghost use Rattle.resp2.specs.Framing.Frame.{view, HasLines};

use crate::commands::{array, tell_command, value_of};
use crate::rosters::watching_mymaster;
use crate::told::{Told, Unplayed};
use ballot_law::{Addr, RunId, Text};
use client_commands::{
    ClientEntry, ClientInfo, CommandReader, Courtesy, Figures, PortFacts, Protocol, courtesy_of,
    info,
};
use resp2::{FrameFault, OutText, Value, common_in, write_value};
use std::alloc::Global;

/// A client of the port, with this number, from this port of 127.0.0.1, at this place.
fn client(
    alloc: Global,
    id: u64,
    address: &[u8],
    place: usize,
    channels: u32,
) -> Result<ClientEntry, Unplayed> {
    Ok(ClientEntry {
        id,
        address: Text::from_slice(alloc, address)?,
        local: Text::from_slice(alloc, b"127.0.0.1:26379")?,
        name: Text::from_slice(alloc, b"other")?,
        protocol: Protocol::Two,
        came: 60_000,
        heard: 99_500,
        channels,
        patterns: 0,
        place,
        gone: false,
        kept: false,
    })
}

/// What the port of that connection knows: the connection itself, one that listens to two channels, another one, and
/// one that is gone.
fn port(alloc: Global) -> Result<PortFacts, Unplayed> {
    let figures = Figures {
        process: 4_711,
        run_id: RunId { hi: 1, lo: 2 },
        address: Addr {
            ip: 2_130_706_433,
            port: 26_379,
        },
        clock: 100_000_999,
        connected: 3,
        most: 10_000,
        received: 21,
        rejected: 4,
        commands: 99,
        user_time: 1_207,
        system_time: 30,
    };
    let mut port = PortFacts::of(alloc, figures);
    port.clients
        .push(client(alloc, 21, b"127.0.0.1:50021", 0, 0)?)?;
    port.clients
        .push(client(alloc, 7, b"127.0.0.1:50007", 1, 2)?)?;
    port.clients
        .push(client(alloc, 8, b"127.0.0.1:50008", 2, 0)?)?;
    let mut gone = client(alloc, 9, b"127.0.0.1:50009", 3, 0)?;
    gone.gone = true;
    port.clients.push(gone)?;
    Ok(port)
}

/// A connection with number 21 and this name.
fn asker(alloc: Global, name: &[u8], listens: bool) -> Result<ClientInfo, Unplayed> {
    Ok(ClientInfo {
        id: 21,
        name: Text::from_slice(alloc, name)?,
        protocol: Protocol::Two,
        listens,
        password: None,
        admitted: false,
        current: None,
        port: port(alloc)?,
    })
}

/// The connection with no name at a port whose last client has a seat that is kept for another Sentinel.
fn beside_a_sentinel(alloc: Global) -> Result<ClientInfo, Unplayed> {
    let mut asker = asker(alloc, b"", false)?;
    if let Some(client) = asker.port.clients.get_mut(2) {
        client.kept = true;
    }
    Ok(asker)
}

/// The connection with no name of whose client the password `secret` is wanted; whether the client gave it.
fn locked(alloc: Global, admitted: bool) -> Result<ClientInfo, Unplayed> {
    let mut asker = asker(alloc, b"", false)?;
    asker.password = Some(Text::from_slice(alloc, b"secret")?);
    asker.admitted = admitted;
    Ok(asker)
}

/// Tells what becomes of a value, and the text that goes with it.
fn tell_kind(kind: Courtesy, text: &[u8], told: &mut Told) -> Result<(), Unplayed> {
    match kind {
        Courtesy::Left => told.word("left"),
        Courtesy::Said => told.bytes(text),
        Courtesy::AsksInfo => told.word("asks_info"),
    }
}

/// Tells what becomes of a command of a connection to a Sentinel that watches `mymaster`, whether its client gave the password then that is wanted, and the
/// name that it has.
fn tell(
    alloc: Global,
    asker: &mut ClientInfo,
    words: &[Vec<u8>],
    told: &mut Told,
) -> Result<(), Unplayed> {
    let mut out = OutText::new(alloc);
    let (value, roster) = (array(alloc, words)?, watching_mymaster(alloc)?);
    let kind = courtesy_of(alloc, asker, &value, &roster, &mut out)?;
    tell_kind(kind, out.as_slice(), told)?;
    if asker.password.is_some() && asker.admitted {
        told.word("admitted")?;
    }
    if !asker.protocol.is_two() {
        told.word("speaks-3")?;
    }
    for place in asker.port.killed.as_slice() {
        told.word("killed")?;
        told.number(*place as u64)?;
    }
    if asker.name.as_slice().is_empty() {
        return Ok(());
    }
    told.word("named")?;
    told.bytes(asker.name.as_slice())
}

/// Tells the answer to INFO with these words, where the Sentinel answers with this section.
fn tell_info(
    alloc: Global,
    section: &[u8],
    words: &[Vec<u8>],
    told: &mut Told,
) -> Result<(), Unplayed> {
    let mut out = OutText::new(alloc);
    let known = port(alloc)?;
    info(
        alloc,
        &array(alloc, words)?,
        &known.figures,
        &value_of(alloc, section)?,
        &mut out,
    )?;
    told.bytes(out.as_slice())
}

/// Tells what each of some commands of one connection is answered, each command as a line.
fn tell_each(alloc: Global, lines: &[Vec<u8>], told: &mut Told) -> Result<(), Unplayed> {
    let mut asker = asker(alloc, b"", false)?;
    let roster = watching_mymaster(alloc)?;
    let mut out = OutText::new(alloc);
    for line in lines {
        let mut words = Vec::new(alloc);
        for word in line.as_slice().split(|byte| *byte == b' ') {
            words.push(Vec::from_slice(alloc, word)?)?;
        }
        let value = array(alloc, words.as_slice())?;
        courtesy_of(alloc, &mut asker, &value, &roster, &mut out)?;
        told.bytes(out.as_slice())?;
    }
    Ok(())
}

/// Tells a value by its bytes.
fn tell_value(alloc: Global, value: &Value, told: &mut Told) -> Result<(), Unplayed>
    requires { HasLines (view value.now) }
{
    let mut out = OutText::new(alloc);
    write_value(value, &mut out)?;
    told.bytes(out.as_slice())
}

/// The section of a Sentinel without masters, cut short.
const NO_MASTERS: &[u8] = b"# Sentinel\r\nsentinel_masters:0\r\n";

/// Tells what becomes of a value, one that is left by its bytes; of INFO also its answer, where the Sentinel answers
/// with the section above.
fn tell_one(
    alloc: Global,
    attendant: &mut CommandReader,
    value: &Value,
    told: &mut Told,
) -> Result<(), Unplayed>
    requires { HasLines (view value.now) }
{
    let kind = attendant.attend_to(value, &watching_mymaster(alloc)?)?;
    tell_kind(kind, attendant.text(), told)?;
    match kind {
        Courtesy::Said => Ok(()),
        Courtesy::Left => tell_value(alloc, value, told),
        Courtesy::AsksInfo => {
            let section = Value::Bulk(Text::from_slice(alloc, NO_MASTERS)?);
            attendant.inform(value, &section)?;
            told.bytes(attendant.text())
        }
    }
}

/// Tells what becomes of the values that are whole. Whether the stream goes on.
fn tell_whole(
    alloc: Global,
    attendant: &mut CommandReader,
    told: &mut Told,
) -> Result<bool, Unplayed> {
    for _ in 0..u64::MAX {
        match attendant.next() {
            Ok(Some(value)) => tell_one(alloc, attendant, &value, told)?,
            Ok(None) => return Ok(true),
            Err(FrameFault::NoMemory) => return Err(Unplayed::NoMemory),
            Err(fault) => {
                told.shown(&fault)?;
                return Ok(false);
            }
        }
    }
    Ok(false)
}

/// Tells the commands that come first and are read where they stand.
fn tell_commands(attendant: &mut CommandReader, told: &mut Told) -> Result<(), Unplayed> {
    for _ in 0..u64::MAX {
        match attendant.next_common() {
            Some(command) => tell_command(&command, told)?,
            None => return Ok(()),
        }
    }
    Ok(())
}

/// Tells of each piece the commands that come first and are read where they stand, and the value after them by its
/// bytes.
fn tell_common(
    alloc: Global,
    attendant: &mut CommandReader,
    pieces: &[Vec<u8>],
    told: &mut Told,
) -> Result<(), Unplayed> {
    for piece in pieces {
        if attendant.feed(piece).is_err() {
            return Err(Unplayed::NoMemory);
        }
        tell_commands(attendant, told)?;
        if let Ok(Some(value)) = attendant.next() {
            tell_value(alloc, &value, told)?;
        }
    }
    Ok(())
}

/// Tells the commands with which a piece begins that isn't held, and the bytes behind them.
fn tell_unheld(piece: &[u8], told: &mut Told) -> Result<(), Unplayed> {
    let mut left = piece;
    while let Some((command, rest)) = common_in(left) {
        tell_command(&command, told)?;
        left = rest;
    }
    told.bytes(left)
}

/// Tells what becomes of the values of a stream that comes in these pieces.
fn tell_stream(
    alloc: Global,
    attendant: &mut CommandReader,
    pieces: &[Vec<u8>],
    told: &mut Told,
) -> Result<(), Unplayed> {
    for piece in pieces {
        if let Err(FrameFault::NoMemory) = attendant.feed(piece) {
            return Err(Unplayed::NoMemory);
        }
        if !tell_whole(alloc, attendant, told)? {
            return Ok(());
        }
    }
    Ok(())
}

/// One that attends to a stream of the connection with no name.
fn attendant(alloc: Global) -> Result<CommandReader, Unplayed> {
    Ok(CommandReader::new(alloc, asker(alloc, b"", false)?))
}

/// One that attends to a stream of the connection once it listens.
fn listening(alloc: Global) -> Result<CommandReader, Unplayed> {
    let mut attendant = attendant(alloc)?;
    attendant.note_listening(true);
    Ok(attendant)
}

/// One that attends to a stream of the connection once a password is wanted of its client.
fn demanding(alloc: Global) -> Result<CommandReader, Unplayed> {
    let mut attendant = attendant(alloc)?;
    attendant.want_password(Text::from_slice(alloc, b"secret")?);
    Ok(attendant)
}

/// Tells what comes of a call with these words.
pub(crate) fn play(
    alloc: Global,
    call: &str,
    words: &[Vec<u8>],
    told: &mut Told,
) -> Result<(), Unplayed> {
    match (call, words) {
        ("ask", words) => tell(alloc, &mut asker(alloc, b"", false)?, words, told),
        ("ask_listening", words) => tell(alloc, &mut asker(alloc, b"", true)?, words, told),
        ("ask_locked", words) => tell(alloc, &mut locked(alloc, false)?, words, told),
        ("ask_admitted", words) => tell(alloc, &mut locked(alloc, true)?, words, told),
        ("ask_beside_a_sentinel", words) => tell(
            alloc,
            &mut beside_a_sentinel(alloc)?,
            words,
            told,
        ),
        ("ask_as", [name, words @ ..]) => tell(alloc, &mut asker(alloc, name, false)?, words, told),
        ("info", [section, words @ ..]) => tell_info(alloc, section, words, told),
        ("ask_each", lines) => tell_each(alloc, lines, told),
        ("take_unheld", [piece]) => tell_unheld(piece, told),
        ("take_common", pieces) => tell_common(alloc, &mut attendant(alloc)?, pieces, told),
        ("attend", pieces) => tell_stream(alloc, &mut attendant(alloc)?, pieces, told),
        ("attend_listening", pieces) => tell_stream(alloc, &mut listening(alloc)?, pieces, told),
        ("attend_locked", pieces) => tell_stream(alloc, &mut demanding(alloc)?, pieces, told),
        _ => Err(Unplayed::NoSuchCall),
    }
}
