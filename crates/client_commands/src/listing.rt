//! CLIENT LIST and CLIENT INFO.

ghost use Rattle.std.specs.Prelude.{◌≡◌, ◌++◌, ◌∷◌, ◌-◌, ◌/◌, [], ℕ, List, OnOk, Some, None, codes, decimal};
ghost use Rattle.std.specs.List.{list_all};
ghost use Rattle.resp2.specs.Framing.Frame as frames;
ghost use Rattle.resp2.specs.Framing.Frame.{spelling};
ghost use Rattle.client_commands.specs.ClientLines.{labelled, own_or, who, since_when, flags, to_what, own_protocol, uncounted, client_line, client_lines};
ghost use Rattle.client_commands.specs.Courtesies.{is_integer, lines_of, own_line, numbered_line, numbered_lines, listed_by_numbers, listed_by_kind, listed_by, client_list};

use crate::choosing::{Wanted, kind_named};
use crate::client_info::ClientInfo;
use crate::hellos::is_integer;
use crate::port_facts::ClientEntry;
use crate::protocols::Protocol;
use crate::refusals::{is_called, refuse_named, say};
use ballot_law::{NoMemory, Text};
use itoa::Buffer;
use resp2::{OutText, push_bulk};
use std::alloc::Global;
use tokens::canonical_number_of;

const LIST: &[u8] = b"client|list";

const SYNTAX_ERROR: &[u8] = b"-ERR syntax error\r\n";

/// Adds a label and its text.
#[tactic(auto, unfolding(crate::specs::ClientLines::labelled))]
pub(crate) fn add_labelled(out: &mut OutText, label: &[u8], text: &[u8]) -> Result<(), NoMemory>
    ensures { OnOk result (out.new ≡ out.old ++ labelled label.now text.now) }
{
    out.add(label)?;
    out.add(text)
}

/// Adds a label and a number.
pub(crate) fn add_counted(out: &mut OutText, label: &[u8], number: u64) -> Result<(), NoMemory>
    ensures { OnOk result (out.new ≡ out.old ++ labelled label.now (decimal number)) }
{
    let mut buffer = Buffer::new();
    add_labelled(out, label, buffer.format(number).as_bytes())
}

/// What is told of the asker himself, or of another one.
fn own_or<'a>(own: bool, mine: &'a [u8], other: &'a [u8]) -> &'a [u8]
    ensures { result.now ≡ own_or own mine.now other.now }
{
    if own { mine } else { other }
}

/// Adds who it is.
#[tactic(auto, unfolding(crate::specs::ClientLines::who))]
fn add_who(out: &mut OutText, name: &[u8], entry: &ClientEntry) -> Result<(), NoMemory>
    ensures { OnOk result (out.new ≡ out.old ++ who name.now entry.now) }
{
    add_counted(out, b"id=", entry.id())?;
    add_labelled(out, b" addr=", entry.address())?;
    add_labelled(out, b" laddr=", entry.local())?;
    out.add(b" fd=-1")?;
    add_labelled(out, b" name=", name)
}

/// Adds for how many seconds it is there, and since how many nothing came.
#[tactic(auto, unfolding(crate::specs::ClientLines::since_when))]
fn add_since_when(out: &mut OutText, now: u64, entry: &ClientEntry) -> Result<(), NoMemory>
    ensures { OnOk result (out.new ≡ out.old ++ since_when now entry.now) }
{
    add_counted(out, b" age=", now.saturating_sub(entry.came()) / 1000)?;
    add_counted(out, b" idle=", now.saturating_sub(entry.heard()) / 1000)
}

/// What the flags of a client are.
fn flags(listens: bool) -> &'static [u8]
    ensures { result.now ≡ flags listens }
{
    if listens {
        b" flags=P db=0"
    } else {
        b" flags=N db=0"
    }
}

/// Adds to what it listens.
#[tactic(auto, unfolding(crate::specs::ClientLines::to_what))]
fn add_to_what(out: &mut OutText, entry: &ClientEntry) -> Result<(), NoMemory>
    ensures { OnOk result (out.new ≡ out.old ++ to_what entry.now) }
{
    out.add(flags(entry.is_listener()))?;
    add_counted(out, b" sub=", u64::from(entry.channels()))?;
    add_counted(out, b" psub=", u64::from(entry.patterns()))?;
    out.add(b" ssub=0")
}

/// Which protocol the asker himself speaks, or another one.
fn own_protocol(own: bool, mine: Protocol, other: Protocol) -> Protocol
    ensures { result ≡ own_protocol own mine other }
{
    if own { mine } else { other }
}

/// Adds what a port here doesn't count, the last command, and which protocol it speaks.
#[tactic(auto, unfolding(crate::specs::ClientLines::uncounted))]
fn add_uncounted(out: &mut OutText, last: &[u8], speaks: Protocol) -> Result<(), NoMemory>
    ensures { OnOk result (out.new ≡ out.old ++ uncounted last.now speaks) }
{
    out.add(
        b" multi=-1 qbuf=0 qbuf-free=0 argv-mem=0 multi-mem=0 rbs=0 rbp=0 obl=0 oll=0 omem=0 tot-mem=0 events=r",
    )?;
    add_labelled(out, b" cmd=", last)?;
    out.add(b" user=default redir=-1")?;
    add_counted(out, b" resp=", speaks.version())?;
    out.add(b"\n")
}

/// Adds the line of a client, where this one asks by this command.
fn add_line(
    out: &mut OutText,
    asker: &ClientInfo,
    last: &[u8],
    entry: &ClientEntry,
) -> Result<(), NoMemory>
    ensures { OnOk result (out.new ≡ out.old ++ client_line asker.now.id asker.now.name asker.now.protocol last.now asker.now.port.figures.clock entry.now) }
{
    let own = asker.id() == entry.id();
    add_who(out, own_or(own, asker.name(), entry.name()), entry)?;
    add_since_when(out, asker.port().figures().clock, entry)?;
    add_to_what(out, entry)?;
    let speaks = own_protocol(own, asker.protocol(), entry.protocol());
    add_uncounted(out, own_or(own, last, b"NULL"), speaks)
}

/// Adds the lines of the clients that are wanted.
fn add_lines(
    out: &mut OutText,
    asker: &ClientInfo,
    last: &[u8],
    wanted: &Wanted,
) -> Result<(), NoMemory>
    ensures { OnOk result (out.new ≡ out.old ++ lines_of asker.now last.now wanted.now) }
{
    let port = asker.port();
    let mut rest = port.clients();
    while let [entry, more @ ..] = rest {
        if wanted.is_chosen(asker.id(), port.killed(), entry) {
            add_line(out, asker, last, entry)?;
        }
        rest = more;
    }
    Ok(())
}

/// The answer is the lines of the clients that are wanted.
fn say_lines(
    alloc: Global,
    out: &mut OutText,
    asker: &ClientInfo,
    last: &[u8],
    wanted: &Wanted,
) -> Result<(), NoMemory>
    ensures { OnOk result (out.new ≡ spelling (frames.bulk (lines_of asker.now last.now wanted.now))) }
{
    let mut text = OutText::new(alloc);
    add_lines(&mut text, asker, last, wanted)?;
    out.clear();
    push_bulk(out, text.as_slice())
}

/// The answer to CLIENT INFO.
pub(crate) fn own_line(alloc: Global, asker: &ClientInfo, out: &mut OutText) -> Result<(), NoMemory>
    ensures { OnOk result (out.new ≡ spelling (own_line asker.now)) }
{
    say_lines(
        alloc,
        out,
        asker,
        b"client|info",
        &Wanted::with_number(asker.id()),
    )
}

/// Adds the line of the client with the number that the word is, where there is one.
fn add_numbered(out: &mut OutText, asker: &ClientInfo, word: &[u8]) -> Result<(), NoMemory>
    ensures { OnOk result (out.new ≡ out.old ++ numbered_line asker.now word.now) }
{
    match canonical_number_of(word, 1, 9_223_372_036_854_775_807) {
        Some(number) => add_lines(out, asker, LIST, &Wanted::with_number(number)),
        None => Ok(()),
    }
}

/// Adds the lines of the clients with the numbers that the words are.
fn add_each_numbered(out: &mut OutText, asker: &ClientInfo, words: &[Text]) -> Result<(), NoMemory>
    ensures { OnOk result (out.new ≡ out.old ++ numbered_lines asker.now words.now) }
{
    let mut rest = words;
    while let [word, more @ ..] = rest {
        add_numbered(out, asker, word.as_slice())?;
        rest = more;
    }
    Ok(())
}

/// Whether each word is a number.
fn are_integers(words: &[Text]) -> bool
    ensures { result ≡ list_all is_integer words.now }
{
    let mut rest = words;
    while let [word, more @ ..] = rest {
        if !is_integer(word.as_slice()) {
            return false;
        }
        rest = more;
    }
    true
}

/// The answer to CLIENT LIST ID with these words.
fn list_by_numbers(
    alloc: Global,
    asker: &ClientInfo,
    words: &[Text],
    out: &mut OutText,
) -> Result<(), NoMemory>
    ensures { OnOk result (out.new ≡ spelling (listed_by_numbers asker.now words.now)) }
{
    if !are_integers(words) {
        return say(out, b"-ERR Invalid client ID\r\n");
    }
    let mut text = OutText::new(alloc);
    add_each_numbered(&mut text, asker, words)?;
    out.clear();
    push_bulk(out, text.as_slice())
}

/// The answer to CLIENT LIST TYPE with this word.
fn list_by_kind(
    alloc: Global,
    asker: &ClientInfo,
    word: &[u8],
    out: &mut OutText,
) -> Result<(), NoMemory>
    ensures { OnOk result (out.new ≡ spelling (listed_by_kind asker.now word.now)) }
{
    match kind_named(word) {
        Some(kind) => say_lines(alloc, out, asker, LIST, &Wanted::with_kind(kind)),
        None => refuse_named(out, b"-ERR Unknown client type '", word),
    }
}

/// The answer to CLIENT LIST with this option and the words after it.
fn list_by(
    alloc: Global,
    asker: &ClientInfo,
    option: &[u8],
    values: &[Text],
    out: &mut OutText,
) -> Result<(), NoMemory>
    ensures { OnOk result (out.new ≡ spelling (client_list asker.now (option.now ∷ values.now))) }
{
    match values {
        [] => say(out, SYNTAX_ERROR),
        [value, more @ ..] => {
            if is_called(b"id", option) {
                return list_by_numbers(alloc, asker, values, out);
            }
            if is_called(b"type", option) && more.is_empty() {
                return list_by_kind(alloc, asker, value.as_slice(), out);
            }
            say(out, SYNTAX_ERROR)
        }
    }
}

/// The answer to CLIENT LIST without words.
fn list_all(alloc: Global, asker: &ClientInfo, out: &mut OutText) -> Result<(), NoMemory>
    ensures { OnOk result (out.new ≡ spelling (client_list asker.now [])) }
{
    say_lines(alloc, out, asker, LIST, &Wanted::anyone(false))
}

/// The answer to CLIENT LIST with these words.
pub(crate) fn client_list(
    alloc: Global,
    asker: &ClientInfo,
    words: &[Text],
    out: &mut OutText,
) -> Result<(), NoMemory>
    ensures { OnOk result (out.new ≡ spelling (client_list asker.now words.now)) }
{
    match words {
        [] => list_all(alloc, asker, out),
        [option, values @ ..] => list_by(alloc, asker, option.as_slice(), values, out),
    }
}
