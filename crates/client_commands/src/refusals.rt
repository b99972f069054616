//! Lines of answers, and refusals in redis-sentinel's words.

ghost use Rattle.std.specs.Prelude.{◌≡◌, ◌++◌, OnOk, map, length, take};
ghost use Rattle.resp2.specs.Framing.Frame.{fault, spelling};
ghost use Rattle.client_commands.specs.Refusals.{is_called, printed_byte, printed, unknown_subcommand, shown_words, unknown_command, no_option, not_while_listening, quote_end};

use ballot_law::{NoMemory, Text};
use resp2::OutText;

/// How many bytes of a word, and of all words after a name, are shown.
const SHOWN_MAX: usize = 128;

/// Whether the word is this name, whatever the case of its letters.
pub(crate) fn is_called(name: &[u8], word: &[u8]) -> bool
    ensures { result ≡ is_called name.now word.now }
{
    word.eq_ignore_ascii_case(name)
}

/// The answer is these bytes.
pub(crate) fn say(out: &mut OutText, bytes: &[u8]) -> Result<(), NoMemory>
    ensures { OnOk result (out.new ≡ bytes.now) }
{
    out.clear();
    out.add(bytes)
}

/// Adds a word between two texts.
fn add_around(out: &mut OutText, before: &[u8], word: &[u8], after: &[u8]) -> Result<(), NoMemory>
    ensures { OnOk result (out.new ≡ out.old ++ (before.now ++ (word.now ++ after.now))) }
{
    out.add(before)?;
    out.add(word)?;
    out.add(after)
}

/// The answer is an error, a word between two texts.
fn say_fault(out: &mut OutText, before: &[u8], word: &[u8], after: &[u8]) -> Result<(), NoMemory>
    ensures { OnOk result (out.new ≡ spelling (fault (before.now ++ (word.now ++ after.now)))) }
{
    say(out, b"-")?;
    add_around(out, before, word, after)?;
    out.add(b"\r\n")
}

/// The byte, or a space for a CR or LF.
pub(crate) fn printed_byte(byte: u8) -> u8
    ensures { result ≡ printed_byte byte }
{
    if byte == b'\r' || byte == b'\n' {
        b' '
    } else {
        byte
    }
}

/// Adds the bytes, with a space for each CR and LF.
fn add_printed(out: &mut OutText, bytes: &[u8]) -> Result<(), NoMemory>
    ensures { OnOk result (out.new ≡ out.old ++ map printed_byte bytes.now) }
{
    let mut rest = bytes;
    while let [byte, more @ ..] = rest {
        out.add(&[printed_byte(*byte)])?;
        rest = more;
    }
    Ok(())
}

/// The first bytes of a word.
fn first_of(word: &[u8], count: usize) -> &[u8]
    ensures { result.now ≡ take count word.now }
{
    &word[..word.len().min(count)]
}

/// Adds the first bytes of a word between two texts.
fn add_shown(
    out: &mut OutText,
    before: &[u8],
    word: &[u8],
    count: usize,
    after: &[u8],
) -> Result<(), NoMemory>
    ensures { OnOk result (out.new ≡ out.old ++ (before.now ++ (printed count word.now ++ after.now))) }
{
    out.add(before)?;
    add_printed(out, first_of(word, count))?;
    out.add(after)
}

/// A connection that listens is told so at the command with this name.
pub(crate) fn refuse_listener(out: &mut OutText, name: &[u8]) -> Result<(), NoMemory>
    ensures { OnOk result (out.new ≡ spelling (not_while_listening name.now)) }
{
    say_fault(
        out,
        b"ERR Can't execute '",
        name,
        b"': only (P|S)SUBSCRIBE / (P|S)UNSUBSCRIBE / PING / QUIT / RESET are allowed in this context",
    )
}

/// No subcommand is called so; `help` names the command that lists them.
pub(crate) fn refuse_subcommand(out: &mut OutText, help: &[u8], word: &[u8]) -> Result<(), NoMemory>
    ensures { OnOk result (out.new ≡ spelling (unknown_subcommand help.now word.now)) }
{
    out.clear();
    add_shown(
        out,
        b"-ERR unknown subcommand '",
        word,
        SHOWN_MAX,
        b"'. Try ",
    )?;
    out.add(help)?;
    out.add(b"\r\n")
}

/// A word that is none of those that are known, after this text; a quote follows.
pub(crate) fn refuse_named(out: &mut OutText, before: &[u8], word: &[u8]) -> Result<(), NoMemory>
    ensures { OnOk result (out.new ≡ before.now ++ (printed (length word.now) word.now ++ quote_end)) }
{
    out.clear();
    add_shown(out, before, word, word.len(), b"'\r\n")
}

/// HELLO has no such option, or not with so few words.
pub(crate) fn refuse_option(out: &mut OutText, word: &[u8]) -> Result<(), NoMemory>
    ensures { OnOk result (out.new ≡ spelling (no_option word.now)) }
{
    out.clear();
    add_shown(
        out,
        b"-ERR Syntax error in HELLO option '",
        word,
        word.len(),
        b"'\r\n",
    )
}

/// Adds words in quotes, as long as those before have fewer than `SHOWN_MAX` bytes.
fn add_words(out: &mut OutText, words: &[Text]) -> Result<(), NoMemory>
    ensures { OnOk result (out.new ≡ out.old ++ shown_words 0 words.now) }
{
    let mut count: usize = 0;
    let mut rest = words;
    while let [word, more @ ..] = rest {
        if count >= SHOWN_MAX {
            return Ok(());
        }
        let left = SHOWN_MAX - count;
        add_shown(out, b"'", word.as_slice(), left, b"' ")?;
        count = count + word.as_slice().len().min(left) + 3;
        rest = more;
    }
    Ok(())
}

/// Adds the first bytes of a name between two texts, and words in quotes.
fn add_named(
    out: &mut OutText,
    before: &[u8],
    name: &[u8],
    after: &[u8],
    words: &[Text],
) -> Result<(), NoMemory>
    ensures { OnOk result (out.new ≡ out.old ++ (before.now ++ (printed 128 name.now ++ (after.now ++ shown_words 0 words.now)))) }
{
    add_shown(out, before, name, SHOWN_MAX, after)?;
    add_words(out, words)
}

/// No command is called so.
pub(crate) fn refuse_command(out: &mut OutText, name: &[u8], words: &[Text]) -> Result<(), NoMemory>
    ensures { OnOk result (out.new ≡ spelling (unknown_command name.now words.now)) }
{
    say(out, b"-")?;
    add_named(
        out,
        b"ERR unknown command '",
        name,
        b"', with args beginning with: ",
        words,
    )?;
    out.add(b"\r\n")
}
