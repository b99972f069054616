//! What is answered to the subcommands of SENTINEL that a Sentinel's rules don't know.

ghost use Rattle.std.specs.Prelude.{◌≡◌, ◌≤◌, ◌*◌, ◌++◌, ◌∷◌, [], OnOk, IfOk, bytes_eq, length, map, decimal};
ghost use Rattle.std.specs.List.{list_any};
ghost use Rattle.ballot_law.specs.Words.{lower};
ghost use Rattle.resp2.specs.Framing.Frame as frames;
ghost use Rattle.resp2.specs.Framing.Frame.{spelling, spellings, frames_of, line_end};
ghost use Rattle.client_commands.specs.Subcommands.{not_at_runtime, no_trials};
ghost use Rattle.client_commands.specs.Courtesies.{uncached, named_masters, cached, setting, settings, config_get, config, sentinel_told};

use crate::client_info::ClientInfo;
use crate::clients::{add_number, say_none};
use crate::helps::sentinel_help;
use crate::port_facts::Figures;
use crate::refusals::{is_called, say};
use crate::subcommands::Sub;
use ballot_law::{NoMemory, Roster, Text, Watched};
use itoa::Buffer;
use pubsub::is_match;
use resp2::{OutText, push_bulk};
use std::alloc::Global;
use tokens::ip_text;

const ONLY_GET: &[u8] =
    b"-ERR Only SENTINEL CONFIG GET <option> / SET <option> <value> are supported.\r\n";

/// The answer to a command that changes what is said by files.
fn refuse_at_runtime(command: &[u8], out: &mut OutText) -> Result<(), NoMemory>
    ensures { OnOk result (out.new ≡ spelling (not_at_runtime command.now)) }
{
    say(out, b"-ERR SENTINEL ")?;
    out.add(command)?;
    out.add(b" isn't supported: masters, nodes and settings are those of the files, and ")?;
    out.add(b"docs/OPERATING.md says how these are changed\r\n")
}

/// The answer to a command that tries failures.
fn refuse_trial(command: &[u8], out: &mut OutText) -> Result<(), NoMemory>
    ensures { OnOk result (out.new ≡ spelling (no_trials command.now)) }
{
    say(out, b"-ERR SENTINEL ")?;
    out.add(command)?;
    out.add(b" isn't supported: docs/TRYING_IT.md says how failures are tried\r\n")
}

/// Adds that nothing is kept of the INFO of so many data nodes.
#[tactic(auto, using(crate::proofs::Bytes::uncached_none))]
fn add_uncached(out: &mut OutText, nodes: usize) -> Result<(), NoMemory>
    ensures { OnOk result (out.new ≡ out.old ++ spellings (uncached nodes)) }
{
    let mut left = nodes;
    while 0 < left {
        out.add(b"*2\r\n:0\r\n$-1\r\n")?;
        left -= 1;
    }
    Ok(())
}

/// The bytes of what `add_cached` adds.
fn add_cached_bytes(out: &mut OutText, master: &Watched) -> Result<(), NoMemory>
    ensures { OnOk result (out.new ≡ out.old ++ (spelling (frames.bulk master.now.name)
        ++ (42 ∷ ((decimal (length master.now.nodes) ++ line_end) ++ spellings (uncached (length master.now.nodes)))))) }
{
    push_bulk(out, master.name.as_slice())?;
    out.add(b"*")?;
    add_number(out, master.nodes().len() as u64)?;
    add_uncached(out, master.nodes().len())
}

/// Adds the name of a master, and that nothing is kept of the INFO of its data nodes.
fn add_cached(out: &mut OutText, master: &Watched) -> Result<(), NoMemory>
    ensures { OnOk result (out.new ≡ out.old ++ (spelling (frames.bulk master.now.name) ++ spelling (frames.items (uncached (length master.now.nodes))))) }
{
    add_cached_bytes(out, master)
}

/// Whether one of the words is this name.
fn is_named(name: &[u8], words: &[Text]) -> bool
    ensures { result ≡ list_any (bytes_eq name.now) words.now }
{
    let mut rest = words;
    while let [word, more @ ..] = rest {
        if name == word.as_slice() {
            return true;
        }
        rest = more;
    }
    false
}

/// How many masters a word names.
fn count_named(words: &[Text], masters: &[Watched]) -> usize
    ensures value { result ≡ length (named_masters words.now masters.now) }
    ensures within { result ≤ length masters.now }
{
    let mut count = 0;
    let mut rest = masters;
    while let [master, more @ ..] = rest {
        if is_named(master.name.as_slice(), words) {
            count += 1;
        }
        rest = more;
    }
    count
}

/// Adds what is told of each master that a word names.
fn add_each_cached(out: &mut OutText, words: &[Text], masters: &[Watched]) -> Result<(), NoMemory>
    ensures { OnOk result (out.new ≡ out.old ++ spellings (cached (named_masters words.now masters.now))) }
{
    let mut rest = masters;
    while let [master, more @ ..] = rest {
        if is_named(master.name.as_slice(), words) {
            add_cached(out, master)?;
        }
        rest = more;
    }
    Ok(())
}

/// The bytes of what `info_cache` tells.
fn say_cached(out: &mut OutText, words: &[Text], masters: &[Watched]) -> Result<(), NoMemory>
    ensures { OnOk result (out.new ≡ 42 ∷ ((decimal (length (named_masters words.now masters.now) * 2) ++ line_end)
        ++ spellings (cached (named_masters words.now masters.now)))) }
{
    say(out, b"*")?;
    add_number(out, count_named(words, masters) as u64 * 2)?;
    add_each_cached(out, words, masters)
}

/// The answer to SENTINEL INFO-CACHE with these words, where these are the masters: what is kept of the INFO of the
/// data nodes of those that a word names.
fn info_cache(words: &[Text], masters: &[Watched], out: &mut OutText) -> Result<(), NoMemory>
    ensures { OnOk result (out.new ≡ spelling (frames.items (cached (named_masters words.now masters.now)))) }
{
    say_cached(out, words, masters)
}

/// Adds a setting and its value where the pattern matches its name.
fn add_setting(
    alloc: Global,
    told: &mut Vec<Text>,
    pattern: &[u8],
    name: &[u8],
    value: &[u8],
) -> Result<(), NoMemory>
    ensures { OnOk result (told.new.items ≡ told.old.items ++ setting pattern.now name.now value.now) }
{
    if is_match(pattern, name) {
        told.push(Text::from_slice(alloc, name)?)?;
        told.push(Text::from_slice(alloc, value)?)?;
    }
    Ok(())
}

/// The settings whose names the pattern matches, each name before its value.
fn settings(alloc: Global, pattern: &[u8], figures: &Figures) -> Result<Vec<Text>, NoMemory>
    ensures { IfOk result (λ told. told.items ≡ settings pattern.now figures.now) }
{
    let mut port = Buffer::new();
    let ip = ip_text(figures.address.ip);
    let port = port.format(figures.address.port);
    let mut told = Vec::new(alloc);
    add_setting(alloc, &mut told, pattern, b"resolve-hostnames", b"no")?;
    add_setting(alloc, &mut told, pattern, b"announce-hostnames", b"no")?;
    add_setting(alloc, &mut told, pattern, b"announce-ip", ip.as_slice())?;
    add_setting(alloc, &mut told, pattern, b"announce-port", port.as_bytes())?;
    add_setting(alloc, &mut told, pattern, b"sentinel-user", b"")?;
    add_setting(alloc, &mut told, pattern, b"sentinel-pass", b"")?;
    Ok(told)
}

/// The word in lower case.
pub(crate) fn lowered(alloc: Global, word: &[u8]) -> Result<Text, NoMemory>
    ensures { IfOk result (λ lowered. lowered ≡ lower word.now) }
{
    let mut lowered = Vec::new(alloc);
    let mut rest = word;
    while let [byte, more @ ..] = rest {
        lowered.push(byte.to_ascii_lowercase())?;
        rest = more;
    }
    Ok(Text::from_vec(lowered))
}

/// Adds words as bulk strings.
fn add_words(out: &mut OutText, words: &[Text]) -> Result<(), NoMemory>
    ensures { OnOk result (out.new ≡ out.old ++ spellings (frames_of (map frames.bulk words.now))) }
{
    let mut rest = words;
    while let [word, more @ ..] = rest {
        push_bulk(out, word.as_slice())?;
        rest = more;
    }
    Ok(())
}

/// The bytes of the array of these words.
fn say_word_bytes(out: &mut OutText, words: &[Text]) -> Result<(), NoMemory>
    ensures { OnOk result (out.new ≡ 42 ∷ ((decimal (length words.now) ++ line_end) ++ spellings (frames_of (map frames.bulk words.now)))) }
{
    say(out, b"*")?;
    add_number(out, words.len() as u64)?;
    add_words(out, words)
}

/// The answer is the array of these words.
fn say_words(out: &mut OutText, words: &[Text]) -> Result<(), NoMemory>
    ensures { OnOk result (out.new ≡ spelling (frames.items (frames_of (map frames.bulk words.now)))) }
{
    say_word_bytes(out, words)
}

/// The answer is the settings whose names the pattern matches.
fn say_settings(
    alloc: Global,
    pattern: &[u8],
    figures: &Figures,
    out: &mut OutText,
) -> Result<(), NoMemory>
    ensures { OnOk result (out.new ≡ spelling (frames.items (frames_of (map frames.bulk (settings pattern.now figures.now))))) }
{
    let told = settings(alloc, pattern, figures)?;
    say_words(out, told.as_slice())
}

/// The answer to SENTINEL CONFIG GET with this pattern.
fn get_config(
    alloc: Global,
    asker: &ClientInfo,
    pattern: &[u8],
    out: &mut OutText,
) -> Result<(), NoMemory>
    ensures { OnOk result (out.new ≡ spelling (config_get asker.now pattern.now)) }
{
    let pattern = lowered(alloc, pattern)?;
    say_settings(alloc, pattern.as_slice(), asker.port().figures(), out)
}

/// The answer to SENTINEL CONFIG with this mode and this pattern.
fn config_of(
    alloc: Global,
    asker: &ClientInfo,
    mode: &[u8],
    pattern: &[u8],
    out: &mut OutText,
) -> Result<(), NoMemory>
    ensures { OnOk result (out.new ≡ spelling (config asker.now (mode.now ∷ pattern.now ∷ []))) }
{
    if is_called(b"get", mode) {
        return get_config(alloc, asker, pattern, out);
    }
    say(out, ONLY_GET)
}

/// The answer to SENTINEL CONFIG with these words.
fn config(
    alloc: Global,
    asker: &ClientInfo,
    words: &[Text],
    out: &mut OutText,
) -> Result<(), NoMemory>
    ensures { OnOk result (out.new ≡ spelling (config asker.now words.now)) }
{
    match words {
        [mode, pattern] => config_of(alloc, asker, mode.as_slice(), pattern.as_slice(), out),
        [mode, _, _] => {
            if is_called(b"set", mode.as_slice()) {
                return refuse_at_runtime(b"CONFIG SET", out);
            }
            say(out, ONLY_GET)
        }
        _ => say(out, ONLY_GET),
    }
}

/// The answer to a subcommand with these words.
pub(crate) fn sentinel_told(
    alloc: Global,
    asker: &ClientInfo,
    roster: &Roster,
    sub: Sub,
    words: &[Text],
    out: &mut OutText,
) -> Result<(), NoMemory>
    ensures { OnOk result (out.new ≡ spelling (sentinel_told roster.now asker.now sub words.now)) }
{
    match sub {
        Sub::Help => sentinel_help(out),
        Sub::PendingScripts => say_none(out),
        Sub::InfoCache => info_cache(words, roster.masters(), out),
        Sub::Config => config(alloc, asker, words, out),
        Sub::SetOption => refuse_at_runtime(b"SET", out),
        Sub::Monitor => refuse_at_runtime(b"MONITOR", out),
        Sub::Remove => refuse_at_runtime(b"REMOVE", out),
        Sub::Reset => refuse_at_runtime(b"RESET", out),
        Sub::Simulate => refuse_trial(b"SIMULATE-FAILURE", out),
        Sub::Debug => refuse_trial(b"DEBUG", out),
    }
}
