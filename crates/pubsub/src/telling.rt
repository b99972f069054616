//! What a connection is told of an event.

ghost use Rattle.std.specs.Prelude.{◌≡◌, ◌++◌, OnOk};
ghost use Rattle.std.specs.List.{list_any};
ghost use Rattle.pubsub.specs.Globs.{matches};
ghost use Rattle.resp2.specs.Framing.Frame.{bulk, spelling, spellings};
ghost use Rattle.pubsub.specs.Telling.{message, pattern_message, told_for};

use crate::name::Name;
use ballot_law::NoMemory;
use resp2::{OutText, push_bulk};

/// Adds two words after a text.
fn add_two(out: &mut OutText, front: &[u8], one: &[u8], two: &[u8]) -> Result<(), NoMemory>
    ensures { OnOk result (out.new ≡ out.old ++ (front.now ++ (spelling (bulk one.now) ++ spelling (bulk two.now)))) }
{
    out.add(front)?;
    push_bulk(out, one)?;
    push_bulk(out, two)
}

/// Adds three words after a text.
fn add_three(
    out: &mut OutText,
    front: &[u8],
    one: &[u8],
    two: &[u8],
    three: &[u8],
) -> Result<(), NoMemory>
    ensures { OnOk result (out.new ≡ out.old ++ (front.now ++ (spelling (bulk one.now) ++ (spelling (bulk two.now) ++ spelling (bulk three.now))))) }
{
    add_two(out, front, one, two)?;
    push_bulk(out, three)
}

/// Adds what is told on a channel.
pub(crate) fn add_message(out: &mut OutText, channel: &[u8], text: &[u8]) -> Result<(), NoMemory>
    ensures { OnOk result (out.new ≡ out.old ++ spelling (message channel.now text.now)) }
{
    add_two(out, b"*3\r\n$7\r\nmessage\r\n", channel, text)
}

/// Adds what is told for a pattern.
fn add_pattern_message(
    out: &mut OutText,
    pattern: &[u8],
    channel: &[u8],
    text: &[u8],
) -> Result<(), NoMemory>
    ensures { OnOk result (out.new ≡ out.old ++ spelling (pattern_message pattern.now channel.now text.now)) }
{
    add_three(out, b"*4\r\n$8\r\npmessage\r\n", pattern, channel, text)
}

/// Adds what is told for each pattern that matches the channel.
pub(crate) fn add_for_patterns(
    out: &mut OutText,
    patterns: &[Name],
    channel: &[u8],
    text: &[u8],
) -> Result<(), NoMemory>
    ensures { OnOk result (out.new ≡ out.old ++ spellings (told_for patterns.now channel.now text.now)) }
{
    let mut rest = patterns;
    while let [pattern, more @ ..] = rest {
        if pattern.is_match(channel) {
            add_pattern_message(out, pattern.as_slice(), channel, text)?;
        }
        rest = more;
    }
    Ok(())
}

/// Whether one of the patterns matches the channel.
pub(crate) fn is_matched(patterns: &[Name], channel: &[u8]) -> bool
    ensures { result ≡ list_any (λ pattern. matches pattern channel.now) patterns.now }
{
    let mut rest = patterns;
    while let [pattern, more @ ..] = rest {
        if pattern.is_match(channel) {
            return true;
        }
        rest = more;
    }
    false
}
