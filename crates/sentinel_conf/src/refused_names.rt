//! The masters that a file would name, if its lines `sentinel monitor` were read.

ghost use Rattle.std.specs.Prelude.{◌≡◌, ◌++◌, IfOk, OnOk};
ghost use Rattle.std.specs.List.{filter_map};
ghost use Rattle.ballot_law.specs.Words.{name};
ghost use Rattle.tokens.specs.Quotes.{redis_words};
ghost use Rattle.sentinel_conf.specs.RefusedNames.{begins_monitor, name_behind, monitored, refused_name};

use crate::read_line::ReadLine;
use ballot_law::{Name, NoMemory, Text};
use conf_lines::Line;
use std::alloc::Global;
use tokens::redis_words;

/// The name with these bytes.
#[tactic(auto, using(ballot_law::specs::NameWords::name_is, ballot_law::specs::NameWords::name_not))]
fn name_of(word: &Text) -> Option<Name>
    ensures { result ≡ name word.now }
{
    Name::from_slice(word.as_slice())
}

/// Whether these are the words `sentinel monitor`, but for the case of their ASCII letters.
fn begins_monitor(first: &Text, second: &Text) -> bool
    ensures { result ≡ begins_monitor first.now second.now }
{
    first.as_slice().eq_ignore_ascii_case(b"sentinel")
        && second.as_slice().eq_ignore_ascii_case(b"monitor")
}

/// The name behind `sentinel monitor`.
fn name_behind(words: &[Text]) -> Option<Name>
    ensures { result ≡ name_behind words.now }
{
    match words {
        [first, second, third, ..] if begins_monitor(first, second) => name_of(third),
        _ => None,
    }
}

/// The name behind `sentinel monitor` of a line with this text.
fn monitored(alloc: Global, text: &[u8]) -> Result<Option<Name>, NoMemory>
    ensures { IfOk result (λ found. found ≡ monitored (redis_words text.now)) }
{
    match redis_words(alloc, text)? {
        Some(words) => Ok(name_behind(words.as_slice())),
        None => Ok(None),
    }
}

/// The name behind `sentinel monitor` of a line that is at fault by itself.
fn refused_name(alloc: Global, line: &ReadLine<'_>) -> Result<Option<Name>, NoMemory>
    ensures { IfOk result (λ found. found ≡ refused_name line.now) }
{
    match line.line() {
        Line::Faulty(_) => monitored(alloc, line.text()),
        _ => Ok(None),
    }
}

/// Adds the names behind `sentinel monitor` of the lines that are at fault by themselves.
pub(crate) fn add_refused_names(
    alloc: Global,
    names: &mut Vec<Name>,
    lines: &[ReadLine<'_>],
) -> Result<(), NoMemory>
    ensures { OnOk result (names.new.items ≡ names.old.items ++ filter_map refused_name lines.now) }
{
    let mut rest = lines;
    while let [line, more @ ..] = rest {
        if let Some(name) = refused_name(alloc, line)? {
            names.push(name)?;
        }
        rest = more;
    }
    Ok(())
}
