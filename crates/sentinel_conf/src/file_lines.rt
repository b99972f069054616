//! What the lines of a file say, and what is wrong with each of them.

ghost use Rattle.std.specs.Prelude.{◌≡◌, ◌++◌, ◌∷◌, [], List, ℕ, map, None, Some, IfOk, OnOk, Option, MatchOption, if◌then◌else◌};
ghost use Rattle.std.specs.List.{flat_map, list_any};
ghost use Rattle.ballot_law.specs.Orders.{same_bytes};
ghost use Rattle.conf_lines.specs.Lines.{line_of, same_key, state_name, setting_name, spoken_of};
ghost use Rattle.conf_lines.specs.Words.{ended};
ghost use Rattle.sentinel_conf.specs.Meaning.{states, settings, is_kept};
ghost use Rattle.sentinel_conf.specs.Reading.{line_fault, unknown_fault, kept_lines_of};

use crate::read_line::ReadLine;
use ballot_law::{Name, is_same_bytes};
use conf_lines::{ConfKind, Line, Setting, StateLine};
use std::alloc::{AllocError, Global};

/// What the lines of a file say, in order.
#[derive(Drop)]
pub struct FileLines {
    pub states: Vec<StateLine>,
    pub settings: Vec<Setting>,
    /// The lines that a rewrite keeps, each ended by LF.
    pub kept: Vec<u8>,
}

/// The settings of these lines, in order. AllocError: memory was refused.
pub fn settings_given(alloc: Global, lines: &[ReadLine<'_>]) -> Result<Vec<Setting>, AllocError>
    ensures { IfOk result (λ list. list.items ≡ settings (map line_of lines.now)) }
{
    let mut list = Vec::new(alloc);
    let mut rest = lines;
    while let [line, more @ ..] = rest {
        if let Line::Setting(setting) = line.line() {
            list.push(*setting)?;
        }
        rest = more;
    }
    Ok(list)
}

/// Whether a rewrite keeps the line.
fn is_kept(line: &Line) -> bool
    ensures { result ≡ is_kept line.now }
{
    match line {
        Line::State(_) => false,
        Line::Setting(_) | Line::Kept | Line::Faulty(_) => true,
    }
}

/// Adds the line, where a rewrite keeps it.
fn add_kept(kept: &mut Vec<u8>, line: &ReadLine<'_>) -> Result<(), AllocError>
    ensures { OnOk result (kept.new.items
        ≡ kept.old.items ++ (if is_kept (line_of line.now) then ended line.now else [])) }
{
    if is_kept(line.line()) {
        kept.extend_from_slice(line.text())?;
        kept.extend_from_slice(b"\n")?;
    }
    Ok(())
}

/// The lines that a rewrite keeps, each ended by LF.
fn kept_lines(alloc: Global, lines: &[ReadLine<'_>]) -> Result<Vec<u8>, AllocError>
    ensures { IfOk result (λ kept. kept.items ≡ flat_map ended (kept_lines_of lines.now)) }
{
    let mut kept = Vec::new(alloc);
    let mut rest = lines;
    while let [line, more @ ..] = rest {
        add_kept(&mut kept, line)?;
        rest = more;
    }
    Ok(kept)
}

impl FileLines {
    /// What these lines say, whose state lines are these.
    pub fn of(
        alloc: Global,
        lines: &[ReadLine<'_>],
        states: Vec<StateLine>,
    ) -> Result<FileLines, AllocError>
        ensures states { IfOk result (λ file. file.states.items ≡ states.items) }
        ensures settings { IfOk result
            (λ file. file.settings.items ≡ settings (map line_of lines.now)) }
        ensures kept { IfOk result
            (λ file. file.kept.items ≡ flat_map ended (kept_lines_of lines.now)) }
    {
        let settings = settings_given(alloc, lines)?;
        let kept = kept_lines(alloc, lines)?;
        Ok(FileLines {
            states,
            settings,
            kept,
        })
    }
}

/// Whether one of these lines forbids this one.
fn is_twice(earlier: &[StateLine], state: &StateLine) -> bool
    ensures { result ≡ list_any (same_key state.now) earlier.now }
{
    earlier.iter().any(|other| state.has_key_of(other))
}

/// The fault of a line by itself, after these state lines; `None` where it has none.
pub fn line_fault(earlier: &[StateLine], line: &Line) -> Option<ConfKind>
    ensures { result ≡ line_fault earlier.now line.now }
{
    match line {
        Line::Faulty(kind) => Some(*kind),
        Line::State(state) => {
            if is_twice(earlier, state) {
                return Some(ConfKind::Twice);
            }
            None
        }
        Line::Setting(_) => None,
        Line::Kept => None,
    }
}

/// Whether this is one of the names.
fn is_among(names: &[Name], name: &Name) -> bool
    ensures { result ≡ list_any (same_bytes name.now) names.now }
{
    names
        .iter()
        .any(|other| is_same_bytes(name.as_slice(), other.as_slice()))
}

/// The fault of a line that speaks of a master that isn't among these; `None` of any other line. No memory is taken.
pub fn unknown_fault(names: &[Name], line: &Line) -> Option<ConfKind>
    ensures { result ≡ unknown_fault names.now line.now }
{
    match line.master_name() {
        None => None,
        Some(name) => {
            if is_among(names, &name) {
                return None;
            }
            Some(ConfKind::UnknownMaster)
        }
    }
}
