//! What is told of a file, line by line, though it is no fault.

ghost use Rattle.std.specs.Prelude.{◌≡◌, ◌++◌, IfOk, OnOk};
ghost use Rattle.ballot_law.specs.Cuts.{lines};
ghost use Rattle.ballot_law.specs.Words.{lower};
ghost use Rattle.conf_check.specs.Warnings.Advices.{among, kept_advice, nearest_directive, line_advice, at_line, advices};

use crate::warnings::nearest::nearest;
use crate::warnings::spelled_names::first_name;
use ballot_law::Name;
use conf_lines::{Line, Setting, StateLine};
use sentinel_conf::{Directives, ReadLine, is_listed, lowered};
use std::alloc::{AllocError, Global};

/// The least `down-after-milliseconds` at which a group whose nodes are well fails over to none: each node is asked
/// once a second.
pub const DOWN_AFTER_MIN: u64 = 2_000;

/// What is told of a line.
#[derive(Clone, Copy, PartialEq, Eq)]
pub enum AdviceKind {
    /// No Redis knows the directive.
    UnknownDirective,
    /// A Redis knows the directive, and here it has no effect, but where it counts for `watch` alone.
    NoEffect,
    /// The quorum of a master is above the number of Sentinels.
    QuorumOutOfReach(u32),
    /// A node is taken to be down after less than `DOWN_AFTER_MIN` milliseconds.
    ShortDownAfter(u64),
}

/// What is told of a line, with its number, the first being 1.
#[derive(Clone, Copy, PartialEq, Eq)]
pub struct Advice {
    pub line: u64,
    pub kind: AdviceKind,
}

/// What is told of a directive of this name, where these are known.
fn among(alloc: Global, table: &[u8], name: &[u8]) -> Result<AdviceKind, AllocError>
    ensures { IfOk result (λ kind. kind ≡ among (lines table.now) (lower name.now)) }
{
    if is_listed(table, &lowered(alloc, name)?) {
        return Ok(AdviceKind::NoEffect);
    }
    Ok(AdviceKind::UnknownDirective)
}

/// What is told of a line that has no effect: nothing of a comment or an empty line.
fn kept_advice(
    alloc: Global,
    known: &Directives,
    text: &[u8],
) -> Result<Option<AdviceKind>, AllocError>
    ensures { IfOk result (λ advice. advice
        ≡ kept_advice (lines known.now.first.now) (lines known.now.sentinel.now) text.now) }
{
    let (name, behind) = first_name(text);
    if name.is_empty() || name[0] == b'#' {
        return Ok(None);
    }
    if name.eq_ignore_ascii_case(b"sentinel") {
        let (name, _) = first_name(behind);
        return Ok(Some(among(alloc, known.sentinel, name)?));
    }
    Ok(Some(among(alloc, known.first, name)?))
}

/// The directive that is nearest to that of a line, of those that may stand at its place, where one is near: at most
/// three edits away, and at most half of the name's length. AllocError: memory was refused.
pub fn nearest_directive(
    alloc: Global,
    known: &Directives,
    text: &[u8],
) -> Result<Option<Name>, AllocError>
    ensures { IfOk result (λ found. found
        ≡ nearest_directive (lines known.now.first.now) (lines known.now.sentinel.now) text.now) }
{
    let (name, behind) = first_name(text);
    if name.eq_ignore_ascii_case(b"sentinel") {
        let (name, _) = first_name(behind);
        let word = lowered(alloc, name)?;
        return nearest(alloc, known.sentinel, &word);
    }
    let word = lowered(alloc, name)?;
    nearest(alloc, known.first, &word)
}

/// What is told of a line of a file of a group of `sentinels` Sentinels.
fn line_advice(
    alloc: Global,
    known: &Directives,
    sentinels: u64,
    line: &ReadLine<'_>,
) -> Result<Option<AdviceKind>, AllocError>
    ensures { IfOk result (λ advice. advice
        ≡ line_advice (lines known.now.first.now) (lines known.now.sentinel.now) sentinels line.now) }
{
    match *line.line() {
        Line::Kept => kept_advice(alloc, known, line.text()),
        Line::State(StateLine::Monitor { quorum, .. }) if u64::from(quorum) > sentinels => {
            Ok(Some(AdviceKind::QuorumOutOfReach(quorum)))
        }
        Line::Setting(Setting::DownAfter { ms, .. }) if ms < DOWN_AFTER_MIN => {
            Ok(Some(AdviceKind::ShortDownAfter(ms)))
        }
        Line::State(_) | Line::Setting(_) | Line::Faulty(_) => Ok(None),
    }
}

/// Adds what is told of the line with this number.
fn add_at(list: &mut Vec<Advice>, line: u64, found: Option<AdviceKind>) -> Result<(), AllocError>
    ensures { OnOk result (list.new.items ≡ list.old.items ++ at_line line found) }
{
    if let Some(kind) = found {
        list.push(Advice { line, kind })?;
    }
    Ok(())
}

/// What is told of the file with these lines, in their order, in a group of `sentinels` Sentinels. It is no
/// fault: the file is read all the same. AllocError: memory was refused.
pub fn advices(
    alloc: Global,
    known: &Directives,
    sentinels: u64,
    file: &[ReadLine<'_>],
) -> Result<Vec<Advice>, AllocError>
    ensures { IfOk result (λ list. list.items
        ≡ advices (lines known.now.first.now) (lines known.now.sentinel.now) sentinels file.now) }
{
    let mut list = Vec::new(alloc);
    let mut number: u64 = 1;
    let mut rest = file;
    while let [line, more @ ..] = rest {
        add_at(
            &mut list,
            number,
            line_advice(alloc, known, sentinels, line)?,
        )?;
        number += 1;
        rest = more;
    }
    Ok(list)
}
