//! All faults of the lines of a file.

ghost use Rattle.std.specs.Prelude.{◌≡◌, ◌∷◌, ◌++◌, [], List, ℕ, IfOk, OnOk, map};
ghost use Rattle.std.specs.List.{filter_map};
ghost use Rattle.conf_lines.specs.Lines.{line_of};
ghost use Rattle.conf_lines.specs.Values.{my_id_of, name_of};
ghost use Rattle.sentinel_conf.specs.Meaning.{states, first_given};
ghost use Rattle.sentinel_conf.specs.Reading.{at_line, line_fault};
ghost use Rattle.sentinel_conf.specs.RefusedNames.{refused_name};
ghost use Rattle.sentinel_conf.specs.AllFaults.{line_faults, unknown_faults, id_faults, faults_in};

use crate::file_lines::{line_fault, unknown_fault};
use crate::meaning::{my_id, names_given};
use crate::read_line::ReadLine;
use crate::refused_names::add_refused_names;
use ballot_law::{Name, NoMemory};
use conf_lines::{ConfFault, ConfKind, Line, StateLine};
use std::alloc::{AllocError, Global};

/// Adds the fault of the line with this number.
fn add_at(faults: &mut Vec<ConfFault>, line: u64, found: Option<ConfKind>) -> Result<(), AllocError>
    ensures { OnOk result (faults.new.items ≡ faults.old.items ++ at_line line found) }
{
    if let Some(kind) = found {
        faults.push(ConfFault { line, kind })?;
    }
    Ok(())
}

/// What the state lines of a file say, in order, and the faults of its lines.
#[derive(Drop)]
pub struct Judged {
    pub states: Vec<StateLine>,
    pub faults: Vec<ConfFault>,
}

impl Judged {
    /// Adds a line, which has this number.
    fn add(&mut self, number: u64, line: &Line) -> Result<(), AllocError>
        ensures states { OnOk result
            (self.new.states.items ≡ self.old.states.items ++ states (line.now ∷ [])) }
        ensures faults { OnOk result (self.new.faults.items
            ≡ self.old.faults.items ++ at_line number (line_fault self.old.states.items line.now)) }
    {
        add_at(&mut self.faults, number, line_fault(&self.states, line))?;
        if let Line::State(state) = line {
            self.states.push(*state)?;
        }
        Ok(())
    }
}

/// What the state lines say, and the fault of each line by itself.
fn judge_each(alloc: Global, lines: &[ReadLine<'_>]) -> Result<Judged, AllocError>
    ensures states { IfOk result (λ it. it.states.items ≡ states (map line_of lines.now)) }
    ensures faults { IfOk result (λ it. it.faults.items ≡ line_faults (map line_of lines.now)) }
{
    let mut judged = Judged {
        states: Vec::new(alloc),
        faults: Vec::new(alloc),
    };
    let mut number: u64 = 1;
    let mut rest = lines;
    while let [line, more @ ..] = rest {
        judged.add(number, line.line())?;
        number += 1;
        rest = more;
    }
    Ok(judged)
}

/// Adds each line that speaks of a master that isn't among these.
fn add_unknown(
    faults: &mut Vec<ConfFault>,
    lines: &[ReadLine<'_>],
    names: &[Name],
) -> Result<(), AllocError>
    ensures { OnOk result (faults.new.items
        ≡ faults.old.items ++ unknown_faults names.now 1 (map line_of lines.now)) }
{
    let mut number: u64 = 1;
    let mut rest = lines;
    while let [line, more @ ..] = rest {
        add_at(faults, number, unknown_fault(names, line.line()))?;
        number += 1;
        rest = more;
    }
    Ok(())
}

/// Adds that no line names the own run id.
fn add_missing_id(faults: &mut Vec<ConfFault>, states: &[StateLine]) -> Result<(), AllocError>
    ensures { OnOk result
        (faults.new.items ≡ faults.old.items ++ id_faults (first_given my_id_of states.now)) }
{
    if my_id(states).is_none() {
        faults.push(ConfFault::of_file(ConfKind::NoMyId))?;
    }
    Ok(())
}

/// The names that these state lines give, and then those of the monitor lines that are at fault.
fn names_in(
    alloc: Global,
    states: &[StateLine],
    lines: &[ReadLine<'_>],
) -> Result<Vec<Name>, NoMemory>
    ensures { IfOk result (λ names. names.items
        ≡ filter_map name_of states.now ++ filter_map refused_name lines.now) }
{
    let mut names = names_given(alloc, states)?;
    add_refused_names(alloc, &mut names, lines)?;
    Ok(names)
}

/// What the state lines say, and all faults of the lines.
pub fn judge(alloc: Global, lines: &[ReadLine<'_>]) -> Result<Judged, NoMemory>
    ensures states { IfOk result (λ it. it.states.items ≡ states (map line_of lines.now)) }
    ensures faults { IfOk result (λ it. it.faults.items ≡ faults_in lines.now) }
{
    let mut judged = judge_each(alloc, lines)?;
    let names = names_in(alloc, &judged.states, lines)?;
    add_unknown(&mut judged.faults, lines, &names)?;
    add_missing_id(&mut judged.faults, &judged.states)?;
    Ok(judged)
}

/// All faults of the lines of a file, in the order in which they are judged: that of each line by itself, then each
/// line that speaks of a master that isn't named, also by no `sentinel monitor` line that is at fault, then that there
/// is no run id. `read` refuses a file by the first. NoMemory: memory was refused.
pub fn faults_in(alloc: Global, lines: &[ReadLine<'_>]) -> Result<Vec<ConfFault>, NoMemory>
    ensures { IfOk result (λ list. list.items ≡ faults_in lines.now) }
{
    Ok(judge(alloc, lines)?.faults)
}
