//! Traces: a scenario with what each of its lines caused.

ghost use Rattle.std.specs.Prelude.{IfOk};
ghost use Rattle.fault_world.specs.Shown.{Shown};
ghost use Rattle.fault_world.specs.Standing.{Stands};
ghost use Rattle.fault_world.specs.Laws.{HasBegun};
ghost use Rattle.scenario_replay.specs.Playing.{IsTraced};

use crate::faults::ReplayFault;
use crate::steps::steps_of;
use ballot_law::NoMemory;
use fault_world::{FaultWorld, Report, add_comment, add_message};
use resp2::OutText;
use sentinel_rules::Profile;
use std::alloc::Global;
use tokens::split_line;

/// Adds the messages from this number on as comments, and answers the number of the next one.
fn add_messages(
    alloc: Global,
    text: &mut OutText,
    world: &FaultWorld,
    first: usize,
) -> Result<usize, NoMemory>
    requires { Stands world.now.roster
        (Shown (λ m. (m.node.vtable, m.node.value)) (λ b. name b) (λ b. shows b) world.now.roster world.now.members.items world.now.messages.items) }
{
    for number in first..usize::MAX {
        let Some(message) = world.message(number) else {
            return Ok(number);
        };
        add_message(alloc, text, number, message)?;
    }
    Ok(usize::MAX)
}

/// Adds the lines of a report as comments.
fn add_report(alloc: Global, text: &mut OutText, report: &Report) -> Result<(), NoMemory> {
    let mut lines = OutText::new(alloc);
    report.lines(&mut lines)?;
    let mut rest = lines.as_slice();
    while !rest.is_empty() {
        let (line, behind) = split_line(rest);
        add_comment(text, line)?;
        rest = behind;
    }
    Ok(())
}

/// Plays the scenario of Sentinels of this profile in a world that has begun, line by line, and gives its lines, each
/// with what it caused as comments after it. All that is run so is one run from the start.
pub(crate) fn trace(
    alloc: Global,
    world: &mut FaultWorld,
    scenario: &[u8],
    profile: Profile,
) -> Result<OutText, ReplayFault>
    requires { HasBegun world.old.roster
        (Shown (λ m. (m.node.vtable, m.node.value)) (λ b. name b) (λ b. shows b) world.old.roster world.old.members.items world.old.messages.items) }
    ensures { IfOk result (λ _. IsTraced profile world.old.roster scenario.now
        (Shown (λ m. (m.node.vtable, m.node.value)) (λ b. name b) (λ b. shows b) world.old.roster world.new.members.items world.new.messages.items)) }
{
    let mut text = OutText::new(alloc);
    let mut sent = 0;
    let mut rest = scenario;
    while !rest.is_empty() {
        let (line, behind) = split_line(rest);
        let steps = steps_of(alloc, line, profile)?;
        text.add(line)?;
        text.add(b"\n")?;
        let report = world.run(&steps)?;
        sent = add_messages(alloc, &mut text, world, sent)?;
        add_report(alloc, &mut text, &report)?;
        rest = behind;
    }
    Ok(text)
}
