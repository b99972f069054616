//! The steps of a whole scenario.

ghost use Rattle.std.specs.Prelude.{◌≡◌, ◌⊎◌, ◌++◌, ◌∷◌, [], Ok, Err, All, OnOk, IfErr, IfOk};
ghost use Rattle.ballot_law.specs.Cuts.{lines};
ghost use Rattle.fault_world.specs.Scenarios.Scenarios.{no_memory, scenario, steps_from};
ghost use Rattle.fault_world.specs.Scenarios.Read.{steps_of};
ghost use Rattle.fault_world.specs.Scenarios.Within.{IsWithinStep, IsWithinTold};

use crate::scenarios::faults::{ScenarioFault, ScenarioKind};
use crate::scenarios::lines::line_of;
use crate::scenarios::told::Told;
use ballot_law::Step;
use sentinel_rules::Profile;
use std::alloc::Global;
use std::str;
use tokens::split_line;

/// The fault of a line of this number.
fn fault_at(line: u64, kind: ScenarioKind) -> ScenarioFault
    ensures memory { kind ≡ ScenarioKind.NoMemory → result ≡ no_memory }
    ensures other { (result ≡ no_memory) ⊎ (result ≡ record { line = line; kind = kind }) }
{
    match kind {
        ScenarioKind::NoMemory => ScenarioFault { line: 0, kind },
        kind => ScenarioFault { line, kind },
    }
}

/// Adds a step.
fn add_step(steps: &mut Vec<Step>, step: Step) -> Result<(), ScenarioFault>
    requires within { IsWithinStep step }
    requires before { All IsWithinStep steps.old.items }
    ensures within { OnOk result (All IsWithinStep steps.new.items) }
    ensures added { OnOk result (steps.new.items ≡ steps.old.items ++ step ∷ []) }
    ensures fault { IfErr result (λ fault. fault ≡ no_memory) }
{
    steps.push(step)?;
    Ok(())
}

/// Adds the steps of a line.
fn add(steps: &mut Vec<Step>, told: Told) -> Result<(), ScenarioFault>
    requires within { IsWithinTold told }
    requires before { All IsWithinStep steps.old.items }
    ensures within { OnOk result (All IsWithinStep steps.new.items) }
    ensures added { OnOk result (steps.new.items ≡ steps.old.items ++ steps_of told) }
    ensures fault { IfErr result (λ fault. fault ≡ no_memory) }
{
    match told {
        Told::Nothing => {}
        Told::One(step) => add_step(steps, step)?,
        Told::Two(first, second) => {
            add_step(steps, first)?;
            add_step(steps, second)?;
        }
    }
    Ok(())
}

/// The steps of the lines of a text.
fn steps_of_lines(alloc: Global, text: &[u8], profile: Profile) -> Result<Vec<Step>, ScenarioFault>
    ensures within { IfOk result (λ steps. All IsWithinStep steps.items) }
    ensures steps { IfOk result (λ steps. steps_from profile 1 (lines text.now) ≡ Ok steps.items) }
    ensures fault { IfErr result (λ fault. (fault ≡ no_memory) ⊎ (steps_from profile 1 (lines text.now) ≡ Err fault)) }
{
    let mut steps = Vec::new(alloc);
    let mut number: u64 = 1;
    let mut rest = text;
    while !rest.is_empty() {
        let (line, behind) = split_line(rest);
        match line_of(alloc, line, profile) {
            Ok(told) => add(&mut steps, told)?,
            Err(kind) => return Err(fault_at(number, kind)),
        }
        number += 1;
        rest = behind;
    }
    Ok(steps)
}

/// The steps of a scenario, or its first faulty line with the first fault of that line.
///
/// Lines end with LF, which the last may lack, and are counted from 1; a CR belongs to its word. Two spaces have an
/// empty word between them. Numbers are one or more decimal digits, up to 2^64 - 1, and in `set` up to 2^63 - 1. A node
/// or a master whose number is above 65,535 counts as the one at 65,535. A text that isn't UTF-8 is refused with line
/// 0, and so is a refused allocation, which may stand in place of any other answer.
///
/// The numbers in the steps are within the limits of a group: the epoch of a command, and what a `set` gives.
pub fn read_scenario(alloc: Global, text: &[u8]) -> Result<Vec<Step>, ScenarioFault>
    ensures within { IfOk result (λ steps. All IsWithinStep steps.items) }
    ensures steps { IfOk result (λ steps. scenario Profile.Strict text.now ≡ Ok steps.items) }
    ensures fault { IfErr result (λ fault. (fault ≡ no_memory) ⊎ (scenario Profile.Strict text.now ≡ Err fault)) }
{
    read_scenario_as(alloc, text, Profile::Strict)
}

/// The steps of a scenario that Sentinels of this profile play, as `read_scenario` has them: in that of Redis a
/// `command` may be SENTINEL FAILOVER, too.
pub fn read_scenario_as(
    alloc: Global,
    text: &[u8],
    profile: Profile,
) -> Result<Vec<Step>, ScenarioFault>
    ensures within { IfOk result (λ steps. All IsWithinStep steps.items) }
    ensures steps { IfOk result (λ steps. scenario profile text.now ≡ Ok steps.items) }
    ensures fault { IfErr result (λ fault. (fault ≡ no_memory) ⊎ (scenario profile text.now ≡ Err fault)) }
{
    if let Err(_) = str::from_utf8(text) {
        return Err(ScenarioFault {
            line: 0,
            kind: ScenarioKind::NotUtf8,
        });
    }
    steps_of_lines(alloc, text, profile)
}
