//! The steps of a scenario.

ghost use Rattle.std.specs.Prelude.{◌≡◌, All, IfOk, Ok};
ghost use Rattle.fault_world.specs.Scenarios.Scenarios.{scenario};
ghost use Rattle.fault_world.specs.Limits.{IsWithinLimits};

use ballot_law::Step;
use fault_world::{ScenarioFault, law_scenarios_are_within, read_scenario_as};
use sentinel_rules::Profile;
use std::alloc::Global;

/// The steps of a scenario that Sentinels of this profile play, which a world can run.
pub(crate) fn steps_of(
    alloc: Global,
    text: &[u8],
    profile: Profile,
) -> Result<Vec<Step>, ScenarioFault>
    ensures limits { IfOk result (λ steps. All IsWithinLimits steps.items) }
    ensures steps { IfOk result (λ steps. scenario profile text.now ≡ Ok steps.items) }
{
    law_scenarios_are_within();
    read_scenario_as(alloc, text, profile)
}
