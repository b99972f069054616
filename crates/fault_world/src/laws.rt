//! Laws of runs.

ghost use Rattle.fault_world.specs.Laws.{ReportsJoin};
ghost use Rattle.fault_world.specs.Limits.{ScenariosAreWithin};

/// A run and one that goes on from its end are one run, with the entries of the first and then those of the second.
#[tactic(auto, using(crate::proofs::Joining::reports_join))]
pub fn law_reports_join()
    ensures { ReportsJoin }
{}

/// The numbers of each step that a scenario's line tells are within the limits, so a world runs all that
/// `read_scenario` gives.
#[tactic(auto, using(crate::proofs::Limiting::scenarios_are_within))]
pub fn law_scenarios_are_within()
    ensures { ScenariosAreWithin }
{}
