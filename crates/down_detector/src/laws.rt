//! What is kept of a node, of the reports of the others and of the clock, in terms of all that was told.

ghost use Rattle.ballot_law.specs.Reports.{KeepsReports, KeepsClearing};
ghost use Rattle.ballot_law.specs.Tilts.{KeepsFirst, KeepsReadings};
ghost use Rattle.ballot_law.specs.Watches.{KeepsOpening, KeepsReplies, KeepsRoles, KeepsChanges, KeepsDown};

/// What is kept of a node is what the list of all calls on its watch tells, from the opening on and after each further
/// call. So it is subjectively down by what is kept if, and only if, it is by all that was heard of it.
pub fn law_watch_keeps_its_calls()
    ensures opening { KeepsOpening }
    ensures replies { KeepsReplies }
    ensures roles { KeepsRoles }
    ensures changes { KeepsChanges }
    ensures down { KeepsDown }
{}

/// What is kept of the reports of the other Sentinels is what the list of all of them tells, also after a further one
/// and after they are cleared.
pub fn law_reports_keep_the_last()
    ensures reports { KeepsReports }
    ensures clearing { KeepsClearing }
{}

/// What is kept of the clock is what the list of all its readings tells, from the opening on and after each further
/// turn.
pub fn law_tilt_keeps_the_last_jump()
    ensures first { KeepsFirst }
    ensures readings { KeepsReadings }
{}
