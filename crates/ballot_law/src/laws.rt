//! The laws over every run of a group.

ghost use Rattle.std.specs.Prelude.{◌≡◌, ◌-◌, ◌^◌};
ghost use Rattle.ballot_law.specs.declared.cards.TheConstants.{MAX_EPOCH};
ghost use Rattle.ballot_law.specs.declared.messages.TheConstants.{ANSWER_MAX, OUTPUTS_MAX};
ghost use Rattle.ballot_law.specs.declared.names.TheConstants.{NAME_MAX};
ghost use Rattle.ballot_law.specs.declared.periods.TheConstants.{REPLICA_MS, REPORT_MS, STEP_MS, TILT_MS};
ghost use Rattle.ballot_law.specs.declared.rosters.TheConstants.{MASTERS_MAX, NODES_MAX, SENTINELS_MAX};
ghost use Rattle.ballot_law.specs.Wins.{ElectedMayWin};
ghost use Rattle.ballot_law.specs.Law.{OneLeader, OneAddress, NeverFalls, NeverFallsAlong, RunsJoin, StepsJoin, FailoverHappens};
ghost use Rattle.ballot_law.specs.Refusals.{RefusalsHappen};

/// In every run at most one Sentinel is elected for a master in an epoch, whatever is lost, delayed, repeated, refused,
/// stopped and started ("Configuration epochs" in the Redis Sentinel documentation).
pub fn law_one_leader()
    ensures { OneLeader }
{}

/// In every run two configurations of one master and one epoch that Sentinels showed, at any moments, have one address
/// ("Configuration propagation" in the Redis Sentinel documentation).
pub fn law_one_address()
    ensures { OneAddress }
{}

/// At no step of a run does the epoch of a master's configuration fall in a Sentinel's file, and a Sentinel that is
/// ready for its next input has the configurations of its file ("Sentinel persistent state" in the Redis Sentinel
/// documentation). `each_step` says it of a step after any run, `whole_run` of all steps of one.
pub fn law_never_falls()
    ensures each_step { NeverFalls }
    ensures whole_run { NeverFallsAlong }
{}

/// A run and a run that goes on from its end are one run: of the model's steps, and of lists of `Step`.
pub fn law_runs_join()
    ensures of_moves { RunsJoin }
    ensures of_steps { StepsJoin }
{}

/// The laws speak of something: there is a run of three Sentinels and a data node in which a Sentinel is elected,
/// chooses another address, and another Sentinel then shows that address in the epoch of the election.
pub fn law_failover_happens()
    ensures { FailoverHappens }
{}

/// The model allows what goes wrong in a group: there is a run from a start after votes, with a Sentinel and a data
/// node stopped, in which stores are refused and leave either text, a question of a client comes twice, FLUSHCONFIG is
/// refused, and a Sentinel answers while it stores and while it is halted. What was elected, voted and said in it
/// stands word for word in `specs/Refusals.antt`.
pub fn law_refusals_happen()
    ensures { RefusalsHappen }
{}

/// A Sentinel that counts itself elected, by the votes that it heard and its own, meets the model's condition of a win.
pub fn law_elected_may_win()
    ensures { ElectedMayWin }
{}

/// The limits of a group as numbers. Definitions and code cite them by name: a group of 64 Sentinels, 16 masters, 256
/// data nodes of each, names of 64 bytes, epochs up to 2^48 - 1; an input puts out at most 1,536 outputs and an answer
/// of 262,144 bytes.
pub fn law_limits()
    ensures sentinels { SENTINELS_MAX ≡ 64 }
    ensures masters { MASTERS_MAX ≡ 16 }
    ensures nodes { NODES_MAX ≡ 256 }
    ensures names { NAME_MAX ≡ 64 }
    ensures epochs { MAX_EPOCH ≡ 2 ^ 48 - 1 }
    ensures outputs { OUTPUTS_MAX ≡ 1536 }
    ensures answers { ANSWER_MAX ≡ 262144 }
{}

/// The periods of the down states and of TILT as numbers, in milliseconds. Definitions and code cite them by name.
pub fn law_periods()
    ensures report { REPORT_MS ≡ 5000 }
    ensures replica { REPLICA_MS ≡ 20000 }
    ensures step { STEP_MS ≡ 2000 }
    ensures tilt { TILT_MS ≡ 30000 }
{}
