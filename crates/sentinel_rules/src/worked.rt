//! Worked examples: whole runs of one Sentinel, computed by its definitions. `specs/Worked.antt` has their inputs and
//! what they give.

ghost use Rattle.sentinel_rules.specs.Worked.{
  OneVoteAnEpoch,
  QuestionsRaiseNothing,
  NothingOfNobody,
  VoteAfterARestart,
  ShortAnswers,
  InfoInBytes,
  AFailover,
  FailoverGoesOn,
  ATickInFull,
  HelloInBytes,
  VotesOfAnotherEpoch,
  VoteThatWasNotStored,
  NoEpochIsLeft,
  AdoptionEndsAFailover,
  OnlyNewerIsAdopted,
  NothingIsJudgedInTilt,
  AVoteDelaysTheOwnCampaign,
  ReplicasOneByOne,
  AFormerMasterFollows,
  AReplicaOfAnotherFollows,
  ShownInAFailover,
  ASwitchForgetsTheStart,
  ALostCandidateHoldsNobodyBack,
  AGhostGetsNoVote,
  WhoRefusesIsPassedOver,
  APlannedSwitch,
  ASwitchAtTheNodes,
};

/// Votes: one in an epoch, to the first that asks; a question without a candidate raises no epoch; after a restart the
/// vote is known as the file holds it, with its candidate, unless it wasn't stored, and then it is free; a vote for
/// another candidate delays the own campaign.
pub fn law_example_votes()
    ensures one_vote_an_epoch { OneVoteAnEpoch }
    ensures questions_raise_nothing { QuestionsRaiseNothing }
    ensures vote_after_a_restart { VoteAfterARestart }
    ensures vote_that_was_not_stored { VoteThatWasNotStored }
    ensures a_vote_delays_the_own_campaign { AVoteDelaysTheOwnCampaign }
{}

/// The answers to a client: of an address and a name that no master has, the short ones and INFO's, in bytes, and what
/// is shown during a failover.
pub fn law_example_answers()
    ensures nothing_of_nobody { NothingOfNobody }
    ensures short_answers { ShortAnswers }
    ensures info_in_bytes { InfoInBytes }
    ensures shown_in_a_failover { ShownInAFailover }
{}

/// A failover from the first tick to the last, its steps, one of its ticks in full, and its hellos in bytes.
pub fn law_example_failover()
    ensures a_failover { AFailover }
    ensures failover_goes_on { FailoverGoesOn }
    ensures a_tick_in_full { ATickInFull }
    ensures hello_in_bytes { HelloInBytes }
{}

/// Failovers that come to nothing: votes of another epoch, no epoch that is left, a newer configuration, which alone is
/// adopted.
pub fn law_example_no_failover()
    ensures votes_of_another_epoch { VotesOfAnotherEpoch }
    ensures no_epoch_is_left { NoEpochIsLeft }
    ensures adoption_ends_a_failover { AdoptionEndsAFailover }
    ensures only_newer_is_adopted { OnlyNewerIsAdopted }
{}

/// Nodes that are to follow a new master: one at a time, also a former master that comes back, and a replica of it.
pub fn law_example_replicas()
    ensures replicas_one_by_one { ReplicasOneByOne }
    ensures a_former_master_follows { AFormerMasterFollows }
    ensures a_replica_of_another_follows { AReplicaOfAnotherFollows }
{}

/// What the profiles differ in: the last start at a new address, a vote for a candidate that is down, or that no file
/// names, and a replica that refuses to be the master.
pub fn law_example_profiles()
    ensures a_switch_forgets_the_start { ASwitchForgetsTheStart }
    ensures a_lost_candidate_holds_nobody_back { ALostCandidateHoldsNobodyBack }
    ensures a_ghost_gets_no_vote { AGhostGetsNoVote }
    ensures who_refuses_is_passed_over { WhoRefusesIsPassedOver }
{}

/// Switches of a master that is up: one that a client asks for, from the command to the new address, and one that was
/// made at the nodes.
pub fn law_example_switches()
    ensures a_planned_switch { APlannedSwitch }
    ensures a_switch_at_the_nodes { ASwitchAtTheNodes }
{}

/// After a jump of the clock nothing is judged for 30 seconds.
pub fn law_example_tilt()
    ensures { NothingIsJudgedInTilt }
{}
