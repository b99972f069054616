//! What the definitions of the votes come to.

ghost use Rattle.ballot_law.specs.VotesHeard.{ElectedHasVotes, KeepsVotes, LatestIsGreatest, PickHasMost};

/// The vote that counts for a voter was heard from it, has the greatest epoch of its votes, and is the first heard of
/// that epoch; where none counts, none was heard.
pub fn law_latest_is_greatest()
    ensures { LatestIsGreatest }
{}

/// What is kept of each voter is what the list of all votes heard tells, also after a further one.
pub fn law_heard_keeps_the_latest()
    ensures { KeepsVotes }
{}

/// The pick has most votes of the epoch, and the smaller run id on a tie; with no vote it is the one asked for.
pub fn law_pick_has_most()
    ensures { PickHasMost }
{}

/// Whoever is elected has the votes of as many different Sentinels as are needed, each heard or its own.
pub fn law_elected_has_votes()
    ensures { ElectedHasVotes }
{}
