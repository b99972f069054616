//! How long a failover waits, in milliseconds.

ghost use Rattle.std.specs.Prelude.{◌≡◌};
ghost use Rattle.failover_states.specs.declared.periods.TheConstants.{ELECTION_MS, ORDER_MS, SPREAD_MS};

/// How long votes are awaited at most; less where the setting `failover-timeout` is below it.
pub const ELECTION_MS: u64 = 10_000;

/// How long a replica has to follow the new master before it counts as done.
pub const ORDER_MS: u64 = 10_000;

/// A failover starts up to so much later, by a random number, so that Sentinels don't start together.
pub const SPREAD_MS: u64 = 1_000;

/// These periods as numbers. Definitions and code cite them by name.
pub fn law_periods()
    ensures election { ELECTION_MS ≡ 10000 }
    ensures order { ORDER_MS ≡ 10000 }
    ensures spread { SPREAD_MS ≡ 1000 }
{}
