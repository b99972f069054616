//! How often a Sentinel sends what, and how long it bears what is wrong, in milliseconds.

ghost use Rattle.std.specs.Prelude.{◌≡◌};
ghost use Rattle.sentinel_rules.specs.declared.periods.TheConstants.{ASK_MS, BUSY_INFO_MS, HELLO_MS, HELLO_LATE_MS, INFO_MS, PING_MS, WRONG_ROLE_MS, LINK_MAX_S, LOOKED_MS, HOLD_MS, QUIET_MS, SWITCHED_MS, SWITCH_MS, WISH_MS, HANDED_MS, HEIR_INFO_MS};
ghost use Rattle.ballot_law.specs.declared.periods.TheConstants.{HAND_OVER_MS};
ghost use Rattle.std.specs.Prelude.{◌+◌};
ghost use Rattle.failover_states.specs.declared.periods.TheConstants.{ELECTION_MS, SPREAD_MS};

/// The greatest time between two PINGs; it is shorter where the master's `down-after-milliseconds` is below it.
pub const PING_MS: u64 = 1_000;

/// How often INFO is sent.
pub const INFO_MS: u64 = 10_000;

/// How often INFO is sent to a replica whose master is down or fails over, or whose link was down.
pub const BUSY_INFO_MS: u64 = 1_000;

/// How often a hello is sent.
pub const HELLO_MS: u64 = 2_000;

/// How often a hello is sent while an own campaign awaits votes, in the profile of Redis.
pub const HELLO_LATE_MS: u64 = 4_000;

/// How often the other Sentinels are asked whether a master is down.
pub const ASK_MS: u64 = 1_000;

/// How long a node may say that it is a master though it isn't.
pub const WRONG_ROLE_MS: u64 = 8_000;

/// The greatest time for which the link of a replica counts as having been down where the master hasn't replied since
/// the start, in seconds.
pub const LINK_MAX_S: u64 = 4_294_967_295;

/// The longest time for which a campaign is put off in the profile of Redis: an election's and a pause.
pub const HOLD_MS: u64 = 11_000;

/// How long ago the last reply to a PING came, at least, of a choice that counts as gone where its connection was lost.
pub const QUIET_MS: u64 = 1_000;

/// For how long a master has said that it is a replica, at least, where that is taken for a switch that was made at the
/// nodes: a hello of the other Sentinels' failover has come by then, since it is sent as soon as that is known.
pub const SWITCHED_MS: u64 = 1_000;

/// For how long a switch that was asked for waits for the tick at which its campaign begins; after that it lapses.
pub const WISH_MS: u64 = 3_000;

/// For how long a switch that was asked for may be under way before the master is told to hand over; then it ends.
pub const SWITCH_MS: u64 = 5_000;

/// For how long a failover waits for the choice of a master that was told to hand over, at most.
pub const HANDED_MS: u64 = 2_500;

/// For how long after a vote for another Sentinel a master that is well is looked at as often as the choice of a switch.
pub const LOOKED_MS: u64 = 3_000;

/// How often INFO is sent to that choice.
pub const HEIR_INFO_MS: u64 = 20;

/// The periods of sending, and what is borne, as numbers. Definitions and code cite them by name.
pub fn law_periods()
    ensures ping { PING_MS ≡ 1000 }
    ensures info { INFO_MS ≡ 10000 }
    ensures busy_info { BUSY_INFO_MS ≡ 1000 }
    ensures heir { HEIR_INFO_MS ≡ 20 }
    ensures hello { HELLO_MS ≡ 2000 }
    ensures late { HELLO_LATE_MS ≡ 4000 }
    ensures ask { ASK_MS ≡ 1000 }
    ensures wrong_role { WRONG_ROLE_MS ≡ 8000 }
    ensures link { LINK_MAX_S ≡ 4294967295 }
{}

/// The waits of the profile of Redis as numbers.
pub fn law_waits()
    ensures hold { HOLD_MS ≡ ELECTION_MS + SPREAD_MS }
    ensures quiet { QUIET_MS ≡ 1000 }
    ensures switched { SWITCHED_MS ≡ 1000 }
    ensures wish { WISH_MS ≡ 3000 }
    ensures looked { LOOKED_MS ≡ 3000 }
    ensures switch { SWITCH_MS ≡ 5000 }
    ensures handed { HANDED_MS ≡ HAND_OVER_MS + 500 }
{}
