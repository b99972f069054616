//! By which rules a Sentinel works.

ghost use Rattle.std.specs.Prelude.{◌≡◌};
ghost use Rattle.sentinel_rules.specs.Profiles.{is_redis};

/// The rules of a Sentinel, where those of Redis's own program differ from the strict ones. A profile is a part of a
/// plan: it never changes while the Sentinel runs.
#[derive(Clone, Copy, PartialEq, Eq)]
pub enum Profile {
    /// The rules that the documentation of Redis Sentinel gives, and no others.
    Strict,
    /// The strict rules, and beside them those of Redis's own program where operators feel them, and shorter waits
    /// after a failover that failed. Whom a Sentinel votes for, what elects one, and which configuration is taken is
    /// the same.
    Redis,
}

impl Profile {
    /// Whether it is that of Redis. Then a port answers what client libraries send beside a Sentinel's commands, too.
    pub fn is_redis(self) -> bool
        ensures { result ≡ is_redis self }
    {
        match self {
            Profile::Strict => false,
            Profile::Redis => true,
        }
    }
}
