//! How much may be heard on a connection.

ghost use Rattle.std.specs.Prelude.{◌≡◌, ◌≤◌, ◌<◌, ◌↔◌, ◌+◌, ◌-◌, min, IsTrue, ◌^◌};

use crate::times::FLOW_MS;

/// How many hellos and answers may come on a connection within `FLOW_MS`. Sixty-four Sentinels publish some forty
/// hellos in that time; a node that passes on more is shut off for as long.
pub const FLOW_MAX: u64 = 512;

/// How many hellos and answers came on a connection since a reading of the clock in milliseconds.
#[derive(Clone, Copy)]
pub struct RateLimit {
    pub since: u64,
    pub count: u64,
}

impl RateLimit {
    /// Nothing came yet.
    pub fn new() -> RateLimit
        ensures { result ≡ record { since = 0; count = 0 } }
    {
        RateLimit { since: 0, count: 0 }
    }

    /// So many came: whether they are too many, with those that came in the same second.
    pub fn add(&mut self, now: u64, count: u64) -> bool
        ensures many { IsTrue result ↔ (FLOW_MAX < self.new.count) }
        ensures anew { FLOW_MS ≤ now - self.old.since → self.new ≡ record { since = now; count = count } }
        ensures more { now - self.old.since < FLOW_MS → self.new ≡ record { since = self.old.since; count = min (self.old.count + count) (2 ^ 64 - 1) } }
    {
        if now.saturating_sub(self.since) >= FLOW_MS {
            self.since = now;
            self.count = count;
        } else {
            self.count = self.count.saturating_add(count);
        }
        self.count > FLOW_MAX
    }
}
