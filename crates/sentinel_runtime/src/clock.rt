//! The clock of a group.

ghost use Rattle.std.specs.Prelude.{◌≡◌, ◌/◌, None, IfSome};
ghost use Rattle.std.specs.Duration.{as_nanos};
ghost use Rattle.std.specs.Time.{FitsClock, instant_nanos};
ghost use Rattle.ballot_law.specs.Clocks.{clock};

use std::rt::Clock;
use std::time::{Duration, Instant};

/// The greatest reading that a Sentinel tells from a later one, in milliseconds: 146 million years.
const READING_MAX: u64 = 1 << 62;

/// The clock that all threads of a group read.
#[derive(Clone, Copy)]
pub struct GroupClock {
    start: Option<Instant>,
}

impl GroupClock {
    /// A clock that stands at 0 now. Where the system gives no time it stays there.
    pub fn start<R: Clock>(rt: &R) -> GroupClock
        ensures within { IfSome result.start (λ start. FitsClock (instant_nanos start)) }
    {
        GroupClock {
            start: Instant::now(rt).ok(),
        }
    }

    /// How long the group runs. 0 where the system gives no time: a clock that falls puts a Sentinel in TILT.
    pub fn elapsed<R: Clock>(&self, rt: &R) -> Duration
        ensures stopped { self.now.start ≡ None → as_nanos result ≡ 0 }
        ensures within { FitsClock (as_nanos result) }
    {
        let Some(start) = self.start else {
            return Duration::from_millis(0);
        };
        match Instant::now(rt) {
            Ok(now) => now.duration_since(start),
            Err(_) => Duration::from_millis(0),
        }
    }

    /// The milliseconds that the group runs, as the rules of a Sentinel take them: what is above 2^62 counts as 2^62.
    pub fn now<R: Clock>(&self, rt: &R) -> u64
        ensures stopped { self.now.start ≡ None → result ≡ 0 }
        ensures reading { clock result ≡ result }
    {
        millis_of(self.elapsed(rt))
    }
}

/// A duration in milliseconds, as a reading of the clock.
pub(crate) fn millis_of(duration: Duration) -> u64
    ensures value { result ≡ clock (as_nanos duration / 1_000_000) }
    ensures reading { clock result ≡ result }
{
    match u64::try_from(duration.as_millis()) {
        Ok(millis) => millis.min(READING_MAX),
        Err(_) => READING_MAX,
    }
}
