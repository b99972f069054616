//! Whether a Sentinel's clock is to be trusted.

ghost use Rattle.std.specs.Prelude.{◌≡◌, ℕ, ◌∷◌, List, [], is_some};
ghost use Rattle.ballot_law.specs.Clocks.{clock};
ghost use Rattle.ballot_law.specs.Tilts.{in_tilt, StandsForReadings, entered_at, opened_clock, turned_at};

use ballot_law::{STEP_MS, TILT_MS, clock_of};
use std::marker::Model;

/// A Sentinel's watch of its own clock: the last reading, and that of the last jump while TILT holds.
#[derive(Clone, Copy, PartialEq, Eq)]
pub struct Tilt {
    last: u64,
    entered: Option<u64>,
}

impl Model for Tilt {
    ghost use Rattle.ballot_law.specs.Tilts.{Turned};

    ghost Value = { Turned };

    ghost view = { λ tilt. record { last = tilt.last; entered = tilt.entered } };

    ghost inverse = { λ turned. record { last = turned.last; entered = turned.entered } };
}

/// The reading of the last jump while TILT holds, after one more turn.
fn entered(before: u64, entered: Option<u64>, now: u64) -> Option<u64>
    ensures { result ≡ entered_at before entered now }
{
    if now < before || now - before > STEP_MS {
        return Some(now);
    }
    match entered {
        Some(jump) if now.saturating_sub(jump) < TILT_MS => Some(jump),
        _ => None,
    }
}

impl Tilt {
    /// A clock that is trusted. The opening counts as a turn.
    pub fn new(now: u64) -> Tilt
        ensures stands { StandsForReadings result (clock now ∷ []) }
        ensures kept { result ≡ opened_clock (clock now) }
    {
        Tilt {
            last: clock_of(now),
            entered: None,
        }
    }

    /// Takes the reading of one more turn, and tells whether TILT holds after it (the Redis Sentinel documentation,
    /// "TILT mode"). A reading below the last one, or more than 2,000 ms above it, is a jump: TILT is entered, or
    /// entered anew. It ends at the first other turn that is 30,000 ms or more above the last jump.
    pub fn turn(&mut self, now: u64) -> bool
        ensures stands { (readings : List ℕ) → StandsForReadings self.old readings
            → StandsForReadings self.new (clock now ∷ readings) }
        ensures tilt { (readings : List ℕ) → StandsForReadings self.old readings
            → result ≡ in_tilt (clock now ∷ readings) }
        ensures kept { self.new ≡ turned_at (clock now) self.old }
        ensures now { result ≡ is_some self.new.entered }
    {
        let now = clock_of(now);
        let jump = entered(self.last, self.entered, now);
        self.last = now;
        self.entered = jump;
        jump.is_some()
    }

    /// Whether TILT held after the last turn. The opening counts as one, and after it TILT doesn't hold.
    pub fn holds(&self) -> bool
        ensures now { result ≡ is_some self.now.entered }
        ensures tilt { (readings : List ℕ) → StandsForReadings self.now readings
            → result ≡ in_tilt readings }
    {
        self.entered.is_some()
    }

    /// The reading of the last jump, while TILT holds after the last turn.
    pub fn since(&self) -> Option<u64>
        ensures { result ≡ self.now.entered }
    {
        self.entered
    }
}
