//! Readings of a clock, in milliseconds.

ghost use Rattle.std.specs.Prelude.{◌≡◌};
ghost use Rattle.ballot_law.specs.Clocks.{clock};

/// A reading above this one, 2^62, counts as this one.
pub const LAST_READING: u64 = 1 << 62;

/// What a reading counts as, in milliseconds.
pub fn clock_of(now: u64) -> u64
    ensures { result ≡ clock now }
{
    now.min(LAST_READING)
}
