//! Who may show what a Sentinel holds.

ghost use Rattle.std.specs.Prelude.{◌≡◌};
ghost use Rattle.sentinel_outbox.specs.declared.phase.Phase.{Phase};

use crate::phase::Phase;

/// What stores before it shows: as a Sentinel does; who else implements it is believed. An outbox shows what a Sentinel
/// holds to one in `Phase::Stored` alone.
pub trait Stores {
    ghost phase: { Self → Phase };

    /// How far it has come with its last input.
    fn phase(&self) -> Phase
        ensures { result ≡ phase self.now };
}
