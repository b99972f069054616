//! Who looks at a Sentinel within a turn.

ghost use Rattle.std.specs.Prelude.{◌≡◌};
ghost use Rattle.sentinel_outbox.specs.declared.phase.Phase.TheVariants.{Ready};

use sentinel_core::Sentinel;

/// Who looks at a shared Sentinel at the end of a turn, once what it took is stored, and before another thread has its
/// turn. The others wait for that, so it takes down what it wants to know and does no more.
pub trait Observer {
    /// Looks at the Sentinel, which has stored all that it keeps.
    fn observe(&mut self, sentinel: &Sentinel)
        requires { sentinel.now.phase ≡ Ready };
}

/// Nobody looks.
#[derive(Drop)]
pub(crate) struct Nobody;

impl Observer for Nobody {
    fn observe(&mut self, _sentinel: &Sentinel) {}
}
