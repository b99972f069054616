//! A Sentinel as its port sees it.

ghost use Rattle.std.specs.Prelude.{◌≡◌, ◌<◌, ◌-◌, ◌^◌, ◌⊎◌, ◌++◌, ℕ, List, Option, OnOk, OnErr, IfErr};
ghost use Rattle.ballot_law.specs.declared.cards.Kept.{Kept};
ghost use Rattle.sentinel_core.specs.Serving.Serving.{Holds, phase_after};
ghost use Rattle.sentinel_conf.specs.Rewritten.{IsKeptPart};
ghost use Rattle.sentinel_outbox.specs.Outboxes.{Fits, room_of_sentinel};
ghost use Rattle.sentinel_outbox.specs.declared.phase.Phase.{Phase};
ghost use Rattle.ballot_law.specs.Limits.{IsWithinEvent};
ghost use Rattle.sentinel_rules.specs.Plans.{Plan};
ghost use Rattle.sentinel_rules.specs.States.{Core};
ghost use Rattle.sentinel_rules.specs.Takes.{next};

use crate::serving::fault::ServeFault;
use ballot_law::Input;
use sentinel_conf::ConfStore;
use sentinel_outbox::{Outbox, Phase};

/// A Sentinel as its port sees it: what it does with an input, from taking it to letting out what it has to say.
///
/// Contracts see what doesn't change of it, what it keeps, and how far it has come with its last input.
pub trait PortSentinel {
    ghost plan: { Self → Plan };

    ghost core: { Self → Core };

    ghost phase: { Self → Phase };

    /// Takes an input, stores what it changed, and releases its outputs. The only fault is `Halted`, where the store
    /// was refused: then nothing is released, and the store holds what was kept before or what is kept now.
    ///
    /// Many clauses: a call of the port does three things in one, and each outcome says what it leaves of the Sentinel
    /// and of the store.
    fn carry_out<S: ConfStore>(
        &mut self,
        input: &Input,
        outbox: &mut Outbox,
        store: &mut S,
    ) -> Result<(), ServeFault>
        requires ready { phase self.old ≡ Phase.Ready }
        requires room { Fits outbox.old room_of_sentinel }
        requires within { IsWithinEvent input.now.event }
        requires failures { S.failure_count store.old < 2 ^ 64 - 1 }
        ensures plan { plan self.new ≡ plan self.old }
        ensures core { core self.new ≡ (next (plan self.old) (core self.old) input.entry.now.now input.entry.now.event).core }
        ensures kept { IsKeptPart (plan self.new).conf (core self.new).kept }
        ensures phase { phase self.new ≡ phase_after result }
        ensures shown { OnOk result (outbox.new.shown ≡ outbox.old.shown
            ++ (next (plan self.old) (core self.old) input.entry.now.now input.entry.now.event).outputs) }
        ensures fault { IfErr result (λ fault. fault ≡ ServeFault.Halted) }
        ensures as_many { OnOk result (S.failure_count store.new ≡ S.failure_count store.old) }
        ensures halted { OnErr result (S.failure_count store.old < S.failure_count store.new) }
        ensures stored { OnOk result ((first : Kept) (before : Option (List ℕ)) →
            Holds (plan self.old).conf first before (core self.old).kept (S.held store.old) →
            Holds (plan self.old).conf first before (core self.new).kept (S.held store.new)) }
        ensures refused { OnErr result ((first : Kept) (before : Option (List ℕ)) →
            Holds (plan self.old).conf first before (core self.old).kept (S.held store.old) →
            Holds (plan self.old).conf first before (core self.old).kept (S.held store.new)
            ⊎ Holds (plan self.old).conf first before (core self.new).kept (S.held store.new)) };
}
