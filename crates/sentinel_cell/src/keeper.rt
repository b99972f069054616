//! The Sentinel with its store, and one turn of it.

ghost use Rattle.std.specs.Prelude.{◌≡◌, ◌≢◌, ◌<◌, ◌++◌, ℕ, [], drop, length, None, Some};
ghost use Rattle.ballot_law.specs.Ballots.{card_of};
ghost use Rattle.sentinel_rules.specs.Changes.{IsSameOrNewer};
ghost use Rattle.ballot_law.specs.Limits.{IsWithinEvent};
ghost use Rattle.sentinel_rules.specs.Plans.{addr_at, master_count};
ghost use Rattle.sentinel_conf.specs.Rewritten.{IsKeptPart};
ghost use Rattle.sentinel_outbox.specs.Outboxes.{Fits, room_of_sentinel};
ghost use Rattle.sentinel_core.specs.Sentinels.{IsWhole};
ghost use Rattle.sentinel_cell.specs.Histories.{World, IsLeft, IsStep, after, entry_of};
ghost use Rattle.sentinel_cell.specs.Turns.{unpacked};

use crate::entry::Outcome;
use crate::observer::Observer;
use crate::word::word_of;
use ballot_law::Input;
use sentinel_conf::ConfStore;
use sentinel_core::Sentinel;
use sentinel_outbox::Outbox;
use sentinel_rules::law_inputs_change_one_card;

/// A Sentinel and the store of its file, as they are handed in and back.
#[derive(Drop)]
pub struct Keeper<S> {
    pub sentinel: Sentinel,
    pub store: S,
}

/// The word of a master's stored configuration.
pub(crate) fn stored_word(sentinel: &Sentinel, m: u16) -> u64
    requires whole { IsWhole sentinel.now }
    requires kept { IsKeptPart sentinel.now.plan.conf sentinel.now.stored }
    requires master { m < master_count sentinel.now.plan }
    ensures { unpacked (addr_at sentinel.now.plan) m result ≡ card_of sentinel.now.stored m }
{
    let card = sentinel.address_now(m).unwrap();
    word_of(sentinel.roster(), m, card)
}

impl<S: ConfStore> Keeper<S> {
    /// One input: it is taken, stored, and its outputs are shown. Then the observer looks. A halted Sentinel takes
    /// none.
    pub(crate) fn turn<O: Observer>(
        &mut self,
        input: &Input,
        outbox: &mut Outbox,
        observer: &mut O,
    ) -> Outcome
        requires left { (w : World) × IsLeft S.held S.failure_count w self.old }
        requires room { Fits outbox.old room_of_sentinel }
        requires within { IsWithinEvent input.now.event }
        ensures step { (w : World) (number : ℕ) → IsLeft S.held S.failure_count w self.old
            → let e = entry_of number input.entry.now result (length outbox.old.shown) outbox.new.shown (S.failure_count self.new.store)
            in IsStep w e × IsLeft S.held S.failure_count (after w e) self.new }
        ensures newer { (m : ℕ) → IsSameOrNewer (card_of self.old.sentinel.stored m) (card_of self.new.sentinel.stored m) }
        ensures others { (m : ℕ) → self.new.sentinel.change ≢ Some m → card_of self.new.sentinel.stored m ≡ card_of self.old.sentinel.stored m }
        ensures shown { outbox.new.shown ≡ outbox.old.shown ++ drop (length outbox.old.shown) outbox.new.shown }
        ensures held { outbox.new.held ≡ [] }
    {
        law_inputs_change_one_card();
        self.sentinel.is_whole();
        let Ok(_) = self.sentinel.take(input, outbox) else {
            return Outcome::Halted;
        };
        self.sentinel.is_whole();
        if self.sentinel.store(&mut self.store).is_err() {
            outbox.drop_held();
            return Outcome::Refused;
        }
        let Ok(()) = self.sentinel.release(outbox) else {
            unreachable!()
        };
        observer.observe(&self.sentinel);
        Outcome::Stored
    }

    /// The master whose configuration the last input changed, else the first one, and the word of its stored
    /// configuration.
    pub(crate) fn news(&self) -> (u16, u64)
        requires { (w : World) × IsLeft S.held S.failure_count w self.now }
        ensures known { result.0 < master_count self.now.sentinel.plan }
        ensures word { unpacked (addr_at self.now.sentinel.plan) result.0 result.1 ≡ card_of self.now.sentinel.stored result.0 }
        ensures others { (m : ℕ) → m ≢ result.0 → self.now.sentinel.change ≢ Some m }
    {
        self.sentinel.is_whole();
        let m = match self.sentinel.card_change() {
            Some(m) => m,
            None => 0,
        };
        (m, stored_word(&self.sentinel, m))
    }
}
