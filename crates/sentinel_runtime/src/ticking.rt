//! When a Sentinel's ticks are due, and what its threads have it take.

ghost use Rattle.std.specs.Prelude.{◌≡◌, ◌⊎◌, ◌↔◌, ◌<◌, ◌≤◌, ◌+◌, ◌-◌, ◌%◌, ◌++◌, ℕ, List, Some, IfSome, IsTrue, IsOk, IsErrOf};
ghost use Rattle.ballot_law.specs.Clocks.{clock};
ghost use Rattle.ballot_law.specs.Messages.{sent};
ghost use Rattle.ballot_law.specs.declared.messages.Message.{Message};
ghost use Rattle.sentinel_runtime.specs.Hearing.{MayTake};
ghost use Rattle.sentinel_runtime.specs.Running.{input_of, phase_of};
ghost use Rattle.sentinel_runtime.specs.Ticking.{IsDueNext, Ticks, TicksAt, TickTook, Took};
ghost use Rattle.sentinel_rules.specs.Plans.{group_size, master_count};
ghost use Rattle.sentinel_cell.specs.declared.fault.ActFault.{ActFault};
ghost use Rattle.ballot_law.specs.Limits.{IsWithinEvent};

use crate::clock::millis_of;
use crate::outlet::Outlet;
use crate::run_state::{RunFault, RunState};
use crate::running_sentinel::{RunningSentinel, ThreadSeat, Which};
use ballot_law::Event;
use log::{Log, warn};
use sentinel_cell::ActFault;
use sentinel_conf::ConfStore;
use std::rt::Clock;
use std::sync::Wait;

/// How long it is between two ticks of a master, in milliseconds.
pub const TICK_MS: u64 = 100;

/// Whether the Sentinel goes on after this: a refused allocation loses the input alone, and all else halts it.
fn goes_on(acted: Result<(), ActFault>) -> bool
    ensures { IsTrue result ↔ (IsOk acted ⊎ IsErrOf acted ActFault.NoMemory) }
{
    match acted {
        Ok(()) | Err(ActFault::NoMemory) => true,
        Err(ActFault::StoreRefused | ActFault::Halted | ActFault::Spent) => false,
    }
}

/// Notes that the Sentinel is halted, where no thread of it did.
fn note_halt<J: Which, S: ConfStore, R: Log>(rt: &R, member: &RunningSentinel<J, S>) {
    if member.takes_halt_note() {
        warn!(member.noting(rt); target: "group_sentinels::ticking", "a store was refused: the Sentinel is halted");
    }
}

/// Whether the Sentinel goes on after this. Where it doesn't, all threads know it, and a refused store is noted: also
/// that of another thread of the Sentinel, as its port's, which notes nothing.
fn goes_on_noted<J: Which, S: ConfStore, R: Log>(
    rt: &R,
    state: &RunState,
    member: &RunningSentinel<J, S>,
    acted: Result<(), ActFault>,
) -> bool
    ensures { IsTrue result ↔ (IsOk acted ⊎ IsErrOf acted ActFault.NoMemory) }
{
    if let Err(ActFault::StoreRefused | ActFault::Halted) = acted {
        note_halt(rt, member);
    }
    let goes_on = goes_on(acted);
    if !goes_on {
        state.note(RunFault::Halted);
    }
    goes_on
}

/// How long it is from a reading of the clock to the next ticks of a Sentinel with this phase, in milliseconds: they
/// are due each 100 ms, where what is left of the reading is what is left of the phase.
fn until_tick(now: u64, phase: u64) -> u64
    ensures soon { (0 < result) × (result ≤ TICK_MS) }
    ensures phase { (now + result) % TICK_MS ≡ phase % TICK_MS }
{
    let (passed, at) = (now % TICK_MS, phase % TICK_MS);
    if at > passed {
        at - passed
    } else {
        TICK_MS - passed + at
    }
}

/// When the next ticks of a Sentinel's masters are due.
#[derive(Drop)]
pub struct Ticker {
    phase: u64,
    due: u64,
}

impl Ticker {
    /// The ticks of this Sentinel's masters, of which the first are due at once.
    pub fn new<J: Which, S: ConfStore>(member: &RunningSentinel<J, S>) -> Ticker
        ensures due { result.due ≡ 0 }
        ensures phase { result.phase ≡ phase_of member.now.place (group_size member.now.cell.start.plan) }
    {
        Ticker {
            phase: member.phase(),
            due: 0,
        }
    }

    /// How long it is from this reading of the clock until the next ticks are due, in milliseconds.
    pub fn until_due(&self, now: u64) -> u64
        ensures { result ≡ self.now.due - now }
    {
        self.due.saturating_sub(now)
    }

    /// The ticks are over at this reading of the clock: the next ones are due at the next time of the Sentinel's phase.
    fn plan_next(&mut self, now: u64)
        requires { clock now ≡ now }
        ensures due { (now < self.new.due) × (self.new.due ≤ now + TICK_MS) × (self.new.due % TICK_MS ≡ self.old.phase % TICK_MS) }
        ensures phase { self.new.phase ≡ self.old.phase }
    {
        self.due = now + until_tick(now, self.phase);
    }

    /// Ticks each master once, where that is due: whether the Sentinel goes on. What it says goes to the outlet.
    #[tactic(auto, using(crate::proofs::Hearing::tick_waits, crate::proofs::Hearing::tick_comes))]
    pub fn tick<J: Which, S: ConfStore, O: Outlet<J>, R: Wait + Clock + Log>(
        &mut self,
        rt: &R,
        state: &RunState,
        member: &RunningSentinel<J, S>,
        seat: &mut ThreadSeat<J>,
        outlet: &mut O,
    ) -> bool
        ensures ticked { (now : ℕ) × (said : List Message) × IfSome (O.handed outlet.old) (λ before. O.handed outlet.new ≡ Some (before ++ said))
            × TicksAt self.old.due now member.now.cell.start seat.old.seat.view (master_count member.now.cell.start.plan) said seat.new.seat.view result
            × IsDueNext self.old.due now self.old.phase self.new.due }
        ensures phase { self.new.phase ≡ self.old.phase }
    {
        if state.clock.now(rt) < self.due {
            return true;
        }
        let goes_on = self.tick_all(rt, state, member, seat, outlet);
        self.plan_next(state.clock.now(rt));
        goes_on
    }

    /// Ticks each master once, in their order, up to one whose tick halts the Sentinel: whether the Sentinel goes on.
    /// What it says goes to the outlet.
    #[tactic(auto, using(crate::proofs::Hearing::ticks_more, crate::proofs::Hearing::ticks_stop, crate::proofs::Hearing::ticks_none))]
    pub fn tick_all<J: Which, S: ConfStore, O: Outlet<J>, R: Wait + Clock + Log>(
        &mut self,
        rt: &R,
        state: &RunState,
        member: &RunningSentinel<J, S>,
        seat: &mut ThreadSeat<J>,
        outlet: &mut O,
    ) -> bool
        ensures ticked { (said : List Message) × IfSome (O.handed outlet.old) (λ before. O.handed outlet.new ≡ Some (before ++ said))
            × Ticks member.now.cell.start seat.old.seat.view (master_count member.now.cell.start.plan) said seat.new.seat.view result }
        ensures due { (self.new.due ≡ self.old.due) × (self.new.phase ≡ self.old.phase) }
    {
        for master in 0..member.masters() {
            if !self.tick_one(rt, state, member, seat, outlet, master) {
                return false;
            }
        }
        true
    }

    /// Ticks one master: whether the Sentinel goes on. What it says goes to the outlet. The random number of a tick is
    /// the part of a second that the clock shows, in nanoseconds, which differs from tick to tick and from Sentinel to
    /// Sentinel.
    pub fn tick_one<J: Which, S: ConfStore, O: Outlet<J>, R: Wait + Clock + Log>(
        &mut self,
        rt: &R,
        state: &RunState,
        member: &RunningSentinel<J, S>,
        seat: &mut ThreadSeat<J>,
        outlet: &mut O,
        master: u16,
    ) -> bool
        ensures ticked { (said : List Message) × IfSome (O.handed outlet.old) (λ before. O.handed outlet.new ≡ Some (before ++ said))
            × TickTook member.now.cell.start seat.old.seat.view master said seat.new.seat.view result }
        ensures due { (self.new.due ≡ self.old.due) × (self.new.phase ≡ self.old.phase) }
    {
        let elapsed = state.clock.elapsed(rt);
        let (now, random) = (millis_of(elapsed), u64::from(elapsed.subsec_nanos()));
        seat.look_ahead(master, now.saturating_add(TICK_MS));
        let acted = member.carry_out(rt, seat, outlet, now, Event::Tick { master, random });
        goes_on_noted(rt, state, member, acted)
    }
}

/// Has the Sentinel take what was heard for it, which it may be told: whether it goes on. It doesn't where it is halted
/// or has no tickets left; an event for which there is no memory is lost. What it says goes to the outlet.
pub fn hear<J: Which, S: ConfStore, O: Outlet<J>, R: Wait + Clock + Log>(
    rt: &R,
    state: &RunState,
    member: &RunningSentinel<J, S>,
    seat: &mut ThreadSeat<J>,
    outlet: &mut O,
    event: Event,
) -> bool
    requires within { IsWithinEvent event }
    requires told { MayTake J.told event }
    ensures took { (now : ℕ) × Took member.now.cell.start seat.old.seat.view (input_of now event) seat.new.outbox.shown seat.new.seat.view result }
    ensures handed { IfSome (O.handed outlet.old) (λ before. O.handed outlet.new ≡ Some (before ++ sent seat.new.outbox.shown)) }
{
    let now = state.clock.now(rt);
    let acted = member.carry_out(rt, seat, outlet, now, event);
    goes_on_noted(rt, state, member, acted)
}
