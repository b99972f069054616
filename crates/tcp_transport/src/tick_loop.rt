//! What the thread that ticks a Sentinel does until it ends.

ghost use Rattle.std.specs.Prelude.{◌≡◌, ℕ, true, false};
ghost use Rattle.sentinel_runtime.specs.Running.{input_of};
ghost use Rattle.sentinel_runtime.specs.Ticking.{Took};
ghost use Rattle.ballot_law.specs.Limits.{IsWithinEvent};
ghost use Rattle.sentinel_runtime.specs.Hearing.{MayTake};
ghost use Rattle.tcp_transport.specs.Hearing.{is_lost};

use crate::exchange::{Hearing, SentinelEnd, WatchState};
use crate::far_hellos::is_lost;
use crate::hello_notes::{Hearer, HelloNotes};
use crate::replica_notes::ReplicaNotes;
use ballot_law::{Event, STEP_MS, Text};
use links::{
    CATCH_UP_MS, HURRY_MS, SLOT_MAX_MS, TickSchedule, WAIT_MAX_MS, is_gap, pause_of, turn_of,
    without_names,
};
use log::Log;
use sentinel_conf::ConfStore;
use sentinel_runtime::{Outlet, RunFault, RunningSentinel, ThreadSeat, Ticker, Which, hear};
use std::alloc::Global;
use std::collections::VecDeque;
use std::rt::Clock;
use std::sync::Wait;
use std::sync::atomic::Ordering;

/// How many events it hears at once before it looks at its clock.
const EVENTS_MAX: u32 = 1_024;

/// How far apart the ticks are of a Sentinel that is to begin no failover, in milliseconds: it takes that for a step of
/// its clock, and so is in TILT.
const APART_MS: u64 = STEP_MS + 200;

/// How many events it keeps for later at most.
const LATER_MAX: usize = 4_096;

/// When a Sentinel ticks, and what its ticks showed. One thread has them, with its end of the connections.
/// `stood_still` is whether it stood still since its last ticks, and `later` has what it hears only after the next
/// ones, oldest first; `has_ticked` is whether these were since. `epoch` is the current one when it was last looked at.
#[derive(Drop)]
pub struct TickLoop<J: Which> {
    far: SentinelEnd<J>,
    ticker: Ticker,
    pace: TickSchedule,
    stood_still: bool,
    hellos: HelloNotes,
    replicas: ReplicaNotes,
    later: VecDeque<Hearing<J>>,
    has_ticked: bool,
    epoch: u64,
}

/// The turns of a Sentinel that this thread has it take, by its own seat.
#[derive(Drop)]
struct Turns<'a, R, J: Which, S: ConfStore> {
    rt: &'a R,
    state: &'a WatchState,
    member: &'a RunningSentinel<J, S>,
    seat: &'a mut ThreadSeat<J>,
}

impl<R: Clock, J: Which, S: ConfStore> Turns<'_, R, J, S> {
    /// The reading of the clock.
    fn now(&self) -> u64 {
        self.state.run.clock.now(self.rt)
    }

    /// A number by lot: the part of a second that the clock shows, in nanoseconds.
    fn lot(&self) -> u64 {
        u64::from(self.state.run.clock.elapsed(self.rt).subsec_nanos())
    }
}

/// Whether what an event tells may be stored: a new configuration.
fn may_be_stored(event: &Event) -> bool {
    matches!(event, Event::HelloRead { .. } | Event::InfoRead { .. })
}

/// The master that another Sentinel finds down, as its answer says.
fn found_down(event: &Event) -> Option<u16> {
    match event {
        Event::Answered {
            master,
            down: true,
            ..
        } => Some(*master),
        _ => None,
    }
}

/// Whether another Sentinel tells a vote, which may be the one that elects.
fn is_vote(event: &Event) -> bool {
    matches!(
        event,
        Event::Answered {
            leader: Some(_),
            ..
        }
    )
}

/// What was heard, without the name by which a replica may know its master; as it is where there is no memory.
fn without_name<J: Which>(alloc: Global, event: Event) -> Event
    requires within { IsWithinEvent event }
    requires told { MayTake J.told event }
    ensures within { IsWithinEvent result }
    ensures told { MayTake J.told result }
{
    match event {
        Event::InfoRead { node, text } => {
            let text = match without_names(alloc, text.as_slice()) {
                Ok(Some(bytes)) => Text::from_vec(bytes),
                _ => text,
            };
            Event::InfoRead { node, text }
        }
        event => event,
    }
}

/// Has the Sentinel take an event, which comes with the epoch that is known, unless it is lost before the Sentinel
/// hears it: whether it goes on.
fn hear_near<J: Which, S: ConfStore, O: Outlet<J>, R: Wait + Clock + Log>(
    rt: &R,
    state: &WatchState,
    member: &RunningSentinel<J, S>,
    seat: &mut ThreadSeat<J>,
    outlet: &mut O,
    came: (Option<u64>, Event),
) -> bool
    requires within { IsWithinEvent came.1 }
    requires told { MayTake J.told came.1 }
    ensures lost { is_lost came.0 came.1 ≡ true → (result ≡ true) × (seat.new ≡ seat.old) × (outlet.new ≡ outlet.old) }
    ensures heard { is_lost came.0 came.1 ≡ false
        → (now : ℕ) × Took member.now.cell.start seat.old.seat.view (input_of now came.1) seat.new.outbox.shown seat.new.seat.view result }
{
    let (known, event) = came;
    if is_lost(known, &event) {
        return true;
    }
    hear(rt, &state.run, member, seat, outlet, event)
}

/// Who hears a hello now.
fn hearer<'a, J: Which, S: ConfStore>(member: &'a RunningSentinel<J, S>, now: u64) -> Hearer<'a> {
    Hearer {
        roster: member.roster(),
        own: member.place(),
        now,
        known: member.known_epoch(),
    }
}

impl<J: Which> TickLoop<J> {
    /// Nothing was heard yet at this reading of the clock in milliseconds, and the ticks are due at once.
    pub fn new<S: ConfStore>(
        alloc: Global,
        member: &RunningSentinel<J, S>,
        far: SentinelEnd<J>,
        now: u64,
    ) -> TickLoop<J> {
        TickLoop {
            far,
            ticker: Ticker::new(member),
            pace: TickSchedule::new(now),
            stood_still: false,
            hellos: HelloNotes::new(now),
            replicas: ReplicaNotes::new(alloc),
            later: VecDeque::new(alloc),
            has_ticked: false,
            epoch: member.known_epoch().unwrap_or(0),
        }
    }

    /// Has the ticks come at once after a vote, and within `HURRY_MS` while a failover of its own is on its way. Else
    /// it holds them back where a campaign has come near, or where another Sentinel campaigns.
    fn pace_ticks<S: ConfStore, R: Clock>(&mut self, turns: &mut Turns<'_, R, J, S>, voted: bool) {
        let number = turns.seat.take_nearness();
        let epoch = turns.member.known_epoch().unwrap_or(0);
        let has_risen = self.epoch < epoch;
        self.epoch = epoch;
        if turns.seat.is_switching() {
            let within = if voted { 0 } else { HURRY_MS };
            self.pace.hurry(turns.now(), within);
            return;
        }
        if has_risen {
            self.pace.hold(turns.now(), SLOT_MAX_MS);
        }
        self.hold(turns, number);
    }

    /// Holds the ticks back where a campaign has come near, until the Sentinel has its turn: that goes by its place,
    /// and moves on with the configurations of the masters.
    fn hold<S: ConfStore, R: Clock>(&mut self, turns: &Turns<'_, R, J, S>, number: Option<u64>) {
        if let Some(number) = number {
            let roster = turns.member.roster();
            roster.is_made();
            let count = (roster.sentinels().len() as u64).max(1);
            let turn = turn_of(turns.member.place(), number, count);
            let pause = pause_of(turn, count, turns.lot());
            self.pace.hold(turns.now(), pause);
        }
    }

    /// Notes what an event shows that the Sentinel's file doesn't have.
    fn note_heard<R: Log>(&mut self, rt: &R, by: Hearer<'_>, event: &Event) {
        match event {
            Event::HelloRead { text } => self.hellos.hear(rt, by, text),
            Event::InfoRead { node, text } => {
                self.replicas.hear(rt, by.roster, *node, by.now, text)
            }
            _ => {}
        }
    }

    /// Has the Sentinel take an event: whether it goes on. An answer may bring a campaign near.
    fn hear_one<S: ConfStore, R: Wait + Clock + Log>(
        &mut self,
        turns: &mut Turns<'_, R, J, S>,
        event: Event,
    ) -> bool
        requires within { IsWithinEvent event }
        requires told { MayTake J.told event }
    {
        if let Some(master) = found_down(&event) {
            turns.seat.look_ahead(master, self.pace.tick_due);
        }
        let voted = is_vote(&event);
        let by = hearer(turns.member, turns.now());
        self.note_heard(&turns.member.noting(turns.rt), by, &event);
        let event = without_name::<J>(self.far.alloc(), event);
        let mut outlet = self.far.outlet(turns.rt);
        let goes_on = hear_near(
            turns.rt,
            turns.state,
            turns.member,
            turns.seat,
            &mut outlet,
            (by.known, event),
        );
        if self.hellos.has_heard(turns.member.roster().masters().len()) {
            turns.state.heard.store(1, Ordering::SeqCst);
        }
        self.pace_ticks(turns, voted);
        goes_on
    }

    /// Has the Sentinel take an event, or keeps it for later, where ticks are late and it may be stored: whether it
    /// goes on. It is lost where too many are kept.
    fn hear_or_keep<S: ConfStore, R: Wait + Clock + Log>(
        &mut self,
        turns: &mut Turns<'_, R, J, S>,
        event: Event,
    ) -> bool
        requires within { IsWithinEvent event }
        requires told { MayTake J.told event }
    {
        if may_be_stored(&event) && self.pace.is_late(turns.now()) {
            if self.later.len() < LATER_MAX {
                drop(self.later.push_back(Hearing::of(event)));
            }
            return true;
        }
        self.hear_one(turns, event)
    }

    /// Has the Sentinel take what it kept for later, once it has ticked or ticks aren't late: whether it goes on.
    fn hear_kept<S: ConfStore, R: Wait + Clock + Log>(
        &mut self,
        turns: &mut Turns<'_, R, J, S>,
    ) -> bool {
        for _ in 0..EVENTS_MAX {
            if !self.has_ticked && self.pace.is_late(turns.now()) {
                return true;
            }
            let Some(hearing) = self.later.pop_front() else {
                self.has_ticked = false;
                return true;
            };
            if !self.hear_one(turns, hearing.into_event()) {
                return false;
            }
        }
        true
    }

    /// Has the Sentinel take what its connections heard: it waits for the first event so many milliseconds at most, and
    /// for no other: whether it goes on.
    fn hear_all<S: ConfStore, R: Wait + Clock + Log>(
        &mut self,
        turns: &mut Turns<'_, R, J, S>,
        millis: u64,
    ) -> bool {
        if !self.hear_kept(turns) {
            return false;
        }
        let mut wait = millis;
        for _ in 0..EVENTS_MAX {
            let Some(event) = self.far.next(turns.rt, wait) else {
                return true;
            };
            wait = 0;
            if !self.hear_or_keep(turns, event) {
                return false;
            }
        }
        true
    }

    /// Ends a turn; records whether this process or its socket thread was suspended. A long store alone doesn't count:
    /// what was heard meanwhile is heard before the ticks.
    fn end_turn(&mut self, state: &WatchState, now: u64) {
        let turned = state.turned.load(Ordering::SeqCst);
        let stood = state.stood.load(Ordering::SeqCst);
        let both = self.pace.stood_still(now) && self.pace.turned <= stood;
        self.stood_still |= both || is_gap(turned, now);
        self.pace.turn(now);
    }

    /// Hears until the ticks are due, which may come to be later meanwhile: whether it goes on.
    fn hear_until_due<S: ConfStore, R: Wait + Clock + Log>(
        &mut self,
        turns: &mut Turns<'_, R, J, S>,
    ) -> bool {
        for _ in 0..u64::MAX {
            let left = self.pace.until_tick(turns.now());
            if !self.hear_all(turns, left.min(WAIT_MAX_MS)) {
                return false;
            }
            self.end_turn(turns.state, turns.now());
            if left == 0 {
                return true;
            }
        }
        true
    }

    /// Ticks each master, and hears between two of them what has come in, such as requests for votes that a store has
    /// held up: whether the Sentinel goes on.
    fn tick_each<S: ConfStore, R: Wait + Clock + Log>(
        &mut self,
        turns: &mut Turns<'_, R, J, S>,
    ) -> bool {
        for master in 0..turns.member.masters() {
            if master != 0 && !self.hear_all(turns, 0) {
                return false;
            }
            let (rt, run, member) = (turns.rt, &turns.state.run, turns.member);
            let mut outlet = self.far.outlet(rt);
            let seat = &mut *turns.seat;
            if !self
                .ticker
                .tick_one(rt, run, member, seat, &mut outlet, master)
            {
                return false;
            }
        }
        true
    }

    /// Ticks each master, and plans the next ticks: whether the Sentinel goes on.
    fn tick<S: ConfStore, R: Wait + Clock + Log>(
        &mut self,
        turns: &mut Turns<'_, R, J, S>,
    ) -> bool {
        let (rt, member, began) = (turns.rt, turns.member, turns.now());
        self.pace.plan_tick(began, turns.lot());
        let goes_on = self.tick_each(turns);
        self.stood_still = false;
        self.has_ticked = true;
        self.pace_ticks(turns, false);
        let now = turns.now();
        if self.hellos.has_rival(now) {
            self.pace.tick_due = began.saturating_add(APART_MS);
        }
        self.pace.turn(now);
        self.hellos.look(&member.noting(rt), member.roster(), now);
        if let Some(request) = member.take_far(rt) {
            self.hellos
                .hear_far_request(&member.noting(rt), request, member.settled_epoch(), now);
        }
        goes_on
    }

    /// Hears until the next ticks are due, and ticks each master: whether the Sentinel goes on. Where it or its
    /// connections stood still, it hears what was asked anew before it ticks. It does so once: on a machine that is
    /// always late it would never tick else.
    fn turn<S: ConfStore, R: Wait + Clock + Log>(
        &mut self,
        turns: &mut Turns<'_, R, J, S>,
    ) -> bool {
        if !self.hear_until_due(turns) {
            return false;
        }
        if self.stood_still {
            self.pace.tick_due = turns.now().saturating_add(CATCH_UP_MS);
            if !self.hear_until_due(turns) {
                return false;
            }
        }
        self.tick(turns)
    }

    /// Has the Sentinel take what its connections hear, and ticks each master 50 to 100 ms after its last tick, or 20
    /// while a switch is under way, until the threads end or the Sentinel is halted, by whichever thread.
    pub fn run<S: ConfStore, R: Wait + Clock + Log>(
        &mut self,
        rt: &R,
        state: &WatchState,
        member: &RunningSentinel<J, S>,
        seat: &mut ThreadSeat<J>,
    ) {
        let mut turns = Turns {
            rt,
            state,
            member,
            seat,
        };
        for _ in rt.forever() {
            if state.ending.load(Ordering::SeqCst) != 0 || state.run.has(RunFault::Halted) {
                return;
            }
            if !self.turn(&mut turns) {
                return;
            }
        }
        unreachable!()
    }
}
