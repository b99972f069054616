//! When a Sentinel ticks, and whether it stood still.

ghost use Rattle.std.specs.Prelude.{◌≡◌, ◌≤◌, ◌<◌, ◌↔◌, ◌+◌, ◌-◌, ◌*◌, ◌/◌, ◌%◌, ◌^◌, max, min, IsTrue};

use crate::times::{
    APART_MAX_MS, GAP_MS, HOLD_MAX_MS, LATE_MS, SLOT_MAX_MS, TICK_MAX_MS, TICK_MIN_MS,
};

/// The turns of a Sentinel, by readings of one clock in milliseconds: `turned` is when the last one ended, `ticked`
/// when the last ticks began, and `tick_due` when the next ones are due.
#[derive(Clone, Copy)]
pub struct TickSchedule {
    pub turned: u64,
    pub ticked: u64,
    pub tick_due: u64,
}

/// Whether too long a time lies between two turns, by readings of one clock in milliseconds: more than `GAP_MS`. Then
/// nobody else was silent meanwhile.
pub fn is_gap(turned: u64, now: u64) -> bool
    ensures { IsTrue result ↔ (GAP_MS < now - turned) }
{
    now.saturating_sub(turned) > GAP_MS
}

/// How far apart the turns of so many Sentinels are.
fn slot_of(turns: u64) -> u64
    requires { 0 < turns }
    ensures slot { result ≡ min SLOT_MAX_MS (HOLD_MAX_MS / turns) }
    ensures most { turns * result ≤ HOLD_MAX_MS }
{
    (HOLD_MAX_MS / turns).min(SLOT_MAX_MS)
}

/// Which turn the Sentinel at this place has, of so many, counted from 0: turns go by the places in the roster, and a
/// campaign's number moves them on. So Sentinels that know the same number have different turns.
pub fn turn_of(place: u16, number: u64, turns: u64) -> u64
    requires some { 0 < turns }
    requires few { turns ≤ 64 }
    ensures turn { result ≡ (place + number % turns) % turns }
    ensures within { result < turns }
{
    (u64::from(place) + number % turns) % turns
}

/// Delay before this Sentinel may campaign, in milliseconds, at most `HOLD_MAX_MS`: none in the first turn, else its
/// slot (`turn` times the slot's length) plus up to half a slot, by lot. So Sentinels that find a master down together
/// begin one after the other, and the first one has the votes of the others.
pub fn pause_of(turn: u64, turns: u64, lot: u64) -> u64
    requires { turn < turns }
    ensures first { turn ≡ 0 → result ≡ 0 }
    ensures turn { turn * min SLOT_MAX_MS (HOLD_MAX_MS / turns) ≤ result }
    ensures lot { result ≤ turn * min SLOT_MAX_MS (HOLD_MAX_MS / turns) + min SLOT_MAX_MS (HOLD_MAX_MS / turns) / 2 }
    ensures most { result ≤ HOLD_MAX_MS }
{
    if turn == 0 {
        return 0;
    }
    let slot = slot_of(turns);
    turn * slot + lot % (slot / 2 + 1)
}

impl TickSchedule {
    /// A Sentinel that begins now, and ticks at once.
    pub fn new(now: u64) -> TickSchedule
        ensures { result ≡ record { turned = now; ticked = now; tick_due = now } }
    {
        TickSchedule {
            turned: now,
            ticked: now,
            tick_due: now,
        }
    }

    /// Whether more than `GAP_MS` lie between the last turn and now: then nobody else was silent meanwhile.
    pub fn stood_still(&self, now: u64) -> bool
        ensures { IsTrue result ↔ (GAP_MS < now - self.now.turned) }
    {
        is_gap(self.turned, now)
    }

    /// How long it is until the next ticks, in milliseconds.
    pub fn until_tick(&self, now: u64) -> u64
        ensures { result ≡ self.now.tick_due - now }
    {
        self.tick_due.saturating_sub(now)
    }

    /// Whether the ticks are due, and the last ones more than `LATE_MS` ago: then nothing is to be heard before them
    /// that may be stored, since a store takes long on a slow disk, and at 2,000 ms between two ticks the Sentinel
    /// would take its clock to have leapt.
    pub fn is_late(&self, now: u64) -> bool
        ensures { IsTrue result ↔ ((self.now.tick_due ≤ now) × (LATE_MS < now - self.now.ticked)) }
    {
        self.tick_due <= now && now.saturating_sub(self.ticked) > LATE_MS
    }

    /// A turn ended.
    pub fn turn(&mut self, now: u64)
        ensures { self.new ≡ record self.old { turned = now } }
    {
        self.turned = now;
    }

    /// Ticks began at this reading: by lot, the next ones are due 50 to 100 ms later, so that two Sentinels don't tick
    /// together for long.
    pub fn plan_tick(&mut self, now: u64, lot: u64)
        ensures due { now + TICK_MAX_MS < 2 ^ 64 → (now + TICK_MIN_MS ≤ self.new.tick_due) × (self.new.tick_due ≤ now + TICK_MAX_MS) }
        ensures ticked { (self.new.turned ≡ self.old.turned) × (self.new.ticked ≡ now) }
    {
        let pause = TICK_MIN_MS + lot % (TICK_MAX_MS - TICK_MIN_MS + 1);
        self.tick_due = now.saturating_add(pause);
        self.ticked = now;
    }

    /// A failover of its own is under way: the next ticks are due at most so many milliseconds after this reading.
    pub fn hurry(&mut self, now: u64, within: u64)
        ensures soon { now + within < 2 ^ 64 → self.new.tick_due ≡ min self.old.tick_due (now + within) }
        ensures turned { (self.new.turned ≡ self.old.turned) × (self.new.ticked ≡ self.old.ticked) }
    {
        self.tick_due = self.tick_due.min(now.saturating_add(within));
    }

    /// A campaign is near: the next ticks are held back for so many milliseconds from now. What is due later stays so,
    /// and no ticks come to be more than 1,200 ms apart by it.
    pub fn hold(&mut self, now: u64, pause: u64)
        ensures later { self.old.tick_due ≤ self.new.tick_due }
        ensures soon { now + pause < 2 ^ 64 → self.new.tick_due ≤ max self.old.tick_due (now + pause) }
        ensures apart { self.old.ticked + APART_MAX_MS < 2 ^ 64 → self.new.tick_due ≤ max self.old.tick_due (self.old.ticked + APART_MAX_MS) }
        ensures held { now + pause < 2 ^ 64 → self.old.ticked + APART_MAX_MS < 2 ^ 64 → now + pause ≤ self.old.ticked + APART_MAX_MS → now + pause ≤ self.new.tick_due }
        ensures turned { (self.new.turned ≡ self.old.turned) × (self.new.ticked ≡ self.old.ticked) }
    {
        let held = now.saturating_add(pause);
        let last = self.ticked.saturating_add(APART_MAX_MS);
        self.tick_due = self.tick_due.max(held.min(last));
    }
}
