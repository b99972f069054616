//! One tick of a master.

ghost use Rattle.std.specs.Prelude.{◌≡◌, ◌<◌};
ghost use Rattle.ballot_law.specs.Clocks.{clock};
ghost use Rattle.sentinel_rules.specs.Parts.{part_if};
ghost use Rattle.sentinel_rules.specs.Plans.{master_count};
ghost use Rattle.sentinel_rules.specs.States.{card_place, is_failing_over, is_master_down};
ghost use Rattle.sentinel_rules.specs.Ticks.{row_part, odown_part, failover_part, judging_part, master_part, tick};
ghost use Rattle.sentinel_state.specs.Parts.{with_part};

use crate::inputs::asking::ask_others;
use crate::inputs::failing_over::{start_failover, take_row};
use sentinel_state::State;

/// A tick of a master, with a random number: the clock takes a turn, what is due is sent, and unless the clock is in
/// TILT the master is judged. A tick of a master that isn't in the roster is a turn of the clock alone.
pub fn tick(state: &mut State, m: u16, random: u64, now: u64)
    ensures { state.new ≡ with_part state.old (tick state.old.plan m random (clock now) state.old.core) }
{
    state.core.read_clock(random, now);
    if m < state.plan.master_count() {
        tick_master(state, m, now);
        note_rest(state, m, now);
    }
}

/// The place of the node that the configuration names is found once: a tick changes no configuration.
fn tick_master(state: &mut State, m: u16, now: u64)
    requires { m < master_count state.old.plan }
    ensures { state.new ≡ with_part state.old (master_part state.old.plan m (clock now) state.old.core) }
{
    state.send_peers(m, now);
    let card_at = state.core.card_place(&state.plan, m);
    state.send_nodes(m, now, card_at);
    judge_master(state, m, now, card_at);
}

/// Unless the clock is in TILT: whether the master is down, then its failover.
fn judge_master(state: &mut State, m: u16, now: u64, card_at: usize)
    requires known { m < master_count state.old.plan }
    requires place { card_at ≡ card_place state.old.plan state.old.core m }
    ensures { state.new ≡ with_part state.old (judging_part state.old.plan m (clock now) state.old.core) }
{
    if state.core.is_tilted() {
        return;
    }
    let down = state
        .core
        .is_node_down(&state.plan, m, now, card_at, card_at);
    find_odown(state, m, now, down);
    fail_over(state, m, now, down);
}

/// Keeps whether the master is objectively down, and what that does to a failover that runs; `down` is whether this
/// Sentinel finds it down, here and below.
fn find_odown(state: &mut State, m: u16, now: u64, down: bool)
    requires known { m < master_count state.old.plan }
    requires down { down ≡ is_master_down state.old.plan state.old.core m (clock now) }
    ensures { state.new ≡ with_part state.old (odown_part state.old.plan m (clock now) state.old.core) }
{
    let odown = state.core.is_odown(&state.plan, m, now, down);
    state.core.set_odown(m, now, odown);
    state.core.note_down(m, down, odown);
    state.core.let_go(&state.plan, m, now);
}

/// Notes what else the tick found.
fn note_rest(state: &mut State, m: u16, now: u64)
    ensures { state.new ≡ state.old }
{
    state.core.note_rest(&state.plan, m, now);
}

/// A start where one is due, a row where a failover runs, and the questions to the other Sentinels.
fn fail_over(state: &mut State, m: u16, now: u64, down: bool)
    requires known { m < master_count state.old.plan }
    requires down { down ≡ is_master_down state.old.plan state.old.core m (clock now) }
    ensures { state.new ≡ with_part state.old (failover_part state.old.plan m (clock now) state.old.core) }
{
    let started = start_failover(state, m, now);
    advance_failover(state, m, now);
    ask_others(state, m, now, started, down);
}

/// A row where a failover runs.
fn advance_failover(state: &mut State, m: u16, now: u64)
    requires { m < master_count state.old.plan }
    ensures { state.new ≡ with_part state.old
        (part_if (is_failing_over state.old.core m) state.old.core (row_part state.old.plan m (clock now))) }
{
    if state.core.is_failing_over(m) {
        take_row(state, m, now);
    }
}
