//! Why no replica of a master can be promoted, as it is noted.

ghost use Rattle.std.specs.Prelude.{◌≡◌};
ghost use Rattle.ballot_law.specs.Clocks.{clock};
ghost use Rattle.sentinel_rules.specs.States.{card_place};

use crate::inputs::facts::{candidate, limits};
use ballot_law::{NODES_MAX, clock_of};
use failover_states::Row;
use replica_choice::{Candidate, Limits, choose};
use sentinel_state::{State, Unfit};

/// Whether a link has been down for longer than a replica's may.
fn is_link_old(candidate: &Candidate, limits: Limits) -> bool {
    let down_ms = candidate.link_down_s.saturating_mul(1_000);
    let most = limits.after_ms.saturating_mul(10);
    down_ms > most.saturating_add(limits.master_down_ms)
}

/// Why a replica can't be promoted that is up, and to which the connection wasn't lost.
fn unfit_by_what_it_told(candidate: &Candidate, limits: Limits) -> Unfit {
    if candidate.priority == 0 {
        Unfit::NoPriority
    } else if is_link_old(candidate, limits) {
        Unfit::LinkDown(candidate.link_down_s)
    } else {
        Unfit::Silent
    }
}

/// Why the node at a place can't be promoted; none where it can, and of the node that the configuration names, which is
/// at `card_at`.
fn unfit_at(state: &State, m: u16, now: u64, card_at: usize, k: usize) -> Option<Unfit>
    requires { card_at ≡ card_place state.now.plan state.now.core m }
{
    if k == card_at {
        return None;
    }
    if state.core.is_node_down(&state.plan, m, now, card_at, k) {
        return Some(Unfit::Down);
    }
    if state.core.is_lost(m, k) {
        return Some(Unfit::Lost);
    }
    if state.core.is_passed_over(&state.plan, m, now, true, k) {
        return Some(Unfit::GivenUp);
    }
    let candidate = candidate(&state.plan, &state.core, m, now, card_at, k);
    let limits = limits(state, m, now, card_at);
    match choose(&[candidate], clock_of(now), limits) {
        Some(_) => None,
        None => Some(unfit_by_what_it_told(&candidate, limits)),
    }
}

/// Why each node of a master can't be promoted, by its place.
fn unfit_ones(state: &State, m: u16, now: u64) -> [Option<Unfit>; NODES_MAX] {
    let card_at = state.core.card_place(&state.plan, m);
    let mut unfit = [None; NODES_MAX];
    for k in 0..state.plan.nodes(m).len() {
        unfit[k] = unfit_at(state, m, now, card_at, k);
    }
    unfit
}

/// Notes of each replica why it can't be promoted, where a failover ended by this row since none can; in Redis's
/// profile alone.
pub(crate) fn note_unfit(state: &mut State, m: u16, now: u64, row: Option<Row>)
    ensures { state.new ≡ state.old }
{
    if !matches!(row, Some(Row::NoReplica)) || !state.plan.profile().is_redis() {
        return;
    }
    let unfit = unfit_ones(state, m, now);
    state.core.note_unfit(m, &unfit);
}
