//! What a turn of a master's failover looks at: the best replica, which nodes are down, and the votes of its campaign.

ghost use Rattle.std.specs.Prelude.{◌≡◌, ◌≤◌, ◌<◌, [], None, IfSome, if◌then◌else◌, is_some, false, length, take};
ghost use Rattle.std.specs.List.{list_all};
ghost use Rattle.ballot_law.specs.declared.rosters.TheConstants.{NODES_MAX};
ghost use Rattle.ballot_law.specs.Clocks.{clock};
ghost use Rattle.ballot_law.specs.Watches.{down_since_of};
ghost use Rattle.sentinel_rules.specs.Plans.{master_count, me, nodes_of, settings_at};
ghost use Rattle.sentinel_rules.specs.States.{card_place, is_at, is_node_down, node_of};
ghost use Rattle.replica_choice.specs.Choices.{choice_of};
ghost use Rattle.sentinel_rules.specs.Answers.{may_take_over, has_heir};
ghost use Rattle.sentinel_rules.specs.Ticks.{candidate_of, candidates_of, willing_of, willing_ones, best_willing, at_places, limits_of, best_told, best_place, best_of, pick_of, counted, is_all_down, is_own_pause};
ghost use Rattle.sentinel_rules.specs.Profiles.{link_at, lesser, least_link_ms, down_for, master_down_ms};
ghost use Rattle.sentinel_core.specs.Inputs.Rows.{looks_at_votes, looks_at_best, looks_at_nodes};

use ballot_law::{Addr, NODES_MAX, RunId, clock_of};
use failover_states::FailoverState;
use replica_choice::{Candidate, Limits, choose};
use sentinel_rules::{LINK_MAX_S, Profile};
use sentinel_state::{Core, Plan, State};
use std::marker::Model;

/// A node that can't be chosen.
const NO_CANDIDATE: Candidate = Candidate {
    sdown: true,
    priority: 0,
    link_down_s: 0,
    last_ping: None,
    last_info: None,
    offset: 0,
    id: None,
};

/// For how long something has been down, in milliseconds.
pub(crate) fn down_for(since: Option<u64>, now: u64) -> u64
    ensures { result ≡ down_for since now }
{
    match since {
        Some(since) => now.saturating_sub(since),
        None => 0,
    }
}

/// Whether each data node of a master is subjectively down, by its place.
#[derive(Drop)]
pub(crate) struct DownPlaces {
    down: [bool; NODES_MAX],
    count: usize,
}

impl Model for DownPlaces {
    ghost use Rattle.std.specs.Prelude.{◌≤◌, Bool, List, take};
    ghost use Rattle.ballot_law.specs.declared.rosters.TheConstants.{NODES_MAX};

    ghost Value = { List Bool };

    ghost view = { λ places. take places.count places.down };

    ghost invariant = { λ places. places.count ≤ NODES_MAX };
}

/// Whether the rows of this state look at the votes heard.
fn looks_at_votes(stage: FailoverState) -> bool
    ensures { result ≡ looks_at_votes stage }
{
    matches!(stage, FailoverState::WaitStart { .. })
}

/// Whether the rows of this state look at the best replica.
fn looks_at_best(stage: FailoverState) -> bool
    ensures { result ≡ looks_at_best stage }
{
    matches!(stage, FailoverState::SelectReplica { .. })
}

/// Whether the rows of this state look at the nodes: which of them are down, and which one the configuration names.
fn looks_at_nodes(stage: FailoverState) -> bool
    ensures { result ≡ looks_at_nodes stage }
{
    matches!(
        stage,
        FailoverState::SendPromotion { .. } | FailoverState::ReconfReplicas { .. }
    )
}

impl DownPlaces {
    /// Of no node.
    fn none() -> DownPlaces
        ensures { result ≡ [] }
    {
        DownPlaces {
            down: [false; NODES_MAX],
            count: 0,
        }
    }

    /// One for each data node, in the order of their places.
    pub(crate) fn as_slice(&self) -> &[bool]
        ensures { result.now ≡ self.now }
    {
        &self.down[..self.count]
    }
}

/// What is known of the node at a place as a replica to choose; the node of the configuration, at `card_at`, is none.
pub(crate) fn candidate(
    plan: &Plan,
    core: &Core,
    m: u16,
    now: u64,
    card_at: usize,
    k: usize,
) -> Candidate
    requires { card_at ≡ card_place plan.now core.now m }
    ensures { result ≡ candidate_of plan.now core.now m (clock now) k }
{
    let node = core.node(m, k);
    let is_out = k == card_at || core.is_node_down(plan, m, now, card_at, k) || node.lost;
    node.candidate(is_out)
}

/// Each node of a master as a replica to choose, by its place.
fn candidates(plan: &Plan, core: &Core, m: u16, now: u64, card_at: usize) -> [Candidate; NODES_MAX]
    requires { card_at ≡ card_place plan.now core.now m }
    ensures { take (length (nodes_of plan.now m)) result ≡ candidates_of plan.now core.now m (clock now) }
{
    let mut candidates = [NO_CANDIDATE; NODES_MAX];
    for k in 0..plan.nodes(m).len() {
        candidates[k] = candidate(plan, core, m, now, card_at, k);
    }
    candidates
}

/// What is known of the node at a place as a replica to choose where one that didn't obey is none: at first, or
/// `again`, where there is no other.
fn willing(plan: &Plan, core: &Core, m: u16, now: u64, again: bool, k: usize) -> Candidate
    ensures { result ≡ willing_of plan.now core.now m (clock now) again k }
{
    let card_at = core.card_place(plan, m);
    let mut willing = candidate(plan, core, m, now, card_at, k);
    willing.sdown = willing.sdown || core.is_passed_over(plan, m, now, again, k);
    willing
}

/// Each node of a master as such a replica, by its place.
fn willing_ones(plan: &Plan, core: &Core, m: u16, now: u64, again: bool) -> [Candidate; NODES_MAX]
    ensures { take (length (nodes_of plan.now m)) result ≡ willing_ones plan.now core.now m (clock now) again }
{
    let mut candidates = [NO_CANDIDATE; NODES_MAX];
    for k in 0..plan.nodes(m).len() {
        candidates[k] = willing(plan, core, m, now, again, k);
    }
    candidates
}

/// Whether a replica can be promoted, however old what it told is.
fn may_take_over(candidate: &Candidate) -> bool
    ensures { result ≡ may_take_over candidate.now }
{
    !candidate.sdown && 0 < candidate.priority && candidate.last_info.is_some()
}

/// Whether a replica of a master can be promoted, however old what it told is.
pub(crate) fn has_heir(plan: &Plan, core: &Core, m: u16, now: u64) -> bool
    ensures { result ≡ has_heir plan.now core.now m (clock now) }
{
    let card_at = core.card_place(plan, m);
    let candidates = candidates(plan, core, m, now, card_at);
    candidates[..plan.nodes(m).len()]
        .iter()
        .any(|candidate| may_take_over(candidate))
}

/// The lesser of two, where there is one.
fn lesser(one: Option<u64>, other: Option<u64>) -> Option<u64>
    ensures { result ≡ lesser one other }
{
    match (one, other) {
        (Some(one), Some(other)) => Some(one.min(other)),
        (Some(one), None) => Some(one),
        (None, other) => other,
    }
}

/// For how many seconds the link of the replica at a place has been down, where it has told; `card_at` is the place of
/// the node that the configuration names.
fn link_at(state: &State, m: u16, card_at: usize, k: usize) -> Option<u64>
    requires { card_at ≡ card_place state.now.plan state.now.core m }
    ensures { result ≡ link_at state.now.plan state.now.core m k }
{
    if k == card_at {
        return None;
    }
    match state.core.info(m, k) {
        Some(info) => Some(info.link_down_s),
        None => None,
    }
}

/// For how long the link of the replica has been down that lost it last.
fn least_link_ms(state: &State, m: u16, card_at: usize) -> u64
    requires { card_at ≡ card_place state.now.plan state.now.core m }
    ensures { result ≡ least_link_ms state.now.plan state.now.core m }
{
    let mut least = None;
    for k in 0..state.plan.nodes(m).len() {
        least = lesser(least, link_at(state, m, card_at, k));
    }
    least.unwrap_or(0).min(LINK_MAX_S) * 1_000
}

/// Whether the node at a place has replied to a PING since this Sentinel's start.
fn has_replied(state: &State, m: u16, k: usize) -> bool
    ensures { result ≡ is_some (node_of state.now.core m k).last_ping }
{
    match state.core.kept_node(m, k) {
        Some(node) => node.last_ping.is_some(),
        None => false,
    }
}

/// For how long the master has been down, as a replica's link is judged by it.
fn master_down_ms(state: &State, m: u16, now: u64, card_at: usize) -> u64
    requires { card_at ≡ card_place state.now.plan state.now.core m }
    ensures { result ≡ master_down_ms state.now.plan state.now.core m (clock now) }
{
    let since = state
        .core
        .node_down_since(&state.plan, m, now, card_at, card_at);
    let found = down_for(since, clock_of(now));
    match state.plan.profile() {
        Profile::Strict => found,
        Profile::Redis => {
            let unled = down_for(state.core.replica_since(m, card_at), clock_of(now));
            if has_replied(state, m, card_at) {
                return unled.max(found);
            }
            unled.max(found.max(least_link_ms(state, m, card_at)))
        }
    }
}

/// For how long the master has been down, beside its setting.
pub(crate) fn limits(state: &State, m: u16, now: u64, card_at: usize) -> Limits
    requires { card_at ≡ card_place state.now.plan state.now.core m }
    ensures { result ≡ limits_of state.now.plan state.now.core m (clock now) }
{
    Limits {
        after_ms: state.plan.settings(m).after_ms,
        master_down_ms: master_down_ms(state, m, now, card_at),
    }
}

/// The place of the best of so many candidates.
fn best_in(
    candidates: &[Candidate; NODES_MAX],
    count: usize,
    now: u64,
    limits: Limits,
) -> Option<usize>
    requires { count ≤ NODES_MAX }
    ensures value { result ≡ choice_of (take count candidates.now) (clock now) limits }
    ensures within { IfSome result (λ k. k < count) }
{
    choose(&candidates[..count], clock_of(now), limits)
}

/// The place of the best of all replicas, by what they told; none where no replica may be chosen.
fn best_of_all(state: &State, m: u16, now: u64, card_at: usize, limits: Limits) -> Option<usize>
    requires { card_at ≡ card_place state.now.plan state.now.core m }
    ensures value { result ≡ choice_of (candidates_of state.now.plan state.now.core m (clock now)) (clock now) limits }
    ensures within { IfSome result (λ k. k < length (nodes_of state.now.plan m)) }
{
    let candidates = candidates(&state.plan, &state.core, m, now, card_at);
    best_in(&candidates, state.plan.nodes(m).len(), now, limits)
}

/// The place of the best of those that didn't fail to obey: at first, or `again`, where there is no other.
fn best_willing(state: &State, m: u16, now: u64, limits: Limits, again: bool) -> Option<usize>
    requires { limits ≡ limits_of state.now.plan state.now.core m (clock now) }
    ensures value { result ≡ best_willing state.now.plan state.now.core m (clock now) again }
    ensures within { IfSome result (λ k. k < length (nodes_of state.now.plan m)) }
{
    let candidates = willing_ones(&state.plan, &state.core, m, now, again);
    best_in(&candidates, state.plan.nodes(m).len(), now, limits)
}

/// The place of the best replica of a master to take its place, by what it told; none where no replica may. By the
/// profile one that didn't obey is chosen where there is no other, some time later.
fn best_told(state: &State, m: u16, now: u64) -> Option<usize>
    ensures value { result ≡ best_told state.now.plan state.now.core m (clock now) }
    ensures within { IfSome result (λ k. k < length (nodes_of state.now.plan m)) }
{
    let card_at = state.core.card_place(&state.plan, m);
    let limits = limits(state, m, now, card_at);
    match state.plan.profile() {
        Profile::Strict => best_of_all(state, m, now, card_at, limits),
        Profile::Redis => match best_willing(state, m, now, limits, false) {
            Some(k) => Some(k),
            None => best_willing(state, m, now, limits, true),
        },
    }
}

/// The place of the best replica of a master: after a switch that was made at the nodes that of the node which took
/// over.
fn best_place(state: &State, m: u16, now: u64) -> Option<usize>
    ensures value { result ≡ best_place state.now.plan state.now.core m (clock now) }
    ensures within { IfSome result (λ k. k < length (nodes_of state.now.plan m)) }
{
    if let Some(place) = state.core.switched_to(&state.plan, m, now) {
        return Some(place);
    }
    if state.core.is_given_away(&state.plan, m, now) {
        return None;
    }
    best_told(state, m, now)
}

/// The best replica of a master to take its place, by its place and its address; none where no replica may.
fn best(state: &State, m: u16, now: u64) -> Option<(u16, Addr)>
    ensures { result ≡ best_of state.now.plan state.now.core m (clock now) }
{
    let nodes = state.plan.nodes(m);
    let place = best_place(state, m, now)?;
    Some((place as u16, nodes[place]))
}

/// Whether each data node of a master is subjectively down, by its place.
fn down_places(state: &State, m: u16, now: u64) -> DownPlaces
    ensures { result ≡ at_places (is_node_down state.now.plan state.now.core m (clock now)) 0 (length (nodes_of state.now.plan m)) }
{
    let card_at = state.core.card_place(&state.plan, m);
    let mut down = [false; NODES_MAX];
    let count = state.plan.nodes(m).len();
    for k in 0..count {
        down[k] = state.core.is_node_down(&state.plan, m, now, card_at, k);
    }
    DownPlaces { down, count }
}

/// Whether it has been since this reading.
fn is_at(since: Option<u64>, at: u64) -> bool
    ensures { result ≡ is_at since at }
{
    match since {
        Some(since) => at == since,
        None => false,
    }
}

/// Whether each Sentinel is down, by the first master's `down-after-milliseconds`.
fn are_peers_down(state: &State, now: u64) -> bool
    ensures { result ≡ list_all (λ peer. is_some (down_since_of peer.watch (clock now) (settings_at state.now.plan 0).after_ms false)) state.now.core.peers }
{
    let after_ms = state.plan.settings(0).after_ms;
    state.core.peers().iter().all(|peer| peer.watch.sdown_since(now, after_ms, false).is_some())
}

/// Whether all of these are.
fn are_all(down: &[bool]) -> bool
    ensures { result ≡ list_all (λ one. one) down.now }
{
    down.iter().all(|one| *one)
}

/// Whether all nodes of a master are down.
fn are_nodes_down(state: &State, m: u16, now: u64) -> bool
    ensures { result ≡ list_all (λ one. one) (at_places (is_node_down state.now.plan state.now.core m (clock now)) 0 (length (nodes_of state.now.plan m))) }
{
    let nodes = down_places(state, m, now);
    are_all(nodes.as_slice())
}

/// Whether all nodes of a master are down, and all other Sentinels.
fn is_all_down(state: &State, m: u16, now: u64) -> bool
    ensures { result ≡ is_all_down state.now.plan state.now.core m (clock now) }
{
    are_nodes_down(state, m, now) && are_peers_down(state, now)
}

/// Whether all are down at the reading at which the master is found objectively down, by the profile: it may be this
/// Sentinel that stood still.
pub(crate) fn is_own_pause(state: &State, m: u16, now: u64) -> bool
    ensures { result ≡ is_own_pause state.now.plan state.now.core m (clock now) }
{
    match state.plan.profile() {
        Profile::Strict => false,
        Profile::Redis => {
            is_at(state.core.odown_since(m), clock_of(now)) && is_all_down(state, m, now)
        }
    }
}

/// The pick of the votes heard, where the rows of this state look at it.
pub(crate) fn pick_for(state: &State, m: u16, epoch: u64, stage: FailoverState) -> RunId
    ensures { result ≡ (if looks_at_votes stage then pick_of state.now.plan state.now.core m epoch else me state.now.plan) }
{
    if looks_at_votes(stage) {
        state.core.pick(&state.plan, m, epoch)
    } else {
        state.plan.me()
    }
}

/// The votes heard that count for this Sentinel.
fn counted(state: &State, m: u16, now: u64, epoch: u64) -> u32
    requires { m < master_count state.now.plan }
    ensures { result ≡ counted state.now.plan state.now.core m (clock now) epoch }
{
    if state.core.is_contested(&state.plan, m, now) {
        0
    } else {
        state.core.count(&state.plan, m, epoch)
    }
}

/// The votes heard that count for this Sentinel, where the rows of this state look at it.
pub(crate) fn count_for(state: &State, m: u16, now: u64, epoch: u64, stage: FailoverState) -> u32
    requires { m < master_count state.now.plan }
    ensures { result ≡ (if looks_at_votes stage then counted state.now.plan state.now.core m (clock now) epoch else 0) }
{
    if looks_at_votes(stage) {
        counted(state, m, now, epoch)
    } else {
        0
    }
}

/// The best replica, where the rows of this state look at it.
pub(crate) fn best_for(state: &State, m: u16, now: u64, stage: FailoverState) -> Option<(u16, Addr)>
    ensures value { result ≡ (if looks_at_best stage then best_of state.now.plan state.now.core m (clock now) else None) }
    ensures few { IfSome result (λ best. best.0 ≤ NODES_MAX) }
{
    let _few = state.plan.nodes(m);
    if looks_at_best(stage) {
        best(state, m, now)
    } else {
        None
    }
}

/// The place of the node that the configuration names, where the rows of this state look at it.
pub(crate) fn card_place_for(state: &State, m: u16, stage: FailoverState) -> u16
    ensures { result ≡ (if looks_at_nodes stage then card_place state.now.plan state.now.core m else 0) }
{
    if looks_at_nodes(stage) {
        state.core.card_place(&state.plan, m) as u16
    } else {
        0
    }
}

/// Which data nodes are subjectively down, where the rows of this state look at it.
pub(crate) fn down_for_rows(state: &State, m: u16, now: u64, stage: FailoverState) -> DownPlaces
    ensures { result ≡ (if looks_at_nodes stage then at_places (is_node_down state.now.plan state.now.core m (clock now)) 0 (length (nodes_of state.now.plan m)) else []) }
{
    if looks_at_nodes(stage) {
        down_places(state, m, now)
    } else {
        DownPlaces::none()
    }
}
