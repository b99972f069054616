//! INFO of data nodes: news for a failover, or a node that is wrong.

ghost use Rattle.std.specs.Prelude.{◌≡◌, ◌≤◌, Some};
ghost use Rattle.ballot_law.specs.declared.rosters.TheConstants.{NODES_MAX};
ghost use Rattle.ballot_law.specs.Clocks.{clock};
ghost use Rattle.node_texts.specs.Announced.{is_announced};
ghost use Rattle.node_texts.specs.Infos.{info_of};
ghost use Rattle.sentinel_rules.specs.News.{closing_frames, promotion, follows, follows_another, has_followed, reconfiguration, is_reconfiguring, wrong_since, is_overdue, can_be_followed, anew, correction, judged, info_kept, info_at_node, info_read, announced_at};
ghost use Rattle.sentinel_rules.specs.States.{failover_of, is_master_role, says_master};
ghost use Rattle.sentinel_state.specs.Nodes.Room.{added};
ghost use Rattle.sentinel_state.specs.Parts.{with_part};

use crate::inputs::cards::take_card;
use ballot_law::{Addr, Card, DataRole, Info, NodeName, NodePlace, clock_of};
use failover_states::FailoverState;
use node_texts::{is_announced, read_info};
use sentinel_rules::{Frame, WRONG_ROLE_MS};
use sentinel_state::{Core, ReplicaNotice, State};

/// Whether this is the role of a master.
fn is_master(role: DataRole) -> bool
    ensures { result ≡ is_master_role role }
{
    matches!(role, DataRole::Master)
}

/// Whether a node's master is this one.
fn follows(master: Option<Addr>, addr: Addr) -> bool
    ensures { result ≡ follows master addr }
{
    match master {
        Some(master) => master.is_same(&addr),
        None => false,
    }
}

/// Whether a node has a master that is another one.
fn follows_another(master: Option<Addr>, addr: Addr) -> bool
    ensures { result ≡ follows_another master addr }
{
    match master {
        Some(master) => !master.is_same(&addr),
        None => false,
    }
}

/// Whether a node that was told to follow the new master at this address does, and its link is up.
fn has_followed(info: &Info, addr: Addr) -> bool
    ensures { result ≡ has_followed info.now addr }
{
    !is_master(info.role) && follows(info.master, addr) && info.link_up
}

/// Since when a node is wrong: since now, where it wasn't before.
fn wrong_since(is_wrong: bool, since: Option<u64>, at: u64) -> Option<u64>
    ensures { result ≡ wrong_since is_wrong since at }
{
    if is_wrong {
        Some(since.unwrap_or(at))
    } else {
        None
    }
}

/// Whether a node has been wrong for longer than it may be.
fn is_overdue(since: Option<u64>, bound: u64, at: u64) -> bool
    ensures { result ≡ is_overdue since bound at }
{
    match since {
        Some(since) => at.saturating_sub(since) > bound,
        None => false,
    }
}

/// The time of a node that was told starts anew.
fn anew(told: bool, at: u64, since: Option<u64>) -> Option<u64>
    ensures { result ≡ anew told at since }
{
    if told { Some(at) } else { since }
}

/// Whether the last INFO of a node says that it is a master.
fn says_master(info: Option<Info>) -> bool
    ensures { result ≡ says_master info }
{
    match info {
        Some(info) => is_master(info.role),
        None => false,
    }
}

/// Whether the replicas of a master are told to follow a new one.
fn is_reconfiguring(core: &Core, m: u16) -> bool
    ensures { result ≡ is_reconfiguring (failover_of core.now m).state }
{
    matches!(core.stage(m), FailoverState::ReconfReplicas { .. })
}

/// The INFO of a node is kept.
fn keep_info(core: &mut Core, m: u16, k: u16, now: u64, info: &Info)
    ensures { core.new ≡ info_kept m k (clock now) info.now core.old }
{
    let mut node = core.node(m, k as usize);
    node.keep_info(now, info);
    core.set_node(m, k as usize, node);
}

/// By the profile has the new master publish a hello, and after a switch that a client asked for the clients of both
/// nodes sent away, so that they ask for the master anew.
#[tactic(auto, using(sentinel_state::proofs::NodesLemmas::RoomLemmas::added_both))]
fn close_clients(state: &mut State, m: u16, heir: usize, old: usize, planned: bool)
    requires { (heir ≤ NODES_MAX) × (old ≤ NODES_MAX) }
    ensures { state.new ≡ record state.old {
      frames
          = added state.old.frames (closing_frames state.old.plan m heir old planned);
    } }
{
    state
        .core
        .note_replica_if(planned, m, old as u16, ReplicaNotice::Converted);
    let heir = state.plan.node_name(m, heir);
    let hello = Frame::HelloTo {
        target: heir,
        master: m,
    };
    state.frames.push_if(state.plan.profile().is_redis(), hello);
    state.frames.push_if(planned, Frame::PromoteTo(heir));
    let target = state.plan.node_name(m, old);
    state
        .frames
        .push_if(planned, Frame::FollowTo { target, master: m });
}

/// Takes the INFO of a node while a failover runs that may await a promotion: where the chosen replica says that it is
/// a master, the campaign's epoch and the replica's address are the master's configuration.
#[tactic(auto, using(sentinel_state::proofs::NodesLemmas::RoomLemmas::added_both))]
fn hear_promotion(state: &mut State, m: u16, k: u16, now: u64, info: &Info)
    requires { k ≤ NODES_MAX }
    ensures { state.new ≡ with_part state.old (promotion state.old.plan m k (clock now) info.now (failover_of state.old.core m).state state.old.core) }
{
    if let FailoverState::WaitPromotion { epoch, choice, .. } = state.core.stage(m)
        && k == choice.place
        && is_master(info.role)
    {
        let addr = choice.addr;
        let planned = state.core.is_planned(m);
        let old = state.core.card_place(&state.plan, m);
        state.core.note_replica(m, k, ReplicaNotice::Promoted);
        state.core.set_promoted(m, now);
        take_card(state, m, now, Card { epoch, addr });
        close_clients(state, m, k as usize, old, planned);
    }
}

/// Takes the INFO of a node while replicas are told to follow a new master: one that follows it, with its link up, is
/// done.
fn hear_reconfiguration(state: &mut State, m: u16, k: u16, now: u64, info: &Info)
    ensures { state.new ≡ with_part state.old (reconfiguration m k info.now state.old.core) }
{
    if has_followed(info, state.core.card(m).addr) {
        state.core.reconf(m, k, now);
    }
}

/// Whether the node of a master's configuration is up, and says that it is a master.
fn can_be_followed(state: &State, m: u16, now: u64) -> bool
    ensures { result ≡ can_be_followed state.now.plan state.now.core m (clock now) }
{
    let place = state.core.card_place(&state.plan, m);
    !state.core.is_node_down(&state.plan, m, now, place, place)
        && says_master(state.core.info(m, place))
}

/// Takes the INFO of a node that isn't the one of the configuration, while no failover runs: where it has long said
/// that it is a master, or had another master, it is told to follow the node of the configuration.
fn correct(state: &mut State, m: u16, k: u16, now: u64, info: &Info)
    requires { k ≤ NODES_MAX }
    ensures { state.new ≡ with_part state.old (correction state.old.plan m k (clock now) info.now state.old.core) }
{
    let at = clock_of(now);
    let addr = state.core.card(m).addr;
    let mut node = state.core.node(m, k as usize);
    let as_master = is_master(info.role);
    let role = wrong_since(as_master, node.wrong_role, at);
    let strays = !as_master && follows_another(info.master, addr);
    let address = wrong_since(strays, node.wrong_address, at);
    let can = can_be_followed(state, m, now);
    let role_told = is_overdue(role, WRONG_ROLE_MS, at) && can;
    let address_told = is_overdue(address, state.plan.settings(m).timeout, at) && can;
    node.wrong_role = anew(role_told, at, role);
    node.wrong_address = anew(address_told, at, address);
    state.core.set_node(m, k as usize, node);
    state
        .core
        .note_replica_if(role_told, m, k, ReplicaNotice::Converted);
    state
        .core
        .note_replica_if(address_told, m, k, ReplicaNotice::Corrected);
    let target = state.plan.node_name(m, k as usize);
    state.frames.push_if(
        role_told || address_told,
        Frame::FollowTo { target, master: m },
    );
}

/// Takes the INFO of a node as news for the failover, or where none runs as a sign of whether the node is wrong.
fn judge(state: &mut State, m: u16, k: u16, now: u64, info: &Info)
    requires { k ≤ NODES_MAX }
    ensures { state.new ≡ with_part state.old (judged state.old.plan m k (clock now) info.now state.old.core) }
{
    if state.core.is_failing_over(m) {
        if is_reconfiguring(&state.core, m) {
            hear_reconfiguration(state, m, k, now, info);
        } else {
            hear_promotion(state, m, k, now, info);
        }
    } else if k as usize != state.core.card_place(&state.plan, m) {
        correct(state, m, k, now, info);
    }
}

/// Takes the INFO of a node of the roster: it is kept, and judged unless in TILT.
fn hear_info(state: &mut State, m: u16, k: u16, now: u64, info: &Info)
    requires { k ≤ NODES_MAX }
    ensures { state.new ≡ with_part state.old (info_at_node state.old.plan m k (clock now) info.now state.old.core) }
{
    keep_info(&mut state.core, m, k, now, info);
    if !state.core.is_tilted() {
        judge(state, m, k, now, info);
    }
}

/// Whether a node may be told to clients is kept.
fn announce(core: &mut Core, at: NodePlace, announced: bool)
    ensures { core.new ≡ announced_at announced (Some at) core.old }
{
    let mut node = core.node(at.master, at.place as usize);
    node.announce(announced);
    core.set_node(at.master, at.place as usize, node);
}

/// Takes the INFO of a data node. One that can't be read, or that isn't of a data node of the roster, changes nothing.
pub fn take_info(state: &mut State, node: NodeName, now: u64, text: &[u8])
    ensures { state.new ≡ with_part state.old (info_read state.old.plan node (clock now) (info_of text.now) (is_announced text.now) state.old.core) }
{
    if let Ok(info) = read_info(text)
        && let Some(at) = state.plan.node_named(node)
    {
        announce(&mut state.core, at, is_announced(text));
        hear_info(state, at.master, at.place, now, &info);
    }
}
