//! Answers of other Sentinels, replies to PING, and connections that were lost.

ghost use Rattle.std.specs.Prelude.{◌≡◌};
ghost use Rattle.ballot_law.specs.Clocks.{clock};
ghost use Rattle.sentinel_rules.specs.News.{answered, pinged_at, pinged, lost_at, connection_lost, disconnected, refusal_at, refusal_heard};
ghost use Rattle.sentinel_rules.specs.Plans.{node_named};

use ballot_law::{Addr, NodeName, PingReply, RunId};
use sentinel_state::State;

/// Takes the answer of a node to the question whether a master is down: whether it finds it down, and its vote. One
/// that isn't another Sentinel of the roster changes nothing.
///
/// Many parameters: those of the event, which is a reference to its parts.
pub fn hear_answer(
    state: &mut State,
    voter: NodeName,
    m: u16,
    now: u64,
    addr: Addr,
    down: bool,
    leader: Option<RunId>,
    epoch: u64,
)
    ensures { state.new ≡ record state.old {
      core
          = answered state.old.plan voter m (clock now) addr down leader epoch state.old.core;
    } }
{
    let NodeName::SentinelAt(voter) = voter else {
        return;
    };
    if state.plan.is_other(voter) && m < state.plan.master_count() {
        state.core.hear_report(voter, m, now, addr, down);
        state.core.hear_vote(voter, m, epoch, leader);
    }
}

/// Takes the reply of a data node to a PING; one that isn't of the roster changes nothing.
fn hear_node(state: &mut State, node: NodeName, now: u64, reply: PingReply)
    ensures { state.new ≡ record state.old {
      core
          = pinged_at (clock now) reply (node_named state.old.plan node) state.old.core;
    } }
{
    if let Some(at) = state.plan.node_named(node) {
        let place = at.place as usize;
        let mut node = state.core.node(at.master, place);
        node.hear_pong(now, reply);
        state.core.set_node(at.master, place, node);
    }
}

/// Takes the reply of the Sentinel at a place to a PING.
fn hear_peer(state: &mut State, place: u16, now: u64, reply: PingReply)
    ensures { state.new ≡ record state.old {
      core
          = pinged state.old.plan (NodeName.SentinelAt place) (clock now) reply state.old.core;
    } }
{
    if state.plan.is_other(place) {
        let mut peer = state.core.peer(place as usize);
        peer.hear_pong(now, reply);
        state.core.set_peer(place as usize, peer);
    }
}

/// Takes the reply of a node to a PING. One that is neither a data node nor another Sentinel of the roster changes
/// nothing.
pub fn hear_pong(state: &mut State, node: NodeName, now: u64, reply: PingReply)
    ensures { state.new ≡ record state.old { core = pinged state.old.plan node (clock now) reply state.old.core } }
{
    match node {
        NodeName::SentinelAt(place) => hear_peer(state, place, now, reply),
        NodeName::StoreAt(_) => hear_node(state, node, now, reply),
        NodeName::ClientAt(_) | NodeName::PortAt(_) => {}
    }
}

/// A connection to a data node was lost; to one that isn't of the roster nothing is kept.
fn lose_node(state: &mut State, node: NodeName)
    ensures { state.new ≡ record state.old {
      core
          = lost_at (node_named state.old.plan node) state.old.core;
    } }
{
    if let Some(at) = state.plan.node_named(node) {
        let place = at.place as usize;
        let mut node = state.core.node(at.master, place);
        node.lose();
        state.core.set_node(at.master, place, node);
    }
}

/// A connection to the Sentinel at a place was lost.
fn lose_peer(state: &mut State, place: u16)
    ensures { state.new ≡ record state.old {
      core
          = connection_lost state.old.plan (NodeName.SentinelAt place) state.old.core;
    } }
{
    if state.plan.is_other(place) {
        let mut peer = state.core.peer(place as usize);
        peer.lose();
        state.core.set_peer(place as usize, peer);
    }
}

/// A connection to a node was lost. One that is neither a data node nor another Sentinel of the roster changes nothing.
fn lose_connection(state: &mut State, node: NodeName)
    ensures { state.new ≡ record state.old { core = connection_lost state.old.plan node state.old.core } }
{
    match node {
        NodeName::SentinelAt(place) => lose_peer(state, place),
        NodeName::StoreAt(_) => lose_node(state, node),
        NodeName::ClientAt(_) | NodeName::PortAt(_) => {}
    }
}

/// Takes it that a connection to a node was lost; by the strict rules this changes nothing.
pub fn hear_loss(state: &mut State, node: NodeName)
    ensures { state.new ≡ record state.old { core = disconnected state.old.plan node state.old.core } }
{
    if state.plan.profile().is_redis() {
        lose_connection(state, node);
    }
}

/// Takes it that a data node refused an order, where that was told to bring the new master about: to hand over, or to
/// be the master.
fn refuse_at(state: &mut State, node: NodeName)
    ensures { state.new ≡ record state.old {
      core
          = refusal_at state.old.plan (node_named state.old.plan node) state.old.core;
    } }
{
    if let Some(at) = state.plan.node_named(node)
        && state
            .core
            .is_order_taker(&state.plan, at.master, at.place as usize)
    {
        state.core.refuse(at.master);
    }
}

/// Takes it that a data node refused an order; by the strict rules this changes nothing.
pub fn hear_refusal(state: &mut State, node: NodeName)
    ensures { state.new ≡ record state.old { core = refusal_heard state.old.plan node state.old.core } }
{
    if state.plan.profile().is_redis() {
        refuse_at(state, node);
    }
}
