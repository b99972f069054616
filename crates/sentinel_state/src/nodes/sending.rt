//! What is due to be sent: PINGs to the other Sentinels; PINGs, INFO and hellos to the data nodes.

ghost use Rattle.std.specs.Prelude.{◌≡◌, ◌≤◌, length, if◌then◌else◌};
ghost use Rattle.sentinel_rules.specs.declared.periods.TheConstants.{BUSY_INFO_MS, HEIR_INFO_MS, INFO_MS};
ghost use Rattle.ballot_law.specs.declared.rosters.TheConstants.{NODES_MAX, SENTINELS_MAX};
ghost use Rattle.ballot_law.specs.Clocks.{clock};
ghost use Rattle.sentinel_rules.specs.Parts.{changed_from, frames_from};
ghost use Rattle.sentinel_rules.specs.States.{is_at};
ghost use Rattle.sentinel_rules.specs.Ticks.{is_due, sent_at, ping_period, is_peer_due, peer_after, peer_frames, had_link_down, is_ping_due, is_info_due, is_hello_due, node_after, node_frames};
ghost use Rattle.sentinel_state.specs.Nodes.Room.{added};

use crate::nodes::contacts::wait;
use crate::nodes::frame_list::FrameList;
use crate::nodes::node::Node;
use crate::nodes::peers::Peer;
use crate::nodes::plans::Plan;
use ballot_law::{Info, NodeName};
use sentinel_rules::{BUSY_INFO_MS, Frame, HEIR_INFO_MS, INFO_MS, PING_MS};
use std::marker::Model;

/// Whether what was last sent at that moment is to be sent again: it never was, or at a later reading, or so long ago.
fn is_due(sent: Option<u64>, now: u64, period: u64) -> bool
    ensures { result ≡ is_due sent now period }
{
    match sent {
        Some(sent) => now < sent || period <= now - sent,
        None => true,
    }
}

/// When it was last sent, after a moment at which it is sent where it is due.
fn sent_at(due: bool, now: u64, sent: Option<u64>) -> Option<u64>
    ensures { result ≡ sent_at due now sent }
{
    if due { Some(now) } else { sent }
}

/// How often a PING is sent to the nodes of a master.
pub fn ping_period(plan: &Plan, m: u16) -> u64
    ensures { result ≡ ping_period plan.now m }
{
    PING_MS.min(plan.settings(m).after_ms)
}

impl Peer {
    /// Whether a PING to the Sentinel at a place is due: never to itself, and by the first master's setting.
    fn is_ping_due(&self, plan: &Plan, now: u64, place: usize) -> bool
        ensures { result ≡ is_peer_due plan.now now place self.now }
    {
        place != plan.place() as usize && is_due(self.ping_sent, now, ping_period(plan, 0))
    }

    /// Sends the Sentinel at a place its PING where it is due.
    fn send(&mut self, plan: &Plan, now: u64, place: usize, frames: &mut FrameList)
        requires { place ≤ SENTINELS_MAX }
        ensures peer { self.new ≡ peer_after plan.now now place self.old }
        ensures frames { frames.new ≡ added frames.old (peer_frames plan.now now place self.old) }
    {
        let due = self.is_ping_due(plan, now, place);
        frames.push_if(due, Frame::PingTo(NodeName::SentinelAt(place as u16)));
        self.ping_sent = sent_at(due, now, self.ping_sent);
        wait(&mut self.contact, due, now);
    }
}

/// Sends each other Sentinel its PING where it is due. `now` is at most 2^62, here and below.
pub fn send_each_peer(peers: &mut [Peer], plan: &Plan, now: u64, frames: &mut FrameList)
    requires { length peers.old ≤ SENTINELS_MAX }
    ensures peers { peers.new ≡ changed_from (peer_after plan.now now) 0 peers.old }
    ensures frames { frames.new ≡ added frames.old (frames_from (peer_frames plan.now now) 0 peers.old) }
{
    for place in 0..peers.len() {
        peers[place].send(plan, now, place, frames);
    }
}

/// What decides which messages to a master's nodes are due.
#[derive(Clone, Copy)]
pub struct Sending {
    /// The reading of the clock, in milliseconds, at most 2^62.
    pub now: u64,
    /// How often a PING is sent, in milliseconds.
    pub ping_ms: u64,
    /// The place of the node that the configuration names.
    pub card_place: usize,
    /// Whether the master was objectively down at its last tick, or fails over.
    pub is_busy: bool,
    /// The place of the replica to which the master was told to hand over.
    pub heir: Option<u16>,
    /// The place of the node that the node of the configuration follows, where it does.
    pub followed: Option<usize>,
    /// Whether these two are looked at as often as the replica to which the master was told to hand over.
    pub looks: bool,
    /// How often a hello is sent, in milliseconds.
    pub hello_ms: u64,
}

impl Model for Sending {
    ghost use Rattle.sentinel_rules.specs.Ticks.{Sending as SendingModel};

    ghost Value = { SendingModel };

    ghost view = { λ s. record {
      now = s.now;
      ping_ms = s.ping_ms;
      card_place = s.card_place;
      is_busy = s.is_busy;
      heir = s.heir;
      followed = s.followed;
      looks = s.looks;
      hello_ms = s.hello_ms;
    } };

    ghost inverse = { λ s. record {
      now = s.now;
      ping_ms = s.ping_ms;
      card_place = s.card_place;
      is_busy = s.is_busy;
      heir = s.heir;
      followed = s.followed;
      looks = s.looks;
      hello_ms = s.hello_ms;
    } };
}

/// Whether the last INFO said that the link to the master was down for a while.
fn had_link_down(info: Option<Info>) -> bool
    ensures { result ≡ had_link_down info }
{
    match info {
        Some(info) => info.link_down_s > 0,
        None => false,
    }
}

/// Whether this is the place.
pub(crate) fn is_at(place: Option<u16>, k: usize) -> bool
    ensures { result ≡ is_at place k }
{
    match place {
        Some(place) => k == place as usize,
        None => false,
    }
}

/// Whether this is the place of the node that is followed.
fn is_followed(place: Option<usize>, k: usize) -> bool
    ensures { result ≡ is_at place k }
{
    match place {
        Some(place) => k == place,
        None => false,
    }
}

/// How often INFO is sent to a node: to the one to which the master hands over, to one that is asked soon, or to any.
fn info_period(is_heir: bool, is_soon: bool) -> u64
    ensures { result ≡ if is_heir then HEIR_INFO_MS else (if is_soon then BUSY_INFO_MS else INFO_MS) }
{
    if is_heir {
        return HEIR_INFO_MS;
    }
    if is_soon { BUSY_INFO_MS } else { INFO_MS }
}

impl Node {
    /// Whether a PING is due: each second, or as often as the master's setting asks.
    fn is_ping_due(&self, sending: Sending) -> bool
        ensures { result ≡ is_ping_due sending self.now }
    {
        is_due(self.ping_sent, sending.now, sending.ping_ms)
    }

    /// Whether INFO is due of the node at a place: each 10 seconds, each second of a replica whose master is down or
    /// fails over, or whose link was down, and each 20 ms of the one to which the master hands over, and of a
    /// master that may do so and the node that it follows then.
    fn is_info_due(&self, sending: Sending, k: usize) -> bool
        ensures { result ≡ is_info_due sending k self.now }
    {
        let is_card = k == sending.card_place;
        let is_switching = is_card || is_followed(sending.followed, k);
        let is_looked_at = is_at(sending.heir, k) || sending.looks && is_switching;
        let is_soon = !is_card && (sending.is_busy || had_link_down(self.info));
        is_due(
            self.info_sent,
            sending.now,
            info_period(is_looked_at, is_soon),
        )
    }

    /// Whether a hello is due.
    fn is_hello_due(&self, sending: Sending) -> bool
        ensures { result ≡ is_hello_due sending self.now }
    {
        is_due(self.hello_sent, sending.now, sending.hello_ms)
    }

    /// Sends the node at a place of a master what is due: PING, INFO, hello.
    #[tactic(auto, using(crate::proofs::NodesLemmas::RoomLemmas::added_both))]
    fn send(&mut self, plan: &Plan, m: u16, sending: Sending, k: usize, frames: &mut FrameList)
        requires { k ≤ NODES_MAX }
        ensures node { self.new ≡ node_after sending k self.old }
        ensures frames { frames.new ≡ added frames.old (node_frames plan.now m sending k self.old) }
    {
        let ping = self.is_ping_due(sending);
        let info = self.is_info_due(sending, k);
        let hello = self.is_hello_due(sending);
        if !ping && !info && !hello {
            return;
        }
        let name = plan.node_name(m, k);
        frames.push_if(ping, Frame::PingTo(name));
        frames.push_if(info, Frame::InfoTo(name));
        frames.push_if(
            hello,
            Frame::HelloTo {
                target: name,
                master: m,
            },
        );
        self.ping_sent = sent_at(ping, sending.now, self.ping_sent);
        wait(&mut self.contact, ping, sending.now);
        self.info_sent = sent_at(info, sending.now, self.info_sent);
        self.hello_sent = sent_at(hello, sending.now, self.hello_sent);
    }
}

/// Sends each node of a master what is due.
pub fn send_each_node(
    nodes: &mut [Node],
    plan: &Plan,
    m: u16,
    sending: Sending,
    frames: &mut FrameList,
)
    requires { length nodes.old ≤ NODES_MAX }
    ensures nodes { nodes.new ≡ changed_from (node_after sending) 0 nodes.old }
    ensures frames { frames.new ≡ added frames.old (frames_from (node_frames plan.now m sending) 0 nodes.old) }
{
    for k in 0..nodes.len() {
        nodes[k].send(plan, m, sending, k, frames);
    }
}
