//! What is kept of a data node.

ghost use Rattle.std.specs.Prelude.{◌≡◌, None, if◌then◌else◌, map, unwrap_or};
ghost use Rattle.ballot_law.specs.Clocks.{clock};
ghost use Rattle.ballot_law.specs.Watches.{earlier_of, down_since_of};
ghost use Rattle.sentinel_rules.specs.declared.assumed.TheConstants.{ASSUMED_INFO};
ghost use Rattle.sentinel_rules.specs.News.{forgotten, hello_soon, moved, relocated, node_announced, node_lost, node_pinged, loading_after, is_another, rebooted_after, with_info};
ghost use Rattle.sentinel_rules.specs.States.{new_node, loading_since};

use crate::nodes::contacts::{hear_reply, lost_after, new_contact, role_since};
use ballot_law::{Info, PingReply, RunId, clock_of};
use down_detector::Watch;
use replica_choice::Candidate;
use sentinel_rules::{ASSUMED_INFO, Contact, Profile};
use std::marker::Model;

/// What is kept of a data node. Moments are readings of the Sentinel's clock in milliseconds, at most 2^62.
#[derive(Clone, Copy)]
pub struct Node {
    pub watch: Watch,
    /// When its last valid reply to a PING came.
    pub last_ping: Option<u64>,
    /// What its last INFO said, and when it came.
    pub info: Option<Info>,
    pub info_at: Option<u64>,
    /// When it was last sent a PING, an INFO and a hello.
    pub ping_sent: Option<u64>,
    pub info_sent: Option<u64>,
    pub hello_sent: Option<u64>,
    /// Since when it has said that it is a master though it isn't, or followed another master.
    pub wrong_role: Option<u64>,
    pub wrong_address: Option<u64>,
    /// Whether of a connection to it was last heard that it was lost.
    pub lost: bool,
    /// Since when it has been loading its data after a restart.
    pub rebooted: Option<u64>,
    /// For those who ask: how its connection stands, since when it has said that it has its role, and whether it may be
    /// told to clients.
    pub contact: Contact,
    pub role_since: u64,
    pub announced: bool,
}

impl Model for Node {
    ghost use Rattle.sentinel_rules.specs.States.{NodeState};

    ghost Value = { NodeState };

    ghost view = { λ node. record {
      watch = node.watch;
      last_ping = node.last_ping;
      info = node.info;
      info_at = node.info_at;
      ping_sent = node.ping_sent;
      info_sent = node.info_sent;
      hello_sent = node.hello_sent;
      wrong_role = node.wrong_role;
      wrong_address = node.wrong_address;
      lost = node.lost;
      rebooted = node.rebooted;
      contact = node.contact;
      role_since = node.role_since;
      announced = node.announced;
    } };

    ghost inverse = { λ node. record {
      watch = node.watch;
      last_ping = node.last_ping;
      info = node.info;
      info_at = node.info_at;
      ping_sent = node.ping_sent;
      info_sent = node.info_sent;
      hello_sent = node.hello_sent;
      wrong_role = node.wrong_role;
      wrong_address = node.wrong_address;
      lost = node.lost;
      rebooted = node.rebooted;
      contact = node.contact;
      role_since = node.role_since;
      announced = node.announced;
    } };
}

/// The earlier of two moments.
pub(crate) fn earlier_of(a: Option<u64>, b: Option<u64>) -> Option<u64>
    ensures { result ≡ earlier_of a b }
{
    match (a, b) {
        (Some(a), Some(b)) => Some(a.min(b)),
        (Some(a), None) => Some(a),
        (None, b) => b,
    }
}

/// Since when a node that has been loading since a moment has been down for it.
fn loading_since(since: Option<u64>, period: u64, at: u64) -> Option<u64>
    ensures { result ≡ loading_since since period at }
{
    if period == 0 {
        return None;
    }
    match since {
        Some(since) => {
            if at.saturating_sub(since) > period {
                Some(since + period)
            } else {
                None
            }
        }
        None => None,
    }
}

/// Since when a node has been loading after a reply.
fn loading_after(reply: PingReply, since: Option<u64>) -> Option<u64>
    ensures { result ≡ loading_after reply since }
{
    match reply {
        PingReply::Pong => None,
        PingReply::Loading | PingReply::MasterDown | PingReply::Other => since,
    }
}

/// Whether a node tells another run id than before.
fn is_another(before: Option<RunId>, after: Option<RunId>) -> bool
    ensures { result ≡ is_another before after }
{
    match (before, after) {
        (Some(before), Some(after)) => !before.is_same(&after),
        (Some(_), None) => false,
        (None, _) => false,
    }
}

/// Since when a node has been loading after an INFO with this run id.
fn rebooted_after(
    now: u64,
    id: Option<RunId>,
    before: Option<Info>,
    since: Option<u64>,
) -> Option<u64>
    ensures { result ≡ rebooted_after (clock now) id before since }
{
    match before {
        Some(before) => {
            if is_another(before.id, id) {
                Some(clock_of(now))
            } else {
                since
            }
        }
        None => since,
    }
}

impl Node {
    /// A node of which nothing was heard yet.
    pub fn new(now: u64) -> Node
        ensures { result ≡ new_node (clock now) }
    {
        Node {
            watch: Watch::new(now),
            last_ping: None,
            info: None,
            info_at: None,
            ping_sent: None,
            info_sent: None,
            hello_sent: None,
            wrong_role: None,
            wrong_address: None,
            lost: false,
            rebooted: None,
            contact: new_contact(now),
            role_since: clock_of(now),
            announced: true,
        }
    }

    /// It replied to a PING.
    pub fn hear_pong(&mut self, now: u64, reply: PingReply)
        ensures { self.new ≡ node_pinged (clock now) reply self.old }
    {
        self.watch.heard(now, reply);
        self.lost = lost_after(reply, self.lost);
        self.rebooted = loading_after(reply, self.rebooted);
        hear_reply(&mut self.contact, now, reply);
        match reply {
            PingReply::Pong | PingReply::Loading | PingReply::MasterDown => {
                self.last_ping = Some(clock_of(now));
            }
            PingReply::Other => {}
        }
    }

    /// Its INFO, the moment and the role are kept.
    pub fn keep_info(&mut self, now: u64, info: &Info)
        ensures { self.new ≡ with_info (clock now) info.now self.old }
    {
        self.role_since = role_since(now, info.role, self.info, self.role_since);
        self.rebooted = rebooted_after(now, info.id, self.info, self.rebooted);
        self.info = Some(*info);
        self.info_at = Some(clock_of(now));
        self.watch.reported(now, info.role);
        self.lost = false;
    }

    /// Whether it may be told to clients is kept.
    pub fn announce(&mut self, announced: bool)
        ensures { self.new ≡ node_announced announced self.old }
    {
        self.announced = announced;
    }

    /// A connection to it was lost.
    pub fn lose(&mut self)
        ensures { self.new ≡ node_lost self.old }
    {
        self.lost = true;
    }

    /// It is sent a hello at the next tick.
    pub fn hello_soon(&mut self)
        ensures { self.new ≡ hello_soon self.old }
    {
        self.hello_sent = None;
    }

    /// Its master is at a new address: it has nothing to be wrong about yet.
    fn moved(&mut self, now: u64)
        ensures { self.new ≡ moved (clock now) self.old }
    {
        self.watch.card_changed(now);
        self.hello_sent = None;
        self.wrong_role = None;
        self.wrong_address = None;
        self.rebooted = None;
    }

    /// What it told by INFO is forgotten, and INFO is due at once. For those who ask, its times begin now.
    fn forget(&mut self, now: u64)
        ensures { self.new ≡ forgotten (clock now) self.old }
    {
        self.info = None;
        self.info_at = None;
        self.info_sent = None;
        self.contact = new_contact(now);
        self.role_since = clock_of(now);
    }

    /// Its master is at a new address: by the profile what it told is forgotten too.
    pub fn relocate(&mut self, profile: Profile, now: u64)
        ensures { self.new ≡ relocated profile (clock now) self.old }
    {
        self.moved(now);
        match profile {
            Profile::Strict => {}
            Profile::Redis => self.forget(now),
        }
    }

    /// Since when it has been subjectively down, where it is to be the master or not, and may load its data for so long
    /// after a restart.
    pub fn down_since(
        &self,
        now: u64,
        after_ms: u64,
        as_master: bool,
        reboot_ms: u64,
    ) -> Option<u64>
        ensures { result ≡ earlier_of (down_since_of self.now.watch (clock now) after_ms as_master)
            (if as_master then loading_since self.now.rebooted reboot_ms (clock now) else None) }
    {
        let down = self.watch.sdown_since(now, after_ms, as_master);
        if as_master {
            return earlier_of(down, loading_since(self.rebooted, reboot_ms, clock_of(now)));
        }
        down
    }

    /// What is known of it as a replica to choose.
    pub fn candidate(&self, sdown: bool) -> Candidate
        ensures { result ≡ record {
          sdown = sdown;
          priority = (unwrap_or self.now.info ASSUMED_INFO).priority;
          link_down_s = (unwrap_or self.now.info ASSUMED_INFO).link_down_s;
          last_ping = self.now.last_ping;
          last_info = self.now.info_at;
          offset = (unwrap_or self.now.info ASSUMED_INFO).offset;
          id = (unwrap_or self.now.info ASSUMED_INFO).id;
        } }
    {
        let info = self.info.unwrap_or(ASSUMED_INFO);
        Candidate {
            sdown,
            priority: info.priority,
            link_down_s: info.link_down_s,
            last_ping: self.last_ping,
            last_info: self.info_at,
            offset: info.offset,
            id: info.id,
        }
    }
}

/// Each node is sent a hello at the next tick.
pub fn greet_soon(nodes: &mut [Node])
    ensures { nodes.new ≡ map hello_soon nodes.old }
{
    for node in nodes.iter_mut() {
        node.hello_soon();
    }
}

/// The master of these nodes is at a new address.
pub fn move_all(nodes: &mut [Node], profile: Profile, now: u64)
    ensures { nodes.new ≡ map (relocated profile (clock now)) nodes.old }
{
    for node in nodes.iter_mut() {
        node.relocate(profile, now);
    }
}
