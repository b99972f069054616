//! What is kept of a Sentinel of the roster.

ghost use Rattle.std.specs.Prelude.{◌≡◌};
ghost use Rattle.ballot_law.specs.Clocks.{clock};
ghost use Rattle.sentinel_rules.specs.News.{peer_greeted, peer_lost, peer_pinged};
ghost use Rattle.sentinel_rules.specs.States.{new_peer};

use crate::nodes::contacts::{hear_reply, lost_after, new_contact};
use ballot_law::{PingReply, clock_of};
use down_detector::Watch;
use sentinel_rules::Contact;
use std::marker::Model;

/// What is kept of a Sentinel of the roster: its watch, when it was last sent a PING, and whether of a connection to it
/// was last heard that it was lost. For those who ask: how its connection stands, and when its last hello came.
#[derive(Clone, Copy)]
pub struct Peer {
    pub watch: Watch,
    pub ping_sent: Option<u64>,
    pub lost: bool,
    pub contact: Contact,
    pub greeted: u64,
}

impl Model for Peer {
    ghost use Rattle.sentinel_rules.specs.States.{PeerState};

    ghost Value = { PeerState };

    ghost view = { λ peer. record { watch = peer.watch; ping_sent = peer.ping_sent; lost = peer.lost; contact = peer.contact; greeted = peer.greeted } };

    ghost inverse = { λ peer. record { watch = peer.watch; ping_sent = peer.ping_sent; lost = peer.lost; contact = peer.contact; greeted = peer.greeted } };
}

impl Peer {
    /// A Sentinel of which nothing was heard yet.
    pub fn new(now: u64) -> Peer
        ensures { result ≡ new_peer (clock now) }
    {
        Peer {
            watch: Watch::new(now),
            ping_sent: None,
            lost: false,
            contact: new_contact(now),
            greeted: clock_of(now),
        }
    }

    /// It replied to a PING.
    pub fn hear_pong(&mut self, now: u64, reply: PingReply)
        ensures { self.new ≡ peer_pinged (clock now) reply self.old }
    {
        self.watch.heard(now, reply);
        self.lost = lost_after(reply, self.lost);
        hear_reply(&mut self.contact, now, reply);
    }

    /// Its hello came.
    pub fn greet(&mut self, now: u64)
        ensures { self.new ≡ peer_greeted (clock now) self.old }
    {
        self.greeted = clock_of(now);
    }

    /// A connection to it was lost.
    pub fn lose(&mut self)
        ensures { self.new ≡ peer_lost self.old }
    {
        self.lost = true;
    }
}
