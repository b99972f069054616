//! Which connections of a thread have something to do, and in which order.

ghost use Rattle.std.specs.Prelude.{◌≡◌, ◌<◌, true, false};

use crate::key_queue::KeyQueue;
use std::alloc::{AllocError, Global};

/// Where a connection that has something to do waits for its turn.
#[derive(Clone, Copy, PartialEq, Eq)]
pub(crate) enum Line {
    /// None of what it asked is stored before it is answered, as far as it was read.
    Plain,
    /// The same, and it comes from an address of another Sentinel.
    Peer,
    /// What it asks next may be, and it comes from an address of another Sentinel.
    PeerVoter,
    /// The same, and it comes from elsewhere.
    OtherVoter,
}

/// The lines of those that have something to do, those that may have something to send, those that listen, and those
/// that had a turn or were told something since they gave back their room last. Of the voters' turns every second one
/// is that of a peer, where one waits; `peer_was_last` is whether the last one was.
#[derive(Drop)]
pub(crate) struct Waiting {
    pub(crate) plain: KeyQueue,
    pub(crate) peers: KeyQueue,
    peer_voters: KeyQueue,
    other_voters: KeyQueue,
    pub(crate) sending: KeyQueue,
    pub(crate) listeners: KeyQueue,
    pub(crate) active: KeyQueue,
    peer_was_last: bool,
}

/// Whether the next voter's turn is a peer's, where so many peers wait and so many others.
fn is_peers_turn(peer_was_last: bool, peers: usize, others: usize) -> bool
    ensures peers { 0 < peers → peer_was_last ≡ false → result ≡ true }
    ensures others { 0 < others → peer_was_last ≡ true → result ≡ false }
    ensures alone { 0 < peers → others ≡ 0 → result ≡ true }
{
    others == 0 || (peers > 0 && !peer_was_last)
}

impl Waiting {
    /// None waits. No memory is taken.
    pub(crate) fn new(alloc: Global) -> Waiting {
        Waiting {
            plain: KeyQueue::new(alloc),
            peers: KeyQueue::new(alloc),
            peer_voters: KeyQueue::new(alloc),
            other_voters: KeyQueue::new(alloc),
            sending: KeyQueue::new(alloc),
            listeners: KeyQueue::new(alloc),
            active: KeyQueue::new(alloc),
            peer_was_last: false,
        }
    }

    /// Has room for the connection with this key.
    pub(crate) fn make_room(&mut self, key: usize) -> Result<(), AllocError> {
        self.plain.make_room(key)?;
        self.peers.make_room(key)?;
        self.peer_voters.make_room(key)?;
        self.other_voters.make_room(key)?;
        self.sending.make_room(key)?;
        self.listeners.make_room(key)?;
        self.active.make_room(key)
    }

    /// A connection waits in this line, where it doesn't yet.
    pub(crate) fn join(&mut self, line: Line, key: usize) {
        match line {
            Line::Plain => self.plain.join(key),
            Line::Peer => self.peers.join(key),
            Line::PeerVoter => self.peer_voters.join(key),
            Line::OtherVoter => self.other_voters.join(key),
        }
    }

    /// How many wait for what may be stored.
    pub(crate) fn voter_count(&self) -> usize {
        self.peer_voters
            .len()
            .saturating_add(self.other_voters.len())
    }

    /// Whether one has something to do.
    pub(crate) fn is_busy(&self) -> bool {
        self.plain.len() > 0 || self.peers.len() > 0 || self.voter_count() > 0
    }

    /// The one of these whose turn it is: a peer's after that of another one, and another one's after a peer's, where
    /// there are both.
    pub(crate) fn next_voter(&mut self) -> Option<usize> {
        let (peers, others) = (self.peer_voters.len(), self.other_voters.len());
        let is_peers = is_peers_turn(self.peer_was_last, peers, others);
        self.peer_was_last = is_peers;
        if is_peers {
            self.peer_voters.next()
        } else {
            self.other_voters.next()
        }
    }
}
