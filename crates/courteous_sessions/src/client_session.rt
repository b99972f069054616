//! A session with courtesies or without.

ghost use Rattle.std.specs.Prelude.{◌≡◌, ◌≤◌, ◌<◌, ◌↔◌, [], IsTrue, length, drop};
ghost use Rattle.courteous_sessions.specs.Clients.{begun, unsent_of, held_of, listens_of, owes_password, wanting_password, with_unsent, Takes, TakesSome, NotifiesClient, TellsClient, knowing_epoch, port_before, knowing_port, protocol_of, name_of, listening_of};

use crate::courteous_session::CourteousSession;
use crate::epochs::FarRequest;
use ballot_law::{NoMemory, Note, Roster, Text};
use client_commands::{PortFacts, Protocol};
use port_sessions::{Reach, Session};
use pubsub::Event;
use sentinel_cell::{Seat, SharedSentinel};
use sentinel_conf::ConfStore;
use sentinel_core::ServeFault;
use std::alloc::Global;
use std::sync::Wait;

/// The conversation with one client of a port.
#[derive(Drop)]
pub enum ClientSession {
    /// Without courtesies: the session of `port_sessions`.
    Plain(Session),
    /// With courtesies.
    Courteous(CourteousSession),
}

impl ClientSession {
    /// A session to which no bytes came, with courtesies or without, of the connection with this number. No memory is
    /// taken.
    pub fn new(alloc: Global, courteous: bool, id: u64) -> ClientSession
        ensures { result ≡ begun courteous id }
    {
        if courteous {
            ClientSession::Courteous(CourteousSession::new(alloc, id))
        } else {
            ClientSession::Plain(Session::new(alloc))
        }
    }

    /// Has a session with courtesies want this password of its client, who didn't give it yet; one without wants none.
    pub fn want_password(&mut self, password: Text)
        ensures { self.new ≡ wanting_password self.old password }
    {
        match self {
            ClientSession::Plain(_) => {}
            ClientSession::Courteous(session) => session.want_password(password),
        }
    }

    /// Has a session with courtesies know this current epoch of the Sentinel, or an earlier one, as
    /// `CourteousSession::note_epoch`; one without hears each epoch as it is.
    pub fn note_epoch(&mut self, epoch: u64)
        ensures { self.new ≡ knowing_epoch self.old epoch }
    {
        match self {
            ClientSession::Plain(_) => {}
            ClientSession::Courteous(session) => session.note_epoch(epoch),
        }
    }

    /// The last request for a vote whose epoch was too far above that, where one came since this was asked.
    pub fn take_far(&mut self) -> Option<FarRequest>
        ensures { self.new ≡ self.old }
    {
        match self {
            ClientSession::Plain(_) => None,
            ClientSession::Courteous(session) => session.take_far(),
        }
    }

    /// How many values a session with courtesies answered since this was asked; none of one without.
    pub fn take_answered(&mut self) -> u64
        ensures { self.new ≡ self.old }
    {
        match self {
            ClientSession::Plain(_) => 0,
            ClientSession::Courteous(session) => session.take_answered(),
        }
    }

    /// Has a session with courtesies know this of its port, as `CourteousSession::know_port`: what it knew before. One
    /// without gives it back.
    pub fn know_port(&mut self, port: PortFacts) -> PortFacts
        ensures before { result ≡ port_before self.old port }
        ensures now { self.new ≡ knowing_port self.old port }
    {
        match self {
            ClientSession::Plain(_) => port,
            ClientSession::Courteous(session) => session.know_port(port),
        }
    }

    /// The name that its client gave the connection; empty where it gave none.
    pub fn name(&self) -> &[u8]
        ensures { result.now ≡ name_of self.now }
    {
        match self {
            ClientSession::Plain(_) => &[],
            ClientSession::Courteous(session) => session.name(),
        }
    }

    /// Which protocol its client speaks.
    pub fn protocol(&self) -> Protocol
        ensures { result ≡ protocol_of self.now }
    {
        match self {
            ClientSession::Plain(_) => Protocol::Two,
            ClientSession::Courteous(session) => session.protocol(),
        }
    }

    /// To how many channels a session with courtesies listens, and for how many patterns; of one without none is
    /// counted.
    pub fn subscriptions(&self) -> (u32, u32)
        ensures channels { result.0 ≡ length (listening_of self.now).channels }
        ensures patterns { result.1 ≡ length (listening_of self.now).patterns }
    {
        match self {
            ClientSession::Plain(_) => (0, 0),
            ClientSession::Courteous(session) => session.subscriptions(),
        }
    }

    /// Takes the next piece of what the client sends, at a reading of the clock in milliseconds: as `Session::received`
    /// without courtesies, and as `CourteousSession::received` with them.
    pub fn received<S: ConfStore, R: Wait>(
        &mut self,
        rt: &R,
        cell: &SharedSentinel<S>,
        seat: &mut Seat,
        now: u64,
        piece: &[u8],
    ) -> Result<(), ServeFault>
        requires own { seat.old.cell ≡ cell.now.id }
        ensures own { seat.new.cell ≡ seat.old.cell }
        ensures takes { Takes cell.now.start now piece.now result seat.old.view seat.new.view self.old self.new }
    {
        match self {
            ClientSession::Plain(session) => session.received(rt, cell, seat, now, piece),
            ClientSession::Courteous(session) => session.received(rt, cell, seat, now, piece),
        }
    }

    /// Takes the next piece, and answers only so many values that may store: as `Session::go_on` without courtesies,
    /// and as `CourteousSession::go_on` with them, which stops once `UNSENT_MAX` bytes are unsent.
    pub fn go_on<S: ConfStore, R: Wait>(
        &mut self,
        rt: &R,
        cell: &SharedSentinel<S>,
        seat: &mut Seat,
        now: u64,
        piece: &[u8],
        most: u64,
    ) -> Result<Reach, ServeFault>
        requires own { seat.old.cell ≡ cell.now.id }
        ensures own { seat.new.cell ≡ seat.old.cell }
        ensures takes { TakesSome cell.now.start now most piece.now result seat.old.view seat.new.view self.old self.new }
    {
        match self {
            ClientSession::Plain(session) => session.go_on(rt, cell, seat, now, piece, most),
            ClientSession::Courteous(session) => session.go_on(rt, cell, seat, now, piece, most),
        }
    }

    /// The answers that aren't sent yet, as they stand on the wire.
    pub fn unsent(&self) -> &[u8]
        ensures { result.now ≡ unsent_of self.now }
    {
        match self {
            ClientSession::Plain(session) => session.unsent(),
            ClientSession::Courteous(session) => session.unsent(),
        }
    }

    /// Whether all that came was whole values: no bytes are held.
    pub fn holds_nothing(&self) -> bool
        ensures { IsTrue result ↔ (held_of self.now ≡ []) }
    {
        match self {
            ClientSession::Plain(session) => session.holds_nothing(),
            ClientSession::Courteous(session) => session.holds_nothing(),
        }
    }

    /// Whether its client listens: one that doesn't is told of no note and no event.
    pub fn listens(&self) -> bool
        ensures { result ≡ listens_of self.now }
    {
        match self {
            ClientSession::Plain(session) => session.listens(),
            ClientSession::Courteous(session) => session.listens(),
        }
    }

    /// Whether it wants a password of its client, who didn't give it yet.
    pub fn owes_password(&self) -> bool
        ensures { result ≡ owes_password self.now }
    {
        match self {
            ClientSession::Plain(_) => false,
            ClientSession::Courteous(session) => session.owes_password(),
        }
    }

    /// Takes away the first `n` bytes of what isn't sent yet, which the connection took. No memory is taken.
    pub fn sent(&mut self, n: usize)
        requires { n ≤ length (unsent_of self.old) }
        ensures unsent { unsent_of self.new ≡ drop n (unsent_of self.old) }
        ensures rest { self.new ≡ with_unsent self.old (drop n (unsent_of self.old)) }
    {
        match self {
            ClientSession::Plain(session) => session.sent(n),
            ClientSession::Courteous(session) => session.sent(n),
        }
    }

    /// Gives back the room in which nothing is held, as where its client is silent for a while; the next answer takes
    /// it anew.
    pub fn rest(&mut self)
        ensures { self.new ≡ self.old }
    {
        match self {
            ClientSession::Plain(session) => session.rest(),
            ClientSession::Courteous(session) => session.rest(),
        }
    }

    /// Tells the client of a note, where it is due, as `Session::notify` and `CourteousSession::notify` do: whether it
    /// is.
    pub fn notify(&mut self, roster: &Roster, note: &Note, entry: u64) -> Result<bool, NoMemory>
        requires { note.now.master < length roster.now.masters }
        ensures { NotifiesClient roster.now note.now entry self.old result self.new }
    {
        match self {
            ClientSession::Plain(session) => session.notify(roster, note, entry),
            ClientSession::Courteous(session) => session.notify(roster, note, entry),
        }
    }

    /// Tells the client of an event, as `CourteousSession::tell_event` does: whether anything is told. A session
    /// without courtesies is told none.
    pub fn tell_event(&mut self, event: &Event) -> Result<bool, NoMemory>
        ensures { TellsClient event.now self.old result self.new }
    {
        match self {
            ClientSession::Plain(_) => Ok(false),
            ClientSession::Courteous(session) => session.tell_event(event),
        }
    }
}
