//! A session with courtesies.

ghost use Rattle.std.specs.Prelude.{◌≡◌, ◌≤◌, ◌<◌, ◌↔◌, ◌++◌, ℕ, List, [], None, Some, Err, true, OnOk, OnErr, IfErr, IfSome, IsTrue, length, drop};
ghost use Rattle.pubsub.specs.Listening.{is_listening};
ghost use Rattle.client_commands.specs.Courtesies.{is_stranger};
ghost use Rattle.courteous_sessions.specs.Clients.{arrived, guest_of_visit, wanting, NotifiesVisit, TellsVisit, knowing, knowing_of};
ghost use Rattle.courteous_sessions.specs.GoingOn.{GoesOn, StopsInTime, IsFullOf};
ghost use Rattle.courteous_sessions.specs.Visits.{unsubscribed, Receives};

use crate::epochs::FarRequest;
use crate::exchange::Exchange;
use ballot_law::{NoMemory, Note, Roster, Text};
use client_commands::{PortFacts, Protocol};
use port_sessions::Reach;
use pubsub::Event;
use sentinel_cell::{Seat, SharedSentinel};
use sentinel_conf::ConfStore;
use sentinel_core::ServeFault;
use std::alloc::Global;
use std::marker::Model;
use std::sync::Wait;

/// The conversation with one client of a port, with courtesies. Contracts see what is known of its connection; the
/// bytes held, which came and are no whole value yet,
/// the answers, notes and events that aren't sent yet, and the fault that ended it; to which channels and patterns it
/// listens; whether it hears of new addresses, with the entry since which it does; and of each master the epoch of the
/// configuration that it was told last since then.
#[derive(Drop)]
pub struct CourteousSession {
    exchange: Exchange,
    fault: Option<ServeFault>,
}

impl Model for CourteousSession {
    ghost use Rattle.resp2.specs.Framing.Stream.{bytes_in};
    ghost use Rattle.courteous_sessions.specs.Visits.{Visit};
    ghost use Rattle.port_sessions.specs.Talks.{IsEmptied};
    ghost use Rattle.std.specs.Prelude.{◌≡◌, true};
    ghost use Rattle.courteous_sessions.specs.OnTheWay.{IsReady, IsDirect, IsSilenced};

    ghost Value = { Visit };

    ghost view = { λ session. record {
      asker = session.exchange.attendant.asker;
      held = bytes_in session.exchange.attendant.held;
      unsent = session.exchange.responder.unsent.items;
      ended = session.fault;
      listening = session.exchange.subscriptions;
      listens = session.exchange.responder.hears.listens;
      told = session.exchange.responder.hears.told;
    } };

    ghost invariant = { λ session. IsReady session.exchange.attendant session.exchange.subscriptions session.exchange.responder.hears
        × IsEmptied session.fault (bytes_in session.exchange.attendant.held) session.exchange.responder.hears.listens
        × IsSilenced session.fault session.exchange.subscriptions
        × (session.exchange.direct ≡ true → IsDirect session.exchange.attendant session.exchange.subscriptions) };
}

impl CourteousSession {
    /// A session to which no bytes came, of the connection with this number. No memory is taken.
    pub fn new(alloc: Global, id: u64) -> CourteousSession
        ensures { result ≡ arrived id }
    {
        CourteousSession {
            exchange: Exchange::new(alloc, id),
            fault: None,
        }
    }

    /// Has it want this password of its client, who didn't give it yet. Until the client gives it, each value is
    /// answered by a courtesy, and none reaches the Sentinel.
    pub fn want_password(&mut self, password: Text)
        ensures { self.new ≡ wanting self.old password }
    {
        self.exchange.want_password(password);
    }

    /// Has it know this current epoch of the Sentinel, or an earlier one: from then on a request for a vote in an epoch
    /// that is more than `EPOCHS_AHEAD` above it is answered as one of epoch 0, for which no vote is given. Before the
    /// first such call each epoch is heard as it is.
    pub fn note_epoch(&mut self, epoch: u64)
        ensures { self.new ≡ knowing self.old epoch }
    {
        self.exchange.note_epoch(epoch);
    }

    /// The last request for a vote that was answered so, where one was since this was asked.
    pub fn take_far(&mut self) -> Option<FarRequest>
        ensures { self.new ≡ self.old }
    {
        self.exchange.take_far()
    }

    /// How many values were answered since this was asked.
    pub fn take_answered(&mut self) -> u64
        ensures { self.new ≡ self.old }
    {
        self.exchange.take_answered()
    }

    /// Has it know this of its port, by which INFO and CLIENT LIST are answered from then on: what it knew before, with
    /// the places of the clients that CLIENT KILL named meanwhile. In the beginning it knows of no client.
    pub fn know_port(&mut self, port: PortFacts) -> PortFacts
        ensures before { result ≡ self.old.asker.port }
        ensures now { self.new ≡ knowing_of self.old port }
    {
        self.exchange.know_port(port)
    }

    /// The name that its client gave the connection; empty where it gave none.
    pub fn name(&self) -> &[u8]
        ensures { result.now ≡ self.now.asker.name }
    {
        self.exchange.attendant.name()
    }

    /// Which protocol its client speaks.
    pub fn protocol(&self) -> Protocol
        ensures { result ≡ self.now.asker.protocol }
    {
        self.exchange.attendant.protocol()
    }

    /// To how many channels it listens, and for how many patterns.
    pub fn subscriptions(&self) -> (u32, u32)
        ensures channels { result.0 ≡ length self.now.listening.channels }
        ensures patterns { result.1 ≡ length self.now.listening.patterns }
    {
        let listening = &self.exchange.subscriptions;
        let (channels, patterns) = (listening.channels().len(), listening.patterns().len());
        (channels as u32, patterns as u32)
    }

    /// Takes the next piece of what the client sends, of any length, at a reading of the clock in milliseconds, and
    /// puts out the answer to each value that is whole with it, in their order: that of Pub/Sub, where it has one, else
    /// that of `Session::received`, or the courtesy of the value where it has one. INFO takes a turn where it asks for
    /// the Sentinel's section, and no other courtesy takes one. The first name or pattern that matches `+switch-master`
    /// runs SUBSCRIBE in a turn; the client gets new addresses from that turn's history entry on. Nothing else of
    /// Pub/Sub takes a turn. Each answer is told in the protocol that the client speaks then: RESP2 until HELLO asks
    /// for RESP3, where one who listens has all commands.
    ///
    /// `Frame` where the bytes are no RESP2 value: the values before were answered, and `-ERR Protocol error` stands
    /// after their answers. `Halted` where a command took a turn and the Sentinel is halted: it has no answer.
    /// `NoMemory` where a growth was refused: the values before were answered, and one value more may have been carried
    /// out with no answer. No other fault comes. What was put out before stays, and from then on the session answers
    /// the same fault for good, takes nothing more, holds no bytes and listens to nothing.
    pub fn received<S: ConfStore, R: Wait>(
        &mut self,
        rt: &R,
        cell: &SharedSentinel<S>,
        seat: &mut Seat,
        now: u64,
        piece: &[u8],
    ) -> Result<(), ServeFault>
        requires own { seat.old.cell ≡ cell.now.id }
        ensures own { seat.new.cell ≡ seat.old.cell }
        // The answers to the values of the bytes held before and the piece join what is unsent, and the bytes after
        // them are held.
        ensures received { self.old.ended ≡ None → (more : List ℕ) × (self.new.unsent ≡ self.old.unsent ++ more)
            × Receives cell.now.start now (self.old.held ++ piece.now)
            (guest_of_visit self.old seat.old.view) result self.new.held more (guest_of_visit self.new seat.new.view) }
        ensures goes_on { OnOk result (self.new.ended ≡ None) }
        ensures closed { IfErr result (λ fault. self.new.ended ≡ Some fault) }
        ensures emptied { OnErr result ((self.new.held ≡ []) × (self.new.listening ≡ unsubscribed) × (self.new.listens ≡ None)) }
        // An ended session answers its fault, and nothing else happens.
        ensures ended { IfSome self.old.ended (λ fault. (result ≡ Err fault) × (self.new ≡ self.old) × (seat.new ≡ seat.old)) }
    {
        if let Some(fault) = self.fault {
            return Err(fault);
        }
        match self.exchange.take_piece(rt, cell, seat, now, piece) {
            Ok(()) => Ok(()),
            Err(fault) => {
                self.exchange.close();
                self.fault = Some(fault);
                Err(fault)
            }
        }
    }

    /// Takes the next piece as `received` does, but answers only so many values that may store: FLUSHCONFIG and
    /// requests for votes; and none once `UNSENT_MAX` bytes are unsent, so what is unsent is longer than that by less
    /// than one answer. `Done` where all whole values are answered. `Waits` where the next whole one may store, after
    /// as many, and `Full` where so much is unsent: what comes next is held, and a further call goes on with it, also
    /// one with an empty piece.
    ///
    /// The faults are those of `received`, after which the session is ended as there.
    pub fn go_on<S: ConfStore, R: Wait>(
        &mut self,
        rt: &R,
        cell: &SharedSentinel<S>,
        seat: &mut Seat,
        now: u64,
        piece: &[u8],
        most: u64,
    ) -> Result<Reach, ServeFault>
        requires own { seat.old.cell ≡ cell.now.id }
        ensures own { seat.new.cell ≡ seat.old.cell }
        // The answers to values of the bytes held before and the piece join what is unsent, and the bytes after them
        // are held.
        ensures goes_on { self.old.ended ≡ None → (more : List ℕ) × (self.new.unsent ≡ self.old.unsent ++ more)
            × GoesOn cell.now.start now most (self.old.held ++ piece.now)
            (guest_of_visit self.old seat.old.view) result self.new.held more (guest_of_visit self.new seat.new.view) }
        ensures in_time { self.old.ended ≡ None → OnOk result (StopsInTime cell.now.start now self.old.unsent self.new.unsent) }
        ensures full { self.old.ended ≡ None → IsFullOf result self.new.unsent }
        ensures open { OnOk result (self.new.ended ≡ None) }
        ensures closed { IfErr result (λ fault. self.new.ended ≡ Some fault) }
        ensures emptied { OnErr result ((self.new.held ≡ []) × (self.new.listening ≡ unsubscribed) × (self.new.listens ≡ None)) }
        // An ended session answers its fault, and nothing else happens.
        ensures ended { IfSome self.old.ended (λ fault. (result ≡ Err fault) × (self.new ≡ self.old) × (seat.new ≡ seat.old)) }
    {
        if let Some(fault) = self.fault {
            return Err(fault);
        }
        match self.exchange.take_some(rt, cell, seat, now, piece, most) {
            Ok(progress) => Ok(progress),
            Err(fault) => {
                self.exchange.close();
                self.fault = Some(fault);
                Err(fault)
            }
        }
    }

    /// The answers that aren't sent yet, as they stand on the wire.
    pub fn unsent(&self) -> &[u8]
        ensures { result.now ≡ self.now.unsent }
    {
        self.exchange.responder.unsent()
    }

    /// Whether all that came was whole values: no bytes are held.
    pub fn holds_nothing(&self) -> bool
        ensures { IsTrue result ↔ (self.now.held ≡ []) }
    {
        self.exchange.attendant.holds_nothing()
    }

    /// Whether it listens to a channel or a pattern.
    pub fn listens(&self) -> bool
        ensures { result ≡ is_listening self.now.listening }
    {
        self.exchange.subscriptions.is_listening()
    }

    /// Whether it wants a password of its client, who didn't give it yet.
    pub fn owes_password(&self) -> bool
        ensures { result ≡ is_stranger self.now.asker }
    {
        self.exchange.attendant.is_stranger()
    }

    /// Takes away the first `n` bytes of what isn't sent yet, which the connection took. No memory is taken. Room that
    /// they leave is used again, and given back where nothing is left and it was more than 16 KiB.
    pub fn sent(&mut self, n: usize)
        requires { n ≤ length self.old.unsent }
        ensures { self.new ≡ record self.old { unsent = drop n self.old.unsent } }
    {
        self.exchange.responder.sent(n);
    }

    /// Gives back the room in which nothing is held, as where its client is silent for a while; the next answer takes
    /// it anew.
    pub fn rest(&mut self)
        ensures { self.new ≡ self.old }
    {
        self.exchange.rest();
    }

    /// Tells the client of a note, where it is due, as `Session::notify` has it: whether it is. It is told on its
    /// channel, and for each pattern that matches that, in the form of Pub/Sub. After `NoMemory` the client misses a
    /// note, which may count as told to it, and nothing else changed: the connection is to be closed.
    pub fn notify(&mut self, roster: &Roster, note: &Note, entry: u64) -> Result<bool, NoMemory>
        requires { note.now.master < length roster.now.masters }
        ensures { NotifiesVisit roster.now note.now entry self.old result self.new }
    {
        self.exchange.notify(roster, note, entry)
    }

    /// Tells the client of an event, where it listens to its channel or a pattern matches that: whether anything is
    /// told. Of an event on the channel of new addresses nothing is: `notify` tells these. After `NoMemory` nothing
    /// changed, and the client misses an event: the connection is to be closed.
    pub fn tell_event(&mut self, event: &Event) -> Result<bool, NoMemory>
        ensures { TellsVisit event.now self.old result self.new }
    {
        self.exchange.tell_event(event)
    }
}
