//! A session as its callers see it.

ghost use Rattle.std.specs.Prelude.{◌≡◌, ◌≤◌, ◌<◌, ◌↔◌, ◌++◌, ℕ, List, [], None, Some, OnOk, OnErr, IfOk, IfErr, IfSome, IsTrue, MatchResult, length, drop};
ghost use Rattle.std.specs.Option.{is_some};
ghost use Rattle.port_sessions.specs.Notes.{none_told, Notifies};
ghost use Rattle.port_sessions.specs.GoingOn.{GoesOn};
ghost use Rattle.port_sessions.specs.Talks.{EndsSession, Receives, party};
ghost use Rattle.ballot_law.specs.Limits.{IsWithin};

use crate::exchange::Exchange;
use crate::limit::Reach;
use ballot_law::{Command, NoMemory, Note, Roster};
use resp2::CommandFault;
use sentinel_cell::{Seat, SharedSentinel};
use sentinel_conf::ConfStore;
use sentinel_core::ServeFault;
use std::alloc::Global;
use std::marker::Model;
use std::sync::Wait;

/// The conversation with one client of a port. Contracts see the bytes held, which came and are no whole value yet, the
/// answers and notes that aren't sent yet, and the fault that ended it; whether it listens to notes, with the entry of
/// its SUBSCRIBE; and of each master the epoch of the configuration that it was told last.
#[derive(Drop)]
pub struct Session {
    exchange: Exchange,
    fault: Option<ServeFault>,
}

impl Model for Session {
    ghost use Rattle.std.specs.Prelude.{◌≡◌};
    ghost use Rattle.resp2.specs.Framing.Stream.{reading, bytes_in};
    ghost use Rattle.port_sessions.specs.Talks.{Talk, IsEmptied};

    ghost Value = { Talk };

    ghost view = { λ session. record {
      held = bytes_in session.exchange.frames;
      unsent = session.exchange.responder.unsent.items;
      ended = session.fault;
      listens = session.exchange.responder.hears.listens;
      told = session.exchange.responder.hears.told;
    } };

    ghost invariant = { λ session. (session.exchange.frames ≡ reading (bytes_in session.exchange.frames))
        × IsEmptied session.fault (bytes_in session.exchange.frames) session.exchange.responder.hears.listens };
}

impl Session {
    /// A session to which no bytes came. No memory is taken.
    pub fn new(alloc: Global) -> Session
        ensures { result ≡ record { held = []; unsent = []; ended = None; listens = None; told = none_told } }
    {
        Session {
            exchange: Exchange::new(alloc),
            fault: None,
        }
    }

    /// Takes the next piece of what the client sends, of any length, at a reading of the clock in milliseconds, and
    /// puts out the answer to each value that is whole with it, in their order. It waits for the Sentinel's turn where
    /// a command takes one.
    ///
    /// A question for the address of a master is answered from one `address` call of the seat, and waits for nobody:
    /// also while another thread's store is under way, and after a halt. Every other command is answered by the outputs
    /// of one `act`, and what is no command by the line of its fault.
    ///
    /// The first answer to `SUBSCRIBE +switch-master` has the session listen to notes (`notify`), since the entry of
    /// that `act`. From then on the connection is in the Pub/Sub state of a Redis client: PING is answered by an array
    /// of `pong` and an empty text, SUBSCRIBE by its answer again, and any other command by
    /// `-ERR not allowed while subscribed`. None of these takes a turn or asks for an address, so they come also after
    /// a halt.
    ///
    /// `Frame` where the bytes are no RESP2 value: the values before were answered, and `-ERR Protocol error` stands
    /// behind their answers. `Halted` where a command took a turn and the Sentinel is halted, its store refused what
    /// the answer rests on, or there are no tickets left: it has no answer. `NoMemory` where a growth was refused: the
    /// values before were answered, and one value more may have been carried out with no answer. No other fault comes.
    /// What was put out before stays, and from then on the session answers the same fault for good, takes nothing more,
    /// holds no bytes and listens to nothing; the next client has a session of its own.
    pub fn received<S: ConfStore, R: Wait>(
        &mut self,
        rt: &R,
        cell: &SharedSentinel<S>,
        seat: &mut Seat,
        now: u64,
        piece: &[u8],
    ) -> Result<(), ServeFault>
        requires own { seat.old.cell ≡ cell.now.id }
        ensures own { seat.new.cell ≡ seat.old.cell }
        // The answers to the values of the bytes held before and the piece join what is unsent, and the bytes behind
        // them are held.
        ensures received { self.old.ended ≡ None → (more : List ℕ) × (self.new.unsent ≡ self.old.unsent ++ more)
            × Receives cell.now.start now (self.old.held ++ piece.now) (party seat.old.view self.old.listens) result self.new.held more (party seat.new.view self.new.listens) }
        ensures told { self.new.told ≡ self.old.told }
        ensures open { OnOk result (self.new.ended ≡ None) }
        ensures closed { IfErr result (λ fault. self.new.ended ≡ Some fault) }
        ensures emptied { OnErr result ((self.new.held ≡ []) × (self.new.listens ≡ None)) }
        // An ended session answers its fault, and nothing else happens.
        ensures ended { IfSome self.old.ended (λ fault. (result ≡ Err fault) × (self.new ≡ self.old) × (seat.new ≡ seat.old)) }
    {
        if let Some(fault) = self.fault {
            return Err(fault);
        }
        match self.exchange.take_piece(rt, cell, seat, now, piece) {
            Ok(()) => Ok(()),
            Err(fault) => {
                self.exchange.close();
                self.fault = Some(fault);
                Err(fault)
            }
        }
    }

    /// Takes the next piece as `received` does, but answers only so many values that may store: FLUSHCONFIG and
    /// requests for votes. `Done` where all whole values are answered. `Waits` where the next whole one may store,
    /// after as many: it is held with what stands behind it, and a further call goes on with it, also one with an
    /// empty piece.
    ///
    /// The faults are those of `received`, after which the session is ended as there.
    pub fn go_on<S: ConfStore, R: Wait>(
        &mut self,
        rt: &R,
        cell: &SharedSentinel<S>,
        seat: &mut Seat,
        now: u64,
        piece: &[u8],
        most: u64,
    ) -> Result<Reach, ServeFault>
        requires own { seat.old.cell ≡ cell.now.id }
        ensures own { seat.new.cell ≡ seat.old.cell }
        // The answers to values of the bytes held before and the piece join what is unsent, and the bytes behind them
        // are held.
        ensures goes_on { self.old.ended ≡ None → (more : List ℕ) × (self.new.unsent ≡ self.old.unsent ++ more)
            × GoesOn cell.now.start now most (self.old.held ++ piece.now) (party seat.old.view self.old.listens) result self.new.held more (party seat.new.view self.new.listens) }
        ensures told { self.new.told ≡ self.old.told }
        ensures open { OnOk result (self.new.ended ≡ None) }
        ensures closed { IfErr result (λ fault. self.new.ended ≡ Some fault) }
        ensures emptied { OnErr result ((self.new.held ≡ []) × (self.new.listens ≡ None)) }
        // An ended session answers its fault, and nothing else happens.
        ensures ended { IfSome self.old.ended (λ fault. (result ≡ Err fault) × (self.new ≡ self.old) × (seat.new ≡ seat.old)) }
    {
        if let Some(fault) = self.fault {
            return Err(fault);
        }
        match self.exchange.take_some(rt, cell, seat, now, piece, most) {
            Ok(progress) => Ok(progress),
            Err(fault) => {
                self.exchange.close();
                self.fault = Some(fault);
                Err(fault)
            }
        }
    }

    /// Answers a command, or a value that is none for this reason, as `received` answers the value that spells it: for
    /// a caller who reads the client's stream. What is held is no part of it, and stays. It waits for the Sentinel's
    /// turn where the command takes one.
    ///
    /// `Halted` and `NoMemory` are those of `received`, and end the session as they do there; no other fault comes.
    pub fn answer<S: ConfStore, R: Wait>(
        &mut self,
        rt: &R,
        cell: &SharedSentinel<S>,
        seat: &mut Seat,
        now: u64,
        asked: &Result<Command, CommandFault>,
    ) -> Result<(), ServeFault>
        requires own { seat.old.cell ≡ cell.now.id }
        requires within { IfOk asked.now IsWithin }
        ensures own { seat.new.cell ≡ seat.old.cell }
        ensures answered { self.old.ended ≡ None → (more : List ℕ) × (self.new.unsent ≡ self.old.unsent ++ more)
            × EndsSession cell.now.start now (party seat.old.view self.old.listens) asked.now result more (party seat.new.view self.new.listens) }
        ensures held { OnOk result (self.new.held ≡ self.old.held) }
        ensures told { self.new.told ≡ self.old.told }
        ensures end { MatchResult result (λ done. self.new.ended ≡ None) (λ fault. self.new.ended ≡ Some fault) }
        ensures emptied { OnErr result ((self.new.held ≡ []) × (self.new.listens ≡ None)) }
        // An ended session answers its fault, and nothing else happens.
        ensures ended { IfSome self.old.ended (λ fault. (result ≡ Err fault) × (self.new ≡ self.old) × (seat.new ≡ seat.old)) }
    {
        if let Some(fault) = self.fault {
            return Err(fault);
        }
        match self.exchange.responder.answer(rt, cell, seat, now, asked) {
            Ok(()) => Ok(()),
            Err(fault) => {
                self.exchange.close();
                self.fault = Some(fault);
                Err(fault)
            }
        }
    }

    /// The answers that aren't sent yet, as they stand on the wire.
    pub fn unsent(&self) -> &[u8]
        ensures { result.now ≡ self.now.unsent }
    {
        self.exchange.responder.unsent()
    }

    /// Whether it listens to notes.
    pub fn listens(&self) -> bool
        ensures { result ≡ is_some self.now.listens }
    {
        self.exchange.responder.listens()
    }

    /// Whether all that came was whole values: no bytes are held.
    pub fn holds_nothing(&self) -> bool
        ensures { IsTrue result ↔ (self.now.held ≡ []) }
    {
        self.exchange.frames.held().is_empty()
    }

    /// Takes away the first `n` bytes of what isn't sent yet, which the connection took. No memory is taken. Room that
    /// they leave is used again, and given back where nothing is left and it was more than 16 KiB.
    pub fn sent(&mut self, n: usize)
        requires { n ≤ length self.old.unsent }
        ensures { self.new ≡ record self.old { unsent = drop n self.old.unsent } }
    {
        self.exchange.responder.sent(n);
    }

    /// Gives back the room in which nothing is held, as where its client is silent for a while; the next answer takes
    /// it anew.
    pub fn rest(&mut self)
        ensures { self.new ≡ self.old }
    {
        self.exchange.responder.rest();
    }

    /// Tells the client of a note, where it is due: whether it is. `entry` is the number of calls before the one that
    /// showed the note in the history of the Sentinel (`Reply::entry`), and the note's master is one of the roster.
    ///
    /// `true` where the session listens, its SUBSCRIBE stands before that entry, and it was told of no configuration of
    /// the master with an epoch as high. Then what is unsent ends with the message that clients of Redis Sentinel wait
    /// for, as its documentation of Pub/Sub messages has it: the array of `message`, `+switch-master` and
    /// `<name> <oldip> <oldport> <newip> <newport>`. So a client is told no configuration twice, and none that is older
    /// than one that it was told; a note that comes after a newer one is left out. `false` changes nothing.
    ///
    /// Nothing says when a note arrives, or that it does: a client that listens asks for the address too, as it does
    /// after each new connection. After `NoMemory` nothing has changed and the client misses a note: the connection is
    /// to be closed.
    pub fn notify(&mut self, roster: &Roster, note: &Note, entry: u64) -> Result<bool, NoMemory>
        requires { note.now.master < length roster.now.masters }
        ensures { Notifies roster.now note.now entry self.old result self.new }
    {
        roster.is_made();
        if !self.exchange.responder.is_news(note, entry) {
            return Ok(false);
        }
        self.exchange.responder.put_note(roster, note)?;
        Ok(true)
    }
}
