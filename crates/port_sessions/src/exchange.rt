//! What came from a client, and what answers it.

ghost use Rattle.std.specs.Prelude.{◌≡◌, ◌<◌, ◌++◌, ℕ, List, [], None, OnOk, IfOk, IsTrue};
ghost use Rattle.resp2.specs.Framing.Stream.{reading, held_size, bytes_in};
ghost use Rattle.port_sessions.specs.Notes.{unheard};
ghost use Rattle.port_sessions.specs.Talks.{Party, party};
ghost use Rattle.port_sessions.specs.OnTheWay.{IsOnTheWay, Steps, Drains, Takes};

use crate::limit::Limit;
use crate::responder::Responder;
use ballot_law::NoMemory;
use resp2::{Frames, next_command};
use sentinel_cell::{Seat, SharedSentinel};
use sentinel_conf::ConfStore;
use sentinel_core::ServeFault;
use std::alloc::Global;
use std::sync::Wait;

/// The bytes that came, and what answers the values in them.
#[derive(Drop)]
pub(crate) struct Exchange {
    alloc: Global,
    pub(crate) frames: Frames,
    pub(crate) responder: Responder,
}

impl Exchange {
    /// Nothing came yet. No memory is taken.
    pub(crate) fn new(alloc: Global) -> Exchange
        ensures frames { result.frames ≡ reading [] }
        ensures unsent { result.responder.unsent.items ≡ [] }
        ensures hears { result.responder.hears ≡ unheard }
    {
        Exchange {
            alloc,
            frames: Frames::new(alloc),
            responder: Responder::new(alloc),
        }
    }

    /// The conversation ends: the bytes that are no whole value are dropped, and the client is told of no more notes.
    pub(crate) fn close(&mut self)
        ensures frames { self.new.frames ≡ reading [] }
        ensures unsent { self.new.responder.unsent.items ≡ self.old.responder.unsent.items }
        ensures silent { self.new.responder.hears.listens ≡ None }
        ensures told { self.new.responder.hears.told ≡ self.old.responder.hears.told }
    {
        self.frames = Frames::new(self.alloc);
        self.responder.listen_since(None);
    }

    /// A limit of so many values that may store, which stands where the next value begins.
    pub(crate) fn limit_to(&self, most: u64) -> Result<Limit, NoMemory>
        ensures { IfOk result (λ limit. (limit.mark ≡ reading (bytes_in self.now.frames)) × (limit.most ≡ most)) }
    {
        Limit::new(self.alloc, self.frames.held(), most)
    }

    /// Answers the first value that is whole, and tells whether there was one.
    fn answer_next<S: ConfStore, R: Wait>(
        &mut self,
        rt: &R,
        cell: &SharedSentinel<S>,
        seat: &mut Seat,
        now: u64,
    ) -> Result<bool, ServeFault>
        requires own { seat.old.cell ≡ cell.now.id }
        ensures own { seat.new.cell ≡ seat.old.cell }
        ensures smaller { IfOk result (λ more. IsTrue more → held_size self.new.frames < held_size self.old.frames) }
        ensures answered { (stream before bytes : List ℕ) (p : Party) → self.old.responder.unsent.items ≡ before ++ bytes
            → IsOnTheWay cell.now.start now stream p self.old.frames bytes (party seat.old.view self.old.responder.hears.listens)
            → (more : List ℕ) × (self.new.responder.unsent.items ≡ before ++ more)
            × Steps cell.now.start now stream p result self.new.frames more (party seat.new.view self.new.responder.hears.listens) }
        ensures told { self.new.responder.hears.told ≡ self.old.responder.hears.told }
    {
        let asked = match next_command(&mut self.frames) {
            Ok(Some(asked)) => asked,
            Ok(None) => return Ok(false),
            Err(fault) => return Err(self.responder.refuse(fault)),
        };
        match self.responder.answer(rt, cell, seat, now, &asked) {
            Ok(()) => Ok(true),
            Err(fault) => Err(fault),
        }
    }

    /// Answers each value that is whole.
    fn answer_whole<S: ConfStore, R: Wait>(
        &mut self,
        rt: &R,
        cell: &SharedSentinel<S>,
        seat: &mut Seat,
        now: u64,
    ) -> Result<(), ServeFault>
        requires own { seat.old.cell ≡ cell.now.id }
        ensures own { seat.new.cell ≡ seat.old.cell }
        ensures answered { (stream before bytes : List ℕ) (p : Party) → self.old.responder.unsent.items ≡ before ++ bytes
            → IsOnTheWay cell.now.start now stream p self.old.frames bytes (party seat.old.view self.old.responder.hears.listens)
            → (more : List ℕ) × (self.new.responder.unsent.items ≡ before ++ more)
            × Drains cell.now.start now stream p result self.new.frames more (party seat.new.view self.new.responder.hears.listens) }
        ensures told { self.new.responder.hears.told ≡ self.old.responder.hears.told }
    {
        loop {
            match self.answer_next(rt, cell, seat, now) {
                Ok(true) => {}
                Ok(false) => return Ok(()),
                Err(fault) => return Err(fault),
            }
        }
    }

    /// Takes the next piece, and answers the values that are whole with it.
    pub(crate) fn take_piece<S: ConfStore, R: Wait>(
        &mut self,
        rt: &R,
        cell: &SharedSentinel<S>,
        seat: &mut Seat,
        now: u64,
        piece: &[u8],
    ) -> Result<(), ServeFault>
        requires own { seat.old.cell ≡ cell.now.id }
        requires open { self.old.frames ≡ reading (bytes_in self.old.frames) }
        ensures own { seat.new.cell ≡ seat.old.cell }
        ensures open { OnOk result (self.new.frames ≡ reading (bytes_in self.new.frames)) }
        ensures received { (more : List ℕ) × (self.new.responder.unsent.items ≡ self.old.responder.unsent.items ++ more)
            × Takes cell.now.start now (bytes_in self.old.frames ++ piece.now) (party seat.old.view self.old.responder.hears.listens) result (bytes_in self.new.frames) more
            (party seat.new.view self.new.responder.hears.listens) }
        ensures told { self.new.responder.hears.told ≡ self.old.responder.hears.told }
    {
        if self.frames.feed(piece).is_err() {
            return Err(ServeFault::NoMemory);
        }
        self.answer_whole(rt, cell, seat, now)
    }
}
