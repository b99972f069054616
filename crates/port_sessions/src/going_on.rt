//! The answering of so many values that may store, and no more.

ghost use Rattle.std.specs.Prelude.{◌≡◌, ◌<◌, ◌++◌, ℕ, List, None, Ok, OnOk};
ghost use Rattle.resp2.specs.Framing.Stream.{reading, held_size, bytes_in};
ghost use Rattle.port_sessions.specs.GoingOn.{IsWithin, StepsWithin, DrainsWithin, TakesWithin};
ghost use Rattle.port_sessions.specs.Talks.{Party, party};

use crate::ahead::{Ahead, next_within};
use crate::exchange::Exchange;
use crate::limit::{Limit, Reach};
use sentinel_cell::{Seat, SharedSentinel};
use sentinel_conf::ConfStore;
use sentinel_core::ServeFault;
use std::sync::Wait;

impl Exchange {
    /// Answers the first value that is whole; or else tells why not.
    fn go_on_next<S: ConfStore, R: Wait>(
        &mut self,
        rt: &R,
        cell: &SharedSentinel<S>,
        seat: &mut Seat,
        now: u64,
        limit: &mut Limit,
    ) -> Result<Option<Reach>, ServeFault>
        requires own { seat.old.cell ≡ cell.now.id }
        requires mark { limit.old.mark ≡ self.old.frames }
        ensures own { seat.new.cell ≡ seat.old.cell }
        ensures mark { result ≡ Ok None → limit.new.mark ≡ self.new.frames }
        ensures smaller { result ≡ Ok None → held_size self.new.frames < held_size self.old.frames }
        ensures answered { (most : ℕ) (stream before bytes : List ℕ) (p : Party) → self.old.responder.unsent.items ≡ before ++ bytes
            → IsWithin cell.now.start now most stream p limit.old.most self.old.frames bytes (party seat.old.view self.old.responder.hears.listens)
            → (more : List ℕ) × (self.new.responder.unsent.items ≡ before ++ more)
            × StepsWithin cell.now.start now most stream p result limit.new.most self.new.frames more (party seat.new.view self.new.responder.hears.listens) }
        ensures told { self.new.responder.hears.told ≡ self.old.responder.hears.told }
    {
        match next_within(&mut self.frames, limit) {
            Ok(Ahead::Asked(asked)) => match self.responder.answer(rt, cell, seat, now, &asked) {
                Ok(()) => Ok(None),
                Err(fault) => Err(fault),
            },
            Ok(Ahead::PutOff) => Ok(Some(Reach::Waits)),
            Ok(Ahead::Short) => Ok(Some(Reach::Done)),
            Err(fault) => Err(self.responder.refuse(fault)),
        }
    }

    /// Answers each value that is whole, but the first one that has to wait and those behind it.
    fn go_on_whole<S: ConfStore, R: Wait>(
        &mut self,
        rt: &R,
        cell: &SharedSentinel<S>,
        seat: &mut Seat,
        now: u64,
        limit: &mut Limit,
    ) -> Result<Reach, ServeFault>
        requires own { seat.old.cell ≡ cell.now.id }
        requires mark { limit.old.mark ≡ self.old.frames }
        ensures own { seat.new.cell ≡ seat.old.cell }
        ensures answered { (most : ℕ) (stream before bytes : List ℕ) (p : Party) → self.old.responder.unsent.items ≡ before ++ bytes
            → IsWithin cell.now.start now most stream p limit.old.most self.old.frames bytes (party seat.old.view self.old.responder.hears.listens)
            → (more : List ℕ) × (self.new.responder.unsent.items ≡ before ++ more)
            × DrainsWithin cell.now.start now most stream p result self.new.frames more (party seat.new.view self.new.responder.hears.listens) }
        ensures told { self.new.responder.hears.told ≡ self.old.responder.hears.told }
    {
        loop {
            match self.go_on_next(rt, cell, seat, now, limit) {
                Ok(None) => {}
                Ok(Some(progress)) => return Ok(progress),
                Err(fault) => return Err(fault),
            }
        }
    }

    /// Takes the next piece, and answers the values that are whole with it, of which so many may store.
    pub(crate) fn take_some<S: ConfStore, R: Wait>(
        &mut self,
        rt: &R,
        cell: &SharedSentinel<S>,
        seat: &mut Seat,
        now: u64,
        piece: &[u8],
        most: u64,
    ) -> Result<Reach, ServeFault>
        requires own { seat.old.cell ≡ cell.now.id }
        requires open { self.old.frames ≡ reading (bytes_in self.old.frames) }
        ensures own { seat.new.cell ≡ seat.old.cell }
        ensures open { OnOk result (self.new.frames ≡ reading (bytes_in self.new.frames)) }
        ensures received { (more : List ℕ) × (self.new.responder.unsent.items ≡ self.old.responder.unsent.items ++ more)
            × TakesWithin cell.now.start now most (bytes_in self.old.frames ++ piece.now) (party seat.old.view self.old.responder.hears.listens) result
            (bytes_in self.new.frames) more (party seat.new.view self.new.responder.hears.listens) }
        ensures told { self.new.responder.hears.told ≡ self.old.responder.hears.told }
    {
        if self.frames.feed(piece).is_err() {
            return Err(ServeFault::NoMemory);
        }
        let Ok(mut limit) = self.limit_to(most) else {
            return Err(ServeFault::NoMemory);
        };
        self.go_on_whole(rt, cell, seat, now, &mut limit)
    }
}
