//! The answering of so many values that may store, and no more, until so much is unsent.

ghost use Rattle.std.specs.Prelude.{◌≡◌, ◌≤◌, ◌<◌, ◌+◌, ◌++◌, ℕ, List, None, Ok, OnOk, IfOk, true, false, length};
ghost use Rattle.port_sessions.specs.Stores.{may_store, one_if};
ghost use Rattle.resp2.specs.Framing.Stream.{reading, held_size, bytes_in};
ghost use Rattle.courteous_sessions.specs.GoingOn.{IsWithin, TakesAhead, StepsWithin, DrainsWithin, GoesOn, AddsNext, StopsInTime, IsFullOf};
ghost use Rattle.courteous_sessions.specs.OnTheWay.{IsReady, IsDirect, guest_of};
ghost use Rattle.courteous_sessions.specs.Visits.{Guest};

use crate::exchange::Exchange;
use ballot_law::{Command, NoMemory};
use port_sessions::{Limit, Reach};
use resp2::{CommandFault, FrameFault, Value, redis_command_of};
use sentinel_cell::{Seat, SharedSentinel};
use sentinel_conf::ConfStore;
use sentinel_core::ServeFault;
use std::sync::Wait;

/// How many bytes may be unsent of a client with courtesies before no further value of its is answered, until some of
/// them went out: 1 MiB.
pub const UNSENT_MAX: usize = 1_048_576;

/// What stands next in a connection's stream.
#[derive(Drop)]
pub(crate) enum NextValue {
    /// A command that comes nearly always, which is taken.
    Common(Command),
    /// Any whole value, which is taken.
    Any(Value),
    /// One that may store and has to wait.
    PutOff,
    /// Less than a whole one.
    Short,
}

/// A command as it is asked.
pub(crate) fn asked_by(command: &Command) -> Result<Command, CommandFault>
    ensures { result ≡ Ok command.now }
{
    Ok(*command)
}

impl Exchange {
    /// Whether so much is unsent that what comes next waits.
    pub(crate) fn is_full(&self) -> bool
        ensures full { result ≡ true → UNSENT_MAX ≤ length self.now.responder.unsent.items }
        ensures room { result ≡ false → length self.now.responder.unsent.items < UNSENT_MAX }
    {
        self.responder.unsent().len() >= UNSENT_MAX
    }

    /// Whether a value that was taken is answered, which asks this; else it is held again, and the call ends.
    fn allows(&mut self, asked: &Result<Command, CommandFault>, limit: &mut Limit) -> bool
        ensures yes { result ≡ true → (limit.old.most ≡ one_if (may_store asked.now) + limit.new.most) × (self.new.attendant ≡ self.old.attendant) }
        ensures mark { result ≡ true → (front : List ℕ) → limit.old.mark ≡ reading (front ++ bytes_in self.old.attendant.held)
            → limit.new.mark ≡ reading (bytes_in self.old.attendant.held) }
        ensures no { result ≡ false → (may_store asked.now ≡ true) × (limit.old.most ≡ 0) × (self.new.attendant.held ≡ limit.old.mark) }
        ensures asker { self.new.attendant.asker ≡ self.old.attendant.asker }
        ensures hears { self.new.responder.hears ≡ self.old.responder.hears }
        ensures unsent { self.new.responder.unsent.items ≡ self.old.responder.unsent.items }
        ensures kept { self.new.subscriptions ≡ self.old.subscriptions }
    {
        if limit.allows(asked) {
            limit.follow(self.attendant.held());
            return true;
        }
        self.attendant.go_back(limit.take_mark());
        false
    }

    /// Takes the first whole value, unless it has to wait.
    fn next_within(&mut self, limit: &mut Limit) -> Result<NextValue, FrameFault>
        requires reads { self.old.attendant.held ≡ reading (bytes_in self.old.attendant.held) }
        requires mark { limit.old.mark ≡ self.old.attendant.held }
        ensures ahead { TakesAhead self.old.attendant.asker self.old.subscriptions limit.old.most self.old.attendant.held result limit.new.most limit.new.mark
            self.new.attendant.held }
        ensures asker { self.new.attendant.asker ≡ self.old.attendant.asker }
        ensures hears { self.new.responder.hears ≡ self.old.responder.hears }
        ensures unsent { self.new.responder.unsent.items ≡ self.old.responder.unsent.items }
        ensures kept { self.new.subscriptions ≡ self.old.subscriptions }
    {
        let Some(command) = self.next_common() else {
            return self.value_ahead(limit);
        };
        if self.allows(&asked_by(&command), limit) {
            return Ok(NextValue::Common(command));
        }
        Ok(NextValue::PutOff)
    }

    /// The same of a value that isn't taken as a common one.
    fn value_ahead(&mut self, limit: &mut Limit) -> Result<NextValue, FrameFault>
        requires reads { self.old.attendant.held ≡ reading (bytes_in self.old.attendant.held) }
        requires mark { limit.old.mark ≡ self.old.attendant.held }
        ensures ahead { TakesAhead self.old.attendant.asker self.old.subscriptions limit.old.most self.old.attendant.held result limit.new.most limit.new.mark
            self.new.attendant.held }
        ensures asker { self.new.attendant.asker ≡ self.old.attendant.asker }
        ensures hears { self.new.responder.hears ≡ self.old.responder.hears }
        ensures unsent { self.new.responder.unsent.items ≡ self.old.responder.unsent.items }
        ensures kept { self.new.subscriptions ≡ self.old.subscriptions }
    {
        match self.attendant.next() {
            Ok(Some(value)) => {
                if self.allows(&redis_command_of(&value), limit) {
                    Ok(NextValue::Any(value))
                } else {
                    Ok(NextValue::PutOff)
                }
            }
            Ok(None) => Ok(NextValue::Short),
            Err(fault) => Err(fault),
        }
    }

    /// Answers the first value that is whole; or else tells why not.
    fn go_on_next<S: ConfStore, R: Wait>(
        &mut self,
        rt: &R,
        cell: &SharedSentinel<S>,
        seat: &mut Seat,
        now: u64,
        limit: &mut Limit,
    ) -> Result<Option<Reach>, ServeFault>
        requires own { seat.old.cell ≡ cell.now.id }
        requires ready { IsReady self.old.attendant self.old.subscriptions self.old.responder.hears }
        requires mark { limit.old.mark ≡ self.old.attendant.held }
        ensures own { seat.new.cell ≡ seat.old.cell }
        ensures ready { OnOk result (IsReady self.new.attendant self.new.subscriptions self.new.responder.hears) }
        ensures mark { result ≡ Ok None → limit.new.mark ≡ self.new.attendant.held }
        ensures smaller { result ≡ Ok None → held_size self.new.attendant.held < held_size self.old.attendant.held }
        ensures answered { (most : ℕ) (stream before bytes : List ℕ) (g : Guest) → self.old.responder.unsent.items ≡ before ++ bytes
            → IsWithin cell.now.start now most stream g limit.old.most self.old.attendant.held bytes
            (guest_of self.old.attendant self.old.subscriptions self.old.responder.hears seat.old.view) → (more : List ℕ) × (self.new.responder.unsent.items ≡ before ++ more)
            × StepsWithin cell.now.start now most stream g result limit.new.most self.new.attendant.held more
            (guest_of self.new.attendant self.new.subscriptions self.new.responder.hears seat.new.view) }
        ensures one { IfOk result (λ next. AddsNext cell.now.start now next self.old.responder.unsent.items self.new.responder.unsent.items) }
    {
        match self.next_within(limit) {
            Ok(NextValue::Common(command)) => match self.tell_common(rt, cell, seat, now, command) {
                Ok(()) => Ok(None),
                Err(fault) => Err(fault),
            },
            Ok(NextValue::Any(value)) => match self.tell_value(rt, cell, seat, now, &value) {
                Ok(()) => Ok(None),
                Err(fault) => Err(fault),
            },
            Ok(NextValue::PutOff) => Ok(Some(Reach::Waits)),
            Ok(NextValue::Short) => Ok(Some(Reach::Done)),
            Err(fault) => Err(self.responder.refuse(fault)),
        }
    }

    /// Answers each value that is whole, but the first one that has to wait and those after it; none any more once it
    /// is full.
    fn go_on_whole<S: ConfStore, R: Wait>(
        &mut self,
        rt: &R,
        cell: &SharedSentinel<S>,
        seat: &mut Seat,
        now: u64,
        limit: &mut Limit,
    ) -> Result<Reach, ServeFault>
        requires own { seat.old.cell ≡ cell.now.id }
        requires ready { IsReady self.old.attendant self.old.subscriptions self.old.responder.hears }
        requires mark { limit.old.mark ≡ self.old.attendant.held }
        ensures own { seat.new.cell ≡ seat.old.cell }
        ensures ready { OnOk result (IsReady self.new.attendant self.new.subscriptions self.new.responder.hears) }
        ensures answered { (most : ℕ) (stream before bytes : List ℕ) (g : Guest) → self.old.responder.unsent.items ≡ before ++ bytes
            → IsWithin cell.now.start now most stream g limit.old.most self.old.attendant.held bytes
            (guest_of self.old.attendant self.old.subscriptions self.old.responder.hears seat.old.view) → (more : List ℕ) × (self.new.responder.unsent.items ≡ before ++ more)
            × DrainsWithin cell.now.start now most stream g result self.new.attendant.held more
            (guest_of self.new.attendant self.new.subscriptions self.new.responder.hears seat.new.view) }
        ensures in_time { OnOk result (StopsInTime cell.now.start now self.old.responder.unsent.items self.new.responder.unsent.items) }
        ensures full { IsFullOf result self.new.responder.unsent.items }
    {
        loop {
            if self.is_full() {
                return Ok(Reach::Full);
            }
            match self.go_on_next(rt, cell, seat, now, limit) {
                Ok(None) => self.answered = self.answered.saturating_add(1),
                Ok(Some(progress)) => return Ok(progress),
                Err(fault) => return Err(fault),
            }
        }
    }

    /// Adds the next piece to what is held, and gives a limit of so many values that may store, which stands where the
    /// first one of all these begins.
    fn feed_within(&mut self, piece: &[u8], most: u64) -> Result<Limit, NoMemory>
        requires reads { self.old.attendant.held ≡ reading (bytes_in self.old.attendant.held) }
        ensures fed { OnOk result (self.new.attendant.held ≡ reading (bytes_in self.old.attendant.held ++ piece.now)) }
        ensures limit { IfOk result (λ limit. (limit.mark ≡ self.new.attendant.held) × (limit.most ≡ most)) }
        ensures asker { self.new.attendant.asker ≡ self.old.attendant.asker }
        ensures hears { self.new.responder.hears ≡ self.old.responder.hears }
        ensures unsent { self.new.responder.unsent.items ≡ self.old.responder.unsent.items }
        ensures kept { self.new.subscriptions ≡ self.old.subscriptions }
    {
        if self.attendant.feed(piece).is_err() {
            return Err(NoMemory);
        }
        Limit::new(self.alloc, self.attendant.held(), most)
    }

    /// Adds what comes next to what is held, and answers the values that are whole with it, of which so many may store.
    fn take_some_rest<S: ConfStore, R: Wait>(
        &mut self,
        rt: &R,
        cell: &SharedSentinel<S>,
        seat: &mut Seat,
        now: u64,
        rest: &[u8],
        most: u64,
    ) -> Result<Reach, ServeFault>
        requires own { seat.old.cell ≡ cell.now.id }
        requires ready { IsReady self.old.attendant self.old.subscriptions self.old.responder.hears }
        ensures own { seat.new.cell ≡ seat.old.cell }
        ensures ready { OnOk result (IsReady self.new.attendant self.new.subscriptions self.new.responder.hears) }
        ensures direct { OnOk result (self.new.direct ≡ true → IsDirect self.new.attendant self.new.subscriptions) }
        ensures answered { (stream before bytes : List ℕ) (g : Guest) → self.old.responder.unsent.items ≡ before ++ bytes
            → IsWithin cell.now.start now most stream g most (reading (bytes_in self.old.attendant.held ++ rest.now)) bytes
            (guest_of self.old.attendant self.old.subscriptions self.old.responder.hears seat.old.view)
            → (more : List ℕ) × (self.new.responder.unsent.items ≡ before ++ more)
            × DrainsWithin cell.now.start now most stream g result self.new.attendant.held more
            (guest_of self.new.attendant self.new.subscriptions self.new.responder.hears seat.new.view) }
        ensures in_time { OnOk result (StopsInTime cell.now.start now self.old.responder.unsent.items self.new.responder.unsent.items) }
        ensures full { IsFullOf result self.new.responder.unsent.items }
    {
        let Ok(mut limit) = self.feed_within(rest, most) else {
            return Err(ServeFault::NoMemory);
        };
        match self.go_on_whole(rt, cell, seat, now, &mut limit) {
            Ok(reach) => {
                self.direct = self.may_be_direct();
                Ok(reach)
            }
            Err(fault) => Err(fault),
        }
    }

    /// Takes the next piece, and answers the values that are whole with it, of which so many may store.
    pub(crate) fn take_some<S: ConfStore, R: Wait>(
        &mut self,
        rt: &R,
        cell: &SharedSentinel<S>,
        seat: &mut Seat,
        now: u64,
        piece: &[u8],
        most: u64,
    ) -> Result<Reach, ServeFault>
        requires own { seat.old.cell ≡ cell.now.id }
        requires ready { IsReady self.old.attendant self.old.subscriptions self.old.responder.hears }
        requires direct { self.old.direct ≡ true → IsDirect self.old.attendant self.old.subscriptions }
        ensures own { seat.new.cell ≡ seat.old.cell }
        ensures ready { OnOk result (IsReady self.new.attendant self.new.subscriptions self.new.responder.hears) }
        ensures direct { OnOk result (self.new.direct ≡ true → IsDirect self.new.attendant self.new.subscriptions) }
        ensures received { (more : List ℕ) × (self.new.responder.unsent.items ≡ self.old.responder.unsent.items ++ more)
            × GoesOn cell.now.start now most (bytes_in self.old.attendant.held ++ piece.now)
            (guest_of self.old.attendant self.old.subscriptions self.old.responder.hears seat.old.view) result (bytes_in self.new.attendant.held) more
            (guest_of self.new.attendant self.new.subscriptions self.new.responder.hears seat.new.view) }
        ensures in_time { OnOk result (StopsInTime cell.now.start now self.old.responder.unsent.items self.new.responder.unsent.items) }
        ensures full { IsFullOf result self.new.responder.unsent.items }
    {
        match self.answer_in_place(rt, cell, seat, now, piece) {
            Ok(rest) => {
                if self.direct && rest.is_empty() {
                    Ok(Reach::Done)
                } else {
                    self.take_some_rest(rt, cell, seat, now, rest, most)
                }
            }
            Err(fault) => Err(fault),
        }
    }
}
