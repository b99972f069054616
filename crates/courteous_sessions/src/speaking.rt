//! The answers of a connection, as its protocol tells them.

ghost use Rattle.std.specs.Prelude.{◌≡◌, ◌⊎◌, ◌≤◌, ◌++◌, ℕ, List, Ok, OnOk, OnErr, IfErr, length, take, drop};
ghost use Rattle.ballot_law.specs.Limits.{IsWithin};
ghost use Rattle.resp2.specs.Framing.Frame.{view, HasLines, IsFrame};
ghost use Rattle.courteous_sessions.specs.Epochs.{heard_as};
ghost use Rattle.courteous_sessions.specs.OnTheWay.{IsReady, RespondsIn, guest_of};
ghost use Rattle.port_sessions.specs.Talks.{party};
ghost use Rattle.courteous_sessions.specs.Retelling.{JoinsTold};
ghost use Rattle.courteous_sessions.specs.Visits.{Tells, FailsAt, IsUnanswered};

use crate::exchange::Exchange;
use crate::questions::bytes_from;
use crate::retelling::{NULL, is_null, retell};
use crate::shapes::{Shape, shape_of};
use ballot_law::Command;
use client_commands::Protocol;
use resp2::{OutText, Value};
use sentinel_cell::{Seat, SharedSentinel};
use sentinel_conf::ConfStore;
use sentinel_core::ServeFault;
use std::sync::Wait;

impl Exchange {
    /// Has what isn't sent yet, from this place on, be told as protocol 3 tells what it tells as it is: a null alone is
    /// another one there. At a fault it is gone.
    #[tactic(auto, using(crate::proofs::Retold::told_plain, crate::proofs::Retold::told_null))]
    fn retell_plain(&mut self, start: usize) -> Result<(), ServeFault>
        requires { start ≤ length self.old.responder.unsent.items }
        ensures ok { OnOk result (JoinsTold Protocol.Three Shape.Plain (drop start self.old.responder.unsent.items) (take start self.old.responder.unsent.items)
            self.new.responder.unsent.items) }
        ensures err { OnErr result (self.new.responder.unsent.items ≡ take start self.old.responder.unsent.items) }
        ensures fault { IfErr result (λ fault. fault ≡ ServeFault.NoMemory) }
        ensures hears { self.new.responder.hears ≡ self.old.responder.hears }
        ensures attendant { self.new.attendant ≡ self.old.attendant }
        ensures kept { self.new.subscriptions ≡ self.old.subscriptions }
    {
        if !is_null(bytes_from(self.responder.unsent(), start)) {
            return Ok(());
        }
        self.responder.cut_back(start);
        self.responder.put_out(NULL)
    }

    /// The same of what it tells in another way.
    fn retell_anew(&mut self, start: usize, shape: Shape) -> Result<(), ServeFault>
        requires { start ≤ length self.old.responder.unsent.items }
        ensures ok { OnOk result (JoinsTold Protocol.Three shape (drop start self.old.responder.unsent.items) (take start self.old.responder.unsent.items) self.new.responder.unsent.items) }
        ensures err { OnErr result (self.new.responder.unsent.items ≡ take start self.old.responder.unsent.items) }
        ensures fault { IfErr result (λ fault. fault ≡ ServeFault.NoMemory) }
        ensures hears { self.new.responder.hears ≡ self.old.responder.hears }
        ensures attendant { self.new.attendant ≡ self.old.attendant }
        ensures kept { self.new.subscriptions ≡ self.old.subscriptions }
    {
        let mut told = OutText::new(self.alloc);
        let answer = bytes_from(self.responder.unsent(), start);
        let retold = retell(self.alloc, shape, answer, &mut told);
        self.responder.cut_back(start);
        match retold {
            Ok(()) => self.responder.put_out(told.as_slice()),
            Err(_) => Err(ServeFault::NoMemory),
        }
    }

    /// Has what isn't sent yet, from this place on, be told as protocol 3 tells it. At a fault it is gone.
    fn retell(&mut self, start: usize, shape: Shape) -> Result<(), ServeFault>
        requires { start ≤ length self.old.responder.unsent.items }
        ensures ok { OnOk result (JoinsTold Protocol.Three shape (drop start self.old.responder.unsent.items) (take start self.old.responder.unsent.items) self.new.responder.unsent.items) }
        ensures err { OnErr result (self.new.responder.unsent.items ≡ take start self.old.responder.unsent.items) }
        ensures fault { IfErr result (λ fault. fault ≡ ServeFault.NoMemory) }
        ensures hears { self.new.responder.hears ≡ self.old.responder.hears }
        ensures attendant { self.new.attendant ≡ self.old.attendant }
        ensures kept { self.new.subscriptions ≡ self.old.subscriptions }
    {
        match shape {
            Shape::Plain => self.retell_plain(start),
            Shape::Whole => self.retell_anew(start, Shape::Whole),
            Shape::Pairs => self.retell_anew(start, Shape::Pairs),
            Shape::Tables => self.retell_anew(start, Shape::Tables),
            Shape::Verbatim => self.retell_anew(start, Shape::Verbatim),
            Shape::Pushes => self.retell_anew(start, Shape::Pushes),
            Shape::Rows => self.retell_anew(start, Shape::Rows),
            Shape::Docs => self.retell_anew(start, Shape::Docs),
        }
    }

    /// Has a value answered, as the protocol tells it that the connection speaks then.
    pub(crate) fn tell_value<S: ConfStore, R: Wait>(
        &mut self,
        rt: &R,
        cell: &SharedSentinel<S>,
        seat: &mut Seat,
        now: u64,
        value: &Value,
    ) -> Result<(), ServeFault>
        requires own { seat.old.cell ≡ cell.now.id }
        requires ready { IsReady self.old.attendant self.old.subscriptions self.old.responder.hears }
        requires frame { IsFrame (view value.now) × HasLines (view value.now) }
        ensures own { seat.new.cell ≡ seat.old.cell }
        ensures served { OnOk result ((more : List ℕ) × (self.new.responder.unsent.items ≡ self.old.responder.unsent.items ++ more)
            × IsReady self.new.attendant self.new.subscriptions self.new.responder.hears
            × Tells cell.now.start now (guest_of self.old.attendant self.old.subscriptions self.old.responder.hears seat.old.view) (view value.now) more
            (guest_of self.new.attendant self.new.subscriptions self.new.responder.hears seat.new.view)) }
        ensures held { OnOk result (self.new.attendant.held ≡ self.old.attendant.held) }
        ensures fault { IfErr result (λ fault. ((fault ≡ ServeFault.Halted) ⊎ (fault ≡ ServeFault.NoMemory))
            × (self.new.responder.unsent.items ≡ self.old.responder.unsent.items)
            × IsUnanswered cell.now.start now seat.old.view (view value.now) fault seat.new.view) }
    {
        let start = self.responder.unsent().len();
        self.answer_value(rt, cell, seat, now, value)?;
        match self.attendant.protocol() {
            Protocol::Two => Ok(()),
            Protocol::Three => self.retell(start, shape_of(value)),
        }
    }

    /// Has a command answered that comes nearly always, as the protocol tells it that the connection speaks.
    pub(crate) fn tell_common<S: ConfStore, R: Wait>(
        &mut self,
        rt: &R,
        cell: &SharedSentinel<S>,
        seat: &mut Seat,
        now: u64,
        command: Command,
    ) -> Result<(), ServeFault>
        requires own { seat.old.cell ≡ cell.now.id }
        requires within { IsWithin command }
        ensures own { seat.new.cell ≡ seat.old.cell }
        ensures answered { OnOk result ((more : List ℕ) × (self.new.responder.unsent.items ≡ self.old.responder.unsent.items ++ more)
            × RespondsIn cell.now.start now self.old.attendant.asker.protocol (party seat.old.view self.old.responder.hears.listens)
            (heard_as self.old.attendant.asker.current (Ok command)) more (party seat.new.view self.new.responder.hears.listens)) }
        ensures told { self.new.responder.hears.told ≡ self.old.responder.hears.told }
        ensures err { OnErr result (self.new.responder.unsent.items ≡ self.old.responder.unsent.items) }
        ensures fault { IfErr result (λ fault. ((fault ≡ ServeFault.Halted) ⊎ (fault ≡ ServeFault.NoMemory))
            × FailsAt cell.now.start now seat.old.view (heard_as self.old.attendant.asker.current (Ok command)) fault seat.new.view) }
        ensures kept { (self.new.attendant ≡ self.old.attendant)
            × (self.new.subscriptions ≡ self.old.subscriptions) }
    {
        let start = self.responder.unsent().len();
        self.hand_on(rt, cell, seat, now, &Ok(command))?;
        match self.attendant.protocol() {
            Protocol::Two => Ok(()),
            Protocol::Three => self.retell_plain(start),
        }
    }
}
