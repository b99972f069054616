//! The answering of commands where they stand in a piece, with none of it held.

ghost use Rattle.std.specs.Prelude.{◌≡◌, ◌≤◌, ◌<◌, ◌++◌, ℕ, List, Ok, false, true, length, IfOk, IfSome, OnOk};
ghost use Rattle.ballot_law.specs.Limits as limits;
ghost use Rattle.client_commands.specs.Attendants.{TakesCommon};
ghost use Rattle.port_sessions.specs.Stores.{may_store};
ghost use Rattle.resp2.specs.Asked.{IsCommon};
ghost use Rattle.resp2.specs.Framing.Stream.{reading, bytes_in};
ghost use Rattle.courteous_sessions.specs.GoingOn.{IsWithin, StepsInPlace, DrainsInPlace, AddsInPlace, StopsInTime};
ghost use Rattle.courteous_sessions.specs.OnTheWay.{IsReady, IsDirect, guest_of};
ghost use Rattle.courteous_sessions.specs.Visits.{Guest};

use crate::exchange::Exchange;
use crate::going_on::asked_by;
use ballot_law::Command;
use port_sessions::may_store;
use resp2::common_in;
use sentinel_cell::{Seat, SharedSentinel};
use sentinel_conf::ConfStore;
use sentinel_core::ServeFault;
use std::sync::Wait;

/// The command with which these bytes begin, and what comes after it, where it is one that comes nearly always and that
/// stores nothing.
fn next_in_place(bytes: &[u8]) -> Option<(Command, &[u8])>
    ensures taken { IfSome result (λ x. TakesCommon (reading bytes.now) (reading x.1.now) x.0) }
    ensures within { IfSome result (λ x. limits.IsWithin x.0) }
    ensures common { IfSome result (λ x. IsCommon x.0) }
    ensures stores_none { IfSome result (λ x. may_store (Ok x.0) ≡ false) }
    ensures shorter { IfSome result (λ x. length x.1.now < length bytes.now) }
{
    match common_in(bytes) {
        Some((command, rest)) => {
            if may_store(&asked_by(&command)) {
                None
            } else {
                Some((command, rest))
            }
        }
        None => None,
    }
}

impl Exchange {
    /// Whether a command may be answered where it stands in the next piece.
    pub(crate) fn may_be_direct(&self) -> bool
        requires { self.now.attendant.held ≡ reading (bytes_in self.now.attendant.held) }
        ensures { result ≡ true → IsDirect self.now.attendant self.now.subscriptions }
    {
        self.attendant.holds_nothing()
            && self.attendant.protocol().is_two()
            && !self.attendant.is_stranger()
            && !self.subscriptions.is_listening()
    }

    /// Answers the first command of these bytes, which come next in the stream, where it comes nearly always and stores
    /// nothing: what comes after it.
    fn answer_front<'a, S: ConfStore, R: Wait>(
        &mut self,
        rt: &R,
        cell: &SharedSentinel<S>,
        seat: &mut Seat,
        now: u64,
        rest: &'a [u8],
    ) -> Result<Option<&'a [u8]>, ServeFault>
        requires own { seat.old.cell ≡ cell.now.id }
        requires ready { IsReady self.old.attendant self.old.subscriptions self.old.responder.hears }
        requires direct { IsDirect self.old.attendant self.old.subscriptions }
        ensures own { seat.new.cell ≡ seat.old.cell }
        ensures ready { OnOk result (IsReady self.new.attendant self.new.subscriptions self.new.responder.hears) }
        ensures kept { (self.new.attendant ≡ self.old.attendant)
            × (self.new.subscriptions ≡ self.old.subscriptions) × (self.new.direct ≡ self.old.direct) }
        ensures shorter { IfOk result (λ next. IfSome next (λ more. length more.now < length rest.now)) }
        ensures answered { (most : ℕ) (stream before bytes : List ℕ) (g : Guest) → self.old.responder.unsent.items ≡ before ++ bytes
            → IsWithin cell.now.start now most stream g most (reading rest.now) bytes
            (guest_of self.old.attendant self.old.subscriptions self.old.responder.hears seat.old.view)
            → (more : List ℕ) × (self.new.responder.unsent.items ≡ before ++ more)
            × StepsInPlace cell.now.start now most stream g result rest.now more
            (guest_of self.new.attendant self.new.subscriptions self.new.responder.hears seat.new.view) }
        ensures one { IfOk result (λ next. AddsInPlace cell.now.start now next self.old.responder.unsent.items self.new.responder.unsent.items) }
    {
        let Some((command, more)) = next_in_place(rest) else {
            return Ok(None);
        };
        match self.hand_on(rt, cell, seat, now, &asked_by(&command)) {
            Ok(()) => Ok(Some(more)),
            Err(fault) => Err(fault),
        }
    }

    /// Answers the commands with which a piece begins where they stand, up to the first value that doesn't come nearly
    /// always or may store, or until it is full: what comes from that on.
    pub(crate) fn answer_in_place<'a, S: ConfStore, R: Wait>(
        &mut self,
        rt: &R,
        cell: &SharedSentinel<S>,
        seat: &mut Seat,
        now: u64,
        piece: &'a [u8],
    ) -> Result<&'a [u8], ServeFault>
        requires own { seat.old.cell ≡ cell.now.id }
        requires ready { IsReady self.old.attendant self.old.subscriptions self.old.responder.hears }
        requires direct { self.old.direct ≡ true → IsDirect self.old.attendant self.old.subscriptions }
        ensures own { seat.new.cell ≡ seat.old.cell }
        ensures ready { OnOk result (IsReady self.new.attendant self.new.subscriptions self.new.responder.hears) }
        ensures kept { (self.new.attendant ≡ self.old.attendant)
            × (self.new.subscriptions ≡ self.old.subscriptions) × (self.new.direct ≡ self.old.direct) }
        ensures answered { (most : ℕ) → (more : List ℕ) × (self.new.responder.unsent.items ≡ self.old.responder.unsent.items ++ more)
            × DrainsInPlace cell.now.start now most (bytes_in self.old.attendant.held ++ piece.now)
            (guest_of self.old.attendant self.old.subscriptions self.old.responder.hears seat.old.view) result (bytes_in self.old.attendant.held) more
            (guest_of self.new.attendant self.new.subscriptions self.new.responder.hears seat.new.view) }
        ensures in_time { OnOk result (StopsInTime cell.now.start now self.old.responder.unsent.items self.new.responder.unsent.items) }
    {
        if !self.direct {
            return Ok(piece);
        }
        let mut rest = piece;
        loop {
            if self.is_full() {
                return Ok(rest);
            }
            match self.answer_front(rt, cell, seat, now, rest) {
                Ok(Some(more)) => {
                    self.answered = self.answered.saturating_add(1);
                    rest = more;
                }
                Ok(None) => return Ok(rest),
                Err(fault) => return Err(fault),
            }
        }
    }
}
