//! To what a connection listens, and what it is told that no value of its stream asked for.

ghost use Rattle.std.specs.Prelude.{Ok, ◌≡◌, ◌⊎◌, ◌<◌, ◌++◌, ℕ, List, [], None, true, OnOk, OnErr, IfOk, IfErr, length};
ghost use Rattle.ballot_law.specs.declared.commands.Command.TheVariants.{Subscribe};
ghost use Rattle.ballot_law.specs.Rosters.{master_at};
ghost use Rattle.pubsub.specs.Answering.{turn_of, text_of, listening_after};
ghost use Rattle.pubsub.specs.Listening.{is_listening};
ghost use Rattle.port_sessions.specs.Listening.{note_text};
ghost use Rattle.resp2.specs.Framing.Frame.{view, spellings, HasLines, IsFrame};
ghost use Rattle.courteous_sessions.specs.Events.{event_told};
ghost use Rattle.courteous_sessions.specs.OnTheWay.{IsReady, IsTuned, NotifiesBelow, TellsBelow, guest_of};
ghost use Rattle.courteous_sessions.specs.Visits.{is_confined, channel_turn, hears_switches, switches, ServesIn, FailsAt, IsUnanswered};
ghost use Rattle.pubsub.specs.Telling.{told};
ghost use Rattle.courteous_sessions.specs.Retelling.{JoinsTold};

use crate::exchange::Exchange;
use crate::retelling::put_told;
use crate::shapes::{Shape, subscribes};
use ballot_law::{NoMemory, Note, Roster};
use client_commands::Protocol;
use port_sessions::add_note;
use pubsub::{Channel, Event, Subscriptions, Turn};
use resp2::{OutText, Value};
use sentinel_cell::{Seat, SharedSentinel};
use sentinel_conf::ConfStore;
use sentinel_core::ServeFault;
use std::sync::Wait;

/// Adds what a note tells of its master.
fn add_switch(text: &mut OutText, roster: &Roster, note: &Note) -> Result<(), NoMemory>
    requires { note.now.master < length roster.now.masters }
    ensures { OnOk result (text.new ≡ text.old ++ note_text (master_at roster.now note.now.master).name note.now) }
{
    let master = &roster.masters()[note.master as usize];
    add_note(text, &master.name, note)
}

/// Has the text, which is empty, hold what a connection with these subscriptions is told of an event. On the channel of
/// new addresses that is nothing: there notes alone are told.
fn write_event(
    subscriptions: &Subscriptions,
    event: &Event,
    text: &mut OutText,
) -> Result<(), NoMemory>
    requires { text.old ≡ [] }
    ensures { OnOk result (text.new ≡ spellings (event_told event.now subscriptions.now)) }
{
    if event.channel.name() == Channel::SwitchMaster.name() {
        return Ok(());
    }
    subscriptions.tell_event(event, text)
}

impl Exchange {
    /// What Pub/Sub makes of a value, and its answer where it has one. A client that is still to give its password
    /// listens to nothing. After `NoMemory` the connection is to be closed.
    fn channel_turn(&mut self, value: &Value, answer: &mut OutText) -> Result<Turn, ServeFault>
        requires { answer.old ≡ [] }
        ensures turn { IfOk result (λ turn. turn ≡ turn_of (channel_turn self.old.attendant.asker self.old.subscriptions (view value.now))) }
        ensures text { OnOk result (answer.new ≡ text_of (channel_turn self.old.attendant.asker self.old.subscriptions (view value.now))) }
        ensures after { OnOk result (self.new.subscriptions
            ≡ listening_after self.old.subscriptions (channel_turn self.old.attendant.asker self.old.subscriptions (view value.now))) }
        ensures attendant { self.new.attendant ≡ self.old.attendant }
        ensures hears { self.new.responder.hears ≡ self.old.responder.hears }
        ensures unsent { self.new.responder.unsent.items ≡ self.old.responder.unsent.items }
        ensures fault { IfErr result (λ fault. fault ≡ ServeFault.NoMemory) }
    {
        if self.attendant.is_stranger() {
            return Ok(Turn::Other);
        }
        if !self.attendant.protocol().is_two() && !subscribes(value) {
            return Ok(Turn::Other);
        }
        match self.subscriptions.answer(value, answer) {
            Ok(turn) => Ok(turn),
            Err(_) => Err(ServeFault::NoMemory),
        }
    }

    /// Has the responder listen to notes, where it doesn't.
    fn begin_notes<S: ConfStore, R: Wait>(
        &mut self,
        rt: &R,
        cell: &SharedSentinel<S>,
        seat: &mut Seat,
        now: u64,
    ) -> Result<(), ServeFault>
        requires own { seat.old.cell ≡ cell.now.id }
        ensures own { seat.new.cell ≡ seat.old.cell }
        ensures tuned { OnOk result (IsTuned cell.now.start now true self.old.responder.hears seat.old.view self.new.responder.hears seat.new.view) }
        ensures attendant { self.new.attendant ≡ self.old.attendant }
        ensures unsent { self.new.responder.unsent.items ≡ self.old.responder.unsent.items }
        ensures kept { self.new.subscriptions ≡ self.old.subscriptions }
        ensures fault { IfErr result (λ fault. ((fault ≡ ServeFault.Halted) ⊎ (fault ≡ ServeFault.NoMemory))
            × FailsAt cell.now.start now seat.old.view (Ok Subscribe) fault seat.new.view) }
    {
        self.responder.subscribe(rt, cell, seat, now)
    }

    /// Has the responder listen to notes where the connection hears of new addresses, and to nothing where it
    /// doesn't.
    fn tune<S: ConfStore, R: Wait>(
        &mut self,
        rt: &R,
        cell: &SharedSentinel<S>,
        seat: &mut Seat,
        now: u64,
    ) -> Result<(), ServeFault>
        requires own { seat.old.cell ≡ cell.now.id }
        ensures own { seat.new.cell ≡ seat.old.cell }
        ensures tuned { OnOk result (IsTuned cell.now.start now (hears_switches self.old.subscriptions) self.old.responder.hears seat.old.view self.new.responder.hears
            seat.new.view) }
        ensures attendant { self.new.attendant ≡ self.old.attendant }
        ensures unsent { self.new.responder.unsent.items ≡ self.old.responder.unsent.items }
        ensures kept { self.new.subscriptions ≡ self.old.subscriptions }
        ensures fault { IfErr result (λ fault. ((fault ≡ ServeFault.Halted) ⊎ (fault ≡ ServeFault.NoMemory))
            × FailsAt cell.now.start now seat.old.view (Ok Subscribe) fault seat.new.view) }
    {
        if self.subscriptions.hears(Channel::SwitchMaster.name()) {
            return self.begin_notes(rt, cell, seat, now);
        }
        self.responder.stop_listening();
        Ok(())
    }

    /// Tells an answer of Pub/Sub, after which the connection listens to what it has subscriptions for now.
    fn confirm<S: ConfStore, R: Wait>(
        &mut self,
        rt: &R,
        cell: &SharedSentinel<S>,
        seat: &mut Seat,
        now: u64,
        answer: &[u8],
    ) -> Result<(), ServeFault>
        requires own { seat.old.cell ≡ cell.now.id }
        ensures own { seat.new.cell ≡ seat.old.cell }
        ensures tuned { OnOk result (IsTuned cell.now.start now (hears_switches self.old.subscriptions) self.old.responder.hears seat.old.view self.new.responder.hears
            seat.new.view) }
        ensures attendant { OnOk result (self.new.attendant ≡ record self.old.attendant {
          asker = record self.old.attendant.asker { listens = is_confined self.old.attendant.asker.protocol self.old.subscriptions };
        }) }
        ensures unsent { OnOk result (self.new.responder.unsent.items ≡ self.old.responder.unsent.items ++ answer.now) }
        ensures kept { self.new.subscriptions ≡ self.old.subscriptions }
        ensures fault { IfErr result (λ fault. ((fault ≡ ServeFault.Halted) ⊎ (fault ≡ ServeFault.NoMemory))
            × (self.new.responder.unsent.items ≡ self.old.responder.unsent.items)
            × FailsAt cell.now.start now seat.old.view (Ok Subscribe) fault seat.new.view) }
    {
        self.tune(rt, cell, seat, now)?;
        self.note_listening();
        self.responder.put_out(answer)
    }

    /// Has a value answered: by Pub/Sub, where that has an answer to it, and else by a courtesy or the responder.
    /// The answer is that of protocol 2.
    pub(crate) fn answer_value<S: ConfStore, R: Wait>(
        &mut self,
        rt: &R,
        cell: &SharedSentinel<S>,
        seat: &mut Seat,
        now: u64,
        value: &Value,
    ) -> Result<(), ServeFault>
        requires own { seat.old.cell ≡ cell.now.id }
        requires ready { IsReady self.old.attendant self.old.subscriptions self.old.responder.hears }
        requires frame { IsFrame (view value.now) × HasLines (view value.now) }
        ensures own { seat.new.cell ≡ seat.old.cell }
        ensures served { OnOk result ((more : List ℕ) × (self.new.responder.unsent.items ≡ self.old.responder.unsent.items ++ more)
            × IsReady self.new.attendant self.new.subscriptions self.new.responder.hears
            × ServesIn cell.now.start now self.old.attendant.asker.protocol
            (guest_of self.old.attendant self.old.subscriptions self.old.responder.hears seat.old.view) (view value.now) more
            (guest_of self.new.attendant self.new.subscriptions self.new.responder.hears seat.new.view)) }
        ensures held { OnOk result (self.new.attendant.held ≡ self.old.attendant.held) }
        ensures fault { IfErr result (λ fault. ((fault ≡ ServeFault.Halted) ⊎ (fault ≡ ServeFault.NoMemory))
            × (self.new.responder.unsent.items ≡ self.old.responder.unsent.items)
            × IsUnanswered cell.now.start now seat.old.view (view value.now) fault seat.new.view) }
    {
        let mut answer = OutText::new(self.alloc);
        match self.channel_turn(value, &mut answer)? {
            Turn::Said => self.confirm(rt, cell, seat, now, answer.as_slice()),
            Turn::Other => match self.attendant.protocol() {
                Protocol::Two => self.attend_to(rt, cell, seat, now, value),
                Protocol::Three => self.attend_beside(rt, cell, seat, now, value),
            },
        }
    }

    /// Has messages join what isn't sent yet, as the connection's protocol tells them.
    fn push_out(&mut self, messages: &[u8]) -> Result<(), ServeFault>
        ensures ok { OnOk result (JoinsTold self.old.attendant.asker.protocol Shape.Pushes messages.now self.old.responder.unsent.items
            self.new.responder.unsent.items) }
        ensures err { OnErr result (self.new.responder.unsent.items ≡ self.old.responder.unsent.items) }
        ensures hears { self.new.responder.hears ≡ self.old.responder.hears }
        ensures attendant { self.new.attendant ≡ self.old.attendant }
        ensures kept { (self.new.subscriptions ≡ self.old.subscriptions)
            × (self.new.direct ≡ self.old.direct) }
        ensures fault { IfErr result (λ fault. fault ≡ ServeFault.NoMemory) }
    {
        let protocol = self.attendant.protocol();
        put_told(
            self.alloc,
            &mut self.responder,
            protocol,
            Shape::Pushes,
            messages,
        )
    }

    /// Appends the `+switch-master` message with this text to the unsent bytes, once for each matching subscription.
    fn tell_switch(&mut self, text: &[u8]) -> Result<(), NoMemory>
        ensures ok { OnOk result (JoinsTold self.old.attendant.asker.protocol Shape.Pushes (spellings (told self.old.subscriptions switches text.now))
            self.old.responder.unsent.items self.new.responder.unsent.items) }
        ensures err { OnErr result (self.new.responder.unsent.items ≡ self.old.responder.unsent.items) }
        ensures hears { self.new.responder.hears ≡ self.old.responder.hears }
        ensures attendant { self.new.attendant ≡ self.old.attendant }
        ensures kept { (self.new.subscriptions ≡ self.old.subscriptions)
            × (self.new.direct ≡ self.old.direct) }
    {
        let mut told = OutText::new(self.alloc);
        let channel = Channel::SwitchMaster.name();
        self.subscriptions.find_out(Channel::SwitchMaster);
        self.subscriptions.tell(channel, text, &mut told)?;
        match self.push_out(told.as_slice()) {
            Ok(()) => Ok(()),
            Err(_) => Err(NoMemory),
        }
    }

    /// Tells the client of a note, where it is due: whether it is. After `NoMemory` the connection
    /// is to be closed.
    pub(crate) fn notify(
        &mut self,
        roster: &Roster,
        note: &Note,
        entry: u64,
    ) -> Result<bool, NoMemory>
        requires master { note.now.master < length roster.now.masters }
        requires ready { IsReady self.old.attendant self.old.subscriptions self.old.responder.hears }
        ensures ready { IsReady self.new.attendant self.new.subscriptions self.new.responder.hears }
        ensures told { NotifiesBelow roster.now note.now entry self.old.attendant.asker.protocol self.old.subscriptions self.old.responder.hears self.old.responder.unsent.items result self.new.responder.hears
            self.new.responder.unsent.items }
        ensures attendant { self.new.attendant ≡ self.old.attendant }
        ensures kept { (self.new.subscriptions ≡ self.old.subscriptions)
            × (self.new.direct ≡ self.old.direct) }
    {
        roster.is_made();
        if !self.responder.count_note(note, entry) {
            return Ok(false);
        }
        let mut text = OutText::new(self.alloc);
        add_switch(&mut text, roster, note)?;
        self.tell_switch(text.as_slice())?;
        Ok(true)
    }

    /// Tells the client of an event, where a channel or a pattern of the connection matches its channel: whether
    /// anything is told. After `NoMemory` nothing changed, and the client misses an event.
    pub(crate) fn tell_event(&mut self, event: &Event) -> Result<bool, NoMemory>
        ensures told { TellsBelow event.now self.old.attendant.asker.protocol self.old.subscriptions self.old.responder.unsent.items result self.new.responder.unsent.items }
        ensures hears { self.new.responder.hears ≡ self.old.responder.hears }
        ensures attendant { self.new.attendant ≡ self.old.attendant }
        ensures kept { (self.new.subscriptions ≡ self.old.subscriptions)
            × (self.new.direct ≡ self.old.direct) }
    {
        let mut told = OutText::new(self.alloc);
        self.subscriptions.find_out(event.channel);
        write_event(&self.subscriptions, event, &mut told)?;
        match self.push_out(told.as_slice()) {
            Ok(()) => Ok(!told.as_slice().is_empty()),
            Err(_) => Err(NoMemory),
        }
    }
}
