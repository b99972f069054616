//! What came from a client and what goes to it.

ghost use Rattle.std.specs.Prelude.{Ok, ◌≡◌, ◌⊎◌, ◌≤◌, ◌<◌, ◌++◌, ℕ, List, [], None, Some, OnOk, OnErr, IfOk, IfErr, IfSome, IsTrue, true, false, length, drop};
ghost use Rattle.pubsub.specs.Listening.{is_listening};
ghost use Rattle.client_commands.specs.Attendants.{TakesCommon};
ghost use Rattle.client_commands.specs.Courtesies.{Answer, is_stranger, kind_of, text_of};
ghost use Rattle.port_sessions.specs.Notes.{unheard};
ghost use Rattle.port_sessions.specs.Talks.{party, Responds};
ghost use Rattle.client_commands.specs.Infos.{info};
ghost use Rattle.resp2.specs.Asked.{IsCommon};
ghost use Rattle.ballot_law.specs.Limits.{IsWithin};
ghost use Rattle.resp2.specs.Framing.Frame.{Frame, view, spelling, HasLines, IsFrame};
ghost use Rattle.resp2.specs.Framing.Stream.{reading, held_size, bytes_in};
ghost use Rattle.courteous_sessions.specs.Clients.{newcomer};
ghost use Rattle.courteous_sessions.specs.Epochs.{heard_as};
ghost use Rattle.courteous_sessions.specs.OnTheWay.{AnswersBeside, IsReady, IsDirect, IsOnTheWay, IsSameAsker, Steps, Drains, BeginsWith, guest_of};
ghost use Rattle.courteous_sessions.specs.Visits.{Guest, is_confined, unsubscribed, channel_turn, TellsInfo, Answers, Serves, ServesBeside, FailsAt, IsUnanswered, Receives};
ghost use Rattle.pubsub.specs.Answering.{other};

use crate::epochs::{FarRequest, far_request, heard_as, is_plain};
use crate::questions::{bytes_from, first_value};
use ballot_law::{Command, NoMemory, Text};
use client_commands::{ClientInfo, CommandReader, Courtesy, Figures, PortFacts, Protocol};
use port_sessions::Responder;
use pubsub::Subscriptions;
use resp2::{CommandFault, Value, redis_command_of};
use sentinel_cell::{Seat, SharedSentinel};
use sentinel_conf::ConfStore;
use sentinel_core::ServeFault;
use std::alloc::Global;
use std::sync::Wait;

/// What tells what becomes of each value, to what the connection listens, and what answers a Sentinel's own commands,
/// with all that isn't sent yet.
///
/// The responder listens to notes where the connection hears of new addresses. `direct` is whether a command may be
/// answered where it stands in the next piece, `far` the last request for a vote whose epoch was too far above the
/// Sentinel's, and `answered` how many values were answered since that was asked.
#[derive(Drop)]
pub(crate) struct Exchange {
    pub(crate) alloc: Global,
    pub(crate) attendant: CommandReader,
    pub(crate) subscriptions: Subscriptions,
    pub(crate) responder: Responder,
    pub(crate) direct: bool,
    pub(crate) far: Option<FarRequest>,
    pub(crate) answered: u64,
}

/// What is known of a connection with this number at its beginning.
fn newcomer(alloc: Global, id: u64) -> ClientInfo
    ensures { result ≡ newcomer id }
{
    ClientInfo {
        id,
        name: Text::from_vec(Vec::new(alloc)),
        protocol: Protocol::Two,
        listens: false,
        password: None,
        admitted: false,
        current: None,
        port: PortFacts::of(alloc, Figures::none()),
    }
}

impl Exchange {
    /// Nothing came yet of the connection with this number. No memory is taken.
    pub(crate) fn new(alloc: Global, id: u64) -> Exchange
        ensures attendant { result.attendant ≡ record { held = reading []; asker = newcomer id; text = [] } }
        ensures hears { result.responder.hears ≡ unheard }
        ensures unsent { result.responder.unsent.items ≡ [] }
        ensures direct { result.direct ≡ false }
        ensures silent { result.subscriptions ≡ unsubscribed }
    {
        Exchange {
            alloc,
            attendant: CommandReader::new(alloc, newcomer(alloc, id)),
            subscriptions: Subscriptions::new(alloc),
            responder: Responder::new(alloc),
            direct: false,
            far: None,
            answered: 0,
        }
    }

    /// Gives back all room in which nothing is held.
    pub(crate) fn rest(&mut self)
        ensures attendant { self.new.attendant ≡ record self.old.attendant { text = [] } }
        ensures hears { self.new.responder.hears ≡ self.old.responder.hears }
        ensures unsent { self.new.responder.unsent.items ≡ self.old.responder.unsent.items }
        ensures kept { (self.new.subscriptions ≡ self.old.subscriptions)
            × (self.new.direct ≡ self.old.direct) }
    {
        self.responder.rest();
        self.attendant.drop_text();
    }

    /// Has it want this password of its client, who didn't give it yet.
    pub(crate) fn want_password(&mut self, password: Text)
        ensures attendant { self.new.attendant ≡ record self.old.attendant {
          asker = record self.old.attendant.asker {
            password = Some password;
            admitted = false;
          };
        } }
        ensures hears { self.new.responder.hears ≡ self.old.responder.hears }
        ensures unsent { self.new.responder.unsent.items ≡ self.old.responder.unsent.items }
        ensures kept { self.new.subscriptions ≡ self.old.subscriptions }
        ensures direct { self.new.direct ≡ false }
    {
        self.attendant.want_password(password);
        self.direct = false;
    }

    /// Has it know this current epoch of the Sentinel.
    pub(crate) fn note_epoch(&mut self, epoch: u64)
        ensures attendant { self.new.attendant ≡ record self.old.attendant { asker = record self.old.attendant.asker { current = Some epoch } } }
        ensures hears { self.new.responder.hears ≡ self.old.responder.hears }
        ensures unsent { self.new.responder.unsent.items ≡ self.old.responder.unsent.items }
        ensures kept { (self.new.subscriptions ≡ self.old.subscriptions)
            × (self.new.direct ≡ self.old.direct) }
    {
        self.attendant.note_epoch(epoch);
    }

    /// The last request for a vote whose epoch was too far above that epoch, where one came since this was asked.
    pub(crate) fn take_far(&mut self) -> Option<FarRequest>
        ensures attendant { self.new.attendant ≡ self.old.attendant }
        ensures hears { self.new.responder.hears ≡ self.old.responder.hears }
        ensures unsent { self.new.responder.unsent.items ≡ self.old.responder.unsent.items }
        ensures kept { (self.new.subscriptions ≡ self.old.subscriptions)
            × (self.new.direct ≡ self.old.direct) }
        ensures request { result ≡ self.old.far }
    {
        self.far.take()
    }

    /// How many values were answered since this was asked.
    pub(crate) fn take_answered(&mut self) -> u64
        ensures attendant { self.new.attendant ≡ self.old.attendant }
        ensures hears { self.new.responder.hears ≡ self.old.responder.hears }
        ensures unsent { self.new.responder.unsent.items ≡ self.old.responder.unsent.items }
        ensures kept { (self.new.subscriptions ≡ self.old.subscriptions)
            × (self.new.direct ≡ self.old.direct) }
        ensures count { result ≡ self.old.answered }
    {
        let answered = self.answered;
        self.answered = 0;
        answered
    }

    /// Has it know this of its port: what it knew before.
    pub(crate) fn know_port(&mut self, port: PortFacts) -> PortFacts
        ensures attendant { self.new.attendant ≡ record self.old.attendant { asker = record self.old.attendant.asker { port = port } } }
        ensures hears { self.new.responder.hears ≡ self.old.responder.hears }
        ensures unsent { self.new.responder.unsent.items ≡ self.old.responder.unsent.items }
        ensures kept { (self.new.subscriptions ≡ self.old.subscriptions)
            × (self.new.direct ≡ self.old.direct) }
        ensures before { result ≡ self.old.attendant.asker.port }
    {
        self.attendant.know_port(port)
    }

    /// The connection ends: what is held is dropped, and it listens to nothing more.
    pub(crate) fn close(&mut self)
        ensures ready { IsReady self.new.attendant self.new.subscriptions self.new.responder.hears }
        ensures held { self.new.attendant.held ≡ reading [] }
        ensures silent { (self.new.responder.hears.listens ≡ None) × (self.new.subscriptions ≡ unsubscribed) }
        ensures direct { self.new.direct ≡ false }
        ensures unsent { self.new.responder.unsent.items ≡ self.old.responder.unsent.items }
    {
        self.direct = false;
        self.attendant.drop_held();
        self.attendant.note_listening(false);
        self.subscriptions = Subscriptions::new(self.alloc);
        self.responder.stop_listening();
    }

    /// The command as it is heard, or why the value is none. A request for a vote that isn't heard as it is, is kept.
    fn hear(&mut self, asked: &Result<Command, CommandFault>) -> Result<Command, CommandFault>
        requires { IfOk asked.now IsWithin }
        ensures heard { result ≡ heard_as self.old.attendant.asker.current asked.now }
        ensures within { IfOk result IsWithin }
        ensures attendant { self.new.attendant ≡ self.old.attendant }
        ensures hears { self.new.responder.hears ≡ self.old.responder.hears }
        ensures unsent { self.new.responder.unsent.items ≡ self.old.responder.unsent.items }
        ensures kept { (self.new.subscriptions ≡ self.old.subscriptions)
            × (self.new.direct ≡ self.old.direct) }
    {
        let current = self.attendant.current();
        if let Some(request) = far_request(current, asked) {
            self.far = Some(request);
        }
        heard_as(current, asked)
    }

    /// Has a command answered, or a value that is none for this reason.
    fn ask<S: ConfStore, R: Wait>(
        &mut self,
        rt: &R,
        cell: &SharedSentinel<S>,
        seat: &mut Seat,
        now: u64,
        asked: &Result<Command, CommandFault>,
    ) -> Result<(), ServeFault>
        requires own { seat.old.cell ≡ cell.now.id }
        requires within { IfOk asked.now IsWithin }
        ensures own { seat.new.cell ≡ seat.old.cell }
        ensures answered { OnOk result ((more : List ℕ) × (self.new.responder.unsent.items ≡ self.old.responder.unsent.items ++ more)
            × Responds cell.now.start now (party seat.old.view self.old.responder.hears.listens) asked.now more (party seat.new.view self.new.responder.hears.listens)) }
        ensures told { self.new.responder.hears.told ≡ self.old.responder.hears.told }
        ensures err { OnErr result (self.new.responder.unsent.items ≡ self.old.responder.unsent.items) }
        ensures fault { IfErr result (λ fault. ((fault ≡ ServeFault.Halted) ⊎ (fault ≡ ServeFault.NoMemory))
            × FailsAt cell.now.start now seat.old.view asked.now fault seat.new.view) }
        ensures kept { (self.new.attendant ≡ self.old.attendant)
            × (self.new.subscriptions ≡ self.old.subscriptions) × (self.new.direct ≡ self.old.direct) }
    {
        self.responder.answer(rt, cell, seat, now, asked)
    }

    /// Has a command answered as it is heard, or a value that is none for this reason.
    pub(crate) fn hand_on<S: ConfStore, R: Wait>(
        &mut self,
        rt: &R,
        cell: &SharedSentinel<S>,
        seat: &mut Seat,
        now: u64,
        asked: &Result<Command, CommandFault>,
    ) -> Result<(), ServeFault>
        requires own { seat.old.cell ≡ cell.now.id }
        requires within { IfOk asked.now IsWithin }
        ensures own { seat.new.cell ≡ seat.old.cell }
        ensures answered { OnOk result ((more : List ℕ) × (self.new.responder.unsent.items ≡ self.old.responder.unsent.items ++ more)
            × Responds cell.now.start now (party seat.old.view self.old.responder.hears.listens) (heard_as self.old.attendant.asker.current asked.now) more
            (party seat.new.view self.new.responder.hears.listens)) }
        ensures told { self.new.responder.hears.told ≡ self.old.responder.hears.told }
        ensures err { OnErr result (self.new.responder.unsent.items ≡ self.old.responder.unsent.items) }
        ensures fault { IfErr result (λ fault. ((fault ≡ ServeFault.Halted) ⊎ (fault ≡ ServeFault.NoMemory))
            × FailsAt cell.now.start now seat.old.view (heard_as self.old.attendant.asker.current asked.now) fault seat.new.view) }
        ensures kept { (self.new.attendant ≡ self.old.attendant)
            × (self.new.subscriptions ≡ self.old.subscriptions) × (self.new.direct ≡ self.old.direct) }
    {
        if is_plain(asked) {
            return self.ask(rt, cell, seat, now, asked);
        }
        let heard = self.hear(asked);
        self.ask(rt, cell, seat, now, &heard)
    }

    /// Answers INFO by the section that the Sentinel tells.
    fn tell_info<S: ConfStore, R: Wait>(
        &mut self,
        rt: &R,
        cell: &SharedSentinel<S>,
        seat: &mut Seat,
        now: u64,
        value: &Value,
    ) -> Result<(), ServeFault>
        requires own { seat.old.cell ≡ cell.now.id }
        ensures own { seat.new.cell ≡ seat.old.cell }
        ensures answered { OnOk result ((more : List ℕ) × (self.new.responder.unsent.items ≡ self.old.responder.unsent.items ++ more)
            × TellsInfo cell.now.start now self.old.attendant.asker.port.figures (party seat.old.view self.old.responder.hears.listens) (view value.now) more
            (party seat.new.view self.new.responder.hears.listens)) }
        ensures same { IsSameAsker self.old.attendant self.new.attendant }
        ensures told { self.new.responder.hears.told ≡ self.old.responder.hears.told }
        ensures err { OnErr result (self.new.responder.unsent.items ≡ self.old.responder.unsent.items) }
        ensures fault { IfErr result (λ fault. ((fault ≡ ServeFault.Halted) ⊎ (fault ≡ ServeFault.NoMemory))
            × FailsAt cell.now.start now seat.old.view (Ok Command.Info) fault seat.new.view) }
        ensures kept { self.new.subscriptions ≡ self.old.subscriptions }
    {
        let start = self.responder.unsent().len();
        self.ask(rt, cell, seat, now, &Ok(Command::Info))?;
        let informed = self.inform(value, start);
        self.responder.cut_back(start);
        match informed {
            Ok(()) => self.responder.put_out(self.attendant.text()),
            Err(_) => Err(ServeFault::NoMemory),
        }
    }

    /// Has the attendant's text be the answer to INFO, by the Sentinel's section, which begins at this place of what
    /// isn't sent yet.
    fn inform(&mut self, value: &Value, start: usize) -> Result<(), NoMemory>
        requires { start ≤ length self.old.responder.unsent.items }
        ensures text { OnOk result ((section : Frame) × BeginsWith (drop start self.old.responder.unsent.items) section
            × (self.new.attendant.text ≡ spelling (info self.old.attendant.asker.port.figures (view value.now) section))) }
        ensures asker { self.new.attendant.asker ≡ self.old.attendant.asker }
        ensures held { self.new.attendant.held ≡ self.old.attendant.held }
        ensures hears { self.new.responder.hears ≡ self.old.responder.hears }
        ensures unsent { self.new.responder.unsent.items ≡ self.old.responder.unsent.items }
        ensures kept { self.new.subscriptions ≡ self.old.subscriptions }
    {
        let section = first_value(self.alloc, bytes_from(self.responder.unsent(), start))?;
        self.attendant.inform(value, &section)
    }

    /// Has the value that was attended to be answered.
    fn answer<S: ConfStore, R: Wait>(
        &mut self,
        rt: &R,
        cell: &SharedSentinel<S>,
        seat: &mut Seat,
        now: u64,
        value: &Value,
        kind: Courtesy,
    ) -> Result<(), ServeFault>
        requires own { seat.old.cell ≡ cell.now.id }
        ensures own { seat.new.cell ≡ seat.old.cell }
        ensures answered { OnOk result ((becomes : Answer) → kind ≡ kind_of becomes → self.old.attendant.text ≡ text_of becomes
            → (more : List ℕ) × (self.new.responder.unsent.items ≡ self.old.responder.unsent.items ++ more)
            × Answers cell.now.start now self.old.attendant.asker becomes (party seat.old.view self.old.responder.hears.listens) (view value.now) more
            (party seat.new.view self.new.responder.hears.listens)) }
        ensures same { IsSameAsker self.old.attendant self.new.attendant }
        ensures told { self.new.responder.hears.told ≡ self.old.responder.hears.told }
        ensures err { OnErr result (self.new.responder.unsent.items ≡ self.old.responder.unsent.items) }
        ensures fault { IfErr result (λ fault. ((fault ≡ ServeFault.Halted) ⊎ (fault ≡ ServeFault.NoMemory))
            × IsUnanswered cell.now.start now seat.old.view (view value.now) fault seat.new.view) }
        ensures kept { self.new.subscriptions ≡ self.old.subscriptions }
    {
        match kind {
            Courtesy::Left => self.hand_on(rt, cell, seat, now, &redis_command_of(value)),
            Courtesy::Said => self.responder.put_out(self.attendant.text()),
            Courtesy::AsksInfo => self.tell_info(rt, cell, seat, now, value),
        }
    }

    /// Has the value that was attended to be answered as of a connection that hears of no new addresses; it goes on
    /// hearing of them.
    fn answer_beside<S: ConfStore, R: Wait>(
        &mut self,
        rt: &R,
        cell: &SharedSentinel<S>,
        seat: &mut Seat,
        now: u64,
        value: &Value,
        kind: Courtesy,
    ) -> Result<(), ServeFault>
        requires own { seat.old.cell ≡ cell.now.id }
        ensures own { seat.new.cell ≡ seat.old.cell }
        ensures answered { OnOk result ((becomes : Answer) → kind ≡ kind_of becomes → self.old.attendant.text ≡ text_of becomes
            → AnswersBeside cell.now.start now self.old.attendant.asker becomes seat.old.view (view value.now) self.old.responder.unsent.items self.new.responder.unsent.items
            seat.new.view) }
        ensures same { IsSameAsker self.old.attendant self.new.attendant }
        ensures hears { self.new.responder.hears ≡ self.old.responder.hears }
        ensures err { OnErr result (self.new.responder.unsent.items ≡ self.old.responder.unsent.items) }
        ensures fault { IfErr result (λ fault. ((fault ≡ ServeFault.Halted) ⊎ (fault ≡ ServeFault.NoMemory))
            × IsUnanswered cell.now.start now seat.old.view (view value.now) fault seat.new.view) }
        ensures kept { self.new.subscriptions ≡ self.old.subscriptions }
    {
        let since = self.responder.listen_since(None);
        let answered = self.answer(rt, cell, seat, now, value, kind);
        self.responder.listen_since(since);
        answered
    }

    /// Whether the connection has no commands but those of Pub/Sub and PING, since it listens at protocol 2.
    fn is_confined(&self) -> bool
        ensures { result ≡ is_confined self.now.attendant.asker.protocol self.now.subscriptions }
    {
        match self.attendant.protocol() {
            Protocol::Two => self.subscriptions.is_listening(),
            Protocol::Three => false,
        }
    }

    /// Has the attendant know whether the connection has other commands.
    pub(crate) fn note_listening(&mut self)
        ensures attendant { self.new.attendant ≡ record self.old.attendant {
          asker = record self.old.attendant.asker { listens = is_confined self.old.attendant.asker.protocol self.old.subscriptions };
        } }
        ensures hears { self.new.responder.hears ≡ self.old.responder.hears }
        ensures unsent { self.new.responder.unsent.items ≡ self.old.responder.unsent.items }
        ensures kept { self.new.subscriptions ≡ self.old.subscriptions }
    {
        let listens = self.is_confined();
        self.attendant.note_listening(listens);
    }

    /// Attends to a value that Pub/Sub doesn't answer, at protocol 2, and has it answered.
    pub(crate) fn attend_to<S: ConfStore, R: Wait>(
        &mut self,
        rt: &R,
        cell: &SharedSentinel<S>,
        seat: &mut Seat,
        now: u64,
        value: &Value,
    ) -> Result<(), ServeFault>
        requires own { seat.old.cell ≡ cell.now.id }
        requires ready { IsReady self.old.attendant self.old.subscriptions self.old.responder.hears }
        requires frame { IsFrame (view value.now) × HasLines (view value.now) }
        requires other { (channel_turn self.old.attendant.asker self.old.subscriptions (view value.now) ≡ other)
            × (self.old.attendant.asker.protocol ≡ Protocol.Two) }
        ensures own { seat.new.cell ≡ seat.old.cell }
        ensures served { OnOk result ((more : List ℕ) × (self.new.responder.unsent.items ≡ self.old.responder.unsent.items ++ more)
            × IsReady self.new.attendant self.new.subscriptions self.new.responder.hears
            × Serves cell.now.start now (guest_of self.old.attendant self.old.subscriptions self.old.responder.hears seat.old.view) (view value.now) more
            (guest_of self.new.attendant self.new.subscriptions self.new.responder.hears seat.new.view)) }
        ensures held { OnOk result (self.new.attendant.held ≡ self.old.attendant.held) }
        ensures fault { IfErr result (λ fault. ((fault ≡ ServeFault.Halted) ⊎ (fault ≡ ServeFault.NoMemory))
            × (self.new.responder.unsent.items ≡ self.old.responder.unsent.items)
            × IsUnanswered cell.now.start now seat.old.view (view value.now) fault seat.new.view) }
    {
        match self.attendant.attend_to(value, cell.roster()) {
            Ok(kind) => {
                self.answer(rt, cell, seat, now, value, kind)?;
                self.note_listening();
                Ok(())
            }
            Err(_) => Err(ServeFault::NoMemory),
        }
    }

    /// The same at protocol 3, where it may listen meanwhile.
    pub(crate) fn attend_beside<S: ConfStore, R: Wait>(
        &mut self,
        rt: &R,
        cell: &SharedSentinel<S>,
        seat: &mut Seat,
        now: u64,
        value: &Value,
    ) -> Result<(), ServeFault>
        requires own { seat.old.cell ≡ cell.now.id }
        requires ready { IsReady self.old.attendant self.old.subscriptions self.old.responder.hears }
        requires other { channel_turn self.old.attendant.asker self.old.subscriptions (view value.now) ≡ other }
        ensures own { seat.new.cell ≡ seat.old.cell }
        ensures served { OnOk result ((more : List ℕ) × (self.new.responder.unsent.items ≡ self.old.responder.unsent.items ++ more)
            × IsReady self.new.attendant self.new.subscriptions self.new.responder.hears
            × ServesBeside cell.now.start now (guest_of self.old.attendant self.old.subscriptions self.old.responder.hears seat.old.view) (view value.now) more
            (guest_of self.new.attendant self.new.subscriptions self.new.responder.hears seat.new.view)) }
        ensures held { OnOk result (self.new.attendant.held ≡ self.old.attendant.held) }
        ensures fault { IfErr result (λ fault. ((fault ≡ ServeFault.Halted) ⊎ (fault ≡ ServeFault.NoMemory))
            × (self.new.responder.unsent.items ≡ self.old.responder.unsent.items)
            × IsUnanswered cell.now.start now seat.old.view (view value.now) fault seat.new.view) }
    {
        match self.attendant.attend_to(value, cell.roster()) {
            Ok(kind) => {
                self.answer_beside(rt, cell, seat, now, value, kind)?;
                self.note_listening();
                Ok(())
            }
            Err(_) => Err(ServeFault::NoMemory),
        }
    }

    /// Answers the first value that is whole, whichever it is, and tells whether there was one.
    fn answer_any<S: ConfStore, R: Wait>(
        &mut self,
        rt: &R,
        cell: &SharedSentinel<S>,
        seat: &mut Seat,
        now: u64,
    ) -> Result<bool, ServeFault>
        requires own { seat.old.cell ≡ cell.now.id }
        requires ready { IsReady self.old.attendant self.old.subscriptions self.old.responder.hears }
        ensures own { seat.new.cell ≡ seat.old.cell }
        ensures smaller { IfOk result (λ more. IsTrue more → held_size self.new.attendant.held < held_size self.old.attendant.held) }
        ensures ready { OnOk result (IsReady self.new.attendant self.new.subscriptions self.new.responder.hears) }
        ensures answered { (stream before bytes : List ℕ) (g : Guest) → self.old.responder.unsent.items ≡ before ++ bytes
            → IsOnTheWay cell.now.start now stream g self.old.attendant.held bytes
            (guest_of self.old.attendant self.old.subscriptions self.old.responder.hears seat.old.view) → (more : List ℕ) × (self.new.responder.unsent.items ≡ before ++ more)
            × Steps cell.now.start now stream g result self.new.attendant.held more
            (guest_of self.new.attendant self.new.subscriptions self.new.responder.hears seat.new.view) }
    {
        match self.attendant.next() {
            Ok(Some(value)) => match self.tell_value(rt, cell, seat, now, &value) {
                Ok(()) => Ok(true),
                Err(fault) => Err(fault),
            },
            Ok(None) => Ok(false),
            Err(fault) => Err(self.responder.refuse(fault)),
        }
    }

    /// Takes the next value if it is one of the three frequent commands, no password is missing and the client has no
    /// subscription.
    pub(crate) fn next_common(&mut self) -> Option<Command>
        ensures taken { IfSome result (TakesCommon self.old.attendant.held self.new.attendant.held) }
        ensures common { IfSome result (λ command. IsCommon command × IsWithin command) }
        ensures plain { IfSome result (λ command. (is_stranger self.old.attendant.asker ≡ false) × (is_listening self.old.subscriptions ≡ false)) }
        ensures fewer { IfSome result (λ command. held_size self.new.attendant.held < held_size self.old.attendant.held) }
        ensures left { result ≡ None → self.new.attendant ≡ self.old.attendant }
        ensures asker { self.new.attendant.asker ≡ self.old.attendant.asker }
        ensures hears { self.new.responder.hears ≡ self.old.responder.hears }
        ensures unsent { self.new.responder.unsent.items ≡ self.old.responder.unsent.items }
        ensures kept { self.new.subscriptions ≡ self.old.subscriptions }
    {
        if self.attendant.is_stranger() || self.subscriptions.is_listening() {
            return None;
        }
        self.attendant.next_common()
    }

    /// Answers the first value that is whole, and tells whether there was one.
    fn answer_next<S: ConfStore, R: Wait>(
        &mut self,
        rt: &R,
        cell: &SharedSentinel<S>,
        seat: &mut Seat,
        now: u64,
    ) -> Result<bool, ServeFault>
        requires own { seat.old.cell ≡ cell.now.id }
        requires ready { IsReady self.old.attendant self.old.subscriptions self.old.responder.hears }
        ensures own { seat.new.cell ≡ seat.old.cell }
        ensures smaller { IfOk result (λ more. IsTrue more → held_size self.new.attendant.held < held_size self.old.attendant.held) }
        ensures ready { OnOk result (IsReady self.new.attendant self.new.subscriptions self.new.responder.hears) }
        ensures answered { (stream before bytes : List ℕ) (g : Guest) → self.old.responder.unsent.items ≡ before ++ bytes
            → IsOnTheWay cell.now.start now stream g self.old.attendant.held bytes
            (guest_of self.old.attendant self.old.subscriptions self.old.responder.hears seat.old.view) → (more : List ℕ) × (self.new.responder.unsent.items ≡ before ++ more)
            × Steps cell.now.start now stream g result self.new.attendant.held more
            (guest_of self.new.attendant self.new.subscriptions self.new.responder.hears seat.new.view) }
    {
        match self.next_common() {
            Some(command) => match self.tell_common(rt, cell, seat, now, command) {
                Ok(()) => Ok(true),
                Err(fault) => Err(fault),
            },
            None => self.answer_any(rt, cell, seat, now),
        }
    }

    /// Answers each value that is whole.
    fn answer_whole<S: ConfStore, R: Wait>(
        &mut self,
        rt: &R,
        cell: &SharedSentinel<S>,
        seat: &mut Seat,
        now: u64,
    ) -> Result<(), ServeFault>
        requires own { seat.old.cell ≡ cell.now.id }
        requires ready { IsReady self.old.attendant self.old.subscriptions self.old.responder.hears }
        ensures own { seat.new.cell ≡ seat.old.cell }
        ensures ready { OnOk result (IsReady self.new.attendant self.new.subscriptions self.new.responder.hears) }
        ensures answered { (stream before bytes : List ℕ) (g : Guest) → self.old.responder.unsent.items ≡ before ++ bytes
            → IsOnTheWay cell.now.start now stream g self.old.attendant.held bytes
            (guest_of self.old.attendant self.old.subscriptions self.old.responder.hears seat.old.view) → (more : List ℕ) × (self.new.responder.unsent.items ≡ before ++ more)
            × Drains cell.now.start now stream g result self.new.attendant.held more
            (guest_of self.new.attendant self.new.subscriptions self.new.responder.hears seat.new.view) }
    {
        loop {
            match self.answer_next(rt, cell, seat, now) {
                Ok(true) => self.answered = self.answered.saturating_add(1),
                Ok(false) => return Ok(()),
                Err(fault) => return Err(fault),
            }
        }
    }

    /// Adds what comes next to what is held, and answers the values that are whole with it.
    fn take_rest<S: ConfStore, R: Wait>(
        &mut self,
        rt: &R,
        cell: &SharedSentinel<S>,
        seat: &mut Seat,
        now: u64,
        rest: &[u8],
    ) -> Result<(), ServeFault>
        requires own { seat.old.cell ≡ cell.now.id }
        requires ready { IsReady self.old.attendant self.old.subscriptions self.old.responder.hears }
        ensures own { seat.new.cell ≡ seat.old.cell }
        ensures ready { OnOk result (IsReady self.new.attendant self.new.subscriptions self.new.responder.hears) }
        ensures direct { OnOk result (self.new.direct ≡ true → IsDirect self.new.attendant self.new.subscriptions) }
        ensures answered { (stream before bytes : List ℕ) (g : Guest) → self.old.responder.unsent.items ≡ before ++ bytes
            → IsOnTheWay cell.now.start now stream g (reading (bytes_in self.old.attendant.held ++ rest.now)) bytes
            (guest_of self.old.attendant self.old.subscriptions self.old.responder.hears seat.old.view)
            → (more : List ℕ) × (self.new.responder.unsent.items ≡ before ++ more)
            × Drains cell.now.start now stream g result self.new.attendant.held more
            (guest_of self.new.attendant self.new.subscriptions self.new.responder.hears seat.new.view) }
    {
        if self.attendant.feed(rest).is_err() {
            return Err(ServeFault::NoMemory);
        }
        match self.answer_whole(rt, cell, seat, now) {
            Ok(()) => {
                self.direct = self.may_be_direct();
                Ok(())
            }
            Err(fault) => Err(fault),
        }
    }

    /// Takes the next piece, and answers the values that are whole with it.
    pub(crate) fn take_piece<S: ConfStore, R: Wait>(
        &mut self,
        rt: &R,
        cell: &SharedSentinel<S>,
        seat: &mut Seat,
        now: u64,
        piece: &[u8],
    ) -> Result<(), ServeFault>
        requires own { seat.old.cell ≡ cell.now.id }
        requires ready { IsReady self.old.attendant self.old.subscriptions self.old.responder.hears }
        requires direct { self.old.direct ≡ true → IsDirect self.old.attendant self.old.subscriptions }
        ensures own { seat.new.cell ≡ seat.old.cell }
        ensures ready { OnOk result (IsReady self.new.attendant self.new.subscriptions self.new.responder.hears) }
        ensures direct { OnOk result (self.new.direct ≡ true → IsDirect self.new.attendant self.new.subscriptions) }
        ensures received { (more : List ℕ) × (self.new.responder.unsent.items ≡ self.old.responder.unsent.items ++ more)
            × Receives cell.now.start now (bytes_in self.old.attendant.held ++ piece.now)
            (guest_of self.old.attendant self.old.subscriptions self.old.responder.hears seat.old.view) result (bytes_in self.new.attendant.held) more
            (guest_of self.new.attendant self.new.subscriptions self.new.responder.hears seat.new.view) }
    {
        match self.answer_in_place(rt, cell, seat, now, piece) {
            Ok(rest) => {
                if self.direct && rest.is_empty() {
                    Ok(())
                } else {
                    self.take_rest(rt, cell, seat, now, rest)
                }
            }
            Err(fault) => Err(fault),
        }
    }
}
