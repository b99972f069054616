//! The answers to one value after another.

ghost use Rattle.std.specs.Prelude.{◌≡◌, ◌≤◌, ◌<◌, ◌+◌, ◌∷◌, ◌++◌, ℕ, List, [], None, Some, Ok, Err, true, length, take, drop, slice_set, IfSome, IsTrue, IsFalse, OnOk, OnErr, IfOk, IfErr};
ghost use Rattle.std.specs.Bool.{then_some};
ghost use Rattle.std.specs.Option.{is_some};
ghost use Rattle.ballot_law.specs.declared.messages.Body.TheVariants.{AddressAnswer};
ghost use Rattle.ballot_law.specs.declared.messages.Message.{Message};
ghost use Rattle.ballot_law.specs.declared.messages.Output.TheVariants.{Send};
ghost use Rattle.ballot_law.specs.declared.rosters.TheConstants.{MASTERS_MAX};
ghost use Rattle.node_texts.specs.Messages.MessageTexts.{message_bytes, address_frame, IsWritable};
ghost use Rattle.port_answers.specs.Answers.{command_fault};
ghost use Rattle.ballot_law.specs.Limits.{IsWithin};
ghost use Rattle.resp2.specs.Framing.Frame.{spelling};
ghost use Rattle.sentinel_cell.specs.declared.view.View.{View};
ghost use Rattle.sentinel_rules.specs.Answers.{named};
ghost use Rattle.sentinel_rules.specs.Plans.{master_count};
ghost use Rattle.port_sessions.specs.Listening.{note_frame, answer_while_listening};
ghost use Rattle.port_sessions.specs.Notes.{unheard, is_news};
ghost use Rattle.port_sessions.specs.Talks.{IsTold, takes_turn, party, listens_after, Ends, BeginsNotes, Fails};
ghost use Rattle.port_sessions.specs.OnTheWay.{Turns, Refuses, ended_by};

use crate::hearing::NotesHeard;
use crate::notes::{line_for_listener, write_note};
use arrayvec::ArrayVec;
use ballot_law::{
    Body, Card, Command, Event, Input, MASTERS_MAX, Message, Name, NoMemory, NodeName, Note,
    Output, Roster, Shown,
};
use bytes::BytesMut;
use itoa::Buffer;
use node_texts::{message_text, short_text};
use port_answers::AnswerText;
use resp2::{ByteSink, CommandFault, FrameFault, OutText, push_words};
use sentinel_cell::{ActFault, Seat, SharedSentinel};
use sentinel_conf::ConfStore;
use sentinel_core::ServeFault;
use sentinel_outbox::Outbox;
use std::alloc::Global;
use std::sync::Wait;
use tokens::ip_text;

/// The last line of a stream that is no RESP2.
const PROTOCOL_ERROR: &[u8] = b"-ERR Protocol error\r\n";

/// How many bytes of room a client keeps for its answers once all of them are sent.
const ROOM_KEPT: usize = 16_384;

/// Room for the answer to a question for an address, which has at most 37 bytes.
const ADDRESS_ROOM: usize = 40;

/// What answers the values of a client, one after the other, with all that isn't sent to it yet: the room for the
/// outputs of a command, the answers and notes that aren't sent yet, and what the client hears of notes. It knows
/// nothing of the stream from which the values come.
#[derive(Drop)]
pub struct Responder {
    alloc: Global,
    outbox: Outbox,
    unsent: BytesMut,
    hears: NotesHeard,
    ghost none_held: { outbox.held ≡ [] },
}

/// Adds these bytes to what isn't sent yet.
fn put(unsent: &mut BytesMut, bytes: &[u8]) -> Result<(), ServeFault>
    ensures ok { OnOk result (unsent.new.items ≡ unsent.old.items ++ bytes.now) }
    ensures err { OnErr result (unsent.new.items ≡ unsent.old.items) }
    ensures fault { IfErr result (λ fault. fault ≡ ServeFault.NoMemory) }
{
    match unsent.extend_from_slice(bytes) {
        Ok(()) => Ok(()),
        Err(_) => Err(ServeFault::NoMemory),
    }
}

/// The number of the master that a question names, where there is such a master.
fn master_named<S: ConfStore>(cell: &SharedSentinel<S>, name: Option<Name>) -> Option<u16>
    ensures value { result ≡ named cell.now.start.plan name }
    ensures known { IfSome result (λ m. m < master_count cell.now.start.plan) }
{
    let roster = cell.roster();
    roster.is_made();
    match name {
        Some(name) => roster.master_named(&name),
        None => None,
    }
}

/// What one load of its word tells of the master with this name.
fn told_of<S: ConfStore>(
    cell: &SharedSentinel<S>,
    seat: &mut Seat,
    name: Option<Name>,
) -> Option<Shown>
    requires own { seat.old.cell ≡ cell.now.id }
    ensures own { seat.new.cell ≡ seat.old.cell }
    ensures told { IsTold cell.now.start seat.old.view (named cell.now.start.plan name) result seat.new.view }
{
    let Some(master) = master_named(cell, name) else {
        return None;
    };
    let Some((epoch, addr)) = cell.address(seat, master) else {
        unreachable!()
    };
    Some(Shown {
        master,
        card: Card { epoch, addr },
    })
}

/// The answer to a question for an address, in room on the stack.
#[derive(Drop)]
struct AddressText {
    bytes: ArrayVec<u8, ADDRESS_ROOM>,
}

impl ByteSink for AddressText {
    ghost bytes = { λ text. text.bytes.items };

    ghost within = { λ _. Unit {0} };

    ghost full = { λ _. Unit {0} };

    fn push(&mut self, piece: &[u8]) -> Result<(), NoMemory> {
        match self.bytes.try_extend_from_slice(piece) {
            Ok(()) => Ok(()),
            Err(_) => Err(NoMemory),
        }
    }
}

/// Adds the address that a question for one is told, or the null array where no master has the name.
fn push_told(sink: &mut AddressText, told: Option<Shown>) -> Result<(), NoMemory>
    ensures ok { OnOk result (sink.new.bytes.items ≡ sink.old.bytes.items ++ spelling (address_frame told)) }
{
    let Some(shown) = told else {
        return sink.push(b"*-1\r\n");
    };
    let addr = shown.card.addr;
    let mut port = Buffer::new();
    push_words(
        sink,
        &[
            ip_text(addr.ip).as_slice(),
            port.format(addr.port).as_bytes(),
        ],
    )
}

/// Adds the answer to a question for an address to what isn't sent yet, with one copy.
fn put_told(told: Option<Shown>, unsent: &mut BytesMut) -> Result<(), ServeFault>
    ensures ok { OnOk result (unsent.new.items ≡ unsent.old.items ++ message_bytes (AddressAnswer told)) }
    ensures err { OnErr result (unsent.new.items ≡ unsent.old.items) }
    ensures fault { IfErr result (λ fault. fault ≡ ServeFault.NoMemory) }
{
    let mut text = AddressText {
        bytes: ArrayVec::new(),
    };
    match push_told(&mut text, told) {
        Ok(()) => put(unsent, text.bytes.as_slice()),
        Err(_) => Err(ServeFault::NoMemory),
    }
}

/// Adds this message to what isn't sent yet: a text that the Sentinel made, and a short answer, with one copy.
fn put_message(alloc: Global, message: &Message, unsent: &mut BytesMut) -> Result<(), ServeFault>
    requires { IsWritable message.now.body }
    ensures ok { OnOk result (unsent.new.items ≡ unsent.old.items ++ message_bytes message.now.body) }
    ensures err { OnErr result (unsent.new.items ≡ unsent.old.items) }
    ensures fault { IfErr result (λ fault. fault ≡ ServeFault.NoMemory) }
{
    if let Body::PortReply { text, .. } = &message.body {
        return put(unsent, text.as_slice());
    }
    if let Some(short) = short_text(alloc, &message.body) {
        return put(unsent, short.as_slice());
    }
    let mut text = OutText::new(alloc);
    match message_text(alloc, message, &mut text) {
        Ok(()) => put(unsent, text.as_slice()),
        Err(_) => Err(ServeFault::NoMemory),
    }
}

/// The fault that ends a session at a turn that shows nothing.
fn of_act(fault: ActFault) -> ServeFault
    ensures { result ≡ ended_by fault }
{
    match fault {
        ActFault::NoMemory => ServeFault::NoMemory,
        ActFault::Spent => ServeFault::Halted,
        ActFault::Halted => ServeFault::Halted,
        ActFault::StoreRefused => ServeFault::Halted,
    }
}

/// Whether a client listens after the answer to this command, since its entry.
fn subscribes(command: &Command) -> bool
    ensures { (w : View) (entry : ℕ) → entry + 1 ≡ length w.front → then_some result entry ≡ listens_after (Ok command.now) w }
{
    match command {
        Command::Subscribe => true,
        _ => false,
    }
}

impl Responder {
    /// No answer was given yet, and the client doesn't listen. No memory is taken.
    pub fn new(alloc: Global) -> Responder
        ensures unsent { result.unsent.items ≡ [] }
        ensures hears { result.hears ≡ unheard }
    {
        Responder {
            alloc,
            outbox: Outbox::new(alloc),
            unsent: BytesMut::new(alloc),
            hears: NotesHeard::none(),
        }
    }

    /// What isn't sent yet, as it stands on the wire.
    pub fn unsent(&self) -> &[u8]
        ensures { result.now ≡ self.now.unsent.items }
    {
        self.unsent.as_slice()
    }

    /// Takes away the first `n` bytes of it, which the connection took. No memory is taken. Room that they leave is
    /// used again, and given back where nothing is left and it was more than 16 KiB.
    pub fn sent(&mut self, n: usize)
        requires { n ≤ length self.old.unsent.items }
        ensures unsent { self.new.unsent.items ≡ drop n self.old.unsent.items }
        ensures hears { self.new.hears ≡ self.old.hears }
        ensures room { self.new.unsent.items ≡ [] → self.new.unsent.spare ≤ ROOM_KEPT }
    {
        self.unsent.advance(n);
        if self.unsent.is_empty() {
            self.give_back();
        }
    }

    /// Gives back the room of what was sent, where it is more than a client needs that takes its answers.
    fn give_back(&mut self)
        requires { self.old.unsent.items ≡ [] }
        ensures unsent { self.new.unsent.items ≡ [] }
        ensures hears { self.new.hears ≡ self.old.hears }
        ensures room { self.new.unsent.spare ≤ ROOM_KEPT }
    {
        self.unsent.clear();
        if self.unsent.capacity() > ROOM_KEPT {
            self.unsent = BytesMut::new(self.alloc);
        }
    }

    /// Gives back all room in which nothing stands; the next answer takes it anew.
    pub fn rest(&mut self)
        ensures unsent { self.new.unsent.items ≡ self.old.unsent.items }
        ensures hears { self.new.hears ≡ self.old.hears }
    {
        self.outbox = Outbox::new(self.alloc);
        if self.unsent.is_empty() {
            self.unsent = BytesMut::new(self.alloc);
        }
    }

    /// Adds these bytes, an answer that a caller has made, to what isn't sent yet. `NoMemory` leaves that as it was.
    pub fn put_out(&mut self, bytes: &[u8]) -> Result<(), ServeFault>
        ensures ok { OnOk result (self.new.unsent.items ≡ self.old.unsent.items ++ bytes.now) }
        ensures err { OnErr result (self.new.unsent.items ≡ self.old.unsent.items) }
        ensures hears { self.new.hears ≡ self.old.hears }
        ensures fault { IfErr result (λ fault. fault ≡ ServeFault.NoMemory) }
    {
        put(&mut self.unsent, bytes)
    }

    /// Takes away what isn't sent yet behind its first `len` bytes, for a caller who tells an answer in another way. No
    /// memory is taken.
    pub fn cut_back(&mut self, len: usize)
        ensures unsent { self.new.unsent.items ≡ take len self.old.unsent.items }
        ensures hears { self.new.hears ≡ self.old.hears }
    {
        self.unsent.truncate(len);
    }

    /// Puts out the line of a frame's fault, and gives the fault that ends the session: `NoMemory` where that is the
    /// frame's, or there is no memory for the line.
    pub fn refuse(&mut self, fault: FrameFault) -> ServeFault
        ensures refused { (line : List ℕ) × (self.new.unsent.items ≡ self.old.unsent.items ++ line) × Refuses fault line result }
        ensures hears { self.new.hears ≡ self.old.hears }
    {
        if let FrameFault::NoMemory = fault {
            return ServeFault::NoMemory;
        }
        if self.put_out(PROTOCOL_ERROR).is_err() {
            return ServeFault::NoMemory;
        }
        ServeFault::Frame(fault)
    }

    /// Answers a value that is no command.
    #[tactic(auto, using(sentinel_core::proofs::ServingLemmas::Answering::line_fits))]
    fn answer_fault(&mut self, fault: CommandFault) -> Result<(), ServeFault>
        ensures ok { OnOk result (self.new.unsent.items ≡ self.old.unsent.items ++ spelling (command_fault fault)) }
        ensures err { OnErr result (self.new.unsent.items ≡ self.old.unsent.items) }
        ensures hears { self.new.hears ≡ self.old.hears }
        ensures fault { IfErr result (λ fault. fault ≡ ServeFault.NoMemory) }
    {
        let Ok(mut line) = AnswerText::with_room(self.alloc) else {
            return Err(ServeFault::NoMemory);
        };
        line.add_command_fault(fault);
        put(&mut self.unsent, line.as_slice())
    }

    /// Answers a question for an address.
    fn answer_address<S: ConfStore>(
        &mut self,
        cell: &SharedSentinel<S>,
        seat: &mut Seat,
        name: Option<Name>,
    ) -> Result<(), ServeFault>
        requires silent { self.old.hears.listens ≡ None }
        requires own { seat.old.cell ≡ cell.now.id }
        ensures own { seat.new.cell ≡ seat.old.cell }
        ensures answered { (now : ℕ) → (more : List ℕ) × (self.new.unsent.items ≡ self.old.unsent.items ++ more)
            × Ends cell.now.start now (party seat.old.view self.old.hears.listens) (Ok (Command.GetMasterAddrByName name)) result more
            (party seat.new.view self.new.hears.listens) }
        ensures told { self.new.hears.told ≡ self.old.hears.told }
        ensures err { OnErr result (self.new.unsent.items ≡ self.old.unsent.items) }
    {
        let told = told_of(cell, seat, name);
        put_told(told, &mut self.unsent)
    }

    /// Puts out the one message that the outbox shows.
    fn put_shown(&mut self) -> Result<(), ServeFault>
        requires { (message : Message) × (self.old.outbox.shown ≡ Send message ∷ []) × IsWritable message.body }
        ensures hears { self.new.hears ≡ self.old.hears }
        ensures ok { (message : Message) → self.old.outbox.shown ≡ Send message ∷ []
            → OnOk result (self.new.unsent.items ≡ self.old.unsent.items ++ message_bytes message.body) }
        ensures err { OnErr result (self.new.unsent.items ≡ self.old.unsent.items) }
        ensures fault { IfErr result (λ fault. fault ≡ ServeFault.NoMemory) }
    {
        let Some(Output::Send(message)) = self.outbox.outputs().first() else {
            unreachable!()
        };
        put_message(self.alloc, message, &mut self.unsent)
    }

    /// Has a command take its turn, which the outbox then shows alone; the client listens where it was SUBSCRIBE.
    fn take_turn<S: ConfStore, R: Wait>(
        &mut self,
        rt: &R,
        cell: &SharedSentinel<S>,
        seat: &mut Seat,
        now: u64,
        command: Command,
    ) -> Result<(), ServeFault>
        requires own { seat.old.cell ≡ cell.now.id }
        requires within { IsWithin command }
        ensures own { seat.new.cell ≡ seat.old.cell }
        ensures turned { Turns cell.now.start now seat.old.view command result self.new.outbox.shown seat.new.view }
        ensures listens { OnOk result (self.new.hears.listens ≡ listens_after (Ok command) seat.new.view) }
        ensures same { OnErr result (self.new.hears.listens ≡ self.old.hears.listens) }
        ensures told { self.new.hears.told ≡ self.old.hears.told }
        ensures unsent { self.new.unsent ≡ self.old.unsent }
    {
        self.outbox.clear();
        let subscribes = subscribes(&command);
        let sender = NodeName::PortAt(0);
        let input = Input {
            now,
            event: Event::Command { sender, command },
        };
        match cell.act(rt, seat, &input, &mut self.outbox) {
            Ok(reply) => {
                self.hears.listens = subscribes.then_some(reply.entry);
                Ok(())
            }
            Err(fault) => Err(of_act(fault)),
        }
    }

    /// Answers a command that takes a turn; the client listens where it was SUBSCRIBE.
    fn answer_in_turn<S: ConfStore, R: Wait>(
        &mut self,
        rt: &R,
        cell: &SharedSentinel<S>,
        seat: &mut Seat,
        now: u64,
        command: Command,
    ) -> Result<(), ServeFault>
        requires own { seat.old.cell ≡ cell.now.id }
        requires within { IsWithin command }
        requires turn { takes_turn command ≡ true }
        requires silent { self.old.hears.listens ≡ None }
        ensures own { seat.new.cell ≡ seat.old.cell }
        ensures answered { (more : List ℕ) × (self.new.unsent.items ≡ self.old.unsent.items ++ more)
            × Ends cell.now.start now (party seat.old.view self.old.hears.listens) (Ok command) result more (party seat.new.view self.new.hears.listens) }
        ensures told { self.new.hears.told ≡ self.old.hears.told }
        ensures err { OnErr result (self.new.unsent.items ≡ self.old.unsent.items) }
    {
        match self.take_turn(rt, cell, seat, now, command) {
            Ok(()) => self.put_shown(),
            Err(fault) => Err(fault),
        }
    }

    /// Answers a value of a client that listens, which is the same at every Sentinel.
    fn answer_listener(&mut self, asked: &Result<Command, CommandFault>) -> Result<(), ServeFault>
        ensures ok { OnOk result (self.new.unsent.items ≡ self.old.unsent.items ++ spelling (answer_while_listening asked.now)) }
        ensures err { OnErr result (self.new.unsent.items ≡ self.old.unsent.items) }
        ensures hears { self.new.hears ≡ self.old.hears }
        ensures fault { IfErr result (λ fault. fault ≡ ServeFault.NoMemory) }
    {
        match asked {
            Ok(command) => put(&mut self.unsent, line_for_listener(command)),
            Err(fault) => self.answer_fault(*fault),
        }
    }

    /// Answers a value of a client that doesn't listen.
    fn answer_unheard<S: ConfStore, R: Wait>(
        &mut self,
        rt: &R,
        cell: &SharedSentinel<S>,
        seat: &mut Seat,
        now: u64,
        asked: Result<Command, CommandFault>,
    ) -> Result<(), ServeFault>
        requires own { seat.old.cell ≡ cell.now.id }
        requires within { IfOk asked IsWithin }
        requires silent { self.old.hears.listens ≡ None }
        ensures own { seat.new.cell ≡ seat.old.cell }
        ensures answered { (more : List ℕ) × (self.new.unsent.items ≡ self.old.unsent.items ++ more)
            × Ends cell.now.start now (party seat.old.view self.old.hears.listens) asked result more (party seat.new.view self.new.hears.listens) }
        ensures told { self.new.hears.told ≡ self.old.hears.told }
        ensures err { OnErr result (self.new.unsent.items ≡ self.old.unsent.items) }
    {
        match asked {
            Ok(Command::GetMasterAddrByName(name)) => self.answer_address(cell, seat, name),
            Ok(command) => self.answer_in_turn(rt, cell, seat, now, command),
            Err(fault) => self.answer_fault(fault),
        }
    }

    /// Answers a value, by the command that it spells or the reason why it is none: what a client is told that listens,
    /// or else what it asks for, or the line of its fault. The answer joins what isn't sent yet. It waits for the
    /// Sentinel's turn where the command takes one. After the first answer to SUBSCRIBE the client listens to notes,
    /// since the entry of that turn.
    ///
    /// `Halted` where the command took a turn and the Sentinel is halted, its store refused what the answer rests on,
    /// or there are no tickets left. `NoMemory` where a growth was refused: the command may have been carried out. Then
    /// nothing joins what isn't sent yet. No other fault comes.
    pub fn answer<S: ConfStore, R: Wait>(
        &mut self,
        rt: &R,
        cell: &SharedSentinel<S>,
        seat: &mut Seat,
        now: u64,
        asked: &Result<Command, CommandFault>,
    ) -> Result<(), ServeFault>
        requires own { seat.old.cell ≡ cell.now.id }
        requires within { IfOk asked.now IsWithin }
        ensures own { seat.new.cell ≡ seat.old.cell }
        ensures answered { (more : List ℕ) × (self.new.unsent.items ≡ self.old.unsent.items ++ more)
            × Ends cell.now.start now (party seat.old.view self.old.hears.listens) asked.now result more (party seat.new.view self.new.hears.listens) }
        ensures told { self.new.hears.told ≡ self.old.hears.told }
        ensures err { OnErr result (self.new.unsent.items ≡ self.old.unsent.items) }
    {
        if self.hears.listens.is_some() {
            return self.answer_listener(asked);
        }
        self.answer_unheard(rt, cell, seat, now, *asked)
    }

    /// Has the client listen to notes, where it doesn't: that takes the turn of SUBSCRIBE, whose answer isn't put out.
    ///
    /// The faults are those of `answer`; after one the client listens no more than before.
    pub fn subscribe<S: ConfStore, R: Wait>(
        &mut self,
        rt: &R,
        cell: &SharedSentinel<S>,
        seat: &mut Seat,
        now: u64,
    ) -> Result<(), ServeFault>
        requires own { seat.old.cell ≡ cell.now.id }
        ensures own { seat.new.cell ≡ seat.old.cell }
        ensures begins { OnOk result (BeginsNotes cell.now.start now self.old.hears.listens (party seat.old.view self.old.hears.listens)
            (party seat.new.view self.new.hears.listens)) }
        ensures listens { OnOk result (is_some self.new.hears.listens ≡ true) }
        ensures told { self.new.hears.told ≡ self.old.hears.told }
        ensures unsent { self.new.unsent ≡ self.old.unsent }
        ensures fault { IfErr result (λ fault. (self.new.hears.listens ≡ self.old.hears.listens)
            × Fails cell.now.start now (party seat.old.view self.old.hears.listens) (Ok Command.Subscribe) fault (party seat.new.view self.new.hears.listens)) }
    {
        if self.hears.listens.is_some() {
            return Ok(());
        }
        self.take_turn(rt, cell, seat, now, Command::Subscribe)
    }

    /// Whether the client listens to notes.
    pub fn listens(&self) -> bool
        ensures { result ≡ is_some self.now.hears.listens }
    {
        self.hears.listens.is_some()
    }

    /// Has the client listen since this entry, or to nothing, with no turn, and with what it was told: since which one
    /// it did before.
    pub fn listen_since(&mut self, since: Option<u64>) -> Option<u64>
        ensures before { result ≡ self.old.hears.listens }
        ensures listens { self.new.hears.listens ≡ since }
        ensures told { self.new.hears.told ≡ self.old.hears.told }
        ensures unsent { self.new.unsent ≡ self.old.unsent }
    {
        let before = self.hears.listens;
        self.hears.listens = since;
        before
    }

    /// The client listens no more, and where it does again it is told from the beginning.
    pub fn stop_listening(&mut self)
        ensures hears { self.new.hears ≡ unheard }
        ensures unsent { self.new.unsent ≡ self.old.unsent }
    {
        self.hears = NotesHeard::none();
    }

    /// Whether a note of this entry is news to the client, which then counts as told; no bytes are put out. For a
    /// caller who tells the note in another way than `notify` of a session.
    pub fn count_note(&mut self, note: &Note, entry: u64) -> bool
        requires { note.now.master < MASTERS_MAX }
        ensures due { result ≡ is_news self.old.hears.listens self.old.hears.told note.now entry }
        ensures listens { self.new.hears.listens ≡ self.old.hears.listens }
        ensures told { IsTrue result → self.new.hears.told ≡ slice_set self.old.hears.told note.now.master (Some note.now.card.epoch) }
        ensures same { IsFalse result → self.new.hears.told ≡ self.old.hears.told }
        ensures unsent { self.new.unsent ≡ self.old.unsent }
    {
        if !self.hears.is_news(note, entry) {
            return false;
        }
        self.hears.count(note);
        true
    }

    /// Whether a note of this entry is news to the client.
    pub(crate) fn is_news(&self, note: &Note, entry: u64) -> bool
        requires { note.now.master < MASTERS_MAX }
        ensures { result ≡ is_news self.now.hears.listens self.now.hears.told note.now entry }
    {
        self.hears.is_news(note, entry)
    }

    /// Puts out the message of a note, as a client that listens is told it, and counts the note as told.
    pub(crate) fn put_note(&mut self, roster: &Roster, note: &Note) -> Result<(), NoMemory>
        requires { note.now.master < length roster.now.masters }
        ensures ok { OnOk result (self.new.unsent.items ≡ self.old.unsent.items ++ spelling (note_frame roster.now note.now)) }
        ensures told { OnOk result (self.new.hears.told ≡ slice_set self.old.hears.told note.now.master (Some note.now.card.epoch)) }
        ensures listens { self.new.hears.listens ≡ self.old.hears.listens }
        ensures err { OnErr result ((self.new.unsent.items ≡ self.old.unsent.items) × (self.new.hears.told ≡ self.old.hears.told)) }
    {
        roster.is_made();
        let master = &roster.masters()[note.master as usize];
        let mut text = OutText::new(self.alloc);
        write_note(self.alloc, &master.name, note, &mut text)?;
        if self.put_out(text.as_slice()).is_err() {
            return Err(NoMemory);
        }
        self.hears.count(note);
        Ok(())
    }
}
