//! Serves a stream of commands.

ghost use Rattle.std.specs.Prelude.{◌≡◌, ◌≤◌, ◌<◌, ◌+◌, ◌-◌, ◌^◌, ◌⊎◌, ◌++◌, ℕ, List, Option, [], OnOk, OnErr, Err, IfOk, IfErr, IsErrOf, length, take};
ghost use Rattle.std.specs.Io.KnownBytes.{Consumes, Appends, IsAtEnd};
ghost use Rattle.ballot_law.specs.declared.cards.Kept.{Kept};
ghost use Rattle.port_answers.specs.Answers.{command_fault};
ghost use Rattle.ballot_law.specs.Limits.{IsWithin};
ghost use Rattle.resp2.specs.Framing.Frame.{spelling};
ghost use Rattle.resp2.specs.Framing.Stream.{held_size, reading};
ghost use Rattle.sentinel_outbox.specs.Outboxes.{Fits, room_of_sentinel};
ghost use Rattle.sentinel_rules.specs.Plans.{Plan};
ghost use Rattle.sentinel_rules.specs.States.{Core};
ghost use Rattle.sentinel_core.specs.declared.serving.connection.TheConstants.{READS_MAX};
ghost use Rattle.sentinel_core.specs.Serving.Serving.{Holds, EndsWith, IsAnswered, IsIdle, IsFaulted, Breaks, IsRefusal, Drains, Takes, of_frame, phase_of, phase_after, replied_to};

use crate::serving::fault::ServeFault;
use crate::serving::port_sentinel::PortSentinel;
use crate::serving::streams::write_whole;
use ballot_law::{Command, Event, Input, NodeName, Output};
use node_texts::message_text;
use port_answers::AnswerText;
use resp2::{CommandFault, FrameFault, Frames, OutText, next_command};
use sentinel_conf::ConfStore;
use sentinel_outbox::{Outbox, Phase, Room};
use std::alloc::Global;
use std::io::{ErrorKind, Read, Write};

/// How many reads the serving of one stream makes at most; the next one is a `Read` fault.
pub const READS_MAX: u32 = 16_777_216;

/// That number of reads. The loop over a stream's pieces has one turn for each.
pub fn law_reads()
    ensures { READS_MAX ≡ 16777216 }
{}

/// How many bytes one read asks for.
const PIECE: usize = 16_384;

/// What is written where the bytes are no RESP2 value, before the serving ends.
const PROTOCOL_ERROR: &[u8] = b"-ERR Protocol error\r\n";

/// A stream was served to its end.
#[derive(Clone, Copy, PartialEq, Eq)]
pub struct Served {
    /// How many answers were written, error lines among them.
    pub answers: u64,
}

/// One stream that is being served, at one reading of the clock: the bytes that came, the room for the outputs of a
/// command, and the answers that aren't written yet.
#[derive(Drop)]
struct Connection {
    alloc: Global,
    clock: u64,
    frames: Frames,
    outbox: Outbox,
    text: OutText,
    answers: u64,
}

/// A growth that was refused, or the fault of the bytes.
fn of_frame(fault: FrameFault) -> ServeFault
    ensures { result ≡ of_frame fault }
{
    match fault {
        FrameFault::NoMemory => ServeFault::NoMemory,
        fault => ServeFault::Frame(fault),
    }
}

/// Adds the line of a refused command.
#[tactic(auto, using(crate::proofs::ServingLemmas::Answering::line_fits))]
fn add_fault(alloc: Global, fault: CommandFault, text: &mut OutText) -> Result<(), ServeFault>
    ensures ok { OnOk result (text.new ≡ text.old ++ spelling (command_fault fault)) }
    ensures err { OnErr result (text.new ≡ text.old) }
    ensures fault { IfErr result (λ fault. fault ≡ ServeFault.NoMemory) }
{
    let Ok(mut line) = AnswerText::with_room(alloc) else {
        return Err(ServeFault::NoMemory);
    };
    line.add_command_fault(fault);
    match text.add(line.as_slice()) {
        Ok(()) => Ok(()),
        Err(_) => Err(ServeFault::NoMemory),
    }
}

/// Empties the outbox, and makes room in it for the outputs of any one input: nearly always it has that room.
fn make_room(outbox: &mut Outbox) -> Result<(), ServeFault>
    ensures shown { OnOk result (outbox.new.shown ≡ []) }
    ensures fits { OnOk result (Fits outbox.new room_of_sentinel) }
    ensures fault { IfErr result (λ fault. fault ≡ ServeFault.NoMemory) }
{
    let room = Room::of_sentinel();
    outbox.clear();
    if outbox.fits(&room) {
        return Ok(());
    }
    outbox.drop_held();
    match outbox.reserve(&room) {
        Ok(()) => Ok(()),
        Err(_) => Err(ServeFault::NoMemory),
    }
}

impl Connection {
    fn new(alloc: Global, now: u64) -> Connection
        ensures clock { result.clock ≡ now }
        ensures frames { result.frames ≡ reading [] }
        ensures text { result.text ≡ [] }
        ensures answers { result.answers ≡ 0 }
    {
        Connection {
            alloc,
            clock: now,
            frames: Frames::new(alloc),
            outbox: Outbox::new(alloc),
            text: OutText::new(alloc),
            answers: 0,
        }
    }

    /// Answers one value, by the command that it spells or the reason why it is none, at the end of the text, once what
    /// the answer rests on is stored.
    ///
    /// Many clauses: those of `carry_out`, which it may call, and what becomes of the port's own text, frames and
    /// counts.
    fn answer<N: PortSentinel, S: ConfStore>(
        &mut self,
        sentinel: &mut N,
        asked: &Result<Command, CommandFault>,
        store: &mut S,
    ) -> Result<(), ServeFault>
        requires room { self.old.answers < 2 ^ 64 - 1 }
        requires within { IfOk asked.now IsWithin }
        requires ready { N.phase sentinel.old ≡ Phase.Ready }
        requires failures { S.failure_count store.old < 2 ^ 64 - 1 }
        ensures clock { self.new.clock ≡ self.old.clock }
        ensures frames { self.new.frames ≡ self.old.frames }
        ensures plan { N.plan sentinel.new ≡ N.plan sentinel.old }
        ensures core { OnErr result ((N.core sentinel.new ≡ N.core sentinel.old)
            ⊎ (N.core sentinel.new
            ≡ (replied_to (N.plan sentinel.old) self.old.clock (N.core sentinel.old) asked.now).core)) }
        ensures taken { OnOk result (N.core sentinel.new
            ≡ (replied_to (N.plan sentinel.old) self.old.clock (N.core sentinel.old) asked.now).core) }
        ensures answered { OnOk result (self.new.text ≡ self.old.text
            ++ (replied_to (N.plan sentinel.old) self.old.clock (N.core sentinel.old) asked.now).bytes) }
        ensures answers { OnOk result (self.new.answers ≡ self.old.answers + 1) }
        ensures text { OnErr result (self.new.text ≡ self.old.text) }
        ensures phase { N.phase sentinel.new ≡ phase_after result }
        ensures fault { IfErr result (λ fault. (fault ≡ ServeFault.Halted) ⊎ (fault ≡ ServeFault.NoMemory)) }
        ensures as_many { OnOk result (S.failure_count store.new ≡ S.failure_count store.old) }
        ensures halted { IsErrOf result ServeFault.Halted →
            S.failure_count store.old < S.failure_count store.new }
        ensures stored { OnOk result ((first : Kept) (before : Option (List ℕ)) →
            Holds (N.plan sentinel.old).conf first before (N.core sentinel.old).kept (S.held store.old) →
            Holds (N.plan sentinel.old).conf first before (N.core sentinel.new).kept (S.held store.new)) }
        ensures refused { OnErr result ((first : Kept) (before : Option (List ℕ)) →
            Holds (N.plan sentinel.old).conf first before (N.core sentinel.old).kept (S.held store.old) →
            Holds (N.plan sentinel.old).conf first before (N.core sentinel.old).kept (S.held store.new)
            ⊎ Holds (N.plan sentinel.old).conf first before (N.core sentinel.new).kept (S.held store.new)) }
    {
        let command = match asked {
            Ok(command) => *command,
            Err(fault) => {
                add_fault(self.alloc, *fault, &mut self.text)?;
                self.answers += 1;
                return Ok(());
            }
        };
        make_room(&mut self.outbox)?;
        let sender = NodeName::PortAt(0);
        let input = Input {
            now: self.clock,
            event: Event::Command { sender, command },
        };
        sentinel.carry_out(&input, &mut self.outbox, store)?;
        let Some(Output::Send(message)) = self.outbox.outputs().first() else {
            unreachable!()
        };
        if message_text(self.alloc, message, &mut self.text).is_err() {
            return Err(ServeFault::NoMemory);
        }
        self.answers += 1;
        Ok(())
    }

    /// Answers each value that is whole.
    ///
    /// Many clauses: those of the loop's turn that its callers need of the whole.
    fn answer_whole<N: PortSentinel, S: ConfStore>(
        &mut self,
        sentinel: &mut N,
        store: &mut S,
    ) -> Result<(), ServeFault>
        requires room { self.old.answers + held_size self.old.frames < 2 ^ 64 }
        requires ready { N.phase sentinel.old ≡ Phase.Ready }
        requires failures { S.failure_count store.old < 2 ^ 64 - 1 }
        ensures clock { self.new.clock ≡ self.old.clock }
        ensures plan { N.plan sentinel.new ≡ N.plan sentinel.old }
        ensures phase { N.phase sentinel.new ≡ phase_after result }
        ensures counted { OnOk result (self.new.answers + held_size self.new.frames
            ≤ self.old.answers + held_size self.old.frames) }
        ensures as_many { OnOk result (S.failure_count store.new ≡ S.failure_count store.old) }
        ensures halted { IsErrOf result ServeFault.Halted →
            S.failure_count store.old < S.failure_count store.new }
        ensures answered { (first : Core) (before : Option (List ℕ)) (input written : List ℕ) →
            IsAnswered (N.plan sentinel.old) self.old.clock first before input written
            self.old.frames (N.core sentinel.old) self.old.text self.old.answers (S.held store.old) →
            Drains (N.plan sentinel.old) self.old.clock first before input written result
            self.new.frames (N.core sentinel.new) self.new.text self.new.answers (S.held store.new) }
    {
        loop {
            match next_command(&mut self.frames) {
                Ok(Some(asked)) => self.answer(sentinel, &asked, store)?,
                Ok(None) => return Ok(()),
                Err(fault) => return Err(of_frame(fault)),
            }
        }
    }

    /// Writes the answers that aren't written yet.
    fn write_answers<W: Write>(&mut self, writer: &mut W) -> Result<(), ServeFault>
        ensures clock { self.new.clock ≡ self.old.clock }
        ensures frames { self.new.frames ≡ self.old.frames }
        ensures answers { self.new.answers ≡ self.old.answers }
        ensures text { OnOk result (self.new.text ≡ []) }
        ensures whole { OnOk result
            (Appends (W.contents writer.old) (W.contents writer.new) self.old.text) }
        ensures part { (count : ℕ) ×
            Appends (W.contents writer.old) (W.contents writer.new) (take count self.old.text) }
        ensures write { IfErr result (λ fault. fault ≡ ServeFault.Write) }
    {
        write_whole(writer, self.text.as_slice())?;
        self.text.clear();
        Ok(())
    }

    /// Writes the answers to the values before a fault, and then the line of the fault.
    fn refuse<W: Write>(&mut self, fault: FrameFault, writer: &mut W) -> Result<(), ServeFault>
        ensures clock { self.new.clock ≡ self.old.clock }
        ensures refused { (plan : Plan) (now : ℕ) (first : Core) (before : Option (List ℕ))
            (input written : List ℕ) (core : Core) (stored : Option (List ℕ)) →
            IsFaulted plan now first before input written fault self.old.text core stored →
            (more : List ℕ) × Appends (W.contents writer.old) (W.contents writer.new) more
            × IsRefusal plan now first before input (written ++ more) fault result core stored }
        ensures write { IfErr result (λ fault. fault ≡ ServeFault.Write) }
    {
        self.write_answers(writer)?;
        write_whole(writer, PROTOCOL_ERROR)
    }

    /// Writes what the fault leaves to be written, and gives the fault, or `Write` where the line of a frame fault
    /// couldn't be written.
    fn end<W: Write>(&mut self, fault: ServeFault, writer: &mut W) -> ServeFault
        ensures clock { self.new.clock ≡ self.old.clock }
        ensures phase { phase_of result ≡ phase_of fault }
        ensures ended { (plan : Plan) (now : ℕ) (first : Core) (before : Option (List ℕ))
            (input written : List ℕ) (core : Core) (stored : Option (List ℕ)) →
            Breaks plan now first before input written fault self.old.text core stored →
            (more : List ℕ) × Appends (W.contents writer.old) (W.contents writer.new) more
            × EndsWith plan now first before input (written ++ more) (Err result) core stored }
    {
        match fault {
            ServeFault::Frame(frame) => match self.refuse(frame, writer) {
                Ok(()) => ServeFault::Frame(frame),
                Err(_) => ServeFault::Write,
            },
            fault => {
                let _ = self.write_answers(writer);
                fault
            }
        }
    }

    /// Takes the next piece of the stream: answers the values that are whole with it, and writes the answers.
    fn take_piece<N: PortSentinel, S: ConfStore, W: Write>(
        &mut self,
        piece: &[u8],
        sentinel: &mut N,
        store: &mut S,
        writer: &mut W,
    ) -> Result<(), ServeFault>
        requires room { self.old.answers + held_size self.old.frames + length piece.now < 2 ^ 64 }
        requires ready { N.phase sentinel.old ≡ Phase.Ready }
        requires failures { S.failure_count store.old < 2 ^ 64 - 1 }
        ensures clock { self.new.clock ≡ self.old.clock }
        ensures plan { N.plan sentinel.new ≡ N.plan sentinel.old }
        ensures phase { N.phase sentinel.new ≡ phase_after result }
        ensures as_many { OnOk result (S.failure_count store.new ≡ S.failure_count store.old) }
        ensures halted { IsErrOf result ServeFault.Halted →
            S.failure_count store.old < S.failure_count store.new }
        ensures took { (first : Core) (before : Option (List ℕ)) (input written : List ℕ) →
            IsIdle (N.plan sentinel.old) self.old.clock first before input written
            self.old.frames (N.core sentinel.old) self.old.text self.old.answers (S.held store.old) →
            (more : List ℕ) × Appends (W.contents writer.old) (W.contents writer.new) more
            × Takes (N.plan sentinel.old) self.old.clock first before (input ++ piece.now) (written ++ more)
            result self.new.frames (N.core sentinel.new) self.new.text self.new.answers (S.held store.new) }
    {
        if self.frames.feed(piece).is_err() {
            return Err(ServeFault::NoMemory);
        }
        match self.answer_whole(sentinel, store) {
            Ok(()) => self.write_answers(writer),
            Err(fault) => Err(self.end(fault, writer)),
        }
    }
}

/// Serves a stream of commands until its end, at one reading of the clock in milliseconds: each command is taken as an
/// input from `PortAt(0)`, stored, and its released answer written. A value that is no known command is answered by its
/// error line, and changes nothing. The answers stand in the order of the values, nothing else is written, and `Served`
/// counts them.
///
/// Where the bytes are no RESP2 value, the values before were answered, `-ERR Protocol error` is written, and the fault
/// is `Frame`. A value that the end of the stream cuts off gets no answer and is no fault. `Read`, `Write`, `Halted`
/// and `NoMemory` leave a first part of the answers written, and at most one value more was taken than was answered;
/// `Halted` comes only if the store counts a failure more, and that value is the one whose store was refused. The
/// Sentinel has to be ready, and is ready again after any end but `Halted`.
pub fn serve_stream<N: PortSentinel, R: Read, W: Write, S: ConfStore>(
    alloc: Global,
    now: u64,
    sentinel: &mut N,
    reader: &mut R,
    writer: &mut W,
    store: &mut S,
) -> Result<Served, ServeFault>
    requires ready { N.phase sentinel.old ≡ Phase.Ready }
    requires failures { S.failure_count store.old < 2 ^ 64 - 1 }
    // What was written is the answers to what was read; the Sentinel keeps what they leave, and the store holds what
    // they rest on.
    ensures served { (input : List ℕ) × (written : List ℕ)
        × Consumes (R.remaining reader.old) (R.remaining reader.new) input
        × Appends (W.contents writer.old) (W.contents writer.new) written
        × EndsWith (N.plan sentinel.old) now (N.core sentinel.old) (S.held store.old) input written
        result (N.core sentinel.new) (S.held store.new) }
    // A stream that is served was read to its end.
    ensures whole { OnOk result (IsAtEnd (R.remaining reader.new)) }
    // A refused store is a failure of the store.
    ensures halted { IsErrOf result ServeFault.Halted →
        S.failure_count store.old < S.failure_count store.new }
    ensures as_many { OnOk result (S.failure_count store.new ≡ S.failure_count store.old) }
    ensures phase { N.phase sentinel.new ≡ phase_after result }
    ensures plan { N.plan sentinel.new ≡ N.plan sentinel.old }
{
    let mut connection = Connection::new(alloc, now);
    let mut piece = [0u8; PIECE];
    for turn in 0..READS_MAX {
        match reader.read(&mut piece) {
            Ok(0) => {
                return Ok(Served {
                    answers: connection.answers,
                });
            }
            Ok(count) => connection.take_piece(&piece[..count], sentinel, store, writer)?,
            Err(error) => {
                if error.kind() != ErrorKind::Interrupted {
                    return Err(ServeFault::Read);
                }
            }
        }
    }
    Err(ServeFault::Read)
}
