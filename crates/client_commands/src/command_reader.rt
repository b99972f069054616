//! A client's stream with courtesies.

ghost use Rattle.std.specs.Prelude.{◌≡◌, ◌<◌, ◌↔◌, [], Some, None, false, IfOk, IfSome, IsTrue, OnOk};
ghost use Rattle.resp2.specs.Asked.{IsCommon};
ghost use Rattle.ballot_law.specs.Limits.{IsWithin};
ghost use Rattle.resp2.specs.Framing.Frame.{view, spelling, HasLines};
ghost use Rattle.resp2.specs.Framing.Stream.{reading, held_size, bytes_in, Feeds};
ghost use Rattle.client_commands.specs.Attendants.{TakesCommon};
ghost use Rattle.client_commands.specs.Courtesies.{courtesy, asker_after, is_stranger, kind_of, text_of};
ghost use Rattle.client_commands.specs.Infos.{info};
ghost use Rattle.client_commands.specs.Lines.{Answers};

use crate::client_info::ClientInfo;
use crate::courtesies::{Courtesy, courtesy_of};
use crate::infos::info;
use crate::lines::{next_common, next_value};
use crate::port_facts::PortFacts;
use crate::protocols::Protocol;
use ballot_law::{Command, NoMemory, Roster, Text};
use resp2::{FrameFault, Frames, OutText, Value};
use std::alloc::Global;
use std::marker::Model;

/// A client's stream with courtesies: it says of each value whether the session is to have it or what it is answered.
///
/// Contracts see the bytes that came and aren't taken yet, or the fault that was answered; what is known of the
/// connection; and the last answer.
#[derive(Drop)]
pub struct CommandReader {
    alloc: Global,
    frames: Frames,
    asker: ClientInfo,
    text: OutText,
}

impl Model for CommandReader {
    ghost use Rattle.client_commands.specs.Attendants.{Attendance};

    ghost Value = { Attendance };

    ghost view = { λ attendant. record { held = attendant.frames; asker = attendant.asker; text = attendant.text } };
}

impl CommandReader {
    /// One to whom no bytes came of this connection. No memory is taken.
    pub fn new(alloc: Global, asker: ClientInfo) -> CommandReader
        ensures { result ≡ record { held = reading []; asker = asker; text = [] } }
    {
        CommandReader {
            alloc,
            frames: Frames::new(alloc),
            asker,
            text: OutText::new(alloc),
        }
    }

    /// The last answer; no bytes where the last value has none here.
    pub fn text(&self) -> &[u8]
        ensures { result.now ≡ self.now.text }
    {
        self.text.as_slice()
    }

    /// Whether a password is wanted of the client that it is still to give.
    pub fn is_stranger(&self) -> bool
        ensures { result ≡ is_stranger self.now.asker }
    {
        self.asker.is_stranger()
    }

    /// The bytes that came and aren't taken yet.
    pub fn held(&self) -> &[u8]
        ensures { result.now ≡ bytes_in self.now.held }
    {
        self.frames.held()
    }

    /// Has it read on with what this reader holds, as where a value that was taken has to wait.
    pub fn go_back(&mut self, frames: Frames)
        ensures { self.new ≡ record self.old { held = frames } }
    {
        self.frames = frames;
    }

    /// Whether all that came was taken: no bytes are held.
    pub fn holds_nothing(&self) -> bool
        ensures { IsTrue result ↔ (bytes_in self.now.held ≡ []) }
    {
        self.frames.held().is_empty()
    }

    /// Which protocol the connection speaks.
    pub fn protocol(&self) -> Protocol
        ensures { result ≡ self.now.asker.protocol }
    {
        self.asker.protocol()
    }

    /// Has it know that the connection listens, and so has no commands but those of Pub/Sub and PING, or doesn't.
    pub fn note_listening(&mut self, listens: bool)
        ensures { self.new ≡ record self.old { asker = record self.old.asker { listens = listens } } }
    {
        self.asker.listen(listens);
    }

    /// The Sentinel's current epoch as it was last told; none where none was.
    pub fn current(&self) -> Option<u64>
        ensures { result ≡ self.now.asker.current }
    {
        self.asker.current()
    }

    /// Has it know this current epoch of the Sentinel.
    pub fn note_epoch(&mut self, epoch: u64)
        ensures { self.new ≡ record self.old { asker = record self.old.asker { current = Some epoch } } }
    {
        self.asker.note_epoch(epoch);
    }

    /// Has it want this password of the client, which didn't give it yet.
    pub fn want_password(&mut self, password: Text)
        ensures { self.new ≡ record self.old { asker = record self.old.asker { password = Some password; admitted = false } } }
    {
        self.asker.want_password(password);
    }

    /// Has it know this of its port: what it knew before.
    pub fn know_port(&mut self, port: PortFacts) -> PortFacts
        ensures before { result ≡ self.old.asker.port }
        ensures now { self.new ≡ record self.old { asker = record self.old.asker { port = port } } }
    {
        self.asker.know_port(port)
    }

    /// The name that its client gave the connection; empty where it gave none.
    pub fn name(&self) -> &[u8]
        ensures { result.now ≡ self.now.asker.name }
    {
        self.asker.name()
    }

    /// Adds the next piece of the stream, of any length. `NoMemory` leaves it unchanged. Any other fault is one that
    /// `next` has answered before, and the piece is dropped.
    pub fn feed(&mut self, piece: &[u8]) -> Result<(), FrameFault>
        ensures held { Feeds self.old.held piece.now result self.new.held }
        ensures asker { self.new.asker ≡ self.old.asker }
    {
        self.frames.feed(piece)
    }

    /// Drops the bytes that came and aren't taken yet, or the fault that was answered, as where the connection ends. No
    /// memory is taken.
    pub fn drop_held(&mut self)
        ensures { self.new ≡ record self.old { held = reading [] } }
    {
        self.frames = Frames::new(self.alloc);
    }

    /// Gives back the room of the last answer, which is gone.
    pub fn drop_text(&mut self)
        ensures { self.new ≡ record self.old { text = [] } }
    {
        self.text = OutText::new(self.alloc);
    }

    /// Takes the first whole value of the bytes that came; `None` where more bytes are needed. A line that begins with
    /// no byte of a kind of RESP2 is the array of its words, as Redis splits it into words.
    ///
    /// `NoMemory`: memory was refused, and nothing changed. Any other fault is one of the bytes, and every later call
    /// answers it again. `BadKind` is also that of a line of more than 65,536 bytes, of one whose quotes are wrong, of
    /// one whose array a stream may not hold, with more than 1,024 words or more than 65,536 bytes in RESP2, and of one
    /// that begins with POST or Host: as a request of HTTP.
    pub fn next(&mut self) -> Result<Option<Value>, FrameFault>
        ensures exact { Answers view self.old.held result self.new.held }
        // With each value fewer bytes are held.
        ensures fewer { IfOk result (λ given. IfSome given (λ value. held_size self.new.held < held_size self.old.held)) }
        ensures lines { IfOk result (λ given. IfSome given (λ value. HasLines (view value))) }
        ensures asker { self.new.asker ≡ self.old.asker }
        ensures text { self.new.text ≡ self.old.text }
    {
        next_value(self.alloc, &mut self.frames)
    }

    /// Takes the first value of the bytes that came, where it is PING, a question for the address of a master or the
    /// question whether a master is down, spelled so that it is read where it stands: `resp2::next_common` tells how.
    /// Where the client gave the password that is wanted (`is_stranger`), the Sentinel's rules answer such a command as
    /// it is, and nothing changes of the connection. `None` leaves all unchanged: any other value, less than a whole
    /// one, or a fault may stand there, and `next` tells. No memory is taken.
    pub fn next_common(&mut self) -> Option<Command>
        ensures taken { IfSome result (TakesCommon self.old.held self.new.held) }
        ensures common { IfSome result IsCommon }
        ensures within { IfSome result IsWithin }
        // With each value fewer bytes are held.
        ensures fewer { IfSome result (λ command. held_size self.new.held < held_size self.old.held) }
        ensures asker { self.new.asker ≡ self.old.asker }
        ensures text { self.new.text ≡ self.old.text }
        ensures left { result ≡ None → self.new ≡ self.old }
    {
        next_common(&mut self.frames)
    }

    /// Attends to a value, where the Sentinel has this roster: what becomes of it. `Left`: the session is to have it.
    /// `AsksInfo`: it is INFO, and the Sentinel is to be asked for its section, of which `inform` makes the answer.
    /// `Said`: the text is its answer, of no bytes after an array without items, as an empty line is one; else the text
    /// is empty.
    ///
    /// `NoMemory`: memory was refused; the connection is to be closed.
    pub fn attend_to(&mut self, value: &Value, roster: &Roster) -> Result<Courtesy, NoMemory>
        ensures kind { IfOk result (λ kind. kind ≡ kind_of (courtesy roster.now self.old.asker (view value.now))) }
        ensures text { OnOk result (self.new.text ≡ text_of (courtesy roster.now self.old.asker (view value.now))) }
        ensures asker { OnOk result (self.new.asker ≡ asker_after self.old.asker (view value.now)) }
        ensures held { self.new.held ≡ self.old.held }
    {
        courtesy_of(self.alloc, &mut self.asker, value, roster, &mut self.text)
    }

    /// Has the text be the answer to this value, which is INFO, where the Sentinel answers with `section`, a bulk
    /// string, when it is asked for its section. `NoMemory`: memory was refused; the connection is to be closed.
    pub fn inform(&mut self, value: &Value, section: &Value) -> Result<(), NoMemory>
        ensures text { OnOk result (self.new.text ≡ spelling (info self.old.asker.port.figures (view value.now) (view section.now))) }
        ensures asker { self.new.asker ≡ self.old.asker }
        ensures held { self.new.held ≡ self.old.held }
    {
        let figures = self.asker.port().figures();
        info(self.alloc, value, figures, section, &mut self.text)
    }
}
