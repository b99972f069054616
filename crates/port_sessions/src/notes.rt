//! What a client is sent that listens to notes.

ghost use Rattle.std.specs.Prelude.{◌≡◌, ◌++◌, [], Ok, OnOk};
ghost use Rattle.resp2.specs.Framing.Frame.{spelling};
ghost use Rattle.port_sessions.specs.Listening.{addr_words, note_text, message_frame, answer_while_listening};

use ballot_law::{Addr, Command, Name, NoMemory, Note};
use itoa::Buffer;
use resp2::{OutText, push_bulk};
use std::alloc::Global;
use tokens::ip_text;

/// The answer to a command of a client that listens.
pub(crate) fn line_for_listener(command: &Command) -> &'static [u8]
    ensures { result.now ≡ spelling (answer_while_listening (Ok command.now)) }
{
    match command {
        Command::Ping => b"*2\r\n$4\r\npong\r\n$0\r\n\r\n",
        Command::Subscribe => b"*3\r\n$9\r\nsubscribe\r\n$14\r\n+switch-master\r\n:1\r\n",
        _ => b"-ERR not allowed while subscribed\r\n",
    }
}

/// Adds an address: its IPv4 address, a space and its port.
fn add_addr(text: &mut OutText, addr: Addr) -> Result<(), NoMemory>
    ensures { OnOk result (text.new ≡ text.old ++ addr_words addr) }
{
    text.add(&ip_text(addr.ip))?;
    text.add(b" ")?;
    let mut port = Buffer::new();
    text.add(port.format(addr.port).as_bytes())
}

/// Adds what a note tells of the master with this name: the name, its old address and its new one. `NoMemory`: memory
/// was refused, and a first part of it may be there.
pub fn add_note(text: &mut OutText, name: &Name, note: &Note) -> Result<(), NoMemory>
    ensures { OnOk result (text.new ≡ text.old ++ note_text name.now note.now) }
{
    text.add(name.as_slice())?;
    text.add(b" ")?;
    add_addr(text, note.old)?;
    text.add(b" ")?;
    add_addr(text, note.card.addr)
}

/// Has the text, which is empty, hold the message of a note about the master with this name.
pub(crate) fn write_note(
    alloc: Global,
    name: &Name,
    note: &Note,
    text: &mut OutText,
) -> Result<(), NoMemory>
    requires { text.old ≡ [] }
    ensures { OnOk result (text.new ≡ spelling (message_frame (note_text name.now note.now))) }
{
    let mut told = OutText::new(alloc);
    add_note(&mut told, name, note)?;
    text.add(b"*3\r\n$7\r\nmessage\r\n$14\r\n+switch-master\r\n")?;
    push_bulk(text, told.as_slice())
}
