//! Replies: the answers of data nodes and those that a port gives most often.

ghost use Rattle.std.specs.Prelude.{◌≡◌, ◌≤◌, ◌∷◌, ◌++◌, [], OnOk, OnErr, decimal};
ghost use Rattle.ballot_law.specs.declared.cards.TheConstants.{MAX_EPOCH};
ghost use Rattle.node_texts.specs.Infos.{IsInfo, info_text};
ghost use Rattle.node_texts.specs.Roles.{IsRole, role_frame};
ghost use Rattle.resp2.specs.Framing.Frame as frames;
ghost use Rattle.resp2.specs.Framing.Frame.{spelling};
ghost use Rattle.resp2.specs.Framing.Writing.{Begins};
ghost use Rattle.node_texts.specs.Messages.MessageTexts.{answer_front, answer_frame, ping_frame, address_frame};

use crate::infos::write_info;
use crate::messages::commands::candidate_text;
use crate::roles::write_role;
use ballot_law::{Info, NoMemory, Role, RunId, Shown};
use itoa::Buffer;
use resp2::{ByteSink, OutText, push_bulk, push_int, push_kind, push_words};
use std::alloc::Global;
use tokens::ip_text;

/// Adds the answer to a PING.
pub fn push_pong<S: ByteSink>(sink: &mut S, is_error: bool, line: &[u8]) -> Result<(), NoMemory>
    ensures ok { OnOk result (S.bytes sink.new ≡ S.bytes sink.old ++ spelling (ping_frame is_error line.now)) }
    ensures err { OnErr result (Begins (S.bytes sink.old) (S.bytes sink.new)) }
{
    if is_error {
        push_kind(sink, b'-', line)
    } else {
        push_kind(sink, b'+', line)
    }
}

/// Adds the answer to an INFO. Its text is written to memory of its own first.
pub fn push_info<S: ByteSink>(sink: &mut S, alloc: Global, info: &Info) -> Result<(), NoMemory>
    requires { IsInfo info.now }
    ensures ok { OnOk result (S.bytes sink.new ≡ S.bytes sink.old ++ spelling (frames.bulk (info_text info.now))) }
    ensures err { OnErr result (Begins (S.bytes sink.old) (S.bytes sink.new)) }
{
    let mut text = OutText::new(alloc);
    write_info(info, &mut text).map_err(|_| NoMemory)?;
    push_bulk(sink, text.as_slice())
}

/// Adds the answer to a ROLE. It is written to memory of its own first.
pub fn push_role<S: ByteSink>(sink: &mut S, alloc: Global, role: &Role) -> Result<(), NoMemory>
    requires { IsRole role.now }
    ensures ok { OnOk result (S.bytes sink.new ≡ S.bytes sink.old ++ spelling (role_frame role.now)) }
    ensures err { OnErr result (Begins (S.bytes sink.old) (S.bytes sink.new)) }
{
    let mut text = OutText::new(alloc);
    write_role(role, &mut text).map_err(|_| NoMemory)?;
    sink.push(text.as_slice())
}

/// Adds the answer to a question for the address of a master.
pub fn push_shown<S: ByteSink>(sink: &mut S, shown: &Option<Shown>) -> Result<(), NoMemory>
    ensures ok { OnOk result (S.bytes sink.new ≡ S.bytes sink.old ++ spelling (address_frame shown.now)) }
    ensures err { OnErr result (Begins (S.bytes sink.old) (S.bytes sink.new)) }
{
    let Some(shown) = shown else {
        return sink.push(b"*-1\r\n");
    };
    let addr = shown.card.addr;
    let mut port = Buffer::new();
    push_words(
        sink,
        &[
            ip_text(addr.ip).as_slice(),
            port.format(addr.port).as_bytes(),
        ],
    )
}

/// What an answer about a master begins with: the header of three items, and whether the master is down.
fn answer_front(down: bool) -> [u8; 8]
    ensures { result ≡ answer_front down }
{
    let digit = b'0' + u8::from(down);
    [b'*', b'3', b'\r', b'\n', b':', digit, b'\r', b'\n']
}

/// Adds the answer to the question whether a master is down.
pub fn push_answer<S: ByteSink>(
    sink: &mut S,
    down: bool,
    leader: Option<RunId>,
    epoch: u64,
) -> Result<(), NoMemory>
    requires { epoch ≤ MAX_EPOCH }
    ensures ok { OnOk result (S.bytes sink.new ≡ S.bytes sink.old ++ spelling (answer_frame down leader epoch)) }
    ensures err { OnErr result (Begins (S.bytes sink.old) (S.bytes sink.new)) }
{
    sink.push(&answer_front(down))?;
    push_bulk(sink, &candidate_text(leader))?;
    push_int(sink, epoch as i64)?;
    Ok(())
}
