//! What is read and written on the socket of a connection.

ghost use Rattle.std.specs.Prelude.{◌≡◌, ◌≤◌, ◌++◌, List, IfOk, IfErr, OnOk, OnErr, length, take};
ghost use Rattle.std.specs.List.{AllByRecursion};
ghost use Rattle.ballot_law.specs.declared.events.Event.{Event};
ghost use Rattle.links.specs.NodeLinks.{fresh};
ghost use Rattle.links.specs.Sessions.Links.{events_in};
ghost use Rattle.tcp_transport.specs.Sessions.{IsWhole, Leaves};
ghost use Rattle.tcp_transport.specs.Sockets.{IsQuiet, Gets, MayTell};
ghost use Rattle.tcp_transport.specs.Told.{IsToldOn};
ghost use Rattle.tcp_transport.specs.Traffic.{Sends, Hears, IsWhy};

use crate::sockets::Socket;
use links::{Heard, LinkFault, NodeLink};
use sentinel_runtime::Which;
use std::io::ErrorKind;

/// How many bytes one read asks for.
pub(crate) const PIECE: usize = 16_384;

/// Why a read took no piece.
#[derive(Clone, Copy)]
pub(crate) enum Unheard {
    /// The stream gave none: `WouldBlock` where nothing is there, `UnexpectedEof` at its end.
    Stream(ErrorKind),
    /// One was taken up to this fault, which closed the connection.
    Fault(LinkFault),
}

/// Writes once of what is unsent; the error says why nothing was taken.
#[tactic(auto, using(crate::proofs::Sending::sends_nothing, crate::proofs::Sending::sends_some))]
fn write<J: Which, S: Socket<J>>(link: &mut NodeLink, socket: &mut S) -> Result<(), ErrorKind>
    ensures sent { Sends (S.stands socket.old) (S.stands socket.new) link.old link.new }
{
    match socket.write(link.unsent()) {
        Ok(count) => {
            link.sent(count);
            if count == 0 {
                return Err(ErrorKind::WriteZero);
            }
            Ok(())
        }
        Err(error) => Err(error.kind()),
    }
}

/// Writes what is unsent until it would wait: whether the socket is whole. What was put out on it is what was taken
/// away of the front.
#[tactic(auto, using(crate::proofs::Sending::sends_none, crate::proofs::Sending::sends_twice))]
fn send_unsent<J: Which, S: Socket<J>>(link: &mut NodeLink, socket: &mut S) -> bool
    ensures sent { Sends (S.stands socket.old) (S.stands socket.new) link.old link.new }
{
    for _ in 0..u64::MAX {
        if link.unsent().is_empty() {
            return true;
        }
        match write::<J, S>(link, socket) {
            Ok(()) | Err(ErrorKind::Interrupted) => {}
            Err(ErrorKind::WouldBlock) => return true,
            Err(_) => return false,
        }
    }
    true
}

/// Writes what is unsent until it would wait: whether the socket is whole. What was put out on it is what was taken
/// away of the front, so all that was put out since it was opened, and what is unsent, is what may be said on it.
#[tactic(auto, using(crate::proofs::Sending::whole_sent))]
pub(crate) fn send<J: Which, S: Socket<J>>(link: &mut NodeLink, socket: &mut S) -> bool
    requires whole { IsWhole J.said J.reaches (S.stands socket.old) link.old }
    ensures sent { Sends (S.stands socket.old) (S.stands socket.new) link.old link.new }
    ensures whole { IsWhole J.said J.reaches (S.stands socket.new) link.new }
{
    send_unsent::<J, S>(link, socket)
}

/// Reads one piece into the room: how long it is, or why none came, `UnexpectedEof` at the end of the stream.
#[tactic(auto, using(crate::proofs::Hearing::quiet_end))]
fn read<J: Which, S: Socket<J>>(socket: &mut S, room: &mut [u8]) -> Result<usize, ErrorKind>
    ensures within { IfOk result (λ count. count ≤ length room.new) }
    ensures came { IfOk result (λ count. Gets (S.stands socket.old) (S.stands socket.new) (take count room.new)) }
    ensures told { IfOk result (λ count. MayTell J.said J.told (S.stands socket.old) (take count room.new)) }
    ensures err { OnErr result (IsQuiet (S.stands socket.old) (S.stands socket.new)) }
{
    match socket.read(room) {
        Ok(0) => Err(ErrorKind::UnexpectedEof),
        Ok(count) => Ok(count),
        Err(error) => Err(error.kind()),
    }
}

/// Reads one piece, and adds what the values tell that are whole with it: how long it is. The error says why none was
/// taken; what the values before a fault told was added. The Sentinel may be told all that is added.
#[tactic(auto, using(crate::proofs::Hearing::heard, crate::proofs::Hearing::broken, crate::proofs::Hearing::no_more))]
pub(crate) fn hear<J: Which, S: Socket<J>>(
    link: &mut NodeLink,
    socket: &mut S,
    room: &mut [u8],
    now: u64,
    heard: &mut Vec<Heard>,
) -> Result<usize, Unheard>
    requires whole { IsWhole J.said J.reaches (S.stands socket.old) link.old }
    ensures hears { OnOk result (Hears (S.stands socket.old) (S.stands socket.new) link.old link.new (events_in heard.old.items) (events_in heard.new.items)) }
    ensures why { IfErr result (IsWhy (S.stands socket.old) (S.stands socket.new) link.old (events_in heard.old.items) (events_in heard.new.items)) }
    ensures told { (more : List Event) × (events_in heard.new.items ≡ events_in heard.old.items ++ more)
        × AllByRecursion (IsToldOn J.told link.old.target) more }
    ensures whole { Leaves (IsWhole J.said J.reaches (S.stands socket.new) link.new) (link.new.talk ≡ fresh link.old.target) result }
    ensures target { link.new.target ≡ link.old.target }
    ensures within { IfOk result (λ count. count ≤ length room.new) }
{
    let count = match read::<J, S>(socket, room) {
        Ok(count) => count,
        Err(kind) => return Err(Unheard::Stream(kind)),
    };
    match link.received(&room[..count], now, heard) {
        Ok(()) => Ok(count),
        Err(fault) => Err(Unheard::Fault(fault)),
    }
}
