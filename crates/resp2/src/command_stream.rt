//! Reads commands from a stream that comes in pieces.
ghost use Rattle.std.specs.Prelude.{◌≡◌, ◌<◌, ◌≤◌, Ok, Some, None, length, OnOk, IfOk, IfSome};
ghost use Rattle.resp2.specs.Asked.{Asks, Found, IsCommon};
ghost use Rattle.ballot_law.specs.Limits.{IsWithin};
ghost use Rattle.resp2.specs.Framing.Stream.{held_size};

use crate::asked::{asked_at, asked_of};
use crate::command::{CommandFault, command_of};
use crate::framing::{FrameFault, Frames};
use ballot_law::Command;

/// Takes the first whole value out of the bytes that came, as the command that it spells or the reason why it is none;
/// `None` where more bytes are needed. It answers what `Frames::next` and then `command_of` would, and leaves what
/// `next` would leave.
///
/// A frequent command is read where its bytes stand, with no value made of it and no memory taken: PING, a question for
/// the address of a master, and the question whether a master is down, each in capitals or in small letters. All else
/// is read as a value first.
///
/// `NoMemory` leaves the reader unchanged. Any other fault is one of the bytes: the values before it were given, and
/// every later call answers it again.
pub fn next_command(
    frames: &mut Frames,
) -> Result<Option<Result<Command, CommandFault>>, FrameFault>
    ensures exact { Asks frames.old result frames.new }
    ensures within { IfOk result (λ given. IfSome given (λ asked. IfOk asked IsWithin)) }
    // With each value fewer bytes are held.
    ensures fewer { IfOk result (λ given. IfSome given (λ asked. held_size frames.new < held_size frames.old)) }
    ensures no_more { OnOk result (held_size frames.new ≤ held_size frames.old) }
{
    if let Some((asked, count)) = asked_of(frames.held()) {
        frames.skip(count);
        return Ok(Some(asked));
    }
    match frames.next() {
        Ok(Some(value)) => Ok(Some(command_of(&value))),
        Ok(None) => Ok(None),
        Err(fault) => Err(fault),
    }
}

/// Takes the first value out of the bytes that came, where it is PING, a question for the address of a master or the
/// question whether a master is down, in a spelling that `next_command` reads where it stands. `None` leaves the reader
/// unchanged: any other value, less than a whole one, or a fault may stand there. No memory is taken.
pub fn next_common(frames: &mut Frames) -> Option<Command>
    ensures taken { IfSome result (λ command. Asks frames.old (Ok (Some (Ok command))) frames.new) }
    ensures within { IfSome result IsWithin }
    ensures common { IfSome result IsCommon }
    // With each value fewer bytes are held.
    ensures fewer { IfSome result (λ command. held_size frames.new < held_size frames.old) }
    ensures left { result ≡ None → frames.new ≡ frames.old }
{
    match asked_of(frames.held()) {
        Some((Ok(command), count)) => {
            frames.skip(count);
            Some(command)
        }
        _ => None,
    }
}

/// The command with which these bytes begin, and what stands behind it, where it is one that `next_common` takes.
/// `None` tells nothing of the bytes. No memory is taken.
pub fn common_in(bytes: &[u8]) -> Option<(Command, &[u8])>
    ensures found { IfSome result (λ x. Found bytes.now (Ok x.0) x.1.now) }
    ensures within { IfSome result (λ x. IsWithin x.0) }
    ensures common { IfSome result (λ x. IsCommon x.0) }
    ensures shorter { IfSome result (λ x. length x.1.now < length bytes.now) }
{
    match asked_at(bytes) {
        Some((Ok(command), rest)) => Some((command, rest)),
        _ => None,
    }
}
