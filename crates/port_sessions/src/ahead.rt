//! What stands next in a stream of which so many values more may store.

ghost use Rattle.std.specs.Prelude.{◌≡◌};
ghost use Rattle.port_sessions.specs.GoingOn.{TakesAhead};

use crate::limit::Limit;
use ballot_law::Command;
use resp2::{CommandFault, FrameFault, Frames, next_command};

/// What stands next in a stream.
pub(crate) enum Ahead {
    /// A whole value, which is taken and asks this.
    Asked(Result<Command, CommandFault>),
    /// One that may store and has to wait.
    PutOff,
    /// Less than a whole one.
    Short,
}

/// Takes the first whole value, unless it has to wait.
pub(crate) fn next_within(frames: &mut Frames, limit: &mut Limit) -> Result<Ahead, FrameFault>
    requires { limit.old.mark ≡ frames.old }
    ensures { TakesAhead limit.old.most frames.old result limit.new.most limit.new.mark frames.new }
{
    let asked = match next_command(frames) {
        Ok(Some(asked)) => asked,
        Ok(None) => return Ok(Ahead::Short),
        Err(fault) => return Err(fault),
    };
    if limit.allows(&asked) {
        limit.follow(frames.held());
        return Ok(Ahead::Asked(asked));
    }
    *frames = limit.take_mark();
    Ok(Ahead::PutOff)
}
