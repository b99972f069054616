//! Requests for votes whose epoch is too far above the Sentinel's own one.

ghost use Rattle.std.specs.Prelude.{◌≡◌, ℕ, Option, IfOk, true};
ghost use Rattle.ballot_law.specs.Limits.{IsWithin};
ghost use Rattle.courteous_sessions.specs.Epochs.{is_far, heard_epoch, heard, heard_as, far_request};

use ballot_law::{Command, RunId};
use resp2::CommandFault;

/// How far an epoch may be above one that the own current one isn't below. A request for a vote in a later one is
/// answered as one of epoch 0, in which no vote is given, and a hello with a later one is lost: else one message could
/// bring a group to the greatest epoch, after which no failover can begin.
pub const EPOCHS_AHEAD: u64 = 65_536;

/// Whether an epoch is too far above the current one: by more than `EPOCHS_AHEAD`.
pub fn is_far(epoch: u64, current: u64) -> bool
    ensures { result ≡ is_far epoch current }
{
    current < epoch.saturating_sub(EPOCHS_AHEAD)
}

/// A request for a vote in an epoch that was too far above the current one.
#[derive(Clone, Copy)]
pub struct FarRequest {
    /// For whom the vote was asked.
    pub candidate: RunId,
    /// In which epoch.
    pub epoch: u64,
}

/// The epoch of a question as it is heard, where this current epoch was told.
fn heard_epoch(current: Option<u64>, epoch: u64) -> u64
    ensures { result ≡ heard_epoch current epoch }
{
    match current {
        Some(current) if is_far(epoch, current) => 0,
        _ => epoch,
    }
}

/// A command as it is heard, where this current epoch was told.
fn heard(current: Option<u64>, command: Command) -> Command
    ensures { result ≡ heard current command }
{
    match command {
        Command::IsMasterDownByAddr {
            addr,
            epoch,
            candidate,
        } => Command::IsMasterDownByAddr {
            addr,
            epoch: heard_epoch(current, epoch),
            candidate,
        },
        command => command,
    }
}

/// Whether a value is heard as it is, whichever current epoch was told: it isn't the question whether a master is down.
/// Nothing of it is copied.
pub(crate) fn is_plain(asked: &Result<Command, CommandFault>) -> bool
    ensures { result ≡ true → (current : Option ℕ) → heard_as current asked.now ≡ asked.now }
{
    !matches!(asked, Ok(Command::IsMasterDownByAddr { .. }))
}

/// The same of a value that may be no command.
pub(crate) fn heard_as(
    current: Option<u64>,
    asked: &Result<Command, CommandFault>,
) -> Result<Command, CommandFault>
    requires { IfOk asked.now IsWithin }
    ensures heard { result ≡ heard_as current asked.now }
    ensures within { IfOk result IsWithin }
{
    match asked {
        Ok(command) => Ok(heard(current, *command)),
        Err(fault) => Err(*fault),
    }
}

/// The request for a vote that a command is, where its epoch is too far above this current one.
pub(crate) fn far_request(
    current: Option<u64>,
    asked: &Result<Command, CommandFault>,
) -> Option<FarRequest>
    ensures { result ≡ far_request current asked.now }
{
    match (current, asked) {
        (
            Some(current),
            Ok(
                Command::IsMasterDownByAddr {
                    addr: _,
                    epoch,
                    candidate: Some(candidate),
                },
            ),
        ) if is_far(*epoch, current) => Some(FarRequest {
            candidate: *candidate,
            epoch: *epoch,
        }),
        _ => None,
    }
}
