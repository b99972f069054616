//! What is wrong with a file.

ghost use Rattle.std.specs.Prelude.{◌≡◌};
ghost use Rattle.conf_lines.specs.Faults.{fault_at};

use ballot_law::RosterFault;
use std::alloc::AllocError;
use thiserror::Error;

/// What is wrong with a file. Of several faults `read` of `sentinel_conf` tells the first, in the order that stands
/// there; it is not that of this list.
#[derive(Clone, Copy, Debug, PartialEq, Eq, Error)]
pub enum ConfKind {
    /// The file, or the longest file that a rewrite could make of it, has more than 67,536 bytes.
    #[error("TooLong")]
    TooLong,
    /// The bytes of the file aren't UTF-8.
    #[error("NotUtf8")]
    NotUtf8,
    /// A directive with a wrong number of words after it.
    #[error("BadDirective")]
    BadDirective,
    /// A word that should be a number isn't one, or is out of range.
    #[error("BadNumber")]
    BadNumber,
    /// An ip isn't four decimal parts, or its port isn't 1 to 65,535.
    #[error("BadAddress")]
    BadAddress,
    /// A master's name isn't 1 to 64 letters, digits, `.`, `-` and `_`.
    #[error("BadName")]
    BadName,
    /// A run id isn't 40 lower case hex digits.
    #[error("BadRunId")]
    BadRunId,
    /// A line speaks of a master that no `sentinel monitor` line of the file names.
    #[error("UnknownMaster")]
    UnknownMaster,
    /// A state line of which the file may hold one comes again.
    #[error("Twice")]
    Twice,
    /// The file has no `sentinel myid` line.
    #[error("NoMyId")]
    NoMyId,
    /// No roster can be made of what the file says.
    #[error(transparent)]
    Roster(RosterFault),
    /// A growth was refused.
    #[error("NoMemory")]
    NoMemory,
}

/// The first fault of a file. Its text is that of its kind.
#[derive(Clone, Copy, Debug, PartialEq, Eq, Error)]
#[error("{kind}")]
pub struct ConfFault {
    /// The number of the line, the first being 1; 0 for a fault of the file as a whole.
    pub line: u64,
    pub kind: ConfKind,
}

impl ConfFault {
    /// A fault of the file as a whole.
    pub fn of_file(kind: ConfKind) -> ConfFault
        ensures { result ≡ fault_at 0 kind }
    {
        ConfFault { line: 0, kind }
    }
}

impl From<AllocError> for ConfFault {
    ghost use Rattle.conf_lines.specs.Faults.{no_memory};

    ghost from_gives = { λ _ fault. fault ≡ no_memory };

    fn from(_error: AllocError) -> ConfFault {
        ConfFault::of_file(ConfKind::NoMemory)
    }
}
