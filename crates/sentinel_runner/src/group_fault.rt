//! Why a group doesn't run, or didn't run whole.

use std::alloc::{AllocError, AllocFailed};
use thiserror::Error;

/// Why a group doesn't run, or didn't run whole. Where several fit, the first is told.
#[derive(Clone, Copy, Debug, PartialEq, Eq, Error)]
pub enum GroupFault {
    /// A growth was refused, or a thread couldn't be made. The threads that were made have ended.
    #[error("NoMemory")]
    NoMemory,
    /// The confs aren't those of one group: they don't give each Sentinel of the roster once, their rosters or their
    /// starting configurations differ, or there is another number of stores. Nothing was begun.
    #[error("NotOneRoster")]
    NotOneRoster,
    /// A Sentinel's port can't be had at 127.0.0.1, or the system no longer tells of its connections.
    #[error("PortRefused")]
    PortRefused,
    /// A Sentinel was halted, since its store refused a text. The others went on to the end.
    #[error("Halted")]
    Halted,
}

impl From<AllocError> for GroupFault {
    ghost use Rattle.std.specs.Prelude.{◌≡◌};
    ghost use Rattle.sentinel_runner.specs.declared.group_fault.GroupFault.TheVariants.{NoMemory};

    ghost from_gives = { λ _ fault. fault ≡ NoMemory };

    fn from(_error: AllocError) -> GroupFault {
        GroupFault::NoMemory
    }
}

impl<T: Drop> From<AllocFailed<T>> for GroupFault {
    ghost use Rattle.std.specs.Prelude.{◌≡◌};
    ghost use Rattle.sentinel_runner.specs.declared.group_fault.GroupFault.TheVariants.{NoMemory};

    ghost from_gives = { λ _ fault. fault ≡ NoMemory };

    fn from(_error: AllocFailed<T>) -> GroupFault {
        GroupFault::NoMemory
    }
}

/// Why a group that takes orders from an input didn't run, or didn't run whole. Where both fit, that of the group is
/// told.
#[derive(Clone, Copy, Debug, PartialEq, Eq, Error)]
pub enum OrderedFault {
    /// That of the group.
    #[error(transparent)]
    Group(GroupFault),
    /// The input couldn't be read to its end. The orders before that were obeyed, and the group has ended.
    #[error("Read")]
    Read,
}

impl From<GroupFault> for OrderedFault {
    ghost use Rattle.std.specs.Prelude.{◌≡◌};
    ghost use Rattle.sentinel_runner.specs.declared.group_fault.OrderedFault.TheVariants.{Group};

    ghost from_gives = { λ fault ordered. ordered ≡ Group fault };

    fn from(fault: GroupFault) -> OrderedFault {
        OrderedFault::Group(fault)
    }
}
