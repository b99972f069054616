//! Why a story isn't played.

use ballot_law::NoMemory;
use fault_world::{RunFault, ScenarioFault, WorldFault};
use std::alloc::AllocFailed;
use thiserror::Error;

/// Why a story isn't played. The text of each is the variant's name.
#[derive(Clone, Copy, Debug, PartialEq, Eq, Error)]
pub enum ReplayFault {
    /// The files don't make one group: a Sentinel is missing or there twice, or knows other nodes than the first file
    /// names.
    #[error("NotTheRoster")]
    NotTheRoster,
    /// Two files hold different configurations of a master.
    #[error("DifferentStart")]
    DifferentStart,
    /// Memory was refused.
    #[error("NoMemory")]
    NoMemory,
}

impl<T: Drop> From<AllocFailed<T>> for ReplayFault {
    fn from(_error: AllocFailed<T>) -> ReplayFault {
        ReplayFault::NoMemory
    }
}

impl From<NoMemory> for ReplayFault {
    fn from(_error: NoMemory) -> ReplayFault {
        ReplayFault::NoMemory
    }
}

impl From<RunFault> for ReplayFault {
    fn from(_error: RunFault) -> ReplayFault {
        ReplayFault::NoMemory
    }
}

impl From<ScenarioFault> for ReplayFault {
    /// A line of a scenario that was read is read again: only a refused allocation can refuse it.
    fn from(_error: ScenarioFault) -> ReplayFault {
        ReplayFault::NoMemory
    }
}

impl From<WorldFault> for ReplayFault {
    fn from(fault: WorldFault) -> ReplayFault {
        match fault {
            WorldFault::NotTheRoster => ReplayFault::NotTheRoster,
            WorldFault::DifferentStart => ReplayFault::DifferentStart,
            WorldFault::NoMemory => ReplayFault::NoMemory,
        }
    }
}
