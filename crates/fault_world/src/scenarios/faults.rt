//! What is wrong with a scenario.

ghost use Rattle.std.specs.Prelude.{◌≡◌};

use ballot_law::NoMemory;
use std::alloc::AllocFailed;
use thiserror::Error;

/// What is wrong with a scenario. The text of each is the variant's name.
///
/// Of several faults of a line the first of this list is told.
#[derive(Clone, Copy, Debug, PartialEq, Eq, Error)]
pub enum ScenarioKind {
    /// The bytes of the scenario aren't UTF-8.
    #[error("NotUtf8")]
    NotUtf8,
    /// The first word of the line names no step.
    #[error("UnknownStep")]
    UnknownStep,
    /// The step wants another number of words, or one of them is no node, none of the words that may stand there, or no
    /// command of a Sentinel's port.
    #[error("WrongWords")]
    WrongWords,
    /// A number isn't one or more decimal digits, or is too great.
    #[error("BadNumber")]
    BadNumber,
    /// Memory was refused.
    #[error("NoMemory")]
    NoMemory,
}

impl From<NoMemory> for ScenarioKind {
    ghost use Rattle.fault_world.specs.declared.scenarios.faults.ScenarioKind.TheVariants.{NoMemory};

    ghost from_gives = { λ _ kind. kind ≡ NoMemory };

    fn from(_error: NoMemory) -> ScenarioKind {
        ScenarioKind::NoMemory
    }
}

impl<T: Drop> From<AllocFailed<T>> for ScenarioKind {
    ghost use Rattle.fault_world.specs.declared.scenarios.faults.ScenarioKind.TheVariants.{NoMemory};

    ghost from_gives = { λ _ kind. kind ≡ NoMemory };

    fn from(_error: AllocFailed<T>) -> ScenarioKind {
        ScenarioKind::NoMemory
    }
}

/// The first fault of a scenario. Its text is that of its kind.
#[derive(Clone, Copy, Debug, PartialEq, Eq, Error)]
#[error("{kind}")]
pub struct ScenarioFault {
    /// The number of the line, the first being 1; 0 for `NotUtf8` and `NoMemory`.
    pub line: u64,
    pub kind: ScenarioKind,
}

impl<T: Drop> From<AllocFailed<T>> for ScenarioFault {
    ghost use Rattle.fault_world.specs.Scenarios.Scenarios.{no_memory};

    ghost from_gives = { λ _ fault. fault ≡ no_memory };

    fn from(_error: AllocFailed<T>) -> ScenarioFault {
        ScenarioFault {
            line: 0,
            kind: ScenarioKind::NoMemory,
        }
    }
}
