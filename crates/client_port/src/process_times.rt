//! The number of the process, and for how long it worked.

use std::alloc::Global;
use std::fs;
use std::rt::Files;
use tokens::number_of;

/// Where Linux tells of a process; elsewhere there is no such file.
const STAT: &str = "/proc/self/stat";

/// How many words stand before the two times, after the name of the program, which ends with a `)`.
const BEFORE_TIMES: usize = 12;

/// The number of the process, and for how long it and the system for it worked, in hundredths of a second, which Linux
/// counts.
#[derive(Clone, Copy)]
pub struct ProcessTimes {
    pub(crate) process: u64,
    pub(crate) user: u64,
    pub(crate) system: u64,
}

impl ProcessTimes {
    /// Nothing is known.
    pub(crate) fn none() -> ProcessTimes {
        ProcessTimes {
            process: 0,
            user: 0,
            system: 0,
        }
    }
}

/// What the text of Linux tells of a process; none where it has another form.
fn times_in(text: &[u8]) -> Option<ProcessTimes> {
    let process = text.split(|byte| *byte == b' ').next()?;
    let after = text.rsplit(|byte| *byte == b')').next()?;
    let mut words = after.split(|byte| *byte == b' ');
    let user = words.nth(BEFORE_TIMES)?;
    let system = words.next()?;
    Some(ProcessTimes {
        process: number_of(process, 0, u64::MAX)?,
        user: number_of(user, 0, u64::MAX)?,
        system: number_of(system, 0, u64::MAX)?,
    })
}

/// Who tells of the process: a runtime with files. A port asks by this trait and not by `Files`, which has types of its
/// own, so that a thread that is started can't ask by it.
pub trait ReadsTimes {
    /// What the system tells of this process; none where it tells nothing, or memory is refused.
    fn read_times(&self, alloc: Global) -> Option<ProcessTimes>;
}

impl<R: Files> ReadsTimes for R {
    fn read_times(&self, alloc: Global) -> Option<ProcessTimes> {
        let text = fs::read(&(self, alloc), STAT).ok()?;
        times_in(text.as_slice())
    }
}
