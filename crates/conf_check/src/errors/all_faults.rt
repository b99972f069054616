//! All faults of a file.

ghost use Rattle.std.specs.Prelude.{◌≡◌, IfOk};
ghost use Rattle.conf_check.specs.Errors.AllFaults.{all_faults};

use ballot_law::NoMemory;
use conf_lines::{ConfFault, ConfKind};
use sentinel_conf::{faults_in, read, read_lines};
use std::alloc::Global;

/// All faults of the file with these bytes, in the order in which a file is judged: that of each line by itself, then
/// each line that speaks of a master that isn't named, also by no `sentinel monitor` line that is at fault, then that
/// there is no run id. A fault of the file as a whole stands alone, since then its lines have none or can't be read. A
/// file that is read has none. NoMemory: memory was refused.
pub fn faults_of(alloc: Global, bytes: &[u8]) -> Result<Vec<ConfFault>, NoMemory>
    ensures { IfOk result (λ list. list.items ≡ all_faults bytes.now) }
{
    let mut faults = Vec::new(alloc);
    let Err(fault) = read(alloc, bytes) else {
        return Ok(faults);
    };
    match fault.kind {
        ConfKind::NoMemory => Err(NoMemory),
        ConfKind::TooLong | ConfKind::NotUtf8 | ConfKind::Roster(_) => {
            faults.push(fault)?;
            Ok(faults)
        }
        _ => faults_in(alloc, &read_lines(alloc, bytes)?),
    }
}
