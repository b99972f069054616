//! `new-id`: a run id for a new file.

use crate::failures::fail;
use conf_check::{ID_BYTES, id_line};
use sentinel_core::ServeFault;
use std::io::Write;
use std::process::ExitCode;
use std::random::RandomSource;

/// Prints a run id of the system's random bytes.
pub(crate) fn new_id(rt: HostRuntime) -> ExitCode {
    let mut bytes = [0; ID_BYTES];
    if rt.fill_bytes(&mut bytes).is_err() {
        return fail(&rt, ServeFault::Read);
    }
    let Ok(line) = id_line(rt.alloc(), &bytes) else {
        return fail(&rt, ServeFault::NoMemory);
    };
    match rt.stdout().write_all(line.as_bytes()) {
        Ok(()) => ExitCode::SUCCESS,
        Err(_) => fail(&rt, ServeFault::Write),
    }
}
