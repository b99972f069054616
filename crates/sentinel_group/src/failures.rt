//! Why the program ends early: a line on standard error, and the exit status.

ghost use Rattle.std.specs.Prelude.{◌≡◌};
ghost use Rattle.sentinel_group.specs.Statuses.{status_of, status_of_group, status_of_ordered};

use conf_lines::{ConfFault, ConfKind};
use fault_world::{ScenarioFault, ScenarioKind};
use scenario_replay::ReplayFault;
use sentinel_core::ServeFault;
use sentinel_runner::{GroupFault, OrderedFault};
use std::fmt::Display;
use std::io;
use std::process::ExitCode;

/// The exit status of a file that is refused or can't be read.
const REFUSED_FILE: u8 = 3;

/// The exit status where a file that was asked for isn't written.
const UNWRITTEN_FILE: u8 = 4;

/// The exit status that tells the fault.
fn status_of(fault: ServeFault) -> u8
    ensures { result ≡ status_of fault }
{
    match fault {
        ServeFault::Frame(_) | ServeFault::Read | ServeFault::Write => 4,
        ServeFault::Halted => 5,
        ServeFault::NoMemory => 6,
    }
}

/// Tells the fault in one line, and in the exit status. Where the line can't be written, the status alone tells it.
pub(crate) fn fail(rt: &impl Eprint, fault: ServeFault) -> ExitCode {
    let _ = eprintln!(rt; "sentinel_group: {fault}");
    ExitCode::from(status_of(fault))
}

/// The exit status that tells why a group doesn't run, or didn't run whole.
pub(crate) fn status_of_group(fault: GroupFault) -> u8
    ensures { result ≡ status_of_group fault }
{
    match fault {
        GroupFault::NotOneRoster => REFUSED_FILE,
        GroupFault::PortRefused => 4,
        GroupFault::Halted => 5,
        GroupFault::NoMemory => 6,
    }
}

/// Tells why a group doesn't run, or didn't run whole, in one line and in the exit status.
pub(crate) fn fail_group(rt: &impl Eprint, fault: GroupFault) -> ExitCode {
    let _ = eprintln!(rt; "sentinel_group: {fault}");
    ExitCode::from(status_of_group(fault))
}

/// The exit status that tells why a group that takes orders doesn't run, or didn't run whole.
pub(crate) fn status_of_ordered(fault: OrderedFault) -> u8
    ensures { result ≡ status_of_ordered fault }
{
    match fault {
        OrderedFault::Group(fault) => status_of_group(fault),
        OrderedFault::Read => status_of(ServeFault::Read),
    }
}

/// Tells why a group that takes orders doesn't run, or didn't run whole, in one line and in the exit status.
pub(crate) fn fail_ordered(rt: &impl Eprint, fault: OrderedFault) -> ExitCode {
    let _ = eprintln!(rt; "sentinel_group: {fault}");
    ExitCode::from(status_of_ordered(fault))
}

/// Tells what is wrong with a file, and at which line; line 0 is the file as a whole.
pub(crate) fn refuse_file<D: Display + Drop>(
    rt: &impl Eprint,
    path: &str,
    line: u64,
    kind: D,
) -> ExitCode {
    let _ = eprintln!(rt; "sentinel_group: {path}:{line}: {kind}");
    ExitCode::from(REFUSED_FILE)
}

/// Tells what is wrong with a file as a whole, and in a note the system's reason.
pub(crate) fn refuse_with_reason(
    rt: &impl Eprint,
    path: &str,
    kind: &str,
    what: &str,
    reason: io::Error,
) -> ExitCode {
    let status = refuse_file(rt, path, 0, kind);
    let _ = eprintln!(rt; "note: {path}:0: {kind}: {what}: {reason}");
    status
}

/// Tells why a file isn't written.
pub(crate) fn refuse_file_to_write(rt: &impl Eprint, path: &str, kind: &str) -> ExitCode {
    let _ = eprintln!(rt; "sentinel_group: {path}:0: {kind}");
    ExitCode::from(UNWRITTEN_FILE)
}

/// Tells the fault of a scenario that was read.
pub(crate) fn refuse_scenario(rt: &impl Eprint, path: &str, fault: ScenarioFault) -> ExitCode {
    match fault.kind {
        ScenarioKind::NoMemory => fail(rt, ServeFault::NoMemory),
        kind => refuse_file(rt, path, fault.line, kind),
    }
}

/// Tells why a story isn't played: its files are refused together, or memory was.
pub(crate) fn refuse_story(rt: &impl Eprint, fault: ReplayFault) -> ExitCode {
    match fault {
        ReplayFault::NoMemory => fail(rt, ServeFault::NoMemory),
        fault => {
            let _ = eprintln!(rt; "sentinel_group: {fault}");
            ExitCode::from(REFUSED_FILE)
        }
    }
}

/// Tells the fault of a file that was read.
pub(crate) fn refuse_conf(rt: &impl Eprint, path: &str, fault: ConfFault) -> ExitCode {
    match fault.kind {
        ConfKind::NoMemory => fail(rt, ServeFault::NoMemory),
        kind => refuse_file(rt, path, fault.line, kind),
    }
}
