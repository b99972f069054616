//! What the threads of Sentinels that run share.

ghost use Rattle.std.specs.Prelude.{◌≡◌};
ghost use Rattle.sentinel_runtime.specs.Running.{worst_of};

use crate::clock::GroupClock;
use std::sync::atomic::{AtomicBool, Ordering};

/// What can go wrong with Sentinels that run, the worst first.
#[derive(Clone, Copy, PartialEq, Eq)]
pub enum RunFault {
    /// A thread or its room couldn't be made.
    LackedThread,
    /// A port couldn't serve its clients any more.
    LostPort,
    /// A Sentinel was halted.
    Halted,
}

/// What all threads of the Sentinels of one process share: their clock, and what went wrong so far. It names no
/// transport.
#[derive(Drop)]
pub struct RunState {
    pub clock: GroupClock,
    lacked_thread: AtomicBool,
    lost_port: AtomicBool,
    halted: AtomicBool,
    closes_halted: AtomicBool,
}

impl RunState {
    /// By this clock, where nothing went wrong yet.
    pub fn new(clock: GroupClock) -> RunState
        ensures { result.clock ≡ clock }
    {
        RunState {
            clock,
            lacked_thread: AtomicBool::new(false),
            lost_port: AtomicBool::new(false),
            halted: AtomicBool::new(false),
            closes_halted: AtomicBool::new(false),
        }
    }

    /// Where it stands whether this went wrong.
    fn flag_of(&self, fault: RunFault) -> &AtomicBool {
        match fault {
            RunFault::LackedThread => &self.lacked_thread,
            RunFault::LostPort => &self.lost_port,
            RunFault::Halted => &self.halted,
        }
    }

    /// Notes what went wrong, for all threads. It stays noted.
    pub fn note(&self, fault: RunFault) {
        self.flag_of(fault).store(true, Ordering::SeqCst);
    }

    /// From now on a halted Sentinel closes its port.
    pub fn close_halted(&self) {
        self.closes_halted.store(true, Ordering::SeqCst);
    }

    /// Whether a halted Sentinel closes its port.
    pub(crate) fn closes_halted(&self) -> bool {
        self.closes_halted.load(Ordering::SeqCst)
    }

    /// Whether this was noted.
    pub fn has(&self, fault: RunFault) -> bool {
        self.flag_of(fault).load(Ordering::SeqCst)
    }

    /// The worst that was noted; None where nothing went wrong.
    pub fn worst(&self) -> Option<RunFault> {
        worst_of(
            self.has(RunFault::LackedThread),
            self.has(RunFault::LostPort),
            self.has(RunFault::Halted),
        )
    }
}

/// The worst of what went wrong.
fn worst_of(lacked_thread: bool, lost_port: bool, halted: bool) -> Option<RunFault>
    ensures { result ≡ worst_of lacked_thread lost_port halted }
{
    if lacked_thread {
        return Some(RunFault::LackedThread);
    }
    if lost_port {
        return Some(RunFault::LostPort);
    }
    if halted {
        return Some(RunFault::Halted);
    }
    None
}
