//! The current epoch of a Sentinel, as far as its threads know it without a turn.

use crate::settling::Settling;
use std::sync::atomic::{AtomicU64, Ordering};

/// What stands for no epoch: it is above each of them.
const NONE: u64 = u64::MAX;

/// An epoch that the Sentinel's current one isn't below, since that never falls, and one of which the other Sentinels
/// had time to hear; or none, and then it isn't looked after.
#[derive(Drop)]
pub(crate) struct KnownEpoch {
    current: AtomicU64,
    settled: AtomicU64,
}

/// The epoch that a word is.
fn epoch_in(word: &AtomicU64) -> Option<u64> {
    match word.load(Ordering::SeqCst) {
        NONE => None,
        epoch => Some(epoch),
    }
}

impl KnownEpoch {
    /// None is known.
    pub(crate) fn none() -> KnownEpoch {
        KnownEpoch {
            current: AtomicU64::new(NONE),
            settled: AtomicU64::new(NONE),
        }
    }

    /// This one is known, and from now on later ones are looked after.
    pub(crate) fn begin(&self, epoch: u64) {
        self.current.store(epoch, Ordering::SeqCst);
        self.settled.store(epoch, Ordering::SeqCst);
    }

    /// So far it has come.
    pub(crate) fn tell(&self, settling: Settling) {
        self.current.store(settling.current, Ordering::SeqCst);
        self.settled.store(settling.settled, Ordering::SeqCst);
    }

    /// The greatest one that is known.
    pub(crate) fn current(&self) -> Option<u64> {
        epoch_in(&self.current)
    }

    /// The greatest one of which the others had time to hear.
    pub(crate) fn settled(&self) -> Option<u64> {
        epoch_in(&self.settled)
    }
}
