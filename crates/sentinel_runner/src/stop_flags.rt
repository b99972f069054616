//! Which Sentinels of a group are to end their threads.

use std::alloc::{AllocError, Global};
use std::sync::atomic::{AtomicU64, Ordering};

/// A word for each Sentinel of a group, by its place in the roster, at which its threads look: 0 while they run.
#[derive(Drop)]
pub(crate) struct StopFlags {
    words: Vec<AtomicU64>,
}

impl StopFlags {
    /// Those of a group with this number of Sentinels, all of which run.
    pub(crate) fn new(alloc: Global, sentinels: usize) -> Result<StopFlags, AllocError> {
        let mut words = Vec::new(alloc);
        for _ in 0..sentinels {
            words.push(AtomicU64::new(0))?;
        }
        Ok(StopFlags { words })
    }

    /// That of the Sentinel at this place; none where there is no such place.
    pub(crate) fn of(&self, place: u16) -> Option<&AtomicU64> {
        self.words.get(place as usize)
    }

    /// The threads of the Sentinel at this place are to end.
    pub(crate) fn stop(&self, place: u16) {
        if let Some(word) = self.of(place) {
            word.store(1, Ordering::SeqCst);
        }
    }

    /// The threads of the Sentinel at this place, of which none is there any more, are to run.
    pub(crate) fn start(&self, place: u16) {
        if let Some(word) = self.of(place) {
            word.store(0, Ordering::SeqCst);
        }
    }

    /// The threads of all Sentinels are to end.
    pub(crate) fn stop_all(&self) {
        for word in &self.words {
            word.store(1, Ordering::SeqCst);
        }
    }
}
