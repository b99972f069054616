//! Keys of connections in a line, each at most once.

use std::alloc::{AllocError, Global};
use std::collections::VecDeque;

/// Keys of connections, in the order in which they came, each at most once. A key stands for the connection that has
/// it when its turn comes: one that is gone may have left it to another.
#[derive(Drop)]
pub(crate) struct KeyQueue {
    keys: VecDeque<usize>,
    is_in: Vec<bool>,
}

impl KeyQueue {
    /// None waits. No memory is taken.
    pub(crate) fn new(alloc: Global) -> KeyQueue {
        KeyQueue {
            keys: VecDeque::new(alloc),
            is_in: Vec::new(alloc),
        }
    }

    /// Has room for this key, and for all below it.
    pub(crate) fn make_room(&mut self, key: usize) -> Result<(), AllocError> {
        for _ in self.is_in.len()..key.saturating_add(1) {
            self.is_in.push(false)?;
        }
        let more = self.is_in.len().saturating_sub(self.keys.len());
        self.keys.reserve(more)
    }

    /// How many wait.
    pub(crate) fn len(&self) -> usize {
        self.keys.len()
    }

    /// A key joins the line at its end, where it isn't in it. One for which no room was made is left out.
    pub(crate) fn join(&mut self, key: usize) {
        if let Some(is_in) = self.is_in.get_mut(key)
            && !*is_in
        {
            *is_in = self.keys.push_back(key).is_ok();
        }
    }

    /// Takes the first key out of the line.
    pub(crate) fn next(&mut self) -> Option<usize> {
        let key = self.keys.pop_front()?;
        if let Some(is_in) = self.is_in.get_mut(key) {
            *is_in = false;
        }
        Some(key)
    }
}
