//! Keys of connections by the clock's readings since which they count.

use std::alloc::{AllocError, Global};
use std::cmp::Reverse;
use std::collections::BinaryHeap;

/// Keys of connections, each at most once, by a reading of the clock in milliseconds. The reading of a key is looked
/// at when it is the earliest one, and put off then where the connection counts from a later one by now: so nothing
/// is done here while a connection works.
#[derive(Drop)]
pub(crate) struct Ages {
    heap: BinaryHeap<Reverse<(u64, usize)>>,
    is_in: Vec<bool>,
}

impl Ages {
    /// None is there. No memory is taken.
    pub(crate) fn new(alloc: Global) -> Ages {
        Ages {
            heap: BinaryHeap::new(alloc),
            is_in: Vec::new(alloc),
        }
    }

    /// How many are there.
    pub(crate) fn len(&self) -> usize {
        self.heap.len()
    }

    /// Adds a key since this reading. One that is there already, left by a connection that is gone, stays with its
    /// own reading, which is earlier.
    pub(crate) fn add(&mut self, key: usize, since: u64) -> Result<(), AllocError> {
        for _ in self.is_in.len()..key.saturating_add(1) {
            self.is_in.push(false)?;
        }
        let Some(is_in) = self.is_in.get_mut(key) else {
            return Ok(());
        };
        if !*is_in {
            self.heap.push(Reverse((since, key)))?;
            *is_in = true;
        }
        Ok(())
    }

    /// The earliest reading, with its key.
    pub(crate) fn first(&self) -> Option<(u64, usize)> {
        match self.heap.peek() {
            Some(first) => Some(first.0),
            None => None,
        }
    }

    /// Takes the first key away.
    pub(crate) fn drop_first(&mut self) {
        if let Some(Reverse((_, key))) = self.heap.pop()
            && let Some(is_in) = self.is_in.get_mut(key)
        {
            *is_in = false;
        }
    }

    /// The first key counts since this reading instead.
    pub(crate) fn put_off(&mut self, since: u64) {
        if let Some(Reverse((_, key))) = self.heap.pop() {
            drop(self.heap.push(Reverse((since, key))));
        }
    }
}
