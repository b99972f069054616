//! How many connections came from each ip.

ghost use Rattle.std.specs.Prelude.{◌≡◌};
ghost use Rattle.client_port.specs.Admitting.{count_of};

use std::alloc::{AllocError, Global};
use std::collections::BTreeMap;

/// Of each ip from which some came how many did.
#[derive(Drop)]
pub(crate) struct Crowds {
    counts: BTreeMap<u32, usize>,
}

impl Crowds {
    /// None came. No memory is taken.
    pub(crate) fn new(alloc: Global) -> Crowds {
        Crowds {
            counts: BTreeMap::new(alloc),
        }
    }

    /// One more came from this ip.
    pub(crate) fn add(&mut self, ip: u32) -> Result<(), AllocError> {
        let count = self.counts.entry(ip)?.or_insert(0);
        *count = count.saturating_add(1);
        Ok(())
    }

    /// One of those from this ip is gone.
    pub(crate) fn remove(&mut self, ip: u32) {
        let Some(count) = self.counts.get_mut(&ip) else {
            return;
        };
        *count = count.saturating_sub(1);
        if *count == 0 {
            self.counts.remove(&ip);
        }
    }

    /// How many came from this ip.
    pub(crate) fn count(&self, ip: u32) -> usize
        ensures { result ≡ count_of self.now.counts ip }
    {
        match self.counts.get(&ip) {
            Some(count) => *count,
            None => 0,
        }
    }

    /// How many came from the ip from which most did.
    fn most(&self) -> usize {
        let mut most = 0;
        for count in self.counts.values() {
            most = most.max(*count);
        }
        most
    }

    /// From how many on those of an ip are many: half of the most. So no ip has many alone by one connection more, and
    /// none keeps those of another one by as many of its own.
    pub(crate) fn many(&self) -> usize {
        let most = self.most();
        most - most / 2
    }
}
