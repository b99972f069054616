//! Of which nodes a fault was noted a moment ago.

ghost use Rattle.std.specs.Prelude.{◌≡◌, not, false, true, length};
ghost use Rattle.links.specs.RecentFaults.{is_noted, Keeps};

use crate::times::FAULT_NOTE_MS;
use ballot_law::NoMemory;
use std::alloc::Global;

/// The place of the connection that takes the messages of a node of which a fault was noted, and when, by a reading of
/// the clock in milliseconds.
#[derive(Clone, Copy)]
pub struct NotedFault {
    pub place: usize,
    pub at: u64,
}

/// The nodes of which a fault was noted, with the last one of each.
#[derive(Drop)]
pub struct RecentFaults {
    noted: Vec<NotedFault>,
}

/// Whether a fault of the node at this place was noted within `FAULT_NOTE_MS`.
fn is_noted(noted: &[NotedFault], place: usize, now: u64) -> bool
    ensures { result ≡ is_noted now place noted.now }
{
    noted.iter().any(|fault| now.saturating_sub(fault.at) < FAULT_NOTE_MS && fault.place == place)
}

impl RecentFaults {
    /// None was noted yet. No memory is taken.
    pub fn new(alloc: Global) -> RecentFaults
        ensures { length result.noted.items ≡ 0 }
    {
        RecentFaults {
            noted: Vec::new(alloc),
        }
    }

    /// Whether a fault of the node at this place is to be noted at this reading of the clock: none was within
    /// `FAULT_NOTE_MS`. One that is noted is kept; where there is no memory for it, the next one is noted too.
    pub fn takes_note(&mut self, place: usize, now: u64) -> bool
        ensures due { result ≡ not (is_noted now place self.old.noted.items) }
        ensures old { result ≡ false → self.new ≡ self.old }
        ensures kept { Keeps (record { place = place; at = now }) self.old.noted.items self.new.noted.items }
    {
        if is_noted(self.noted.as_slice(), place, now) {
            return false;
        }
        drop(self.keep(NotedFault { place, at: now }));
        true
    }

    /// Keeps when a fault was noted, in the place of the one that was noted of the same node before.
    fn keep(&mut self, noted: NotedFault) -> Result<(), NoMemory>
        ensures { Keeps noted self.old.noted.items self.new.noted.items }
    {
        let before = self
            .noted
            .iter()
            .position(|fault| fault.place == noted.place);
        match before {
            Some(at) => {
                if let Some(fault) = self.noted.get_mut(at) {
                    *fault = noted;
                }
            }
            None => self.noted.push(noted)?,
        }
        Ok(())
    }
}
