//! Which hellos were heard a moment ago.

ghost use Rattle.std.specs.Prelude.{◌≡◌, ◌≤◌, not, false, length};
ghost use Rattle.links.specs.declared.hello_dedup.TheConstants.{HELLOS_MAX};
ghost use Rattle.links.specs.HelloDedup.{Keeps, is_recent};

use crate::times::NEWS_MS;
use ballot_law::{NoMemory, Text};
use std::alloc::Global;

/// How many hellos are kept: some more than sixty-four Sentinels publish of a master in that time.
pub const HELLOS_MAX: usize = 128;

/// A hello, and when it was heard, by a reading of the clock in milliseconds.
#[derive(Drop)]
pub struct HeardHello {
    pub at: u64,
    pub text: Text,
}

/// The hellos that were heard last, in the order of their places; `next` is the place that the next one takes once all
/// are taken.
#[derive(Drop)]
pub struct HelloDedup {
    alloc: Global,
    hellos: Vec<HeardHello>,
    next: usize,
    ghost few: { length hellos.items ≤ HELLOS_MAX },
}

/// Whether this hello is among those that were heard within `NEWS_MS`.
fn is_recent(hellos: &[HeardHello], now: u64, text: &[u8]) -> bool
    ensures { result ≡ is_recent now text.now hellos.now }
{
    hellos.iter().any(|hello| now.saturating_sub(hello.at) < NEWS_MS
        && hello.text.as_slice() == text)
}

impl HelloDedup {
    /// None was heard yet. No memory is taken.
    pub fn new(alloc: Global) -> HelloDedup
        ensures { length result.hellos.items ≡ 0 }
    {
        HelloDedup {
            alloc,
            hellos: Vec::new(alloc),
            next: 0,
        }
    }

    /// Whether a hello with this text is news at this reading of the clock: none of the same bytes was heard less than
    /// `NEWS_MS` ago. One that is news is kept; where there is no memory for it, it is news the next time too.
    pub fn hear(&mut self, now: u64, text: &[u8]) -> bool
        ensures news { result ≡ not (is_recent now text.now self.old.hellos.items) }
        ensures old { result ≡ false → self.new ≡ self.old }
        ensures kept { Keeps (record { at = now; text = text.now }) self.old.hellos.items self.new.hellos.items }
    {
        if is_recent(self.hellos.as_slice(), now, text) {
            return false;
        }
        drop(self.keep(now, text));
        true
    }

    /// Keeps a hello, in the place of the oldest one where all places are taken.
    fn keep(&mut self, now: u64, text: &[u8]) -> Result<(), NoMemory>
        ensures { Keeps (record { at = now; text = text.now }) self.old.hellos.items self.new.hellos.items }
    {
        let hello = HeardHello {
            at: now,
            text: Text::from_slice(self.alloc, text)?,
        };
        if self.hellos.len() < HELLOS_MAX {
            self.hellos.push(hello)?;
            return Ok(());
        }
        let oldest = self.next % HELLOS_MAX;
        if let Some(place) = self.hellos.get_mut(oldest) {
            *place = hello;
        }
        self.next = oldest + 1;
        Ok(())
    }
}
