//! Files in memory that tell what is written into them.

ghost use Rattle.std.specs.Prelude.{◌≡◌, IfOk};

use ballot_law::NoMemory;
use sentinel_conf::{ConfStore, FileText, LoadFault, MemoryStore, StoreRefused, read};
use std::alloc::Global;
use std::rt::Clock;
use std::sync::atomic::{AtomicU64, Ordering};
use std::thread;
use std::time::Duration;

/// How often a thread looks for what another one does, a millisecond apart.
pub(crate) const MOST_LOOKS: u32 = 30_000;

/// The greatest epochs that a file got, and the port of the master that it got last. Once `refuses` isn't 0, the file
/// takes no text any more.
#[derive(Drop)]
pub(crate) struct Told {
    pub(crate) current: AtomicU64,
    pub(crate) voted: AtomicU64,
    pub(crate) master: AtomicU64,
    pub(crate) refuses: AtomicU64,
}

impl Told {
    /// Nothing was written yet.
    pub(crate) fn new() -> Told {
        Told {
            current: AtomicU64::new(0),
            voted: AtomicU64::new(0),
            master: AtomicU64::new(0),
            refuses: AtomicU64::new(0),
        }
    }

    /// Notes what a text says.
    fn note(&self, alloc: Global, text: &[u8]) {
        if let Ok(conf) = read(alloc, text) {
            self.current
                .fetch_max(conf.kept().current, Ordering::SeqCst);
            for master in conf.kept().masters.as_slice() {
                self.voted.fetch_max(master.voted, Ordering::SeqCst);
                self.master
                    .store(u64::from(master.card.addr.port), Ordering::SeqCst);
            }
        }
    }
}

/// Waits until a number has come up to another one; whether it has.
pub(crate) fn wait_for<R: Clock>(rt: &R, number: &AtomicU64, least: u64) -> bool {
    for _ in 0..MOST_LOOKS {
        if number.load(Ordering::SeqCst) >= least {
            return true;
        }
        thread::sleep(rt, Duration::from_millis(1));
    }
    false
}

/// The greatest epoch of a vote in a text, 0 where there is none.
fn voted(alloc: Global, text: &[u8]) -> u64 {
    let mut greatest = 0;
    if let Ok(conf) = read(alloc, text) {
        for master in conf.kept().masters.as_slice() {
            greatest = master.voted.max(greatest);
        }
    }
    greatest
}

/// A file that tells what is written. Where it is held, a write waits until its number has come up to the
/// epoch of the vote that is written, and is refused where it doesn't.
#[derive(Drop)]
pub(crate) struct ToldFile<'a, R: Clock> {
    file: MemoryStore,
    alloc: Global,
    told: &'a Told,
    held: Option<(&'a R, &'a AtomicU64)>,
}

impl<'a, R: Clock> ToldFile<'a, R> {
    /// An empty file, which nobody reads. `held` has the clock to wait by and the number to wait for.
    pub(crate) fn telling(
        alloc: Global,
        told: &'a Told,
        held: Option<(&'a R, &'a AtomicU64)>,
    ) -> Result<ToldFile<'a, R>, NoMemory>
        ensures { IfOk result (λ file. file.file.failed ≡ 0) }
    {
        Ok(ToldFile {
            file: MemoryStore::holding(alloc, b"")?,
            alloc,
            told,
            held,
        })
    }

    /// A file that holds this text.
    pub(crate) fn holding(
        alloc: Global,
        told: &'a Told,
        text: &[u8],
    ) -> Result<ToldFile<'a, R>, NoMemory>
        ensures { IfOk result (λ file. file.file.failed ≡ 0) }
    {
        Ok(ToldFile {
            file: MemoryStore::holding(alloc, text)?,
            alloc,
            told,
            held: None,
        })
    }

    /// Whether this text is refused.
    fn is_refused(&self, text: &[u8]) -> bool {
        if self.told.refuses.load(Ordering::SeqCst) != 0 {
            return true;
        }
        match self.held {
            Some((rt, number)) => !wait_for(rt, number, voted(self.alloc, text)),
            None => false,
        }
    }
}

impl<'a, R: Clock> ConfStore for ToldFile<'a, R> {
    ghost failure_count = { λ told. told.file.failed };

    fn load(&mut self) -> Result<FileText, LoadFault> {
        self.file.load()
    }

    fn replace(&mut self, text: &[u8]) -> Result<(), StoreRefused> {
        if self.is_refused(text) {
            self.file.refuse_next(false);
        } else {
            self.told.note(self.alloc, text);
        }
        self.file.replace(text)
    }

    fn failures(&self) -> u64 {
        self.file.failures()
    }
}
