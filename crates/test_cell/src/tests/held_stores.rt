//! An address that is told while another thread's store is under way.

ghost use Rattle.std.specs.Prelude.{◌≡◌};

use super::calls::card;
use super::files::{Shared, file, shared};
use super::known_cell::{KnownCell, KnownSeat, Which};
use ballot_law::Card;
use sentinel_conf::{ConfStore, FileText, LoadFault, MemoryStore, StoreRefused};
use std::alloc::Global;
use std::marker::Brand;
use std::process::Abort;
use std::rt::Clock;
use std::sync::Wait;
use std::sync::atomic::{AtomicU64, Ordering};
use std::thread::{self, Threads};
use std::time::Duration;

/// How often a thread looks for the other one, a millisecond apart.
const MOST_LOOKS: u32 = 10_000;

/// What the two threads tell each other.
#[derive(Drop)]
struct Flags {
    /// 1 from the moment on at which the store is held.
    held: AtomicU64,
    /// 1 once an address was told while the store was held.
    told: AtomicU64,
}

/// Waits until the flag is up; whether it is.
fn wait_for<R: Clock>(rt: &R, flag: &AtomicU64) -> bool {
    for _ in 0..MOST_LOOKS {
        if flag.load(Ordering::SeqCst) == 1 {
            return true;
        }
        thread::sleep(rt, Duration::from_millis(1));
    }
    false
}

/// A file whose write waits until an address was told, and is refused where none is.
#[derive(Drop)]
struct HeldFile<'a, R: Clock> {
    file: MemoryStore,
    rt: &'a R,
    flags: &'a Flags,
}

impl<'a, R: Clock> ConfStore for HeldFile<'a, R> {
    ghost failure_count = { λ held. held.file.failed };

    fn load(&mut self) -> Result<FileText, LoadFault> {
        self.file.load()
    }

    fn replace(&mut self, text: &[u8]) -> Result<(), StoreRefused> {
        self.flags.held.store(1, Ordering::SeqCst);
        if !wait_for(self.rt, &self.flags.told) {
            self.file.refuse_next(false);
        }
        self.file.replace(text)
    }

    fn failures(&self) -> u64 {
        self.file.failures()
    }
}

/// What one of the two threads does.
#[derive(Drop)]
struct Part<J: Which> {
    seat: KnownSeat<J>,
    asks_the_address: bool,
    answer: Option<Card>,
    voted: bool,
}

impl<J: Which> Part<J> {
    /// Asks for the address once the store is held, or for a vote, which is stored.
    fn play<S: ConfStore, R: Wait + Clock>(
        &mut self,
        rt: &R,
        cell: &KnownCell<J, S>,
        flags: &Flags,
    ) {
        if !self.asks_the_address {
            self.voted = cell.vote(rt, &mut self.seat, 1) == Ok(Some(1));
        } else if wait_for(rt, &flags.held) {
            self.answer = cell.address(&mut self.seat);
            flags.told.store(1, Ordering::SeqCst);
        }
    }
}

/// A thread's part.
fn new_part<J: Which>(seat: KnownSeat<J>, asks_the_address: bool) -> Part<J> {
    Part {
        seat,
        asks_the_address,
        answer: None,
        voted: false,
    }
}

/// Plays both parts, each in a thread of its own.
fn play_in_threads<'a, J: Which + Send + Sync, R: Threads + Wait + Clock + Sync>(
    rt: &'a R,
    cell: &KnownCell<J, HeldFile<'a, R>>,
    flags: &'a Flags,
    parts: &mut [Part<J>],
) {
    thread::for_each_mut(rt, parts, 2, &|_, part| part.play(rt, cell, flags));
}

/// One seat asks for a vote, whose store is held; the other one asks for the address. Gives the store.
fn ask_while_held<'a, J: Which + Send + Sync, R: Threads + Wait + Clock + Abort + Sync>(
    rt: &'a R,
    alloc: Global,
    flags: &'a Flags,
    shared: Shared<HeldFile<'a, R>>,
) -> MemoryStore
    requires { (shared.0.value.id ≡ J.cell) × (shared.1.cell ≡ J.cell) }
{
    let (cell, seat) = KnownCell::<J, HeldFile<'a, R>>::of(alloc, shared);
    let Ok((one, two)) = cell.split(alloc, seat) else {
        panic!(rt; "not split")
    };
    let Ok(mut parts) = vec![in alloc; new_part(one, false), new_part(two, true)] else {
        panic!(rt; "no memory")
    };
    play_in_threads(rt, &cell, flags, parts.as_mut_slice());
    let (Some(two), Some(one)) = (parts.pop(), parts.pop()) else {
        panic!(rt; "a thread is gone")
    };
    assert!(rt; two.answer == Some(card(0, 6379)));
    assert!(rt; one.voted);
    let whole = cell.join(alloc, one.seat, two.seat);
    let Ok(store) = cell.close(alloc, whole) else {
        panic!(rt; "not closed")
    };
    store.file
}

/// How often the store is held.
const ROUNDS: u32 = 100;

/// Holds a store of a Sentinel of its own until the address was told by the other seat; how many stores were refused.
fn hold_a_store<R: Threads + Wait + Clock + Abort + Sync>(rt: &R, alloc: Global) -> u64 {
    let flags = Flags {
        held: AtomicU64::new(0),
        told: AtomicU64::new(0),
    };
    let Some(file) = file(alloc) else {
        panic!(rt; "no memory")
    };
    let held = HeldFile {
        file,
        rt,
        flags: &flags,
    };
    let Some(shared) = shared(alloc, held, 2) else {
        panic!(rt; "no cell")
    };
    ask_while_held::<Brand, R>(rt, alloc, &flags, shared).failures()
}

#[test]
fn address_while_storing(rt: HostRuntime) {
    for round in 0..ROUNDS {
        assert!(rt; hold_a_store(&rt, rt.alloc()) == 0, "round {round}");
    }
}
