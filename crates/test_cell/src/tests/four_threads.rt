//! Four threads with a seat each: all their calls are answered, and the Sentinel comes back with its file.

ghost use Rattle.std.specs.Prelude.{◌≡◌};

use super::files::{Shared, file, has_line, shared};
use super::known_cell::{KnownCell, KnownSeat, Which};
use sentinel_conf::MemoryStore;
use std::alloc::Global;
use std::marker::Brand;
use std::process::Abort;
use std::sync::Wait;
use std::thread::{self, Threads};

/// How many votes each thread asks for.
const VOTES: u32 = 500;

/// A thread that asks for the votes of every fourth epoch.
#[derive(Drop)]
struct Asker<J: Which> {
    seat: KnownSeat<J>,
    first: u32,
    answered: u32,
}

/// A thread that has asked for none yet.
fn new_asker<J: Which>(seat: KnownSeat<J>, first: u32) -> Asker<J> {
    Asker {
        seat,
        first,
        answered: 0,
    }
}

impl<J: Which> Asker<J> {
    /// Asks for all its votes, and counts the answers that name the epoch or, where other threads were ahead, a later
    /// one.
    fn ask_all<R: Wait>(&mut self, rt: &R, cell: &KnownCell<J, MemoryStore>) {
        for step in 0..VOTES {
            let epoch = self.first.saturating_add(4 * step);
            if let Ok(Some(voted)) = cell.vote(rt, &mut self.seat, epoch) {
                if voted >= u64::from(epoch) {
                    self.answered = self.answered.saturating_add(1);
                }
            }
        }
    }
}

/// Cuts a seat in four, with a thread for each.
fn askers<J: Which>(
    alloc: Global,
    cell: &KnownCell<J, MemoryStore>,
    seat: KnownSeat<J>,
) -> Option<Vec<Asker<J>>> {
    let (one, three) = cell.split(alloc, seat).ok()?;
    let (one, two) = cell.split(alloc, one).ok()?;
    let (three, four) = cell.split(alloc, three).ok()?;
    vec![in alloc;
        new_asker(one, 1),
        new_asker(two, 2),
        new_asker(three, 3),
        new_asker(four, 4),
    ]
    .ok()
}

/// Runs each asker in a thread of its own.
fn ask_in_threads<J: Which + Send + Sync, R: Threads + Wait + Sync>(
    rt: &R,
    cell: &KnownCell<J, MemoryStore>,
    askers: &mut [Asker<J>],
) {
    thread::for_each_mut(rt, askers, 4, &|_, asker| asker.ask_all(rt, cell));
}

/// Makes the seats of all threads one; none where there are no threads, or one wasn't answered all.
fn joined<J: Which>(
    alloc: Global,
    cell: &KnownCell<J, MemoryStore>,
    askers: Vec<Asker<J>>,
) -> Option<KnownSeat<J>> {
    let mut whole = None;
    for asker in askers {
        if asker.answered != VOTES {
            return None;
        }
        whole = match whole {
            Some(seat) => Some(cell.join(alloc, seat, asker.seat)),
            None => Some(asker.seat),
        };
    }
    whole
}

/// Four threads ask for their votes; then the seats are joined and the cell is closed. Gives the store.
fn share_among_four<J: Which + Send + Sync, R: Threads + Wait + Abort + Sync>(
    rt: &R,
    alloc: Global,
    shared: Shared<MemoryStore>,
) -> MemoryStore
    requires { (shared.0.value.id ≡ J.cell) × (shared.1.cell ≡ J.cell) }
{
    let (cell, seat) = KnownCell::<J, MemoryStore>::of(alloc, shared);
    let Some(mut askers) = askers(alloc, &cell, seat) else {
        panic!(rt; "not split")
    };
    ask_in_threads(rt, &cell, askers.as_mut_slice());
    let Some(whole) = joined(alloc, &cell, askers) else {
        panic!(rt; "a call wasn't answered")
    };
    let Ok(store) = cell.close(alloc, whole) else {
        panic!(rt; "not closed")
    };
    store
}

#[test]
fn four_threads_ask_for_votes(rt: HostRuntime) {
    let Some(file) = file(rt.alloc()) else {
        panic!(rt; "no memory")
    };
    let Some(shared) = shared(rt.alloc(), file, 4) else {
        panic!(rt; "no cell")
    };
    let store = share_among_four::<Brand, _>(&rt, rt.alloc(), shared);
    assert!(rt; has_line(store.text(), b"sentinel leader-epoch mymaster 2000"));
}
