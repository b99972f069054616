//! Two seats of two at one Sentinel, whose store refuses its second write.

ghost use Rattle.std.specs.Prelude.{◌≡◌};

use super::calls::card;
use super::files::{Shared, file, has_line, shared};
use super::known_cell::{KnownCell, KnownSeat, Which};
use sentinel_cell::{ActFault, CellFault};
use sentinel_conf::{ConfStore, MemoryStore};
use std::alloc::Global;
use std::marker::Brand;
use std::process::Abort;
use std::sync::Wait;

/// The cell of one test.
type Cell<J> = KnownCell<J, MemoryStore>;

/// A seat with the share 1 can't be cut; it comes back.
fn keep_whole<J: Which, R: Abort>(
    rt: &R,
    alloc: Global,
    cell: &Cell<J>,
    seat: KnownSeat<J>,
) -> KnownSeat<J> {
    let Err((seat, fault)) = cell.split(alloc, seat) else {
        panic!(rt; "a third seat")
    };
    assert_eq!(rt; fault, CellFault::NoSeatLeft);
    seat
}

/// A seat with half of the share can't close; the cell and the seat come back.
fn keep_open<J: Which, R: Abort>(
    rt: &R,
    alloc: Global,
    cell: Cell<J>,
    seat: KnownSeat<J>,
) -> (Cell<J>, KnownSeat<J>) {
    assert_eq!(rt; seat.share(), 1);
    let Err(Some((cell, seat, fault))) = cell.close(alloc, seat) else {
        panic!(rt; "closed by half the share")
    };
    assert_eq!(rt; fault, CellFault::SeatsOut);
    (cell, seat)
}

/// One seat is answered a vote; the other one is told the address.
fn vote_and_address<J: Which, R: Wait + Abort>(
    rt: &R,
    cell: &Cell<J>,
    one: &mut KnownSeat<J>,
    two: &mut KnownSeat<J>,
) {
    assert!(rt; cell.vote(rt, one, 1) == Ok(Some(1)));
    assert!(rt; cell.address(two) == Some(card(0, 6379)));
}

/// The store refuses the next vote: no output is shown, then each call is halted, and the address is still told.
fn refused_and_halted<J: Which, R: Wait + Abort>(
    rt: &R,
    cell: &Cell<J>,
    one: &mut KnownSeat<J>,
    two: &mut KnownSeat<J>,
) {
    assert!(rt; cell.vote(rt, one, 2) == Err(ActFault::StoreRefused));
    assert!(rt; one.outputs().is_empty());
    for _ in 0..2 {
        assert!(rt; cell.vote(rt, two, 3) == Err(ActFault::Halted));
        assert!(rt; two.outputs().is_empty());
    }
    assert!(rt; cell.vote(rt, one, 4) == Err(ActFault::Halted));
    assert!(rt; cell.address(one) == Some(card(0, 6379)));
    assert!(rt; cell.address(two) == Some(card(0, 6379)));
}

/// Cuts a cell in two seats, shares it until its store refuses, joins them and closes it. Gives the store.
fn share_until_halted<J: Which, R: Wait + Abort>(
    rt: &R,
    alloc: Global,
    shared: Shared<MemoryStore>,
) -> MemoryStore
    requires { (shared.0.value.id ≡ J.cell) × (shared.1.cell ≡ J.cell) }
{
    let (cell, seat) = Cell::<J>::of(alloc, shared);
    let Ok((mut one, mut two)) = cell.split(alloc, seat) else {
        panic!(rt; "not split")
    };
    vote_and_address(rt, &cell, &mut one, &mut two);
    refused_and_halted(rt, &cell, &mut one, &mut two);
    let one = keep_whole(rt, alloc, &cell, one);
    let (cell, one) = keep_open(rt, alloc, cell, one);
    let whole = cell.join(alloc, one, two);
    let Ok(store) = cell.close(alloc, whole) else {
        panic!(rt; "not closed")
    };
    store
}

/// A shared Sentinel halts where its store refuses its second write; the store then holds the text with the second vote
/// or the one before.
fn halt_and_leave<R: Wait + Abort>(rt: &R, alloc: Global, new: bool, line: &[u8]) {
    let Some(mut file) = file(alloc) else {
        panic!(rt; "no memory")
    };
    file.refuse_after(1, new);
    let Some(shared) = shared(alloc, file, 2) else {
        panic!(rt; "no cell")
    };
    let store = share_until_halted::<Brand, _>(rt, alloc, shared);
    assert!(rt; has_line(store.text(), line));
    assert_eq!(rt; store.failures(), 1);
}

#[test]
fn a_shared_sentinel_halts_where_its_store_refuses(rt: HostRuntime) {
    halt_and_leave(&rt, rt.alloc(), false, b"sentinel leader-epoch mymaster 1");
    halt_and_leave(&rt, rt.alloc(), true, b"sentinel leader-epoch mymaster 2");
}
