//! A call of a shared Sentinel that is refused memory, and is made again: it has to show nothing, and the second call
//! has to go well; a cell that isn't made hands back what it was to be made of. Nothing is refused when the tests run
//! as they are; `checks/refused_memory` runs them with each allocation refused in turn.

ghost use Rattle.std.specs.Prelude.{◌≡◌, IfOk};
ghost use Rattle.sentinel_outbox.specs.declared.phase.Phase.TheVariants.{Ready};

use super::calls::{card, request, vote_in};
use super::files::{Shared, file, ready, shared};
use super::known_cell::{KnownCell, Which};
use sentinel_cell::{ActFault, CellFault, Keeper, Reply, Seat, SharedSentinel};
use sentinel_conf::MemoryStore;
use sentinel_core::Sentinel;
use std::alloc::Global;
use std::marker::Brand;
use std::sync::Wait;

/// Whether a request for a vote is answered, once more where it lacked memory, and the address is told behind it; None
/// where the store lacked it.
fn is_answered_again<J: Which, R: Wait>(
    rt: &R,
    alloc: Global,
    shared: Shared<MemoryStore>,
) -> Option<bool>
    requires { (shared.0.value.id ≡ J.cell) × (shared.1.cell ≡ J.cell) }
{
    let (cell, mut seat) = KnownCell::<J, MemoryStore>::of(alloc, shared);
    let reply = match cell.act(rt, &mut seat, &request(1)) {
        Err(ActFault::NoMemory) => {
            if !seat.outputs().is_empty() {
                return Some(false);
            }
            cell.act(rt, &mut seat, &request(1))
        }
        Err(ActFault::StoreRefused) => return None,
        reply => reply,
    };
    let first_alone = Reply {
        first: 0,
        count: 1,
        entry: 0,
    };
    let is_answered = reply == Ok(first_alone) && vote_in(seat.outputs()) == Some(1);
    Some(is_answered && cell.address(&mut seat) == Some(card(0, 6379)))
}

/// The same of a Sentinel that begins anew.
fn is_answered<R: Wait>(rt: &R, alloc: Global) -> Option<bool> {
    let shared = shared(alloc, file(alloc)?, 2)?;
    is_answered_again::<Brand, R>(rt, alloc, shared)
}

#[test]
fn refused_memory_shows_nothing_and_the_next_call_is_answered(rt: HostRuntime) {
    let answered = match is_answered(&rt, rt.alloc()) {
        None => is_answered(&rt, rt.alloc()),
        answered => answered,
    };
    assert!(rt; answered == Some(true));
}

/// A cell with its first seat.
type Cell = (SharedSentinel<MemoryStore>, Seat);

/// A cell of what a refusal handed back.
fn of_keeper(alloc: Global, keeper: Keeper<MemoryStore>) -> Result<Cell, CellFault>
    requires { (keeper.sentinel.phase ≡ Ready) × (keeper.store.failed ≡ 0) }
    ensures { IfOk result (λ r. r.1.cell ≡ r.0.id) }
{
    let Keeper { sentinel, store } = keeper;
    match SharedSentinel::new(alloc, sentinel, store, 2) {
        Ok(made) => Ok(made),
        Err((_, fault)) => Err(fault),
    }
}

/// A cell of this Sentinel and its file, made once more of what the refusal hands back.
fn made_again(alloc: Global, sentinel: Sentinel, file: MemoryStore) -> Result<Cell, CellFault>
    requires { (sentinel.phase ≡ Ready) × (file.failed ≡ 0) }
    ensures { IfOk result (λ r. r.1.cell ≡ r.0.id) }
{
    match SharedSentinel::new(alloc, sentinel, file, 2) {
        Ok(made) => Ok(made),
        Err((keeper, _)) => of_keeper(alloc, keeper),
    }
}

/// Whether a cell that was made so answers as any other.
fn is_made_again<R: Wait>(rt: &R, alloc: Global) -> Option<bool> {
    let (sentinel, file) = (ready(alloc)?, file(alloc)?);
    let Ok((cell, seat)) = made_again(alloc, sentinel, file) else {
        return Some(false);
    };
    let cell = Box::new(alloc, cell).ok()?;
    is_answered_again::<Brand, R>(rt, alloc, (cell, seat))
}

#[test]
fn refused_memory_hands_back_what_a_cell_is_made_of(rt: HostRuntime) {
    let made = match is_made_again(&rt, rt.alloc()) {
        None => is_made_again(&rt, rt.alloc()),
        made => made,
    };
    assert!(rt; made == Some(true));
}
