//! A shared Sentinel that was just made.

ghost use Rattle.std.specs.Prelude.{◌≡◌, ◌⊎◌, ◌<◌, ◌≤◌, ◌-◌, ◌^◌, [], IfErr, IfOk};
ghost use Rattle.sentinel_cell.specs.declared.fault.CellFault.TheVariants.{NoMemory, SeatCount};
ghost use Rattle.sentinel_cell.specs.declared.shared.TheConstants.{MOST_SEATS};
ghost use Rattle.sentinel_cell.specs.Histories.{opened};
ghost use Rattle.sentinel_outbox.specs.declared.phase.Phase.TheVariants.{Ready};

use sentinel_cell::{CellFault, Keeper, Seat, SharedSentinel};
use sentinel_conf::ConfStore;
use sentinel_core::Sentinel;
use std::alloc::Global;

/// A Sentinel that threads are to share, with its first seat, by which nothing was called yet.
#[derive(Drop)]
pub struct FreshSentinel<S: ConfStore> {
    pub(crate) cell: SharedSentinel<S>,
    pub(crate) seat: Seat,
    ghost own: { seat.cell ≡ cell.id },
    ghost unused: { seat.view.front ≡ [] },
}

impl<S: ConfStore> FreshSentinel<S> {
    /// A cell with its first seat, as `SharedSentinel::new` makes them: the seat has the whole share of `seats`.
    ///
    /// The Sentinel and its store come back unchanged at `SeatCount`, where no seat is asked for or more than 1,024,
    /// and at `NoMemory`.
    pub fn new(
        alloc: Global,
        sentinel: Sentinel,
        store: S,
        seats: u64,
    ) -> Result<FreshSentinel<S>, (Keeper<S>, CellFault)>
        requires ready { sentinel.phase ≡ Ready }
        requires room { S.failure_count store < 2 ^ 64 - 1 }
        ensures start { IfOk result (λ fresh. fresh.cell.start ≡ opened S.held S.failure_count (record { sentinel = sentinel; store = store })) }
        ensures seats { IfOk result (λ fresh. (fresh.cell.seats ≡ seats) × (0 < seats) × (seats ≤ MOST_SEATS)) }
        ensures share { IfOk result (λ fresh. fresh.seat.view.share ≡ seats) }
        ensures back { IfErr result (λ r. (r.0.sentinel ≡ sentinel) × (r.0.store ≡ store)) }
        ensures fault { IfErr result (λ r. ((r.1 ≡ SeatCount) × ((seats ≡ 0) ⊎ (MOST_SEATS < seats)))
            ⊎ ((r.1 ≡ NoMemory) × (0 < seats) × (seats ≤ MOST_SEATS))) }
    {
        let (cell, seat) = SharedSentinel::new(alloc, sentinel, store, seats)?;
        Ok(FreshSentinel { cell, seat })
    }
}
