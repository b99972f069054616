//! A cell and the seats that are known to be of it, for tests: a thread may act by its seat without a further
//! condition.

ghost use Rattle.std.specs.Prelude.{◌≡◌, []};
ghost use Rattle.ballot_law.specs.Limits.{IsWithinEvent};

use super::calls::{request, vote_in};
use super::files::Shared;
use ballot_law::{Card, Input, Output};
use port_sessions::Session;
use sentinel_cell::{ActFault, CellFault, Reply, Seat, SharedSentinel};
use sentinel_conf::ConfStore;
use sentinel_outbox::Outbox;
use std::alloc::Global;
use std::marker::{Brand, PhantomData};
use std::sync::Wait;

/// Which cell it is. Only proofs read it.
pub(crate) trait Which {
    ghost use Rattle.atomic_table.specs.Seated.{TableId};

    ghost cell: { TableId };
}

impl Which for Brand {
    ghost use Rattle.std.specs.Prelude.{[]};

    ghost cell = { record { words = 0; slots = 0; views_name = 0; atom = 0; block = 0; offset = 0; slot_names = [] } };
}

/// A cell.
#[derive(Drop)]
pub(crate) struct KnownCell<J: Which, S: ConfStore> {
    cell: Box<SharedSentinel<S>>,
    of: PhantomData<J>,
    ghost is: { cell.value.id ≡ J.cell },
}

/// A seat of that cell, with an outbox of its own.
#[derive(Drop)]
pub(crate) struct KnownSeat<J: Which> {
    seat: Seat,
    outbox: Outbox,
    of: PhantomData<J>,
    ghost is: { seat.cell ≡ J.cell },
    ghost held: { outbox.held ≡ [] },
}

/// A seat with a new outbox.
fn with_outbox<J: Which>(alloc: Global, seat: Seat) -> KnownSeat<J>
    requires { seat.cell ≡ J.cell }
{
    KnownSeat {
        seat,
        outbox: Outbox::new(alloc),
        of: PhantomData,
    }
}

impl<J: Which> KnownSeat<J> {
    /// What its last call showed.
    pub(crate) fn outputs(&self) -> &[Output] {
        self.outbox.outputs()
    }

    /// Its part of the share.
    pub(crate) fn share(&self) -> u64 {
        self.seat.share()
    }
}

impl<J: Which, S: ConfStore> KnownCell<J, S> {
    /// A cell with its first seat.
    pub(crate) fn of(alloc: Global, shared: Shared<S>) -> (KnownCell<J, S>, KnownSeat<J>)
        requires { (shared.0.value.id ≡ J.cell) × (shared.1.cell ≡ J.cell) }
    {
        let (cell, seat) = shared;
        let known = KnownCell {
            cell,
            of: PhantomData,
        };
        (known, with_outbox(alloc, seat))
    }

    /// One call of a seat. What the seat's last call showed is dropped before.
    pub(crate) fn act<R: Wait>(
        &self,
        rt: &R,
        seat: &mut KnownSeat<J>,
        input: &Input,
    ) -> Result<Reply, ActFault>
        requires { IsWithinEvent input.now.event }
    {
        seat.outbox.clear();
        self.cell.act(rt, &mut seat.seat, input, &mut seat.outbox)
    }

    /// Asks for the vote of an epoch by a seat: the epoch of the vote that it is answered, if that is the one output.
    pub(crate) fn vote<R: Wait>(
        &self,
        rt: &R,
        seat: &mut KnownSeat<J>,
        epoch: u32,
    ) -> Result<Option<u64>, ActFault> {
        self.act(rt, seat, &request(epoch))?;
        Ok(vote_in(seat.outputs()))
    }

    /// The stored configuration of the master.
    pub(crate) fn address(&self, seat: &mut KnownSeat<J>) -> Option<Card> {
        let (epoch, addr) = self.cell.address(&mut seat.seat, 0)?;
        Some(Card { epoch, addr })
    }

    /// Whether a new session of the seat answers these bytes by those, at clock 0.
    pub(crate) fn answers<R: Wait>(
        &self,
        rt: &R,
        alloc: Global,
        seat: &mut KnownSeat<J>,
        bytes: &[u8],
        answer: &[u8],
    ) -> bool {
        let mut session = Session::new(alloc);
        let heard = session.received(rt, &self.cell, &mut seat.seat, 0, bytes);
        heard.is_ok() && session.unsent() == answer
    }

    /// Cuts a seat in two.
    pub(crate) fn split(
        &self,
        alloc: Global,
        seat: KnownSeat<J>,
    ) -> Result<(KnownSeat<J>, KnownSeat<J>), (KnownSeat<J>, CellFault)> {
        match self.cell.split(seat.seat) {
            Ok((one, two)) => Ok((with_outbox(alloc, one), with_outbox(alloc, two))),
            Err((seat, fault)) => Err((with_outbox(alloc, seat), fault)),
        }
    }

    /// Makes two seats one.
    pub(crate) fn join(&self, alloc: Global, one: KnownSeat<J>, two: KnownSeat<J>) -> KnownSeat<J> {
        with_outbox(alloc, self.cell.join(one.seat, two.seat))
    }
}

impl<J: Which, S: ConfStore + Drop> KnownCell<J, S> {
    /// Ends the sharing. Gives the store, or what came back; nothing where there is no memory to keep that.
    pub(crate) fn close(
        self,
        alloc: Global,
        seat: KnownSeat<J>,
    ) -> Result<S, Option<(KnownCell<J, S>, KnownSeat<J>, CellFault)>> {
        match Box::into_inner(self.cell).close(seat.seat) {
            Ok(keeper) => Ok(keeper.store),
            Err((cell, seat, fault)) => {
                let Ok(cell) = Box::new(alloc, cell) else {
                    return Err(None);
                };
                let (known, seat) = KnownCell::of(alloc, (cell, seat));
                Err(Some((known, seat, fault)))
            }
        }
    }
}
