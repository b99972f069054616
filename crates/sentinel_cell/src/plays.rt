//! The rule of the table, and what each step tells.

use crate::keeper::Keeper;
use crate::view::View;
use atomic_table::{Join, Play, Split, TableRule};
use sentinel_conf::ConfStore;
use std::marker::{Brand, PhantomData};

/// What a cell is made with. The table's rule is told it once, as it was then.
pub struct Start<S> {
    pub seats: u64,
    pub keeper: Keeper<S>,
}

/// The world that a history begins at. Only proofs read it.
pub trait Origin {
    ghost use Rattle.sentinel_cell.specs.Histories.{World};

    ghost start: { World };
}

impl Origin for Brand {
    ghost use Rattle.sentinel_cell.specs.Histories.{no_world};

    ghost start = { no_world };
}

/// The entry that a step announces. Only proofs read it.
pub trait Flight {
    ghost use Rattle.sentinel_cell.specs.declared.entry.Entry.{Entry};

    ghost entry: { Entry };
}

impl Flight for Brand {
    ghost use Rattle.sentinel_cell.specs.Histories.{no_entry};

    ghost entry = { no_entry };
}

/// The rule: seats wait in a line, and their calls have one history.
pub struct Line;

impl<S: ConfStore> TableRule<Option<Keeper<S>>, View, Start<S>> for Line {
    ghost use Rattle.sentinel_cell.specs.declared.view.Stage.TheVariants.{Opening};
    ghost use Rattle.sentinel_cell.specs.Histories.{Keeps, opened};
    ghost use Rattle.sentinel_cell.specs.Turns.{first_view_at};

    ghost holds = { λ key. Keeps S.held S.failure_count (opened S.held S.failure_count key.keeper) key.seats };

    ghost first = { λ key. first_view_at Opening key.seats };
}

/// The first seat takes the empty slot of a new table.
pub struct Enter;

impl<S> Play<Option<Keeper<S>>, View> for Enter {
    ghost use Rattle.std.specs.Prelude.{None};
    ghost use Rattle.sentinel_cell.specs.Turns.{Enters};

    ghost then = { Enters None };
}

/// It gives the slot back, filled.
pub struct Fill;

impl<C> Play<C, View> for Fill {
    ghost use Rattle.sentinel_cell.specs.Turns.{Fills};

    ghost then = { Fills };
}

/// A seat looks at the ticket word.
pub struct Look;

impl<C> Play<C, View> for Look {
    ghost use Rattle.sentinel_cell.specs.Turns.{Sits};

    ghost then = { Sits };
}

/// It draws a ticket.
pub struct Draw;

impl<C> Play<C, View> for Draw {
    ghost use Rattle.sentinel_cell.specs.Turns.{Draws};

    ghost then = { Draws };
}

/// It takes the turn, with the slot, where its ticket is served.
pub struct Take<J>(PhantomData<J>);

impl<J: Origin, S: ConfStore> Play<Option<Keeper<S>>, View> for Take<J> {
    ghost use Rattle.sentinel_cell.specs.Histories.{IsLegal, Fits};
    ghost use Rattle.sentinel_cell.specs.Turns.{Turns};

    ghost then = { Turns (IsLegal J.start) (Fits S.held S.failure_count J.start) };
}

/// It announces its entry by the word of a master.
pub struct Raise<F>(PhantomData<F>);

impl<C, F: Flight> Play<C, View> for Raise<F> {
    ghost use Rattle.sentinel_cell.specs.Turns.{Raises};

    ghost then = { Raises F.entry };
}

/// It passes the turn, with the slot; the entry joins the history.
pub struct Pass<J>(PhantomData<J>);

impl<C, J: Origin> Play<C, View> for Pass<J> {
    ghost use Rattle.sentinel_cell.specs.Histories.{stored_at};
    ghost use Rattle.sentinel_cell.specs.Turns.{Passes};

    ghost then = { Passes (stored_at J.start) };
}

/// A seat reads the word of a master.
pub struct Tell<J>(PhantomData<J>);

impl<C, J: Origin> Play<C, View> for Tell<J> {
    ghost use Rattle.sentinel_cell.specs.Histories.{IsLegal, stored_at};
    ghost use Rattle.sentinel_cell.specs.Turns.{Tells};
    ghost use Rattle.sentinel_rules.specs.Plans.{addr_at};

    ghost then = { Tells (IsLegal J.start) (stored_at J.start) (addr_at J.start.plan) };
}

/// It is given the next number.
pub struct Name;

impl<C> Play<C, View> for Name {
    ghost use Rattle.sentinel_cell.specs.Turns.{Names};

    ghost then = { Names };
}

/// It learns how two fronts that were joined lie in the history.
pub struct Settle;

impl<C> Play<C, View> for Settle {
    ghost use Rattle.sentinel_cell.specs.Turns.{Settles};

    ghost then = { Settles };
}

/// The second seat gets the smaller half of the share, and the newest number.
pub struct Halve;

impl Split<View> for Halve {
    ghost use Rattle.sentinel_cell.specs.Turns.{left_half, right_half};

    ghost left = { left_half };

    ghost right = { right_half };
}

/// The longer front, both seats' numbers, answers and shares.
pub struct Merge;

impl Join<View> for Merge {
    ghost use Rattle.sentinel_cell.specs.Turns.{merged, spent};

    ghost both = { merged };

    ghost spent = { spent };
}
