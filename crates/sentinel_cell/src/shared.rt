//! The cell as its callers see it.

ghost use Rattle.std.specs.Prelude.{◌≡◌, ◌⊎◌, ℕ, ◌+◌, ◌-◌, ◌/◌, ◌∷◌, [], ◌++◌, ◌<◌, ◌≤◌, ◌^◌, Some, None, IfSome, IfNone, IfOk, IfErr, OnOk, OnErr, MatchResult, length, drop, slice_index};
ghost use Rattle.ballot_law.specs.Ballots.{card_of};
ghost use Rattle.ballot_law.specs.Limits.{IsWithinEvent};
ghost use Rattle.sentinel_rules.specs.Plans.{addr_at, master_count, roster_of};
ghost use Rattle.sentinel_outbox.specs.declared.phase.Phase.TheVariants.{Ready};
ghost use Rattle.sentinel_outbox.specs.Outboxes.{room_of_sentinel};
ghost use Rattle.sentinel_cell.specs.declared.shared.TheConstants.{MOST_SEATS};
ghost use Rattle.sentinel_cell.specs.declared.fault.CellFault.TheVariants.{NoMemory, NoSeatLeft, SeatsOut, SeatCount};
ghost use Rattle.sentinel_cell.specs.Calls.{Begins, Has, calls_by, AreOf, AreUnder};
ghost use Rattle.sentinel_cell.specs.Histories.{IsLegal, IsLeft, opened, replay, stored_at};
ghost use Rattle.sentinel_cell.specs.Turns.{answered, first_view, unpacked, AreGiven, IsFresh};
ghost use Rattle.sentinel_cell.specs.Standing.{standing, Acted, answer_of};
ghost use Rattle.sentinel_cell.specs.Words.{card_with};

use crate::entry::Outcome;
use crate::fault::{ActFault, CellFault, Reply};
use crate::keeper::{Keeper, stored_word};
use crate::observer::{Nobody, Observer};
use crate::place::{Place, TicketsSpent, act_at, fill, join_at, read_word, split_at};
use crate::plays::{Line, Start};
use crate::view::View;
use crate::word::card_in;
use atomic_table::{Badge, Table};
use ballot_law::{Addr, Card, Input, Roster};
use sentinel_conf::ConfStore;
use sentinel_core::Sentinel;
use sentinel_outbox::{Outbox, Room};
use std::alloc::{AllocError, Global};
use std::marker::{Brand, Model};
use std::mem;
use std::sync::Wait;

/// The most seats that a cell is made for.
pub const MOST_SEATS: u64 = 1024;

/// That number of seats. The definitions and the code cite it by name.
pub fn law_seats()
    ensures { MOST_SEATS ≡ 1024 }
{}

/// The right to act, for one thread at a time. Contracts see of which cell it is, and its view.
#[derive(Drop)]
pub struct Seat {
    badge: Badge<View>,
    share: u64,
}

impl Model for Seat {
    ghost use Rattle.sentinel_cell.specs.Standing.{Standing};

    ghost Value = { Standing };

    ghost use Rattle.std.specs.Prelude.{◌≡◌, ◌∷◌, []};
    ghost use Rattle.sentinel_cell.specs.Standing.{standing, head_view, AtRest};

    ghost view = { λ s. standing s.badge.table_id (head_view s.badge.views) };

    ghost invariant = { λ s. (s.badge.views ≡ head_view s.badge.views ∷ []) × AtRest (head_view s.badge.views) × ((head_view s.badge.views).share ≡ s.share) };
}

impl Seat {
    /// Its part of the share; `split` cuts it in two, and only a seat with the whole of it closes the cell.
    pub fn share(&self) -> u64
        ensures { result ≡ self.now.view.share }
    {
        self.share
    }
}

/// A Sentinel and its store, which threads share.
///
/// Contracts see which cell it is, the world that its history begins at, and how many seats there may be at once. The
/// calls of `act` take turns, so they have one history that a single thread could have made; a call of `address` waits
/// for nobody.
#[derive(Drop)]
pub struct SharedSentinel<S: ConfStore> {
    table: Table<Option<Keeper<S>>, View, Start<S>, Line, Global>,
    seats: u64,
    roster: Roster,
    room: Room,
}

impl<S: ConfStore> Model for SharedSentinel<S> {
    ghost use Rattle.sentinel_cell.specs.Standing.{Cell};

    ghost Value = { Cell };

    ghost use Rattle.sentinel_cell.specs.Histories.{opened};
    ghost use Rattle.sentinel_cell.specs.Standing.{IsMade};

    ghost view = { λ c. record {
      id = c.table.shared.table_id;
      start = opened S.held S.failure_count c.table.shared.key.keeper;
      seats = c.seats;
    } };

    ghost invariant = { λ c. IsMade c.table.shared.table_id c.table.shared.key.keeper.sentinel.plan c.table.shared.key.seats c.seats c.roster c.room };
}

/// The words of a new cell.
fn first_words(alloc: Global, sentinel: &Sentinel) -> Result<Vec<u64>, AllocError>
    requires { sentinel.now.phase ≡ Ready }
    ensures wide { IfOk result (λ words. length words.items ≡ master_count sentinel.now.plan + 2) }
    ensures zeros { IfOk result (λ words. (slice_index words.items 0 ≡ 0) × (slice_index words.items 1 ≡ 0)) }
    ensures cards { IfOk result (λ words. (m : ℕ) → m < master_count sentinel.now.plan
        → unpacked (addr_at sentinel.now.plan) m (slice_index words.items (m + 2)) ≡ card_of sentinel.now.stored m) }
{
    sentinel.is_whole();
    let count = sentinel.roster().masters().len() as u16;
    let mut words = Vec::with_capacity(alloc, count as usize + 2)?;
    words.push_reserved(0);
    words.push_reserved(0);
    for m in 0..count {
        words.push_reserved(stored_word(sentinel, m));
    }
    Ok(words)
}

impl<S: ConfStore> SharedSentinel<S> {
    /// A cell with one seat, which has the whole share of `seats`. The Sentinel is ready; the history begins at it and
    /// its store as they are now.
    ///
    /// Both come back unchanged at `SeatCount`, where no seat is asked for or more than 1,024, and at `NoMemory`.
    pub fn new(
        alloc: Global,
        sentinel: Sentinel,
        store: S,
        seats: u64,
    ) -> Result<(SharedSentinel<S>, Seat), (Keeper<S>, CellFault)>
        requires ready { sentinel.phase ≡ Ready }
        requires room { S.failure_count store < 2 ^ 64 - 1 }
        ensures start { IfOk result (λ r. r.0.start ≡ opened S.held S.failure_count (record { sentinel = sentinel; store = store })) }
        ensures seats { IfOk result (λ r. (r.0.seats ≡ seats) × (0 < seats) × (seats ≤ MOST_SEATS)) }
        ensures seat { IfOk result (λ r. r.1 ≡ standing r.0.id (first_view seats)) }
        ensures back { IfErr result (λ r. (r.0.sentinel ≡ sentinel) × (r.0.store ≡ store)) }
        ensures fault { IfErr result (λ r. ((r.1 ≡ SeatCount) × ((seats ≡ 0) ⊎ (MOST_SEATS < seats))) ⊎ ((r.1 ≡ NoMemory) × (0 < seats) × (seats ≤ MOST_SEATS))) }
    {
        sentinel.is_whole();
        let keeper = Keeper { sentinel, store };
        if seats == 0 || seats > MOST_SEATS {
            return Err((keeper, CellFault::SeatCount));
        }
        let Ok(roster) = keeper.sentinel.roster().copy(alloc) else {
            return Err((keeper, CellFault::NoMemory));
        };
        let Ok(words) = first_words(alloc, &keeper.sentinel) else {
            return Err((keeper, CellFault::NoMemory));
        };
        let room = keeper.sentinel.room();
        let start = Start { seats, keeper };
        let made = Table::vacant(alloc, words.as_slice(), 1, &start);
        let Start { seats: _, keeper } = start;
        let Ok((table, mut place)) = made else {
            return Err((keeper, CellFault::NoMemory));
        };
        fill(&table.shared, &mut place, keeper);
        let badge = place.into_badge();
        Ok((
            SharedSentinel {
                table,
                seats,
                roster,
                room,
            },
            Seat {
                badge,
                share: seats,
            },
        ))
    }

    /// Cuts a seat in two. The first keeps its numbers and the greater half of the share. The second has seen as much
    /// and got the same answers, and its calls will stand under a number of its own: one above all that the seat knew
    /// to be given out, which no call has that the seat has seen. `join` tells that no other seat has it.
    ///
    /// `NoSeatLeft` if, and only if, the share is 1; the seat comes back. No memory is taken.
    pub fn split(&self, seat: Seat) -> Result<(Seat, Seat), (Seat, CellFault)>
        requires own { seat.cell ≡ self.now.id }
        ensures cells { IfOk result (λ r. (r.0.cell ≡ seat.cell) × (r.1.cell ≡ seat.cell)) }
        ensures first { IfOk result (λ r. (r.0.view.front ≡ seat.view.front) × (r.0.view.numbers ≡ seat.view.numbers)
            × (r.0.view.answers ≡ seat.view.answers) × (r.0.view.share ≡ seat.view.share - seat.view.share / 2)) }
        ensures second { IfOk result (λ r. (r.1.view.front ≡ seat.view.front) × (r.1.view.answers ≡ seat.view.answers) × (r.1.view.share ≡ seat.view.share / 2)) }
        ensures number { IfOk result (λ r. (n : ℕ) × (r.1.view.numbers ≡ n ∷ []) × (¬ Has n seat.view.numbers) × (calls_by n seat.view.front ≡ [])
            × (seat.view.given ≤ n) × (r.0.view.given ≡ n + 1) × (r.1.view.given ≡ n + 1)) }
        ensures left { OnOk result (2 ≤ seat.view.share) }
        ensures err { IfErr result (λ r. (r.0 ≡ seat) × (r.1 ≡ NoSeatLeft) × (seat.view.share ≡ 1)) }
    {
        if seat.share < 2 {
            return Err((seat, CellFault::NoSeatLeft));
        }
        let Seat { badge, share } = seat;
        let mut place: Place<S> = badge.into_seat();
        let other = split_at(&self.table.shared, &mut place);
        Ok((
            Seat {
                badge: place.into_badge(),
                share: share - share / 2,
            },
            Seat {
                badge: other.into_badge(),
                share: share / 2,
            },
        ))
    }

    /// Makes two seats one. It has seen the longer of the two histories, which the shorter one begins; the numbers, the
    /// answers and the shares are those of both, and no number was given to both. Of the calls under these numbers the
    /// history has those that each seat made, and no others. No memory is taken.
    ///
    /// Many clauses: one for each part of what a seat has, and two for what its history has of both.
    pub fn join(&self, one: Seat, two: Seat) -> Seat
        requires { (one.cell ≡ self.now.id) × (two.cell ≡ self.now.id) }
        ensures cell { result.cell ≡ one.cell }
        ensures fronts { Begins one.view.front result.view.front × Begins two.view.front result.view.front }
        ensures either { (result.view.front ≡ one.view.front) ⊎ (result.view.front ≡ two.view.front) }
        ensures calls { (n : ℕ) → (Has n one.view.numbers → calls_by n result.view.front ≡ calls_by n one.view.front)
            × (Has n two.view.numbers → calls_by n result.view.front ≡ calls_by n two.view.front) }
        ensures numbers { result.view.numbers ≡ one.view.numbers ++ two.view.numbers }
        ensures apart { (n : ℕ) → Has n one.view.numbers → ¬ Has n two.view.numbers }
        ensures answers { result.view.answers ≡ one.view.answers ++ two.view.answers }
        ensures given { (one.view.given ≤ result.view.given) × (two.view.given ≤ result.view.given) }
        ensures share { result.view.share ≡ one.view.share + two.view.share }
    {
        let Seat { badge, share } = one;
        let Seat {
            badge: other_badge,
            share: other_share,
        } = two;
        let mut place: Place<S> = badge.into_seat();
        join_at(&self.table.shared, &mut place, other_badge.into_seat());
        Seat {
            badge: place.into_badge(),
            share: share + other_share,
        }
    }

    /// Waits for its turn, and has the Sentinel take one input: it is taken, stored, and its outputs stand at the end
    /// of those that the outbox shows, `count` of them from `first` on. The epoch of a command is at most `MAX_EPOCH`,
    /// as `command_of` gives it.
    ///
    /// The call is then the last entry of a legal history, which begins with all that the seat had seen; `entry` tells
    /// how many stand before it. `NoMemory` and `Spent` come before the turn and add no entry; `Halted` and
    /// `StoreRefused` add one, and show nothing.
    ///
    /// Many clauses: what the caller sees of the turn, each in terms of its own seat and outbox.
    pub fn act<R: Wait>(
        &self,
        rt: &R,
        seat: &mut Seat,
        input: &Input,
        outbox: &mut Outbox,
    ) -> Result<Reply, ActFault>
        requires own { seat.old.cell ≡ self.now.id }
        requires held { outbox.old.held ≡ [] }
        requires within { IsWithinEvent input.now.event }
        ensures own { seat.new.cell ≡ seat.old.cell }
        ensures held { outbox.new.held ≡ [] }
        ensures shown { outbox.new.shown ≡ outbox.old.shown ++ drop (length outbox.old.shown) outbox.new.shown }
        ensures reply { IfOk result (λ reply. (reply.first ≡ length outbox.old.shown) × (reply.first + reply.count ≡ length outbox.new.shown)) }
        ensures entry { IfOk result (λ reply. reply.entry + 1 ≡ length seat.new.view.front) }
        ensures same { (seat.new.view.numbers ≡ seat.old.view.numbers) × (seat.new.view.answers ≡ seat.old.view.answers) × (seat.new.view.share ≡ seat.old.view.share) }
        ensures acted { Acted self.now.start seat.old.view input.entry.now (drop (length outbox.old.shown) outbox.new.shown) seat.new.view result }
    {
        self.act_observed(rt, seat, input, outbox, &mut Nobody)
    }

    /// As `act`, and an observer looks at the Sentinel at the end of the turn, once the input is stored: no other input
    /// comes between the two. It doesn't look where the call is refused.
    ///
    /// Many clauses: those of `act`.
    pub fn act_observed<O: Observer, R: Wait>(
        &self,
        rt: &R,
        seat: &mut Seat,
        input: &Input,
        outbox: &mut Outbox,
        observer: &mut O,
    ) -> Result<Reply, ActFault>
        requires own { seat.old.cell ≡ self.now.id }
        requires held { outbox.old.held ≡ [] }
        requires within { IsWithinEvent input.now.event }
        ensures own { seat.new.cell ≡ seat.old.cell }
        ensures held { outbox.new.held ≡ [] }
        ensures shown { outbox.new.shown ≡ outbox.old.shown ++ drop (length outbox.old.shown) outbox.new.shown }
        ensures reply { IfOk result (λ reply. (reply.first ≡ length outbox.old.shown) × (reply.first + reply.count ≡ length outbox.new.shown)) }
        ensures entry { IfOk result (λ reply. reply.entry + 1 ≡ length seat.new.view.front) }
        ensures same { (seat.new.view.numbers ≡ seat.old.view.numbers) × (seat.new.view.answers ≡ seat.old.view.answers) × (seat.new.view.share ≡ seat.old.view.share) }
        ensures acted { Acted self.now.start seat.old.view input.entry.now (drop (length outbox.old.shown) outbox.new.shown) seat.new.view result }
    {
        if outbox.reserve(&self.room).is_err() {
            return Err(ActFault::NoMemory);
        }
        let first = outbox.outputs().len();
        let badge = mem::replace(&mut seat.badge, Badge::blank());
        let mut place: Place<S> = badge.into_seat();
        let acted = act_at(rt, &self.table.shared, &mut place, input, outbox, observer);
        seat.badge = place.into_badge();
        answer(acted, first, outbox.outputs().len())
    }

    /// The stored configuration of the master with this number, by one load of its word: its epoch and its address. It
    /// is that of a legal history which begins with all that the seat had seen, and no older than what that history or
    /// an earlier answer of the seat showed. It answers while a store is under way, and after a halt; None only if
    /// there is no such master.
    ///
    /// It waits for nobody, and takes no memory.
    pub fn address(&self, seat: &mut Seat, m: u16) -> Option<(u64, Addr)>
        requires own { seat.old.cell ≡ self.now.id }
        ensures own { seat.new.cell ≡ seat.old.cell }
        ensures none { IfNone result ((master_count self.now.start.plan ≤ m) × (seat.new ≡ seat.old)) }
        ensures some { let start = self.now.start in IfSome result (λ r. let card = card_with r.0 r.1 in (m < master_count start.plan)
            × (seat.new.view ≡ answered seat.old.view m card) × IsFresh (IsLegal start) (stored_at start) seat.old.view m card) }
    {
        if m as usize >= self.roster.masters().len() {
            return None;
        }
        let badge = mem::replace(&mut seat.badge, Badge::blank());
        let mut place: Place<S> = badge.into_seat();
        let word = read_word::<Brand, S>(&self.table.shared, &mut place, m as usize);
        seat.badge = place.into_badge();
        let card = card_in(&self.roster, m, word);
        Some((card.epoch, card.addr))
    }

    /// The Sentinels and the masters of the group, each in the roster's order.
    pub fn roster(&self) -> &Roster
        ensures { result.now ≡ roster_of self.now.start.plan }
    {
        &self.roster
    }

    /// Ends the sharing: the Sentinel and its store, as the history leaves them. With the whole share the seat has seen
    /// the whole of it: it is the seat's front, and each call in it is under one of the seat's numbers, which are those
    /// of all seats that were joined to it.
    ///
    /// `SeatsOut` if, and only if, the seat's share isn't the whole, since another seat may then hold the turn; both
    /// come back untouched. No memory is taken.
    pub fn close(self, seat: Seat) -> Result<Keeper<S>, (SharedSentinel<S>, Seat, CellFault)>
        requires own { seat.cell ≡ self.id }
        ensures ok { let start = self.start in IfOk result (λ k. IsLegal start seat.view.front
            × IsLeft S.held S.failure_count (replay start seat.view.front) k × AreOf (stored_at start) seat.view.answers seat.view.front) }
        ensures calls { OnOk result (AreUnder seat.view.numbers seat.view.front) }
        ensures all { OnOk result (seat.view.share ≡ self.seats) }
        ensures err { IfErr result (λ r. (r.0 ≡ self) × (r.1 ≡ seat) × (r.2 ≡ SeatsOut) × (seat.view.share < self.seats)) }
    {
        if seat.share < self.seats {
            return Err((self, seat, CellFault::SeatsOut));
        }
        let Seat { badge, share: _ } = seat;
        let SharedSentinel {
            table,
            seats: _,
            roster: _,
            room: _,
        } = self;
        let mut closed = table.close_with(badge.into_seat());
        let keeper = closed.take(0);
        closed.free();
        Ok(keeper.unwrap())
    }
}

/// What a turn answers, and where its outputs and its entry stand.
fn answer(
    acted: Result<(Outcome, u64), TicketsSpent>,
    first: usize,
    end: usize,
) -> Result<Reply, ActFault>
    requires { first ≤ end }
    ensures { result ≡ answer_of acted first end }
{
    match acted {
        Ok((Outcome::Stored, entry)) => Ok(Reply {
            first,
            count: end - first,
            entry,
        }),
        Ok((Outcome::Refused, _)) => Err(ActFault::StoreRefused),
        Ok((Outcome::Halted, _)) => Err(ActFault::Halted),
        Err(_) => Err(ActFault::Spent),
    }
}
