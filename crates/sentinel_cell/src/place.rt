//! The steps of one turn, on a seat of the table.

ghost use Rattle.std.specs.Prelude.{◌≡◌, ℕ, ◌+◌, ◌∷◌, [], ◌++◌, ◌<◌, ◌≤◌, Some, None, IfOk, OnErr, drop, length};
ghost use Rattle.sentinel_cell.specs.declared.shared.TheConstants.{MOST_SEATS};
ghost use Rattle.sentinel_cell.specs.declared.view.Stage.TheVariants.{Opening, Idle, Looked, Waiting, Serving};
ghost use Rattle.sentinel_cell.specs.Histories.{IsLegal, Fits, Announces, stored_at, opened, entry_of};
ghost use Rattle.sentinel_cell.specs.Turns.{serving, raised, passed, answered, unpacked, IsFresh, numbered, left_half, right_half, merged, first_view, first_view_at, AreGiven, Follows};
ghost use Rattle.sentinel_cell.specs.Standing.{first_number, AtRest, Adds, IsSame};
ghost use Rattle.sentinel_outbox.specs.Outboxes.{Fits as HasFit, room_of_sentinel};
ghost use Rattle.ballot_law.specs.Limits.{IsWithinEvent};
ghost use Rattle.sentinel_rules.specs.Plans.{addr_at, master_count};
ghost use Rattle.sentinel_cell.specs.Calls.{Begins, Has, AreApart, calls_by, AreOf};

use crate::entry::Outcome;
use crate::keeper::Keeper;
use crate::observer::Observer;
use crate::plays::{
    Draw, Enter, Fill, Flight, Halve, Line, Look, Merge, Name, Origin, Pass, Raise, Settle, Start,
    Take, Tell,
};
use crate::view::View;
use atomic_table::Shared;
use ballot_law::Input;
use sentinel_conf::ConfStore;
use sentinel_outbox::Outbox;
use std::marker::Brand;
use std::sync::Wait;
use std::thread;

pub(crate) type Place<S> = atomic_table::Seat<Option<Keeper<S>>, View>;

pub(crate) type Hall<S> = Shared<Option<Keeper<S>>, View, Start<S>, Line>;

/// How often a thread looks for its turn, and yields its processor in between, before it sleeps. A turn that stores
/// nothing takes some microseconds, less than a sleep and a wake do, so whoever waits for such turns finds its own by
/// looking. A store takes a millisecond or seconds, and may never end: who waits for one sleeps.
const LOOKS_BEFORE_SLEEP: u32 = 100;

/// Waits until the ticket is served. Then the slot is out with the seat. `wake_waiters` says why who sleeps meanwhile
/// is woken.
pub(crate) fn wait_for_turn<J: Origin, S: ConfStore, R: Wait>(
    rt: &R,
    hall: &Hall<S>,
    place: &mut Place<S>,
    ticket: u64,
)
    requires own { (place.old.table_id ≡ hall.now.table_id) × (0 < hall.now.table_id.words) }
    requires waits { place.old.me.0.stage ≡ Waiting ticket }
    requires start { J.start ≡ opened S.held S.failure_count hall.now.key.keeper }
    ensures same { (place.new.table_id ≡ place.old.table_id) × (place.new.id ≡ place.old.id) }
    ensures turn { (history : _) × (c : _) × ((given : _) × (place.new.me ≡ (serving place.old.me.0 ticket history given, (0, c) ∷ place.old.me.1))
        × (place.old.me.0.given ≤ given)) × IsLegal J.start history × Fits S.held S.failure_count J.start history c × Follows place.old.me.0 history }
    ensures counted { ticket ≡ length place.new.me.0.front }
{
    let mut looks = 0;
    for _ in rt.forever() {
        let found = hall.load::<Take<J>>(place, 0);
        if found == ticket {
            return;
        }
        looks = pause(rt, hall, found, looks);
    }
    unreachable!()
}

/// Lets some time pass after a look that found this number in word 0: yields the processor after each of the first
/// `LOOKS_BEFORE_SLEEP` looks, and sleeps after a later one, for as long as word 0 is that number. The answer is how
/// many looks of the first ones there were.
///
/// Only the low half of word 0 is compared: it changes with each turn, and at most as many turns as there are seats
/// pass while one waits.
fn pause<S: ConfStore, R: Wait>(rt: &R, hall: &Hall<S>, found: u64, looks: u32) -> u32
    requires { 0 < hall.now.table_id.words }
{
    if looks < LOOKS_BEFORE_SLEEP {
        thread::yield_now();
        return looks + 1;
    }
    hall.park(rt, 0, (found & 0xffff_ffff) as u32);
    looks
}

/// Wakes all who sleep until their turn, once a turn was passed. It makes no system call where nobody waits: where no
/// more tickets are drawn than turns were served.
///
/// No wake is lost. A thread draws its ticket t before it looks at word 0, and sleeps only while word 0 is the number
/// that it found there, which is below t. So the turn of that number is passed after the look, and whoever passes it
/// comes here after that. Each step on a word has its place in one order of all steps; so more than t tickets are drawn
/// when it looks here, and no more than t turns are served, since t's own turn is still to come: it wakes all. The
/// system compares word 0 and lays the thread to sleep in one step, so the thread either sleeps by then and is woken,
/// or finds another number in word 0, doesn't sleep, and looks again.
fn wake_waiters<S: ConfStore>(hall: &Hall<S>)
    requires { 1 < hall.now.table_id.words }
{
    if hall.peek(1) > hall.peek(0) {
        hall.wake_all(0);
    }
}

/// Announces the entry of this turn by the word of a master, the one whose configuration it may have changed.
///
/// Many parameters: five of them only name in clauses what this turn did.
pub(crate) fn raise_word<F: Flight, S: ConfStore>(
    hall: &Hall<S>,
    place: &mut Place<S>,
    input: &Input,
    outcome: Outcome,
    outbox: &Outbox,
    first: usize,
    failures: u64,
    master: usize,
    word: u64,
)
    requires own { (place.old.table_id ≡ hall.now.table_id) × (hall.now.table_id.words ≡ master_count hall.now.key.keeper.sentinel.plan + 2)
        × (master < master_count hall.now.key.keeper.sentinel.plan) }
    requires small { master < 65536 }
    requires entry { F.entry ≡ entry_of (first_number place.old.me.0.numbers) input.now outcome first outbox.now.shown failures }
    requires turn { (t : ℕ) × (place.old.me.0.stage ≡ Serving t) }
    requires slot { (c : _) × (place.old.me.1 ≡ (0, c) ∷ []) }
    requires flight { place.old.me.0.flight ≡ [] }
    requires legal { let start = opened S.held S.failure_count hall.now.key.keeper in IsLegal start (place.old.me.0.front ++ F.entry ∷ []) × Announces start place.old.me.0.front F.entry master word }
    ensures same { (place.new.table_id ≡ place.old.table_id) × (place.new.id ≡ place.old.id) }
    ensures raised { place.new.me ≡ (raised place.old.me.0 F.entry, place.old.me.1) }
{
    let _ = input;
    let _ = outcome;
    let _ = outbox;
    let _ = first;
    let _ = failures;
    hall.fetch_max::<Raise<F>>(place, master + 2, word);
}

/// Ends the turn. The announced entry joins the history, and the slot goes home.
pub(crate) fn pass_turn<J: Origin, S: ConfStore>(hall: &Hall<S>, place: &mut Place<S>)
    requires own { (place.old.table_id ≡ hall.now.table_id) × (0 < hall.now.table_id.words) }
    requires start { J.start ≡ opened S.held S.failure_count hall.now.key.keeper }
    requires few { hall.now.key.seats ≤ 4294967296 }
    requires turn { (t : ℕ) × (place.old.me.0.stage ≡ Serving t) }
    requires slot { (e : _) × (c : _) × (place.old.me.0.flight ≡ e ∷ []) × Has e.number place.old.me.0.numbers × (place.old.me.1 ≡ (0, c) ∷ [])
        × Fits S.held S.failure_count (opened S.held S.failure_count hall.now.key.keeper) (place.old.me.0.front ++ e ∷ []) c }
    ensures same { (place.new.table_id ≡ place.old.table_id) × (place.new.id ≡ place.old.id) }
    ensures passed { place.new.me ≡ (passed place.old.me.0, []) }
    ensures answers { AreOf (stored_at J.start) place.old.me.0.answers place.new.me.0.front }
    ensures given { AreGiven place.new.me.0.given place.new.me.0.front }
{
    hall.fetch_add::<Pass<J>>(place, 0, 1);
}

/// One load tells the stored configuration of a master. It neither waits nor takes the turn.
pub(crate) fn read_word<J: Origin, S: ConfStore>(
    hall: &Hall<S>,
    place: &mut Place<S>,
    master: usize,
) -> u64
    requires own { (place.old.table_id ≡ hall.now.table_id) × (hall.now.table_id.words ≡ master_count hall.now.key.keeper.sentinel.plan + 2)
        × (master < master_count hall.now.key.keeper.sentinel.plan) }
    requires start { J.start ≡ opened S.held S.failure_count hall.now.key.keeper }
    requires small { master < 65536 }
    requires rest { place.old.me.0.stage ≡ Idle }
    ensures same { (place.new.table_id ≡ place.old.table_id) × (place.new.id ≡ place.old.id) }
    ensures told { place.new.me ≡ (answered place.old.me.0 master (unpacked (addr_at J.start.plan) master result), place.old.me.1) }
    ensures fresh { IsFresh (IsLegal J.start) (stored_at J.start) place.old.me.0 master (unpacked (addr_at J.start.plan) master result) }
{
    hall.load::<Tell<J>>(place, master + 2)
}

/// Takes the keeper out of the slot.
pub(crate) fn take_out<S: ConfStore>(hall: &Hall<S>, place: &mut Place<S>) -> Keeper<S>
    requires own { place.old.table_id ≡ hall.now.table_id }
    requires slot { (k : _) × (place.old.me.1 ≡ (0, Some k) ∷ []) }
    ensures same { (place.new.table_id ≡ place.old.table_id) × (place.new.id ≡ place.old.id) }
    ensures keeper { place.old.me.1 ≡ (0, Some result) ∷ [] }
    ensures slot { place.new.me ≡ (place.old.me.0, (0, None) ∷ []) }
{
    hall.exchange(place, 0, None).unwrap()
}

/// Puts the keeper into the slot.
pub(crate) fn put_in<S: ConfStore>(hall: &Hall<S>, place: &mut Place<S>, keeper: Keeper<S>)
    requires own { place.old.table_id ≡ hall.now.table_id }
    requires slot { place.old.me.1 ≡ (0, None) ∷ [] }
    ensures same { (place.new.table_id ≡ place.old.table_id) × (place.new.id ≡ place.old.id) }
    ensures slot { place.new.me ≡ (place.old.me.0, (0, Some keeper) ∷ []) }
{
    let left = hall.exchange(place, 0, Some(keeper));
    let None = left else { unreachable!() };
}

/// Fills the empty slot of a new table, whose first seat is then at rest.
pub(crate) fn fill<S: ConfStore>(hall: &Hall<S>, place: &mut Place<S>, keeper: Keeper<S>)
    requires own { (place.old.table_id ≡ hall.now.table_id) × (0 < hall.now.table_id.words) }
    requires opening { place.old.me ≡ (first_view_at Opening hall.now.key.seats, []) }
    requires fits { let start = opened S.held S.failure_count hall.now.key.keeper in IsLegal start [] × Fits S.held S.failure_count start [] (Some keeper) }
    ensures same { (place.new.table_id ≡ place.old.table_id) × (place.new.id ≡ place.old.id) }
    ensures filled { place.new.me ≡ (first_view hall.now.key.seats, []) }
{
    hall.load::<Enter>(place, 0);
    put_in(hall, place, keeper);
    hall.load::<Fill>(place, 0);
}

/// 2^63 tickets were drawn.
#[derive(Drop)]
pub(crate) struct TicketsSpent;

/// One turn: the seat looks at the tickets, draws one, waits, serves the input, and has the observer look. Beside the
/// outcome stands the ticket's number, which is how many entries stand before this one.
///
/// Many clauses: what the seat holds of the table before and after a turn is said part by part, for the shared tokens
/// have no one value.
pub(crate) fn act_at<S: ConfStore, O: Observer, R: Wait>(
    rt: &R,
    hall: &Hall<S>,
    place: &mut Place<S>,
    input: &Input,
    outbox: &mut Outbox,
    observer: &mut O,
) -> Result<(Outcome, u64), TicketsSpent>
    requires own { (place.old.table_id ≡ hall.now.table_id) × (hall.now.table_id.words ≡ master_count hall.now.key.keeper.sentinel.plan + 2) }
    requires few { hall.now.key.seats ≤ 4294967296 }
    requires rest { AtRest place.old.me.0 × (place.old.me.1 ≡ []) }
    requires room { HasFit outbox.old room_of_sentinel }
    requires within { IsWithinEvent input.now.event }
    ensures same { (place.new.table_id ≡ place.old.table_id) × (place.new.id ≡ place.old.id) }
    ensures rest { AtRest place.new.me.0 × (place.new.me.1 ≡ []) }
    ensures added { IfOk result (λ turn. Adds (opened S.held S.failure_count hall.now.key.keeper) place.old.me.0 input.entry.now turn.0
        (drop (length outbox.old.shown) outbox.new.shown) place.new.me.0) }
    ensures entry { IfOk result (λ turn. turn.1 + 1 ≡ length place.new.me.0.front) }
    ensures spent { OnErr result ((9223372036854775808 ≤ place.new.me.0.tickets) × IsSame place.old.me.0 place.new.me.0 × (outbox.new ≡ outbox.old)) }
    ensures shown { outbox.new.shown ≡ outbox.old.shown ++ drop (length outbox.old.shown) outbox.new.shown }
    ensures held { outbox.new.held ≡ [] }
{
    if hall.load::<Look>(place, 1) >= 1 << 63 {
        return Err(TicketsSpent);
    }
    let ticket = hall.fetch_add::<Draw>(place, 1, 1);
    wait_for_turn::<Brand, S, R>(rt, hall, place, ticket);
    let mut keeper = take_out(hall, place);
    let first = outbox.outputs().len();
    let outcome = keeper.turn(input, outbox, observer);
    let failures = keeper.store.failures();
    let (master, word) = keeper.news();
    put_in(hall, place, keeper);
    raise_word::<Brand, S>(
        hall,
        place,
        input,
        outcome,
        outbox,
        first,
        failures,
        master as usize,
        word,
    );
    pass_turn::<Brand, S>(hall, place);
    wake_waiters(hall);
    Ok((outcome, ticket))
}

/// Cuts a seat in two. The new one has a number that no call has.
pub(crate) fn split_at<S: ConfStore>(hall: &Hall<S>, place: &mut Place<S>) -> Place<S>
    requires own { (place.old.table_id ≡ hall.now.table_id) × (hall.now.table_id.words ≡ master_count hall.now.key.keeper.sentinel.plan + 2) }
    requires rest { AtRest place.old.me.0 × (place.old.me.1 ≡ []) }
    requires two { 2 ≤ place.old.me.0.share }
    ensures same { (place.new.table_id ≡ place.old.table_id) × (place.new.id ≡ place.old.id) × (result.table_id ≡ place.old.table_id) }
    ensures halves { (n : ℕ) × (place.new.me ≡ (left_half (numbered place.old.me.0 n), []))
        × (result.me ≡ (right_half (numbered place.old.me.0 n), [])) × (place.old.me.0.given ≤ n) × (¬ Has n place.old.me.0.numbers)
        × (calls_by n place.old.me.0.front ≡ []) }
{
    hall.load::<Name>(place, 0);
    hall.split_seat::<Halve>(place)
}

/// Puts two seats together, and compares their fronts.
pub(crate) fn join_at<S: ConfStore>(hall: &Hall<S>, place: &mut Place<S>, other: Place<S>)
    requires own { (place.old.table_id ≡ hall.now.table_id) × (other.table_id ≡ hall.now.table_id) × (hall.now.table_id.words ≡ master_count hall.now.key.keeper.sentinel.plan + 2) }
    requires few { hall.now.key.seats ≤ MOST_SEATS }
    requires rest { AtRest place.old.me.0 × (place.old.me.1 ≡ []) × AtRest other.me.0 × (other.me.1 ≡ []) }
    ensures same { (place.new.table_id ≡ place.old.table_id) × (place.new.id ≡ place.old.id) }
    ensures both { place.new.me ≡ (merged place.old.me.0 other.me.0, []) }
    ensures few { place.new.me.0.share ≤ MOST_SEATS }
    ensures front { Begins place.new.me.0.told place.new.me.0.front }
    ensures calls { (n : ℕ) → Has n place.new.me.0.told_numbers → calls_by n place.new.me.0.front ≡ calls_by n place.new.me.0.told }
    ensures apart { AreApart place.new.me.0.numbers }
{
    hall.join_seat::<Merge>(place, other);
    hall.load::<Settle>(place, 0);
}
