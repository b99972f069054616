//! A Sentinel that threads share, with the seats that are known to be of it.

ghost use Rattle.std.specs.Prelude.{◌≡◌, ◌+◌, ◌++◌, ◌<◌, ◌≤◌, [], List, ℕ, Option, Some, None, Ok, Err, OnOk, OnErr, IfOk, IfErr, IfSome, length, false};
ghost use Rattle.std.specs.List.{AllByRecursion};
ghost use Rattle.ballot_law.specs.Messages.{sent};
ghost use Rattle.boxed_nodes.specs.Sendable.{IsSendableOutput};
ghost use Rattle.ballot_law.specs.declared.messages.Message.{Message};
ghost use Rattle.ballot_law.specs.declared.messages.Note.{Note};
ghost use Rattle.sentinel_runtime.specs.Running.{input_of, phase_of, IsLeftByTurns};
ghost use Rattle.sentinel_runtime.specs.Hearing.{HeardWell, MayTake};
ghost use Rattle.sentinel_runtime.specs.Saying.{IsNoted, IsReleased, IsSaid, MayNote};
ghost use Rattle.sentinel_runtime.specs.declared.news.TheConstants.{EVENTS_MAX, WAITING_MAX};
ghost use Rattle.courteous_sessions.specs.Clients.{informed, TakesSome, NotifiesClient};
ghost use Rattle.sentinel_cell.specs.declared.entry.Outcome.TheVariants.{Stored};
ghost use Rattle.sentinel_cell.specs.Standing.{Adds, Faulted};
ghost use Rattle.sentinel_rules.specs.Plans.{group_size, master_count, roster_of};
ghost use Rattle.ballot_law.specs.Limits.{IsWithinEvent};

use crate::fresh_sentinel::FreshSentinel;
use crate::known_epoch::KnownEpoch;
use crate::news::{News, NewsLists};
use crate::notes::{Announcing, tell_all};
use crate::outlet::{Outlet, send_all};
use crate::run_state::RunState;
use crate::sight::Sight;
use crate::switches::Switch;
use crate::ticking::TICK_MS;
use ballot_law::{Event, Input, NoMemory, Output, Roster};
use courteous_sessions::{ClientSession, FarRequest, Reach};
use log::kv::With;
use log::{Log, Span};
use mio::Waker;
use sentinel_cell::{ActFault, Keeper, Seat, SharedSentinel};
use sentinel_conf::ConfStore;
use sentinel_core::ServeFault;
use sentinel_outbox::Outbox;
use sentinel_rules::law_outputs_are_within;
use std::alloc::{AllocError, Global};
use std::marker::{Brand, PhantomData};
use std::sync::atomic::{AtomicU64, Ordering};
use std::sync::{Mutex, Wait};

/// Which Sentinel it is; what may be said in its name, which of its notes may be told, each with how many calls stand
/// before it; what it may be told itself; and to which nodes, at which address, its connections may be. Only proofs
/// read it.
pub trait Which {
    ghost use Rattle.std.specs.Prelude.{ℕ};
    ghost use Rattle.atomic_table.specs.Seated.{TableId};
    ghost use Rattle.ballot_law.specs.declared.events.Event.{Event};
    ghost use Rattle.ballot_law.specs.declared.messages.Message.{Message};
    ghost use Rattle.ballot_law.specs.declared.messages.Note.{Note};
    ghost use Rattle.links.specs.declared.target.Target.{Target};

    ghost cell: { TableId };

    ghost said: { Message → Type 0 };

    ghost noted: { Note → ℕ → Type 0 };

    ghost told: { Event → Type 0 };

    ghost reaches: { Target → Type 0 };
}

impl Which for Brand {
    ghost use Rattle.std.specs.Prelude.{[]};

    ghost cell = { record { words = 0; slots = 0; views_name = 0; atom = 0; block = 0; offset = 0; slot_names = [] } };

    ghost said = { λ message. Unit {0} };

    ghost noted = { λ note number. Unit {0} };

    ghost told = { λ event. Unit {0} };

    ghost reaches = { λ target. Unit {0} };
}

/// A Sentinel of the group, which its threads share. `far` is the last request for a vote whose epoch was too far above
/// the one that is `known`, until it is taken.
#[derive(Drop)]
pub struct RunningSentinel<J: Which, S: ConfStore> {
    cell: SharedSentinel<S>,
    place: u16,
    port: u16,
    news: NewsLists<J>,
    known: KnownEpoch,
    far: Mutex<Option<FarRequest>>,
    halt_noted: AtomicU64,
    of: PhantomData<J>,
    ghost is: { cell.id ≡ J.cell },
    ghost says: { (message : Message) → IsReleased cell.start message → ∥ J.said message ∥₁ },
    ghost notes: { (note : Note) (number : ℕ) → IsNoted cell.start note number → ∥ J.noted note number ∥₁ },
}

/// A thread's seat of that Sentinel, with the thread's own room for outputs. All that its calls took the Sentinel may
/// take.
#[derive(Drop)]
pub struct ThreadSeat<J: Which> {
    seat: Seat,
    outbox: Outbox,
    sight: Sight,
    of: PhantomData<J>,
    ghost is: { seat.cell ≡ J.cell },
    ghost held: { outbox.held ≡ [] },
    ghost heard: { ∥ HeardWell J.told seat.view ∥₁ },
}

/// A seat with room for outputs that is made as it is needed.
fn with_outbox<J: Which>(alloc: Global, seat: Seat) -> ThreadSeat<J>
    requires own { seat.cell ≡ J.cell }
    requires heard { ∥ HeardWell J.told seat.view ∥₁ }
    ensures { result.seat ≡ seat }
{
    ThreadSeat {
        seat,
        outbox: Outbox::new(alloc),
        sight: Sight::new(alloc),
        of: PhantomData,
    }
}

impl<J: Which> ThreadSeat<J> {
    /// The seat.
    fn into_seat(self) -> Seat
        ensures own { result.cell ≡ J.cell }
        ensures heard { ∥ HeardWell J.told result.view ∥₁ }
    {
        let ThreadSeat {
            seat,
            outbox: _,
            sight: _,
            of: _,
        } = self;
        seat
    }

    /// Has the next turn see whether a campaign for this master is near, at this reading of the clock in milliseconds,
    /// now or later: whether the Sentinel finds it objectively down then, where nothing else is heard, while no
    /// failover of it runs.
    pub fn look_ahead(&mut self, master: u16, at: u64)
        ensures { (self.new.seat ≡ self.old.seat) × (self.new.outbox ≡ self.old.outbox) }
    {
        self.sight.look_ahead(master, at);
    }

    /// The number of a campaign that has come near since this was asked last: one that is near stays so, and doesn't
    /// come again. It is the least epoch of the masters' configurations, the same for all masters and for all Sentinels
    /// that know these. So where several masters die together one Sentinel opens the campaigns of all, epoch by epoch,
    /// and the others vote in that order; two that campaign for different masters take each other's epochs.
    pub fn take_nearness(&mut self) -> Option<u64>
        ensures { (self.new.seat ≡ self.old.seat) × (self.new.outbox ≡ self.old.outbox) }
    {
        self.sight.take_nearness()
    }

    /// Whether a failover of its own was on its way to a new master at the end of the last turn.
    pub fn is_switching(&self) -> bool {
        self.sight.is_switching()
    }
}

impl<J: Which, S: ConfStore> RunningSentinel<J, S> {
    /// The Sentinel at this place of the roster, with its first seat. Its clients come to this port, which so many
    /// threads serve. What its stored entries release may be said in its name, and told of it. The error is a refused
    /// allocation: the Sentinel, its store and the seat are gone then.
    #[tactic(auto, using(crate::proofs::HeardWell::begins_well))]
    pub fn with_seat(
        alloc: Global,
        fresh: FreshSentinel<S>,
        place: u16,
        port: u16,
        port_threads: u16,
    ) -> Result<(RunningSentinel<J, S>, ThreadSeat<J>), AllocError>
    where
        S: Drop,
        requires named { fresh.cell.id ≡ J.cell }
        requires says { (message : Message) → IsReleased fresh.cell.start message → ∥ J.said message ∥₁ }
        requires notes { (note : Note) (number : ℕ) → IsNoted fresh.cell.start note number → ∥ J.noted note number ∥₁ }
        ensures seat { IfOk result (λ r. r.1.seat ≡ fresh.seat) }
        ensures cell { IfOk result (λ r. (r.0.cell ≡ fresh.cell) × (r.0.place ≡ place)) }
        ensures news { IfOk result (λ r. length r.0.news.lists.items ≡ port_threads) }
    {
        let FreshSentinel { cell, seat } = fresh;
        let member = RunningSentinel {
            cell,
            place,
            port,
            news: NewsLists::new(alloc, port_threads)?,
            known: KnownEpoch::none(),
            far: Mutex::new(None),
            halt_noted: AtomicU64::new(0),
            of: PhantomData,
        };
        Ok((member, with_outbox(alloc, seat)))
    }

    /// Its place in the roster.
    pub fn place(&self) -> u16
        ensures { result ≡ self.now.place }
    {
        self.place
    }

    /// How many masters it watches.
    pub fn masters(&self) -> u16
        ensures { result ≡ master_count self.now.cell.start.plan }
    {
        let roster = self.roster();
        roster.is_made();
        roster.masters().len() as u16
    }

    /// Cuts a seat into as many as it has a share for. The first one of a cell has the share of all that the cell was
    /// made for. The error is a refused allocation: these seats are gone then, so that `close` gives nothing back.
    #[tactic(auto, using(crate::proofs::HeardWell::cut_first, crate::proofs::HeardWell::cut_second))]
    pub fn seats(
        &self,
        alloc: Global,
        seat: ThreadSeat<J>,
    ) -> Result<Vec<ThreadSeat<J>>, AllocError>
        ensures { IfOk result (λ seats. length seats.items ≡ seat.seat.view.share) }
    {
        let mut left = Vec::new(alloc);
        let mut seats = Vec::new(alloc);
        left.push(seat)?;
        while let Some(seat) = left.pop() {
            match self.cell.split(seat.seat) {
                Ok((one, two)) => {
                    left.push(with_outbox(alloc, one))?;
                    left.push(with_outbox(alloc, two))?;
                }
                Err((one, _)) => seats.push(with_outbox(alloc, one))?,
            }
        }
        Ok(seats)
    }

    /// Ends the sharing, with the seats of all threads, which have ended: the Sentinel and its store, as the history of
    /// its turns leaves them, in each of which it took what it may take. None where a seat is missing; the Sentinel and
    /// its store are gone then.
    #[tactic(auto, using(crate::proofs::HeardWell::joined_heard, crate::proofs::HeardWell::left_well))]
    pub fn close(self, mut seats: Vec<ThreadSeat<J>>) -> Option<Keeper<S>>
    where
        S: Drop,
        ensures { IfSome result (IsLeftByTurns J.told S.held S.failure_count self.cell.start) }
    {
        let RunningSentinel {
            cell,
            place: _,
            port: _,
            news: _,
            known: _,
            far: _,
            halt_noted: _,
            of: _,
        } = self;
        let mut whole = seats.pop()?.into_seat();
        while let Some(seat) = seats.pop() {
            whole = cell.join(whole, seat.into_seat());
        }
        cell.close(whole).ok()
    }

    /// One input that the Sentinel may take, and how many calls stand before it. The outbox shows what the Sentinel
    /// says, once it is stored; at a fault it says nothing.
    #[tactic(auto, using(crate::proofs::HeardWell::turned_heard))]
    fn turn<R: Wait>(
        &self,
        rt: &R,
        seat: &mut ThreadSeat<J>,
        input: &Input,
    ) -> Result<u64, ActFault>
        requires within { IsWithinEvent input.now.event }
        requires told { MayTake J.told input.now.event }
        ensures sendable { OnOk result (AllByRecursion IsSendableOutput seat.new.outbox.shown) }
        ensures said { OnOk result (AllByRecursion (IsSaid J.said) seat.new.outbox.shown) }
        ensures noted { IfOk result (λ entry. AllByRecursion (MayNote J.noted entry) seat.new.outbox.shown) }
        ensures added { IfOk result (λ entry. Adds self.now.cell.start seat.old.seat.view input.entry.now Stored seat.new.outbox.shown seat.new.seat.view
            × (entry + 1 ≡ length seat.new.seat.view.front)) }
        ensures fault { IfErr result (λ fault. Faulted self.now.cell.start seat.old.seat.view input.entry.now seat.new.outbox.shown seat.new.seat.view fault) }
    {
        law_outputs_are_within();
        seat.outbox.clear();
        match self.cell.act_observed(rt, &mut seat.seat, input, &mut seat.outbox, &mut seat.sight) {
            Ok(reply) => Ok(reply.entry),
            Err(fault) => Err(fault),
        }
    }

    /// One input at a reading of the clock in milliseconds, which comes from no message or is what the Sentinel may be
    /// told. What it says, once it is stored, goes to the outlet, and what it notes to the log and to the subscribers
    /// of its port. At a fault, which is one of `SharedSentinel::act`, it says nothing.
    pub fn carry_out<O: Outlet<J>, R: Wait + Log>(
        &self,
        rt: &R,
        seat: &mut ThreadSeat<J>,
        outlet: &mut O,
        now: u64,
        event: Event,
    ) -> Result<(), ActFault>
        requires within { IsWithinEvent event }
        requires told { MayTake J.told event }
        ensures added { OnOk result (Adds self.now.cell.start seat.old.seat.view (input_of now event) Stored seat.new.outbox.shown seat.new.seat.view) }
        ensures fault { IfErr result (λ fault. Faulted self.now.cell.start seat.old.seat.view (input_of now event) seat.new.outbox.shown seat.new.seat.view fault) }
        ensures handed { OnOk result (IfSome (O.handed outlet.old) (λ before. O.handed outlet.new ≡ Some (before ++ sent seat.new.outbox.shown))) }
        ensures silent { OnErr result (outlet.new ≡ outlet.old) }
    {
        let input = Input { now, event };
        let entry = self.turn(rt, seat, &input)?;
        self.settle(&mut seat.sight, now);
        let outputs = seat.outbox.outputs();
        send_all::<J, O>(outlet, outputs);
        tell_all(
            &self.announcing(rt),
            self.roster(),
            seat.sight.notices(),
            outputs,
            entry,
        );
        Ok(())
    }

    /// Takes in the current epoch after a turn, by the sight of its seat, where `guard_epochs` was called.
    fn settle(&self, sight: &mut Sight, now: u64) {
        if let Some(known) = self.known.current() {
            self.known.tell(sight.settle(known, now));
        }
    }

    /// Whether it is still to be noted that it is halted; a second time it isn't.
    pub(crate) fn takes_halt_note(&self) -> bool {
        self.halt_noted.swap(1, Ordering::SeqCst) == 0
    }

    /// Whether its port is closed: it is halted, which a thread noted, and a halted one closes its port.
    pub fn is_closed(&self, state: &RunState) -> bool {
        state.closes_halted() && self.halt_noted.load(Ordering::SeqCst) != 0
    }

    /// Where its notes go: each names the Sentinel's port.
    pub fn noting<'a, R: Log>(&self, rt: &'a R) -> Span<'a, &'a R, With<'a, (), u16>> {
        rt.span("sentinel").with("port", self.port)
    }

    /// Where its events go.
    pub(crate) fn announcing<'r, 'n, R>(&'n self, rt: &'r R) -> Announcing<'r, 'n, J, R> {
        Announcing {
            rt,
            port: self.port,
            news: &self.news,
        }
    }

    /// From now on the threads of its port get other events too than new addresses, as `take_news` has it.
    pub fn tell_events(&self) {
        self.news.tell_events();
    }

    /// From now on a request for a vote in an epoch that is more than `EPOCHS_AHEAD` above what the current one of the
    /// Sentinel was 10 to 20 s ago is answered as one of epoch 0. `epoch` is the current one of its file, of which the
    /// others have heard. Who asks for votes in ever later epochs so leads it no further than the others follow by its
    /// hellos. One thread alone, that of its ticks, may call `carry_out` from then on. Sessions without courtesies hear
    /// each epoch as it is.
    pub fn guard_epochs(&self, epoch: u64) {
        self.known.begin(epoch);
    }

    /// An epoch that the current one of the Sentinel isn't below: that after the last call of `carry_out`, or of
    /// `guard_epochs`; none before that.
    pub fn known_epoch(&self) -> Option<u64> {
        self.known.current()
    }

    /// The epoch from which requests for votes count, 10 to 20 s old; none where `guard_epochs` wasn't called.
    pub fn settled_epoch(&self) -> Option<u64> {
        self.known.settled()
    }

    /// The last request for a vote that was answered as one of epoch 0, where one was since this was asked.
    pub fn take_far<R: Wait>(&self, rt: &R) -> Option<FarRequest> {
        self.far.lock(rt).take()
    }

    /// The Sentinels and the masters of the group.
    pub fn roster(&self) -> &Roster
        ensures { result.now ≡ roster_of self.now.cell.start.plan }
    {
        self.cell.roster()
    }

    /// Tick offset in ms: Sentinel k of n ticks at k/n of the period, so campaigns don't start together (Redis
    /// randomises its timer).
    pub(crate) fn phase(&self) -> u64
        ensures { result ≡ phase_of self.now.place (group_size self.now.cell.start.plan) }
    {
        let sentinels = self.cell.roster().sentinels().len() as u64;
        TICK_MS * u64::from(self.place) / sentinels.max(1)
    }

    /// What there is to tell the subscribers of the port that its thread with this number didn't take yet, in the order
    /// in which it came. Each of its threads gets all new addresses, but those that come while `WAITING_MAX` wait for
    /// it. Once `tell_events` was called it gets all other events that the Sentinel notes as well, but the oldest where
    /// more than `EVENTS_MAX` wait for it, and those for which there is no memory; before that none is kept. Nothing
    /// where the port has no such thread.
    pub fn take_news<R: Wait>(&self, rt: &R, port_thread: u16) -> Vec<News<J>>
        ensures few { length result.items ≤ WAITING_MAX + EVENTS_MAX }
        ensures other { length self.now.news.lists.items ≤ port_thread → result.items ≡ [] }
    {
        self.news.take(rt, port_thread)
    }

    /// From now on this wakes the thread of its port with this number as soon as `take_news` has something for it.
    /// Without it such a thread hears of it when it looks next. Nothing where the port has no such thread.
    pub fn wake_for_news<R: Wait>(&self, rt: &R, port_thread: u16, waker: Waker) {
        self.news.wake_by(rt, port_thread, waker);
    }

    /// Tells a session of a note: whether it is told, which joins what it sends. `NoMemory` changes nothing.
    pub fn notify(&self, session: &mut ClientSession, switch: &Switch<J>) -> Result<bool, NoMemory>
        ensures told { let roster = roster_of self.now.cell.start.plan in switch.now.note.master < length roster.masters
            → NotifiesClient roster switch.now.note switch.now.entry session.old result session.new }
        ensures other { length (roster_of self.now.cell.start.plan).masters ≤ switch.now.note.master → (result ≡ Ok false) × (session.new ≡ session.old) }
    {
        let roster = self.cell.roster();
        if switch.note.master as usize >= roster.masters().len() {
            return Ok(false);
        }
        session.notify(roster, &switch.note, switch.entry)
    }

    /// Hands a session the next piece of its stream, at a reading of the clock in milliseconds, for so many answers
    /// that may be stored: all that `ClientSession::go_on` says of it holds of this Sentinel. Where `guard_epochs` was
    /// called, the session is told before that from which epoch requests for votes count.
    #[tactic(auto, using(crate::proofs::HeardWell::received_heard))]
    pub fn receive<R: Wait>(
        &self,
        rt: &R,
        seat: &mut ThreadSeat<J>,
        session: &mut ClientSession,
        now: u64,
        piece: &[u8],
        most: u64,
    ) -> Result<Reach, ServeFault>
        ensures { (known : Option ℕ) × TakesSome self.now.cell.start now most piece.now result seat.old.seat.view seat.new.seat.view (informed session.old known) session.new }
    {
        self.inform(session);
        let received = session.go_on(rt, &self.cell, &mut seat.seat, now, piece, most);
        if let Some(request) = session.take_far() {
            *self.far.lock(rt) = Some(request);
        }
        received
    }

    /// Tells a session from which epoch requests for votes count, where one is known.
    fn inform(&self, session: &mut ClientSession)
        ensures { (known : Option ℕ) × (session.new ≡ informed session.old known) }
    {
        if let Some(epoch) = self.known.settled() {
            session.note_epoch(epoch);
        }
    }
}
