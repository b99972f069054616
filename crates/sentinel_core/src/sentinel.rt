//! One Sentinel: it takes an input, stores what the input changed, and then sends what rests on it.

ghost use Rattle.std.specs.Prelude.{◌≡◌, ◌≢◌, ◌↔◌, ◌≤◌, ◌<◌, ◌⊎◌, ◌+◌, ◌-◌, ◌^◌, ◌++◌, [], ◌||◌, ℕ, true, false, length, OnOk, OnErr, IsOk, is_ok, IfOk, IfErr, IfSome, IfNone, IsTrue, IsFalse, IsErrOf, Some, None, vec_capacity};
ghost use Rattle.ballot_law.specs.Ballots.{Parts, card_of};
ghost use Rattle.sentinel_conf.specs.Rewritten.{rewritten, HasRunIds};
ghost use Rattle.ballot_law.specs.Limits.{IsWithinEvent};
ghost use Rattle.sentinel_rules.specs.Plans.{group_size, master_count, me, roster_of};
ghost use Rattle.sentinel_rules.specs.Parts.{output_of};
ghost use Rattle.sentinel_rules.specs.States.{opened};
ghost use Rattle.sentinel_rules.specs.Steps.{IsPartsOf, IsTake};
ghost use Rattle.sentinel_rules.specs.Takes.{next, cleared};
ghost use Rattle.sentinel_rules.specs.Ignored.{is_noticed};
ghost use Rattle.sentinel_outbox.specs.Outboxes.{Fits, room_of_sentinel};
ghost use Rattle.sentinel_core.specs.Sentinels.{IsWhole, is_busy, is_pending, is_flush};

use crate::acting::act;
use crate::undo::Undo;
use ballot_law::{Card, Command, Event, Input, Roster};
use sentinel_conf::{Conf, ConfStore, ConfText, law_run_ids, rewrite_into};
use sentinel_outbox::{
    OpenFault, Outbox, Phase, ReleaseFault, Room, StoreFault, Stores, TakeFault, Took,
};
use sentinel_rules::{
    Profile, law_ignored_inputs_change_nothing, law_inputs_are_steps, law_inputs_change_one_card,
    law_opening_is_sound,
};
use sentinel_state::{Core, FrameList, Notice, Plan, State};
use std::alloc::Global;
use std::marker::Model;

/// One Sentinel of a group, as Redis Sentinel 7.2 works.
///
/// Each input goes through three calls: `take` changes what the Sentinel keeps and holds back what it has to say,
/// `store` writes the file where something in it changed, `release` lets out what was held. So nothing leaves a
/// Sentinel that doesn't rest on its file (documentation of Redis Sentinel, "Sentinel persistent state"). Only `open`
/// takes memory.
#[derive(Drop)]
pub struct Sentinel {
    state: State,
    former: Undo,
    phase: Phase,
    change: Option<u16>,
    file: ConfText,
    alloc: Global,
}

impl Model for Sentinel {
    ghost use Rattle.sentinel_core.specs.Formers.{put_back};
    ghost use Rattle.sentinel_core.specs.Sentinels.{Whole, IsWhole};

    ghost Value = { Whole };

    ghost view = { λ sentinel. record {
      plan = sentinel.state.plan;
      core = sentinel.state.core;
      stored = put_back sentinel.state.core.kept sentinel.former;
      phase = sentinel.phase;
      change = sentinel.change;
    } };

    ghost invariant = { λ sentinel. IsWhole (record {
      plan = sentinel.state.plan;
      core = sentinel.state.core;
      stored = put_back sentinel.state.core.kept sentinel.former;
      phase = sentinel.phase;
      change = sentinel.change;
    }) };
}

impl Stores for Sentinel {
    ghost phase = { λ sentinel. sentinel.phase };

    fn phase(&self) -> Phase {
        self.phase
    }
}

/// Whether the event is FLUSHCONFIG, which has the file written though nothing changed.
fn is_flush(event: &Event) -> bool
    ensures { result ≡ is_flush event.now }
{
    match event {
        Event::Command { command, .. } => *command == Command::FlushConfig,
        _ => false,
    }
}

impl Sentinel {
    /// Opens a Sentinel of the strict profile with what its file says, at a reading of its clock in milliseconds: what
    /// the file holds is kept, the last votes among it, and nothing else. `NoMemory` drops the conf.
    pub fn open(alloc: Global, conf: Conf, now: u64) -> Result<Sentinel, OpenFault>
        ensures plan { IfOk result (λ sentinel. sentinel.plan.conf ≡ conf) }
        ensures profile { IfOk result (λ sentinel. sentinel.plan.profile ≡ Profile.Strict) }
        ensures reboots { IfOk result (λ sentinel. sentinel.plan.reboots ≡ []) }
        ensures place { IfOk result (λ sentinel. (sentinel.plan.place < group_size sentinel.plan) × (me sentinel.plan ≡ conf.id)) }
        ensures core { IfOk result (λ sentinel. sentinel.core ≡ opened sentinel.plan now) }
        ensures stored { IfOk result (λ sentinel. sentinel.stored ≡ conf.kept) }
        ensures phase { IfOk result (λ sentinel. sentinel.phase ≡ Phase.Ready) }
    {
        Sentinel::open_as(alloc, conf, Profile::Strict, now)
    }

    /// Opens a Sentinel by the rules of a profile, which stays that of this Sentinel; else as [`Sentinel::open`].
    pub fn open_as(
        alloc: Global,
        conf: Conf,
        profile: Profile,
        now: u64,
    ) -> Result<Sentinel, OpenFault>
        ensures plan { IfOk result (λ sentinel. sentinel.plan.conf ≡ conf) }
        ensures profile { IfOk result (λ sentinel. sentinel.plan.profile ≡ profile) }
        ensures reboots { IfOk result (λ sentinel. sentinel.plan.reboots ≡ []) }
        ensures place { IfOk result (λ sentinel. (sentinel.plan.place < group_size sentinel.plan) × (me sentinel.plan ≡ conf.id)) }
        ensures core { IfOk result (λ sentinel. sentinel.core ≡ opened sentinel.plan now) }
        ensures stored { IfOk result (λ sentinel. sentinel.stored ≡ conf.kept) }
        ensures phase { IfOk result (λ sentinel. sentinel.phase ≡ Phase.Ready) }
    {
        Sentinel::open_with(alloc, conf, profile, Vec::new(alloc), now)
    }

    /// Opens a Sentinel by the rules of a profile, for which a master that was started again may load its data for
    /// so many milliseconds until it counts as down, each by its number: 0, as for one beyond the end, is for ever;
    /// else as [`Sentinel::open`].
    pub fn open_with(
        alloc: Global,
        conf: Conf,
        profile: Profile,
        reboots: Vec<u64>,
        now: u64,
    ) -> Result<Sentinel, OpenFault>
        ensures plan { IfOk result (λ sentinel. sentinel.plan.conf ≡ conf) }
        ensures profile { IfOk result (λ sentinel. sentinel.plan.profile ≡ profile) }
        ensures reboots { IfOk result (λ sentinel. sentinel.plan.reboots ≡ reboots.items) }
        ensures place { IfOk result (λ sentinel. (sentinel.plan.place < group_size sentinel.plan) × (me sentinel.plan ≡ conf.id)) }
        ensures core { IfOk result (λ sentinel. sentinel.core ≡ opened sentinel.plan now) }
        ensures stored { IfOk result (λ sentinel. sentinel.stored ≡ conf.kept) }
        ensures phase { IfOk result (λ sentinel. sentinel.phase ≡ Phase.Ready) }
    {
        law_opening_is_sound();
        law_inputs_change_one_card();
        let Ok(file) = ConfText::room_for(alloc, &conf) else {
            return Err(OpenFault::NoMemory);
        };
        let plan = Plan::new(conf, profile, reboots);
        let Ok(core) = Core::open(alloc, &plan, now) else {
            return Err(OpenFault::NoMemory);
        };
        let Ok(frames) = FrameList::with_room(alloc) else {
            return Err(OpenFault::NoMemory);
        };
        let former = Undo::of(core.kept(), None);
        let state = State { plan, core, frames };
        Ok(Sentinel {
            state,
            former,
            phase: Phase::Ready,
            change: None,
            file,
            alloc,
        })
    }

    /// What is always true of a Sentinel: its plan and what it keeps are sound, it keeps as many masters as are stored,
    /// and what it keeps is stored while it is ready. A caller that is lent a Sentinel learns it by this call, which
    /// does nothing.
    pub fn is_whole(&self)
        ensures { IsWhole self.now }
    {
        let _ = &self.phase;
    }

    /// What is always true of what a Sentinel keeps: each candidate of a vote is a run id of 40 digits, so that the
    /// file is read again as it was written. A caller that is lent a Sentinel learns it by this call, which reads the
    /// candidates and does nothing else.
    pub fn has_run_ids(&self)
        ensures { HasRunIds self.now.core.kept }
    {
        law_run_ids(self.state.core.kept());
    }

    /// The allocator that it was opened with.
    pub(crate) fn alloc(&self) -> Global {
        self.alloc
    }

    /// Enough room for the outputs of any one input; the same from the opening on.
    pub fn room(&self) -> Room
        ensures { result ≡ room_of_sentinel }
    {
        Room::of_sentinel()
    }

    /// The Sentinels and the masters of its group, each in the roster's order.
    pub fn roster(&self) -> &Roster
        ensures { result.now ≡ roster_of self.now.plan }
    {
        self.state.plan.roster()
    }

    /// Its own place in the roster, which is that of its run id among those of all Sentinels.
    pub fn place(&self) -> u16
        ensures { result ≡ self.now.plan.place }
    {
        self.state.plan.place()
    }

    /// Whether it was stopped.
    pub fn is_stopped(&self) -> bool
        ensures { IsTrue result ↔ (self.now.phase ≡ Phase.Stopped) }
    {
        self.phase == Phase::Stopped
    }

    /// Stops the Sentinel for good. Its file, opened anew, starts it again.
    pub fn stop(&mut self)
        ensures { self.new ≡ record self.old { phase = Phase.Stopped } }
    {
        self.phase = Phase::Stopped;
    }

    /// What its file says, and its place in the roster, which don't change while it runs.
    pub fn plan(&self) -> &Plan
        ensures { result.now ≡ self.now.plan }
    {
        &self.state.plan
    }

    /// What it keeps while it runs: whom it finds down, how far a failover has come, its votes. Until it stored the
    /// last input that may be more than its file holds.
    pub fn core(&self) -> &Core
        ensures { result.now ≡ self.now.core }
    {
        &self.state.core
    }

    /// Takes the oldest notice of what its rules did that nobody took yet; none while an input waits to be stored, and
    /// none of one that couldn't be stored.
    pub fn take_notice(&self) -> Option<Notice> {
        match self.phase {
            Phase::Ready | Phase::Stored => self.state.core.take_notice(),
            Phase::Pending { .. } | Phase::Halted | Phase::Stopped => None,
        }
    }

    /// The stored configuration of the master with this number: where the file says that the master is. None where
    /// there is no such master.
    pub fn address_now(&self, m: u16) -> Option<Card>
        ensures some { IfSome result (λ card. (m < length self.now.stored.masters) × (card ≡ card_of self.now.stored m)) }
        ensures none { IfNone result (length self.now.stored.masters ≤ m) }
    {
        self.former.card(self.state.core.kept(), m)
    }

    /// The master and the epoch of the election that the last input brought this Sentinel.
    pub fn won(&self) -> Option<(u16, u64)>
        ensures won { IfSome result (λ won. self.now.core.won ≡ Some (record { master = won.0; epoch = won.1 })) }
        ensures none { IfNone result (self.now.core.won ≡ None) }
    {
        let win = self.state.core.won()?;
        Some((win.master, win.epoch))
    }

    /// The master whose configuration the last input changed, told until the next input is taken; an input changes that
    /// of one master at most.
    pub fn card_change(&self) -> Option<u16>
        ensures { result ≡ self.now.change }
    {
        self.change
    }

    /// Why no input can be taken now; of several faults the first.
    fn check_taking(&self, outbox: &Outbox) -> Result<(), TakeFault>
        ensures busy { IsErrOf result TakeFault.Busy ↔ (is_busy self.now.phase ≡ true) }
        ensures halted { IsErrOf result TakeFault.Halted ↔ (self.now.phase ≡ Phase.Halted) }
        ensures stopped { IsErrOf result TakeFault.Stopped ↔ (self.now.phase ≡ Phase.Stopped) }
        ensures no_room { IsErrOf result TakeFault.NoRoom
            ↔ ((self.now.phase ≡ Phase.Ready) × (¬ Fits outbox.now room_of_sentinel)) }
        ensures ready { OnOk result (self.now.phase ≡ Phase.Ready) }
        ensures fits { OnOk result (Fits outbox.now room_of_sentinel) }
    {
        match self.phase {
            Phase::Pending { .. } => Err(TakeFault::Busy),
            Phase::Stored => Err(TakeFault::Busy),
            Phase::Halted => Err(TakeFault::Halted),
            Phase::Stopped => Err(TakeFault::Stopped),
            Phase::Ready => {
                if !outbox.fits(&self.room()) {
                    return Err(TakeFault::NoRoom);
                }
                Ok(())
            }
        }
    }

    /// Takes an input: what the Sentinel keeps is what the rules make of it, and the outputs stand in the outbox as
    /// held, in their order, no more and no fewer. They show what is kept at the end of the input. To the model of the
    /// whole group an input is at most six steps of this Sentinel. An input that isn't noticed leaves all that is kept
    /// as it was, and has no outputs: what can't be read, what comes from no node of the roster or from this Sentinel
    /// itself, a hello or an answer about no master, and what is meant for others.
    ///
    /// The faults are those of [`TakeFault`], in its order; then nothing has changed. The epoch of a command is at most
    /// `MAX_EPOCH`, as `command_of` gives it. No memory is taken.
    ///
    /// Many clauses: each fault has one that says when it comes, each part of the Sentinel and of the outbox one that
    /// says what it is after.
    pub fn take(&mut self, input: &Input, outbox: &mut Outbox) -> Result<Took, TakeFault>
        requires { IsWithinEvent input.now.event }
        ensures busy { IsErrOf result TakeFault.Busy ↔ (is_busy self.old.phase ≡ true) }
        ensures halted { IsErrOf result TakeFault.Halted ↔ (self.old.phase ≡ Phase.Halted) }
        ensures stopped { IsErrOf result TakeFault.Stopped ↔ (self.old.phase ≡ Phase.Stopped) }
        ensures no_room { IsErrOf result TakeFault.NoRoom
            ↔ ((self.old.phase ≡ Phase.Ready) × (¬ Fits outbox.old room_of_sentinel)) }
        ensures refused { OnErr result ((self.new ≡ self.old) × (outbox.new ≡ outbox.old)) }
        ensures ready { OnOk result (self.old.phase ≡ Phase.Ready) }
        ensures fits { OnOk result (Fits outbox.old room_of_sentinel) }
        ensures core { OnOk result
            (self.new.core ≡ (next self.old.plan self.old.core input.entry.now.now input.entry.now.event).core) }
        ensures outputs { OnOk result
            (outbox.new.held ≡ (next self.old.plan self.old.core input.entry.now.now input.entry.now.event).outputs) }
        ensures shown { OnOk result (outbox.new.shown ≡ outbox.old.shown) }
        ensures room { OnOk result (length outbox.new.held ≤ outbox.new.shown_room) }
        ensures changed { IfOk result (λ took. IsTrue took.changed
            ↔ (self.new.core.kept ≢ self.old.core.kept)) }
        ensures unchanged { IfOk result (λ took. IsFalse took.changed → self.new.core.kept ≡ self.old.core.kept) }
        ensures phase { IfOk result (λ took. self.new.phase
            ≡ Phase.Pending (took.changed || is_flush input.entry.now.event)) }
        ensures plan { OnOk result (self.new.plan ≡ self.old.plan) }
        ensures stored { OnOk result (self.new.stored ≡ self.old.stored) }
        ensures card { OnOk result (IfSome self.new.change (λ m. (m < length self.new.core.kept.masters)
            × (card_of self.new.core.kept m ≢ card_of self.old.core.kept m))) }
        ensures other_cards { OnOk result ((m : ℕ) → self.new.change ≢ Some m
            → card_of self.new.core.kept m ≡ card_of self.old.core.kept m) }
        ensures steps { OnOk result ((parts : Parts) → IsPartsOf self.old.core parts
            → IsTake self.old.plan self.old.core parts input.entry.now.event self.new.core outbox.new.held) }
        ensures ignored { OnOk result (is_noticed self.old.plan input.entry.now.event ≡ false
            → (self.new.core ≡ cleared self.old.core) × (outbox.new.held ≡ [])) }
    {
        self.check_taking(outbox)?;
        law_inputs_are_steps();
        law_ignored_inputs_change_nothing();
        act(&mut self.state, input, outbox, &mut self.former);
        let changed = self.former.is_changed(self.state.core.kept());
        self.change = self.former.changed_card(self.state.core.kept());
        self.phase = Phase::Pending {
            must_store: changed || is_flush(&input.event),
        };
        Ok(Took { changed })
    }

    /// Stores what the last input changed: the file is written anew where something in it changed, or FLUSHCONFIG was
    /// taken, and the store isn't called otherwise. It holds the conf's own lines and what is kept.
    ///
    /// `Nothing` where no input waits to be stored: nothing has changed. `Refused` where the store refused the file,
    /// which counts as one failure of it: the Sentinel is halted, what it held is never released, and the file holds
    /// the old text or the new one. No memory is taken but what the store itself takes.
    ///
    /// Many clauses: each fault has one that says when it comes and one that says what it leaves.
    pub fn store<S: ConfStore>(&mut self, store: &mut S) -> Result<(), StoreFault>
        requires { S.failure_count store.old < 2 ^ 64 - 1 }
        ensures nothing { IsErrOf result StoreFault.Nothing ↔ (is_pending self.old.phase ≡ false) }
        ensures nothing_left { IsErrOf result StoreFault.Nothing → (self.new ≡ self.old) × (store.new ≡ store.old) }
        ensures stored { OnOk result (self.new
            ≡ record self.old { stored = self.old.core.kept; phase = Phase.Stored }) }
        ensures untouched { self.old.phase ≡ Phase.Pending false → OnOk result (store.new ≡ store.old) × IsOk result }
        ensures written { self.old.phase ≡ Phase.Pending true → OnOk result (IfSome (S.held store.new)
            (λ text. text ≡ rewritten self.old.plan.conf self.old.core.kept)) }
        ensures counted { OnOk result (S.failure_count store.new ≡ S.failure_count store.old) }
        ensures halted { IsErrOf result StoreFault.Refused
            → self.new ≡ record self.old { phase = Phase.Halted } }
        ensures refused { IsErrOf result StoreFault.Refused
            → S.failure_count store.new ≡ S.failure_count store.old + 1 }
        ensures either { IsErrOf result StoreFault.Refused → (S.held store.new ≡ S.held store.old)
            ⊎ IfSome (S.held store.new) (λ text. text ≡ rewritten self.old.plan.conf self.old.core.kept) }
        ensures known { self.old.phase ≡ Phase.Pending true
            → IfSome (S.outcome store.old (rewritten self.old.plan.conf self.old.core.kept))
            (λ known. (is_ok result ≡ known.is_stored) × (S.held store.new ≡ Some known.text)) }
        ensures kept_room { S.room store.old ≤ S.room store.new }
    {
        let Phase::Pending { must_store } = self.phase else {
            return Err(StoreFault::Nothing);
        };
        if must_store {
            rewrite_into(
                self.state.plan.conf(),
                self.state.core.kept(),
                &mut self.file,
            );
            if store.replace(self.file.as_slice()).is_err() {
                self.phase = Phase::Halted;
                return Err(StoreFault::Refused);
            }
        }
        self.former.begin(self.state.core.kept(), None);
        self.phase = Phase::Stored;
        Ok(())
    }

    /// Releases the outputs of the input that was stored last: they move to the end of what the outbox shows, and the
    /// next input can be taken. The outbox is the one of that input, with what it held.
    ///
    /// The faults are those of [`ReleaseFault`], in its order; then nothing has changed. No memory is taken.
    pub fn release(&mut self, outbox: &mut Outbox) -> Result<(), ReleaseFault>
        ensures halted { IsErrOf result ReleaseFault.Halted ↔ (self.old.phase ≡ Phase.Halted) }
        ensures unstored { IsErrOf result ReleaseFault.Unstored
            ↔ ((self.old.phase ≢ Phase.Halted) × (self.old.phase ≢ Phase.Stored)) }
        ensures refused { OnErr result ((self.new ≡ self.old) × (outbox.new ≡ outbox.old)) }
        ensures ready { OnOk result (self.new ≡ record self.old { phase = Phase.Ready }) }
        ensures was_stored { OnOk result (self.old.phase ≡ Phase.Stored) }
        ensures shown { OnOk result (outbox.new.shown ≡ outbox.old.shown ++ outbox.old.held) }
        ensures held { OnOk result (outbox.new.held ≡ []) }
    {
        match self.phase {
            Phase::Stored => {
                outbox.show_stored(&*self);
                self.phase = Phase::Ready;
                Ok(())
            }
            Phase::Halted => Err(ReleaseFault::Halted),
            Phase::Ready => Err(ReleaseFault::Unstored),
            Phase::Pending { .. } => Err(ReleaseFault::Unstored),
            Phase::Stopped => Err(ReleaseFault::Unstored),
        }
    }
}
