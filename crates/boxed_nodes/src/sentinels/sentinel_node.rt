//! A Sentinel with its file in memory.

ghost use Rattle.std.specs.Prelude.{true, false, ◌≡◌, ◌≢◌, ◌↔◌, ◌≤◌, ◌<◌, ◌⊎◌, ◌++◌, ◌||◌, [], Ok, Err, IfOk, IfErr, OnOk, OnErr, IsErrOf, IsTrue, is_ok, length};
ghost use Rattle.std.specs.List.{AllByRecursion};
ghost use Rattle.ballot_law.specs.declared.messages.NodeName.TheVariants.{SentinelAt};
ghost use Rattle.sentinel_conf.specs.Reading.{FILE_MAX, conf_of_bytes};
ghost use Rattle.sentinel_conf.specs.Rewritten.{rewritten};
ghost use Rattle.sentinel_rules.specs.Plans.{roster_of};
ghost use Rattle.sentinel_rules.specs.States.{opened};
ghost use Rattle.sentinel_rules.specs.Takes.{next};
ghost use Rattle.sentinel_core.specs.Sentinels.{is_pending, is_flush};
ghost use Rattle.sentinel_outbox.specs.Outboxes.{Fits, room_of_sentinel};
ghost use Rattle.sentinel_outbox.specs.declared.phase.Phase.TheVariants as phase;
ghost use Rattle.boxed_nodes.specs.Moves.{IsFresh, Stays, Takes, Refuses, Stores, Releases, Stops, Starts, IsNamed};
ghost use Rattle.boxed_nodes.specs.Sendable.{IsTakeable, IsSendableOutput, IsHeldBy};
ghost use Rattle.boxed_nodes.specs.Sentinels.Files.{refusal_of, outcome_with, text_left, FitsAFile};
ghost use Rattle.boxed_nodes.specs.Sentinels.Kinds.{is_running, IsImageOf};

use crate::calls::HowStored;
use crate::node::Node;
use ballot_law::{Card, Input, KeptText, NodeName, Roster};
use conf_lines::{ConfFault, ConfKind};
use sentinel_conf::{FILE_MAX, MemoryStore, law_read_again, read};
use sentinel_core::Sentinel;
use sentinel_outbox::{OpenFault, Outbox, ReleaseFault, Room, StoreFault, TakeFault, Took};
use sentinel_rules::{Profile, law_opening_is_sound, law_outputs_are_within};
use std::alloc::Global;

/// A Sentinel with its file in memory.
#[derive(Drop)]
pub struct SentinelNode {
    sentinel: Sentinel,
    file: MemoryStore,
    alloc: Global,
    ghost counted: { is_running sentinel.phase ≡ true → file.failed ≡ 0 },
    ghost few: { file.failed ≤ 1 },
    ghost roomy: { FILE_MAX ≤ file.room },
    ghost fits: { FitsAFile sentinel.plan.conf },
}

impl SentinelNode {
    ghost use Rattle.sentinel_core.specs.Sentinels.{IsWhole};

    /// A strict Sentinel with this file, ready at this reading of its clock with what the file holds, or the first
    /// fault of the file.
    pub fn new(alloc: Global, bytes: &[u8], now: u64) -> Result<SentinelNode, ConfFault>
        ensures text { IfOk result (λ node. node.file.text ≡ bytes.now) }
        ensures read { IfOk result (λ node. conf_of_bytes bytes.now ≡ Ok node.sentinel.plan.conf) }
        ensures core { IfOk result (λ node. node.sentinel.core ≡ opened node.sentinel.plan now) }
        ensures stored { IfOk result (λ node. node.sentinel.stored ≡ node.sentinel.plan.conf.kept) }
        ensures ready { IfOk result (λ node. node.sentinel.phase ≡ phase.Ready) }
        ensures profile { IfOk result (λ node. node.sentinel.plan.profile ≡ Profile.Strict) }
        ensures fresh { IfOk result (λ node. IsFresh (λ roster. roster_of node.sentinel.plan ≡ roster) (IsImageOf node.sentinel node.file.text)) }
        ensures fault { IfErr result (λ fault. (fault ≡ record { line = 0; kind = ConfKind.NoMemory }) ⊎ (conf_of_bytes bytes.now ≡ Err fault)) }
    {
        SentinelNode::new_as(alloc, bytes, Profile::Strict, now)
    }

    /// A Sentinel of this profile, which stays its own after a stop too; else as [`SentinelNode::new`].
    pub fn new_as(
        alloc: Global,
        bytes: &[u8],
        profile: Profile,
        now: u64,
    ) -> Result<SentinelNode, ConfFault>
        ensures text { IfOk result (λ node. node.file.text ≡ bytes.now) }
        ensures read { IfOk result (λ node. conf_of_bytes bytes.now ≡ Ok node.sentinel.plan.conf) }
        ensures core { IfOk result (λ node. node.sentinel.core ≡ opened node.sentinel.plan now) }
        ensures stored { IfOk result (λ node. node.sentinel.stored ≡ node.sentinel.plan.conf.kept) }
        ensures ready { IfOk result (λ node. node.sentinel.phase ≡ phase.Ready) }
        ensures profile { IfOk result (λ node. node.sentinel.plan.profile ≡ profile) }
        ensures fresh { IfOk result (λ node. IsFresh (λ roster. roster_of node.sentinel.plan ≡ roster) (IsImageOf node.sentinel node.file.text)) }
        ensures fault { IfErr result (λ fault. (fault ≡ record { line = 0; kind = ConfKind.NoMemory }) ⊎ (conf_of_bytes bytes.now ≡ Err fault)) }
    {
        law_opening_is_sound();
        law_read_again();
        let conf = read(alloc, bytes)?;
        let Ok(file) = MemoryStore::with_room(alloc, bytes, FILE_MAX) else {
            return Err(no_memory());
        };
        let Ok(sentinel) = Sentinel::open_as(alloc, conf, profile, now) else {
            return Err(no_memory());
        };
        sentinel.is_whole();
        Ok(SentinelNode {
            sentinel,
            file,
            alloc,
        })
    }

    /// What every call that ends asks of the Sentinel.
    fn is_whole(&self)
        ensures { IsWhole self.now.sentinel }
    {
        self.sentinel.is_whole();
    }

    fn stop_old(&mut self)
        ensures stops { Stops KeptText.Old (IsImageOf self.old.sentinel self.old.file.text) (IsImageOf self.new.sentinel self.new.file.text) }
        ensures stopped { self.new.sentinel ≡ record self.old.sentinel { phase = phase.Stopped } }
        ensures file { self.new.file ≡ self.old.file }
    {
        self.sentinel.stop();
        self.is_whole();
    }

    fn stop_new(&mut self)
        ensures stops { Stops KeptText.New (IsImageOf self.old.sentinel self.old.file.text) (IsImageOf self.new.sentinel self.new.file.text) }
        ensures plan { self.new.sentinel.plan ≡ self.old.sentinel.plan }
        ensures core { self.new.sentinel.core ≡ self.old.sentinel.core }
        ensures stopped { self.new.sentinel.phase ≡ phase.Stopped }
        ensures text { self.new.file.text ≡ text_left KeptText.New self.old.sentinel self.old.file.text }
    {
        law_read_again();
        self.sentinel.has_run_ids();
        self.is_whole();
        self.file.refuse_none();
        let _stored = self.sentinel.store(&mut self.file);
        self.is_whole();
        self.sentinel.stop();
        self.is_whole();
    }
}

fn no_memory() -> ConfFault
    ensures { result ≡ record { line = 0; kind = ConfKind.NoMemory } }
{
    ConfFault {
        line: 0,
        kind: ConfKind::NoMemory,
    }
}

/// Has the next replacement in this file end so.
fn refuse_as(file: &mut MemoryStore, how: HowStored)
    ensures { file.new ≡ record file.old { refusal = refusal_of how } }
{
    match how {
        HowStored::Done => file.refuse_none(),
        HowStored::RefusedOld => file.refuse_next(false),
        HowStored::RefusedNew => file.refuse_next(true),
    }
}

impl Node for SentinelNode {
    ghost use Rattle.ballot_law.specs.declared.messages.NodeName.TheVariants.{SentinelAt};
    ghost use Rattle.sentinel_rules.specs.Plans.{roster_of};
    ghost use Rattle.sentinel_outbox.specs.Outboxes.{room_of_sentinel};

    ghost name = { λ node. SentinelAt node.sentinel.plan.place };

    ghost is_known = { λ node roster. roster_of node.sentinel.plan ≡ roster };

    ghost room_needed = { λ _. room_of_sentinel };

    ghost shows = { λ node. IsImageOf node.sentinel node.file.text };

    fn kind(&self) -> NodeName {
        NodeName::SentinelAt(self.sentinel.place())
    }

    fn room(&self) -> Room {
        self.sentinel.room()
    }

    fn knows(&self, roster: &Roster) -> bool {
        self.sentinel.roster().is_same(roster)
    }

    fn card(&self, m: u16) -> Option<Card> {
        if self.sentinel.is_stopped() {
            return None;
        }
        self.sentinel.address_now(m)
    }

    fn won(&self) -> Option<(u16, u64)> {
        self.sentinel.won()
    }

    // Many clauses: nine are the trait's, said again for this node, and the last eight are those of the Sentinel
    // inside.
    fn take(&mut self, input: &Input, outbox: &mut Outbox) -> Result<Took, TakeFault>
        requires { IsTakeable input.now.event }
        ensures takes { OnOk result (Takes (SentinelAt self.old.sentinel.plan.place) input.entry.now.event outbox.new.held
            (IsImageOf self.old.sentinel self.old.file.text) (IsImageOf self.new.sentinel self.new.file.text)) }
        ensures sendable { OnOk result (AllByRecursion IsSendableOutput outbox.new.held) }
        ensures held { OnOk result (IsHeldBy (SentinelAt self.old.sentinel.plan.place) outbox.new.held) }
        ensures fits { OnOk result (Fits outbox.old room_of_sentinel) }
        ensures shown { OnOk result (outbox.new.shown ≡ outbox.old.shown) }
        ensures refuses { IfErr result (Refuses (IsImageOf self.old.sentinel self.old.file.text) (Fits outbox.old room_of_sentinel)) }
        ensures stays { OnErr result (Stays
            (IsImageOf self.old.sentinel self.old.file.text) (IsImageOf self.new.sentinel self.new.file.text)) }
        ensures err { OnErr result (outbox.new ≡ outbox.old) }
        ensures name { SentinelAt self.new.sentinel.plan.place ≡ SentinelAt self.old.sentinel.plan.place }
        ensures core { OnOk result (self.new.sentinel.core
            ≡ (next self.old.sentinel.plan self.old.sentinel.core input.entry.now.now input.entry.now.event).core) }
        ensures outputs { OnOk result (outbox.new.held
            ≡ (next self.old.sentinel.plan self.old.sentinel.core input.entry.now.now input.entry.now.event).outputs) }
        ensures changed { IfOk result (λ took. IsTrue took.changed
            ↔ (self.new.sentinel.core.kept ≢ self.old.sentinel.core.kept)) }
        ensures pending { IfOk result (λ took. self.new.sentinel.phase
            ≡ phase.Pending (took.changed || is_flush input.entry.now.event)) }
        ensures plan { OnOk result (self.new.sentinel.plan ≡ self.old.sentinel.plan) }
        ensures stored { OnOk result (self.new.sentinel.stored ≡ self.old.sentinel.stored) }
        ensures file { self.new.file ≡ self.old.file }
        ensures same { OnErr result (self.new.sentinel ≡ self.old.sentinel) }
    {
        law_outputs_are_within();
        self.is_whole();
        let took = self.sentinel.take(input, outbox);
        self.is_whole();
        took
    }

    fn store(&mut self, how: HowStored) -> Result<(), StoreFault>
        ensures stores { Stores how result
            (IsImageOf self.old.sentinel self.old.file.text) (IsImageOf self.new.sentinel self.new.file.text) }
        ensures name { SentinelAt self.new.sentinel.plan.place ≡ SentinelAt self.old.sentinel.plan.place }
        ensures nothing { IsErrOf result StoreFault.Nothing ↔ (is_pending self.old.sentinel.phase ≡ false) }
        ensures same { IsErrOf result StoreFault.Nothing
            → (self.new.sentinel ≡ self.old.sentinel) × (self.new.file.text ≡ self.old.file.text) }
        ensures stored { OnOk result (self.new.sentinel
            ≡ record self.old.sentinel { stored = self.old.sentinel.core.kept; phase = phase.Stored }) }
        ensures halted { IsErrOf result StoreFault.Refused
            → self.new.sentinel ≡ record self.old.sentinel { phase = phase.Halted } }
        ensures untouched { self.old.sentinel.phase ≡ phase.Pending false
            → (is_ok result ≡ true) × (self.new.file.text ≡ self.old.file.text) }
        ensures answer { self.old.sentinel.phase ≡ phase.Pending true → is_ok result
            ≡ (outcome_with how self.old.file.text (rewritten self.old.sentinel.plan.conf self.old.sentinel.core.kept)).is_stored }
        ensures written { self.old.sentinel.phase ≡ phase.Pending true → self.new.file.text
            ≡ (outcome_with how self.old.file.text (rewritten self.old.sentinel.plan.conf self.old.sentinel.core.kept)).text }
    {
        law_read_again();
        self.sentinel.has_run_ids();
        self.is_whole();
        refuse_as(&mut self.file, how);
        let stored = self.sentinel.store(&mut self.file);
        self.is_whole();
        stored
    }

    fn release(&mut self, outbox: &mut Outbox) -> Result<(), ReleaseFault>
        requires { IsHeldBy (SentinelAt self.old.sentinel.plan.place) outbox.old.held }
        ensures releases { Releases result
            (IsImageOf self.old.sentinel self.old.file.text) (IsImageOf self.new.sentinel self.new.file.text) }
        ensures shown { OnOk result (outbox.new.shown ≡ outbox.old.shown ++ outbox.old.held) }
        ensures held { OnOk result (outbox.new.held ≡ []) }
        ensures err { OnErr result (outbox.new ≡ outbox.old) }
        ensures name { SentinelAt self.new.sentinel.plan.place ≡ SentinelAt self.old.sentinel.plan.place }
        ensures ready { OnOk result (self.new.sentinel ≡ record self.old.sentinel { phase = phase.Ready }) }
        ensures file { self.new.file ≡ self.old.file }
        ensures same { OnErr result (self.new.sentinel ≡ self.old.sentinel) }
    {
        let released = self.sentinel.release(outbox);
        self.is_whole();
        released
    }

    fn stop(&mut self, left: KeptText)
        ensures stops { Stops left
            (IsImageOf self.old.sentinel self.old.file.text) (IsImageOf self.new.sentinel self.new.file.text) }
        ensures name { SentinelAt self.new.sentinel.plan.place ≡ SentinelAt self.old.sentinel.plan.place }
        ensures plan { self.new.sentinel.plan ≡ self.old.sentinel.plan }
        ensures core { self.new.sentinel.core ≡ self.old.sentinel.core }
        ensures stopped { self.new.sentinel.phase ≡ phase.Stopped }
        ensures text { self.new.file.text ≡ text_left left self.old.sentinel self.old.file.text }
    {
        match left {
            KeptText::Old => self.stop_old(),
            KeptText::New => self.stop_new(),
        }
    }

    fn start(&mut self, now: u64) -> Result<(), OpenFault>
        ensures starts { OnOk result (Starts
            (IsImageOf self.old.sentinel self.old.file.text) (IsImageOf self.new.sentinel self.new.file.text)) }
        ensures stays { OnErr result (Stays
            (IsImageOf self.old.sentinel self.old.file.text) (IsImageOf self.new.sentinel self.new.file.text)) }
        ensures name { IsNamed (IsImageOf self.old.sentinel self.old.file.text)
            (SentinelAt self.old.sentinel.plan.place) (SentinelAt self.new.sentinel.plan.place) }
        ensures read { OnOk result (conf_of_bytes self.old.file.text ≡ Ok self.new.sentinel.plan.conf) }
        ensures core { OnOk result (self.new.sentinel.core ≡ opened self.new.sentinel.plan now) }
        ensures stored { OnOk result (self.new.sentinel.stored ≡ self.new.sentinel.plan.conf.kept) }
        ensures ready { OnOk result (self.new.sentinel.phase ≡ phase.Ready) }
        ensures text { self.new.file.text ≡ self.old.file.text }
        ensures same { OnErr result (self.new.sentinel ≡ self.old.sentinel) }
    {
        law_opening_is_sound();
        law_read_again();
        let Ok(conf) = read(self.alloc, self.file.text()) else {
            return Err(OpenFault::NoMemory);
        };
        let profile = self.sentinel.plan().profile();
        let sentinel = Sentinel::open_as(self.alloc, conf, profile, now)?;
        self.sentinel = sentinel;
        self.file.begin_again();
        self.is_whole();
        Ok(())
    }
}
