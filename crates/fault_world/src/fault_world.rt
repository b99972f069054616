//! The group of boxed nodes, and its steps.

ghost use Rattle.std.specs.Prelude.{List, All, IfOk, IfErr, IfSome, IfNone, IsTrue, OnOk, OnErr, Some, map, take, length, slice_get, ◌≡◌, ◌≢◌, ◌↔◌, ◌<◌, ◌+◌, ◌≤◌, ◌∷◌, [], ℕ, vec_len, vec_capacity};
ghost use Rattle.ballot_law.specs.Worlds.{World, IsFree};
ghost use Rattle.boxed_nodes.specs.Images.{how_left};
ghost use Rattle.boxed_nodes.specs.Moves.{IsFresh};
ghost use Rattle.fault_world.specs.Standing.{IsReached, Begins, Stands};
ghost use Rattle.fault_world.specs.Groups.{IsGroupOf, BeginAlike};
ghost use Rattle.fault_world.specs.Refusals.{IsRefusal};
ghost use Rattle.fault_world.specs.Laws.{RunsSafely, HasBegun, GoesOn};
ghost use Rattle.fault_world.specs.Limits.{IsWithinInput, IsWithinLimits};
ghost use Rattle.fault_world.specs.declared.entry.Entry.{Entry};
ghost use Rattle.fault_world.specs.Faults.{steps_done};
ghost use Rattle.fault_world.specs.Shown.{Shown};
ghost use Rattle.fault_world.specs.Runs.{Keeps, Leads, Tells, RunsTo, stored_by};

use crate::faults::{RunFault, WorldFault};
use crate::report::Report;
use crate::seated::Seated;
use crate::sending::send_all;
use crate::starts::members_of;
use crate::telling::{tell_released, tell_said, tell_won};
use ballot_law::{
    Advertisement, Event, Input, KeptText, Message, NoMemory, NodeName, Output, Roster, SHOWN_MAX,
    Step, law_never_falls, law_one_address, law_one_leader,
};
use boxed_nodes::{HowStored, Node};
use node_texts::event_of;
use std::alloc::Global;

/// The place of the member with this name.
fn place_of(members: &Vec<Seated>, node: NodeName) -> Option<usize>
    ensures within { IfSome result (λ k. k < length members.now.items) }
    ensures some { IfSome result (λ k. IfSome (slice_get members.now.items k) (λ m. m.name ≡ node)) }
    ensures none { IfNone result ((k : ℕ) → k < length members.now.items → IfSome (slice_get members.now.items k) (λ m. m.name ≢ node)) }
{
    for k in 0..members.len() {
        if members[k].has_name(node) {
            return Some(k);
        }
    }
    None
}

/// Whether no message has to bring the event: answers, hellos and what other nodes are handed come by delivery alone.
fn is_free(event: &Event) -> bool
    ensures { IsTrue result ↔ IsFree event.now }
{
    match event {
        Event::Tick { .. } => true,
        Event::Command { .. } => true,
        Event::Answered { .. } => false,
        Event::Pinged { .. } => true,
        Event::InfoRead { .. } => true,
        Event::HelloRead { .. } => false,
        Event::Disconnected { .. } => true,
        Event::Refused { .. } => true,
        Event::Become { .. } => true,
        Event::Handed(_) => false,
    }
}

/// How a store ends that is refused with this text.
fn how_left(left: KeptText) -> HowStored
    ensures { result ≡ how_left left }
{
    match left {
        KeptText::Old => HowStored::RefusedOld,
        KeptText::New => HowStored::RefusedNew,
    }
}

/// A group of boxed nodes with all messages that they ever sent.
#[derive(Drop)]
pub struct FaultWorld {
    roster: Roster,
    members: Vec<Seated>,
    messages: Vec<Message>,
    released: Vec<Output>,
    alloc: Global,
    ghost empty: { released.items ≡ [] },
}

impl FaultWorld {
    /// A world of fresh nodes, which begins as the model of their roster's group does: with no message, and nothing
    /// elected or said.
    ///
    /// `NotTheRoster` is told if, and only if, the nodes aren't each Sentinel and each data node of the roster, once
    /// each, and clients of different names, or one of them doesn't know the roster; `DifferentStart` of others, if,
    /// and only if, two Sentinels begin with different configurations of a master; `NoMemory` of none of these. A
    /// refusal hands the nodes back as they were.
    ///
    /// Many clauses: of a world, how it begins, what it has, and which nodes it is of; of a refusal, when it comes and
    /// what it leaves.
    pub fn new(
        alloc: Global,
        roster: Roster,
        nodes: Vec<Box<dyn Node>>,
    ) -> Result<FaultWorld, (WorldFault, Vec<Box<dyn Node>>)>
        requires { All (λ b. IsFresh (is_known b) (shows b)) nodes.items }
        ensures begins { IfOk result (λ world. Begins roster
            (Shown (λ m. m.node) (λ b. name b) (λ b. shows b) roster world.members.items world.messages.items)) }
        ensures stands { IfOk result (λ world. Stands roster
            (Shown (λ m. m.node) (λ b. name b) (λ b. shows b) roster world.members.items world.messages.items)) }
        ensures since { IfOk result (λ world. HasBegun roster
            (Shown (λ m. m.node) (λ b. name b) (λ b. shows b) roster world.members.items world.messages.items)) }
        ensures nodes { IfOk result (λ world. map (λ m. m.node) world.members.items ≡ nodes.items) }
        ensures roster { IfOk result (λ world. world.roster ≡ roster) }
        ensures messages { IfOk result (λ world. world.messages.items ≡ []) }
        ensures group { IfOk result (λ _. IsGroupOf (λ b. name b) (λ b. is_known b roster) roster nodes.items) }
        ensures alike { IfOk result (λ _. BeginAlike (λ b. name b) (λ b. shows b) roster nodes.items) }
        ensures refused { IfErr result (λ refusal. IsRefusal refusal.0
            (IsGroupOf (λ b. name b) (λ b. is_known b roster) roster nodes.items)
            (BeginAlike (λ b. name b) (λ b. shows b) roster nodes.items)) }
        ensures back { IfErr result (λ refusal. refusal.1 ≡ nodes) }
    {
        match members_of(alloc, &roster, nodes) {
            Ok(members) => Ok(FaultWorld {
                roster,
                members,
                messages: Vec::new(alloc),
                released: Vec::new(alloc),
                alloc,
            }),
            Err(refusal) => Err(refusal),
        }
    }

    /// The node takes an input that no message has to bring, if it is ready.
    fn take(&mut self, node: NodeName, input: &Input) -> Result<(), NoMemory>
        requires shown { (w : World) × Shown (λ m. m.node) (λ b. name b) (λ b. shows b) self.old.roster self.old.members.items self.old.messages.items w }
        requires within { IsWithinInput input.now.event }
        ensures ok { OnOk result (Leads self.old.roster (Step.Take node input.entry.now ∷ [])
            (Shown (λ m. m.node) (λ b. name b) (λ b. shows b) self.old.roster self.old.members.items self.old.messages.items)
            (Shown (λ m. m.node) (λ b. name b) (λ b. shows b) self.old.roster self.new.members.items self.new.messages.items)) }
        ensures err { OnErr result (Keeps
            (Shown (λ m. m.node) (λ b. name b) (λ b. shows b) self.old.roster self.old.members.items self.old.messages.items)
            (Shown (λ m. m.node) (λ b. name b) (λ b. shows b) self.old.roster self.new.members.items self.new.messages.items)) }
        ensures roster { self.new.roster ≡ self.old.roster }
    {
        if !is_free(&input.event) {
            return Ok(());
        }
        let Some(k) = place_of(&self.members, node) else {
            return Ok(());
        };
        let member = &mut self.members[k];
        member.take(input)
    }

    /// The message with this number reaches its target, if it is there, for such a node, and the node is ready.
    fn deliver(&mut self, number: u64, now: u64) -> Result<(), NoMemory>
        requires { (w : World) × Shown (λ m. m.node) (λ b. name b) (λ b. shows b) self.old.roster self.old.members.items self.old.messages.items w }
        ensures ok { OnOk result (Leads self.old.roster (Step.Deliver number now ∷ [])
            (Shown (λ m. m.node) (λ b. name b) (λ b. shows b) self.old.roster self.old.members.items self.old.messages.items)
            (Shown (λ m. m.node) (λ b. name b) (λ b. shows b) self.old.roster self.new.members.items self.new.messages.items)) }
        ensures err { OnErr result (Keeps
            (Shown (λ m. m.node) (λ b. name b) (λ b. shows b) self.old.roster self.old.members.items self.old.messages.items)
            (Shown (λ m. m.node) (λ b. name b) (λ b. shows b) self.old.roster self.new.members.items self.new.messages.items)) }
        ensures roster { self.new.roster ≡ self.old.roster }
    {
        let place = number as usize;
        if self.messages.len() <= place {
            return Ok(());
        }
        let message = &self.messages[place];
        let target = message.target;
        let Some(event) = event_of(self.alloc, message)? else {
            return Ok(());
        };
        let Some(k) = place_of(&self.members, target) else {
            return Ok(());
        };
        let input = Input { now, event };
        let member = &mut self.members[k];
        member.take(&input)
    }

    /// The node stores what it took, if it is pending, or finds that store refused, if there is something to store.
    fn store(&mut self, node: NodeName, how: HowStored, report: &mut Report) -> Result<(), NoMemory>
        requires { (w : World) × Shown (λ m. m.node) (λ b. name b) (λ b. shows b) self.old.roster self.old.members.items self.old.messages.items w }
        ensures ok { OnOk result (Tells self.old.roster (stored_by node how ∷ []) report.old.entries report.new.entries
            (Shown (λ m. m.node) (λ b. name b) (λ b. shows b) self.old.roster self.old.members.items self.old.messages.items)
            (Shown (λ m. m.node) (λ b. name b) (λ b. shows b) self.old.roster self.new.members.items self.new.messages.items)) }
        ensures err { OnErr result (Keeps
            (Shown (λ m. m.node) (λ b. name b) (λ b. shows b) self.old.roster self.old.members.items self.old.messages.items)
            (Shown (λ m. m.node) (λ b. name b) (λ b. shows b) self.old.roster self.new.members.items self.new.messages.items)) }
        ensures entries { OnErr result (report.new.entries ≡ report.old.entries) }
        ensures roster { self.new.roster ≡ self.old.roster }
    {
        report.reserve(1)?;
        let Some(k) = place_of(&self.members, node) else {
            return Ok(());
        };
        let member = &mut self.members[k];
        let won = member.store(how);
        tell_won(report, &self.roster, node, won);
        Ok(())
    }

    /// The node releases what it holds, if it has stored.
    fn release(&mut self, node: NodeName, report: &mut Report) -> Result<(), NoMemory>
        requires { (w : World) × Shown (λ m. m.node) (λ b. name b) (λ b. shows b) self.old.roster self.old.members.items self.old.messages.items w }
        ensures ok { OnOk result (Tells self.old.roster (Step.Release node ∷ []) report.old.entries report.new.entries
            (Shown (λ m. m.node) (λ b. name b) (λ b. shows b) self.old.roster self.old.members.items self.old.messages.items)
            (Shown (λ m. m.node) (λ b. name b) (λ b. shows b) self.old.roster self.new.members.items self.new.messages.items)) }
        ensures err { OnErr result (Keeps
            (Shown (λ m. m.node) (λ b. name b) (λ b. shows b) self.old.roster self.old.members.items self.old.messages.items)
            (Shown (λ m. m.node) (λ b. name b) (λ b. shows b) self.old.roster self.new.members.items self.new.messages.items)) }
        ensures entries { OnErr result (report.new.entries ≡ report.old.entries) }
        ensures roster { self.new.roster ≡ self.old.roster }
    {
        let Some(k) = place_of(&self.members, node) else {
            return Ok(());
        };
        let held = self.members[k].held_len();
        let Some(shown) = SHOWN_MAX.checked_mul(held) else {
            return Err(NoMemory);
        };
        report.reserve(shown)?;
        self.released.reserve(held)?;
        self.messages.reserve(held)?;
        let member = &mut self.members[k];
        member.release(&mut self.released);
        tell_released(report, &self.roster, node, &self.released);
        send_all(&mut self.released, &mut self.messages);
        Ok(())
    }

    /// The node stops.
    fn stop(&mut self, node: NodeName, left: KeptText)
        requires { (w : World) × Shown (λ m. m.node) (λ b. name b) (λ b. shows b) self.old.roster self.old.members.items self.old.messages.items w }
        ensures ok { Leads self.old.roster (Step.Stop node left ∷ [])
            (Shown (λ m. m.node) (λ b. name b) (λ b. shows b) self.old.roster self.old.members.items self.old.messages.items)
            (Shown (λ m. m.node) (λ b. name b) (λ b. shows b) self.old.roster self.new.members.items self.new.messages.items) }
        ensures roster { self.new.roster ≡ self.old.roster }
    {
        let Some(k) = place_of(&self.members, node) else {
            return;
        };
        let member = &mut self.members[k];
        member.stop(left);
    }

    /// The node starts, if it is stopped.
    fn start(&mut self, node: NodeName, now: u64) -> Result<(), NoMemory>
        requires { (w : World) × Shown (λ m. m.node) (λ b. name b) (λ b. shows b) self.old.roster self.old.members.items self.old.messages.items w }
        ensures ok { OnOk result (Leads self.old.roster (Step.Start node now ∷ [])
            (Shown (λ m. m.node) (λ b. name b) (λ b. shows b) self.old.roster self.old.members.items self.old.messages.items)
            (Shown (λ m. m.node) (λ b. name b) (λ b. shows b) self.old.roster self.new.members.items self.new.messages.items)) }
        ensures err { OnErr result (Keeps
            (Shown (λ m. m.node) (λ b. name b) (λ b. shows b) self.old.roster self.old.members.items self.old.messages.items)
            (Shown (λ m. m.node) (λ b. name b) (λ b. shows b) self.old.roster self.new.members.items self.new.messages.items)) }
        ensures roster { self.new.roster ≡ self.old.roster }
    {
        let Some(k) = place_of(&self.members, node) else {
            return Ok(());
        };
        let member = &mut self.members[k];
        member.start(now)
    }

    /// A client gets the configuration of a master that a Sentinel stored last, if it runs.
    fn answer(&mut self, node: NodeName, master: u16, report: &mut Report) -> Result<(), NoMemory>
        requires { (w : World) × Shown (λ m. m.node) (λ b. name b) (λ b. shows b) self.old.roster self.old.members.items self.old.messages.items w }
        ensures ok { OnOk result (Tells self.old.roster (Step.Answer node master ∷ []) report.old.entries report.new.entries
            (Shown (λ m. m.node) (λ b. name b) (λ b. shows b) self.old.roster self.old.members.items self.old.messages.items)
            (Shown (λ m. m.node) (λ b. name b) (λ b. shows b) self.old.roster self.new.members.items self.new.messages.items)) }
        ensures err { OnErr result (Keeps
            (Shown (λ m. m.node) (λ b. name b) (λ b. shows b) self.old.roster self.old.members.items self.old.messages.items)
            (Shown (λ m. m.node) (λ b. name b) (λ b. shows b) self.old.roster self.new.members.items self.new.messages.items)) }
        ensures entries { OnErr result (report.new.entries ≡ report.old.entries) }
        ensures roster { self.new.roster ≡ self.old.roster }
    {
        report.reserve(1)?;
        let NodeName::SentinelAt(sentinel) = node else {
            return Ok(());
        };
        let Some(k) = place_of(&self.members, node) else {
            return Ok(());
        };
        if let Some(card) = self.members[k].card(master) {
            tell_said(
                report,
                &self.roster,
                &Advertisement {
                    sentinel,
                    master,
                    card,
                },
            );
        }
        Ok(())
    }

    /// Makes a step, whole or not at all, and tells of what it adds.
    fn step(&mut self, step: &Step, report: &mut Report) -> Result<(), NoMemory>
        requires within { IsWithinLimits step.now }
        requires shown { (w : World) × Shown (λ m. m.node) (λ b. name b) (λ b. shows b) self.old.roster self.old.members.items self.old.messages.items w }
        ensures ok { OnOk result (Tells self.old.roster (step.now ∷ []) report.old.entries report.new.entries
            (Shown (λ m. m.node) (λ b. name b) (λ b. shows b) self.old.roster self.old.members.items self.old.messages.items)
            (Shown (λ m. m.node) (λ b. name b) (λ b. shows b) self.old.roster self.new.members.items self.new.messages.items)) }
        ensures err { OnErr result (Keeps
            (Shown (λ m. m.node) (λ b. name b) (λ b. shows b) self.old.roster self.old.members.items self.old.messages.items)
            (Shown (λ m. m.node) (λ b. name b) (λ b. shows b) self.old.roster self.new.members.items self.new.messages.items)) }
        ensures entries { OnErr result (report.new.entries ≡ report.old.entries) }
        ensures roster { self.new.roster ≡ self.old.roster }
    {
        match step {
            Step::Take { node, input } => self.take(*node, input),
            Step::Deliver { message, now } => self.deliver(*message, *now),
            Step::Store { node } => self.store(*node, HowStored::Done, report),
            Step::StoreRefused { node, left } => self.store(*node, how_left(*left), report),
            Step::Release { node } => self.release(*node, report),
            Step::Stop { node, left } => {
                self.stop(*node, *left);
                Ok(())
            }
            Step::Start { node, now } => self.start(*node, *now),
            Step::Answer { node, master } => self.answer(*node, *master, report),
        }
    }

    /// Makes the steps, one after the other.
    fn make(&mut self, steps: &[Step]) -> Result<Report, RunFault>
        requires within { All IsWithinLimits steps.now }
        requires stands { Stands self.old.roster
            (Shown (λ m. m.node) (λ b. name b) (λ b. shows b) self.old.roster self.old.members.items self.old.messages.items) }
        ensures run { IfOk result (λ report. (w : World)
            → Shown (λ m. m.node) (λ b. name b) (λ b. shows b) self.old.roster self.old.members.items self.old.messages.items w
            → RunsTo self.old.roster steps.now w report.entries
            (Shown (λ m. m.node) (λ b. name b) (λ b. shows b) self.old.roster self.new.members.items self.new.messages.items)) }
        ensures memory { IfErr result (λ fault. (news : List Entry) × ((w : World)
            → Shown (λ m. m.node) (λ b. name b) (λ b. shows b) self.old.roster self.old.members.items self.old.messages.items w
            → RunsTo self.old.roster (take (steps_done fault) steps.now) w news
            (Shown (λ m. m.node) (λ b. name b) (λ b. shows b) self.old.roster self.new.members.items self.new.messages.items))) }
        ensures below { IfErr result (λ fault. steps_done fault < length steps.now) }
        ensures stands { Stands self.old.roster
            (Shown (λ m. m.node) (λ b. name b) (λ b. shows b) self.old.roster self.new.members.items self.new.messages.items) }
        ensures roster { self.new.roster ≡ self.old.roster }
    {
        let mut report = Report::new(self.alloc);
        for k in 0..steps.len() {
            let Ok(()) = self.step(&steps[k], &mut report) else {
                return Err(RunFault::NoMemory { step: k });
            };
        }
        Ok(report)
    }

    /// Makes the steps, one after the other, and tells of the elections and advertisements that they add, in their
    /// order.
    ///
    /// Each step is one of the model of the whole group, so that for every list of steps, with what they lose, delay,
    /// repeat and refuse, and whatever stops and starts: in all that was run since the start, by this call and those
    /// before it, at most one Sentinel is elected for a master in an epoch, two advertisements of a master with one
    /// epoch have one address, and no file's epoch falls. A step moves one node at most, the one that it names or its
    /// message's target, and one that doesn't apply changes nothing: so it is with an input that only a message brings.
    /// Of the steps nothing is asked but that their numbers are within the limits: a command's epoch is at most
    /// `MAX_EPOCH`, and an INFO can show the numbers of a change.
    ///
    /// `NoMemory` says how many of the steps were made, which is fewer than all: the others weren't, and no report is
    /// given.
    ///
    /// Many clauses: of a report and of `NoMemory` each, what this call ran, and that all runs since the start go on by
    /// it.
    pub fn run(&mut self, steps: &[Step]) -> Result<Report, RunFault>
        requires within { All IsWithinLimits steps.now }
        requires stands { Stands self.old.roster
            (Shown (λ m. m.node) (λ b. name b) (λ b. shows b) self.old.roster self.old.members.items self.old.messages.items) }
        ensures run { IfOk result (λ report. (w : World)
            → Shown (λ m. m.node) (λ b. name b) (λ b. shows b) self.old.roster self.old.members.items self.old.messages.items w
            → RunsTo self.old.roster steps.now w report.entries
            (Shown (λ m. m.node) (λ b. name b) (λ b. shows b) self.old.roster self.new.members.items self.new.messages.items)) }
        ensures safe { IfOk result (λ report. (w : World) → IsReached self.old.roster w
            → Shown (λ m. m.node) (λ b. name b) (λ b. shows b) self.old.roster self.old.members.items self.old.messages.items w
            → RunsSafely self.old.roster steps.now w report.entries
            (Shown (λ m. m.node) (λ b. name b) (λ b. shows b) self.old.roster self.new.members.items self.new.messages.items)) }
        ensures memory { IfErr result (λ fault. (news : List Entry) × ((w : World)
            → Shown (λ m. m.node) (λ b. name b) (λ b. shows b) self.old.roster self.old.members.items self.old.messages.items w
            → RunsTo self.old.roster (take (steps_done fault) steps.now) w news
            (Shown (λ m. m.node) (λ b. name b) (λ b. shows b) self.old.roster self.new.members.items self.new.messages.items))) }
        ensures below { IfErr result (λ fault. steps_done fault < length steps.now) }
        ensures since { IfOk result (λ report. GoesOn self.old.roster steps.now report.entries
            (Shown (λ m. m.node) (λ b. name b) (λ b. shows b) self.old.roster self.old.members.items self.old.messages.items)
            (Shown (λ m. m.node) (λ b. name b) (λ b. shows b) self.old.roster self.new.members.items self.new.messages.items)) }
        ensures since_refused { IfErr result (λ fault. (news : List Entry) × GoesOn self.old.roster (take (steps_done fault) steps.now) news
            (Shown (λ m. m.node) (λ b. name b) (λ b. shows b) self.old.roster self.old.members.items self.old.messages.items)
            (Shown (λ m. m.node) (λ b. name b) (λ b. shows b) self.old.roster self.new.members.items self.new.messages.items)) }
        ensures stands { Stands self.old.roster
            (Shown (λ m. m.node) (λ b. name b) (λ b. shows b) self.old.roster self.new.members.items self.new.messages.items) }
        ensures roster { self.new.roster ≡ self.old.roster }
    {
        law_one_leader();
        law_one_address();
        law_never_falls();
        self.make(steps)
    }

    /// The message with this number, counted from 0 in the order of release. None where fewer were released.
    pub fn message(&self, k: usize) -> Option<&Message>
        ensures some { IfSome result (λ m. slice_get self.now.messages.items k ≡ Some m.now) }
        ensures none { IfNone result (length self.now.messages.items ≤ k) }
    {
        self.messages.get(k)
    }
}
