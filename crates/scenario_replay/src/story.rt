//! A story, from the bytes of its files to the text of what it brought.

ghost use Rattle.std.specs.Prelude.{◌≡◌, ◌++◌, ◌∷◌, ℕ, List, [], All, map, OnOk, OnErr, IfOk, IfErr, IfSome, IfNone, Some, Ok};
ghost use Rattle.conf_lines.specs.Faults.{no_memory};
ghost use Rattle.sentinel_conf.specs.Reading.{conf_of_bytes};
ghost use Rattle.boxed_nodes.specs.Moves.{IsFresh};
ghost use Rattle.fault_world.specs.Shown.{Shown};
ghost use Rattle.fault_world.specs.Laws.{HasBegun};
ghost use Rattle.scenario_replay.specs.Files.{BeginsWith, AreFirst, HasBegunWith};
ghost use Rattle.scenario_replay.specs.Playing.{IsTold};
ghost use Rattle.scenario_replay.specs.Refusals.{IsScenarioFault, IsConfFault};

use crate::faults::ReplayFault;
use crate::seats::{Seat, Seats};
use crate::steps::steps_of;
use crate::traces::trace;
use ballot_law::{KeptText, NoMemory, Roster};
use boxed_nodes::{ClientNode, DataNode, Node, SentinelNode};
use conf_lines::{ConfFault, ConfKind};
use fault_world::{FaultWorld, ScenarioFault, read_scenario_as, with_stop};
use resp2::OutText;
use sentinel_conf::{Conf, read};
use sentinel_rules::Profile;
use std::alloc::Global;

/// What a story prints.
#[derive(Clone, Copy, PartialEq, Eq)]
pub enum Printed {
    /// The lines of the elections and advertisements.
    Report,
    /// The scenario, with what each line caused.
    Trace,
    /// The lines of the elections and advertisements of the story with a stop in it.
    Stopped(Stop),
}

/// A stop and a start that a story doesn't have.
#[derive(Clone, Copy, PartialEq, Eq)]
pub struct Stop {
    /// Behind how many of the story's steps it comes; behind the last one where there are fewer.
    pub behind: usize,
    /// Which Sentinel is stopped.
    pub sentinel: u16,
    /// Which text a stop within a take leaves in its file.
    pub kept: KeptText,
    /// The reading of its clock at the start.
    pub now: u64,
}

/// A scenario with the files of its Sentinels, and their profile.
#[derive(Drop)]
pub struct Story {
    alloc: Global,
    profile: Profile,
    text: Vec<u8>,
    files: Vec<Vec<u8>>,
    first: Option<Conf>,
}

fn no_memory() -> ConfFault
    ensures { result ≡ no_memory }
{
    ConfFault {
        line: 0,
        kind: ConfKind::NoMemory,
    }
}

/// Adds a node that a run can begin with to others.
fn add(nodes: &mut Vec<Box<dyn Node>>, node: Box<dyn Node>) -> Result<(), NoMemory>
    requires node { IsFresh (is_known node) (shows node) }
    requires before { All (λ b. IsFresh (is_known b) (shows b)) nodes.old.items }
    ensures fresh { OnOk result (All (λ b. IsFresh (is_known b) (shows b)) nodes.new.items) }
    ensures added { OnOk result (nodes.new.items ≡ nodes.old.items ++ node ∷ []) }
{
    nodes.push(node)?;
    Ok(())
}

/// A Sentinel of this profile that is ready at clock 0 with what this file holds. A file of a story was read before:
/// only a refused allocation can refuse it.
fn sentinel_of(alloc: Global, file: &[u8], profile: Profile) -> Result<Box<SentinelNode>, NoMemory>
    ensures fresh { IfOk result (λ node. IsFresh (⟦<SentinelNode as Node>⟧.is_known node.value) (⟦<SentinelNode as Node>⟧.shows node.value)) }
    ensures begins { IfOk result (λ node. BeginsWith file.now (⟦<SentinelNode as Node>⟧.name node.value) (⟦<SentinelNode as Node>⟧.shows node.value)) }
{
    let Ok(node) = SentinelNode::new_as(alloc, file, profile, 0) else {
        return Err(NoMemory);
    };
    Ok(Box::new(alloc, node)?)
}

/// The world of these nodes.
fn world_of(
    alloc: Global,
    roster: Roster,
    nodes: Vec<Box<dyn Node>>,
) -> Result<FaultWorld, ReplayFault>
    requires { All (λ b. IsFresh (is_known b) (shows b)) nodes.items }
    ensures roster { IfOk result (λ world. world.roster ≡ roster) }
    ensures begun { IfOk result (λ world. HasBegun world.roster
        (Shown (λ m. m.node) (λ b. name b) (λ b. shows b) world.roster world.members.items world.messages.items)) }
    ensures held { IfOk result (λ world. (files : List (List ℕ)) → AreFirst (λ b. name b) (λ b. shows b) files nodes.items → HasBegunWith files world.roster
        (Shown (λ m. m.node) (λ b. name b) (λ b. shows b) world.roster world.members.items world.messages.items)) }
{
    match FaultWorld::new(alloc, roster, nodes) {
        Ok(world) => Ok(world),
        Err((fault, _)) => Err(ReplayFault::from(fault)),
    }
}

/// Plays the scenario with a stop in it in a world that has begun, and gives the lines of the elections and
/// advertisements that it brings.
fn tell_stopped(
    alloc: Global,
    world: &mut FaultWorld,
    scenario: &[u8],
    profile: Profile,
    stop: Stop,
) -> Result<OutText, ReplayFault>
    requires { HasBegun world.old.roster
        (Shown (λ m. (m.node.vtable, m.node.value)) (λ b. name b) (λ b. shows b) world.old.roster world.old.members.items world.old.messages.items) }
{
    let told = steps_of(alloc, scenario, profile)?;
    let behind = stop.behind.min(told.len());
    let steps = with_stop(alloc, &told, behind, stop.sentinel, stop.kept, stop.now)?;
    let report = world.run(&steps)?;
    let mut lines = OutText::new(alloc);
    report.lines(&mut lines)?;
    Ok(lines)
}

impl Story {
    /// The story of a scenario, with no Sentinel yet, which is to be played by strict ones, or the scenario's first
    /// fault.
    pub fn new(alloc: Global, text: Vec<u8>) -> Result<Story, ScenarioFault>
        ensures story { IfOk result (λ story. (story.text ≡ text) × (story.profile ≡ Profile.Strict)) }
        ensures fault { IfErr result (IsScenarioFault Profile.Strict text.items) }
    {
        Story::new_as(alloc, text, Profile::Strict)
    }

    /// The same of a story that is to be played by Sentinels of this profile.
    pub fn new_as(alloc: Global, text: Vec<u8>, profile: Profile) -> Result<Story, ScenarioFault>
        ensures story { IfOk result (λ story. (story.text ≡ text) × (story.profile ≡ profile)) }
        ensures fault { IfErr result (IsScenarioFault profile text.items) }
    {
        let _steps = read_scenario_as(alloc, text.as_slice(), profile)?;
        Ok(Story {
            alloc,
            profile,
            text,
            files: Vec::new(alloc),
            first: None,
        })
    }

    /// Adds the Sentinel of a file. The fault is the file's first, and then the story is as it was. The group is that
    /// of the first file.
    pub fn add_conf(&mut self, file: Vec<u8>) -> Result<(), ConfFault>
        ensures added { OnOk result (self.new.files.items ≡ self.old.files.items ++ file ∷ []) }
        ensures first { OnOk result (IfNone self.old.first (IfSome self.new.first (λ conf. conf_of_bytes file.items ≡ Ok conf))) }
        ensures later { OnOk result (IfSome self.old.first (λ conf. self.new.first ≡ Some conf)) }
        ensures story { (self.new.text ≡ self.old.text) × (self.new.profile ≡ self.old.profile) }
        ensures fault { IfErr result (IsConfFault file.items) }
        ensures files { OnErr result (self.new.files.items ≡ self.old.files.items) }
        ensures group { OnErr result (self.new.first ≡ self.old.first) }
    {
        let conf = read(self.alloc, file.as_slice())?;
        if self.files.push(file).is_err() {
            return Err(no_memory());
        }
        if self.first.is_none() {
            self.first = Some(conf);
        }
        Ok(())
    }

    /// Plays the story in a world that has begun with its files, and gives the lines of the elections and
    /// advertisements that it brings.
    fn tell(&self, world: &mut FaultWorld) -> Result<OutText, ReplayFault>
        requires { HasBegunWith (map (λ f. f.items) self.now.files.items) world.old.roster
            (Shown (λ m. (m.node.vtable, m.node.value)) (λ b. name b) (λ b. shows b) world.old.roster world.old.members.items world.old.messages.items) }
        ensures { IfOk result (IsTold self.now.profile world.old.roster (map (λ f. f.items) self.now.files.items) self.now.text.items) }
    {
        let steps = steps_of(self.alloc, self.text.as_slice(), self.profile)?;
        let report = world.run(&steps)?;
        let mut text = OutText::new(self.alloc);
        report.lines(&mut text)?;
        Ok(text)
    }

    /// Plays the story from the beginning, and gives what is to be printed.
    ///
    /// The Sentinels are ready at clock 0 with what their files hold. Data nodes and clients, one for each master, are
    /// those of the first file. A story of no file is `NotTheRoster`.
    pub fn play(&self, printed: Printed) -> Result<OutText, ReplayFault>
        ensures told { IfSome self.now.first (λ conf. IfOk result (λ text. printed ≡ Printed.Report
            → IsTold self.now.profile conf.roster (map (λ f. f.items) self.now.files.items) self.now.text.items text)) }
    {
        let Some(conf) = &self.first else {
            return Err(ReplayFault::NotTheRoster);
        };
        let seats = Seats::of(self.files.len(), conf.roster());
        let mut nodes: Vec<Box<dyn Node>> = Vec::new(self.alloc);
        for number in 0..seats.count() {
            match seats.at(number) {
                Some(Seat::Sentinel(place)) => {
                    let node = sentinel_of(self.alloc, &self.files[place], self.profile)?;
                    add(&mut nodes, node)?;
                }
                Some(Seat::Store(number)) => {
                    if let Some(node) = DataNode::new(conf, number) {
                        add(&mut nodes, Box::new(self.alloc, node)?)?;
                    }
                }
                Some(Seat::Client(number)) => {
                    let node = ClientNode::new(self.alloc, conf, number, number)?;
                    add(&mut nodes, Box::new(self.alloc, node)?)?;
                }
                None => {}
            }
        }
        let roster = conf.roster().copy(self.alloc)?;
        let mut world = world_of(self.alloc, roster, nodes)?;
        match printed {
            Printed::Report => self.tell(&mut world),
            Printed::Trace => trace(self.alloc, &mut world, &self.text, self.profile),
            Printed::Stopped(stop) => {
                tell_stopped(self.alloc, &mut world, &self.text, self.profile, stop)
            },
        }
    }
}
