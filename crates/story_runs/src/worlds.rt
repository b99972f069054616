//! Stories by the public calls of a world. A call that lacked memory is made once more, on what it left.

ghost use Rattle.std.specs.Prelude.{All, OnOk, IfOk, IfSome};
ghost use Rattle.boxed_nodes.specs.Moves.{IsFresh};
ghost use Rattle.fault_world.specs.Limits.{IsWithinLimits};
ghost use Rattle.fault_world.specs.Shown.{Shown};
ghost use Rattle.fault_world.specs.Standing.{Stands};

use ballot_law::{KeptText, NoMemory, Roster, Step};
use boxed_nodes::Node;
use conf_lines::ConfFault;
use fault_world::{
    ClientNode, DataNode, FaultWorld, Report, RunFault, SentinelNode, WorldFault,
    law_scenarios_are_within, read_scenario, with_stop,
};
use resp2::OutText;
use sentinel_conf::Conf;
use std::alloc::{AllocFailed, Global};

/// Why a story isn't played.
#[derive(Clone, Copy, PartialEq, Eq)]
pub(crate) enum Refusal {
    /// Memory was refused before there was a world to be made.
    NoNodes,
    /// The world was refused.
    NoWorld(WorldFault),
    /// A call of the world was refused twice.
    NoRun,
}

impl<T: Drop> From<AllocFailed<T>> for Refusal {
    fn from(_error: AllocFailed<T>) -> Refusal {
        Refusal::NoNodes
    }
}

impl From<NoMemory> for Refusal {
    fn from(_error: NoMemory) -> Refusal {
        Refusal::NoNodes
    }
}

impl From<ConfFault> for Refusal {
    /// The file was read before, so only memory can be lacking.
    fn from(_error: ConfFault) -> Refusal {
        Refusal::NoNodes
    }
}

impl From<RunFault> for Refusal {
    fn from(_error: RunFault) -> Refusal {
        Refusal::NoRun
    }
}

/// The steps of a scenario, which a world can run; none where it can't be read.
pub(crate) fn steps_of(alloc: Global, text: &[u8]) -> Option<Vec<Step>>
    ensures { IfSome result (λ steps. All IsWithinLimits steps.items) }
{
    law_scenarios_are_within();
    match read_scenario(alloc, text) {
        Ok(steps) => Some(steps),
        Err(_) => None,
    }
}

/// How the steps of a story are made.
#[derive(Clone, Copy, PartialEq, Eq)]
pub(crate) enum Calls {
    /// Each by a call of its own.
    OneByOne,
    /// All by one call, with a stop and a start of the first Sentinel after the last.
    AtOnce,
}

/// The lines of what a story brings.
#[derive(Drop)]
pub(crate) struct Lines {
    /// The lines.
    pub(crate) text: OutText,
    /// How many steps, the first ones, have no lines here: a call that makes some of its steps and then lacks memory
    /// gives no report.
    pub(crate) untold: usize,
}

/// Adds the lines of a report; once more where they lacked memory, which left the text as it was.
fn add_lines(text: &mut OutText, report: &Report) -> Result<(), Refusal> {
    if report.lines(text).is_ok() || report.lines(text).is_ok() {
        return Ok(());
    }
    Err(Refusal::NoRun)
}

/// Makes the steps, and adds the lines of what they bring. Where memory is refused, the steps that weren't made are
/// made by a second call, and the lines are of these.
fn run_on(world: &mut FaultWorld, steps: &[Step], lines: &mut Lines) -> Result<(), Refusal>
    requires within { All IsWithinLimits steps.now }
    requires stands { Stands world.old.roster
        (Shown (λ m. (m.node.vtable, m.node.value)) (λ b. name b) (λ b. shows b) world.old.roster world.old.members.items world.old.messages.items) }
    ensures { Stands world.new.roster
        (Shown (λ m. (m.node.vtable, m.node.value)) (λ b. name b) (λ b. shows b) world.new.roster world.new.members.items world.new.messages.items) }
{
    match world.run(steps) {
        Ok(report) => add_lines(&mut lines.text, &report),
        Err(RunFault::NoMemory { step }) => {
            lines.untold = step;
            let report = world.run(&steps[step..])?;
            add_lines(&mut lines.text, &report)
        }
    }
}

/// Makes each step by a call of its own, and adds the lines of what they bring.
fn run_one_by_one(world: &mut FaultWorld, steps: &[Step], lines: &mut Lines) -> Result<(), Refusal>
    requires within { All IsWithinLimits steps.now }
    requires stands { Stands world.old.roster
        (Shown (λ m. (m.node.vtable, m.node.value)) (λ b. name b) (λ b. shows b) world.old.roster world.old.members.items world.old.messages.items) }
{
    for k in 0..steps.len() {
        run_on(world, &steps[k..=k], lines)?;
    }
    Ok(())
}

/// The steps with a stop and a start of the first Sentinel after the last; made once more where they lacked memory.
fn with_last_stop(alloc: Global, steps: &[Step]) -> Result<Vec<Step>, Refusal>
    requires { All IsWithinLimits steps.now }
    ensures { IfOk result (λ made. All IsWithinLimits made.items) }
{
    let last = steps.len();
    if let Ok(made) = with_stop(alloc, steps, last, 0, KeptText::Old, 0) {
        return Ok(made);
    }
    match with_stop(alloc, steps, last, 0, KeptText::Old, 0) {
        Ok(made) => Ok(made),
        Err(_) => Err(Refusal::NoRun),
    }
}

/// The lines of what the steps bring in the world.
fn lines_in(
    alloc: Global,
    world: &mut FaultWorld,
    steps: &[Step],
    calls: Calls,
) -> Result<Lines, Refusal>
    requires within { All IsWithinLimits steps.now }
    requires stands { Stands world.old.roster
        (Shown (λ m. (m.node.vtable, m.node.value)) (λ b. name b) (λ b. shows b) world.old.roster world.old.members.items world.old.messages.items) }
{
    let mut lines = Lines {
        text: OutText::new(alloc),
        untold: 0,
    };
    match calls {
        Calls::OneByOne => run_one_by_one(world, steps, &mut lines)?,
        Calls::AtOnce => {
            let stopped = with_last_stop(alloc, steps)?;
            run_on(world, &stopped, &mut lines)?;
        }
    }
    Ok(lines)
}

/// The lines of what the steps bring in a world of these nodes.
fn lines_of_nodes(
    alloc: Global,
    roster: Roster,
    nodes: Vec<Box<dyn Node>>,
    steps: &[Step],
    calls: Calls,
) -> Result<Lines, Refusal>
    requires fresh { All (λ b. IsFresh (is_known b) (shows b)) nodes.items }
    requires within { All IsWithinLimits steps.now }
{
    match FaultWorld::new(alloc, roster, nodes) {
        Ok(mut world) => lines_in(alloc, &mut world, steps, calls),
        Err((fault, _)) => Err(Refusal::NoWorld(fault)),
    }
}

/// The same; where the world lacked memory, it is made once more of the nodes that came back.
fn lines_of_group(
    alloc: Global,
    roster: &Roster,
    nodes: Vec<Box<dyn Node>>,
    steps: &[Step],
    calls: Calls,
) -> Result<Lines, Refusal>
    requires fresh { All (λ b. IsFresh (is_known b) (shows b)) nodes.items }
    requires within { All IsWithinLimits steps.now }
{
    let copy = roster.copy(alloc)?;
    let again = roster.copy(alloc)?;
    match FaultWorld::new(alloc, copy, nodes) {
        Ok(mut world) => lines_in(alloc, &mut world, steps, calls),
        Err((WorldFault::NoMemory, nodes)) => lines_of_nodes(alloc, again, nodes, steps, calls),
        Err((fault, _)) => Err(Refusal::NoWorld(fault)),
    }
}

/// Adds a node that a run can begin with to others.
fn add(nodes: &mut Vec<Box<dyn Node>>, node: Box<dyn Node>) -> Result<(), Refusal>
    requires node { IsFresh (is_known node) (shows node) }
    requires before { All (λ b. IsFresh (is_known b) (shows b)) nodes.old.items }
    ensures { OnOk result (All (λ b. IsFresh (is_known b) (shows b)) nodes.new.items) }
{
    nodes.push(node)?;
    Ok(())
}

/// The lines of what the steps bring in the world of the Sentinels of these files, with all data nodes of the roster
/// and a client for each master.
pub(crate) fn lines_of(
    alloc: Global,
    conf: &Conf,
    files: &[Vec<u8>],
    steps: &[Step],
    calls: Calls,
) -> Result<Lines, Refusal>
    requires { All IsWithinLimits steps.now }
{
    let stores = conf.roster().node_count();
    let clients = conf.roster().masters().len();
    let mut nodes: Vec<Box<dyn Node>> = Vec::new(alloc);
    for number in 0..files.len().saturating_add(stores).saturating_add(clients) {
        let place = number.saturating_sub(files.len());
        let client = place.saturating_sub(stores);
        if let Some(file) = files.get(number) {
            let node = SentinelNode::new(alloc, file, 0)?;
            add(&mut nodes, Box::new(alloc, node)?)?;
        } else if let Some(node) = DataNode::new(conf, place.min(0xffff) as u16) {
            add(&mut nodes, Box::new(alloc, node)?)?;
        } else if client < clients {
            let node = ClientNode::new(alloc, conf, client as u16, client as u16)?;
            add(&mut nodes, Box::new(alloc, node)?)?;
        }
    }
    lines_of_group(alloc, conf.roster(), nodes, steps, calls)
}
