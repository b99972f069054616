//! A run with a stop in it.

ghost use Rattle.std.specs.Prelude.{◌≡◌, ◌≤◌, ◌++◌, ◌∷◌, All, IfOk, OnOk, length, take, drop};
ghost use Rattle.ballot_law.specs.declared.messages.NodeName.TheVariants.{SentinelAt};
ghost use Rattle.fault_world.specs.Scenarios.Within.{IsWithinStep};
ghost use Rattle.fault_world.specs.Limits.{IsWithinLimits};

use ballot_law::{Event, Input, KeptText, NoMemory, NodeName, Step, Text};
use node_texts::copy_of;
use std::alloc::Global;

/// A copy of what happens at a node.
fn copy_of_event(alloc: Global, event: &Event) -> Result<Event, NoMemory>
    ensures { IfOk result (λ copy. copy ≡ event.now) }
{
    match event {
        &Event::Tick { master, random } => Ok(Event::Tick { master, random }),
        &Event::Command { sender, command } => Ok(Event::Command { sender, command }),
        &Event::Answered {
            voter,
            master,
            addr,
            down,
            leader,
            epoch,
        } => Ok(Event::Answered {
            voter,
            master,
            addr,
            down,
            leader,
            epoch,
        }),
        &Event::Pinged { node, reply } => Ok(Event::Pinged { node, reply }),
        Event::InfoRead { node, text } => Ok(Event::InfoRead {
            node: *node,
            text: Text::from_slice(alloc, text.as_slice())?,
        }),
        Event::HelloRead { text } => Ok(Event::HelloRead {
            text: Text::from_slice(alloc, text.as_slice())?,
        }),
        &Event::Disconnected { node } => Ok(Event::Disconnected { node }),
        &Event::Refused { node } => Ok(Event::Refused { node }),
        &Event::Become {
            priority,
            offset,
            link_down,
        } => Ok(Event::Become {
            priority,
            offset,
            link_down,
        }),
        Event::Handed(message) => Ok(Event::Handed(copy_of(alloc, message)?)),
    }
}

/// A copy of a step.
fn copy_of_step(alloc: Global, step: &Step) -> Result<Step, NoMemory>
    ensures { IfOk result (λ copy. copy ≡ step.now) }
{
    match step {
        Step::Take { node, input } => {
            let event = copy_of_event(alloc, &input.event)?;
            let now = input.now;
            Ok(Step::Take {
                node: *node,
                input: Input { now, event },
            })
        }
        Step::Deliver { message, now } => Ok(Step::Deliver {
            message: *message,
            now: *now,
        }),
        Step::Store { node } => Ok(Step::Store { node: *node }),
        Step::StoreRefused { node, left } => Ok(Step::StoreRefused {
            node: *node,
            left: *left,
        }),
        Step::Release { node } => Ok(Step::Release { node: *node }),
        Step::Stop { node, left } => Ok(Step::Stop {
            node: *node,
            left: *left,
        }),
        Step::Start { node, now } => Ok(Step::Start {
            node: *node,
            now: *now,
        }),
        Step::Answer { node, master } => Ok(Step::Answer {
            node: *node,
            master: *master,
        }),
    }
}

/// Adds copies of these steps.
fn add_copies(alloc: Global, made: &mut Vec<Step>, steps: &[Step]) -> Result<(), NoMemory>
    ensures { OnOk result (made.new.items ≡ made.old.items ++ steps.now) }
{
    for step in steps {
        made.push(copy_of_step(alloc, step)?)?;
    }
    Ok(())
}

/// These steps with a stop of Sentinel `s` behind the first `k`, and a start of it at this reading right behind the
/// stop: the first `k` steps, the stop, which leaves this text where it comes within a take, the start, and the steps
/// behind them. `k` is at most the number of the steps. `NoMemory` leaves nothing.
pub fn with_stop(
    alloc: Global,
    steps: &[Step],
    k: usize,
    s: u16,
    kept: KeptText,
    now: u64,
) -> Result<Vec<Step>, NoMemory>
    requires { k ≤ length steps.now }
    ensures steps { IfOk result (λ made. made.items
        ≡ take k steps.now ++ Step.Stop (SentinelAt s) kept ∷ Step.Start (SentinelAt s) now ∷ drop k steps.now) }
    ensures within { All IsWithinStep steps.now → IfOk result (λ made. All IsWithinStep made.items) }
    ensures limits { All IsWithinLimits steps.now → IfOk result (λ made. All IsWithinLimits made.items) }
{
    let node = NodeName::SentinelAt(s);
    let mut made = Vec::new(alloc);
    add_copies(alloc, &mut made, &steps[..k])?;
    made.push(Step::Stop { node, left: kept })?;
    made.push(Step::Start { node, now })?;
    add_copies(alloc, &mut made, &steps[k..])?;
    Ok(made)
}
