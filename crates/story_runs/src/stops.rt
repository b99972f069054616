//! A story with a Sentinel stopped after each of its steps.

ghost use Rattle.std.specs.Prelude.{◌≤◌, length};

use crate::laws::Breaches;
use ballot_law::{KeptText, Step};
use resp2::OutText;
use scenario_replay::{Printed, Stop, Story};
use std::alloc::Global;
use std::str;

/// What the runs of a story with a stop in it came to.
#[derive(Clone, Copy, Default, PartialEq, Eq)]
pub(crate) struct Stopped {
    /// How many steps the story has.
    pub(crate) steps: u64,
    /// How many runs were made: one for each step, each Sentinel, and each text that a stop can leave.
    pub(crate) runs: u64,
    /// How many of them were refused.
    pub(crate) refused: u64,
    /// How many of those in which the stop comes last brought something else than the story.
    pub(crate) others: u64,
    /// What their reports show against the laws.
    pub(crate) breaches: Breaches,
}

/// The reading of the clocks after this number of steps: that of the last step that has one, or 0.
fn clock_behind(steps: &[Step], count: usize) -> u64
    requires { count ≤ length steps.now }
{
    let mut clock = 0;
    for step in &steps[..count] {
        match step {
            Step::Take { input, .. } => clock = input.now,
            Step::Deliver { now, .. } => clock = *now,
            Step::Start { now, .. } => clock = *now,
            _ => {}
        }
    }
    clock
}

impl Stopped {
    /// Counts a run by what it printed; none where it was refused.
    fn count(&mut self, alloc: Global, printed: Option<&OutText>) {
        self.runs = self.runs.saturating_add(1);
        let is_counted = match printed.map(|text| str::from_utf8(text.as_slice())) {
            Some(Ok(lines)) => self.breaches.count(alloc, lines).is_ok(),
            _ => false,
        };
        if !is_counted {
            self.refused = self.refused.saturating_add(1);
        }
    }

    /// Runs the story with this Sentinel stopped after each step in turn, and leaving this text. The story itself
    /// brings these lines.
    fn stop_everywhere(
        &mut self,
        alloc: Global,
        story: &Story,
        steps: &[Step],
        sentinel: u16,
        kept: KeptText,
        lines: &[u8],
    ) {
        for behind in 1..=steps.len() {
            let stop = Stop {
                behind,
                sentinel,
                kept,
                now: clock_behind(steps, behind),
            };
            let printed = story.play(Printed::Stopped(stop)).ok();
            self.count(alloc, printed.as_ref());
            let is_as_told = printed.is_some_and(|text| text.as_slice() == lines);
            if behind == steps.len() && !is_as_told {
                self.others = self.others.saturating_add(1);
            }
        }
    }
}

/// Runs the story of these steps with a stop and a start after each of them, for each of its Sentinels and both texts.
/// The story itself brings these lines.
pub(crate) fn stop_behind_each(
    alloc: Global,
    story: &Story,
    steps: &[Step],
    sentinels: u16,
    lines: &[u8],
) -> Stopped {
    let mut all = Stopped {
        steps: steps.len() as u64,
        ..Stopped::default()
    };
    for sentinel in 0..sentinels {
        for kept in [KeptText::Old, KeptText::New] {
            all.stop_everywhere(alloc, story, steps, sentinel, kept, lines);
        }
    }
    all
}
