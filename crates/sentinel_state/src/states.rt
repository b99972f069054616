//! A Sentinel at work.

ghost use Rattle.std.specs.Prelude.{◌≡◌};
ghost use Rattle.ballot_law.specs.Clocks.{clock};
ghost use Rattle.sentinel_rules.specs.States.{card_place};
ghost use Rattle.sentinel_rules.specs.Ticks.{nodes_part, peers_part};
ghost use Rattle.sentinel_state.specs.Parts.{with_part};

use crate::cores::Core;
use crate::nodes::{FrameList, Plan, send_each_peer};
use ballot_law::clock_of;

/// A Sentinel at work.
#[derive(Drop)]
pub struct State {
    /// What never changes.
    pub plan: Plan,
    /// What it keeps.
    pub core: Core,
    /// What the input in hand has put out so far.
    pub frames: FrameList,
}

impl State {
    /// Sends each other Sentinel its PING where it is due, with the tick of the first master alone.
    pub fn send_peers(&mut self, m: u16, now: u64)
        ensures { self.new ≡ with_part self.old (peers_part self.old.plan m (clock now) self.old.core) }
    {
        if m == 0 {
            send_each_peer(
                &mut self.core.peers,
                &self.plan,
                clock_of(now),
                &mut self.frames,
            );
        }
    }

    /// Sends each data node of a master what is due, by address: PING, INFO, a hello. `card_at` is the place of the
    /// node that the configuration names. Nothing where there is no such master.
    pub fn send_nodes(&mut self, m: u16, now: u64, card_at: usize)
        requires { card_at ≡ card_place self.old.plan self.old.core m }
        ensures { self.new ≡ with_part self.old (nodes_part self.old.plan m (clock now) self.old.core) }
    {
        self.core
            .send_nodes(&self.plan, m, now, card_at, &mut self.frames);
    }
}
