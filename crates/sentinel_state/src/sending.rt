//! What is due is sent to the nodes that are kept.

ghost use Rattle.std.specs.Prelude.{◌≡◌, Some};
ghost use Rattle.ballot_law.specs.Clocks.{clock};
ghost use Rattle.sentinel_state.specs.Nodes.Room.{added};
ghost use Rattle.sentinel_rules.specs.Parts.{changed_from, frames_from};
ghost use Rattle.sentinel_rules.specs.States.{card_place, master_of, with_master};
ghost use Rattle.sentinel_rules.specs.Ticks.{awaits_votes, hello_period, node_after, node_frames, nodes_part, sending_of};
ghost use Rattle.sentinel_rules.specs.Profiles.{is_electing};
ghost use Rattle.std.specs.List.{list_any};

use crate::cores::Core;
use crate::masters::Master;
use crate::nodes::{FrameList, Plan, Sending, ping_period, send_each_node};
use crate::switches::{is_electing, place_followed};
use ballot_law::clock_of;
use sentinel_rules::{ASSUMED_INFO, HELLO_LATE_MS, HELLO_MS, Profile};

impl Master {
    /// Sends each of its nodes what is due.
    fn send(&mut self, plan: &Plan, m: u16, sending: Sending, frames: &mut FrameList)
        ensures nodes { self.new ≡ record self.old { nodes = changed_from (node_after sending) 0 self.old.nodes } }
        ensures frames { frames.new ≡ added frames.old (frames_from (node_frames plan.now m sending) 0 self.old.nodes) }
    {
        send_each_node(&mut self.nodes, plan, m, sending, frames);
    }
}

impl Core {
    /// Whether an own campaign for any master awaits votes.
    fn is_any_electing(&self) -> bool
        ensures { result ≡ list_any (λ master. is_electing master.failover.state) self.now.masters }
    {
        self.masters
            .iter()
            .any(|master| is_electing(master.failover.state()))
    }

    /// How often a hello is sent: half as often while an own campaign awaits votes, by the profile.
    fn hello_period(&self, plan: &Plan) -> u64
        ensures { result ≡ hello_period plan.now self.now }
    {
        match plan.profile() {
            Profile::Redis if self.is_any_electing() => HELLO_LATE_MS,
            Profile::Strict | Profile::Redis => HELLO_MS,
        }
    }

    /// What decides which messages to a master's nodes are due; `card_at` is the place of the node that the
    /// configuration names.
    fn sending(&self, plan: &Plan, m: u16, now: u64, card_at: usize) -> Sending
        requires { card_at ≡ card_place plan.now self.now m }
        ensures { result ≡ sending_of plan.now self.now m (clock now) }
    {
        let odown = match self.masters.get(m as usize) {
            Some(master) => master.odown,
            None => false,
        };
        let info = self.info(m, card_at).unwrap_or(ASSUMED_INFO);
        Sending {
            now: clock_of(now),
            ping_ms: ping_period(plan, m),
            card_place: card_at,
            is_busy: odown || self.is_failing_over(m),
            heir: self.heir(m),
            followed: place_followed(plan, m, info.master),
            looks: self.is_looking(plan, m, now),
            hello_ms: self.hello_period(plan),
        }
    }

    /// Sends each data node of a master what is due; `card_at` is the place of the node that the configuration names.
    pub(crate) fn send_nodes(
        &mut self,
        plan: &Plan,
        m: u16,
        now: u64,
        card_at: usize,
        frames: &mut FrameList,
    )
        requires { card_at ≡ card_place plan.now self.old m }
        ensures core { self.new ≡ (nodes_part plan.now m (clock now) self.old).core }
        ensures frames { frames.new ≡ added frames.old (nodes_part plan.now m (clock now) self.old).frames }
    {
        let sending = self.sending(plan, m, now, card_at);
        if let Some(master) = self.masters.get_mut(m as usize) {
            master.send(plan, m, sending, frames);
        }
    }

    /// Whether votes are awaited, of the current epoch, in which the others are asked.
    pub fn awaits_votes(&self, m: u16) -> bool
        ensures { result ≡ awaits_votes self.now m }
    {
        is_electing(self.stage(m)) && self.campaign_epoch(m) == self.kept().current
    }

    /// When the other Sentinels were last asked whether the master is down.
    pub fn ask_sent(&self, m: u16) -> Option<u64>
        ensures { result ≡ (master_of self.now m).ask_sent }
    {
        match self.masters.get(m as usize) {
            Some(master) => master.ask_sent,
            None => None,
        }
    }

    /// The other Sentinels were asked at this moment; nothing where there is no such master.
    pub fn set_ask_sent(&mut self, m: u16, at: u64)
        ensures { self.new ≡ with_master self.old m (record (master_of self.old m) { ask_sent = Some at }) }
    {
        if let Some(master) = self.masters.get_mut(m as usize) {
            master.ask_sent = Some(at);
        }
    }
}
