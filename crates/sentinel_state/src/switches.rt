//! Switches: those that a client asked for, and those that were made at the nodes.

ghost use Rattle.std.specs.Prelude.{◌≡◌, ◌<◌, ◌&&◌, None, IfSome, IsTrue, false, true, length, not, is_some};
ghost use Rattle.failover_states.specs.declared.periods.TheConstants.{ELECTION_MS};
ghost use Rattle.sentinel_rules.specs.declared.periods.TheConstants.{WISH_MS};
ghost use Rattle.ballot_law.specs.Clocks.{clock};
ghost use Rattle.failover_states.specs.Calls.{epoch_of};
ghost use Rattle.sentinel_rules.specs.Answers.{wished};
ghost use Rattle.sentinel_rules.specs.News.{order_taker};
ghost use Rattle.sentinel_rules.specs.Plans.{nodes_of};
ghost use Rattle.sentinel_rules.specs.Profiles.{is_taking_over, switched_to, is_switch_due, is_given_away, is_electing, is_asking};
ghost use Rattle.sentinel_rules.specs.States.{is_recent, is_wished, is_same_epoch, is_planned, is_unrefused, is_awaiting, is_handed, is_refused, is_at, is_master_role, says_master, says_replica, is_master_down, card_place, failover_of, master_of, node_of, with_master, is_in_progress, is_put_off, place_followed};
ghost use Rattle.sentinel_rules.specs.Ticks.{heir_of, planned_if, with_plan};

use crate::cores::Core;
use crate::masters::Master;
use crate::nodes::{Plan, is_at, position_of};
use crate::pauses::{is_down_for, is_held};
use ballot_law::{Addr, DataRole, Info, clock_of};
use failover_states::{ELECTION_MS, FailoverState};
use sentinel_rules::{ASSUMED_INFO, Profile, SWITCHED_MS, WISH_MS};

/// Whether it was so many milliseconds ago, at most.
fn is_recent(at: Option<u64>, ms: u64, now: u64) -> bool
    ensures { result ≡ is_recent at ms now }
{
    match at {
        Some(at) => now.saturating_sub(at) <= ms,
        None => false,
    }
}

/// Whether these are the same epoch.
fn is_same_epoch(one: Option<u64>, other: Option<u64>) -> bool
    ensures { result ≡ is_same_epoch one other }
{
    match (one, other) {
        (Some(one), Some(other)) => one == other,
        _ => false,
    }
}

/// Whether the choice of a failover in this state is awaited.
pub(crate) fn is_awaiting(stage: FailoverState) -> bool
    ensures { result ≡ is_awaiting stage }
{
    match stage {
        FailoverState::WaitPromotion { .. } => true,
        FailoverState::Idle => false,
        FailoverState::WaitStart { .. } => false,
        FailoverState::SelectReplica { .. } => false,
        FailoverState::SendPromotion { .. } => false,
        FailoverState::ReconfReplicas { .. } => false,
        FailoverState::UpdateConfig { .. } => false,
    }
}

/// Whether votes are awaited in this state.
pub(crate) fn is_electing(stage: FailoverState) -> bool
    ensures { result ≡ is_electing stage }
{
    match stage {
        FailoverState::WaitStart { .. } => true,
        FailoverState::Idle => false,
        FailoverState::SelectReplica { .. } => false,
        FailoverState::SendPromotion { .. } => false,
        FailoverState::WaitPromotion { .. } => false,
        FailoverState::ReconfReplicas { .. } => false,
        FailoverState::UpdateConfig { .. } => false,
    }
}

/// Whether this is the role of a master.
fn is_master_role(role: DataRole) -> bool
    ensures { result ≡ is_master_role role }
{
    match role {
        DataRole::Master => true,
        DataRole::Replica => false,
    }
}

/// Whether the last INFO of a node says that it is a master.
fn says_master(info: Option<Info>) -> bool
    ensures { result ≡ says_master info }
{
    match info {
        Some(info) => is_master_role(info.role),
        None => false,
    }
}

/// Whether the last INFO of a node says that it is a replica.
pub(crate) fn says_replica(info: Option<Info>) -> bool
    ensures { result ≡ says_replica info }
{
    match info {
        Some(info) => !is_master_role(info.role),
        None => false,
    }
}

/// The place of the node at an address.
pub(crate) fn place_followed(plan: &Plan, m: u16, addr: Option<Addr>) -> Option<usize>
    ensures value { result ≡ place_followed plan.now m addr }
    ensures within { IfSome result (λ k. k < length (nodes_of plan.now m)) }
{
    match addr {
        Some(addr) => position_of(plan.nodes(m), addr),
        None => None,
    }
}

impl Master {
    /// Its failover began: where it is that of a switch which a client asked for, its epoch is kept.
    fn plan_switch(&mut self, now: u64)
        ensures { self.new ≡ record self.old {
          planned = planned_if (is_recent self.old.wish WISH_MS (clock now) && not (is_some self.old.planned))
              (epoch_of self.old.failover.state) self.old.planned;
          refused = false;
        } }
    {
        if self.is_wished(now) {
            self.planned = self.failover.epoch();
        }
        self.refused = false;
    }

    /// Whether a client asked a moment ago that it hand over, and the campaign for that is to begin.
    fn is_wished(&self, now: u64) -> bool
        ensures { result ≡ (is_recent self.now.wish WISH_MS (clock now) && not (is_some self.now.planned)) }
    {
        is_recent(self.wish, WISH_MS, clock_of(now)) && self.planned.is_none()
    }
}

impl Core {
    /// Whether a client asked a moment ago that a master hand over, and its campaign is to begin.
    pub fn is_wished(&self, m: u16, now: u64) -> bool
        ensures value { result ≡ is_wished self.now m (clock now) }
        ensures here { IsTrue result → m < length self.now.masters }
    {
        match self.masters.get(m as usize) {
            Some(master) => master.is_wished(now),
            None => false,
        }
    }

    /// When a client last asked that a master hand over.
    fn last_wish(&self, m: u16) -> Option<u64>
        ensures { result ≡ (master_of self.now m).wish }
    {
        match self.masters.get(m as usize) {
            Some(master) => master.wish,
            None => None,
        }
    }

    /// Whether a client asked within so many milliseconds that a master hand over.
    pub(crate) fn was_wished(&self, m: u16, ms: u64, now: u64) -> bool
        ensures { result ≡ is_recent (master_of self.now m).wish ms (clock now) }
    {
        is_recent(self.last_wish(m), ms, clock_of(now))
    }

    /// Whether a failover of the master runs, or a client asked for a switch within the time of an election.
    pub fn is_in_progress(&self, m: u16, now: u64) -> bool
        ensures { result ≡ is_in_progress self.now m (clock now) }
    {
        self.is_failing_over(m) || self.was_wished(m, ELECTION_MS, now)
    }

    /// Whether the own campaign is put off, after a failover or a vote.
    pub fn is_put_off(&self, m: u16, now: u64) -> bool
        ensures { result ≡ is_put_off self.now m (clock now) }
    {
        is_held(self.last_start(m), clock_of(now))
    }

    /// A client asks that a master hand over; nothing where there is no such master.
    pub fn wish(&mut self, m: u16, now: u64)
        ensures { self.new ≡ wished m (clock now) self.old }
    {
        if let Some(master) = self.masters.get_mut(m as usize) {
            master.wish = Some(clock_of(now));
            master.planned = None;
        }
    }

    /// A failover of a master began: where it is that of a switch which a client asked for, its epoch is kept.
    pub fn plan_switch(&mut self, m: u16, now: u64)
        ensures { self.new ≡ with_plan m (clock now) self.old }
    {
        let of = self.then(m);
        self.notices.see_begin(of, now);
        if let Some(master) = self.masters.get_mut(m as usize) {
            master.plan_switch(now);
        }
    }

    /// Whether the failover of a master that runs is that of a switch which a client asked for.
    pub fn is_planned(&self, m: u16) -> bool
        ensures { result ≡ is_planned self.now m }
    {
        match self.masters.get(m as usize) {
            Some(master) => is_same_epoch(master.failover.epoch(), master.planned),
            None => false,
        }
    }

    /// Whether it is, and the master didn't refuse to hand over in it.
    #[tactic(auto, unfolding(sentinel_rules::specs::States::is_unrefused))]
    pub fn is_unrefused(&self, m: u16) -> bool
        ensures { result ≡ is_unrefused self.now m }
    {
        self.is_planned(m) && !self.has_refused(m)
    }

    /// Whether the master was told to hand over in it, and its choice is awaited.
    pub fn is_handed(&self, m: u16) -> bool
        ensures { result ≡ is_handed self.now m }
    {
        self.is_planned(m) && is_awaiting(self.stage(m))
    }

    /// Whether who was told in a failover to bring the new master about refused.
    pub(crate) fn is_refused(&self, m: u16) -> bool
        ensures { result ≡ is_refused self.now m }
    {
        is_awaiting(self.stage(m)) && self.has_refused(m)
    }

    /// The place of who was told in a failover to bring the new master about: in a switch that a client asked for the
    /// master, else the choice.
    fn order_taker(&self, plan: &Plan, m: u16) -> Option<u16>
        ensures { result ≡ order_taker plan.now self.now m }
    {
        if self.is_planned(m) {
            Some(self.card_place(plan, m) as u16)
        } else {
            self.choice(m)
        }
    }

    /// Whether a failover awaits what the data node at this place was told to bring about.
    pub fn is_order_taker(&self, plan: &Plan, m: u16, k: usize) -> bool
        ensures { result ≡ (is_awaiting (failover_of self.now m).state && is_at (order_taker plan.now self.now m) k) }
    {
        is_awaiting(self.stage(m)) && is_at(self.order_taker(plan, m), k)
    }

    /// The place of that choice.
    pub(crate) fn heir(&self, m: u16) -> Option<u16>
        ensures { result ≡ heir_of self.now m }
    {
        if self.is_handed(m) {
            self.choice(m)
        } else {
            None
        }
    }

    /// Whether who was told to bring the new master about refused, in the last campaign.
    pub(crate) fn has_refused(&self, m: u16) -> bool
        ensures { result ≡ (master_of self.now m).refused }
    {
        match self.masters.get(m as usize) {
            Some(master) => master.refused,
            None => false,
        }
    }

    /// Who was told to bring the new master about refuses; nothing where there is no such master.
    pub fn refuse(&mut self, m: u16)
        ensures { self.new ≡ with_master self.old m (record (master_of self.old m) { refused = true }) }
    {
        if let Some(master) = self.masters.get_mut(m as usize) {
            master.refused = true;
        }
    }

    /// Since when a data node has said that it is a replica.
    pub fn replica_since(&self, m: u16, k: usize) -> Option<u64>
        ensures value { result ≡ (node_of self.now m k).watch.replica_since }
        ensures here { IfSome result (λ _. m < length self.now.masters) }
    {
        match self.masters.get(m as usize) {
            Some(master) => match master.nodes.get(k) {
                Some(node) => node.watch.replica_since(),
                None => None,
            },
            None => None,
        }
    }

    /// Whether the node at a place says that it is a master, and can be reached, and the one of the configuration, at
    /// `card_at`, has said for a while that it is a replica.
    fn is_taking_over(&self, plan: &Plan, m: u16, now: u64, card_at: usize, k: usize) -> bool
        requires { card_at ≡ card_place plan.now self.now m }
        ensures { result ≡ is_taking_over plan.now self.now m (clock now) k }
    {
        let since = self.replica_since(m, card_at);
        k != card_at
            && is_down_for(since, SWITCHED_MS, clock_of(now))
            && says_master(self.info(m, k))
            && !(self.is_node_down(plan, m, now, card_at, k) || self.is_lost(m, k))
    }

    /// The place of the node to which a master was handed over at the nodes themselves.
    pub fn switched_to(&self, plan: &Plan, m: u16, now: u64) -> Option<usize>
        ensures value { result ≡ switched_to plan.now self.now m (clock now) }
        ensures within { IfSome result (λ k. k < length (nodes_of plan.now m)) }
    {
        match plan.profile() {
            Profile::Strict => None,
            Profile::Redis => {
                let card_at = self.card_place(plan, m);
                let info = self.info(m, card_at).unwrap_or(ASSUMED_INFO);
                let k = place_followed(plan, m, info.master)?;
                if self.is_taking_over(plan, m, now, card_at, k) {
                    Some(k)
                } else {
                    None
                }
            }
        }
    }

    /// Whether a master was handed over at the nodes themselves, and so long ago that a campaign for the node which
    /// took over may begin.
    pub fn is_switch_due(&self, plan: &Plan, m: u16, now: u64) -> bool
        ensures value { result ≡ is_switch_due plan.now self.now m (clock now) }
        ensures here { IsTrue result → m < length self.now.masters }
    {
        let pause = SWITCHED_MS + self.pause(plan);
        match self.replica_since(m, self.card_place(plan, m)) {
            Some(since) => {
                is_down_for(Some(since), pause, clock_of(now))
                    && self.switched_to(plan, m, now).is_some()
            }
            None => false,
        }
    }

    /// Whether the node of the configuration is up, and says that it is a replica.
    pub fn is_given_away(&self, plan: &Plan, m: u16, now: u64) -> bool
        ensures { result ≡ is_given_away plan.now self.now m (clock now) }
    {
        match plan.profile() {
            Profile::Strict => false,
            Profile::Redis => {
                let card_at = self.card_place(plan, m);
                says_replica(self.info(m, card_at)) && !self.is_master_down(plan, m, now)
            }
        }
    }

    /// Whether the other Sentinels are asked of a master, which this one finds down or not.
    pub fn is_asking(&self, plan: &Plan, m: u16, now: u64, down: bool) -> bool
        requires { down ≡ is_master_down plan.now self.now m (clock now) }
        ensures { result ≡ is_asking plan.now self.now m (clock now) }
    {
        if down {
            return true;
        }
        match plan.profile() {
            Profile::Strict => false,
            Profile::Redis => is_electing(self.stage(m)),
        }
    }
}
