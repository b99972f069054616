//! A failover that comes to nothing, or goes on in another way, apart from the rows of its table: by the profile of
//! Redis alone.

ghost use Rattle.std.specs.Prelude.{◌≡◌, ◌<◌, ◌≤◌, ◌||◌, false, None, length, if◌then◌else◌};
ghost use Rattle.ballot_law.specs.declared.rosters.TheConstants.{SENTINELS_MAX};
ghost use Rattle.ballot_law.specs.Clocks.{clock};
ghost use Rattle.ballot_law.specs.VotesHeard.{count_in, kept_at};
ghost use Rattle.failover_states.specs.Calls.{recalled};
ghost use Rattle.failover_states.specs.Failovers.{ended};
ghost use Rattle.sentinel_rules.specs.declared.periods.TheConstants.{SWITCH_MS};
ghost use Rattle.sentinel_rules.specs.Endings.{is_untold, is_switch, is_reached, ups, is_outvoted, is_most_down, is_contested, is_needless, is_stale, is_given, has_answered, may_answer, answers, awaited_answers, has_won, is_answered, is_passed, is_split_in, is_split, is_vain, given_up, is_overtaken, taken_up, let_go};
ghost use Rattle.sentinel_rules.specs.Plans.{master_count};
ghost use Rattle.sentinel_rules.specs.Profiles.{marked};
ghost use Rattle.sentinel_rules.specs.States.{failover_of, is_awaiting, is_planned, master_of};

use crate::cores::Core;
use crate::masters::Master;
use crate::nodes::Plan;
use crate::notices::MasterNotice;
use crate::pauses::is_below;
use crate::switches::{is_awaiting, is_electing, says_replica};
use ballot_law::{HeardVote, RunId, clock_of};
use down_detector::is_odown;
use failover_states::FailoverState;
use sentinel_rules::{ASK_MS, Profile, SWITCH_MS};

/// Whether no node was told anything yet in this state, so that the failover can end as if it hadn't begun.
fn is_untold(stage: FailoverState) -> bool
    ensures { result ≡ is_untold stage }
{
    match stage {
        FailoverState::WaitStart { .. } => true,
        FailoverState::SelectReplica { .. } => true,
        FailoverState::SendPromotion { .. } => true,
        FailoverState::Idle => false,
        FailoverState::WaitPromotion { .. } => false,
        FailoverState::ReconfReplicas { .. } => false,
        FailoverState::UpdateConfig { .. } => false,
    }
}

/// Whether this is a vote of an epoch, or of a later one.
fn is_given(epoch: u64, vote: Option<HeardVote>) -> bool
    ensures { result ≡ is_given epoch vote }
{
    match vote {
        Some(vote) => epoch <= vote.epoch,
        None => false,
    }
}

impl Master {
    /// Its failover ends; the next one begins at this moment at the earliest.
    #[tactic(auto, using(crate::proofs::FewPlaces::few_ended))]
    fn give_up(&mut self, at: u64, planned: Option<u64>)
        ensures { self.new ≡ record self.old {
          failover = marked at (ended self.old.failover);
          planned = planned;
        } }
    {
        self.failover.end();
        self.failover.mark(at);
        self.planned = planned;
    }

    /// The choice of its failover is to be told once more, and of no switch.
    #[tactic(auto, using(crate::proofs::FewPlaces::few_recalled))]
    fn take_up(&mut self, now: u64)
        ensures { self.new ≡ record self.old {
          failover = recalled (clock now) self.old.failover;
          planned = None;
          refused = false;
        } }
    {
        self.failover.recall(now);
        self.planned = None;
        self.refused = false;
    }
}

impl Core {
    /// Whether a failover of a master is on its way to the new one: its choice isn't the master yet.
    pub fn is_on_its_way(&self, m: u16) -> bool
        ensures { result ≡ (is_untold (failover_of self.now m).state || is_awaiting (failover_of self.now m).state) }
    {
        let stage = self.stage(m);
        is_untold(stage) || is_awaiting(stage)
    }

    /// Whether a failover is of a switch that was asked for, or made at the nodes.
    fn is_switch(&self, plan: &Plan, m: u16) -> bool
        ensures { result ≡ is_switch plan.now self.now m }
    {
        self.is_planned(m) || says_replica(self.info(m, self.card_place(plan, m)))
    }

    /// Whether a master is up and connected.
    fn is_reached(&self, plan: &Plan, m: u16, now: u64) -> bool
        ensures { result ≡ is_reached plan.now self.now m (clock now) }
    {
        !(self.is_master_down(plan, m, now) || self.is_lost(m, self.card_place(plan, m)))
    }

    /// How many of the others have said since they were asked last that a master is up.
    fn ups(&self, m: u16) -> usize
        ensures { result ≡ ups self.now m }
    {
        let since = self.ask_sent(m).unwrap_or(0);
        match self.masters.get(m as usize) {
            Some(master) => master.reports.up_since(since),
            None => 0,
        }
    }

    /// Whether more than half of the group have.
    #[tactic(auto, unfolding(sentinel_rules::specs::Endings::is_outvoted))]
    fn is_outvoted(&self, plan: &Plan, m: u16) -> bool
        ensures { result ≡ is_outvoted plan.now self.now m }
    {
        usize::from(plan.group_size()) / 2 < self.ups(m)
    }

    /// Whether a failover was begun since the master was down, and it is back, or is up for the others.
    fn is_needless(&self, plan: &Plan, m: u16, now: u64) -> bool
        ensures { result ≡ is_needless plan.now self.now m (clock now) }
    {
        !self.is_switch(plan, m) && (self.is_reached(plan, m, now) || self.is_outvoted(plan, m))
    }

    /// Whether more than half of the group find a master down, with this Sentinel.
    fn is_most_down(&self, plan: &Plan, m: u16, now: u64) -> bool
        requires { m < master_count plan.now }
        ensures { result ≡ is_most_down plan.now self.now m (clock now) }
    {
        let majority = u32::from(plan.group_size()) / 2 + 1;
        match self.masters.get(m as usize) {
            Some(master) => is_odown(true, &master.reports, now, majority),
            None => majority <= 1,
        }
    }

    /// Whether votes don't count yet, since one says that the master is up, and less than a majority finds it down: by
    /// the profile.
    #[tactic(auto, unfolding(sentinel_rules::specs::Endings::is_contested))]
    pub fn is_contested(&self, plan: &Plan, m: u16, now: u64) -> bool
        requires { m < master_count plan.now }
        ensures { result ≡ is_contested plan.now self.now m (clock now) }
    {
        match plan.profile() {
            Profile::Strict => false,
            Profile::Redis => {
                !self.is_switch(plan, m) && 0 < self.ups(m) && !self.is_most_down(plan, m, now)
            }
        }
    }

    /// Whether a failover is of a switch that was asked for too long ago.
    fn is_stale(&self, m: u16, now: u64) -> bool
        ensures { result ≡ is_stale self.now m (clock now) }
    {
        self.is_planned(m) && !self.was_wished(m, SWITCH_MS, now)
    }

    /// Whether the Sentinel at a place has answered a campaign of this epoch.
    fn has_answered(&self, m: u16, epoch: u64, place: u16) -> bool
        ensures { result ≡ has_answered self.now m epoch place }
    {
        is_given(epoch, self.heard_vote(m, place))
    }

    /// Whether it is another one, which is up and may answer yet.
    fn may_answer(&self, plan: &Plan, m: u16, now: u64, epoch: u64, place: u16) -> bool
        ensures { result ≡ may_answer plan.now self.now m (clock now) epoch place }
    {
        place != plan.place()
            && !self.is_peer_down(plan, now, place as usize)
            && !self.has_answered(m, epoch, place)
    }

    /// How many have answered a campaign of this epoch.
    fn answers(&self, plan: &Plan, m: u16, epoch: u64) -> u32
        ensures value { result ≡ answers plan.now self.now m epoch }
        ensures few { result ≤ SENTINELS_MAX }
    {
        let mut count = 0;
        for place in 0..plan.group_size() {
            if self.has_answered(m, epoch, place) {
                count += 1;
            }
        }
        count
    }

    /// How many may answer it yet.
    fn awaited_answers(&self, plan: &Plan, m: u16, now: u64, epoch: u64) -> u32
        ensures { result ≡ awaited_answers plan.now self.now m (clock now) epoch }
    {
        let mut count = 0;
        for place in 0..plan.group_size() {
            if self.may_answer(plan, m, now, epoch, place) {
                count += 1;
            }
        }
        count
    }

    /// How many of the votes heard for a master at an epoch are for a candidate.
    fn count_of(&self, m: u16, epoch: u64, candidate: RunId) -> u32
        ensures { result ≡ count_in (kept_at (master_of self.now m).heard) (length (master_of self.now m).heard) epoch candidate }
    {
        match self.masters.get(m as usize) {
            Some(master) => master.heard.count(epoch, candidate),
            None => 0,
        }
    }

    /// Whether the votes heard elect a candidate, with the own one.
    fn has_won(&self, plan: &Plan, m: u16, epoch: u64, candidate: RunId) -> bool
        requires { m < master_count plan.now }
        ensures { result ≡ has_won plan.now self.now m epoch candidate }
    {
        let count = self.count_of(m, epoch, candidate);
        self.book(m).elects(count, epoch, candidate, plan.need(m))
    }

    /// Whether as many have answered as could elect, and all have that are up.
    fn is_answered(&self, plan: &Plan, m: u16, now: u64, epoch: u64) -> bool
        requires { m < master_count plan.now }
        ensures { result ≡ is_answered plan.now self.now m (clock now) epoch }
    {
        plan.need(m) <= self.answers(plan, m, epoch) + 1
            && self.awaited_answers(plan, m, now, epoch) == 0
    }

    /// Whether the current epoch is a later one, and the answers have had their time.
    fn is_passed(&self, m: u16, now: u64, epoch: u64) -> bool
        ensures { result ≡ is_passed self.now m (clock now) epoch }
    {
        epoch < self.kept().current && !is_below(self.ask_sent(m), clock_of(now), ASK_MS)
    }

    /// Whether no vote of this epoch is to come any more, and no candidate has won.
    #[tactic(auto, unfolding(sentinel_rules::specs::Endings::is_split_in))]
    fn is_split_in(&self, plan: &Plan, m: u16, now: u64, epoch: u64) -> bool
        requires { m < master_count plan.now }
        ensures { result ≡ is_split_in plan.now self.now m (clock now) epoch }
    {
        (self.is_answered(plan, m, now, epoch) || self.is_passed(m, now, epoch))
            && !(self.has_won(plan, m, epoch, plan.me())
                || self.has_won(plan, m, epoch, self.pick(plan, m, epoch)))
    }

    /// Whether the votes of a campaign are split, so that nobody is elected in its epoch any more.
    fn is_split(&self, plan: &Plan, m: u16, now: u64) -> bool
        requires { m < master_count plan.now }
        ensures { result ≡ is_split plan.now self.now m (clock now) }
    {
        is_electing(self.stage(m)) && self.is_split_in(plan, m, now, self.campaign_epoch(m))
    }

    /// Whether a failover comes to nothing, and ends at once.
    fn is_vain(&self, plan: &Plan, m: u16, now: u64) -> bool
        requires { m < master_count plan.now }
        ensures { result ≡ is_vain plan.now self.now m (clock now) }
    {
        is_untold(self.stage(m))
            && (self.is_needless(plan, m, now)
                || self.is_stale(m, now)
                || self.is_split(plan, m, now))
    }

    /// What is kept of the switch of a failover that ends: it is wished for still.
    fn planned_after(&self, m: u16) -> Option<u64>
        ensures { result ≡ (if is_planned self.now m then None else (master_of self.now m).planned) }
    {
        if self.is_planned(m) {
            return None;
        }
        match self.masters.get(m as usize) {
            Some(master) => master.planned,
            None => None,
        }
    }

    /// Ends a failover that comes to nothing: the next one begins a pause later.
    fn give_up(&mut self, plan: &Plan, m: u16, now: u64)
        ensures { self.new ≡ given_up plan.now m (clock now) self.old }
    {
        self.note_vain(plan, m, now);
        let at = self.rested_at(plan, m, now, 0);
        let planned = self.planned_after(m);
        if let Some(master) = self.masters.get_mut(m as usize) {
            master.give_up(at, planned);
        }
    }

    /// Notes why a failover comes to nothing.
    fn note_vain(&mut self, plan: &Plan, m: u16, now: u64)
        ensures { self.new ≡ self.old }
    {
        let what = if self.is_needless(plan, m, now) {
            MasterNotice::Back
        } else if self.is_stale(m, now) {
            MasterNotice::Late
        } else {
            MasterNotice::NotElected
        };
        self.note_master_if(true, m, what);
    }

    /// Whether a master that was told to hand over is objectively down, and the choice is there.
    fn is_overtaken(&self, plan: &Plan, m: u16, now: u64) -> bool
        ensures { result ≡ is_overtaken plan.now self.now m (clock now) }
    {
        self.is_handed(m) && self.was_odown(m) && !self.is_choice_lost(plan, m, now)
    }

    /// The choice of a failover is to be told once more, and of no switch.
    fn take_up(&mut self, m: u16, now: u64)
        ensures { self.new ≡ taken_up m (clock now) self.old }
    {
        if let Some(master) = self.masters.get_mut(m as usize) {
            master.take_up(now);
        }
    }

    /// Ends a failover of a master that comes to nothing, and has one of a switch go on as any other where the master
    /// is objectively down before it handed over; nothing else changes.
    pub fn let_go(&mut self, plan: &Plan, m: u16, now: u64)
        requires { m < master_count plan.now }
        ensures { self.new ≡ let_go plan.now m (clock now) self.old }
    {
        match plan.profile() {
            Profile::Strict => {}
            Profile::Redis => {
                if self.is_vain(plan, m, now) {
                    self.give_up(plan, m, now);
                } else if self.is_overtaken(plan, m, now) {
                    self.take_up(m, now);
                }
            }
        }
    }
}
