//! When the own campaign may begin, and how long a failover waits: what the profiles differ in.

ghost use Rattle.std.specs.Prelude.{◌≡◌, ◌≤◌, ◌<◌, IfSome, None, Some, slice_set};
ghost use Rattle.ballot_law.specs.declared.rosters.TheConstants.{SENTINELS_MAX};
ghost use Rattle.ballot_law.specs.Clocks.{clock};
ghost use Rattle.failover_states.specs.declared.periods.TheConstants.{ELECTION_MS};
ghost use Rattle.failover_states.specs.Calls.{choice_of};
ghost use Rattle.sentinel_rules.specs.Profiles.{election_ms, turn_place, pause_of, is_down_for, is_peer_lost, is_leader_lost, may_begin, is_soon_after_vote, is_looking, is_quiet, is_gone, is_choice_lost, handed_ms, patience, awaited_up, disobeyed, with_failed, failed_at, is_half_below, is_below, is_passed_over, rest_after, rest_of, rested_at, with_pause};
ghost use Rattle.sentinel_rules.specs.States.{failover_of, node_of, is_held};

use crate::cores::{Core, is_idle};
use crate::masters::Master;
use crate::nodes::Plan;
use crate::notices::ReplicaNotice;
use ballot_law::clock_of;
use failover_states::{ELECTION_MS, Row, SPREAD_MS};
use sentinel_rules::{HANDED_MS, HOLD_MS, LOOKED_MS, Profile, QUIET_MS};

/// How long an election for a master may last.
pub(crate) fn election_ms(plan: &Plan, m: u16) -> u64
    ensures value { result ≡ election_ms plan.now m }
    ensures most { result ≤ ELECTION_MS }
{
    ELECTION_MS.min(plan.settings(m).timeout)
}

/// Whether the moment from which the own campaign may begin is yet to come.
pub(crate) fn is_held(from: Option<u64>, now: u64) -> bool
    ensures { result ≡ is_held from now }
{
    match from {
        Some(from) => now < from && from.saturating_sub(now) <= HOLD_MS,
        None => false,
    }
}

/// Whether something is down, and has been for so long.
pub(crate) fn is_down_for(since: Option<u64>, pause: u64, now: u64) -> bool
    ensures { result ≡ is_down_for since pause now }
{
    match since {
        Some(since) => now.saturating_sub(since) >= pause,
        None => false,
    }
}

/// Whether the last reply to a PING came longer ago than a PING and its reply take.
fn is_quiet(at: Option<u64>, now: u64) -> bool
    ensures { result ≡ is_quiet at now }
{
    match at {
        Some(at) => now.saturating_sub(at) > QUIET_MS,
        None => true,
    }
}

/// Which replica a turn gave up that took this row, of the one that was awaited.
fn disobeyed(row: Option<Row>, awaited: Option<u16>) -> Option<u16>
    ensures { result ≡ disobeyed row awaited }
{
    match row {
        Some(Row::PromotionTimeout) => awaited,
        _ => None,
    }
}

/// Whether this was less than two of these timeouts ago.
fn is_half_below(at: Option<u64>, now: u64, timeout: u64) -> bool
    ensures { result ≡ is_half_below at now timeout }
{
    match at {
        Some(at) => now.saturating_sub(at) / 2 < timeout,
        None => false,
    }
}

/// Whether this was less than so many milliseconds ago.
pub(crate) fn is_below(at: Option<u64>, now: u64, period: u64) -> bool
    ensures { result ≡ is_below at now period }
{
    match at {
        Some(at) => now.saturating_sub(at) < period,
        None => false,
    }
}

impl Master {
    /// The data node at a place was given up at this moment; nothing where there is no such node.
    fn pass_over(&mut self, k: usize, at: u64)
        ensures { self.new ≡ record self.old { failed = slice_set self.old.failed k (Some at) } }
    {
        if let Some(failed) = self.failed.get_mut(k) {
            *failed = Some(at);
        }
    }
}

/// For how long no other failover begins after one that ended by this row, where it puts the next one off.
fn rest_after(row: Row, election: u64) -> Option<u64>
    requires { election ≤ ELECTION_MS }
    ensures value { result ≡ rest_after row election }
    ensures most { IfSome result (λ rest. rest ≤ ELECTION_MS) }
{
    match row {
        Row::ElectionTimeout | Row::ChoiceTimeout | Row::PromotionTimeout => Some(0),
        Row::NoReplica => Some(election),
        _ => None,
    }
}

/// For how long no other failover begins after a turn that took this row, by the profile.
fn rest_of(profile: Profile, row: Option<Row>, election: u64) -> Option<u64>
    requires { election ≤ ELECTION_MS }
    ensures value { result ≡ rest_of profile row election }
    ensures most { IfSome result (λ rest. rest ≤ ELECTION_MS) }
{
    match (profile, row) {
        (Profile::Redis, Some(row)) => rest_after(row, election),
        _ => None,
    }
}

/// Whether a vote for another Sentinel was given a moment ago, by what is kept as the last start then.
fn is_soon_after_vote(from: Option<u64>, election: u64, now: u64) -> bool
    ensures { result ≡ is_soon_after_vote from election now }
{
    match from {
        Some(at) => {
            let left = at.saturating_sub(now);
            now < at && left <= HOLD_MS && election < left + LOOKED_MS
        }
        None => false,
    }
}

impl Core {
    /// Which turn this Sentinel has among those that begin anew.
    fn turn_place(&self, plan: &Plan) -> u64
        ensures value { result ≡ turn_place plan.now self.now }
        ensures few { result < SENTINELS_MAX }
    {
        let count = u64::from(plan.group_size());
        (u64::from(plan.place()) + self.kept.current % count) % count
    }

    /// This Sentinel's pause before it begins anew: a random part of what its turn has of a second.
    pub(crate) fn pause(&self, plan: &Plan) -> u64
        ensures value { result ≡ pause_of plan.now self.now }
        ensures most { result ≤ 64999 }
    {
        let turn = self.turn_place(plan);
        (turn * SPREAD_MS + self.random % SPREAD_MS) / u64::from(plan.group_size())
    }

    /// What is kept as the last start of a master's failover.
    pub(crate) fn last_start(&self, m: u16) -> Option<u64>
        ensures { result ≡ (failover_of self.now m).last_start }
    {
        match self.masters.get(m as usize) {
            Some(master) => master.failover.last_start(),
            None => None,
        }
    }

    /// Whether the Sentinel at this place is another one, which is down and has been for this one's pause.
    fn is_peer_lost(&self, plan: &Plan, now: u64, place: Option<usize>) -> bool
        ensures { result ≡ is_peer_lost plan.now self.now (clock now) place }
    {
        match place {
            Some(place) => {
                let after_ms = plan.settings(0).after_ms;
                let since = self.peer(place).watch.sdown_since(now, after_ms, false);
                place != plan.place() as usize
                    && is_down_for(since, self.pause(plan), clock_of(now))
            }
            None => false,
        }
    }

    /// Whether the candidate that this Sentinel voted for last is down.
    fn is_leader_lost(&self, plan: &Plan, m: u16, now: u64) -> bool
        ensures { result ≡ is_leader_lost plan.now self.now m (clock now) }
    {
        self.is_peer_lost(plan, now, plan.candidate_place(self.leader(m)))
    }

    /// Whether the own campaign for a master may begin, as far as the failover table leaves it open.
    pub fn may_begin(&self, plan: &Plan, m: u16, now: u64) -> bool
        ensures { result ≡ may_begin plan.now self.now m (clock now) }
    {
        match plan.profile() {
            Profile::Strict => true,
            Profile::Redis => {
                !is_held(self.last_start(m), clock_of(now)) || self.is_leader_lost(plan, m, now)
            }
        }
    }

    /// Whether a switch of a master is looked for: it was told to hand over, or another Sentinel asked for a vote a moment
    /// ago though it was well.
    pub(crate) fn is_looking(&self, plan: &Plan, m: u16, now: u64) -> bool
        ensures { result ≡ is_looking plan.now self.now m (clock now) }
    {
        match plan.profile() {
            Profile::Strict => false,
            Profile::Redis => {
                let election = election_ms(plan, m);
                self.is_handed(m)
                    || !self.was_odown(m)
                        && is_soon_after_vote(self.last_start(m), election, clock_of(now))
            }
        }
    }

    /// Whether the connection to a data node was lost, and nothing has been heard of the node for a while.
    fn is_gone(&self, m: u16, now: u64, k: usize) -> bool
        ensures { result ≡ is_gone (clock now) (node_of self.now m k) }
    {
        let node = self.node(m, k);
        node.lost && is_quiet(node.last_ping, clock_of(now))
    }

    /// Whether the replica that a master's failover chose is down, or gone.
    pub(crate) fn is_choice_lost(&self, plan: &Plan, m: u16, now: u64) -> bool
        ensures { result ≡ is_choice_lost plan.now self.now m (clock now) (choice_of (failover_of self.now m).state) }
    {
        match self.choice(m) {
            Some(k) => {
                let card_at = self.card_place(plan, m);
                self.is_node_down(plan, m, now, card_at, k as usize)
                    || self.is_gone(m, now, k as usize)
            }
            None => false,
        }
    }

    /// How long a failover waits for a choice: not at all where the order to bring the new master about was refused,
    /// and not for long where the master was told to hand over.
    fn handed_ms(&self, m: u16, timeout: u64) -> u64
        ensures { result ≡ handed_ms self.now m timeout }
    {
        if self.is_refused(m) {
            return 0;
        }
        if !self.is_handed(m) {
            return timeout;
        }
        HANDED_MS.min(timeout)
    }

    /// The `failover-timeout` that the rows of the failover table go by.
    pub fn patience(&self, plan: &Plan, m: u16, now: u64) -> u64
        ensures { result ≡ patience plan.now self.now m (clock now) }
    {
        let timeout = plan.settings(m).timeout;
        match plan.profile() {
            Profile::Strict => timeout,
            Profile::Redis => {
                if is_idle(self.stage(m)) || self.is_choice_lost(plan, m, now) {
                    return 0;
                }
                self.handed_ms(m, timeout)
            }
        }
    }

    /// The replica that a failover told that it is the master, where it is up; by the strict rules none.
    pub fn awaited_up(&self, plan: &Plan, m: u16, now: u64) -> Option<u16>
        ensures { result ≡ awaited_up plan.now self.now m (clock now) }
    {
        match plan.profile() {
            Profile::Strict => None,
            Profile::Redis => {
                if self.is_planned(m) || self.is_choice_lost(plan, m, now) {
                    None
                } else {
                    self.choice(m)
                }
            }
        }
    }

    /// Keeps it of the replica that was awaited, where a turn gave it up that took this row: others go before it for a
    /// while.
    pub fn pass_over(&mut self, m: u16, now: u64, row: Option<Row>, awaited: Option<u16>)
        ensures { self.new ≡ with_failed m (clock now) (disobeyed row awaited) self.old }
    {
        if let Some(k) = disobeyed(row, awaited) {
            self.note_replica(m, k, ReplicaNotice::GivenUp);
            if let Some(master) = self.masters.get_mut(m as usize) {
                master.pass_over(k as usize, clock_of(now));
            }
        }
    }

    /// When a data node was last given up.
    fn failed_at(&self, m: u16, k: usize) -> Option<u64>
        ensures { result ≡ failed_at self.now m k }
    {
        match self.masters.get(m as usize) {
            Some(master) => match master.failed.get(k) {
                Some(at) => *at,
                None => None,
            },
            None => None,
        }
    }

    /// Whether others go before a data node, since it was given up; `again`: whether it isn't told again yet, though
    /// there is no other.
    pub fn is_passed_over(&self, plan: &Plan, m: u16, now: u64, again: bool, k: usize) -> bool
        ensures { result ≡ is_passed_over plan.now self.now m (clock now) again k }
    {
        let at = self.failed_at(m, k);
        if again {
            is_below(at, clock_of(now), election_ms(plan, m))
        } else {
            is_half_below(at, clock_of(now), plan.settings(m).timeout)
        }
    }

    /// The moment from which the own campaign may begin, where it is put off for so long.
    pub(crate) fn rested_at(&self, plan: &Plan, m: u16, now: u64, rest: u64) -> u64
        requires { rest ≤ ELECTION_MS }
        ensures { result ≡ rested_at plan.now self.now m (clock now) rest }
    {
        let kept = self.last_start(m).unwrap_or(0);
        kept.max(clock_of(now) + rest + self.pause(plan))
    }

    /// Puts the next campaign for a master off where a turn ended the failover by this row without a new configuration.
    pub fn rest_after(&mut self, plan: &Plan, m: u16, now: u64, row: Option<Row>)
        ensures { self.new ≡ with_pause plan.now m (clock now) row self.old }
    {
        self.note_row(plan, m, now, row);
        if let Some(rest) = rest_of(plan.profile(), row, election_ms(plan, m)) {
            let at = self.rested_at(plan, m, now, rest);
            if let Some(master) = self.masters.get_mut(m as usize) {
                master.failover.mark(at);
            }
        }
    }
}
