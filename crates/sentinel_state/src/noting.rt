//! What a Sentinel notes where its rules act. No call of these changes what contracts see of it.

ghost use Rattle.std.specs.Prelude.{◌≡◌, length, take};
ghost use Rattle.ballot_law.specs.Clocks.{clock};
ghost use Rattle.sentinel_rules.specs.Plans.{group_size, nodes_of};
ghost use Rattle.sentinel_rules.specs.States.{card_place};
ghost use Rattle.sentinel_rules.specs.Ticks.{at_places};
ghost use Rattle.sentinel_state.specs.Sights.{is_other_down, is_replica_down};

use crate::cores::Core;
use crate::nodes::Plan;
use crate::notices::{MasterNotice, MasterThen, Notice, ReplicaNotice, Unfit};
use ballot_law::{Hello, MAX_EPOCH, Member, NODES_MAX, RunId, SENTINELS_MAX};
use failover_states::Row;

impl Core {
    /// A master with the address that its configuration has now.
    pub(crate) fn then(&self, m: u16) -> MasterThen {
        MasterThen {
            master: m,
            addr: self.card(m).addr,
        }
    }

    /// Takes the oldest notice that nobody took yet. A notice tells what a rule did, which may have to be stored first.
    pub fn take_notice(&self) -> Option<Notice> {
        self.notices.take()
    }

    /// Notes that the vote of an epoch was given.
    pub(crate) fn note_vote(&mut self, epoch: u64, leader: RunId)
        ensures { self.new ≡ self.old }
    {
        self.notices.push(Notice::Voted { leader, epoch });
    }

    /// Notes that a candidate asked for a vote which isn't heeded, since no Sentinel of the roster is it.
    pub fn note_ghost(&mut self, now: u64, candidate: Option<RunId>, heeded: Option<RunId>)
        ensures { self.new ≡ self.old }
    {
        if let Some(id) = candidate
            && heeded.is_none()
        {
            self.notices.see_ghost(id, now);
        }
    }

    /// Notes that this happened to a master.
    fn note_master(&mut self, m: u16, what: MasterNotice)
        ensures { self.new ≡ self.old }
    {
        let of = self.then(m);
        self.notices.push_master(of, what);
    }

    /// Notes that this happened to the data node at a place.
    pub fn note_replica(&mut self, m: u16, place: u16, what: ReplicaNotice)
        ensures { self.new ≡ self.old }
    {
        let of = self.then(m);
        self.notices.push_replica(of, place, what);
    }

    /// Notes that this happened to a master, where the test holds.
    pub fn note_master_if(&mut self, test: bool, m: u16, what: MasterNotice)
        ensures { self.new ≡ self.old }
    {
        if test {
            self.note_master(m, what);
        }
    }

    /// Notes that this happened to the data node at a place, where the test holds.
    pub fn note_replica_if(&mut self, test: bool, m: u16, place: u16, what: ReplicaNotice)
        ensures { self.new ≡ self.old }
    {
        if test {
            self.note_replica(m, place, what);
        }
    }

    /// Notes whose hello brings a configuration of a master, where it has another address.
    pub fn note_source(&mut self, m: u16, hello: &Hello)
        ensures { self.new ≡ self.old }
    {
        let of = self.then(m);
        if !of.addr.is_same(&hello.card.addr) {
            let by = Member {
                id: hello.id,
                addr: hello.addr,
            };
            self.notices.push(Notice::Brought { of, by });
        }
    }

    /// Notes whether a master is down, for this Sentinel and for enough of them, where that has changed.
    pub fn note_down(&mut self, m: u16, down: bool, agreed: bool)
        ensures { self.new ≡ self.old }
    {
        let of = self.then(m);
        self.notices.see_down(of, down, agreed);
    }

    /// Notes what a turn of a failover did that took this row.
    pub(crate) fn note_row(&mut self, plan: &Plan, m: u16, now: u64, row: Option<Row>)
        ensures { self.new ≡ self.old }
    {
        match row {
            Some(Row::Elected) => self.note_master(m, MasterNotice::Elected),
            Some(Row::ElectionTimeout) => self.note_defeat(plan, m, now),
            Some(Row::NoReplica) => self.note_master(m, MasterNotice::NoReplica),
            Some(Row::ChoiceTimeout | Row::PromotionTimeout) => {
                self.note_master(m, MasterNotice::NotPromoted)
            }
            Some(Row::Promote) => self.note_choice(m),
            Some(Row::Reconfigure | Row::ReconfTimeout) => self.note_orders(m),
            Some(Row::ConfigUpdated) => self.note_master(m, MasterNotice::Ended),
            _ => {}
        }
    }

    /// Notes that the Sentinel wasn't elected; in Redis's profile how many of the Sentinels are up, too.
    fn note_defeat(&mut self, plan: &Plan, m: u16, now: u64)
        ensures { self.new ≡ self.old }
    {
        self.note_master(m, MasterNotice::NotElected);
        if plan.profile().is_redis() && m < plan.master_count() {
            let of = plan.group_size();
            let down = self.down_sentinels(plan, now);
            let down_count = down
                .iter()
                .take(of as usize)
                .filter(|is_down| **is_down)
                .count();
            let up = of.saturating_sub(down_count as u16);
            let need = plan.need(m);
            self.note_master(m, MasterNotice::Short { up, of, need });
        }
    }

    /// Notes whom a failover chose.
    fn note_choice(&mut self, m: u16)
        ensures { self.new ≡ self.old }
    {
        if let Some(place) = self.choice(m) {
            self.note_replica(m, place, ReplicaNotice::Chosen);
        }
    }

    /// Which data nodes the last turn of a failover tells to follow the new master.
    fn ordered_nodes(&self, m: u16) -> [bool; NODES_MAX] {
        let mut ordered = [false; NODES_MAX];
        for k in 0..self.place_count(m) {
            ordered[k] = self.is_ordered(m, k as u16);
        }
        ordered
    }

    /// Notes which data nodes the last turn of a failover tells to follow the new master.
    fn note_orders(&mut self, m: u16)
        ensures { self.new ≡ self.old }
    {
        let (of, ordered) = (self.then(m), self.ordered_nodes(m));
        self.notices.see_orders(of, &ordered);
    }

    /// Notes why replicas of a master can't be promoted, by their places among its nodes.
    pub fn note_unfit(&mut self, m: u16, unfit: &[Option<Unfit>; NODES_MAX])
        ensures { self.new ≡ self.old }
    {
        let of = self.then(m);
        self.notices.see_unfit(of, unfit);
    }

    /// Whether the node at a place is down and isn't the one that the configuration names, which is at `card_at`.
    fn is_replica_down(&self, plan: &Plan, m: u16, now: u64, card_at: usize, k: usize) -> bool
        requires { card_at ≡ card_place plan.now self.now m }
        ensures { result ≡ is_replica_down plan.now self.now m (clock now) k }
    {
        k != card_at && self.is_node_down(plan, m, now, card_at, k)
    }

    /// Which replicas of a master are down, by their places among its nodes.
    fn down_replicas(&self, plan: &Plan, m: u16, now: u64) -> [bool; NODES_MAX]
        ensures { take (length (nodes_of plan.now m)) result ≡ at_places (is_replica_down plan.now self.now m (clock now)) 0 (length (nodes_of plan.now m)) }
    {
        let card_at = self.card_place(plan, m);
        let mut down = [false; NODES_MAX];
        for k in 0..plan.node_count(m) {
            down[k] = self.is_replica_down(plan, m, now, card_at, k);
        }
        down
    }

    /// Whether the Sentinel at a place is down and another one.
    fn is_other_down(&self, plan: &Plan, now: u64, place: usize) -> bool
        ensures { result ≡ is_other_down plan.now self.now (clock now) place }
    {
        place != plan.place() as usize && self.is_peer_down(plan, now, place)
    }

    /// Which of the other Sentinels are down, by their places in the roster.
    fn down_sentinels(&self, plan: &Plan, now: u64) -> [bool; SENTINELS_MAX]
        ensures { take (group_size plan.now) result ≡ at_places (is_other_down plan.now self.now (clock now)) 0 (group_size plan.now) }
    {
        let mut down = [false; SENTINELS_MAX];
        for place in 0..plan.group_size() as usize {
            down[place] = self.is_other_down(plan, now, place);
        }
        down
    }

    /// Notes what keeps the Sentinel from a failover of a master that is objectively down, where none runs. One of
    /// Redis's profile waits for some seconds at most, of which nothing is noted.
    fn note_wait(&mut self, plan: &Plan, m: u16, now: u64)
        ensures { self.new ≡ self.old }
    {
        if !self.was_odown(m) || self.is_failing_over(m) {
            return;
        }
        let of = self.then(m);
        let timeout = plan.settings(m).timeout;
        let is_waiting = !plan.profile().is_redis();
        let is_spent = self.kept.current >= MAX_EPOCH;
        self.notices
            .see_wait(of, now, timeout, is_waiting, is_spent);
    }

    /// At the end of a tick of a master notes what keeps the Sentinel from a failover, and which replicas and other
    /// Sentinels are down, where that has changed; nothing in TILT.
    pub fn note_rest(&mut self, plan: &Plan, m: u16, now: u64)
        ensures { self.new ≡ self.old }
    {
        if self.is_tilted() {
            return;
        }
        self.note_wait(plan, m, now);
        let of = self.then(m);
        let (nodes, sentinels) = (plan.node_count(m), plan.group_size() as usize);
        let replicas = self.down_replicas(plan, m, now);
        self.notices.see_replicas(of, &replicas, nodes);
        let others = self.down_sentinels(plan, now);
        self.notices.see_sentinels(of, &others, sentinels);
        self.notices.see_all_down(of, nodes, sentinels);
    }
}
