//! What a Sentinel keeps while it runs.

ghost use Rattle.std.specs.Prelude.{◌≡◌, ◌<◌, ◌≤◌, length, map, IfOk, IfSome, IfNone, Some, slice_set};
ghost use Rattle.ballot_law.specs.declared.rosters.TheConstants.{MASTERS_MAX, NODES_MAX, SENTINELS_MAX};
ghost use Rattle.ballot_law.specs.Ballots.{card_of, kept_of, voted_of};
ghost use Rattle.ballot_law.specs.Clocks.{clock};
ghost use Rattle.ballot_law.specs.Watches.{passed_since};
ghost use Rattle.sentinel_rules.specs.States.{opened, is_tilted, card_place, silent_since, later_of, stray_down_since, node_down_since, is_node_down, is_master_down, peer_down_since, is_peer_down, is_odown_at, is_failing_over, is_idle, new_master, with_current, with_card, with_node, node_of, no_node, peer_of};
ghost use Rattle.sentinel_rules.specs.Answers.{master_with_card};
ghost use Rattle.sentinel_rules.specs.Ticks.{with_reading};
ghost use Rattle.sentinel_rules.specs.Plans.{roster_of, group_size, master_count};

use crate::masters::Master;
use crate::nodes::{Node, Peer, Plan, earlier_of};
use crate::notices::Notices;
use crate::switches::place_followed;
use ballot_law::{Addr, Card, Info, Kept, KeptMaster, KeptMasters, NoMemory, RunId, Win, clock_of};
use down_detector::{Tilt, is_odown};
use failover_states::FailoverState;
use sentinel_rules::{ASSUMED_INFO, Profile};
use std::alloc::{AllocError, Global};
use std::marker::Model;

/// What is kept of a master that there is none of.
const NO_ENTRY: KeptMaster = KeptMaster {
    card: Card {
        epoch: 0,
        addr: Addr { ip: 0, port: 0 },
    },
    voted: 0,
    candidate: None,
};

/// What a Sentinel keeps while it runs: what its file is to hold, and what it heard, found and sent since its start,
/// which a stop loses.
#[derive(Drop)]
pub struct Core {
    pub(crate) kept: Kept,
    pub(crate) masters: Vec<Master>,
    pub(crate) peers: Vec<Peer>,
    pub(crate) clock: Tilt,
    pub(crate) random: u64,
    pub(crate) won: Option<Win>,
    /// What its rules did, for whoever tells of it; contracts don't see it.
    pub(crate) notices: Notices,
}

impl Model for Core {
    ghost use Rattle.std.specs.Prelude.{◌≤◌, length};
    ghost use Rattle.ballot_law.specs.declared.rosters.TheConstants.{MASTERS_MAX, SENTINELS_MAX};
    ghost use Rattle.sentinel_rules.specs.States.{Core as CoreModel};

    ghost Value = { CoreModel };

    ghost view = { λ core. record {
      kept = core.kept;
      masters = core.masters.items;
      peers = core.peers.items;
      clock = core.clock;
      random = core.random;
      won = core.won;
    } };

    ghost invariant = { λ core. (length core.masters.items ≤ MASTERS_MAX)
        × ((length core.peers.items ≤ SENTINELS_MAX) × (length core.kept.masters ≤ MASTERS_MAX)) };
}

/// Each master of the plan, of which nothing was heard yet.
fn opened_masters(alloc: Global, plan: &Plan, now: u64) -> Result<Vec<Master>, NoMemory>
    ensures value { IfOk result (λ masters. masters.items ≡ map (λ master.
        new_master (group_size plan.now) (length master.nodes) (clock now)) (roster_of plan.now).masters) }
    ensures few { IfOk result (λ masters. length masters.items ≤ MASTERS_MAX) }
{
    let mut masters = Vec::with_capacity(alloc, plan.master_count() as usize)?;
    for m in 0..plan.master_count() {
        let nodes = plan.nodes(m).len() as u16;
        masters.push(Master::new(alloc, plan.group_size(), nodes, now)?)?;
    }
    Ok(masters)
}

/// A copy of what a file holds.
fn copy_of(alloc: Global, kept: &Kept) -> Result<Kept, AllocError>
    ensures { IfOk result (λ copy. copy ≡ kept.now) }
{
    let masters = Vec::from_slice(alloc, kept.masters.as_slice())?;
    Ok(Kept {
        current: kept.current,
        masters: KeptMasters::from_vec(masters),
    })
}

/// A copy of what the plan's file holds.
#[tactic(auto, using(crate::proofs::KeptLemmas::few_kept))]
fn opened_kept(alloc: Global, plan: &Plan) -> Result<Kept, AllocError>
    ensures value { IfOk result (λ kept. kept ≡ plan.now.conf.kept) }
    ensures few { IfOk result (λ kept. length kept.masters ≤ MASTERS_MAX) }
{
    let conf = plan.conf();
    let _sound = conf.roster();
    copy_of(alloc, conf.kept())
}

/// Whether no failover is under way.
pub(crate) fn is_idle(stage: FailoverState) -> bool
    ensures { result ≡ is_idle stage }
{
    match stage {
        FailoverState::Idle => true,
        FailoverState::WaitStart { .. } => false,
        FailoverState::SelectReplica { .. } => false,
        FailoverState::SendPromotion { .. } => false,
        FailoverState::WaitPromotion { .. } => false,
        FailoverState::ReconfReplicas { .. } => false,
        FailoverState::UpdateConfig { .. } => false,
    }
}

/// When a period had passed since a moment, where it has by this reading.
fn passed_since(since: Option<u64>, period: u64, at: u64) -> Option<u64>
    ensures { result ≡ passed_since since period at }
{
    match since {
        Some(since) if at.saturating_sub(since) > period => Some(since + period),
        _ => None,
    }
}

/// The later of a moment and another one, where there is one.
fn later_of(one: u64, other: Option<u64>) -> Option<u64>
    ensures { result ≡ later_of (Some one) other }
{
    match other {
        Some(other) => Some(one.max(other)),
        None => None,
    }
}

/// The place of the first master whose configuration has the address.
fn card_position(masters: &[KeptMaster], addr: Addr) -> Option<usize>
    ensures value { result ≡ master_with_card masters.now addr }
    ensures within { IfSome result (λ m. m < length masters.now) }
{
    masters
        .iter()
        .position(|master| addr.is_same(&master.card.addr))
}

impl Core {
    /// What a Sentinel keeps at its start: what its file holds, and nothing else. The only error is a refused
    /// allocation.
    pub fn open(alloc: Global, plan: &Plan, now: u64) -> Result<Core, NoMemory>
        ensures { IfOk result (λ core. core ≡ opened plan.now now) }
    {
        let masters = opened_masters(alloc, plan, now)?;
        let kept = opened_kept(alloc, plan)?;
        Ok(Core {
            kept,
            masters,
            peers: vec![in alloc; Peer::new(now); plan.group_size() as usize]?,
            clock: Tilt::new(now),
            random: 0,
            won: None,
            notices: Notices::with_room(alloc, plan.master_count())?,
        })
    }

    /// What the file is to hold.
    pub fn kept(&self) -> &Kept
        ensures { result.now ≡ self.now.kept }
    {
        &self.kept
    }

    /// The election that the last input brought.
    pub fn won(&self) -> Option<Win>
        ensures { result ≡ self.now.won }
    {
        self.won
    }

    /// The election of the input before is over.
    pub fn forget_win(&mut self)
        ensures { self.new ≡ record self.old { won = None } }
    {
        self.won = None;
    }

    /// Whether the clock is not to be trusted (TILT).
    pub fn is_tilted(&self) -> bool
        ensures { result ≡ is_tilted self.now }
    {
        self.clock.holds()
    }

    /// The reading at which the clock last jumped, while it is not to be trusted.
    pub fn tilted_since(&self) -> Option<u64>
        ensures { result ≡ self.now.clock.entered }
    {
        self.clock.since()
    }

    /// A master's configuration.
    pub fn card(&self, m: u16) -> Card
        ensures { result ≡ card_of self.now.kept m }
    {
        self.entry(m).card
    }

    /// The number of the first master whose configuration has the address.
    pub fn master_with_card(&self, addr: Addr) -> Option<u16>
        ensures { result ≡ master_with_card self.now.kept.masters addr }
    {
        match card_position(self.kept.masters.as_slice(), addr) {
            Some(m) => Some(m as u16),
            None => None,
        }
    }

    /// The place of the node that a master's configuration names; their number where it is none of the master's.
    pub fn card_place(&self, plan: &Plan, m: u16) -> usize
        ensures value { result ≡ card_place plan.now self.now m }
        ensures within { result ≤ NODES_MAX }
    {
        plan.node_place(m, self.card(m).addr)
    }

    /// Whether a failover of the master runs.
    pub fn is_failing_over(&self, m: u16) -> bool
        ensures { result ≡ is_failing_over self.now m }
    {
        match self.masters.get(m as usize) {
            Some(master) => !is_idle(master.failover.state()),
            None => false,
        }
    }

    /// Since when the node at a place has been subjectively down; `card_at` is the place of the node that the
    /// configuration names.
    pub fn node_down_since(
        &self,
        plan: &Plan,
        m: u16,
        now: u64,
        card_at: usize,
        k: usize,
    ) -> Option<u64>
        requires { card_at ≡ card_place plan.now self.now m }
        ensures { result ≡ node_down_since plan.now self.now m (clock now) k }
    {
        let as_master = k == card_at;
        let after_ms = plan.settings(m).after_ms;
        let since = match self.kept_node(m, k) {
            Some(node) => node.down_since(now, after_ms, as_master, plan.reboot_ms(m)),
            None => Node::new(0).down_since(now, after_ms, as_master, plan.reboot_ms(m)),
        };
        earlier_of(since, self.stray_down_since(plan, m, now, card_at, k))
    }

    /// Since when the node at a place has been silent for too long.
    fn silent_since(&self, plan: &Plan, m: u16, now: u64, place: Option<usize>) -> Option<u64>
        ensures { result ≡ silent_since plan.now self.now m (clock now) place }
    {
        match place {
            Some(k) => {
                let after_ms = plan.settings(m).after_ms;
                self.node(m, k).watch.sdown_since(now, after_ms, false)
            }
            None => None,
        }
    }

    /// Since when the node of the configuration, which says that it is a replica, has followed one that is down, by the
    /// profile.
    fn stray_down_since(
        &self,
        plan: &Plan,
        m: u16,
        now: u64,
        card_at: usize,
        k: usize,
    ) -> Option<u64>
        requires { card_at ≡ card_place plan.now self.now m }
        ensures { result ≡ stray_down_since plan.now.profile plan.now self.now m (clock now) k }
    {
        match plan.profile() {
            Profile::Strict => None,
            Profile::Redis => {
                if k != card_at {
                    return None;
                }
                let since = self.replica_since(m, k)?;
                let info = self.info(m, k).unwrap_or(ASSUMED_INFO);
                let followed = place_followed(plan, m, info.master);
                later_of(since, self.silent_since(plan, m, now, followed))
            }
        }
    }

    /// Whether the node at a place is subjectively down; `card_at` is the place of the node that the configuration
    /// names.
    pub fn is_node_down(&self, plan: &Plan, m: u16, now: u64, card_at: usize, k: usize) -> bool
        requires { card_at ≡ card_place plan.now self.now m }
        ensures { result ≡ is_node_down plan.now self.now m (clock now) k }
    {
        self.node_down_since(plan, m, now, card_at, k).is_some()
    }

    /// Whether a master is subjectively down: whether the node of its configuration is.
    pub fn is_master_down(&self, plan: &Plan, m: u16, now: u64) -> bool
        ensures { result ≡ is_master_down plan.now self.now m (clock now) }
    {
        let card_at = self.card_place(plan, m);
        self.is_node_down(plan, m, now, card_at, card_at)
    }

    /// Since when the Sentinel at a place has been subjectively down, by the first master's `down-after-milliseconds`.
    pub fn peer_down_since(&self, plan: &Plan, now: u64, place: usize) -> Option<u64>
        ensures { result ≡ peer_down_since plan.now self.now (clock now) place }
    {
        let after_ms = plan.settings(0).after_ms;
        self.peer(place).watch.sdown_since(now, after_ms, false)
    }

    /// Whether the Sentinel at a place is subjectively down, by the first master's `down-after-milliseconds`.
    pub fn is_peer_down(&self, plan: &Plan, now: u64, place: usize) -> bool
        ensures { result ≡ is_peer_down plan.now self.now (clock now) place }
    {
        self.peer_down_since(plan, now, place).is_some()
    }

    /// Whether a master is objectively down: this Sentinel, as `own` says, and enough of the others found it down.
    pub fn is_odown(&self, plan: &Plan, m: u16, now: u64, own: bool) -> bool
        requires known { m < master_count plan.now }
        requires own { own ≡ is_master_down plan.now self.now m (clock now) }
        ensures { result ≡ is_odown_at plan.now self.now m (clock now) }
    {
        match self.masters.get(m as usize) {
            Some(master) => is_odown(own, &master.reports, now, plan.quorum(m)),
            None => own && plan.quorum(m) <= 1,
        }
    }

    /// The current epoch.
    pub fn set_current(&mut self, epoch: u64)
        ensures { self.new ≡ with_current self.old epoch }
    {
        self.notices.see_epoch(self.kept.current, epoch);
        self.kept.current = epoch;
    }

    /// The card of a master; nothing where there is no such master.
    pub fn set_card(&mut self, m: u16, card: Card)
        ensures { self.new ≡ with_card self.old m card }
    {
        let mut entry = self.entry(m);
        entry.card = card;
        self.kept.masters.set(m, entry);
    }

    /// The epoch and the candidate of the last vote for a master.
    pub(crate) fn set_vote(&mut self, m: u16, voted: u64, candidate: Option<RunId>)
        ensures { self.new ≡ record self.old {
          kept = record self.old.kept {
            masters = slice_set self.old.kept.masters m (record (kept_of self.old.kept m) { voted = voted; candidate = candidate });
          };
        } }
    {
        let mut entry = self.entry(m);
        entry.voted = voted;
        entry.candidate = candidate;
        self.kept.masters.set(m, entry);
    }

    /// What is kept of a data node; none where there is no such node.
    pub fn kept_node(&self, m: u16, k: usize) -> Option<&Node>
        ensures some { IfSome result (λ node. node.now ≡ node_of self.now m k) }
        ensures none { IfNone result (node_of self.now m k ≡ no_node) }
    {
        match self.masters.get(m as usize) {
            Some(master) => master.nodes.get(k),
            None => None,
        }
    }

    /// The last INFO of a data node, where it sent one.
    pub fn info(&self, m: u16, k: usize) -> Option<Info>
        ensures { result ≡ (node_of self.now m k).info }
    {
        match self.kept_node(m, k) {
            Some(node) => node.info,
            None => None,
        }
    }

    /// Whether of a connection to a data node was last heard that it was lost.
    pub fn is_lost(&self, m: u16, k: usize) -> bool
        ensures { result ≡ (node_of self.now m k).lost }
    {
        match self.kept_node(m, k) {
            Some(node) => node.lost,
            None => false,
        }
    }

    /// Whether a data node may be told to clients.
    pub fn is_announced(&self, m: u16, k: usize) -> bool
        ensures { result ≡ (node_of self.now m k).announced }
    {
        match self.kept_node(m, k) {
            Some(node) => node.announced,
            None => true,
        }
    }

    /// A copy of what is kept of a data node; of what is kept of a new one at 0 where there is no such node.
    pub fn node(&self, m: u16, k: usize) -> Node
        ensures { result ≡ node_of self.now m k }
    {
        match self.masters.get(m as usize) {
            Some(master) => *master.nodes.get(k).unwrap_or(&Node::new(0)),
            None => Node::new(0),
        }
    }

    /// What is kept of a Sentinel; what is kept of a new one at 0 where there is no such Sentinel.
    pub fn peer(&self, place: usize) -> Peer
        ensures { result ≡ peer_of self.now place }
    {
        match self.peers.get(place) {
            Some(peer) => *peer,
            None => Peer::new(0),
        }
    }

    /// The epoch of the last vote for a master.
    pub fn voted(&self, m: u16) -> u64
        ensures { result ≡ voted_of self.now.kept m }
    {
        self.entry(m).voted
    }

    /// The clock takes a turn, and the tick's random number counts until the next one.
    pub fn read_clock(&mut self, random: u64, now: u64)
        ensures { self.new ≡ with_reading (clock now) random self.old }
    {
        self.clock.turn(now);
        self.random = random;
        self.notices.see_tilt(self.clock.holds());
    }

    /// The random number of the last tick.
    pub fn random(&self) -> u64
        ensures { result ≡ self.now.random }
    {
        self.random
    }

    /// The election that this input brings.
    pub fn set_win(&mut self, win: Win)
        ensures { self.new ≡ record self.old { won = Some win } }
    {
        self.won = Some(win);
    }

    /// What is kept of each Sentinel, by its place.
    pub fn peers(&self) -> &[Peer]
        ensures value { result.now ≡ self.now.peers }
        ensures few { length result.now ≤ SENTINELS_MAX }
    {
        self.peers.as_slice()
    }

    /// Keeps this of the Sentinel at a place; nothing where there is no such Sentinel.
    pub fn set_peer(&mut self, place: usize, peer: Peer)
        ensures { self.new ≡ record self.old { peers = slice_set self.old.peers place peer } }
    {
        if let Some(kept) = self.peers.get_mut(place) {
            *kept = peer;
        }
    }

    /// Keeps this of a data node; nothing where there is no such node.
    pub fn set_node(&mut self, m: u16, k: usize, node: Node)
        ensures { self.new ≡ with_node self.old m k node }
    {
        if let Some(master) = self.masters.get_mut(m as usize)
            && let Some(kept) = master.nodes.get_mut(k)
        {
            *kept = node;
        }
    }

    /// What the file is to hold of a master; no vote, and no address, where there is no such master.
    pub(crate) fn entry(&self, m: u16) -> KeptMaster
        ensures { result ≡ kept_of self.now.kept m }
    {
        match self.kept.masters.as_slice().get(m as usize) {
            Some(master) => *master,
            None => NO_ENTRY,
        }
    }
}
