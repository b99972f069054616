//! The list of what is looked at in a group.

ghost use Rattle.std.specs.Prelude.{◌≡◌, map, IfOk};
ghost use Rattle.group_status.specs.Wellness.{IsWellGroup};
ghost use Rattle.group_status.specs.Saying.{trouble_of, asked_trouble, HaveAllSaid};

use crate::group::{GroupFacts, NewestTold, NodeFacts, SentinelFacts};
use crate::matters::{Matter, What};
use crate::said::{MasterSaid, SentinelSaid, Trouble};
use ballot_law::{Addr, Name, NoMemory, RunId};
use std::alloc::Global;

/// The list as it grows.
#[derive(Drop)]
struct MatterList<'a> {
    group: &'a GroupFacts,
    list: Vec<Matter>,
}

/// Why a node has said nothing; none where it has said something.
fn trouble_of<T>(said: &Result<T, Trouble>) -> Option<Trouble>
    ensures { result ≡ trouble_of said.now }
{
    match said {
        Ok(_) => None,
        Err(trouble) => Some(*trouble),
    }
}

/// Whether each Sentinel said something.
fn sentinels_reached(alloc: Global, sentinels: &[SentinelFacts]) -> Result<Vec<Matter>, NoMemory>
    ensures { IfOk result (λ list. map asked_trouble list.items ≡ map (λ facts. trouble_of facts.said) sentinels.now) }
{
    let mut list = Vec::new(alloc);
    let mut rest = sentinels;
    while let [facts, more @ ..] = rest {
        list.push(Matter {
            at: Some(facts.addr),
            master: None,
            what: What::SentinelReached(trouble_of(&facts.said)),
        })?;
        rest = more;
    }
    Ok(list)
}

/// Whether each of these data nodes said something.
fn nodes_reached(
    alloc: Global,
    group: &GroupFacts,
    nodes: &[NodeFacts],
) -> Result<Vec<Matter>, NoMemory>
    ensures { IfOk result (λ list. map asked_trouble list.items ≡ map (λ facts. trouble_of facts.said) nodes.now) }
{
    let mut list = Vec::new(alloc);
    let mut rest = nodes;
    while let [facts, more @ ..] = rest {
        list.push(Matter {
            at: Some(facts.addr),
            master: Some(facts.master),
            what: What::NodeReached(group.leads(facts), trouble_of(&facts.said)),
        })?;
        rest = more;
    }
    Ok(list)
}

/// All that is looked at in a group: whether each Sentinel and each data node said something, and what they said.
pub(crate) fn matters_of(alloc: Global, group: &GroupFacts) -> Result<Vec<Matter>, NoMemory>
    ensures { IfOk result (λ list. IsWellGroup list.items → HaveAllSaid group.now) }
{
    let mut list = sentinels_reached(alloc, &group.sentinels)?;
    let nodes = nodes_reached(alloc, group, &group.nodes)?;
    list.extend_from_slice(&nodes)?;
    let said = matters_said(alloc, group)?;
    list.extend_from_slice(&said)?;
    Ok(list)
}

/// What is looked at in what the nodes said.
fn matters_said(alloc: Global, group: &GroupFacts) -> Result<Vec<Matter>, NoMemory> {
    let list = Vec::new(alloc);
    let mut matters = MatterList { group, list };
    matters.push(None, What::Masters(group.masters.len() as u64))?;
    matters.push(None, What::LeftOut(group.left_out))?;
    for facts in &group.sentinels {
        if let Ok(said) = &facts.said {
            matters.add_sentinel(facts, said)?;
        }
    }
    for master in &group.masters {
        matters.add_master(*master)?;
    }
    Ok(matters.list)
}

impl MatterList<'_> {
    /// Adds what is looked at in the group, or in a Sentinel.
    fn push(&mut self, at: Option<Addr>, what: What) -> Result<(), NoMemory> {
        let master = None;
        self.list.push(Matter { at, master, what })?;
        Ok(())
    }

    /// Adds what is looked at in a Sentinel or a data node, of this master.
    fn add(&mut self, at: Addr, master: Name, what: What) -> Result<(), NoMemory> {
        let (at, master) = (Some(at), Some(master));
        self.list.push(Matter { at, master, what })?;
        Ok(())
    }

    /// Adds what is looked at in a master's replicas.
    fn add_of(&mut self, master: Name, what: What) -> Result<(), NoMemory> {
        let (at, master) = (None, Some(master));
        self.list.push(Matter { at, master, what })?;
        Ok(())
    }

    /// What is looked at in what a Sentinel said.
    fn add_sentinel(&mut self, facts: &SentinelFacts, said: &SentinelSaid) -> Result<(), NoMemory> {
        let at = facts.addr;
        if let Some(known) = facts.known_id {
            self.push(Some(at), What::KnownId(known, said.id))?;
        }
        self.push(Some(at), What::Tilt(said.tilt.unwrap_or(false)))?;
        let group = self.group;
        for master in &group.masters {
            let view = said.master(master);
            self.add(at, *master, What::Watches(view.is_some()))?;
            if let (Some(view), Some(newest)) = (view, group.newest(master)) {
                self.add_view(at, view, newest)?;
                self.add_peers(at, view, said.id)?;
                self.add_listing(at, view, newest)?;
            }
        }
        Ok(())
    }

    /// What is looked at in what a Sentinel tells of a master.
    fn add_view(
        &mut self,
        at: Addr,
        view: &MasterSaid,
        newest: NewestTold,
    ) -> Result<(), NoMemory> {
        let master = view.name;
        self.add(at, master, What::Epoch(view.epoch, newest.epoch))?;
        self.add(at, master, What::Address(view.addr, newest.addr))?;
        self.add(at, master, What::MasterDown(view.down, view.objectively))?;
        self.add(at, master, What::FailsOver(view.fails_over))?;
        let quorum = view.quorum;
        self.add(
            at,
            master,
            What::QuorumReached(quorum.reached, quorum.usable),
        )
    }

    /// How a Sentinel with this run id finds the others.
    fn add_peers(&mut self, at: Addr, view: &MasterSaid, own: RunId) -> Result<(), NoMemory> {
        let (master, group) = (view.name, self.group);
        for facts in &group.sentinels {
            let Some(id) = facts.id() else {
                continue;
            };
            if id == own {
                continue;
            }
            let (other, peer) = (facts.addr, view.peer(id));
            self.add(at, master, What::PeerKnown(other, peer.is_some()))?;
            if let (Some(peer), Ok(_)) = (peer, &facts.said) {
                self.add(at, master, What::PeerDown(other, peer.down))?;
            }
        }
        Ok(())
    }

    /// How a Sentinel finds the replicas of the newest configuration. One that isn't announced is listed by nobody.
    fn add_listing(
        &mut self,
        at: Addr,
        view: &MasterSaid,
        newest: NewestTold,
    ) -> Result<(), NoMemory> {
        let (master, group) = (view.name, self.group);
        for node in &group.nodes {
            let replica = node.addr;
            if node.master != view.name || replica == newest.addr || replica == view.addr {
                continue;
            }
            let listed = view.replica_at(replica);
            let is_hidden = node.said.map_or(false, |said| !said.announced);
            let is_listed = listed.is_some() || is_hidden;
            self.add(at, master, What::ReplicaListed(replica, is_listed))?;
            if let (Some(listed), Ok(_)) = (listed, node.said) {
                self.add(at, master, What::ReplicaDown(replica, listed.down))?;
            }
        }
        Ok(())
    }

    /// What is looked at in a master's data nodes.
    fn add_master(&mut self, master: Name) -> Result<(), NoMemory> {
        let group = self.group;
        let newest = group.newest(&master);
        let (mut count, mut known, mut able): (u64, u64, u64) = (0, 0, 0);
        for node in &group.nodes {
            if node.master != master {
                continue;
            }
            self.add_node(node, newest)?;
            if group.leads(node) {
                continue;
            }
            count = count.saturating_add(1);
            if let Ok(said) = node.said {
                known = known.saturating_add(1);
                if said.priority > 0 {
                    able = able.saturating_add(1);
                }
            }
        }
        self.add_of(master, What::Replicas(count))?;
        self.add_of(master, What::Heirs(known, able))
    }

    /// What is looked at in what a data node said: what it is by the newest configuration.
    fn add_node(&mut self, facts: &NodeFacts, newest: Option<NewestTold>) -> Result<(), NoMemory> {
        let (at, master) = (facts.addr, facts.master);
        let Ok(said) = facts.said else {
            return Ok(());
        };
        self.add(at, master, What::Loads(said.loads))?;
        let Some(newest) = newest else {
            return Ok(());
        };
        let leads = newest.addr == facts.addr;
        self.add(at, master, What::CallsItself(leads, said.is_master))?;
        if leads || said.is_master {
            return Ok(());
        }
        self.add(at, master, What::Link(said.link_up, said.link_down_s))?;
        self.add(at, master, What::Follows(said.follows, newest.addr))
    }
}
