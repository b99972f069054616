//! What all nodes of a group said.

use crate::said::{MasterSaid, NodeSaid, SentinelSaid, Trouble};
use crate::targets::{DataNodeAt, SentinelAt, Targets};
use ballot_law::{Addr, MASTERS_MAX, NODES_MAX, Name, NoMemory, RunId, SENTINELS_MAX};
use std::alloc::Global;

/// A Sentinel that was asked: its address, the run id by which others know it, and what it said, or why it said
/// nothing.
#[derive(Drop)]
pub(crate) struct SentinelFacts {
    pub(crate) addr: Addr,
    pub(crate) known_id: Option<RunId>,
    pub(crate) said: Result<SentinelSaid, Trouble>,
}

impl SentinelFacts {
    /// What it said of the master of this name.
    pub(crate) fn view(&self, master: &Name) -> Option<&MasterSaid> {
        match &self.said {
            Ok(said) => said.master(master),
            Err(_) => None,
        }
    }

    /// Its run id as it told it; else that by which others know it.
    pub(crate) fn id(&self) -> Option<RunId> {
        match &self.said {
            Ok(said) => Some(said.id),
            Err(_) => self.known_id,
        }
    }
}

/// A data node that was asked, and what it said, or why it said nothing.
#[derive(Clone, Copy)]
pub(crate) struct NodeFacts {
    pub(crate) addr: Addr,
    pub(crate) master: Name,
    pub(crate) said: Result<NodeSaid, Trouble>,
}

/// The configuration of a master with the greatest epoch that a Sentinel tells; of several the first one's.
#[derive(Clone, Copy)]
pub(crate) struct NewestTold {
    pub(crate) addr: Addr,
    pub(crate) epoch: u64,
}

/// How many nodes are asked at most: as many as the files of a group may name.
pub const NODES_ASKED_MAX: usize = SENTINELS_MAX + MASTERS_MAX * NODES_MAX;

/// All nodes that were asked. `left_out` is how often one more was named than are asked.
#[derive(Drop)]
pub struct GroupFacts {
    pub(crate) masters: Vec<Name>,
    pub(crate) sentinels: Vec<SentinelFacts>,
    pub(crate) nodes: Vec<NodeFacts>,
    pub(crate) left_out: u64,
}

impl GroupFacts {
    /// The targets, none of which has said anything.
    pub(crate) fn of(alloc: Global, targets: &Targets) -> Result<GroupFacts, NoMemory> {
        let mut group = GroupFacts {
            masters: Vec::new(alloc),
            sentinels: Vec::new(alloc),
            nodes: Vec::new(alloc),
            left_out: 0,
        };
        for sentinel in targets.sentinels() {
            group.add_sentinel(*sentinel)?;
        }
        for node in targets.nodes() {
            group.add_master(node.master)?;
            group.add_node(*node)?;
        }
        Ok(group)
    }

    /// Adds a Sentinel, unless one at its address is there.
    pub(crate) fn add_sentinel(&mut self, sentinel: SentinelAt) -> Result<(), NoMemory> {
        for known in &mut self.sentinels {
            if known.addr == sentinel.addr {
                known.known_id = known.known_id.or(sentinel.id);
                return Ok(());
            }
        }
        if self.is_full() {
            return Ok(());
        }
        self.sentinels.push(SentinelFacts {
            addr: sentinel.addr,
            known_id: sentinel.id,
            said: Err(Trouble::Unreached),
        })?;
        Ok(())
    }

    /// Adds a data node, unless it is there.
    pub(crate) fn add_node(&mut self, node: DataNodeAt) -> Result<(), NoMemory> {
        let DataNodeAt { addr, master } = node;
        for known in &self.nodes {
            if known.addr == addr && known.master == master {
                return Ok(());
            }
        }
        if self.is_full() {
            return Ok(());
        }
        self.nodes.push(NodeFacts {
            addr,
            master,
            said: Err(Trouble::Unreached),
        })?;
        Ok(())
    }

    /// Adds a master, unless it is there.
    pub(crate) fn add_master(&mut self, master: Name) -> Result<(), NoMemory> {
        for known in &self.masters {
            if *known == master {
                return Ok(());
            }
        }
        self.masters.push(master)?;
        Ok(())
    }

    /// Whether there are as many nodes as are asked: then the one that was to be added is left out.
    fn is_full(&mut self) -> bool {
        let count = self.sentinels.len().saturating_add(self.nodes.len());
        if count < NODES_ASKED_MAX {
            return false;
        }
        self.left_out = self.left_out.saturating_add(1);
        true
    }

    /// The newest configuration of the master; none where no Sentinel tells one.
    pub(crate) fn newest(&self, master: &Name) -> Option<NewestTold> {
        let mut newest: Option<NewestTold> = None;
        for facts in &self.sentinels {
            if let Some(told) = facts.view(master) {
                let (addr, epoch) = (told.addr, told.epoch);
                match newest {
                    Some(known) if epoch <= known.epoch => {}
                    _ => newest = Some(NewestTold { addr, epoch }),
                }
            }
        }
        newest
    }

    /// Whether this data node is its master's, by the newest configuration.
    pub(crate) fn leads(&self, node: &NodeFacts) -> bool {
        self.newest(&node.master)
            .map_or(false, |newest| newest.addr == node.addr)
    }

    /// The address of the Sentinel with this run id.
    pub(crate) fn sentinel_with(&self, id: RunId) -> Option<Addr> {
        for facts in &self.sentinels {
            if facts.id() == Some(id) {
                return Some(facts.addr);
            }
        }
        None
    }

    /// The last vote for this master that others heard of the Sentinel with this run id, with its epoch.
    pub(crate) fn vote_of(&self, id: RunId, master: &Name) -> Option<(RunId, u64)> {
        let mut last: Option<(RunId, u64)> = None;
        for facts in &self.sentinels {
            let heard = facts.view(master).and_then(|told| told.peer(id));
            if let Some(peer) = heard {
                if let Some(vote) = peer.vote {
                    match last {
                        Some((_, epoch)) if peer.vote_epoch <= epoch => {}
                        _ => last = Some((vote, peer.vote_epoch)),
                    }
                }
            }
        }
        last
    }

    /// What the data node at this address, of this master, said.
    pub(crate) fn node_at(&self, addr: Addr, master: &Name) -> Option<NodeSaid> {
        for node in &self.nodes {
            if node.addr == addr && node.master == *master {
                return node.said.ok();
            }
        }
        None
    }
}
