//! What is kept of a master.

ghost use Rattle.std.specs.Prelude.{◌≡◌, ◌≤◌, length, IfOk};
ghost use Rattle.ballot_law.specs.declared.rosters.TheConstants.{NODES_MAX};
ghost use Rattle.ballot_law.specs.Clocks.{clock};
ghost use Rattle.sentinel_rules.specs.States.{new_master};

use crate::nodes::Node;
use ballot_law::NoMemory;
use down_detector::DownReports;
use failover_states::Failover;
use std::alloc::Global;
use std::marker::Model;
use vote_book::Heard;

/// What is kept of a master.
#[derive(Drop)]
pub(crate) struct Master {
    /// The votes of the other Sentinels, by their places.
    pub(crate) heard: Heard,
    pub(crate) failover: Failover,
    /// What the other Sentinels last said of it, by their places.
    pub(crate) reports: DownReports,
    /// Its data nodes, by address.
    pub(crate) nodes: Vec<Node>,
    /// When the other Sentinels were last asked whether it is down.
    pub(crate) ask_sent: Option<u64>,
    /// Whether it was objectively down at its last tick.
    pub(crate) odown: bool,
    /// Since when it has been, for those who ask.
    pub(crate) odown_since: Option<u64>,
    /// When a client last asked that it hand over, until the campaign for that begins.
    pub(crate) wish: Option<u64>,
    /// The epoch of that campaign.
    pub(crate) planned: Option<u64>,
    /// Whether who was told to bring the new master about refused, in the last campaign.
    pub(crate) refused: bool,
    /// When each data node was last told that it is the master, and didn't become it.
    pub(crate) failed: Vec<Option<u64>>,
}

impl Model for Master {
    ghost use Rattle.std.specs.Prelude.{◌≤◌, length};
    ghost use Rattle.ballot_law.specs.declared.rosters.TheConstants.{NODES_MAX};
    ghost use Rattle.sentinel_rules.specs.States.{MasterState};
    ghost use Rattle.sentinel_state.specs.Places.{HasFewPlaces};

    ghost Value = { MasterState };

    ghost view = { λ master. record {
      heard = master.heard;
      failover = master.failover;
      reports = master.reports;
      nodes = master.nodes.items;
      ask_sent = master.ask_sent;
      odown = master.odown;
      odown_since = master.odown_since;
      wish = master.wish;
      planned = master.planned;
      refused = master.refused;
      failed = master.failed.items;
    } };

    ghost invariant = { λ master. (length master.nodes.items ≤ NODES_MAX) × HasFewPlaces master.failover };
}

impl Master {
    /// A master of so many nodes, of which nothing was heard yet, in a group of so many Sentinels.
    pub(crate) fn new(
        alloc: Global,
        sentinels: u16,
        nodes: u16,
        now: u64,
    ) -> Result<Master, NoMemory>
        requires { nodes ≤ NODES_MAX }
        ensures { IfOk result (λ master. master ≡ new_master sentinels nodes (clock now)) }
    {
        Ok(Master {
            heard: Heard::new(alloc, sentinels)?,
            failover: Failover::new(alloc, nodes)?,
            reports: DownReports::new(alloc, sentinels)?,
            nodes: vec![in alloc; Node::new(now); nodes as usize]?,
            ask_sent: None,
            odown: false,
            odown_since: None,
            wish: None,
            planned: None,
            refused: false,
            failed: vec![in alloc; None; nodes as usize]?,
        })
    }
}
