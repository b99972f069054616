//! The failover that is kept of a master: how far it has come, its turns, and what moves it.

ghost use Rattle.std.specs.Prelude.{◌≡◌, ◌<◌, ◌≤◌, true, IfSome, length};
ghost use Rattle.ballot_law.specs.declared.rosters.TheConstants.{NODES_MAX};
ghost use Rattle.ballot_law.specs.Clocks.{clock};
ghost use Rattle.failover_states.specs.Calls.{choice_of, promoted, reconfigured};
ghost use Rattle.failover_states.specs.Failovers.{ended};
ghost use Rattle.failover_states.specs.Known.{known};
ghost use Rattle.failover_states.specs.Replicas.{replica_at};
ghost use Rattle.failover_states.specs.Table.{turned};
ghost use Rattle.sentinel_rules.specs.States.{failover_of, with_failover};
ghost use Rattle.sentinel_rules.specs.Ticks.{campaign_epoch};

use crate::cores::Core;
use crate::masters::Master;
use failover_states::{Act, Facts, FailoverState};

impl Master {
    /// The failover takes the first row that fits.
    fn turn(&mut self, facts: &Facts) -> Act
        requires { IfSome facts.now.best (λ best. best.0 ≤ NODES_MAX) }
        ensures turn { record { failover = self.new.failover; row = result.row; vote = result.vote }
            ≡ turned self.old.failover (known facts.entry.now) }
        ensures rest { self.new ≡ record self.old { failover = self.new.failover } }
    {
        self.failover.turn(facts)
    }

    /// The place of the replica that the failover chose.
    fn choice(&self) -> Option<u16>
        ensures value { result ≡ choice_of self.now.failover.state }
        ensures few { IfSome result (λ place. place ≤ NODES_MAX) }
    {
        self.failover.choice()
    }

    /// How many nodes the failover keeps.
    fn place_count(&self) -> usize
        ensures value { result ≡ length self.now.failover.replicas }
        ensures few { result ≤ NODES_MAX }
    {
        self.failover.node_count()
    }
}

impl Core {
    /// How far the failover of a master has come.
    pub fn stage(&self, m: u16) -> FailoverState
        ensures { result ≡ (failover_of self.now m).state }
    {
        match self.masters.get(m as usize) {
            Some(master) => master.failover.state(),
            None => FailoverState::Idle,
        }
    }

    /// The epoch of the campaign of a master's failover; 0 where no failover runs.
    pub fn campaign_epoch(&self, m: u16) -> u64
        ensures { result ≡ campaign_epoch self.now m }
    {
        match self.masters.get(m as usize) {
            Some(master) => master.failover.epoch().unwrap_or(0),
            None => 0,
        }
    }

    /// The place of the replica that a failover chose.
    pub fn choice(&self, m: u16) -> Option<u16>
        ensures value { result ≡ choice_of (failover_of self.now m).state }
        ensures few { IfSome result (λ place. place ≤ NODES_MAX) }
    {
        match self.masters.get(m as usize) {
            Some(master) => master.choice(),
            None => None,
        }
    }

    /// How many nodes a failover keeps.
    pub fn place_count(&self, m: u16) -> usize
        ensures value { result ≡ length (failover_of self.now m).replicas }
        ensures few { result ≤ NODES_MAX }
    {
        match self.masters.get(m as usize) {
            Some(master) => master.place_count(),
            None => 0,
        }
    }

    /// Whether the last turn tells the node at a place to follow the new master.
    pub fn is_ordered(&self, m: u16, k: u16) -> bool
        ensures { result ≡ (replica_at (failover_of self.now m).replicas k).ordered }
    {
        match self.masters.get(m as usize) {
            Some(master) => master.failover.ordered(k),
            None => false,
        }
    }

    /// The failover of a master takes the first row that fits. Without a master with this number nothing was found
    /// down.
    pub fn take_turn(&mut self, m: u16, facts: &Facts) -> Act
        requires few { IfSome facts.now.best (λ best. best.0 ≤ NODES_MAX) }
        requires odown { facts.now.odown ≡ true → m < length self.old.masters }
        ensures state { self.new ≡ with_failover self.old m (turned (failover_of self.old m) (known facts.entry.now)).failover }
        ensures failover { failover_of self.new m ≡ (turned (failover_of self.old m) (known facts.entry.now)).failover }
        ensures row { result.row ≡ (turned (failover_of self.old m) (known facts.entry.now)).row }
        ensures vote { result.vote ≡ (turned (failover_of self.old m) (known facts.entry.now)).vote }
    {
        match self.masters.get_mut(m as usize) {
            Some(master) => master.turn(facts),
            None => Act {
                row: None,
                vote: None,
            },
        }
    }

    /// Ends the failover of a master.
    pub fn end_failover(&mut self, m: u16)
        ensures { self.new ≡ with_failover self.old m (ended (failover_of self.old m)) }
    {
        if let Some(master) = self.masters.get_mut(m as usize) {
            master.failover.end();
        }
    }

    /// The chosen replica is the master from now on, for the failover.
    pub fn set_promoted(&mut self, m: u16, now: u64)
        ensures { self.new ≡ with_failover self.old m
            (promoted (failover_of self.old m).state (record (failover_of self.old m) { moment = clock now })) }
    {
        if let Some(master) = self.masters.get_mut(m as usize) {
            master.failover.at(now);
            let _card = master.failover.promoted();
        }
    }

    /// The replica at a place follows the new master.
    pub fn reconf(&mut self, m: u16, k: u16, now: u64)
        ensures { self.new ≡ with_failover self.old m (reconfigured (failover_of self.old m).state (failover_of self.old m) k) }
    {
        if let Some(master) = self.masters.get_mut(m as usize) {
            master.failover.reconf(k, now);
        }
    }
}
