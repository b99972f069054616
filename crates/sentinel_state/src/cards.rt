//! The nodes of a master whose configuration changes.

ghost use Rattle.std.specs.Prelude.{◌≡◌};
ghost use Rattle.ballot_law.specs.Clocks.{clock};
ghost use Rattle.sentinel_rules.specs.News.{at_same_address, at_new_address, planned_after};
ghost use Rattle.sentinel_rules.specs.Profiles.{start_at_new_address};
ghost use Rattle.sentinel_rules.specs.States.{master_of, with_master};

use crate::cores::Core;
use crate::masters::Master;
use crate::nodes::{Plan, greet_soon, move_all};
use sentinel_rules::Profile;

impl Master {
    /// The configuration changed, the address stayed.
    fn stay(&mut self)
        ensures { self.new ≡ at_same_address self.old }
    {
        greet_soon(&mut self.nodes);
    }

    /// By the profile the last start is forgotten at a new address.
    fn forget_start(&mut self, profile: Profile)
        ensures { self.new ≡ record self.old {
          failover = record self.old.failover { last_start = start_at_new_address profile self.old.failover.last_start };
        } }
    {
        match profile {
            Profile::Strict => {}
            Profile::Redis => self.failover.forget_start(),
        }
    }

    /// A switch that was asked for, and not begun, is another one's: its epoch is one that no campaign has.
    fn give_wish_away(&mut self)
        ensures { self.new ≡ record self.old { planned = planned_after self.old.planned self.old.wish } }
    {
        if self.planned.is_none() && self.wish.is_some() {
            self.planned = Some(0);
        }
    }

    /// The configuration names another address: what was said of the old one is forgotten, by the profile what the
    /// nodes told and when this Sentinel last began too.
    fn relocate(&mut self, profile: Profile, now: u64)
        ensures { self.new ≡ at_new_address profile (clock now) self.old }
    {
        move_all(&mut self.nodes, profile, now);
        self.reports.clear();
        self.forget_start(profile);
        self.give_wish_away();
    }
}

impl Core {
    /// A master's configuration changed, the address stayed.
    pub fn stay(&mut self, m: u16)
        ensures { self.new ≡ with_master self.old m (at_same_address (master_of self.old m)) }
    {
        if let Some(master) = self.masters.get_mut(m as usize) {
            master.stay();
        }
    }

    /// A master's configuration names another address.
    pub fn relocate(&mut self, plan: &Plan, m: u16, now: u64)
        ensures { self.new ≡ with_master self.old m (at_new_address plan.now.profile (clock now) (master_of self.old m)) }
    {
        let of = self.then(m);
        self.notices.see_move(of);
        if let Some(master) = self.masters.get_mut(m as usize) {
            master.relocate(plan.profile(), now);
        }
    }
}
