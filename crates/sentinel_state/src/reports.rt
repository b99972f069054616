//! What is said of a master: by the other Sentinels, and whether it was objectively down.

ghost use Rattle.std.specs.Prelude.{◌≡◌, ◌<◌, IsTrue, length};
ghost use Rattle.ballot_law.specs.Clocks.{clock};
ghost use Rattle.sentinel_rules.specs.Contacts.{since_after};
ghost use Rattle.sentinel_rules.specs.News.{reported};
ghost use Rattle.sentinel_rules.specs.States.{master_of, with_master};

use crate::cores::Core;
use crate::nodes::since_after;
use ballot_law::Addr;

impl Core {
    /// Records what the Sentinel at a place says of a master, where it speaks of the address that the configuration
    /// has.
    pub fn hear_report(&mut self, voter: u16, m: u16, now: u64, addr: Addr, down: bool)
        ensures { self.new ≡ reported voter m (clock now) addr down self.old }
    {
        if addr.is_same(&self.card(m).addr)
            && let Some(master) = self.masters.get_mut(m as usize)
            && (voter as usize) < master.reports.sentinels()
        {
            master.reports.report(voter, down, now);
        }
    }

    /// Whether a master was objectively down at its last tick.
    pub fn was_odown(&self, m: u16) -> bool
        ensures value { result ≡ (master_of self.now m).odown }
        ensures here { IsTrue result → m < length self.now.masters }
    {
        match self.masters.get(m as usize) {
            Some(master) => master.odown,
            None => false,
        }
    }

    /// Since when a master has been objectively down, as of its last tick.
    pub fn odown_since(&self, m: u16) -> Option<u64>
        ensures { result ≡ (master_of self.now m).odown_since }
    {
        match self.masters.get(m as usize) {
            Some(master) => master.odown_since,
            None => None,
        }
    }

    /// Keeps whether a master is objectively down, and since when; nothing where there is no such master.
    pub fn set_odown(&mut self, m: u16, now: u64, odown: bool)
        ensures { self.new ≡ with_master self.old m (record (master_of self.old m) {
          odown = odown;
          odown_since = since_after odown (clock now) (master_of self.old m).odown_since;
        }) }
    {
        if let Some(master) = self.masters.get_mut(m as usize) {
            master.odown = odown;
            master.odown_since = since_after(odown, now, master.odown_since);
        }
    }
}
