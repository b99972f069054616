//! What a thread copies of its Sentinel at the end of a turn.

ghost use Rattle.std.specs.Prelude.{◌≡◌, ◌<◌};
ghost use Rattle.ballot_law.specs.Clocks.{clock};
ghost use Rattle.sentinel_rules.specs.Plans.{master_count};
ghost use Rattle.sentinel_rules.specs.States.{is_failing_over, is_master_down, is_odown_at};

use crate::settling::Settling;
use ballot_law::MASTERS_MAX;
use sentinel_cell::Observer;
use sentinel_core::Sentinel;
use sentinel_state::{Core, NOTICES_MAX, Notice, Plan};
use std::alloc::Global;

/// What a Sentinel finds of a master.
#[derive(Clone, Copy)]
struct Flags {
    down: bool,
    agreed: bool,
    failing_over: bool,
}

/// What it finds of a master.
fn flags_of(plan: &Plan, core: &Core, now: u64, m: u16) -> Flags
    requires { m < master_count plan.now }
    ensures { result ≡ record {
      down = is_master_down plan.now core.now m (clock now);
      agreed = is_odown_at plan.now core.now m (clock now);
      failing_over = is_failing_over core.now m;
    } }
{
    let down = core.is_master_down(plan, m, now);
    Flags {
        down,
        agreed: core.is_odown(plan, m, now, down),
        failing_over: core.is_failing_over(m),
    }
}

/// Whether a campaign of the Sentinel is near: at this reading of its clock it finds the master objectively down, and
/// no failover of it runs.
fn is_campaign_near(plan: &Plan, core: &Core, at: u64, m: u16) -> bool
    requires { m < master_count plan.now }
{
    let flags = flags_of(plan, core, at, m);
    flags.agreed && !flags.failing_over
}

/// The least epoch of the configurations of all masters: the same for all Sentinels that know these.
fn least_epoch(plan: &Plan, core: &Core) -> u64 {
    (0..plan.master_count())
        .map(|m| core.card(m).epoch)
        .min()
        .unwrap_or(0)
}

/// Whether any failover of the Sentinel's own is on its way to a new master, by the profile.
fn is_any_on_its_way(plan: &Plan, core: &Core) -> bool {
    if !plan.profile().is_redis() {
        return false;
    }
    for m in 0..plan.master_count() {
        if core.is_on_its_way(m) {
            return true;
        }
    }
    false
}

/// Of which masters a campaign of the Sentinel was near when they were last looked at, and the number of one that has
/// come near since that was asked.
#[derive(Clone, Copy)]
struct Nearness {
    masters: [bool; MASTERS_MAX],
    come: Option<u64>,
}

impl Nearness {
    /// Takes in whether a campaign with this number is near.
    fn see(&mut self, m: u16, is_near: bool, number: u64) {
        if let Some(was_near) = self.masters.get_mut(m as usize) {
            if is_near && !*was_near {
                self.come = Some(number);
            }
            *was_near = is_near;
        }
    }
}

/// Observer: copies what a thread needs at the end of a turn: notices that nobody took yet, and of which masters a
/// campaign comes near. `is_switching`: a failover of
/// its own is on its way to a new master. `current`: the epoch after the last turn.
/// `settling`: how far that has come, if it is looked after.
#[derive(Drop)]
pub(crate) struct Sight {
    notices: Vec<Notice>,
    current: u64,
    settling: Option<Settling>,
    ahead: Option<(u16, u64)>,
    nearness: Nearness,
    is_switching: bool,
}

impl Sight {
    /// Nothing was seen yet.
    pub(crate) fn new(alloc: Global) -> Sight {
        Sight {
            notices: Vec::new(alloc),
            current: 0,
            settling: None,
            ahead: None,
            nearness: Nearness {
                masters: [false; MASTERS_MAX],
                come: None,
            },
            is_switching: false,
        }
    }

    /// Takes in the current epoch after the last turn, at a reading of the clock: how far it has come. Where this
    /// wasn't called before, `known` is an epoch of which the others have heard.
    pub(crate) fn settle(&mut self, known: u64, now: u64) -> Settling {
        let settling = match self.settling {
            Some(settling) => settling,
            None => Settling::begun(known, now),
        };
        let settling = settling.see(self.current, now);
        self.settling = Some(settling);
        settling
    }

    /// What was noted up to the end of the last turn that was stored, and wasn't taken before it.
    pub(crate) fn notices(&self) -> &[Notice] {
        self.notices.as_slice()
    }

    /// The next turn sees whether a campaign for this master is near at this reading of the clock in milliseconds, now
    /// or later.
    pub(crate) fn look_ahead(&mut self, master: u16, at: u64) {
        self.ahead = Some((master, at));
    }

    /// The number of a campaign that has come near since this was asked last.
    pub(crate) fn take_nearness(&mut self) -> Option<u64> {
        self.nearness.come.take()
    }

    /// Whether a failover of its own was on its way to a new master at the end of the last turn.
    pub(crate) fn is_switching(&self) -> bool {
        self.is_switching
    }

    /// Sees whether a campaign is near, where that is wanted.
    fn see_ahead(&mut self, plan: &Plan, core: &Core) {
        if let Some((master, at)) = self.ahead {
            if master < plan.master_count() {
                let is_near = is_campaign_near(plan, core, at, master);
                self.nearness.see(master, is_near, least_epoch(plan, core));
            }
        }
        self.ahead = None;
    }

    /// Takes what was noted; a notice for which there is no memory is lost.
    fn take_notices(&mut self, sentinel: &Sentinel) {
        self.notices.clear();
        for _ in 0..NOTICES_MAX {
            let Some(notice) = sentinel.take_notice() else {
                return;
            };
            let _ = self.notices.push(notice);
        }
    }
}

impl Observer for Sight {
    fn observe(&mut self, sentinel: &Sentinel) {
        let (plan, core) = (sentinel.plan(), sentinel.core());
        self.current = core.kept().current;
        self.is_switching = is_any_on_its_way(plan, core);
        self.see_ahead(plan, core);
        self.take_notices(sentinel);
    }
}
