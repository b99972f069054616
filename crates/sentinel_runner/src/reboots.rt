//! For how long masters may load their data after a restart.

ghost use Rattle.std.specs.Prelude.{◌≡◌, IfOk};
ghost use Rattle.sentinel_runner.specs.Opening.{reboots_in};

use ballot_law::Roster;
use sentinel_conf::WatchConf;
use std::alloc::{AllocError, Global};

/// For how many milliseconds each master of this roster may load its data after a restart until it counts as down, in
/// their order, as the lines of a file say it; 0, as without a line, is for ever. The error is a refused allocation.
pub fn reboots_of(alloc: Global, roster: &Roster, watch: &WatchConf) -> Result<Vec<u64>, AllocError>
    ensures { IfOk result (λ reboots. reboots.items ≡ reboots_in watch.now roster.now) }
{
    let mut reboots = Vec::new(alloc);
    let mut rest = roster.masters();
    while let [master, more @ ..] = rest {
        reboots.push(u64::from(watch.reboot_ms(&master.name)))?;
        rest = more;
    }
    Ok(reboots)
}
