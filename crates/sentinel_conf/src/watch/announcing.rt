//! Whether the others can reach a Sentinel by the ip by which they know it.

ghost use Rattle.std.specs.Prelude.{◌≡◌};
ghost use Rattle.sentinel_conf.specs.Watch.WatchConfs.{is_loopback, is_known_by_loopback, has_foreign_node, has_foreign_sentinel, has_foreign_master, lacks_announce_ip};

use crate::conf::Conf;
use ballot_law::{Addr, Roster, RunId, Watched};

/// Whether an address is on the loopback of its machine.
fn is_loopback(addr: Addr) -> bool
    ensures { result ≡ is_loopback addr }
{
    addr.ip / 0x0100_0000 == 127
}

/// Whether the Sentinel with this run id is known by an ip of the loopback.
fn is_known_by_loopback(id: RunId, roster: &Roster) -> bool
    ensures { result ≡ is_known_by_loopback id roster.now }
{
    roster.sentinels().iter().any(|member| id.is_same(&member.id) && is_loopback(member.addr))
}

/// Whether a data node of the master isn't on the loopback.
fn has_foreign_node(master: &Watched) -> bool
    ensures { result ≡ has_foreign_node master.now }
{
    master.nodes().iter().any(|addr| !is_loopback(*addr))
}

/// Whether a Sentinel isn't on the loopback.
fn has_foreign_sentinel(roster: &Roster) -> bool
    ensures { result ≡ has_foreign_sentinel roster.now }
{
    roster
        .sentinels()
        .iter()
        .any(|member| !is_loopback(member.addr))
}

/// Whether a data node of a master isn't on the loopback.
fn has_foreign_master(roster: &Roster) -> bool
    ensures { result ≡ has_foreign_master roster.now }
{
    roster
        .masters()
        .iter()
        .any(|master| has_foreign_node(master))
}

/// Whether another Sentinel or a data node isn't on the loopback, while this Sentinel is known to them by an ip of it:
/// the fault `NoAnnounceIp`.
pub fn lacks_announce_ip(conf: &Conf) -> bool
    ensures { result ≡ lacks_announce_ip conf.now }
{
    let roster = conf.roster();
    let id = roster.sentinels()[conf.place() as usize].id;
    is_known_by_loopback(id, roster) && (has_foreign_sentinel(roster) || has_foreign_master(roster))
}
