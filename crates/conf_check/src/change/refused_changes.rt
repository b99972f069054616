//! Which changes of a group are refused.

use crate::change::changes::{
    Change, ChangeFault, MasterSetting, NewSetting, Replacement, ReplicaOf,
};
use crate::change::keeping::{has_node_at, has_sentinel_at};
use crate::creation::NewMaster;
use ballot_law::{Addr, Name, Roster, RunId};
use sentinel_conf::Conf;

/// Whether a Sentinel or a data node is at this address.
fn is_taken(roster: &Roster, addr: Addr) -> bool {
    roster
        .sentinels()
        .iter()
        .any(|member| member.addr.is_same(&addr))
        || roster.master_at(addr).is_some()
}

/// Whether a Sentinel or a data node is at this ip.
fn has_host(roster: &Roster, ip: u32) -> bool {
    has_sentinel_at(roster, ip) || has_node_at(roster, ip)
}

/// Why this master isn't added.
fn fault_of_new_master(roster: &Roster, new: &NewMaster) -> Option<ChangeFault> {
    if roster.master_named(&new.name).is_some() {
        return Some(ChangeFault::SameName);
    }
    if new.nodes.iter().any(|addr| is_taken(roster, *addr)) {
        return Some(ChangeFault::AddressTaken);
    }
    if new.quorum == 0 || new.quorum as usize > roster.sentinels().len() {
        return Some(ChangeFault::BadQuorum);
    }
    None
}

/// Why this master doesn't go.
fn fault_of_old_master(roster: &Roster, name: &Name) -> Option<ChangeFault> {
    if roster.master_named(name).is_none() {
        return Some(ChangeFault::NoSuchMaster);
    }
    if roster.masters().len() <= 1 {
        return Some(ChangeFault::LastMaster);
    }
    None
}

/// Why this replica isn't added.
fn fault_of_new_replica(roster: &Roster, replica: &ReplicaOf) -> Option<ChangeFault> {
    if roster.master_named(&replica.master).is_none() {
        return Some(ChangeFault::NoSuchMaster);
    }
    if is_taken(roster, replica.addr) {
        return Some(ChangeFault::AddressTaken);
    }
    None
}

/// Why this replica doesn't go.
fn fault_of_old_replica(conf: &Conf, replica: &ReplicaOf) -> Option<ChangeFault> {
    let roster = conf.roster();
    let Some(m) = roster.master_named(&replica.master) else {
        return Some(ChangeFault::NoSuchMaster);
    };
    if !roster.has_node(m, replica.addr) {
        return Some(ChangeFault::NoSuchReplica);
    }
    match conf.kept().masters.as_slice().get(m as usize) {
        Some(kept) if kept.card.addr.is_same(&replica.addr) => Some(ChangeFault::IsMaster),
        _ if roster.nodes(m).len() <= 2 => Some(ChangeFault::LastReplica),
        _ => None,
    }
}

/// Why this Sentinel doesn't go.
fn fault_of_old_sentinel(roster: &Roster, id: &RunId) -> Option<ChangeFault> {
    let sentinels = roster.sentinels();
    if !sentinels.iter().any(|member| member.id.is_same(id)) {
        return Some(ChangeFault::NoSuchSentinel);
    }
    if sentinels.len() <= 1 {
        return Some(ChangeFault::LastSentinel);
    }
    let left = sentinels.len() - 1;
    if roster
        .masters()
        .iter()
        .any(|master| master.quorum as usize > left)
    {
        return Some(ChangeFault::BadQuorum);
    }
    None
}

/// Why this host isn't replaced.
fn fault_of_host(conf: &Conf, host: &Replacement) -> Option<ChangeFault> {
    let roster = conf.roster();
    if !has_host(roster, host.old) {
        return Some(ChangeFault::NoSuchHost);
    }
    if has_host(roster, host.new) {
        return Some(ChangeFault::AddressTaken);
    }
    let masters = conf.kept().masters.as_slice();
    if masters.iter().any(|kept| kept.card.addr.ip == host.old) {
        return Some(ChangeFault::IsMaster);
    }
    let sentinels = roster.sentinels().iter();
    if sentinels.filter(|it| it.addr.ip == host.old).count() > 1 {
        return Some(ChangeFault::ManySentinels);
    }
    None
}

/// Why this setting isn't set.
fn fault_of_setting(roster: &Roster, new: &NewSetting) -> Option<ChangeFault> {
    if roster.master_named(&new.master).is_none() {
        return Some(ChangeFault::NoSuchMaster);
    }
    match new.setting {
        MasterSetting::Quorum if new.value == 0 || new.value as usize > roster.sentinels().len() =>
            { Some(ChangeFault::BadQuorum) }
        MasterSetting::DownAfter | MasterSetting::FailoverTimeout if new.value == 0 => {
            Some(ChangeFault::BadValue)
        }
        _ => None,
    }
}

/// Why a group isn't changed so, of which this file has the newest configurations.
pub(crate) fn fault_of(conf: &Conf, change: &Change) -> Option<ChangeFault> {
    let roster = conf.roster();
    match change {
        Change::AddMaster(new) => fault_of_new_master(roster, new),
        Change::RemoveMaster(name) => fault_of_old_master(roster, name),
        Change::AddReplica(replica) => fault_of_new_replica(roster, replica),
        Change::RemoveReplica(replica) => fault_of_old_replica(conf, replica),
        Change::AddSentinel(member) if is_taken(roster, member.addr) => {
            Some(ChangeFault::AddressTaken)
        }
        Change::AddSentinel(_) => None,
        Change::RemoveSentinel(id) => fault_of_old_sentinel(roster, id),
        Change::ReplaceHost(host) => fault_of_host(conf, host),
        Change::Set(new) => fault_of_setting(roster, new),
    }
}
