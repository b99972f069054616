//! The roster of a group once it is changed.

ghost use Rattle.std.specs.Prelude.{◌≡◌, IfOk, IsTrue, All, map, filter, not};
ghost use Rattle.ballot_law.specs.Orders.{same_addr, same_bytes, same_id};
ghost use Rattle.conf_check.specs.Change.ChangedRosters.{moved, replaced, changed_sentinels, changed_nodes};
ghost use Rattle.conf_check.specs.Change.ChangedRosters.{changed_quorum, changed_master, changed_masters};
ghost use Rattle.conf_check.specs.Change.ChangedRosters.{IsChangedRoster, HasChangedRoster};

use crate::change::changes::{Change, ChangeFault, MasterSetting, Replacement};
use crate::group::HoldsConf;
use ballot_law::{Addr, Member, Name, Roster, RosterFault, RunId, Watched, is_same_bytes};
use sentinel_conf::Conf;
use std::alloc::{AllocError, Global};

/// Where this address is once the host is replaced.
fn moved(host: &Replacement, addr: Addr) -> Addr
    ensures { result ≡ moved host.now addr }
{
    if addr.ip == host.old {
        let (ip, port) = (host.new, addr.port);
        Addr { ip, port }
    } else {
        addr
    }
}

/// Who this Sentinel is once the host is replaced.
fn replaced(host: &Replacement, member: Member) -> Member
    ensures { result ≡ replaced host.now member }
{
    if member.addr.ip == host.old {
        let addr = moved(host, member.addr);
        Member { id: host.id, addr }
    } else {
        member
    }
}

/// Where these addresses are once the host is replaced.
fn all_moved(alloc: Global, host: &Replacement, addrs: &[Addr]) -> Result<Vec<Addr>, AllocError>
    ensures { IfOk result (λ list. list.items ≡ map (moved host.now) addrs.now) }
{
    let mut list = Vec::new(alloc);
    let mut rest = addrs;
    while let [addr, more @ ..] = rest {
        list.push(moved(host, *addr))?;
        rest = more;
    }
    Ok(list)
}

/// Who these Sentinels are once the host is replaced.
fn all_replaced(
    alloc: Global,
    host: &Replacement,
    members: &[Member],
) -> Result<Vec<Member>, AllocError>
    ensures { IfOk result (λ list. list.items ≡ map (replaced host.now) members.now) }
{
    let mut list = Vec::new(alloc);
    let mut rest = members;
    while let [member, more @ ..] = rest {
        list.push(replaced(host, *member))?;
        rest = more;
    }
    Ok(list)
}

/// The Sentinels but this one.
fn sentinels_without(
    alloc: Global,
    members: &[Member],
    id: &RunId,
) -> Result<Vec<Member>, AllocError>
    ensures { IfOk result (λ list. list.items ≡ filter (λ member. not (same_id id.now member.id)) members.now) }
{
    let mut list = Vec::new(alloc);
    let mut rest = members;
    while let [member, more @ ..] = rest {
        if !id.is_same(&member.id) {
            list.push(*member)?;
        }
        rest = more;
    }
    Ok(list)
}

/// The Sentinels of the changed group.
fn changed_sentinels(
    alloc: Global,
    change: &Change,
    members: &[Member],
) -> Result<Vec<Member>, AllocError>
    ensures { IfOk result (λ list. list.items ≡ changed_sentinels change.now members.now) }
{
    match change {
        Change::AddSentinel(member) => {
            let mut list = Vec::from_slice(alloc, members)?;
            list.push(*member)?;
            Ok(list)
        }
        Change::RemoveSentinel(id) => sentinels_without(alloc, members, id),
        Change::ReplaceHost(host) => all_replaced(alloc, host, members),
        Change::AddMaster(_)
        | Change::RemoveMaster(_)
        | Change::AddReplica(_)
        | Change::RemoveReplica(_)
        | Change::Set(_) => Vec::from_slice(alloc, members),
    }
}

/// The data nodes but this one.
fn nodes_without(alloc: Global, nodes: &[Addr], gone: &Addr) -> Result<Vec<Addr>, AllocError>
    ensures { IfOk result (λ list. list.items ≡ filter (λ addr. not (same_addr gone.now addr)) nodes.now) }
{
    let mut list = Vec::new(alloc);
    let mut rest = nodes;
    while let [addr, more @ ..] = rest {
        if !gone.is_same(addr) {
            list.push(*addr)?;
        }
        rest = more;
    }
    Ok(list)
}

/// Whether the two are one name.
fn is_name(one: &Name, other: &Name) -> bool
    ensures { result ≡ same_bytes one.now other.now }
{
    is_same_bytes(one.as_slice(), other.as_slice())
}

/// The data nodes of the master of this name, once the group is changed.
fn changed_nodes(
    alloc: Global,
    change: &Change,
    name: &Name,
    nodes: &[Addr],
) -> Result<Vec<Addr>, AllocError>
    ensures { IfOk result (λ list. list.items ≡ changed_nodes change.now name.now nodes.now) }
{
    match change {
        Change::AddReplica(replica) => {
            let mut list = Vec::from_slice(alloc, nodes)?;
            if is_name(&replica.master, name) {
                list.push(replica.addr)?;
            }
            Ok(list)
        }
        Change::RemoveReplica(replica) => {
            if is_name(&replica.master, name) {
                nodes_without(alloc, nodes, &replica.addr)
            } else {
                Vec::from_slice(alloc, nodes)
            }
        }
        Change::ReplaceHost(host) => all_moved(alloc, host, nodes),
        Change::AddMaster(_)
        | Change::RemoveMaster(_)
        | Change::AddSentinel(_)
        | Change::RemoveSentinel(_)
        | Change::Set(_) => Vec::from_slice(alloc, nodes),
    }
}

/// The quorum of the master of this name, once the group is changed.
fn changed_quorum(change: &Change, name: &Name, quorum: u32) -> u32
    ensures { result ≡ changed_quorum change.now name.now quorum }
{
    match change {
        Change::Set(new) => {
            if is_name(&new.master, name) {
                match new.setting {
                    MasterSetting::Quorum => new.value,
                    MasterSetting::DownAfter
                    | MasterSetting::FailoverTimeout
                    | MasterSetting::ParallelSyncs => quorum,
                }
            } else {
                quorum
            }
        }
        Change::AddMaster(_)
        | Change::RemoveMaster(_)
        | Change::AddReplica(_)
        | Change::RemoveReplica(_)
        | Change::AddSentinel(_)
        | Change::RemoveSentinel(_)
        | Change::ReplaceHost(_) => quorum,
    }
}

/// This master, once the group is changed.
fn changed_master(alloc: Global, change: &Change, master: &Watched) -> Result<Watched, AllocError>
    ensures { IfOk result (λ it. it ≡ changed_master change.now master.now) }
{
    let nodes = changed_nodes(alloc, change, &master.name, master.nodes())?;
    let quorum = changed_quorum(change, &master.name, master.quorum);
    Ok(Watched::new(master.name, nodes, quorum))
}

/// These masters, each as it is once the group is changed.
fn each_changed(
    alloc: Global,
    change: &Change,
    masters: &[Watched],
) -> Result<Vec<Watched>, AllocError>
    ensures { IfOk result (λ list. list.items ≡ map (changed_master change.now) masters.now) }
{
    let mut list = Vec::new(alloc);
    let mut rest = masters;
    while let [master, more @ ..] = rest {
        list.push(changed_master(alloc, change, master)?)?;
        rest = more;
    }
    Ok(list)
}

/// The masters but the one of this name.
fn masters_without(
    alloc: Global,
    masters: &[Watched],
    gone: &Name,
) -> Result<Vec<Watched>, AllocError>
    ensures { IfOk result (λ list. list.items ≡ filter (λ master. not (same_bytes gone.now master.name)) masters.now) }
{
    let mut list = Vec::new(alloc);
    let mut rest = masters;
    while let [master, more @ ..] = rest {
        if !is_name(gone, &master.name) {
            let nodes = Vec::from_slice(alloc, master.nodes())?;
            list.push(Watched::new(master.name, nodes, master.quorum))?;
        }
        rest = more;
    }
    Ok(list)
}

/// The masters of the changed group.
fn changed_masters(
    alloc: Global,
    change: &Change,
    masters: &[Watched],
) -> Result<Vec<Watched>, AllocError>
    ensures { IfOk result (λ list. list.items ≡ changed_masters change.now masters.now) }
{
    match change {
        Change::AddMaster(new) => {
            let mut list = each_changed(alloc, change, masters)?;
            let nodes = Vec::from_slice(alloc, new.nodes.as_slice())?;
            list.push(Watched::new(new.name, nodes, new.quorum))?;
            Ok(list)
        }
        Change::RemoveMaster(name) => masters_without(alloc, masters, name),
        Change::AddReplica(_)
        | Change::RemoveReplica(_)
        | Change::AddSentinel(_)
        | Change::RemoveSentinel(_)
        | Change::ReplaceHost(_)
        | Change::Set(_) => each_changed(alloc, change, masters),
    }
}

/// The roster of the first file's group, once it is changed.
pub(crate) fn roster_of<C: HoldsConf>(
    alloc: Global,
    files: &[C],
    change: &Change,
) -> Result<Roster, ChangeFault>
    ensures { IfOk result (λ roster. IsChangedRoster C.conf_of files.now change.now roster) }
{
    let Some((first, _)) = files.split_first() else {
        return Err(ChangeFault::NotOneRoster);
    };
    let old = first.conf().roster();
    let Ok(sentinels) = changed_sentinels(alloc, change, old.sentinels()) else {
        return Err(ChangeFault::NoMemory);
    };
    let Ok(masters) = changed_masters(alloc, change, old.masters()) else {
        return Err(ChangeFault::NoMemory);
    };
    match Roster::new(alloc, sentinels, masters) {
        Ok(roster) => Ok(roster),
        Err(RosterFault::NoMemory) => Err(ChangeFault::NoMemory),
        Err(_) => Err(ChangeFault::TooMany),
    }
}

/// Whether the new file names the changed roster.
fn names<C: HoldsConf>(files: &[C], change: &Change, roster: &Roster, new: &Conf) -> bool
    requires { IsChangedRoster C.conf_of files.now change.now roster.now }
    ensures { IsTrue result → HasChangedRoster C.conf_of files.now change.now new.now }
{
    new.roster().is_same(roster)
}

/// Whether each new file names the changed roster.
pub(crate) fn all_name<C: HoldsConf>(
    files: &[C],
    change: &Change,
    roster: &Roster,
    news: &[Conf],
) -> bool
    requires { IsChangedRoster C.conf_of files.now change.now roster.now }
    ensures { IsTrue result → All (HasChangedRoster C.conf_of files.now change.now) news.now }
{
    for k in 0..news.len() {
        if !names(files, change, roster, &news[k]) {
            return false;
        }
    }
    true
}
