//! Whether the new files of a changed group keep what those of before hold.

ghost use Rattle.std.specs.Prelude.{◌≡◌, ◌==◌, All, IsTrue, IfOk, OnOk, true, false, None, map};
ghost use Rattle.std.specs.List.{list_any};
ghost use Rattle.ballot_law.specs.Orders.{same_id};
ghost use Rattle.conf_check.specs.Repair.Mended.{card_of, vote_of, newest, last_epoch};
ghost use Rattle.conf_check.specs.Change.Keeping.{others_of, own_of, staying, kept_staying, kept_coming, begun};
ghost use Rattle.conf_check.specs.Change.Keeping.{NamesNot, HaveSameVotes, HaveNoVotes, KeepsVotes};
ghost use Rattle.conf_check.specs.Change.Keeping.{IsClearOf, AreNotBelow, IsNotBelow, HasNewest, LeavesOut, Keeps};
ghost use Rattle.conf_check.specs.declared.change.changes.Change.TheVariants.{AddMaster};

use crate::change::changes::{Change, ChangeFault};
use crate::creation::NewMaster;
use crate::group::{HoldsConf, is_same_card, own_id};
use crate::repair::Newest;
use ballot_law::{Addr, Card, KeptMaster, Member, Name, Roster, RunId, Watched, is_same_bytes};
use sentinel_conf::Conf;
use std::alloc::{AllocError, Global};

/// Of a list with one of each master those of the masters with other names.
fn others_of<T: Copy>(
    alloc: Global,
    name: &Name,
    masters: &[Watched],
    items: &[T],
) -> Result<Vec<T>, AllocError>
    ensures { IfOk result (λ list. list.items ≡ others_of name.now masters.now items.now) }
{
    let mut list = Vec::new(alloc);
    let mut rest = masters;
    let mut others = items;
    while let [master, more @ ..] = rest {
        let Some((item, behind)) = others.split_first() else {
            return Ok(list);
        };
        if !is_same_bytes(name.as_slice(), master.name.as_slice()) {
            list.push(*item)?;
        }
        rest = more;
        others = behind;
    }
    Ok(list)
}

/// Of a list with one of each master that of the master of this name.
fn own_of<T: Copy>(
    alloc: Global,
    name: &Name,
    masters: &[Watched],
    items: &[T],
) -> Result<Vec<T>, AllocError>
    ensures { IfOk result (λ list. list.items ≡ own_of name.now masters.now items.now) }
{
    let mut list = Vec::new(alloc);
    let mut rest = masters;
    let mut others = items;
    while let [master, more @ ..] = rest {
        let Some((item, behind)) = others.split_first() else {
            return Ok(list);
        };
        if is_same_bytes(name.as_slice(), master.name.as_slice()) {
            list.push(*item)?;
        }
        rest = more;
        others = behind;
    }
    Ok(list)
}

/// Of a list with one of each master those of the masters that neither come nor go.
fn staying<T: Copy>(
    alloc: Global,
    change: &Change,
    masters: &[Watched],
    items: &[T],
) -> Result<Vec<T>, AllocError>
    ensures { IfOk result (λ list. list.items ≡ staying change.now masters.now items.now) }
{
    match change {
        Change::AddMaster(new) => others_of(alloc, &new.name, masters, items),
        Change::RemoveMaster(name) => others_of(alloc, name, masters, items),
        Change::AddReplica(_)
        | Change::RemoveReplica(_)
        | Change::AddSentinel(_)
        | Change::RemoveSentinel(_)
        | Change::ReplaceHost(_)
        | Change::Set(_) => Vec::from_slice(alloc, items),
    }
}

/// What a file keeps of its masters.
fn kept_masters(conf: &Conf) -> &[KeptMaster]
    ensures { result.now ≡ conf.now.kept.masters }
{
    conf.kept().masters.as_slice()
}

/// What a file keeps of the masters that stay.
fn kept_staying(alloc: Global, change: &Change, conf: &Conf) -> Result<Vec<KeptMaster>, AllocError>
    ensures { IfOk result (λ list. list.items ≡ kept_staying change.now conf.now) }
{
    staying(alloc, change, conf.roster().masters(), kept_masters(conf))
}

/// Whether a Sentinel is at this ip.
pub(crate) fn has_sentinel_at(roster: &Roster, ip: u32) -> bool
    ensures { result ≡ list_any (λ member. member.addr.ip == ip) roster.now.sentinels }
{
    roster.sentinels().iter().any(|member| member.addr.ip == ip)
}

/// Whether one of these addresses is at this ip.
fn has_ip(addrs: &[Addr], ip: u32) -> bool
    ensures { result ≡ list_any (λ addr. addr.ip == ip) addrs.now }
{
    addrs.iter().any(|addr| addr.ip == ip)
}

/// Whether a data node is at this ip.
pub(crate) fn has_node_at(roster: &Roster, ip: u32) -> bool
    ensures { result ≡ list_any (λ master. list_any (λ addr. addr.ip == ip) master.nodes) roster.now.masters }
{
    roster
        .masters()
        .iter()
        .any(|master| has_ip(master.nodes(), ip))
}

/// Whether one of these Sentinels has this run id.
fn names(members: &[Member], id: RunId) -> bool
    ensures { result ≡ list_any (λ member. same_id id member.id) members.now }
{
    members.iter().any(|member| id.is_same(&member.id))
}

/// Whether no Sentinel of the file's roster has this run id.
fn names_not(conf: &Conf, id: RunId) -> bool
    ensures { IsTrue result → NamesNot id conf.now }
{
    if names(conf.roster().sentinels(), id) {
        return false;
    }
    true
}

/// Whether two votes are for one candidate, or for none that is known.
fn is_same_candidate(was: Option<RunId>, is: Option<RunId>) -> bool
    ensures { IsTrue result → was ≡ is }
{
    was == is
}

/// Whether two votes are of one epoch and for one candidate.
fn is_same_vote(was: &KeptMaster, is: &KeptMaster) -> bool
    ensures { IsTrue result → vote_of was.now ≡ vote_of is.now }
{
    if was.voted != is.voted {
        return false;
    }
    is_same_candidate(was.candidate, is.candidate)
}

/// Whether no vote was given.
fn is_no_vote(kept: &KeptMaster) -> bool
    ensures { IsTrue result → vote_of kept.now ≡ (0, None) }
{
    match kept.candidate {
        None => kept.voted == 0,
        Some(_) => false,
    }
}

/// Whether the second have the votes of the first.
fn have_same_votes(olds: &[KeptMaster], news: &[KeptMaster]) -> bool
    ensures { IsTrue result → HaveSameVotes olds.now news.now }
{
    if olds.len() != news.len() {
        return false;
    }
    for m in 0..olds.len() {
        if !is_same_vote(&olds[m], &news[m]) {
            return false;
        }
    }
    true
}

/// Whether no vote was given for these masters.
fn have_no_votes(masters: &[KeptMaster]) -> bool
    ensures { IsTrue result → HaveNoVotes masters.now }
{
    for m in 0..masters.len() {
        if !is_no_vote(&masters[m]) {
            return false;
        }
    }
    true
}

/// Whether one of the files is that of the Sentinel of the new one.
fn has_file_of<C: HoldsConf>(files: &[C], new: &Conf) -> bool
    ensures { result ≡ list_any (λ file. same_id (C.conf_of file).id new.now.id) files.now }
{
    let id = own_id(new);
    files.iter().any(|file| own_id(file.conf()).is_same(&id))
}

/// Refuses a new file that hasn't the votes of this one, where both are of one Sentinel.
fn keeps_votes_of(
    alloc: Global,
    change: &Change,
    file: &Conf,
    new: &Conf,
) -> Result<(), ChangeFault>
    ensures { OnOk result (same_id file.now.id new.now.id ≡ true
        → HaveSameVotes (kept_staying change.now file.now) (kept_staying change.now new.now)) }
{
    if !own_id(file).is_same(&own_id(new)) {
        return Ok(());
    }
    let was = kept_staying(alloc, change, file)?;
    let is = kept_staying(alloc, change, new)?;
    if have_same_votes(&was, &is) {
        return Ok(());
    }
    Err(ChangeFault::Unkept)
}

/// Refuses a new file that hasn't the votes of each file of its Sentinel.
fn keeps_own<C: HoldsConf>(
    alloc: Global,
    files: &[C],
    change: &Change,
    new: &Conf,
) -> Result<(), ChangeFault>
    ensures { OnOk result (All (λ file. same_id (C.conf_of file).id new.now.id ≡ true
        → HaveSameVotes (kept_staying change.now (C.conf_of file)) (kept_staying change.now new.now)) files.now) }
{
    for k in 0..files.len() {
        keeps_votes_of(alloc, change, files[k].conf(), new)?;
    }
    Ok(())
}

/// Whether no file names a Sentinel with this run id.
fn is_named_nowhere<C: HoldsConf>(files: &[C], id: RunId) -> bool
    ensures { IsTrue result → All (λ file. NamesNot id (C.conf_of file)) files.now }
{
    for k in 0..files.len() {
        if !names_not(files[k].conf(), id) {
            return false;
        }
    }
    true
}

/// Whether the Sentinel of the new file has a file of before, or else no vote and a run id that none of them has.
fn is_known_or_new<C: HoldsConf>(files: &[C], new: &Conf) -> bool
    ensures unknown { IsTrue result → list_any (λ file. same_id (C.conf_of file).id new.now.id) files.now ≡ false
        → All (λ file. NamesNot new.now.id (C.conf_of file)) files.now }
    ensures none { IsTrue result → list_any (λ file. same_id (C.conf_of file).id new.now.id) files.now ≡ false
        → HaveNoVotes new.now.kept.masters }
{
    if has_file_of(files, new) {
        return true;
    }
    if !is_named_nowhere(files, own_id(new)) {
        return false;
    }
    have_no_votes(kept_masters(new))
}

/// Refuses a new file that hasn't the votes that its Sentinel gave, or has some though it is new.
fn keeps_votes<C: HoldsConf>(
    alloc: Global,
    files: &[C],
    change: &Change,
    new: &Conf,
) -> Result<(), ChangeFault>
    ensures { OnOk result (KeepsVotes C.conf_of files.now change.now new.now) }
{
    keeps_own(alloc, files, change, new)?;
    if is_known_or_new(files, new) {
        return Ok(());
    }
    Err(ChangeFault::Unkept)
}

/// Whether no configuration of the second is of an earlier epoch than that of the first.
fn are_not_below(olds: &[KeptMaster], news: &[KeptMaster]) -> bool
    ensures { IsTrue result → AreNotBelow olds.now news.now }
{
    if olds.len() != news.len() {
        return false;
    }
    for m in 0..olds.len() {
        if olds[m].card.epoch > news[m].card.epoch {
            return false;
        }
    }
    true
}

/// Refuses a second file of which an epoch is below that of the first.
fn is_not_below(alloc: Global, change: &Change, was: &Conf, is: &Conf) -> Result<(), ChangeFault>
    ensures { OnOk result (IsNotBelow change.now was.now is.now) }
{
    if was.kept().current > is.kept().current {
        return Err(ChangeFault::Unkept);
    }
    let olds = kept_staying(alloc, change, was)?;
    let news = kept_staying(alloc, change, is)?;
    if are_not_below(&olds, &news) {
        return Ok(());
    }
    Err(ChangeFault::Unkept)
}

/// Refuses a new file of which an epoch is below that of one of these.
fn is_below_none<C: HoldsConf>(
    alloc: Global,
    files: &[C],
    change: &Change,
    new: &Conf,
) -> Result<(), ChangeFault>
    ensures { OnOk result (All (λ file. IsNotBelow change.now (C.conf_of file) new.now) files.now) }
{
    for k in 0..files.len() {
        is_not_below(alloc, change, files[k].conf(), new)?;
    }
    Ok(())
}

/// Whether the masters have these configurations.
fn have_cards(masters: &[KeptMaster], cards: &[Card]) -> bool
    ensures { IsTrue result → map card_of masters.now ≡ cards.now }
{
    let mut rest = masters;
    let mut others = cards;
    while let [kept, more @ ..] = rest {
        let Some((card, behind)) = others.split_first() else {
            return false;
        };
        if !is_same_card(kept.card, *card) {
            return false;
        }
        rest = more;
        others = behind;
    }
    others.is_empty()
}

/// Whether no Sentinel and no data node of the file is at this ip.
fn is_clear_of(conf: &Conf, ip: u32) -> bool
    ensures { IsTrue result → IsClearOf ip conf.now }
{
    if has_sentinel_at(conf.roster(), ip) {
        return false;
    }
    if has_node_at(conf.roster(), ip) {
        return false;
    }
    true
}

/// Whether the new file names nobody who goes.
fn leaves_out(change: &Change, new: &Conf) -> bool
    ensures { IsTrue result → LeavesOut change.now new.now }
{
    match change {
        Change::RemoveSentinel(id) => names_not(new, *id),
        Change::ReplaceHost(host) => is_clear_of(new, host.old),
        _ => true,
    }
}

/// Refuses a new file that doesn't hold the newest configurations of the files, of which this is one.
fn has_newest<C: HoldsConf>(
    alloc: Global,
    files: &[C],
    all: &Newest,
    change: &Change,
    new: &Conf,
) -> Result<(), ChangeFault>
    requires current { all.now.current ≡ last_epoch (map C.conf_of files.now) }
    requires cards { all.now.cards.items ≡ newest (map C.conf_of files.now) }
    ensures { OnOk result (HasNewest (map C.conf_of files.now) change.now new.now) }
{
    let Some((first, _)) = files.split_first() else {
        return Err(ChangeFault::NotOneRoster);
    };
    if new.kept().current != all.current {
        return Err(ChangeFault::Unkept);
    }
    let cards = staying(alloc, change, first.conf().roster().masters(), &all.cards)?;
    let news = kept_staying(alloc, change, new)?;
    if have_cards(&news, &cards) {
        return Ok(());
    }
    Err(ChangeFault::Unkept)
}

/// Whether this is kept of a master that is there alone: this one, of which nothing is known yet.
fn is_begun(kept: &[KeptMaster], new: &NewMaster) -> bool
    ensures { IsTrue result → kept.now ≡ begun (AddMaster new.now) }
{
    let [one] = kept else {
        return false;
    };
    let addr = match new.nodes.as_slice() {
        [first, ..] => *first,
        [] => return false,
    };
    if !is_same_card(one.card, Card { addr, epoch: 0 }) {
        return false;
    }
    is_no_vote(one)
}

/// Refuses a new file that knows more of a master that comes than where it is.
fn begins(alloc: Global, change: &Change, new: &Conf) -> Result<(), ChangeFault>
    ensures { OnOk result (kept_coming change.now new.now ≡ begun change.now) }
{
    match change {
        Change::AddMaster(master) => {
            let kept = own_of(
                alloc,
                &master.name,
                new.roster().masters(),
                kept_masters(new),
            )?;
            if is_begun(&kept, master) {
                return Ok(());
            }
            Err(ChangeFault::Unkept)
        }
        Change::RemoveMaster(_)
        | Change::AddReplica(_)
        | Change::RemoveReplica(_)
        | Change::AddSentinel(_)
        | Change::RemoveSentinel(_)
        | Change::ReplaceHost(_)
        | Change::Set(_) => Ok(()),
    }
}

/// Refuses a new file that doesn't keep what those of before hold.
fn keeps<C: HoldsConf>(
    alloc: Global,
    files: &[C],
    all: &Newest,
    change: &Change,
    new: &Conf,
) -> Result<(), ChangeFault>
    requires current { all.now.current ≡ last_epoch (map C.conf_of files.now) }
    requires cards { all.now.cards.items ≡ newest (map C.conf_of files.now) }
    ensures { OnOk result (Keeps C.conf_of files.now change.now new.now) }
{
    keeps_votes(alloc, files, change, new)?;
    is_below_none(alloc, files, change, new)?;
    has_newest(alloc, files, all, change, new)?;
    begins(alloc, change, new)?;
    if leaves_out(change, new) {
        return Ok(());
    }
    Err(ChangeFault::Unkept)
}

/// Refuses new files of which one doesn't keep what those of before hold.
pub(crate) fn all_keep<C: HoldsConf>(
    alloc: Global,
    files: &[C],
    all: &Newest,
    change: &Change,
    news: &[Conf],
) -> Result<(), ChangeFault>
    requires current { all.now.current ≡ last_epoch (map C.conf_of files.now) }
    requires cards { all.now.cards.items ≡ newest (map C.conf_of files.now) }
    ensures { OnOk result (All (Keeps C.conf_of files.now change.now) news.now) }
{
    for k in 0..news.len() {
        keeps(alloc, files, all, change, &news[k])?;
    }
    Ok(())
}
