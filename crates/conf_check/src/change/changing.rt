//! The files of a changed group.

ghost use Rattle.std.specs.Prelude.{◌≡◌, Some, IfOk, IsTrue, map};
ghost use Rattle.conf_check.specs.Repair.GroupTexts.{AreFilesOfOneGroup, confs_of};
ghost use Rattle.conf_check.specs.Repair.Mended.{newest, last_epoch};
ghost use Rattle.conf_check.specs.Change.ChangedRosters.{HasChangedRoster};
ghost use Rattle.conf_check.specs.Change.Keeping.{Keeps, AllSay};

use crate::change::changed_lines::{Edit, changed_text, text_for};
use crate::change::changed_rosters::{all_name, roster_of};
use crate::change::changes::{Change, ChangeFault};
use crate::change::keeping::all_keep;
use crate::change::refused_changes::fault_of;
use crate::group::{HoldsConf, is_one_group};
use crate::repair::{MendFault, Newest, mended_texts, newest_among, read_all};
use ballot_law::{Member, NoMemory, RunId, Text};
use sentinel_conf::Conf;
use std::alloc::Global;

/// Why files that aren't mended aren't changed.
fn fault_of_mending(fault: MendFault) -> ChangeFault {
    match fault {
        MendFault::NotOneRoster => ChangeFault::NotOneRoster,
        MendFault::TwoAddresses => ChangeFault::TwoAddresses,
        MendFault::NoMemory => ChangeFault::NoMemory,
    }
}

/// The texts of files with the newest configurations of all of them.
fn mended<C: HoldsConf>(alloc: Global, files: &[C]) -> Result<Vec<Text>, ChangeFault> {
    match mended_texts(alloc, files) {
        Ok(texts) => Ok(texts),
        Err(fault) => Err(fault_of_mending(fault)),
    }
}

/// What these texts say as files. `TooMany`: one of them says more than a file takes.
fn said(alloc: Global, texts: &[Text]) -> Result<Vec<Conf>, ChangeFault>
    ensures { IfOk result (λ confs. confs_of texts.now ≡ Some confs.items) }
{
    match read_all(alloc, texts) {
        Ok(Some(confs)) => Ok(confs),
        Ok(None) => Err(ChangeFault::TooMany),
        Err(_) => Err(ChangeFault::NoMemory),
    }
}

/// The Sentinel of a file.
fn member_of(conf: &Conf) -> Member {
    conf.roster().sentinels()[conf.place() as usize]
}

/// The texts of the files that stay, changed line by line.
fn edited_texts(
    alloc: Global,
    texts: &[Text],
    confs: &[Conf],
    edit: &Edit<'_>,
) -> Result<Vec<Text>, NoMemory> {
    let mut edited = Vec::new(alloc);
    for (text, conf) in texts.iter().zip(confs.iter()) {
        let own = member_of(conf);
        if !edit.is_gone(&own.id) {
            let changed = changed_text(alloc, text.as_slice(), conf.roster(), &own.id, edit)?;
            edited.push(Text::from_vec(changed))?;
        }
    }
    Ok(edited)
}

/// The text of the file of a Sentinel that comes, from the first of the files that stay; none where none stays.
fn text_of_new(
    alloc: Global,
    texts: &[Text],
    confs: &[Conf],
    edit: &Edit<'_>,
    new: &Member,
) -> Result<Option<Text>, NoMemory> {
    for (text, conf) in texts.iter().zip(confs.iter()) {
        let own = member_of(conf);
        if !edit.is_gone(&own.id) {
            let roster = conf.roster();
            let begun = text_for(alloc, text.as_slice(), roster, &own, new)?;
            let changed = changed_text(alloc, &begun, roster, &new.id, edit)?;
            return Ok(Some(Text::from_vec(changed)));
        }
    }
    Ok(None)
}

/// The texts of all files of the changed group, from those with the newest configurations.
fn all_edited(
    alloc: Global,
    texts: &[Text],
    confs: &[Conf],
    change: &Change,
) -> Result<Vec<Text>, ChangeFault> {
    let Some(first) = confs.first() else {
        return Err(ChangeFault::NotOneRoster);
    };
    if let Some(fault) = fault_of(first, change) {
        return Err(fault);
    }
    let edit = Edit::of(first.roster(), change);
    let Ok(mut edited) = edited_texts(alloc, texts, confs, &edit) else {
        return Err(ChangeFault::NoMemory);
    };
    if let Some(new) = edit.new {
        match text_of_new(alloc, texts, confs, &edit, &new) {
            Ok(Some(text)) => {
                if edited.push(text).is_err() {
                    return Err(ChangeFault::NoMemory);
                }
            }
            Ok(None) => {}
            Err(_) => return Err(ChangeFault::NoMemory),
        }
    }
    Ok(edited)
}

/// The texts of all files of the changed group, each as a rewrite spells it.
fn new_texts<C: HoldsConf>(
    alloc: Global,
    files: &[C],
    change: &Change,
) -> Result<Vec<Text>, ChangeFault> {
    let texts = mended(alloc, files)?;
    let confs = said(alloc, texts.as_slice())?;
    let edited = all_edited(alloc, texts.as_slice(), confs.as_slice(), change)?;
    let news = said(alloc, edited.as_slice())?;
    mended(alloc, news.as_slice())
}

/// The texts of all files of a group once it is changed: those of the Sentinels that stay, in the order of the files,
/// and then that of one that comes. They are read again, and compared with the files of before: they are the files of
/// one group, hold the newest configuration of each master and the greatest current epoch, and no epoch is below one of
/// before. A Sentinel that stays has its votes, epoch and candidate; one that comes has none, and its run id was in no
/// file. Who goes is in no roster. Its run id may still be the candidate of a vote, which is never taken back.
///
/// The file of a Sentinel that goes may be missing, since its host can be lost; that of any other may not. Each fault
/// leaves everything as it was.
pub fn changed_texts<C: HoldsConf>(
    alloc: Global,
    files: &[C],
    change: &Change,
) -> Result<Vec<Text>, ChangeFault>
    ensures group { IfOk result (λ texts. AreFilesOfOneGroup texts.items) }
    ensures roster { IfOk result (λ texts. AllSay (HasChangedRoster C.conf_of files.now change.now) texts.items) }
    ensures kept { IfOk result (λ texts. AllSay (Keeps C.conf_of files.now change.now) texts.items) }
{
    let texts = new_texts(alloc, files, change)?;
    let roster = roster_of(alloc, files, change)?;
    let newest = match newest_among(alloc, files) {
        Ok(newest) => newest,
        Err(fault) => return Err(fault_of_mending(fault)),
    };
    let confs = said(alloc, texts.as_slice())?;
    if !is_one_group(confs.as_slice()) {
        return Err(ChangeFault::NotOneRoster);
    }
    if !all_name(files, change, &roster, confs.as_slice()) {
        return Err(ChangeFault::Unkept);
    }
    all_keep(alloc, files, &newest, change, confs.as_slice())?;
    Ok(texts)
}
