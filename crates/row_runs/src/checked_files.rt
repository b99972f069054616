//! What an operator is told of files: all faults of one, what has no effect, what group they make, in what they differ,
//! and how they are mended.

use crate::conf_files::conf_of;
use crate::given::{addr, id, joined, number, number_32, text};
use crate::told::{Told, Unplayed};
use ballot_law::{Member, Name, Text};
use conf_check::{
    Change, ChangeFault, Directives, ID_BYTES, MasterSetting, MendFault, NamedConf, NewMaster,
    NewSetting, Replacement, ReplicaOf, Report, add_notes, add_sides, add_warnings,
    add_watch_warnings, are_one_group, changed_texts, id_line, mended_texts,
};
use std::alloc::Global;
use tokens::ip_of;

/// The name of a file that is told of.
const PATH: &str = "a.conf";

/// What stands in a text before something is added.
const BEFORE: &[u8] = b"before\n";

/// Tells lines as they stand, with a word `|` for the end of each.
fn tell_lines(lines: &[u8], told: &mut Told) -> Result<(), Unplayed> {
    for (place, line) in text(lines)?.split('\n').enumerate() {
        if place > 0 {
            told.word("|")?;
        }
        if !line.is_empty() {
            told.word(line)?;
        }
    }
    told.nothing()
}

/// A file with its name.
fn named(alloc: Global, name: &[u8], file: &[u8]) -> Result<NamedConf, Unplayed> {
    let name = String::from_str(alloc, text(name)?)?;
    let conf = Box::into_inner(conf_of(alloc, file)?);
    Ok(NamedConf { name, conf })
}

/// Files with their names: each name stands before its file.
fn files_of(alloc: Global, words: &[Vec<u8>]) -> Result<Vec<NamedConf>, Unplayed> {
    let mut files = Vec::new(alloc);
    let mut rest = words;
    while let [name, file, more @ ..] = rest {
        files.push(named(alloc, name, file)?)?;
        rest = more;
    }
    Ok(files)
}

/// Tells the lines of a report, and whether the group is refused.
fn tell_report(report: &Report, told: &mut Told) -> Result<(), Unplayed> {
    told.word(if report.is_refused() {
        "refused"
    } else {
        "taken"
    })?;
    tell_lines(report.text(), told)
}

/// Tells what these files make of a group, one by itself where there is one.
fn tell_group(
    alloc: Global,
    call: &str,
    files: &[NamedConf],
    told: &mut Told,
) -> Result<(), Unplayed> {
    match (call, files) {
        ("Report::of", files) => tell_report(&Report::of(alloc, files)?, told),
        ("Report::of_one", [file]) => tell_report(&Report::of_one(alloc, file)?, told),
        ("add_sides", [one, other]) => {
            let mut out = Vec::from_slice(alloc, BEFORE)?;
            add_sides(alloc, &mut out, one, other)?;
            tell_lines(&out, told)
        }
        ("mended_texts", files) => tell_mended(alloc, files, told),
        _ => Err(Unplayed::WrongWords),
    }
}

/// Tells the texts of files once they are mended, or why they aren't.
fn tell_mended(alloc: Global, files: &[NamedConf], told: &mut Told) -> Result<(), Unplayed> {
    match mended_texts(alloc, files) {
        Ok(texts) => {
            for text in texts.as_slice() {
                told.bytes(text.as_slice())?;
            }
            told.nothing()
        }
        Err(MendFault::NoMemory) => Err(Unplayed::NoMemory),
        Err(fault) => told.shown(&fault),
    }
}

/// The master's name that the word spells.
fn name(word: &[u8]) -> Result<Name, Unplayed> {
    match Name::from_slice(word) {
        Some(name) => Ok(name),
        None => Err(Unplayed::WrongWords),
    }
}

/// The replica of these words.
fn replica(master: &[u8], at: &[u8]) -> Result<ReplicaOf, Unplayed> {
    Ok(ReplicaOf {
        master: name(master)?,
        addr: addr(at)?,
    })
}

/// The ip that the word spells.
fn ip(word: &[u8]) -> Result<u32, Unplayed> {
    match ip_of(word) {
        Some(ip) => Ok(ip),
        None => Err(Unplayed::WrongWords),
    }
}

/// The setting of this name.
fn setting(word: &[u8]) -> Result<MasterSetting, Unplayed> {
    match word {
        b"quorum" => Ok(MasterSetting::Quorum),
        b"down_after" => Ok(MasterSetting::DownAfter),
        b"failover_timeout" => Ok(MasterSetting::FailoverTimeout),
        b"parallel_syncs" => Ok(MasterSetting::ParallelSyncs),
        _ => Err(Unplayed::WrongWords),
    }
}

/// The change of this kind with these words.
fn change(
    alloc: Global,
    kind: &[u8],
    one: &[u8],
    two: &[u8],
    three: &[u8],
) -> Result<Change, Unplayed> {
    match kind {
        b"AddMaster" => Ok(Change::AddMaster(NewMaster {
            name: name(one)?,
            nodes: vec![in alloc; addr(two)?]?,
            quorum: number_32(three)?,
            down_after_ms: 5_000,
            password: Vec::new(alloc),
        })),
        b"RemoveMaster" => Ok(Change::RemoveMaster(name(one)?)),
        b"AddReplica" => Ok(Change::AddReplica(replica(one, two)?)),
        b"RemoveReplica" => Ok(Change::RemoveReplica(replica(one, two)?)),
        b"AddSentinel" => Ok(Change::AddSentinel(Member {
            id: id(one)?,
            addr: addr(two)?,
        })),
        b"RemoveSentinel" => Ok(Change::RemoveSentinel(id(one)?)),
        b"ReplaceHost" => Ok(Change::ReplaceHost(Replacement {
            old: ip(one)?,
            new: ip(two)?,
            id: id(three)?,
        })),
        b"Set" => Ok(Change::Set(NewSetting {
            master: name(one)?,
            setting: setting(two)?,
            value: number_32(three)?,
        })),
        _ => Err(Unplayed::WrongWords),
    }
}

/// Tells the texts of files once their group is changed, or why it isn't.
fn tell_changed(alloc: Global, words: &[Vec<u8>], told: &mut Told) -> Result<(), Unplayed> {
    let [kind, one, two, three, files @ ..] = words else {
        return Err(Unplayed::WrongWords);
    };
    let change = change(alloc, kind, one, two, three)?;
    let files = files_of(alloc, files)?;
    match changed_texts(alloc, files.as_slice(), &change) {
        Ok(texts) => {
            for text in texts.as_slice() {
                told.bytes(text.as_slice())?;
            }
            told.nothing()
        }
        Err(ChangeFault::NoMemory) => Err(Unplayed::NoMemory),
        Err(fault) => told.shown(&fault),
    }
}

/// Tells all faults of the file with these bytes.
fn tell_notes(alloc: Global, file: &[u8], told: &mut Told) -> Result<(), Unplayed> {
    let mut out = Vec::from_slice(alloc, BEFORE)?;
    add_notes(alloc, &mut out, PATH, file)?;
    tell_lines(&out, told)
}

/// Tells what is said of the file with these bytes in a group of so many Sentinels, to a group in one process or to a
/// `watch`.
fn tell_warnings(
    alloc: Global,
    call: &str,
    sentinels: u64,
    file: &[u8],
    told: &mut Told,
) -> Result<(), Unplayed> {
    let known = Directives::of_redis();
    let mut out = Vec::from_slice(alloc, BEFORE)?;
    if call == "add_warnings" {
        add_warnings(alloc, &mut out, &known, sentinels, PATH, file)?;
    } else {
        add_watch_warnings(alloc, &mut out, &known, sentinels, PATH, file)?;
    }
    tell_lines(&out, told)
}

/// Tells the run id of these bytes, as a line.
fn tell_id(alloc: Global, bytes: &[u8], told: &mut Told) -> Result<(), Unplayed> {
    if bytes.len() != ID_BYTES {
        return Err(Unplayed::WrongWords);
    }
    let mut id = [0; ID_BYTES];
    id.copy_from_slice(bytes);
    told.bytes(id_line(alloc, &id)?.as_bytes())
}

/// Tells whether these texts are the files of one group.
fn tell_one_group(alloc: Global, words: &[Vec<u8>], told: &mut Told) -> Result<(), Unplayed> {
    let mut texts = Vec::new(alloc);
    for word in words {
        texts.push(Text::from_slice(alloc, word)?)?;
    }
    told.yes(are_one_group(alloc, texts.as_slice())?)
}

/// Tells what comes of a call with these words.
pub(crate) fn play(
    alloc: Global,
    call: &str,
    words: &[Vec<u8>],
    told: &mut Told,
) -> Result<(), Unplayed> {
    match (call, words) {
        ("id_line", [bytes]) => tell_id(alloc, bytes, told),
        ("are_one_group", words) => tell_one_group(alloc, words, told),
        ("changed_texts", words) => tell_changed(alloc, words, told),
        ("add_notes", file) => tell_notes(alloc, &joined(alloc, file)?, told),
        ("add_warnings" | "add_watch_warnings", [sentinels, file @ ..]) => {
            let file = joined(alloc, file)?;
            tell_warnings(alloc, call, number(sentinels)?, &file, told)
        }
        _ => tell_group(alloc, call, &files_of(alloc, words)?, told),
    }
}
