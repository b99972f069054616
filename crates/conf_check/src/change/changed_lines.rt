//! The lines of a changed group's files. Nothing is promised of them here: what is made of them is read again, and
//! compared with the files of before.

use crate::change::changes::{Change, MasterSetting, NewSetting};
use crate::creation::{add, add_addr, add_master, add_own, add_replica, add_setting, begin};
use ballot_law::{Addr, Member, Name, NoMemory, Roster, RunId};
use conf_lines::{Line, Setting, StateLine};
use sentinel_conf::{ReadLine, WatchLine, WatchSetting, line_of as watch_line_of, read_lines};
use std::alloc::Global;
use tokens::{add_number, run_id_text};

/// What is done to the lines of each file.
#[derive(Clone, Copy)]
pub(crate) struct Edit<'a> {
    change: &'a Change,
    /// The Sentinel that goes.
    pub(crate) gone: Option<RunId>,
    /// The Sentinel that comes.
    pub(crate) new: Option<Member>,
}

impl<'a> Edit<'a> {
    /// That of a change of the group of this roster.
    pub(crate) fn of(roster: &Roster, change: &'a Change) -> Edit<'a> {
        let (gone, new) = match change {
            Change::AddSentinel(member) => (None, Some(*member)),
            Change::RemoveSentinel(id) => (Some(*id), None),
            Change::ReplaceHost(host) => {
                match roster.sentinels().iter().find(|it| it.addr.ip == host.old) {
                    Some(member) => {
                        let (ip, port) = (host.new, member.addr.port);
                        let addr = Addr { ip, port };
                        (Some(member.id), Some(Member { id: host.id, addr }))
                    }
                    None => (None, None),
                }
            }
            _ => (None, None),
        };
        Edit { change, gone, new }
    }

    /// Whether this Sentinel goes.
    pub(crate) fn is_gone(&self, id: &RunId) -> bool {
        match self.gone {
            Some(gone) => gone.is_same(id),
            None => false,
        }
    }
}

/// Adds a line as it stands.
fn add_line(out: &mut Vec<u8>, line: &[u8]) -> Result<(), NoMemory> {
    out.extend_from_slice(line)?;
    add(out, "\n")
}

/// Adds the line of another Sentinel.
fn add_sentinel(out: &mut Vec<u8>, name: &Name, member: &Member) -> Result<(), NoMemory> {
    begin(out, "known-sentinel", name)?;
    add_addr(out, member.addr)?;
    add(out, " ")?;
    out.extend_from_slice(run_id_text(member.id).as_slice())?;
    add(out, "\n")
}

/// The directive of a setting that has a line of its own.
fn directive_of(setting: MasterSetting) -> Option<&'static str> {
    match setting {
        MasterSetting::Quorum => None,
        MasterSetting::DownAfter => Some("down-after-milliseconds"),
        MasterSetting::FailoverTimeout => Some("failover-timeout"),
        MasterSetting::ParallelSyncs => Some("parallel-syncs"),
    }
}

/// Whether the line is the one that is to say something else.
fn is_set_by(setting: &Setting, new: &NewSetting) -> bool {
    match (setting, new.setting) {
        (Setting::DownAfter { name, .. }, MasterSetting::DownAfter)
        | (Setting::FailoverTimeout { name, .. }, MasterSetting::FailoverTimeout)
        | (Setting::ParallelSyncs { name, .. }, MasterSetting::ParallelSyncs) => {
            name.is_same(new.master)
        }
        _ => false,
    }
}

/// Adds the line of the new setting, where it has one.
fn add_new_setting(out: &mut Vec<u8>, new: &NewSetting) -> Result<(), NoMemory> {
    match directive_of(new.setting) {
        Some(directive) => add_setting(out, directive, &new.master, u64::from(new.value)),
        None => Ok(()),
    }
}

/// Adds the line of a master, with the new quorum where it is set.
fn add_monitor(
    out: &mut Vec<u8>,
    line: &[u8],
    name: &Name,
    addr: Addr,
    change: &Change,
) -> Result<(), NoMemory> {
    match change {
        Change::Set(new) if new.setting == MasterSetting::Quorum && new.master.is_same(*name) => {
            begin(out, "monitor", name)?;
            add_addr(out, addr)?;
            add(out, " ")?;
            add_number(out, u64::from(new.value))?;
            add(out, "\n")
        }
        _ => add_line(out, line),
    }
}

/// Adds the line of a replica that stays, at its new address where it has one.
fn add_kept_replica(
    out: &mut Vec<u8>,
    line: &[u8],
    name: &Name,
    addr: Addr,
    change: &Change,
) -> Result<(), NoMemory> {
    match change {
        Change::RemoveReplica(it) if it.master.is_same(*name) && it.addr.is_same(&addr) => Ok(()),
        Change::ReplaceHost(host) if host.old == addr.ip => {
            let (ip, port) = (host.new, addr.port);
            add_replica(out, name, Addr { ip, port })
        }
        _ => add_line(out, line),
    }
}

/// Adds what becomes of a line that holds part of what is kept.
fn add_state(
    out: &mut Vec<u8>,
    line: &[u8],
    state: &StateLine,
    edit: &Edit<'_>,
) -> Result<(), NoMemory> {
    match state {
        StateLine::Monitor { name, addr, .. } => add_monitor(out, line, name, *addr, edit.change),
        StateLine::KnownReplica { name, addr } => {
            add_kept_replica(out, line, name, *addr, edit.change)
        }
        StateLine::KnownSentinel { id, .. } => {
            if edit.is_gone(id) {
                return Ok(());
            }
            add_line(out, line)
        }
        _ => add_line(out, line),
    }
}

/// Adds a line of a setting, with another value where the change sets it.
fn add_old_setting(
    out: &mut Vec<u8>,
    line: &[u8],
    setting: &Setting,
    change: &Change,
) -> Result<(), NoMemory> {
    if let Change::Set(new) = change {
        if is_set_by(setting, new) {
            return add_new_setting(out, new);
        }
    }
    add_line(out, line)
}

/// The master of which a setting speaks.
fn name_in(setting: &WatchSetting) -> Option<Name> {
    match setting {
        WatchSetting::NodePass { name, .. } => Some(*name),
        WatchSetting::NodeUser { name, .. } => Some(*name),
        WatchSetting::Reboot { name, .. } => Some(*name),
        _ => None,
    }
}

/// The master of which a line speaks that counts for `watch` alone.
fn watched_name(alloc: Global, text: &[u8]) -> Result<Option<Name>, NoMemory> {
    match watch_line_of(alloc, text)? {
        WatchLine::Says(setting) => Ok(name_in(&setting)),
        _ => Ok(None),
    }
}

/// Whether a line speaks of the master that goes.
fn is_of_gone(alloc: Global, line: &ReadLine<'_>, change: &Change) -> Result<bool, NoMemory> {
    let Change::RemoveMaster(gone) = change else {
        return Ok(false);
    };
    let named = match line.line() {
        Line::Kept => watched_name(alloc, line.text())?,
        read => read.master_name(),
    };
    Ok(matches!(named, Some(name) if name.is_same(*gone)))
}

/// Adds what becomes of a line.
fn add_changed(
    alloc: Global,
    out: &mut Vec<u8>,
    line: &ReadLine<'_>,
    edit: &Edit<'_>,
) -> Result<(), NoMemory> {
    if is_of_gone(alloc, line, edit.change)? {
        return Ok(());
    }
    let text = line.text();
    match line.line() {
        Line::State(state) => add_state(out, text, state, edit),
        Line::Setting(setting) => add_old_setting(out, text, setting, edit.change),
        Line::Kept | Line::Faulty(_) => add_line(out, text),
    }
}

/// Whether one of the lines sets this already.
fn sets(lines: &[ReadLine<'_>], new: &NewSetting) -> bool {
    let mut rest = lines;
    while let [line, more @ ..] = rest {
        match line.line() {
            Line::Setting(setting) if is_set_by(setting, new) => return true,
            _ => {}
        }
        rest = more;
    }
    false
}

/// Adds the lines that no line of before becomes, in the file of the Sentinel with this run id.
fn add_more(
    out: &mut Vec<u8>,
    lines: &[ReadLine<'_>],
    roster: &Roster,
    own: &RunId,
    edit: &Edit<'_>,
) -> Result<(), NoMemory> {
    if let (Some(new), Some(master)) = (edit.new, roster.masters().first()) {
        if !new.id.is_same(own) {
            add_sentinel(out, &master.name, &new)?;
        }
    }
    match edit.change {
        Change::AddMaster(new) => add_master(out, new),
        Change::AddReplica(replica) => add_replica(out, &replica.master, replica.addr),
        Change::Set(new) if !sets(lines, new) => add_new_setting(out, new),
        _ => Ok(()),
    }
}

/// The text of a file of the group of this roster, whose Sentinel has this run id, once the group is changed.
pub(crate) fn changed_text(
    alloc: Global,
    text: &[u8],
    roster: &Roster,
    own: &RunId,
    edit: &Edit<'_>,
) -> Result<Vec<u8>, NoMemory> {
    let lines = read_lines(alloc, text)?;
    let mut out = Vec::new(alloc);
    let mut rest = lines.as_slice();
    while let [line, more @ ..] = rest {
        add_changed(alloc, &mut out, line, edit)?;
        rest = more;
    }
    add_more(&mut out, &lines, roster, own, edit)?;
    Ok(out)
}

/// Whether a line is about the Sentinel of its file alone: its run id, its votes, where it is.
fn is_own(alloc: Global, line: &ReadLine<'_>) -> Result<bool, NoMemory> {
    match line.line() {
        Line::State(
            StateLine::MyId(_) | StateLine::LeaderEpoch { .. } | StateLine::LeaderId { .. },
        ) => Ok(true),
        Line::State(_) => Ok(false),
        Line::Setting(Setting::Port(_) | Setting::AnnounceIp(_) | Setting::AnnouncePort(_)) => Ok(
            true,
        ),
        Line::Setting(_) => Ok(false),
        Line::Kept => match watch_line_of(alloc, line.text())? {
            WatchLine::Says(WatchSetting::Bind(_)) => Ok(true),
            _ => Ok(false),
        },
        Line::Faulty(_) => Ok(false),
    }
}

/// The text of a file for a new Sentinel, from that of another one: with no votes, and with its own address and run id.
pub(crate) fn text_for(
    alloc: Global,
    text: &[u8],
    roster: &Roster,
    other: &Member,
    new: &Member,
) -> Result<Vec<u8>, NoMemory> {
    let mut out = Vec::new(alloc);
    add_own(&mut out, new)?;
    let lines = read_lines(alloc, text)?;
    let mut rest = lines.as_slice();
    while let [line, more @ ..] = rest {
        if !is_own(alloc, line)? {
            add_line(&mut out, line.text())?;
        }
        rest = more;
    }
    if let Some(master) = roster.masters().first() {
        add_sentinel(&mut out, &master.name, other)?;
    }
    Ok(out)
}
