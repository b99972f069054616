//! What is told of files beside the line of a fault: all that is wrong with them, and warnings; on standard error, or
//! as notes.

use crate::new_files::make_file;
use conf_check::{Directives, NamedConf, add_notes, add_sides, add_watch_warnings};
use log::{Log, info, warn};
use sentinel_conf::{Conf, WatchKind, WatchLine, line_of, read_watch};
use std::fs;
use std::io::{self, ErrorKind, Write};
use std::net::{Ipv4Addr, SocketAddr, UdpSocket};
use std::str::from_utf8;
use tokens::split_line;

/// Writes these lines to standard error. Where they can't be written, nothing tells it.
fn tell(rt: HostRuntime, lines: &[u8]) {
    let _ = rt.stderr().write_all(lines);
}

/// Tells each line of a file that `watch` refuses, and why, but the line with the number `told`.
fn tell_refused(rt: HostRuntime, path: &str, text: &[u8], told: u64) {
    let mut number: u64 = 1;
    let mut rest = text;
    while !rest.is_empty() {
        let (line, more) = split_line(rest);
        match line_of(rt.alloc(), line) {
            Ok(WatchLine::Faulty(kind)) if number != told => {
                let _ = eprintln!(rt; "note: {path}:{number}: {kind}");
            }
            _ => {}
        }
        number = number.saturating_add(1);
        rest = more;
    }
}

/// Tells the line that has the hash of another password than `requirepass`, where nothing else refuses the file.
fn tell_other_password(rt: HostRuntime, path: &str, conf: &Conf, text: &[u8]) {
    if let Err(fault) = read_watch(rt.alloc(), conf, text) {
        if fault.kind == WatchKind::OtherPassword {
            let _ = eprintln!(rt; "note: {path}:{}: {fault}", fault.line);
        }
    }
}

/// Tells each line that `watch` refuses, but the one with the number `told`, and the warnings of a file that is to be
/// one for `watch`, in a group of so many Sentinels. Where memory is refused, less is told.
pub(crate) fn tell_watch(rt: HostRuntime, path: &str, sentinels: u64, text: &[u8], told: u64) {
    tell_refused(rt, path, text, told);
    let alloc = rt.alloc();
    let known = Directives::of_redis();
    let mut lines = Vec::new(alloc);
    if add_watch_warnings(alloc, &mut lines, &known, sentinels, path, text).is_ok() {
        tell(rt, &lines);
    }
}

/// Tells all that is wrong with a file that is to be one for `watch`, and the warnings of its lines. Where memory is
/// refused, less is told.
pub(crate) fn tell_faults(rt: HostRuntime, path: &str, text: &[u8]) {
    let mut lines = Vec::new(rt.alloc());
    if add_notes(rt.alloc(), &mut lines, path, text).is_ok() {
        tell(rt, &lines);
    }
    tell_watch(rt, path, u64::MAX, text, 0);
}

/// Notes the warnings of the file of a `watch` that starts, and which of its lines have no effect. Where memory is
/// refused, nothing is noted.
pub(crate) fn note_watch<R: Log>(
    rt: HostRuntime,
    noting: &R,
    path: &str,
    sentinels: u64,
    text: &[u8],
) {
    let mut lines = Vec::new(rt.alloc());
    let known = Directives::of_redis();
    if add_watch_warnings(rt.alloc(), &mut lines, &known, sentinels, path, text).is_err() {
        return;
    }
    for line in from_utf8(&lines).unwrap_or("").lines() {
        match line.strip_prefix("warning: ") {
            Some(told) => warn!(noting; "{told}"),
            None => info!(noting; "{}", line.strip_prefix("note: ").unwrap_or(line)),
        }
    }
}

/// What is said of an `announce-ip` that is no address of this machine.
const FOREIGN: &str =
    "is no address of this machine: see that it is the right file, unless addresses are \
                       translated (NAT)";

/// The ip by which others know the Sentinel of this conf, where it is none of this machine.
fn foreign_ip(rt: HostRuntime, conf: &Conf) -> Option<Ipv4Addr> {
    let own = conf.roster().sentinels().get(usize::from(conf.place()))?;
    let ip = Ipv4Addr::from(own.addr.ip);
    match UdpSocket::bind(&rt, SocketAddr::from((ip, 0))) {
        Err(error) if error.kind() == ErrorKind::AddrNotAvailable => Some(ip),
        _ => None,
    }
}

/// Notes that others know the Sentinel of the file by an ip that is none of this machine.
pub(crate) fn note_foreign_ip<R: Log>(rt: HostRuntime, noting: &R, path: &str, conf: &Conf) {
    if let Some(ip) = foreign_ip(rt, conf) {
        warn!(noting; "{path}:0: announce-ip {ip} {}", FOREIGN);
    }
}

/// Tells the same of the file of a group that is looked at.
pub(crate) fn tell_foreign_ip(rt: HostRuntime, file: &NamedConf) {
    if let Some(ip) = foreign_ip(rt, &file.conf) {
        let path = file.name.as_str();
        let _ = eprintln!(rt; "warning: {path}:0: announce-ip {ip} {}", FOREIGN);
    }
}

/// Writes the text to a new file beside that at the path, and removes it: so a file can be replaced there.
fn try_beside(rt: HostRuntime, path: &str, text: &[u8]) -> io::Result<()> {
    let trial = format!(in rt.alloc(); "{path}.check")?;
    let mut file = make_file(rt, trial.as_str())?;
    let written = file.write_all(text).and_then(|()| file.sync_all());
    drop(file);
    fs::remove_file(&rt, trial.as_str())?;
    written
}

/// Tells that a file can't be replaced where it stands, and why.
fn tell_unwritable(rt: HostRuntime, path: &str, text: &[u8]) {
    if let Err(error) = try_beside(rt, path, text) {
        let _ = eprintln!(rt;
            "warning: {path}:0: no file can be replaced in this folder, so the Sentinel would halt: {error}"
        );
    }
}

/// Tells the warnings of a file of a group of so many Sentinels, and where it can't be replaced.
pub(crate) fn tell_file(rt: HostRuntime, file: &NamedConf) {
    let path = file.name.as_str();
    let sentinels = file.conf.roster().sentinels().len() as u64;
    let Ok(text) = fs::read(&rt, path) else {
        return;
    };
    tell_watch(rt, path, sentinels, &text, 0);
    tell_other_password(rt, path, &file.conf, &text);
    tell_unwritable(rt, path, &text);
}

/// Tells the warnings of the files of a group, and in what each differs from the first.
pub(crate) fn tell_files(rt: HostRuntime, files: &[NamedConf]) {
    let Some((first, more)) = files.split_first() else {
        return;
    };
    for file in files {
        tell_file(rt, file);
    }
    let mut lines = Vec::new(rt.alloc());
    for file in more {
        if add_sides(rt.alloc(), &mut lines, first, file).is_err() {
            return;
        }
    }
    tell(rt, &lines);
}
