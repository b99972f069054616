//! What is noted as a group starts: each Sentinel with its masters, and the warnings of its file.

use conf_check::{Directives, add_warnings, is_one_group};
use log::{Level, Log, info, log_enabled, warn};
use sentinel_conf::Conf;
use std::fs;
use std::net::Ipv4Addr;
use std::str::from_utf8;

/// Notes which Sentinel starts, and which masters it watches, in Redis's words.
pub(crate) fn note_sentinel<R: Log>(noting: &R, conf: &Conf) {
    let noting = noting.span("sentinel").with("port", conf.port());
    let roster = conf.roster();
    let id = roster.sentinels()[conf.place() as usize].id;
    info!(noting; "Sentinel ID is {:032x}{:08x}", id.hi, id.lo);
    for (watched, kept) in roster
        .masters()
        .iter()
        .zip(conf.kept().masters.as_slice().iter())
    {
        let name = from_utf8(watched.name.as_slice()).unwrap_or("?");
        let (ip, port) = (Ipv4Addr::from(kept.card.addr.ip), kept.card.addr.port);
        info!(noting; "+monitor master {name} {ip} {port} quorum {}", watched.quorum);
    }
}

/// Notes the warnings of a file of a group of `sentinels` Sentinels, line by line. Where it can't be read, or memory is
/// refused, none are noted.
fn note_warnings<R: Log>(rt: HostRuntime, noting: &R, path: &str, sentinels: u64) {
    let Ok(text) = fs::read(&rt, path) else {
        return;
    };
    let mut lines = Vec::new(rt.alloc());
    let known = Directives::of_redis();
    if add_warnings(rt.alloc(), &mut lines, &known, sentinels, path, &text).is_err() {
        return;
    }
    for line in from_utf8(&lines).unwrap_or("").lines() {
        warn!(noting; "{}", line.strip_prefix("warning: ").unwrap_or(line));
    }
}

/// Notes a group that starts on these files, which say this; nothing where they make no group.
pub(crate) fn note_start<R: Log>(rt: HostRuntime, noting: &R, paths: &[&str], confs: &[Conf]) {
    if !log_enabled!(noting; Level::Info) || !is_one_group(confs) {
        return;
    }
    for (path, conf) in paths.iter().zip(confs.iter()) {
        note_warnings(rt, noting, path, conf.roster().sentinels().len() as u64);
        note_sentinel(noting, conf);
    }
}
