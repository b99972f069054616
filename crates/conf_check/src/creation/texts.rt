//! The texts of a new group's files.

ghost use Rattle.std.specs.Prelude.{IfOk};
ghost use Rattle.conf_check.specs.Repair.GroupTexts.{AreFilesOfOneGroup};

use crate::repair::are_one_group;
use ballot_law::{Addr, Member, Name, NoMemory, Text};
use std::alloc::Global;
use std::str::from_utf8;
use thiserror::Error;
use tokens::{add_number, ip_text, run_id_text};

/// For how long a failover may take, in milliseconds, before it is given up; the next one begins no sooner than twice
/// that later.
const FAILOVER_TIMEOUT_MS: u64 = 10_000;

/// How long a password may be, in bytes.
const PASSWORD_MAX: usize = 4_096;

/// A master that is new in files, with its replicas.
#[derive(Drop)]
pub struct NewMaster {
    pub name: Name,
    /// The master, and then its replicas.
    pub nodes: Vec<Addr>,
    pub quorum: u32,
    /// After how many milliseconds without an answer a node is down.
    pub down_after_ms: u32,
    /// With which password the Sentinels log in to the data nodes; an empty one is none.
    pub password: Vec<u8>,
}

/// What a new group is to be: one master with its replicas, and its Sentinels.
#[derive(Drop)]
pub struct NewGroup {
    pub master: NewMaster,
    pub sentinels: Vec<Member>,
}

/// Why no files are made.
#[derive(Clone, Copy, Debug, PartialEq, Eq, Error)]
pub enum NewGroupFault {
    /// The texts aren't the files of one group: two addresses or run ids are the same, or there are more nodes,
    /// Sentinels or bytes than a file takes.
    #[error("NotOneRoster")]
    NotOneRoster,
    /// Memory was refused.
    #[error("NoMemory")]
    NoMemory,
}

/// Whether a byte may stand in a password: a control byte may not, since a line ends by one.
fn is_password_byte(byte: u8) -> bool {
    byte >= b' ' && byte != 127
}

/// Whether these bytes can be a password in a conf: at least one and at most `PASSWORD_MAX`, in UTF-8, and no control
/// byte.
pub fn is_password(bytes: &[u8]) -> bool {
    if bytes.is_empty() || bytes.len() > PASSWORD_MAX || from_utf8(bytes).is_err() {
        return false;
    }
    bytes.iter().all(|byte| is_password_byte(*byte))
}

/// Adds words.
pub(crate) fn add(out: &mut Vec<u8>, words: &str) -> Result<(), NoMemory> {
    out.extend_from_slice(words.as_bytes())?;
    Ok(())
}

/// Adds an ip and a port as two words.
pub(crate) fn add_addr(out: &mut Vec<u8>, addr: Addr) -> Result<(), NoMemory> {
    out.extend_from_slice(ip_text(addr.ip).as_slice())?;
    add(out, " ")?;
    add_number(out, u64::from(addr.port))
}

/// Adds the words with which a line about the master begins.
pub(crate) fn begin(out: &mut Vec<u8>, directive: &str, name: &Name) -> Result<(), NoMemory> {
    add(out, "sentinel ")?;
    add(out, directive)?;
    add(out, " ")?;
    out.extend_from_slice(name.as_slice())?;
    add(out, " ")
}

/// Adds a line with a number of the master.
pub(crate) fn add_setting(
    out: &mut Vec<u8>,
    directive: &str,
    name: &Name,
    number: u64,
) -> Result<(), NoMemory> {
    begin(out, directive, name)?;
    add_number(out, number)?;
    add(out, "\n")
}

/// Adds bytes as a word of Redis: within quotes, with a backslash before each quote and backslash.
fn add_quoted(out: &mut Vec<u8>, bytes: &[u8]) -> Result<(), NoMemory> {
    add(out, "\"")?;
    for byte in bytes {
        if *byte == b'"' || *byte == b'\\' {
            out.push(b'\\')?;
        }
        out.push(*byte)?;
    }
    add(out, "\"")
}

/// Adds the lines of the Sentinel itself.
pub(crate) fn add_own(out: &mut Vec<u8>, own: &Member) -> Result<(), NoMemory> {
    add(out, "port ")?;
    add_number(out, u64::from(own.addr.port))?;
    add(out, "\nsentinel announce-ip ")?;
    out.extend_from_slice(ip_text(own.addr.ip).as_slice())?;
    add(out, "\nsentinel myid ")?;
    out.extend_from_slice(run_id_text(own.id).as_slice())?;
    add(out, "\n")
}

/// Adds the lines of the master's settings.
fn add_settings(out: &mut Vec<u8>, new: &NewMaster) -> Result<(), NoMemory> {
    let down_after = u64::from(new.down_after_ms);
    add_setting(out, "down-after-milliseconds", &new.name, down_after)?;
    add_setting(out, "failover-timeout", &new.name, FAILOVER_TIMEOUT_MS)?;
    if new.password.is_empty() {
        return Ok(());
    }
    begin(out, "auth-pass", &new.name)?;
    add_quoted(out, &new.password)?;
    add(out, "\n")
}

/// Adds the line of a replica.
pub(crate) fn add_replica(out: &mut Vec<u8>, name: &Name, addr: Addr) -> Result<(), NoMemory> {
    begin(out, "known-replica", name)?;
    add_addr(out, addr)?;
    add(out, "\n")
}

/// Adds the lines of the master and its replicas; none where it has no node.
pub(crate) fn add_master(out: &mut Vec<u8>, new: &NewMaster) -> Result<(), NoMemory> {
    let Some((master, replicas)) = new.nodes.as_slice().split_first() else {
        return Ok(());
    };
    begin(out, "monitor", &new.name)?;
    add_addr(out, *master)?;
    add(out, " ")?;
    add_number(out, u64::from(new.quorum))?;
    add(out, "\n")?;
    add_settings(out, new)?;
    for replica in replicas {
        add_replica(out, &new.name, *replica)?;
    }
    Ok(())
}

/// Adds the lines of the other Sentinels.
fn add_others(out: &mut Vec<u8>, group: &NewGroup, own: &Member) -> Result<(), NoMemory> {
    for other in group.sentinels.iter() {
        if !other.id.is_same(&own.id) {
            begin(out, "known-sentinel", &group.master.name)?;
            add_addr(out, other.addr)?;
            add(out, " ")?;
            out.extend_from_slice(run_id_text(other.id).as_slice())?;
            add(out, "\n")?;
        }
    }
    Ok(())
}

/// The text of the file of one of the group's Sentinels.
fn text_of(alloc: Global, group: &NewGroup, own: &Member) -> Result<Text, NoMemory> {
    let mut out = Vec::new(alloc);
    add_own(&mut out, own)?;
    add_master(&mut out, &group.master)?;
    add_others(&mut out, group, own)?;
    Ok(Text::from_vec(out))
}

/// The texts of all files, Sentinel by Sentinel.
fn texts_of(alloc: Global, group: &NewGroup) -> Result<Vec<Text>, NoMemory> {
    let mut texts = Vec::new(alloc);
    for own in group.sentinels.iter() {
        texts.push(text_of(alloc, group, own)?)?;
    }
    Ok(texts)
}

/// The text of the file of each Sentinel of a new group, in the order of its Sentinels: all read again, and one group.
///
/// NotOneRoster: they aren't, as where a quorum is 0, an address stands there twice, or there are too many nodes.
/// NoMemory: memory was refused. Nothing is changed by either.
pub fn new_group_texts(alloc: Global, group: &NewGroup) -> Result<Vec<Text>, NewGroupFault>
    ensures { IfOk result (λ texts. AreFilesOfOneGroup texts.items) }
{
    let Ok(texts) = texts_of(alloc, group) else {
        return Err(NewGroupFault::NoMemory);
    };
    match are_one_group(alloc, texts.as_slice()) {
        Ok(true) => Ok(texts),
        Ok(false) => Err(NewGroupFault::NotOneRoster),
        Err(_) => Err(NewGroupFault::NoMemory),
    }
}
