//! `new-group`: the files of a new group.

use crate::command_line::REFUSED_WORDS;
use crate::failures::{fail, fail_group, refuse_file, refuse_file_to_write};
use crate::group_files::text_at;
use crate::new_folders::{NewFile, write_folder};
use crate::new_texts::{read_texts, refuse_unreached};
use ballot_law::{Addr, Member, Name, RunId, Text};
use clap::ArgMatches;
use conf_check::{
    ID_BYTES, NewGroup, NewGroupFault, NewMaster, id_line, is_password, new_group_texts,
    node_address, sentinel_address, shared_address,
};
use sentinel_core::ServeFault;
use sentinel_runner::GroupFault;
use std::io;
use std::process::ExitCode;
use std::random::RandomSource;
use tokens::{ip_text, run_id_of};

/// After how many milliseconds a node is down where no word says it.
const DOWN_AFTER_MS: u32 = 5_000;

/// What the name of a master is to be.
pub(crate) const NAMES: &str = "write 1 to 64 letters, digits, '.', '-' and '_'";

/// The bytes of a run id as a text.
const RUN_ID_LENGTH: usize = 40;

/// Tells what is wrong with a word, and what to write; the status tells it too.
pub(crate) fn refuse_word(rt: HostRuntime, kind: &str, word: &str, remedy: &str) -> ExitCode {
    let _ = eprintln!(rt; "sentinel_group: {kind}: '{word}': {remedy}");
    ExitCode::from(REFUSED_WORDS)
}

/// Tells that memory was refused.
pub(crate) fn want_memory(rt: HostRuntime) -> ExitCode {
    fail(&rt, ServeFault::NoMemory)
}

/// Whose address a word is to be.
#[derive(Clone, Copy)]
pub(crate) enum Named {
    Node,
    Sentinel,
}

impl Named {
    /// The address that the word spells.
    fn address(self, word: &str) -> Option<Addr> {
        match self {
            Named::Node => node_address(word.as_bytes()),
            Named::Sentinel => sentinel_address(word.as_bytes()),
        }
    }

    /// What to write in place of a word that spells none.
    fn remedy(self) -> &'static str {
        match self {
            Named::Node => "write an ip and a port, as 10.0.0.1:6379",
            Named::Sentinel => "write an ip, or an ip and a port, as 10.0.0.1:26379",
        }
    }
}

/// The address that the word spells.
pub(crate) fn address_of(rt: HostRuntime, word: &str, whose: Named) -> Result<Addr, ExitCode> {
    match whose.address(word) {
        Some(addr) => Ok(addr),
        None => Err(refuse_word(rt, "BadAddress", word, whose.remedy())),
    }
}

/// The addresses that these words spell.
pub(crate) fn addresses_of(
    rt: HostRuntime,
    words: &[&str],
    whose: Named,
) -> Result<Vec<Addr>, ExitCode> {
    let mut addrs = Vec::new(rt.alloc());
    for word in words {
        if addrs.push(address_of(rt, word, whose)?).is_err() {
            return Err(want_memory(rt));
        }
    }
    Ok(addrs)
}

/// A run id of the system's random bytes.
pub(crate) fn random_id(rt: HostRuntime) -> Result<RunId, ExitCode> {
    let mut bytes = [0; ID_BYTES];
    if rt.fill_bytes(&mut bytes).is_err() {
        return Err(fail(&rt, ServeFault::Read));
    }
    let Ok(line) = id_line(rt.alloc(), &bytes) else {
        return Err(want_memory(rt));
    };
    let digits = line.as_bytes().get(..RUN_ID_LENGTH).unwrap_or(&[]);
    match run_id_of(digits) {
        Some(id) => Ok(id),
        None => Err(fail(&rt, ServeFault::Read)),
    }
}

/// Sentinels at these addresses, with new run ids.
fn members_at(rt: HostRuntime, addrs: &[Addr]) -> Result<Vec<Member>, ExitCode> {
    let mut members = Vec::new(rt.alloc());
    for addr in addrs {
        let id = random_id(rt)?;
        if members.push(Member { id, addr: *addr }).is_err() {
            return Err(want_memory(rt));
        }
    }
    Ok(members)
}

/// The password that is the first line of the file at the path.
pub(crate) fn password_at(rt: HostRuntime, path: &str) -> Result<Vec<u8>, ExitCode> {
    let text = text_at(rt, path)?;
    let bytes = text.as_slice();
    let line = bytes.strip_suffix(b"\n").unwrap_or(bytes);
    if !is_password(line) {
        let status = refuse_file(&rt, path, 1, "BadPassword");
        let _ = eprintln!(rt;
            "note: {path}:1: BadPassword: write one line of 1 to 4096 bytes, in UTF-8 and without control bytes"
        );
        return Err(status);
    }
    let mut password = Vec::new(rt.alloc());
    match password.extend_from_slice(line) {
        Ok(()) => Ok(password),
        Err(_) => Err(want_memory(rt)),
    }
}

/// The password of the file that the words name; an empty one where they name none.
fn password_of(rt: HostRuntime, words: &ArgMatches) -> Result<Vec<u8>, ExitCode> {
    match words.get_str("auth-pass-file") {
        Some(path) => password_at(rt, path),
        None => Ok(Vec::new(rt.alloc())),
    }
}

/// How many Sentinels have to find the master down, as the words say: more than half of them where they don't.
fn quorum_of(rt: HostRuntime, words: &ArgMatches, sentinels: usize) -> Result<u32, ExitCode> {
    let quorum = match words.get_one::<u32>("quorum") {
        Some(quorum) => quorum,
        None => u32::try_from(sentinels / 2)
            .unwrap_or(u32::MAX)
            .saturating_add(1),
    };
    if quorum == 0 || quorum as usize > sentinels {
        let _ = eprintln!(rt;
            "sentinel_group: BadQuorum: write a number from 1 to {sentinels}, the number of Sentinels"
        );
        return Err(ExitCode::from(REFUSED_WORDS));
    }
    Ok(quorum)
}

/// Refuses words of which two name one address.
pub(crate) fn refuse_shared(
    rt: HostRuntime,
    nodes: &[Addr],
    sentinels: &[Addr],
) -> Result<(), ExitCode> {
    let mut all = Vec::new(rt.alloc());
    if all.extend_from_slice(nodes).is_err() || all.extend_from_slice(sentinels).is_err() {
        return Err(want_memory(rt));
    }
    let Some(addr) = shared_address(&all) else {
        return Ok(());
    };
    let ip = ip_text(addr.ip);
    let ip = str::from_utf8(ip.as_slice()).unwrap_or("");
    let port = addr.port;
    let _ = eprintln!(rt;
        "sentinel_group: SharedAddress: {ip}:{port} is named twice: each node and Sentinel has an address of its own"
    );
    Err(ExitCode::from(REFUSED_WORDS))
}

/// The name of the new master that the words after `--<long>` name, and its data nodes: itself first.
pub(crate) fn master_of(
    rt: HostRuntime,
    words: &ArgMatches,
    long: &str,
) -> Result<(Name, Vec<Addr>), ExitCode> {
    let master = words.get_strs(long).unwrap_or(&[]);
    let [name, at] = master else {
        return Err(refuse_word(rt, "BadName", "", NAMES));
    };
    let Some(named) = Name::from_slice(name.as_bytes()) else {
        return Err(refuse_word(rt, "BadName", name, NAMES));
    };
    let mut nodes = addresses_of(rt, &[*at], Named::Node)?;
    let replicas = words.get_strs("replica").unwrap_or(&[]);
    let replicas = addresses_of(rt, replicas, Named::Node)?;
    match nodes.extend_from_slice(&replicas) {
        Ok(()) => Ok((named, nodes)),
        Err(_) => Err(want_memory(rt)),
    }
}

/// The new master of this name with these data nodes, as the words ask for it, in a group of so many Sentinels.
pub(crate) fn new_master(
    rt: HostRuntime,
    words: &ArgMatches,
    named: (Name, Vec<Addr>),
    sentinels: usize,
) -> Result<NewMaster, ExitCode> {
    let (name, nodes) = named;
    Ok(NewMaster {
        name,
        nodes,
        quorum: quorum_of(rt, words, sentinels)?,
        down_after_ms: words.get_one::<u32>("down-after").unwrap_or(DOWN_AFTER_MS),
        password: password_of(rt, words)?,
    })
}

/// The group that the words ask for.
fn group_of(rt: HostRuntime, words: &ArgMatches) -> Result<NewGroup, ExitCode> {
    let (name, nodes) = master_of(rt, words, "master")?;
    let sentinels = words.get_strs("sentinel").unwrap_or(&[]);
    let sentinels = addresses_of(rt, sentinels, Named::Sentinel)?;
    refuse_shared(rt, nodes.as_slice(), sentinels.as_slice())?;
    Ok(NewGroup {
        master: new_master(rt, words, (name, nodes), sentinels.len())?,
        sentinels: members_at(rt, sentinels.as_slice())?,
    })
}

/// The name of the file of a Sentinel at this address.
pub(crate) fn file_name(rt: HostRuntime, addr: Addr) -> Result<String, ExitCode> {
    let ip = ip_text(addr.ip);
    let ip = str::from_utf8(ip.as_slice()).unwrap_or("");
    let port = addr.port;
    match format!(in rt.alloc(); "{ip}-{port}.conf") {
        Ok(name) => Ok(name),
        Err(_) => Err(want_memory(rt)),
    }
}

/// The texts of a group's files.
fn texts_of(rt: HostRuntime, group: &NewGroup) -> Result<Vec<Text>, ExitCode> {
    match new_group_texts(rt.alloc(), group) {
        Ok(texts) => Ok(texts),
        Err(NewGroupFault::NotOneRoster) => Err(fail_group(&rt, GroupFault::NotOneRoster)),
        Err(NewGroupFault::NoMemory) => Err(want_memory(rt)),
    }
}

/// The files of a group, by name, with these texts.
fn files_of<'a>(
    rt: HostRuntime,
    group: &NewGroup,
    texts: &'a [Text],
) -> Result<Vec<NewFile<'a>>, ExitCode> {
    let mut files = Vec::new(rt.alloc());
    for (member, text) in group.sentinels.iter().zip(texts.iter()) {
        let name = file_name(rt, member.addr)?;
        if files
            .push(NewFile {
                name,
                text,
                model: None,
            })
            .is_err()
        {
            return Err(want_memory(rt));
        }
    }
    Ok(files)
}

/// Tells why a folder isn't written, with the system's reason.
pub(crate) fn refuse_folder(rt: HostRuntime, folder: &str, error: io::Error) -> ExitCode {
    let kind = match error.kind() {
        io::ErrorKind::DirectoryNotEmpty => "NotEmpty",
        _ => "Unwritable",
    };
    let status = refuse_file_to_write(&rt, folder, kind);
    let _ = eprintln!(rt;
        "note: nothing is written: {folder}.new is made, filled and renamed to {folder}: {error}"
    );
    status
}

/// Warns of a number of Sentinels by which a group gains nothing over one less, or doesn't outlive the loss of one.
fn warn_of_count(rt: HostRuntime, sentinels: usize) {
    if sentinels < 3 {
        let _ = eprintln!(rt;
            "warning: with fewer than three Sentinels nobody fails over once one of them is lost: name three, or five"
        );
    } else if sentinels.is_multiple_of(2) {
        let _ = eprintln!(rt;
            "warning: {sentinels} Sentinels may lose no more of them than one less: name an odd number"
        );
    }
}

/// Writes the files of the new group that the words ask for into a new folder, or one that is empty.
fn made(rt: HostRuntime, words: &ArgMatches) -> Result<(), ExitCode> {
    let folder = words.get_str("folder").unwrap_or("");
    let group = group_of(rt, words)?;
    let texts = texts_of(rt, &group)?;
    let files = files_of(rt, &group, texts.as_slice())?;
    let confs = read_texts(rt, texts.as_slice())?;
    refuse_unreached(rt, files.as_slice(), confs.as_slice())?;
    if let Err(error) = write_folder(rt, folder, files.as_slice()) {
        return Err(refuse_folder(rt, folder, error));
    }
    for file in files.iter() {
        let name = file.name.as_str();
        let _ = eprintln!(rt; "note: {folder}/{name} is written");
    }
    warn_of_count(rt, group.sentinels.len());
    Ok(())
}

/// Writes the files of a new group, or none of them, and then the status and a line tell why.
pub(crate) fn new_group(rt: HostRuntime, words: &ArgMatches) -> ExitCode {
    match made(rt, words) {
        Ok(()) => ExitCode::SUCCESS,
        Err(status) => status,
    }
}
