//! `check --for-redis`: the text of a conf that redis-sentinel reads.

use crate::failures::{fail, refuse_file_to_write};
use crate::new_files::make_file_as;
use sentinel_conf::redis_text;
use sentinel_core::ServeFault;
use std::fs;
use std::io::{self, ErrorKind, Write};
use std::process::ExitCode;

/// Why a text isn't written.
#[derive(Clone, Copy)]
enum Unwritten {
    /// A file is at the path, and is left as it is.
    Exists,
    /// No file can be made there.
    Unwritable,
    /// Memory was refused.
    NoMemory,
}

/// Writes the text to a new file with the owner and the permissions of the conf, since passwords can be in both, has
/// the disk hold it, and gives it its name.
fn write_named(
    rt: HostRuntime,
    conf_path: &str,
    beside: &str,
    path: &str,
    text: &[u8],
) -> io::Result<()> {
    let mut file = make_file_as(rt, beside, conf_path)?;
    let written = file.write_all(text).and_then(|()| file.sync_all());
    drop(file);
    let named = written.and_then(|()| fs::rename(&rt, beside, path));
    if named.is_err() {
        let _ = fs::remove_file(&rt, beside);
    }
    named
}

/// Whether no file, folder or link is at the path.
fn is_free(rt: HostRuntime, path: &str) -> Result<bool, Unwritten> {
    match fs::symlink_metadata(&rt, path) {
        Ok(_) => Ok(false),
        Err(error) if error.kind() == ErrorKind::NotFound => Ok(true),
        Err(_) => Err(Unwritten::Unwritable),
    }
}

/// Writes the text to a file that isn't there yet. A kill at any moment leaves no file of that name, or a whole one.
fn write_text(rt: HostRuntime, conf_path: &str, path: &str, text: &[u8]) -> Result<(), Unwritten> {
    if !is_free(rt, path)? {
        return Err(Unwritten::Exists);
    }
    let Ok(beside) = format!(in rt.alloc(); "{path}.new") else {
        return Err(Unwritten::NoMemory);
    };
    match write_named(rt, conf_path, beside.as_str(), path, text) {
        Ok(()) => Ok(()),
        Err(_) => Err(Unwritten::Unwritable),
    }
}

/// Tells why a text isn't written.
fn refuse_text(rt: HostRuntime, path: &str, why: Unwritten) -> ExitCode {
    match why {
        Unwritten::Exists => refuse_file_to_write(&rt, path, "Exists"),
        Unwritten::Unwritable => refuse_file_to_write(&rt, path, "Unwritable"),
        Unwritten::NoMemory => fail(&rt, ServeFault::NoMemory),
    }
}

/// Writes to a new file at `path` the text of the conf at `conf_path` that redis-sentinel reads, where `conf_text` is
/// its own.
pub(crate) fn write_for_redis(
    rt: HostRuntime,
    conf_path: &str,
    conf_text: &[u8],
    path: &str,
) -> ExitCode {
    let Ok(text) = redis_text(rt.alloc(), conf_text) else {
        return fail(&rt, ServeFault::NoMemory);
    };
    match write_text(rt, conf_path, path, text.as_slice()) {
        Ok(()) => {
            let _ = eprintln!(rt; "note: {path} is written");
            ExitCode::SUCCESS
        }
        Err(why) => refuse_text(rt, path, why),
    }
}
