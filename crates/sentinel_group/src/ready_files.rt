//! The file that tells a supervisor that a port is open.

use crate::failures::refuse_file_to_write;
use crate::new_files::make_file;
use log::{Log, warn};
use std::fs::{self, File, TryLockError};
use std::io::{self, ErrorKind, Write};
use std::process::ExitCode;

/// What the file has.
const READY: &[u8] = b"ready\n";

/// The file at this path, or none where none is asked for. It is there while the port is open; a program that a signal
/// ends leaves it, and the next one removes it before it opens its port.
#[derive(Clone, Copy)]
pub(crate) struct ReadyFile<'a> {
    path: Option<&'a str>,
}

/// What a Sentinel has beside its conf, as the ends of their names, and the conf itself.
const KEPT: &[&str] = &["", ".lock", ".new"];

/// The folder of a path, and its name there.
fn parted(path: &str) -> (&str, &str) {
    match path.rsplit_once('/') {
        None => (".", path),
        Some(("", name)) => ("/", name),
        Some((folder, name)) => (folder, name),
    }
}

/// Whether the path names the conf at this path of its own, its lock, or the new file of a store.
fn is_of_conf(rt: HostRuntime, path: &str, conf: &str) -> io::Result<bool> {
    let (folder, name) = parted(path);
    let (own_folder, own_name) = parted(conf);
    match name.strip_prefix(own_name) {
        Some(end) if KEPT.contains(&end) => {}
        _ => return Ok(false),
    }
    match fs::canonicalize(&rt, folder) {
        Ok(folder) => Ok(folder.as_str() == own_folder),
        Err(error) if error.kind() == ErrorKind::NotFound => Ok(false),
        Err(error) => Err(error),
    }
}

/// Whether somebody has locked the file at the path, as a program has the one beside its conf.
fn is_locked(rt: HostRuntime, path: &str) -> io::Result<bool> {
    let file = File::open(&rt, path)?;
    match file.try_lock() {
        Err(TryLockError::WouldBlock) => Ok(true),
        _ => Ok(false),
    }
}

/// Whether what is at the path is such a file, or the beginning of one; a fault where something else is there, which
/// isn't touched: an empty file that somebody has locked is the lock of a conf.
fn is_left(rt: HostRuntime, path: &str) -> io::Result<bool> {
    match fs::symlink_metadata(&rt, path) {
        Ok(found) if found.is_file() && found.len() <= READY.len() as u64 => {}
        Ok(_) => return Err(io::Error::from(ErrorKind::AlreadyExists)),
        Err(error) if error.kind() == ErrorKind::NotFound => return Ok(false),
        Err(error) => return Err(error),
    }
    let text = fs::read(&rt, path)?;
    if READY.starts_with(text.as_slice()) && !is_locked(rt, path)? {
        return Ok(true);
    }
    Err(io::Error::from(ErrorKind::AlreadyExists))
}

/// Removes what an earlier program left at the path.
fn remove_left(rt: HostRuntime, path: &str) -> io::Result<()> {
    if is_left(rt, path)? {
        fs::remove_file(&rt, path)?;
    }
    Ok(())
}

/// Removes what an earlier program left at the path, which names nothing that a program keeps beside the conf: whether
/// that is so.
fn clear(rt: HostRuntime, path: &str, conf: &str) -> io::Result<bool> {
    if is_of_conf(rt, path, conf)? {
        return Ok(false);
    }
    remove_left(rt, path)?;
    Ok(true)
}

/// Makes the file.
fn make(rt: HostRuntime, path: &str) -> io::Result<()> {
    let mut file = make_file(rt, path)?;
    file.write_all(READY)
}

/// Tells why the file can't be made, and the status tells it too; a note has the system's reason.
fn refuse<R: Log>(rt: HostRuntime, noting: &R, path: &str, error: io::Error) -> ExitCode {
    let kind = match error.kind() {
        ErrorKind::AlreadyExists => "Exists",
        _ => "Unwritable",
    };
    warn!(noting; "the file {path} of --ready-file can't be made: {error}");
    refuse_file_to_write(&rt, path, kind)
}

/// Tells that the path is one of the Sentinel's own, and the status tells it too.
fn refuse_own<R: Log>(rt: HostRuntime, noting: &R, path: &str) -> ExitCode {
    warn!(noting; "the file {path} of --ready-file would be the conf, its lock, or the new file of a store");
    refuse_file_to_write(&rt, path, "Exists")
}

impl<'a> ReadyFile<'a> {
    /// The file at this path, where a path is given, of a program that runs on the conf at that path of its own. What
    /// an earlier program left there is removed.
    pub(crate) fn cleared<R: Log>(
        rt: HostRuntime,
        noting: &R,
        path: Option<&'a str>,
        conf: &str,
    ) -> Result<ReadyFile<'a>, ExitCode> {
        if let Some(path) = path {
            match clear(rt, path, conf) {
                Ok(true) => {}
                Ok(false) => return Err(refuse_own(rt, noting, path)),
                Err(error) => return Err(refuse(rt, noting, path, error)),
            }
        }
        Ok(ReadyFile { path })
    }

    /// The port is open: the file is made.
    pub(crate) fn open<R: Log>(self, rt: HostRuntime, noting: &R) -> Result<(), ExitCode> {
        let Some(path) = self.path else {
            return Ok(());
        };
        match make(rt, path) {
            Ok(()) => Ok(()),
            Err(error) => Err(refuse(rt, noting, path, error)),
        }
    }

    /// The port is closed: the file is removed.
    pub(crate) fn close(self, rt: HostRuntime) {
        if let Some(path) = self.path {
            let _ = fs::remove_file(&rt, path);
        }
    }
}
