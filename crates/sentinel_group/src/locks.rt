//! Locks of conf files, so that no two programs run on one.
//!
//! What is locked is `<path>.lock`, an empty file that is made and stays: the file itself is replaced at each store.
//! The file is locked too, as it is at the start, since it may have another name (a hard link), with another file to
//! lock beside it; and `FileStore` locks each that takes its place, so that nobody else gets in where somebody removes
//! `<path>.lock`. The system lets go of a lock when its program ends, however it does; a program that starts waits a
//! second for that.

use crate::conf_paths::ConfPath;
use crate::failures::{fail, refuse_file, refuse_with_reason};
use crate::new_files::make_file;
use log::{Log, warn};
use sentinel_conf::give_access_of;
use sentinel_core::ServeFault;
use std::fs::{self, File, Metadata, OpenOptions, TryLockError};
use std::io::{self, ErrorKind};
use std::os::unix::fs::MetadataExt;
use std::process::ExitCode;
use std::thread;
use std::time::Duration;

/// How often a lock that another program holds is tried again.
const TRIES: u32 = 20;

/// How long after a try the next one comes, in milliseconds.
const TRY_MS: u64 = 50;

/// What a program holds of a file while it runs on it: its lock, or the reason why no file to lock can be made beside
/// it; and the file itself. It lets go of these when it is dropped.
#[derive(Drop)]
pub(crate) struct FileLock {
    held: Option<File>,
    unmade: Option<io::Error>,
    file: Option<File>,
}

/// Why a program may not run on these files.
#[derive(Clone, Copy)]
pub(crate) enum LockFault<'a> {
    /// Another program runs on the file at this path.
    InUse(&'a str),
    /// The file to lock beside the file at this path is there, and can't be opened or locked: the system's error.
    Unlockable(&'a str, io::Error),
    /// A growth was refused.
    NoMemory,
}

/// The file to lock beside a file.
#[derive(Drop)]
enum LockFile {
    /// It is open.
    Open(File),
    /// It isn't there, and can't be made.
    Unmade(io::Error),
}

/// Opens a file to lock it; one that may be read alone can be locked too.
fn open_to_lock(rt: HostRuntime, path: &str) -> io::Result<File> {
    let mut how = OpenOptions::new();
    how.read(true).write(true);
    match how.open(&rt, path) {
        Ok(file) => Ok(file),
        Err(_) => File::open(&rt, path),
    }
}

/// Opens the file to lock beside a file, which is made where it isn't there, with the owner and the permissions of that
/// one: who can't read it can't lock it either, and who can does, also where another user ran on it before.
fn open_lock(rt: HostRuntime, beside: &Metadata, lock_path: &str) -> io::Result<LockFile> {
    let unmade = match make_file(rt, lock_path) {
        Ok(file) => {
            let _ = give_access_of(&file, beside);
            return Ok(LockFile::Open(file));
        }
        Err(error) => error,
    };
    match open_to_lock(rt, lock_path) {
        Ok(file) => Ok(LockFile::Open(file)),
        Err(error) => {
            if error.kind() == ErrorKind::NotFound && unmade.kind() != ErrorKind::AlreadyExists {
                return Ok(LockFile::Unmade(unmade));
            }
            Err(error)
        }
    }
}

/// Locks a file; where another program holds it, it is tried again for a second.
fn lock_soon(rt: HostRuntime, file: &File) -> Result<(), TryLockError> {
    for _ in 0..TRIES {
        match file.try_lock() {
            Err(TryLockError::WouldBlock) => thread::sleep(&rt, Duration::from_millis(TRY_MS)),
            tried => return tried,
        }
    }
    file.try_lock()
}

impl FileLock {
    /// Nothing is locked of what can't be opened, or is no file: nobody runs on it.
    fn of_nothing() -> FileLock {
        FileLock {
            held: None,
            unmade: None,
            file: None,
        }
    }

    /// Notes where no file to lock can be made beside the file at this path.
    pub(crate) fn note<R: Log>(&self, noting: &R, path: &str) {
        if let Some(error) = self.unmade {
            warn!(noting; "no lock file can be made beside {path}, so nothing can be stored there: {error}");
        }
    }
}

/// Whether the open file is the one at this path. Where the system doesn't say, it is.
fn is_at(rt: HostRuntime, file: &File, path: &str) -> bool {
    match (file.metadata(), fs::metadata(&rt, path)) {
        (Ok(own), Ok(found)) => (own.dev(), own.ino()) == (found.dev(), found.ino()),
        _ => true,
    }
}

/// Locks the file at this path of its own. A program that runs on it may put another one in its place before the lock
/// is had, which is the one to lock then. None is locked where it can't be opened, or the system has no lock for it:
/// the file beside it is what keeps other programs away.
fn lock_itself<'a>(
    rt: HostRuntime,
    named: &'a str,
    own: &str,
) -> Result<Option<File>, LockFault<'a>> {
    for _ in 0..TRIES {
        let Ok(file) = open_to_lock(rt, own) else {
            return Ok(None);
        };
        match lock_soon(rt, &file) {
            Ok(()) if is_at(rt, &file, own) => return Ok(Some(file)),
            Ok(()) => {}
            Err(TryLockError::WouldBlock) => return Err(LockFault::InUse(named)),
            Err(TryLockError::Error(_)) => return Ok(None),
        }
    }
    Err(LockFault::InUse(named))
}

/// Locks the file beside the file at this path of its own, and then that one.
fn lock_both<'a>(
    rt: HostRuntime,
    named: &'a str,
    own: &str,
    lock_file: LockFile,
) -> Result<FileLock, LockFault<'a>> {
    let (held, unmade) = match lock_file {
        LockFile::Open(file) => (Some(file), None),
        LockFile::Unmade(error) => (None, Some(error)),
    };
    if let Some(held) = &held {
        match lock_soon(rt, held) {
            Ok(()) => {}
            Err(TryLockError::WouldBlock) => return Err(LockFault::InUse(named)),
            Err(TryLockError::Error(error)) => return Err(LockFault::Unlockable(named, error)),
        }
    }
    let file = lock_itself(rt, named, own)?;
    Ok(FileLock { held, unmade, file })
}

/// Locks the file at the path for this program alone. Nothing is locked where the path leads to no file that can be
/// read: the program ends there.
pub(crate) fn lock_file<'a>(
    rt: HostRuntime,
    path: &ConfPath<'a>,
) -> Result<FileLock, LockFault<'a>> {
    let Ok(own) = path.own() else {
        return Ok(FileLock::of_nothing());
    };
    let Ok(metadata) = fs::metadata(&rt, own) else {
        return Ok(FileLock::of_nothing());
    };
    if !metadata.is_file() {
        return Ok(FileLock::of_nothing());
    }
    let Ok(lock_path) = format!(in rt.alloc(); "{own}.lock") else {
        return Err(LockFault::NoMemory);
    };
    if File::open(&rt, own).is_err() {
        return Ok(FileLock::of_nothing());
    }
    match open_lock(rt, &metadata, lock_path.as_str()) {
        Ok(lock_file) => lock_both(rt, path.named(), own, lock_file),
        Err(error) => Err(LockFault::Unlockable(path.named(), error)),
    }
}

/// Locks the file at each path. At a fault none is locked any more.
pub(crate) fn lock_files<'a>(
    rt: HostRuntime,
    paths: &[ConfPath<'a>],
) -> Result<Vec<FileLock>, LockFault<'a>> {
    let mut locks = Vec::new(rt.alloc());
    for path in paths {
        let lock = lock_file(rt, path)?;
        if locks.push(lock).is_err() {
            return Err(LockFault::NoMemory);
        }
    }
    Ok(locks)
}

/// Tells why a program may not run on its files, and the status tells it too.
pub(crate) fn refuse_lock(rt: HostRuntime, fault: LockFault<'_>) -> ExitCode {
    match fault {
        LockFault::InUse(path) => refuse_file(&rt, path, 0, "InUse"),
        LockFault::Unlockable(path, error) => refuse_with_reason(
            &rt,
            path,
            "Unlockable",
            "the lock file beside it can't be opened or locked",
            error,
        ),
        LockFault::NoMemory => fail(&rt, ServeFault::NoMemory),
    }
}
