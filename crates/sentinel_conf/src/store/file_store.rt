//! A Sentinel's file on a disk.

ghost use Rattle.std.specs.Prelude.{◌≡◌, ◌≢◌, ◌<◌, ◌+◌, ◌-◌, ◌^◌, ◌↔◌, IfOk, IsSome};

use crate::store::own_file::{Access, Mark, Own, give_access};
use crate::{
    ConfStore, FILE_MAX, FileFault, FileStep, FileText, LoadFault, LocksAlone, StoreRefused,
};
use std::alloc::{AllocError, Global};
use std::fs::{self, OpenFile, OpenOptions};
use std::io::{self, ErrorKind, Read, Write};
use std::marker::Model;
use std::os::fd::AsFd;
use std::os::unix::fs::OpenOptionsExt;
use std::rt::Files;

/// The mode with which a new file is made: its owner alone may read and write it.
const OWNER_ALONE: u32 = 0o600;

/// The file at a path. A text that was loaded is durable: its file and the folder were synced. A new text is written to
/// `<path>.new`, which is made anew, for its owner alone, and gets the owner and the permissions of the file: of one
/// that somebody else put there it gets none, but those that the own one had last. It is synced, locked, and renamed
/// over the path; then the folder is synced. A crash at any moment, a loss of power too, so leaves the old text or the
/// new one, and once a text is stored it stays. Each of these steps but the lock that fails is a refused store. Where a
/// symlink is at the path, the file takes its place: who wants it to stay follows it first. Contracts see how many
/// calls have failed.
///
/// The file that was stored last stays open and locked, so that no other program that locks it first takes it for its
/// own.
#[derive(Drop)]
pub struct FileStore<R: Files + Drop> {
    files: R,
    alloc: Global,
    path: String,
    new_path: String,
    folder: String,
    own: Option<Own>,
    held: Option<R::File>,
    failed: u64,
    fault: Option<FileFault>,
}

impl<R: Files + Drop> Model for FileStore<R> {
    ghost use Rattle.std.specs.Prelude.{ℕ, ◌≢◌, ◌↔◌, IsSome};

    ghost Value = { ℕ };

    ghost view = { λ store. store.failed };

    ghost invariant = { λ store. IsSome store.fault ↔ (store.failed ≢ 0) };
}

impl<R: Files + Drop> FileStore<R> {
    /// The store at `path`, where no call has failed yet. The file needn't be there.
    pub fn at(files: R, alloc: Global, path: &str) -> Result<FileStore<R>, AllocError>
        ensures { IfOk result (λ store. store ≡ 0) }
    {
        Ok(FileStore {
            files,
            alloc,
            path: String::from_str(alloc, path)?,
            new_path: format!(in alloc; "{path}.new")?,
            folder: String::from_str(alloc, folder_of(path))?,
            own: None,
            held: None,
            failed: 0,
            fault: None,
        })
    }

    /// Why the last of the calls that failed did: at which step, and the system's error. None where none has failed.
    pub fn last_fault(&self) -> Option<FileFault>
        ensures { IsSome result ↔ (self.now ≢ 0) }
    {
        self.fault
    }

    /// Whether the file at the path isn't the one that this store loaded or put there last, or was written since, so
    /// that the next replacement writes over what somebody else put there. Before the first call, and where no file is
    /// at the path, it is not.
    pub fn is_edited(&self) -> bool {
        let Some(own) = self.own else {
            return false;
        };
        match fs::metadata(&self.files, self.path.as_str()) {
            Ok(found) => own.mark != Mark::of(&found),
            Err(_) => false,
        }
    }

    /// The text at the path where that `is_edited`. None where it isn't, and where it can't be read, or is longer than
    /// a conf may be.
    pub fn edited_text(&self) -> Option<FileText> {
        if !self.is_edited() {
            return None;
        }
        let found = fs::metadata(&self.files, self.path.as_str()).ok()?;
        if !found.is_file() || found.len() > FILE_MAX as u64 {
            return None;
        }
        let (_, bytes, _) = self.read_file().ok()?;
        Some(FileText::from_vec(bytes))
    }

    /// Counts a call that failed so.
    fn count(&mut self, fault: FileFault)
        requires { self.old < 2 ^ 64 - 1 }
        ensures { self.new ≡ self.old + 1 }
    {
        self.failed += 1;
        self.fault = Some(fault);
    }

    /// The file that is there, and what it holds.
    fn read_file(&self) -> io::Result<(R::File, Vec<u8>, Own)> {
        let mut file = fs::open(&self.files, self.path.as_str())?;
        let own = Own::of(&file.metadata()?);
        let mut bytes = Vec::new(self.alloc);
        file.read_to_end(&mut bytes)?;
        Ok((file, bytes, own))
    }

    /// What the file holds, and which one it is. It was renamed to its name before perhaps, and not yet synced: the
    /// disk holds both now.
    fn read_durably(&self) -> Result<(Vec<u8>, Own), FileFault> {
        let (file, bytes, own) = FileStep::Read.tried(self.read_file())?;
        FileStep::Sync.tried(file.sync_all())?;
        FileStep::SyncFolder.tried(self.sync_folder())?;
        Ok((bytes, own))
    }

    /// Has the disk hold the names of the files in the folder.
    fn sync_folder(&self) -> io::Result<()> {
        let folder = fs::open(&self.files, self.folder.as_str())?;
        folder.sync_all()
    }

    /// The access of the own file: as it is, or as it was last where another file is in its place, or none. Before the
    /// first call the file that is there counts as the own one.
    fn access(&self) -> io::Result<Option<Access>> {
        match (fs::metadata(&self.files, self.path.as_str()), self.own) {
            (Ok(found), None) => Ok(Some(Access::of(&found))),
            (Ok(found), Some(own)) if own.mark.is_of_same_file(Mark::of(&found)) => {
                Ok(Some(Access::of(&found)))
            }
            (_, Some(own)) => Ok(Some(own.access)),
            (Err(error), None) if error.kind() == ErrorKind::NotFound => Ok(None),
            (Err(error), None) => Err(error),
        }
    }

    /// Removes what is at the path of the new file; a link there is not followed.
    fn remove_leftover(&self) -> io::Result<()> {
        match fs::remove_file(&self.files, self.new_path.as_str()) {
            Err(error) if error.kind() != ErrorKind::NotFound => Err(error),
            _ => Ok(()),
        }
    }
}

impl<R: Files + Drop> FileStore<R>
where
    R::File: AsFd + LocksAlone,
{
    /// The new file, which is empty, with this access, or where there is none for its owner alone.
    fn new_file(&self, access: Option<Access>) -> io::Result<R::File> {
        self.remove_leftover()?;
        let mut how = OpenOptions::new();
        how.write(true).create_new(true);
        how.mode(OWNER_ALONE);
        let file = how.open(&self.files, self.new_path.as_str())?;
        if let Some(access) = access {
            give_access(&file, access)?;
        }
        Ok(file)
    }

    /// The new file with this text, which the disk holds, and what the system says of it.
    fn written_file(&self, text: &[u8]) -> Result<(R::File, Own), FileFault> {
        let access = FileStep::Make.tried(self.access())?;
        let mut file = FileStep::Make.tried(self.new_file(access))?;
        FileStep::Write.tried(file.write_all(text))?;
        FileStep::Sync.tried(file.sync_all())?;
        let own = Own::of(&FileStep::Sync.tried(file.metadata())?);
        Ok((file, own))
    }

    /// Writes the text to the new file, puts that in the place of the old one, and has the disk hold both steps. The
    /// new one is locked before it has its name, and held.
    fn replace_file(&mut self, text: &[u8]) -> Result<(), FileFault>
        ensures { self.new ≡ self.old }
    {
        let (file, own) = self.written_file(text)?;
        let is_locked = file.lock_alone();
        let (from, to) = (self.new_path.as_str(), self.path.as_str());
        FileStep::Rename.tried(fs::rename(&self.files, from, to))?;
        self.own = Some(own);
        self.held = if is_locked { Some(file) } else { None };
        FileStep::SyncFolder.tried(self.sync_folder())
    }
}

/// The folder in which the file at a path stands.
fn folder_of(path: &str) -> &str {
    match path.rsplit_once('/') {
        None => ".",
        Some(("", _)) => "/",
        Some((folder, _)) => folder,
    }
}

impl<R: Files + Drop> ConfStore for FileStore<R>
where
    R::File: AsFd + LocksAlone,
{
    ghost failure_count = { λ store. store };

    fn load(&mut self) -> Result<FileText, LoadFault> {
        match self.read_durably() {
            Ok((bytes, own)) => {
                self.own = Some(own);
                Ok(FileText::from_vec(bytes))
            }
            Err(fault) => {
                if fault.error.kind() == ErrorKind::OutOfMemory {
                    return Err(LoadFault::NoMemory);
                }
                self.count(fault);
                Err(LoadFault::Failed)
            }
        }
    }

    fn replace(&mut self, text: &[u8]) -> Result<(), StoreRefused> {
        match self.replace_file(text) {
            Ok(()) => Ok(()),
            Err(fault) => {
                self.count(fault);
                Err(StoreRefused)
            }
        }
    }

    fn failures(&self) -> u64 {
        self.failed
    }
}
