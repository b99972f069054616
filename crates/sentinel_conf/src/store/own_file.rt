//! Which file a Sentinel's is, and who may do what with it.

use std::fs::{File, Metadata, OpenFile, Permissions};
use std::io;
use std::os::fd::AsFd;
use std::os::unix::fs::{MetadataExt, PermissionsExt, fchown};

/// The bits of a mode that say who may do what.
const PERMISSION_BITS: u32 = 0o7777;

/// Whose a file is, and who may do what with it.
#[derive(Clone, Copy)]
pub(crate) struct Access {
    mode: u32,
    uid: u32,
    gid: u32,
}

impl Access {
    /// That of a file of which the system says this.
    pub(crate) fn of(found: &Metadata) -> Access {
        Access {
            mode: found.mode() & PERMISSION_BITS,
            uid: found.uid(),
            gid: found.gid(),
        }
    }

    /// The mode of a file of this access in another group, which may do what others may.
    fn mode_in_another_group(self) -> u32 {
        (self.mode & 0o7707) | ((self.mode & 0o007) << 3)
    }
}

/// Which file is at a path, and as it was written when.
#[derive(Clone, Copy, PartialEq, Eq)]
pub(crate) struct Mark {
    device: u64,
    inode: u64,
    size: u64,
    seconds: i64,
    nanoseconds: i64,
}

impl Mark {
    /// That of a file of which the system says this.
    pub(crate) fn of(found: &Metadata) -> Mark {
        Mark {
            device: found.dev(),
            inode: found.ino(),
            size: found.size(),
            seconds: found.mtime(),
            nanoseconds: found.mtime_nsec(),
        }
    }

    /// Whether these are marks of one file, which may have been written between them.
    pub(crate) fn is_of_same_file(self, other: Mark) -> bool {
        (self.device, self.inode) == (other.device, other.inode)
    }
}

/// A file as this store loaded it or put it there.
#[derive(Clone, Copy)]
pub(crate) struct Own {
    pub(crate) mark: Mark,
    pub(crate) access: Access,
}

impl Own {
    /// The file of which the system says this.
    pub(crate) fn of(found: &Metadata) -> Own {
        Own {
            mark: Mark::of(found),
            access: Access::of(found),
        }
    }
}

/// An open file that a program can have for itself.
pub trait LocksAlone {
    /// Locks it for as long as it is open: whether that is done. It isn't where somebody else has it locked, or where
    /// the system has no lock for it.
    fn lock_alone(&self) -> bool;
}

impl LocksAlone for File {
    fn lock_alone(&self) -> bool {
        self.try_lock().is_ok()
    }
}

/// Gives an open file this access: its owner and its group where the system lets it. In another group its mode lets the
/// group do no more than others.
pub(crate) fn give_access<F: OpenFile + AsFd>(file: &F, access: Access) -> io::Result<()> {
    let own = Access::of(&file.metadata()?);
    let mut mode = access.mode;
    if (own.uid, own.gid) != (access.uid, access.gid)
        && fchown(file, Some(access.uid), Some(access.gid)).is_err()
        && own.gid != access.gid
        && fchown(file, None, Some(access.gid)).is_err()
    {
        mode = access.mode_in_another_group();
    }
    file.set_permissions(Permissions::from_mode(mode))
}

/// Gives an open file the owner and the permissions of the one of which the system says this: the owner and the group
/// where the system lets it. In another group its mode lets the group do no more than others. An error is the system's:
/// then it may have the owner already, and not yet the permissions.
pub fn give_access_of<F: OpenFile + AsFd>(file: &F, model: &Metadata) -> io::Result<()> {
    give_access(file, Access::of(model))
}
