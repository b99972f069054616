//! New files that can hold passwords.

use sentinel_conf::give_access_of;
use std::fs::{self, File, OpenOptions};
use std::io;
use std::os::unix::fs::OpenOptionsExt;

/// The mode with which a file is made: its owner alone may read and write it.
const OWNER_ALONE: u32 = 0o600;

/// Makes a file where nothing is, no link either: empty, and its owner's alone.
pub(crate) fn make_file(rt: HostRuntime, path: &str) -> io::Result<File> {
    let mut how = OpenOptions::new();
    how.read(true).write(true).create_new(true);
    how.mode(OWNER_ALONE);
    how.open(&rt, path)
}

/// Makes a file where nothing is, with the owner and the permissions of the one at `model`, as far as the system lets
/// it, and without those for a moment before.
pub(crate) fn make_file_as(rt: HostRuntime, path: &str, model: &str) -> io::Result<File> {
    let model = fs::metadata(&rt, model)?;
    let file = make_file(rt, path)?;
    give_access_of(&file, &model)?;
    Ok(file)
}
