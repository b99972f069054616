//! New folders of files that can hold passwords: whole, or not there.

use crate::new_files::{make_file, make_file_as};
use ballot_law::Text;
use std::fs::{self, DirBuilder, File};
use std::io::{self, ErrorKind, Write};
use std::os::unix::fs::DirBuilderExt;

/// The mode with which a folder is made: its owner alone may look into it.
const OWNER_ALONE: u32 = 0o700;

/// A file that is to be written.
#[derive(Drop)]
pub(crate) struct NewFile<'a> {
    pub(crate) name: String,
    pub(crate) text: &'a Text,
    /// The file whose mode it gets; its owner's alone where there is none.
    pub(crate) model: Option<&'a str>,
}

/// The path of a file in a folder.
fn path_in(rt: HostRuntime, folder: &str, name: &str) -> io::Result<String> {
    match format!(in rt.alloc(); "{folder}/{name}") {
        Ok(path) => Ok(path),
        Err(_) => Err(io::Error::from(ErrorKind::OutOfMemory)),
    }
}

/// Writes each file into the folder, and has the disk hold them.
fn write_files(rt: HostRuntime, folder: &str, files: &[NewFile<'_>]) -> io::Result<()> {
    for file in files {
        let path = path_in(rt, folder, file.name.as_str())?;
        let mut made = match file.model {
            Some(model) => make_file_as(rt, path.as_str(), model)?,
            None => make_file(rt, path.as_str())?,
        };
        made.write_all(file.text.as_slice())?;
        made.sync_all()?;
    }
    let opened = File::open(&rt, folder)?;
    opened.sync_all()
}

/// Writes the files into the folder beside, which then gets the name of the folder.
fn fill(rt: HostRuntime, folder: &str, beside: &str, files: &[NewFile<'_>]) -> io::Result<()> {
    write_files(rt, beside, files)?;
    fs::rename(&rt, beside, folder)
}

/// Writes the files into a folder that isn't there, or is empty. They are written into one beside it, `<folder>.new`,
/// which then gets its name: so a kill leaves the folder as it was or with all files, and so does an error.
pub(crate) fn write_folder(rt: HostRuntime, folder: &str, files: &[NewFile<'_>]) -> io::Result<()> {
    let folder = folder.trim_end_matches('/');
    let Ok(beside) = format!(in rt.alloc(); "{folder}.new") else {
        return Err(io::Error::from(ErrorKind::OutOfMemory));
    };
    let beside = beside.as_str();
    let mut how = DirBuilder::new();
    how.mode(OWNER_ALONE);
    how.create(&rt, beside)?;
    let written = fill(rt, folder, beside, files);
    if written.is_err() {
        let _ = fs::remove_dir_all(&rt, beside);
    }
    written
}
