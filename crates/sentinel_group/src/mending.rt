//! `check --mend`: the files of a group that differ in their configurations alone, written anew.

use crate::failures::{fail, fail_group, refuse_file_to_write};
use crate::new_files::make_file_as;
use conf_check::{MendFault, NamedConf, are_one_group, mended_texts};
use sentinel_core::ServeFault;
use sentinel_runner::GroupFault;
use std::io::{self, Write};
use std::process::ExitCode;

/// The name of a file without its folders.
fn name_of(path: &str) -> &str {
    match path.rsplit_once('/') {
        None => path,
        Some((_, name)) => name,
    }
}

/// Writes a text to a file that isn't there yet, with the owner and the permissions of the conf, since passwords can be
/// in both, and has the disk hold it.
fn write_new(rt: HostRuntime, conf_path: &str, path: &str, text: &[u8]) -> io::Result<()> {
    let mut file = make_file_as(rt, path, conf_path)?;
    file.write_all(text)?;
    file.sync_all()
}

/// Writes the mended text of a file into the folder. A file that is there already isn't written over.
fn write_mended(
    rt: HostRuntime,
    folder: &str,
    file: &NamedConf,
    text: &[u8],
) -> Result<(), ExitCode> {
    let name = name_of(file.name.as_str());
    let Ok(path) = format!(in rt.alloc(); "{folder}/{name}") else {
        return Err(fail(&rt, ServeFault::NoMemory));
    };
    if write_new(rt, file.name.as_str(), path.as_str(), text).is_err() {
        return Err(refuse_file_to_write(&rt, path.as_str(), "Unwritable"));
    }
    let _ = eprintln!(rt; "note: {path} is written");
    Ok(())
}

/// Writes each of these files anew into the folder, with the newest configuration of each master and its own votes, so
/// that the group goes on with them. Files that no group can go on with are refused, and then nothing is written.
pub(crate) fn mend(rt: HostRuntime, folder: &str, files: &[NamedConf]) -> ExitCode {
    let texts = match mended_texts(rt.alloc(), files) {
        Ok(texts) => texts,
        Err(MendFault::NotOneRoster) => return fail_group(&rt, GroupFault::NotOneRoster),
        Err(MendFault::NoMemory) => return fail(&rt, ServeFault::NoMemory),
        Err(MendFault::TwoAddresses) => {
            let _ = eprintln!(rt; "sentinel_group: TwoAddresses");
            return ExitCode::from(3);
        }
    };
    match are_one_group(rt.alloc(), texts.as_slice()) {
        Ok(true) => {}
        Ok(false) => return fail_group(&rt, GroupFault::NotOneRoster),
        Err(_) => return fail(&rt, ServeFault::NoMemory),
    }
    for (file, text) in files.iter().zip(texts.iter()) {
        if let Err(status) = write_mended(rt, folder, file, text.as_slice()) {
            return status;
        }
    }
    ExitCode::SUCCESS
}
