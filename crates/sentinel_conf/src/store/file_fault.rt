//! Why a call on a Sentinel's file failed.

ghost use Rattle.std.specs.Prelude.{◌≡◌, ◌↔◌, IfErr, IsOk};

use std::io;
use thiserror::Error;

/// What was tried with a file.
#[derive(Clone, Copy, Debug, PartialEq, Eq, Error)]
pub enum FileStep {
    /// To open the file and to read it. The file is as it was.
    #[error("read")]
    Read,
    /// To remove a leftover new file, to make it anew, and to give it the owner and the permissions. The file is as it
    /// was.
    #[error("make")]
    Make,
    /// To write the text to the new file. The file is as it was.
    #[error("write")]
    Write,
    /// To have the disk hold a file: the new one, or one that is there at a start. The file is as it was.
    #[error("sync")]
    Sync,
    /// To rename the new file over the file. The file is as it was.
    #[error("rename")]
    Rename,
    /// To have the disk hold the names in the folder. Of a store the file holds the new text then, which a loss of
    /// power may take back.
    #[error("sync of the folder")]
    SyncFolder,
}

/// Why a call on a file failed: what was tried, and the system's answer to it.
#[derive(Clone, Copy, Debug)]
pub struct FileFault {
    pub step: FileStep,
    pub error: io::Error,
}

impl FileStep {
    /// What came of this step, with its name where it failed.
    pub(crate) fn tried<T: Drop>(self, came: io::Result<T>) -> Result<T, FileFault>
        ensures ok { IsOk result ↔ IsOk came }
        ensures step { IfErr result (λ fault. fault.step ≡ self) }
    {
        match came {
            Ok(value) => Ok(value),
            Err(error) => Err(FileFault { step: self, error }),
        }
    }
}
