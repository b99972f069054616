//! Whether texts are the files of one group.

ghost use Rattle.std.specs.Prelude.{◌≡◌, None, Some, IfOk, MatchOption, IsTrue, IsFalse};
ghost use Rattle.conf_check.specs.Repair.GroupTexts.{AreFilesOfOneGroup, confs_of};

use crate::group::is_one_group;
use ballot_law::{NoMemory, Text};
use sentinel_conf::{Conf, ConfKind, read};
use std::alloc::Global;

/// What these texts say as files, in order; None where one of them can't be read.
pub(crate) fn read_all(alloc: Global, texts: &[Text]) -> Result<Option<Vec<Conf>>, NoMemory>
    ensures { IfOk result (λ found. MatchOption found (confs_of texts.now ≡ None) (λ confs. confs_of texts.now ≡ Some confs.items)) }
{
    let mut confs = Vec::new(alloc);
    let mut rest = texts;
    while let [text, more @ ..] = rest {
        match read(alloc, text.as_slice()) {
            Ok(conf) => confs.push(conf)?,
            Err(fault) => {
                if fault.kind == ConfKind::NoMemory {
                    return Err(NoMemory);
                }
                return Ok(None);
            }
        }
        rest = more;
    }
    Ok(Some(confs))
}

/// Whether these texts are the files of one group: each is read, each agrees with the first, and each Sentinel has one.
/// NoMemory: memory was refused.
pub fn are_one_group(alloc: Global, texts: &[Text]) -> Result<bool, NoMemory>
    ensures group { IfOk result (λ are. IsTrue are → AreFilesOfOneGroup texts.now) }
    ensures other { IfOk result (λ are. IsFalse are → ¬ (AreFilesOfOneGroup texts.now)) }
{
    let Some(confs) = read_all(alloc, texts)? else {
        return Ok(false);
    };
    Ok(is_one_group(confs.as_slice()))
}
