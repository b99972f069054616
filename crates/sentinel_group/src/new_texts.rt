//! What the texts of new files say, before they are written.

use crate::failures::refuse_file;
use crate::new_folders::NewFile;
use crate::new_groups::want_memory;
use ballot_law::Text;
use sentinel_conf::{Conf, WatchKind, lacks_announce_ip, read};
use std::process::ExitCode;

/// What the new texts say.
pub(crate) fn read_texts(rt: HostRuntime, texts: &[Text]) -> Result<Vec<Conf>, ExitCode> {
    let mut confs = Vec::new(rt.alloc());
    for text in texts {
        let Ok(conf) = read(rt.alloc(), text.as_slice()) else {
            return Err(want_memory(rt));
        };
        if confs.push(conf).is_err() {
            return Err(want_memory(rt));
        }
    }
    Ok(confs)
}

/// Refuses new files of which others know a Sentinel by an ip of the loopback.
pub(crate) fn refuse_unreached(
    rt: HostRuntime,
    news: &[NewFile<'_>],
    confs: &[Conf],
) -> Result<(), ExitCode> {
    for (new, conf) in news.iter().zip(confs.iter()) {
        if lacks_announce_ip(conf) {
            let path = new.model.unwrap_or(new.name.as_str());
            return Err(refuse_file(&rt, path, 0, WatchKind::NoAnnounceIp));
        }
    }
    Ok(())
}
