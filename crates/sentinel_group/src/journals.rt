//! Whether standard error is the journal of systemd, and what stands in front of a note there and elsewhere.

use clap::ArgMatches;
use sentinel_runner::NoteForm;
use std::{env, fs};

/// What the link of a descriptor says of a socket, around its inode.
const SOCKET: &str = "socket:[";

/// Whether a descriptor's link names the socket of a journal's stream, which is told as `device:inode`.
fn is_stream(link: &str, stream: &str) -> bool {
    let named = link
        .strip_prefix(SOCKET)
        .and_then(|rest| rest.strip_suffix("]"));
    match (named, stream.split_once(":")) {
        (Some(named), Some((_, inode))) => named == inode,
        _ => false,
    }
}

/// Whether standard error goes to the journal: systemd names its stream to what it starts (systemd.exec(5),
/// `JOURNAL_STREAM`), and standard error may have been led elsewhere since. Where either can't be read it doesn't.
fn is_journal(rt: HostRuntime) -> bool {
    let (Ok(stream), Ok(link)) = (
        env::var(&rt, "JOURNAL_STREAM"),
        fs::read_link(&rt, "/proc/self/fd/2"),
    ) else {
        return false;
    };
    is_stream(link.into_string().as_str(), stream.as_str())
}

/// How the notes of `watch` are written: with times by `--times`, without by `--no-times`, and else where standard
/// error isn't the journal, which has its own; with priorities where it is.
pub(crate) fn note_form(rt: HostRuntime, words: &ArgMatches) -> NoteForm {
    let prioritized = is_journal(rt);
    NoteForm::Bare {
        timed: words.get_flag("times") || !prioritized && !words.get_flag("no-times"),
        prioritized,
    }
}
