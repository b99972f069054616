//! The program `sentinel_group`: `answer` serves the commands of standard input on standard output, `serve` runs a
//! group with its ports, `watch` runs one Sentinel over real Redis servers, `replay` plays a story of a group, `check`
//! tells what group files make, `status` whether a group that runs is well, `new-id` prints a run id for a new one,
//! `new-group` writes the files of a new group, `change` those of a changed one.
#![tactic(auto)]

mod change_orders;
mod change_steps;
mod change_words;
mod changing;
mod checking;
mod command_line;
mod conf_paths;
mod failures;
mod group_files;
mod journals;
mod locks;
mod looking;
mod mending;
mod new_files;
mod new_folders;
mod new_groups;
mod new_ids;
mod new_texts;
mod noted_store;
mod ready_files;
mod redis_text;
mod replaying;
mod serving;
mod starting;
mod telling;
mod versions;
mod watching;

ghost use Rattle.std.specs.Prelude.{◌<◌, ◌-◌, ◌^◌};

use crate::changing::change;
use crate::checking::check;
use crate::command_line::{command, refuse_unread, tell_words, words};
use crate::conf_paths::ConfPath;
use crate::failures::fail;
use crate::group_files::file_of;
use crate::journals::note_form;
use crate::locks::{lock_file, refuse_lock};
use crate::looking::status;
use crate::new_groups::new_group;
use crate::new_ids::new_id;
use crate::replaying::replay;
use crate::serving::{serve as serve_group, tell_end};
use crate::versions::tell_version;
use crate::watching::{tell_watched, watch, watch_level};
use clap::ArgMatches;
use clap::error::ErrorKind;
use log::sink::Discard;
use log::{LevelFilter, Logged};
use sentinel_conf::{Conf, ConfStore, MemoryStore, read};
use sentinel_core::{Sentinel, ServeFault};
use sentinel_runner::{NoteForm, NoteQueue};
use std::fs::File;
use std::process::ExitCode;

/// The configuration of a Sentinel that is given no file: it watches one master with three other Sentinels.
const DEFAULT_CONF: &[u8] = b"sentinel myid 0000000000000000000000000000000000000000\n\
sentinel monitor mymaster 127.0.0.1 6379 2\n\
sentinel known-sentinel mymaster 127.0.0.1 26380 aaaaaaaaaaaaaaaaaaaaaaaaaaaaaaaaaaaaaaaa\n\
sentinel known-sentinel mymaster 127.0.0.1 26381 bbbbbbbbbbbbbbbbbbbbbbbbbbbbbbbbbbbbbbbb\n\
sentinel known-sentinel mymaster 127.0.0.1 26382 cccccccccccccccccccccccccccccccccccccccc\n";

/// Opens the Sentinel of this configuration at clock 0, and serves standard input on standard output.
fn serve<S: ConfStore>(rt: HostRuntime, conf: Conf, store: &mut S) -> ExitCode
    requires { S.failure_count store.old < 2 ^ 64 - 1 }
{
    let Ok(mut sentinel) = Sentinel::open(rt.alloc(), conf, 0) else {
        return fail(&rt, ServeFault::NoMemory);
    };
    match sentinel.serve(0, &mut rt.stdin(), &mut rt.stdout(), store) {
        Ok(_) => ExitCode::SUCCESS,
        Err(fault) => fail(&rt, fault),
    }
}

/// Serves with the default configuration, and its file in memory.
fn answer_in_memory(rt: HostRuntime) -> ExitCode {
    let Ok(conf) = read(rt.alloc(), DEFAULT_CONF) else {
        return fail(&rt, ServeFault::NoMemory);
    };
    let Ok(mut store) = MemoryStore::holding(rt.alloc(), DEFAULT_CONF) else {
        return fail(&rt, ServeFault::NoMemory);
    };
    serve(rt, conf, &mut store)
}

/// Serves with the configuration of the file at the path, which is rewritten as what it holds changes. Nobody else may
/// run on it meanwhile.
fn answer_from(rt: HostRuntime, path: &str) -> ExitCode {
    let Ok(path) = ConfPath::of(rt, path) else {
        return fail(&rt, ServeFault::NoMemory);
    };
    let locked = lock_file(rt, &path);
    let (conf, mut store) = match file_of(rt, &path) {
        Ok(file) => file,
        Err(status) => return status,
    };
    match locked {
        Ok(lock) => {
            let status = serve(rt, conf, &mut store);
            drop(lock);
            status
        }
        Err(fault) => refuse_lock(rt, fault),
    }
}

/// Serves with the file that the words name, or in memory.
fn answer(rt: HostRuntime, words: &ArgMatches) -> ExitCode {
    match words.get_str("conf") {
        Some(path) => answer_from(rt, path),
        None => answer_in_memory(rt),
    }
}

/// Opens a folder three times, so that no file that is opened later gets descriptor 0, 1 or 2 where these are closed: a
/// folder can't be read or written, as what is closed can't.
fn stand_in(rt: HostRuntime) -> (Option<File>, Option<File>, Option<File>) {
    let first = File::open(&rt, "/").ok();
    let second = File::open(&rt, "/").ok();
    let third = File::open(&rt, "/").ok();
    (first, second, third)
}

fn main(rt: HostRuntime) -> ExitCode {
    let _standing_in = stand_in(rt);
    let Ok(mut command) = command(rt.alloc()) else {
        return fail(&rt, ServeFault::NoMemory);
    };
    let words = match words(&rt) {
        Ok(words) => words,
        Err(error) => return refuse_unread(&rt, &mut command, &error),
    };
    match command.try_get_matches_from(words.as_slice()) {
        Ok(matches) => match matches.subcommand() {
            Some(("change", words)) => change(rt, words),
            Some(("check", words)) => check(rt, words),
            Some(("new-group", words)) => new_group(rt, words),
            Some(("new-id", _)) => new_id(rt),
            Some(("replay", words)) => replay(&rt, words),
            Some(("serve", words)) => {
                if !words.get_flag("notes") {
                    let silent = Logged::new(rt, LevelFilter::Off, Discard);
                    return tell_end(rt, serve_group(rt, &silent, words), true);
                }
                // (notes have a thread of their own, which no other waits for; what it can't write, nor can a line of
                // how the group ended)
                let Ok((queue, writer)) = NoteQueue::open(rt, rt.alloc(), NoteForm::Whole) else {
                    return fail(&rt, ServeFault::NoMemory);
                };
                let noting = Logged::new(rt, LevelFilter::Info, queue);
                let ended = serve_group(rt, &noting, words);
                drop(noting);
                tell_end(rt, ended, writer.wait(&rt))
            }
            Some(("status", words)) => status(rt, words),
            Some(("watch", words)) => {
                // (as above)
                let Ok((queue, writer)) = NoteQueue::open(rt, rt.alloc(), note_form(rt, words))
                else {
                    return fail(&rt, ServeFault::NoMemory);
                };
                let noting = Logged::new(rt, watch_level(words), queue);
                let ended = watch(rt, &noting, words);
                drop(noting);
                tell_watched(rt, ended, writer.wait(&rt))
            }
            Some((_, words)) => answer(rt, words),
            None => answer_in_memory(rt),
        },
        Err(error) if error.kind() == ErrorKind::DisplayVersion => tell_version(rt),
        Err(error) => tell_words(&rt, &error),
    }
}
