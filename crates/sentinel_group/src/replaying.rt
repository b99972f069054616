//! Plays a story over the Sentinels of conf files.

use crate::failures::{fail, refuse_conf, refuse_file, refuse_scenario, refuse_story};
use clap::ArgMatches;
use scenario_replay::{Printed, Story};
use sentinel_core::ServeFault;
use sentinel_rules::Profile;
use std::fs;
use std::io::{ErrorKind, Write};
use std::process::ExitCode;

/// The bytes of the file at the path, or the status that tells why there are none.
fn bytes_of(rt: &HostRuntime, path: &str) -> Result<Vec<u8>, ExitCode> {
    match fs::read(rt, path) {
        Ok(bytes) => Ok(bytes),
        Err(error) => {
            if error.kind() == ErrorKind::OutOfMemory {
                return Err(fail(rt, ServeFault::NoMemory));
            }
            Err(refuse_file(rt, path, 0, "Unreadable"))
        }
    }
}

/// Reads the scenario and the files of the Sentinels in the order of the words; the first that is refused ends the
/// program.
fn story_of(
    rt: &HostRuntime,
    scenario: &str,
    confs: &[&str],
    profile: Profile,
) -> Result<Story, ExitCode> {
    let mut story = match Story::new_as(rt.alloc(), bytes_of(rt, scenario)?, profile) {
        Ok(story) => story,
        Err(fault) => return Err(refuse_scenario(rt, scenario, fault)),
    };
    for path in confs {
        if let Err(fault) = story.add_conf(bytes_of(rt, path)?) {
            return Err(refuse_conf(rt, path, fault));
        }
    }
    Ok(story)
}

/// By which rules the Sentinels of the story work, as the words say: strict ones where they don't.
fn profile_of(words: &ArgMatches) -> Profile {
    match words.get_str("profile") {
        Some("redis") => Profile::Redis,
        _ => Profile::Strict,
    }
}

/// Plays the story, and prints what it brought, or its trace.
pub(crate) fn replay(rt: &HostRuntime, words: &ArgMatches) -> ExitCode {
    let scenario = words.get_str("scenario").unwrap_or("");
    let confs = words.get_strs("conf").unwrap_or(&[]);
    let story = match story_of(rt, scenario, confs, profile_of(words)) {
        Ok(story) => story,
        Err(status) => return status,
    };
    let printed = if words.get_flag("trace") {
        Printed::Trace
    } else {
        Printed::Report
    };
    match story.play(printed) {
        Ok(text) => match rt.stdout().write_all(text.as_slice()) {
            Ok(()) => ExitCode::SUCCESS,
            Err(_) => fail(rt, ServeFault::Write),
        },
        Err(fault) => refuse_story(rt, fault),
    }
}
