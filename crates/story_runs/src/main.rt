//! Plays the stories that its words name, and says of each whether it prints the lines that are beside it, and whether
//! its trace, played as a story, prints them too. Where a trace is beside it, its own trace has to be that one.
//!
//! A word is the path of a story's files without their endings. The Sentinels of a story are the conf files of its
//! folder, of Redis's profile where the folder's name begins with it. After the word `stops:` each story is run again
//! and again, with each Sentinel stopped and started after each of its steps, and leaving the old text of its file and
//! the new one. It says how many runs these were, and how often they broke the laws of a group.
//!
//! After the word `calls:` each story is played by the public calls of a world, once step by step and once by one call
//! with a stop at its end; a call that lacked memory is made once more on what it left. After the word `refused:` a
//! word is a folder whose conf files make no group: it says how a world of them is refused, and how a story is.
#![tactic(auto)]

mod laws;
mod stops;
mod worlds;

ghost use Rattle.std.specs.Prelude.{All, IfSome};
ghost use Rattle.fault_world.specs.Limits.{IsWithinLimits};

use crate::stops::{Stopped, stop_behind_each};
use crate::worlds::{Calls, Lines, Refusal, lines_of, steps_of};
use ballot_law::Step;
use fault_world::{WorldFault, read_scenario};
use resp2::OutText;
use scenario_replay::{Printed, ReplayFault, Story};
use sentinel_conf::{Conf, read};
use sentinel_rules::Profile;
use std::alloc::Global;
use std::{env, fs, io};

/// The names that the conf files of a folder have, as many as there are.
const CONFS: [&str; 3] = ["/a.conf", "/b.conf", "/c.conf"];

/// The bytes of the file at this path with this ending; none where it can't be read.
fn bytes_of(rt: &HostRuntime, path: &str, ending: &str) -> Option<Vec<u8>> {
    let Ok(path) = format!(in rt.alloc(); "{path}{ending}") else {
        return None;
    };
    fs::read(rt, path.as_str()).ok()
}

/// The conf files of the folder.
fn files_of(rt: &HostRuntime, folder: &str) -> Option<Vec<Vec<u8>>> {
    let mut files = Vec::new(rt.alloc());
    for conf in CONFS {
        if let Some(file) = bytes_of(rt, folder, conf) {
            files.push(file).ok()?;
        }
    }
    Some(files)
}

/// By which rules the Sentinels of the folder work: by Redis's where its name begins so.
fn profile_of(folder: &str) -> Profile {
    if folder.as_bytes().starts_with(b"redis_profile") {
        return Profile::Redis;
    }
    Profile::Strict
}

/// A story of these bytes, with the Sentinels of the folder, and how many these are.
fn story_of(rt: &HostRuntime, folder: &str, text: Vec<u8>) -> Option<(Story, u16)> {
    let mut story = Story::new_as(rt.alloc(), text, profile_of(folder)).ok()?;
    let mut sentinels: u16 = 0;
    for conf in CONFS {
        if let Some(file) = bytes_of(rt, folder, conf) {
            story.add_conf(file).ok()?;
            sentinels = sentinels.saturating_add(1);
        }
    }
    Some((story, sentinels))
}

/// What a story of these bytes prints, over the Sentinels of the folder.
fn printed(rt: &HostRuntime, folder: &str, story: Vec<u8>, what: Printed) -> Option<OutText> {
    let (story, _) = story_of(rt, folder, story)?;
    story.play(what).ok()
}

/// Whether the trace is the one that is beside the story, if one does.
fn is_as_traced(rt: &HostRuntime, path: &str, trace: &OutText) -> bool {
    match bytes_of(rt, path, ".trace") {
        Some(expected) => trace.as_slice() == expected.as_slice(),
        None => true,
    }
}

/// Whether the story at this path, and its trace too, prints what is beside it; none where it can't be played.
fn is_as_told(rt: &HostRuntime, path: &str) -> Option<bool> {
    let (folder, _) = path.rsplit_once('/')?;
    let expected = bytes_of(rt, path, ".expected")?;
    let report = printed(
        rt,
        folder,
        bytes_of(rt, path, ".scenario")?,
        Printed::Report,
    )?;
    let trace = printed(rt, folder, bytes_of(rt, path, ".scenario")?, Printed::Trace)?;
    let is_traced = is_as_traced(rt, path, &trace);
    let story = Vec::from_slice(rt.alloc(), trace.as_slice()).ok()?;
    let again = printed(rt, folder, story, Printed::Report)?;
    let is_told = report.as_slice() == expected.as_slice();
    Some(is_traced && is_told && again.as_slice() == expected.as_slice())
}

/// What comes of the story at this path with stops in it; none where it can't be played.
fn stopped_at(rt: &HostRuntime, path: &str) -> Option<Stopped> {
    let (folder, _) = path.rsplit_once('/')?;
    let expected = bytes_of(rt, path, ".expected")?;
    let text = bytes_of(rt, path, ".scenario")?;
    let steps = read_scenario(rt.alloc(), text.as_slice()).ok()?;
    let (story, sentinels) = story_of(rt, folder, text)?;
    let all = stop_behind_each(rt.alloc(), &story, &steps, sentinels, &expected);
    Some(all)
}

/// A story, its conf files, and what it is to bring.
#[derive(Drop)]
struct Told {
    conf: Conf,
    files: Vec<Vec<u8>>,
    steps: Vec<Step>,
    expected: Vec<u8>,
}

/// The story at this path; none where it can't be read.
fn told_at(rt: &HostRuntime, path: &str) -> Option<Told>
    ensures { IfSome result (λ told. All IsWithinLimits told.steps.items) }
{
    let (folder, _) = path.rsplit_once('/')?;
    let expected = bytes_of(rt, path, ".expected")?;
    let text = bytes_of(rt, path, ".scenario")?;
    let files = files_of(rt, folder)?;
    let Ok(conf) = read(rt.alloc(), files.first()?.as_slice()) else {
        return None;
    };
    let steps = steps_of(rt.alloc(), text.as_slice())?;
    Some(Told {
        conf,
        files,
        steps,
        expected,
    })
}

/// What a story brings by these calls; where a node or a roster lacked memory, all is made once more.
fn called(alloc: Global, told: &Told, calls: Calls) -> Result<Lines, Refusal>
    requires { All IsWithinLimits told.now.steps.items }
{
    match lines_of(alloc, &told.conf, &told.files, &told.steps, calls) {
        Ok(lines) => Ok(lines),
        Err(Refusal::NoNodes) => lines_of(alloc, &told.conf, &told.files, &told.steps, calls),
        Err(refusal) => Err(refusal),
    }
}

/// Whether a story, played by the public calls of a world, brings what it is to bring; none where it is refused. The
/// lines of steps that a call made before it lacked memory aren't looked at.
fn is_as_called(alloc: Global, told: &Told) -> Option<bool>
    requires { All IsWithinLimits told.now.steps.items }
{
    let expected = told.expected.as_slice();
    let Ok(each) = called(alloc, told, Calls::OneByOne) else {
        return None;
    };
    let Ok(all) = called(alloc, told, Calls::AtOnce) else {
        return None;
    };
    let (lines, last) = (each.text.as_slice(), all.text.as_slice());
    Some(lines == expected && (last == expected || (all.untold > 0 && expected.ends_with(last))))
}

/// The same of the story at this path; none also where it can't be read.
fn is_called_at(rt: &HostRuntime, path: &str) -> Option<bool> {
    match told_at(rt, path) {
        Some(told) => is_as_called(rt.alloc(), &told),
        None => is_as_called(rt.alloc(), &told_at(rt, path)?),
    }
}

/// How a world of the folder's conf files is refused, and how a story over them is.
fn refused_at(rt: &HostRuntime, folder: &str) -> Option<(WorldFault, ReplayFault)> {
    let files = files_of(rt, folder)?;
    let Ok(conf) = read(rt.alloc(), files.first()?.as_slice()) else {
        return None;
    };
    let Err(Refusal::NoWorld(fault)) = lines_of(rt.alloc(), &conf, &files, &[], Calls::OneByOne)
    else {
        return None;
    };
    let (story, _) = story_of(rt, folder, Vec::new(rt.alloc()))?;
    let Err(played) = story.play(Printed::Report) else {
        return None;
    };
    Some((fault, played))
}

/// Says what came of the runs of a story with stops in it.
fn tell_stopped(rt: &HostRuntime, path: &str, stopped: &Stopped) -> io::Result<()> {
    println!(rt;
        "{path} with a stop behind each of {} steps:",
        stopped.steps
    )?;
    println!(rt; "  runs: {}, refused: {}", stopped.runs, stopped.refused)?;
    println!(rt;
        "  another end where the stop comes last: {}",
        stopped.others
    )?;
    println!(rt;
        "  elections in an epoch that had one: {}",
        stopped.breaches.elections
    )?;
    println!(rt;
        "  addresses of an epoch that had another: {}",
        stopped.breaches.addresses
    )?;
    println!(rt; "  epochs that fell: {}", stopped.breaches.fallen)?;
    println!(rt; "  lines that tell nothing: {}", stopped.breaches.unread)
}

/// What is done with the stories that are named.
#[derive(Clone, Copy, PartialEq, Eq)]
enum Play {
    Whole,
    Stopped,
    Called,
    Refused,
}

/// What is done after this word.
fn play_named(word: &str) -> Option<Play> {
    match word {
        "stops:" => Some(Play::Stopped),
        "calls:" => Some(Play::Called),
        "refused:" => Some(Play::Refused),
        _ => None,
    }
}

/// Plays the story at this path, and says whether it prints what is beside it.
fn tell_whole(rt: &HostRuntime, path: &str) -> io::Result<()> {
    match is_as_told(rt, path) {
        Some(true) => println!(rt; "{path}"),
        Some(false) => println!(rt; "{path} tells something else"),
        None => println!(rt; "{path} can't be played"),
    }
}

/// Plays the story at this path by the calls of a world, and says what came of it.
fn tell_called(rt: &HostRuntime, path: &str) -> io::Result<()> {
    match is_called_at(rt, path) {
        Some(true) => println!(rt; "{path} by the calls of a world"),
        Some(false) => println!(rt; "{path} tells something else by the calls of a world"),
        None => println!(rt; "{path} can't be played by the calls of a world"),
    }
}

/// Says how the conf files of this folder are refused.
fn tell_refused(rt: &HostRuntime, folder: &str) -> io::Result<()> {
    match refused_at(rt, folder) {
        Some((fault, played)) => println!(rt;
            "{folder}: a world is refused by {fault}, a story by {played}"
        ),
        None => println!(rt; "{folder} isn't refused"),
    }
}

fn main(rt: HostRuntime) -> io::Result<()> {
    let mut play = Play::Whole;
    for path in env::args(&rt)?.skip(1) {
        let path = path.as_str();
        if let Some(next) = play_named(path) {
            play = next;
            continue;
        }
        match play {
            Play::Whole => tell_whole(&rt, path)?,
            Play::Stopped => match stopped_at(&rt, path) {
                Some(stopped) => tell_stopped(&rt, path, &stopped)?,
                None => println!(rt; "{path} can't be played")?,
            },
            Play::Called => tell_called(&rt, path)?,
            Play::Refused => tell_refused(&rt, path)?,
        }
    }
    Ok(())
}
