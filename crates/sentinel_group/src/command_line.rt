//! The words of the command line, by `clap`.

use crate::change_words::change_command;
use crate::failures::fail;
use crate::versions::VERSION;
use clap::builder::ValueParser;
use clap::error::ErrorKind;
use clap::{Arg, ArgAction, ArgMatches, Command, Error, value_parser};
use sentinel_core::ServeFault;
use sentinel_runner::PORT_THREADS_MAX;
use std::alloc::{AllocError, Global};
use std::env::{self, Env};
use std::io;
use std::process::ExitCode;

/// The least `down-after-milliseconds` of a file for `watch`, in milliseconds, which refuses less by the name
/// `ShortDownAfter`.
pub(crate) const DOWN_AFTER_LEAST: u32 = 100;

/// The exit status of refused words.
pub(crate) const REFUSED_WORDS: u8 = 2;

/// The profiles of the Sentinels of a story.
const PROFILES: [&str; 2] = ["strict", "redis"];

/// The files of a group.
fn conf_files<'a>(alloc: Global) -> Arg<'a> {
    Arg::new(alloc, "conf")
        .required(true)
        .num_args(1..)
        .action(ArgAction::Append)
        .help("The sentinel.conf of each Sentinel")
}

/// The words of `check`.
fn check<'a>(alloc: Global) -> Result<Command<'a>, AllocError> {
    let mend = Arg::new(alloc, "mend")
        .long("mend")
        .value_name("folder")
        .help(
            "Writes the files anew into this folder, each with the newest configuration of each master, so that \
            a group goes on with them",
        );
    let for_redis = Arg::new(alloc, "for-redis")
        .long("for-redis")
        .value_name("file")
        .help("Writes the text of the one conf that redis-sentinel reads to this new file")
        .conflicts_with("mend")?;
    let group = Arg::new(alloc, "group")
        .long("group")
        .action(ArgAction::SetTrue)
        .help("Wants the file of each Sentinel of the group, where one file is named too");
    Command::new(alloc, "check")
        .about(
            "Tells what group conf files make, or of which one file is, and what is wrong with it",
        )
        .arg(group)?
        .arg(mend)?
        .arg(for_redis)?
        .arg(conf_files(alloc))
}

/// The words of `new-id`.
fn new_id<'a>(alloc: Global) -> Command<'a> {
    Command::new(alloc, "new-id").about("Prints a run id for a new file, made of random digits")
}

/// The addresses of a new group.
fn new_group_addresses<'a>(alloc: Global, group: Command<'a>) -> Result<Command<'a>, AllocError> {
    let master = Arg::new(alloc, "master")
        .long("master")
        .required(true)
        .num_args(2)
        .value_names(&["name", "ip:port"])
        .help("The name and the address of the master");
    let replica = Arg::new(alloc, "replica")
        .long("replica")
        .required(true)
        .num_args(1..)
        .action(ArgAction::Append)
        .value_name("ip:port")
        .help("The address of each replica");
    let sentinel = Arg::new(alloc, "sentinel")
        .long("sentinel")
        .required(true)
        .num_args(1..)
        .action(ArgAction::Append)
        .value_name("ip[:port]")
        .help("The address of each Sentinel; its port is 26379 where it isn't said");
    group.arg(master)?.arg(replica)?.arg(sentinel)
}

/// The words that say more of a new master.
pub(crate) fn new_master_words<'a>(
    alloc: Global,
    command: Command<'a>,
) -> Result<Command<'a>, AllocError> {
    let quorum = Arg::new(alloc, "quorum")
        .long("quorum")
        .value_name("number")
        .value_parser(value_parser!(u32))
        .help(
            "How many Sentinels have to find the master down; more than half of them where it isn't said",
        );
    let down_after = Arg::new(alloc, "down-after")
        .long("down-after")
        .value_name("ms")
        .value_parser(value_parser!(u32).range(i64::from(DOWN_AFTER_LEAST)..=4_294_967_295))
        .help(
            "After how many milliseconds without an answer a node is down; 5000 where it isn't said",
        );
    let password = Arg::new(alloc, "auth-pass-file")
        .long("auth-pass-file")
        .value_name("file")
        .help("The file with the password of the data nodes, a line");
    command.arg(quorum)?.arg(down_after)?.arg(password)
}

/// The words of `new-group`.
fn new_group<'a>(alloc: Global) -> Result<Command<'a>, AllocError> {
    let folder = Arg::new(alloc, "folder").required(true).help(
        "The folder for the files, which is made; one that is there has to be empty",
    );
    let group = Command::new(alloc, "new-group")
        .about("Writes the sentinel.conf of each Sentinel of a new group, with new run ids")
        .arg(folder)?;
    new_master_words(alloc, new_group_addresses(alloc, group)?)
}

/// How many threads serve a port.
fn port_threads<'a>(alloc: Global) -> Arg<'a> {
    Arg::new(alloc, "port-threads")
        .long("port-threads")
        .value_name("number")
        .value_parser(value_parser!(u16).range(1..=i64::from(PORT_THREADS_MAX)))
        .help("How many threads serve each port, 1 to 16; 1 where it isn't said")
}

/// How many threads serve a port, as the words say.
pub(crate) fn port_threads_of(words: &ArgMatches) -> u16 {
    words.get_one::<u16>("port-threads").unwrap_or(1)
}

/// The words of `serve`.
fn serve<'a>(alloc: Global) -> Result<Command<'a>, AllocError> {
    let notes = Arg::new(alloc, "notes")
        .long("notes")
        .action(ArgAction::SetTrue)
        .help("Notes on standard error what the Sentinels find, as +switch-master");
    let close_halted = Arg::new(alloc, "close-halted")
        .long("close-halted")
        .action(ArgAction::SetTrue)
        .help(
            "Closes the port of a Sentinel whose file can't be written, so that clients ask another one",
        );
    let compatible = Arg::new(alloc, "compatible")
        .long("compatible")
        .action(ArgAction::SetTrue)
        .help(
            "Answers what client libraries send beside a Sentinel's commands, as HELLO, CLIENT and INFO",
        );
    let until_killed = Arg::new(alloc, "until-killed")
        .long("until-killed")
        .action(ArgAction::SetTrue)
        .help(
            "Reads no standard input, and runs until a signal ends it: for supervisors, containers and nohup",
        );
    let real_nodes = Arg::new(alloc, "real-nodes")
        .long("real-nodes")
        .action(ArgAction::SetTrue)
        .help(
            "Has the data nodes listen at their addresses on the loopback, and answer PING, INFO, ROLE and REPLICAOF there",
        );
    Command::new(alloc, "serve")
        .about("Runs a group of Sentinels with their ports at 127.0.0.1, until standard input ends")
        .arg(notes)?
        .arg(port_threads(alloc))?
        .arg(close_halted)?
        .arg(compatible)?
        .arg(until_killed)?
        .arg(real_nodes)?
        .arg(conf_files(alloc))
}

/// The words of `status` that say where passwords are.
fn status_passwords<'a>(alloc: Global, status: Command<'a>) -> Result<Command<'a>, AllocError> {
    let of_ports = Arg::new(alloc, "pass-file")
        .long("pass-file")
        .value_name("file")
        .help(
            "The file with the password of the Sentinels' ports, a line, where the conf has none",
        );
    let of_nodes = Arg::new(alloc, "auth-pass-file")
        .long("auth-pass-file")
        .value_name("file")
        .help("The file with the password of the data nodes, a line, where the conf has none");
    status.arg(of_ports)?.arg(of_nodes)
}

/// The words of `status`.
fn status<'a>(alloc: Global) -> Result<Command<'a>, AllocError> {
    let wait = Arg::new(alloc, "wait")
        .long("wait")
        .value_name("seconds")
        .value_parser(value_parser!(u32))
        .help("Looks again each half second until the group is well, for so many seconds at most");
    let watch = Arg::new(alloc, "watch")
        .long("watch")
        .action(ArgAction::SetTrue)
        .help("Looks again each second, until a signal ends it")
        .conflicts_with("wait")?;
    let json = Arg::new(alloc, "json")
        .long("json")
        .action(ArgAction::SetTrue)
        .help("Prints the same as one JSON object in one line");
    let group = Arg::new(alloc, "group")
        .required(true)
        .num_args(1..)
        .action(ArgAction::Append)
        .value_name("conf or ip:port")
        .help(
            "The sentinel.conf of a Sentinel, or addresses of Sentinels; the port is 26379 where it isn't said",
        );
    let status = Command::new(alloc, "status")
        .about("Asks all nodes of a group that runs, and tells what isn't well, and what to do")
        .arg(wait)?
        .arg(watch)?
        .arg(json)?;
    status_passwords(alloc, status)?.arg(group)
}

/// The words of `watch`.
fn watch<'a>(alloc: Global) -> Result<Command<'a>, AllocError> {
    let quiet = Arg::new(alloc, "quiet")
        .long("quiet")
        .action(ArgAction::SetTrue)
        .help("Notes on standard error warnings alone, and why it ends");
    let times = Arg::new(alloc, "times")
        .long("times")
        .action(ArgAction::SetTrue)
        .help(
            "Begins each note with the time, as without this word where standard error isn't systemd's journal",
        );
    let no_times = Arg::new(alloc, "no-times")
        .long("no-times")
        .action(ArgAction::SetTrue)
        .help("Begins no note with the time")
        .conflicts_with("times")?;
    let ready_file = Arg::new(alloc, "ready-file")
        .long("ready-file")
        .value_name("file")
        .help("Makes this file once the port is open, and removes it at the end: for supervisors");
    let conf = Arg::new(alloc, "conf")
        .required(true)
        .help("The sentinel.conf of the Sentinel, which is rewritten");
    Command::new(alloc, "watch")
        .about(
            "Runs one Sentinel, which watches Redis servers and speaks to the other Sentinels over TCP",
        )
        .arg(quiet)?
        .arg(times)?
        .arg(no_times)?
        .arg(port_threads(alloc))?
        .arg(ready_file)?
        .arg(conf)
}

/// The words of `answer`.
fn answer<'a>(alloc: Global) -> Result<Command<'a>, AllocError> {
    let conf = Arg::new(alloc, "conf").long("conf").value_name("file").help(
        "The sentinel.conf that is read and rewritten; without it what it holds is kept in memory",
    );
    Command::new(alloc, "answer")
        .about("Answers the commands of standard input on standard output")
        .arg(conf)
}

/// The words of `replay`.
fn replay<'a>(alloc: Global) -> Result<Command<'a>, AllocError> {
    let trace = Arg::new(alloc, "trace")
        .long("trace")
        .action(ArgAction::SetTrue)
        .help(
            "Prints the scenario again, with each message and each line of the report as a comment",
        );
    let profile = Arg::new(alloc, "profile")
        .long("profile")
        .value_name("name")
        .value_parser(ValueParser::Names(&PROFILES))
        .help(
            "By which rules the Sentinels work: strict, or redis as for watch; strict where it isn't said",
        );
    let scenario = Arg::new(alloc, "scenario")
        .required(true)
        .help("The steps of the story, one a line");
    Command::new(alloc, "replay")
        .about(
            "Plays a story of a whole group, and prints who was elected and which addresses were told",
        )
        .arg(trace)?
        .arg(profile)?
        .arg(scenario)?
        .arg(conf_files(alloc))
}

/// The command line of the program.
pub(crate) fn command<'a>(alloc: Global) -> Result<Command<'a>, AllocError> {
    Command::new(alloc, "sentinel_group")
        .about("A failover group with the behaviour of Redis Sentinel")
        .version(VERSION)
        .subcommand_required(true)
        .subcommand(answer(alloc)?)?
        .subcommand(change_command(alloc)?)?
        .subcommand(check(alloc)?)?
        .subcommand(new_group(alloc)?)?
        .subcommand(new_id(alloc))?
        .subcommand(replay(alloc)?)?
        .subcommand(serve(alloc)?)?
        .subcommand(status(alloc)?)?
        .subcommand(watch(alloc)?)
}

/// Whether these words ask for the help on `help`, which `clap` takes for a command of that name.
fn ask_help_on_help(words: &[String]) -> bool {
    match words {
        [_, help, flag] => {
            help.as_str() == "help" && (flag.as_str() == "--help" || flag.as_str() == "-h")
        }
        _ => false,
    }
}

/// The words that the program was started with, its own name first. `help --help` is `help`.
pub(crate) fn words<R: Env + Alloc<A = Global>>(rt: &R) -> io::Result<Vec<String>> {
    let mut words: Vec<String> = env::args(rt)?.collect(rt.alloc())?;
    if ask_help_on_help(words.as_slice()) {
        words.pop();
    }
    Ok(words)
}

/// Tells why the words can't be read: a word that isn't UTF-8 is refused with status 2, and a refused allocation ends
/// in status 6.
pub(crate) fn refuse_unread<R>(rt: &R, command: &mut Command<'_>, error: &io::Error) -> ExitCode
where
    R: Print + Eprint + Alloc<A = Global>,
{
    if error.kind() == io::ErrorKind::OutOfMemory {
        return fail(rt, ServeFault::NoMemory);
    }
    match command.error(ErrorKind::ValueValidation, "a word is not UTF-8") {
        Ok(error) => tell_words(rt, &error),
        Err(_) => fail(rt, ServeFault::NoMemory),
    }
}

/// What stands before the reason why a number of port threads is refused.
const PORT_THREADS_REFUSED: &str = "'--port-threads <number>': ";

/// Tells why the words are refused, as `clap` says it; but which numbers of port threads there are, in place of why a
/// word is none of them.
fn refuse_words<R: Eprint>(rt: &R, said: &str) {
    let Some((front, reason)) = said.split_once(PORT_THREADS_REFUSED) else {
        let _ = eprint!(rt; "sentinel_group: {said}");
        return;
    };
    let (_, rest) = reason.split_once("\n").unwrap_or((reason, ""));
    let _ = eprint!(rt;
        "sentinel_group: {front}{PORT_THREADS_REFUSED}write a number from 1 to {PORT_THREADS_MAX}\n{rest}"
    );
}

/// Tells what `clap` says of the words: the help or the version that was asked for on standard output, with status 0,
/// or why the words are refused on standard error, with status 2. A refused allocation ends in status 6, and a text
/// that can't be written in status 4.
pub(crate) fn tell_words<R>(rt: &R, error: &Error) -> ExitCode
where
    R: Print + Eprint + Alloc<A = Global>,
{
    match error.kind() {
        ErrorKind::OutOfMemory => fail(rt, ServeFault::NoMemory),
        ErrorKind::DisplayHelp | ErrorKind::DisplayVersion => match error.print(rt) {
            Ok(()) => ExitCode::SUCCESS,
            Err(_) => fail(rt, ServeFault::Write),
        },
        _ => match format!(in rt.alloc(); "{error}") {
            Ok(said) => {
                refuse_words(rt, said.as_str());
                ExitCode::from(REFUSED_WORDS)
            }
            Err(_) => fail(rt, ServeFault::NoMemory),
        },
    }
}
