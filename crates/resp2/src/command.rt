//! The commands of a Sentinel's port, as values.
ghost use Rattle.std.specs.Prelude.{◌≡◌, ◌∷◌, [], IfOk, option_map};
ghost use Rattle.ballot_law.specs.Words.{name, lower};
ghost use Rattle.resp2.specs.Asked.{IsCommon};
ghost use Rattle.ballot_law.specs.Limits.{IsWithin};
ghost use Rattle.resp2.specs.Commands as commands;
ghost use Rattle.resp2.specs.Framing.Frame as frames;
ghost use Rattle.resp2.specs.Framing.Frame.{view, frames_view};

use crate::framing::Value;
use crate::words::{are_bulk, word_of};
use ballot_law::{Command, MAX_EPOCH, Name, RunId};
use thiserror::Error;
use tokens::{canonical_address_of, canonical_number_of, run_id_of};

/// Why a value is no command of a Sentinel's port. The text of each is the variant's name.
///
/// Of several faults the first of this list is told.
#[derive(Clone, Copy, Debug, PartialEq, Eq, Error)]
pub enum CommandFault {
    /// The value isn't an array of one or more bulk strings.
    #[error("NotACommand")]
    NotACommand,
    /// No command has this name, or `SENTINEL` no subcommand of this name.
    #[error("UnknownCommand")]
    UnknownCommand,
    /// The command has another number of words.
    #[error("WrongArguments")]
    WrongArguments,
    /// The ip isn't four decimal parts from 0 to 255, or the port isn't from 1 to 65,535; none of
    /// these has leading zeros.
    #[error("BadAddress")]
    BadAddress,
    /// The epoch isn't a decimal number without leading zeros up to 281,474,976,710,655.
    #[error("BadEpoch")]
    BadEpoch,
    /// The run id is neither 40 lower case hex digits nor `*`.
    #[error("BadRunId")]
    BadRunId,
    /// `SUBSCRIBE` names another channel than `+switch-master`.
    #[error("UnknownChannel")]
    UnknownChannel,
}

/// Whether the word is the name, whatever the case of its letters. Nearly all words come in capitals, which one
/// comparison tells.
fn is_called(word: &[u8], capitals: &[u8], name: &[u8]) -> bool
    requires capitals { lower capitals.now ≡ name.now }
    requires name { lower name.now ≡ name.now }
    ensures { result ≡ commands.is_called name.now word.now }
{
    word.len() == name.len() && (word == capitals || word.eq_ignore_ascii_case(name))
}

/// The run id that the word is, or none for `*`.
fn candidate_of(word: &[u8]) -> Option<Option<RunId>>
    ensures { result ≡ commands.candidate word.now }
{
    if word == b"*".as_slice() {
        return Some(None);
    }
    run_id_of(word).map(Some)
}

/// The command of `SENTINEL IS-MASTER-DOWN-BY-ADDR` and these four words.
pub(crate) fn question_of(
    ip: &[u8],
    port: &[u8],
    epoch: &[u8],
    id: &[u8],
) -> Result<Command, CommandFault>
    ensures within { IfOk result IsWithin }
    ensures common { IfOk result IsCommon }
    ensures command { result
        ≡ commands.is_master_down_by_addr (ip.now ∷ port.now ∷ epoch.now ∷ id.now ∷ []) }
{
    let addr = canonical_address_of(ip, port).ok_or(CommandFault::BadAddress)?;
    let epoch = canonical_number_of(epoch, 0, MAX_EPOCH).ok_or(CommandFault::BadEpoch)?;
    let candidate = candidate_of(id).ok_or(CommandFault::BadRunId)?;
    Ok(Command::IsMasterDownByAddr {
        addr,
        epoch,
        candidate,
    })
}

/// The command of `SENTINEL IS-MASTER-DOWN-BY-ADDR` and these words.
fn is_master_down_by_addr(args: &[Value]) -> Result<Command, CommandFault>
    ensures within { IfOk result IsWithin }
    ensures command { result ≡ commands.is_master_down_by_addr (commands.words (frames_view args.now)) }
{
    let [ip, port, epoch, id] = args else {
        return Err(CommandFault::WrongArguments);
    };
    question_of(word_of(ip), word_of(port), word_of(epoch), word_of(id))
}

/// The name that the word is, or none where it can't be one.
pub(crate) fn name_of(word: &[u8]) -> Option<Name>
    ensures { result ≡ name word.now }
{
    Name::from_slice(word)
}

/// The name of a master that is the one word.
#[tactic(auto, using(crate::proofs::Counts::not_one_word))]
fn master_of(args: &[Value]) -> Result<Option<Name>, CommandFault>
    ensures { result ≡ commands.master_of (commands.words (frames_view args.now)) }
{
    match args {
        [word] => Ok(name_of(word_of(word))),
        _ => Err(CommandFault::WrongArguments),
    }
}

/// The command, where no word stands behind its name.
#[tactic(auto, using(crate::proofs::Counts::more_words))]
fn alone(command: Command, args: &[Value]) -> Result<Command, CommandFault>
    requires { IsWithin command }
    ensures within { IfOk result IsWithin }
    ensures command { result ≡ commands.alone command (commands.words (frames_view args.now)) }
{
    if args.is_empty() {
        Ok(command)
    } else {
        Err(CommandFault::WrongArguments)
    }
}

/// The channel on which a port tells that a master has another address, as Redis's Sentinel names it.
pub const CHANNEL: &str = "+switch-master";

/// The command of `SUBSCRIBE` and these words.
#[tactic(auto, using(crate::proofs::Counts::no_one_channel))]
fn subscribe(args: &[Value]) -> Result<Command, CommandFault>
    ensures within { IfOk result IsWithin }
    ensures command { result ≡ commands.subscribe (commands.words (frames_view args.now)) }
{
    let [word] = args else {
        return Err(CommandFault::WrongArguments);
    };
    if word_of(word) == CHANNEL.as_bytes() {
        Ok(Command::Subscribe)
    } else {
        Err(CommandFault::UnknownChannel)
    }
}

/// The command of `SENTINEL` and these words.
fn sentinel_command(words: &[Value]) -> Result<Command, CommandFault>
    ensures within { IfOk result IsWithin }
    ensures command { result ≡ commands.sentinel_command (commands.words (frames_view words.now)) }
{
    let Some((first, args)) = words.split_first() else {
        return Err(CommandFault::UnknownCommand);
    };
    let name = word_of(first);
    if is_called(name, b"IS-MASTER-DOWN-BY-ADDR", b"is-master-down-by-addr") {
        is_master_down_by_addr(args)
    } else if is_called(name, b"GET-MASTER-ADDR-BY-NAME", b"get-master-addr-by-name") {
        Ok(Command::GetMasterAddrByName(master_of(args)?))
    } else if is_called(name, b"MASTERS", b"masters") {
        alone(Command::Masters, args)
    } else if is_called(name, b"MASTER", b"master") {
        Ok(Command::Master(master_of(args)?))
    } else if is_called(name, b"REPLICAS", b"replicas") || is_called(name, b"SLAVES", b"slaves") {
        Ok(Command::Replicas(master_of(args)?))
    } else if is_called(name, b"SENTINELS", b"sentinels") {
        Ok(Command::Sentinels(master_of(args)?))
    } else if is_called(name, b"MYID", b"myid") {
        alone(Command::MyId, args)
    } else if is_called(name, b"CKQUORUM", b"ckquorum") {
        Ok(Command::CkQuorum(master_of(args)?))
    } else if is_called(name, b"FLUSHCONFIG", b"flushconfig") {
        alone(Command::FlushConfig, args)
    } else {
        Err(CommandFault::UnknownCommand)
    }
}

fn command_of_items(words: &[Value]) -> Result<Command, CommandFault>
    ensures within { IfOk result IsWithin }
    ensures command { result ≡ commands.command_of (frames.items (frames_view words.now)) }
{
    if !are_bulk(words) {
        return Err(CommandFault::NotACommand);
    }
    let Some((name, args)) = words.split_first() else {
        return Err(CommandFault::NotACommand);
    };
    if is_called(word_of(name), b"SENTINEL", b"sentinel") {
        sentinel_command(args)
    } else if is_called(word_of(name), b"PING", b"ping") {
        alone(Command::Ping, args)
    } else if is_called(word_of(name), b"SUBSCRIBE", b"subscribe") {
        subscribe(args)
    } else {
        Err(CommandFault::UnknownCommand)
    }
}

/// The command that a value spells, or the first fault that fits. No memory is taken.
///
/// The commands are `PING`, `SUBSCRIBE` and the subcommands of `SENTINEL` that docs/CLIENTS.md lists, by the names that
/// the Redis Sentinel documentation gives them; `SLAVES` is the former name of `REPLICAS`. Names of commands and
/// subcommands ignore ASCII case, as in Redis; all other words are taken as they are. A word in the place of a master's
/// name that can't be a name is no fault: the command names no master.
pub fn command_of(value: &Value) -> Result<Command, CommandFault>
    ensures command { result ≡ commands.command_of (view value.now) }
    ensures within { IfOk result IsWithin }
{
    match value {
        Value::Items(items) => command_of_items(items),
        _ => Err(CommandFault::NotACommand),
    }
}

/// The words behind SENTINEL FAILOVER, where these words begin so.
fn switch_words(words: &[Value]) -> Option<&[Value]>
    ensures { option_map (λ args. commands.words (frames_view args.now)) result ≡ commands.switch_words (commands.words (frames_view words.now)) }
{
    let [name, word, args @ ..] = words else {
        return None;
    };
    if is_called(word_of(name), b"SENTINEL", b"sentinel")
        && is_called(word_of(word), b"FAILOVER", b"failover")
    {
        Some(args)
    } else {
        None
    }
}

fn redis_command_of_items(words: &[Value]) -> Result<Command, CommandFault>
    ensures within { IfOk result IsWithin }
    ensures command { result ≡ commands.redis_command_of (frames.items (frames_view words.now)) }
{
    if !are_bulk(words) {
        return Err(CommandFault::NotACommand);
    }
    match switch_words(words) {
        Some(args) => Ok(Command::Failover(master_of(args)?)),
        None => command_of_items(words),
    }
}

/// The command that a value spells at a port of Redis's profile: it also knows `SENTINEL FAILOVER name`, which
/// `command_of` calls unknown. All else is as there. No memory is taken.
pub fn redis_command_of(value: &Value) -> Result<Command, CommandFault>
    ensures command { result ≡ commands.redis_command_of (view value.now) }
    ensures within { IfOk result IsWithin }
{
    match value {
        Value::Items(items) => redis_command_of_items(items),
        _ => Err(CommandFault::NotACommand),
    }
}
