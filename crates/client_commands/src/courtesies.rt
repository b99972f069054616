//! What becomes of a value.

ghost use Rattle.std.specs.Prelude.{◌≡◌, [], None, IfOk, OnOk};
ghost use Rattle.resp2.specs.Framing.Frame as frames;
ghost use Rattle.resp2.specs.Framing.Frame.{view, frames_view, spelling};
ghost use Rattle.ballot_law.specs.Rosters.{Roster};
ghost use Rattle.client_commands.specs.Courtesies.{ClientInfo, known, hello, auth, set_name, info_answer, executed, while_listening, name_after, admitted_after, killed_after, killed_by, or_killed, protocol_after, protocol_by, or_protocol, is_for_strangers, is_barred, admitted_by, or_admitted, words_of, is_miscounted, is_refused, names_channels, answered, named, looked_up_in, left, unless_stranger, or_left, or_same, asks_nothing, reply_to, courtesy, asker_after, kind_of, text_of};

use crate::client_info::ClientInfo;
use crate::clients::{get_name, no_evict, pong, publish, reply, role, say_bulk, say_number};
use crate::hellos::{auth, first, hello, may_be_name, set_name};
use crate::helps::{client_help, command_help};
use crate::infos::{answer_info, asks_sentinel};
use crate::kills::kill;
use crate::listing::{client_list, own_line};
use crate::lookup::looked_up;
use crate::refusals::{is_called, refuse_listener, say};
use crate::rows::families;
use crate::tables::{command_docs, command_info, command_list, say_table};
use crate::told_subcommands::sentinel_told;
use crate::verbs::Verb;
use ballot_law::{Command, NoMemory, Roster, Text};
use resp2::{CommandFault, OutText, Value, redis_command_of, words_of_items};
use std::alloc::Global;

const NO_AUTH: &[u8] = b"-NOAUTH Authentication required.\r\n";

/// What becomes of a value.
#[derive(Clone, Copy, Debug, PartialEq, Eq)]
pub enum Courtesy {
    /// The Sentinel's rules answer it.
    Left,
    /// Its answer is told, where it has one.
    Said,
    /// It is INFO, whose answer has the section that the Sentinel has when it is asked for it.
    AsksInfo,
}

/// Whether the Sentinel's rules call a value unknown or refuse its number of words.
fn is_refused(asked: &Result<Command, CommandFault>) -> bool
    ensures { result ≡ is_refused asked.now }
{
    match asked {
        Err(CommandFault::UnknownCommand) => true,
        Err(CommandFault::WrongArguments) => true,
        _ => false,
    }
}

/// Whether they refuse its number of words.
fn is_miscounted(asked: &Result<Command, CommandFault>) -> bool
    ensures { result ≡ is_miscounted asked.now }
{
    match asked {
        Err(CommandFault::WrongArguments) => true,
        _ => false,
    }
}

/// The words of a command.
pub(crate) fn words_of(alloc: Global, value: &Value) -> Result<Vec<Text>, NoMemory>
    ensures { IfOk result (λ words. words.items ≡ words_of (view value.now)) }
{
    match value {
        Value::Items(items) => words_of_items(alloc, items.as_slice()),
        _ => Ok(Vec::new(alloc)),
    }
}

/// Whether SUBSCRIBE names channels.
fn names_channels(words: &[Text]) -> bool
    ensures { result ≡ names_channels words.now }
{
    match words {
        [name, _, ..] => is_called(b"subscribe", name.as_slice()),
        _ => false,
    }
}

/// The answer to a command of a connection that listens.
fn answer_listener(verb: Verb, words: &[Text], out: &mut OutText) -> Result<(), NoMemory>
    ensures { OnOk result (out.new ≡ spelling (while_listening verb words.now)) }
{
    match verb {
        Verb::Ping => pong(words, out),
        _ => refuse_listener(out, verb.name()),
    }
}

/// HELLO with these words.
fn greet(
    alloc: Global,
    asker: &mut ClientInfo,
    words: &[Text],
    out: &mut OutText,
) -> Result<(), NoMemory>
    ensures text { OnOk result (out.new ≡ spelling (hello asker.old words.now)) }
    ensures asker { OnOk result (asker.new ≡ record asker.old {
      name = name_after asker.old Verb.Hello words.now;
      protocol = protocol_after asker.old Verb.Hello words.now;
      admitted = admitted_after asker.old Verb.Hello words.now;
    }) }
{
    let left = hello(asker, words, out)?;
    let admitted = left.admitted;
    let protocol = left.protocol;
    let name = Text::from_slice(alloc, left.name)?;
    asker.rename(name);
    asker.admit(admitted);
    asker.speak(protocol);
    Ok(())
}

/// AUTH with these words.
fn log_in(asker: &mut ClientInfo, words: &[Text], out: &mut OutText) -> Result<(), NoMemory>
    ensures text { OnOk result (out.new ≡ spelling (auth asker.old.password words.now)) }
    ensures asker { OnOk result (asker.new ≡ record asker.old { admitted = admitted_after asker.old Verb.Auth words.now }) }
{
    if auth(asker, words, out)? {
        asker.admit(true);
    }
    Ok(())
}

/// CLIENT SETNAME with these words.
fn rename(
    alloc: Global,
    asker: &mut ClientInfo,
    words: &[Text],
    out: &mut OutText,
) -> Result<(), NoMemory>
    ensures text { OnOk result (out.new ≡ spelling (set_name words.now)) }
    ensures asker { OnOk result (asker.new ≡ record asker.old { name = name_after asker.old Verb.SetName words.now }) }
{
    set_name(words, out)?;
    if may_be_name(first(words)) {
        asker.rename(Text::from_slice(alloc, first(words))?);
    }
    Ok(())
}

/// Has the connection carry out a command with these words: the answer, where it is known, the name that the command
/// gives the connection, which protocol it speaks and whether its client gave the password then, and which clients are
/// to be closed.
fn execute(
    alloc: Global,
    roster: &Roster,
    asker: &mut ClientInfo,
    verb: Verb,
    words: &[Text],
    out: &mut OutText,
) -> Result<(), NoMemory>
    ensures text { OnOk result (out.new ≡ text_of (executed roster.now asker.old verb words.now)) }
    ensures asker { OnOk result (asker.new ≡ record asker.old {
      name = name_after asker.old verb words.now;
      protocol = protocol_after asker.old verb words.now;
      admitted = admitted_after asker.old verb words.now;
      port = record asker.old.port { killed = killed_after asker.old verb words.now };
    }) }
{
    match verb {
        Verb::Ping => say_bulk(out, first(words)),
        Verb::Hello => greet(alloc, asker, words, out),
        Verb::Auth => log_in(asker, words, out),
        Verb::SetName => rename(alloc, asker, words, out),
        Verb::SetInfo => say(out, b"+OK\r\n"),
        Verb::GetName => get_name(asker.name(), out),
        Verb::Id => say_number(out, asker.id()),
        Verb::OfClients => client_list(alloc, asker, words, out),
        Verb::Own => own_line(alloc, asker, out),
        Verb::Kill => kill(alloc, asker, words, out),
        Verb::NoEvict => no_evict(words, out),
        Verb::Reply => reply(words, out),
        Verb::HelpOfClient => client_help(out),
        Verb::Commands => say_table(out),
        Verb::Docs => command_docs(alloc, words, out),
        Verb::Count => say_number(out, families().len() as u64),
        Verb::InfoOfCommands => command_info(words, out),
        Verb::ListOfCommands => command_list(alloc, words, out),
        Verb::HelpOfCommand => command_help(out),
        Verb::Role => role(roster.masters(), out),
        Verb::Publish => publish(words, out),
        Verb::Info => answer_info(alloc, asker, words, out),
        Verb::Sentinel(sub) => sentinel_told(alloc, asker, roster, sub, words, out),
    }
}

/// What becomes of a command of a connection that doesn't listen.
fn kind_of(verb: Verb, words: &[Text]) -> Courtesy
    ensures { (roster : Roster) (asker : ClientInfo) → result ≡ kind_of (executed roster asker verb words.now) }
{
    match verb {
        Verb::Info => kind_of_info(words),
        _ => Courtesy::Said,
    }
}

/// What becomes of INFO with these words.
fn kind_of_info(words: &[Text]) -> Courtesy
    ensures { (asker : ClientInfo) → result ≡ kind_of (info_answer asker words.now) }
{
    if asks_sentinel(words) {
        Courtesy::AsksInfo
    } else {
        Courtesy::Said
    }
}

/// Whether a client gives its password by the command with this name.
fn is_for_strangers(name: &[u8]) -> bool
    ensures { result ≡ is_for_strangers name.now }
{
    is_called(b"auth", name) || is_called(b"hello", name)
}

/// Whether its client didn't give the password that is wanted, and has no command with this name before it does.
fn is_barred(asker: &ClientInfo, name: &[u8]) -> bool
    ensures { result ≡ is_barred asker.now name.now }
{
    asker.is_stranger() && !is_for_strangers(name)
}

/// What becomes of a command with these words.
fn answer_known(
    alloc: Global,
    roster: &Roster,
    asker: &mut ClientInfo,
    verb: Verb,
    words: &[Text],
    out: &mut OutText,
) -> Result<Courtesy, NoMemory>
    ensures kind { IfOk result (λ kind. kind ≡ kind_of (answered roster.now asker.old (known verb words.now))) }
    ensures text { OnOk result (out.new ≡ text_of (answered roster.now asker.old (known verb words.now))) }
    ensures asker { OnOk result (asker.new ≡ record asker.old {
      name = named asker.old (known verb words.now);
      protocol = protocol_by asker.old (known verb words.now);
      admitted = admitted_by asker.old (known verb words.now);
      port = record asker.old.port { killed = killed_by asker.old (known verb words.now) };
    }) }
{
    if asker.listens() {
        answer_listener(verb, words, out)?;
        return Ok(Courtesy::Said);
    }
    execute(alloc, roster, asker, verb, words, out)?;
    Ok(kind_of(verb, words))
}

/// What becomes of a value that the rules of the Sentinel answer: it is left to them, once the client gave the password
/// that is wanted.
fn leave(asker: &ClientInfo, out: &mut OutText) -> Result<Courtesy, NoMemory>
    requires { out.old ≡ [] }
    ensures kind { IfOk result (λ kind. kind ≡ kind_of (unless_stranger asker.now left)) }
    ensures text { OnOk result (out.new ≡ text_of (unless_stranger asker.now left)) }
{
    if asker.is_stranger() {
        say(out, NO_AUTH)?;
        return Ok(Courtesy::Said);
    }
    Ok(Courtesy::Left)
}

/// What becomes of these words, which the Sentinel's rules call unknown or refuse for their number. Before the password
/// that is wanted AUTH and HELLO alone are looked up.
#[tactic(auto, using(crate::proofs::Lookups::known_is, crate::proofs::Lookups::refused_kind, crate::proofs::Lookups::refused_text, crate::proofs::Lookups::refused_name, crate::proofs::Lookups::refused_kills, crate::proofs::Lookups::refused_protocol, crate::proofs::Lookups::refused_same))]
fn answer_words(
    alloc: Global,
    roster: &Roster,
    asker: &mut ClientInfo,
    miscounted: bool,
    words: &[Text],
    out: &mut OutText,
) -> Result<Courtesy, NoMemory>
    requires { out.old ≡ [] }
    ensures kind { IfOk result (λ kind. kind ≡ kind_of (or_left roster.now asker.old (looked_up_in asker.old miscounted words.now))) }
    ensures text { OnOk result (out.new ≡ text_of (or_left roster.now asker.old (looked_up_in asker.old miscounted words.now))) }
    ensures asker { OnOk result (asker.new ≡ record asker.old {
      name = or_same asker.old (looked_up_in asker.old miscounted words.now);
      protocol = or_protocol asker.old (looked_up_in asker.old miscounted words.now);
      admitted = or_admitted asker.old (looked_up_in asker.old miscounted words.now);
      port = record asker.old.port { killed = or_killed asker.old (looked_up_in asker.old miscounted words.now) };
    }) }
{
    let Some((name, more)) = words.split_first() else {
        return leave(asker, out);
    };
    if names_channels(words) || is_barred(asker, name.as_slice()) {
        return leave(asker, out);
    }
    match looked_up(miscounted, name.as_slice(), more, out)? {
        Some((verb, args)) => answer_known(alloc, roster, asker, verb, args, out),
        None => Ok(Courtesy::Said),
    }
}

/// Whether there are no items.
#[tactic(auto, using(crate::proofs::Silence::by_count))]
fn are_none(items: &[Value]) -> bool
    ensures { result ≡ asks_nothing (frames.items (frames_view items.now)) }
{
    items.is_empty()
}

/// Whether the value is an array without items.
fn asks_nothing(value: &Value) -> bool
    ensures { result ≡ asks_nothing (view value.now) }
{
    match value {
        Value::Items(items) => are_none(items.as_slice()),
        Value::NullItems => true,
        _ => false,
    }
}

/// What becomes of a value that asks for something.
fn reply_to(
    alloc: Global,
    roster: &Roster,
    asker: &mut ClientInfo,
    value: &Value,
    out: &mut OutText,
) -> Result<Courtesy, NoMemory>
    requires { out.old ≡ [] }
    ensures kind { IfOk result (λ kind. kind ≡ kind_of (reply_to roster.now asker.old (view value.now))) }
    ensures text { OnOk result (out.new ≡ text_of (reply_to roster.now asker.old (view value.now))) }
    ensures asker { OnOk result (asker.new ≡ asker_after asker.old (view value.now)) }
{
    let asked = redis_command_of(value);
    if !is_refused(&asked) {
        return leave(asker, out);
    }
    let words = words_of(alloc, value)?;
    let miscounted = is_miscounted(&asked);
    answer_words(alloc, roster, asker, miscounted, words.as_slice(), out)
}

/// What becomes of a value of a connection, by the table in docs/CLIENTS.md, where the Sentinel has this roster: `out`
/// is the answer where one is told, and empty elsewhere. The connection has the name that the value gives it; it is
/// known whether its client gave the password, and which clients of its port are to be closed; all else that is known
/// of it stays. One value has at most one answer, and one that the Sentinel's rules answer, be it by a command or by
/// the fault of a word, is left to them, once the client gave the password that is wanted. An array without items has
/// no answer: it is `Said`, and `out` is empty.
///
/// NoMemory: memory was refused; what `out` then holds, what name the connection has and whether its client is admitted
/// isn't told.
#[tactic(auto, using(crate::proofs::Silence::same_after_nothing))]
pub fn courtesy_of(
    alloc: Global,
    asker: &mut ClientInfo,
    value: &Value,
    roster: &Roster,
    out: &mut OutText,
) -> Result<Courtesy, NoMemory>
    ensures kind { IfOk result (λ kind. kind ≡ kind_of (courtesy roster.now asker.old (view value.now))) }
    ensures text { OnOk result (out.new ≡ text_of (courtesy roster.now asker.old (view value.now))) }
    ensures asker { OnOk result (asker.new ≡ asker_after asker.old (view value.now)) }
{
    out.clear();
    if asks_nothing(value) {
        return Ok(Courtesy::Said);
    }
    reply_to(alloc, roster, asker, value, out)
}
