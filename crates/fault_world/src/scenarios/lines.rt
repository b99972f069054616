//! What a line tells, by its first word.

ghost use Rattle.std.specs.Prelude.{◌≡◌, ◌⊎◌, Err, Some, None, IfOk, MatchResult};
ghost use Rattle.resp2.specs.Commands.{bulks, command_of, redis_command_of};
ghost use Rattle.sentinel_rules.specs.Profiles.{by_profile};
ghost use Rattle.ballot_law.specs.Limits.{IsWithin};
ghost use Rattle.resp2.specs.Framing.Frame.{frames_view, view};
ghost use Rattle.fault_world.specs.declared.scenarios.faults.ScenarioKind.TheVariants.{WrongWords, NoMemory};
ghost use Rattle.fault_world.specs.Scenarios.Scenarios.{tick_row, deliver_row, set_row, store_row, release_row, done_row, stop_row, start_row, answer_row, stored, row_line, table, named, command_of_words, command_line, line_of};
ghost use Rattle.fault_world.specs.Scenarios.Read.{words_left, told_line};
ghost use Rattle.fault_world.specs.Scenarios.Within.{IsWithinStep, IsWithinTold};

use crate::scenarios::arguments::{
    check_node, kept_word, node_word, number_word, place_word, store_word,
};
use crate::scenarios::faults::ScenarioKind;
use crate::scenarios::line_words::{four_words, next_word, one_word, two_words};
use crate::scenarios::told::Told;
use ballot_law::{Command, Event, Input, KeptText, NodeName, Step, Text};
use resp2::{CommandFault, Value, command_of, redis_command_of};
use sentinel_rules::Profile;
use std::alloc::Global;

/// The greatest amount that `set` gives: what a data node's INFO shows is no greater.
const AMOUNT_MAX: u64 = 9_223_372_036_854_775_807;

/// `tick <node> <master> <now> <random>`.
fn tick(args: Option<&[u8]>) -> Result<Told, ScenarioKind>
    ensures line { told_line result ≡ row_line tick_row (words_left args.entry) }
    ensures within { IfOk result IsWithinTold }
{
    let (node, master, now, random) = four_words(args)?;
    check_node(node)?;
    let node = node_word(node)?;
    let master = place_word(master)?;
    let now = number_word(now, u64::MAX)?;
    let random = number_word(random, u64::MAX)?;
    let event = Event::Tick { master, random };
    Ok(Told::One(Step::Take {
        node,
        input: Input { now, event },
    }))
}

/// `deliver <message> <now>`.
fn deliver(args: Option<&[u8]>) -> Result<Told, ScenarioKind>
    ensures line { told_line result ≡ row_line deliver_row (words_left args.entry) }
    ensures within { IfOk result IsWithinTold }
{
    let (message, now) = two_words(args)?;
    let message = number_word(message, u64::MAX)?;
    let now = number_word(now, u64::MAX)?;
    Ok(Told::One(Step::Deliver { message, now }))
}

/// `set <node> <priority> <offset> <link down s>`.
fn set(args: Option<&[u8]>) -> Result<Told, ScenarioKind>
    ensures line { told_line result ≡ row_line set_row (words_left args.entry) }
    ensures within { IfOk result IsWithinTold }
{
    let (node, priority, offset, link_down) = four_words(args)?;
    check_node(node)?;
    let node = node_word(node)?;
    let priority = number_word(priority, AMOUNT_MAX)?;
    let offset = number_word(offset, AMOUNT_MAX)?;
    let link_down = number_word(link_down, AMOUNT_MAX)?;
    let event = Event::Become {
        priority,
        offset,
        link_down,
    };
    Ok(Told::One(Step::Take {
        node,
        input: Input { now: 0, event },
    }))
}

/// The store of a node, or its refusal, which leaves this text.
fn stored(node: NodeName, left: Option<KeptText>) -> Step
    ensures step { result ≡ stored node left }
    ensures within { IsWithinStep result }
{
    match left {
        None => Step::Store { node },
        Some(left) => Step::StoreRefused { node, left },
    }
}

/// `store <node> ok|old|new`.
fn store(args: Option<&[u8]>) -> Result<Told, ScenarioKind>
    ensures line { told_line result ≡ row_line store_row (words_left args.entry) }
    ensures within { IfOk result IsWithinTold }
{
    let (node, how) = two_words(args)?;
    check_node(node)?;
    let left = store_word(how)?;
    let node = node_word(node)?;
    Ok(Told::One(stored(node, left)))
}

/// `release <node>`.
fn release(args: Option<&[u8]>) -> Result<Told, ScenarioKind>
    ensures line { told_line result ≡ row_line release_row (words_left args.entry) }
    ensures within { IfOk result IsWithinTold }
{
    let node = one_word(args)?;
    check_node(node)?;
    let node = node_word(node)?;
    Ok(Told::One(Step::Release { node }))
}

/// `done <node>`: a store and the release behind it.
fn done(args: Option<&[u8]>) -> Result<Told, ScenarioKind>
    ensures line { told_line result ≡ row_line done_row (words_left args.entry) }
    ensures within { IfOk result IsWithinTold }
{
    let node = one_word(args)?;
    check_node(node)?;
    let node = node_word(node)?;
    Ok(Told::Two(Step::Store { node }, Step::Release { node }))
}

/// `stop <node> old|new`.
fn stop(args: Option<&[u8]>) -> Result<Told, ScenarioKind>
    ensures line { told_line result ≡ row_line stop_row (words_left args.entry) }
    ensures within { IfOk result IsWithinTold }
{
    let (node, left) = two_words(args)?;
    check_node(node)?;
    let left = kept_word(left)?;
    let node = node_word(node)?;
    Ok(Told::One(Step::Stop { node, left }))
}

/// `start <node> <now>`.
fn start(args: Option<&[u8]>) -> Result<Told, ScenarioKind>
    ensures line { told_line result ≡ row_line start_row (words_left args.entry) }
    ensures within { IfOk result IsWithinTold }
{
    let (node, now) = two_words(args)?;
    check_node(node)?;
    let node = node_word(node)?;
    let now = number_word(now, u64::MAX)?;
    Ok(Told::One(Step::Start { node, now }))
}

/// `answer <node> <master>`.
fn answer(args: Option<&[u8]>) -> Result<Told, ScenarioKind>
    ensures line { told_line result ≡ row_line answer_row (words_left args.entry) }
    ensures within { IfOk result IsWithinTold }
{
    let (node, master) = two_words(args)?;
    check_node(node)?;
    let node = node_word(node)?;
    let master = place_word(master)?;
    Ok(Told::One(Step::Answer { node, master }))
}

/// These words as the bulk strings of a value.
fn bulk_strings(alloc: Global, words: Option<&[u8]>) -> Result<Vec<Value>, ScenarioKind>
    ensures { MatchResult result (λ values. frames_view values.items ≡ bulks (words_left words.entry))
        (λ kind. kind ≡ NoMemory) }
{
    let mut values = Vec::new(alloc);
    let mut rest = words;
    while let Some((word, more)) = next_word(rest) {
        values.push(Value::Bulk(Text::from_slice(alloc, word)?))?;
        rest = more;
    }
    Ok(values)
}

/// The command that a value spells at a port of this profile.
fn asked_of(value: &Value, profile: Profile) -> Result<Command, CommandFault>
    ensures within { IfOk result IsWithin }
    ensures command { result ≡ by_profile profile (command_of (view value.now)) (redis_command_of (view value.now)) }
{
    match profile {
        Profile::Strict => command_of(value),
        Profile::Redis => redis_command_of(value),
    }
}

/// The command of a port of this profile that these words are.
fn port_command(
    alloc: Global,
    words: Option<&[u8]>,
    profile: Profile,
) -> Result<Command, ScenarioKind>
    ensures within { IfOk result IsWithin }
    ensures command { MatchResult result (λ command. command_of_words profile (words_left words.entry) ≡ Some command)
        (λ kind. (kind ≡ NoMemory)
        ⊎ ((kind ≡ WrongWords) × (command_of_words profile (words_left words.entry) ≡ None))) }
{
    let values = bulk_strings(alloc, words)?;
    match asked_of(&Value::Items(values), profile) {
        Ok(command) => Ok(command),
        Err(_) => Err(ScenarioKind::WrongWords),
    }
}

/// `command <node> <now> <word>..`.
fn command(alloc: Global, args: Option<&[u8]>, profile: Profile) -> Result<Told, ScenarioKind>
    ensures line { (result ≡ Err NoMemory) ⊎ (told_line result ≡ command_line profile (words_left args.entry)) }
    ensures within { IfOk result IsWithinTold }
{
    let Some((node, more)) = next_word(args) else {
        return Err(ScenarioKind::WrongWords);
    };
    let Some((now, words)) = next_word(more) else {
        return Err(ScenarioKind::WrongWords);
    };
    check_node(node)?;
    let command = port_command(alloc, words, profile)?;
    let node = node_word(node)?;
    let now = number_word(now, u64::MAX)?;
    let sender = NodeName::PortAt(0);
    let event = Event::Command { sender, command };
    Ok(Told::One(Step::Take {
        node,
        input: Input { now, event },
    }))
}

/// The line of this name, but for `command`.
fn named(name: &[u8], args: Option<&[u8]>) -> Result<Told, ScenarioKind>
    ensures line { told_line result ≡ named table name.now (words_left args.entry) }
    ensures within { IfOk result IsWithinTold }
{
    if name == b"tick".as_slice() {
        tick(args)
    } else if name == b"deliver".as_slice() {
        deliver(args)
    } else if name == b"set".as_slice() {
        set(args)
    } else if name == b"store".as_slice() {
        store(args)
    } else if name == b"release".as_slice() {
        release(args)
    } else if name == b"done".as_slice() {
        done(args)
    } else if name == b"stop".as_slice() {
        stop(args)
    } else if name == b"start".as_slice() {
        start(args)
    } else if name == b"answer".as_slice() {
        answer(args)
    } else {
        Err(ScenarioKind::UnknownStep)
    }
}

/// What a line tells that Sentinels of this profile play.
pub fn line_of(alloc: Global, line: &[u8], profile: Profile) -> Result<Told, ScenarioKind>
    ensures line { (result ≡ Err NoMemory) ⊎ (told_line result ≡ line_of profile line.now) }
    ensures within { IfOk result IsWithinTold }
{
    match line {
        [] => return Ok(Told::Nothing),
        [b'#', ..] => return Ok(Told::Nothing),
        _ => {}
    }
    let Some((name, args)) = next_word(Some(line)) else {
        return Ok(Told::Nothing);
    };
    if name == b"command".as_slice() {
        command(alloc, args, profile)
    } else {
        named(name, args)
    }
}
