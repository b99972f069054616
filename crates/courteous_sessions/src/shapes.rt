//! As what protocol 3 tells the answer to a value.

ghost use Rattle.std.specs.Prelude.{◌≡◌};
ghost use Rattle.pubsub.specs.Answering.{is_called};
ghost use Rattle.resp2.specs.Framing.Frame.{view, frames_view};
ghost use Rattle.courteous_sessions.specs.Retelling.{shape_of_command, shape_of_sentinel, shape_of_client, shape_of_table, shape_of_words, items_of, first_of, second_of, first_word, second_word, shape_of_asked, shape_of, is_subscribing};
ghost use Rattle.resp2.specs.Commands.{redis_command_of};

use ballot_law::Command;
use resp2::{Value, redis_command_of, word_of};

/// As what protocol 3 tells an answer of protocol 2.
#[derive(Clone, Copy)]
pub(crate) enum Shape {
    /// As it is, but for a null alone.
    Plain,
    /// As it is, and each null in it as a null of protocol 3.
    Whole,
    /// An array of names and values as a map.
    Pairs,
    /// An array of such arrays as an array of maps.
    Tables,
    /// A text as a verbatim string.
    Verbatim,
    /// Each array as a push.
    Pushes,
    /// An array of rows of commands, with sets in them.
    Rows,
    /// Names and descriptions of commands, with maps and sets in them.
    Docs,
}

/// Whether the word is this name, whatever the case of its letters.
fn is_called(name: &[u8], word: &[u8]) -> bool
    ensures { result ≡ is_called name.now word.now }
{
    word.eq_ignore_ascii_case(name)
}

/// As what the answer to a command of the Sentinel's rules is told.
fn shape_of_command(command: &Command) -> Shape
    ensures { result ≡ shape_of_command command.now }
{
    match command {
        Command::Master(_) => Shape::Pairs,
        Command::Masters => Shape::Tables,
        Command::Replicas(_) => Shape::Tables,
        Command::Sentinels(_) => Shape::Tables,
        Command::Ping => Shape::Plain,
        Command::IsMasterDownByAddr { .. } => Shape::Plain,
        Command::GetMasterAddrByName(_) => Shape::Plain,
        Command::MyId => Shape::Plain,
        Command::CkQuorum(_) => Shape::Plain,
        Command::Failover(_) => Shape::Plain,
        Command::FlushConfig => Shape::Plain,
        Command::Subscribe => Shape::Plain,
        Command::Info => Shape::Plain,
    }
}

/// The same of a subcommand of SENTINEL that they don't know.
fn shape_of_sentinel(word: &[u8]) -> Shape
    ensures { result ≡ shape_of_sentinel word.now }
{
    if is_called(b"config", word) {
        return Shape::Pairs;
    }
    if is_called(b"info-cache", word) {
        return Shape::Whole;
    }
    Shape::Plain
}

/// The same of a subcommand of CLIENT.
fn shape_of_client(word: &[u8]) -> Shape
    ensures { result ≡ shape_of_client word.now }
{
    if is_called(b"list", word) || is_called(b"info", word) {
        return Shape::Verbatim;
    }
    Shape::Plain
}

/// The same of COMMAND, where no word comes after it, or of its subcommand with this name.
fn shape_of_table(word: &[u8]) -> Shape
    ensures { result ≡ shape_of_table word.now }
{
    if is_called(b"docs", word) {
        return Shape::Docs;
    }
    if is_called(b"info", word) || is_called(b"", word) {
        return Shape::Rows;
    }
    Shape::Plain
}

/// The same of a command that the rules don't know, with this name and this word after it.
fn shape_of_words(name: &[u8], word: &[u8]) -> Shape
    ensures { result ≡ shape_of_words name.now word.now }
{
    if is_called(b"hello", name) {
        return Shape::Pairs;
    }
    if is_called(b"sentinel", name) {
        return shape_of_sentinel(word);
    }
    if is_called(b"client", name) {
        return shape_of_client(word);
    }
    if is_called(b"command", name) {
        return shape_of_table(word);
    }
    Shape::Plain
}

/// The items of an array, and none of any other value.
fn items_of(value: &Value) -> &[Value]
    ensures { frames_view result.now ≡ items_of (view value.now) }
{
    match value {
        Value::Items(items) => items.as_slice(),
        _ => &[],
    }
}

/// The bytes of the first item; none where there is no item.
fn first_of(items: &[Value]) -> &[u8]
    ensures { result.now ≡ first_of (frames_view items.now) }
{
    match items.split_first() {
        Some((value, _)) => word_of(value),
        None => &[],
    }
}

/// The bytes of the second item; none where there is none.
fn second_of(items: &[Value]) -> &[u8]
    ensures { result.now ≡ second_of (frames_view items.now) }
{
    match items.split_first() {
        Some((_, more)) => first_of(more),
        None => &[],
    }
}

/// The name of a command; no bytes where there is none.
#[tactic(auto, using(crate::proofs::Retold::first_as))]
fn first_word(value: &Value) -> &[u8]
    ensures { result.now ≡ first_word (view value.now) }
{
    first_of(items_of(value))
}

/// The word after it; no bytes where there is none.
#[tactic(auto, using(crate::proofs::Retold::second_as))]
fn second_word(value: &Value) -> &[u8]
    ensures { result.now ≡ second_word (view value.now) }
{
    second_of(items_of(value))
}

/// Whether the command with this name changes to what a connection listens.
fn is_subscribing(name: &[u8]) -> bool
    ensures { result ≡ is_subscribing name.now }
{
    is_called(b"subscribe", name)
        || is_called(b"unsubscribe", name)
        || is_called(b"psubscribe", name)
        || is_called(b"punsubscribe", name)
}

/// Whether the value is such a command.
pub(crate) fn subscribes(value: &Value) -> bool
    ensures { result ≡ is_subscribing (first_word (view value.now)) }
{
    is_subscribing(first_word(value))
}

/// As what the answer to a value that is none of those is told.
fn shape_of_asked(value: &Value) -> Shape
    ensures { result ≡ shape_of_asked (redis_command_of (view value.now)) (first_word (view value.now)) (second_word (view value.now)) }
{
    match redis_command_of(value) {
        Ok(command) => shape_of_command(&command),
        Err(_) => shape_of_words(first_word(value), second_word(value)),
    }
}

/// As what the answer to a value is told.
pub(crate) fn shape_of(value: &Value) -> Shape
    ensures { result ≡ shape_of (view value.now) }
{
    if subscribes(value) {
        return Shape::Pushes;
    }
    shape_of_asked(value)
}
