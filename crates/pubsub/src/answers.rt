//! The commands that a connection's subscriptions answer.

ghost use Rattle.std.specs.Prelude.{◌≡◌, ◌++◌, [], false, IfOk, OnOk};
ghost use Rattle.resp2.specs.Framing.Frame.{view, frames_view, fault, bulk, items, spelling};
ghost use Rattle.pubsub.specs.Answering.{other, wrong_arguments, not_while_listening, pong, adds, removes, pings, executed, own, answer_words, answer, turn_of, text_of, listening_after};

use crate::fault::ChannelFault;
use crate::kind::Kind;
use crate::subscriptions::Subscriptions;
use crate::verb::{Verb, verb_of};
use crate::words_in::{is_own, lower_second};
use ballot_law::{NoMemory, Text};
use resp2::{OutText, Value, are_bulk, push_bulk, redis_command_of, words_of_items};

/// What becomes of a value.
#[derive(Clone, Copy, Debug, PartialEq, Eq)]
pub enum Turn {
    /// It is nothing of a connection's subscriptions.
    Other,
    /// It is answered.
    Said,
}

/// The answer is an error, a word between two texts.
fn say_fault(out: &mut OutText, before: &[u8], word: &[u8], after: &[u8]) -> Result<(), NoMemory>
    ensures { OnOk result (out.new ≡ spelling (fault (before.now ++ (word.now ++ after.now)))) }
{
    out.clear();
    out.add(b"-")?;
    out.add(before)?;
    out.add(word)?;
    out.add(after)?;
    out.add(b"\r\n")
}

/// The answer is an error with this text.
fn say_refusal(out: &mut OutText, text: &[u8]) -> Result<(), NoMemory>
    ensures { OnOk result (out.new ≡ spelling (fault text.now)) }
{
    out.clear();
    out.add(b"-")?;
    out.add(text)?;
    out.add(b"\r\n")
}

/// The answer is that the command with this name has another number of words. `NoMemory`: memory was refused, and what
/// `out` then holds isn't told.
pub fn say_wrong_arguments(out: &mut OutText, name: &[u8]) -> Result<(), NoMemory>
    ensures { OnOk result (out.new ≡ spelling (wrong_arguments name.now)) }
{
    say_fault(
        out,
        b"ERR wrong number of arguments for '",
        name,
        b"' command",
    )
}

/// A connection that listens has no answer to the subcommand of SENTINEL with this name.
fn say_not_while_listening(out: &mut OutText, name: &[u8]) -> Result<(), NoMemory>
    ensures { OnOk result (out.new ≡ spelling (not_while_listening name.now)) }
{
    say_fault(
        out,
        b"ERR Can't execute 'sentinel|",
        name,
        b"': only (P|S)SUBSCRIBE / (P|S)UNSUBSCRIBE / PING / QUIT / RESET are allowed in this context",
    )
}

/// The answer is a word after a text.
fn say_after(out: &mut OutText, front: &[u8], word: &[u8]) -> Result<(), NoMemory>
    ensures { OnOk result (out.new ≡ front.now ++ spelling (bulk word.now)) }
{
    out.clear();
    out.add(front)?;
    push_bulk(out, word)
}

/// The answer to PING of a connection that listens.
fn say_pong(out: &mut OutText, text: &[u8]) -> Result<(), NoMemory>
    ensures { OnOk result (out.new ≡ spelling (pong text.now)) }
{
    say_after(out, b"*2\r\n$4\r\npong\r\n", text)
}

impl Subscriptions {
    /// SUBSCRIBE or PSUBSCRIBE with these names.
    fn adds(&mut self, kind: Kind, names: &[Text], out: &mut OutText) -> Result<Turn, NoMemory>
        ensures turn { IfOk result (λ turn. turn ≡ turn_of (adds kind names.now self.old)) }
        ensures text { OnOk result (out.new ≡ text_of (adds kind names.now self.old)) }
        ensures after { OnOk result (self.new ≡ listening_after self.old (adds kind names.now self.old)) }
    {
        if names.is_empty() {
            say_wrong_arguments(out, kind.add_verb())?;
            return Ok(Turn::Said);
        }
        match self.add(kind, names, out) {
            Ok(()) => Ok(Turn::Said),
            Err(ChannelFault::NoMemory) => Err(NoMemory),
            Err(fault) => {
                say_refusal(out, fault.text())?;
                Ok(Turn::Said)
            }
        }
    }

    /// UNSUBSCRIBE or PUNSUBSCRIBE with these names.
    fn removes(&mut self, kind: Kind, names: &[Text], out: &mut OutText) -> Result<Turn, NoMemory>
        ensures turn { IfOk result (λ turn. turn ≡ turn_of (removes kind names.now self.old)) }
        ensures text { OnOk result (out.new ≡ text_of (removes kind names.now self.old)) }
        ensures after { OnOk result (self.new ≡ listening_after self.old (removes kind names.now self.old)) }
    {
        match kind {
            Kind::Channels => self.unsubscribe(names, out)?,
            Kind::Patterns => self.punsubscribe(names, out)?,
        }
        Ok(Turn::Said)
    }

    /// PING with these words.
    fn pings(&self, words: &[Text], out: &mut OutText) -> Result<Turn, NoMemory>
        requires { out.old ≡ [] }
        ensures turn { IfOk result (λ turn. turn ≡ turn_of (executed Verb.Pings words.now self.now)) }
        ensures text { OnOk result (out.new ≡ text_of (executed Verb.Pings words.now self.now)) }
        ensures after { self.now ≡ listening_after self.now (executed Verb.Pings words.now self.now) }
    {
        if !self.is_listening() {
            return Ok(Turn::Other);
        }
        match words {
            [] => say_pong(out, b"")?,
            [text] => say_pong(out, text.as_slice())?,
            _ => return Ok(Turn::Other),
        }
        Ok(Turn::Said)
    }

    /// A command with these words after its name.
    fn execute(&mut self, verb: Verb, words: &[Text], out: &mut OutText) -> Result<Turn, NoMemory>
        requires { out.old ≡ [] }
        ensures turn { IfOk result (λ turn. turn ≡ turn_of (executed verb words.now self.old)) }
        ensures text { OnOk result (out.new ≡ text_of (executed verb words.now self.old)) }
        ensures after { OnOk result (self.new ≡ listening_after self.old (executed verb words.now self.old)) }
    {
        match verb {
            Verb::Adds(kind) => self.adds(kind, words, out),
            Verb::Removes(kind) => self.removes(kind, words, out),
            Verb::Pings => self.pings(words, out),
        }
    }

    /// A command of the Sentinel's rules with these words, or one that they don't know.
    fn refuse_own(
        &self,
        is_of_rules: bool,
        words: &[Text],
        out: &mut OutText,
    ) -> Result<Turn, NoMemory>
        requires { out.old ≡ [] }
        ensures turn { IfOk result (λ turn. turn ≡ turn_of (own is_of_rules words.now self.now)) }
        ensures text { OnOk result (out.new ≡ text_of (own is_of_rules words.now self.now)) }
        ensures after { self.now ≡ listening_after self.now (own is_of_rules words.now self.now) }
    {
        if !is_of_rules || !self.is_listening() {
            return Ok(Turn::Other);
        }
        let name = lower_second(self.alloc(), words)?;
        say_not_while_listening(out, name.as_slice())?;
        Ok(Turn::Said)
    }

    /// The words of a command, which the Sentinel's rules know or don't.
    fn answer_words(
        &mut self,
        is_of_rules: bool,
        words: &[Text],
        out: &mut OutText,
    ) -> Result<Turn, NoMemory>
        requires { out.old ≡ [] }
        ensures turn { IfOk result (λ turn. turn ≡ turn_of (answer_words is_of_rules words.now self.old)) }
        ensures text { OnOk result (out.new ≡ text_of (answer_words is_of_rules words.now self.old)) }
        ensures after { OnOk result (self.new ≡ listening_after self.old (answer_words is_of_rules words.now self.old)) }
    {
        let Some((name, rest)) = words.split_first() else {
            return Ok(Turn::Other);
        };
        match verb_of(name.as_slice()) {
            Some(verb) => self.execute(verb, rest, out),
            None => self.refuse_own(is_of_rules, words, out),
        }
    }

    /// Whether the command of these items may be answered, which its name tells before anything is copied: nearly all
    /// that a client sends isn't.
    fn may_answer(&self, values: &[Value]) -> bool
        ensures { result ≡ false → answer (items (frames_view values.now)) self.now ≡ other }
    {
        let [Value::Bulk(name), ..] = values else {
            return false;
        };
        match verb_of(name.as_slice()) {
            Some(Verb::Adds(_) | Verb::Removes(_)) => true,
            _ => self.is_listening(),
        }
    }

    /// Answers a value of the connection, as redis-sentinel 7.0.15 does: SUBSCRIBE, UNSUBSCRIBE, PSUBSCRIBE and
    /// PUNSUBSCRIBE, and where the connection listens, PING in its form for Pub/Sub, and the refusal of the Sentinel's
    /// own commands. `Said`: `out` is the answer, of one or more values. `Other`: `out` is empty and nothing changes;
    /// the value is for the courtesies of the port and the rules of the Sentinel.
    ///
    /// `NoMemory`: memory was refused. What `out` then holds isn't told, and some of the names of UNSUBSCRIBE or
    /// PUNSUBSCRIBE may be removed; the connection is to be closed.
    pub fn answer(&mut self, value: &Value, out: &mut OutText) -> Result<Turn, NoMemory>
        ensures turn { IfOk result (λ turn. turn ≡ turn_of (answer (view value.now) self.old)) }
        ensures text { OnOk result (out.new ≡ text_of (answer (view value.now) self.old)) }
        ensures after { OnOk result (self.new ≡ listening_after self.old (answer (view value.now) self.old)) }
    {
        out.clear();
        let Value::Items(items) = value else {
            return Ok(Turn::Other);
        };
        if !self.may_answer(items.as_slice()) || !are_bulk(items.as_slice()) {
            return Ok(Turn::Other);
        }
        let is_of_rules = is_own(&redis_command_of(value));
        let words = words_of_items(self.alloc(), items.as_slice())?;
        self.answer_words(is_of_rules, words.as_slice(), out)
    }
}
