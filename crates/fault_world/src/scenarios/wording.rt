//! The words of a message.

ghost use Rattle.node_texts.specs.Messages.MessageTexts.{IsWritable};

use ballot_law::{Message, NoMemory};
use node_texts::message_text;
use resp2::{FrameFault, Frames, OutText, Value};
use std::alloc::Global;
use tokens::split_line;

/// Adds a word, behind a space where it isn't the first.
fn add_word(text: &mut OutText, word: &[u8]) -> Result<(), NoMemory> {
    if text.len() > 0 {
        text.add(b" ")?;
    }
    text.add(word)
}

/// Adds the lines of a text as words, without the empty ones.
fn add_lines(text: &mut OutText, lines: &[u8]) -> Result<(), NoMemory> {
    let mut rest = lines;
    while !rest.is_empty() {
        let (line, more) = split_line(rest);
        let line = line.strip_suffix(b"\r").unwrap_or(line);
        if !line.is_empty() {
            add_word(text, line)?;
        }
        rest = more;
    }
    Ok(())
}

/// Adds a number as a word.
fn add_int(alloc: Global, text: &mut OutText, number: i64) -> Result<(), NoMemory> {
    let word = format!(in alloc; "{number}")?;
    add_word(text, word.as_bytes())
}

/// Adds the words of a value.
#[cycle(words)]
fn add_value(alloc: Global, text: &mut OutText, value: &Value) -> Result<(), NoMemory> {
    match value {
        Value::Simple(word) => add_word(text, word.as_slice()),
        Value::Fault(word) => add_word(text, word.as_slice()),
        Value::Int(number) => add_int(alloc, text, *number),
        Value::Bulk(lines) => add_lines(text, lines.as_slice()),
        Value::NullBulk => add_word(text, b"(nil)"),
        Value::Items(items) => add_values(alloc, text, items),
        Value::NullItems => add_word(text, b"(nil)"),
    }
}

/// Adds the words of each value.
#[cycle(words)]
fn add_values(alloc: Global, text: &mut OutText, items: &Vec<Value>) -> Result<(), NoMemory> {
    for item in items {
        add_value(alloc, text, item)?;
    }
    Ok(())
}

/// The value that the bytes spell; none where a reader would refuse them, as an answer that is longer than a frame.
fn value_of(alloc: Global, bytes: &[u8]) -> Result<Option<Value>, NoMemory> {
    let mut frames = Frames::new(alloc);
    if frames.feed(bytes).is_err() {
        return Err(NoMemory);
    }
    match frames.next() {
        Ok(value) => Ok(value),
        Err(FrameFault::NoMemory) => Err(NoMemory),
        Err(_) => Ok(None),
    }
}

/// The words of a message with a space between two: those of its command, or the texts and numbers of its reply. A
/// reply that is too long for a reader stands as its bytes.
///
/// The caller sees to it that the message can be written. `NoMemory` leaves nothing.
pub fn words_of(alloc: Global, message: &Message) -> Result<OutText, NoMemory>
    requires { IsWritable message.now.body }
{
    let mut bytes = OutText::new(alloc);
    message_text(alloc, message, &mut bytes)?;
    match value_of(alloc, bytes.as_slice())? {
        Some(value) => {
            let mut text = OutText::new(alloc);
            add_value(alloc, &mut text, &value)?;
            Ok(text)
        }
        None => Ok(bytes),
    }
}
