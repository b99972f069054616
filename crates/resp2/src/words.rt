//! The words of a command, as its value has them, and as they are written.

ghost use Rattle.std.specs.Prelude.{◌≡◌, ◌++◌, map, IfOk, OnOk, OnErr};
ghost use Rattle.resp2.specs.Commands as commands;
ghost use Rattle.resp2.specs.Commands.{bulks};
ghost use Rattle.resp2.specs.Framing.Frame as frames;
ghost use Rattle.resp2.specs.Framing.Frame.{view, frames_view, spelling};
ghost use Rattle.resp2.specs.Framing.Writing.{Begins};

use crate::framing::{ByteSink, Value, push_bulk, push_size};
use ballot_law::{NoMemory, Text};
use std::alloc::Global;

/// Whether the value is a bulk string.
fn is_bulk(value: &Value) -> bool
    ensures { result ≡ commands.is_bulk (view value.now) }
{
    matches!(value, Value::Bulk(_))
}

/// Whether all items of an array are bulk strings, as those of a command are.
pub fn are_bulk(items: &[Value]) -> bool
    ensures { result ≡ commands.are_bulk (frames_view items.now) }
{
    for item in items {
        if !is_bulk(item) {
            return false;
        }
    }
    true
}

/// The bytes of a bulk string, and none of any other value.
pub fn word_of(value: &Value) -> &[u8]
    ensures { result.now ≡ commands.word (view value.now) }
{
    match value {
        Value::Bulk(bytes) => bytes.as_slice(),
        _ => &[],
    }
}

/// The words that the items of an array are, one an item: those of a command where `are_bulk` says so. The error is a
/// refused allocation.
pub fn words_of_items(alloc: Global, items: &[Value]) -> Result<Vec<Text>, NoMemory>
    ensures { IfOk result (λ words. words.items ≡ commands.words (frames_view items.now)) }
{
    let mut words = Vec::new(alloc);
    let mut rest = items;
    while let [value, more @ ..] = rest {
        words.push(Text::from_slice(alloc, word_of(value))?)?;
        rest = more;
    }
    Ok(words)
}

/// Adds an array of these words, each of them a bulk string. Where they have no room the answer is `NoMemory`: then
/// what is held begins with what was held.
pub fn push_words<S: ByteSink>(sink: &mut S, words: &[&[u8]]) -> Result<(), NoMemory>
    ensures ok { OnOk result (S.bytes sink.new
        ≡ S.bytes sink.old ++ spelling (frames.items (bulks (map (λ word. word.now) words.now)))) }
    ensures err { OnErr result (Begins (S.bytes sink.old) (S.bytes sink.new)) }
{
    push_size(sink, b'*', words.len())?;
    for word in words {
        push_bulk(sink, word)?;
    }
    Ok(())
}
