//! The command at the front of the bytes of a client.

ghost use Rattle.std.specs.Prelude.{◌≡◌, ◌≤◌, ◌++◌, [], length, option_map, IfOk, OnOk};
ghost use Rattle.resp2.specs.Framing.Frame.{view};
ghost use Rattle.data_node_port.specs.Readings.{words_of, before_end, is_blank, with_word, inline_words};

use ballot_law::{NoMemory, Text};
use resp2::{Value, are_bulk, words_of_items};
use std::alloc::Global;

/// How many bytes a command may have.
pub const COMMAND_MAX: usize = 65_536;

/// The words of the command that a value is: an array of bulk strings. `None` for any other value.
pub(crate) fn words_of(alloc: Global, value: &Value) -> Result<Option<Vec<Text>>, NoMemory>
    ensures { IfOk result (λ found. option_map (λ words. words.items) found ≡ words_of (view value.now)) }
{
    match value {
        Value::Items(items) => {
            if !are_bulk(items.as_slice()) {
                return Ok(None);
            }
            Ok(Some(words_of_items(alloc, items.as_slice())?))
        }
        Value::NullItems => Ok(Some(Vec::new(alloc))),
        _ => Ok(None),
    }
}

/// How many bytes stand before the first LF; all of them where there is none.
pub(crate) fn before_end(bytes: &[u8]) -> usize
    ensures count { result ≡ before_end bytes.now }
    ensures within { result ≤ length bytes.now }
{
    let mut rest = bytes;
    let mut count: usize = 0;
    while let [byte, more @ ..] = rest {
        if *byte == b'\n' {
            return count;
        }
        count += 1;
        rest = more;
    }
    count
}

/// Whether the byte stands between the words of a line.
fn is_blank(byte: u8) -> bool
    ensures { result ≡ is_blank byte }
{
    byte == b' ' || byte == b'\t' || byte == b'\r'
}

/// Ends a word, which is none where it has no bytes.
fn end_word(alloc: Global, words: &mut Vec<Text>, word: &mut Vec<u8>) -> Result<(), NoMemory>
    ensures words { OnOk result (words.new.items ≡ words.old.items ++ with_word word.old.items []) }
    ensures word { OnOk result (word.new.items ≡ []) }
{
    if word.is_empty() {
        return Ok(());
    }
    words.push(Text::from_slice(alloc, word.as_slice())?)?;
    word.clear();
    Ok(())
}

/// The words of a line that isn't an array.
pub(crate) fn inline_words(alloc: Global, line: &[u8]) -> Result<Vec<Text>, NoMemory>
    ensures { IfOk result (λ words. words.items ≡ inline_words [] line.now) }
{
    let mut words = Vec::new(alloc);
    let mut word = Vec::new(alloc);
    let mut rest = line;
    while let [byte, more @ ..] = rest {
        if is_blank(*byte) {
            end_word(alloc, &mut words, &mut word)?;
        } else {
            word.push(*byte)?;
        }
        rest = more;
    }
    end_word(alloc, &mut words, &mut word)?;
    Ok(words)
}
