//! Writes values in their one spelling.
ghost use Rattle.std.specs.Prelude.{◌≡◌, ◌∷◌, ◌++◌, decimal, OnOk, OnErr};
ghost use Rattle.resp2.specs.Framing.Frame as frames;
ghost use Rattle.resp2.specs.Framing.Frame.{view, frames_view, spelling, spellings, line_end, HasLines};
ghost use Rattle.resp2.specs.Framing.Writing.{Adds};

use crate::framing::out_text::OutText;
use crate::framing::sink::{ByteSink, push_bulk, push_int, push_kind, push_size};
use crate::framing::value::Value;
use ballot_law::NoMemory;

#[cycle(writing)]
fn push_value<S: ByteSink>(sink: &mut S, value: &Value) -> Result<(), NoMemory>
    ensures { Adds result (S.bytes sink.old) (S.bytes sink.new) (spelling (view value.now))
        (S.full sink.new) }
{
    match value {
        Value::Simple(text) => push_kind(sink, b'+', text.as_slice()),
        Value::Fault(text) => push_kind(sink, b'-', text.as_slice()),
        Value::Int(number) => push_int(sink, *number),
        Value::Bulk(bytes) => push_bulk(sink, bytes.as_slice()),
        Value::NullBulk => sink.push(b"$-1\r\n"),
        Value::Items(items) => push_items(sink, items),
        Value::NullItems => sink.push(b"*-1\r\n"),
    }
}

#[cycle(writing)]
fn push_items<S: ByteSink>(sink: &mut S, items: &Vec<Value>) -> Result<(), NoMemory>
    ensures { Adds result (S.bytes sink.old) (S.bytes sink.new)
        (spelling (frames.items (frames_view items.now.items))) (S.full sink.new) }
{
    push_size(sink, b'*', items.as_slice().len())?;
    push_values(sink, items)
}

#[cycle(writing)]
fn push_values<S: ByteSink>(sink: &mut S, items: &Vec<Value>) -> Result<(), NoMemory>
    ensures { Adds result (S.bytes sink.old) (S.bytes sink.new)
        (spellings (frames_view items.now.items)) (S.full sink.new) }
{
    for item in items {
        push_value(sink, item)?;
    }
    Ok(())
}

/// Adds the one spelling of the value; `NoMemory` leaves the text unchanged.
///
/// The caller sees to it that no CR or LF stands in a simple string or an error of the value, since
/// a reader would take it for the line's end.
pub fn write_value(value: &Value, text: &mut OutText) -> Result<(), NoMemory>
    requires { HasLines (view value.now) }
    ensures ok { OnOk result (text.new ≡ text.old ++ spelling (view value.now)) }
    ensures err { OnErr result (text.new ≡ text.old) }
{
    let len = text.len();
    match push_value(text, value) {
        Ok(()) => Ok(()),
        Err(_) => {
            text.truncate(len);
            Err(NoMemory)
        }
    }
}
