//! How protocol 3 tells an answer of protocol 2: its writer, beside that of `resp2`.

ghost use Rattle.std.specs.Prelude.{◌≡◌, ◌++◌, ◌∷◌, ◌/◌, ℕ, List, [], OnOk, OnErr, IfErr, IfOk, length, map, decimal};
ghost use Rattle.resp2.specs.Framing.Frame as frames;
ghost use Rattle.resp2.specs.Framing.Frame.{view, frames_view, line_end, spelling, spellings};
ghost use Rattle.resp2.specs.Framing.Stream.{SoFar};
ghost use Rattle.courteous_sessions.specs.Retelling.{spelling3, spellings3, map_spelling, map_spellings, table_spelling, text_spelling, push_spelling, told_as, all_told_as, is_null, without_null, AreTold, IsTold3, IsTold, JoinsTold};

use crate::nested::{docs_in, push_command_rows, push_docs};
use crate::shapes::Shape;
use ballot_law::{NoMemory, Text};
use client_commands::Protocol;
use port_sessions::Responder;
use resp2::{
    FrameFault, Frames, OutText, Value, push_bulk, push_int, push_kind, push_line, push_size,
};
use sentinel_core::ServeFault;
use std::alloc::Global;

/// The null of protocol 3.
pub(crate) const NULL: &[u8] = b"_\r\n";

/// Adds the header of an array of these items, with the byte of its kind.
fn push_header(out: &mut OutText, kind: u8, items: &[Value]) -> Result<(), NoMemory>
    ensures { OnOk result (out.new ≡ out.old ++ (kind ∷ (decimal (frames.count (frames_view items.now)) ++ line_end))) }
{
    push_size(out, kind, items.len())
}

/// Adds the header of a map of these names and values.
fn push_map_header(out: &mut OutText, items: &[Value]) -> Result<(), NoMemory>
    ensures { OnOk result (out.new ≡ out.old ++ (37 ∷ (decimal (frames.count (frames_view items.now) / 2) ++ line_end))) }
{
    push_size(out, b'%', items.len() / 2)
}

/// Adds the spelling of a value in protocol 3.
#[cycle(spelling)]
fn push_value(out: &mut OutText, value: &Value) -> Result<(), NoMemory>
    ensures { OnOk result (out.new ≡ out.old ++ spelling3 (view value.now)) }
{
    match value {
        Value::Simple(text) => push_kind(out, b'+', text.as_slice()),
        Value::Fault(text) => push_kind(out, b'-', text.as_slice()),
        Value::Int(number) => push_int(out, *number),
        Value::Bulk(bytes) => push_bulk(out, bytes.as_slice()),
        Value::NullBulk => out.add(NULL),
        Value::Items(items) => push_items(out, b'*', items),
        Value::NullItems => out.add(NULL),
    }
}

/// Adds the header of a kind and the spellings of its items.
#[cycle(spelling)]
fn push_items(out: &mut OutText, kind: u8, items: &Vec<Value>) -> Result<(), NoMemory>
    ensures { OnOk result (out.new ≡ out.old ++ (kind ∷ ((decimal (frames.count (frames_view items.now.items)) ++ line_end) ++ spellings3 (frames_view items.now.items)))) }
{
    push_header(out, kind, items.as_slice())?;
    push_values(out, items)
}

/// Adds the spellings of values.
#[cycle(spelling)]
fn push_values(out: &mut OutText, items: &Vec<Value>) -> Result<(), NoMemory>
    ensures { OnOk result (out.new ≡ out.old ++ spellings3 (frames_view items.now.items)) }
{
    for item in items {
        push_value(out, item)?;
    }
    Ok(())
}

/// Adds names and values as a map.
fn push_map(out: &mut OutText, items: &Vec<Value>) -> Result<(), NoMemory>
    ensures { OnOk result (out.new ≡ out.old ++ map_spelling (frames.items (frames_view items.now.items))) }
{
    push_map_header(out, items.as_slice())?;
    push_values(out, items)
}

/// Adds a row: names and values as a map, and anything else as it is.
fn push_row(out: &mut OutText, value: &Value) -> Result<(), NoMemory>
    ensures { OnOk result (out.new ≡ out.old ++ map_spelling (view value.now)) }
{
    match value {
        Value::Items(items) => push_map(out, items),
        Value::Simple(_) => push_value(out, value),
        Value::Fault(_) => push_value(out, value),
        Value::Int(_) => push_value(out, value),
        Value::Bulk(_) => push_value(out, value),
        Value::NullBulk => push_value(out, value),
        Value::NullItems => push_value(out, value),
    }
}

/// Adds rows.
fn push_rows(out: &mut OutText, rows: &[Value]) -> Result<(), NoMemory>
    ensures { OnOk result (out.new ≡ out.old ++ map_spellings (frames_view rows.now)) }
{
    let mut rest = rows;
    while let [row, more @ ..] = rest {
        push_row(out, row)?;
        rest = more;
    }
    Ok(())
}

/// Adds an array of rows and what comes before them, and anything else as it is.
fn push_table(out: &mut OutText, value: &Value) -> Result<(), NoMemory>
    ensures { OnOk result (out.new ≡ out.old ++ table_spelling (view value.now)) }
{
    match value {
        Value::Items(rows) => {
            push_header(out, b'*', rows.as_slice())?;
            push_rows(out, rows.as_slice())
        }
        Value::Simple(_) => push_value(out, value),
        Value::Fault(_) => push_value(out, value),
        Value::Int(_) => push_value(out, value),
        Value::Bulk(_) => push_value(out, value),
        Value::NullBulk => push_value(out, value),
        Value::NullItems => push_value(out, value),
    }
}

/// Adds a text as a verbatim string, and anything else as it is.
fn push_text(out: &mut OutText, value: &Value) -> Result<(), NoMemory>
    ensures { OnOk result (out.new ≡ out.old ++ text_spelling (view value.now)) }
{
    match value {
        Value::Bulk(text) => {
            push_size(out, b'=', text.as_slice().len() + 4)?;
            out.add(b"txt:")?;
            push_line(out, text.as_slice())
        }
        Value::Simple(_) => push_value(out, value),
        Value::Fault(_) => push_value(out, value),
        Value::Int(_) => push_value(out, value),
        Value::NullBulk => push_value(out, value),
        Value::Items(_) => push_value(out, value),
        Value::NullItems => push_value(out, value),
    }
}

/// Adds an array as a push, and anything else as it is.
fn push_push(out: &mut OutText, value: &Value) -> Result<(), NoMemory>
    ensures { OnOk result (out.new ≡ out.old ++ push_spelling (view value.now)) }
{
    match value {
        Value::Items(items) => push_items(out, b'>', items),
        Value::Simple(_) => push_value(out, value),
        Value::Fault(_) => push_value(out, value),
        Value::Int(_) => push_value(out, value),
        Value::Bulk(_) => push_value(out, value),
        Value::NullBulk => push_value(out, value),
        Value::NullItems => push_value(out, value),
    }
}

/// Adds a value as it is told.
fn push_told(out: &mut OutText, shape: Shape, value: &Value) -> Result<(), NoMemory>
    ensures { OnOk result (out.new ≡ out.old ++ told_as shape (view value.now)) }
{
    match shape {
        Shape::Plain => push_value(out, value),
        Shape::Whole => push_value(out, value),
        Shape::Pairs => push_row(out, value),
        Shape::Tables => push_table(out, value),
        Shape::Verbatim => push_text(out, value),
        Shape::Pushes => push_push(out, value),
        Shape::Rows => push_command_rows(out, value),
        Shape::Docs => push_docs(out, value),
    }
}

/// Adds values as they are told.
fn push_all_told(out: &mut OutText, shape: Shape, values: &[Value]) -> Result<(), NoMemory>
    ensures { OnOk result (out.new ≡ out.old ++ all_told_as shape (frames_view values.now)) }
{
    let mut rest = values;
    while let [value, more @ ..] = rest {
        push_told(out, shape, value)?;
        rest = more;
    }
    Ok(())
}

/// Adds each value that is whole.
fn take_whole(frames: &mut Frames, values: &mut Vec<Value>) -> Result<(), FrameFault>
    ensures { (stream : List ℕ) → SoFar stream (map view values.old.items) frames.old
        → OnOk result (SoFar stream (map view values.new.items) frames.new) }
{
    while let Some(value) = frames.next()? {
        values.push(value)?;
    }
    Ok(())
}

/// The values that these bytes spell, one after the other; `NoMemory` where they don't, or memory was refused.
fn values_in(alloc: Global, bytes: &[u8]) -> Result<Vec<Value>, NoMemory>
    ensures { IfOk result (λ values. bytes.now ≡ spellings (frames_view values.items)) }
{
    let mut frames = Frames::new(alloc);
    if frames.feed(bytes).is_err() {
        return Err(NoMemory);
    }
    let mut values = Vec::new(alloc);
    if take_whole(&mut frames, &mut values).is_err() {
        return Err(NoMemory);
    }
    if !frames.held().is_empty() {
        return Err(NoMemory);
    }
    Ok(values)
}

/// What comes after the first line of these bytes.
pub(crate) fn after_line(bytes: &[u8]) -> &[u8] {
    let mut rest = bytes;
    while let [byte, more @ ..] = rest {
        if *byte == b'\n' {
            return more;
        }
        rest = more;
    }
    rest
}

/// The array that these bytes spell, of which each item may be as long as a value; `NoMemory` where they don't, or
/// memory was refused.
fn array_in(alloc: Global, bytes: &[u8]) -> Result<Value, NoMemory>
    ensures { IfOk result (λ value. bytes.now ≡ spelling (view value)) }
{
    let rest = after_line(bytes);
    let items = values_in(alloc, rest)?;
    let mut again = OutText::new(alloc);
    push_size(&mut again, b'*', items.as_slice().len())?;
    again.add(rest)?;
    if again.as_slice() == bytes {
        Ok(Value::Items(items))
    } else {
        Err(NoMemory)
    }
}

/// The text that these bytes spell as a bulk string; `NoMemory` where they don't, or memory was refused.
fn text_in(alloc: Global, bytes: &[u8]) -> Result<Value, NoMemory>
    ensures { IfOk result (λ value. bytes.now ≡ spelling (view value)) }
{
    let rest = after_line(bytes);
    let text = Text::from_slice(alloc, &rest[..rest.len().saturating_sub(2)])?;
    let mut again = OutText::new(alloc);
    push_bulk(&mut again, text.as_slice())?;
    if again.as_slice() == bytes {
        Ok(Value::Bulk(text))
    } else {
        Err(NoMemory)
    }
}

/// A list of this value alone.
fn alone(alloc: Global, value: Value) -> Result<Vec<Value>, NoMemory>
    ensures { IfOk result (λ values. spelling (view value) ≡ spellings (frames_view values.items)) }
{
    let mut values = Vec::new(alloc);
    values.push(value)?;
    Ok(values)
}

/// The values that an answer spells, of which one that is told as such may be longer than those of a stream.
fn values_of(alloc: Global, shape: Shape, answer: &[u8]) -> Result<Vec<Value>, NoMemory>
    ensures { IfOk result (λ values. answer.now ≡ spellings (frames_view values.items)) }
{
    match (shape, answer) {
        (Shape::Tables, [b'*', ..]) => alone(alloc, array_in(alloc, answer)?),
        (Shape::Verbatim, [b'$', ..]) => alone(alloc, text_in(alloc, answer)?),
        (Shape::Rows, [b'*', ..]) => alone(alloc, array_in(alloc, answer)?),
        (Shape::Docs, [b'*', ..]) => alone(alloc, docs_in(alloc, answer)?),
        _ => values_in(alloc, answer),
    }
}

/// Adds the values of an answer as they are told.
fn retell_values(
    alloc: Global,
    shape: Shape,
    answer: &[u8],
    out: &mut OutText,
) -> Result<(), NoMemory>
    requires { out.old ≡ [] }
    ensures { OnOk result (AreTold shape answer.now out.new) }
{
    let values = values_of(alloc, shape, answer)?;
    push_all_told(out, shape, values.as_slice())
}

/// Whether the answer is a null of protocol 2.
pub(crate) fn is_null(answer: &[u8]) -> bool
    ensures { result ≡ is_null answer.now }
{
    answer == b"$-1\r\n".as_slice() || answer == b"*-1\r\n".as_slice()
}

/// The answer, or the null of protocol 3 where it is a null.
fn without_null(answer: &[u8]) -> &[u8]
    ensures { result.now ≡ without_null answer.now }
{
    if is_null(answer) {
        return NULL;
    }
    answer
}

/// Has the text, which is empty, hold what protocol 3 tells of an answer.
pub(crate) fn retell(
    alloc: Global,
    shape: Shape,
    answer: &[u8],
    out: &mut OutText,
) -> Result<(), NoMemory>
    requires { out.old ≡ [] }
    ensures { OnOk result (IsTold3 shape answer.now out.new) }
{
    match shape {
        Shape::Plain => out.add(without_null(answer)),
        Shape::Whole => retell_values(alloc, Shape::Whole, answer, out),
        Shape::Pairs => retell_values(alloc, Shape::Pairs, answer, out),
        Shape::Tables => retell_values(alloc, Shape::Tables, answer, out),
        Shape::Verbatim => retell_values(alloc, Shape::Verbatim, answer, out),
        Shape::Pushes => retell_values(alloc, Shape::Pushes, answer, out),
        Shape::Rows => retell_values(alloc, Shape::Rows, answer, out),
        Shape::Docs => retell_values(alloc, Shape::Docs, answer, out),
    }
}

/// Adds what protocol 3 tells of an answer to what isn't sent yet.
fn put_retold(
    alloc: Global,
    responder: &mut Responder,
    shape: Shape,
    answer: &[u8],
) -> Result<(), ServeFault>
    ensures ok { OnOk result (JoinsTold Protocol.Three shape answer.now responder.old.unsent.items responder.new.unsent.items) }
    ensures err { OnErr result (responder.new.unsent.items ≡ responder.old.unsent.items) }
    ensures hears { responder.new.hears ≡ responder.old.hears }
    ensures fault { IfErr result (λ fault. fault ≡ ServeFault.NoMemory) }
{
    let mut told = OutText::new(alloc);
    match retell(alloc, shape, answer, &mut told) {
        Ok(()) => responder.put_out(told.as_slice()),
        Err(_) => Err(ServeFault::NoMemory),
    }
}

/// Adds an answer to what isn't sent yet, as this protocol tells it.
pub(crate) fn put_told(
    alloc: Global,
    responder: &mut Responder,
    protocol: Protocol,
    shape: Shape,
    answer: &[u8],
) -> Result<(), ServeFault>
    ensures ok { OnOk result (JoinsTold protocol shape answer.now responder.old.unsent.items responder.new.unsent.items) }
    ensures err { OnErr result (responder.new.unsent.items ≡ responder.old.unsent.items) }
    ensures hears { responder.new.hears ≡ responder.old.hears }
    ensures fault { IfErr result (λ fault. fault ≡ ServeFault.NoMemory) }
{
    match protocol {
        Protocol::Two => responder.put_out(answer),
        Protocol::Three => put_retold(alloc, responder, shape, answer),
    }
}
