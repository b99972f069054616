//! How protocol 3 tells what COMMAND answers: rows and descriptions, whose arrays are sets or maps by what they hold.

ghost use Rattle.std.specs.Prelude.{◌≡◌, ◌++◌, ◌∷◌, ◌||◌, OnOk, IfOk, decimal};
ghost use Rattle.resp2.specs.Framing.Frame as frames;
ghost use Rattle.resp2.specs.Framing.Frame.{view, frames_view, line_end, spelling};
ghost use Rattle.courteous_sessions.specs.Nested.{is_number, is_text, is_list, is_odd, begins_with_number, is_one_text, is_change, kind_in_rows, kind_after_text, kind_begun, kind_in_docs, kind_in, number_of, null_in, spelling_in, spellings_in, rows_spelling};

use crate::retelling::{NULL, after_line};
use ballot_law::{NoMemory, Text};
use resp2::{OutText, Value, push_bulk, push_int, push_kind, push_size};
use std::alloc::Global;

/// How deep arrays nest in a description at most.
const DEEPEST: usize = 32;

/// By which rule each array of an answer is told.
#[derive(Clone, Copy)]
pub(crate) enum Manner {
    /// As protocol 2 has it.
    AsTwo,
    /// In rows of commands.
    InRows,
    /// In descriptions.
    InDocs,
}

/// Whether it is a number.
fn is_number(value: &Value) -> bool
    ensures { result ≡ is_number (view value.now) }
{
    match value {
        Value::Int(_) => true,
        _ => false,
    }
}

/// Whether it is a text.
fn is_text(value: &Value) -> bool
    ensures { result ≡ is_text (view value.now) }
{
    match value {
        Value::Bulk(_) => true,
        _ => false,
    }
}

/// Whether it is an array.
fn is_list(value: &Value) -> bool
    ensures { result ≡ is_list (view value.now) }
{
    match value {
        Value::Items(_) => true,
        _ => false,
    }
}

/// How many there are.
#[tactic(auto, using(crate::proofs::Retold::count_told))]
fn count_of(items: &[Value]) -> usize
    ensures { result ≡ frames.count (frames_view items.now) }
{
    items.len()
}

/// Whether the first is a number.
fn begins_with_number(items: &[Value]) -> bool
    ensures { result ≡ begins_with_number (frames_view items.now) }
{
    match items.split_first() {
        Some((first, _)) => is_number(first),
        None => false,
    }
}

/// Whether there is one text alone.
fn is_one_text(items: &[Value]) -> bool
    ensures { result ≡ is_one_text (frames_view items.now) }
{
    match items.split_first() {
        Some((first, more)) => is_text(first) && count_of(more) == 0,
        None => false,
    }
}

/// Whether they are a version and what it changed.
fn is_change(items: &[Value]) -> bool
    ensures { result ≡ is_change (frames_view items.now) }
{
    match items.split_first() {
        Some((first, more)) => is_text(first) && is_one_text(more),
        None => false,
    }
}

/// Whether these are a row, or rows of subcommands.
fn stays_array(first: &Value, more: &[Value]) -> bool
    ensures { result ≡ (is_list (view first.now) || begins_with_number (frames_view more.now)) }
{
    is_list(first) || begins_with_number(more)
}

/// The byte of the kind of this item and more of them in a row.
fn kind_of_cells(first: &Value, more: &[Value]) -> u8
    ensures { result ≡ kind_in_rows (frames.frame (view first.now) (frames_view more.now)) }
{
    if stays_array(first, more) { b'*' } else { b'~' }
}

/// The byte of the kind of these items in a row.
fn kind_in_rows(items: &[Value]) -> u8
    ensures { result ≡ kind_in_rows (frames_view items.now) }
{
    match items.split_first() {
        Some((first, more)) => kind_of_cells(first, more),
        None => b'~',
    }
}

/// That of a text and these items in a description.
fn kind_after_text(items: &[Value]) -> u8
    ensures { result ≡ kind_after_text (frames_view items.now) }
{
    if is_one_text(items) {
        return b'*';
    }
    if count_of(items) % 2 == 1 { b'%' } else { b'*' }
}

/// That of this item and more of them in a description.
fn kind_begun(first: &Value, more: &[Value]) -> u8
    ensures { result ≡ kind_begun (view first.now) (frames_view more.now) }
{
    match first {
        Value::Simple(_) => b'~',
        Value::Bulk(_) => kind_after_text(more),
        Value::Items(items) => {
            if is_change(items.as_slice()) {
                b'~'
            } else {
                b'*'
            }
        }
        Value::Fault(_) => b'*',
        Value::Int(_) => b'*',
        Value::NullBulk => b'*',
        Value::NullItems => b'*',
    }
}

/// That of these items in a description.
fn kind_in_docs(items: &[Value]) -> u8
    ensures { result ≡ kind_in_docs (frames_view items.now) }
{
    match items.split_first() {
        Some((first, more)) => kind_begun(first, more),
        None => b'%',
    }
}

/// The byte of the kind of these items.
fn kind_in(manner: Manner, items: &[Value]) -> u8
    ensures { result ≡ kind_in manner (frames_view items.now) }
{
    match manner {
        Manner::AsTwo => b'*',
        Manner::InRows => kind_in_rows(items),
        Manner::InDocs => kind_in_docs(items),
    }
}

/// The number in the header of so many items.
fn number_of(kind: u8, count: usize) -> usize
    ensures { result ≡ number_of kind count }
{
    if kind == b'%' { count / 2 } else { count }
}

/// The null, which protocol 2 has as this.
fn null_in(manner: Manner, null: &[u8]) -> &[u8]
    ensures { result.now ≡ null_in manner null.now }
{
    match manner {
        Manner::AsTwo => null,
        Manner::InRows => NULL,
        Manner::InDocs => NULL,
    }
}

/// Adds the header of these items.
fn push_head(out: &mut OutText, manner: Manner, items: &[Value]) -> Result<(), NoMemory>
    ensures { OnOk result (out.new ≡ out.old ++ (kind_in manner (frames_view items.now)
        ∷ (decimal (number_of (kind_in manner (frames_view items.now)) (frames.count (frames_view items.now))) ++ line_end))) }
{
    let kind = kind_in(manner, items);
    push_size(out, kind, number_of(kind, count_of(items)))
}

/// Adds a value as it is told.
#[cycle(telling)]
fn push_in(out: &mut OutText, manner: Manner, value: &Value) -> Result<(), NoMemory>
    ensures { OnOk result (out.new ≡ out.old ++ spelling_in manner (view value.now)) }
{
    match value {
        Value::Simple(text) => push_kind(out, b'+', text.as_slice()),
        Value::Fault(text) => push_kind(out, b'-', text.as_slice()),
        Value::Int(number) => push_int(out, *number),
        Value::Bulk(bytes) => push_bulk(out, bytes.as_slice()),
        Value::NullBulk => out.add(null_in(manner, b"$-1\r\n")),
        Value::Items(items) => push_items_in(out, manner, items),
        Value::NullItems => out.add(null_in(manner, b"*-1\r\n")),
    }
}

/// Adds an array, as a set or a map where it is one.
#[cycle(telling)]
fn push_items_in(out: &mut OutText, manner: Manner, items: &Vec<Value>) -> Result<(), NoMemory>
    ensures { OnOk result (out.new ≡ out.old ++ spelling_in manner (frames.items (frames_view items.now.items))) }
{
    push_head(out, manner, items.as_slice())?;
    push_values_in(out, manner, items)
}

/// Adds values as they are told.
#[cycle(telling)]
fn push_values_in(out: &mut OutText, manner: Manner, items: &Vec<Value>) -> Result<(), NoMemory>
    ensures { OnOk result (out.new ≡ out.old ++ spellings_in manner (frames_view items.now.items)) }
{
    for item in items {
        push_in(out, manner, item)?;
    }
    Ok(())
}

/// Adds a description.
pub(crate) fn push_docs(out: &mut OutText, value: &Value) -> Result<(), NoMemory>
    ensures { OnOk result (out.new ≡ out.old ++ spelling_in Manner.InDocs (view value.now)) }
{
    push_in(out, Manner::InDocs, value)
}

/// Adds an array of rows, and anything else as it is.
pub(crate) fn push_command_rows(out: &mut OutText, value: &Value) -> Result<(), NoMemory>
    ensures { OnOk result (out.new ≡ out.old ++ rows_spelling (view value.now)) }
{
    match value {
        Value::Items(rows) => {
            push_array_head(out, rows.as_slice())?;
            push_values_in(out, Manner::InRows, rows)
        }
        Value::Simple(_) => push_in(out, Manner::InRows, value),
        Value::Fault(_) => push_in(out, Manner::InRows, value),
        Value::Int(_) => push_in(out, Manner::InRows, value),
        Value::Bulk(_) => push_in(out, Manner::InRows, value),
        Value::NullBulk => push_in(out, Manner::InRows, value),
        Value::NullItems => push_in(out, Manner::InRows, value),
    }
}

/// Adds the header of an array of these items.
fn push_array_head(out: &mut OutText, items: &[Value]) -> Result<(), NoMemory>
    ensures { OnOk result (out.new ≡ out.old ++ (42 ∷ (decimal (frames.count (frames_view items.now)) ++ line_end))) }
{
    push_size(out, b'*', count_of(items))
}

/// The number that these bytes begin with.
fn number_in(bytes: &[u8]) -> usize {
    let mut number: usize = 0;
    let mut rest = bytes;
    while let [digit, more @ ..] = rest {
        if *digit < b'0' || b'9' < *digit {
            return number;
        }
        let digit = (*digit - b'0') as usize;
        number = number.saturating_mul(10).saturating_add(digit);
        rest = more;
    }
    number
}

/// How many bytes come before the first CR.
fn line_size(bytes: &[u8]) -> usize {
    let mut size: usize = 0;
    let mut rest = bytes;
    while let [byte, more @ ..] = rest {
        if *byte == b'\r' {
            return size;
        }
        size = size.saturating_add(1);
        rest = more;
    }
    size
}

/// The text of so many bytes, fewer where there aren't so many, and what comes after it and its line's end.
fn text_of(alloc: Global, bytes: &[u8], size: usize) -> Result<(Text, &[u8]), NoMemory> {
    let size = size.min(bytes.len());
    let text = Text::from_slice(alloc, &bytes[..size])?;
    Ok((text, after_line(&bytes[size..])))
}

/// The value that these bytes begin with, of lines, texts and arrays, which nest so deep at most, and what comes after
/// it; `NoMemory` where there is none, or memory was refused.
#[cycle(deep)]
fn deep_value(alloc: Global, bytes: &[u8], depth: usize) -> Result<(Value, &[u8]), NoMemory> {
    let Some((kind, rest)) = bytes.split_first() else {
        return Err(NoMemory);
    };
    if depth == 0 {
        return Err(NoMemory);
    }
    match *kind {
        b'+' => {
            let (line, rest) = text_of(alloc, rest, line_size(rest))?;
            Ok((Value::Simple(line), rest))
        }
        b'$' => {
            let (text, rest) = text_of(alloc, after_line(rest), number_in(rest))?;
            Ok((Value::Bulk(text), rest))
        }
        b'*' => {
            let (items, rest) = deep_values(alloc, after_line(rest), depth - 1, number_in(rest))?;
            Ok((Value::Items(items), rest))
        }
        _ => Err(NoMemory),
    }
}

/// So many values, as `deep_value`.
#[cycle(deep)]
fn deep_values(
    alloc: Global,
    bytes: &[u8],
    depth: usize,
    count: usize,
) -> Result<(Vec<Value>, &[u8]), NoMemory> {
    let mut values = Vec::new(alloc);
    let mut rest = bytes;
    for _ in 0..count {
        let (value, after) = deep_value(alloc, rest, depth)?;
        values.push(value)?;
        rest = after;
    }
    Ok((values, rest))
}

/// The description that these bytes spell, whose arrays may nest deeper than those of a stream; `NoMemory` where they
/// don't, or memory was refused.
#[tactic(auto, using(crate::proofs::NestedTold::docs_read))]
pub(crate) fn docs_in(alloc: Global, bytes: &[u8]) -> Result<Value, NoMemory>
    ensures { IfOk result (λ value. bytes.now ≡ spelling (view value)) }
{
    let (value, _) = deep_value(alloc, bytes, DEEPEST)?;
    let mut again = OutText::new(alloc);
    push_in(&mut again, Manner::AsTwo, &value)?;
    if again.as_slice() == bytes {
        Ok(value)
    } else {
        Err(NoMemory)
    }
}
