//! What the text of an INFO says.

use crate::said::{NodeSaid, Trouble, Unsaid};
use ballot_law::{Addr, is_same_bytes};
use resp2::{Value, word_of};
use tokens::{address_of, number_of, split_at_byte, split_line};

/// A line without the CR at its end.
fn without_cr(line: &[u8]) -> &[u8] {
    match line {
        [front @ .., b'\r'] => front,
        _ => line,
    }
}

/// What stands behind the colon in the line of this name; nothing where there is no such line.
fn line_value<'a>(text: &'a [u8], name: &[u8]) -> &'a [u8] {
    let mut rest = text;
    while !rest.is_empty() {
        let (line, more) = split_line(rest);
        if let Some((key, value)) = split_at_byte(without_cr(line), b':') {
            if is_same_bytes(key, name) {
                return value;
            }
        }
        rest = more;
    }
    &[]
}

/// The number in the line of this name, or another one where there is none.
fn line_number(text: &[u8], name: &[u8], otherwise: u64) -> u64 {
    number_of(line_value(text, name), 0, u64::MAX).unwrap_or(otherwise)
}

/// Whether the line of this name has this value.
fn has_line(text: &[u8], name: &[u8], value: &[u8]) -> bool {
    is_same_bytes(line_value(text, name), value)
}

/// Whether a Sentinel's INFO tells TILT; none where it doesn't tell it.
pub(crate) fn tilt_of(info: &Value) -> Option<bool> {
    match line_value(word_of(info), b"sentinel_tilt") {
        b"" => None,
        value => Some(!is_same_bytes(value, b"0")),
    }
}

/// Which master the node follows, where it knows it by an address.
fn followed(text: &[u8]) -> Option<Addr> {
    address_of(
        line_value(text, b"master_host"),
        line_value(text, b"master_port"),
    )
}

/// What the INFO of a data node says. One without a role is none of a data node.
pub(crate) fn node_said(answers: &[Value]) -> Result<NodeSaid, Unsaid> {
    let [Value::Bulk(info), ..] = answers else {
        return Err(Unsaid::Trouble(Trouble::Garbage));
    };
    let text = info.as_slice();
    let is_master = has_line(text, b"role", b"master");
    if !is_master && !has_line(text, b"role", b"slave") {
        return Err(Unsaid::Trouble(Trouble::Garbage));
    }
    let offset: &[u8] = if is_master {
        b"master_repl_offset"
    } else {
        b"slave_repl_offset"
    };
    Ok(NodeSaid {
        is_master,
        loads: has_line(text, b"loading", b"1") || has_line(text, b"async_loading", b"1"),
        announced: !has_line(text, b"replica_announced", b"0"),
        follows: followed(text),
        link_up: has_line(text, b"master_link_status", b"up"),
        link_down_s: line_number(text, b"master_link_down_since_seconds", 0),
        priority: line_number(text, b"slave_priority", 100),
        offset: line_number(text, offset, 0),
    })
}
