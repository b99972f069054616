//! Words from outside: addresses, ports, numbers and run ids as Redis and its files write them.

use crate::given::{number, number_32, run_id};
use crate::told::{Told, Unplayed};
use std::alloc::Global;
use tokens::{
    add_number, address_of, are_digits, canonical_address_of, canonical_number_of, ip_of, ip_text,
    is_decimal, number_of, port_of, run_id_of, run_id_text, split_at_byte, split_line,
};

/// The number that an IP address is.
fn ip_number(word: &[u8]) -> Option<u64> {
    let ip = ip_of(word)?;
    Some(u64::from(ip))
}

/// The number that a port is.
fn port_number(word: &[u8]) -> Option<u64> {
    let port = port_of(word)?;
    Some(u64::from(port))
}

/// Tells the two halves of a run id in hexadecimal.
fn tell_run_id(word: &[u8], told: &mut Told) -> Result<(), Unplayed> {
    match run_id_of(word) {
        Some(id) => {
            told.hexadecimal(id.hi)?;
            told.hexadecimal(u128::from(id.lo))
        }
        None => told.word("None"),
    }
}

/// Tells the two parts of a text that is cut at its first byte of this value.
fn tell_cut(text: &[u8], byte: u8, told: &mut Told) -> Result<(), Unplayed> {
    match split_at_byte(text, byte) {
        Some((front, back)) => {
            told.bytes(front)?;
            told.bytes(back)
        }
        None => told.word("None"),
    }
}

/// Tells the first line of a text, and what is after it.
fn tell_line(text: &[u8], told: &mut Told) -> Result<(), Unplayed> {
    if text.is_empty() {
        return Err(Unplayed::WrongWords);
    }
    let (line, rest) = split_line(text);
    told.bytes(line)?;
    told.bytes(rest)
}

/// Tells a text with a number added at its end.
fn tell_added(alloc: Global, text: &[u8], number: u64, told: &mut Told) -> Result<(), Unplayed> {
    let mut out = Vec::from_slice(alloc, text)?;
    add_number(&mut out, number)?;
    told.bytes(&out)
}

/// Tells what comes of a call with these words.
pub(crate) fn play(
    alloc: Global,
    call: &str,
    words: &[Vec<u8>],
    told: &mut Told,
) -> Result<(), Unplayed> {
    match (call, words) {
        ("number_of", [word, low, high]) => {
            told.maybe_number(number_of(word, number(low)?, number(high)?))
        }
        ("canonical_number_of", [word, low, high]) => {
            told.maybe_number(canonical_number_of(word, number(low)?, number(high)?))
        }
        ("are_digits", [word]) => told.yes(are_digits(word)),
        ("is_decimal", [word]) => told.yes(is_decimal(word)),
        ("ip_of", [word]) => told.maybe_number(ip_number(word)),
        ("port_of", [word]) => told.maybe_number(port_number(word)),
        ("address_of", [ip, port]) => told.maybe_address(address_of(ip, port)),
        ("canonical_address_of", [ip, port]) => {
            told.maybe_address(canonical_address_of(ip, port))
        }
        ("run_id_of", [word]) => tell_run_id(word, told),
        ("ip_text", [ip]) => told.bytes(ip_text(number_32(ip)?).as_slice()),
        ("run_id_text", [hi, lo]) => told.bytes(run_id_text(run_id(hi, lo)?).as_slice()),
        ("add_number", [text, word]) => tell_added(alloc, text, number(word)?, told),
        ("split_at_comma", [text]) => tell_cut(text, b',', told),
        ("split_line", [text]) => tell_line(text, told),
        _ => Err(Unplayed::NoSuchCall),
    }
}
