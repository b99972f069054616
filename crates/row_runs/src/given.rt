//! What the words of a row give.

use crate::told::Unplayed;
use ballot_law::{Addr, RunId};
use std::alloc::Global;
use std::str;
use tokens::{address_of, ip_of, run_id_of, split_at_byte};

/// A word as a text; it is to be UTF-8.
pub(crate) fn text(word: &[u8]) -> Result<&str, Unplayed> {
    match str::from_utf8(word) {
        Ok(text) => Ok(text),
        Err(_) => Err(Unplayed::WrongWords),
    }
}

/// Whether a word says the first of two texts, where it may say the second.
pub(crate) fn says(word: &[u8], first: &str, second: &str) -> Result<bool, Unplayed> {
    let word = text(word)?;
    if word == first {
        Ok(true)
    } else if word == second {
        Ok(false)
    } else {
        Err(Unplayed::WrongWords)
    }
}

/// The address that a word is, as `127.0.0.1:6379`; the port may be 0.
pub(crate) fn addr(word: &[u8]) -> Result<Addr, Unplayed> {
    let Some((ip, port)) = split_at_byte(word, b':') else {
        return Err(Unplayed::WrongWords);
    };
    match ip_of(ip) {
        Some(ip) => Ok(Addr {
            ip,
            port: number_16(port)?,
        }),
        None => Err(Unplayed::WrongWords),
    }
}

/// The address that a word is, or none for `None`.
pub(crate) fn maybe_addr(word: &[u8]) -> Result<Option<Addr>, Unplayed> {
    if word == b"None".as_slice() {
        return Ok(None);
    }
    Ok(Some(addr(word)?))
}

/// The decimal number that a word is.
pub(crate) fn number(word: &[u8]) -> Result<u64, Unplayed> {
    match text(word)?.parse() {
        Ok(number) => Ok(number),
        Err(_) => Err(Unplayed::WrongWords),
    }
}

/// The decimal number of 32 bits that a word is.
pub(crate) fn number_32(word: &[u8]) -> Result<u32, Unplayed> {
    match u32::try_from(number(word)?) {
        Ok(number) => Ok(number),
        Err(_) => Err(Unplayed::WrongWords),
    }
}

/// The decimal number of 16 bits that a word is.
pub(crate) fn number_16(word: &[u8]) -> Result<u16, Unplayed> {
    match u16::try_from(number(word)?) {
        Ok(number) => Ok(number),
        Err(_) => Err(Unplayed::WrongWords),
    }
}

/// The address of these words.
pub(crate) fn address(ip: &[u8], port: &[u8]) -> Result<Addr, Unplayed> {
    match address_of(ip, port) {
        Some(addr) => Ok(addr),
        None => Err(Unplayed::WrongWords),
    }
}

/// The run id that a word is.
pub(crate) fn id(word: &[u8]) -> Result<RunId, Unplayed> {
    match run_id_of(word) {
        Some(id) => Ok(id),
        None => Err(Unplayed::WrongWords),
    }
}

/// The run id that a word is, or none for `None`.
pub(crate) fn maybe_id(word: &[u8]) -> Result<Option<RunId>, Unplayed> {
    if word == b"None".as_slice() {
        return Ok(None);
    }
    Ok(Some(id(word)?))
}

/// The run id whose halves these words are in hexadecimal.
pub(crate) fn run_id(hi: &[u8], lo: &[u8]) -> Result<RunId, Unplayed> {
    let hi = u128::from_str_radix(text(hi)?, 16);
    let lo = u32::from_str_radix(text(lo)?, 16);
    match (hi, lo) {
        (Ok(hi), Ok(lo)) => Ok(RunId { hi, lo }),
        _ => Err(Unplayed::WrongWords),
    }
}

/// Whether a word says `down`, where it may say `up`.
pub(crate) fn is_down(word: &[u8]) -> Result<bool, Unplayed> {
    match word {
        b"down" | b"gone" => Ok(true),
        b"up" | b"lost" => Ok(false),
        _ => Err(Unplayed::WrongWords),
    }
}

/// Whether the connection to a node in this state was lost: it may be down too.
pub(crate) fn is_lost(word: &[u8]) -> bool {
    matches!(word, b"lost" | b"gone")
}

/// Whether these words have this one among them.
pub(crate) fn is_in(words: &[Vec<u8>], wanted: &str) -> bool {
    for word in words {
        if word.as_slice() == wanted.as_bytes() {
            return true;
        }
    }
    false
}

/// These words as a text of lines: a blank is between two words, a word `|` is the end of a line, and at a word `&` the
/// words before and after it meet.
pub(crate) fn joined(alloc: Global, words: &[Vec<u8>]) -> Result<Vec<u8>, Unplayed> {
    let mut text = Vec::new(alloc);
    let mut is_open = false;
    for word in words {
        match word.as_slice() {
            b"|" => {
                text.push(b'\n')?;
                is_open = false;
            }
            b"&" => is_open = false,
            word => {
                if is_open {
                    text.push(b' ')?;
                }
                text.extend_from_slice(word)?;
                is_open = true;
            }
        }
    }
    Ok(text)
}
