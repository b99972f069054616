//! The frequent commands, read where their bytes stand.
//!
//! Each is known by all the bytes before its own words, with its names in capitals, in small letters, or `SENTINEL` in
//! capitals and its subcommand in small letters, as client libraries spell them. What these functions don't know is
//! left to the reader of values.

ghost use Rattle.std.specs.Prelude.{◌≡◌, ◌≤◌, ◌+◌, ◌⊎◌, ◌∷◌, ◌++◌, ℕ, length, drop, decimal, codes, IfOk, IfSome};
ghost use Rattle.resp2.specs.Asked.{Found, IsBehindPing, IsBehindNames, IsCommon};
ghost use Rattle.ballot_law.specs.Limits.{IsWithin};
ghost use Rattle.resp2.specs.Commands as commands;
ghost use Rattle.resp2.specs.Framing.Frame.{bulk, spelling, line_end};

use crate::command::{CommandFault, name_of, question_of};
use ballot_law::Command;

/// The beginning of a question for an address, in capitals, in small letters, and with `SENTINEL` alone in capitals.
const ADDRESS: &[u8] = b"*3\r\n$8\r\nSENTINEL\r\n$23\r\nGET-MASTER-ADDR-BY-NAME\r\n";

const ADDRESS_SMALL: &[u8] = b"*3\r\n$8\r\nsentinel\r\n$23\r\nget-master-addr-by-name\r\n";

const ADDRESS_THEN_SMALL: &[u8] = b"*3\r\n$8\r\nSENTINEL\r\n$23\r\nget-master-addr-by-name\r\n";

/// The beginning of the question whether a master is down, spelled so too.
const QUESTION: &[u8] = b"*6\r\n$8\r\nSENTINEL\r\n$22\r\nIS-MASTER-DOWN-BY-ADDR\r\n";

const QUESTION_SMALL: &[u8] = b"*6\r\n$8\r\nsentinel\r\n$22\r\nis-master-down-by-addr\r\n";

const QUESTION_THEN_SMALL: &[u8] = b"*6\r\n$8\r\nSENTINEL\r\n$22\r\nis-master-down-by-addr\r\n";

/// How the names of a command may be spelled.
#[derive(Clone, Copy)]
enum Letters {
    /// `SENTINEL` and its subcommand in capitals.
    Capitals,
    /// Both in small letters.
    Small,
    /// `SENTINEL` in capitals, and its subcommand in small letters.
    CapitalsThenSmall,
}

/// What stands behind the byte.
fn behind(byte: u8, bytes: &[u8]) -> Option<&[u8]>
    ensures { IfSome result (λ rest. bytes.now ≡ byte ∷ rest.now) }
{
    let (first, rest) = bytes.split_first()?;
    if *first == byte { Some(rest) } else { None }
}

/// What stands behind CR LF.
fn behind_end(bytes: &[u8]) -> Option<&[u8]>
    ensures { IfSome result (λ rest. bytes.now ≡ line_end ++ rest.now) }
{
    let rest = behind(b'\r', bytes)?;
    behind(b'\n', rest)
}

/// What stands behind these bytes.
fn behind_all<'a>(front: &[u8], bytes: &'a [u8]) -> Option<&'a [u8]>
    ensures { IfSome result (λ rest. bytes.now ≡ front.now ++ rest.now) }
{
    if bytes.len() < front.len() {
        return None;
    }
    let (first, rest) = bytes.split_at(front.len());
    if first == front { Some(rest) } else { None }
}

/// The number of a digit.
fn digit_of(byte: u8) -> Option<usize>
    ensures { IfSome result (λ digit. (byte ≡ 48 + digit) × (digit ≤ 9)) }
{
    if byte.is_ascii_digit() {
        Some(usize::from(byte - b'0'))
    } else {
        None
    }
}

/// A length of one or two digits, and what stands behind its line.
fn length_at(bytes: &[u8]) -> Option<(usize, &[u8])>
    ensures { IfSome result (λ x. (bytes.now ≡ decimal x.0 ++ (line_end ++ x.1.now)) × (x.0 ≤ 99)) }
{
    let (first, rest) = bytes.split_first()?;
    let tens = digit_of(*first)?;
    if let Some(text) = behind_end(rest) {
        return Some((tens, text));
    }
    let (second, rest) = rest.split_first()?;
    let ones = digit_of(*second)?;
    if tens == 0 {
        return None;
    }
    let text = behind_end(rest)?;
    Some((tens * 10 + ones, text))
}

/// A bulk string of at most 99 bytes, and what stands behind it.
fn word_at(bytes: &[u8]) -> Option<(&[u8], &[u8])>
    ensures { IfSome result (λ x. (bytes.now ≡ spelling (bulk x.0.now) ++ x.1.now) × (length x.0.now ≤ 99)) }
{
    let (size, rest) = length_at(behind(b'$', bytes)?)?;
    if rest.len() < size {
        return None;
    }
    let (word, tail) = rest.split_at(size);
    let rest = behind_end(tail)?;
    Some((word, rest))
}

/// What stands behind a PING. Its first letter, which is byte 8, tells how it may be spelled.
fn behind_ping(bytes: &[u8]) -> Option<&[u8]>
    ensures { IfSome result (λ rest. IsBehindPing bytes.now rest.now) }
{
    if *bytes.get(8)? == b'P' {
        let rest = behind_all(b"*1\r\n$4\r\nPING\r\n", bytes)?;
        Some(rest)
    } else {
        let rest = behind_all(b"*1\r\n$4\r\nping\r\n", bytes)?;
        Some(rest)
    }
}

/// How the names of a command may be spelled, by their first letters, which are bytes 8 and 23.
fn letters_of(bytes: &[u8]) -> Letters {
    let (Some(first), Some(second)) = (bytes.get(8), bytes.get(23)) else {
        return Letters::Capitals;
    };
    if first.is_ascii_lowercase() {
        Letters::Small
    } else if second.is_ascii_lowercase() {
        Letters::CapitalsThenSmall
    } else {
        Letters::Capitals
    }
}

/// What stands behind the names of a command, which are spelled as their first letters tell.
fn behind_names<'a>(
    capitals: &[u8],
    small: &[u8],
    capitals_then_small: &[u8],
    bytes: &'a [u8],
) -> Option<&'a [u8]>
    ensures { IfSome result (λ rest. (bytes.now ≡ capitals.now ++ rest.now)
        ⊎ ((bytes.now ≡ small.now ++ rest.now) ⊎ (bytes.now ≡ capitals_then_small.now ++ rest.now))) }
{
    match letters_of(bytes) {
        Letters::Capitals => {
            let rest = behind_all(capitals, bytes)?;
            Some(rest)
        }
        Letters::Small => {
            let rest = behind_all(small, bytes)?;
            Some(rest)
        }
        Letters::CapitalsThenSmall => {
            let rest = behind_all(capitals_then_small, bytes)?;
            Some(rest)
        }
    }
}

/// What stands behind the names of a question for an address.
fn behind_address(bytes: &[u8]) -> Option<&[u8]>
    ensures { IfSome result (λ rest. IsBehindNames 3 (codes "get-master-addr-by-name") bytes.now rest.now) }
{
    let rest = behind_names(ADDRESS, ADDRESS_SMALL, ADDRESS_THEN_SMALL, bytes)?;
    Some(rest)
}

/// What stands behind the names of the question whether a master is down.
fn behind_question(bytes: &[u8]) -> Option<&[u8]>
    ensures { IfSome result (λ rest. IsBehindNames 6 (codes "is-master-down-by-addr") bytes.now rest.now) }
{
    let rest = behind_names(QUESTION, QUESTION_SMALL, QUESTION_THEN_SMALL, bytes)?;
    Some(rest)
}

fn ping_at(bytes: &[u8]) -> Option<(Result<Command, CommandFault>, &[u8])>
    ensures found { IfSome result (λ x. Found bytes.now x.0 x.1.now) }
    ensures within { IfSome result (λ x. IfOk x.0 IsWithin) }
    ensures common { IfSome result (λ x. IfOk x.0 IsCommon) }
{
    let rest = behind_ping(bytes)?;
    Some((Ok(Command::Ping), rest))
}

fn address_at(bytes: &[u8]) -> Option<(Result<Command, CommandFault>, &[u8])>
    ensures found { IfSome result (λ x. Found bytes.now x.0 x.1.now) }
    ensures within { IfSome result (λ x. IfOk x.0 IsWithin) }
    ensures common { IfSome result (λ x. IfOk x.0 IsCommon) }
{
    let (name, rest) = word_at(behind_address(bytes)?)?;
    Some((Ok(Command::GetMasterAddrByName(name_of(name))), rest))
}

fn question_at(bytes: &[u8]) -> Option<(Result<Command, CommandFault>, &[u8])>
    ensures found { IfSome result (λ x. Found bytes.now x.0 x.1.now) }
    ensures within { IfSome result (λ x. IfOk x.0 IsWithin) }
    ensures common { IfSome result (λ x. IfOk x.0 IsCommon) }
{
    let (ip, rest) = word_at(behind_question(bytes)?)?;
    let (port, rest) = word_at(rest)?;
    let (epoch, rest) = word_at(rest)?;
    let (id, rest) = word_at(rest)?;
    Some((question_of(ip, port, epoch, id), rest))
}

/// The command at the front and what stands behind it, if it is a frequent one. The number of its words, which is its
/// second byte, tells which it may be.
pub(crate) fn asked_at(bytes: &[u8]) -> Option<(Result<Command, CommandFault>, &[u8])>
    ensures found { IfSome result (λ x. Found bytes.now x.0 x.1.now) }
    ensures within { IfSome result (λ x. IfOk x.0 IsWithin) }
    ensures common { IfSome result (λ x. IfOk x.0 IsCommon) }
{
    match bytes.get(1)? {
        b'1' => ping_at(bytes),
        b'3' => address_at(bytes),
        b'6' => question_at(bytes),
        _ => None,
    }
}

/// The command at the front and how many bytes spell it, if it is a frequent one. No memory is taken.
pub(crate) fn asked_of(bytes: &[u8]) -> Option<(Result<Command, CommandFault>, usize)>
    ensures found { IfSome result (λ x. Found bytes.now x.0 (drop x.1 bytes.now)) }
    ensures short { IfSome result (λ x. x.1 ≤ length bytes.now) }
    ensures within { IfSome result (λ x. IfOk x.0 IsWithin) }
    ensures common { IfSome result (λ x. IfOk x.0 IsCommon) }
{
    match asked_at(bytes) {
        Some((asked, rest)) => Some((asked, bytes.len().saturating_sub(rest.len()))),
        None => None,
    }
}
