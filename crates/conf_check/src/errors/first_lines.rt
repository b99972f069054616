//! The first line of a file that is of a kind.

ghost use Rattle.std.specs.Prelude.{◌≡◌};
ghost use Rattle.ballot_law.specs.Cuts.{lines};
ghost use Rattle.conf_check.specs.Errors.Places.{first_line, has_zero_quorum, is_foreign, is_sought};

use conf_lines::{Line, StateLine, line_of};
use std::str;
use tokens::split_line;

/// Whether the line gives a master the quorum 0.
fn has_zero_quorum(text: &[u8]) -> bool
    ensures { result ≡ has_zero_quorum text.now }
{
    match line_of(text) {
        Line::State(StateLine::Monitor { quorum, .. }) => quorum == 0,
        _ => false,
    }
}

/// Whether the bytes of the line aren't UTF-8.
#[tactic(auto, using(crate::proofs::ErrorsLemmas::Foreign::native_text, crate::proofs::ErrorsLemmas::Foreign::foreign_text))]
fn is_foreign(text: &[u8]) -> bool
    ensures { result ≡ is_foreign text.now }
{
    match str::from_utf8(text) {
        Ok(_) => false,
        Err(_) => true,
    }
}

/// What a line is looked for by.
#[derive(Clone, Copy)]
enum Sought {
    /// It gives a master the quorum 0.
    ZeroQuorum,
    /// Its bytes aren't UTF-8.
    Foreign,
}

/// Whether the line is one that is looked for.
fn is_sought(sought: Sought, text: &[u8]) -> bool
    ensures { result ≡ is_sought sought text.now }
{
    match sought {
        Sought::ZeroQuorum => has_zero_quorum(text),
        Sought::Foreign => is_foreign(text),
    }
}

/// The number of the first line that is looked for.
fn first_line(sought: Sought, bytes: &[u8]) -> Option<u64>
    ensures { result ≡ first_line (is_sought sought) 1 (lines bytes.now) }
{
    let mut number: u64 = 1;
    let mut rest = bytes;
    while !rest.is_empty() {
        let (text, more) = split_line(rest);
        if is_sought(sought, text) {
            return Some(number);
        }
        number += 1;
        rest = more;
    }
    None
}

/// The number of the first line that gives a master the quorum 0, which is the fault `QuorumZero`.
pub fn zero_quorum_line(bytes: &[u8]) -> Option<u64>
    ensures { result ≡ first_line has_zero_quorum 1 (lines bytes.now) }
{
    first_line(Sought::ZeroQuorum, bytes)
}

/// The number of the first line whose bytes aren't UTF-8, which is the fault `NotUtf8`.
pub fn foreign_line(bytes: &[u8]) -> Option<u64>
    ensures { result ≡ first_line is_foreign 1 (lines bytes.now) }
{
    first_line(Sought::Foreign, bytes)
}
