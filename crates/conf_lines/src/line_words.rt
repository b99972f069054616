//! The words of a line.

ghost use Rattle.std.specs.Prelude.{◌≡◌, ◌<◌, ◌≤◌, ◌+◌, ◌∷◌, [], length, take, drop, MatchOption, bytes_eq};
ghost use Rattle.ballot_law.specs.Cuts.{IsEnd};
ghost use Rattle.ballot_law.specs.Words.{lower};
ghost use Rattle.conf_lines.specs.Words.{is_blank, is_edge, is_quote, after_edges, before_edges, trimmed, words_at};
ghost use Rattle.conf_lines.specs.Words.Mode.{Between, Plain, Quoted};

use memchr::{memchr, memchr2};

/// Where the first space or tab stands, or the length where there is none.
fn blank_place(text: &[u8]) -> usize
    ensures { IsEnd is_blank text.now result }
{
    memchr2(b' ', b'\t', text).unwrap_or(text.len())
}

/// Where the first quote stands, or the length where there is none.
fn quote_place(text: &[u8]) -> usize
    ensures { IsEnd is_quote text.now result }
{
    memchr(b'"', text).unwrap_or(text.len())
}

/// What stands before the byte at this place, and what stands behind it.
fn split_around(text: &[u8], place: usize) -> (&[u8], &[u8])
    requires { place ≤ length text.now }
    ensures before { result.0.now ≡ take place text.now }
    ensures behind { result.1.now ≡ drop (place + 1) text.now }
    ensures shorter { 0 < length text.now → length result.1.now < length text.now }
{
    let (before, tail) = text.split_at(place);
    match tail.split_first() {
        None => (before, tail),
        Some((_, behind)) => (before, behind),
    }
}

/// Whether the byte is left out at the ends of a line: a space, a tab or a CR.
fn is_edge(byte: u8) -> bool
    ensures { result ≡ is_edge byte }
{
    byte == b' ' || byte == b'\t' || byte == b'\r'
}

/// The text from its first byte on that isn't left out.
fn after_edges(text: &[u8]) -> &[u8]
    ensures { result.now ≡ after_edges text.now }
{
    let mut rest = text;
    while let [first, more @ ..] = rest {
        if !is_edge(*first) {
            return rest;
        }
        rest = more;
    }
    rest
}

/// The text up to its last byte that isn't left out.
#[tactic(auto, using(crate::proofs::Cuts::before_edges_stays, crate::proofs::Cuts::before_edges_drops))]
fn before_edges(text: &[u8]) -> &[u8]
    ensures { result.now ≡ before_edges text.now }
{
    let mut rest = text;
    while let [more @ .., last] = rest {
        if !is_edge(*last) {
            return rest;
        }
        rest = more;
    }
    rest
}

/// The line without spaces, tabs and CRs at its ends.
pub fn trimmed(text: &[u8]) -> &[u8]
    ensures { result.now ≡ trimmed text.now }
{
    before_edges(after_edges(text))
}

/// A word that didn't begin with a quote, and what follows it.
#[tactic(auto, using(crate::proofs::Cuts::plain_cut))]
fn plain_word(text: &[u8]) -> (&[u8], &[u8])
    ensures { words_at text.now Plain ≡ result.0.now ∷ words_at result.1.now Between }
{
    split_around(text, blank_place(text))
}

/// A word that began with a quote, without its quotes, and what follows it.
#[tactic(auto, using(crate::proofs::Cuts::quoted_cut))]
fn quoted_word(text: &[u8]) -> (&[u8], &[u8])
    ensures { words_at text.now Quoted ≡ result.0.now ∷ words_at result.1.now Between }
{
    split_around(text, quote_place(text))
}

/// Whether the byte stands between words: a space or a tab.
fn is_blank(byte: u8) -> bool
    ensures { result ≡ is_blank byte }
{
    byte == b' ' || byte == b'\t'
}

/// The first word of a line, and what follows it; none where there is no word.
pub fn next_word(text: &[u8]) -> Option<(&[u8], &[u8])>
    ensures { MatchOption result (words_at text.now Between ≡ [])
        (λ pair. words_at text.now Between ≡ pair.0.now ∷ words_at pair.1.now Between) }
{
    let mut rest = text;
    while let [first, more @ ..] = rest {
        if *first == b'"' {
            return Some(quoted_word(more));
        }
        if !is_blank(*first) {
            return Some(plain_word(rest));
        }
        rest = more;
    }
    None
}

/// Whether the word is this name, but for the case of its ASCII letters.
pub fn is_named(word: &[u8], name: &[u8]) -> bool
    ensures { result ≡ bytes_eq (lower word.now) (lower name.now) }
{
    word.eq_ignore_ascii_case(name)
}
