//! The words of a line, as Redis reads them.

ghost use Rattle.std.specs.Prelude.{◌≡◌, ◌<◌, ◌≤◌, ◌∷◌, ◌==◌, None, Some, false, length, drop, slice_index, IfOk, IfSome, MatchOption};
ghost use Rattle.std.specs.Char.{to_ascii_lowercase};
ghost use Rattle.ballot_law.specs.Words.{some_if};
ghost use Rattle.tokens.specs.Quotes.{is_space, ends_word, is_comment, quote_of, quote_byte, is_hex_digit, digit_value, hex_byte, named_byte, escaped, single_escaped, escaped_in, meant, word_first, byte_first, bytes_first, mode_in, piece_words, IsShorter, words_at, redis_words};
ghost use Rattle.tokens.specs.Quotes.Mode.{Between, Plain, Inside, Closed};

use ballot_law::{NoMemory, Text};
use std::alloc::Global;

/// The two kinds of quotes.
#[derive(Clone, Copy, PartialEq, Eq)]
pub enum Quote {
    /// `"`, within which a backslash stands before a byte that it gives a meaning.
    Double,
    /// `'`, within which a backslash counts before a `'` alone.
    Single,
}

/// What the first bytes of a text are to a word, and what follows them.
#[derive(Clone, Copy)]
pub enum Piece<'a> {
    /// They stand for a byte of it.
    Byte(u8, &'a [u8]),
    /// They open this quote.
    Opens(Quote, &'a [u8]),
    /// They end it.
    Ends(&'a [u8]),
    /// They close a quote, and no space is after it.
    Broken,
}

/// Whether the byte stands between words.
fn is_space(byte: u8) -> bool
    ensures { result ≡ is_space byte }
{
    byte == b' ' || (9 <= byte && byte <= 13)
}

/// Whether the byte ends a word that isn't quoted.
fn ends_word(byte: u8) -> bool
    ensures { result ≡ ends_word byte }
{
    byte == b' ' || byte == b'\t' || byte == b'\n' || byte == b'\r'
}

/// The text from its first byte on that is no space.
fn after_spaces(text: &[u8]) -> &[u8]
    ensures comment { is_comment result.now ≡ is_comment text.now }
    ensures words { words_at text.now Between ≡ words_at result.now Between }
    ensures within { length result.now ≤ length text.now }
    ensures first { 0 < length result.now → is_space (slice_index result.now 0) ≡ false }
{
    let mut rest = text;
    while let [first, more @ ..] = rest {
        if !is_space(*first) {
            return rest;
        }
        rest = more;
    }
    rest
}

/// Whether the line is a comment.
pub fn is_comment(text: &[u8]) -> bool
    ensures { result ≡ is_comment text.now }
{
    let mut rest = text;
    while let [first, more @ ..] = rest {
        if !is_space(*first) {
            return *first == b'#';
        }
        rest = more;
    }
    false
}

/// The kind of quote that the byte is.
fn quote_of(byte: u8) -> Option<Quote>
    ensures { result ≡ quote_of byte }
{
    match byte {
        b'"' => Some(Quote::Double),
        b'\'' => Some(Quote::Single),
        _ => None,
    }
}

/// The byte of a quote.
fn quote_byte(quote: Quote) -> u8
    ensures { result ≡ quote_byte quote }
{
    match quote {
        Quote::Double => b'"',
        Quote::Single => b'\'',
    }
}

/// The value of a hex digit, in whatever case.
fn digit_value(byte: u8) -> Option<u8>
    ensures value { result ≡ some_if (is_hex_digit byte) (digit_value byte) }
    ensures range { IfSome result (λ value. value < 16) }
{
    let low = byte.to_ascii_lowercase();
    if b'0' <= low && low <= b'9' {
        return Some(low - b'0');
    }
    if b'a' <= low && low <= b'f' {
        return Some(low - 87);
    }
    None
}

/// The byte of an `x` and two hex digits.
fn hex_byte(text: &[u8]) -> Option<u8>
    ensures value { result ≡ hex_byte text.now }
    ensures three { IfSome result (λ _. 3 ≤ length text.now) }
{
    let [x, high, low, ..] = text else {
        return None;
    };
    if *x != b'x' {
        return None;
    }
    let high = digit_value(*high)?;
    let low = digit_value(*low)?;
    Some(high * 16 + low)
}

/// What a byte after a backslash stands for.
fn named_byte(byte: u8) -> u8
    ensures { result ≡ named_byte byte }
{
    match byte {
        b'n' => 10,
        b'r' => 13,
        b't' => 9,
        b'b' => 8,
        b'a' => 7,
        _ => byte,
    }
}

/// What a backslash stands for within double quotes with these bytes after it, and how many of them belong to it.
fn escaped(text: &[u8]) -> (u8, usize)
    ensures value { result ≡ escaped text.now }
    ensures within { result.1 ≤ length text.now }
{
    let Some(first) = text.first() else {
        return (b'\\', 0);
    };
    match hex_byte(text) {
        Some(byte) => (byte, 3),
        None => (named_byte(*first), 1),
    }
}

/// The same within single quotes.
fn single_escaped(text: &[u8]) -> (u8, usize)
    ensures value { result ≡ single_escaped text.now }
    ensures within { result.1 ≤ length text.now }
{
    match text.first() {
        Some(first) if *first == b'\'' => (b'\'', 1),
        _ => (b'\\', 0),
    }
}

/// The byte for which this one stands within quotes, and how many of those after it belong to it.
fn meant(quote: Quote, byte: u8, more: &[u8]) -> (u8, usize)
    ensures value { result ≡ meant quote byte more.now }
    ensures within { result.1 ≤ length more.now }
{
    if byte != b'\\' {
        return (byte, 0);
    }
    match quote {
        Quote::Double => escaped(more),
        Quote::Single => single_escaped(more),
    }
}

/// What follows a quote that closes, where a space or nothing is after it.
fn after_quote(text: &[u8]) -> Option<&[u8]>
    ensures words { MatchOption result (words_at text.now Closed ≡ None)
        (λ rest. words_at text.now Closed ≡ words_at rest.now Between) }
    ensures within { IfSome result (λ rest. length rest.now ≤ length text.now) }
{
    match text.split_first() {
        None => Some(text),
        Some((first, more)) => {
            if is_space(*first) {
                return Some(more);
            }
            None
        }
    }
}

/// The text after so many of its bytes.
fn after_bytes(text: &[u8], count: usize) -> &[u8]
    requires { count ≤ length text.now }
    ensures { result.now ≡ drop count text.now }
{
    let (_, rest) = text.split_at(count);
    rest
}

/// What the first byte of a text is to a word that isn't quoted there.
fn plain_piece(first: u8, more: &[u8]) -> Piece<'_>
    ensures words { words_at (first ∷ more.now) Plain ≡ piece_words None result }
    ensures shorter { IsShorter result (first ∷ more.now) }
{
    if ends_word(first) {
        return Piece::Ends(more);
    }
    match quote_of(first) {
        Some(quote) => Piece::Opens(quote, more),
        None => Piece::Byte(first, more),
    }
}

/// What the first bytes of a text are to a word that is within this quote.
#[tactic(auto, using(crate::proofs::QuoteLemmas::quoted_byte, crate::proofs::QuoteLemmas::quote_closes))]
fn quoted_piece(quote: Quote, first: u8, more: &[u8]) -> Piece<'_>
    ensures words { words_at (first ∷ more.now) (Inside quote 0) ≡ piece_words (Some quote) result }
    ensures shorter { IsShorter result (first ∷ more.now) }
{
    if first == quote_byte(quote) {
        return match after_quote(more) {
            Some(rest) => Piece::Ends(rest),
            None => Piece::Broken,
        };
    }
    let (byte, taken) = meant(quote, first, more);
    Piece::Byte(byte, after_bytes(more, taken))
}

/// What the first bytes of a text that isn't empty are to a word, which is within this quote or in none.
fn next_piece(within: Option<Quote>, text: &[u8]) -> Piece<'_>
    requires { 0 < length text.now }
    ensures words { words_at text.now (mode_in within) ≡ piece_words within result }
    ensures shorter { IsShorter result text.now }
{
    match text.split_first() {
        None => Piece::Broken,
        Some((first, more)) => match within {
            Some(quote) => quoted_piece(quote, *first, more),
            None => plain_piece(*first, more),
        },
    }
}

/// The word with which a text begins that isn't empty, and what follows it. None where a quote doesn't close.
fn word_and_rest(alloc: Global, text: &[u8]) -> Result<Option<(Vec<u8>, &[u8])>, NoMemory>
    requires { 0 < length text.now }
    ensures words { IfOk result (λ found. MatchOption found (words_at text.now Plain ≡ None)
        (λ cut. words_at text.now Plain ≡ word_first cut.0.items (words_at cut.1.now Between))) }
    ensures shorter { IfOk result (λ found. IfSome found (λ cut. length cut.1.now < length text.now)) }
{
    let mut word = Vec::new(alloc);
    let mut within = None;
    let mut rest = text;
    while !rest.is_empty() {
        match next_piece(within, rest) {
            Piece::Byte(byte, more) => {
                word.push(byte)?;
                rest = more;
            }
            Piece::Opens(quote, more) => {
                within = Some(quote);
                rest = more;
            }
            Piece::Ends(more) => return Ok(Some((word, more))),
            Piece::Broken => return Ok(None),
        }
    }
    match within {
        None => Ok(Some((word, rest))),
        Some(_) => Ok(None),
    }
}

/// The words of a line, without their quotes. None where a quote doesn't close, or where no space is after one that
/// does. NoMemory: memory was refused.
#[tactic(auto, using(crate::proofs::QuoteLemmas::begins_word, crate::proofs::QuoteLemmas::one_joined))]
pub fn redis_words(alloc: Global, text: &[u8]) -> Result<Option<Vec<Text>>, NoMemory>
    ensures { IfOk result (λ found. MatchOption found (redis_words text.now ≡ None) (λ words. redis_words text.now ≡ Some words.items)) }
{
    let mut words = Vec::new(alloc);
    let mut rest = after_spaces(text);
    while !rest.is_empty() {
        let Some((word, more)) = word_and_rest(alloc, rest)? else {
            return Ok(None);
        };
        words.push(Text::from_vec(word))?;
        rest = after_spaces(more);
    }
    Ok(Some(words))
}
