//! The words behind a directive's name, each kind with its fault.

ghost use Rattle.std.specs.Prelude.{◌≡◌, ◌≢◌, ◌∷◌, ◌≤◌, [], length, None, Some, MatchOption, MatchResult};
ghost use Rattle.ballot_law.specs.Words.{name, ip, port, address, run_id, number_within};
ghost use Rattle.conf_lines.specs.Words.{words_at};
ghost use Rattle.conf_lines.specs.Words.Mode.{Between};
ghost use Rattle.conf_lines.specs.declared.faults.ConfKind.TheVariants.{BadDirective, BadNumber, BadAddress, BadName, BadRunId};

use crate::faults::ConfKind;
use crate::line_words::next_word;
use ballot_law::{Addr, Name, RunId};
use tokens::{address_of, ip_of, number_of, port_of, run_id_of};

/// The one word of this text.
pub fn one_word(text: &[u8]) -> Result<&[u8], ConfKind>
    ensures { MatchResult result (λ word. words_at text.now Between ≡ word.now ∷ [])
        (λ kind. (kind ≡ BadDirective) × (length (words_at text.now Between) ≢ 1)) }
{
    let Some((word, rest)) = next_word(text) else {
        return Err(ConfKind::BadDirective);
    };
    if next_word(rest).is_some() {
        return Err(ConfKind::BadDirective);
    }
    Ok(word)
}

/// The two words of this text.
pub fn two_words(text: &[u8]) -> Result<(&[u8], &[u8]), ConfKind>
    ensures { MatchResult result
        (λ pair. words_at text.now Between ≡ pair.0.now ∷ pair.1.now ∷ [])
        (λ kind. (kind ≡ BadDirective) × (length (words_at text.now Between) ≢ 2)) }
{
    let Some((first, rest)) = next_word(text) else {
        return Err(ConfKind::BadDirective);
    };
    let second = one_word(rest)?;
    Ok((first, second))
}

/// The three words of this text.
pub fn three_words(text: &[u8]) -> Result<(&[u8], &[u8], &[u8]), ConfKind>
    ensures { MatchResult result
        (λ ws. words_at text.now Between ≡ ws.0.now ∷ ws.1.now ∷ ws.2.now ∷ [])
        (λ kind. (kind ≡ BadDirective) × (length (words_at text.now Between) ≢ 3)) }
{
    let Some((first, rest)) = next_word(text) else {
        return Err(ConfKind::BadDirective);
    };
    let (second, third) = two_words(rest)?;
    Ok((first, second, third))
}

/// The four words of this text.
pub fn four_words(text: &[u8]) -> Result<(&[u8], &[u8], &[u8], &[u8]), ConfKind>
    ensures { MatchResult result
        (λ ws. words_at text.now Between ≡ ws.0.now ∷ ws.1.now ∷ ws.2.now ∷ ws.3.now ∷ [])
        (λ kind. (kind ≡ BadDirective) × (length (words_at text.now Between) ≢ 4)) }
{
    let Some((first, rest)) = next_word(text) else {
        return Err(ConfKind::BadDirective);
    };
    let (second, third, fourth) = three_words(rest)?;
    Ok((first, second, third, fourth))
}

/// A master's name.
#[tactic(auto, using(ballot_law::specs::NameWords::name_is, ballot_law::specs::NameWords::name_not))]
pub fn name_word(word: &[u8]) -> Result<Name, ConfKind>
    ensures { MatchResult result (λ n. name word.now ≡ Some n)
        (λ kind. (kind ≡ BadName) × (name word.now ≡ None)) }
{
    match Name::from_slice(word) {
        Some(name) => Ok(name),
        None => Err(ConfKind::BadName),
    }
}

/// A number within these bounds.
pub fn number_word(word: &[u8], low: u64, high: u64) -> Result<u64, ConfKind>
    ensures value { MatchResult result (λ n. number_within low high word.now ≡ Some n)
        (λ kind. (kind ≡ BadNumber) × (number_within low high word.now ≡ None)) }
    ensures range { MatchResult result (λ n. (low ≤ n) × (n ≤ high)) (λ kind. kind ≡ BadNumber) }
{
    match number_of(word, low, high) {
        Some(number) => Ok(number),
        None => Err(ConfKind::BadNumber),
    }
}

/// A port by itself.
pub fn port_word(word: &[u8]) -> Result<u16, ConfKind>
    ensures { MatchResult result (λ p. port word.now ≡ Some p)
        (λ kind. (kind ≡ BadNumber) × (port word.now ≡ None)) }
{
    match port_of(word) {
        Some(port) => Ok(port),
        None => Err(ConfKind::BadNumber),
    }
}

/// An ip by itself.
pub fn ip_word(word: &[u8]) -> Result<u32, ConfKind>
    ensures { MatchResult result (λ i. ip word.now ≡ Some i)
        (λ kind. (kind ≡ BadAddress) × (ip word.now ≡ None)) }
{
    match ip_of(word) {
        Some(ip) => Ok(ip),
        None => Err(ConfKind::BadAddress),
    }
}

/// An ip and a port.
pub fn address_words(ip: &[u8], port: &[u8]) -> Result<Addr, ConfKind>
    ensures { MatchResult result (λ a. address ip.now port.now ≡ Some a)
        (λ kind. (kind ≡ BadAddress) × (address ip.now port.now ≡ None)) }
{
    match address_of(ip, port) {
        Some(addr) => Ok(addr),
        None => Err(ConfKind::BadAddress),
    }
}

/// A run id.
pub fn run_id_word(word: &[u8]) -> Result<RunId, ConfKind>
    ensures { MatchResult result (λ i. run_id word.now ≡ Some i)
        (λ kind. (kind ≡ BadRunId) × (run_id word.now ≡ None)) }
{
    match run_id_of(word) {
        Some(id) => Ok(id),
        None => Err(ConfKind::BadRunId),
    }
}
