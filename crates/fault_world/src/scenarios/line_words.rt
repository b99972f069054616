//! The words of a line, one after another.

ghost use Rattle.std.specs.Prelude.{◌≡◌, ◌≢◌, ◌∷◌, [], length, MatchOption, MatchResult};
ghost use Rattle.fault_world.specs.declared.scenarios.faults.ScenarioKind.TheVariants.{WrongWords};
ghost use Rattle.fault_world.specs.Scenarios.Read.{words_left};

use crate::scenarios::faults::ScenarioKind;
use tokens::split_at_byte;

/// The next word, and what is left behind it, which is none behind the last word; none where no word is left.
pub fn next_word(rest: Option<&[u8]>) -> Option<(&[u8], Option<&[u8]>)>
    ensures { MatchOption result (words_left rest.entry ≡ [])
        (λ pair. words_left rest.entry ≡ pair.0.now ∷ words_left pair.1) }
{
    let text = rest?;
    match split_at_byte(text, b' ') {
        Some((word, behind)) => Some((word, Some(behind))),
        None => Some((text, None)),
    }
}

/// The one word that is left.
pub fn one_word(rest: Option<&[u8]>) -> Result<&[u8], ScenarioKind>
    ensures { MatchResult result (λ word. words_left rest.entry ≡ word.now ∷ [])
        (λ kind. (kind ≡ WrongWords) × (length (words_left rest.entry) ≢ 1)) }
{
    let Some((word, more)) = next_word(rest) else {
        return Err(ScenarioKind::WrongWords);
    };
    if next_word(more).is_some() {
        return Err(ScenarioKind::WrongWords);
    }
    Ok(word)
}

/// The two words that are left.
pub fn two_words(rest: Option<&[u8]>) -> Result<(&[u8], &[u8]), ScenarioKind>
    ensures { MatchResult result (λ pair. words_left rest.entry ≡ pair.0.now ∷ pair.1.now ∷ [])
        (λ kind. (kind ≡ WrongWords) × (length (words_left rest.entry) ≢ 2)) }
{
    let Some((first, more)) = next_word(rest) else {
        return Err(ScenarioKind::WrongWords);
    };
    let second = one_word(more)?;
    Ok((first, second))
}

/// The four words that are left.
pub fn four_words(rest: Option<&[u8]>) -> Result<(&[u8], &[u8], &[u8], &[u8]), ScenarioKind>
    ensures { MatchResult result
        (λ four. words_left rest.entry ≡ four.0.now ∷ four.1.now ∷ four.2.now ∷ four.3.now ∷ [])
        (λ kind. (kind ≡ WrongWords) × (length (words_left rest.entry) ≢ 4)) }
{
    let Some((first, more)) = next_word(rest) else {
        return Err(ScenarioKind::WrongWords);
    };
    let Some((second, more)) = next_word(more) else {
        return Err(ScenarioKind::WrongWords);
    };
    let (third, fourth) = two_words(more)?;
    Ok((first, second, third, fourth))
}
