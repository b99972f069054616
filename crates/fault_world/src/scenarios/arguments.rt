//! The arguments of a line, each kind with its fault.

ghost use Rattle.std.specs.Prelude.{◌≡◌, ◌≤◌, ◌∷◌, [], true, false, is_some, codes, IfOk, MatchResult};
ghost use Rattle.ballot_law.specs.Words.{number_within};
ghost use Rattle.fault_world.specs.declared.scenarios.faults.ScenarioKind.TheVariants.{WrongWords, BadNumber};
ghost use Rattle.fault_world.specs.Scenarios.Scenarios.{NUMBER_MAX, Node, OneOf, is_node, may_be, has_number, number, place, node, kept, refused};

use crate::scenarios::faults::ScenarioKind;
use ballot_law::{KeptText, NodeName};
use tokens::number_of;

/// Refuses a word that doesn't begin as a node's does: with `s`, `d` or `c`.
pub fn check_node(word: &[u8]) -> Result<(), ScenarioKind>
    ensures { MatchResult result (λ _. is_node word.now ≡ true)
        (λ kind. (kind ≡ WrongWords) × (is_node word.now ≡ false)) }
{
    match word {
        [b's', ..] => Ok(()),
        [b'd', ..] => Ok(()),
        [b'c', ..] => Ok(()),
        _ => Err(ScenarioKind::WrongWords),
    }
}

/// A number up to this one.
pub fn number_word(word: &[u8], greatest: u64) -> Result<u64, ScenarioKind>
    ensures range { IfOk result (λ n. n ≤ greatest) }
    ensures value { MatchResult result
        (λ n. (is_some (number_within 0 greatest word.now) ≡ true) × (n ≡ number word.now))
        (λ kind. (kind ≡ BadNumber) × (is_some (number_within 0 greatest word.now) ≡ false)) }
{
    number_of(word, 0, greatest).ok_or(ScenarioKind::BadNumber)
}

/// The place of a node or the number of a master. One that no roster has counts as 65,535, which none has either.
pub fn place_word(word: &[u8]) -> Result<u16, ScenarioKind>
    ensures { MatchResult result
        (λ p. (is_some (number_within 0 NUMBER_MAX word.now) ≡ true) × (p ≡ place word.now))
        (λ kind. (kind ≡ BadNumber) × (is_some (number_within 0 NUMBER_MAX word.now) ≡ false)) }
{
    let number = number_word(word, u64::MAX)?;
    Ok(number.min(u64::from(u16::MAX)) as u16)
}

/// The node of a word that begins as a node's does.
pub fn node_word(word: &[u8]) -> Result<NodeName, ScenarioKind>
    ensures { MatchResult result (λ n. (has_number Node word.now ≡ true) × (n ≡ node word.now))
        (λ kind. (kind ≡ BadNumber) × (has_number Node word.now ≡ false)) }
{
    let Some((letter, digits)) = word.split_first() else {
        return Err(ScenarioKind::BadNumber);
    };
    let place = place_word(digits)?;
    if *letter == b's' {
        Ok(NodeName::SentinelAt(place))
    } else if *letter == b'd' {
        Ok(NodeName::StoreAt(place))
    } else {
        Ok(NodeName::ClientAt(place))
    }
}

/// Which text is left: `old` or `new`.
pub fn kept_word(word: &[u8]) -> Result<KeptText, ScenarioKind>
    ensures { MatchResult result
        (λ text. (may_be (OneOf (codes "old" ∷ codes "new" ∷ [])) word.now ≡ true)
        × (text ≡ kept word.now))
        (λ kind. (kind ≡ WrongWords)
        × (may_be (OneOf (codes "old" ∷ codes "new" ∷ [])) word.now ≡ false)) }
{
    if word == b"old".as_slice() {
        Ok(KeptText::Old)
    } else if word == b"new".as_slice() {
        Ok(KeptText::New)
    } else {
        Err(ScenarioKind::WrongWords)
    }
}

/// Which text a refused store leaves, `old` or `new`; none for `ok`, a store that isn't refused.
pub fn store_word(word: &[u8]) -> Result<Option<KeptText>, ScenarioKind>
    ensures { MatchResult result
        (λ text. (may_be (OneOf (codes "ok" ∷ codes "old" ∷ codes "new" ∷ [])) word.now ≡ true)
        × (text ≡ refused word.now))
        (λ kind. (kind ≡ WrongWords)
        × (may_be (OneOf (codes "ok" ∷ codes "old" ∷ codes "new" ∷ [])) word.now ≡ false)) }
{
    if word == b"ok".as_slice() {
        return Ok(None);
    }
    Ok(Some(kept_word(word)?))
}
