//! The name of a table that is nearest to a word.

ghost use Rattle.std.specs.Prelude.{◌≡◌, IfOk, length};
ghost use Rattle.ballot_law.specs.Cuts.{lines};
ghost use Rattle.conf_check.specs.Warnings.Nearest.{nearer_of, nearer, told, nearest};

use ballot_law::Name;
use std::alloc::{AllocError, Global};
use strsim::generic_levenshtein;
use tokens::split_line;

/// The greatest number of edits at which a name is still told.
const EDITS_MAX: usize = 3;

/// A name of a table.
#[derive(Clone, Copy, PartialEq, Eq)]
pub struct Near {
    pub name: Name,
    /// The insertions, deletions and substitutions of bytes that lead to it.
    pub edits: usize,
}

/// The one with fewer edits, the first of equals.
fn nearer_of(best: Option<Near>, next: Near) -> Near
    ensures { result ≡ nearer_of best next }
{
    match best {
        Some(best) if best.edits <= next.edits => best,
        _ => next,
    }
}

/// The nearer one of what was found and this line, which counts where it is a name.
#[tactic(auto, using(ballot_law::specs::NameWords::name_is, ballot_law::specs::NameWords::name_not))]
fn nearer(
    alloc: Global,
    word: &[u8],
    best: Option<Near>,
    text: &[u8],
) -> Result<Option<Near>, AllocError>
    ensures { IfOk result (λ found. found ≡ nearer word.now best text.now) }
{
    let Some(name) = Name::from_slice(text) else {
        return Ok(best);
    };
    let edits = generic_levenshtein(alloc, word, text)?;
    Ok(Some(nearer_of(best, Near { name, edits })))
}

/// The name that was found, where it is near: at most three edits away, and at most half of the word's length.
fn told(length: usize, best: Option<Near>) -> Option<Name>
    ensures { result ≡ told length best }
{
    match best {
        Some(best) if best.edits <= EDITS_MAX && best.edits * 2 <= length => Some(best.name),
        _ => None,
    }
}

/// The line of the table that is nearest to the word, the first of equals, where it is near.
pub fn nearest(alloc: Global, table: &[u8], word: &[u8]) -> Result<Option<Name>, AllocError>
    ensures { IfOk result (λ found. found ≡ nearest (lines table.now) word.now) }
{
    let mut best = None;
    let mut rest = table;
    while !rest.is_empty() {
        let (text, more) = split_line(rest);
        best = nearer(alloc, word, best, text)?;
        rest = more;
    }
    Ok(told(word.len(), best))
}
