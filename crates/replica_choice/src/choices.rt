//! The choice among the candidates.

ghost use Rattle.std.specs.Prelude.{◌≡◌, ◌↔◌, ◌<◌, ℕ, IfSome, IsNone, length};
ghost use Rattle.replica_choice.specs.Choices.{with_place, choice_of, IsEligible, IsBetter};

use crate::candidates::{Candidate, Limits};

/// The best place so far, after one more place.
fn best_with(
    candidates: &[Candidate],
    now: u64,
    limits: &Limits,
    best: Option<usize>,
    place: usize,
) -> Option<usize>
    requires best { IfSome best (λ best. best < length candidates.now) }
    requires place { place < length candidates.now }
    ensures value { result ≡ with_place candidates.now now limits.now best place }
    ensures listed { IfSome result (λ best. best < length candidates.now) }
{
    if !candidates[place].may_be_chosen(now, limits) {
        return best;
    }
    match best {
        Some(best) if !candidates[place].beats(&candidates[best]) => Some(best),
        _ => Some(place),
    }
}

/// The place of the best candidate of those that may be chosen; None where none may be.
///
/// A candidate may be chosen unless it is down, has priority 0, has had no link to its master for more than
/// `10 * after_ms + master_down_ms`, or has answered no PING or no INFO in the last 5,000 ms. The better one has the
/// smaller priority, then the greater offset, then the smaller run id, then the smaller place.
pub fn choose(candidates: &[Candidate], now: u64, limits: Limits) -> Option<usize>
    ensures value { result ≡ choice_of candidates.now now limits }
    ensures chosen { IfSome result (IsEligible candidates.now now limits) }
    ensures none_better { IfSome result (λ best. (place : ℕ) →
        IsEligible candidates.now now limits place → ¬ IsBetter candidates.now place best) }
    ensures none { IsNone result ↔
        ((place : ℕ) → ¬ IsEligible candidates.now now limits place) }
{
    let mut best: Option<usize> = None;
    for place in 0..candidates.len() {
        best = best_with(candidates, now, &limits, best, place);
    }
    best
}
