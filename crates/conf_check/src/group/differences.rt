//! In what two conf files differ that are to be of one group.

ghost use Rattle.std.specs.Prelude.{◌≡◌, ◌≢◌, ◌↔◌, ◌<◌, ℕ, IfSome, IfNone, IsTrue, length, slice_index_or};
ghost use Rattle.ballot_law.specs.Ballots.{no_kept};
ghost use Rattle.conf_check.specs.Group.Groups.{AreOfOneGroup};

use ballot_law::{Card, KeptMaster, Name, Roster, Watched};
use sentinel_conf::Conf;

/// In what two files differ; a master is told by its name in the first one. The first difference is told, in this
/// order.
#[derive(Clone, Copy, PartialEq, Eq)]
pub enum Difference {
    /// The Sentinels that they name, with their addresses.
    Sentinels,
    /// How many masters they watch, or how they are called.
    Masters,
    /// The data nodes of a master.
    Nodes(Name),
    /// The quorum of a master.
    Quorum(Name),
    /// The configuration that a master begins with: its address, or the epoch of that.
    Start(Name),
}

/// In what two masters at one place differ.
fn difference_of_masters(one: &Watched, other: &Watched) -> Option<Difference> {
    if !one.name.is_same(other.name) {
        return Some(Difference::Masters);
    }
    if one.nodes() != other.nodes() {
        return Some(Difference::Nodes(one.name));
    }
    if one.quorum != other.quorum {
        return Some(Difference::Quorum(one.name));
    }
    None
}

/// In what two rosters differ that aren't the same.
fn difference_of_rosters(one: &Roster, other: &Roster) -> Difference {
    let (some, others) = (one.masters(), other.masters());
    if one.sentinels() != other.sentinels() {
        return Difference::Sentinels;
    }
    if some.len() != others.len() {
        return Difference::Masters;
    }
    for m in 0..some.len() {
        if let Some(found) = difference_of_masters(&some[m], &others[m]) {
            return found;
        }
    }
    Difference::Masters
}

/// Whether the two are one configuration.
pub(crate) fn is_same_card(one: Card, other: Card) -> bool
    ensures { IsTrue result ↔ (one ≡ other) }
{
    one == other
}

/// The number of the first master that begins with different configurations.
fn other_start(some: &[KeptMaster], others: &[KeptMaster]) -> Option<usize>
    requires { length some.now ≡ length others.now }
    ensures some { IfSome result (λ m. (m < length some.now)
        × ((slice_index_or some.now m no_kept).card ≢ (slice_index_or others.now m no_kept).card)) }
    ensures none { IfNone result ((m : ℕ) → m < length some.now
        → (slice_index_or some.now m no_kept).card ≡ (slice_index_or others.now m no_kept).card) }
{
    for m in 0..some.len() {
        if !is_same_card(some[m].card, others[m].card) {
            return Some(m);
        }
    }
    None
}

/// In what two files differ that are to be of one group; none where they are.
pub fn difference_of(one: &Conf, other: &Conf) -> Option<Difference>
    ensures none { IfNone result (AreOfOneGroup one.now other.now) }
    ensures some { IfSome result (λ _. ¬ (AreOfOneGroup one.now other.now)) }
{
    if !one.roster().is_same(other.roster()) {
        return Some(difference_of_rosters(one.roster(), other.roster()));
    }
    let some = one.kept().masters.as_slice();
    let m = other_start(some, other.kept().masters.as_slice())?;
    let master = &one.roster().masters()[m];
    Some(Difference::Start(master.name))
}
