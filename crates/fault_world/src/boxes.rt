//! What a boxed node tells.

ghost use Rattle.std.specs.Prelude.{◌≡◌, ◌↔◌, IsTrue};
ghost use Rattle.boxed_nodes.specs.Moves.{ShowsKind, ShowsCard};

use ballot_law::{Card, NodeName, Roster};
use boxed_nodes::Node;

/// The name of the node.
pub(crate) fn name_of(node: &Box<dyn Node>) -> NodeName
    ensures value { result ≡ name node.now }
    ensures kind { ShowsKind (name node.now) (shows node.now) }
{
    node.kind()
}

/// Whether the node knows the roster.
pub(crate) fn has_roster(node: &Box<dyn Node>, roster: &Roster) -> bool
    ensures { IsTrue result ↔ is_known node.now roster.now }
{
    node.knows(roster)
}

/// The configuration of a master that the node tells.
pub(crate) fn card_of(node: &Box<dyn Node>, m: u16) -> Option<Card>
    ensures { ShowsCard m result (shows node.now) }
{
    node.card(m)
}
