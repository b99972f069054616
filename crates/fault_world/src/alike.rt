//! Whether Sentinels begin with the same configurations.

ghost use Rattle.std.specs.Prelude.{◌≡◌, ◌≢◌, ◌↔◌, ℕ, ◌<◌, ◌≤◌, Some, All, IsTrue, IsFalse, length, slice_get};
ghost use Rattle.ballot_law.specs.RosterFaults.{IsRoster};
ghost use Rattle.boxed_nodes.specs.Moves.{IsFresh};
ghost use Rattle.fault_world.specs.Groups.{IsSentinelName, HaveSameCards, IsAlike, IsMatched, BeginAlike};

use crate::boxes::{card_of, name_of};
use ballot_law::{Card, NodeName, Roster};
use boxed_nodes::Node;

/// Whether the two are one configuration, or both are none.
fn is_same_card(one: Option<Card>, other: Option<Card>) -> bool
    ensures { IsTrue result ↔ (one ≡ other) }
{
    one == other
}

/// Whether a node of this name is a Sentinel.
fn is_sentinel(name: NodeName) -> bool
    ensures { IsTrue result ↔ IsSentinelName name }
{
    match name {
        NodeName::SentinelAt(_) => true,
        NodeName::StoreAt(_) => false,
        NodeName::ClientAt(_) => false,
        NodeName::PortAt(_) => false,
    }
}

/// Whether two nodes that know the roster tell the same configuration of each master.
fn have_same_cards(roster: &Roster, one: &Box<dyn Node>, other: &Box<dyn Node>) -> bool
    requires made { IsRoster roster.now }
    requires one { IsFresh (is_known one.now) (shows one.now) }
    requires other { IsFresh (is_known other.now) (shows other.now) }
    requires one_knows { is_known one.now roster.now }
    requires other_knows { is_known other.now roster.now }
    ensures same { IsTrue result → HaveSameCards roster.now (shows one.now roster.now) (shows other.now roster.now) }
    ensures other { IsFalse result → ¬ (HaveSameCards roster.now (shows one.now roster.now) (shows other.now roster.now)) }
{
    for m in 0..roster.masters().len() {
        if !is_same_card(card_of(one, m as u16), card_of(other, m as u16)) {
            return false;
        }
    }
    true
}

/// Whether the other node is no Sentinel, or tells the same configurations as the one.
fn agrees(roster: &Roster, one: &Box<dyn Node>, other: &Box<dyn Node>) -> bool
    requires made { IsRoster roster.now }
    requires one { IsFresh (is_known one.now) (shows one.now) }
    requires other { IsFresh (is_known other.now) (shows other.now) }
    requires one_knows { is_known one.now roster.now }
    requires other_knows { is_known other.now roster.now }
    ensures agrees { IsTrue result → IsSentinelName (name other.now)
        → HaveSameCards roster.now (shows one.now roster.now) (shows other.now roster.now) }
    ensures other { IsFalse result → ¬ (IsSentinelName (name other.now)
        → HaveSameCards roster.now (shows one.now roster.now) (shows other.now roster.now)) }
{
    if !is_sentinel(name_of(other)) {
        return true;
    }
    have_same_cards(roster, one, other)
}

/// Whether the Sentinels among the nodes tell the same configurations as the node at this place.
fn is_alike(roster: &Roster, nodes: &Vec<Box<dyn Node>>, place: usize) -> bool
    requires made { IsRoster roster.now }
    requires within { place < length nodes.now.items }
    requires fresh { All (λ b. IsFresh (is_known b) (shows b)) nodes.now.items }
    requires known { All (λ b. is_known b roster.now) nodes.now.items }
    ensures alike { IsTrue result → IsAlike (λ b. name b) (λ b. shows b) roster.now nodes.now.items place }
    ensures other { IsFalse result → ¬ (IsAlike (λ b. name b) (λ b. shows b) roster.now nodes.now.items place) }
{
    let one = &nodes[place];
    for k in 0..nodes.len() {
        if !agrees(roster, one, &nodes[k]) {
            return false;
        }
    }
    true
}

/// Whether the node at this place is no Sentinel, or the Sentinels tell the same configurations as it.
fn is_matched(roster: &Roster, nodes: &Vec<Box<dyn Node>>, place: usize) -> bool
    requires made { IsRoster roster.now }
    requires within { place < length nodes.now.items }
    requires fresh { All (λ b. IsFresh (is_known b) (shows b)) nodes.now.items }
    requires known { All (λ b. is_known b roster.now) nodes.now.items }
    ensures matched { IsTrue result → IsMatched (λ b. name b) (λ b. shows b) roster.now nodes.now.items place }
    ensures other { IsFalse result → ¬ (IsMatched (λ b. name b) (λ b. shows b) roster.now nodes.now.items place) }
{
    if !is_sentinel(name_of(&nodes[place])) {
        return true;
    }
    is_alike(roster, nodes, place)
}

/// Whether each two Sentinels among the nodes tell the same configurations.
pub(crate) fn begin_alike(roster: &Roster, nodes: &Vec<Box<dyn Node>>) -> bool
    requires made { IsRoster roster.now }
    requires fresh { All (λ b. IsFresh (is_known b) (shows b)) nodes.now.items }
    requires known { All (λ b. is_known b roster.now) nodes.now.items }
    ensures alike { IsTrue result → BeginAlike (λ b. name b) (λ b. shows b) roster.now nodes.now.items }
    ensures other { IsFalse result → ¬ (BeginAlike (λ b. name b) (λ b. shows b) roster.now nodes.now.items) }
{
    for place in 0..nodes.len() {
        if !is_matched(roster, nodes, place) {
            return false;
        }
    }
    true
}
