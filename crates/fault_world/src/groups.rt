//! Whether nodes are the group of a roster.

ghost use Rattle.std.specs.Prelude.{◌≡◌, ◌≢◌, ◌↔◌, ℕ, ◌<◌, ◌≤◌, Some, All, IsTrue, IsFalse, length, slice_get};
ghost use Rattle.ballot_law.specs.declared.messages.NodeName.{NodeName};
ghost use Rattle.ballot_law.specs.declared.messages.NodeName.TheVariants.{SentinelAt, StoreAt};
ghost use Rattle.ballot_law.specs.NodePlaces.{node_count};
ghost use Rattle.ballot_law.specs.Rosters.{size};
ghost use Rattle.ballot_law.specs.RosterFaults.{IsRoster};
ghost use Rattle.boxed_nodes.specs.Moves.{ShowsKind};
ghost use Rattle.fault_world.specs.Groups.{IsPlaced, HasNamed, IsFirstNamed, AreApart, HasAllBelow, IsGroupOf};

use crate::boxes::{has_roster, name_of};
use ballot_law::{NodeName, Roster};
use boxed_nodes::Node;

/// Whether the two are one name.
fn is_same_name(one: NodeName, other: NodeName) -> bool
    ensures { IsTrue result ↔ (one ≡ other) }
{
    one == other
}

/// Whether one of the nodes has this name.
fn has_named(nodes: &Vec<Box<dyn Node>>, wanted: NodeName) -> bool
    ensures found { IsTrue result → HasNamed (λ b. name b) nodes.now.items wanted }
    ensures none { IsFalse result → ¬ (HasNamed (λ b. name b) nodes.now.items wanted) }
{
    for k in 0..nodes.len() {
        if is_same_name(name_of(&nodes[k]), wanted) {
            return true;
        }
    }
    false
}

/// Whether a node of this name belongs to the roster's group, which has so many data nodes.
fn is_placed(roster: &Roster, stores: usize, name: NodeName) -> bool
    requires { stores ≡ node_count roster.now }
    ensures { IsTrue result ↔ IsPlaced roster.now name }
{
    match name {
        NodeName::SentinelAt(place) => (place as usize) < roster.sentinels().len(),
        NodeName::StoreAt(place) => (place as usize) < stores,
        NodeName::ClientAt(_) => true,
        NodeName::PortAt(_) => false,
    }
}

/// Whether each node belongs to the roster's group.
fn are_placed(roster: &Roster, stores: usize, nodes: &Vec<Box<dyn Node>>) -> bool
    requires { stores ≡ node_count roster.now }
    ensures placed { IsTrue result → All (λ b. IsPlaced roster.now (name b)) nodes.now.items }
    ensures kinds { IsTrue result → All (λ b. ShowsKind (name b) (shows b)) nodes.now.items }
    ensures other { IsFalse result → ¬ (All (λ b. IsPlaced roster.now (name b)) nodes.now.items) }
{
    for k in 0..nodes.len() {
        if !is_placed(roster, stores, name_of(&nodes[k])) {
            return false;
        }
    }
    true
}

/// Whether each node knows the roster.
fn all_know(roster: &Roster, nodes: &Vec<Box<dyn Node>>) -> bool
    ensures known { IsTrue result → All (λ b. is_known b roster.now) nodes.now.items }
    ensures other { IsFalse result → ¬ (All (λ b. is_known b roster.now) nodes.now.items) }
{
    for k in 0..nodes.len() {
        if !has_roster(&nodes[k], roster) {
            return false;
        }
    }
    true
}

/// Whether no node that stands earlier has the name of the one at this place.
fn is_first_named(nodes: &Vec<Box<dyn Node>>, place: usize) -> bool
    requires { place < length nodes.now.items }
    ensures first { IsTrue result → IsFirstNamed (λ b. name b) nodes.now.items place }
    ensures other { IsFalse result → ¬ (IsFirstNamed (λ b. name b) nodes.now.items place) }
{
    let name = name_of(&nodes[place]);
    for j in 0..place {
        if is_same_name(name_of(&nodes[j]), name) {
            return false;
        }
    }
    true
}

/// Whether no two nodes have one name.
fn are_apart(nodes: &Vec<Box<dyn Node>>) -> bool
    ensures apart { IsTrue result → AreApart (λ b. name b) nodes.now.items }
    ensures other { IsFalse result → ¬ (AreApart (λ b. name b) nodes.now.items) }
{
    for place in 0..nodes.len() {
        if !is_first_named(nodes, place) {
            return false;
        }
    }
    true
}

/// Whether each Sentinel of the roster is among the nodes.
fn have_sentinels(roster: &Roster, nodes: &Vec<Box<dyn Node>>) -> bool
    requires { IsRoster roster.now }
    ensures all { IsTrue result → HasAllBelow (λ b. name b) nodes.now.items SentinelAt (size roster.now) }
    ensures other { IsFalse result → ¬ (HasAllBelow (λ b. name b) nodes.now.items SentinelAt (size roster.now)) }
{
    for place in 0..roster.sentinels().len() {
        if !has_named(nodes, NodeName::SentinelAt(place as u16)) {
            return false;
        }
    }
    true
}

/// Whether each of so many data nodes is among the nodes.
fn have_stores(stores: usize, nodes: &Vec<Box<dyn Node>>) -> bool
    requires { stores ≤ 4096 }
    ensures all { IsTrue result → HasAllBelow (λ b. name b) nodes.now.items StoreAt stores }
    ensures other { IsFalse result → ¬ (HasAllBelow (λ b. name b) nodes.now.items StoreAt stores) }
{
    for number in 0..stores {
        if !has_named(nodes, NodeName::StoreAt(number as u16)) {
            return false;
        }
    }
    true
}

/// Whether these nodes are the group of the roster: each Sentinel and each data node of it once, clients of different
/// names, and each knows the roster.
pub(crate) fn is_group_of(roster: &Roster, nodes: &Vec<Box<dyn Node>>) -> bool
    requires { IsRoster roster.now }
    ensures group { IsTrue result → IsGroupOf (λ b. name b) (λ b. is_known b roster.now) roster.now nodes.now.items }
    ensures kinds { IsTrue result → All (λ b. ShowsKind (name b) (shows b)) nodes.now.items }
    ensures other { IsFalse result → ¬ (IsGroupOf (λ b. name b) (λ b. is_known b roster.now) roster.now nodes.now.items) }
{
    let stores = roster.node_count();
    are_placed(roster, stores, nodes)
        && all_know(roster, nodes)
        && are_apart(nodes)
        && have_sentinels(roster, nodes)
        && have_stores(stores, nodes)
}
