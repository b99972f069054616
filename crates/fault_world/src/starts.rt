//! The members with which a world begins.

ghost use Rattle.std.specs.Prelude.{◌≡◌, ℕ, ◌<◌, ◌≤◌, [], All, map, length, IfOk, IfErr, vec_len, vec_capacity};
ghost use Rattle.boxed_nodes.specs.Moves.{IsFresh, ShowsKind};
ghost use Rattle.fault_world.specs.Seats.{IsSeat};
ghost use Rattle.fault_world.specs.Standing.{IsShown, Begins, Stands};
ghost use Rattle.fault_world.specs.Groups.{IsGroupOf, BeginAlike};
ghost use Rattle.fault_world.specs.Laws.{HasBegun};
ghost use Rattle.fault_world.specs.NewMembers.{IsNewMember};
ghost use Rattle.fault_world.specs.Refusals.{IsRefusal};

use crate::alike::begin_alike;
use crate::faults::WorldFault;
use crate::groups::is_group_of;
use crate::seated::Seated;
use ballot_law::Roster;
use boxed_nodes::Node;
use std::alloc::Global;

/// Makes a member of each node, in order; there is room for them.
fn seat(alloc: Global, mut nodes: Vec<Box<dyn Node>>, members: &mut Vec<Seated>)
    requires fresh { All (λ b. IsFresh (is_known b) (shows b)) nodes.items }
    requires empty { members.old.items ≡ [] }
    requires room { vec_len nodes ≤ vec_capacity members.old }
    ensures nodes { map (λ m. m.node) members.new.items ≡ nodes.items }
    ensures each { All (λ m. IsNewMember m.name (name m.node) m.outbox.held m.stopped) members.new.items }
{
    for node in nodes.drain(..) {
        members.push_reserved(Seated::new(alloc, node));
    }
}

/// The members with which the world of these nodes begins, in the order of the nodes. Condition: each node is fresh.
///
/// `NotTheRoster` is told if, and only if, the nodes aren't each Sentinel and each data node of the roster, once each,
/// and clients of different names, or one of them doesn't know the roster; `DifferentStart` of others, if, and only if,
/// two Sentinels begin with different configurations of a master; `NoMemory` of none of these. A refusal hands the
/// nodes back as they were.
pub fn members_of(
    alloc: Global,
    roster: &Roster,
    nodes: Vec<Box<dyn Node>>,
) -> Result<Vec<Seated>, (WorldFault, Vec<Box<dyn Node>>)>
    requires { All (λ b. IsFresh (is_known b) (shows b)) nodes.items }
    ensures begins { IfOk result (λ members. Begins roster.now
        (IsShown (λ m. m.name) (λ m. IsSeat m.name (name m.node) (shows m.node) m.outbox.held m.stopped) roster.now members.items [])) }
    ensures stands { IfOk result (λ members. Stands roster.now
        (IsShown (λ m. m.name) (λ m. IsSeat m.name (name m.node) (shows m.node) m.outbox.held m.stopped) roster.now members.items [])) }
    ensures since { IfOk result (λ members. HasBegun roster.now
        (IsShown (λ m. m.name) (λ m. IsSeat m.name (name m.node) (shows m.node) m.outbox.held m.stopped) roster.now members.items [])) }
    ensures nodes { IfOk result (λ members. map (λ m. m.node) members.items ≡ nodes.items) }
    ensures group { IfOk result (λ _. IsGroupOf (λ b. name b) (λ b. is_known b roster.now) roster.now nodes.items) }
    ensures alike { IfOk result (λ _. BeginAlike (λ b. name b) (λ b. shows b) roster.now nodes.items) }
    ensures refused { IfErr result (λ refusal. IsRefusal refusal.0
        (IsGroupOf (λ b. name b) (λ b. is_known b roster.now) roster.now nodes.items)
        (BeginAlike (λ b. name b) (λ b. shows b) roster.now nodes.items)) }
    ensures back { IfErr result (λ refusal. refusal.1 ≡ nodes) }
{
    roster.is_made();
    if !is_group_of(roster, &nodes) {
        return Err((WorldFault::NotTheRoster, nodes));
    }
    if !begin_alike(roster, &nodes) {
        return Err((WorldFault::DifferentStart, nodes));
    }
    let mut members = Vec::new(alloc);
    if members.reserve(nodes.len()).is_err() {
        return Err((WorldFault::NoMemory, nodes));
    }
    seat(alloc, nodes, &mut members);
    Ok(members)
}
