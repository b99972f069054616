//! Which node each connection of a Sentinel is to.

ghost use Rattle.std.specs.Prelude.{◌≡◌, ◌≢◌, ◌⊎◌, ◌≤◌, ◌<◌, ◌+◌, ◌*◌, IfSome, IfNone, false};
ghost use Rattle.ballot_law.specs.NodePlaces.{node_count};
ghost use Rattle.ballot_law.specs.declared.messages.NodeName.TheVariants.{SentinelAt};
ghost use Rattle.links.specs.Targets.{place_of, connection_count, IsStore, IsOf};

use ballot_law::{Addr, NodeName, Roster, RunId};

/// The node at the other end of a connection, and its address. A Sentinel has one connection to each other Sentinel,
/// which is to name itself by the run id `id`; to each data node, which has none, it has one for its messages, and one
/// that listens to hellos.
#[derive(Clone, Copy)]
pub struct Target {
    pub node: NodeName,
    pub addr: Addr,
    pub id: Option<RunId>,
    pub listens: bool,
}

/// How many places a Sentinel of this roster has for connections: one for each Sentinel, of which its own stays empty,
/// then two for each data node.
pub fn connection_count(roster: &Roster) -> usize
    ensures value { result ≡ connection_count roster.now }
    ensures few { result ≤ 16_384 }
{
    roster.is_made();
    roster.sentinels().len() + 2 * roster.node_count()
}

/// The place of the connection that takes what is for the data node with this number, after those of so many Sentinels.
fn store_place(sentinels: usize, number: u16) -> usize
    requires { sentinels ≤ 64 }
    ensures { result ≡ sentinels + 2 * number }
{
    sentinels + 2 * number as usize
}

/// The place of the connection that takes what is for this node; none where no connection is to it.
///
/// The connection there, of whatever Sentinel of the roster, is to this node and to no other, and doesn't listen to
/// hellos.
#[tactic(auto, using(crate::proofs::Places::is_alone))]
pub fn place_of(roster: &Roster, node: NodeName) -> Option<usize>
    ensures place { result ≡ place_of roster.now node }
    ensures within { IfSome result (λ place. place < connection_count roster.now) }
    ensures alone { IfSome result (λ place. (target : Target) → IsOf roster.now place target → (target.node ≡ node) × (target.listens ≡ false)) }
{
    let sentinels = roster.sentinels().len();
    match node {
        NodeName::SentinelAt(place) if (place as usize) < sentinels => Some(place as usize),
        NodeName::StoreAt(number) if (number as usize) < roster.node_count() => {
            roster.is_made();
            Some(store_place(sentinels, number))
        }
        _ => None,
    }
}

/// The connection that listens to a data node's hellos, or the one that takes its messages; none where no data node has
/// the number.
#[tactic(auto, using(crate::proofs::Places::is_numbered))]
fn store_target(roster: &Roster, number: usize, listens: bool) -> Option<Target>
    ensures store { IfSome result (IsStore roster.now number) }
    ensures listens { IfSome result (λ target. target.listens ≡ listens) }
    ensures none { IfNone result (node_count roster.now ≤ number) }
{
    roster.is_made();
    if number >= roster.node_count() {
        return None;
    }
    match roster.node_numbered(number as u16) {
        Some(at) => Some(Target {
            node: NodeName::StoreAt(number as u16),
            addr: roster.addr_at(at),
            id: None,
            listens,
        }),
        None => None,
    }
}

/// Which node the connection at this place is to, of the Sentinel at the place `own` of the roster; none at its own
/// place, and past the last one.
#[tactic(auto, using(crate::proofs::Places::is_at, crate::proofs::Places::is_past, crate::proofs::Places::is_other))]
pub fn target_at(roster: &Roster, own: u16, place: usize) -> Option<Target>
    ensures target { IfSome result (IsOf roster.now place) }
    ensures other { IfSome result (λ target. target.node ≢ SentinelAt own) }
    ensures none { IfNone result ((place ≡ own) ⊎ (connection_count roster.now ≤ place)) }
{
    roster.is_made();
    let sentinels = roster.sentinels();
    if place < sentinels.len() {
        if place == own as usize {
            return None;
        }
        return Some(Target {
            node: NodeName::SentinelAt(place as u16),
            addr: sentinels[place].addr,
            id: Some(sentinels[place].id),
            listens: false,
        });
    }
    let after = place - sentinels.len();
    store_target(roster, after / 2, 2 * (after / 2) < after)
}
