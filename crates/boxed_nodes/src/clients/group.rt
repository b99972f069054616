//! The nodes that a client may ask.

ghost use Rattle.std.specs.Prelude.{◌≡◌, ◌<◌, map, length, position, IfOk};
ghost use Rattle.std.specs.List.{flat_map};
ghost use Rattle.ballot_law.specs.Orders.{same_addr};
ghost use Rattle.ballot_law.specs.Rosters.{master_at};
ghost use Rattle.boxed_nodes.specs.Clients.Searches.{sentinel_addrs, store_addrs, place_of, sentinel_with, store_with};

use ballot_law::{Addr, Member, Name, NoMemory, NodeName, Roster, Watched};
use std::alloc::Global;
use std::marker::Model;

/// The addresses of all Sentinels and of all data nodes, each in the roster's order, and the name of the master that is
/// searched for.
#[derive(Drop)]
pub(crate) struct Group {
    sentinels: Vec<Addr>,
    stores: Vec<Addr>,
    master: Name,
}

impl Model for Group {
    ghost use Rattle.boxed_nodes.specs.Clients.Searches.{Group as GroupModel};

    ghost Value = { GroupModel };

    ghost view = { λ group. record { sentinels = group.sentinels.items; stores = group.stores.items; master = group.master } };
}

/// The first place of an address in a list.
fn position_of(addrs: &[Addr], addr: Addr) -> Option<usize>
    ensures { result ≡ position (same_addr addr) addrs.now }
{
    addrs.iter().position(|other| addr.is_same(other))
}

/// The place of an address in a list, where a node's name can have it.
fn place_of(addrs: &[Addr], addr: Addr) -> Option<u16>
    ensures { result ≡ place_of addr addrs.now }
{
    match position_of(addrs, addr) {
        Some(place) if place <= u16::MAX as usize => Some(place as u16),
        Some(_) => None,
        None => None,
    }
}

/// The addresses of the Sentinels.
fn addrs_of(alloc: Global, members: &[Member]) -> Result<Vec<Addr>, NoMemory>
    ensures { IfOk result (λ addrs. addrs.items ≡ map (λ member. member.addr) members.now) }
{
    let mut addrs = Vec::new(alloc);
    for member in members {
        addrs.push(member.addr)?;
    }
    Ok(addrs)
}

/// The addresses of the data nodes, master by master.
fn nodes_of(alloc: Global, masters: &[Watched]) -> Result<Vec<Addr>, NoMemory>
    ensures { IfOk result (λ addrs. addrs.items ≡ flat_map (λ master. master.nodes) masters.now) }
{
    let mut addrs = Vec::new(alloc);
    for master in masters {
        addrs.extend_from_slice(master.nodes())?;
    }
    Ok(addrs)
}

impl Group {
    /// The nodes of this roster, and the name of the master with this number.
    pub(crate) fn new(alloc: Global, roster: &Roster, master: u16) -> Result<Group, NoMemory>
        requires { master < length roster.now.masters }
        ensures { IfOk result (λ group. group ≡ record {
          sentinels = sentinel_addrs roster.now;
          stores = store_addrs roster.now;
          master = (master_at roster.now master).name;
        }) }
    {
        let watched = &roster.masters()[master as usize];
        Ok(Group {
            sentinels: addrs_of(alloc, roster.sentinels())?,
            stores: nodes_of(alloc, roster.masters())?,
            master: watched.name,
        })
    }

    /// The addresses of the Sentinels, in the roster's order.
    pub(crate) fn sentinels(&self) -> &[Addr]
        ensures { result.now ≡ self.now.sentinels }
    {
        self.sentinels.as_slice()
    }

    /// The name of the master that is searched for.
    pub(crate) fn master(&self) -> Name
        ensures { result ≡ self.now.master }
    {
        self.master
    }

    /// The Sentinel at an address.
    pub(crate) fn sentinel_with(&self, addr: Addr) -> Option<NodeName>
        ensures { result ≡ sentinel_with self.now addr }
    {
        let place = place_of(&self.sentinels, addr)?;
        Some(NodeName::SentinelAt(place))
    }

    /// The data node at an address.
    pub(crate) fn store_with(&self, addr: Addr) -> Option<NodeName>
        ensures { result ≡ store_with self.now addr }
    {
        let place = place_of(&self.stores, addr)?;
        Some(NodeName::StoreAt(place))
    }
}
