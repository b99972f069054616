//! The fixed roster of a group: its Sentinels, its masters, and each master's data nodes.

ghost use Rattle.std.specs.Prelude.{◌≡◌, ◌==◌, ◌<◌, ◌≤◌, ◌++◌, ◌≢◌, ℕ, nat_lt, map, length, slice_index_or, IfOk, OnOk, IfErr, IfSome, IfNone, ◌⊎◌, Some, None};
ghost use Rattle.std.specs.List.{flat_map, list_any};
ghost use Rattle.ballot_law.specs.Rosters.{need, HasNode, nodes_in_order, master_at, master_listing, no_addr, HasDistinctIds, HasDistinctNames};
ghost use Rattle.ballot_law.specs.Orders.{same_addr, same_bytes, bytes_before};
ghost use Rattle.ballot_law.specs.declared.rosters.TheConstants.{SENTINELS_MAX, MASTERS_MAX, NODES_MAX};
ghost use Rattle.ballot_law.specs.declared.rosters.RosterFault.TheVariants.{NoMemory};
ghost use Rattle.ballot_law.specs.RosterFaults.{IsRoster, Makes, fault_of, first_that_fits, first_tests, last_tests, addresses};
ghost use Rattle.ballot_law.specs.RosterOrder.{IsInOrder, HasSameMembers};

use crate::addresses::{Addr, RunId};
use crate::comparisons::is_same_bytes;
use crate::memory::NoMemory as WantOfMemory;
use crate::names::Name;
use crate::ordering::{Keyed, Placed, has_repeats, ordered};
use std::alloc::{AllocError, Global};
use std::marker::Model;
use thiserror::Error;

/// The greatest number of Sentinels of a group.
pub const SENTINELS_MAX: usize = 64;

/// The greatest number of masters that a group watches.
pub const MASTERS_MAX: usize = 16;

/// The greatest number of data nodes of one master, itself among them.
pub const NODES_MAX: usize = 256;

/// A Sentinel of the roster.
#[derive(Clone, Copy, PartialEq, Eq)]
pub struct Member {
    pub id: RunId,
    pub addr: Addr,
}

/// Why no roster can be made, in the order in which it is judged.
#[derive(Clone, Copy, Debug, PartialEq, Eq, Error)]
pub enum RosterFault {
    #[error("NoSentinel")]
    NoSentinel,
    #[error("TooManySentinels")]
    TooManySentinels,
    #[error("NoMaster")]
    NoMaster,
    #[error("TooManyMasters")]
    TooManyMasters,
    #[error("SameName")]
    SameName,
    #[error("NoNode")]
    NoNode,
    #[error("TooManyNodes")]
    TooManyNodes,
    #[error("QuorumZero")]
    QuorumZero,
    #[error("SameRunId")]
    SameRunId,
    #[error("SharedAddress")]
    SharedAddress,
    #[error("NoMemory")]
    NoMemory,
}

/// A master as it is handed in: its name, its data nodes and its quorum.
#[derive(Drop)]
pub struct Watched {
    pub name: Name,
    nodes: Vec<Addr>,
    pub quorum: u32,
}

impl Model for Watched {
    ghost use Rattle.ballot_law.specs.Rosters.{MasterPlan};

    ghost Value = { MasterPlan };

    ghost view = { λ master. record { name = master.name; nodes = master.nodes.items; quorum = master.quorum } };
}

impl Watched {
    /// A master with these data nodes.
    pub fn new(name: Name, nodes: Vec<Addr>, quorum: u32) -> Watched
        ensures { result ≡ record { name = name; nodes = nodes.items; quorum = quorum } }
    {
        Watched {
            name,
            nodes,
            quorum,
        }
    }
}

impl Watched {
    /// The data nodes: in a roster by address.
    pub fn nodes(&self) -> &[Addr]
        ensures { result.now ≡ self.now.nodes }
    {
        self.nodes.as_slice()
    }
}

impl Placed for Member {
    ghost use Rattle.ballot_law.specs.Orders.{id_before};

    ghost before = { λ a b. id_before a.id b.id };

    fn is_before(&self, other: &Member) -> bool {
        self.id.is_before(&other.id)
    }
}

impl Keyed for Member {
    ghost use Rattle.ballot_law.specs.Orders.{same_id};

    ghost same = { λ a b. same_id a.id b.id };

    fn is_same(&self, other: &Member) -> bool {
        self.id.is_same(&other.id)
    }
}

impl Placed for Watched {
    ghost before = { λ a b. bytes_before a.name b.name };

    fn is_before(&self, other: &Watched) -> bool {
        self.name.is_before(&other.name)
    }
}

impl Keyed for Watched {
    ghost same = { λ a b. same_bytes a.name b.name };

    fn is_same(&self, other: &Watched) -> bool {
        is_same_bytes(self.name.as_slice(), other.name.as_slice())
    }
}

/// The fixed roster of a group, in order.
#[derive(Drop)]
pub struct Roster {
    sentinels: Vec<Member>,
    masters: Vec<Watched>,
}

impl Model for Roster {
    ghost use Rattle.ballot_law.specs.Rosters.{Roster as RosterModel};
    ghost use Rattle.ballot_law.specs.RosterFaults.{IsRoster};

    ghost Value = { RosterModel };

    ghost view = { λ roster. record { sentinels = roster.sentinels.items; masters = roster.masters.items } };

    ghost invariant = { λ roster. IsRoster (record { sentinels = roster.sentinels.items; masters = roster.masters.items }) };
}

/// All addresses of the Sentinels and the data nodes.
fn all_addresses(
    alloc: Global,
    sentinels: &[Member],
    masters: &[Watched],
) -> Result<Vec<Addr>, AllocError>
    ensures { IfOk result (λ all. all.items
        ≡ map (λ member. member.addr) sentinels.now ++ flat_map (λ master. master.nodes) masters.now) }
{
    let mut all = Vec::with_capacity(alloc, sentinels.len())?;
    for member in sentinels {
        all.push(member.addr)?;
    }
    for master in masters {
        all.extend_from_slice(&master.nodes)?;
    }
    Ok(all)
}

/// The masters, each with its nodes in order.
fn with_nodes_in_order(alloc: Global, masters: Vec<Watched>) -> Result<Vec<Watched>, AllocError>
    ensures { IfOk result (λ list. list.items ≡ map nodes_in_order masters.items) }
{
    let mut list = Vec::with_capacity(alloc, masters.len())?;
    for master in masters {
        let Watched {
            name,
            nodes,
            quorum,
        } = master;
        list.push(Watched {
            name,
            nodes: ordered(alloc, nodes)?,
            quorum,
        })?;
    }
    Ok(list)
}

impl From<AllocError> for RosterFault {
    ghost use Rattle.ballot_law.specs.declared.rosters.RosterFault.TheVariants.{NoMemory};

    ghost from_gives = { λ _ fault. fault ≡ NoMemory };

    fn from(_error: AllocError) -> RosterFault {
        RosterFault::NoMemory
    }
}

/// The first fault of the members' numbers and the masters' names.
fn first_fault(sentinels: &[Member], masters: &[Watched]) -> Option<RosterFault>
    ensures fault { result
        ≡ first_that_fits (first_tests (record { sentinels = sentinels.now; masters = masters.now })) }
    ensures small { IfNone result ((length sentinels.now ≤ SENTINELS_MAX) × (length masters.now ≤ MASTERS_MAX)) }
{
    if sentinels.is_empty() {
        return Some(RosterFault::NoSentinel);
    }
    if sentinels.len() > SENTINELS_MAX {
        return Some(RosterFault::TooManySentinels);
    }
    if masters.is_empty() {
        return Some(RosterFault::NoMaster);
    }
    if masters.len() > MASTERS_MAX {
        return Some(RosterFault::TooManyMasters);
    }
    if has_repeats(masters) {
        return Some(RosterFault::SameName);
    }
    None
}

/// Whether some master has no node.
fn has_no_node(masters: &[Watched]) -> bool
    ensures { result ≡ list_any (λ master. length master.nodes == 0) masters.now }
{
    masters.iter().any(|master| master.nodes.is_empty())
}

/// Whether some master has more nodes than a master may have.
fn has_many_nodes(masters: &[Watched]) -> bool
    ensures { result ≡ list_any (λ master. nat_lt NODES_MAX (length master.nodes)) masters.now }
{
    masters.iter().any(|master| master.nodes.len() > NODES_MAX)
}

/// Whether some master's quorum is 0.
fn has_zero_quorum(masters: &[Watched]) -> bool
    ensures { result ≡ list_any (λ master. master.quorum == 0) masters.now }
{
    masters.iter().any(|master| master.quorum == 0)
}

/// The first fault of the nodes, the quorums, the run ids and the addresses.
fn last_fault(sentinels: &[Member], masters: &[Watched], all: &[Addr]) -> Option<RosterFault>
    requires { all.now ≡ addresses (record { sentinels = sentinels.now; masters = masters.now }) }
    ensures { result
        ≡ first_that_fits (last_tests (record { sentinels = sentinels.now; masters = masters.now })) }
{
    if has_no_node(masters) {
        return Some(RosterFault::NoNode);
    }
    if has_many_nodes(masters) {
        return Some(RosterFault::TooManyNodes);
    }
    if has_zero_quorum(masters) {
        return Some(RosterFault::QuorumZero);
    }
    if has_repeats(sentinels) {
        return Some(RosterFault::SameRunId);
    }
    if has_repeats(all) {
        return Some(RosterFault::SharedAddress);
    }
    None
}

/// Whether the address is among the nodes.
fn has_node(nodes: &[Addr], addr: Addr) -> bool
    ensures { result ≡ list_any (same_addr addr) nodes.now }
{
    nodes.iter().any(|node| addr.is_same(node))
}

/// The place of an address among the nodes of a master.
fn place_among(nodes: &[Addr], addr: Addr) -> Option<u16>
    requires { length nodes.now ≤ NODES_MAX }
    ensures some { IfSome result (λ k. (k < length nodes.now) × (slice_index_or nodes.now k no_addr ≡ addr)) }
    ensures none { IfNone result ((k : ℕ) → k < length nodes.now → slice_index_or nodes.now k no_addr ≢ addr) }
{
    for (k, node) in nodes.iter().enumerate() {
        if *node == addr {
            return Some(k as u16);
        }
    }
    None
}

/// Copies of the masters, in their order.
fn copies_of(alloc: Global, masters: &[Watched]) -> Result<Vec<Watched>, AllocError>
    ensures { IfOk result (λ copies. copies.items ≡ masters.now) }
{
    let mut copies = Vec::with_capacity(alloc, masters.len())?;
    for master in masters {
        copies.push(Watched {
            name: master.name,
            nodes: Vec::from_slice(alloc, &master.nodes)?,
            quorum: master.quorum,
        })?;
    }
    Ok(copies)
}

/// Refuses the members of which some fault fits.
#[tactic(auto, using(crate::proofs::Fits::fault_first, crate::proofs::Fits::fault_last))]
fn judge(alloc: Global, sentinels: &[Member], masters: &[Watched]) -> Result<(), RosterFault>
    ensures fits { OnOk result
        (fault_of (record { sentinels = sentinels.now; masters = masters.now }) ≡ None) }
    ensures small { OnOk result ((length sentinels.now ≤ SENTINELS_MAX) × (length masters.now ≤ MASTERS_MAX)) }
    ensures refused { IfErr result (λ fault. (fault ≡ NoMemory)
        ⊎ (fault_of (record { sentinels = sentinels.now; masters = masters.now }) ≡ Some fault)) }
{
    if let Some(fault) = first_fault(sentinels, masters) {
        return Err(fault);
    }
    let all = all_addresses(alloc, sentinels, masters)?;
    match last_fault(sentinels, masters, &all) {
        Some(fault) => Err(fault),
        None => Ok(()),
    }
}

impl Roster {
    /// The roster of these members in order, each of them once: the Sentinels by run id, the masters by the bytes of
    /// their names, the data nodes of each by address. Or the first fault that fits, with the members dropped. A
    /// refused allocation may stand in place of any other answer.
    #[tactic(auto, using(crate::proofs::Placing::in_order_len))]
    pub fn new(
        alloc: Global,
        sentinels: Vec<Member>,
        masters: Vec<Watched>,
    ) -> Result<Roster, RosterFault>
        ensures made { Makes (record { sentinels = sentinels.items; masters = masters.items }) result }
        ensures in_order { IfOk result IsInOrder }
        ensures members { IfOk result (HasSameMembers (record { sentinels = sentinels.items; masters = masters.items })) }
    {
        judge(alloc, &sentinels, &masters)?;
        let sentinels = ordered(alloc, sentinels)?;
        let masters = ordered(alloc, with_nodes_in_order(alloc, masters)?)?;
        Ok(Roster { sentinels, masters })
    }

    /// What each roster is: made of members of which no fault fits, and so within its limits, with no run id and no
    /// name twice. No memory is taken.
    pub fn is_made(&self)
        ensures made { IsRoster self.now }
        ensures ids { HasDistinctIds self.now }
        ensures names { HasDistinctNames self.now }
    {
        let _made = &self.sentinels;
    }

    /// The Sentinels, by run id.
    pub fn sentinels(&self) -> &[Member]
        ensures { result.now ≡ self.now.sentinels }
    {
        self.sentinels.as_slice()
    }

    /// The masters, by the bytes of their names.
    pub fn masters(&self) -> &[Watched]
        ensures { result.now ≡ self.now.masters }
    {
        self.masters.as_slice()
    }

    /// How many votes elect a Sentinel for the master with this number: more than half of all Sentinels, and no fewer
    /// than the quorum.
    pub fn need(&self, m: u16) -> u32
        requires { m < length self.now.masters }
        ensures { result ≡ need self.now m }
    {
        let majority = (self.sentinels.len() / 2 + 1) as u32;
        majority.max(self.masters[m as usize].quorum)
    }

    /// The number of the first master whose list has the address; no other has it, since no address is shared.
    pub fn master_at(&self, addr: Addr) -> Option<u16>
        ensures first { result ≡ master_listing self.now.masters addr }
        ensures some { IfSome result (λ m. (m < length self.now.masters) × HasNode self.now m addr) }
        ensures none { IfNone result ((m : ℕ) → m < length self.now.masters → ¬ (HasNode self.now m addr)) }
    {
        for (m, master) in self.masters.iter().enumerate() {
            if has_node(&master.nodes, addr) {
                return Some(m as u16);
            }
        }
        None
    }

    /// The data nodes of the master with this number, by address; none where there is no such master.
    pub fn nodes(&self, m: u16) -> &[Addr]
        ensures value { result.now ≡ (master_at self.now m).nodes }
        ensures few { length result.now ≤ NODES_MAX }
    {
        match self.masters.get(m as usize) {
            Some(master) => master.nodes(),
            None => &[],
        }
    }

    /// Whether the master with this number has a data node with this address.
    pub fn has_node(&self, m: u16, addr: Addr) -> bool
        ensures { result ≡ list_any (same_addr addr) (master_at self.now m).nodes }
    {
        has_node(self.nodes(m), addr)
    }

    /// The number of the first master with this name; no other has it, since no two masters share a name.
    pub fn master_named(&self, name: &Name) -> Option<u16>
        ensures some { IfSome result (λ m. (m < length self.now.masters)
            × ((master_at self.now m).name ≡ name.now)) }
        ensures none { IfNone result ((m : ℕ) → m < length self.now.masters
            → (master_at self.now m).name ≢ name.now) }
    {
        for (m, master) in self.masters.iter().enumerate() {
            if master.name.is_same(*name) {
                return Some(m as u16);
            }
        }
        None
    }

    /// The place of an address among the data nodes of the master with this number, at most 255. None where the
    /// master's list doesn't have the address, or no master has the number.
    pub fn place_of(&self, m: u16, addr: Addr) -> Option<u16>
        ensures some { IfSome result (λ k. (k < length (master_at self.now m).nodes)
            × (slice_index_or (master_at self.now m).nodes k no_addr ≡ addr)) }
        ensures none { IfNone result ((k : ℕ) → k < length (master_at self.now m).nodes
            → slice_index_or (master_at self.now m).nodes k no_addr ≢ addr) }
    {
        let master = self.masters.get(m as usize)?;
        place_among(&master.nodes, addr)
    }

    /// A copy with memory of its own, which equals the roster. `NoMemory` is the only error, and changes nothing.
    pub fn copy(&self, alloc: Global) -> Result<Roster, WantOfMemory>
        ensures { IfOk result (λ copy. copy ≡ self.now) }
    {
        let sentinels = Vec::from_slice(alloc, &self.sentinels)?;
        let masters = copies_of(alloc, &self.masters)?;
        Ok(Roster { sentinels, masters })
    }
}
