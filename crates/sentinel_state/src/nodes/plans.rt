//! What doesn't change while a Sentinel runs.

ghost use Rattle.std.specs.Prelude.{slice_index_or, ◌≡◌, ◌<◌, ◌≤◌, ◌&&◌, ◌==◌, not, nat_lt, length, position, IfSome, IfNone, None, Some};
ghost use Rattle.std.specs.List.{list_any};
ghost use Rattle.ballot_law.specs.declared.rosters.TheConstants.{MASTERS_MAX, NODES_MAX, SENTINELS_MAX};
ghost use Rattle.ballot_law.specs.Orders.{same_addr, same_id};
ghost use Rattle.ballot_law.specs.Rosters.{no_member, master_at, master_named, need, master_listing};
ghost use Rattle.sentinel_rules.specs.Answers.{named};
ghost use Rattle.sentinel_rules.specs.News.{is_heeded};
ghost use Rattle.ballot_law.specs.NodePlaces.{first_number, node_numbered};
ghost use Rattle.sentinel_rules.specs.Profiles.{candidate_heeded, candidate_place};
ghost use Rattle.sentinel_rules.specs.Plans.{roster_of, me, group_size, master_count, settings_at, reboot_ms, nodes_of, addr_at, node_place, node_name, node_named};

use ballot_law::{Addr, Hello, Member, Name, NodeName, NodePlace, Roster, RunId};
use sentinel_conf::{Conf, DEFAULT_SETTINGS, Settings};
use sentinel_rules::Profile;
use std::marker::Model;

/// What a Sentinel's file says, the Sentinel's place in the roster, by which rules it works, and for how many
/// milliseconds each master may load its data after a restart, by the master's number; 0 is for ever.
#[derive(Drop)]
pub struct Plan {
    conf: Conf,
    place: u16,
    profile: Profile,
    reboots: Vec<u64>,
}

impl Model for Plan {
    ghost use Rattle.std.specs.Prelude.{◌≡◌, ◌<◌, length};
    ghost use Rattle.ballot_law.specs.Rosters.{id_of};
    ghost use Rattle.sentinel_conf.specs.Facts.{IsSoundConf};
    ghost use Rattle.sentinel_rules.specs.Plans.{Plan as PlanModel};

    ghost Value = { PlanModel };

    ghost view = { λ plan. record { conf = plan.conf; place = plan.place; profile = plan.profile; reboots = plan.reboots.items } };

    ghost invariant = { λ plan. IsSoundConf plan.conf
        × (plan.place < length plan.conf.roster.sentinels)
        × (id_of plan.conf.roster plan.place ≡ plan.conf.id) };
}

/// The first place of an address among these nodes.
pub(crate) fn position_of(nodes: &[Addr], addr: Addr) -> Option<usize>
    ensures value { result ≡ position (same_addr addr) nodes.now }
    ensures within { IfSome result (λ place. place < length nodes.now) }
{
    nodes.iter().position(|node| addr.is_same(node))
}

impl Plan {
    /// The plan of this conf, by the rules of this profile, where masters may load their data for so long after a
    /// restart, with no memory taken.
    pub fn new(conf: Conf, profile: Profile, reboots: Vec<u64>) -> Plan
        ensures conf { result.conf ≡ conf }
        ensures profile { result.profile ≡ profile }
        ensures reboots { result.reboots ≡ reboots.items }
    {
        let place = conf.place();
        let _sound = conf.roster();
        Plan {
            conf,
            place,
            profile,
            reboots,
        }
    }

    /// What the file says.
    pub fn conf(&self) -> &Conf
        ensures { result.now ≡ self.now.conf }
    {
        &self.conf
    }

    /// The Sentinels and the masters of the group, in the roster's order.
    pub fn roster(&self) -> &Roster
        ensures { result.now ≡ roster_of self.now }
    {
        self.conf.roster()
    }

    /// The own place in the roster.
    pub fn place(&self) -> u16
        ensures { result ≡ self.now.place }
    {
        self.place
    }

    /// By which rules the Sentinel works.
    pub fn profile(&self) -> Profile
        ensures { result ≡ self.now.profile }
    {
        self.profile
    }

    /// The own address.
    pub fn addr(&self) -> Addr
        ensures { result ≡ (slice_index_or (roster_of self.now).sentinels self.now.place no_member).addr }
    {
        self.roster().sentinels()[self.place as usize].addr
    }

    /// The own run id.
    pub fn me(&self) -> RunId
        ensures { result ≡ me self.now }
    {
        self.roster().sentinels()[self.place as usize].id
    }

    /// How many Sentinels there are, at most 64.
    pub fn group_size(&self) -> u16
        ensures value { result ≡ group_size self.now }
        ensures few { result ≤ SENTINELS_MAX }
        ensures own { self.now.place < result }
    {
        self.conf.roster().sentinels().len() as u16
    }

    /// How many masters there are, at most 16.
    pub fn master_count(&self) -> u16
        ensures value { result ≡ master_count self.now }
        ensures few { result ≤ MASTERS_MAX }
    {
        self.conf.roster().masters().len() as u16
    }

    /// The settings of a master; those that sentinel.conf takes by default where there is no such master.
    pub fn settings(&self, m: u16) -> Settings
        ensures { result ≡ settings_at self.now m }
    {
        self.conf.settings(m).unwrap_or(DEFAULT_SETTINGS)
    }

    /// For how many milliseconds a master may load its data after a restart; 0 is for ever.
    pub fn reboot_ms(&self, m: u16) -> u64
        ensures { result ≡ reboot_ms self.now m }
    {
        match self.reboots.get(m as usize) {
            Some(ms) => *ms,
            None => 0,
        }
    }

    /// The data nodes of a master, by address; none where there is no such master.
    pub fn nodes(&self, m: u16) -> &[Addr]
        ensures value { result.now ≡ nodes_of self.now m }
        ensures few { length result.now ≤ NODES_MAX }
    {
        self.roster().nodes(m)
    }

    /// The place of an address among a master's nodes; their number where it is none of them.
    pub fn node_place(&self, m: u16, addr: Addr) -> usize
        ensures value { result ≡ node_place self.now m addr }
        ensures within { result ≤ NODES_MAX }
    {
        let nodes = self.nodes(m);
        position_of(nodes, addr).unwrap_or(nodes.len())
    }

    /// How many votes elect this Sentinel for the master with this number.
    pub fn need(&self, m: u16) -> u32
        requires { m < master_count self.now }
        ensures { result ≡ need (roster_of self.now) m }
    {
        self.roster().need(m)
    }

    /// How many Sentinels have to find the master with this number down, as its `monitor` line says.
    pub fn quorum(&self, m: u16) -> u32
        requires { m < master_count self.now }
        ensures { result ≡ (master_at (roster_of self.now) m).quorum }
    {
        let master = &self.roster().masters()[m as usize];
        master.quorum
    }

    /// The number of the master with this name.
    pub fn master_named(&self, name: &Name) -> Option<u16>
        ensures value { result ≡ master_named (roster_of self.now) name.now }
        ensures known { IfSome result (λ m. m < master_count self.now) }
    {
        let _sound = &self.conf;
        self.roster().master_named(name)
    }

    /// The name of the master with this number.
    pub fn name(&self, m: u16) -> Name
        requires { m < master_count self.now }
        ensures { result ≡ (master_at (roster_of self.now) m).name }
    {
        let master = &self.roster().masters()[m as usize];
        master.name
    }

    /// The number of a master's first data node among all data nodes.
    fn first_number(&self, m: u16) -> u16
        ensures value { result ≡ first_number (roster_of self.now).masters m }
        ensures few { result ≤ 4096 }
    {
        let _sound = &self.conf;
        let mut number = 0;
        for before in 0..m {
            number += self.nodes(before).len() as u16;
        }
        number
    }

    /// The name of the data node at a place among a master's nodes.
    pub fn node_name(&self, m: u16, k: usize) -> NodeName
        requires { k ≤ NODES_MAX }
        ensures { result ≡ node_name self.now m k }
    {
        NodeName::StoreAt(self.first_number(m) + k as u16)
    }

    /// The data node with this number, counted over the masters in order.
    fn node_numbered(&self, number: u16) -> Option<NodePlace>
        ensures some { IfSome result (λ at. node_numbered (roster_of self.now).masters 0 number
            ≡ Some (record { master = at.master; place = at.place })) }
        ensures none { IfNone result (node_numbered (roster_of self.now).masters 0 number ≡ None) }
        ensures known { IfSome result (λ at. at.master < master_count self.now) }
        ensures within { IfSome result (λ at. at.place < length (nodes_of self.now at.master)) }
        ensures few { IfSome result (λ at. at.place ≤ NODES_MAX) }
    {
        self.roster().node_numbered(number)
    }

    /// The data node with this name; none for a name that is no data node's.
    pub fn node_named(&self, name: NodeName) -> Option<NodePlace>
        ensures some { IfSome result (λ at. node_named self.now name
            ≡ Some (record { master = at.master; place = at.place })) }
        ensures none { IfNone result (node_named self.now name ≡ None) }
        ensures known { IfSome result (λ at. at.master < master_count self.now) }
        ensures within { IfSome result (λ at. at.place < length (nodes_of self.now at.master)) }
        ensures few { IfSome result (λ at. at.place ≤ NODES_MAX) }
    {
        match name {
            NodeName::StoreAt(number) => self.node_numbered(number),
            NodeName::SentinelAt(_) | NodeName::ClientAt(_) | NodeName::PortAt(_) => None,
        }
    }

    /// Whether a Sentinel of the roster has this run id.
    fn has_sentinel(&self, id: RunId) -> bool
        ensures { result ≡ list_any (λ member. same_id id member.id) (roster_of self.now).sentinels }
    {
        let sentinels = self.roster().sentinels();
        sentinels.iter().any(|member| id.is_same(&member.id))
    }

    /// The first place of a run id among the Sentinels.
    fn place_of(&self, id: RunId) -> Option<usize>
        ensures { result ≡ position (λ member. same_id id member.id) (roster_of self.now).sentinels }
    {
        let sentinels = self.roster().sentinels();
        sentinels.iter().position(|member| id.is_same(&member.id))
    }

    /// The place of the candidate of a vote among the Sentinels; none where it is unknown, or none of them.
    pub fn candidate_place(&self, candidate: Option<RunId>) -> Option<usize>
        ensures { result ≡ candidate_place self.now candidate }
    {
        match candidate {
            Some(id) => self.place_of(id),
            None => None,
        }
    }

    /// Whose vote a request asks for, which brings this candidate: by the profile nobody's where it is no Sentinel of
    /// the roster.
    pub fn candidate_heeded(&self, candidate: Option<RunId>) -> Option<RunId>
        ensures { result ≡ candidate_heeded self.now candidate }
    {
        match self.profile() {
            Profile::Strict => candidate,
            Profile::Redis => {
                if self.candidate_place(candidate).is_some() {
                    candidate
                } else {
                    None
                }
            }
        }
    }

    /// Whether a hello comes from another Sentinel of the roster. A Sentinel is known by its run id alone.
    pub fn heeds(&self, hello: &Hello) -> bool
        ensures { result ≡ is_heeded self.now hello.now }
    {
        self.has_sentinel(hello.id) && !hello.id.is_same(&self.me())
    }

    /// Whether this is the place of another Sentinel of the roster.
    pub fn is_other(&self, place: u16) -> bool
        ensures { result ≡ (nat_lt place (group_size self.now) && not (place == self.now.place)) }
    {
        place < self.group_size() && place != self.place()
    }

    /// The Sentinel at a place of the roster.
    pub fn member(&self, place: usize) -> Member
        ensures { result ≡ slice_index_or (roster_of self.now).sentinels place no_member }
    {
        match self.roster().sentinels().get(place) {
            Some(member) => *member,
            None => Member {
                id: RunId { hi: 0, lo: 0 },
                addr: Addr { ip: 0, port: 0 },
            },
        }
    }

    /// Whether a master has a data node with this address.
    pub fn has_node(&self, m: u16, addr: Addr) -> bool
        ensures { result ≡ list_any (same_addr addr) (nodes_of self.now m) }
    {
        self.roster().has_node(m, addr)
    }

    /// How many data nodes a master has, at most 256.
    pub fn node_count(&self, m: u16) -> usize
        ensures value { result ≡ length (nodes_of self.now m) }
        ensures few { result ≤ NODES_MAX }
    {
        self.nodes(m).len()
    }

    /// The address at a place among a master's nodes; 0.0.0.0:0 where there is no such place.
    pub fn addr_at(&self, m: u16, k: usize) -> Addr
        ensures { result ≡ addr_at self.now m k }
    {
        match self.nodes(m).get(k) {
            Some(addr) => *addr,
            None => Addr { ip: 0, port: 0 },
        }
    }

    /// The number of the master with the name of a command; a word that can't be a name names none.
    pub fn named(&self, name: Option<Name>) -> Option<u16>
        ensures value { result ≡ named self.now name }
        ensures known { IfSome result (λ m. m < master_count self.now) }
    {
        match name {
            Some(name) => self.master_named(&name),
            None => None,
        }
    }

    /// The number of the first master whose list has the address.
    pub fn listing(&self, addr: Addr) -> Option<u16>
        ensures { result ≡ master_listing (roster_of self.now).masters addr }
    {
        self.roster().master_at(addr)
    }
}
