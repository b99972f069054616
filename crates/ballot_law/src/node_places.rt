//! The data nodes of a roster by number: they are counted over its masters in order, each master's by address.

ghost use Rattle.std.specs.Prelude.{◌≡◌, ◌<◌, ◌≤◌, IfSome, length};
ghost use Rattle.ballot_law.specs.declared.rosters.TheConstants.{NODES_MAX};
ghost use Rattle.ballot_law.specs.NodePlaces.{node_count, node_numbered, addr_in};
ghost use Rattle.ballot_law.specs.Rosters.{master_at};

use crate::addresses::Addr;
use crate::rosters::Roster;

/// A data node of a roster: the number of its master, and its place among that master's nodes.
#[derive(Clone, Copy, PartialEq, Eq)]
pub struct NodePlace {
    pub master: u16,
    pub place: u16,
}

impl Roster {
    /// How many data nodes the masters have, at most 4,096.
    pub fn node_count(&self) -> usize
        ensures value { result ≡ node_count self.now }
        ensures few { result ≤ 4096 }
    {
        self.is_made();
        let mut count = 0;
        for master in self.masters() {
            count += master.nodes().len();
        }
        count
    }

    /// The data node with this number.
    pub fn node_numbered(&self, number: u16) -> Option<NodePlace>
        ensures value { result ≡ node_numbered self.now.masters 0 number }
        ensures known { IfSome result (λ at. at.master < length self.now.masters) }
        ensures within { IfSome result (λ at. at.place < length (master_at self.now at.master).nodes) }
        ensures few { IfSome result (λ at. at.place < NODES_MAX) }
    {
        self.is_made();
        let mut left = number;
        for master in 0..self.masters().len() {
            let count = self.nodes(master as u16).len();
            if (left as usize) < count {
                return Some(NodePlace {
                    master: master as u16,
                    place: left,
                });
            }
            left -= count as u16;
        }
        None
    }

    /// The address at a place; 0.0.0.0:0 where there is no such place.
    pub fn addr_at(&self, at: NodePlace) -> Addr
        ensures { result ≡ addr_in self.now at }
    {
        match self.nodes(at.master).get(at.place as usize) {
            Some(addr) => *addr,
            None => Addr { ip: 0, port: 0 },
        }
    }
}
