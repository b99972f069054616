//! Addresses and run ids, and their orders.

ghost use Rattle.std.specs.Prelude.{◌≡◌};

use crate::ordering::{Keyed, Placed};

/// An IPv4 address and a TCP port. Addresses are ordered by `ip`, then by `port`, as numbers.
#[derive(Clone, Copy, PartialEq, Eq, PartialOrd, Ord, Hash)]
pub struct Addr {
    /// The four parts of the address, the first in the highest byte: 127.0.0.1 is 2,130,706,433.
    pub ip: u32,
    /// 1 to 65,535 wherever a reader of this project gave the address.
    pub port: u16,
}

impl Addr {
    ghost use Rattle.ballot_law.specs.Orders.{addr_before, same_addr};

    /// Whether this address stands before the other one in their order.
    pub fn is_before(&self, other: &Addr) -> bool
        ensures { result ≡ addr_before self.now other.now }
    {
        self.ip < other.ip || (self.ip == other.ip && self.port < other.port)
    }

    /// Whether the two are one address.
    pub fn is_same(&self, other: &Addr) -> bool
        ensures { result ≡ same_addr self.now other.now }
    {
        self.ip == other.ip && self.port == other.port
    }
}

impl Placed for Addr {
    ghost use Rattle.ballot_law.specs.Orders.{addr_before};

    ghost before = { addr_before };

    fn is_before(&self, other: &Addr) -> bool {
        Addr::is_before(self, other)
    }
}

impl Keyed for Addr {
    ghost use Rattle.ballot_law.specs.Orders.{same_addr};

    ghost same = { same_addr };

    fn is_same(&self, other: &Addr) -> bool {
        Addr::is_same(self, other)
    }
}

/// The run id of a server: 40 lower case hex digits, as numbers, so that their order is the order of the texts.
#[derive(Clone, Copy, PartialEq, Eq, PartialOrd, Ord, Hash)]
pub struct RunId {
    /// The first 32 digits.
    pub hi: u128,
    /// The last 8 digits.
    pub lo: u32,
}

impl RunId {
    ghost use Rattle.ballot_law.specs.Orders.{id_before, same_id};

    /// Whether this run id stands before the other one in their order.
    pub fn is_before(&self, other: &RunId) -> bool
        ensures { result ≡ id_before self.now other.now }
    {
        self.hi < other.hi || (self.hi == other.hi && self.lo < other.lo)
    }

    /// Whether the two are one run id.
    pub fn is_same(&self, other: &RunId) -> bool
        ensures { result ≡ same_id self.now other.now }
    {
        self.hi == other.hi && self.lo == other.lo
    }
}

impl Placed for RunId {
    ghost use Rattle.ballot_law.specs.Orders.{id_before};

    ghost before = { id_before };

    fn is_before(&self, other: &RunId) -> bool {
        RunId::is_before(self, other)
    }
}

impl Keyed for RunId {
    ghost use Rattle.ballot_law.specs.Orders.{same_id};

    ghost same = { same_id };

    fn is_same(&self, other: &RunId) -> bool {
        RunId::is_same(self, other)
    }
}
