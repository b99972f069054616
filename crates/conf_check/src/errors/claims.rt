//! Who is said to be at which address.

ghost use Rattle.std.specs.Prelude.{◌≡◌, ◌++◌, IfOk, OnOk};
ghost use Rattle.conf_check.specs.Errors.Claims.{claims_of, claims, same_owner, same_sentinel};

use ballot_law::{Addr, Name, RunId, is_same_bytes};
use conf_lines::{Line, StateLine};
use sentinel_conf::{own_addr, read_lines, settings_given};
use std::alloc::{AllocError, Global};

/// Who is at an address.
#[derive(Clone, Copy, PartialEq, Eq)]
pub enum Owner {
    /// The Sentinel with this run id.
    Sentinel(RunId),
    /// A data node of the master with this name, itself or a replica.
    Master(Name),
}

impl Owner {
    /// Whether the two are one Sentinel, or nodes of one master.
    pub(crate) fn is_same(&self, other: &Owner) -> bool
        ensures { result ≡ same_owner self.now other.now }
    {
        match (self, other) {
            (Owner::Sentinel(one), Owner::Sentinel(other)) => one.is_same(other),
            (Owner::Master(one), Owner::Master(other)) => {
                is_same_bytes(one.as_slice(), other.as_slice())
            }
            _ => false,
        }
    }

    /// Whether the two are one Sentinel.
    pub(crate) fn is_same_sentinel(&self, other: &Owner) -> bool
        ensures { result ≡ same_sentinel self.now other.now }
    {
        match (self, other) {
            (Owner::Sentinel(one), Owner::Sentinel(other)) => one.is_same(other),
            _ => false,
        }
    }
}

/// That a line of a file puts somebody at an address.
#[derive(Clone, Copy, PartialEq, Eq)]
pub struct Claim {
    /// The number of the line, the first being 1. That of the file's own Sentinel is the line `sentinel myid`.
    pub line: u64,
    pub owner: Owner,
    pub addr: Addr,
}

/// Adds what a line says, which has this number.
fn add_claim(claims: &mut Vec<Claim>, own: Addr, line: u64, said: &Line) -> Result<(), AllocError>
    ensures { OnOk result (claims.new.items ≡ claims.old.items ++ claims_of own line said.now) }
{
    let (owner, addr) = match said {
        Line::State(StateLine::MyId(id)) => (Owner::Sentinel(*id), own),
        Line::State(StateLine::Monitor { name, addr, .. }) => (Owner::Master(*name), *addr),
        Line::State(StateLine::KnownReplica { name, addr }) => (Owner::Master(*name), *addr),
        Line::State(StateLine::KnownSentinel { addr, id, .. }) => (Owner::Sentinel(*id), *addr),
        _ => return Ok(()),
    };
    claims.push(Claim { line, owner, addr })?;
    Ok(())
}

/// What all lines of a file say, in order.
pub fn claims_in(alloc: Global, bytes: &[u8]) -> Result<Vec<Claim>, AllocError>
    ensures { IfOk result (λ list. list.items ≡ claims bytes.now) }
{
    let lines = read_lines(alloc, bytes)?;
    let own = own_addr(&settings_given(alloc, &lines)?);
    let mut list = Vec::new(alloc);
    let mut number: u64 = 1;
    let mut rest = lines.as_slice();
    while let [line, more @ ..] = rest {
        add_claim(&mut list, own, number, line.line())?;
        number += 1;
        rest = more;
    }
    Ok(list)
}
