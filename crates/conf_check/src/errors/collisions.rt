//! Two lines of a file that collide.

ghost use Rattle.std.specs.Prelude.{◌≡◌, IfOk};
ghost use Rattle.conf_check.specs.Errors.Claims.{collide, other_of, first_pair, claims};

use crate::errors::claims::{Claim, claims_in};
use std::alloc::{AllocError, Global};

/// How two lines collide.
#[derive(Clone, Copy, PartialEq, Eq)]
pub enum Collision {
    /// Two that are not one Sentinel, nor nodes of one master, have one address: the fault `SharedAddress`.
    OneAddress,
    /// One Sentinel has two addresses: the fault `SameRunId`.
    OneRunId,
}

/// Whether the two collide so.
fn do_collide(kind: Collision, one: &Claim, other: &Claim) -> bool
    ensures { result ≡ collide kind one.now other.now }
{
    match kind {
        Collision::OneAddress => one.addr.is_same(&other.addr) && !one.owner.is_same(&other.owner),
        Collision::OneRunId => {
            one.owner.is_same_sentinel(&other.owner) && !one.addr.is_same(&other.addr)
        }
    }
}

/// The first of these with which it collides.
fn other_of(kind: Collision, one: &Claim, others: &[Claim]) -> Option<Claim>
    ensures { result ≡ other_of kind one.now others.now }
{
    let mut rest = others;
    while let [other, more @ ..] = rest {
        if do_collide(kind, one, other) {
            return Some(*other);
        }
        rest = more;
    }
    None
}

/// The first that collides with a later one, and the first such.
fn first_pair(kind: Collision, claims: &[Claim]) -> Option<(Claim, Claim)>
    ensures { result ≡ first_pair kind claims.now }
{
    let mut rest = claims;
    while let [one, more @ ..] = rest {
        if let Some(other) = other_of(kind, one, more) {
            return Some((*one, other));
        }
        rest = more;
    }
    None
}

/// The first line of the file with these bytes that collides so with a later one, and the first such line; none where
/// no two do. AllocError: memory was refused.
pub fn collision_of(
    alloc: Global,
    kind: Collision,
    bytes: &[u8],
) -> Result<Option<(Claim, Claim)>, AllocError>
    ensures { IfOk result (λ found. found ≡ first_pair kind (claims bytes.now)) }
{
    let claims = claims_in(alloc, bytes)?;
    Ok(first_pair(kind, &claims))
}
