//! Sentinels in the order in which a conf holds them.

ghost use Rattle.std.specs.Prelude.{◌≡◌, IfOk};
ghost use Rattle.ballot_law.specs.Ordered.{in_order};
ghost use Rattle.sentinel_conf.specs.Meaning.{member_before};

use ballot_law::{Member, Placed, ordered};
use std::alloc::{AllocError, Global};
use std::marker::Model;

/// A Sentinel that a file gives. They are ordered by run id and then by address, so that two addresses of one run id
/// both stay, and the roster refuses them.
#[derive(Drop)]
pub struct Listed {
    member: Member,
}

impl Model for Listed {
    ghost use Rattle.ballot_law.specs.declared.rosters.Member.{Member};

    ghost Value = { Member };

    ghost view = { λ listed. listed.member };
}

impl Listed {
    /// This Sentinel.
    pub fn new(member: Member) -> Listed
        ensures { result ≡ member }
    {
        Listed { member }
    }
}

impl Placed for Listed {
    ghost before = { member_before };

    fn is_before(&self, other: &Listed) -> bool {
        let (one, two) = (self.member, other.member);
        one.id.is_before(&two.id) || (one.id.is_same(&two.id) && one.addr.is_before(&two.addr))
    }
}

/// The Sentinels in order, each once.
pub fn members_in_order(alloc: Global, given: Vec<Listed>) -> Result<Vec<Member>, AllocError>
    ensures { IfOk result (λ members. members.items ≡ in_order member_before given.items) }
{
    let listed = ordered(alloc, given)?;
    let mut members = Vec::with_capacity(alloc, listed.len())?;
    for seat in &listed {
        members.push(seat.member)?;
    }
    Ok(members)
}
