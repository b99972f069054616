//! Masters by their names.

ghost use Rattle.std.specs.Prelude.{◌≡◌, ◌<◌, IfSome, length};
ghost use Rattle.ballot_law.specs.Rosters.{master_named, HasDistinctNames};

use ballot_law::{Name, Roster};

/// The number of the master with this name, in a roster whose masters have different names.
pub(crate) fn master_named(roster: &Roster, name: &Name) -> Option<u16>
    requires { HasDistinctNames roster.now }
    ensures value { result ≡ master_named roster.now name.now }
    ensures within { IfSome result (λ m. m < length roster.now.masters) }
{
    roster.master_named(name)
}
