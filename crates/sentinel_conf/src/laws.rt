//! What holds of every file and of its rewritten one.

ghost use Rattle.std.specs.Prelude.{◌≡◌, ◌≤◌, ℕ, List, ◌++◌, map, length, Ok, IfSome};
ghost use Rattle.ballot_law.specs.Hellos.{IsRunId};
ghost use Rattle.ballot_law.specs.Cuts.{lines};
ghost use Rattle.conf_lines.specs.Lines.{spelled};
ghost use Rattle.sentinel_conf.specs.Meaning.{ConfPlan};
ghost use Rattle.ballot_law.specs.declared.cards.Kept.{Kept as KeptModel};
ghost use Rattle.sentinel_conf.specs.Rewritten.{rewritten, state_lines, IsKeptPart, HasRunIds};
ghost use Rattle.sentinel_conf.specs.Reading.{conf_of_bytes, FILE_MAX};
ghost use Rattle.sentinel_conf.specs.AllFaults.{FirstRefuses};

use ballot_law::{Kept, KeptMaster, RunId};

/// The rewritten file of a conf that was read, and of a kept part of its masters, is read as that conf with that kept
/// part; its lines are the kept ones, byte for byte, and then those of the state; and it is no longer than a file may
/// be.
pub fn law_read_again()
    ensures again { (bytes : List ℕ) (conf : ConfPlan) (kept : KeptModel) →
        conf_of_bytes bytes ≡ Ok conf → IsKeptPart conf kept → HasRunIds kept →
        conf_of_bytes (rewritten conf kept) ≡ Ok (record conf { kept = kept }) }
    ensures kept { (bytes : List ℕ) (conf : ConfPlan) (kept : KeptModel) →
        conf_of_bytes bytes ≡ Ok conf → IsKeptPart conf kept → HasRunIds kept →
        lines (rewritten conf kept) ≡ conf.kept_lines ++ map spelled (state_lines conf kept) }
    ensures size { (bytes : List ℕ) (conf : ConfPlan) (kept : KeptModel) →
        conf_of_bytes bytes ≡ Ok conf → IsKeptPart conf kept → length (rewritten conf kept) ≤ FILE_MAX }
{}

/// Lines that have a fault are refused by the first of all their faults, those that `faults_in` gives: so does `read`
/// refuse a file, unless it is too long or no text.
pub fn law_first_fault()
    ensures { (texts : List (List ℕ)) → FirstRefuses texts }
{}

/// Every value of the type is a run id of 40 digits.
fn is_run_id(id: RunId)
    ensures { IsRunId id }
{}

/// The candidate of what is kept of a master is a run id, where there is one.
fn is_candidate(master: &KeptMaster)
    ensures { IfSome master.now.candidate IsRunId }
{
    if let Some(id) = master.candidate {
        is_run_id(id);
    }
}

/// Each candidate of a kept part is a run id of 40 digits, as `law_read_again` asks for. It reads them and does nothing
/// else.
pub fn law_run_ids(kept: &Kept)
    ensures { HasRunIds kept.now }
{
    let mut rest = kept.masters.as_slice();
    while let [master, more @ ..] = rest {
        is_candidate(master);
        rest = more;
    }
}
