//! What holds of all faults of a file.

ghost use Rattle.std.specs.Prelude.{ℕ, List};
ghost use Rattle.conf_check.specs.Errors.AllFaults.{FirstIsTold};

/// A file that is refused has the fault by which it is, and it is the first of all.
pub fn law_first_fault_is_told()
    ensures { (bytes : List ℕ) → FirstIsTold bytes }
{}
