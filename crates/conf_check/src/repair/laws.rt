//! What holds of mended files.

ghost use Rattle.conf_check.specs.Repair.Mended.{MendedAgree, KeepsVotes, NoEpochFalls};

/// Files that hold as many masters as the newest configurations are hold the same configurations once they are mended.
pub fn law_mended_files_agree()
    ensures { MendedAgree }
{}

/// A mended file has the votes of the file that it was: none is taken back, and none is given away.
pub fn law_mending_keeps_the_votes()
    ensures { KeepsVotes }
{}

/// No epoch of a mended file is below that of the file that it was.
pub fn law_no_epoch_falls()
    ensures { NoEpochFalls }
{}
