//! Files of a group that differ: what stands on each side, and the files that differ in their configurations alone
//! mended, so that the group can go on with them.
//!
//! After a kill, or where a Sentinel was halted, two files of a group can hold different configurations of a master,
//! and such files are refused. `mended_texts` gives each file anew with the newest configuration of each master, the
//! one of the greatest epoch, and with the greatest current epoch, as a Sentinel takes them from a hello. The votes of
//! each file stay its own: none is taken back or given away.
//!
//! The definitions stand in `specs/Mended`.

mod groups;
mod laws;
mod mending;
mod sides;

pub use groups::are_one_group;
pub(crate) use groups::read_all;
pub use laws::{law_mended_files_agree, law_mending_keeps_the_votes, law_no_epoch_falls};
pub use mending::{MendFault, mended_texts};
pub(crate) use mending::{Newest, newest_among};
pub use sides::add_sides;
