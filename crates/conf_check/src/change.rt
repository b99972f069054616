//! A group that is changed: its files anew, with a replica or a Sentinel more or less, with another host in the place
//! of one, or with another setting.
//!
//! `changed_texts` makes them line by line from the mended files, reads them again, and compares them with the files of
//! before: what they keep is a contract of that comparison.
//!
//! The definitions stand in `specs/Change/`: `Keeping`, and `ChangedRosters`.

mod changed_lines;
mod changed_rosters;
mod changes;
mod changing;
mod keeping;
mod refused_changes;

pub use changes::{Change, ChangeFault, MasterSetting, NewSetting, Replacement, ReplicaOf};
pub use changing::changed_texts;
