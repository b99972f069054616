//! What an operator is told of conf files: every fault, warnings, what the files of a group make and in what they
//! differ, such files mended, the files of a new group, and those of a changed one.
#![tactic(auto)]

mod change;
mod creation;
mod errors;
mod group;
mod repair;
mod warnings;

pub use change::{
    Change, ChangeFault, MasterSetting, NewSetting, Replacement, ReplicaOf, changed_texts,
};
pub use creation::{
    NewGroup, NewGroupFault, NewMaster, is_password, new_group_texts, node_address,
    sentinel_address, shared_address,
};
pub use errors::{
    Claim, Collision, Owner, add_notes, collision_of, faults_of, foreign_line,
    law_first_fault_is_told, sentence, zero_quorum_line,
};
pub use group::{Difference, HoldsConf, NamedConf, Report, difference_of, is_one_group};
pub use repair::{
    MendFault, add_sides, are_one_group, law_mended_files_agree, law_mending_keeps_the_votes,
    law_no_epoch_falls, mended_texts,
};
pub use warnings::{
    Advice, AdviceKind, DOWN_AFTER_MIN, Directives, ID_BYTES, add_warnings, add_watch_warnings,
    advices, id_line, nearest_directive,
};
