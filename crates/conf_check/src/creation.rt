//! The files of a new group, from the words of an operator.
//!
//! `new_group_texts` gives one text for each Sentinel, and what it gives was read again and is one group:
//! `AreFilesOfOneGroup` is its contract.

mod addresses;
mod texts;

pub use addresses::{node_address, sentinel_address, shared_address};
pub(crate) use texts::{add, add_addr, add_master, add_own, add_replica, add_setting, begin};
pub use texts::{NewGroup, NewGroupFault, NewMaster, is_password, new_group_texts};
