//! What group conf files make, before it runs: who is in it, what it watches, how many votes it needs, and what is
//! wrong with it.

mod differences;
mod one_group;
mod report;

pub(crate) use differences::is_same_card;
pub use differences::{Difference, difference_of};
pub(crate) use one_group::own_id;
pub use one_group::{HoldsConf, is_one_group};
pub use report::{NamedConf, Report};
