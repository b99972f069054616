//! The texts in which the nodes of a Sentinel group speak of themselves: hellos, and the answers to INFO and ROLE.
//!
//! A hello is what a Sentinel publishes on the channel `__sentinel__:hello` of the nodes it watches. INFO and ROLE are
//! commands of a data node; their answers are read here as far as a Sentinel needs them. Reading takes no memory.
#![tactic(auto)]

mod announced;
mod drafts;
mod encoding;
mod faults;
mod hello_fields;
mod hellos;
mod info_fields;
mod infos;
mod lines;
mod messages;
mod roles;

pub use announced::is_announced;
pub use ballot_law::{Hello, Info, Role};
pub use faults::TextFault;
pub use hellos::{read_hello, write_hello};
pub use info_fields::law_counts;
pub use infos::{read_info, write_info};
pub use messages::{ShortAnswer, copy_of, event_of, message_text, short_text};
pub use roles::{read_role, write_role};
