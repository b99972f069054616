//! What is wrong with a sentinel.conf file, in full: every fault of it, and the lines that a fault of the file as a
//! whole is about.
//!
//! `sentinel_conf` refuses a file by its first fault. `faults_of` tells all of them, that one first
//! (`law_first_fault_is_told`), and `collision_of`, `zero_quorum_line` and `foreign_line` tell where the faults without
//! a line come from, `sentence` what each kind means; `add_notes` tells it all as text.
//!
//! The definitions stand in `specs/`: `AllFaults` (all faults of a file), `Claims` (who is said to be at which address,
//! and which two of these collide), `Places` (the first line of a kind).

mod all_faults;
mod claims;
mod collisions;
mod first_lines;
mod laws;
mod notes;
mod sentences;

pub use all_faults::faults_of;
pub use claims::{Claim, Owner};
pub use collisions::{Collision, collision_of};
pub use first_lines::{foreign_line, zero_quorum_line};
pub use laws::law_first_fault_is_told;
pub use notes::add_notes;
pub use sentences::sentence;
