//! One line of the file sentinel.conf: the words that it has, the directive that it is, and what that says.
//!
//! `line_of` tells what a line is: a state line, a setting, a line that is kept as it stands, or one with a fault. What
//! all lines of a file mean together stands in `sentinel_conf`.
//!
//! The definitions stand in `specs/`: `Words` (the words of a line), `Lines` (what a line is, and how a state line is
//! spelled), `Values` (what a line gives), `Faults` (a fault with its line).
#![tactic(auto)]

mod arguments;
mod directives;
mod faults;
mod line_values;
mod line_words;
mod lines;

pub use directives::line_of;
pub use faults::{ConfFault, ConfKind};
pub use lines::{Line, Setting, StateLine};
