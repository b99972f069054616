//! What an operator is told of a sentinel.conf file that is no fault: directives that no Redis knows, settings that
//! have no effect here, a quorum that nobody can reach, a time after which a node that is well counts as down. And a
//! run id for a new file.
//!
//! `advices` gives it line by line, `add_warnings` as text for a group in one process, `add_watch_warnings` as text for
//! one Sentinel that runs by itself. The directives that are known are data, `Directives::of_redis` of `sentinel_conf`.
//!
//! The definitions stand in `specs/`: `SpelledNames` (the names of a line), `Nearest` (the nearest name of a table),
//! `Advices` (what is told of a file, line by line), `Warnings` and `WatchWarnings` (the texts), `Losses` (what isn't
//! done for a line).

mod line_advices;
mod line_warnings;
mod losses;
mod nearest;
mod new_ids;
mod spelled_names;
mod watch_warnings;

pub use line_advices::{Advice, AdviceKind, DOWN_AFTER_MIN, advices, nearest_directive};
pub use line_warnings::add_warnings;
pub use new_ids::{ID_BYTES, id_line};
pub use sentinel_conf::Directives;
pub use watch_warnings::add_watch_warnings;
