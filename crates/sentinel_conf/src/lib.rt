//! The file sentinel.conf: what it says, its first fault where it has one, and the file that is written after each
//! change of what a Sentinel keeps.
//!
//! - `read` gives the `Conf` of a file, or a `ConfFault` with the number of the line.
//! - `read_lines` cuts and reads each line once, and `faults_in` gives all faults of such lines; `read` refuses a file
//!   by the first of them (`law_first_fault`).
//! - `ConfText` has the room of a rewritten file, and `rewrite_into` writes one without memory.
//!
//! What one line says stands in `conf_lines`, and where the file is held in `sentinel_conf`; what callers need of both
//! is named here too.
//!
//! The definitions stand in `specs/`: `Meaning` (what all lines mean together), `Reading` (the conf or the first
//! fault), `AllFaults` (all faults of lines), `Facts` (what is known of each conf), `Rewritten` (the file that is
//! written). `law_read_again` says of them that a rewritten file is read as the conf that it was written for.
#![tactic(auto)]

mod all_faults;
mod conf;
mod conf_text;
mod file_lines;
mod fixed_lines;
mod laws;
mod meaning;
mod members;
mod read_line;
mod reading;
mod refused_names;
mod settings;
mod store;
mod watch;
mod writing;

pub use all_faults::faults_in;
pub use conf::{Conf, read, rewrite_into};
pub use conf_lines::{ConfFault, ConfKind};
pub use conf_text::{ConfText, FILE_MAX};
pub use file_lines::settings_given;
pub use laws::{law_first_fault, law_read_again, law_run_ids};
pub use meaning::own_addr;
pub use read_line::{ReadLine, read_lines};
pub use settings::{DEFAULT_SETTINGS, Settings, law_defaults};
pub use store::{
    ConfStore, FileFault, FileStep, FileStore, FileText, LoadFault, LocksAlone, MemoryStore,
    StoreRefused, give_access_of,
};
pub use watch::{
    Bind, BindWord, Binds, CLIENTS_MAX, Directives, EVERYWHERE, IDLE_SECONDS, IDLE_SECONDS_MAX,
    IPS_MAX, WatchConf, WatchFault, WatchKind, WatchLine, WatchSetting, is_listed,
    lacks_announce_ip, law_lines_are_text, line_of, lowered, read_watch, redis_text,
};
