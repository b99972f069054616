//! What a sentinel.conf says to `watch` alone, one Sentinel in a process of its own: where its port listens, with which
//! words it logs in to other nodes and clients to it, and how many clients it serves. And the text of such a file that
//! redis-sentinel reads.
//!
//! `read_watch` gives the settings of a file, or its first fault. Words are read as Redis reads them, with their
//! quotes, by `tokens`. Passwords are in no fault, and no type here that holds one can be printed.
//!
//! The directives that a Redis knows are data, `Directives::of_redis`.
//!
//! The definitions stand in `specs/`: `Binds` (the words of a line `bind`), `KnownDirectives` (those of a Redis),
//! `Users` (a line `user`), `WatchLines` (what a line says), `WatchConfs` (what all lines of a file say, and its first
//! fault), `RedisTexts` (the text for redis-sentinel).

mod announcing;
mod binds;
mod directives;
mod faults;
mod guards;
mod known_directives;
mod redis_texts;
mod settings;
mod users;
mod watch_confs;

pub use announcing::lacks_announce_ip;
pub use binds::{Bind, BindWord, Binds, EVERYWHERE, IPS_MAX};
pub use directives::line_of;
pub use faults::{WatchFault, WatchKind};
pub use known_directives::{Directives, is_listed, lowered};
pub use redis_texts::{law_lines_are_text, redis_text};
pub use settings::{CLIENTS_MAX, IDLE_SECONDS, IDLE_SECONDS_MAX, WatchLine, WatchSetting};
pub use watch_confs::{WatchConf, read_watch};
