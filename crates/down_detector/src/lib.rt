//! When a Sentinel holds a node to be down, a master to be down by agreement, and its own clock to be untrustworthy.
//!
//! - [`Watch`] is what is kept of one node. It tells whether the node is *subjectively down* (SDOWN): silent for longer
//!   than `down-after-milliseconds`, or, where it is to be a master, reporting itself a replica for too long.
//! - [`DownReports`] is what the other Sentinels last said of one master. With it [`is_odown`] tells whether the master
//!   is *objectively down* (ODOWN): enough Sentinels find it down.
//! - [`Tilt`] watches the clock. After a jump a Sentinel is in TILT mode: it goes on to gather news and acts on none.
//!
//! Each keeps a few words in place of all that it was told. The contracts say, for every list of calls made so far,
//! that these words are what the definitions over the whole list tell (`Watches`, `Reports` and `Tilts` of
//! `ballot_law`). They also say what each call makes of these words alone; that this is what the longer list tells is a
//! law of its own ([`law_watch_keeps_its_calls`], [`law_reports_keep_the_last`], [`law_tilt_keeps_the_last_jump`]), for
//! those who know of what is kept and not of the calls.
//!
//! All moments are milliseconds of the Sentinel's clock; a reading above 2^62 counts as 2^62, and a moment that is
//! later than `now` is no time ago. Nothing wraps, whatever the readings and settings. Only [`DownReports::new`] takes
//! memory.
#![tactic(auto)]

mod laws;
mod reports;
mod tilts;
mod watches;

pub use ballot_law::PingReply;
pub use laws::{
    law_reports_keep_the_last, law_tilt_keeps_the_last_jump, law_watch_keeps_its_calls,
};
pub use reports::{DownReports, is_odown};
pub use tilts::Tilt;
pub use watches::Watch;
