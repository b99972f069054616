//! The failover of one master, as one Sentinel drives it: a table of rows, of which each turn takes the first that
//! fits.
//!
//! [`Failover`] keeps how far the failover has come and what was sent to each replica. [`Failover::turn`] is handed
//! what the Sentinel knows as [`Facts`], and answers with an [`Act`]: the row that was taken, and the vote that the
//! Sentinel gives. Two rows are taken by news from the nodes and not by a turn: [`Failover::promoted`] once the chosen
//! replica says that it is a master, [`Failover::reconf`] once another replica follows it. [`Failover::end`] ends the
//! failover where a newer configuration of the master is adopted.
//!
//! The table stands in `specs/Table.antt`, and the contract of `turn` cites it; `docs/RULES.md` shows it in words.
//!
//! All moments are milliseconds of the Sentinel's clock; a reading above 2^62 counts as 2^62, and a moment that is
//! later than `now` is no time ago. Nothing wraps, whatever the settings. Only [`Failover::new`] takes memory.
#![tactic(auto)]

mod failovers;
mod periods;
mod replicas;
mod states;
mod turns;

pub use failovers::Failover;
pub use periods::{ELECTION_MS, ORDER_MS, SPREAD_MS, law_periods};
pub use replicas::{Progress, Replica};
pub use states::{Choice, FailoverState, Row};
pub use turns::{Act, Facts};
