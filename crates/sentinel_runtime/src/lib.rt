//! A Sentinel that runs, without its transport: its threads share it, each by a seat of its own, what it says goes to
//! an outlet, and what is heard for it and its ticks are handed to it here.
//!
//! - `RunningSentinel` is the shared Sentinel, made of a `FreshSentinel`, `ThreadSeat` a thread's seat of it, and
//!   `RunState` what all threads share.
//! - An `Outlet` is where messages go, as channels or connections.
//! - A `Ticker` tells when ticks are due and has them taken, and `hear` has the Sentinel take what was heard.
#![tactic(auto)]

mod clock;
mod fresh_sentinel;
mod known_epoch;
mod named;
mod news;
mod notes;
mod notices;
mod outlet;
mod run_state;
mod running_sentinel;
mod settling;
mod sight;
mod switches;
mod ticking;

pub use clock::GroupClock;
pub use fresh_sentinel::FreshSentinel;
pub use news::{EVENTS_MAX, News, WAITING_MAX};
pub use outlet::{Outlet, send_all};
pub use run_state::{RunFault, RunState};
pub use running_sentinel::{RunningSentinel, ThreadSeat, Which};
pub use switches::Switch;
pub use ticking::{TICK_MS, Ticker, hear};
