//! The connections of one Sentinel to the other Sentinels and to its data nodes, as far as they are decided without a
//! socket: which node a connection is to (`Target`), when it is opened, given up and asked (`Schedule`), what goes over
//! it and is heard on it meanwhile (`NodeLink`), and when the Sentinel ticks (`TickSchedule`). Beside them: how much
//! may be heard (`RateLimit`), which hellos were heard already (`HelloDedup`), what is to be noted of connections
//! (`SilenceTimer`, `RecentFaults`), and INFO with names in it (`without_names`).
//!
//! ```text
//! if link.stale(now).is_some() { link.close(now); }         // and its owner drops the socket
//! if link.schedule().is_due(now) { link.open(login, now)?; } // and its owner opens one
//! link.ask(&message, now)?;                                  // it joins what is unsent
//! let count = socket.write(link.unsent())?;
//! link.sent(count);
//! link.received(piece, now, &mut heard)?;                    // what the values that are whole with it say
//! ```
#![tactic(auto)]

mod hello_dedup;
mod host_names;
mod node_link;
mod rate_limit;
mod recent_faults;
mod schedule;
mod sessions;
mod silence_timer;
mod speaking;
mod target;
mod tick_schedule;
mod times;

pub use hello_dedup::HelloDedup;
pub use host_names::without_names;
pub use node_link::NodeLink;
pub use rate_limit::RateLimit;
pub use recent_faults::RecentFaults;
pub use schedule::{Schedule, Stage, Stale, ping_each};
pub use sessions::{
    ASKED_MAX, Heard, LinkFault, LinkSession, Question, Refusal, Row, Vote, law_pieces_join,
    question_of,
};
pub use silence_timer::SilenceTimer;
pub use speaking::Login;
pub use target::{Target, connection_count, place_of, target_at};
pub use tick_schedule::{TickSchedule, is_gap, pause_of, turn_of};
pub use times::{
    ACKS_MS, CATCH_UP_MS, DIFFERENT_MS, FLOW_MS, HELLO_AGAIN_MS, HURRY_MS, KEEP_MS, LOOK_MS,
    MUTE_MS, NO_HELLOS_MS, REST_MS, ROW_EACH_MS, SLOT_MAX_MS, STRANGERS_MS, SWITCH_MS, WAIT_MAX_MS,
};
