//! Pub/Sub of a Sentinel's port: to which channels and patterns a connection listens, what it is answered of that, and
//! what it is told of the Sentinel's events.
//!
//! `Subscriptions::answer` answers the commands of Pub/Sub as redis-sentinel does, and leaves every other value;
//! `Subscriptions::tell` adds what a connection is told of an event. Patterns match as in Redis, in work that is
//! bounded by the length of the pattern times that of the text. No Sentinel and no socket is known here.
#![tactic(auto)]

mod answers;
mod changes;
mod channel;
mod confirmations;
mod fault;
mod globs;
mod kind;
mod laws;
mod name;
mod names;
mod subscriptions;
mod telling;
mod verb;
mod words_in;

pub use answers::{Turn, say_wrong_arguments};
pub use channel::{Channel, Event};
pub use fault::ChannelFault;
pub use globs::is_match;
pub use laws::{
    law_answers_are_values, law_nothing_else_is_told, law_own_commands,
    law_subscriptions_stay_sound,
};
pub use name::Name;
pub use names::{NAME_BYTES_MAX, NAMES_MAX};
pub use subscriptions::Subscriptions;
