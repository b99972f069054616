//! A session with courtesies: the conversation with one client of a port, whose values are answered as a Sentinel's
//! session answers them, by Pub/Sub of `pubsub`, or by the table of `client_commands` where the Sentinel's rules know
//! no answer.
//!
//! Both sessions stand over a `Responder` of `port_sessions`, which has all that isn't sent yet and knows since when
//! notes are due: `ClientSession` is one or the other. What a client is answered stands in `specs/Visits`; what it is
//! told besides in `specs/Events`, and what each call of a `ClientSession` does in `specs/Clients`. All of that is in
//! RESP2; how it is told to a client that asked for RESP3 stands in `specs/Retelling`.
#![tactic(auto)]

mod client_session;
mod courteous_session;
mod epochs;
mod exchange;
mod going_on;
mod hearing;
mod in_place;
mod laws;
mod nested;
mod questions;
mod retelling;
mod shapes;
mod speaking;

pub use client_session::ClientSession;
pub use courteous_session::CourteousSession;
pub use epochs::{EPOCHS_AHEAD, FarRequest, is_far};
pub use going_on::UNSENT_MAX;
pub use laws::{
    law_channels_tell_nothing_else, law_courtesies_take_no_turn,
    law_listeners_are_answered_by_channels, law_own_commands_are_answered_as_before,
    law_pieces_join, law_protocols_say_the_same, law_protocols_tell_the_same_answers,
    law_strangers_take_no_turn,
};
pub use port_sessions::Reach;
