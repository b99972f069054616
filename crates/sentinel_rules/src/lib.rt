//! What a Sentinel does with each input, as definitions: the rules of one whole Sentinel, apart from the code that
//! keeps them.
//!
//! `specs/` reads from below: `Plans` (what doesn't change), `States` (what is kept, and what is down), `Parts` (what
//! is put out), `Profiles` (where the profiles differ), `Votes`, `Ticks`, `News` (hellos, answers, replies, INFO),
//! `Answers` (the commands of the port), `Takes` (one input as a whole), `Facts` (what is known of each plan and core),
//! `Steps` (an input by steps of the ballot model), `Room`, `Named` and `Limits` (how much is put out, of which
//! masters, and with which numbers), `Changes` (what an input changes of what is kept), `Ignored` (what changes
//! nothing), `Worked` (whole runs, computed). `docs/RULES.md` says the same in words.
#![tactic(auto)]

mod assumed;
mod contacts;
mod frames;
mod laws;
mod periods;
mod profiles;
mod worked;

pub use assumed::ASSUMED_INFO;
pub use contacts::Contact;
pub use frames::{FRAMES_MAX, Frame};
pub use laws::{
    law_hellos_name_masters, law_ignored_inputs_change_nothing, law_inputs_are_steps,
    law_inputs_change_one_card, law_inputs_keep_sound, law_opening_is_sound,
    law_outputs_are_within,
};
pub use periods::{
    ASK_MS, BUSY_INFO_MS, HANDED_MS, HEIR_INFO_MS, HELLO_LATE_MS, HELLO_MS, HOLD_MS, INFO_MS,
    LINK_MAX_S, LOOKED_MS, PING_MS, QUIET_MS, SWITCH_MS, SWITCHED_MS, WISH_MS, WRONG_ROLE_MS,
    law_periods, law_waits,
};
pub use profiles::Profile;
pub use worked::{
    law_example_answers, law_example_failover, law_example_no_failover, law_example_profiles,
    law_example_replicas, law_example_switches, law_example_tilt, law_example_votes,
};
