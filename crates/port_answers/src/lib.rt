//! The answers of a Sentinel's port about its masters, their replicas and the other Sentinels, and the port's short
//! answers, written as RESP2 with no memory taken.
//!
//! Nothing here knows a Sentinel's state: the caller gives plain rows, and an `AnswerText`, whose room was made
//! beforehand, takes their bytes. The fields, the flags and the lines stand in docs/CLIENTS.md.
#![tactic(auto)]

mod answer_text;
mod fields;
mod info_lines;
mod known_rows;
mod laws;
mod line_answers;
mod redis_rows;
mod row_answers;
mod rows;

pub use answer_text::AnswerText;
pub use info_lines::{InfoSection, MasterLine};
pub use known_rows::{ContactRow, FailoverStage, LinkRow, SaidRow};
pub use laws::law_answers_fit;
pub use rows::{MasterRow, ReplicaRow, SentinelRow};
