//! The text of a file that redis-sentinel reads.

ghost use Rattle.std.specs.Prelude.{◌≡◌, ◌<◌, ◌≤◌, ◌∷◌, ◌==◌, length, take, drop, IfOk};
ghost use Rattle.ballot_law.specs.Cuts.{lines, IsEnd};
ghost use Rattle.sentinel_conf.specs.Watch.RedisTexts.{whole_lines, is_leader_line, redis_text, LinesAreText};

use ballot_law::{NoMemory, Text};
use conf_lines::{Line, StateLine, line_of};
use memchr::memchr;
use std::alloc::Global;
use tokens::split_line;

/// Where the first LF is, or the length where there is none.
fn lf_place(bytes: &[u8]) -> usize
    ensures { IsEnd (λ b. b == 10) bytes.now result }
{
    memchr(b'\n', bytes).unwrap_or(bytes.len())
}

/// How many bytes the first line of a text that isn't empty has, with its LF.
#[tactic(auto, using(crate::proofs::WatchLemmas::WholeLines::line_cut, crate::proofs::WatchLemmas::WholeLines::last_cut))]
fn line_length(bytes: &[u8]) -> usize
    requires { 0 < length bytes.now }
    ensures cut { whole_lines bytes.now ≡ take result bytes.now ∷ whole_lines (drop result bytes.now) }
    ensures some { 0 < result }
    ensures within { result ≤ length bytes.now }
{
    let place = lf_place(bytes);
    if place < bytes.len() {
        place + 1
    } else {
        place
    }
}

/// Whether a line that isn't empty is a line `sentinel leader-id`.
fn is_leader_line(whole: &[u8]) -> bool
    requires { 0 < length whole.now }
    ensures { result ≡ is_leader_line (lines whole.now) }
{
    let (text, _) = split_line(whole);
    match line_of(text) {
        Line::State(StateLine::LeaderId { .. }) => true,
        _ => false,
    }
}

/// The text of a file without its lines `sentinel leader-id`, which redis-sentinel doesn't know; all else is as it
/// stands, byte for byte. NoMemory: memory was refused.
pub fn redis_text(alloc: Global, bytes: &[u8]) -> Result<Text, NoMemory>
    ensures { IfOk result (λ text. text ≡ redis_text bytes.now) }
{
    let mut text = Vec::new(alloc);
    let mut rest = bytes;
    while !rest.is_empty() {
        let (whole, more) = rest.split_at(line_length(rest));
        if !is_leader_line(whole) {
            text.extend_from_slice(whole)?;
        }
        rest = more;
    }
    Ok(Text::from_vec(text))
}

/// The lines of a text with their ends are the text: so `redis_text` leaves out nothing but the lines that it says.
pub fn law_lines_are_text()
    ensures { LinesAreText }
{}
