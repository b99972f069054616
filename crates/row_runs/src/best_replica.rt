//! The replicas among which one is chosen.

use crate::given::{id, number, says};
use crate::told::{Told, Unplayed};
use replica_choice::{Candidate, Limits, choose};
use std::alloc::Global;

/// The replicas that are known.
#[derive(Drop)]
pub(crate) struct Replicas {
    known: Vec<Candidate>,
}

/// What these words tell of a replica.
fn candidate(words: &[Vec<u8>]) -> Result<Candidate, Unplayed> {
    let [state, priority, link, ping, info, offset, run_id] = words else {
        return Err(Unplayed::WrongWords);
    };
    Ok(Candidate {
        sdown: says(state, "down", "up")?,
        priority: number(priority)?,
        link_down_s: number(link)?,
        last_ping: Some(number(ping)?),
        last_info: Some(number(info)?),
        offset: number(offset)?,
        id: Some(id(run_id)?),
    })
}

impl Replicas {
    /// None is known.
    pub(crate) fn new(alloc: Global) -> Replicas {
        Replicas {
            known: Vec::new(alloc),
        }
    }

    /// Tells what comes of a call with these words.
    pub(crate) fn play(
        &mut self,
        call: &str,
        words: &[Vec<u8>],
        told: &mut Told,
    ) -> Result<(), Unplayed> {
        match (call, words) {
            ("replicas", []) => {
                self.known.clear();
                told.ok()
            }
            ("replica", words) => {
                self.known.push(candidate(words)?)?;
                told.ok()
            }
            ("choose", [now, after, down]) => {
                let limits = Limits {
                    after_ms: number(after)?,
                    master_down_ms: number(down)?,
                };
                let place = choose(&self.known, number(now)?, limits);
                told.maybe_number(place.map(|place| place as u64))
            }
            _ => Err(Unplayed::NoSuchCall),
        }
    }
}
