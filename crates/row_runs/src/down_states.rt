//! Watched nodes, watched clocks, and what others say of a master.

use crate::given::{number, number_16, number_32, says};
use crate::told::{Told, Unplayed};
use ballot_law::{DataRole, PingReply};
use down_detector::{DownReports, Tilt, Watch, is_odown};
use std::alloc::Global;

/// A node, a clock and the reports about a master.
#[derive(Drop)]
pub(crate) struct DownStates {
    alloc: Global,
    watch: Watch,
    tilt: Tilt,
    reports: DownReports,
}

/// What a word that begins with `+` or `-` counts as, as an answer to a PING.
fn reply(word: &[u8]) -> Result<PingReply, Unplayed> {
    match word {
        [b'+', text @ ..] => Ok(PingReply::of(false, text)),
        [b'-', text @ ..] => Ok(PingReply::of(true, text)),
        _ => Err(Unplayed::WrongWords),
    }
}

/// The role that a word is.
fn role(word: &[u8]) -> Result<DataRole, Unplayed> {
    if says(word, "master", "slave")? {
        Ok(DataRole::Master)
    } else {
        Ok(DataRole::Replica)
    }
}

impl DownStates {
    /// All is watched from moment 0 on, and nobody can report.
    pub(crate) fn new(alloc: Global) -> Result<DownStates, Unplayed> {
        Ok(DownStates {
            alloc,
            watch: Watch::new(0),
            tilt: Tilt::new(0),
            reports: DownReports::new(alloc, 0)?,
        })
    }

    /// A Sentinel says whether it finds the master down.
    fn report(&mut self, place: u16, down: bool, now: u64) -> Result<(), Unplayed> {
        if usize::from(place) >= self.reports.sentinels() {
            return Err(Unplayed::OutOfRange);
        }
        self.reports.report(place, down, now);
        Ok(())
    }

    /// Tells what comes of a call about the clock or the reports.
    fn play_others(
        &mut self,
        call: &str,
        words: &[Vec<u8>],
        told: &mut Told,
    ) -> Result<(), Unplayed> {
        match (call, words) {
            ("tilt", [now]) => {
                self.tilt = Tilt::new(number(now)?);
                told.ok()
            }
            ("turn", [now]) => told.yes(self.tilt.turn(number(now)?)),
            ("holds", []) => told.yes(self.tilt.holds()),
            ("reports", [sentinels]) => {
                self.reports = DownReports::new(self.alloc, number_16(sentinels)?)?;
                told.ok()
            }
            ("report", [place, down, now]) => {
                self.report(number_16(place)?, says(down, "down", "up")?, number(now)?)?;
                told.ok()
            }
            ("clear", []) => {
                self.reports.clear();
                told.ok()
            }
            ("is_odown", [own, now, quorum]) => {
                let own = says(own, "true", "false")?;
                told.yes(is_odown(own, &self.reports, number(now)?, number_32(quorum)?))
            }
            _ => Err(Unplayed::NoSuchCall),
        }
    }

    /// Tells what comes of a call with these words.
    pub(crate) fn play(
        &mut self,
        call: &str,
        words: &[Vec<u8>],
        told: &mut Told,
    ) -> Result<(), Unplayed> {
        match (call, words) {
            ("watch", [now]) => {
                self.watch = Watch::new(number(now)?);
                told.ok()
            }
            ("heard", [now, answer]) => {
                self.watch.heard(number(now)?, reply(answer)?);
                told.ok()
            }
            ("reported", [now, told_role]) => {
                self.watch.reported(number(now)?, role(told_role)?);
                told.ok()
            }
            ("card_changed", [now]) => {
                self.watch.card_changed(number(now)?);
                told.ok()
            }
            ("is_sdown", [now, after, of]) => {
                let of = says(of, "master", "node")?;
                told.yes(self.watch.is_sdown(number(now)?, number(after)?, of))
            }
            ("sdown_since", [now, after, of]) => {
                let of = says(of, "master", "node")?;
                told.maybe_number(self.watch.sdown_since(number(now)?, number(after)?, of))
            }
            _ => self.play_others(call, words, told),
        }
    }
}
