//! What a file says, and the file that keeps a Sentinel's part.

ghost use Rattle.std.specs.Prelude.{◌≡◌, ◌<◌, ◌⊎◌, [], Ok, Err, length, MatchResult, MatchOption, Some, IfOk, IfSome, IfNone, slice_index_or, ◌≤◌, nat_lt};
ghost use Rattle.ballot_law.specs.declared.cards.Kept.{Kept as KeptModel};
ghost use Rattle.ballot_law.specs.Rosters.{id_of};
ghost use Rattle.sentinel_conf.specs.Meaning.{ConfPlan};
ghost use Rattle.sentinel_conf.specs.Rewritten.{rewritten, IsKeptPart};
ghost use Rattle.sentinel_conf.specs.Reading.{conf_of_bytes};
ghost use Rattle.conf_lines.specs.Faults.{no_memory};
ghost use Rattle.sentinel_conf.specs.Facts.{IsSoundConf, no_settings};

use crate::conf_text::{ConfText, FILE_MAX};
use crate::reading::{ConfParts, check_size, parts_of, place_of};
use crate::settings::Settings;
use ballot_law::{Kept, NoMemory, Roster};
use conf_lines::{ConfFault, ConfKind};
use std::alloc::Global;
use std::marker::Model;
use std::str;

/// What a file sentinel.conf says, without a fault: its roster, what a Sentinel keeps in it, its settings, and the
/// lines that a rewrite keeps. It comes from `read` alone.
#[derive(Drop)]
pub struct Conf {
    parts: ConfParts,
    place: u16,
}

impl Model for Conf {
    ghost use Rattle.std.specs.Prelude.{◌≡◌, ◌<◌, length};
    ghost use Rattle.ballot_law.specs.Rosters.{id_of};
    ghost use Rattle.sentinel_conf.specs.Meaning.{ConfPlan};
    ghost use Rattle.sentinel_conf.specs.Reading.{IsRead};

    ghost Value = { ConfPlan };

    ghost view = { λ conf. conf.parts };

    ghost invariant = { λ conf. IsRead conf.parts
        × (conf.place < length conf.parts.roster.sentinels)
        × (id_of conf.parts.roster conf.place ≡ conf.parts.id) };
}

impl Conf {
    /// The Sentinels and the masters with their nodes, in order: 1 to 64 Sentinels, each with a run id of its own, and
    /// 1 to 16 masters, each with a name of its own and 1 to 256 nodes, of which no two are the same.
    pub fn roster(&self) -> &Roster
        ensures value { result.now ≡ self.now.roster }
        ensures sound { IsSoundConf self.now }
    {
        self.parts.roster()
    }

    /// The roster by itself, with no memory taken.
    pub fn into_roster(self) -> Roster
        ensures { result ≡ self.roster }
    {
        self.parts.into_roster()
    }

    /// What the state lines hold: the current epoch, and of each master by its number the configuration and the epoch
    /// of the last vote.
    pub fn kept(&self) -> &Kept
        ensures value { result.now ≡ self.now.kept }
        ensures part { IsKeptPart self.now self.now.kept }
    {
        self.parts.kept()
    }

    /// The place of this Sentinel in the roster: that of the run id of the line `sentinel myid`.
    pub fn place(&self) -> u16
        ensures within { result < length self.now.roster.sentinels }
        ensures id { id_of self.now.roster result ≡ self.now.id }
    {
        self.place
    }

    /// The TCP port on which clients find this Sentinel: the last line `port`, or 26,379.
    pub fn port(&self) -> u16
        ensures { result ≡ self.now.port }
    {
        self.parts.port()
    }

    /// The settings of the master with this number; none where there is no such master.
    pub fn settings(&self, m: u16) -> Option<Settings>
        ensures some { IfSome result (λ settings. (m < length self.now.roster.masters)
            × (slice_index_or self.now.settings m settings ≡ settings)) }
        ensures none { IfNone result (length self.now.roster.masters ≤ m) }
        ensures known { m < length self.now.roster.masters → result
            ≡ Some (slice_index_or self.now.settings m no_settings) }
    {
        let settings = self.parts.settings();
        if m as usize >= settings.len() {
            return None;
        }
        Some(settings[m as usize])
    }
}

/// What the file with these bytes says, or its first fault. Faults are judged in this order: `TooLong` and `NotUtf8` of
/// the file; then line by line `BadDirective`, `BadName`, `BadAddress`, `BadNumber`, `BadRunId` and `Twice`; then line
/// by line `UnknownMaster`; then `NoMyId` and `Roster`; and last `TooLong`, where the file could become too long by a
/// rewrite. `NoMemory`, with line 0, may stand in place of any other answer.
///
/// The directives are those of the comments in Redis's own sentinel.conf. A line that is no directive of this project
/// is kept as it is and has no effect.
pub fn read(alloc: Global, bytes: &[u8]) -> Result<Conf, ConfFault>
    ensures { MatchResult result (λ conf. conf_of_bytes bytes.now ≡ Ok conf)
        (λ fault. (fault ≡ no_memory) ⊎ (conf_of_bytes bytes.now ≡ Err fault)) }
{
    if bytes.len() > FILE_MAX {
        return Err(ConfFault::of_file(ConfKind::TooLong));
    }
    if let Err(_) = str::from_utf8(bytes) {
        return Err(ConfFault::of_file(ConfKind::NotUtf8));
    }
    let parts = match parts_of(alloc, bytes) {
        Ok(parts) => parts,
        Err(fault) => return Err(fault),
    };
    if let Err(fault) = check_size(alloc, &parts) {
        return Err(fault);
    }
    let place = place_of(parts.roster().sentinels(), parts.id());
    Ok(Conf { parts, place })
}

impl ConfText {
    /// Room for the longest rewritten file of this conf, with no text in it yet.
    pub fn room_for(alloc: Global, _conf: &Conf) -> Result<ConfText, NoMemory>
        ensures { IfOk result (λ text. text ≡ []) }
    {
        ConfText::new(alloc)
    }
}

/// Writes the file of this conf with this kept part: the lines that are kept, byte for byte and in order, then the
/// state lines. What stood in the text before is gone. It takes no memory, since every text has room for the longest
/// file.
///
/// The kept part is one of this conf's masters: one entry for each, its address among the master's nodes, and no epoch
/// above the current one, which is at most `MAX_EPOCH`.
pub fn rewrite_into(conf: &Conf, kept: &Kept, text: &mut ConfText)
    requires { IsKeptPart conf.now kept.now }
    ensures { text.new ≡ rewritten conf.now kept.now }
{
    let _fits = conf
        .parts
        .write_into(text, kept.current, kept.masters.as_slice());
}
