//! What a file says before its size is judged, and the steps of reading it, in the order of its faults.

ghost use Rattle.std.specs.Prelude.{◌≡◌, [], ◌++◌, not, nat_lt, ◌<◌, ◌≤◌, ◌⊎◌, None, Some, Ok, Err, List, ℕ, map, length, IfOk, IfErr, OnOk, MatchResult, slice_index_or, true};
ghost use Rattle.std.specs.List.{filter_map, flat_map, list_any};
ghost use Rattle.std.specs.Str.{IsUtf8};
ghost use Rattle.ballot_law.specs.declared.rosters.TheConstants.{SENTINELS_MAX};
ghost use Rattle.ballot_law.specs.Orders.{same_id};
ghost use Rattle.ballot_law.specs.RosterFaults.{fault_of};
ghost use Rattle.ballot_law.specs.Rosters.{no_member};
ghost use Rattle.ballot_law.specs.declared.rosters.RosterFault.TheVariants.{NoMemory};
ghost use Rattle.conf_lines.specs.declared.faults.ConfKind.TheVariants.{TooLong};
ghost use Rattle.ballot_law.specs.Cuts.{lines};
ghost use Rattle.sentinel_conf.specs.Room.{bounded};
ghost use Rattle.sentinel_conf.specs.Fixed.{IsFixedText};
ghost use Rattle.conf_lines.specs.Lines.{line_of};
ghost use Rattle.sentinel_conf.specs.AllFaults.{faults_in};
ghost use Rattle.sentinel_conf.specs.Meaning.{names_of, plan_of, conf_of, kept_of, states, settings};
ghost use Rattle.conf_lines.specs.Values.{name_of};
ghost use Rattle.sentinel_conf.specs.Rewritten.{rewritten, longest, at_last_epoch};
ghost use Rattle.conf_lines.specs.Words.{ended};
ghost use Rattle.sentinel_conf.specs.Reading.{FILE_MAX, checked, first_of, kept_lines_of, roster_checked, conf_of_lines, sized};
ghost use Rattle.conf_lines.specs.Faults.{no_memory, fault_at};

use crate::all_faults::{Judged, judge};
use crate::conf_text::ConfText;
use crate::file_lines::FileLines;
use crate::fixed_lines::FixedLines;
use crate::meaning::{
    all_settings_of, greatest_epoch, kept_masters_of, masters_of, members_of, my_id, names_given,
    own_addr, own_port,
};
use crate::read_line::read_lines;
use crate::settings::Settings;
use crate::writing::add_file;
use ballot_law::{
    Card, Kept, KeptMaster, KeptMasters, MAX_EPOCH, Member, Name, Roster, RosterFault, RunId,
    ordered,
};
use conf_lines::{ConfFault, ConfKind, StateLine};
use std::alloc::{AllocError, Global};
use std::marker::Model;

/// What a file says: the lines that a rewrite keeps, the roster, the settings, and what the state lines hold.
#[derive(Drop)]
pub struct ConfParts {
    kept_lines: Vec<u8>,
    roster: Roster,
    id: RunId,
    port: u16,
    settings: Vec<Settings>,
    kept: Kept,
    fixed: FixedLines,
}

impl Model for ConfParts {
    ghost use Rattle.std.specs.Prelude.{◌≡◌};
    ghost use Rattle.std.specs.List.{flat_map};
    ghost use Rattle.ballot_law.specs.Cuts.{lines};
    ghost use Rattle.conf_lines.specs.Words.{ended};
    ghost use Rattle.sentinel_conf.specs.Fixed.{IsFixedText};
    ghost use Rattle.sentinel_conf.specs.Meaning.{ConfPlan};

    ghost Value = { ConfPlan };

    ghost view = { λ parts. record {
      kept_lines = lines parts.kept_lines.items;
      roster = parts.roster;
      id = parts.id;
      port = parts.port;
      settings = parts.settings.items;
      kept = parts.kept;
    } };

    ghost invariant = { λ parts. (parts.kept_lines.items
        ≡ flat_map ended (lines parts.kept_lines.items))
        × IsFixedText parts.id parts.roster parts.fixed };
}

impl ConfParts {
    /// These parts. The lines are each ended by LF, and the fixed ones are those of the run id and the roster.
    ///
    /// Many parameters: each part of a file is read by itself, and only here are all of them known.
    pub fn new(
        kept_lines: Vec<u8>,
        roster: Roster,
        id: RunId,
        port: u16,
        settings: Vec<Settings>,
        kept: Kept,
        fixed: FixedLines,
    ) -> ConfParts
        requires lines { kept_lines.items ≡ flat_map ended (lines kept_lines.items) }
        requires fixed { IsFixedText id roster fixed }
        ensures { result ≡ record {
          kept_lines = lines kept_lines.items;
          roster = roster;
          id = id;
          port = port;
          settings = settings.items;
          kept = kept;
        } }
    {
        ConfParts {
            kept_lines,
            roster,
            id,
            port,
            settings,
            kept,
            fixed,
        }
    }

    /// The roster.
    pub fn roster(&self) -> &Roster
        ensures { result.now ≡ self.now.roster }
    {
        &self.roster
    }

    /// The roster, with no memory taken.
    pub fn into_roster(self) -> Roster
        ensures { result ≡ self.roster }
    {
        self.roster
    }

    /// The own run id.
    pub fn id(&self) -> RunId
        ensures { result ≡ self.now.id }
    {
        self.id
    }

    /// The own port.
    pub fn port(&self) -> u16
        ensures { result ≡ self.now.port }
    {
        self.port
    }

    /// The settings of each master.
    pub fn settings(&self) -> &[Settings]
        ensures { result.now ≡ self.now.settings }
    {
        self.settings.as_slice()
    }

    /// What the state lines hold.
    pub fn kept(&self) -> &Kept
        ensures { result.now ≡ self.now.kept }
    {
        &self.kept
    }

    /// Adds the rewritten file of these parts with this current epoch and these masters.
    fn write(&self, out: &mut ConfText, current: u64, masters: &[KeptMaster])
        ensures { bounded out.new ≡ bounded (out.old
            ++ rewritten self.now (record { current = current; masters = masters.now })) }
    {
        add_file(
            out,
            &self.kept_lines,
            &self.fixed,
            &self.roster,
            current,
            masters,
        );
    }

    /// Writes the rewritten file in place of what stood in the text, and tells whether it is no longer than a file may
    /// be. A longer one is cut off.
    pub fn write_into(&self, text: &mut ConfText, current: u64, masters: &[KeptMaster]) -> bool
        ensures text { text.new
            ≡ bounded (rewritten self.now (record { current = current; masters = masters.now })) }
        ensures fits { result ≡ not (nat_lt FILE_MAX (length text.new)) }
    {
        text.clear();
        self.write(text, current, masters);
        !text.is_too_long()
    }
}

/// The fault of a file of which no roster can be made.
fn of_roster(fault: RosterFault) -> ConfFault
    ensures either { (result ≡ no_memory) ⊎ (result ≡ fault_at 0 (ConfKind.Roster fault)) }
    ensures memory { fault ≡ NoMemory → result ≡ no_memory }
{
    match fault {
        RosterFault::NoMemory => ConfFault::of_file(ConfKind::NoMemory),
        fault => ConfFault::of_file(ConfKind::Roster(fault)),
    }
}

/// The roster of this Sentinel and of these state lines. The names are those of the masters, in order.
fn roster_of(
    alloc: Global,
    own: Member,
    states: &[StateLine],
    names: &[Name],
) -> Result<Roster, ConfFault>
    requires { names.now ≡ names_of states.now }
    ensures { MatchResult result
        (λ roster. (fault_of (plan_of own states.now) ≡ None) × (roster ≡ plan_of own states.now))
        (λ fault. (fault ≡ no_memory) ⊎ (checked (fault_of (plan_of own states.now)) ≡ Err fault)) }
{
    let members = members_of(alloc, own, states)?;
    let masters = masters_of(alloc, states, names)?;
    match Roster::new(alloc, members, masters) {
        Ok(roster) => Ok(roster),
        Err(fault) => Err(of_roster(fault)),
    }
}

/// What the state lines hold. The names are those of the masters, in order.
fn kept_of(alloc: Global, states: &[StateLine], names: &[Name]) -> Result<Kept, AllocError>
    requires { names.now ≡ names_of states.now }
    ensures { IfOk result (λ kept. kept ≡ kept_of states.now) }
{
    let masters = kept_masters_of(alloc, states, names)?;
    Ok(Kept {
        current: greatest_epoch(states),
        masters: KeptMasters::from_vec(masters),
    })
}

/// The lines that the roster fixes.
fn fixed_of(alloc: Global, id: RunId, roster: &Roster) -> Result<FixedLines, ConfFault>
    ensures ok { IfOk result (IsFixedText id roster.now) }
    ensures memory { IfErr result (λ fault. fault ≡ no_memory) }
{
    let Ok(mut text) = ConfText::new(alloc) else {
        return Err(ConfFault::of_file(ConfKind::NoMemory));
    };
    Ok(FixedLines::new(alloc, id, roster, &mut text)?)
}

/// The parts of a file with these lines and this run id.
fn assembled(
    alloc: Global,
    file: FileLines,
    given: Vec<Name>,
    id: RunId,
) -> Result<ConfParts, ConfFault>
    requires lines { file.kept.items ≡ flat_map ended (lines file.kept.items) }
    requires names { given.items ≡ filter_map name_of file.states.items }
    ensures { MatchResult result
        (λ parts. (fault_of parts.roster ≡ None)
        × (parts ≡ conf_of (lines file.kept.items) file.states.items file.settings.items id))
        (λ fault. (fault ≡ no_memory) ⊎ (roster_checked
        (conf_of (lines file.kept.items) file.states.items file.settings.items id) ≡ Err fault)) }
{
    let names = ordered(alloc, given)?;
    let own = Member {
        id,
        addr: own_addr(&file.settings),
    };
    let roster = roster_of(alloc, own, &file.states, &names)?;
    let kept = kept_of(alloc, &file.states, &names)?;
    let settings = all_settings_of(alloc, &file.settings, &names)?;
    let port = own_port(&file.settings);
    let fixed = fixed_of(alloc, id, &roster)?;
    Ok(ConfParts::new(file.kept, roster, id, port, settings, kept, fixed))
}

/// What the lines of these bytes say, or the first of all their faults.
fn faultless(alloc: Global, bytes: &[u8]) -> Result<FileLines, ConfFault>
    ensures none { OnOk result (faults_in (lines bytes.now) ≡ []) }
    ensures states { IfOk result
        (λ file. file.states.items ≡ states (map line_of (lines bytes.now))) }
    ensures settings { IfOk result
        (λ file. file.settings.items ≡ settings (map line_of (lines bytes.now))) }
    ensures kept { IfOk result
        (λ file. file.kept.items ≡ flat_map ended (kept_lines_of (lines bytes.now))) }
    ensures fault { IfErr result (λ fault. (fault ≡ no_memory)
        ⊎ (first_of (faults_in (lines bytes.now)) ≡ Some fault)) }
{
    let lines = read_lines(alloc, bytes)?;
    let Ok(Judged { states, faults }) = judge(alloc, &lines) else {
        return Err(ConfFault::of_file(ConfKind::NoMemory));
    };
    if let Some(fault) = faults.first() {
        return Err(*fault);
    }
    Ok(FileLines::of(alloc, &lines, states)?)
}

/// What these bytes say, or the first fault but for those of the size.
pub fn parts_of(alloc: Global, bytes: &[u8]) -> Result<ConfParts, ConfFault>
    requires { IsUtf8 bytes.now }
    ensures { MatchResult result
        (λ parts. conf_of_lines (lines bytes.now) ≡ sized parts)
        (λ fault. (fault ≡ no_memory) ⊎ (conf_of_lines (lines bytes.now) ≡ Err fault)) }
{
    let file = match faultless(alloc, bytes) {
        Ok(file) => file,
        Err(fault) => return Err(fault),
    };
    let names = names_given(alloc, &file.states)?;
    let Some(id) = my_id(&file.states) else {
        return Err(ConfFault::of_file(ConfKind::NoMyId));
    };
    assembled(alloc, file, names, id)
}

/// The run id of which all 40 digits are 0.
const ZEROS: RunId = RunId { hi: 0, lo: 0 };

/// This master with the greatest epoch everywhere, and a candidate.
fn at_last_epoch(master: &KeptMaster) -> KeptMaster
    ensures { result ≡ at_last_epoch master.now }
{
    KeptMaster {
        card: Card {
            epoch: MAX_EPOCH,
            addr: master.card.addr,
        },
        voted: MAX_EPOCH,
        candidate: Some(ZEROS),
    }
}

/// These masters with the greatest epoch everywhere, each with a candidate.
fn at_last_epochs(alloc: Global, masters: &[KeptMaster]) -> Result<Vec<KeptMaster>, AllocError>
    ensures { IfOk result (λ list. list.items ≡ map at_last_epoch masters.now) }
{
    masters.iter().map(at_last_epoch).collect(alloc)
}

/// Refuses parts whose longest rewritten file is too long.
pub fn check_size(alloc: Global, parts: &ConfParts) -> Result<(), ConfFault>
    ensures { MatchResult result
        (λ _. length (rewritten parts.now (longest parts.now.kept)) ≤ FILE_MAX)
        (λ fault. (fault ≡ no_memory) ⊎ ((fault ≡ fault_at 0 TooLong)
        × (FILE_MAX < length (rewritten parts.now (longest parts.now.kept))))) }
{
    let masters = at_last_epochs(alloc, parts.kept().masters.as_slice())?;
    let Ok(mut text) = ConfText::new(alloc) else {
        return Err(ConfFault::of_file(ConfKind::NoMemory));
    };
    if !parts.write_into(&mut text, MAX_EPOCH, &masters) {
        return Err(ConfFault::of_file(ConfKind::TooLong));
    }
    Ok(())
}

/// The place of the Sentinel with this run id.
pub fn place_of(members: &[Member], id: RunId) -> u16
    requires known { list_any (λ member. same_id id member.id) members.now ≡ true }
    requires few { length members.now ≤ SENTINELS_MAX }
    ensures place { result < length members.now }
    ensures id { (slice_index_or members.now result no_member).id ≡ id }
{
    let mut place = 0;
    while place < members.len() && !id.is_same(&members[place].id) {
        place += 1;
    }
    place as u16
}
