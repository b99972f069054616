//! The lines of a rewritten file that its roster fixes, spelled once.

ghost use Rattle.std.specs.Prelude.{◌≡◌, ◌++◌, map, IfOk};
ghost use Rattle.conf_lines.specs.declared.lines.StateLine.TheVariants.{MyId};
ghost use Rattle.conf_lines.specs.Lines.{spelled};
ghost use Rattle.conf_lines.specs.Words.{ended};
ghost use Rattle.sentinel_conf.specs.Fixed.{IsFixedText, fixed_of};
ghost use Rattle.sentinel_conf.specs.Rewritten.{text_of, sentinel_states};
ghost use Rattle.sentinel_conf.specs.Room.{bounded};

use crate::conf_text::ConfText;
use crate::writing::{add_sentinels, add_state};
use ballot_law::{Member, Name, Roster, RunId, Text};
use conf_lines::StateLine;
use std::alloc::{AllocError, Global};
use std::marker::Model;

/// The line of the own run id, and of each master the lines of the other Sentinels: no input changes them, so that a
/// rewrite adds their bytes as they are. Each text is cut off where it is longer than a file may be.
#[derive(Drop)]
pub struct FixedLines {
    own: Text,
    sentinels: Vec<Text>,
}

impl Model for FixedLines {
    ghost use Rattle.sentinel_conf.specs.Fixed.{FixedTexts};

    ghost Value = { FixedTexts };

    ghost view = { λ lines. record { own = lines.own; sentinels = lines.sentinels.items } };
}

/// The line of this run id.
fn own_line(alloc: Global, id: RunId, text: &mut ConfText) -> Result<Text, AllocError>
    ensures { IfOk result (λ line. bounded line ≡ bounded (ended (spelled (MyId id)))) }
{
    text.clear();
    add_state(text, &StateLine::MyId(id));
    Ok(Text::from_vec(Vec::from_slice(alloc, text.as_slice())?))
}

/// The Sentinel lines of a master, but for the Sentinel with this run id.
fn sentinel_lines(
    alloc: Global,
    name: &Name,
    id: RunId,
    members: &[Member],
    text: &mut ConfText,
) -> Result<Text, AllocError>
    ensures { IfOk result (λ lines. bounded lines
        ≡ bounded (text_of (sentinel_states name.now id members.now))) }
{
    text.clear();
    add_sentinels(text, name, id, members);
    Ok(Text::from_vec(Vec::from_slice(alloc, text.as_slice())?))
}

/// The Sentinel lines of each master, but for the Sentinel with this run id.
fn all_sentinel_lines(
    alloc: Global,
    id: RunId,
    roster: &Roster,
    text: &mut ConfText,
) -> Result<Vec<Text>, AllocError>
    ensures { IfOk result (λ list. map bounded list.items
        ≡ map (fixed_of id roster.now.sentinels) roster.now.masters) }
{
    let mut list = Vec::with_capacity(alloc, roster.masters().len())?;
    let mut rest = roster.masters();
    while let [master, more @ ..] = rest {
        let lines = sentinel_lines(alloc, &master.name, id, roster.sentinels(), text)?;
        list.push(lines)?;
        rest = more;
    }
    Ok(list)
}

impl FixedLines {
    /// Those of the Sentinel with this run id, in this roster. The text is used for the spelling, and its bytes are
    /// lost.
    pub fn new(
        alloc: Global,
        id: RunId,
        roster: &Roster,
        text: &mut ConfText,
    ) -> Result<FixedLines, AllocError>
        ensures { IfOk result (IsFixedText id roster.now) }
    {
        let own = own_line(alloc, id, text)?;
        let sentinels = all_sentinel_lines(alloc, id, roster, text)?;
        Ok(FixedLines { own, sentinels })
    }

    /// The line of the own run id.
    pub fn own(&self) -> &[u8]
        ensures { result.now ≡ self.now.own }
    {
        self.own.as_slice()
    }

    /// The Sentinel lines of each master.
    pub fn sentinels(&self) -> &[Text]
        ensures { result.now ≡ self.now.sentinels }
    {
        self.sentinels.as_slice()
    }
}
