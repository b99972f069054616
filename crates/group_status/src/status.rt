//! What is told of a group.

ghost use Rattle.std.specs.Prelude.{◌≡◌, ◌↔◌, [], true};
ghost use Rattle.group_status.specs.Saying.{HaveAllSaid};
ghost use Rattle.group_status.specs.Wellness.{IsWellGroup, unwell};

use crate::facts_json::json_of;
use crate::group::GroupFacts;
use crate::matter_lists::matters_of;
use crate::matters::{Matter, findings};
use crate::tables::page_of;
use ballot_law::NoMemory;
use std::alloc::Global;

/// What the nodes of a group said, what was looked at in it, and what of that isn't well.
#[derive(Drop)]
pub struct Status {
    group: GroupFacts,
    matters: Vec<Matter>,
    pub(crate) findings: Vec<Matter>,
    ghost found: { findings.items ≡ unwell matters.items },
    ghost whole: { IsWellGroup matters.items → HaveAllSaid group },
}

impl Status {
    /// Looks at a group. `NoMemory`: memory was refused.
    pub fn of(alloc: Global, group: GroupFacts) -> Result<Status, NoMemory> {
        let matters = matters_of(alloc, &group)?;
        let findings = findings(alloc, &matters)?;
        Ok(Status {
            group,
            matters,
            findings,
        })
    }

    /// Whether nothing was found that isn't well.
    fn has_no_finding(&self) -> bool
        ensures { result ≡ true ↔ (self.now.findings.items ≡ []) }
    {
        self.findings.is_empty()
    }

    /// Whether all that was looked at is well.
    pub fn is_well(&self) -> bool
        ensures well { result ≡ true ↔ IsWellGroup self.now.matters.items }
        ensures none { result ≡ true ↔ (self.now.findings.items ≡ []) }
    {
        self.has_no_finding()
    }

    /// The exit status that tells whether it is well: 0 if so, and only then; else 1.
    pub fn exit_status(&self) -> u8
        ensures well { result ≡ 0 ↔ IsWellGroup self.now.matters.items }
        ensures none { result ≡ 0 ↔ (self.now.findings.items ≡ []) }
        ensures said { result ≡ 0 → HaveAllSaid self.now.group }
    {
        if self.is_well() { 0 } else { 1 }
    }

    /// The page for people: a table of each master, then `well`, or a line `not well: ..` for each finding.
    pub fn page(&self, alloc: Global) -> Result<String, NoMemory> {
        page_of(alloc, &self.group, &self.findings)
    }

    /// One JSON object in one line, for programs: `well`, `masters`, `sentinels`, `nodes` and the sentences of
    /// `findings`.
    pub fn json(&self, alloc: Global) -> Result<String, NoMemory> {
        json_of(alloc, &self.group, &self.findings)
    }
}
