//! The list of what happened in a run.

ghost use Rattle.std.specs.Prelude.{◌≡◌, ◌<◌, ◌≤◌, ◌-◌, ◌∷◌, ◌++◌, [], OnOk, OnErr};
ghost use Rattle.fault_world.specs.Told.{report_text};

use crate::entry::Entry;
use crate::lines::add_lines;
use ballot_law::NoMemory;
use resp2::OutText;
use std::alloc::Global;
use std::marker::Model;

/// The elections and the configurations shown of a run, in the order in which they happened. Contracts see the list of
/// the entries, and how many more it has room for.
#[derive(Drop)]
pub struct Report {
    entries: Vec<Entry>,
}

impl Model for Report {
    ghost use Rattle.std.specs.Prelude.{◌-◌, vec_len, vec_capacity};
    ghost use Rattle.fault_world.specs.Listed.{Listed};

    ghost Value = { Listed };

    ghost view = { λ report. record {
      entries = report.entries.items;
      room = vec_capacity report.entries - vec_len report.entries;
    } };
}

impl Report {
    /// A report with no entry and no room. No memory is taken.
    pub fn new(alloc: Global) -> Report
        ensures { result ≡ record { entries = []; room = 0 } }
    {
        Report {
            entries: Vec::new(alloc),
        }
    }

    /// Makes room for so many more entries, in addition to those that are there. `NoMemory` changes nothing.
    pub fn reserve(&mut self, more: usize) -> Result<(), NoMemory>
        ensures entries { self.new.entries ≡ self.old.entries }
        ensures room { self.old.room ≤ self.new.room }
        ensures ok { OnOk result (more ≤ self.new.room) }
        ensures err { OnErr result (self.new ≡ self.old) }
    {
        self.entries.reserve(more)?;
        Ok(())
    }

    /// Adds an entry at the end, for which there has to be room. No memory is taken.
    pub fn push(&mut self, entry: Entry)
        requires { 0 < self.old.room }
        ensures { self.new ≡ record {
          entries = self.old.entries ++ entry ∷ [];
          room = self.old.room - 1;
        } }
    {
        self.entries.push_reserved(entry);
    }

    /// The entries in the order in which they happened.
    pub fn as_slice(&self) -> &[Entry]
        ensures { result.now ≡ self.now.entries }
    {
        self.entries.as_slice()
    }

    /// Adds a line for each entry, in order: `elected <master> <epoch> <runid>` or
    /// `said <runid> <master> <epoch> <ip> <port>`, with numbers in decimal and LF at the end. `NoMemory` leaves the
    /// text unchanged.
    pub fn lines(&self, text: &mut OutText) -> Result<(), NoMemory>
        ensures ok { OnOk result (text.new ≡ text.old ++ report_text self.now.entries) }
        ensures err { OnErr result (text.new ≡ text.old) }
    {
        add_lines(text, &self.entries)
    }
}
