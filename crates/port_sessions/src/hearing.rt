//! To which notes a client listens.

ghost use Rattle.std.specs.Prelude.{◌≡◌, ◌<◌, Some, slice_set};
ghost use Rattle.ballot_law.specs.declared.rosters.TheConstants.{MASTERS_MAX};
ghost use Rattle.port_sessions.specs.Notes.{unheard, is_news};

use ballot_law::{MASTERS_MAX, Note};

/// Since which entry of the Sentinel's history a client listens to notes, if it does, and of each master the epoch of
/// the configuration that it was told last.
#[derive(Drop)]
pub struct NotesHeard {
    pub(crate) listens: Option<u64>,
    told: [Option<u64>; MASTERS_MAX],
}

impl NotesHeard {
    /// That of a client that never listened.
    pub(crate) fn none() -> NotesHeard
        ensures { result ≡ unheard }
    {
        NotesHeard {
            listens: None,
            told: [None; MASTERS_MAX],
        }
    }

    /// Whether a note of this entry is news to the client.
    pub(crate) fn is_news(&self, note: &Note, entry: u64) -> bool
        requires { note.now.master < MASTERS_MAX }
        ensures { result ≡ is_news self.now.listens self.now.told note.now entry }
    {
        let Some(since) = self.listens else {
            return false;
        };
        if entry <= since {
            return false;
        }
        match self.told[note.master as usize] {
            Some(last) => last < note.card.epoch,
            None => true,
        }
    }

    /// The note counts as told.
    pub(crate) fn count(&mut self, note: &Note)
        requires { note.now.master < MASTERS_MAX }
        ensures listens { self.new.listens ≡ self.old.listens }
        ensures told { self.new.told ≡ slice_set self.old.told note.now.master (Some note.now.card.epoch) }
    {
        self.told[note.master as usize] = Some(note.card.epoch);
    }
}
