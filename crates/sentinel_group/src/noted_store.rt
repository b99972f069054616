//! The file of a Sentinel that runs, with a note where it can't be stored or loaded.

ghost use Rattle.std.specs.Prelude.{◌≡◌, ◌≢◌, ◌↔◌, IfOk, IsSome};

use conf_lines::{Line, line_of};
use log::{Level, Log, log_enabled, warn};
use sentinel_conf::{ConfStore, FileFault, FileStep, FileStore, FileText, LoadFault, StoreRefused};
use std::alloc::AllocError;
use std::io;
use std::marker::Model;
use std::str::from_utf8;
use std::time::Instant;

/// How long a store may take before that is noted, in milliseconds: every vote and each step of a failover waits for
/// one.
const SLOW_MS: u128 = 1_000;

/// A store that tells why its calls failed, and what somebody else put in the place of its text.
pub(crate) trait TellsFault: ConfStore {
    /// Whether somebody else wrote what it holds, since it was loaded or stored last.
    fn is_edited(&self) -> bool;

    /// What somebody else wrote; None where nobody did, or it can't be read.
    fn edited_text(&self) -> Option<FileText>;

    /// Why the last of the calls that failed did. None where none has failed.
    fn fault(&self) -> Option<FileFault>
        ensures { IsSome result ↔ (Self.failure_count self.now ≢ 0) };
}

impl TellsFault for FileStore<HostRuntime> {
    fn is_edited(&self) -> bool {
        FileStore::is_edited(self)
    }

    fn edited_text(&self) -> Option<FileText> {
        FileStore::edited_text(self)
    }

    fn fault(&self) -> Option<FileFault> {
        self.last_fault()
    }
}

/// Whether a line sets something that may be shown: no password, and nothing that each store writes anew.
fn is_setting(line: &str) -> bool {
    matches!(line_of(line.as_bytes()), Line::Setting(_))
}

/// Whether the text has this line.
fn has_line(text: &[u8], line: &str) -> bool {
    match from_utf8(text) {
        Ok(text) => text.lines().any(|it| it == line),
        Err(_) => false,
    }
}

/// The file of the Sentinel with this port, as a store. Each text that is refused gets a note: which Sentinel, which
/// file, what failed, and the system's reason; so does a load that fails, as at a start by order, a text that is about
/// to take the place of what somebody else wrote, and a store that takes a second or more. Contracts see the store
/// without its notes.
#[derive(Drop)]
pub(crate) struct NotedStore<'a, S: TellsFault, R: Log> {
    rt: HostRuntime,
    store: S,
    noting: &'a R,
    port: u16,
    path: String,
}

/// The file of a Sentinel on the disk, with its notes.
pub(crate) type NotedFile<'a, R> = NotedStore<'a, FileStore<HostRuntime>, R>;

impl<'a, S: TellsFault, R: Log> Model for NotedStore<'a, S, R> {
    ghost Value = { S };

    ghost view = { λ noted. noted.store };
}

impl<'a, S: TellsFault + Drop, R: Log> NotedStore<'a, S, R> {
    /// This store of the file at the path, whose notes go to the log of `noting`.
    pub(crate) fn of(
        rt: HostRuntime,
        noting: &'a R,
        store: S,
        port: u16,
        path: &str,
    ) -> Result<NotedStore<'a, S, R>, AllocError>
        ensures { IfOk result (λ noted. noted ≡ store) }
    {
        Ok(NotedStore {
            rt,
            store,
            noting,
            port,
            path: String::from_str(rt.alloc(), path)?,
        })
    }

    /// Notes that somebody edited the file, over which this text is written, and which settings go with that.
    fn note_edited(&self, text: &[u8]) {
        let noting = self.noting.span("sentinel").with("port", self.port);
        let path = self.path.as_str();
        warn!(noting; "somebody edited {path} while it ran: that is overwritten");
        let Some(edited) = self.store.edited_text() else {
            return;
        };
        let Ok(edited) = from_utf8(edited.as_slice()) else {
            return;
        };
        for line in edited.lines() {
            if is_setting(line) && !has_line(text, line) {
                warn!(noting; "{path} loses the line: {line}");
            }
        }
    }

    /// Notes that a text isn't stored, and why: at which step, and the system's reason.
    fn note_refused(&self) {
        if !log_enabled!(self.noting; Level::Warn) {
            return;
        }
        let Some(FileFault { step, error }) = self.store.fault() else {
            return;
        };
        let noting = self.noting.span("sentinel").with("port", self.port);
        let path = self.path.as_str();
        match step {
            FileStep::Rename =>
                warn!(noting; "{path} can't be replaced, though a file can be written beside it: {error}"),
            FileStep::SyncFolder =>
                warn!(noting; "{path} is replaced, but its folder can't be synced: {error}"),
            _ => warn!(noting; "{path} can't be written: {error}"),
        }
    }

    /// Notes that a store which began at this moment took long. Where the clock can't be read, nothing is noted.
    fn note_slow(&self, begun: io::Result<Instant>) {
        if let Ok(begun) = begun
            && let Ok(took) = begun.elapsed(&self.rt)
            && took.as_millis() >= SLOW_MS
        {
            let noting = self.noting.span("sentinel").with("port", self.port);
            let (path, millis) = (self.path.as_str(), took.as_millis());
            warn!(noting;
                "storing {path} took {millis} ms: votes and failovers wait for it, so see its disk and what else \
                writes there"
            );
        }
    }

    /// Notes that the file isn't loaded, and why.
    fn note_unloaded(&self) {
        let Some(FileFault { step, error }) = self.store.fault() else {
            return;
        };
        let noting = self.noting.span("sentinel").with("port", self.port);
        let path = self.path.as_str();
        match step {
            FileStep::Sync => warn!(noting; "{path} can't be synced: {error}"),
            FileStep::SyncFolder => warn!(noting; "the folder of {path} can't be synced: {error}"),
            _ => warn!(noting; "{path} can't be read: {error}"),
        }
    }
}

impl<S: TellsFault + Drop, R: Log> ConfStore for NotedStore<'_, S, R> {
    ghost held = { λ noted. S.held noted };

    ghost failure_count = { λ noted. S.failure_count noted };

    fn load(&mut self) -> Result<FileText, LoadFault> {
        let loaded = self.store.load();
        if let Err(LoadFault::Failed) = loaded {
            self.note_unloaded();
        }
        loaded
    }

    fn replace(&mut self, text: &[u8]) -> Result<(), StoreRefused> {
        if self.store.is_edited() {
            self.note_edited(text);
        }
        let begun = Instant::now(&self.rt);
        let stored = self.store.replace(text);
        if stored.is_err() {
            self.note_refused();
        }
        self.note_slow(begun);
        stored
    }

    fn failures(&self) -> u64 {
        self.store.failures()
    }
}
