//! The queue, and the thread that writes what comes through it.

ghost use Rattle.std.specs.Prelude.{◌≡◌, IfOk};

use crate::log_queue::backlog::{Backlog, WAITING_MAX};
use crate::log_queue::note_forms::NoteForm;
use crossbeam_channel::{Receiver, RecvTimeoutError, Sender, unbounded};
use log::kv::Source;
use log::span::Spans;
use log::{Level, Line, Log, Metadata, Record};
use std::alloc::{AllocError, Global};
use std::fmt::Display;
use std::rt::Clock;
use std::sync::{Arc, Mutex, Wait};
use std::thread::{self, Threads};
use std::time::Duration;

/// For how long standard error may take no note at the end, in milliseconds, before those that wait are given up.
const END_MS: u64 = 500;

/// A note that waits, and how many were lost right before it.
#[derive(Drop)]
struct QueuedNote {
    lost: u64,
    line: String,
}

/// Where notes are put. It is a sink of `log`: each note is one line.
///
/// Putting a note waits for no writing. The note is lost where `WAITING_MAX` wait, and where there is no memory for it;
/// the next note that isn't lost has a line before it that tells how many were.
#[derive(Drop)]
pub struct NoteQueue<R: Wait> {
    rt: R,
    to: Sender<QueuedNote>,
    backlog: Arc<Mutex<Backlog>, Global>,
    form: NoteForm,
    alloc: Global,
}

/// The thread that writes the notes of a queue.
#[derive(Drop)]
pub struct NoteWriter {
    ended: Receiver<u8>,
    backlog: Arc<Mutex<Backlog>, Global>,
}

impl<R: Wait + Clock> NoteQueue<R> {
    /// The line of a note. The error is a refused allocation.
    fn line_of<D: Display, K: Source, S: Spans>(
        &self,
        record: &Record<'_, D, K, S>,
    ) -> Result<String, AllocError> {
        let text = record.args();
        let line = match (self.form, record.level()) {
            (NoteForm::Whole, _) => String::format(self.alloc, Line::new(record)),
            (_, Level::Error | Level::Warn) => format!(in self.alloc; "warning: {text}"),
            _ => format!(in self.alloc; "{text}"),
        }?;
        self.form
            .fronted(&self.rt, self.alloc, record.level(), line)
    }

    /// Has a line wait, which tells that so many notes were lost before it. It is lost where there is no memory.
    fn put(&self, lost: u64, line: String) {
        if self.to.send(&self.rt, QueuedNote { lost, line }).is_err() {
            self.backlog.lock(&self.rt).lose(lost);
        }
    }
}

impl<R: Wait + Clock> Log for NoteQueue<R> {
    ghost use Rattle.std.specs.Prelude.{true, [], Some};

    ghost enables = { λ _ _ _. Some true };

    ghost target_of = { λ _. Some [] };

    fn enabled(&self, _metadata: &Metadata<'_>) -> bool {
        true
    }

    fn log<D: Display, K: Source, S: Spans>(&self, record: &Record<'_, D, K, S>) {
        let entered = self.backlog.lock(&self.rt).enter();
        let Some(lost) = entered else {
            return;
        };
        match self.line_of(record) {
            Ok(line) => self.put(lost, line),
            Err(_) => self.backlog.lock(&self.rt).lose(lost),
        }
    }

    fn flush(&self) {}

    fn target(&self) -> &str {
        ""
    }
}

/// Tells how many notes were lost, where any were. Where there is no memory for the line, nothing tells it.
fn tell_lost<R: Eprint + Clock>(rt: &R, alloc: Global, form: NoteForm, lost: u64) {
    if lost == 0 {
        return;
    }
    let front = match form {
        NoteForm::Whole => "[WARN  queued_notes] ",
        NoteForm::Bare { .. } => "warning: ",
    };
    let line = format!(in alloc;
        "{front}{lost} notes were lost here: standard error took none, or there was no memory"
    );
    if let Ok(line) = line
        && let Ok(line) = form.fronted(rt, alloc, Level::Warn, line)
    {
        let _ = eprintln!(rt; "{line}");
    }
}

/// Writes each note that comes, until nobody is left who could put one into the queue. A note that can't be written is
/// lost.
fn write_all<R: Wait + Eprint + Clock>(
    rt: &R,
    alloc: Global,
    form: NoteForm,
    notes: &Receiver<QueuedNote>,
    backlog: &Mutex<Backlog>,
) {
    for note in notes.iter(rt) {
        let QueuedNote { lost, line } = note;
        tell_lost(rt, alloc, form, lost);
        let _ = eprintln!(rt; "{line}");
        backlog.lock(rt).leave();
    }
    let lost = backlog.lock(rt).take_lost();
    tell_lost(rt, alloc, form, lost);
}

impl<R: Wait> NoteQueue<R> {
    /// An empty queue of notes of this form, and the thread that writes what comes through it. The error is a refused
    /// allocation, or a thread that can't be made.
    pub fn open(
        rt: R,
        alloc: Global,
        form: NoteForm,
    ) -> Result<(NoteQueue<R>, NoteWriter), AllocError>
    where
        R: Threads + Eprint + Clock + Copy + Drop + Send + 'static,
        ensures { IfOk result (λ r. r.0.rt ≡ rt) }
    {
        let (to, notes) = unbounded(alloc)?;
        let (end, ended) = unbounded(alloc)?;
        let backlog = Arc::new(alloc, Mutex::new(Backlog::new()))?;
        let written = Arc::try_clone(&backlog)?;
        let looked_at = Arc::try_clone(&backlog)?;
        let begun = thread::spawn(&rt, move || {
            write_all(&rt, alloc, form, &notes, &written);
            drop(end.send(&rt, 1));
        });
        if begun.is_err() {
            return Err(AllocError);
        }
        let queue = NoteQueue {
            rt,
            to,
            backlog,
            form,
            alloc,
        };
        let writer = NoteWriter {
            ended,
            backlog: looked_at,
        };
        Ok((queue, writer))
    }
}

impl NoteWriter {
    /// Waits until all notes are written: whether they are. They are given up where standard error takes none of them
    /// for half a second. The queue has to be dropped before.
    pub fn wait<R: Wait + Clock>(self, rt: &R) -> bool {
        let mut waiting = self.backlog.lock(rt).waiting();
        for _ in 0..WAITING_MAX + 1 {
            match self.ended.recv_timeout(rt, Duration::from_millis(END_MS)) {
                Err(RecvTimeoutError::Timeout) => {
                    let left = self.backlog.lock(rt).waiting();
                    if left >= waiting {
                        return false;
                    }
                    waiting = left;
                }
                Ok(_) | Err(RecvTimeoutError::Disconnected) => return true,
            }
        }
        false
    }
}
