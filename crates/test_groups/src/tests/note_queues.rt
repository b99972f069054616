//! A queue of notes with a thread of its own.

use log::{LevelFilter, Logged, info};
use sentinel_runner::{NoteForm, NoteQueue};
use std::test::Fail;

/// How many notes are put.
const NOTES: u64 = 3;

#[test]
fn a_queue_ends_once_its_notes_are_written(rt: HostRuntime) -> Result<(), Fail> {
    let alloc = rt.alloc();
    let form = NoteForm::Bare {
        timed: true,
        prioritized: true,
    };
    let (queue, writer) = NoteQueue::open(rt, alloc, form)?;
    let noting = Logged::new(rt, LevelFilter::Info, queue);
    for number in 0..NOTES {
        info!(noting; "note {number} of a test");
    }
    drop(noting);
    assert!(rt; writer.wait(&rt), "its thread ends");
    Ok(())
}
