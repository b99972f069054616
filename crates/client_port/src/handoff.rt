//! Where the thread that accepts a port's connections puts those of another thread.

ghost use Rattle.std.specs.Prelude.{◌≡◌, ◌≤◌, ◌<◌, ◌+◌, [], vec_len};

use crate::seats::Newcomer;
use mio::{Registry, Token, Waker};
use std::alloc::Global;
use std::sync::atomic::{AtomicU64, Ordering};
use std::sync::{Mutex, Wait};
use std::{io, mem};

/// The token of what wakes a thread when a connection is handed to it.
const HANDED: Token = Token(usize::MAX - 1);

/// The connections that a thread was handed and hasn't taken yet, and how many it kept when it took the last ones.
#[derive(Drop)]
struct Inbox {
    handed: Vec<Newcomer>,
    kept: usize,
    most: usize,
    alloc: Global,
    ghost few: { kept + vec_len handed ≤ most },
}

impl Inbox {
    /// Nothing was handed.
    fn new(alloc: Global, most: usize) -> Inbox {
        Inbox {
            handed: Vec::new(alloc),
            kept: 0,
            most,
            alloc,
        }
    }

    /// How many connections the thread has at most.
    fn count(&self) -> usize
        ensures { result ≡ self.now.kept + vec_len self.now.handed }
    {
        self.kept + self.handed.len()
    }

    /// Puts a connection there where the thread has room for it, and else drops it, which closes it: whether it is
    /// there.
    fn put(&mut self, newcomer: Newcomer) -> bool {
        self.count() < self.most && self.handed.push(newcomer).is_ok()
    }

    /// Takes what was handed, for a thread that keeps so many.
    fn take(&mut self, kept: usize) -> Vec<Newcomer>
        ensures taken { result ≡ self.old.handed }
        ensures empty { vec_len self.new.handed ≡ 0 }
    {
        let handed = mem::replace(&mut self.handed, Vec::new(self.alloc));
        self.kept = kept.saturating_add(handed.len()).min(self.most);
        handed
    }

    /// Drops what was handed, and takes no more.
    fn close(&mut self) {
        self.handed = Vec::new(self.alloc);
        self.kept = self.most;
    }
}

/// The desk of a thread that accepts no connections itself. `silent_since` is what that thread told last: since when
/// the one of its connections is silent that has to go first.
#[derive(Drop)]
pub(crate) struct Handoff {
    inbox: Mutex<Inbox>,
    waker: Waker,
    silent_since: AtomicU64,
}

impl Handoff {
    /// The desk of the thread that waits by this registry, and keeps at most so many connections.
    pub(crate) fn open(alloc: Global, registry: &Registry, most: usize) -> io::Result<Handoff> {
        Ok(Handoff {
            inbox: Mutex::new(Inbox::new(alloc, most)),
            waker: Waker::new(registry, HANDED)?,
            silent_since: AtomicU64::new(u64::MAX),
        })
    }

    /// Since when the one of its connections is silent that has to go first, as its thread told last: the greatest
    /// reading where none has to.
    pub(crate) fn silent_since(&self) -> u64 {
        self.silent_since.load(Ordering::SeqCst)
    }

    /// Its thread tells this.
    pub(crate) fn tell_silent(&self, since: u64) {
        self.silent_since.store(since, Ordering::SeqCst);
    }

    /// How many connections its thread has at most, with those that it hasn't taken yet.
    pub(crate) fn count<R: Wait>(&self, rt: &R) -> usize {
        self.inbox.lock(rt).count()
    }

    /// Hands its thread a connection: whether the thread has room for it. Else it is closed.
    pub(crate) fn hand<R: Wait>(&self, rt: &R, newcomer: Newcomer) -> bool {
        let is_there = self.inbox.lock(rt).put(newcomer);
        drop(self.waker.wake());
        is_there
    }

    /// Takes the connections that were handed to its thread, which keeps so many.
    pub(crate) fn take<R: Wait>(&self, rt: &R, kept: usize) -> Vec<Newcomer> {
        self.inbox.lock(rt).take(kept)
    }

    /// Its thread serves no more.
    pub(crate) fn close<R: Wait>(&self, rt: &R) {
        self.inbox.lock(rt).close();
    }
}
