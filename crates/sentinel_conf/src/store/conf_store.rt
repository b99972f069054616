//! Where a file is kept.

ghost use Rattle.std.specs.Prelude.{◌≡◌, ◌+◌, ◌-◌, ◌^◌, ◌<◌, ◌⊎◌, Bool, ℕ, List, Option, None, Some, OnOk, OnErr, IsErr, IsErrOf, IfSome, IfOk, IfErr, IsOk, is_ok, true, length, ◌≤◌, if◌then◌else◌};
ghost use Rattle.sentinel_conf.specs.Store.Stores.{Outcome, outcome_of, refusal_left};

use crate::FileText;
use ballot_law::NoMemory;
use std::alloc::{AllocError, Global};
use std::marker::Model;
use thiserror::Error;

/// The text was not stored: the old text or the new one stands.
#[derive(Clone, Copy, Debug, PartialEq, Eq, Error)]
#[error("StoreRefused")]
pub struct StoreRefused;

/// Why no text was loaded.
#[derive(Clone, Copy, Debug, PartialEq, Eq, Error)]
pub enum LoadFault {
    /// A growth was refused; the failure count is as it was.
    #[error("NoMemory")]
    NoMemory,
    /// The text can't be read; the failure count is one higher.
    #[error("Failed")]
    Failed,
}

/// A place that holds the text of one Sentinel's file, with its failures counted.
pub trait ConfStore {
    // The text that is held, where the type says it: a store in memory does, a real file can't.
    ghost held: { Self → Option (List ℕ) } = { λ _. None };

    ghost failure_count: { Self → ℕ };

    // What `replace` answers to a text and which text is held then, where the store knows it before the call: a store
    // in memory does where it has room for the text, a real file doesn't.
    ghost outcome: { Self → List ℕ → Option Outcome } = { λ _ _. None };

    // How long a text may be for which the type says that there is room: a store in memory does, a real file can't.
    ghost room: { Self → ℕ } = { λ _. 0 };

    /// The text that is held. The store is as it was, but for its failure count at `Failed`.
    fn load(&mut self) -> Result<FileText, LoadFault>
        requires { failure_count self.old < 2 ^ 64 - 1 }
        ensures text { IfOk result (λ text. IfSome (held self.old) (λ bytes. text ≡ bytes)) }
        ensures kept { held self.new ≡ held self.old }
        ensures ok { OnOk result (failure_count self.new ≡ failure_count self.old) }
        ensures no_memory { IsErrOf result LoadFault.NoMemory
            → failure_count self.new ≡ failure_count self.old }
        ensures failed { IsErrOf result LoadFault.Failed
            → failure_count self.new ≡ failure_count self.old + 1 };

    /// Puts this text in place of the one that is held. After a refusal the old text or the new one stands, and the
    /// failure count is one higher.
    fn replace(&mut self, text: &[u8]) -> Result<(), StoreRefused>
        requires { failure_count self.old < 2 ^ 64 - 1 }
        ensures stored { OnOk result (IfSome (held self.new) (λ bytes. bytes ≡ text.now)) }
        ensures refused { OnErr result ((held self.new ≡ held self.old)
            ⊎ IfSome (held self.new) (λ bytes. bytes ≡ text.now)) }
        ensures counted { failure_count self.new
            ≡ (if is_ok result then failure_count self.old else failure_count self.old + 1) }
        ensures known { IfSome (outcome self.old text.now)
            (λ known. (is_ok result ≡ known.is_stored) × (held self.new ≡ Some known.text)) }
        ensures kept_room { room self.old ≤ room self.new };

    /// How many calls of `load` and `replace` have failed.
    fn failures(&self) -> u64
        ensures { result ≡ failure_count self.now };
}

/// A refusal that a store in memory was asked for.
#[derive(Clone, Copy)]
pub(crate) struct DueRefusal {
    /// How many replacements are served before it.
    passes: u32,
    /// Which text stands behind it.
    new: bool,
}

/// A store in memory, which a test can have refuse the next replacement, or one after so many that are served.
#[derive(Drop)]
pub struct MemoryStore {
    text: Vec<u8>,
    failed: u64,
    refusal: Option<DueRefusal>,
}

impl Model for MemoryStore {
    ghost use Rattle.std.specs.Prelude.{vec_capacity};
    ghost use Rattle.sentinel_conf.specs.Store.Stores.{Stored};

    ghost Value = { Stored };

    ghost view = { λ store. record {
      text = store.text.items;
      failed = store.failed;
      refusal = store.refusal;
      room = vec_capacity store.text;
    } };
}

impl MemoryStore {
    /// A store that holds these bytes, with failure count 0.
    pub fn holding(alloc: Global, bytes: &[u8]) -> Result<MemoryStore, NoMemory>
        ensures { IfOk result
            (λ store. store ≡ record { text = bytes.now; failed = 0; refusal = None; room = store.room }) }
    {
        MemoryStore::with_room(alloc, bytes, 0)
    }

    /// A store that holds these bytes, with failure count 0, and has room for texts of so many bytes at least:
    /// replacing it by one of no more takes no memory.
    pub fn with_room(alloc: Global, bytes: &[u8], room: usize) -> Result<MemoryStore, NoMemory>
        ensures store { IfOk result
            (λ store. store ≡ record { text = bytes.now; failed = 0; refusal = None; room = store.room }) }
        ensures room { IfOk result (λ store. room ≤ store.room) }
    {
        let Ok(mut text) = Vec::with_capacity(alloc, room.max(bytes.len())) else {
            return Err(NoMemory);
        };
        if text.extend_from_slice(bytes).is_err() {
            return Err(NoMemory);
        }
        Ok(MemoryStore {
            text,
            failed: 0,
            refusal: None,
        })
    }

    /// The text that is held.
    pub fn text(&self) -> &[u8]
        ensures { result.now ≡ self.now.text }
    {
        self.text.as_slice()
    }

    /// Has the next `replace` answer `StoreRefused`; then the new text stands if `new`, and else the old one.
    pub fn refuse_next(&mut self, new: bool)
        ensures { self.new
            ≡ record self.old { refusal = Some (record { passes = 0; new = new }) } }
    {
        self.refuse_after(0, new);
    }

    /// Has `passes` calls of `replace` be served and the next one answer `StoreRefused`; then the new text stands if
    /// `new`, and else the old one. The calls behind it are served again. One refusal is asked for at a time: this
    /// takes the place of one that was asked for before and hasn't come. A call that fails on the way for memory isn't
    /// served, and doesn't count.
    pub fn refuse_after(&mut self, passes: u32, new: bool)
        ensures { self.new
            ≡ record self.old { refusal = Some (record { passes = passes; new = new }) } }
    {
        self.refusal = Some(DueRefusal { passes, new });
    }

    /// Has no `replace` be refused, where one was asked to be: what was asked for before is forgotten.
    pub fn refuse_none(&mut self)
        ensures { self.new ≡ record self.old { refusal = None } }
    {
        self.refusal = None;
    }

    /// Counts failures from 0 again and refuses nothing, as a store that was made anew over this text.
    pub fn begin_again(&mut self)
        ensures { self.new ≡ record self.old { failed = 0; refusal = None } }
    {
        self.failed = 0;
        self.refusal = None;
    }

    /// Counts a replacement that was served.
    fn count_served(&mut self)
        ensures { self.new
            ≡ record self.old { refusal = refusal_left self.old.refusal true } }
    {
        self.refusal = match self.refusal {
            None | Some(DueRefusal { passes: 0, .. }) => None,
            Some(refusal) => Some(DueRefusal {
                passes: refusal.passes - 1,
                new: refusal.new,
            }),
        };
    }

    /// Puts this text in place of the one that is held, with no memory taken where there is room for it; without memory
    /// that one stands.
    fn put(&mut self, text: &[u8]) -> Result<(), AllocError>
        ensures ok { OnOk result
            (self.new ≡ record self.old { text = text.now; room = self.new.room }) }
        ensures err { OnErr result (self.new ≡ self.old) }
        ensures fits { length text.now ≤ self.old.room → IsOk result }
        ensures kept_room { self.old.room ≤ self.new.room }
    {
        if text.len() > self.text.capacity() {
            self.text = Vec::from_slice(*self.text.allocator(), text)?;
            return Ok(());
        }
        self.text.clear();
        self.text.extend_from_slice(text)
    }
}

impl ConfStore for MemoryStore {
    ghost held = { λ store. Some store.text };

    ghost failure_count = { λ store. store.failed };

    ghost outcome = { outcome_of };

    ghost room = { λ store. store.room };

    fn load(&mut self) -> Result<FileText, LoadFault>
        requires { self.old.failed < 2 ^ 64 - 1 }
        // The text that is held, or `NoMemory`, and nothing changes.
        ensures text { IfOk result (λ text. text ≡ self.old.text) }
        ensures fault { IfErr result (λ fault. fault ≡ LoadFault.NoMemory) }
        ensures same { self.new ≡ self.old }
    {
        match self.text.clone() {
            Ok(bytes) => Ok(FileText::from_vec(bytes)),
            Err(_) => Err(LoadFault::NoMemory),
        }
    }

    fn replace(&mut self, text: &[u8]) -> Result<(), StoreRefused>
        requires { self.old.failed < 2 ^ 64 - 1 }
        ensures stored { OnOk result (self.new.text ≡ text.now) }
        ensures counted { self.new.failed
            ≡ (if is_ok result then self.old.failed else self.old.failed + 1) }
        // A refusal that was asked for comes once so many calls were served, and is used up.
        ensures asked { IfSome self.old.refusal
            (λ refusal. refusal.passes ≡ 0 → IsErr result) }
        ensures used_up { self.new.refusal ≡ refusal_left self.old.refusal (is_ok result) }
        // The new text stands behind a refusal only if that was asked for.
        ensures refused { OnErr result ((self.new.text ≡ self.old.text)
            ⊎ ((self.old.refusal ≡ Some (record { passes = 0; new = true }))
            × (self.new.text ≡ text.now))) }
        ensures known { IfSome (outcome_of self.old text.now)
            (λ known. (is_ok result ≡ known.is_stored) × (self.new.text ≡ known.text)) }
        ensures kept_room { self.old.room ≤ self.new.room }
    {
        match self.refusal {
            Some(DueRefusal { passes: 0, new }) => {
                self.refusal = None;
                self.failed += 1;
                if new {
                    let _ = self.put(text);
                }
                Err(StoreRefused)
            }
            _ => {
                if self.put(text).is_err() {
                    self.failed += 1;
                    return Err(StoreRefused);
                }
                self.count_served();
                Ok(())
            }
        }
    }

    fn failures(&self) -> u64 {
        self.failed
    }
}
