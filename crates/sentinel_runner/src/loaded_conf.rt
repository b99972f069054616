//! What a store holds, as a conf.

ghost use Rattle.std.specs.Prelude.{◌≡◌, ◌<◌, ◌+◌, ◌-◌, ◌^◌, Ok, Err, IfOk, IfSome};
ghost use Rattle.std.proofs.Props.{props};
ghost use Rattle.sentinel_conf.specs.Reading.{conf_of_bytes};
ghost use Rattle.sentinel_runner.specs.declared.loaded_conf.Unloaded.TheVariants.{Unreadable};

use sentinel_conf::{Conf, ConfFault, ConfStore, FileText, LoadFault, read};
use std::alloc::Global;

/// A store with the text that it holds, and what that text says: where the store knows its text, it is this one.
#[derive(Drop)]
pub struct LoadedConf<S: ConfStore> {
    conf: Conf,
    text: FileText,
    store: S,
    ghost reads: { conf_of_bytes text ≡ Ok conf },
    ghost holds: { IfSome (S.held store) (λ bytes. text ≡ bytes) } by { Prim.hlevel props },
}

/// Why a store isn't had as a conf.
#[derive(Drop)]
pub enum Unloaded<S> {
    /// A growth was refused before its text was there.
    NoMemory,
    /// It can't be read.
    Unreadable(S),
    /// It holds this text, which is refused.
    Refused(FileText, ConfFault),
}

impl<S: ConfStore + Drop> LoadedConf<S> {
    /// Loads the text of a store, and reads it. The store comes back where it can't be read, and is gone at any other
    /// fault.
    pub fn load(alloc: Global, mut store: S) -> Result<LoadedConf<S>, Unloaded<S>>
        requires room { S.failure_count store < 2 ^ 64 - 1 }
        ensures kept { IfOk result (λ loaded. S.held loaded.store ≡ S.held store) }
        ensures counted { IfOk result (λ loaded. S.failure_count loaded.store ≡ S.failure_count store) }
        ensures failed { (left : S) → result ≡ Err (Unreadable left) → S.failure_count left ≡ S.failure_count store + 1 }
    {
        let text = match store.load() {
            Ok(text) => text,
            Err(LoadFault::NoMemory) => return Err(Unloaded::NoMemory),
            Err(LoadFault::Failed) => return Err(Unloaded::Unreadable(store)),
        };
        match read(alloc, text.as_slice()) {
            Ok(conf) => Ok(LoadedConf { conf, text, store }),
            Err(fault) => Err(Unloaded::Refused(text, fault)),
        }
    }

    /// A conf with its text and a store that holds this, where it knows its text.
    pub fn of(conf: Conf, text: FileText, store: S) -> LoadedConf<S>
        requires reads { conf_of_bytes text ≡ Ok conf }
        requires holds { IfSome (S.held store) (λ bytes. text ≡ bytes) }
        ensures { (result.conf ≡ conf) × (result.text ≡ text) × (result.store ≡ store) }
    {
        LoadedConf { conf, text, store }
    }

    /// What the text says.
    pub fn conf(&self) -> &Conf
        ensures { result.now ≡ self.now.conf }
    {
        &self.conf
    }

    /// The text.
    pub fn text(&self) -> &[u8]
        ensures { result.now ≡ self.now.text }
    {
        self.text.as_slice()
    }

    /// The conf, the text and the store.
    pub fn into_parts(self) -> (Conf, FileText, S)
        ensures parts { (result.0 ≡ self.conf) × (result.1 ≡ self.text) × (result.2 ≡ self.store) }
        ensures reads { conf_of_bytes result.1 ≡ Ok result.0 }
        ensures holds { IfSome (S.held result.2) (λ bytes. result.1 ≡ bytes) }
    {
        let LoadedConf { conf, text, store } = self;
        (conf, text, store)
    }
}
