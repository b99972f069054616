//! Names to which a connection listens.

ghost use Rattle.std.specs.Prelude.{◌≡◌, ◌≤◌, [], length, take};
ghost use Rattle.pubsub.specs.declared.names.TheConstants.{NAMES_MAX, NAME_BYTES_MAX};
ghost use Rattle.pubsub.specs.Listening.{holds, without_name, IsAdded};

use crate::channel::Channel;
use crate::fault::ChannelFault;
use crate::kind::Kind;
use crate::name::Name;
use std::alloc::Global;
use std::marker::Model;

/// How many channels, and how many patterns, a connection listens to at most.
pub const NAMES_MAX: usize = 64;

/// How many bytes the name of a channel, or a pattern, has at most.
pub const NAME_BYTES_MAX: usize = 256;

/// Names in the order in which they were added, at most `NAMES_MAX`. Contracts see the list of them.
#[derive(Drop)]
pub(crate) struct NameList {
    names: Vec<Name>,
}

impl Model for NameList {
    ghost use Rattle.std.specs.Prelude.{◌≤◌, List, ℕ, vec_len};
    ghost use Rattle.pubsub.specs.declared.names.TheConstants.{NAMES_MAX};

    ghost Value = { List (List ℕ) };

    ghost view = { λ list. list.names.items };

    ghost invariant = { λ list. vec_len list.names ≤ NAMES_MAX };
}

impl NameList {
    /// No names. No memory is taken.
    pub(crate) fn new(alloc: Global) -> NameList
        ensures { result ≡ [] }
    {
        NameList {
            names: Vec::new(alloc),
        }
    }

    /// How many names there are.
    pub(crate) fn len(&self) -> usize
        ensures exact { result ≡ length self.now }
        ensures few { result ≤ NAMES_MAX }
    {
        self.names.len()
    }

    /// The names, in order.
    pub(crate) fn as_slice(&self) -> &[Name]
        ensures same { result.now ≡ self.now }
        ensures few { length self.now ≤ NAMES_MAX }
    {
        self.names.as_slice()
    }

    /// Whether the name is one of them.
    pub(crate) fn holds(&self, name: &[u8]) -> bool
        ensures { result ≡ holds self.now name.now }
    {
        self.names.iter().any(|one| one.as_slice() == name)
    }

    /// Finds out of each which matches this channel, as a pattern, where that wasn't found out yet.
    pub(crate) fn find_out(&mut self, channel: Channel)
        ensures { self.new ≡ self.old }
    {
        for name in self.names.iter_mut() {
            name.find_out(channel);
        }
    }

    /// Drops the names after the first `count`.
    pub(crate) fn truncate(&mut self, count: usize)
        ensures { self.new ≡ take count self.old }
    {
        self.names.truncate(count);
    }

    /// Drops all.
    pub(crate) fn clear(&mut self)
        ensures { self.new ≡ [] }
    {
        self.names.clear();
    }

    /// Drops this name.
    pub(crate) fn remove(&mut self, name: &[u8])
        ensures { self.new ≡ without_name self.old name.now }
    {
        self.names.retain(|one| one.as_slice() != name);
    }

    /// Adds a further name at the end; one that is there changes nothing. At a fault nothing changes.
    pub(crate) fn add(&mut self, alloc: Global, kind: Kind, name: &[u8]) -> Result<(), ChannelFault>
        ensures added { IsAdded kind self.old name.now result self.new }
    {
        if name.len() > NAME_BYTES_MAX {
            return Err(ChannelFault::NameTooLong);
        }
        if self.holds(name) {
            return Ok(());
        }
        if self.names.len() >= NAMES_MAX {
            return Err(kind.too_many());
        }
        let name = Name::of(alloc, name)?;
        if self.names.push(name).is_err() {
            return Err(ChannelFault::NoMemory);
        }
        Ok(())
    }
}
