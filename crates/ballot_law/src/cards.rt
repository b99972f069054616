//! A master's configuration, and what a Sentinel's file holds of it.

ghost use Rattle.std.specs.Prelude.{◌≡◌, slice_set};

use crate::addresses::{Addr, RunId};
use std::marker::Model;

/// The greatest epoch: 2^48 - 1.
pub const MAX_EPOCH: u64 = 281_474_976_710_655;

/// The configuration of a master: where it is, and the epoch of the failover that put it there.
#[derive(Clone, Copy, PartialEq, Eq)]
pub struct Card {
    /// The configuration epoch, at most `MAX_EPOCH`.
    pub epoch: u64,
    pub addr: Addr,
}

/// A configuration with the number of its master in the roster.
#[derive(Clone, Copy, PartialEq, Eq)]
pub struct Shown {
    pub master: u16,
    pub card: Card,
}

/// The configurations that an answer shows, in the order of the answer.
#[derive(Drop)]
pub struct ShownList {
    shown: Vec<Shown>,
}

impl Model for ShownList {
    ghost use Rattle.std.specs.Prelude.{List};
    ghost use Rattle.ballot_law.specs.declared.cards.Shown.{Shown};

    ghost Value = { List Shown };

    ghost view = { λ list. list.shown.items };
}

impl ShownList {
    /// The list of these configurations, with no memory taken.
    pub fn from_vec(shown: Vec<Shown>) -> ShownList
        ensures { result ≡ shown.items }
    {
        ShownList { shown }
    }

    /// The configurations, with no memory taken.
    pub fn into_vec(self) -> Vec<Shown>
        ensures { result.items ≡ self }
    {
        self.shown
    }

    /// The configurations in order.
    pub fn as_slice(&self) -> &[Shown]
        ensures { result.now ≡ self.now }
    {
        self.shown.as_slice()
    }
}

/// What a Sentinel's file holds of one master.
#[derive(Clone, Copy, PartialEq, Eq)]
pub struct KeptMaster {
    /// The lines `monitor` (the address) and `config-epoch`.
    pub card: Card,
    /// The line `leader-epoch`: the epoch of the last vote for this master, 0 where none was given.
    pub voted: u64,
    /// The line `leader-id`: the candidate of that vote, none in epoch 0. A file can know the epoch of a vote without
    /// its candidate, as those of Redis do.
    pub candidate: Option<RunId>,
}

/// What a Sentinel's file holds of each master, by the master's number.
#[derive(Drop)]
pub struct KeptMasters {
    masters: Vec<KeptMaster>,
}

impl Model for KeptMasters {
    ghost use Rattle.std.specs.Prelude.{List};
    ghost use Rattle.ballot_law.specs.declared.cards.KeptMaster.{KeptMaster};

    ghost Value = { List KeptMaster };

    ghost view = { λ list. list.masters.items };
}

impl KeptMasters {
    /// The list of these masters, with no memory taken.
    pub fn from_vec(masters: Vec<KeptMaster>) -> KeptMasters
        ensures { result ≡ masters.items }
    {
        KeptMasters { masters }
    }

    /// The masters, with no memory taken.
    pub fn into_vec(self) -> Vec<KeptMaster>
        ensures { result.items ≡ self }
    {
        self.masters
    }

    /// The masters in order.
    pub fn as_slice(&self) -> &[KeptMaster]
        ensures { result.now ≡ self.now }
    {
        self.masters.as_slice()
    }

    /// Keeps this of the master with this number; nothing where there is no such master.
    pub fn set(&mut self, m: u16, entry: KeptMaster)
        ensures { self.new ≡ slice_set self.old m entry }
    {
        if let Some(kept) = self.masters.get_mut(m as usize) {
            *kept = entry;
        }
    }
}

/// What a Sentinel's file holds besides the roster and the settings, and what a restart therefore knows.
#[derive(Drop)]
pub struct Kept {
    /// The line `current-epoch`, at most `MAX_EPOCH`.
    pub current: u64,
    pub masters: KeptMasters,
}
