//! The list and its calls.

ghost use Rattle.std.specs.Prelude.{◌≡◌, ◌≤◌, ◌++◌, ◌∷◌, [], IfOk, length, vec_capacity};
ghost use Rattle.bounded_list.specs.BoundedLists.{bounded};

use std::alloc::{AllocError, Global};
use std::marker::Model;

/// A list of at most `LIMIT` items, in room for as many that was made beforehand, so that adding takes no memory. What
/// has no room is cut. Contracts see the list of the items.
#[derive(Drop)]
pub struct BoundedList<T, const LIMIT: usize> {
    held: Vec<T>,
}

impl<T, const LIMIT: usize> Model for BoundedList<T, LIMIT> {
    ghost use Rattle.std.specs.Prelude.{◌≤◌, List, vec_len, vec_capacity};

    ghost Value = { List T };

    ghost view = { λ list. list.held.items };

    ghost invariant = { λ list. (vec_len list.held ≤ LIMIT) × (LIMIT ≤ vec_capacity list.held) };
}

impl<T: Drop, const LIMIT: usize> BoundedList<T, LIMIT> {
    /// An empty list with its room; `AllocError` where there is no memory for it.
    pub fn with_room(alloc: Global) -> Result<BoundedList<T, LIMIT>, AllocError>
        ensures { IfOk result (λ list. list ≡ []) }
    {
        let held = Vec::with_capacity(alloc, LIMIT)?;
        Ok(BoundedList { held })
    }

    /// An empty list in the room of these items, which are dropped. No memory is taken.
    pub fn from_vec(items: Vec<T>) -> BoundedList<T, LIMIT>
        requires { LIMIT ≤ vec_capacity items }
        ensures { result ≡ [] }
    {
        let mut room = items;
        room.clear();
        BoundedList { held: room }
    }

    /// The items with the room they stand in. No memory is taken.
    #[tactic(auto, using(crate::proofs::Bounded::bounded_all))]
    pub fn into_vec(self) -> Vec<T>
        ensures items { result.items ≡ self }
        ensures whole { bounded LIMIT self ≡ self }
        ensures room { LIMIT ≤ vec_capacity result }
    {
        self.held
    }

    /// The items in order, at most `LIMIT`.
    #[tactic(auto, using(crate::proofs::Bounded::bounded_all))]
    pub fn as_slice(&self) -> &[T]
        ensures same { result.now ≡ self.now }
        ensures whole { bounded LIMIT self.now ≡ self.now }
        ensures few { length self.now ≤ LIMIT }
    {
        self.held.as_slice()
    }

    /// Empties the list, and keeps its room.
    pub fn clear(&mut self)
        ensures { self.new ≡ [] }
    {
        self.held.clear();
    }

    /// Adds an item, where there is room for it.
    pub fn push(&mut self, item: T)
        ensures { self.new ≡ bounded LIMIT (self.old ++ item ∷ []) }
    {
        if self.held.len() < LIMIT {
            let _ = self.held.push(item);
        }
    }
}

impl<T: Copy + Drop, const LIMIT: usize> BoundedList<T, LIMIT> {
    /// Adds the items that there is room for, and cuts the rest.
    pub fn extend_from_slice(&mut self, piece: &[T])
        ensures { self.new ≡ bounded LIMIT (self.old ++ piece.now) }
    {
        let count = piece.len().min(LIMIT - self.held.len());
        let (fits, _) = piece.split_at(count);
        let _ = self.held.extend_from_slice(fits);
    }
}
