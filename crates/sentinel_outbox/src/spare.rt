//! The room for one answer of the port while no answer uses it.

ghost use Rattle.std.specs.Prelude.{◌≡◌, ◌≤◌, ◌+◌, max, [], IsOk, IfOk, IfSome, IfNone, vec_len, vec_capacity};

use ballot_law::{Body, Message, NoMemory, Output, Shown};
use std::alloc::Global;
use std::marker::Model;
use std::mem;

/// A buffer for the text of one answer and a list for the configurations that it shows, both empty. Contracts see how
/// many bytes and how many configurations they have room for.
#[derive(Drop)]
pub(crate) struct Spare {
    text: Vec<u8>,
    list: Vec<Shown>,
}

impl Model for Spare {
    ghost use Rattle.std.specs.Prelude.{◌≡◌, [], vec_len, vec_capacity};
    ghost use Rattle.sentinel_outbox.specs.Outboxes.{SpareRoom};

    ghost Value = { SpareRoom };

    ghost view = { λ spare. record { text = vec_capacity spare.text; list = vec_capacity spare.list } };

    ghost invariant = { λ spare. (vec_len spare.text ≡ 0) × (vec_len spare.list ≡ 0) };
}

/// An empty list with room for what this one holds and so many more, where this one hasn't that room; None where it
/// has.
pub(crate) fn larger_than<T: Drop>(list: &Vec<T>, more: usize) -> Result<Option<Vec<T>>, NoMemory>
    ensures items { IfOk result (λ larger. IfSome larger (λ made. made.items ≡ [])) }
    ensures room { IfOk result (λ larger. IfSome larger (λ made. vec_len list.now + more ≤ vec_capacity made)) }
    ensures grows { IfOk result (λ larger. IfSome larger (λ made. vec_capacity list.now ≤ vec_capacity made)) }
    ensures none { IfOk result (λ larger. IfNone larger (vec_len list.now + more ≤ vec_capacity list.now)) }
    ensures enough { vec_len list.now + more ≤ vec_capacity list.now → IsOk result }
{
    if more <= list.capacity() - list.len() {
        return Ok(None);
    }
    let Some(needed) = list.len().checked_add(more) else {
        return Err(NoMemory);
    };
    Ok(Some(Vec::with_capacity(*list.allocator(), needed)?))
}

impl Spare {
    /// No room, and no memory taken.
    pub(crate) fn new(alloc: Global) -> Spare
        ensures { result ≡ record { text = 0; list = 0 } }
    {
        Spare {
            text: Vec::new(alloc),
            list: Vec::new(alloc),
        }
    }

    /// How many bytes of a text there is room for.
    pub(crate) fn text_room(&self) -> usize
        ensures { result ≡ self.now.text }
    {
        self.text.capacity()
    }

    /// How many configurations there is room for.
    pub(crate) fn list_room(&self) -> usize
        ensures { result ≡ self.now.list }
    {
        self.list.capacity()
    }

    /// A buffer with room for so many bytes where there is less here; None where there is enough.
    pub(crate) fn larger_text(&self, bytes: usize) -> Result<Option<Vec<u8>>, NoMemory>
        ensures room { IfOk result (λ larger. IfSome larger (λ made. bytes ≤ vec_capacity made)) }
        ensures none { IfOk result (λ larger. IfNone larger (bytes ≤ self.now.text)) }
        ensures enough { bytes ≤ self.now.text → IsOk result }
    {
        larger_than(&self.text, bytes)
    }

    /// A list with room for so many configurations where there is less here; None where there is enough.
    pub(crate) fn larger_list(&self, count: usize) -> Result<Option<Vec<Shown>>, NoMemory>
        ensures room { IfOk result (λ larger. IfSome larger (λ made. count ≤ vec_capacity made)) }
        ensures none { IfOk result (λ larger. IfNone larger (count ≤ self.now.list)) }
        ensures enough { count ≤ self.now.list → IsOk result }
    {
        larger_than(&self.list, count)
    }

    /// Hands out the empty buffer with all its room; the room here is then 0. No memory is taken.
    pub(crate) fn take_text(&mut self) -> Vec<u8>
        ensures items { result.items ≡ [] }
        ensures capacity { vec_capacity result ≡ self.old.text }
        ensures left { self.new ≡ record self.old { text = 0 } }
    {
        let none = Vec::new(*self.text.allocator());
        mem::replace(&mut self.text, none)
    }

    /// Hands out the empty list with all its room; the room here is then 0. No memory is taken.
    pub(crate) fn take_list(&mut self) -> Vec<Shown>
        ensures items { result.items ≡ [] }
        ensures capacity { vec_capacity result ≡ self.old.list }
        ensures left { self.new ≡ record self.old { list = 0 } }
    {
        let none = Vec::new(*self.list.allocator());
        mem::replace(&mut self.list, none)
    }

    /// Keeps the buffer, emptied, where it has more room than the one here. No memory is taken.
    fn keep_text(&mut self, mut text: Vec<u8>)
        ensures { self.new ≡ record self.old { text = max self.old.text (vec_capacity text) } }
    {
        if self.text.capacity() < text.capacity() {
            text.clear();
            self.text = text;
        }
    }

    /// Keeps the list, emptied, where it has more room than the one here. No memory is taken.
    fn keep_list(&mut self, mut list: Vec<Shown>)
        ensures { self.new ≡ record self.old { list = max self.old.list (vec_capacity list) } }
    {
        if self.list.capacity() < list.capacity() {
            list.clear();
            self.list = list;
        }
    }

    /// Keeps the buffer and the list, emptied, where there are any with more room than those here. No memory is taken.
    pub(crate) fn keep_larger(&mut self, text: Option<Vec<u8>>, list: Option<Vec<Shown>>)
        ensures text { self.old.text ≤ self.new.text }
        ensures list { self.old.list ≤ self.new.list }
        ensures larger_text { IfSome text (λ made. vec_capacity made ≤ self.new.text) }
        ensures larger_list { IfSome list (λ made. vec_capacity made ≤ self.new.list) }
    {
        if let Some(text) = text {
            self.keep_text(text);
        }
        if let Some(list) = list {
            self.keep_list(list);
        }
    }

    /// Drops an output, and keeps the buffer and the list of an answer. No memory is taken.
    pub(crate) fn take_back(&mut self, output: Output)
        ensures text { self.old.text ≤ self.new.text }
        ensures list { self.old.list ≤ self.new.list }
    {
        if let Output::Send(
            Message {
                body: Body::PortReply { shown, text },
                ..
            },
        ) = output
        {
            self.keep_text(text.into_vec());
            self.keep_list(shown.into_vec());
        }
    }
}
