//! Stores: one in memory, and a file on a disk.

use crate::given::{number, number_32, text};
use crate::told::{Told, Unplayed};
use sentinel_conf::{ConfStore, FileStore, FileText, LoadFault, MemoryStore};
use std::alloc::Global;
use std::fs::{self, Permissions};
use std::io;
use std::os::unix::fs::PermissionsExt;

/// Puts a text in the place of the one that is held: whether it is stored.
fn put<S: ConfStore>(store: &mut S, text: &[u8]) -> bool {
    store.failures() < u64::MAX && store.replace(text).is_ok()
}

/// Puts a text in the place of the one that is held, and tells whether it is stored and how many calls have failed.
fn replace<S: ConfStore>(store: &mut S, text: &[u8], told: &mut Told) -> Result<(), Unplayed> {
    let is_stored = put(store, text);
    told.word(if is_stored { "stored" } else { "refused" })?;
    told.number(store.failures())
}

/// The text that is held.
fn loaded_once<S: ConfStore>(store: &mut S) -> Result<FileText, LoadFault> {
    if store.failures() == u64::MAX {
        return Err(LoadFault::Failed);
    }
    store.load()
}

/// The text that is held, once more where that lacked memory.
fn loaded<S: ConfStore>(store: &mut S) -> Result<FileText, LoadFault> {
    match loaded_once(store) {
        Err(LoadFault::NoMemory) => loaded_once(store),
        text => text,
    }
}

/// Loads the text that is held, and tells it, or why not, and how many calls have failed.
fn load<S: ConfStore>(store: &mut S, told: &mut Told) -> Result<(), Unplayed> {
    match loaded(store) {
        Ok(text) => told.bytes(text.as_slice())?,
        Err(fault) => told.shown(&fault)?,
    }
    told.number(store.failures())
}

/// Which text is left where one is refused: whether the new one stands.
fn is_new(left: &[u8]) -> Result<bool, Unplayed> {
    match left {
        b"new" => Ok(true),
        b"old" => Ok(false),
        _ => Err(Unplayed::WrongWords),
    }
}

/// Takes a turn with a store in memory.
fn take(store: &mut MemoryStore, turn: &[Vec<u8>], told: &mut Told) -> Result<(), Unplayed> {
    let [call, words @ ..] = turn else {
        return Err(Unplayed::WrongWords);
    };
    match (text(call)?, words) {
        ("replace", [text]) => {
            replace(store, text, told)?;
            told.bytes(store.text())
        }
        ("refuse_next", [left]) => {
            store.refuse_next(is_new(left)?);
            Ok(())
        }
        ("refuse_after", [passes, left]) => {
            store.refuse_after(number_32(passes)?, is_new(left)?);
            Ok(())
        }
        ("load", []) => load(store, told),
        _ => Err(Unplayed::NoSuchCall),
    }
}

/// Takes turns with a store in memory. A word `,` is between two.
fn take_all(mut store: MemoryStore, turns: &[Vec<u8>], told: &mut Told) -> Result<(), Unplayed> {
    for turn in turns.split(|word| word.as_slice() == b",".as_slice()) {
        take(&mut store, turn, told)?;
    }
    Ok(())
}

/// Puts a text in a store that holds another one, once more where that lacked memory, and tells what is loaded then. A
/// store that lacked memory is to hold what it held, and to count that.
fn tell_put(alloc: Global, old: &[u8], new: &[u8], told: &mut Told) -> Result<(), Unplayed> {
    let mut store = MemoryStore::holding(alloc, old)?;
    if !put(&mut store, new) {
        let is_as_before = store.text() == old && store.failures() == 1;
        if !is_as_before || !put(&mut store, new) {
            return Err(Unplayed::Changed);
        }
    }
    match loaded(&mut store) {
        Ok(text) => told.bytes(text.as_slice()),
        Err(_) => Err(Unplayed::Changed),
    }
}

/// The store at a path.
fn store_at(rt: &HostRuntime, path: &[u8]) -> Result<FileStore<HostRuntime>, Unplayed> {
    let store = FileStore::at(*rt, rt.alloc(), text(path)?)?;
    Ok(store)
}

/// Puts these texts in the file at a path, one after another, and tells what is loaded then.
fn tell_file(
    rt: &HostRuntime,
    path: &[u8],
    texts: &[Vec<u8>],
    told: &mut Told,
) -> Result<(), Unplayed> {
    let mut store = store_at(rt, path)?;
    for text in texts {
        replace(&mut store, text, told)?;
    }
    load(&mut store, told)
}

/// Makes a file of this mode at a path.
fn make_file(rt: &HostRuntime, path: &str, mode: u32) -> io::Result<()> {
    fs::write(rt, path, b"sentinel auth-pass mymaster secret\n")?;
    fs::set_permissions(rt, path, Permissions::from_mode(mode))
}

/// The mode of the file at a path.
fn mode_of(rt: &HostRuntime, path: &str) -> io::Result<u32> {
    let found = fs::metadata(rt, path)?;
    Ok(found.permissions().mode() & 0o777)
}

/// Makes a file of this mode at a path, puts another text in its place, and tells the mode of the file that is left.
fn tell_mode(rt: &HostRuntime, path: &[u8], mode: &[u8], told: &mut Told) -> Result<(), Unplayed> {
    let Ok(mode) = u32::from_str_radix(text(mode)?, 8) else {
        return Err(Unplayed::WrongWords);
    };
    if make_file(rt, text(path)?, mode).is_err() {
        return Err(Unplayed::NoSuchFile);
    }
    replace(&mut store_at(rt, path)?, b"port 26379\n", told)?;
    match mode_of(rt, text(path)?) {
        Ok(mode) => told.word(format!(in rt.alloc(); "{mode:o}")?.as_str()),
        Err(_) => Err(Unplayed::NoSuchFile),
    }
}

/// Puts a file of this text, which all may read and write, in the place of one.
fn put_there(rt: &HostRuntime, path: &str, text: &[u8]) -> io::Result<()> {
    fs::remove_file(rt, path)?;
    fs::write(rt, path, text)?;
    fs::set_permissions(rt, path, Permissions::from_mode(0o666))
}

/// Puts a text in the file at a path, which isn't there yet, and somebody else another one; then the first one again.
/// Tells each time whether the file was edited, and in between what it has then; and the mode of the file that is left.
fn tell_edited(
    rt: &HostRuntime,
    path: &[u8],
    own: &[u8],
    other: &[u8],
    told: &mut Told,
) -> Result<(), Unplayed> {
    let mut store = store_at(rt, path)?;
    replace(&mut store, own, told)?;
    told.yes(store.is_edited())?;
    if put_there(rt, text(path)?, other).is_err() {
        return Err(Unplayed::NoSuchFile);
    }
    told.yes(store.is_edited())?;
    match store.edited_text() {
        Some(text) => told.bytes(text.as_slice())?,
        None => told.word("none")?,
    }
    replace(&mut store, own, told)?;
    told.yes(store.is_edited())?;
    match mode_of(rt, text(path)?) {
        Ok(mode) => told.word(format!(in rt.alloc(); "{mode:o}")?.as_str()),
        Err(_) => Err(Unplayed::NoSuchFile),
    }
}

/// Tells what comes of a call with these words.
pub(crate) fn play(
    rt: &HostRuntime,
    call: &str,
    words: &[Vec<u8>],
    told: &mut Told,
) -> Result<(), Unplayed> {
    let alloc = rt.alloc();
    match (call, words) {
        ("holding", [text, turns @ ..]) => {
            take_all(MemoryStore::holding(alloc, text)?, turns, told)
        }
        ("with_room", [room, text, turns @ ..]) => {
            let room = number(room)? as usize;
            take_all(MemoryStore::with_room(alloc, text, room)?, turns, told)
        }
        ("replaced", [old, new]) => tell_put(alloc, old, new, told),
        ("file_store", [path, texts @ ..]) => tell_file(rt, path, texts, told),
        ("file_edited", [path, own, other]) => tell_edited(rt, path, own, other, told),
        ("mode_after_a_store", [path, mode]) => tell_mode(rt, path, mode, told),
        _ => Err(Unplayed::NoSuchCall),
    }
}
