//! INFO of a replica that knows its master by a name.

use std::alloc::{AllocError, Global};
use std::str::from_utf8;

/// What stands in place of a name.
const NOBODY: &[u8] = b"master_host:0.0.0.0\r";

/// Whether a line of an INFO has a name, or an address that isn't IPv4, in place of the master's address.
fn is_named(line: &str) -> bool {
    match line.strip_prefix("master_host:") {
        Some(host) => host.bytes().any(|byte| !(byte.is_ascii_digit()
            || byte == b'.'
            || byte == b'\r')),
        None => false,
    }
}

/// Replaces a host name in `master_host` by 0.0.0.0; `None` if there is none, or the INFO isn't UTF-8. A Sentinel
/// resolves no names: so the replica counts as one of another master, as with Redis Sentinel, and not as one that says
/// nothing. It may be promoted, and is told to follow the master by its address. The error is a refused allocation.
pub fn without_names(alloc: Global, info: &[u8]) -> Result<Option<Vec<u8>>, AllocError> {
    let Ok(text) = from_utf8(info) else {
        return Ok(None);
    };
    if !text.split("\n").any(is_named) {
        return Ok(None);
    }
    let mut written = Vec::new(alloc);
    for line in text.split("\n") {
        let line = if is_named(line) {
            NOBODY
        } else {
            line.as_bytes()
        };
        written.extend_from_slice(line)?;
        written.extend_from_slice(b"\n")?;
    }
    Ok(Some(written))
}
