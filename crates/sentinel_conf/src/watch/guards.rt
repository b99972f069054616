//! The lines without which a Redis would be open to others, or something else than its operator means.

ghost use Rattle.std.specs.Prelude.{◌≡◌, IfOk, bytes_eq, take};
ghost use Rattle.ballot_law.specs.Words.{lower};
ghost use Rattle.sentinel_conf.specs.Watch.WatchLines.{named_or, is_off, is_of_tls, tls_line, other_directive, tls_port_line, tls_replication_line, guard_directives};

use crate::watch::faults::WatchKind;
use crate::watch::settings::WatchLine;
use crate::watch::users::user_line;
use ballot_law::{NoMemory, Text, is_same_bytes};
use std::alloc::Global;

/// Whether the word is this name, but for the case of its ASCII letters.
pub(crate) fn is_named(word: &Text, name: &[u8]) -> bool
    ensures { result ≡ bytes_eq (lower word.now) (lower name.now) }
{
    word.as_slice().eq_ignore_ascii_case(name)
}

/// `tls-port <port>`.
fn tls_port_line(args: &[Text]) -> WatchLine
    ensures { result ≡ tls_port_line args.now }
{
    match args {
        [port] if is_same_bytes(port.as_slice(), b"0") => WatchLine::Other,
        _ => WatchLine::Faulty(WatchKind::TlsPort),
    }
}

/// `tls-replication yes` or `no`.
fn tls_replication_line(args: &[Text]) -> WatchLine
    ensures { result ≡ tls_replication_line args.now }
{
    match args {
        [word] if is_named(word, b"no") => WatchLine::Other,
        _ => WatchLine::Faulty(WatchKind::TlsReplication),
    }
}

/// Whether the word turns a setting off, or names no file.
fn is_off(word: &Text) -> bool
    ensures { result ≡ is_off word.now }
{
    is_named(word, b"no")
        || is_same_bytes(word.as_slice(), b"0")
        || is_same_bytes(word.as_slice(), b"")
}

/// A line of any other directive of TLS, by its words.
fn tls_line(args: &[Text]) -> WatchLine
    ensures { result ≡ tls_line args.now }
{
    match args {
        [word] if is_off(word) => WatchLine::Other,
        _ => WatchLine::Faulty(WatchKind::TlsSetting),
    }
}

/// The first four bytes, or all where there are fewer.
fn head_of(bytes: &[u8]) -> &[u8]
    ensures value { result.now ≡ take 4 bytes.now }
{
    &bytes[..bytes.len().min(4)]
}

/// Whether a directive of this name is one of TLS.
fn is_of_tls(name: &Text) -> bool
    ensures { result ≡ is_of_tls name.now }
{
    head_of(name.as_slice()).eq_ignore_ascii_case(b"tls-")
}

/// The line of a directive that has none of its own here.
fn other_directive(name: &Text, args: &[Text]) -> WatchLine
    ensures { result ≡ other_directive name.now args.now }
{
    if is_of_tls(name) {
        tls_line(args)
    } else {
        WatchLine::Other
    }
}

/// The line of a directive of this name, where it is one of those that are refused but where they change nothing.
pub(crate) fn guard_named(alloc: Global, name: &Text, args: &[Text]) -> Result<WatchLine, NoMemory>
    ensures { IfOk result (λ line. line ≡ named_or (other_directive name.now args.now) name.now guard_directives args.now) }
{
    if is_named(name, b"user") {
        return user_line(alloc, args);
    }
    if is_named(name, b"aclfile") {
        return Ok(WatchLine::Faulty(WatchKind::AclFile));
    }
    if is_named(name, b"include") {
        return Ok(WatchLine::Faulty(WatchKind::Include));
    }
    if is_named(name, b"tls-port") {
        return Ok(tls_port_line(args));
    }
    if is_named(name, b"tls-replication") {
        return Ok(tls_replication_line(args));
    }
    Ok(other_directive(name, args))
}
