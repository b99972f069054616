//! What a line says, by its directive.

ghost use Rattle.std.specs.Prelude.{◌≡◌, IfOk};
ghost use Rattle.sentinel_conf.specs.Watch.WatchLines.{yes_or_no, bind_line, node_pass_line, node_user_line, own_pass_line, peer_pass_line, peer_user_line, reboot_line, down_after_line, max_clients_line, timeout_line, protected_line, resolved, resolve_line, other_sentinel, sentinel_guards, sentinel_named, sentinel_line, named_or, other_directive, first_directives, has_mark, line_of_words, watch_line};

use crate::watch::binds::bound;
use crate::watch::faults::WatchKind;
use crate::watch::guards::{guard_named, is_named};
use crate::watch::known_directives::is_sentinel_directive;
use crate::watch::settings::{WatchLine, WatchSetting};
use ballot_law::{Name, NoMemory, Text};
use std::alloc::Global;
use tokens::{is_comment, number_of, redis_words};

/// The greatest number of clients that a Redis takes.
const COUNT_MAX: u64 = 4_294_967_295;

/// The greatest number of seconds that a Redis takes.
const SECONDS_MAX: u64 = 2_147_483_647;

/// The least `down-after-milliseconds` of a file for `watch`, in milliseconds.
pub const DOWN_AFTER_LEAST: u64 = 100;

/// The byte order mark, with which some editors begin a file.
const MARK: &[u8] = b"\xEF\xBB\xBF";

/// A copy of a word.
fn copy_of(alloc: Global, word: &Text) -> Result<Text, NoMemory>
    ensures { IfOk result (λ copy. copy ≡ word.now) }
{
    Text::from_slice(alloc, word.as_slice())
}

/// `yes` or `no`, in whatever case.
fn yes_or_no(word: &Text) -> Option<bool>
    ensures { result ≡ yes_or_no word.now }
{
    if is_named(word, b"yes") {
        return Some(true);
    }
    if is_named(word, b"no") {
        return Some(false);
    }
    None
}

/// `bind <ip>..`.
fn bind_line(alloc: Global, args: &[Text]) -> Result<WatchLine, NoMemory>
    ensures { IfOk result (λ line. line ≡ bind_line args.now) }
{
    match bound(alloc, args)? {
        Some(binds) => Ok(WatchLine::Says(WatchSetting::Bind(binds))),
        None => Ok(WatchLine::Faulty(WatchKind::BadBind)),
    }
}

/// `sentinel auth-pass <name> <password>`.
#[tactic(auto, using(ballot_law::specs::NameWords::name_is, ballot_law::specs::NameWords::name_not))]
fn node_pass_line(alloc: Global, args: &[Text]) -> Result<WatchLine, NoMemory>
    ensures { IfOk result (λ line. line ≡ node_pass_line args.now) }
{
    let [name, pass] = args else {
        return Ok(WatchLine::Faulty(WatchKind::BadDirective));
    };
    let Some(name) = Name::from_slice(name.as_slice()) else {
        return Ok(WatchLine::Faulty(WatchKind::BadName));
    };
    let pass = copy_of(alloc, pass)?;
    Ok(WatchLine::Says(WatchSetting::NodePass { name, pass }))
}

/// `sentinel auth-user <name> <user>`.
#[tactic(auto, using(ballot_law::specs::NameWords::name_is, ballot_law::specs::NameWords::name_not))]
fn node_user_line(alloc: Global, args: &[Text]) -> Result<WatchLine, NoMemory>
    ensures { IfOk result (λ line. line ≡ node_user_line args.now) }
{
    let [name, user] = args else {
        return Ok(WatchLine::Faulty(WatchKind::BadDirective));
    };
    let Some(name) = Name::from_slice(name.as_slice()) else {
        return Ok(WatchLine::Faulty(WatchKind::BadName));
    };
    let user = copy_of(alloc, user)?;
    Ok(WatchLine::Says(WatchSetting::NodeUser { name, user }))
}

/// `requirepass <password>`.
fn own_pass_line(alloc: Global, args: &[Text]) -> Result<WatchLine, NoMemory>
    ensures { IfOk result (λ line. line ≡ own_pass_line args.now) }
{
    let [pass] = args else {
        return Ok(WatchLine::Faulty(WatchKind::BadDirective));
    };
    let pass = copy_of(alloc, pass)?;
    Ok(WatchLine::Says(WatchSetting::OwnPass(pass)))
}

/// `sentinel sentinel-pass <password>`.
fn peer_pass_line(alloc: Global, args: &[Text]) -> Result<WatchLine, NoMemory>
    ensures { IfOk result (λ line. line ≡ peer_pass_line args.now) }
{
    let [pass] = args else {
        return Ok(WatchLine::Faulty(WatchKind::BadDirective));
    };
    let pass = copy_of(alloc, pass)?;
    Ok(WatchLine::Says(WatchSetting::PeerPass(pass)))
}

/// `sentinel sentinel-user <user>`.
fn peer_user_line(alloc: Global, args: &[Text]) -> Result<WatchLine, NoMemory>
    ensures { IfOk result (λ line. line ≡ peer_user_line args.now) }
{
    let [user] = args else {
        return Ok(WatchLine::Faulty(WatchKind::BadDirective));
    };
    let user = copy_of(alloc, user)?;
    Ok(WatchLine::Says(WatchSetting::PeerUser(user)))
}

/// `sentinel master-reboot-down-after-period <name> <milliseconds>`.
#[tactic(auto, using(ballot_law::specs::NameWords::name_is, ballot_law::specs::NameWords::name_not))]
fn reboot_line(args: &[Text]) -> WatchLine
    ensures { result ≡ reboot_line args.now }
{
    let [name, ms] = args else {
        return WatchLine::Faulty(WatchKind::BadMillis);
    };
    let Some(name) = Name::from_slice(name.as_slice()) else {
        return WatchLine::Faulty(WatchKind::BadMillis);
    };
    match number_of(ms.as_slice(), 0, COUNT_MAX) {
        Some(ms) => WatchLine::Says(WatchSetting::Reboot {
            name,
            ms: ms as u32,
        }),
        None => WatchLine::Faulty(WatchKind::BadMillis),
    }
}

/// `sentinel down-after-milliseconds <name> <milliseconds>`, of which the number alone is looked at.
fn down_after_line(args: &[Text]) -> WatchLine
    ensures { result ≡ down_after_line args.now }
{
    let [_, ms] = args else {
        return WatchLine::Other;
    };
    match number_of(ms.as_slice(), 0, DOWN_AFTER_LEAST - 1) {
        Some(_) => WatchLine::Faulty(WatchKind::ShortDownAfter),
        None => WatchLine::Other,
    }
}

/// `maxclients <number>`.
fn max_clients_line(args: &[Text]) -> WatchLine
    ensures { result ≡ max_clients_line args.now }
{
    let [count] = args else {
        return WatchLine::Faulty(WatchKind::BadDirective);
    };
    match number_of(count.as_slice(), 1, COUNT_MAX) {
        Some(count) => WatchLine::Says(WatchSetting::MaxClients(count as u32)),
        None => WatchLine::Faulty(WatchKind::BadNumber),
    }
}

/// `timeout <seconds>`.
fn timeout_line(args: &[Text]) -> WatchLine
    ensures { result ≡ timeout_line args.now }
{
    let [seconds] = args else {
        return WatchLine::Faulty(WatchKind::BadSeconds);
    };
    match number_of(seconds.as_slice(), 0, SECONDS_MAX) {
        Some(seconds) => WatchLine::Says(WatchSetting::Timeout(seconds as u32)),
        None => WatchLine::Faulty(WatchKind::BadSeconds),
    }
}

/// `protected-mode yes` or `no`.
fn protected_line(args: &[Text]) -> WatchLine
    ensures { result ≡ protected_line args.now }
{
    let [word] = args else {
        return WatchLine::Faulty(WatchKind::BadDirective);
    };
    match yes_or_no(word) {
        Some(yes) => WatchLine::Says(WatchSetting::ProtectedMode(yes)),
        None => WatchLine::Faulty(WatchKind::BadYesNo),
    }
}

/// `sentinel resolve-hostnames yes` or `no`.
fn resolve_line(args: &[Text]) -> WatchLine
    ensures { result ≡ resolve_line args.now }
{
    let [word] = args else {
        return WatchLine::Faulty(WatchKind::BadDirective);
    };
    match yes_or_no(word) {
        Some(true) => WatchLine::Faulty(WatchKind::NamesOfHosts),
        Some(false) => WatchLine::Other,
        None => WatchLine::Faulty(WatchKind::BadYesNo),
    }
}

/// The line of a `sentinel` directive of this name that says nothing to `watch` alone: it is faulty, where no Redis
/// knows the name.
fn other_sentinel(alloc: Global, name: &Text) -> Result<WatchLine, NoMemory>
    ensures { IfOk result (λ line. line ≡ other_sentinel name.now) }
{
    if is_sentinel_directive(alloc, name.as_slice())? {
        return Ok(WatchLine::Other);
    }
    Ok(WatchLine::Faulty(WatchKind::UnknownDirective))
}

/// The line of a `sentinel` directive of this name, where it is one of those that are refused but where they change
/// nothing.
fn sentinel_guard(alloc: Global, name: &Text, args: &[Text]) -> Result<WatchLine, NoMemory>
    ensures { IfOk result (λ line. line ≡ named_or (other_sentinel name.now) name.now sentinel_guards args.now) }
{
    if is_named(name, b"down-after-milliseconds") {
        return Ok(down_after_line(args));
    }
    if is_named(name, b"resolve-hostnames") {
        return Ok(resolve_line(args));
    }
    if is_named(name, b"rename-command") {
        return Ok(WatchLine::Faulty(WatchKind::RenamedCommand));
    }
    other_sentinel(alloc, name)
}

/// The line of a `sentinel` directive of this name.
fn sentinel_named(alloc: Global, name: &Text, args: &[Text]) -> Result<WatchLine, NoMemory>
    ensures { IfOk result (λ line. line ≡ sentinel_named name.now args.now) }
{
    if is_named(name, b"auth-pass") {
        return node_pass_line(alloc, args);
    }
    if is_named(name, b"auth-user") {
        return node_user_line(alloc, args);
    }
    if is_named(name, b"sentinel-pass") {
        return peer_pass_line(alloc, args);
    }
    if is_named(name, b"sentinel-user") {
        return peer_user_line(alloc, args);
    }
    if is_named(name, b"master-reboot-down-after-period") {
        return Ok(reboot_line(args));
    }
    sentinel_guard(alloc, name, args)
}

/// The line whose first word is `sentinel`, by the words after it.
fn sentinel_line(alloc: Global, words: &[Text]) -> Result<WatchLine, NoMemory>
    ensures { IfOk result (λ line. line ≡ sentinel_line words.now) }
{
    match words.split_first() {
        Some((name, args)) => sentinel_named(alloc, name, args),
        None => Ok(WatchLine::Faulty(WatchKind::UnknownDirective)),
    }
}

/// The line of a directive of this name.
fn first_named(alloc: Global, name: &Text, args: &[Text]) -> Result<WatchLine, NoMemory>
    ensures { IfOk result (λ line. line ≡ named_or (other_directive name.now args.now) name.now first_directives args.now) }
{
    if is_named(name, b"sentinel") {
        return sentinel_line(alloc, args);
    }
    if is_named(name, b"bind") {
        return bind_line(alloc, args);
    }
    if is_named(name, b"requirepass") {
        return own_pass_line(alloc, args);
    }
    if is_named(name, b"maxclients") {
        return Ok(max_clients_line(args));
    }
    if is_named(name, b"timeout") {
        return Ok(timeout_line(args));
    }
    if is_named(name, b"protected-mode") {
        return Ok(protected_line(args));
    }
    guard_named(alloc, name, args)
}

/// The line with these words.
fn line_of_words(alloc: Global, words: &[Text]) -> Result<WatchLine, NoMemory>
    ensures { IfOk result (λ line. line ≡ line_of_words words.now) }
{
    match words.split_first() {
        Some((name, args)) => first_named(alloc, name, args),
        None => Ok(WatchLine::Other),
    }
}

/// Whether the text begins with a byte order mark.
fn has_mark(text: &[u8]) -> bool
    ensures { result ≡ has_mark text.now }
{
    text.starts_with(MARK)
}

/// What a line says to `watch`. The name of a directive may be quoted, and the case of its ASCII letters doesn't
/// matter. NoMemory: memory was refused.
pub fn line_of(alloc: Global, text: &[u8]) -> Result<WatchLine, NoMemory>
    ensures { IfOk result (λ line. line ≡ watch_line text.now) }
{
    if is_comment(text) {
        return Ok(WatchLine::Other);
    }
    if has_mark(text) {
        return Ok(WatchLine::Faulty(WatchKind::ByteOrderMark));
    }
    match redis_words(alloc, text)? {
        Some(words) => line_of_words(alloc, words.as_slice()),
        None => Ok(WatchLine::Faulty(WatchKind::BadQuotes)),
    }
}
