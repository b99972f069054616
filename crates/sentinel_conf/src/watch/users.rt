//! The lines `user` that a Redis writes by itself.

ghost use Rattle.std.specs.Prelude.{◌≡◌, None, Some, IfOk, MatchOption, bytes_eq, string_bytes};
ghost use Rattle.std.specs.List.{list_all};
ghost use Rattle.ballot_law.specs.Words.{lower};
ghost use Rattle.sentinel_conf.specs.Watch.Users.{is_plain, has_rule, has_all_rights, password_rule, user_with, default_user, user_line, hash_of};

use crate::watch::faults::WatchKind;
use crate::watch::settings::{WatchLine, WatchSetting};
use ballot_law::{NoMemory, Text, is_same_bytes};
use sha2::{Digest, Sha256};
use std::alloc::Global;

/// Whether the rule is this one, but for the case of its ASCII letters.
fn is_rule(rule: &Text, name: &[u8]) -> bool
    ensures { result ≡ bytes_eq (lower rule.now) (lower name.now) }
{
    rule.as_slice().eq_ignore_ascii_case(name)
}

/// Whether the rule is one of those that all rights have, or says of the texts of `RESTORE` something that no Sentinel
/// reads.
fn is_plain(rule: &Text) -> bool
    ensures { result ≡ is_plain rule.now }
{
    is_rule(rule, b"on")
        || is_rule(rule, b"~*")
        || is_rule(rule, b"&*")
        || is_rule(rule, b"+@all")
        || is_rule(rule, b"sanitize-payload")
        || is_rule(rule, b"skip-sanitize-payload")
}

/// Whether the rule is among these.
fn has_rule(rules: &[Text], name: &[u8]) -> bool
    ensures { result ≡ has_rule rules.now (lower name.now) }
{
    rules.iter().any(|rule| is_rule(rule, name))
}

/// Whether these rules let a user do all.
fn has_all_rights(rules: &[Text]) -> bool
    ensures { result ≡ has_all_rights rules.now }
{
    has_rule(rules, b"on")
        && has_rule(rules, b"~*")
        && has_rule(rules, b"&*")
        && has_rule(rules, b"+@all")
}

/// Whether each of these rules is a plain one.
fn are_plain(rules: &[Text]) -> bool
    ensures { result ≡ list_all is_plain rules.now }
{
    rules.iter().all(|rule| is_plain(rule))
}

/// The one rule that is no plain one; none where there is none, or more than one.
fn password_rule(rules: &[Text]) -> Option<&Text>
    ensures { MatchOption result (password_rule rules.now ≡ None) (λ rule. password_rule rules.now ≡ Some rule.now) }
{
    let mut rest = rules;
    while let [rule, more @ ..] = rest {
        if !is_plain(rule) {
            if are_plain(more) {
                return Some(rule);
            }
            return None;
        }
        rest = more;
    }
    None
}

/// What the default user with this password is: no password, or the hash of one.
fn user_with(alloc: Global, rule: &Text) -> Result<WatchLine, NoMemory>
    ensures { IfOk result (λ line. line ≡ user_with rule.now) }
{
    if is_rule(rule, b"nopass") {
        return Ok(WatchLine::Other);
    }
    match rule.as_slice().split_first() {
        Some((first, digits)) if *first == b'#' && !digits.is_empty() => {
            let digits = Text::from_slice(alloc, digits)?;
            Ok(WatchLine::Says(WatchSetting::DefaultUser(digits)))
        }
        _ => Ok(WatchLine::Faulty(WatchKind::AclUser)),
    }
}

/// What the default user with these rules is.
fn default_user(alloc: Global, rules: &[Text]) -> Result<WatchLine, NoMemory>
    ensures { IfOk result (λ line. line ≡ default_user rules.now) }
{
    match password_rule(rules) {
        Some(rule) if has_all_rights(rules) => user_with(alloc, rule),
        _ => Ok(WatchLine::Faulty(WatchKind::AclUser)),
    }
}

/// `user <name> <rule>..`.
pub(crate) fn user_line(alloc: Global, args: &[Text]) -> Result<WatchLine, NoMemory>
    ensures { IfOk result (λ line. line ≡ user_line args.now) }
{
    match args.split_first() {
        Some((name, rules)) if is_same_bytes(name.as_slice(), b"default") => {
            default_user(alloc, rules)
        }
        _ => Ok(WatchLine::Faulty(WatchKind::AclUser)),
    }
}

/// The digits by which a Redis writes this password down: those of its SHA-256 digest. An empty one is none, and has no
/// digits.
pub(crate) fn hash_of(alloc: Global, password: &[u8]) -> Result<String, NoMemory>
    ensures { IfOk result (λ text. string_bytes text ≡ hash_of password.now) }
{
    if password.is_empty() {
        return Ok(String::new(alloc));
    }
    let digest = Sha256::digest(password);
    Ok(hex::encode(alloc, digest.as_slice())?)
}
