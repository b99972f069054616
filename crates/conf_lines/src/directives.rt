//! What a line says, by its directive.

ghost use Rattle.std.specs.Prelude.{◌≡◌, ◌≤◌};
ghost use Rattle.conf_lines.specs.Lines.{my_id_line, current_line, monitor_line, config_line, leader_line, leader_id_line, replica_line, sentinel_line, port_line, announce_ip_line, announce_port_line, down_after_line, parallel_syncs_line, timeout_line, first_named, master_directives, announce_directives, node_directives, sentinel_directives, sentinel_words, line_of};
ghost use Rattle.ballot_law.specs.declared.cards.TheConstants.{MAX_EPOCH};
ghost use Rattle.conf_lines.specs.Results.{state_line, setting_line};
ghost use Rattle.conf_lines.specs.Words.{words_at};
ghost use Rattle.conf_lines.specs.Words.Mode.{Between};

use crate::arguments::{
    address_words, four_words, ip_word, name_word, number_word, one_word, port_word, run_id_word,
    three_words, two_words,
};
use crate::faults::ConfKind;
use crate::line_words::{is_named, next_word, trimmed};
use crate::lines::{Line, Setting, StateLine};
use ballot_law::MAX_EPOCH;

/// The greatest quorum, number of milliseconds and number of replicas.
const COUNT_MAX: u64 = 4_294_967_295;

/// `sentinel myid <id>`.
fn my_id_line(args: &[u8]) -> Result<StateLine, ConfKind>
    ensures { state_line result ≡ my_id_line (words_at args.now Between) }
{
    let id = one_word(args)?;
    Ok(StateLine::MyId(run_id_word(id)?))
}

/// `sentinel current-epoch <epoch>`.
fn current_line(args: &[u8]) -> Result<StateLine, ConfKind>
    ensures { state_line result ≡ current_line (words_at args.now Between) }
{
    let epoch = one_word(args)?;
    Ok(StateLine::CurrentEpoch(number_word(epoch, 0, MAX_EPOCH)?))
}

/// `sentinel monitor <name> <ip> <port> <quorum>`.
fn monitor_line(args: &[u8]) -> Result<StateLine, ConfKind>
    ensures { state_line result ≡ monitor_line (words_at args.now Between) }
{
    let (name, ip, port, quorum) = four_words(args)?;
    let name = name_word(name)?;
    let addr = address_words(ip, port)?;
    let quorum = number_word(quorum, 0, COUNT_MAX)?;
    Ok(StateLine::Monitor {
        name,
        addr,
        quorum: quorum as u32,
    })
}

/// `sentinel config-epoch <name> <epoch>`.
fn config_line(args: &[u8]) -> Result<StateLine, ConfKind>
    ensures { state_line result ≡ config_line (words_at args.now Between) }
{
    let (name, epoch) = two_words(args)?;
    let name = name_word(name)?;
    let epoch = number_word(epoch, 0, MAX_EPOCH)?;
    Ok(StateLine::ConfigEpoch { name, epoch })
}

/// `sentinel leader-epoch <name> <epoch>`.
fn leader_line(args: &[u8]) -> Result<StateLine, ConfKind>
    ensures { state_line result ≡ leader_line (words_at args.now Between) }
{
    let (name, epoch) = two_words(args)?;
    let name = name_word(name)?;
    let epoch = number_word(epoch, 0, MAX_EPOCH)?;
    Ok(StateLine::LeaderEpoch { name, epoch })
}

/// `sentinel leader-id <name> <id>`.
fn leader_id_line(args: &[u8]) -> Result<StateLine, ConfKind>
    ensures { state_line result ≡ leader_id_line (words_at args.now Between) }
{
    let (name, id) = two_words(args)?;
    let name = name_word(name)?;
    let id = run_id_word(id)?;
    Ok(StateLine::LeaderId { name, id })
}

/// `sentinel known-replica <name> <ip> <port>`, also with `known-slave`.
fn replica_line(args: &[u8]) -> Result<StateLine, ConfKind>
    ensures { state_line result ≡ replica_line (words_at args.now Between) }
{
    let (name, ip, port) = three_words(args)?;
    let name = name_word(name)?;
    let addr = address_words(ip, port)?;
    Ok(StateLine::KnownReplica { name, addr })
}

/// `sentinel known-sentinel <name> <ip> <port> <id>`.
fn sentinel_line(args: &[u8]) -> Result<StateLine, ConfKind>
    ensures { state_line result ≡ sentinel_line (words_at args.now Between) }
{
    let (name, ip, port, id) = four_words(args)?;
    let name = name_word(name)?;
    let addr = address_words(ip, port)?;
    let id = run_id_word(id)?;
    Ok(StateLine::KnownSentinel { name, addr, id })
}

/// `port <port>`.
fn port_line(args: &[u8]) -> Result<Setting, ConfKind>
    ensures { setting_line result ≡ port_line (words_at args.now Between) }
{
    let port = one_word(args)?;
    Ok(Setting::Port(port_word(port)?))
}

/// `sentinel announce-ip <ip>`.
fn announce_ip_line(args: &[u8]) -> Result<Setting, ConfKind>
    ensures { setting_line result ≡ announce_ip_line (words_at args.now Between) }
{
    let ip = one_word(args)?;
    Ok(Setting::AnnounceIp(ip_word(ip)?))
}

/// `sentinel announce-port <port>`.
fn announce_port_line(args: &[u8]) -> Result<Setting, ConfKind>
    ensures { setting_line result ≡ announce_port_line (words_at args.now Between) }
{
    let port = one_word(args)?;
    Ok(Setting::AnnouncePort(port_word(port)?))
}

/// `sentinel down-after-milliseconds <name> <milliseconds>`.
fn down_after_line(args: &[u8]) -> Result<Setting, ConfKind>
    ensures { setting_line result ≡ down_after_line (words_at args.now Between) }
{
    let (name, ms) = two_words(args)?;
    let name = name_word(name)?;
    let ms = number_word(ms, 1, COUNT_MAX)?;
    Ok(Setting::DownAfter { name, ms })
}

/// `sentinel parallel-syncs <name> <count>`.
fn parallel_syncs_line(args: &[u8]) -> Result<Setting, ConfKind>
    ensures { setting_line result ≡ parallel_syncs_line (words_at args.now Between) }
{
    let (name, count) = two_words(args)?;
    let name = name_word(name)?;
    let count = number_word(count, 0, COUNT_MAX)?;
    Ok(Setting::ParallelSyncs { name, count })
}

/// `sentinel failover-timeout <name> <milliseconds>`.
fn timeout_line(args: &[u8]) -> Result<Setting, ConfKind>
    ensures { setting_line result ≡ timeout_line (words_at args.now Between) }
{
    let (name, ms) = two_words(args)?;
    let name = name_word(name)?;
    let ms = number_word(ms, 1, COUNT_MAX)?;
    Ok(Setting::FailoverTimeout { name, ms })
}

/// The line of a state directive that was read so.
fn of_state(read: Result<StateLine, ConfKind>) -> Line
    ensures { result ≡ state_line read }
{
    match read {
        Ok(state) => Line::State(state),
        Err(kind) => Line::Faulty(kind),
    }
}

/// The line of a setting that was read so.
fn of_setting(read: Result<Setting, ConfKind>) -> Line
    ensures { result ≡ setting_line read }
{
    match read {
        Ok(setting) => Line::Setting(setting),
        Err(kind) => Line::Faulty(kind),
    }
}

/// The line of a directive that sets something of a master; any other is kept.
fn master_named(name: &[u8], args: &[u8]) -> Line
    ensures { result ≡ first_named name.now master_directives (words_at args.now Between) }
{
    if is_named(name, b"down-after-milliseconds") {
        return of_setting(down_after_line(args));
    }
    if is_named(name, b"parallel-syncs") {
        return of_setting(parallel_syncs_line(args));
    }
    if is_named(name, b"failover-timeout") {
        return of_setting(timeout_line(args));
    }
    Line::Kept
}

/// The line of a directive that sets where this Sentinel is found, or what else it is.
fn announce_named(name: &[u8], args: &[u8]) -> Line
    ensures { result ≡ first_named name.now announce_directives (words_at args.now Between) }
{
    if is_named(name, b"announce-ip") {
        return of_setting(announce_ip_line(args));
    }
    if is_named(name, b"announce-port") {
        return of_setting(announce_port_line(args));
    }
    master_named(name, args)
}

/// The line of a directive that speaks of a known node, or what else it is.
fn node_named(name: &[u8], args: &[u8]) -> Line
    ensures { result ≡ first_named name.now node_directives (words_at args.now Between) }
{
    if is_named(name, b"known-replica") {
        return of_state(replica_line(args));
    }
    if is_named(name, b"known-slave") {
        return of_state(replica_line(args));
    }
    if is_named(name, b"known-sentinel") {
        return of_state(sentinel_line(args));
    }
    announce_named(name, args)
}

/// The line of a `sentinel` directive of this name.
fn sentinel_named(name: &[u8], args: &[u8]) -> Line
    ensures { result ≡ first_named name.now sentinel_directives (words_at args.now Between) }
{
    if is_named(name, b"myid") {
        return of_state(my_id_line(args));
    }
    if is_named(name, b"current-epoch") {
        return of_state(current_line(args));
    }
    if is_named(name, b"monitor") {
        return of_state(monitor_line(args));
    }
    if is_named(name, b"config-epoch") {
        return of_state(config_line(args));
    }
    if is_named(name, b"leader-epoch") {
        return of_state(leader_line(args));
    }
    if is_named(name, b"leader-id") {
        return of_state(leader_id_line(args));
    }
    node_named(name, args)
}

/// The line whose first word is `sentinel`, by the words behind it.
fn sentinel_words(text: &[u8]) -> Line
    ensures { result ≡ sentinel_words (words_at text.now Between) }
{
    match next_word(text) {
        None => Line::Kept,
        Some((name, args)) => sentinel_named(name, args),
    }
}

/// What a line says. The name of a directive may be quoted, and the case of its ASCII letters doesn't matter.
pub fn line_of(text: &[u8]) -> Line
    ensures { result ≡ line_of text.now }
{
    let Some((name, rest)) = next_word(trimmed(text)) else {
        return Line::Kept;
    };
    if is_named(name, b"sentinel") {
        return sentinel_words(rest);
    }
    if is_named(name, b"port") {
        return of_setting(port_line(rest));
    }
    Line::Kept
}
