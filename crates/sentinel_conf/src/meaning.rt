//! What the lines of a file mean together.

ghost use Rattle.std.specs.Prelude.{◌≡◌, ◌∷◌, ◌++◌, [], ℕ, List, map, IfOk, Some, None};
ghost use Rattle.std.specs.List.{filter_map};
ghost use Rattle.conf_lines.specs.Values.{name_of, my_id_of, node_of, quorum_of, voted_of, candidate_of, epoch_of, known_of};
ghost use Rattle.sentinel_conf.specs.Meaning.{first_given, last, greatest, master_of, candidate_at, kept_master_of, members_of, own_port, own_addr, settings_of};

use crate::members::{Listed, members_in_order};
use crate::settings::{DEFAULT_SETTINGS, Settings};
use ballot_law::{Addr, Card, KeptMaster, Member, Name, RunId, Watched, ordered};
use conf_lines::{Setting, StateLine};
use std::alloc::{AllocError, Global};

/// The port of a Sentinel that names none.
pub(crate) const DEFAULT_PORT: u16 = 26_379;

/// The ip of a Sentinel that announces none: 127.0.0.1.
pub(crate) const DEFAULT_IP: u32 = 2_130_706_433;

/// The names that the monitor lines give, in the order of the lines.
pub fn names_given(alloc: Global, states: &[StateLine]) -> Result<Vec<Name>, AllocError>
    ensures { IfOk result (λ names. names.items ≡ filter_map name_of states.now) }
{
    states
        .iter()
        .filter_map(|state| state.monitored_name())
        .collect(alloc)
}

/// The own run id of the first line that gives one.
pub fn my_id(states: &[StateLine]) -> Option<RunId>
    ensures { result ≡ first_given my_id_of states.now }
{
    let mut rest = states;
    while let [state, more @ ..] = rest {
        if let Some(id) = state.my_id() {
            return Some(id);
        }
        rest = more;
    }
    None
}

/// The greatest epoch of all lines, or 0.
pub fn greatest_epoch(states: &[StateLine]) -> u64
    ensures { result ≡ greatest (filter_map epoch_of states.now) }
{
    let mut greatest = 0;
    let mut rest = states;
    while let [state, more @ ..] = rest {
        if let Some(epoch) = state.epoch() {
            greatest = epoch.max(greatest);
        }
        rest = more;
    }
    greatest
}

/// The nodes that the lines give to the master of this name, in the order of the lines.
fn nodes_given(alloc: Global, states: &[StateLine], name: &Name) -> Result<Vec<Addr>, AllocError>
    ensures { IfOk result (λ nodes. nodes.items ≡ filter_map (node_of name.now) states.now) }
{
    states
        .iter()
        .filter_map(|state| state.node_of(name))
        .collect(alloc)
}

/// The quorum that the lines give to the master of this name, or 0.
fn quorum_of(states: &[StateLine], name: &Name) -> u32
    ensures { result ≡ last (quorum_of name.now) 0 states.now }
{
    states
        .iter()
        .fold(0, |quorum, state| state.quorum_of(name).unwrap_or(quorum))
}

/// The master of this name.
fn master_of(alloc: Global, states: &[StateLine], name: &Name) -> Result<Watched, AllocError>
    ensures { IfOk result (λ master. master ≡ master_of states.now name.now) }
{
    let nodes = ordered(alloc, nodes_given(alloc, states, name)?)?;
    Ok(Watched::new(*name, nodes, quorum_of(states, name)))
}

/// The masters of these names.
pub fn masters_of(
    alloc: Global,
    states: &[StateLine],
    names: &[Name],
) -> Result<Vec<Watched>, AllocError>
    ensures { IfOk result (λ list. list.items ≡ map (master_of states.now) names.now) }
{
    let mut masters = Vec::with_capacity(alloc, names.len())?;
    let mut rest = names;
    while let [name, more @ ..] = rest {
        masters.push(master_of(alloc, states, name)?)?;
        rest = more;
    }
    Ok(masters)
}

/// The epoch of the last vote that the lines give to the master of this name, or 0.
fn voted_of(states: &[StateLine], name: &Name) -> u64
    ensures { result ≡ last (voted_of name.now) 0 states.now }
{
    states
        .iter()
        .fold(0, |epoch, state| state.voted_of(name).unwrap_or(epoch))
}

/// The candidate that the first line of this name gives.
fn candidate_given(states: &[StateLine], name: &Name) -> Option<RunId>
    ensures { result ≡ first_given (candidate_of name.now) states.now }
{
    let mut rest = states;
    while let [state, more @ ..] = rest {
        if let Some(id) = state.candidate_of(name) {
            return Some(id);
        }
        rest = more;
    }
    None
}

/// The candidate of the vote in this epoch for the master of this name. No vote is given in epoch 0.
fn candidate_at(states: &[StateLine], name: &Name, voted: u64) -> Option<RunId>
    ensures { result ≡ candidate_at voted (first_given (candidate_of name.now) states.now) }
{
    if voted == 0 {
        return None;
    }
    candidate_given(states, name)
}

/// What the lines hold of the master of this name.
fn kept_master_of(states: &[StateLine], name: &Name) -> KeptMaster
    ensures { result ≡ kept_master_of states.now name.now }
{
    let nowhere = Addr { ip: 0, port: 0 };
    let voted = voted_of(states, name);
    KeptMaster {
        card: Card {
            epoch: states.iter().fold(
                0,
                |epoch, state| state.config_epoch_of(name).unwrap_or(epoch),
            ),
            addr: states.iter().fold(
                nowhere,
                |addr, state| state.address_of(name).unwrap_or(addr),
            ),
        },
        voted,
        candidate: candidate_at(states, name, voted),
    }
}

/// What the lines hold of the masters of these names.
pub fn kept_masters_of(
    alloc: Global,
    states: &[StateLine],
    names: &[Name],
) -> Result<Vec<KeptMaster>, AllocError>
    ensures { IfOk result (λ list. list.items ≡ map (kept_master_of states.now) names.now) }
{
    names
        .iter()
        .map(|name| kept_master_of(states, name))
        .collect(alloc)
}

/// The Sentinels: this one and those that the lines give, in order, each once.
pub fn members_of(
    alloc: Global,
    own: Member,
    states: &[StateLine],
) -> Result<Vec<Member>, AllocError>
    ensures { IfOk result (λ members. members.items ≡ members_of own states.now) }
{
    let mut members = Vec::new(alloc);
    members.push(Listed::new(own))?;
    let mut rest = states;
    while let [state, more @ ..] = rest {
        if let Some(member) = state.sentinel() {
            members.push(Listed::new(member))?;
        }
        rest = more;
    }
    members_in_order(alloc, members)
}

/// The port of the last port line.
pub fn own_port(settings: &[Setting]) -> u16
    ensures { result ≡ own_port settings.now }
{
    settings.iter().fold(DEFAULT_PORT, |port, setting| setting.port().unwrap_or(port))
}

/// Where this Sentinel is found: what the last announce lines give, or else 127.0.0.1 and the own port.
pub fn own_addr(settings: &[Setting]) -> Addr
    ensures { result ≡ own_addr settings.now }
{
    Addr {
        ip: settings.iter().fold(
            DEFAULT_IP,
            |ip, setting| setting.announce_ip().unwrap_or(ip),
        ),
        port: settings.iter().fold(
            own_port(settings),
            |port, setting| setting.announce_port().unwrap_or(port),
        ),
    }
}

/// The settings of the master of this name.
fn settings_of(settings: &[Setting], name: &Name) -> Settings
    ensures { result ≡ settings_of settings.now name.now }
{
    Settings {
        after_ms: settings.iter().fold(
            DEFAULT_SETTINGS.after_ms,
            |ms, setting| setting.after_of(name).unwrap_or(ms),
        ),
        parallel_syncs: settings.iter().fold(
            DEFAULT_SETTINGS.parallel_syncs,
            |count, setting| setting.syncs_of(name).unwrap_or(count),
        ),
        timeout: settings.iter().fold(
            DEFAULT_SETTINGS.timeout,
            |ms, setting| setting.timeout_of(name).unwrap_or(ms),
        ),
    }
}

/// The settings of the masters of these names.
pub fn all_settings_of(
    alloc: Global,
    settings: &[Setting],
    names: &[Name],
) -> Result<Vec<Settings>, AllocError>
    ensures { IfOk result (λ list. list.items ≡ map (settings_of settings.now) names.now) }
{
    names
        .iter()
        .map(|name| settings_of(settings, name))
        .collect(alloc)
}
