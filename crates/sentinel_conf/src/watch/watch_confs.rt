//! What all lines of a file say that count for `watch` alone.

ghost use Rattle.std.specs.Prelude.{◌≡◌, ◌⊎◌, ◌∷◌, [], true, false, None, Some, Ok, Err, ◌++◌, min, IfOk, OnOk, MatchResult};
ghost use Rattle.ballot_law.specs.Cuts.{lines};
ghost use Rattle.sentinel_conf.specs.Meaning.{last};
ghost use Rattle.sentinel_conf.specs.Watch.WatchLines.{binds_of, node_pass_of, node_user_of, own_pass_of, peer_pass_of, peer_user_of, reboot_of, clients_of, seconds_of, protected_of};
ghost use Rattle.sentinel_conf.specs.Watch.Binds.{everywhere};
ghost use Rattle.sentinel_conf.specs.Watch.WatchConfs.{no_memory, sent_pass, sent_user, is_other_hash, numbers_from, other_hash_line, other_password_line, settings_from, watch_settings};
ghost use Rattle.sentinel_conf.specs.declared.watch.settings.TheConstants.{CLIENTS_MAX, IDLE_SECONDS, IDLE_SECONDS_MAX};

use crate::conf::Conf;
use crate::watch::announcing::lacks_announce_ip;
use crate::watch::binds::{Bind, EVERYWHERE};
use crate::watch::directives::line_of;
use crate::watch::faults::{WatchFault, WatchKind};
use crate::watch::settings::{
    CLIENTS_MAX, IDLE_SECONDS, IDLE_SECONDS_MAX, WatchLine, WatchSetting,
};
use crate::watch::users::hash_of;
use ballot_law::{Name, NoMemory, is_same_bytes};
use std::alloc::Global;
use std::marker::Model;
use tokens::split_line;

/// What a file says to `watch` alone: the last line of a kind counts. It can't be printed, since it can hold passwords.
/// Contracts see the settings of all lines, in order.
#[derive(Drop)]
pub struct WatchConf {
    settings: Vec<WatchSetting>,
}

impl Model for WatchConf {
    ghost use Rattle.std.specs.Prelude.{List};
    ghost use Rattle.sentinel_conf.specs.declared.watch.settings.WatchSetting.{WatchSetting};

    ghost Value = { List WatchSetting };

    ghost view = { λ conf. conf.settings.items };
}

/// At which ips the port listens where no line says it: at all of the machine.
const ALL_IPS: &[Bind] = &[EVERYWHERE];

impl WatchConf {
    /// At which ips the port listens, in order: those of the last line `bind`, from 1 to `IPS_MAX` of them, or
    /// `EVERYWHERE` alone. The machine may lack all of them, where each is one that it may lack.
    pub fn binds(&self) -> &[Bind]
        ensures { result.now ≡ last binds_of (everywhere ∷ []) self.now }
    {
        let mut found = ALL_IPS;
        let mut rest = self.settings.as_slice();
        while let [setting, more @ ..] = rest {
            if let Some(binds) = setting.binds() {
                found = binds;
            }
            rest = more;
        }
        found
    }

    /// The password for the data nodes of the master of this name: that of its last line `sentinel auth-pass`. An empty
    /// one is none.
    pub fn node_pass(&self, name: &Name) -> &[u8]
        ensures { result.now ≡ last (node_pass_of name.now) [] self.now }
    {
        let mut found: &[u8] = b"";
        let mut rest = self.settings.as_slice();
        while let [setting, more @ ..] = rest {
            if let Some(pass) = setting.node_pass(name) {
                found = pass;
            }
            rest = more;
        }
        found
    }

    /// The user at the data nodes of the master of this name: that of its last line `sentinel auth-user`. An empty one
    /// is the default user.
    pub fn node_user(&self, name: &Name) -> &[u8]
        ensures { result.now ≡ last (node_user_of name.now) [] self.now }
    {
        let mut found: &[u8] = b"";
        let mut rest = self.settings.as_slice();
        while let [setting, more @ ..] = rest {
            if let Some(user) = setting.node_user(name) {
                found = user;
            }
            rest = more;
        }
        found
    }

    /// The password that a client of the own port has to give: that of the last line `requirepass`. An empty one is
    /// none.
    pub fn own_pass(&self) -> &[u8]
        ensures { result.now ≡ last own_pass_of [] self.now }
    {
        let mut found: &[u8] = b"";
        let mut rest = self.settings.as_slice();
        while let [setting, more @ ..] = rest {
            if let Some(pass) = setting.own_pass() {
                found = pass;
            }
            rest = more;
        }
        found
    }

    /// What the last line `sentinel sentinel-pass` says.
    fn peer_pass(&self) -> &[u8]
        ensures { result.now ≡ last peer_pass_of [] self.now }
    {
        let mut found: &[u8] = b"";
        let mut rest = self.settings.as_slice();
        while let [setting, more @ ..] = rest {
            if let Some(pass) = setting.peer_pass() {
                found = pass;
            }
            rest = more;
        }
        found
    }

    /// What the last line `sentinel sentinel-user` says.
    fn peer_user(&self) -> &[u8]
        ensures { result.now ≡ last peer_user_of [] self.now }
    {
        let mut found: &[u8] = b"";
        let mut rest = self.settings.as_slice();
        while let [setting, more @ ..] = rest {
            if let Some(user) = setting.peer_user() {
                found = user;
            }
            rest = more;
        }
        found
    }

    /// The password that is sent to the ports of the other Sentinels: that of the last line `sentinel sentinel-pass`,
    /// or where there is none the own one, as redis-sentinel does. An empty one is none.
    pub fn sent_pass(&self) -> &[u8]
        ensures { result.now ≡ sent_pass self.now }
    {
        let pass = self.peer_pass();
        if pass.is_empty() {
            return self.own_pass();
        }
        pass
    }

    /// The user that is sent beside it: that of the last line `sentinel sentinel-user`. An empty one is the default
    /// user, as beside the own password.
    pub fn sent_user(&self) -> &[u8]
        ensures { result.now ≡ sent_user self.now }
    {
        if self.peer_pass().is_empty() {
            return b"";
        }
        self.peer_user()
    }

    /// For how many milliseconds the master of this name may load its data after a restart until it counts as
    /// down: what its last line `sentinel master-reboot-down-after-period` says; 0, as without a line, is for ever.
    pub fn reboot_ms(&self, name: &Name) -> u32
        ensures { result ≡ last (reboot_of name.now) 0 self.now }
    {
        self.settings
            .iter()
            .fold(0, |ms, setting| setting.reboot_ms(name).unwrap_or(ms))
    }

    /// How many connections of clients the port keeps, 1 to `CLIENTS_MAX`: what the last line `maxclients` says. More
    /// than `CLIENTS_MAX`, and no line, are `CLIENTS_MAX`.
    pub fn max_clients(&self) -> u16
        ensures { result ≡ min (last clients_of CLIENTS_MAX self.now) CLIENTS_MAX }
    {
        let most = u32::from(CLIENTS_MAX);
        let asked = self.settings.iter().fold(
            most,
            |count, setting| setting.max_clients().unwrap_or(count),
        );
        asked.min(most) as u16
    }

    /// After how many seconds a connection is closed that is silent, 0 to `IDLE_SECONDS_MAX`, where 0 is never: what
    /// the last line `timeout` says. More than `IDLE_SECONDS_MAX` are `IDLE_SECONDS_MAX`, and no line is
    /// `IDLE_SECONDS`.
    pub fn idle_seconds(&self) -> u32
        ensures { result ≡ min (last seconds_of IDLE_SECONDS self.now) IDLE_SECONDS_MAX }
    {
        let asked = self.settings.iter().fold(
            IDLE_SECONDS,
            |seconds, setting| setting.idle_seconds().unwrap_or(seconds),
        );
        asked.min(IDLE_SECONDS_MAX)
    }

    /// Whether the protected mode is on: what the last line `protected-mode` says, or no, as redis-sentinel has it.
    pub fn protected_mode(&self) -> bool
        ensures { result ≡ last protected_of false self.now }
    {
        self.settings.iter().fold(
            false,
            |yes, setting| setting.protected_mode().unwrap_or(yes),
        )
    }
}

/// What the lines of a file set, in order, and the number of the line of each.
#[derive(Drop)]
struct Said {
    settings: Vec<WatchSetting>,
    numbers: Vec<u64>,
}

impl Said {
    /// Adds what the line with this number sets.
    fn add(&mut self, number: u64, setting: WatchSetting) -> Result<(), NoMemory>
        ensures settings { OnOk result (self.new.settings.items ≡ self.old.settings.items ++ setting ∷ []) }
        ensures numbers { OnOk result (self.new.numbers.items ≡ self.old.numbers.items ++ number ∷ []) }
    {
        self.settings.push(setting)?;
        self.numbers.push(number)?;
        Ok(())
    }
}

/// What all lines set, or the fault of the first faulty one.
fn said_in(alloc: Global, bytes: &[u8]) -> Result<Said, WatchFault>
    ensures settings { MatchResult result (λ said. settings_from 1 (lines bytes.now) ≡ Ok said.settings.items)
        (λ fault. (fault ≡ no_memory) ⊎ (settings_from 1 (lines bytes.now) ≡ Err fault)) }
    ensures numbers { IfOk result (λ said. said.numbers.items ≡ numbers_from 1 (lines bytes.now)) }
{
    let mut said = Said {
        settings: Vec::new(alloc),
        numbers: Vec::new(alloc),
    };
    let mut number: u64 = 1;
    let mut rest = bytes;
    while !rest.is_empty() {
        let (text, more) = split_line(rest);
        match line_of(alloc, text)? {
            WatchLine::Other => {}
            WatchLine::Says(setting) => said.add(number, setting)?,
            WatchLine::Faulty(kind) => return Err(WatchFault { line: number, kind }),
        }
        number += 1;
        rest = more;
    }
    Ok(said)
}

/// Whether it is a hash of the default user's password, and another one than this.
fn is_other_hash(hash: &[u8], setting: &WatchSetting) -> bool
    ensures { result ≡ is_other_hash hash.now setting.now }
{
    match setting {
        WatchSetting::DefaultUser(digits) => !is_same_bytes(digits.as_slice(), hash),
        _ => false,
    }
}

/// The number of the first line that has another hash of the default user's password than this. The lines of the
/// settings have these numbers.
fn other_hash_line(hash: &[u8], settings: &[WatchSetting], numbers: &[u64]) -> Option<u64>
    ensures { result ≡ other_hash_line hash.now settings.now numbers.now }
{
    let mut left = numbers;
    let mut rest = settings;
    while let [setting, more @ ..] = rest {
        let Some((number, behind)) = left.split_first() else {
            return None;
        };
        if is_other_hash(hash, setting) {
            return Some(*number);
        }
        left = behind;
        rest = more;
    }
    None
}

/// The number of the first line that has the hash of another password than that of the last line `requirepass`; an
/// empty one is none. The lines of the settings have these numbers.
fn other_password_line(
    alloc: Global,
    conf: &WatchConf,
    numbers: &[u64],
) -> Result<Option<u64>, NoMemory>
    ensures { IfOk result (λ found. found ≡ other_password_line conf.now numbers.now) }
{
    let hash = hash_of(alloc, conf.own_pass())?;
    Ok(other_hash_line(hash.as_bytes(), &conf.settings, numbers))
}

/// What the file with these bytes says to `watch`, where `conf` is what it says else; or its first fault. Faults are
/// judged in this order: that of each line, by itself; then `OtherPassword`, at its line; then `NoAnnounceIp`, with
/// line 0. `NoMemory`, with line 0, may stand in place of any other answer.
pub fn read_watch(alloc: Global, conf: &Conf, bytes: &[u8]) -> Result<WatchConf, WatchFault>
    ensures { MatchResult result (λ read. watch_settings conf.now bytes.now ≡ Ok read)
        (λ fault. (fault ≡ no_memory) ⊎ (watch_settings conf.now bytes.now ≡ Err fault)) }
{
    let Said { settings, numbers } = match said_in(alloc, bytes) {
        Ok(said) => said,
        Err(fault) => return Err(fault),
    };
    let read = WatchConf { settings };
    if let Some(line) = other_password_line(alloc, &read, &numbers)? {
        return Err(WatchFault {
            line,
            kind: WatchKind::OtherPassword,
        });
    }
    if lacks_announce_ip(conf) {
        return Err(WatchFault {
            line: 0,
            kind: WatchKind::NoAnnounceIp,
        });
    }
    Ok(read)
}
