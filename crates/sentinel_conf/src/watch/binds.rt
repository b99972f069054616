//! The ips at which the port of a Sentinel listens.

ghost use Rattle.std.specs.Prelude.{◌≡◌, None, Some, IfOk, MatchOption};
ghost use Rattle.std.specs.List.{list_any};
ghost use Rattle.sentinel_conf.specs.declared.watch.binds.Bind.{Bind};
ghost use Rattle.sentinel_conf.specs.Watch.Binds.{after_dash, has_dash, has_colon, no_ip, bind_at, ip_or_none, bind_word, binds_in, is_everywhere, without_rest, one_or_more, bound};

use ballot_law::{NoMemory, Text, is_same_bytes};
use std::alloc::Global;
use std::marker::Model;
use tokens::ip_of;

/// How many ips a line `bind` names at most.
pub const IPS_MAX: usize = 16;

/// An ip at which a port listens.
#[derive(Clone, Copy, Debug, PartialEq, Eq)]
pub struct Bind {
    /// Its four numbers; 0.0.0.0 is all of the machine.
    pub ip: [u8; 4],
    /// Whether the machine may lack it, as Redis' `-` before an ip says: then the port listens at the others alone.
    pub may_lack: bool,
}

/// All ips of the machine.
pub const EVERYWHERE: Bind = Bind {
    ip: [0, 0, 0, 0],
    may_lack: false,
};

/// The ips at which a port listens, in order. Contracts see their list.
#[derive(Drop)]
pub struct Binds {
    list: Vec<Bind>,
}

impl Model for Binds {
    ghost use Rattle.std.specs.Prelude.{List};
    ghost use Rattle.sentinel_conf.specs.declared.watch.binds.Bind.{Bind};

    ghost Value = { List Bind };

    ghost view = { λ binds. binds.list.items };
}

impl Binds {
    /// These ips.
    fn of(list: Vec<Bind>) -> Binds
        ensures { result ≡ list.items }
    {
        Binds { list }
    }

    /// The ips.
    pub fn as_slice(&self) -> &[Bind]
        ensures { result.now ≡ self.now }
    {
        self.list.as_slice()
    }
}

/// What a word of a line `bind` says.
#[derive(Clone, Copy, PartialEq, Eq)]
pub enum BindWord {
    /// An ip; `*` is all of the machine.
    Ip(Bind),
    /// An IPv6 address that needn't be there: it counts as none.
    Absent,
    /// Neither.
    Bad,
}

/// The word without the `-` with which it begins.
fn after_dash(word: &[u8]) -> &[u8]
    ensures { result.now ≡ after_dash word.now }
{
    match word.split_first() {
        Some((first, rest)) if *first == b'-' => rest,
        _ => word,
    }
}

/// Whether the word begins with a `-`.
fn has_dash(word: &[u8]) -> bool
    ensures { result ≡ has_dash word.now }
{
    match word.first() {
        Some(first) => *first == b'-',
        None => false,
    }
}

/// Whether a colon stands in the word.
fn has_colon(word: &[u8]) -> bool
    ensures { result ≡ has_colon word.now }
{
    word.iter().any(|byte| *byte == b':')
}

/// What a word says that is no ip.
fn no_ip(dash: bool, word: &[u8]) -> BindWord
    ensures { result ≡ no_ip dash word.now }
{
    if dash && has_colon(word) {
        return BindWord::Absent;
    }
    BindWord::Bad
}

/// The ip with this number, which the machine may lack where a `-` stands before it.
fn bind_at(dash: bool, ip: u32) -> Bind
    ensures { result ≡ bind_at dash ip }
{
    Bind {
        ip: ip.to_be_bytes(),
        may_lack: dash,
    }
}

/// What a word of a line `bind` says.
fn bind_word(word: &[u8]) -> BindWord
    ensures { result ≡ bind_word word.now }
{
    let (dash, address) = (has_dash(word), after_dash(word));
    if is_same_bytes(address, b"*") {
        return BindWord::Ip(EVERYWHERE);
    }
    match ip_of(address) {
        Some(ip) => BindWord::Ip(bind_at(dash, ip)),
        None => no_ip(dash, address),
    }
}

/// The ips of these words; none where one is bad.
#[tactic(auto, using(tokens::proofs::QuoteLemmas::one_joined))]
fn binds_in(alloc: Global, words: &[Text]) -> Result<Option<Vec<Bind>>, NoMemory>
    ensures { IfOk result (λ found. MatchOption found (binds_in words.now ≡ None) (λ binds. binds_in words.now ≡ Some binds.items)) }
{
    let mut binds = Vec::new(alloc);
    let mut rest = words;
    while let [word, more @ ..] = rest {
        match bind_word(word.as_slice()) {
            BindWord::Ip(bind) => binds.push(bind)?,
            BindWord::Absent => {}
            BindWord::Bad => return Ok(None),
        }
        rest = more;
    }
    Ok(Some(binds))
}

/// Whether it is all of the machine.
fn is_everywhere(bind: &Bind) -> bool
    ensures { result ≡ is_everywhere bind.now }
{
    is_same_bytes(bind.ip.as_slice(), EVERYWHERE.ip.as_slice())
}

/// Whether all ips of the machine are among these.
fn has_everywhere(binds: &[Bind]) -> bool
    ensures { result ≡ list_any is_everywhere binds.now }
{
    binds.iter().any(|bind| is_everywhere(bind))
}

/// These ips; all of the machine by itself, where it is among them.
fn without_rest(alloc: Global, binds: Vec<Bind>) -> Result<Binds, NoMemory>
    ensures { IfOk result (λ all. all ≡ without_rest binds.items) }
{
    if has_everywhere(binds.as_slice()) {
        return Ok(Binds::of(Vec::from_slice(alloc, &[EVERYWHERE])?));
    }
    Ok(Binds::of(binds))
}

/// The ips that a line `bind` with these words names. None where there are no words or more than `IPS_MAX`, where one
/// of them is none, and where they name no ip.
pub(crate) fn bound(alloc: Global, words: &[Text]) -> Result<Option<Binds>, NoMemory>
    ensures { IfOk result (λ found. found ≡ bound words.now) }
{
    if words.len() > IPS_MAX {
        return Ok(None);
    }
    let Some(binds) = binds_in(alloc, words)? else {
        return Ok(None);
    };
    if binds.is_empty() {
        return Ok(None);
    }
    Ok(Some(without_rest(alloc, binds)?))
}
