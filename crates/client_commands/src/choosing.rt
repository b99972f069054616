//! Which clients CLIENT LIST and CLIENT KILL name.

ghost use Rattle.std.specs.Prelude.{◌≡◌, Some, None, true, false, IfOk, OnOk};
ghost use Rattle.client_commands.specs.Choosing.{is_number, is_text, is_kind, is_chosen, may_close, places_of, anyone, kind_named, with_id, with_kind, with_user, with_spared, with_option, with_options, chosen_by, is_fit, wanted_after, chosen_wanted, unfit_text};

use crate::passwords::is_same;
use crate::port_facts::{ClientEntry, PortFacts};
use crate::refusals::{is_called, refuse_named, say};
use ballot_law::{NoMemory, Text};
use resp2::OutText;
use std::alloc::Global;
use std::marker::Model;
use tokens::canonical_number_of;

/// The greatest number of a connection.
const ID_MAX: u64 = 9_223_372_036_854_775_807;

const SYNTAX_ERROR: &[u8] = b"-ERR syntax error\r\n";

/// A kind of clients.
#[derive(Clone, Copy)]
pub(crate) enum ClientKind {
    /// Those that listen to nothing.
    Normal,
    /// Those that listen.
    Listener,
    /// Masters and replicas: none is a client of a Sentinel.
    Replica,
}

/// What is wanted of a client, where it is named; `spares` is whether it isn't the one who asks.
#[derive(Drop)]
pub(crate) struct Wanted {
    id: Option<u64>,
    address: Option<Text>,
    local: Option<Text>,
    kind: Option<ClientKind>,
    spares: bool,
}

impl Model for Wanted {
    ghost use Rattle.client_commands.specs.Choosing.{Wanted as WantedModel};

    ghost Value = { WantedModel };

    ghost view = { λ wanted. record { id = wanted.id; address = wanted.address; local = wanted.local; kind = wanted.kind; spares = wanted.spares } };
}

/// Whether the number is the one that is wanted, or any is.
fn is_number(wanted: Option<u64>, id: u64) -> bool
    ensures { result ≡ is_number wanted id }
{
    match wanted {
        Some(number) => number == id,
        None => true,
    }
}

/// Whether the text is the one that is wanted, or any is.
fn is_text(wanted: &Option<Text>, text: &[u8]) -> bool
    ensures { result ≡ is_text wanted.now text.now }
{
    match wanted {
        Some(word) => word.as_slice() == text,
        None => true,
    }
}

/// Whether the client is of the kind that is wanted, or any is.
fn is_kind(wanted: Option<ClientKind>, entry: &ClientEntry) -> bool
    ensures { result ≡ is_kind wanted entry.now }
{
    match wanted {
        None => true,
        Some(ClientKind::Normal) => !entry.is_listener(),
        Some(ClientKind::Listener) => entry.is_listener(),
        Some(ClientKind::Replica) => false,
    }
}

/// The kind of clients with this name.
pub(crate) fn kind_named(word: &[u8]) -> Option<ClientKind>
    ensures { result ≡ kind_named word.now }
{
    if is_called(b"normal", word) {
        return Some(ClientKind::Normal);
    }
    if is_called(b"pubsub", word) {
        return Some(ClientKind::Listener);
    }
    if is_called(b"slave", word) || is_called(b"replica", word) || is_called(b"master", word) {
        return Some(ClientKind::Replica);
    }
    None
}

impl Wanted {
    /// Any client, but not the one who asks where it is to be spared.
    pub(crate) fn anyone(spares: bool) -> Wanted
        ensures { result ≡ anyone spares }
    {
        Wanted {
            id: None,
            address: None,
            local: None,
            kind: None,
            spares,
        }
    }

    /// The client with this number.
    pub(crate) fn with_number(id: u64) -> Wanted
        ensures { result ≡ record (anyone false) { id = Some id } }
    {
        let mut wanted = Wanted::anyone(false);
        wanted.id = Some(id);
        wanted
    }

    /// The clients of this kind.
    pub(crate) fn with_kind(kind: ClientKind) -> Wanted
        ensures { result ≡ record (anyone false) { kind = Some kind } }
    {
        let mut wanted = Wanted::anyone(false);
        wanted.kind = Some(kind);
        wanted
    }

    /// Whether the client is there, isn't to be closed, and is wanted by the connection with this number.
    pub(crate) fn is_chosen(&self, asker: u64, killed: &[usize], entry: &ClientEntry) -> bool
        ensures { result ≡ is_chosen asker killed.now self.now entry.now }
    {
        entry.is_there(killed)
            && is_number(self.id, entry.id())
            && is_text(&self.address, entry.address())
            && is_text(&self.local, entry.local())
            && is_kind(self.kind, entry)
            && !(self.spares && asker == entry.id())
    }

    /// Whether CLIENT KILL may close the client, where it is chosen: one on a seat that is kept for another Sentinel
    /// only by its number or its address.
    fn may_close(&self, entry: &ClientEntry) -> bool
        ensures { result ≡ may_close self.now entry.now }
    {
        self.id.is_some() || self.address.is_some() || !entry.is_kept()
    }

    /// The places of the clients that are chosen and may be closed.
    pub(crate) fn places(
        &self,
        alloc: Global,
        asker: u64,
        port: &PortFacts,
    ) -> Result<Vec<usize>, NoMemory>
        ensures { IfOk result (λ places. places.items ≡ places_of asker port.now.killed self.now port.now.clients) }
    {
        let mut places = Vec::new(alloc);
        let mut rest = port.clients();
        while let [entry, more @ ..] = rest {
            if self.is_chosen(asker, port.killed(), entry) && self.may_close(entry) {
                places.push(entry.place())?;
            }
            rest = more;
        }
        Ok(places)
    }

    /// Wants the number that the word is; the answer says why not, where it is none.
    fn take_id(&mut self, word: &[u8], out: &mut OutText) -> Result<bool, NoMemory>
        ensures fits { IfOk result (λ fits. fits ≡ is_fit (with_id self.old word.now)) }
        ensures wanted { OnOk result (self.new ≡ wanted_after self.old (with_id self.old word.now)) }
        ensures text { OnOk result (out.new ≡ unfit_text out.old (with_id self.old word.now)) }
    {
        let Some(number) = canonical_number_of(word, 1, ID_MAX) else {
            say(out, b"-ERR client-id should be greater than 0\r\n")?;
            return Ok(false);
        };
        self.id = Some(number);
        Ok(true)
    }

    /// Wants the kind with this name.
    fn take_kind(&mut self, word: &[u8], out: &mut OutText) -> Result<bool, NoMemory>
        ensures fits { IfOk result (λ fits. fits ≡ is_fit (with_kind self.old word.now)) }
        ensures wanted { OnOk result (self.new ≡ wanted_after self.old (with_kind self.old word.now)) }
        ensures text { OnOk result (out.new ≡ unfit_text out.old (with_kind self.old word.now)) }
    {
        let Some(kind) = kind_named(word) else {
            refuse_named(out, b"-ERR Unknown client type '", word)?;
            return Ok(false);
        };
        self.kind = Some(kind);
        Ok(true)
    }

    /// Wants the user with this name, who each client is.
    fn take_user(&self, word: &[u8], out: &mut OutText) -> Result<bool, NoMemory>
        ensures fits { IfOk result (λ fits. fits ≡ is_fit (with_user self.now word.now)) }
        ensures wanted { wanted_after self.now (with_user self.now word.now) ≡ self.now }
        ensures text { OnOk result (out.new ≡ unfit_text out.old (with_user self.now word.now)) }
    {
        if is_same(word, b"default") {
            return Ok(true);
        }
        refuse_named(out, b"-ERR No such user '", word)?;
        Ok(false)
    }

    /// Wants that the one who asks is spared, or not.
    fn take_spared(&mut self, word: &[u8], out: &mut OutText) -> Result<bool, NoMemory>
        ensures fits { IfOk result (λ fits. fits ≡ is_fit (with_spared self.old word.now)) }
        ensures wanted { OnOk result (self.new ≡ wanted_after self.old (with_spared self.old word.now)) }
        ensures text { OnOk result (out.new ≡ unfit_text out.old (with_spared self.old word.now)) }
    {
        if is_called(b"yes", word) {
            self.spares = true;
            return Ok(true);
        }
        if is_called(b"no", word) {
            self.spares = false;
            return Ok(true);
        }
        say(out, SYNTAX_ERROR)?;
        Ok(false)
    }

    /// Wants what an option and its value say.
    fn take_option(
        &mut self,
        alloc: Global,
        option: &[u8],
        value: &[u8],
        out: &mut OutText,
    ) -> Result<bool, NoMemory>
        ensures fits { IfOk result (λ fits. fits ≡ is_fit (with_option self.old option.now value.now)) }
        ensures wanted { OnOk result (self.new ≡ wanted_after self.old (with_option self.old option.now value.now)) }
        ensures text { OnOk result (out.new ≡ unfit_text out.old (with_option self.old option.now value.now)) }
    {
        if is_called(b"id", option) {
            return self.take_id(value, out);
        }
        if is_called(b"type", option) {
            return self.take_kind(value, out);
        }
        if is_called(b"addr", option) {
            self.address = Some(Text::from_slice(alloc, value)?);
            return Ok(true);
        }
        if is_called(b"laddr", option) {
            self.local = Some(Text::from_slice(alloc, value)?);
            return Ok(true);
        }
        if is_called(b"user", option) {
            return self.take_user(value, out);
        }
        if is_called(b"skipme", option) {
            return self.take_spared(value, out);
        }
        say(out, SYNTAX_ERROR)?;
        Ok(false)
    }

    /// Wants what options and their values say, each in turn.
    #[tactic(auto, using(crate::proofs::SubBytes::options_stop, crate::proofs::SubBytes::options_go, crate::proofs::SubBytes::unfit_none, crate::proofs::SubBytes::fit_text))]
    fn take_options(
        &mut self,
        alloc: Global,
        words: &[Text],
        out: &mut OutText,
    ) -> Result<bool, NoMemory>
        ensures fits { IfOk result (λ fits. fits ≡ is_fit (with_options self.old words.now)) }
        ensures wanted { IfOk result (λ fits. fits ≡ true → chosen_wanted (with_options self.old words.now) ≡ Some self.new) }
        ensures none { IfOk result (λ fits. fits ≡ false → chosen_wanted (with_options self.old words.now) ≡ None) }
        ensures text { OnOk result (out.new ≡ unfit_text out.old (with_options self.old words.now)) }
    {
        let mut rest = words;
        while let [option, value, more @ ..] = rest {
            if !self.take_option(alloc, option.as_slice(), value.as_slice(), out)? {
                return Ok(false);
            }
            rest = more;
        }
        if rest.is_empty() {
            return Ok(true);
        }
        say(out, SYNTAX_ERROR)?;
        Ok(false)
    }
}

/// The clients that options name, of which the one who asks is none; none where they are refused, and then the answer
/// says so.
fn chosen_by_options(
    alloc: Global,
    words: &[Text],
    out: &mut OutText,
) -> Result<Option<Wanted>, NoMemory>
    ensures chosen { IfOk result (λ wanted. wanted ≡ chosen_wanted (with_options (anyone true) words.now)) }
    ensures text { OnOk result (out.new ≡ unfit_text out.old (with_options (anyone true) words.now)) }
{
    let mut wanted = Wanted::anyone(true);
    if wanted.take_options(alloc, words, out)? {
        return Ok(Some(wanted));
    }
    Ok(None)
}

/// The clients that CLIENT KILL with these words names; none where it is refused, and then the answer says so.
#[tactic(auto, using(crate::proofs::SubBytes::chosen_many))]
pub(crate) fn chosen_by(
    alloc: Global,
    words: &[Text],
    out: &mut OutText,
) -> Result<Option<Wanted>, NoMemory>
    ensures chosen { IfOk result (λ wanted. wanted ≡ chosen_wanted (chosen_by words.now)) }
    ensures text { OnOk result (out.new ≡ unfit_text out.old (chosen_by words.now)) }
{
    match words {
        [] => {
            say(out, SYNTAX_ERROR)?;
            Ok(None)
        }
        [word] => {
            let mut wanted = Wanted::anyone(false);
            wanted.address = Some(Text::from_slice(alloc, word.as_slice())?);
            Ok(Some(wanted))
        }
        [_, _, ..] => chosen_by_options(alloc, words, out),
    }
}
