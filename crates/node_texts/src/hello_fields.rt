//! The fields of a hello.

ghost use Rattle.std.specs.Prelude.{◌≡◌, ◌≢◌, ◌∷◌, [], length, MatchOption};
ghost use Rattle.ballot_law.specs.Words.{cut_at, name};
ghost use Rattle.node_texts.specs.Hellos.{epoch, sender_of, master_of};

use crate::faults::TextFault;
use ballot_law::{Addr, MAX_EPOCH, Name, RunId};
use std::marker::Model;
use tokens::{canonical_port_of, ip_of, is_decimal, number_of, run_id_of, split_at_byte};

/// An epoch's number; none where it is above `MAX_EPOCH`.
type Epoch = Option<u64>;

/// What a hello says of its sender.
#[derive(Clone, Copy)]
pub(crate) struct Sender {
    pub(crate) addr: Addr,
    pub(crate) id: RunId,
    pub(crate) current: Epoch,
}

/// What a hello says of a master.
#[derive(Clone, Copy)]
pub(crate) struct OfMaster {
    pub(crate) name: Name,
    pub(crate) addr: Addr,
    pub(crate) epoch: Epoch,
}

/// The parts of a text around its commas that aren't read yet: none where the last one was read.
#[derive(Drop)]
struct Parts<'a> {
    rest: Option<&'a [u8]>,
}

impl<'a> Model for Parts<'a> {
    ghost use Rattle.std.specs.Prelude.{List, ℕ};
    ghost use Rattle.node_texts.specs.Lines.{parts_left};

    ghost Value = { List (List ℕ) };

    ghost view = { λ parts. parts_left parts.rest };
}

impl<'a> Parts<'a> {
    /// The parts of this text.
    fn of(text: &'a [u8]) -> Parts<'a>
        ensures { result ≡ cut_at 44 text.now }
    {
        Parts { rest: Some(text) }
    }

    /// Reads the next part.
    fn next(&mut self) -> Option<&'a [u8]>
        ensures { MatchOption result ((self.old ≡ []) × (self.new ≡ []))
            (λ part. self.old ≡ part.now ∷ self.new) }
    {
        let rest = self.rest?;
        match split_at_byte(rest, b',') {
            Some((part, behind)) => {
                self.rest = Some(behind);
                Some(part)
            }
            None => {
                self.rest = None;
                Some(rest)
            }
        }
    }
}

/// The epoch of this spelling; none where it isn't a decimal number without leading zeros.
fn epoch_of(bytes: &[u8]) -> Option<Epoch>
    ensures { result ≡ epoch bytes.now }
{
    if is_decimal(bytes) {
        Some(number_of(bytes, 0, MAX_EPOCH))
    } else {
        None
    }
}

/// The name with these bytes.
fn name_of(bytes: &[u8]) -> Option<Name>
    ensures { result ≡ name bytes.now }
{
    Name::from_slice(bytes)
}

/// The eight fields of a hello, before they are read.
#[derive(Clone, Copy)]
pub(crate) struct HelloFields<'a> {
    ip: &'a [u8],
    port: &'a [u8],
    id: &'a [u8],
    current: &'a [u8],
    name: &'a [u8],
    master_ip: &'a [u8],
    master_port: &'a [u8],
    epoch: &'a [u8],
}

impl<'a> HelloFields<'a> {
    /// The fields around the commas of a text; none where there aren't eight.
    pub(crate) fn of(text: &'a [u8]) -> Option<HelloFields<'a>>
        ensures { MatchOption result (length (cut_at 44 text.now) ≢ 8)
            (λ fields. cut_at 44 text.now
            ≡ fields.ip.now ∷ fields.port.now ∷ fields.id.now ∷ fields.current.now
            ∷ fields.name.now ∷ fields.master_ip.now ∷ fields.master_port.now ∷ fields.epoch.now
            ∷ []) }
    {
        let mut parts = Parts::of(text);
        let fields = HelloFields {
            ip: parts.next()?,
            port: parts.next()?,
            id: parts.next()?,
            current: parts.next()?,
            name: parts.next()?,
            master_ip: parts.next()?,
            master_port: parts.next()?,
            epoch: parts.next()?,
        };
        match parts.next() {
            Some(_) => None,
            None => Some(fields),
        }
    }

    /// Reads fields 1 to 4, which are the sender's.
    pub(crate) fn sender(&self) -> Result<Sender, TextFault>
        ensures { result ≡ sender_of self.now.ip.now self.now.port.now
            self.now.id.now self.now.current.now }
    {
        let ip = ip_of(self.ip).ok_or(TextFault::BadField(1))?;
        let port = canonical_port_of(self.port).ok_or(TextFault::BadField(2))?;
        let id = run_id_of(self.id).ok_or(TextFault::BadField(3))?;
        let current = epoch_of(self.current).ok_or(TextFault::BadField(4))?;
        Ok(Sender {
            addr: Addr { ip, port },
            id,
            current,
        })
    }

    /// Reads fields 5 to 8, which are the master's.
    pub(crate) fn of_master(&self) -> Result<OfMaster, TextFault>
        ensures { result ≡ master_of self.now.name.now self.now.master_ip.now
            self.now.master_port.now self.now.epoch.now }
    {
        let name = name_of(self.name).ok_or(TextFault::BadField(5))?;
        let ip = ip_of(self.master_ip).ok_or(TextFault::BadField(6))?;
        let port = canonical_port_of(self.master_port).ok_or(TextFault::BadField(7))?;
        let epoch = epoch_of(self.epoch).ok_or(TextFault::BadField(8))?;
        Ok(OfMaster {
            name,
            addr: Addr { ip, port },
            epoch,
        })
    }
}
