//! The fields that rows are made of.

ghost use Rattle.std.specs.Prelude.{◌≡◌, [], ◌∷◌, ◌++◌, decimal};
ghost use Rattle.ballot_law.specs.Words.{ip_text, id_text};
ghost use Rattle.resp2.specs.Framing.Frame as frames;
ghost use Rattle.resp2.specs.Framing.Frame.{spelling};
ghost use Rattle.port_answers.specs.Room.{bounded};
ghost use Rattle.port_answers.specs.Answers.{addr_text, addr_fields, fields_text};

use crate::answer_text::AnswerText;
use arrayvec::ArrayVec;
use ballot_law::{Addr, RunId};
use itoa::Buffer;
use tokens::{ip_text, run_id_text};

/// How many bytes an address has at most, as `255.255.255.255:65535`.
const ADDR_TEXT_MAX: usize = 21;

/// An address as `ip:port`.
pub(crate) fn addr_text(addr: Addr) -> ArrayVec<u8, ADDR_TEXT_MAX>
    ensures { result.items ≡ addr_text addr }
{
    let mut buffer = Buffer::new();
    let mut text = ArrayVec::new();
    text.try_extend_from_slice(ip_text(addr.ip).as_slice())
        .unwrap();
    text.push(b':');
    text.try_extend_from_slice(buffer.format(addr.port).as_bytes())
        .unwrap();
    text
}

impl AnswerText {
    /// Adds a field's name and its value.
    #[tactic(auto, using(crate::proofs::FieldLemmas::one_field))]
    pub(crate) fn add_field(&mut self, name: &[u8], value: &[u8])
        ensures { self.new ≡ bounded (self.old ++ fields_text ((name.now, value.now) ∷ [])) }
    {
        self.add_bulk(name);
        self.add_bulk(value);
    }

    /// Adds a field's name and its value, which is a number.
    pub(crate) fn add_number(&mut self, name: &[u8], number: u64)
        ensures { self.new ≡ bounded (self.old ++ fields_text ((name.now, decimal number) ∷ [])) }
    {
        let mut buffer = Buffer::new();
        self.add_field(name, buffer.format(number).as_bytes());
    }

    /// Adds a field's name and its value, which is a run id.
    pub(crate) fn add_run_id(&mut self, name: &[u8], id: RunId)
        ensures { self.new ≡ bounded (self.old ++ fields_text ((name.now, id_text id) ∷ [])) }
    {
        self.add_field(name, run_id_text(id).as_slice());
    }

    /// Adds the fields of an address.
    pub(crate) fn add_addr(&mut self, addr: Addr)
        ensures { self.new ≡ bounded (self.old ++ fields_text (addr_fields addr)) }
    {
        self.add_field(b"ip", ip_text(addr.ip).as_slice());
        self.add_number(b"port", u64::from(addr.port));
    }

    /// Adds a bulk string of an address, as `ip:port`.
    pub(crate) fn add_addr_text(&mut self, addr: Addr)
        ensures { self.new ≡ bounded (self.old ++ spelling (frames.bulk (addr_text addr))) }
    {
        self.add_bulk(addr_text(addr).as_slice());
    }
}
