//! Hellos.

ghost use Rattle.std.specs.Prelude.{◌≡◌, ◌++◌, ◌∷◌, ◌+◌, ◌≤◌, decimal, OnOk, OnErr, IfOk, IfErr};
ghost use Rattle.arrayvec.specs.ArrayVec.{array_vec_len};
ghost use Rattle.ballot_law.specs.declared.replies.Hello.{Hello};
ghost use Rattle.ballot_law.specs.Hellos.{hello_text, IsHello, SpellsHello};
ghost use Rattle.ballot_law.specs.Names.{IsName};
ghost use Rattle.ballot_law.specs.Words.{ip_text, id_text};
ghost use Rattle.node_texts.specs.Hellos.{hello_from, hello_of};

use crate::drafts::{Draft, add, put, put_id, put_ip, put_number};
use crate::encoding::is_utf8;
use crate::faults::TextFault;
use crate::hello_fields::{HelloFields, OfMaster, Sender};
use arrayvec::ArrayVec;
use ballot_law::{Addr, Card, Hello};
use resp2::OutText;

/// The hello of these two, unless an epoch is too large.
fn hello_from(sender: &Sender, of_master: &OfMaster) -> Result<Hello, TextFault>
    ensures { result ≡ hello_from sender.now of_master.now }
{
    let current = sender.current.ok_or(TextFault::EpochTooLarge)?;
    let epoch = of_master.epoch.ok_or(TextFault::EpochTooLarge)?;
    Ok(Hello {
        addr: sender.addr,
        id: sender.id,
        current,
        master: of_master.name,
        card: Card {
            epoch,
            addr: of_master.addr,
        },
    })
}

/// What the bytes say, or their first fault.
fn hello_of(bytes: &[u8]) -> Result<Hello, TextFault>
    ensures { result ≡ hello_of bytes.now }
{
    if !is_utf8(bytes) {
        return Err(TextFault::NotUtf8);
    }
    let fields = HelloFields::of(bytes).ok_or(TextFault::FieldCount)?;
    let sender = fields.sender()?;
    let of_master = fields.of_master()?;
    hello_from(&sender, &of_master)
}

/// Reads a hello, what a Sentinel publishes on the channel `__sentinel__:hello`: eight fields with commas between them.
///
/// The fields are the sender's ip, port, run id and current epoch, then the master's name, ip, port and configuration
/// epoch, as the Redis Sentinel documentation lists them. Numbers are decimal without leading zeros, and epochs are at
/// most `MAX_EPOCH`, so each hello has one spelling. Faults: `NotUtf8`; `FieldCount` where there aren't eight fields;
/// `BadField` with the smallest field that isn't what it must be; `EpochTooLarge` where nothing is wrong but that an
/// epoch, in fields 4 or 8, is a decimal number above `MAX_EPOCH`. No memory is taken.
pub fn read_hello(bytes: &[u8]) -> Result<Hello, TextFault>
    ensures value { result ≡ hello_of bytes.now }
    ensures spelled { IfOk result (λ hello. SpellsHello bytes.now hello) }
    ensures whole { (hello : Hello) → SpellsHello bytes.now hello → result ≡ Ok hello }
{
    hello_of(bytes)
}

/// Adds an address, with a comma between its parts.
fn put_addr(draft: &mut Draft, addr: Addr)
    requires { array_vec_len draft.old + 36 ≤ 512 }
    ensures items { draft.new.items
        ≡ draft.old.items ++ (ip_text addr.ip ++ 44 ∷ decimal addr.port) }
    ensures len { array_vec_len draft.new ≤ array_vec_len draft.old + 36 }
{
    put_ip(draft, addr.ip);
    put(draft, b",");
    put_number(draft, u64::from(addr.port));
}

/// Adds the fields of the sender, with commas between them.
fn put_sender(draft: &mut Draft, hello: &Hello)
    requires { array_vec_len draft.old + 98 ≤ 512 }
    ensures items { draft.new.items ≡ draft.old.items
        ++ (ip_text hello.now.addr.ip ++ 44 ∷ (decimal hello.now.addr.port
        ++ 44 ∷ (id_text hello.now.id ++ 44 ∷ decimal hello.now.current))) }
    ensures len { array_vec_len draft.new ≤ array_vec_len draft.old + 98 }
{
    put_addr(draft, hello.addr);
    put(draft, b",");
    put_id(draft, hello.id);
    put(draft, b",");
    put_number(draft, hello.current);
}

/// Adds the fields of the master, with commas between them.
fn put_master(draft: &mut Draft, hello: &Hello)
    requires room { array_vec_len draft.old + 122 ≤ 512 }
    requires name { IsName hello.now.master }
    ensures items { draft.new.items ≡ draft.old.items
        ++ (hello.now.master ++ 44 ∷ (ip_text hello.now.card.addr.ip
        ++ 44 ∷ (decimal hello.now.card.addr.port ++ 44 ∷ decimal hello.now.card.epoch))) }
    ensures len { array_vec_len draft.new ≤ array_vec_len draft.old + 122 }
{
    put(draft, hello.master.as_slice());
    put(draft, b",");
    put_addr(draft, hello.card.addr);
    put(draft, b",");
    put_number(draft, hello.card.epoch);
}

/// The text of a hello.
fn hello_draft(hello: &Hello) -> Draft
    requires { IsHello hello.now }
    ensures { result.items ≡ hello_text hello.now }
{
    let mut draft = ArrayVec::new();
    put_sender(&mut draft, hello);
    put(&mut draft, b",");
    put_master(&mut draft, hello);
    draft
}

/// Adds the one spelling of a hello at the end of a text.
///
/// The caller sees to it that the hello has one: its ports are above 0 and its epochs at most `MAX_EPOCH`. The only
/// fault is `NoMemory`, and the text is then as it was.
pub fn write_hello(hello: &Hello, text: &mut OutText) -> Result<(), TextFault>
    requires { IsHello hello.now }
    ensures ok { OnOk result (text.new ≡ text.old ++ hello_text hello.now) }
    ensures again { hello_of (hello_text hello.now) ≡ Ok hello.now }
    ensures unchanged { OnErr result (text.new ≡ text.old) }
    ensures err { IfErr result (λ fault. fault ≡ TextFault.NoMemory) }
{
    add(&hello_draft(hello), text)
}
