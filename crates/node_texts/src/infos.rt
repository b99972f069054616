//! The answer to INFO.

ghost use Rattle.std.specs.Prelude.{◌≡◌, ◌++◌, ◌∷◌, [], ◌+◌, ◌≤◌, length, codes, decimal, OnOk, OnErr, IfErr};
ghost use Rattle.arrayvec.specs.ArrayVec.{array_vec_len};
ghost use Rattle.node_texts.specs.Infos.{judged, address_of, info_of_fields, info_of, IsInfo, ended, id_lines, role_word, master_lines, link_word, replica_lines, info_text};

use crate::drafts::{Draft, add, put, put_id, put_ip, put_number};
use crate::encoding::is_utf8;
use crate::faults::TextFault;
use crate::info_fields::{Fields, Given};
use arrayvec::ArrayVec;
use ballot_law::{Addr, DataRole, Info, RunId};
use resp2::OutText;

/// What a field's last line says, unless its value is bad.
fn judged<T: Copy>(field: u8, given: Given<T>) -> Result<Option<T>, TextFault>
    ensures { result ≡ judged field given }
{
    match given {
        None => Ok(None),
        Some(None) => Err(TextFault::BadField(field)),
        Some(Some(value)) => Ok(Some(value)),
    }
}

/// The address, where both halves of it were given.
fn address_of(host: Option<u32>, port: Option<u16>) -> Option<Addr>
    ensures { result ≡ address_of host port }
{
    let ip = host?;
    let port = port?;
    Some(Addr { ip, port })
}

/// What the fields say, or the smallest of them that is bad.
fn info_of_fields(fields: &Fields) -> Result<Info, TextFault>
    ensures { result ≡ info_of_fields fields.now }
{
    let id = judged(1, fields.own.id)?;
    let role = judged(2, fields.own.role)?.ok_or(TextFault::BadField(2))?;
    let host = judged(3, fields.link.host)?;
    let port = judged(4, fields.link.port)?;
    let up = judged(5, fields.link.up)?;
    let down_s = judged(6, fields.link.down_s)?;
    let priority = judged(7, fields.replica.priority)?;
    let offset = judged(8, fields.replica.offset)?;
    Ok(Info {
        id,
        role,
        master: address_of(host, port),
        link_up: up.unwrap_or(false),
        link_down_s: down_s.unwrap_or(0),
        priority: priority.unwrap_or(100),
        offset: offset.unwrap_or(0),
    })
}

/// Reads a data node's answer to INFO, as the Redis documentation of the command describes it: lines of a field's name,
/// `:` and its value.
///
/// Eight fields are read: 1 `run_id`, 2 `role` (`master` or `slave`), 3 `master_host` (an IPv4 address), 4
/// `master_port`, 5 `master_link_status` (`up` or `down`), 6 `master_link_down_since_seconds`, 7 `slave_priority`, 8
/// `slave_repl_offset`. All other lines are passed over. Of a field that comes again the last line counts, and only
/// that one is judged. Numbers are one or more digits of at most 2^63 - 1, a port 1 to 65,535; where a number below 0
/// stands in fields 6 and 8 it is read as 0. Faults: `NotUtf8`; `BadField` with the smallest field that is bad, or 2
/// where the role is missing. No memory is taken.
pub fn read_info(bytes: &[u8]) -> Result<Info, TextFault>
    ensures { result ≡ info_of bytes.now }
{
    if !is_utf8(bytes) {
        return Err(TextFault::NotUtf8);
    }
    info_of_fields(&Fields::of(bytes))
}

/// Adds the line of the run id, where there is one.
fn put_id_line(draft: &mut Draft, id: Option<RunId>)
    requires { array_vec_len draft.old + 49 ≤ 512 }
    ensures items { draft.new.items ≡ draft.old.items ++ ended (id_lines id) }
    ensures len { array_vec_len draft.new ≤ array_vec_len draft.old + 49 }
{
    match id {
        Some(id) => {
            put(draft, b"run_id:");
            put_id(draft, id);
            put(draft, b"\r\n");
        }
        None => {}
    }
}

/// The name of a role.
fn role_word(role: DataRole) -> &'static [u8]
    ensures word { result.now ≡ role_word role }
    ensures len { length result.now ≤ 6 }
{
    match role {
        DataRole::Master => b"master",
        DataRole::Replica => b"slave",
    }
}

/// Adds the line of the role.
fn put_role_line(draft: &mut Draft, role: DataRole)
    requires { array_vec_len draft.old + 13 ≤ 512 }
    ensures items { draft.new.items
        ≡ draft.old.items ++ ended ((codes "role:" ++ role_word role) ∷ []) }
    ensures len { array_vec_len draft.new ≤ array_vec_len draft.old + 13 }
{
    put(draft, b"role:");
    put(draft, role_word(role));
    put(draft, b"\r\n");
}

/// Adds the lines of the master's address, where there is one.
fn put_master_lines(draft: &mut Draft, master: Option<Addr>)
    requires { array_vec_len draft.old + 63 ≤ 512 }
    ensures items { draft.new.items ≡ draft.old.items ++ ended (master_lines master) }
    ensures len { array_vec_len draft.new ≤ array_vec_len draft.old + 63 }
{
    match master {
        Some(addr) => {
            put(draft, b"master_host:");
            put_ip(draft, addr.ip);
            put(draft, b"\r\nmaster_port:");
            put_number(draft, u64::from(addr.port));
            put(draft, b"\r\n");
        }
        None => {}
    }
}

/// The word for the state of a link.
fn link_word(up: bool) -> &'static [u8]
    ensures word { result.now ≡ link_word up }
    ensures len { length result.now ≤ 4 }
{
    if up { b"up" } else { b"down" }
}

/// Adds the line of the link's state.
fn put_status_line(draft: &mut Draft, up: bool)
    requires { array_vec_len draft.old + 25 ≤ 512 }
    ensures items { draft.new.items
        ≡ draft.old.items ++ ended ((codes "master_link_status:" ++ link_word up) ∷ []) }
    ensures len { array_vec_len draft.new ≤ array_vec_len draft.old + 25 }
{
    put(draft, b"master_link_status:");
    put(draft, link_word(up));
    put(draft, b"\r\n");
}

/// Adds the line of the seconds for which the link has been down.
fn put_down_line(draft: &mut Draft, seconds: u64)
    requires { array_vec_len draft.old + 53 ≤ 512 }
    ensures items { draft.new.items
        ≡ draft.old.items
        ++ ended ((codes "master_link_down_since_seconds:" ++ decimal seconds) ∷ []) }
    ensures len { array_vec_len draft.new ≤ array_vec_len draft.old + 53 }
{
    put(draft, b"master_link_down_since_seconds:");
    put_number(draft, seconds);
    put(draft, b"\r\n");
}

/// Adds the lines of the priority and the offset.
fn put_replica_lines(draft: &mut Draft, info: &Info)
    requires { array_vec_len draft.old + 80 ≤ 512 }
    ensures items { draft.new.items ≡ draft.old.items ++ ended (replica_lines info.now) }
    ensures len { array_vec_len draft.new ≤ array_vec_len draft.old + 80 }
{
    put(draft, b"slave_priority:");
    put_number(draft, info.priority);
    put(draft, b"\r\nslave_repl_offset:");
    put_number(draft, info.offset);
    put(draft, b"\r\n");
}

/// The text of an INFO.
fn info_draft(info: &Info) -> Draft
    ensures { result.items ≡ info_text info.now }
{
    let mut draft = ArrayVec::new();
    put_id_line(&mut draft, info.id);
    put_role_line(&mut draft, info.role);
    put_master_lines(&mut draft, info.master);
    put_status_line(&mut draft, info.link_up);
    put_down_line(&mut draft, info.link_down_s);
    put_replica_lines(&mut draft, info);
    draft
}

/// Adds an answer to INFO that says this at the end of a text: the fields in their order, each line ended by CR LF.
///
/// The run id stands only if there is one, and the master's ip and port only if there is an address. The caller sees to
/// it that the numbers are at most 2^63 - 1 and that the port is above 0. The only fault is `NoMemory`, and the text is
/// then as it was.
pub fn write_info(info: &Info, text: &mut OutText) -> Result<(), TextFault>
    requires { IsInfo info.now }
    ensures ok { OnOk result (text.new ≡ text.old ++ info_text info.now) }
    ensures again { info_of (info_text info.now) ≡ Ok info.now }
    ensures unchanged { OnErr result (text.new ≡ text.old) }
    ensures err { IfErr result (λ fault. fault ≡ TextFault.NoMemory) }
{
    add(&info_draft(info), text)
}
