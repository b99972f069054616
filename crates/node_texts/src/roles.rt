//! The answer to ROLE.

ghost use Rattle.std.specs.Prelude.{◌≡◌, ℕ, ◌≤◌, List, ◌++◌, length, map, OnOk, OnErr, IfErr};
ghost use Rattle.ballot_law.specs.Words.{ip_text};
ghost use Rattle.resp2.specs.Framing.Frame.{view, spelling, IsFrame};
ghost use Rattle.resp2.specs.Framing.Reading.{frame_at};
ghost use Rattle.resp2.specs.Framing.Writing.{Begins};
ghost use Rattle.node_texts.specs.declared.info_fields.TheConstants.{COUNT_MAX};
ghost use Rattle.node_texts.specs.Roles.{kind_of, offset_of, host_of, port_of, link_of, replicas_of, master_role, replica_role, role_length, role_behind, role_of, role_of_list, IsRole, role_frame};

use crate::faults::TextFault;
use crate::info_fields::role_of_name;
use ballot_law::{Addr, DataRole, NoMemory, Role};
use resp2::{OutText, Value, push_bulk, push_int, push_size};
use tokens::{PORT_MAX, ip_of, ip_text};

/// The role that the first element names.
fn kind_of(value: &Value) -> Option<DataRole>
    ensures { result ≡ kind_of (view value.now) }
{
    match value {
        Value::Bulk(text) => role_of_name(text.as_slice()),
        _ => None,
    }
}

/// A replication offset; 0 where it is below 0.
fn offset_of(value: &Value) -> Option<u64>
    ensures { result ≡ offset_of (view value.now) }
{
    match value {
        Value::Int(offset) => Some(if *offset < 0 { 0 } else { *offset as u64 }),
        _ => None,
    }
}

/// The IPv4 address of a master.
fn host_of(value: &Value) -> Option<u32>
    ensures { result ≡ host_of (view value.now) }
{
    match value {
        Value::Bulk(text) => ip_of(text.as_slice()),
        _ => None,
    }
}

/// The port of a master.
fn port_of(value: &Value) -> Option<u16>
    ensures { result ≡ port_of (view value.now) }
{
    match value {
        Value::Int(port) => {
            if 1 <= *port && *port <= PORT_MAX as i64 {
                Some(*port as u16)
            } else {
                None
            }
        }
        _ => None,
    }
}

/// The state of a link, which may be any.
fn link_of(value: &Value) -> Option<()>
    ensures { result ≡ link_of (view value.now) }
{
    match value {
        Value::Bulk(_) => Some(()),
        _ => None,
    }
}

/// The list of a master's replicas, which may be any.
fn replicas_of(value: &Value) -> Option<()>
    ensures { result ≡ replicas_of (view value.now) }
{
    match value {
        Value::Items(_) => Some(()),
        _ => None,
    }
}

/// The role of a master.
fn master_role(offset: &Value, replicas: &Value) -> Result<Role, TextFault>
    ensures { result ≡ master_role (view offset.now) (view replicas.now) }
{
    let offset = offset_of(offset).ok_or(TextFault::BadField(2))?;
    replicas_of(replicas).ok_or(TextFault::BadField(3))?;
    Ok(Role::Master { offset })
}

/// The role of a replica.
fn replica_role(host: &Value, port: &Value, link: &Value, offset: &Value) -> Result<Role, TextFault>
    ensures { result
        ≡ replica_role (view host.now) (view port.now) (view link.now) (view offset.now) }
{
    let ip = host_of(host).ok_or(TextFault::BadField(2))?;
    let port = port_of(port).ok_or(TextFault::BadField(3))?;
    link_of(link).ok_or(TextFault::BadField(4))?;
    let offset = offset_of(offset).ok_or(TextFault::BadField(5))?;
    Ok(Role::Replica {
        addr: Addr { ip, port },
        offset,
    })
}

/// How many elements the answer of a role has.
fn role_length(role: DataRole) -> usize
    ensures { result ≡ role_length role }
{
    match role {
        DataRole::Master => 3,
        DataRole::Replica => 5,
    }
}

/// Reads the elements behind the name of a role.
fn role_behind(role: DataRole, others: &[Value]) -> Result<Role, TextFault>
    ensures { result ≡ role_behind role (map view others.now) }
{
    match (role, others) {
        (DataRole::Master, [offset, replicas]) => master_role(offset, replicas),
        (DataRole::Replica, [host, port, link, offset]) => replica_role(host, port, link, offset),
        _ => Err(TextFault::FieldCount),
    }
}

/// Reads the elements of an answer.
fn role_of_items(items: &[Value]) -> Result<Role, TextFault>
    ensures { result ≡ role_of_list (map view items.now) }
{
    let [kind, others @ ..] = items else {
        return Err(TextFault::FieldCount);
    };
    let length = items.len();
    if length != role_length(DataRole::Master) && length != role_length(DataRole::Replica) {
        return Err(TextFault::FieldCount);
    }
    let role = kind_of(kind).ok_or(TextFault::BadField(1))?;
    role_behind(role, others)
}

/// Reads a data node's answer to ROLE, as the Redis documentation of the command describes it.
///
/// A master's is an array of the bulk string `master`, its replication offset and an array, which is passed over. A
/// replica's is an array of `slave`, the ip of its master as a bulk string, the port as an integer, the link's state as
/// a bulk string of any bytes, and the offset. An offset below 0 is read as 0. Faults: `FieldCount` where the value
/// isn't an array, or has another length than its kind; `BadField` with the place of the first element that is bad,
/// counted from 1. No memory is taken.
pub fn read_role(value: &Value) -> Result<Role, TextFault>
    ensures { result ≡ role_of (view value.now) }
{
    match value {
        Value::Items(items) => role_of_items(items.as_slice()),
        _ => Err(TextFault::FieldCount),
    }
}

/// Adds the answer of a master, with no replica in its list.
fn push_master(text: &mut OutText, offset: u64) -> Result<(), NoMemory>
    requires { offset ≤ COUNT_MAX }
    ensures ok { OnOk result (text.new ≡ text.old ++ spelling (role_frame (Role.Master offset))) }
    ensures err { OnErr result (Begins text.old text.new) }
{
    push_size(text, b'*', role_length(DataRole::Master))?;
    push_bulk(text, b"master")?;
    push_int(text, offset as i64)?;
    push_size(text, b'*', 0)
}

/// Adds the answer of a replica, with the link state `connected`.
fn push_replica(text: &mut OutText, addr: Addr, offset: u64) -> Result<(), NoMemory>
    requires { offset ≤ COUNT_MAX }
    ensures ok { OnOk result
        (text.new ≡ text.old ++ spelling (role_frame (Role.Replica addr offset))) }
    ensures err { OnErr result (Begins text.old text.new) }
    ensures host { length (ip_text addr.ip) ≤ 15 }
{
    let host = ip_text(addr.ip);
    push_size(text, b'*', role_length(DataRole::Replica))?;
    push_bulk(text, b"slave")?;
    push_bulk(text, host.as_slice())?;
    push_int(text, i64::from(addr.port))?;
    push_bulk(text, b"connected")?;
    push_int(text, offset as i64)
}

/// Adds the answer of a role.
fn push_role(text: &mut OutText, role: &Role) -> Result<(), NoMemory>
    requires { IsRole role.now }
    ensures ok { OnOk result (text.new ≡ text.old ++ spelling (role_frame role.now)) }
    ensures err { OnErr result (Begins text.old text.new) }
    ensures whole { IsFrame (role_frame role.now) }
{
    match role {
        Role::Master { offset } => push_master(text, *offset),
        Role::Replica { addr, offset } => push_replica(text, *addr, *offset),
    }
}

/// Adds the answer to ROLE that says this at the end of a text, as a RESP2 array: a master's with an empty list of
/// replicas, a replica's with the link state `connected`.
///
/// The caller sees to it that the offset is at most 2^63 - 1 and a port above 0. The only fault is `NoMemory`, and the
/// text is then as it was.
pub fn write_role(role: &Role, text: &mut OutText) -> Result<(), TextFault>
    requires { IsRole role.now }
    ensures ok { OnOk result (text.new ≡ text.old ++ spelling (role_frame role.now)) }
    ensures frame { (rest : List ℕ) → frame_at (spelling (role_frame role.now) ++ rest)
        ≡ Ok (role_frame role.now, rest) }
    ensures again { role_of (role_frame role.now) ≡ Ok role.now }
    ensures unchanged { OnErr result (text.new ≡ text.old) }
    ensures err { IfErr result (λ fault. fault ≡ TextFault.NoMemory) }
{
    let len = text.len();
    match push_role(text, role) {
        Ok(()) => Ok(()),
        Err(_) => {
            text.truncate(len);
            Err(TextFault::NoMemory)
        }
    }
}
