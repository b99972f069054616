//! What a data node answers.

ghost use Rattle.std.specs.Prelude.{◌≡◌, ◌++◌, OnOk, codes, decimal};
ghost use Rattle.node_texts.specs.Infos.{IsInfo, info_text};
ghost use Rattle.node_texts.specs.Roles.{role_frame};
ghost use Rattle.resp2.specs.Framing.Frame as frames;
ghost use Rattle.resp2.specs.Framing.Frame.{spelling, line_end};
ghost use Rattle.data_node_port.specs.Answers.{server_front, replication_front, id_line, server_section, without_id, offset_line, replication_section, where_told, told, role_by, role_shown, followed_text, refusal_text, answer_to};

use crate::asks::{Ask, Refusal, Sections};
use ballot_law::{Addr, Info, NoMemory, Role, RunId};
use itoa::Buffer;
use node_texts::{write_info, write_role};
use resp2::{OutText, push_bulk, push_kind};
use std::alloc::Global;
use tokens::run_id_text;

/// How the section of the server begins.
#[tactic(auto, unfolding(crate::specs::Answers::server_front))]
fn server_front() -> &'static [u8]
    ensures { result.now ≡ server_front }
{
    b"# Server\r\nredis_version:7.2.0\r\nredis_mode:standalone\r\n"
}

/// How the section of the replication begins.
#[tactic(auto, unfolding(crate::specs::Answers::replication_front))]
fn replication_front() -> &'static [u8]
    ensures { result.now ≡ replication_front }
{
    b"# Replication\r\n"
}

/// Adds a line of a label and its text.
fn add_line(text: &mut OutText, label: &[u8], value: &[u8]) -> Result<(), NoMemory>
    ensures { OnOk result (text.new ≡ text.old ++ (label.now ++ (value.now ++ line_end))) }
{
    text.add(label)?;
    text.add(value)?;
    text.add(b"\r\n")
}

/// Adds the line of the run id, where there is one.
fn add_id(text: &mut OutText, id: Option<RunId>) -> Result<(), NoMemory>
    ensures { OnOk result (text.new ≡ text.old ++ id_line id) }
{
    match id {
        None => Ok(()),
        Some(id) => add_line(text, b"run_id:", run_id_text(id).as_slice()),
    }
}

/// Adds the section of the server.
fn add_server(text: &mut OutText, info: &Info) -> Result<(), NoMemory>
    ensures { OnOk result (text.new ≡ text.old ++ server_section info.now) }
{
    text.add(server_front())?;
    add_id(text, info.id)
}

/// Adds what the node shows but its run id.
fn add_fields(text: &mut OutText, info: &Info) -> Result<(), NoMemory>
    requires { IsInfo info.now }
    ensures { OnOk result (text.new ≡ text.old ++ info_text (without_id info.now)) }
{
    let nameless = Info { id: None, ..*info };
    match write_info(&nameless, text) {
        Ok(()) => Ok(()),
        Err(_) => Err(NoMemory),
    }
}

/// Adds a line of a label and a number.
fn add_number_line(text: &mut OutText, label: &[u8], number: u64) -> Result<(), NoMemory>
    ensures { OnOk result (text.new ≡ text.old ++ (label.now ++ (decimal number ++ line_end))) }
{
    let mut buffer = Buffer::new();
    add_line(text, label, buffer.format(number).as_bytes())
}

/// Adds the line of the offset as masters name it.
fn add_offset(text: &mut OutText, offset: u64) -> Result<(), NoMemory>
    ensures { OnOk result (text.new ≡ text.old ++ offset_line offset) }
{
    add_number_line(text, b"master_repl_offset:", offset)
}

/// Adds the section of the replication.
fn add_replication(text: &mut OutText, info: &Info) -> Result<(), NoMemory>
    requires { IsInfo info.now }
    ensures { OnOk result (text.new ≡ text.old ++ replication_section info.now) }
{
    text.add(replication_front())?;
    add_fields(text, info)?;
    add_offset(text, info.offset)
}

/// Adds the section of the server where it is told.
fn add_server_where(text: &mut OutText, is_told: bool, info: &Info) -> Result<(), NoMemory>
    ensures { OnOk result (text.new ≡ text.old ++ where_told is_told (server_section info.now)) }
{
    if is_told {
        return add_server(text, info);
    }
    Ok(())
}

/// Adds an empty line where two sections are told.
fn add_gap_where(text: &mut OutText, is_told: bool) -> Result<(), NoMemory>
    ensures { OnOk result (text.new ≡ text.old ++ where_told is_told line_end) }
{
    if is_told {
        return text.add(b"\r\n");
    }
    Ok(())
}

/// Adds the section of the replication where it is told.
fn add_replication_where(text: &mut OutText, is_told: bool, info: &Info) -> Result<(), NoMemory>
    requires { IsInfo info.now }
    ensures { OnOk result (text.new ≡ text.old ++ where_told is_told (replication_section info.now)) }
{
    if is_told {
        return add_replication(text, info);
    }
    Ok(())
}

/// Adds the sections that are asked for.
fn add_told(text: &mut OutText, sections: Sections, info: &Info) -> Result<(), NoMemory>
    requires { IsInfo info.now }
    ensures { OnOk result (text.new ≡ text.old ++ told sections info.now) }
{
    add_server_where(text, sections.server, info)?;
    add_gap_where(text, sections.server && sections.replication)?;
    add_replication_where(text, sections.replication, info)
}

/// Adds the answer to INFO.
fn add_info(
    alloc: Global,
    text: &mut OutText,
    sections: Sections,
    info: &Info,
) -> Result<(), NoMemory>
    requires { IsInfo info.now }
    ensures { OnOk result (text.new ≡ text.old ++ spelling (frames.bulk (told sections info.now))) }
{
    let mut told = OutText::new(alloc);
    add_told(&mut told, sections, info)?;
    push_bulk(text, told.as_slice())
}

/// The role of a node that follows this master, or nobody.
fn role_shown(info: &Info) -> Role
    ensures { result ≡ role_shown info.now }
{
    match info.master {
        None => Role::Master {
            offset: info.offset,
        },
        Some(addr) => Role::Replica {
            addr,
            offset: info.offset,
        },
    }
}

/// Adds the answer to ROLE.
fn add_role(text: &mut OutText, info: &Info) -> Result<(), NoMemory>
    requires { IsInfo info.now }
    ensures { OnOk result (text.new ≡ text.old ++ spelling (role_frame (role_shown info.now))) }
{
    match write_role(&role_shown(info), text) {
        Ok(()) => Ok(()),
        Err(_) => Err(NoMemory),
    }
}

/// What REPLICAOF is answered, where the node followed this master before.
fn followed_text(follows: Option<Addr>, before: Option<Addr>) -> &'static [u8]
    ensures { result.now ≡ followed_text follows before }
{
    match (follows, before) {
        (Some(addr), Some(master)) if addr == master => b"OK Already connected to specified master",
        _ => b"OK",
    }
}

/// Why a command is refused, in Redis's words.
fn refusal_text(refusal: Refusal) -> &'static [u8]
    ensures { result.now ≡ refusal_text refusal }
{
    match refusal {
        Refusal::UnknownCommand => b"ERR unknown command",
        Refusal::PingArguments => b"ERR wrong number of arguments for 'ping' command",
        Refusal::RoleArguments => b"ERR wrong number of arguments for 'role' command",
        Refusal::ReplicaOfArguments => b"ERR wrong number of arguments for 'replicaof' command",
        Refusal::BadPort => b"ERR Invalid master port",
        Refusal::BadHost => b"ERR master host is not an IPv4 address",
    }
}

/// Adds the answer of a node that shows this to what is asked of it.
pub(crate) fn answer_to(
    alloc: Global,
    text: &mut OutText,
    ask: &Ask,
    info: &Info,
) -> Result<(), NoMemory>
    requires { IsInfo info.now }
    ensures { OnOk result (text.new ≡ text.old ++ answer_to ask.now info.now) }
{
    match ask {
        Ask::Nothing => Ok(()),
        Ask::Ping => push_kind(text, b'+', b"PONG"),
        Ask::Echo(word) => push_bulk(text, word.as_slice()),
        Ask::Info(sections) => add_info(alloc, text, *sections, info),
        Ask::Role => add_role(text, info),
        Ask::Follow(follows) => push_kind(text, b'+', followed_text(*follows, info.master)),
        Ask::Quit => push_kind(text, b'+', b"OK"),
        Ask::Refused(refusal) => push_kind(text, b'-', refusal_text(*refusal)),
    }
}
