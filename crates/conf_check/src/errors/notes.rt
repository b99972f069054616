//! All that is wrong with a file, as lines of text.

ghost use Rattle.std.specs.Prelude.{◌≡◌, ◌++◌, List, ℕ, IfOk, OnOk, OnErr, codes, decimal};
ghost use Rattle.conf_check.specs.Errors.AllFaults.{all_faults};
ghost use Rattle.conf_check.specs.Errors.Notes.{AreNotes, at_line, claimed, collided, note, places};
ghost use Rattle.conf_check.specs.Errors.Claims.{claims, first_pair};

use crate::errors::all_faults::faults_of;
use crate::errors::claims::Claim;
use crate::errors::collisions::{Collision, collision_of};
use crate::errors::first_lines::{foreign_line, zero_quorum_line};
use crate::errors::sentences::sentence;
use ballot_law::{NoMemory, RosterFault};
use conf_lines::{ConfFault, ConfKind};
use std::alloc::Global;
use tokens::{add_number, ip_text};

/// Adds words.
fn add(out: &mut Vec<u8>, words: &str) -> Result<(), NoMemory>
    ensures { OnOk result (out.new.items ≡ out.old.items ++ words.now) }
{
    out.extend_from_slice(words.as_bytes())?;
    Ok(())
}

/// Adds the number of a line, where there is one.
fn add_line(out: &mut Vec<u8>, line: Option<u64>) -> Result<(), NoMemory>
    ensures { OnOk result (out.new.items ≡ out.old.items ++ at_line line) }
{
    if let Some(line) = line {
        add(out, ": line ")?;
        add_number(out, line)?;
    }
    Ok(())
}

/// Adds the address of which a line speaks.
fn add_claim(out: &mut Vec<u8>, claim: &Claim) -> Result<(), NoMemory>
    ensures { OnOk result (out.new.items ≡ out.old.items ++ claimed claim.now) }
{
    add(out, " line ")?;
    add_number(out, claim.line)?;
    add(out, " at ")?;
    out.extend_from_slice(ip_text(claim.addr.ip).as_slice())?;
    add(out, ":")?;
    add_number(out, u64::from(claim.addr.port))
}

/// Adds the two lines that collide so, where two do.
fn add_collision(
    alloc: Global,
    out: &mut Vec<u8>,
    kind: Collision,
    bytes: &[u8],
) -> Result<(), NoMemory>
    ensures { OnOk result (out.new.items ≡ out.old.items ++ collided (first_pair kind (claims bytes.now))) }
{
    if let Some((one, other)) = collision_of(alloc, kind, bytes)? {
        add(out, ":")?;
        add_claim(out, &one)?;
        add(out, ",")?;
        add_claim(out, &other)?;
    }
    Ok(())
}

/// Adds the lines that a fault of the file as a whole is about.
fn add_places(
    alloc: Global,
    out: &mut Vec<u8>,
    kind: ConfKind,
    bytes: &[u8],
) -> Result<(), NoMemory>
    ensures { OnOk result (out.new.items ≡ out.old.items ++ places kind bytes.now) }
{
    match kind {
        ConfKind::NotUtf8 => add_line(out, foreign_line(bytes)),
        ConfKind::Roster(RosterFault::QuorumZero) => add_line(out, zero_quorum_line(bytes)),
        ConfKind::Roster(RosterFault::SharedAddress) => {
            add_collision(alloc, out, Collision::OneAddress, bytes)
        }
        ConfKind::Roster(RosterFault::SameRunId) => {
            add_collision(alloc, out, Collision::OneRunId, bytes)
        }
        _ => Ok(()),
    }
}

/// Adds the words with which the line of a fault of this name begins.
fn begin_note(out: &mut Vec<u8>, path: &str, line: u64, name: &str) -> Result<(), NoMemory>
    ensures { OnOk result (out.new.items ≡ out.old.items
        ++ (codes "note: " ++ (path.now ++ (codes ":" ++ (decimal line ++ (codes ": " ++ (name.now ++ codes ": "))))))) }
{
    add(out, "note: ")?;
    add(out, path)?;
    add(out, ":")?;
    add_number(out, line)?;
    add(out, ": ")?;
    add(out, name)?;
    add(out, ": ")
}

/// Adds the line of a fault.
fn add_fault(
    alloc: Global,
    out: &mut Vec<u8>,
    path: &str,
    fault: &ConfFault,
    bytes: &[u8],
) -> Result<(), NoMemory>
    ensures { OnOk result ((name : List ℕ) × (out.new.items ≡ out.old.items ++ note path.now bytes.now fault.now name)) }
{
    let kind = fault.kind;
    let name = format!(in alloc; "{kind}")?;
    begin_note(out, path, fault.line, name.as_str())?;
    add(out, sentence(kind))?;
    add_places(alloc, out, kind, bytes)?;
    add(out, "\n")?;
    Ok(())
}

/// All that is wrong with the file with these bytes.
fn notes_of(alloc: Global, path: &str, bytes: &[u8]) -> Result<Vec<u8>, NoMemory>
    ensures { IfOk result (λ text. AreNotes path.now bytes.now (all_faults bytes.now) text.items) }
{
    let faults = faults_of(alloc, bytes)?;
    let mut text = Vec::new(alloc);
    let mut rest = faults.as_slice();
    while let [fault, more @ ..] = rest {
        add_fault(alloc, &mut text, path, fault, bytes)?;
        rest = more;
    }
    Ok(text)
}

/// Adds all that is wrong with the file with these bytes, a line for each fault, as `note: <path>:<line>: <kind>: ..`;
/// nothing of a file that is read. NoMemory: memory was refused, and nothing was added.
pub fn add_notes(alloc: Global, out: &mut Vec<u8>, path: &str, bytes: &[u8]) -> Result<(), NoMemory>
    ensures added { OnOk result ((more : List ℕ) × AreNotes path.now bytes.now (all_faults bytes.now) more × (out.new.items ≡ out.old.items ++ more)) }
    ensures refused { OnErr result (out.new.items ≡ out.old.items) }
{
    let notes = notes_of(alloc, path, bytes)?;
    out.extend_from_slice(&notes)?;
    Ok(())
}
