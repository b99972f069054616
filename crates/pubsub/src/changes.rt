//! Names that are added and removed, and what confirms it.

ghost use Rattle.std.specs.Prelude.{◌≡◌, ◌≤◌, ◌++◌, [], OnOk, OnErr, length, take};
ghost use Rattle.resp2.specs.Framing.Frame.{spellings};
ghost use Rattle.pubsub.specs.declared.names.TheConstants.{NAMES_MAX};
ghost use Rattle.pubsub.specs.Listening.{without_names, Refuses, with_names};
ghost use Rattle.pubsub.specs.Confirming.{added, removed, emptied, all_removed, removed_or_all, left};

use crate::confirmations::{add_confirmation, add_unnamed};
use crate::fault::ChannelFault;
use crate::kind::Kind;
use crate::name::Name;
use crate::names::NameList;
use ballot_law::{NoMemory, Text};
use resp2::OutText;
use std::alloc::Global;

/// Adds names to a list, and their confirmations to the answer, up to the first name that is refused; `others` is how
/// many names of the other kind there are.
fn add_each(
    alloc: Global,
    kind: Kind,
    list: &mut NameList,
    others: usize,
    names: &[Text],
    out: &mut OutText,
) -> Result<(), ChannelFault>
    requires { others ≤ NAMES_MAX }
    ensures refused { Refuses kind list.old names.now result }
    ensures names { OnOk result (list.new ≡ with_names list.old names.now) }
    ensures text { OnOk result (out.new ≡ out.old ++ spellings (added kind others list.old names.now)) }
    ensures before { take (length list.old) list.new ≡ list.old }
{
    let mut rest = names;
    while let [name, more @ ..] = rest {
        list.add(alloc, kind, name.as_slice())?;
        let total = list.len() + others;
        add_confirmation(out, kind.add_verb(), name.as_slice(), total)?;
        rest = more;
    }
    Ok(())
}

/// Adds all of these names to a list, and the answer is their confirmations; at a fault no name is added and the answer
/// is empty.
pub(crate) fn add_all(
    alloc: Global,
    kind: Kind,
    list: &mut NameList,
    others: usize,
    names: &[Text],
    out: &mut OutText,
) -> Result<(), ChannelFault>
    requires { others ≤ NAMES_MAX }
    ensures refused { Refuses kind list.old names.now result }
    ensures names { OnOk result (list.new ≡ with_names list.old names.now) }
    ensures text { OnOk result (out.new ≡ spellings (added kind others list.old names.now)) }
    ensures stays { OnErr result (list.new ≡ list.old) }
    ensures silent { OnErr result (out.new ≡ []) }
{
    let count = list.len();
    out.clear();
    match add_each(alloc, kind, list, others, names, out) {
        Ok(()) => Ok(()),
        Err(fault) => {
            list.truncate(count);
            out.clear();
            Err(fault)
        }
    }
}

/// Removes names from a list, and adds their confirmations to the answer.
fn remove_each(
    kind: Kind,
    list: &mut NameList,
    others: usize,
    names: &[Text],
    out: &mut OutText,
) -> Result<(), NoMemory>
    requires { others ≤ NAMES_MAX }
    ensures names { OnOk result (list.new ≡ without_names list.old names.now) }
    ensures text { OnOk result (out.new ≡ out.old ++ spellings (removed kind others list.old names.now)) }
{
    let mut rest = names;
    while let [name, more @ ..] = rest {
        list.remove(name.as_slice());
        let total = list.len() + others;
        add_confirmation(out, kind.remove_verb(), name.as_slice(), total)?;
        rest = more;
    }
    Ok(())
}

/// Adds the confirmations that these names are removed, from the first to the last.
fn add_emptied(kind: Kind, names: &[Name], others: usize, out: &mut OutText) -> Result<(), NoMemory>
    requires few { length names.now ≤ NAMES_MAX }
    requires others { others ≤ NAMES_MAX }
    ensures { OnOk result (out.new ≡ out.old ++ spellings (emptied kind others names.now)) }
{
    let mut rest = names;
    while let [name, more @ ..] = rest {
        let total = more.len() + others;
        add_confirmation(out, kind.remove_verb(), name.as_slice(), total)?;
        rest = more;
    }
    Ok(())
}

/// Removes all names from a list, and adds their confirmations to the answer.
fn remove_all(
    kind: Kind,
    list: &mut NameList,
    others: usize,
    out: &mut OutText,
) -> Result<(), NoMemory>
    requires { others ≤ NAMES_MAX }
    ensures names { OnOk result (list.new ≡ []) }
    ensures text { OnOk result (out.new ≡ out.old ++ spellings (all_removed kind others list.old)) }
{
    let names = list.as_slice();
    if names.is_empty() {
        return add_unnamed(out, kind.remove_verb(), others);
    }
    add_emptied(kind, names, others, out)?;
    list.clear();
    Ok(())
}

/// Removes these names from a list, or all where none is named, and the answer is their confirmations. `NoMemory`:
/// memory was refused; some of them may be removed, and what the answer holds isn't told.
pub(crate) fn remove(
    kind: Kind,
    list: &mut NameList,
    others: usize,
    names: &[Text],
    out: &mut OutText,
) -> Result<(), NoMemory>
    requires { others ≤ NAMES_MAX }
    ensures names { OnOk result (list.new ≡ left list.old names.now) }
    ensures text { OnOk result (out.new ≡ spellings (removed_or_all kind others list.old names.now)) }
{
    out.clear();
    if names.is_empty() {
        return remove_all(kind, list, others, out);
    }
    remove_each(kind, list, others, names, out)
}
