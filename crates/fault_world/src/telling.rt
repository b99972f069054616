//! What a step adds to the elections and to what was said, as entries of a report.

ghost use Rattle.std.specs.Prelude.{◌≡◌, ◌≤◌, ◌<◌, ◌+◌, ◌*◌, ◌++◌, ◌∷◌, [], length, map};
ghost use Rattle.std.specs.List.{AllByRecursion};
ghost use Rattle.ballot_law.specs.declared.messages.TheConstants.{SHOWN_MAX};
ghost use Rattle.ballot_law.specs.Messages.{advertised, advertised_by};
ghost use Rattle.ballot_law.specs.Rosters.{HasDistinctNames, size};
ghost use Rattle.ballot_law.specs.Worlds.{said_by};
ghost use Rattle.boxed_nodes.specs.Moves.{wins_told, IsWonIn};
ghost use Rattle.boxed_nodes.specs.Sendable.{IsFewShown, IsFewIn, IsHeldBy, IsOfMaster, IsListedIn, IsListed, AreListed};
ghost use Rattle.fault_world.specs.Told.{entry_of_election, entry_of_said};
ghost use Rattle.fault_world.specs.News.{elected_told, said_told, IsInGroup};

use crate::entry::Entry;
use crate::names::master_named;
use crate::report::Report;
use ballot_law::{Advertisement, Body, Card, Election, NodeName, Output, Roster, Shown};

/// Tells of a configuration that a Sentinel showed; both the Sentinel and the master are in the roster.
pub(crate) fn tell_said(report: &mut Report, roster: &Roster, said: &Advertisement)
    requires sentinel { said.now.sentinel < size roster.now }
    requires master { said.now.master < length roster.now.masters }
    requires room { 0 < report.old.room }
    ensures entries { report.new.entries ≡ report.old.entries ++ map (entry_of_said roster.now) (said.now ∷ []) }
    ensures room { report.old.room ≤ report.new.room + 1 }
{
    report.push(Entry::of_said(roster, said));
}

/// Tells of the election that a node stored.
pub(crate) fn tell_won(
    report: &mut Report,
    roster: &Roster,
    node: NodeName,
    won: Option<(u16, u64)>,
)
    requires inside { IsInGroup roster.now node }
    requires won { IsWonIn roster.now won }
    requires room { 0 < report.old.room }
    ensures { report.new.entries
        ≡ report.old.entries ++ map (entry_of_election roster.now) (elected_told node (wins_told won)) }
{
    let Some((master, epoch)) = won else {
        return;
    };
    let NodeName::SentinelAt(sentinel) = node else {
        return;
    };
    report.push(Entry::of_election(
        roster,
        &Election {
            sentinel,
            master,
            epoch,
        },
    ));
}

/// Tells of the configurations that an answer shows, in order.
fn tell_shown(report: &mut Report, roster: &Roster, sentinel: u16, shown: &[Shown])
    requires sentinel { sentinel < size roster.now }
    requires listed { AllByRecursion (IsOfMaster roster.now) shown.now }
    requires room { length shown.now ≤ report.old.room }
    ensures entries { report.new.entries
        ≡ report.old.entries ++ map (entry_of_said roster.now) (said_by sentinel shown.now) }
    ensures room { report.old.room ≤ report.new.room + length shown.now }
{
    for one in shown {
        tell_said(
            report,
            roster,
            &Advertisement {
                sentinel,
                master: one.master,
                card: one.card,
            },
        );
    }
}

/// Tells of what a message advertises.
fn tell_body(report: &mut Report, roster: &Roster, sentinel: u16, body: &Body)
    requires names { HasDistinctNames roster.now }
    requires sentinel { sentinel < size roster.now }
    requires few { IsFewIn body.now }
    requires listed { IsListedIn roster.now body.now }
    requires room { SHOWN_MAX ≤ report.old.room }
    ensures entries { report.new.entries
        ≡ report.old.entries ++ map (entry_of_said roster.now) (said_by sentinel (advertised roster.now body.now)) }
    ensures room { report.old.room ≤ report.new.room + SHOWN_MAX }
{
    match body {
        Body::Publish(hello) => {
            if let Some(master) = master_named(roster, &hello.master) {
                tell_said(
                    report,
                    roster,
                    &Advertisement {
                        sentinel,
                        master,
                        card: hello.card,
                    },
                );
            }
        }
        Body::AddressAnswer(Some(shown)) => tell_said(
            report,
            roster,
            &Advertisement {
                sentinel,
                master: shown.master,
                card: shown.card,
            },
        ),
        Body::PortReply { shown, .. } => tell_shown(report, roster, sentinel, shown.as_slice()),
        _ => (),
    }
}

/// Tells of what an output advertises; a note advertises its configuration.
fn tell_output(report: &mut Report, roster: &Roster, sentinel: u16, output: &Output)
    requires names { HasDistinctNames roster.now }
    requires sentinel { sentinel < size roster.now }
    requires few { IsFewShown output.now }
    requires listed { IsListed roster.now output.now }
    requires room { SHOWN_MAX ≤ report.old.room }
    ensures entries { report.new.entries
        ≡ report.old.entries ++ map (entry_of_said roster.now) (said_by sentinel (advertised_by roster.now (output.now ∷ []))) }
    ensures room { report.old.room ≤ report.new.room + SHOWN_MAX }
{
    match output {
        Output::Send(message) => tell_body(report, roster, sentinel, &message.body),
        Output::Tell(note) => tell_said(
            report,
            roster,
            &Advertisement {
                sentinel,
                master: note.master,
                card: note.card,
            },
        ),
    }
}

/// Tells of what a Sentinel advertises by its outputs, in order.
fn tell_outputs(report: &mut Report, roster: &Roster, sentinel: u16, outputs: &[Output])
    requires names { HasDistinctNames roster.now }
    requires sentinel { sentinel < size roster.now }
    requires few { AllByRecursion IsFewShown outputs.now }
    requires listed { AllByRecursion (IsListed roster.now) outputs.now }
    requires room { SHOWN_MAX * length outputs.now ≤ report.old.room }
    ensures { report.new.entries
        ≡ report.old.entries ++ map (entry_of_said roster.now) (said_by sentinel (advertised_by roster.now outputs.now)) }
{
    for output in outputs {
        tell_output(report, roster, sentinel, output);
    }
}

/// Tells of what a node advertises by the outputs that it releases. Only Sentinels advertise.
pub(crate) fn tell_released(
    report: &mut Report,
    roster: &Roster,
    node: NodeName,
    outputs: &[Output],
)
    requires names { HasDistinctNames roster.now }
    requires inside { IsInGroup roster.now node }
    requires few { IsHeldBy node outputs.now }
    requires listed { AreListed roster.now node outputs.now }
    requires room { SHOWN_MAX * length outputs.now ≤ report.old.room }
    ensures { report.new.entries
        ≡ report.old.entries ++ map (entry_of_said roster.now) (said_told roster.now node outputs.now) }
{
    if let NodeName::SentinelAt(sentinel) = node {
        tell_outputs(report, roster, sentinel, outputs);
    }
}
