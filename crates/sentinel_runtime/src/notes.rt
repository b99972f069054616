//! Where the events of a Sentinel go, and in which order.

ghost use Rattle.std.specs.List.{AllByRecursion};
ghost use Rattle.sentinel_runtime.specs.Saying.{MayNote};

use crate::named::{NamedChannel, NamedMaster, NamedNode};
use crate::news::NewsLists;
use crate::notices::tell_notice;
use crate::running_sentinel::Which;
use crate::switches::{Switch, switch_of};
use ballot_law::{Output, Roster};
use log::kv::With;
use log::{Level, Log, Span, info, log_enabled};
use pubsub::Channel;
use sentinel_state::{MasterNotice, Notice};
use std::fmt::Display;
use std::sync::Wait;

/// Where the events of a Sentinel go: to the log, with its port, and to the threads of its port, where these tell their
/// subscribers.
#[derive(Drop)]
pub(crate) struct Announcing<'r, 'n, J: Which, R> {
    pub(crate) rt: &'r R,
    pub(crate) port: u16,
    pub(crate) news: &'n NewsLists<J>,
}

impl<'r, 'n, J: Which, R: Log + Wait> Announcing<'r, 'n, J, R> {
    /// The log, whose notes name the port.
    pub(crate) fn log(&self) -> Span<'r, &'r R, With<'r, (), u16>> {
        self.rt.span("sentinel").with("port", self.port)
    }

    /// Whether events are noted or told.
    pub(crate) fn is_heard(&self) -> bool {
        log_enabled!(self.rt; Level::Info) || self.news.tells_events()
    }

    /// Notes an event and has it told.
    pub(crate) fn tell<T: Display + Drop>(&self, channel: Channel, text: T) {
        info!(self.log(); target: "group_sentinels::notes", "{} {text}", NamedChannel(channel));
        self.news.add_event(self.rt, channel, &text);
    }

    /// The same of an event about a master.
    pub(crate) fn tell_master(&self, channel: Channel, master: NamedMaster<'_>) {
        self.tell(channel, format_args!("master {master}"));
    }

    /// The same of an event about a replica of a master.
    pub(crate) fn tell_replica(&self, channel: Channel, node: NamedNode, master: NamedMaster<'_>) {
        self.tell(channel, format_args!("slave {node} @ {master}"));
    }

    /// Notes a master's new address and has it told.
    fn tell_switch(&self, roster: &Roster, switch: Switch<J>) {
        self.news.add_switch(self.rt, switch);
        let note = &switch.note;
        if let Some(old) = NamedMaster::of(roster, note.master, note.old) {
            let new = NamedNode::at(note.card.addr);
            info!(self.log(); target: "group_sentinels::notes", "+switch-master {old} {} {}", new.ip(), new.port());
        }
    }
}

/// Tells the changes of an address among the outputs of one input, which the call with this entry showed.
fn tell_switches<J: Which, R: Log + Wait>(
    to: &Announcing<'_, '_, J, R>,
    roster: &Roster,
    outputs: &[Output],
    entry: u64,
)
    requires noted { AllByRecursion (MayNote J.noted entry) outputs.now }
{
    for output in outputs {
        if let Some(switch) = switch_of(output, entry) {
            to.tell_switch(roster, switch);
        }
    }
}

/// Whether this tells that the address of a master has changed.
fn is_move(notice: Notice) -> bool {
    matches!(
        notice,
        Notice::OfMaster {
            what: MasterNotice::Moved,
            ..
        }
    )
}

/// Tells what was noted up to the end of one input, and at its place among that the change of an address, where the
/// input has one: that is told by its output, which the call with this entry showed, also where its notice was lost.
pub(crate) fn tell_all<J: Which, R: Log + Wait>(
    to: &Announcing<'_, '_, J, R>,
    roster: &Roster,
    notices: &[Notice],
    outputs: &[Output],
    entry: u64,
)
    requires noted { AllByRecursion (MayNote J.noted entry) outputs.now }
{
    let is_heard = to.is_heard();
    let mut are_told = false;
    for notice in notices {
        if is_move(*notice) && !are_told {
            tell_switches(to, roster, outputs, entry);
            are_told = true;
        }
        if is_heard {
            tell_notice(to, roster, *notice);
        }
    }
    if !are_told {
        tell_switches(to, roster, outputs, entry);
    }
}
