//! The page that an operator reads: a table of each master, and what isn't well.

use crate::group::{GroupFacts, NewestTold, NodeFacts, SentinelFacts};
use crate::matters::Matter;
use crate::said::{MasterSaid, NodeSaid, Trouble};
use crate::shown_texts::{At, Page, name_text};
use ballot_law::{Name, NoMemory, RunId};
use std::alloc::Global;
use std::fmt;

/// The widths of a Sentinel's columns: its address, the epoch, the master's address, how it finds the master, the vote.
const SENTINEL_WIDTHS: [usize; 5] = [23, 8, 23, 8, 26];

/// The widths of a data node's columns: its address, what it is, its link, its lag, its priority.
const NODE_WIDTHS: [usize; 5] = [23, 10, 8, 14, 10];

/// Why there is nothing in a row, in two words.
pub(crate) fn trouble_word(trouble: Trouble) -> &'static str {
    match trouble {
        Trouble::Unreached => "not reached",
        Trouble::Silent => "silent",
        Trouble::Closed => "closes connections",
        Trouble::WantsPassword => "wants a password",
        Trouble::WrongPassword => "refuses the login",
        Trouble::NoRights => "gives no rights",
        Trouble::Protected => "protected mode",
        Trouble::Full => "has no room",
        Trouble::NoSentinel => "no Sentinel",
        Trouble::Garbage => "says garbage",
    }
}

/// How a Sentinel finds a master.
pub(crate) fn found_word(view: &MasterSaid) -> &'static str {
    if view.objectively {
        "o_down"
    } else if view.down {
        "s_down"
    } else {
        "up"
    }
}

/// A number, or a dash where there is none.
#[derive(Clone, Copy)]
struct OrDash(Option<u64>);

impl fmt::Display for OrDash {
    fn fmt<W: fmt::Write>(&self, f: &mut fmt::Formatter<W>) -> fmt::Result {
        match self.0 {
            Some(number) => write!(f, "{number}"),
            None => write!(f, "-"),
        }
    }
}

/// The bytes by which a replica is behind its master, where both told how far they are.
pub(crate) fn lag_of(
    group: &GroupFacts,
    newest: Option<NewestTold>,
    node: &NodeFacts,
) -> Option<u64> {
    let newest = newest?;
    let replica = node.said.ok()?;
    let master = group.node_at(newest.addr, &node.master)?;
    if replica.is_master {
        return None;
    }
    Some(master.offset.saturating_sub(replica.offset))
}

/// How many Sentinels list a replica, and how many tell of its master.
pub(crate) fn listings(group: &GroupFacts, node: &NodeFacts) -> (u64, u64) {
    let (mut listed, mut views): (u64, u64) = (0, 0);
    for facts in &group.sentinels {
        if let Some(view) = facts.view(&node.master) {
            views = views.saturating_add(1);
            if view.replica_at(node.addr).is_some() {
                listed = listed.saturating_add(1);
            }
        }
    }
    (listed, views)
}

impl Page {
    /// Adds the vote of a Sentinel, as the others heard it.
    fn vote(
        &mut self,
        width: usize,
        group: &GroupFacts,
        vote: Option<(RunId, u64)>,
    ) -> Result<(), NoMemory> {
        let Some((id, epoch)) = vote else {
            return self.column(width, "-");
        };
        match group.sentinel_with(id) {
            Some(addr) => {
                let words = At(addr);
                self.column(width, format_args!("{epoch} {words}"))
            }
            None => self.column(width, format_args!("{epoch} ?")),
        }
    }

    /// Adds the row of a Sentinel.
    fn sentinel_row(
        &mut self,
        group: &GroupFacts,
        master: &Name,
        facts: &SentinelFacts,
    ) -> Result<(), NoMemory> {
        let [address, epoch, told, found, vote] = SENTINEL_WIDTHS;
        self.add("  ")?;
        self.column(address, At(facts.addr))?;
        let view = match &facts.said {
            Ok(said) => said.master(master),
            Err(trouble) => {
                self.add(trouble_word(*trouble))?;
                return self.add("\n");
            }
        };
        let Some(view) = view else {
            return self.add("doesn't watch it\n");
        };
        self.column(epoch, view.epoch)?;
        self.column(told, At(view.addr))?;
        self.column(found, found_word(view))?;
        let last = facts.id().and_then(|id| group.vote_of(id, master));
        self.vote(vote, group, last)?;
        self.show(view.quorum.usable)?;
        self.add("\n")
    }

    /// Adds the row of a data node.
    fn node_row(
        &mut self,
        group: &GroupFacts,
        newest: Option<NewestTold>,
        node: &NodeFacts,
    ) -> Result<(), NoMemory> {
        let [address, role, link, lag, priority] = NODE_WIDTHS;
        self.add("  ")?;
        self.column(address, At(node.addr))?;
        let said: NodeSaid = match node.said {
            Ok(said) => said,
            Err(trouble) => {
                self.add(trouble_word(trouble))?;
                return self.add("\n");
            }
        };
        self.column(role, if said.is_master { "master" } else { "replica" })?;
        let up = if said.link_up { "up" } else { "down" };
        self.column(link, if said.is_master { "-" } else { up })?;
        self.column(lag, OrDash(lag_of(group, newest, node)))?;
        self.column(priority, said.priority)?;
        let (listed, views) = listings(group, node);
        if group.leads(node) {
            self.add("-\n")
        } else {
            self.show(format_args!("{listed} of {views}\n"))
        }
    }

    /// Adds the names of columns.
    fn heads(&mut self, widths: [usize; 5], heads: [&str; 5], last: &str) -> Result<(), NoMemory> {
        self.add("  ")?;
        for (width, head) in widths.iter().zip(heads.iter()) {
            self.column(*width, *head)?;
        }
        self.add(last)?;
        self.add("\n")
    }

    /// Adds the tables of a master.
    fn master(&mut self, group: &GroupFacts, master: &Name) -> Result<(), NoMemory> {
        let newest = group.newest(master);
        self.add(name_text(master))?;
        if let Some(newest) = newest {
            let (at, epoch) = (At(newest.addr), newest.epoch);
            self.show(format_args!("  {at} since epoch {epoch}"))?;
        }
        self.add("\n")?;
        self.heads(
            SENTINEL_WIDTHS,
            ["Sentinel", "epoch", "tells", "finds", "last vote"],
            "usable",
        )?;
        for facts in &group.sentinels {
            self.sentinel_row(group, master, facts)?;
        }
        self.heads(
            NODE_WIDTHS,
            ["data node", "role", "link", "lag, bytes", "priority"],
            "listed by",
        )?;
        for node in &group.nodes {
            if node.master == *master {
                self.node_row(group, newest, node)?;
            }
        }
        self.add("\n")
    }
}

/// The page of a group with these findings: the tables of each master, then `well`, or a sentence for each finding.
pub(crate) fn page_of(
    alloc: Global,
    group: &GroupFacts,
    findings: &[Matter],
) -> Result<String, NoMemory> {
    let mut page = Page::new(alloc);
    for master in &group.masters {
        page.master(group, master)?;
    }
    if findings.is_empty() {
        page.add("well\n")?;
        return Ok(page.into_text());
    }
    for finding in findings {
        let finding = *finding;
        page.show(format_args!("not well: {finding}\n"))?;
    }
    Ok(page.into_text())
}
