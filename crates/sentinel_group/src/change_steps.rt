//! The steps to a changed group: what an operator does with the new files, in which order, and for how long nobody
//! guards meanwhile.

use crate::change_orders::Order;
use ballot_law::{Addr, Member, Name};
use conf_check::{Change, MasterSetting, NewSetting};
use sentinel_conf::Conf;
use std::alloc::{AllocError, Global};
use tokens::ip_text;

/// Why all are stopped where the files name other Sentinels, masters or quorums.
const WHY_ALL: &str =
    "All Sentinels are stopped meanwhile: no law is proved of files that name different \
Sentinels, masters or quorums, since two majorities may share nobody.";

/// Why all are stopped where the files that were read hold different epochs or configurations.
const WHY_MENDED: &str =
    "All Sentinels are stopped meanwhile: the files that were read hold different epochs or \
configurations, and each new one the newest. With files of a group whose Sentinels all report one address and epoch, \
one Sentinel at a time is enough.";

/// Why one after another may be stopped.
const WHY_EACH: &str =
    "The Sentinels are changed one after another: what is promised holds while their files \
differ in data nodes or in such settings alone.";

/// The step in which all files are compared with what was read.
const SAME_FILES: &str =
    "Compare each Sentinel's file with the one that was read here (`cmp`). If one differs, \
a vote or a configuration came in between: start all again on their old files, and begin anew with these.";

/// The step in which one file gets the change.
const PUT_ONE: &str =
    "If it is the same, put the new file in its place, with its owner and mode. If it differs, a vote \
or a configuration came in between: keep it, make this change in it by hand, and `check` it:";

/// The step in which the changed Sentinel guards again.
const START_ONE: &str = "Start it, and wait until `SENTINEL CKQUORUM` counts all.";

/// A data node that one of two files names.
#[derive(Clone, Copy)]
struct Node {
    addr: Addr,
    /// The name of its master.
    name: Name,
    /// The address of its master.
    master: Addr,
}

/// The data nodes of the first file that the second one doesn't name, though it names their master.
fn nodes_beside(alloc: Global, of: &Conf, other: &Conf) -> Result<Vec<Node>, AllocError> {
    let mut nodes = Vec::new(alloc);
    let masters = of.kept().masters.as_slice();
    for (watched, kept) in of.roster().masters().iter().zip(masters.iter()) {
        let stays = other.roster().master_named(&watched.name).is_some();
        for addr in watched.nodes() {
            if stays && other.roster().master_at(*addr).is_none() {
                nodes.push(Node {
                    addr: *addr,
                    name: watched.name,
                    master: kept.card.addr,
                })?;
            }
        }
    }
    Ok(nodes)
}

/// A name as text.
fn name_text(name: &Name) -> &str {
    str::from_utf8(name.as_slice()).unwrap_or("")
}

/// The directive of a setting.
fn directive_of(setting: MasterSetting) -> &'static str {
    match setting {
        MasterSetting::Quorum => "quorum",
        MasterSetting::DownAfter => "down-after-milliseconds",
        MasterSetting::FailoverTimeout => "failover-timeout",
        MasterSetting::ParallelSyncs => "parallel-syncs",
    }
}

/// An address as text.
pub(crate) fn address_text(alloc: Global, addr: Addr) -> Result<String, AllocError> {
    let ip = ip_text(addr.ip);
    let ip = str::from_utf8(ip.as_slice()).unwrap_or("");
    let port = addr.port;
    format!(in alloc; "{ip}:{port}")
}

/// Lines that are numbered.
#[derive(Drop)]
pub(crate) struct Steps {
    alloc: Global,
    text: String,
    number: u32,
}

impl Steps {
    /// No lines yet.
    pub(crate) fn new(alloc: Global) -> Steps {
        Steps {
            alloc,
            text: String::new(alloc),
            number: 0,
        }
    }

    /// The lines.
    pub(crate) fn text(&self) -> &str {
        self.text.as_str()
    }

    /// Adds a line without a number.
    pub(crate) fn line(&mut self, words: &str) -> Result<(), AllocError> {
        self.text.push_str(words)?;
        self.text.push_str("\n")
    }

    /// Adds a line with the next number.
    fn step(&mut self, words: &str) -> Result<(), AllocError> {
        self.number = self.number.saturating_add(1);
        let number = self.number;
        let line = format!(in self.alloc; "{number}. {words}")?;
        self.line(line.as_str())
    }

    /// Adds a step about a node.
    fn step_at(&mut self, front: &str, addr: Addr, back: &str) -> Result<(), AllocError> {
        let at = address_text(self.alloc, addr)?;
        let at = at.as_str();
        let words = format!(in self.alloc; "{front}{at}{back}")?;
        self.step(words.as_str())
    }

    /// Adds how each of these data nodes is started.
    fn start_nodes(&mut self, nodes: &[Node]) -> Result<(), AllocError> {
        for node in nodes {
            let at = address_text(self.alloc, node.master)?;
            let at = at.as_str();
            let back = format!(in self.alloc;
                " as a replica of {at}, with `replica-priority 0`, so that nobody promotes it yet, and wait until it \
follows."
            )?;
            self.step_at("Start the Redis server ", node.addr, back.as_str())?;
        }
        Ok(())
    }

    /// Adds that nobody may promote these data nodes, which some files soon don't name.
    fn demote_nodes(&mut self, nodes: &[Node]) -> Result<(), AllocError> {
        for node in nodes {
            self.step_at(
                "At ",
                node.addr,
                ", if it still runs: `CONFIG SET replica-priority 0`. Wait 10 s, in which each Sentinel reads it.",
            )?;
        }
        Ok(())
    }

    /// Adds that these data nodes may be promoted.
    fn promote_nodes(&mut self, nodes: &[Node]) -> Result<(), AllocError> {
        for node in nodes {
            self.step_at(
                "At ",
                node.addr,
                ": `CONFIG SET replica-priority 100`, and so in its file. Not before all files name it.",
            )?;
        }
        Ok(())
    }

    /// Adds that these data nodes end.
    fn end_nodes(&mut self, nodes: &[Node]) -> Result<(), AllocError> {
        for node in nodes {
            self.step_at("End the Redis server ", node.addr, ", if it still runs.")?;
        }
        Ok(())
    }

    /// Adds a line of a file that is added or deleted.
    fn edit_line(&mut self, verb: &str, node: &Node) -> Result<(), AllocError> {
        let name = name_text(&node.name);
        let ip = ip_text(node.addr.ip);
        let ip = str::from_utf8(ip.as_slice()).unwrap_or("");
        let port = node.addr.port;
        let line = format!(in self.alloc; "   {verb} `sentinel known-replica {name} {ip} {port}`")?;
        self.line(line.as_str())
    }

    /// Adds a line of a file that is set.
    fn set_line(&mut self, new: &NewSetting) -> Result<(), AllocError> {
        let name = name_text(&new.master);
        let (directive, value) = (directive_of(new.setting), new.value);
        let line = format!(in self.alloc; "   set `sentinel {directive} {name} {value}`")?;
        self.line(line.as_str())
    }

    /// Adds what the change is in a file that is edited by hand.
    fn edits(&mut self, change: &Change, come: &[Node], gone: &[Node]) -> Result<(), AllocError> {
        for node in come {
            self.edit_line("add", node)?;
        }
        for node in gone {
            self.edit_line("delete", node)?;
        }
        match change {
            Change::Set(new) => self.set_line(new),
            _ => Ok(()),
        }
    }

    /// Adds the steps in which all Sentinels get their files.
    fn give_all(&mut self, after_ms: u64) -> Result<(), AllocError> {
        self.step("Stop all Sentinels, those that go too. From now on nobody fails over.")?;
        self.step(SAME_FILES)?;
        self.step("Put each new file in the place of the old one, with its owner and mode.")?;
        self.step("Start all Sentinels, the new one too.")?;
        let seconds = after_ms.div_ceil(1_000).saturating_add(1);
        let (first, last) = (self.number.saturating_sub(3), self.number);
        let words = format!(in self.alloc;
            "Nobody guards from step {first} to step {last}, and a master that is down then is found \
{seconds} s after it: prepare these steps as a script."
        )?;
        self.line(words.as_str())
    }

    /// Adds the steps in which one Sentinel after another gets its file.
    fn give_each(
        &mut self,
        change: &Change,
        come: &[Node],
        gone: &[Node],
    ) -> Result<(), AllocError> {
        self.step(
            "Stop one Sentinel, and compare its file with the one that was read here (`cmp`).",
        )?;
        self.step(PUT_ONE)?;
        self.edits(change, come, gone)?;
        self.step(START_ONE)?;
        self.step("Go on with the next one. The others guard meanwhile: 0 s without a guard.")
    }

    /// Adds what is to be seen of a master that comes.
    fn begin_master(&mut self, change: &Change) -> Result<(), AllocError> {
        let Change::AddMaster(new) = change else {
            return Ok(());
        };
        let Some((master, _)) = new.nodes.as_slice().split_first() else {
            return Ok(());
        };
        self.step_at(
            "See that ",
            *master,
            " is a master, and that each of its replicas follows it (`ROLE`).",
        )
    }

    /// Adds what becomes of a master that goes.
    fn end_master(&mut self, change: &Change) -> Result<(), AllocError> {
        let Change::RemoveMaster(name) = change else {
            return Ok(());
        };
        let name = name_text(name);
        let words = format!(in self.alloc;
            "The servers of master {name} go on, and nobody guards them any more."
        )?;
        self.step(words.as_str())
    }

    /// Adds what is done with the file of a Sentinel that goes.
    fn end_sentinel(&mut self, gone: Option<Member>) -> Result<(), AllocError> {
        match gone {
            Some(member) => self.step_at(
                "Destroy the file of the Sentinel ",
                member.addr,
                " that went: one that comes back with it would be given votes.",
            ),
            None => Ok(()),
        }
    }

    /// Adds all steps of a change.
    pub(crate) fn add(
        &mut self,
        change: &Change,
        order: Order,
        old: &Conf,
        new: &Conf,
    ) -> Result<(), AllocError> {
        let come = nodes_beside(self.alloc, new, old)?;
        let gone = nodes_beside(self.alloc, old, new)?;
        self.line(match order {
            Order::AllAtOnce => WHY_ALL,
            Order::AllMended => WHY_MENDED,
            Order::OneByOne => WHY_EACH,
        })?;
        self.begin_master(change)?;
        self.start_nodes(&come)?;
        match order {
            Order::OneByOne => {
                self.demote_nodes(&gone)?;
                self.give_each(change, &come, &gone)?;
            }
            _ => self.give_all(longest_down_after(new))?,
        }
        self.promote_nodes(&come)?;
        self.end_nodes(&gone)?;
        self.end_master(change)?;
        self.end_sentinel(gone_of(old, new))
    }
}

/// The Sentinel that the old file names and the new one doesn't.
fn gone_of(old: &Conf, new: &Conf) -> Option<Member> {
    let news = new.roster().sentinels();
    for member in old.roster().sentinels() {
        if !news.iter().any(|it| it.id.is_same(&member.id)) {
            return Some(*member);
        }
    }
    None
}

/// The longest `down-after-milliseconds` of the file's masters.
fn longest_down_after(conf: &Conf) -> u64 {
    let mut longest = 0;
    for m in 0..conf.roster().masters().len() {
        if let Ok(number) = u16::try_from(m) {
            if let Some(settings) = conf.settings(number) {
                longest = settings.after_ms.max(longest);
            }
        }
    }
    longest
}
