//! What is told of a group.

ghost use Rattle.std.specs.Prelude.{◌≡◌, ◌⊎◌, ◌++◌, [], IfOk, OnOk, IsTrue, IsFalse};
ghost use Rattle.conf_check.specs.declared.group.report.NamedConf.{NamedConf};
ghost use Rattle.conf_check.specs.Group.Groups.{IsOneGroup};
ghost use Rattle.ballot_law.specs.Rosters.{size};
ghost use Rattle.conf_check.specs.Group.Verdicts.{EndsWithVerdict, verdict, EndsWithPlace, place_words};

use crate::group::differences::{Difference, difference_of};
use crate::group::one_group::{HoldsConf, is_one_group};
use ballot_law::{Addr, Name, NoMemory, Roster, RunId};
use sentinel_conf::Conf;
use std::alloc::Global;
use tokens::{add_number, ip_text, run_id_text};

/// A conf with the name of its file.
#[derive(Drop)]
pub struct NamedConf {
    pub name: String,
    pub conf: Conf,
}

impl HoldsConf for NamedConf {
    ghost conf_of = { λ file. file.conf };

    fn conf(&self) -> &Conf {
        &self.conf
    }
}

/// Lines that tell of a group, and whether it would be refused.
#[derive(Drop)]
pub struct Report {
    lines: Lines,
    refused: bool,
}

impl Report {
    /// What these files make, in the roster's order: each Sentinel with its file, each master with its quorum and the
    /// votes that it needs, each data node, and what is wrong. The roster is that of the first file. They are refused
    /// if, and only if, there are some and they aren't those of one group. `NoMemory` leaves nothing.
    pub fn of(alloc: Global, files: &[NamedConf]) -> Result<Report, NoMemory>
        ensures refused { IfOk result (λ report. IsTrue report.refused → ¬ (IsOneGroup (λ (file : NamedConf). file.conf) files.now)) }
        ensures other { IfOk result (λ report. IsFalse report.refused → (files.now ≡ []) ⊎ IsOneGroup (λ (file : NamedConf). file.conf) files.now) }
        ensures verdict { IfOk result (λ report. EndsWithVerdict files.now report.refused report.lines.text.items) }
    {
        let refused = is_refused(files);
        let lines = Lines::of(alloc, files, refused)?;
        Ok(Report { lines, refused })
    }

    /// What one file by itself makes of its group: as above, each other Sentinel without a file. It isn't refused, and
    /// the last line says of how many Sentinels its own is one. `NoMemory` leaves nothing.
    pub fn of_one(alloc: Global, file: &NamedConf) -> Result<Report, NoMemory>
        ensures taken { IfOk result (λ report. IsFalse report.refused) }
        ensures place { IfOk result (λ report. EndsWithPlace (size file.now.conf.roster) report.lines.text.items) }
    {
        let lines = Lines::of_one(alloc, file)?;
        Ok(Report {
            lines,
            refused: false,
        })
    }

    /// The lines, each ended by LF; the last one says whether the group would be refused.
    pub fn text(&self) -> &[u8]
        ensures { result.now ≡ self.now.lines.text.items }
    {
        self.lines.text.as_slice()
    }

    /// Whether the group would be refused.
    pub fn is_refused(&self) -> bool
        ensures { result ≡ self.now.refused }
    {
        self.refused
    }
}

/// Whether there are files, and they aren't those of one group.
fn is_refused(files: &[NamedConf]) -> bool
    ensures refused { IsTrue result → ¬ (IsOneGroup (λ (file : NamedConf). file.conf) files.now) }
    ensures other { IsFalse result → (files.now ≡ []) ⊎ IsOneGroup (λ (file : NamedConf). file.conf) files.now }
{
    if files.is_empty() {
        return false;
    }
    !is_one_group(files)
}

/// The lines of a report.
#[derive(Drop)]
struct Lines {
    text: Vec<u8>,
}

impl Lines {
    /// What is told of these files, which are refused or not.
    fn of(alloc: Global, files: &[NamedConf], refused: bool) -> Result<Lines, NoMemory>
        ensures { IfOk result (λ lines. EndsWithVerdict files.now refused lines.text.items) }
    {
        let mut lines = Lines {
            text: Vec::new(alloc),
        };
        let Some(first) = files.first() else {
            return Ok(lines);
        };
        lines.add_sentinels(first.conf.roster(), files)?;
        lines.add_masters(&first.conf)?;
        lines.add_differences(first, files)?;
        lines.add_verdict(refused)?;
        Ok(lines)
    }

    /// What is told of one file.
    fn of_one(alloc: Global, file: &NamedConf) -> Result<Lines, NoMemory>
        ensures { IfOk result (λ lines. EndsWithPlace (size file.now.conf.roster) lines.text.items) }
    {
        let mut lines = Lines {
            text: Vec::new(alloc),
        };
        lines.add_members(file)?;
        lines.add_masters(&file.conf)?;
        lines.add_place(file.conf.roster().sentinels().len() as u64)?;
        Ok(lines)
    }

    /// Adds words.
    fn add(&mut self, words: &str) -> Result<(), NoMemory>
        ensures { OnOk result (self.new.text.items ≡ self.old.text.items ++ words.now) }
    {
        self.text.extend_from_slice(words.as_bytes())?;
        Ok(())
    }

    /// Adds a number.
    fn add_number(&mut self, number: u64) -> Result<(), NoMemory> {
        add_number(&mut self.text, number)
    }

    /// Adds a name.
    fn add_name(&mut self, name: &Name) -> Result<(), NoMemory> {
        self.text.extend_from_slice(name.as_slice())?;
        Ok(())
    }

    /// Adds an address.
    fn add_addr(&mut self, addr: Addr) -> Result<(), NoMemory> {
        self.text.extend_from_slice(ip_text(addr.ip).as_slice())?;
        self.add(":")?;
        self.add_number(u64::from(addr.port))
    }

    /// Adds a run id.
    fn add_id(&mut self, id: RunId) -> Result<(), NoMemory> {
        self.text.extend_from_slice(run_id_text(id).as_slice())?;
        Ok(())
    }

    /// Adds each Sentinel with its files.
    fn add_sentinels(&mut self, roster: &Roster, files: &[NamedConf]) -> Result<(), NoMemory> {
        for place in 0..roster.sentinels().len() {
            self.add_member(roster, place)?;
            self.add_files(place, files)?;
        }
        Ok(())
    }

    /// Adds each Sentinel of a file, its own with the file's name.
    fn add_members(&mut self, file: &NamedConf) -> Result<(), NoMemory> {
        let roster = file.conf.roster();
        for place in 0..roster.sentinels().len() {
            self.add_member(roster, place)?;
            if file.conf.place() as usize == place {
                self.add(", file ")?;
                self.add(file.name.as_str())?;
            }
            self.add("\n")?;
        }
        Ok(())
    }

    /// Begins the line of the Sentinel at this place, where there is one.
    fn add_member(&mut self, roster: &Roster, place: usize) -> Result<(), NoMemory> {
        let Some(member) = roster.sentinels().get(place) else {
            return Ok(());
        };
        self.add("sentinel s")?;
        self.add_number(place as u64)?;
        self.add(": ")?;
        self.add_id(member.id)?;
        self.add(" at ")?;
        self.add_addr(member.addr)
    }

    /// Ends the line of a Sentinel with the names of its files; it is to have one.
    fn add_files(&mut self, place: usize, files: &[NamedConf]) -> Result<(), NoMemory> {
        let mut count: u32 = 0;
        for file in files {
            if file.conf.place() as usize == place {
                count = count.saturating_add(1);
                self.add(", file ")?;
                self.add(file.name.as_str())?;
            }
        }
        if count == 1 {
            return self.add("\n");
        }
        if count == 0 {
            self.add(": no file is its own\n")
        } else {
            self.add(": more than one file is its own\n")
        }
    }

    /// Adds each master with its data nodes.
    fn add_masters(&mut self, conf: &Conf) -> Result<(), NoMemory> {
        let masters = conf.roster().masters();
        let mut number = 0;
        for m in 0..masters.len() {
            self.add_master(conf, m)?;
            number = self.add_nodes(conf, m, number)?;
        }
        Ok(())
    }

    /// Adds a master: its quorum, the votes that it needs, and when it counts as down.
    fn add_master(&mut self, conf: &Conf, m: usize) -> Result<(), NoMemory> {
        let (Some(master), Ok(number)) = (conf.roster().masters().get(m), u16::try_from(m)) else {
            return Ok(());
        };
        self.add("master ")?;
        self.add_name(&master.name)?;
        self.add(": quorum ")?;
        self.add_number(u64::from(master.quorum))?;
        self.add(", elected by ")?;
        self.add_number(u64::from(conf.roster().need(number)))?;
        self.add(" of ")?;
        self.add_number(conf.roster().sentinels().len() as u64)?;
        if let Some(settings) = conf.settings(number) {
            self.add(", down after ")?;
            self.add_number(settings.after_ms)?;
            self.add(" ms")?;
        }
        self.add("\n")
    }

    /// Adds the data nodes of a master, which are numbered from there on; the number of the next one.
    fn add_nodes(&mut self, conf: &Conf, m: usize, number: u64) -> Result<u64, NoMemory> {
        let Some(master) = conf.roster().masters().get(m) else {
            return Ok(number);
        };
        let mut next = number;
        for addr in master.nodes() {
            self.add("node d")?;
            self.add_number(next)?;
            self.add(": ")?;
            self.add_addr(*addr)?;
            self.add_role(conf, m, *addr)?;
            next = next.saturating_add(1);
        }
        Ok(next)
    }

    /// Ends the line of a data node with its role.
    fn add_role(&mut self, conf: &Conf, m: usize, addr: Addr) -> Result<(), NoMemory> {
        match conf.kept().masters.as_slice().get(m) {
            Some(kept) if kept.card.addr == addr => {
                self.add(", the master since epoch ")?;
                self.add_number(kept.card.epoch)?;
                self.add("\n")
            }
            _ => self.add(", a replica\n"),
        }
    }

    /// Adds in what each file differs from the first one.
    fn add_differences(&mut self, first: &NamedConf, files: &[NamedConf]) -> Result<(), NoMemory> {
        for file in files {
            if let Some(difference) = difference_of(&first.conf, &file.conf) {
                self.add(first.name.as_str())?;
                self.add(" and ")?;
                self.add(file.name.as_str())?;
                self.add(" differ in ")?;
                self.add_difference(difference)?;
            }
        }
        Ok(())
    }

    /// Ends the line of two files with that in which they differ.
    fn add_difference(&mut self, difference: Difference) -> Result<(), NoMemory> {
        match difference {
            Difference::Sentinels => self.add("the Sentinels\n"),
            Difference::Masters => self.add("the masters\n"),
            Difference::Nodes(name) => self.add_of("the data nodes of ", &name),
            Difference::Quorum(name) => self.add_of("the quorum of ", &name),
            Difference::Start(name) => self.add_of("the address or the epoch of ", &name),
        }
    }

    /// Ends a line with something of a master.
    fn add_of(&mut self, what: &str, name: &Name) -> Result<(), NoMemory> {
        self.add(what)?;
        self.add_name(name)?;
        self.add("\n")
    }

    /// Adds whether the group would run.
    fn add_verdict(&mut self, refused: bool) -> Result<(), NoMemory>
        ensures { OnOk result (self.new.text.items ≡ self.old.text.items ++ verdict refused) }
    {
        if refused {
            self.add("these files are refused: they are not those of one group\n")
        } else {
            self.add("these files are those of one group\n")
        }
    }

    /// Adds of how many Sentinels the file's own is one.
    fn add_place(&mut self, sentinels: u64) -> Result<(), NoMemory>
        ensures { OnOk result (self.new.text.items ≡ self.old.text.items ++ place_words sentinels) }
    {
        self.add("this file is well; it is one of ")?;
        add_number(&mut self.text, sentinels)?;
        self.add(" of its group\n")
    }
}
