//! The answers that show rows.

ghost use Rattle.std.specs.Prelude.{◌≡◌, ◌++◌, true, false, codes};
ghost use Rattle.resp2.specs.Framing.Frame.{spelling};
ghost use Rattle.port_answers.specs.Room.{bounded};
ghost use Rattle.port_answers.specs.Answers.{node_flags, master_flags, header, master_frame, replica_frame, sentinel_frame};

use crate::answer_text::AnswerText;
use crate::rows::{MasterRow, ReplicaRow, SentinelRow};

/// How many bulk strings show a master.
const MASTER_ITEMS: u64 = 22;

/// How many bulk strings show a replica.
const REPLICA_ITEMS: u64 = 12;

/// How many bulk strings show a Sentinel.
const SENTINEL_ITEMS: u64 = 10;

/// The flags of a master to which there is a connection.
fn connected_flags(down: bool, odown: bool, failing_over: bool) -> &'static [u8]
    ensures { result.now ≡ master_flags down odown false failing_over }
{
    match (down, odown, failing_over) {
        (false, false, false) => b"master",
        (false, false, true) => b"master,failover_in_progress",
        (false, true, false) => b"o_down,master",
        (false, true, true) => b"o_down,master,failover_in_progress",
        (true, false, false) => b"s_down,master",
        (true, false, true) => b"s_down,master,failover_in_progress",
        (true, true, false) => b"s_down,o_down,master",
        (true, true, true) => b"s_down,o_down,master,failover_in_progress",
    }
}

/// The flags of a master to which the connection was lost.
fn lost_flags(down: bool, odown: bool, failing_over: bool) -> &'static [u8]
    ensures { result.now ≡ master_flags down odown true failing_over }
{
    match (down, odown, failing_over) {
        (false, false, false) => b"master,disconnected",
        (false, false, true) => b"master,disconnected,failover_in_progress",
        (false, true, false) => b"o_down,master,disconnected",
        (false, true, true) => b"o_down,master,disconnected,failover_in_progress",
        (true, false, false) => b"s_down,master,disconnected",
        (true, false, true) => b"s_down,master,disconnected,failover_in_progress",
        (true, true, false) => b"s_down,o_down,master,disconnected",
        (true, true, true) => b"s_down,o_down,master,disconnected,failover_in_progress",
    }
}

/// The flags of a master.
pub(crate) fn master_flags(row: &MasterRow) -> &'static [u8]
    ensures { result.now ≡ master_flags row.now.down row.now.odown row.now.disconnected row.now.failing_over }
{
    if row.disconnected {
        return lost_flags(row.down, row.odown, row.failing_over);
    }
    connected_flags(row.down, row.odown, row.failing_over)
}

/// The flags of a replica.
pub(crate) fn replica_flags(down: bool, disconnected: bool) -> &'static [u8]
    ensures { result.now ≡ node_flags down disconnected (codes "slave") }
{
    match (down, disconnected) {
        (false, false) => b"slave",
        (false, true) => b"slave,disconnected",
        (true, false) => b"s_down,slave",
        (true, true) => b"s_down,slave,disconnected",
    }
}

/// The flags of a Sentinel.
pub(crate) fn sentinel_flags(down: bool, disconnected: bool) -> &'static [u8]
    ensures { result.now ≡ node_flags down disconnected (codes "sentinel") }
{
    match (down, disconnected) {
        (false, false) => b"sentinel",
        (false, true) => b"sentinel,disconnected",
        (true, false) => b"s_down,sentinel",
        (true, true) => b"s_down,sentinel,disconnected",
    }
}

impl AnswerText {
    /// Adds the beginning of an array, behind which so many answers make its items. What has no room is cut.
    pub fn add_count(&mut self, n: u64)
        ensures { self.new ≡ bounded (self.old ++ header n) }
    {
        self.add_size(b'*', n as usize);
    }

    /// Adds the answer that shows a master: the fields that Redis Sentinel's SENTINEL MASTER also has, each name
    /// before its value. What has no room is cut.
    pub fn add_master(&mut self, row: &MasterRow)
        ensures { self.new ≡ bounded (self.old ++ spelling (master_frame row.now)) }
    {
        self.add_count(MASTER_ITEMS);
        self.add_field(b"name", row.name.as_slice());
        self.add_addr(row.addr);
        let flags = master_flags(row);
        self.add_field(b"flags", flags);
        self.add_number(b"num-slaves", row.replicas);
        self.add_number(b"num-other-sentinels", row.others);
        self.add_number(b"quorum", u64::from(row.quorum));
        self.add_number(b"down-after-milliseconds", row.after_ms);
        self.add_number(b"failover-timeout", row.timeout);
        self.add_number(b"parallel-syncs", row.parallel_syncs);
        self.add_number(b"config-epoch", row.epoch);
    }

    /// Adds the answer that shows a replica, as SENTINEL REPLICAS has it. What has no room is cut.
    pub fn add_replica(&mut self, row: &ReplicaRow)
        ensures { self.new ≡ bounded (self.old ++ spelling (replica_frame row.now)) }
    {
        self.add_count(REPLICA_ITEMS);
        self.add_bulk(b"name");
        self.add_addr_text(row.addr);
        self.add_addr(row.addr);
        self.add_field(b"flags", replica_flags(row.down, row.disconnected));
        self.add_number(b"slave-priority", row.priority);
        self.add_number(b"slave-repl-offset", row.offset);
    }

    /// Adds the answer that shows a Sentinel, as SENTINEL SENTINELS has it. What has no room is cut.
    pub fn add_sentinel(&mut self, row: &SentinelRow)
        ensures { self.new ≡ bounded (self.old ++ spelling (sentinel_frame row.now)) }
    {
        self.add_count(SENTINEL_ITEMS);
        self.add_run_id(b"name", row.id);
        self.add_addr(row.addr);
        self.add_run_id(b"runid", row.id);
        self.add_field(b"flags", sentinel_flags(row.down, row.disconnected));
    }
}
