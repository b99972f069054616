//! The answers that show rows, in redis-sentinel's words: its fields, in its order.

ghost use Rattle.std.specs.Prelude.{◌≡◌, [], ◌∷◌, ◌++◌, codes, decimal};
ghost use Rattle.resp2.specs.Framing.Frame.{spelling};
ghost use Rattle.port_answers.specs.Room.{bounded};
ghost use Rattle.port_answers.specs.Answers.{fields_text};
ghost use Rattle.port_answers.specs.RedisRows.{id_words, role_name, stage_name, link_name, yes_or_no, one_if, field_if, head_fields, ping_fields, after_fields, said_fields, setting_fields, host_fields, link_fields, offer_fields, leader_name, vote_fields, redis_master_frame, redis_replica_frame, redis_sentinel_frame, redis_quorum_reached, redis_no_quorum, shortfall};

use crate::answer_text::AnswerText;
use crate::fields::addr_text;
use crate::known_rows::{ContactRow, FailoverStage, LinkRow, SaidRow};
use crate::row_answers::{master_flags, replica_flags, sentinel_flags};
use crate::rows::{MasterRow, ReplicaRow, SentinelRow};
use arrayvec::ArrayVec;
use ballot_law::{Addr, DataRole, RunId};
use itoa::Buffer;
use tokens::{ip_text, run_id_text};

/// How many fields a master, a replica and a Sentinel always show.
const MASTER_FIELDS: u64 = 20;

const REPLICA_FIELDS: u64 = 21;

const SENTINEL_FIELDS: u64 = 14;

/// A run id; no text where it isn't known.
fn id_words(id: Option<RunId>) -> ArrayVec<u8, 40>
    ensures { result.items ≡ id_words id }
{
    match id {
        Some(id) => run_id_text(id),
        None => ArrayVec::new(),
    }
}

/// The name of a role.
fn role_name(role: DataRole) -> &'static [u8]
    ensures { result.now ≡ role_name role }
{
    match role {
        DataRole::Master => b"master",
        DataRole::Replica => b"slave",
    }
}

/// How far a failover is.
fn stage_name(stage: FailoverStage) -> &'static [u8]
    ensures { result.now ≡ stage_name stage }
{
    match stage {
        FailoverStage::NoFailover => b"none",
        FailoverStage::WaitStart => b"wait_start",
        FailoverStage::SelectReplica => b"select_slave",
        FailoverStage::SendPromotion => b"send_slaveof_noone",
        FailoverStage::WaitPromotion => b"wait_promotion",
        FailoverStage::ReconfReplicas => b"reconf_slaves",
        FailoverStage::UpdateConfig => b"update_config",
    }
}

/// The state of a replica's link to its master.
fn link_name(up: bool) -> &'static [u8]
    ensures { result.now ≡ link_name up }
{
    if up { b"ok" } else { b"err" }
}

/// 1 or 0.
fn yes_or_no(is_so: bool) -> &'static [u8]
    ensures { result.now ≡ yes_or_no is_so }
{
    if is_so { b"1" } else { b"0" }
}

/// How many fields show something that holds or doesn't.
fn one_if(is_so: bool) -> u64
    ensures value { result ≡ one_if is_so }
{
    if is_so { 1 } else { 0 }
}

/// Why so many Sentinels aren't enough for a failover.
fn shortfall(few_for_quorum: bool, few_for_majority: bool) -> &'static [u8]
    ensures { result.now ≡ shortfall few_for_quorum few_for_majority }
{
    match (few_for_quorum, few_for_majority) {
        (true, true) =>
            b" usable Sentinels. Not enough available Sentinels to reach the specified quorum for this master. \
Not enough available Sentinels to reach the majority and authorize a failover",
        (true, false) =>
            b" usable Sentinels. Not enough available Sentinels to reach the specified quorum for this master",
        (false, true) =>
            b" usable Sentinels. Not enough available Sentinels to reach the majority and authorize a failover",
        (false, false) => b" usable Sentinels. ",
    }
}

impl AnswerText {
    /// Adds a field where something holds.
    fn add_field_if(&mut self, is_so: bool, name: &[u8], value: &[u8])
        ensures { self.new ≡ bounded (self.old ++ fields_text (field_if is_so name.now value.now)) }
    {
        if is_so {
            self.add_field(name, value);
        } else {
            self.add(b"");
        }
    }

    /// Adds a number of milliseconds where something holds.
    fn add_time_if(&mut self, is_so: bool, name: &[u8], ms: u64)
        ensures { self.new ≡ bounded (self.old ++ fields_text (field_if is_so name.now (decimal ms))) }
    {
        let mut buffer = Buffer::new();
        self.add_field_if(is_so, name, buffer.format(ms).as_bytes());
    }

    /// Adds the fields with which each row begins.
    fn add_head(&mut self, name: &[u8], addr: Addr, id: &[u8], flags: &[u8], shared: u64)
        ensures { self.new ≡ bounded (self.old ++ fields_text (head_fields name.now addr id.now flags.now shared)) }
    {
        self.add_field(b"name", name);
        self.add_addr(addr);
        self.add_field(b"runid", id);
        self.add_field(b"flags", flags);
        self.add_field(b"link-pending-commands", b"0");
        self.add_number(b"link-refcount", shared);
    }

    /// Adds when a node replied.
    fn add_pings(&mut self, contact: ContactRow)
        ensures { self.new ≡ bounded (self.old ++ fields_text (ping_fields contact)) }
    {
        self.add_number(b"last-ping-sent", contact.ping_ms);
        self.add_number(b"last-ok-ping-reply", contact.valid_ms);
        self.add_number(b"last-ping-reply", contact.reply_ms);
    }

    /// Adds after how long a node is down.
    fn add_after(&mut self, after_ms: u64)
        ensures { self.new ≡ bounded (self.old ++ fields_text (after_fields after_ms)) }
    {
        self.add_number(b"down-after-milliseconds", after_ms);
    }

    /// Adds what a data node's INFO said of the node.
    fn add_said(&mut self, said: SaidRow)
        ensures { self.new ≡ bounded (self.old ++ fields_text (said_fields said)) }
    {
        self.add_number(b"info-refresh", said.info_ms);
        self.add_field(b"role-reported", role_name(said.role));
        self.add_number(b"role-reported-time", said.role_ms);
    }

    /// Adds what holds of a master alone.
    fn add_settings(&mut self, row: &MasterRow)
        ensures { self.new ≡ bounded (self.old ++ fields_text (setting_fields row.now)) }
    {
        self.add_number(b"config-epoch", row.epoch);
        self.add_number(b"num-slaves", row.replicas);
        self.add_number(b"num-other-sentinels", row.others);
        self.add_number(b"quorum", u64::from(row.quorum));
        self.add_number(b"failover-timeout", row.timeout);
        self.add_number(b"parallel-syncs", row.parallel_syncs);
    }

    /// Adds the address of a replica's master.
    fn add_host(&mut self, master: Option<Addr>)
        ensures { self.new ≡ bounded (self.old ++ fields_text (host_fields master)) }
    {
        match master {
            Some(addr) => {
                self.add_field(b"master-host", ip_text(addr.ip).as_slice());
                self.add_number(b"master-port", u64::from(addr.port));
            }
            None => {
                self.add_field(b"master-host", b"?");
                self.add_field(b"master-port", b"0");
            }
        }
    }

    /// Adds what a replica's INFO said of its master.
    fn add_link(&mut self, link: LinkRow)
        ensures { self.new ≡ bounded (self.old ++ fields_text (link_fields link)) }
    {
        self.add_number(b"master-link-down-time", link.down_ms);
        self.add_field(b"master-link-status", link_name(link.up));
        self.add_host(link.master);
    }

    /// Adds what a replica's INFO said of it as one to be promoted or read from.
    fn add_offer(&mut self, priority: u64, offset: u64, announced: bool)
        ensures { self.new ≡ bounded (self.old ++ fields_text (offer_fields priority offset announced)) }
    {
        self.add_number(b"slave-priority", priority);
        self.add_number(b"slave-repl-offset", offset);
        self.add_field(b"replica-announced", yes_or_no(announced));
    }

    /// Adds the candidate that a vote was for.
    fn add_leader(&mut self, leader: Option<RunId>)
        ensures { self.new ≡ bounded (self.old ++ fields_text ((codes "voted-leader", leader_name leader) ∷ [])) }
    {
        match leader {
            Some(id) => self.add_run_id(b"voted-leader", id),
            None => self.add_field(b"voted-leader", b"?"),
        }
    }

    /// Adds what was heard of another Sentinel.
    fn add_vote(&mut self, row: &SentinelRow)
        ensures { self.new ≡ bounded (self.old ++ fields_text (vote_fields row.now)) }
    {
        self.add_number(b"last-hello-message", row.hello_ms);
        self.add_leader(row.leader);
        self.add_number(b"voted-leader-epoch", row.leader_epoch);
    }

    /// Adds the answer that shows a master, as redis-sentinel's SENTINEL MASTER. What has no room is cut.
    pub fn add_redis_master(&mut self, row: &MasterRow)
        ensures { self.new ≡ bounded (self.old ++ spelling (redis_master_frame row.now)) }
    {
        let fields = MASTER_FIELDS
            + one_if(row.failing_over)
            + one_if(row.down)
            + one_if(row.odown);
        self.add_count(fields * 2);
        let id = id_words(row.said.id);
        self.add_head(
            row.name.as_slice(),
            row.addr,
            id.as_slice(),
            master_flags(row),
            1,
        );
        self.add_field_if(row.failing_over, b"failover-state", stage_name(row.stage));
        self.add_pings(row.contact);
        self.add_time_if(row.down, b"s-down-time", row.contact.down_ms);
        self.add_time_if(row.odown, b"o-down-time", row.odown_ms);
        self.add_after(row.after_ms);
        self.add_said(row.said);
        self.add_settings(row);
    }

    /// Adds the answer that shows a replica, as redis-sentinel's SENTINEL REPLICAS has it. What has no room is cut.
    pub fn add_redis_replica(&mut self, row: &ReplicaRow)
        ensures { self.new ≡ bounded (self.old ++ spelling (redis_replica_frame row.now)) }
    {
        self.add_count((REPLICA_FIELDS + one_if(row.down)) * 2);
        let name = addr_text(row.addr);
        let id = id_words(row.said.id);
        let flags = replica_flags(row.down, row.disconnected);
        self.add_head(name.as_slice(), row.addr, id.as_slice(), flags, 1);
        self.add_pings(row.contact);
        self.add_time_if(row.down, b"s-down-time", row.contact.down_ms);
        self.add_after(row.after_ms);
        self.add_said(row.said);
        self.add_link(row.link);
        self.add_offer(row.priority, row.offset, row.link.announced);
    }

    /// Adds the answer that shows a Sentinel, as redis-sentinel's SENTINEL SENTINELS has it. What has no room is cut.
    pub fn add_redis_sentinel(&mut self, row: &SentinelRow)
        ensures { self.new ≡ bounded (self.old ++ spelling (redis_sentinel_frame row.now)) }
    {
        self.add_count((SENTINEL_FIELDS + one_if(row.down)) * 2);
        let id = run_id_text(row.id);
        let flags = sentinel_flags(row.down, row.disconnected);
        self.add_head(id.as_slice(), row.addr, id.as_slice(), flags, row.masters);
        self.add_pings(row.contact);
        self.add_time_if(row.down, b"s-down-time", row.contact.down_ms);
        self.add_after(row.after_ms);
        self.add_vote(row);
    }

    /// Adds redis-sentinel's answer that so many Sentinels can be reached, which is enough for a failover. What has no
    /// room is cut.
    pub fn add_redis_quorum_reached(&mut self, usable: u64)
        ensures { self.new ≡ bounded (self.old ++ spelling (redis_quorum_reached usable)) }
    {
        self.add_counted(
            b"+OK ",
            usable,
            b" usable Sentinels. Quorum and failover authorization can be reached",
        );
    }

    /// Adds redis-sentinel's answer that so many Sentinels can be reached, which isn't enough for a failover, of so
    /// many and at this quorum. What has no room is cut.
    pub fn add_redis_no_quorum(&mut self, usable: u64, quorum: u64, sentinels: u64)
        ensures { self.new ≡ bounded (self.old ++ spelling (redis_no_quorum usable quorum sentinels)) }
    {
        let why = shortfall(usable < quorum, usable < sentinels / 2 + 1);
        self.add_counted(b"-NOQUORUM ", usable, why);
    }
}
