//! The lines of a rewritten file.

ghost use Rattle.std.specs.Prelude.{◌≡◌, ◌∷◌, ◌++◌, decimal};
ghost use Rattle.conf_lines.specs.declared.lines.StateLine.TheVariants.{CurrentEpoch};
ghost use Rattle.ballot_law.specs.Words.{ip_text, id_text};
ghost use Rattle.conf_lines.specs.Lines.{spelled};
ghost use Rattle.sentinel_conf.specs.Rewritten.{text_of, candidate_states, replica_states, sentinel_states};
ghost use Rattle.sentinel_conf.specs.Fixed.{with_fixed, all_with_fixed};
ghost use Rattle.conf_lines.specs.Words.{ended};
ghost use Rattle.sentinel_conf.specs.Room.{bounded};

use crate::conf_text::ConfText;
use crate::fixed_lines::FixedLines;
use ballot_law::{Addr, KeptMaster, Member, Name, Roster, RunId, Text, Watched};
use conf_lines::StateLine;
use itoa::Buffer;
use tokens::{ip_text, run_id_text};

/// Adds a word after a space.
#[tactic(auto, using(crate::proofs::RoomLemmas::added_both))]
fn add_word(out: &mut ConfText, word: &[u8])
    ensures { out.new ≡ bounded (out.old ++ 32 ∷ word.now) }
{
    out.add_byte(b' ');
    out.add(word);
}

/// Adds a number after a space.
fn add_number(out: &mut ConfText, number: u64)
    ensures { out.new ≡ bounded (out.old ++ 32 ∷ decimal number) }
{
    let mut buffer = Buffer::new();
    add_word(out, buffer.format(number).as_bytes());
}

/// Adds a run id after a space.
fn add_id(out: &mut ConfText, id: RunId)
    ensures { out.new ≡ bounded (out.old ++ 32 ∷ id_text id) }
{
    add_word(out, &run_id_text(id));
}

/// Adds an ip and a port, each after a space.
#[tactic(auto, using(crate::proofs::RoomLemmas::added_both))]
fn add_addr(out: &mut ConfText, addr: Addr)
    ensures { out.new ≡ bounded (out.old ++ 32 ∷ (ip_text addr.ip ++ 32 ∷ decimal addr.port)) }
{
    add_word(out, &ip_text(addr.ip));
    add_number(out, u64::from(addr.port));
}

/// Adds a name, an ip and a port, each after a space.
#[tactic(auto, using(crate::proofs::RoomLemmas::added_both))]
fn add_node(out: &mut ConfText, name: &Name, addr: Addr)
    ensures { out.new ≡ bounded (out.old
        ++ 32 ∷ (name.now ++ 32 ∷ (ip_text addr.ip ++ 32 ∷ decimal addr.port))) }
{
    add_word(out, name.as_slice());
    add_addr(out, addr);
}

/// Adds a name and an epoch, each after a space.
#[tactic(auto, using(crate::proofs::RoomLemmas::added_both))]
fn add_epoch(out: &mut ConfText, name: &Name, epoch: u64)
    ensures { out.new ≡ bounded (out.old ++ 32 ∷ (name.now ++ 32 ∷ decimal epoch)) }
{
    add_word(out, name.as_slice());
    add_number(out, epoch);
}

/// Adds a name and a run id, each after a space.
#[tactic(auto, using(crate::proofs::RoomLemmas::added_both))]
fn add_candidate(out: &mut ConfText, name: &Name, id: RunId)
    ensures { out.new ≡ bounded (out.old ++ 32 ∷ (name.now ++ 32 ∷ id_text id)) }
{
    add_word(out, name.as_slice());
    add_id(out, id);
}

/// Adds a state line without its end.
#[tactic(auto, using(crate::proofs::RoomLemmas::added_both))]
fn add_spelled(out: &mut ConfText, state: &StateLine)
    ensures { out.new ≡ bounded (out.old ++ spelled state.now) }
{
    match state {
        StateLine::MyId(id) => {
            out.add(b"sentinel myid");
            add_id(out, *id);
        }
        StateLine::CurrentEpoch(epoch) => {
            out.add(b"sentinel current-epoch");
            add_number(out, *epoch);
        }
        StateLine::Monitor { name, addr, quorum } => {
            out.add(b"sentinel monitor");
            add_node(out, name, *addr);
            add_number(out, u64::from(*quorum));
        }
        StateLine::ConfigEpoch { name, epoch } => {
            out.add(b"sentinel config-epoch");
            add_epoch(out, name, *epoch);
        }
        StateLine::LeaderEpoch { name, epoch } => {
            out.add(b"sentinel leader-epoch");
            add_epoch(out, name, *epoch);
        }
        StateLine::LeaderId { name, id } => {
            out.add(b"sentinel leader-id");
            add_candidate(out, name, *id);
        }
        StateLine::KnownReplica { name, addr } => {
            out.add(b"sentinel known-replica");
            add_node(out, name, *addr);
        }
        StateLine::KnownSentinel { name, addr, id } => {
            out.add(b"sentinel known-sentinel");
            add_node(out, name, *addr);
            add_id(out, *id);
        }
    }
}

/// Adds a state line, ended by LF.
#[tactic(auto, using(crate::proofs::RoomLemmas::added_both))]
pub fn add_state(out: &mut ConfText, state: &StateLine)
    ensures { out.new ≡ bounded (out.old ++ ended (spelled state.now)) }
{
    add_spelled(out, state);
    out.add_byte(b'\n');
}

/// Adds the line of the candidate of a master's last vote, where there is one.
fn add_leader_id(out: &mut ConfText, name: Name, candidate: Option<RunId>)
    ensures { bounded out.new ≡ bounded (out.old ++ text_of (candidate_states name candidate)) }
{
    if let Some(id) = candidate {
        add_state(out, &StateLine::LeaderId { name, id });
    }
}

/// Adds the replica lines of a master whose address is `at`.
pub fn add_replicas(out: &mut ConfText, name: &Name, nodes: &[Addr], at: Addr)
    ensures { bounded out.new
        ≡ bounded (out.old ++ text_of (replica_states name.now at nodes.now)) }
{
    let mut rest = nodes;
    while let [addr, more @ ..] = rest {
        if !at.is_same(addr) {
            add_state(
                out,
                &StateLine::KnownReplica {
                    name: *name,
                    addr: *addr,
                },
            );
        }
        rest = more;
    }
}

/// Adds the Sentinel lines of a master, but for the Sentinel with this run id.
pub fn add_sentinels(out: &mut ConfText, name: &Name, id: RunId, members: &[Member])
    ensures { bounded out.new
        ≡ bounded (out.old ++ text_of (sentinel_states name.now id members.now)) }
{
    let mut rest = members;
    while let [member, more @ ..] = rest {
        if !id.is_same(&member.id) {
            add_state(
                out,
                &StateLine::KnownSentinel {
                    name: *name,
                    addr: member.addr,
                    id: member.id,
                },
            );
        }
        rest = more;
    }
}

/// Adds the state lines of one master, of which those of the other Sentinels are spelled already.
fn add_master(out: &mut ConfText, master: &Watched, kept: &KeptMaster, sentinels: &Text)
    ensures { bounded out.new
        ≡ bounded (out.old ++ with_fixed (master.now, (kept.now, sentinels.now))) }
{
    let name = master.name;
    let addr = kept.card.addr;
    let quorum = master.quorum;
    add_state(out, &StateLine::Monitor { name, addr, quorum });
    let epoch = kept.card.epoch;
    add_state(out, &StateLine::ConfigEpoch { name, epoch });
    let epoch = kept.voted;
    add_state(out, &StateLine::LeaderEpoch { name, epoch });
    add_leader_id(out, name, kept.candidate);
    add_replicas(out, &name, master.nodes(), addr);
    out.add(sentinels.as_slice());
}

/// Adds the state lines of each master.
fn add_masters(out: &mut ConfText, masters: &[Watched], kept: &[KeptMaster], sentinels: &[Text])
    ensures { bounded out.new
        ≡ bounded (out.old ++ all_with_fixed masters.now kept.now sentinels.now) }
{
    let mut rest = masters;
    let mut held = kept;
    let mut fixed = sentinels;
    while let [master, more @ ..] = rest {
        let [first, others @ ..] = held else {
            return;
        };
        let [lines, behind @ ..] = fixed else {
            return;
        };
        add_master(out, master, first, lines);
        rest = more;
        held = others;
        fixed = behind;
    }
}

/// Adds a rewritten file: the kept lines as they are, then the state lines.
pub fn add_file(
    out: &mut ConfText,
    kept_lines: &[u8],
    fixed: &FixedLines,
    roster: &Roster,
    current: u64,
    masters: &[KeptMaster],
)
    ensures { bounded out.new ≡ bounded (out.old ++ (kept_lines.now ++ (fixed.now.own
        ++ (ended (spelled (CurrentEpoch current))
        ++ all_with_fixed roster.now.masters masters.now fixed.now.sentinels)))) }
{
    out.add(kept_lines);
    out.add(fixed.own());
    add_state(out, &StateLine::CurrentEpoch(current));
    add_masters(out, roster.masters(), masters, fixed.sentinels());
}
