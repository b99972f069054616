//! The bytes of each answer, as a client of the port would see them.

ghost use Rattle.std.specs.Prelude.{◌≤◌, vec_capacity};

use crate::commands::{fault_of, value_of};
use crate::given::{address, id, is_down, is_lost, maybe_id, number, number_32};
use crate::told::{Told, Unplayed};
use ballot_law::{ANSWER_MAX, DataRole, Name};
use port_answers::{
    AnswerText, ContactRow, FailoverStage, InfoSection, LinkRow, MasterLine, MasterRow, ReplicaRow,
    SaidRow, SentinelRow,
};
use std::alloc::Global;

/// What is told of no connection, and of no INFO.
const NO_CONTACT: ContactRow = ContactRow {
    ping_ms: 0,
    valid_ms: 0,
    reply_ms: 0,
    down_ms: 0,
};

const NOTHING_SAID: SaidRow = SaidRow {
    id: None,
    info_ms: 0,
    role: DataRole::Master,
    role_ms: 0,
};

const NO_LINK: LinkRow = LinkRow {
    down_ms: 0,
    up: false,
    master: None,
    announced: true,
};

/// The times that these four words are: of a PING that waits, of the last valid reply, of the last one, and since when
/// the node is down.
fn contact(words: &[Vec<u8>]) -> Result<ContactRow, Unplayed> {
    let [ping_ms, valid_ms, reply_ms, down_ms] = words else {
        return Err(Unplayed::WrongWords);
    };
    Ok(ContactRow {
        ping_ms: number(ping_ms)?,
        valid_ms: number(valid_ms)?,
        reply_ms: number(reply_ms)?,
        down_ms: number(down_ms)?,
    })
}

/// What the INFO of a node said that these four words are: its run id, when it came, its role and since when it has it.
fn said(words: &[Vec<u8>]) -> Result<SaidRow, Unplayed> {
    let [own_id, info_ms, role, role_ms] = words else {
        return Err(Unplayed::WrongWords);
    };
    let role = match role.as_slice() {
        b"master" => DataRole::Master,
        b"slave" => DataRole::Replica,
        _ => return Err(Unplayed::WrongWords),
    };
    Ok(SaidRow {
        id: maybe_id(own_id)?,
        info_ms: number(info_ms)?,
        role,
        role_ms: number(role_ms)?,
    })
}

/// What a replica said of its master that these five words are: for how long its link has been down, whether it is up,
/// the address, and whether it may be told to clients.
fn link(words: &[Vec<u8>]) -> Result<LinkRow, Unplayed> {
    let [down_ms, state, ip, port, announced] = words else {
        return Err(Unplayed::WrongWords);
    };
    let is_known = ip.as_slice() != b"?".as_slice();
    Ok(LinkRow {
        down_ms: number(down_ms)?,
        up: !is_down(state)?,
        master: if is_known {
            Some(address(ip, port)?)
        } else {
            None
        },
        announced: announced.as_slice() == b"1".as_slice(),
    })
}

/// The stage of a failover with this name.
fn stage(word: &[u8]) -> Result<FailoverStage, Unplayed> {
    match word {
        b"none" => Ok(FailoverStage::NoFailover),
        b"votes" => Ok(FailoverStage::WaitStart),
        b"choice" => Ok(FailoverStage::SelectReplica),
        b"order" => Ok(FailoverStage::SendPromotion),
        b"promotion" => Ok(FailoverStage::WaitPromotion),
        b"others" => Ok(FailoverStage::ReconfReplicas),
        b"end" => Ok(FailoverStage::UpdateConfig),
        _ => Err(Unplayed::WrongWords),
    }
}

/// Adds the master that the first eleven words are, in redis-sentinel's words: then come whether enough Sentinels find
/// it down and since when, the stage of its failover, four words of its connection and four of its INFO.
fn add_redis_master(answers: &mut AnswerText, words: &[Vec<u8>]) -> Result<(), Unplayed> {
    if words.len() != 22 {
        return Err(Unplayed::WrongWords);
    }
    let mut row = master(&words[..11])?;
    row.odown = words[11].as_slice() == b"odown".as_slice();
    row.odown_ms = number(&words[12])?;
    row.stage = stage(&words[13])?;
    row.failing_over = row.stage != FailoverStage::NoFailover;
    row.contact = contact(&words[14..18])?;
    row.said = said(&words[18..])?;
    answers.add_redis_master(&row);
    Ok(())
}

/// Adds a replica in redis-sentinel's words: its address, whether it is down, its priority and offset, after how long
/// it is down, four words of its connection, four of its INFO and five of its master.
fn add_redis_replica(answers: &mut AnswerText, words: &[Vec<u8>]) -> Result<(), Unplayed> {
    if words.len() != 19 {
        return Err(Unplayed::WrongWords);
    }
    answers.add_redis_replica(&ReplicaRow {
        addr: address(&words[0], &words[1])?,
        down: is_down(&words[2])?,
        disconnected: is_lost(&words[2]),
        priority: number(&words[3])?,
        offset: number(&words[4])?,
        after_ms: number(&words[5])?,
        contact: contact(&words[6..10])?,
        said: said(&words[10..14])?,
        link: link(&words[14..])?,
    });
    Ok(())
}

/// Adds a Sentinel in redis-sentinel's words: its run id, its address, whether it is down, how many masters it watches,
/// after how long it is down, when its last hello came, its last vote and the epoch of it, and four words of its
/// connection.
fn add_redis_sentinel(answers: &mut AnswerText, words: &[Vec<u8>]) -> Result<(), Unplayed> {
    if words.len() != 13 {
        return Err(Unplayed::WrongWords);
    }
    answers.add_redis_sentinel(&SentinelRow {
        id: id(&words[0])?,
        addr: address(&words[1], &words[2])?,
        down: is_down(&words[3])?,
        disconnected: is_lost(&words[3]),
        masters: number(&words[4])?,
        after_ms: number(&words[5])?,
        hello_ms: number(&words[6])?,
        leader: maybe_id(&words[7])?,
        leader_epoch: number(&words[8])?,
        contact: contact(&words[9..])?,
    });
    Ok(())
}

/// The master that these words are: its name, its address, whether it is down by all accounts and its failover runs,
/// its quorum, and the numbers of its answer in their order.
fn master(words: &[Vec<u8>]) -> Result<MasterRow, Unplayed> {
    let [
        name,
        ip,
        port,
        state,
        quorum,
        replicas,
        others,
        after_ms,
        timeout,
        parallel_syncs,
        epoch,
    ] = words
    else {
        return Err(Unplayed::WrongWords);
    };
    let Some(name) = Name::from_slice(name) else {
        return Err(Unplayed::WrongWords);
    };
    let is_failing = is_down(state)?;
    Ok(MasterRow {
        name,
        addr: address(ip, port)?,
        down: is_failing,
        odown: is_failing,
        disconnected: is_lost(state),
        failing_over: is_failing,
        replicas: number(replicas)?,
        others: number(others)?,
        quorum: number_32(quorum)?,
        after_ms: number(after_ms)?,
        timeout: number(timeout)?,
        parallel_syncs: number(parallel_syncs)?,
        epoch: number(epoch)?,
        odown_ms: 0,
        stage: FailoverStage::NoFailover,
        contact: NO_CONTACT,
        said: NOTHING_SAID,
    })
}

/// Adds a list of replicas, of five words each.
fn add_replicas(answers: &mut AnswerText, words: &[Vec<u8>]) -> Result<(), Unplayed> {
    answers.add_count((words.len() / 5) as u64);
    for replica in words.chunks(5) {
        let [ip, port, state, priority, offset] = replica else {
            return Err(Unplayed::WrongWords);
        };
        answers.add_replica(&ReplicaRow {
            addr: address(ip, port)?,
            down: is_down(state)?,
            disconnected: is_lost(state),
            priority: number(priority)?,
            offset: number(offset)?,
            after_ms: 0,
            contact: NO_CONTACT,
            said: NOTHING_SAID,
            link: NO_LINK,
        });
    }
    Ok(())
}

/// Adds a list of Sentinels, of four words each.
fn add_sentinels(answers: &mut AnswerText, words: &[Vec<u8>]) -> Result<(), Unplayed> {
    answers.add_count((words.len() / 4) as u64);
    for sentinel in words.chunks(4) {
        let [own_id, ip, port, state] = sentinel else {
            return Err(Unplayed::WrongWords);
        };
        answers.add_sentinel(&SentinelRow {
            id: id(own_id)?,
            addr: address(ip, port)?,
            down: is_down(state)?,
            disconnected: is_lost(state),
            masters: 1,
            after_ms: 0,
            hello_ms: 0,
            leader: None,
            leader_epoch: 0,
            contact: NO_CONTACT,
        });
    }
    Ok(())
}

/// What INFO says of a master that these six words are: its name, its address, its status, how many replicas it has and
/// how many Sentinels watch it.
fn master_line(words: &[Vec<u8>]) -> Result<MasterLine, Unplayed> {
    let [name, ip, port, status, replicas, sentinels] = words else {
        return Err(Unplayed::WrongWords);
    };
    let Some(name) = Name::from_slice(name) else {
        return Err(Unplayed::WrongWords);
    };
    let (down, odown) = match status.as_slice() {
        b"ok" => (false, false),
        b"sdown" => (true, false),
        b"odown" => (true, true),
        _ => return Err(Unplayed::WrongWords),
    };
    Ok(MasterLine {
        name,
        addr: address(ip, port)?,
        down,
        odown,
        replicas: number(replicas)?,
        sentinels: number(sentinels)?,
    })
}

/// Adds the section of INFO that tells of a Sentinel, which is in TILT for so many milliseconds or, with `None`, isn't,
/// and of masters of six words each.
fn add_section(answers: &mut AnswerText, tilt: &[u8], words: &[Vec<u8>]) -> Result<(), Unplayed> {
    let tilt = match tilt {
        b"None" => None,
        millis => Some(number(millis)?),
    };
    let mut section = InfoSection::new();
    section.add_front((words.len() / 6) as u64, tilt);
    for (n, master) in words.chunks(6).enumerate() {
        section.add_master(n as u64, &master_line(master)?);
    }
    answers.add_section(&section);
    Ok(())
}

/// Adds what a call adds with these words.
fn add(
    alloc: Global,
    call: &str,
    words: &[Vec<u8>],
    answers: &mut AnswerText,
) -> Result<(), Unplayed> {
    match (call, words) {
        ("add_master", words) => answers.add_master(&master(words)?),
        ("add_replicas", words) => add_replicas(answers, words)?,
        ("add_sentinels", words) => add_sentinels(answers, words)?,
        ("add_redis_master", words) => add_redis_master(answers, words)?,
        ("add_redis_replica", words) => add_redis_replica(answers, words)?,
        ("add_redis_sentinel", words) => add_redis_sentinel(answers, words)?,
        ("add_redis_quorum_reached", [usable]) => answers.add_redis_quorum_reached(number(usable)?),
        ("add_redis_no_quorum", [usable, quorum, sentinels]) => {
            answers.add_redis_no_quorum(number(usable)?, number(quorum)?, number(sentinels)?);
        }
        ("add_section", [tilt, words @ ..]) => add_section(answers, tilt, words)?,
        ("add_no_such_master", []) => answers.add_no_such_master(),
        ("add_ok", []) => answers.add_ok(),
        ("add_quorum_reached", [usable]) => answers.add_quorum_reached(number(usable)?),
        ("add_no_quorum", [usable]) => answers.add_no_quorum(number(usable)?),
        ("add_id", [own_id]) => answers.add_id(id(own_id)?),
        ("add_subscribed", []) => answers.add_subscribed(),
        ("add_command_fault", [bytes]) => {
            answers.add_command_fault(fault_of(&value_of(alloc, bytes)?)?);
        }
        ("add_protocol_error", []) => answers.add_protocol_error(),
        _ => return Err(Unplayed::NoSuchCall),
    }
    Ok(())
}

/// Tells an answer, and another one in the room of its bytes.
fn tell_room_again(alloc: Global, told: &mut Told) -> Result<(), Unplayed> {
    let mut answers = AnswerText::with_room(alloc)?;
    answers.add_ok();
    let bytes = answers.into_text().into_vec();
    told.bytes(&bytes)?;
    if bytes.capacity() < ANSWER_MAX {
        return told.word("and less room");
    }
    let mut again = AnswerText::from_vec(bytes);
    again.add_no_quorum(0);
    told.bytes(again.as_slice())
}

/// Tells what a call adds with these words.
fn tell_answer(
    alloc: Global,
    call: &str,
    words: &[Vec<u8>],
    told: &mut Told,
) -> Result<(), Unplayed> {
    let mut answers = AnswerText::with_room(alloc)?;
    add(alloc, call, words, &mut answers)?;
    told.bytes(answers.as_slice())
}

/// Tells what comes of a call with these words.
pub(crate) fn play(
    alloc: Global,
    call: &str,
    words: &[Vec<u8>],
    told: &mut Told,
) -> Result<(), Unplayed> {
    match (call, words) {
        ("room_again", []) => tell_room_again(alloc, told),
        (call, words) => tell_answer(alloc, call, words, told),
    }
}
