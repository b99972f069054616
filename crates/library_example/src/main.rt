//! One Sentinel in a program of your own: each tick is taken, what it changed is stored, and only then is there
//! something to send. Nobody answers here, so the third tick finds the master down and elects this Sentinel, which is
//! alone.
#![tactic(auto)]

ghost use Rattle.ballot_law.specs.Limits.{IsWithinEvent};

use ballot_law::{Event, Input};
use sentinel_conf::{ConfStore, MemoryStore, read};
use sentinel_core::Sentinel;
use sentinel_outbox::Outbox;
use std::io::{self, Write};

const FILE: &[u8] = b"sentinel myid aaaaaaaaaaaaaaaaaaaaaaaaaaaaaaaaaaaaaaaa\n\
sentinel monitor mymaster 127.0.0.1 6379 1\n\
sentinel known-replica mymaster 127.0.0.1 6380\n\
sentinel down-after-milliseconds mymaster 1000\n";

/// The tick of the first master at this reading of the clock.
fn tick(now: u64) -> Input
    ensures { IsWithinEvent result.event }
{
    let event = Event::Tick {
        master: 0,
        random: 0,
    };
    Input { now, event }
}

/// Takes an input, stores what it changed, and shows what it has the Sentinel say. False where a call is refused.
fn turn(sentinel: &mut Sentinel, file: &mut MemoryStore, outbox: &mut Outbox, now: u64) -> bool {
    outbox.reserve(&sentinel.room()).is_ok()
        && sentinel.take(&tick(now), outbox).is_ok()
        && file.failures() < u64::MAX
        && sentinel.store(file).is_ok()
        && sentinel.release(outbox).is_ok()
}

fn main(rt: HostRuntime) -> io::Result<()> {
    let Ok(mut file) = MemoryStore::holding(rt.alloc(), FILE) else {
        return println!(rt; "no memory");
    };
    let Ok(conf) = read(rt.alloc(), FILE) else {
        return println!(rt; "the file is refused");
    };
    let Ok(mut sentinel) = Sentinel::open(rt.alloc(), conf, 0) else {
        return println!(rt; "no memory");
    };
    let mut outbox = Outbox::new(rt.alloc());
    for now in [0, 1_000, 2_000] {
        if !turn(&mut sentinel, &mut file, &mut outbox, now) {
            return println!(rt; "refused");
        }
        println!(rt; "{now} ms: {} messages to send", outbox.outputs().len())?;
        if let Some((_, epoch)) = sentinel.won() {
            println!(rt; "elected in epoch {epoch}")?;
        }
        outbox.clear();
    }
    rt.stdout().write_all(file.text())
}
