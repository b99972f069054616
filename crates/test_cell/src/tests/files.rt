//! The Sentinel that tests share, and its file in memory.

ghost use Rattle.std.specs.Prelude.{◌≡◌, ◌<◌, ◌^◌, ◌-◌, IfSome};
ghost use Rattle.sentinel_outbox.specs.declared.phase.Phase.TheVariants.{Ready};

use sentinel_cell::{Seat, SharedSentinel};
use sentinel_conf::{ConfStore, MemoryStore, read};
use sentinel_core::Sentinel;
use std::alloc::Global;

/// A Sentinel that watches a master with two replicas, with three others.
const FOUR_SENTINELS: &[u8] = b"sentinel myid 0000000000000000000000000000000000000000\n\
sentinel monitor mymaster 127.0.0.1 6379 2\n\
sentinel down-after-milliseconds mymaster 1000\n\
sentinel failover-timeout mymaster 3000\n\
sentinel known-replica mymaster 127.0.0.1 6380\n\
sentinel known-replica mymaster 127.0.0.1 6381\n\
sentinel known-sentinel mymaster 127.0.0.1 26380 bbbbbbbbbbbbbbbbbbbbbbbbbbbbbbbbbbbbbbbb\n\
sentinel known-sentinel mymaster 127.0.0.1 26381 cccccccccccccccccccccccccccccccccccccccc\n\
sentinel known-sentinel mymaster 127.0.0.1 26382 dddddddddddddddddddddddddddddddddddddddd\n";

/// The file of that Sentinel.
pub(crate) fn file(alloc: Global) -> Option<MemoryStore>
    ensures { IfSome result (λ file. file.failed ≡ 0) }
{
    MemoryStore::holding(alloc, FOUR_SENTINELS).ok()
}

/// That Sentinel, ready.
pub(crate) fn ready(alloc: Global) -> Option<Sentinel>
    ensures { IfSome result (λ sentinel. sentinel.phase ≡ Ready) }
{
    let conf = read(alloc, FOUR_SENTINELS).ok()?;
    Sentinel::open(alloc, conf, 0).ok()
}

/// A shared Sentinel with its first seat. It stands in a box, so that a test that lets it go sees one call and not all
/// that it holds.
pub(crate) type Shared<S> = (Box<SharedSentinel<S>>, Seat);

/// That Sentinel with this file, shared by so many seats in one.
pub(crate) fn shared<S: ConfStore + Drop>(alloc: Global, file: S, seats: u64) -> Option<Shared<S>>
    requires { S.failure_count file < 2 ^ 64 - 1 }
    ensures { IfSome result (λ r. r.1.cell ≡ r.0.value.id) }
{
    let sentinel = ready(alloc)?;
    let (cell, seat) = SharedSentinel::new(alloc, sentinel, file, seats).ok()?;
    let cell = Box::new(alloc, cell).ok()?;
    Some((cell, seat))
}

/// Whether a text of a file has this line.
pub(crate) fn has_line(text: &[u8], line: &[u8]) -> bool {
    text.split(|byte| *byte == b'\n').any(|part| part == line)
}
