//! What the threads of a Sentinel of a group do until the group ends.

ghost use Rattle.ballot_law.specs.declared.events.Event.{Event};

use crate::channel_links::Links;
use crate::delivery::Delivery;
use crossbeam_channel::{Receiver, RecvTimeoutError};
use log::Log;
use sentinel_conf::ConfStore;
use sentinel_runtime::{RunState, RunningSentinel, ThreadSeat, Ticker, Which, hear};
use std::rt::Clock;
use std::sync::Wait;
use std::sync::atomic::{AtomicU64, Ordering};
use std::thread;
use std::time::Duration;

/// How long a link waits for a message before it looks whether the group ends, in milliseconds.
const LINK_MS: u64 = 50;

/// Ticks each master every 100 ms, in the Sentinel's own part of them, until `ending` isn't 0 or the Sentinel is
/// halted. Many parameters: each is what this thread alone has, or what it shares with another set of threads.
pub fn run_timer<J: Which, S: ConfStore, R: Wait + Clock + Log>(
    rt: &R,
    state: &RunState,
    links: &Links,
    member: &RunningSentinel<J, S>,
    seat: &mut ThreadSeat<J>,
    ending: &AtomicU64,
) {
    let mut ticker = Ticker::new(member);
    let mut outlet = links.outlet(rt);
    for _ in rt.forever() {
        if ending.load(Ordering::SeqCst) != 0 {
            return;
        }
        if !ticker.tick(rt, state, member, seat, &mut outlet) {
            return;
        }
        let pause = ticker.until_due(state.clock.now(rt));
        thread::sleep(rt, Duration::from_millis(pause));
    }
}

/// Has the Sentinel take each message that comes, all of which it may be told, until `ending` isn't 0, the Sentinel is
/// halted, or nobody is left who could send. Many parameters: as those of `run_timer`.
pub fn run_link<J: Which, S: ConfStore, R: Wait + Clock + Log>(
    rt: &R,
    state: &RunState,
    links: &Links,
    member: &RunningSentinel<J, S>,
    seat: &mut ThreadSeat<J>,
    deliveries: &Receiver<Delivery>,
    ending: &AtomicU64,
)
    requires told { (event : Event) → ∥ J.told event ∥₁ }
{
    let mut outlet = links.outlet(rt);
    for _ in rt.forever() {
        if ending.load(Ordering::SeqCst) != 0 {
            return;
        }
        let delivery = match deliveries.recv_timeout(rt, Duration::from_millis(LINK_MS)) {
            Ok(delivery) => delivery,
            Err(RecvTimeoutError::Timeout) => continue,
            Err(RecvTimeoutError::Disconnected) => return,
        };
        let event = delivery.into_event();
        if !hear(rt, state, member, seat, &mut outlet, event) {
            return;
        }
    }
}
