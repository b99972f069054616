//! A group that takes orders from an input.

ghost use Rattle.std.specs.Prelude.{◌≡◌, All, IfSome};

use crate::tests::confs::{free_port, text_of_one};
use client_port::ReadsTimes;
use log::kv::Source;
use log::span::Spans;
use log::{Level, LevelFilter, Log, Logged, Metadata, Record};
use sentinel_conf::{Conf, MemoryStore, read};
use sentinel_runner::{Group, OrderedFault};
use std::alloc::Global;
use std::fmt::Display;
use std::io::{self, ErrorKind, Read};
use std::net::Net;
use std::rt::Clock;
use std::sync::Wait;
use std::sync::atomic::{AtomicU64, Ordering};
use std::test::Fail;
use std::thread::{self, Threads};
use std::time::Duration;

/// How often an input looks for what a group does, a millisecond apart.
const MOST_LOOKS: u32 = 10_000;

/// How many notes of each level a group made.
#[derive(Drop)]
struct Counts {
    infos: AtomicU64,
    warnings: AtomicU64,
}

impl Counts {
    /// None was made.
    fn none() -> Counts {
        Counts {
            infos: AtomicU64::new(0),
            warnings: AtomicU64::new(0),
        }
    }
}

/// Notes that are counted.
#[derive(Clone, Copy)]
struct Counted<'a>(&'a Counts);

impl Log for Counted<'_> {
    ghost use Rattle.std.specs.Prelude.{None};

    ghost enables = { λ _ _ _. None };

    ghost target_of = { λ _. None };

    fn enabled(&self, _metadata: &Metadata<'_>) -> bool {
        true
    }

    fn log<D: Display, K: Source, S: Spans>(&self, record: &Record<'_, D, K, S>) {
        let count = if record.level() == Level::Info {
            &self.0.infos
        } else {
            &self.0.warnings
        };
        count.fetch_add(1, Ordering::SeqCst);
    }

    fn flush(&self) {}

    fn target(&self) -> &str {
        ""
    }
}

/// What the input says: an order, and a last line without LF that is none.
const TEXT: &[u8] = b"stop d0\nstop dx";

/// Where the first line has ended.
const FIRST_LINE: usize = 8;

/// An input that gives a byte a call, waits after its first line until a note was made, and ends or fails after its
/// last byte.
#[derive(Drop)]
struct Input<'a, R: Clock> {
    rt: &'a R,
    counts: &'a Counts,
    at: usize,
    fails: bool,
}

impl<R: Clock> Input<'_, R> {
    /// Waits until a note was made.
    fn wait(&self) {
        for _ in 0..MOST_LOOKS {
            if self.counts.infos.load(Ordering::SeqCst) > 0 {
                return;
            }
            thread::sleep(self.rt, Duration::from_millis(1));
        }
    }
}

impl<R: Clock> Read for Input<'_, R> {
    fn read(&mut self, room: &mut [u8]) -> io::Result<usize> {
        if self.at == FIRST_LINE {
            self.wait();
        }
        match (TEXT.get(self.at), room.first_mut()) {
            (Some(byte), Some(place)) => {
                *place = *byte;
                self.at = self.at.saturating_add(1);
                Ok(1)
            }
            _ if self.fails => Err(io::Error::from(ErrorKind::BrokenPipe)),
            _ => Ok(0),
        }
    }
}

/// The conf of one Sentinel, and its store.
fn one(alloc: Global, text: &str) -> Option<(Vec<Conf>, Vec<MemoryStore>)>
    ensures { IfSome result (λ r. All (λ store. store.failed ≡ 0) r.1.items) }
{
    let conf = read(alloc, text.as_bytes()).ok()?;
    let confs = vec![in alloc; conf].ok()?;
    let store = MemoryStore::holding(alloc, text.as_bytes()).ok()?;
    let mut stores = Vec::new(alloc);
    stores.push(store).ok()?;
    Some((confs, stores))
}

/// Runs a group by the orders of the input: how it ended.
fn run_by_input<R: Threads + Wait + Net + Clock + ReadsTimes + Log + Sync>(
    rt: &R,
    alloc: Global,
    counts: &Counts,
    fails: bool,
) -> Result<Result<(), OrderedFault>, Fail> {
    let text = text_of_one(alloc, free_port(rt)?)?;
    let (confs, stores) = one(alloc, text.as_str()).ok_or("no conf")?;
    let Ok(group) = Group::open(rt, alloc, confs, stores) else {
        return Err(Fail::from("no group"));
    };
    let mut input = Input {
        rt,
        counts,
        at: 0,
        fails,
    };
    let ending = AtomicU64::new(0);
    Ok(group.run_by_orders(rt, &mut input, &ending))
}

#[test]
fn a_group_obeys_lines_to_the_end_of_its_input(rt: HostRuntime) -> Result<(), Fail> {
    let counts = Counts::none();
    let noting = Logged::new(rt, LevelFilter::Info, Counted(&counts));
    let ended = run_by_input(&noting, rt.alloc(), &counts, false)?;
    assert_eq!(rt; ended, Ok(()));
    assert!(rt;
        counts.infos.load(Ordering::SeqCst) > 0,
        "the order to stop the master"
    );
    assert_eq!(rt;
        counts.warnings.load(Ordering::SeqCst),
        1,
        "the line that is no order"
    );
    Ok(())
}

#[test]
fn an_input_that_fails_is_told(rt: HostRuntime) -> Result<(), Fail> {
    let counts = Counts::none();
    let noting = Logged::new(rt, LevelFilter::Info, Counted(&counts));
    let ended = run_by_input(&noting, rt.alloc(), &counts, true)?;
    assert_eq!(rt; ended, Err(OrderedFault::Read));
    Ok(())
}
