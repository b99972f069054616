//! Lines that stop, start or set a data node while a group runs, or stop or start a Sentinel.

ghost use Rattle.std.specs.Prelude.{◌≡◌, ◌∷◌, [], ℕ, None, Some, IfSome};
ghost use Rattle.ballot_law.specs.Words.{cut_at};
ghost use Rattle.sentinel_runner.specs.Orders.{number_below, target_of, node_of, stopping, starting, plain_order, set_order, order_of, order_of_words};

use crate::line_reader::LineReader;
use crate::restarts::Restarts;
use crate::shared::Shared;
use ballot_law::is_same_bytes;
use channel_transport::{GREATEST, NodeOrder};
use crossbeam_channel::Sender;
use log::{Log, warn};
use sentinel_conf::ConfStore;
use std::io::{ErrorKind, Read};
use std::net::Net;
use std::rt::Clock;
use std::sync::Wait;
use std::sync::atomic::AtomicU64;
use tokens::{number_of, split_at_byte};

/// How many bytes one read asks for.
const PIECE: usize = 512;

/// The input couldn't be read to its end.
#[derive(Clone, Copy, PartialEq, Eq)]
pub(crate) struct ReadFailed;

/// How many Sentinels and data nodes there are that orders can name.
#[derive(Clone, Copy)]
pub(crate) struct Counts {
    pub(crate) sentinels: u16,
    pub(crate) nodes: u16,
}

/// What a word of an order names, by its number.
#[derive(Clone, Copy)]
pub(crate) enum Target {
    /// A Sentinel.
    Sentinel(u16),
    /// A data node.
    Node(u16),
}

/// What a line orders.
#[derive(Drop)]
pub(crate) enum LineOrder {
    /// The Sentinel with this number stops.
    StopSentinel(u16),
    /// It starts.
    StartSentinel(u16),
    /// A data node does something.
    ToNode(NodeOrder),
}

/// The number that these digits are, where it is below the count.
fn number_below(digits: &[u8], count: u16) -> Option<u16>
    ensures { result ≡ number_below count digits.now }
{
    let number = number_of(digits, 0, u64::from(u16::MAX))? as u16;
    if number < count { Some(number) } else { None }
}

/// The Sentinel that `s` and its number name, or the data node that `d` and its number name, where there is one.
fn target_of(word: &[u8], counts: Counts) -> Option<Target>
    ensures { result ≡ target_of counts word.now }
{
    let (letter, digits) = word.split_first()?;
    match *letter {
        b's' => Some(Target::Sentinel(number_below(digits, counts.sentinels)?)),
        b'd' => Some(Target::Node(number_below(digits, counts.nodes)?)),
        _ => None,
    }
}

/// The data node that `d` and its number name, where there is one.
fn node_of(word: &[u8], counts: Counts) -> Option<u16>
    ensures { result ≡ node_of counts word.now }
{
    match target_of(word, counts)? {
        Target::Node(number) => Some(number),
        Target::Sentinel(_) => None,
    }
}

/// Has what was named stop.
fn stopping(target: Target) -> LineOrder
    ensures { result ≡ stopping target }
{
    match target {
        Target::Sentinel(place) => LineOrder::StopSentinel(place),
        Target::Node(number) => LineOrder::ToNode(NodeOrder::stopping(number)),
    }
}

/// Has what was named start.
fn starting(target: Target) -> LineOrder
    ensures { result ≡ starting target }
{
    match target {
        Target::Sentinel(place) => LineOrder::StartSentinel(place),
        Target::Node(number) => LineOrder::ToNode(NodeOrder::starting(number)),
    }
}

/// Has what was named stop or start.
fn plain_order(verb: &[u8], target: Target) -> Option<LineOrder>
    ensures { result ≡ plain_order verb.now target }
{
    if is_same_bytes(verb, b"stop") {
        return Some(stopping(target));
    }
    if is_same_bytes(verb, b"start") {
        return Some(starting(target));
    }
    None
}

/// A data node's new priority, offset and link down time in seconds.
fn set_order(number: u16, priority: &[u8], offset: &[u8], link_down: &[u8]) -> Option<LineOrder>
    ensures { result ≡ set_order number priority.now offset.now link_down.now }
{
    let priority = number_of(priority, 0, GREATEST)?;
    let offset = number_of(offset, 0, GREATEST)?;
    let link_down = number_of(link_down, 0, GREATEST)?;
    Some(LineOrder::ToNode(NodeOrder::becoming(number, priority, offset, link_down)?))
}

/// What a line of more than two words orders.
#[tactic(auto, using(crate::proofs::Cutting::too_many_words))]
fn long_order(verb: &[u8], node: &[u8], rest: &[u8], counts: Counts) -> Option<LineOrder>
    ensures { result ≡ order_of_words counts (verb.now ∷ node.now ∷ cut_at 32 rest.now) }
{
    let (priority, rest) = split_at_byte(rest, b' ')?;
    let (offset, link_down) = split_at_byte(rest, b' ')?;
    if let Some(_) = split_at_byte(link_down, b' ') {
        return None;
    }
    if !is_same_bytes(verb, b"set") {
        return None;
    }
    set_order(node_of(node, counts)?, priority, offset, link_down)
}

/// What a line orders: `stop s0`, `start s0`, `stop d0`, `start d0`, or `set d0 100 0 0` with a priority, an offset and
/// a link down time in seconds.
fn order_of(line: &[u8], counts: Counts) -> Option<LineOrder>
    ensures { result ≡ order_of counts line.now }
{
    let (verb, rest) = split_at_byte(line, b' ')?;
    match split_at_byte(rest, b' ') {
        None => plain_order(verb, target_of(rest, counts)?),
        Some((node, rest)) => long_order(verb, node, rest, counts),
    }
}

/// Where orders go, and what they can name.
#[derive(Drop)]
pub(crate) struct Orders<S: ConfStore> {
    node_orders: Sender<NodeOrder>,
    restarts: Restarts<S>,
    counts: Counts,
    reader: LineReader,
}

impl<S: ConfStore + Drop> Orders<S> {
    /// Orders that go to this end of the data nodes' channel, of which there are `nodes`, and to these Sentinels.
    pub(crate) fn new(
        node_orders: Sender<NodeOrder>,
        nodes: u16,
        restarts: Restarts<S>,
    ) -> Orders<S> {
        let sentinels = restarts.count();
        Orders {
            node_orders,
            restarts,
            counts: Counts { sentinels, nodes },
            reader: LineReader::new(),
        }
    }

    /// What the line orders that was read, where it is an order.
    fn order(&self) -> Option<LineOrder> {
        order_of(self.reader.line()?, self.counts)
    }

    /// Carries out what the line orders; a line that orders nothing gets a note. The next line begins.
    fn obey<R: Wait + Clock + Log, N: Net>(
        &mut self,
        rt: &R,
        net: &N,
        shared: &Shared,
        ending: &AtomicU64,
    ) {
        match self.order() {
            Some(LineOrder::ToNode(order)) => drop(self.node_orders.send(rt, order)),
            Some(LineOrder::StopSentinel(place)) => self.restarts.stop(rt, shared, place),
            Some(LineOrder::StartSentinel(place)) => self
                .restarts
                .start(rt, net, shared, ending, place),
            None => warn!(rt;
                    "a line of standard input is no order: stop d0, start d0, set d0 100 0 0, stop s0, start s0"
                ),
        }
        self.reader = LineReader::new();
    }

    /// Takes a piece of the input: each LF ends a line, which is obeyed.
    fn take<R: Wait + Clock + Log, N: Net>(
        &mut self,
        rt: &R,
        net: &N,
        shared: &Shared,
        ending: &AtomicU64,
        piece: &[u8],
    ) {
        for byte in piece {
            if *byte == b'\n' {
                self.obey(rt, net, shared, ending);
            } else {
                self.reader.add(*byte);
            }
        }
    }

    /// Reads to the end of the input.
    fn read_all<I: Read, R: Wait + Clock + Log, N: Net>(
        &mut self,
        rt: &R,
        net: &N,
        input: &mut I,
        shared: &Shared,
        ending: &AtomicU64,
    ) -> Result<(), ReadFailed> {
        let mut piece = [0u8; PIECE];
        for _ in 0..u64::MAX {
            match input.read(&mut piece) {
                Ok(0) => return Ok(()),
                Ok(count) => self.take(rt, net, shared, ending, &piece[..count]),
                Err(error) => {
                    if error.kind() != ErrorKind::Interrupted {
                        return Err(ReadFailed);
                    }
                }
            }
        }
        Err(ReadFailed)
    }
}

/// What follows the orders of an input beside the threads of a group. Hides the orders' type from `follow_beside`.
pub(crate) trait FollowsOrders {
    /// Obeys each line of the input until its end, or until it can't be read. A last line without LF is obeyed too.
    fn follow<I: Read, R: Wait + Clock + Log>(
        &mut self,
        rt: &R,
        input: &mut I,
        shared: &Shared,
        ending: &AtomicU64,
    ) -> Result<(), ReadFailed>;
}

/// Orders, with the handle for the ports of Sentinels that are started.
#[derive(Drop)]
pub(crate) struct NetOrders<'n, S: ConfStore, N: Net> {
    pub(crate) orders: Orders<S>,
    pub(crate) net: &'n N,
}

impl<S: ConfStore + Drop, N: Net> FollowsOrders for NetOrders<'_, S, N> {
    fn follow<I: Read, R: Wait + Clock + Log>(
        &mut self,
        rt: &R,
        input: &mut I,
        shared: &Shared,
        ending: &AtomicU64,
    ) -> Result<(), ReadFailed> {
        let read = self.orders.read_all(rt, self.net, input, shared, ending);
        if !self.orders.reader.is_empty() {
            self.orders.obey(rt, self.net, shared, ending);
        }
        read
    }
}
