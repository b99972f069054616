//! One client's connection to a data node.

ghost use Rattle.std.specs.Prelude.{◌≡◌, ℕ, List, Option, OnOk, IfSome};
ghost use Rattle.ballot_law.specs.declared.addresses.Addr.{Addr};
ghost use Rattle.data_node_port.specs.Asks.{ask_of};
ghost use Rattle.data_node_port.specs.Readings.{asks, turn_at};
ghost use Rattle.data_node_port.specs.declared.asks.Ask.TheVariants.{Follow};
ghost use Rattle.node_texts.specs.Infos.{IsInfo};

use crate::asks::Ask;
use crate::session::Session;
use ballot_law::{Addr, Info};
use std::alloc::Global;
use std::io::{ErrorKind, Read, Write};
use std::rt::Clock;
use std::sync::Wait;

/// How many bytes one read asks for.
const PIECE: usize = 1_024;

/// How many times a connection reads before the others have their turn.
const STEPS_MAX: u32 = 16;

/// How many bytes may wait to be sent before the connection is read no further.
const UNSENT_MAX: usize = 65_536;

/// The data nodes that have ports, by their numbers.
///
/// `followed` says that a node was told to follow somebody, for nodes of which proofs know that. Those of a group say
/// nothing by it, and what serves them can't tell the one from the other.
pub trait ShownNodes {
    ghost use Rattle.std.specs.Prelude.{ℕ, Option};
    ghost use Rattle.ballot_law.specs.declared.addresses.Addr.{Addr};

    ghost followed: { Self → (number : ℕ) → Option Addr → Type 0 } = { λ _ _ _. Unit {0} };

    /// What the node with this number shows; none where it is stopped, or where there is no such node.
    fn shown<R: Wait + Clock>(&self, rt: &R, number: u16) -> Option<Info>
        ensures { IfSome result IsInfo };

    /// Has the node with this number follow the master at the address, or nobody. It does nothing where it is stopped.
    fn follow<R: Wait + Clock>(&self, rt: &R, number: u16, follows: Option<Addr>)
        ensures { followed self.now number follows };
}

/// The connection is to be closed: memory was refused, or the node has stopped.
#[derive(Clone, Copy, PartialEq, Eq)]
struct Closed;

/// A client's connection with its session.
///
/// `readable` is whether the system told of bytes that may not be read yet, `half` whether its client has ended its
/// stream or broken off, as the system told: then the end is still to be read after the last piece. `ended` is whether
/// that end was read.
#[derive(Drop)]
pub(crate) struct Connection<T: Read + Write + Drop> {
    stream: T,
    session: Session,
    readable: bool,
    half: bool,
    ended: bool,
}

impl<T: Read + Write + Drop> Connection<T> {
    /// A connection from which nothing was read.
    pub(crate) fn new(alloc: Global, stream: T) -> Connection<T> {
        Connection {
            stream,
            session: Session::new(alloc),
            readable: false,
            half: false,
            ended: false,
        }
    }

    /// The system told of bytes to read, and whether its client has ended its stream or broken off.
    pub(crate) fn note_readable(&mut self, half: bool) {
        self.readable = true;
        self.half |= half;
    }

    /// Whether nothing more of it is read.
    fn is_over(&self) -> bool {
        self.ended || self.session.ends()
    }

    /// Whether there is something to read, and not too much is unsent.
    pub(crate) fn wants_turn(&self) -> bool {
        self.readable && !self.is_over() && self.session.unsent().len() < UNSENT_MAX
    }

    /// Answers the next command as the node with this number: whether there was one. An order to follow somebody is
    /// carried out.
    #[tactic(auto, using(crate::proofs::Talking::asked_of, crate::proofs::Talking::asks_something))]
    fn answer_next<V: ShownNodes, R: Wait + Clock>(
        &mut self,
        rt: &R,
        nodes: &V,
        number: u16,
    ) -> Result<bool, Closed>
        ensures follows { (words : List (List ℕ)) (rest : List ℕ) (to : Option Addr) → asks words rest ≡ turn_at self.old.session.held
            → Follow to ≡ ask_of words → OnOk result (V.followed nodes.now number to) }
    {
        let Ok(next) = self.session.next() else {
            return Err(Closed);
        };
        let Some(ask) = next else {
            return Ok(false);
        };
        let Some(info) = nodes.shown(rt, number) else {
            return Err(Closed);
        };
        if self.session.answer(&ask, &info).is_err() {
            return Err(Closed);
        }
        if let Ask::Follow(follows) = ask {
            nodes.follow(rt, number, follows);
        }
        Ok(true)
    }

    /// Answers all commands that are whole: whether the connection is.
    fn answer_all<V: ShownNodes, R: Wait + Clock>(
        &mut self,
        rt: &R,
        nodes: &V,
        number: u16,
    ) -> bool {
        for _ in 0..u64::MAX {
            match self.answer_next(rt, nodes, number) {
                Ok(true) => {}
                Ok(false) => return true,
                Err(Closed) => return false,
            }
        }
        true
    }

    /// Reads once, and answers what is whole then: whether the connection is. A read that leaves room has read all that
    /// there was, unless the stream has ended.
    fn step<V: ShownNodes, R: Wait + Clock>(&mut self, rt: &R, nodes: &V, number: u16) -> bool {
        let mut piece = [0u8; PIECE];
        match self.stream.read(&mut piece) {
            Ok(0) => self.ended = true,
            Ok(count) => {
                self.readable = self.half || count == PIECE;
                if self.session.feed(&piece[..count]).is_err() {
                    return false;
                }
                return self.answer_all(rt, nodes, number);
            }
            Err(error) => match error.kind() {
                ErrorKind::WouldBlock => self.readable = false,
                ErrorKind::Interrupted => {}
                _ => return false,
            },
        }
        true
    }

    /// Sends what is unsent until it would wait: whether the connection is whole.
    fn send(&mut self) -> bool {
        for _ in 0..u64::MAX {
            if self.session.unsent().is_empty() {
                return true;
            }
            match self.stream.write(self.session.unsent()) {
                Ok(0) => return false,
                Ok(count) => self.session.sent(count),
                Err(error) => match error.kind() {
                    ErrorKind::WouldBlock => return true,
                    ErrorKind::Interrupted => {}
                    _ => return false,
                },
            }
        }
        true
    }

    /// Reads, answers and sends until it would wait, or until others have their turn: whether it goes on.
    pub(crate) fn turn<V: ShownNodes, R: Wait + Clock>(
        &mut self,
        rt: &R,
        nodes: &V,
        number: u16,
    ) -> bool {
        for _ in 0..STEPS_MAX {
            if !self.wants_turn() {
                break;
            }
            if !self.step(rt, nodes, number) {
                return false;
            }
        }
        self.send() && !(self.is_over() && self.session.unsent().is_empty())
    }
}
