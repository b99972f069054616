//! A newer configuration that one seat's input brings is told to every other seat, also to one that never acted.

ghost use Rattle.std.specs.Prelude.{◌≡◌};
ghost use Rattle.std.specs.Prelude.{IfOk};
ghost use Rattle.ballot_law.specs.Limits.{IsWithinEvent};

use super::calls::card;
use super::files::{Shared, file, shared};
use super::known_cell::{KnownCell, KnownSeat, Which};
use ballot_law::{Event, Input, NoMemory, Text};
use sentinel_conf::MemoryStore;
use std::alloc::Global;
use std::marker::Brand;
use std::process::Abort;
use std::sync::Wait;
use std::test::Fail;

/// Another Sentinel's hello: the master is at 6381 since epoch 1. The file has it at 6379 since epoch 0.
const HELLO: &[u8] =
    b"127.0.0.1,26380,bbbbbbbbbbbbbbbbbbbbbbbbbbbbbbbbbbbbbbbb,1,mymaster,127.0.0.1,6381,1";

/// A client's question for the address.
const QUESTION: &[u8] =
    b"*3\r\n$8\r\nSENTINEL\r\n$23\r\nget-master-addr-by-name\r\n$8\r\nmymaster\r\n";

/// The address of the hello, as a client is told it.
const ANSWER: &[u8] = b"*2\r\n$9\r\n127.0.0.1\r\n$4\r\n6381\r\n";

/// That hello as an input.
fn newer(alloc: Global) -> Result<Input, NoMemory>
    ensures { IfOk result (λ input. IsWithinEvent input.event) }
{
    let text = Text::from_slice(alloc, HELLO)?;
    Ok(Input {
        now: 0,
        event: Event::HelloRead { text },
    })
}

/// Takes the hello by the first seat. Two others have done nothing before.
fn tell_all<J: Which, R: Wait + Abort>(
    rt: &R,
    alloc: Global,
    cell: &KnownCell<J, MemoryStore>,
    mut taker: KnownSeat<J>,
    mut idle: KnownSeat<J>,
    mut port: KnownSeat<J>,
) -> Result<(), NoMemory> {
    assert!(rt; cell.act(rt, &mut taker, &newer(alloc)?).is_ok());
    assert!(rt; cell.address(&mut idle) == Some(card(1, 6381)));
    assert!(rt; cell.address(&mut taker) == Some(card(1, 6381)));
    assert!(rt; cell.answers(rt, alloc, &mut port, QUESTION, ANSWER));
    Ok(())
}

/// Cuts the first seat in three, and has all of them told.
fn cut_and_tell<J: Which, R: Wait + Abort>(
    rt: &R,
    alloc: Global,
    shared: Shared<MemoryStore>,
) -> Result<(), NoMemory>
    requires { (shared.0.value.id ≡ J.cell) × (shared.1.cell ≡ J.cell) }
{
    let (cell, seat) = KnownCell::<J, MemoryStore>::of(alloc, shared);
    let Ok((one, two)) = cell.split(alloc, seat) else {
        panic!(rt; "not split")
    };
    let Ok((one, three)) = cell.split(alloc, one) else {
        panic!(rt; "not split")
    };
    tell_all(rt, alloc, &cell, one, two, three)
}

#[test]
fn a_seat_that_never_acted_tells_a_newer_configuration(rt: HostRuntime) -> Result<(), Fail> {
    let Some(file) = file(rt.alloc()) else {
        panic!(rt; "no memory")
    };
    let Some(shared) = shared(rt.alloc(), file, 3) else {
        panic!(rt; "no cell")
    };
    cut_and_tell::<Brand, _>(&rt, rt.alloc(), shared)?;
    Ok(())
}
