//! What an outlet is handed.

ghost use Rattle.std.specs.Prelude.{Some};
ghost use Rattle.boxed_nodes.specs.Sendable.{IsSendableOutput};
ghost use Rattle.sentinel_runtime.specs.Saying.{IsSaid};

use ballot_law::{Addr, Body, Card, Message, NodeName, Note, Output};
use node_texts::copy_of;
use sentinel_runtime::{Outlet, Which, send_all};
use std::alloc::Global;
use std::marker::Brand;
use std::process::Abort;
use std::test::Fail;

/// An outlet that keeps all messages that it was handed.
#[derive(Drop)]
struct Recorder<R: Abort> {
    messages: Vec<Message>,
    alloc: Global,
    rt: R,
}

impl<J: Which, R: Abort> Outlet<J> for Recorder<R> {
    ghost use Rattle.std.specs.Prelude.{Some};

    ghost handed = { λ recorder. Some recorder.messages.items };

    fn send(&mut self, message: &Message) {
        let copy = copy_of(self.alloc, message).expect(&self.rt, "no memory");
        self.messages.push(copy).expect(&self.rt, "no memory");
    }
}

/// A PING of the first Sentinel.
fn ping(target: NodeName) -> Output
    ensures sendable { IsSendableOutput result }
    ensures said { IsSaid (λ message. Unit {0}) result }
{
    Output::Send(Message {
        sender: NodeName::SentinelAt(0),
        target,
        body: Body::Ping,
    })
}

/// The note of a new address.
fn note() -> Output
    ensures sendable { IsSendableOutput result }
    ensures said { IsSaid (λ message. Unit {0}) result }
{
    let old = Addr {
        ip: 2_130_706_433,
        port: 6379,
    };
    let card = Card {
        epoch: 1,
        addr: Addr { port: 6380, ..old },
    };
    Output::Tell(Note {
        master: 0,
        old,
        card,
    })
}

#[test]
fn each_message_goes_out_once_in_order(rt: HostRuntime) -> Result<(), Fail> {
    let alloc = rt.alloc();
    let (one, other) = (NodeName::SentinelAt(1), NodeName::StoreAt(0));
    let outputs = [ping(one), note(), ping(other), ping(one)];
    let mut recorder = Recorder {
        messages: Vec::new(alloc),
        alloc,
        rt,
    };
    send_all::<Brand, _>(&mut recorder, &outputs);
    assert_eq!(rt; recorder.messages.len(), 3);
    assert!(rt; recorder.messages[0].target == one);
    assert!(rt; recorder.messages[1].target == other);
    assert!(rt; recorder.messages[2].target == one);
    Ok(())
}
