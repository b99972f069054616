//! What a data node keeps, and what it answers.

ghost use Rattle.std.specs.Prelude.{◌≡◌, IfSome, IsTrue};
ghost use Rattle.ballot_law.specs.Hellos.{IsAddr};
ghost use Rattle.boxed_nodes.specs.Sendable.{IsTakeable};
ghost use Rattle.boxed_nodes.specs.Data.Servers.{IsServer, first_server, can_follow, obeyed, changed_by, info_of, role_of, hand_over, reply};

use ballot_law::{Addr, Body, DataRole, Event, Heir, Info, Role, RunId, ShortText};
use std::marker::Model;

/// The priority with which a data node begins.
const FIRST_PRIORITY: u64 = 100;

/// What a data node keeps, also while it is stopped.
#[derive(Drop)]
pub(crate) struct Server {
    id: RunId,
    follows: Option<Addr>,
    priority: u64,
    offset: u64,
    link_down: u64,
}

impl Model for Server {
    ghost use Rattle.boxed_nodes.specs.Data.Servers.{Server as ServerModel, IsServer};

    ghost Value = { ServerModel };

    ghost view = { λ server. record {
      id = server.id;
      follows = server.follows;
      priority = server.priority;
      offset = server.offset;
      link_down = server.link_down;
    } };

    ghost invariant = { λ server. IsServer (record {
      id = server.id;
      follows = server.follows;
      priority = server.priority;
      offset = server.offset;
      link_down = server.link_down;
    }) };
}

/// Whether a node can follow this: nobody, or a node that has a port.
fn can_follow(follows: Option<Addr>) -> bool
    ensures told { result ≡ can_follow follows }
    ensures addr { IsTrue result → IfSome follows IsAddr }
{
    match follows {
        None => true,
        Some(addr) => 0 < addr.port,
    }
}

/// What an order to hand over has its master say: to the heir that it is a master, where it can be followed.
fn hand_over(heir: Option<Heir>) -> Option<Body>
    ensures { result ≡ hand_over heir }
{
    match heir {
        None => Some(Body::Done),
        Some(heir) if can_follow(Some(heir.addr)) => Some(Body::ReplicaOf(None)),
        Some(_) => None,
    }
}

impl Server {
    /// The server of the data node with this number, which follows the master at the address, or is a master.
    pub(crate) fn new(number: u16, follows: Option<Addr>) -> Server
        requires { IfSome follows IsAddr }
        ensures { result ≡ first_server number follows }
    {
        Server {
            id: RunId {
                hi: 0,
                lo: u32::from(number) + 1,
            },
            follows,
            priority: FIRST_PRIORITY,
            offset: 0,
            link_down: 0,
        }
    }

    /// What its INFO says.
    fn info(&self) -> Info
        ensures value { result ≡ info_of self.now }
    {
        Info {
            id: Some(self.id),
            role: match self.follows {
                None => DataRole::Master,
                Some(_) => DataRole::Replica,
            },
            master: self.follows,
            link_up: self.link_down == 0,
            link_down_s: self.link_down,
            priority: self.priority,
            offset: self.offset,
        }
    }

    /// What its answer to ROLE says.
    fn role(&self) -> Role
        ensures { result ≡ role_of self.now.follows self.now.offset }
    {
        match self.follows {
            None => Role::Master {
                offset: self.offset,
            },
            Some(addr) => Role::Replica {
                addr,
                offset: self.offset,
            },
        }
    }

    /// What is known of every server: all that it tells can be read. A caller that is lent one learns it by this call,
    /// which does nothing.
    pub(crate) fn is_sound(&self)
        ensures { IsServer self.now }
    {
        let _ = &self.id;
    }

    /// The answer to a question or an order; none to an order that can't be followed, and to anything else.
    pub(crate) fn reply(&self, body: &Body) -> Option<Body>
        ensures { result ≡ reply self.now body.now }
    {
        match body {
            Body::Ping => Some(Body::PingText {
                is_error: false,
                text: ShortText::from_slice(b"PONG").unwrap(),
            }),
            Body::InfoAsk => Some(Body::InfoText(self.info())),
            Body::RoleAsk => Some(Body::RoleText(self.role())),
            Body::ReplicaOf(follows) if can_follow(*follows) => Some(Body::Done),
            Body::ReplicaOf(_) => None,
            Body::HandOver(heir) => hand_over(*heir),
            Body::Ask { .. }
            | Body::Answer { .. }
            | Body::PingText { .. }
            | Body::InfoText(_)
            | Body::Publish(_)
            | Body::HelloText(_)
            | Body::AddressAsk(_)
            | Body::AddressAnswer(_)
            | Body::PortReply { .. }
            | Body::RoleText(_)
            | Body::Done => None,
        }
    }

    /// Follows an order, where it can be followed.
    fn obey(&mut self, follows: Option<Addr>)
        ensures { self.new ≡ obeyed follows self.old }
    {
        if can_follow(follows) {
            self.follows = follows;
        }
    }

    /// Changes as the event says: by an order, or as it is told to become.
    pub(crate) fn change(&mut self, event: &Event)
        requires { IsTakeable event.now }
        ensures { self.new ≡ changed_by event.now self.old }
    {
        match event {
            Event::Become {
                priority,
                offset,
                link_down,
            } => {
                self.priority = *priority;
                self.offset = *offset;
                self.link_down = *link_down;
            }
            Event::Handed(message) => {
                match message.body {
                    Body::ReplicaOf(follows) => self.obey(follows),
                    Body::HandOver(Some(heir)) => self.obey(Some(heir.addr)),
                    _ => {}
                }
            }
            _ => {}
        }
    }
}
