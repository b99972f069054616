//! What is known of a connection.

ghost use Rattle.std.specs.Prelude.{◌≡◌, ◌++◌, Some, false, OnOk, OnErr};
ghost use Rattle.client_commands.specs.Courtesies.{is_some, lacks_password, is_stranger, is_password};

use crate::passwords::is_same;
use crate::port_facts::PortFacts;
use crate::protocols::Protocol;
use ballot_law::{NoMemory, Text};
use std::marker::Model;
use std::mem;

/// What is known of a connection.
#[derive(Drop)]
pub struct ClientInfo {
    /// Its number, which no other connection of the port has.
    pub id: u64,
    /// The name that its client gave it, empty where it gave none.
    pub name: Text,
    /// Which protocol it speaks.
    pub protocol: Protocol,
    /// Whether it listens, and so has no commands but those of Pub/Sub and PING.
    pub listens: bool,
    /// The password that is wanted of its client; none where every client is admitted.
    pub password: Option<Text>,
    /// Whether the client gave the password.
    pub admitted: bool,
    /// The Sentinel's current epoch as it was last told; none where requests for votes of any epoch are heard.
    pub current: Option<u64>,
    /// What its port knows, as it was last told.
    pub port: PortFacts,
}

impl Model for ClientInfo {
    ghost use Rattle.client_commands.specs.Courtesies.{ClientInfo as AskerModel};

    ghost Value = { AskerModel };

    ghost view = { λ asker. record {
      id = asker.id;
      name = asker.name;
      protocol = asker.protocol;
      listens = asker.listens;
      password = asker.password;
      admitted = asker.admitted;
      current = asker.current;
      port = asker.port;
    } };
}

impl ClientInfo {
    /// The number.
    pub(crate) fn id(&self) -> u64
        ensures { result ≡ self.now.id }
    {
        self.id
    }

    /// The name.
    pub(crate) fn name(&self) -> &[u8]
        ensures { result.now ≡ self.now.name }
    {
        self.name.as_slice()
    }

    /// Which protocol it speaks.
    pub(crate) fn protocol(&self) -> Protocol
        ensures { result ≡ self.now.protocol }
    {
        self.protocol
    }

    /// Has it speak this protocol.
    pub(crate) fn speak(&mut self, protocol: Protocol)
        ensures { self.new ≡ record self.old { protocol = protocol } }
    {
        self.protocol = protocol;
    }

    /// Whether it listens.
    pub(crate) fn listens(&self) -> bool
        ensures { result ≡ self.now.listens }
    {
        self.listens
    }

    /// Whether a password is wanted.
    pub(crate) fn wants_password(&self) -> bool
        ensures { result ≡ is_some self.now.password }
    {
        self.password.is_some()
    }

    /// Whether a client that gave the password or didn't, as is told, is still to give it.
    pub(crate) fn lacks_password(&self, admitted: bool) -> bool
        ensures { result ≡ lacks_password self.now.password admitted }
    {
        self.password.is_some() && !admitted
    }

    /// Whether its client is still to give the password.
    pub(crate) fn is_stranger(&self) -> bool
        ensures { result ≡ is_stranger self.now }
    {
        self.lacks_password(self.admitted)
    }

    /// Whether the word is the password that is wanted, or none is.
    pub(crate) fn is_password(&self, word: &[u8]) -> bool
        ensures { result ≡ is_password self.now.password word.now }
    {
        match &self.password {
            Some(password) => is_same(word, password.as_slice()),
            None => true,
        }
    }

    /// Whether its client gave the password.
    pub(crate) fn admitted(&self) -> bool
        ensures { result ≡ self.now.admitted }
    {
        self.admitted
    }

    /// Gives it another name.
    pub(crate) fn rename(&mut self, name: Text)
        ensures { self.new ≡ record self.old { name = name } }
    {
        self.name = name;
    }

    /// Has it listen or not.
    pub(crate) fn listen(&mut self, listens: bool)
        ensures { self.new ≡ record self.old { listens = listens } }
    {
        self.listens = listens;
    }

    /// Has it want this password, which its client didn't give.
    pub(crate) fn want_password(&mut self, password: Text)
        ensures { self.new ≡ record self.old { password = Some password; admitted = false } }
    {
        self.password = Some(password);
        self.admitted = false;
    }

    /// The Sentinel's current epoch as it was last told.
    pub(crate) fn current(&self) -> Option<u64>
        ensures { result ≡ self.now.current }
    {
        self.current
    }

    /// Has it know this current epoch of the Sentinel.
    pub(crate) fn note_epoch(&mut self, epoch: u64)
        ensures { self.new ≡ record self.old { current = Some epoch } }
    {
        self.current = Some(epoch);
    }

    /// Has it know whether its client gave the password.
    pub(crate) fn admit(&mut self, admitted: bool)
        ensures { self.new ≡ record self.old { admitted = admitted } }
    {
        self.admitted = admitted;
    }

    /// What its port knows.
    pub(crate) fn port(&self) -> &PortFacts
        ensures { result.now ≡ self.now.port }
    {
        &self.port
    }

    /// Has it know this of its port: what it knew before.
    pub(crate) fn know_port(&mut self, port: PortFacts) -> PortFacts
        ensures before { result ≡ self.old.port }
        ensures now { self.new ≡ record self.old { port = port } }
    {
        mem::replace(&mut self.port, port)
    }

    /// The clients at these places are to be closed too. NoMemory: memory was refused, and nothing changed.
    pub(crate) fn kill(&mut self, places: &[usize]) -> Result<(), NoMemory>
        ensures ok { OnOk result (self.new ≡ record self.old { port = record self.old.port { killed = self.old.port.killed ++ places.now } }) }
        ensures err { OnErr result (self.new ≡ self.old) }
    {
        self.port.kill(places)
    }
}
