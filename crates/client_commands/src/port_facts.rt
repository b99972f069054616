//! What a port knows of itself and of its clients, as a session is told it.

ghost use Rattle.std.specs.Prelude.{◌≡◌, ◌++◌, [], OnOk, OnErr};
ghost use Rattle.client_commands.specs.Ports.{is_among, is_there, is_listener, no_figures};

use crate::protocols::Protocol;
use ballot_law::{Addr, NoMemory, RunId, Text};
use std::alloc::Global;
use std::marker::Model;

/// What a port counts, and where it stands.
#[derive(Clone, Copy)]
pub struct Figures {
    /// The number of the process; 0 where the system tells none.
    pub process: u64,
    /// The run id of the Sentinel.
    pub run_id: RunId,
    /// Where the Sentinel is announced.
    pub address: Addr,
    /// For how long it runs, in milliseconds: the reading of its clock.
    pub clock: u64,
    /// How many clients are connected.
    pub connected: u64,
    /// How many clients may be connected.
    pub most: u64,
    /// How many clients were let in since it runs.
    pub received: u64,
    /// How many were refused.
    pub rejected: u64,
    /// How many values of clients were answered.
    pub commands: u64,
    /// For how long it worked outside of the system, in hundredths of a second.
    pub user_time: u64,
    /// For how long the system worked for it, in hundredths of a second.
    pub system_time: u64,
}

impl Figures {
    /// Those of nobody: no run id, no address, and nothing was counted.
    pub fn none() -> Figures
        ensures { result ≡ no_figures }
    {
        Figures {
            process: 0,
            run_id: RunId { hi: 0, lo: 0 },
            address: Addr { ip: 0, port: 0 },
            clock: 0,
            connected: 0,
            most: 0,
            received: 0,
            rejected: 0,
            commands: 0,
            user_time: 0,
            system_time: 0,
        }
    }
}

/// A client of a port, as its port knows it.
#[derive(Drop)]
pub struct ClientEntry {
    /// The number of its connection.
    pub id: u64,
    /// Whence it came: the ip and the port, as `127.0.0.1:50000`.
    pub address: Text,
    /// Where to, in the same form.
    pub local: Text,
    /// The name that it gave its connection, as its port knew it last; empty where it gave none.
    pub name: Text,
    /// Which protocol it speaks, as its port knew it last.
    pub protocol: Protocol,
    /// The clock's reading when it came, in milliseconds.
    pub came: u64,
    /// The clock's reading when its last bytes came, in milliseconds.
    pub heard: u64,
    /// To how many channels it listens.
    pub channels: u32,
    /// For how many patterns.
    pub patterns: u32,
    /// Its place in the port, which no other client has meanwhile.
    pub place: usize,
    /// Whether it is gone, so that it isn't told of.
    pub gone: bool,
    /// Whether it has a seat that is kept for another Sentinel.
    pub kept: bool,
}

impl Model for ClientEntry {
    ghost use Rattle.client_commands.specs.Ports.{ClientEntry as EntryModel};

    ghost Value = { EntryModel };

    ghost view = { λ entry. record {
      id = entry.id;
      address = entry.address;
      local = entry.local;
      name = entry.name;
      protocol = entry.protocol;
      came = entry.came;
      heard = entry.heard;
      channels = entry.channels;
      patterns = entry.patterns;
      place = entry.place;
      gone = entry.gone;
      kept = entry.kept;
    } };
}

/// What a port knows: its figures, its clients, and the places of those that were named to be closed.
#[derive(Drop)]
pub struct PortFacts {
    /// What it counts.
    pub figures: Figures,
    /// Its clients, those that are gone too as long as their places are free.
    pub clients: Vec<ClientEntry>,
    /// The places of the clients that CLIENT KILL named.
    pub killed: Vec<usize>,
}

impl Model for PortFacts {
    ghost use Rattle.client_commands.specs.Ports.{PortFacts as FactsModel};

    ghost Value = { FactsModel };

    ghost view = { λ facts. record { figures = facts.figures; clients = facts.clients.items; killed = facts.killed.items } };
}

/// Whether the place is one of these.
fn is_among(place: usize, places: &[usize]) -> bool
    ensures { result ≡ is_among place places.now }
{
    let mut rest = places;
    while let [one, more @ ..] = rest {
        if place == *one {
            return true;
        }
        rest = more;
    }
    false
}

impl ClientEntry {
    /// Whether it is there and isn't to be closed, where those at these places are.
    pub(crate) fn is_there(&self, killed: &[usize]) -> bool
        ensures { result ≡ is_there killed.now self.now }
    {
        !(self.gone || is_among(self.place, killed))
    }

    /// Whether it listens to a channel or a pattern.
    pub(crate) fn is_listener(&self) -> bool
        ensures { result ≡ is_listener self.now }
    {
        0 < u64::from(self.channels) + u64::from(self.patterns)
    }

    /// The number of its connection.
    pub(crate) fn id(&self) -> u64
        ensures { result ≡ self.now.id }
    {
        self.id
    }

    /// Whence it came.
    pub(crate) fn address(&self) -> &[u8]
        ensures { result.now ≡ self.now.address }
    {
        self.address.as_slice()
    }

    /// Where to.
    pub(crate) fn local(&self) -> &[u8]
        ensures { result.now ≡ self.now.local }
    {
        self.local.as_slice()
    }

    /// Its name.
    pub(crate) fn name(&self) -> &[u8]
        ensures { result.now ≡ self.now.name }
    {
        self.name.as_slice()
    }

    /// When it came.
    pub(crate) fn came(&self) -> u64
        ensures { result ≡ self.now.came }
    {
        self.came
    }

    /// When its last bytes came.
    pub(crate) fn heard(&self) -> u64
        ensures { result ≡ self.now.heard }
    {
        self.heard
    }

    /// Which protocol it speaks.
    pub(crate) fn protocol(&self) -> Protocol
        ensures { result ≡ self.now.protocol }
    {
        self.protocol
    }

    /// To how many channels it listens.
    pub(crate) fn channels(&self) -> u32
        ensures { result ≡ self.now.channels }
    {
        self.channels
    }

    /// For how many patterns.
    pub(crate) fn patterns(&self) -> u32
        ensures { result ≡ self.now.patterns }
    {
        self.patterns
    }

    /// Whether it has a seat that is kept for another Sentinel.
    pub(crate) fn is_kept(&self) -> bool
        ensures { result ≡ self.now.kept }
    {
        self.kept
    }

    /// Its place.
    pub(crate) fn place(&self) -> usize
        ensures { result ≡ self.now.place }
    {
        self.place
    }
}

impl PortFacts {
    /// Those of a port with these figures and no clients. No memory is taken.
    pub fn of(alloc: Global, figures: Figures) -> PortFacts
        ensures { result ≡ record { figures = figures; clients = []; killed = [] } }
    {
        PortFacts {
            figures,
            clients: Vec::new(alloc),
            killed: Vec::new(alloc),
        }
    }

    /// The figures.
    pub(crate) fn figures(&self) -> &Figures
        ensures { result.now ≡ self.now.figures }
    {
        &self.figures
    }

    /// The clients.
    pub(crate) fn clients(&self) -> &[ClientEntry]
        ensures { result.now ≡ self.now.clients }
    {
        self.clients.as_slice()
    }

    /// The places of those that are to be closed.
    pub(crate) fn killed(&self) -> &[usize]
        ensures { result.now ≡ self.now.killed }
    {
        self.killed.as_slice()
    }

    /// Those at these places are to be closed too. NoMemory: memory was refused, and nothing changed.
    pub(crate) fn kill(&mut self, places: &[usize]) -> Result<(), NoMemory>
        ensures ok { OnOk result (self.new ≡ record self.old { killed = self.old.killed ++ places.now }) }
        ensures err { OnErr result (self.new ≡ self.old) }
    {
        self.killed.extend_from_slice(places)?;
        Ok(())
    }
}
