//! A Sentinel that is open, before its threads run.

ghost use Rattle.std.specs.Prelude.{◌≡◌, ◌≢◌, ◌<◌, ◌≤◌, ◌+◌, ◌-◌, ◌^◌, [], IfErr, IfOk, length};
ghost use Rattle.sentinel_runner.specs.declared.opened.TheConstants.{PORT_THREADS_MAX};
ghost use Rattle.sentinel_runner.specs.Opening.{IsOpenedBy};
ghost use Rattle.std.specs.IoError.{error_kind};
ghost use Rattle.sentinel_runner.specs.declared.group_fault.GroupFault.TheVariants.{NoMemory, NotOneRoster, PortRefused};

use crate::group_fault::GroupFault;
use client_port::{Port, PortRoom, connections_beside};
use log::{Log, warn};
use sentinel_conf::{Conf, ConfStore};
use sentinel_core::Sentinel;
use sentinel_rules::Profile;
use sentinel_runtime::FreshSentinel;
use std::alloc::Global;
use std::io::{self, ErrorKind};
use std::net::Net;

/// How many threads serve each port of a group at most.
pub const PORT_THREADS_MAX: u16 = 16;

/// How ports are served.
#[derive(Clone, Copy)]
pub struct PortSettings {
    /// How many threads serve each port: what is below 1 counts as 1, and what is above `PORT_THREADS_MAX` as that.
    pub threads: u16,
    /// By which rules the Sentinels work. Those of Redis's profile also answer clients what client libraries send
    /// beside a Sentinel's commands, as `courteous_sessions` has it; strict ones answer what `port_sessions` answers.
    pub profile: Profile,
}

impl PortSettings {
    /// How many threads serve each port.
    pub(crate) fn threads_of_each(self) -> u16
        ensures some { 0 < result }
        ensures within { result ≤ PORT_THREADS_MAX }
        ensures same { 0 < self.threads → self.threads ≤ PORT_THREADS_MAX → result ≡ self.threads }
    {
        self.threads.clamp(1, PORT_THREADS_MAX)
    }
}

/// A Sentinel that is open, of which nothing was asked yet, its place in the roster, what each thread of its port
/// serves, and that port's number. So many threads use it `beside` those of its port.
#[derive(Drop)]
pub(crate) struct Opened<S: ConfStore> {
    pub(crate) fresh: FreshSentinel<S>,
    pub(crate) place: u16,
    pub(crate) port: Port,
    pub(crate) others: Vec<Port>,
    pub(crate) port_threads: u16,
    pub(crate) number: u16,
    pub(crate) beside: u16,
    ghost seats: { fresh.seat.view.share ≡ length others.items + 1 + beside },
}

/// With what a Sentinel is opened, beside its port.
#[derive(Drop)]
pub(crate) struct OpenedWith<S: ConfStore> {
    pub(crate) conf: Conf,
    pub(crate) store: S,
    /// For how many milliseconds each master may load its data after a restart, by its number; 0, as for one beyond the
    /// end, is for ever.
    pub(crate) reboots: Vec<u64>,
    /// The reading of the clock at which it is opened.
    pub(crate) now: u64,
}

/// What an error of the system is: want of memory, or a port that can't be had.
pub(crate) fn fault_of(error: &io::Error) -> GroupFault
    ensures memory { error_kind error.now ≡ ErrorKind.OutOfMemory → result ≡ NoMemory }
    ensures port { error_kind error.now ≢ ErrorKind.OutOfMemory → result ≡ PortRefused }
    ensures roster { result ≢ NotOneRoster }
{
    if error.kind() == ErrorKind::OutOfMemory {
        return GroupFault::NoMemory;
    }
    GroupFault::PortRefused
}

/// How many connections each of so many ports keeps that are served so, and each of the threads of a port, where `own`
/// descriptors are to stay free for other connections. `PortRefused` where the process may have too few descriptors for
/// any.
pub(crate) fn room_of<R: Net>(
    rt: &R,
    alloc: Global,
    ports: usize,
    port: PortSettings,
    own: u64,
) -> Result<PortRoom, GroupFault>
    ensures profile { IfOk result (λ room. room.profile ≡ port.profile) }
    ensures roster { IfErr result (λ fault. fault ≢ NotOneRoster) }
{
    let room = match connections_beside(rt, alloc, ports, port.threads_of_each(), own) {
        Ok(room) => room,
        Err(error) => return Err(fault_of(&error)),
    };
    if room.is_empty() {
        return Err(GroupFault::PortRefused);
    }
    Ok(room.with_profile(port.profile))
}

impl<S: ConfStore + Drop> Opened<S> {
    /// Opens the port of this conf at 127.0.0.1 with so much room, and its Sentinel, for so many threads beside those
    /// of the port.
    pub(crate) fn open<R: Net + Log>(
        rt: &R,
        alloc: Global,
        conf: Conf,
        store: S,
        room: PortRoom,
        beside: u16,
    ) -> Result<Opened<S>, GroupFault>
        requires room { S.failure_count store < 2 ^ 64 - 1 }
        ensures roster { IfErr result (λ fault. fault ≢ NotOneRoster) }
        ensures seats { IfOk result (λ opened. opened.beside ≡ beside) }
        ensures start { IfOk result (λ opened. IsOpenedBy conf room.profile [] 0 (S.held store) opened.fresh.cell.start) }
    {
        let number = conf.port();
        match Port::open(rt, alloc, number, room) {
            Ok(ports) => {
                let beginning = OpenedWith {
                    conf,
                    store,
                    reboots: Vec::new(alloc),
                    now: 0,
                };
                Self::with_port(alloc, beginning, ports, room, beside)
            }
            Err(error) => {
                if error.kind() != ErrorKind::OutOfMemory {
                    warn!(rt; "port {number} of 127.0.0.1 can't be had");
                }
                drop(conf);
                Err(fault_of(&error))
            }
        }
    }

    /// Opens the Sentinel with this beginning, of the profile of its port's room, with what each thread of the port
    /// serves, and a seat for each of them and for the `beside` other threads.
    #[tactic(auto, using(crate::proofs::Opening::opens))]
    pub(crate) fn with_port(
        alloc: Global,
        beginning: OpenedWith<S>,
        ports: (Port, Vec<Port>),
        room: PortRoom,
        beside: u16,
    ) -> Result<Opened<S>, GroupFault>
        requires room { S.failure_count beginning.store < 2 ^ 64 - 1 }
        requires threads { length ports.1.items + 1 ≡ room.threads }
        ensures roster { IfErr result (λ fault. fault ≢ NotOneRoster) }
        ensures seats { IfOk result (λ opened. opened.beside ≡ beside) }
        ensures ports { IfOk result (λ opened. (opened.port ≡ ports.0) × (opened.others ≡ ports.1)) }
        ensures start { IfOk result (λ opened. IsOpenedBy beginning.conf room.profile beginning.reboots.items
            beginning.now (S.held beginning.store) opened.fresh.cell.start) }
    {
        let OpenedWith {
            conf,
            store,
            reboots,
            now,
        } = beginning;
        let (port, others) = ports;
        let (number, place) = (conf.port(), conf.place());
        let Ok(sentinel) = Sentinel::open_with(alloc, conf, room.profile(), reboots, now) else {
            drop(port);
            return Err(GroupFault::NoMemory);
        };
        let threads = room.threads();
        let seats = u64::from(threads) + u64::from(beside);
        let Ok(fresh) = FreshSentinel::new(alloc, sentinel, store, seats) else {
            drop(port);
            return Err(GroupFault::NoMemory);
        };
        Ok(Opened {
            fresh,
            place,
            port,
            others,
            port_threads: threads,
            number,
            beside,
        })
    }
}
