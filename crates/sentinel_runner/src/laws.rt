//! What holds of all Sentinels of a group that `watch` runs.

ghost use Rattle.sentinel_runner.specs.Watches.{SocketsTell, WatchesAreConnected, WatchesAreSafe};

/// Processes that are opened as `Watch::open` has it, and run as `run_over` has it of sockets of which all is known,
/// are what `law_connected_processes_are_safe` asks, and so safe: each event that a process took is free, or bytes told
/// it that came on one of its connections, for what was asked there. Left are the network and the order of all: those
/// bytes were carried from the Sentinel that was meant, as `IsCarried` has it, or the event is a hello that a Sentinel
/// published before.
///
/// Where a socket stands among those connections, its reads tell what `Socket` asks of them.
pub fn law_watches_are_safe()
    ensures sockets { SocketsTell }
    ensures connected { WatchesAreConnected }
    ensures safe { WatchesAreSafe }
{}
