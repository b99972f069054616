//! The periods of `watch`: of its connections, its ticks and its notes. Those of the rules stand in `sentinel_rules`.

// connections

/// How long a connection may take to be opened, in milliseconds.
pub const CONNECT_MS: u64 = 1_000;

/// How long the oldest answer that is awaited may take, in milliseconds.
pub const SILENT_MS: u64 = 2_000;

/// How long it may take while a long text is on its way, in milliseconds: while more than `LONG_BYTES` came of it.
pub const LONG_MS: u64 = 10_000;

/// How many bytes of an answer may come until it counts as a long text.
pub const LONG_BYTES: u64 = 65_536;

/// How long nothing may come on a connection that listens to hellos, in milliseconds.
pub const NO_HELLO_MS: u64 = 6_000;

/// The shortest pause before a connection is opened again, in milliseconds.
pub const PAUSE_MIN_MS: u64 = 100;

/// The longest pause before a connection is opened again, in milliseconds.
pub const PAUSE_MAX_MS: u64 = 500;

/// For how long a connection has to be open to be opened again at once where its node ends it, in milliseconds: as at
/// CLIENT KILL, after which hellos would be missed.
pub const LASTING_MS: u64 = 2_000;

/// The shortest time between two PINGs that a connection sends, in milliseconds.
pub const PING_MIN_MS: u64 = 20;

/// The longest time between two PINGs that a connection sends, in milliseconds.
pub const PING_MAX_MS: u64 = 1_000;

/// How many PINGs a connection sends in the time after which its node would be down, within these limits.
pub const PINGS: u64 = 3;

/// How long it is between two INFOs that the connection asks for by itself, in milliseconds. A replica whose INFO is
/// older than 5 s isn't promoted; and a node whose role is wrong has to say so twice, 8 s apart, before it is told
/// otherwise, which is after two of these times.
pub const ASK_INFO_MS: u64 = 4_150;

/// How long the time is in which what was heard is counted, in milliseconds.
pub const FLOW_MS: u64 = 1_000;

/// For how long a hello that was heard isn't news, in milliseconds: it comes again from each data node of its master,
/// and its Sentinel publishes the next one after 2,000.
pub const NEWS_MS: u64 = 1_000;

/// How long it is between two times at which connections are opened and given up, in milliseconds.
pub const KEEP_MS: u64 = 100;

/// How long the connections rest after each turn, in milliseconds: answers to what was asked together are then heard
/// together, and the Sentinel is woken once for them.
pub const REST_MS: u64 = 5;

/// Delay between REPLICAOF and the INFO that checks it once more, in milliseconds. A first INFO goes out with the
/// order.
pub const LOOK_MS: u64 = 20;

/// For how long a connection puts out no hello after one held its other answers up, in milliseconds: its node makes
/// writes wait, and a PUBLISH is one.
pub const MUTE_MS: u64 = 4_000;

/// For how long a connection puts out no hello at most after its node was told to hand over, in milliseconds.
pub const SWITCH_MS: u64 = 10_000;

/// For how long a replica to which a master hands over is asked to acknowledge its stream beside each INFO, in
/// milliseconds: a master waits for that, and a replica does it once a second by itself.
pub const ACKS_MS: u64 = 2_500;

/// For how long after an order the last hello goes out again and again, in milliseconds: the node closes its clients
/// for the order, also those that were to hear that hello, and these are back by then.
pub const HELLO_AGAIN_MS: u64 = 150;

/// How long it is between two questions of a connection for a row, in milliseconds.
pub const ROW_EACH_MS: u64 = 10_000;

// ticks

/// How long may lie between two turns before this Sentinel takes itself to have stood still, in milliseconds.
pub const GAP_MS: u64 = 300;

/// The shortest time between two ticks, in milliseconds.
pub const TICK_MIN_MS: u64 = 50;

/// The longest time between two ticks, in milliseconds.
pub const TICK_MAX_MS: u64 = 100;

/// The longest time between two ticks while an own failover is on its way to a new master, in milliseconds.
pub const HURRY_MS: u64 = 20;

/// How far apart the turns of two Sentinels are that may begin a campaign, in milliseconds, where few of them share the
/// longest pause: a vote is stored, and asked of the others, in much less.
pub const SLOT_MAX_MS: u64 = 200;

/// For how long the ticks are held back at most where a campaign is near, in milliseconds.
pub const HOLD_MAX_MS: u64 = 1_000;

/// How far apart two ticks may come to be by being held back, in milliseconds: at 2,000 a Sentinel would take its clock
/// to have leapt.
pub const APART_MAX_MS: u64 = 1_200;

/// How long after the last ticks those that are due are late, in milliseconds.
pub const LATE_MS: u64 = 800;

/// How long a Sentinel hears after it or its connections stood still, before it ticks again, in milliseconds.
pub const CATCH_UP_MS: u64 = 150;

/// How long it waits for an event at most before it looks at its clock, in milliseconds.
pub const WAIT_MAX_MS: u64 = 100;

// notes

/// For how long no hello of another Sentinel may come before that is noted, in milliseconds.
pub const NO_HELLOS_MS: u64 = 10_000;

/// For how long a further fault of a node isn't noted, in milliseconds.
pub const FAULT_NOTE_MS: u64 = 60_000;

/// How long it is between two notes of hellos of nobody, of hellos that are too far ahead, and of such requests, in
/// milliseconds.
pub const STRANGERS_MS: u64 = 60_000;

/// How long it is between two notes of one Sentinel whose file differs, in milliseconds.
pub const DIFFERENT_MS: u64 = 600_000;
