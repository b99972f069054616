//! The outputs of a node, and when they may be seen.
//!
//! A node holds back what an input has it send until what that rests on is stored, in an `Outbox`, whose room was made
//! before, so that an input takes no memory. `Room` tells how much room an input takes, `Phase` how far a node has come
//! with its last input, and the faults why it refuses a call.
#![tactic(auto)]

mod faults;
mod outbox;
mod phase;
mod room;
mod spare;
mod stores;
mod took;

pub use faults::{OpenFault, ReleaseFault, StoreFault, TakeFault};
pub use outbox::Outbox;
pub use phase::Phase;
pub use room::Room;
pub use stores::Stores;
pub use took::Took;
