//! What a Sentinel knows beforehand, and one node as it keeps it: what that last said and was sent, what is due to be
//! sent to it, and what its replies and its INFO change.
//!
//! `Plan` never changes while a Sentinel runs: what its file says, its own place among the Sentinels, and the numbers
//! of all data nodes. `Node` is a data node, `Peer` another Sentinel, `FrameList` what an input has the Sentinel put
//! out, in room that was made beforehand. Each call's contract is an equation with the definitions of `sentinel_rules`.

mod contacts;
mod frame_list;
mod node;
mod peers;
mod plans;
mod sending;

pub(crate) use contacts::since_after;
pub use frame_list::FrameList;
pub(crate) use node::earlier_of;
pub use node::{Node, greet_soon, move_all};
pub use peers::Peer;
pub use plans::Plan;
pub(crate) use plans::position_of;
pub(crate) use sending::is_at;
pub use sending::{Sending, ping_period, send_each_node, send_each_peer};
