//! A group in one process: the channels between its nodes, its data nodes, and what two threads of each Sentinel do.
//!
//! Each Sentinel has a channel, and the data nodes have one together. A message becomes the event that it is at its
//! target before it is sent, so what comes out of a channel may be taken. Channels have no bound, and a message that
//! can't be sent is lost. All data nodes, masters and replicas, run in one thread. `SharedNodes` are they where another
//! thread asks them what they show, and gives them a client's orders.
#![tactic(auto)]

mod all_nodes;
mod channel_links;
mod delivery;
mod dispatch;
mod node_orders;
mod shared_nodes;
mod workers;

pub use all_nodes::DataNodes;
pub use channel_links::{ChannelOutlet, Links};
pub use delivery::Delivery;
pub use dispatch::{Dispatch, dispatch_of};
pub use node_orders::{Action, GREATEST, NodeOrder, Takeable};
pub use shared_nodes::SharedNodes;
pub use workers::{run_link, run_timer};
