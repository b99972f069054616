//! Where a message goes, and as what.

ghost use Rattle.std.specs.Prelude.{◌≡◌, IfOk};
ghost use Rattle.boxed_nodes.specs.Sendable.{IsSendable};
ghost use Rattle.channel_transport.specs.Dispatches.{dispatched, dispatched_to, to_sentinel};

use crate::delivery::Delivery;
use crate::node_orders::NodeOrder;
use ballot_law::{Message, NoMemory, NodeName};
use node_texts::{copy_of, event_of};
use std::alloc::Global;

/// Where a message goes, and as what.
#[derive(Drop)]
pub enum Dispatch {
    /// To the Sentinel at this place of the roster.
    ToSentinel(u16, Delivery),
    /// To a data node.
    ToNode(NodeOrder),
}

/// Where a message goes and as what: to the Sentinel that it names, as the event that it is there, or to the data node
/// that it names, as it is. None where a Sentinel can't take it, and where its target isn't reached by a link.
/// `NoMemory` leaves nothing.
pub fn dispatch_of(alloc: Global, message: &Message) -> Result<Option<Dispatch>, NoMemory>
    requires sendable { IsSendable message.now }
    ensures dispatched { IfOk result (λ dispatch. dispatch ≡ dispatched message.now) }
{
    match message.target {
        NodeName::SentinelAt(place) => match event_of(alloc, message)? {
            Some(event) => Ok(Some(Dispatch::ToSentinel(place, Delivery::of(event)))),
            None => Ok(None),
        },
        NodeName::StoreAt(number) => {
            let copy = copy_of(alloc, message)?;
            Ok(Some(Dispatch::ToNode(NodeOrder::handed(number, copy))))
        }
        NodeName::ClientAt(_) | NodeName::PortAt(_) => Ok(None),
    }
}
