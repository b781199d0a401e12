//! Orders to servers, and publications, which are orders to the owner of the published map.
ghost use Rattle.std.specs.Prelude.{◌≡◌};
ghost use Rattle.sm_driver.specs.Orders.{message_number};

use sm_placement::Entry;
use sm_plan_code::ServerCall;
use sm_reservation::StreamId;
use sm_server::ShardId;

/// An order: the call that a stream stands before, as it leaves the driver.
#[derive(Clone, Copy, Debug, PartialEq, Eq)]
pub struct StreamOrder {
    /// The stream whose call it is.
    pub stream: StreamId,
    /// The position of the instruction in the stream's code.
    pub at: u64,
    /// The call, with the base added to its handover number.
    pub call: ServerCall,
    /// The number by which its server tells a new order from an old one.
    pub number: u64,
}

/// A publication: the entry of the published map that a stream stands before, as it leaves the driver.
#[derive(Clone, Copy, Debug, PartialEq, Eq)]
pub struct StreamPublication {
    /// The stream whose entry it is.
    pub stream: StreamId,
    /// The shard whose entry changes.
    pub shard: ShardId,
    /// The entry that the map is to show, with the base added to its version.
    pub entry: Entry,
    /// The number under which its answer comes.
    pub number: u64,
}

/// The message that a stream stands before whose next step waits for an answer.
#[derive(Clone, Copy, Debug, PartialEq, Eq)]
pub enum StreamMessage {
    /// An order to a server.
    Order(StreamOrder),
    /// A publication, to the owner of the published map.
    Publication(StreamPublication),
}

impl StreamMessage {
    /// The number under which its answer comes.
    pub fn number(&self) -> u64
        ensures { result ≡ message_number self.now }
    {
        match self {
            StreamMessage::Order(order) => order.number,
            StreamMessage::Publication(publication) => publication.number,
        }
    }
}
