//! The events that may happen to a machine, the answers to them, and the records of the log.
use sm_reservation::StreamId;
use sm_server::{ServerId, ShardId};
use sm_task_controller::Denied;
use sm_verifier::Holding;
use thiserror::Error;

/// An event that may happen.
#[derive(Clone, Copy, Debug, PartialEq, Eq)]
pub enum Event {
    /// A stream makes its next step.
    Step { stream: StreamId },
    /// A stream makes its next step, and if that is a call, the call is lost: before its effect, or its answer after
    /// it.
    Lose { stream: StreamId, after: bool },
    /// A stream's allowance of tries is raised.
    Refill { stream: StreamId, more: u32 },
    /// A request comes to a server directly.
    Arrive { shard: ShardId, server: ServerId },
    /// The request whose pass was recorded at this place of the log comes to the server that it was passed to.
    PassOn { place: u32 },
    /// The cluster manager asks whether a server may be restarted.
    Approve { server: ServerId },
    /// A restart has ended.
    Done { server: ServerId },
    /// The plan at this place of the hand is to start.
    Begin { plan: u32 },
}

/// The answer to an event.
#[derive(Clone, Copy, Debug, PartialEq, Eq)]
pub enum Played {
    /// The step was made.
    Moved,
    /// The signal that the stream waits for is not posted.
    Blocked {
        signal: u32,
    },
    /// The stream has ended.
    Done,
    /// The machine is halted.
    Halted,
    /// The call was lost.
    Lost,
    /// The next step is a call, and the tries of the stream equal its allowance.
    Spent,
    /// The allowance was raised.
    Refilled,
    /// The allowance was not raised.
    RefillRefused(RefillFault),
    /// The server executed the request.
    Executed {
        server: ServerId,
    },
    /// The server passed the request on, under the number of its handover. The pass stands in the log at this place.
    Passed {
        to: ServerId,
        number: u64,
        place: u32,
    },
    /// The server does not own the shard.
    NotOwner,
    /// The server is down.
    Unavailable,
    /// The log has no free place.
    LogFull,
    /// The server may be restarted, and is down.
    Approved,
    /// The server may not be restarted.
    Denied(Denied),
    /// The server is up again.
    Up,
    /// The plan has started, with this number.
    Begun {
        number: u32,
    },
    /// The plan has not started.
    NotBegun(BeginFault),
    /// There is nothing that the event speaks of.
    Unknown,
}

/// A recorded event, with its answer.
#[derive(Clone, Copy, Debug, PartialEq, Eq)]
pub struct Logged {
    /// The event.
    pub event: Event,
    /// The answer that the event got.
    pub answer: Played,
}

/// The reason why a plan does not start. If there are several, the first one in this order is given.
#[derive(Clone, Copy, Debug, PartialEq, Eq, Error)]
pub enum BeginFault {
    /// Memory was short.
    #[error("out of memory")]
    NoMemory,
    /// Something holds the plan up.
    #[error("{0}")]
    Holding(Holding),
    /// The log has fewer free places than the plan needs.
    #[error("the log has fewer free places than the plan needs")]
    LogFull,
    /// The greatest number of plans is running already, or no number is left.
    #[error("too many plans")]
    TooManyPlans,
}

/// The reason why an allowance is not raised. If there are several, the first one in this order is given.
#[derive(Clone, Copy, Debug, PartialEq, Eq, Error)]
pub enum RefillFault {
    /// The stream has ended, or was never begun.
    #[error("the stream has ended, or was never begun")]
    Ended,
    /// The allowance would be above its limit.
    #[error("the allowance would be above its limit")]
    TooMany,
    /// The log has too few free places.
    #[error("the log has too few free places")]
    LogFull,
}

/// The fate of a try of a call.
#[derive(Clone, Copy, Debug, PartialEq, Eq)]
pub enum Passage {
    /// The call comes to its server, and the answer comes back.
    Through,
    /// The call does not come to its server.
    LostBefore,
    /// The call comes to its server, and the answer is lost.
    LostAfter,
}
