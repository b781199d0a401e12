//! Clients' requests, and where they are executed.
ghost use Rattle.std.specs.Prelude.{◌≡◌};
ghost use Rattle.sm_agent.specs.Request.{passed_on, received, routed};

use crate::base::Base;
use crate::slot::Slot;
use sm_server::{Cell, ServerId};

/// The way in which a request was passed on in a handover.
#[derive(Clone, Copy, Debug, PartialEq, Eq)]
pub struct Relay {
    /// The old owner, which passed it on.
    pub from: ServerId,
    /// The handover's number.
    pub handover: u64,
    /// The old owner's cut.
    pub cut: u64,
}

/// A client's request for a shard.
#[derive(Clone, Copy, Debug, PartialEq, Eq)]
pub enum Request {
    /// It comes from the client.
    Direct,
    /// It comes from the shard's old owner.
    Passed(Relay),
}

/// The place where a request is executed.
#[derive(Clone, Copy, Debug, PartialEq, Eq)]
pub enum Routing {
    /// Here, in one act with this answer.
    Execute,
    /// At the new owner of a handover.
    PassOn {
        to: ServerId,
        handover: u64,
        cut: u64,
    },
    /// Not here: the client looks at the published map again.
    NotHere,
    /// Nowhere for now: the request waits here.
    NotYet,
}

/// Returns where an old owner's requests are executed: it passes them on together with its cut.
fn pass_on(to: ServerId, number: u64, frozen: bool, cut: Option<u64>) -> Routing
    ensures { result ≡ passed_on to number frozen cut }
{
    match cut {
        Some(cut) if !frozen => Routing::PassOn {
            to,
            handover: number,
            cut,
        },
        _ => Routing::NotYet,
    }
}

/// Returns where a request that was passed on to a new owner is executed.
fn receive(from: ServerId, number: u64, frozen: bool, applied: u64, relay: &Relay) -> Routing
    ensures { result ≡ received from number frozen applied relay.now }
{
    if relay.from != from || relay.handover != number {
        Routing::NotHere
    } else if frozen || applied < relay.cut {
        Routing::NotYet
    } else {
        Routing::Execute
    }
}

/// Decides where a request is executed, at a server that has applied the shard's writes up to `applied`. The decision
/// and the execution are one act.
pub fn route(base: &Base, slot: &Slot, applied: u64, request: &Request) -> Routing
    ensures { result ≡ routed base.now slot.now applied request.now }
{
    if base.is_unknown() {
        return Routing::NotHere;
    }
    match slot.cell {
        Cell::Primary if slot.at_work.is_some() => Routing::NotYet,
        Cell::Primary => Routing::Execute,
        Cell::Forwarding { to, number } => pass_on(to, number, base.fenced, slot.cut),
        Cell::Prepared { from, number } => match request {
            Request::Direct => Routing::NotHere,
            Request::Passed(relay) => receive(from, number, base.fenced, applied, relay),
        },
        Cell::Absent | Cell::Secondary => Routing::NotHere,
    }
}
