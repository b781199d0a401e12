//! A client's way to the server that executes its request.
ghost use Rattle.std.specs.Prelude.{◌≡◌, ◌<◌};
ghost use Rattle.sm_router.specs.Asking.{HasAsked, after_answer, asked_after};

use crate::desk::Desk;
use crate::limits::MOST_HOPS;
use sm_machine::{Answer, Ticket};
use sm_server::{ServerId, ShardId};
use std::sync::Wait;

/// The answer to an ask.
#[derive(Clone, Copy, Debug, PartialEq, Eq)]
pub enum Asked {
    /// The server executed it.
    Executed { server: ServerId },
    /// No server is listed for the shard.
    NotListed,
    /// The server that it came to is down.
    Unavailable,
    /// After eight hops nobody had executed it.
    TooManyHops,
    /// The log has no free place.
    LogFull,
}

/// The next act of an ask.
enum Next {
    /// It looks at the map, and sends the request to the server that is listed.
    Look,
    /// It passes the request on.
    PassOn(Ticket),
    /// It ends.
    End(Asked),
}

/// Returns what an ask does after an answer. A ticket that comes back is spent.
fn after_answer(answer: Answer) -> Next
    ensures { result ≡ after_answer answer }
{
    match answer {
        Answer::Executed { server } => Next::End(Asked::Executed { server }),
        Answer::Passed(ticket) => Next::PassOn(ticket),
        Answer::NotOwner => Next::Look,
        Answer::Unavailable => Next::End(Asked::Unavailable),
        Answer::LogFull(back) => {
            if let Some(ticket) = back {
                ticket.abandon();
            }
            Next::End(Asked::LogFull)
        }
        Answer::Unknown(ticket) => {
            ticket.abandon();
            Next::Look
        }
    }
}

/// Returns the answer to an ask after all hops. A ticket that is left over is spent.
fn asked_after(next: Next) -> Asked
    ensures { result ≡ asked_after next }
{
    match next {
        Next::Look => Asked::TooManyHops,
        Next::PassOn(ticket) => {
            ticket.abandon();
            Asked::TooManyHops
        }
        Next::End(asked) => asked,
    }
}

/// Asks for a shard: looks at the map, sends the request to the server that is listed, and follows it if it is passed
/// on. Looks again if the server does not own the shard or does not know the pass. Each ticket is spent.
pub fn ask<R: Wait, D: Desk>(rt: &R, desk: &D, caller: &mut D::Caller, shard: ShardId) -> Asked
    requires { shard < D.shards desk.now }
    ensures { HasAsked (D.looked desk.now) (D.arrived desk.now)
        (D.passed_on desk.now) shard caller.old result caller.new }
{
    let mut next = Next::Look;
    for _ in 0..MOST_HOPS {
        let answer = match next {
            Next::Look => match desk.look(caller, shard).server {
                Some(server) => desk.arrive(rt, caller, shard, server),
                None => return Asked::NotListed,
            },
            Next::PassOn(ticket) => desk.pass_on(rt, caller, ticket),
            Next::End(asked) => return asked,
        };
        next = after_answer(answer);
    }
    asked_after(next)
}
