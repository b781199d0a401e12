//! Requests as C has them, and where they are executed.
ghost use Rattle.std.specs.Prelude.{◌≡◌};
ghost use Rattle.sm_agent_c.specs.Base.{base_of};
ghost use Rattle.sm_agent_c.specs.Slot.{slot_of};
ghost use Rattle.sm_agent_c.specs.Request.{request_of, route_of, routing_answer, passed_request};

use crate::base::{RawBase, read_base};
use crate::code;
use crate::slot::{RawSlot, Reading, read_slot};
use sm_agent::{Relay, Request, Routing, route};
use sm_server::ServerId;

/// The way in which a request was passed on, or is to be passed on.
#[repr(C)]
#[derive(Clone, Copy)]
pub struct RawRequest {
    pub handover: u64,
    pub cut: u64,
    pub party: u32,
    pub is_passed: u32,
}

/// Returns a request in the agent's form, if its flag is in range.
fn read_request(raw: &RawRequest) -> Option<Request>
    ensures { result ≡ request_of raw.now }
{
    if !code::is_flag(raw.is_passed) {
        return None;
    }
    if raw.is_passed == 0 {
        return Some(Request::Direct);
    }
    Some(Request::Passed(Relay {
        from: ServerId::new(raw.party),
        handover: raw.handover,
        cut: raw.cut,
    }))
}

/// Decides where a request is executed.
#[unsafe(no_mangle)]
pub extern "C" fn sm_route(
    base: &RawBase,
    slot: &RawSlot,
    applied: u64,
    request: &RawRequest,
    onward: &mut RawRequest,
) -> u32
    ensures answer { result
        ≡ routing_answer (route_of (base_of base.now) (slot_of slot.now) applied (request_of request.now)) }
    ensures onward { onward.new ≡ passed_request onward.old
        (route_of (base_of base.now) (slot_of slot.now) applied (request_of request.now)) }
{
    let (Some(base), Some(request)) = (read_base(base), read_request(request)) else {
        return code::BAD;
    };
    let slot = match read_slot(slot) {
        Reading::Bad => return code::BAD,
        Reading::Unknown => return code::NOT_HERE,
        Reading::Known(slot) => slot,
    };
    match route(&base, &slot, applied, &request) {
        Routing::Execute => code::EXECUTE,
        Routing::PassOn { to, handover, cut } => {
            *onward = RawRequest {
                handover,
                cut,
                party: to.number(),
                is_passed: 1,
            };
            code::PASS_ON
        }
        Routing::NotHere => code::NOT_HERE,
        Routing::NotYet => code::NOT_YET,
    }
}
