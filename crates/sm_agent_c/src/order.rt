//! Orders as C has them, and what a server makes of them.
ghost use Rattle.std.specs.Prelude.{◌≡◌};
ghost use Rattle.sm_agent_c.specs.Base.{base_of};
ghost use Rattle.sm_agent_c.specs.Slot.{slot_of};
ghost use Rattle.sm_agent_c.specs.Order.{role_of, raw_call, stamp_read, raw_order, judge_answer, publish_answer};
ghost use Rattle.sm_agent_c.specs.Order.{commit_answer, raw_committed, may_delete_answer};

use crate::base::{RawBase, read_base};
use crate::code;
use crate::slot::{RawSlot, Reading, read_slot, write_slot};
use sm_agent::{Order, Stamp, commit, judge, may_delete, publish};
use sm_server::{Call, Role, ServerId};

/// An order to a server.
#[repr(C)]
#[derive(Clone, Copy)]
pub struct RawOrder {
    pub journal: u64,
    pub fence: u64,
    pub number: u64,
    pub load: u64,
    pub room: u64,
    pub handover: u64,
    pub call: u32,
    pub role: u32,
    pub new_role: u32,
    pub party: u32,
}

/// An order to the owner of the published map.
#[repr(C)]
#[derive(Clone, Copy)]
pub struct RawPublication {
    pub journal: u64,
    pub fence: u64,
    pub version: u64,
}

/// Returns the role of a kind.
fn read_role(kind: u32) -> Option<Role>
    ensures { result ≡ role_of kind }
{
    match kind {
        code::AS_PRIMARY => Some(Role::Primary),
        code::AS_SECONDARY => Some(Role::Secondary),
        _ => None,
    }
}

/// Returns the call of a kind.
fn read_call(raw: &RawOrder) -> Option<Call>
    ensures { result ≡ raw_call raw.now }
{
    match raw.call {
        code::ADD => Some(Call::Add(read_role(raw.role)?)),
        code::DROP => Some(Call::Drop),
        code::CHANGE => Some(Call::Change {
            from: read_role(raw.role)?,
            to: read_role(raw.new_role)?,
        }),
        code::PREPARE_ADD => Some(Call::PrepareAdd {
            owner: ServerId::new(raw.party),
            number: raw.handover,
        }),
        code::PREPARE_DROP => Some(Call::PrepareDrop {
            new_owner: ServerId::new(raw.party),
            number: raw.handover,
        }),
        _ => None,
    }
}

/// Returns an order in the agent's form, if its kinds are in range.
pub(crate) fn read_order(raw: &RawOrder) -> Option<Order>
    ensures { result ≡ raw_order raw.now }
{
    let call = read_call(raw)?;
    Some(Order {
        stamp: Stamp {
            journal: raw.journal,
            fence: raw.fence,
            number: raw.number,
        },
        call,
        load: raw.load,
        room: raw.room,
    })
}

/// Decides what a server makes of an order.
#[unsafe(no_mangle)]
pub extern "C" fn sm_judge(base: &RawBase, slot: &RawSlot, used: u64, order: &RawOrder) -> u32
    ensures { result ≡ judge_answer (base_of base.now) (slot_of slot.now) used (raw_order order.now) }
{
    let (Some(base), Some(order)) = (read_base(base), read_order(order)) else {
        return code::BAD;
    };
    match read_slot(slot) {
        Reading::Bad => code::BAD,
        Reading::Unknown => code::NOT_READY,
        Reading::Known(slot) => code::verdict_code(judge(&base, &slot, used, &order)),
    }
}

/// Commits the work of an order.
#[unsafe(no_mangle)]
pub extern "C" fn sm_commit(base: &RawBase, slot: &mut RawSlot, order: &RawOrder, at: u64) -> u32
    ensures answer { result ≡ commit_answer (base_of base.now) (slot_of slot.old) (raw_order order.now) at }
    ensures slot { slot.new ≡ raw_committed slot.old (base_of base.now) (slot_of slot.old) (raw_order order.now) at }
{
    let (Some(base), Some(order)) = (read_base(base), read_order(order)) else {
        return code::BAD;
    };
    let known = match read_slot(slot) {
        Reading::Bad => return code::BAD,
        Reading::Unknown => return code::NOT_READY,
        Reading::Known(known) => known,
    };
    match commit(&base, &known, &order, at) {
        None => code::NOT_DONE,
        Some(next) => {
            *slot = write_slot(&next);
            code::DONE
        }
    }
}

/// Decides what the owner of the published map makes of a publication.
#[unsafe(no_mangle)]
pub extern "C" fn sm_publish(base: &RawBase, shown: u64, publication: &RawPublication) -> u32
    ensures { result ≡ publish_answer (base_of base.now) shown (stamp_read publication.now) }
{
    let Some(base) = read_base(base) else {
        return code::BAD;
    };
    let stamp = Stamp {
        journal: publication.journal,
        fence: publication.fence,
        number: publication.version,
    };
    code::verdict_code(publish(&base, shown, &stamp))
}

/// Tells whether a slot may be deleted.
#[unsafe(no_mangle)]
pub extern "C" fn sm_may_delete(base: &RawBase, slot: &RawSlot) -> u32
    ensures { result ≡ may_delete_answer (base_of base.now) (slot_of slot.now) }
{
    let Some(base) = read_base(base) else {
        return code::BAD;
    };
    match read_slot(slot) {
        Reading::Bad => code::BAD,
        Reading::Unknown => code::NOT_READY,
        Reading::Known(slot) => code::done_if(may_delete(&base, &slot)),
    }
}
