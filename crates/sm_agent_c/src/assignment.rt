//! Assignments as C has them, and what they make of all that a server has.
ghost use Rattle.std.specs.Prelude.{◌≡◌, map, filter_map, is_some};
ghost use Rattle.std.specs.List.{list_all};
ghost use Rattle.sm_agent.specs.Assignment.{count_brought};
ghost use Rattle.sm_agent_c.specs.Base.{received_base};
ghost use Rattle.sm_agent_c.specs.Assignment.{assignment_of, raw_part, raw_shard, take_result, take_answer};
ghost use Rattle.sm_agent_c.specs.Assignment.{reception_within, raw_assigned, shards_after};

use crate::base::{RawBase, read_base, receive};
use crate::code;
use crate::slot::{RawSlot, Reading, read_cell, read_slot, write_slot};
use sm_agent::{
    Assignment, Base, Part, Reception, Reopening, Restoration, Settlement, ShardSlot, assign,
    vacant,
};

/// A settle or a restore.
#[repr(C)]
#[derive(Clone, Copy)]
pub struct RawAssignment {
    pub journal: u64,
    pub fence: u64,
    pub number: u64,
    pub nonce: u64,
    pub slots: u64,
    pub has_nonce: u32,
    pub kind: u32,
}

/// A shard of a server: its slot, and the slot that an assignment brings.
#[repr(C)]
#[derive(Clone, Copy)]
pub struct RawShardSlot {
    pub slot: RawSlot,
    pub brought: RawSlot,
}

/// Returns an assignment in the agent's form, if its kind and flag are in range.
fn read_assignment(raw: &RawAssignment) -> Option<Assignment>
    ensures { result ≡ assignment_of raw.now }
{
    if !code::is_flag(raw.has_nonce) {
        return None;
    }
    match raw.kind {
        code::SETTLE => Some(Assignment::Settle(Settlement {
            reopening: Reopening {
                journal: raw.journal,
                number: raw.number,
            },
            nonce: code::number_if(u64::from(raw.has_nonce), raw.nonce),
        })),
        code::RESTORE => Some(Assignment::Restore(Restoration {
            journal: raw.journal,
            fence: raw.fence,
            number: raw.number,
            nonce: raw.nonce,
        })),
        _ => None,
    }
}

/// Returns the part that a slot which is brought stands for, if its kind of cell is in range.
fn read_part(raw: &RawSlot) -> Option<Part>
    ensures { result ≡ raw_part raw.now }
{
    let cell = read_cell(raw.cell, raw.party, raw.handover)?;
    let load = raw.load;
    Some(Part { cell, load })
}

/// Returns a shard in the agent's form, if its kinds and its flag are in range.
fn read_shard(raw: &RawShardSlot) -> Option<ShardSlot>
    ensures { result ≡ raw_shard raw.now }
{
    let slot = match read_slot(&raw.slot) {
        Reading::Bad => return None,
        Reading::Unknown => vacant(),
        Reading::Known(slot) => slot,
    };
    let brought = if raw.brought.cell == code::UNKNOWN {
        None
    } else {
        Some(read_part(&raw.brought)?)
    };
    Some(ShardSlot { slot, brought })
}

/// Tells whether the kinds and flags of all shards are in range.
fn are_in_range(shards: &[RawShardSlot]) -> bool
    ensures { result ≡ list_all (λ raw. is_some (raw_shard raw)) shards.now }
{
    shards.iter().all(|raw| read_shard(raw).is_some())
}

/// Returns the number of shards for which a slot is brought.
fn count_parts(shards: &[RawShardSlot]) -> usize
    ensures { result ≡ count_brought (filter_map raw_shard shards.now) }
{
    shards
        .iter()
        .filter_map(|raw| read_shard(raw))
        .filter(|shard| shard.brought.is_some())
        .count()
}

/// Returns a shard once its server, which had this base before, has taken an assignment.
fn assigned(base: &Base, raw: &RawShardSlot) -> RawShardSlot
    ensures { result ≡ raw_assigned base.now raw.now }
{
    match read_shard(raw) {
        None => *raw,
        Some(shard) => RawShardSlot {
            slot: write_slot(&shard.assigned(base).slot),
            ..*raw
        },
    }
}

/// Makes each shard what the assignment that its server takes brings.
fn assign_each(base: &Base, shards: &mut [RawShardSlot])
    ensures { shards.new ≡ map (raw_assigned base.now) shards.old }
{
    for raw in shards.iter_mut() {
        *raw = assigned(base, raw);
    }
}

/// Takes a settle or a restore as a whole.
#[unsafe(no_mangle)]
pub extern "C" fn sm_take(
    base: &mut RawBase,
    assignment: &RawAssignment,
    shards: &mut [RawShardSlot],
) -> u32
    ensures answer { result ≡ take_answer (take_result base.old assignment.now shards.old) }
    ensures base { base.new
        ≡ received_base base.old (reception_within (take_result base.old assignment.now shards.old)) }
    ensures shards { shards.new ≡ shards_after base.old (take_result base.old assignment.now shards.old) shards.old }
{
    let (Some(known), Some(message)) = (read_base(base), read_assignment(assignment)) else {
        return code::BAD;
    };
    if !are_in_range(shards) {
        return code::BAD;
    }
    let given = count_parts(shards) as u64;
    match assign(&known, &message, assignment.slots, given) {
        Err(_) => code::INCOMPLETE,
        Ok(reception) => {
            if let Reception::Taken(_) = &reception {
                assign_each(&known, shards);
            }
            receive(base, reception)
        }
    }
}
