//! Assignments: the messages that bring a server all its slots.
ghost use Rattle.std.specs.Prelude.{◌≡◌, map};
ghost use Rattle.sm_agent.specs.Assignment.{reception_of, assigned, kept_slot, replaced_by, assigned_shard};
ghost use Rattle.sm_agent.specs.Assignment.{count_brought, assigned_shards};

use crate::base::{Base, Reception, Restoration, Settlement, restore, settle};
use crate::slot::{Slot, place, vacant};
use sm_server::Cell;
use thiserror::Error;

/// A message that brings a server all its slots. A shard of which it brings none is absent afterwards.
#[derive(Clone, Copy, Debug, PartialEq, Eq)]
pub enum Assignment {
    /// It ends a reopening.
    Settle(Settlement),
    /// It answers a server that has lost its slots.
    Restore(Restoration),
}

/// The part of an assignment that is of one shard.
#[derive(Clone, Copy, Debug, PartialEq, Eq)]
pub struct Part {
    pub cell: Cell,
    /// The shard's load.
    pub load: u64,
}

/// A shard of a server that takes an assignment.
#[derive(Clone, Copy, Debug, PartialEq, Eq)]
pub struct ShardSlot {
    /// The server's slot of the shard, which the assignment replaces.
    pub slot: Slot,
    /// The part that is of this shard, if there is one.
    pub brought: Option<Part>,
}

/// An assignment brings another number of slots than there are parts given with the server's shards.
#[derive(Clone, Copy, Debug, PartialEq, Eq, Error)]
#[error("the assignment brings {brought} slots, and {given} are given")]
pub struct Incomplete {
    pub brought: u64,
    pub given: u64,
}

/// The result of an assignment, once it is given whole.
fn receive(base: &Base, assignment: &Assignment) -> Reception
    ensures { result ≡ reception_of base.now assignment.now }
{
    match assignment {
        Assignment::Settle(settlement) => settle(base, settlement),
        Assignment::Restore(restoration) => restore(base, restoration),
    }
}

/// The result of an assignment that brings a number of slots, of which `given` are given. For a program that keeps its
/// shards in a form of its own: if the assignment is taken, `ShardSlot::assigned` is what each shard of the server
/// becomes.
pub fn assign(
    base: &Base,
    assignment: &Assignment,
    brought: u64,
    given: u64,
) -> Result<Reception, Incomplete>
    ensures { result ≡ assigned base.now assignment.now brought given }
{
    match receive(base, assignment) {
        Reception::Taken(_) if brought != given => Err(Incomplete { brought, given }),
        reception => Ok(reception),
    }
}

impl ShardSlot {
    /// The slot before the assignment. An Unknown server has none.
    fn kept(&self, base: &Base) -> Slot
        ensures { result ≡ kept_slot base.now self.now.slot }
    {
        if base.is_unknown() {
            vacant()
        } else {
            self.slot
        }
    }

    /// The shard once its server, which had this base before, has taken the assignment.
    pub fn assigned(&self, base: &Base) -> ShardSlot
        ensures { result ≡ assigned_shard base.now self.now }
    {
        let kept = self.kept(base);
        let slot = match &self.brought {
            None => place(&kept, Cell::Absent, 0),
            Some(part) => place(&kept, part.cell, part.load),
        };
        ShardSlot { slot, ..*self }
    }
}

/// The number of shards for which a slot is brought.
fn count_parts(shards: &[ShardSlot]) -> usize
    ensures { result ≡ count_brought shards.now }
{
    shards
        .iter()
        .filter(|shard| shard.brought.is_some())
        .count()
}

/// Makes each shard what the assignment that its server takes brings.
fn assign_each(base: &Base, shards: &mut [ShardSlot])
    ensures { shards.new ≡ map (assigned_shard base.now) shards.old }
{
    for shard in shards.iter_mut() {
        *shard = shard.assigned(base);
    }
}

/// Takes an assignment that brings a number of slots, or nothing of it. `shards` are all shards of which the server has
/// a slot, or of which one is brought. If the assignment is taken, each of them is changed: where nothing is brought,
/// the slot is absent. Base and slots are to be stored in one act.
pub fn take(
    base: &Base,
    assignment: &Assignment,
    brought: u64,
    shards: &mut [ShardSlot],
) -> Result<Reception, Incomplete>
    ensures answer { result ≡ assigned base.now assignment.now brought (count_brought shards.old) }
    ensures shards { shards.new ≡ assigned_shards base.now result shards.old }
{
    let result = assign(base, assignment, brought, count_parts(shards) as u64);
    if let Ok(Reception::Taken(_)) = result {
        assign_each(base, shards);
    }
    result
}
