//! The lines that a reopening takes once it has begun.
ghost use Rattle.std.specs.Prelude.{◌≡◌, ℕ, IfOk, List, Some, map, option_map, true};
ghost use Rattle.json_tree.specs.View.{items_view};
ghost use Rattle.json_tree.specs.declared.tree.Tree.{Tree};
ghost use Rattle.smpland_lines.specs.Choices.{AreChoicesSaid};
ghost use Rattle.smpland_lines.specs.declared.command.InventoryText.{InventoryText};
ghost use Rattle.laws_network.specs.Reopening.{MapOwner, Server};
ghost use Rattle.sm_reopening.specs.States.{fits_told, net_inventory, told_copy};
ghost use Rattle.sm_reopening.specs.Ongoing.{net_reopening, shards_of};
ghost use Rattle.sm_reopening.specs.Settles.{net_party};
ghost use Rattle.smpland_reopening_lines.specs.Outcomes.{DoesConfirm, DoesFenced, DoesFencedOf, DoesSettled};
ghost use Rattle.smpland_reopening_lines.specs.Outcomes.{DoesSettledOf};
ghost use Rattle.smpland_reopening_lines.specs.Taken.{BeganBelow, IsToldAs, choice_made, choice_said, party_named};
ghost use Rattle.smpland_reopening_lines.specs.Taken.{replica_said, shard_told};

use crate::outcome::ReopeningOutcome;
use crate::told::{Told, began_below, first_later, told_by_slots, told_unknown};
use json_tree::Tree;
use sm_placement::Config;
use sm_reopening::{FencedEffect, Party, SettledEffect};
use sm_server::{Role, ServerId, ShardId};
use smpland_lines::{
    BadLine, CellChoice, CommandMember, InventoryText, ShardChoice, SlotNeeds, read_choices,
    read_slots,
};
use smpland_reopening::{Choice, ConfirmRefusal, DocumentReopening};
use std::alloc::{AllocError, Global};

/// The party that a line names, if it has a number.
fn party_named(reopening: &DocumentReopening, server: Option<&str>) -> Option<Party>
    ensures { option_map net_party result ≡ party_named reopening.now.numbering server.entry }
{
    match server {
        Some(name) => match reopening.numbering().server_named(name) {
            Some(server) => Some(Party::Server(server)),
            None => None,
        },
        None => Some(Party::MapOwner),
    }
}

/// What a server tells at a fence with this base, or the fault of its line.
fn read_told<'a>(
    alloc: Global,
    reopening: &DocumentReopening,
    base: u64,
    told: InventoryText<'_, 'a>,
) -> Result<Result<Told, BadLine<'a>>, AllocError>
    ensures fits { IfOk result (λ read. IfOk read (λ t.
        fits_told (shards_of reopening.now.ongoing) (Some t.inventory) ≡ true)) }
    ensures said { IfOk result (λ read. IfOk read (λ t.
        IsToldAs reopening.now.numbering told.entry (net_inventory t.inventory) (told_copy (Some t.inventory)))) }
    ensures below { IfOk result (λ read. IfOk read (λ t.
        (s : ℕ) → BeganBelow base (told_copy (Some t.inventory) s))) }
{
    let numbering = reopening.numbering();
    match told {
        InventoryText::Unknown { nonce } => Ok(Ok(told_unknown(alloc, nonce))),
        InventoryText::Slots(entries) => match read_slots(alloc, entries, SlotNeeds::Fence)? {
            Ok(slots) => {
                let rows = slots.as_slice();
                if !began_below(rows, base) {
                    let later = first_later(rows, base);
                    return Ok(Err(BadLine::Number(later, CommandMember::View)));
                }
                Ok(Ok(told_by_slots(alloc, numbering, rows)?))
            }
            Err(bad) => Ok(Err(bad)),
        },
        InventoryText::Map => Ok(Ok(told_by_slots(alloc, numbering, &[])?)),
    }
}

/// Takes what a server tells.
fn take_told<'a>(
    reopening: &mut DocumentReopening,
    alloc: Global,
    server: ServerId,
    base: u64,
    told: InventoryText<'_, 'a>,
) -> Result<ReopeningOutcome<'a>, AllocError>
    ensures { IfOk result (λ came. DoesFencedOf base told.entry (Server server) reopening.old came reopening.new) }
{
    match read_told(alloc, reopening, base, told)? {
        Ok(
            Told {
                inventory,
                unknown_shards,
            },
        ) => {
            match reopening.fenced(server, base, inventory, unknown_shards)? {
                FencedEffect::Old => Ok(ReopeningOutcome::Old),
                FencedEffect::Waiting | FencedEffect::Complete => Ok(ReopeningOutcome::Fenced),
            }
        }
        Err(bad) => Ok(ReopeningOutcome::Bad(bad)),
    }
}

/// Takes what a server tells if it is its first answer to this fence.
fn take_first<'a>(
    reopening: &mut DocumentReopening,
    alloc: Global,
    server: ServerId,
    base: u64,
    told: InventoryText<'_, 'a>,
) -> Result<ReopeningOutcome<'a>, AllocError>
    ensures { IfOk result (λ came. DoesFencedOf base told.entry (Server server) reopening.old came reopening.new) }
{
    if !reopening.is_first(&Party::Server(server), base) {
        return Ok(ReopeningOutcome::Old);
    }
    take_told(reopening, alloc, server, base, told)
}

/// Takes the answer of the map's owner, whatever it tells.
fn take_map(reopening: &mut DocumentReopening, base: u64) -> ReopeningOutcome<'static>
    ensures { (told : InventoryText) → DoesFencedOf base told MapOwner reopening.old result reopening.new }
{
    match reopening.map_fenced(base) {
        FencedEffect::Old => ReopeningOutcome::Old,
        FencedEffect::Waiting | FencedEffect::Complete => ReopeningOutcome::Fenced,
    }
}

/// Takes the answer of a party to the fence.
fn take_of<'a>(
    reopening: &mut DocumentReopening,
    alloc: Global,
    party: &Party,
    base: u64,
    told: InventoryText<'_, 'a>,
) -> Result<ReopeningOutcome<'a>, AllocError>
    ensures { IfOk result (λ came.
        DoesFencedOf base told.entry (net_party party.now) reopening.old came reopening.new) }
{
    match party {
        Party::MapOwner => Ok(take_map(reopening, base)),
        Party::Server(server) => take_first(reopening, alloc, *server, base, told),
    }
}

/// Takes the answer of a server to the fence, or of the map's owner.
pub fn take_fenced<'a>(
    reopening: &mut DocumentReopening,
    alloc: Global,
    server: Option<&str>,
    base: u64,
    told: InventoryText<'_, 'a>,
) -> Result<ReopeningOutcome<'a>, AllocError>
    ensures { IfOk result (λ came. DoesFenced server.entry base told.entry reopening.old came reopening.new) }
{
    match party_named(reopening, server) {
        Some(party) => take_of(reopening, alloc, &party, base, told),
        None => Ok(ReopeningOutcome::Old),
    }
}

/// Returns the replicas that were chosen of a shard.
fn replicas_of(alloc: Global, cells: &[CellChoice]) -> Result<Vec<(ServerId, Role)>, AllocError>
    ensures { IfOk result (λ replicas. replicas.items ≡ map replica_said cells.now) }
{
    let mut replicas = Vec::new(alloc);
    for cell in cells {
        replicas.push((cell.server, cell.role))?;
    }
    Ok(replicas)
}

/// Returns what was chosen.
fn choices_of(alloc: Global, shards: &[ShardChoice]) -> Result<Vec<Choice>, AllocError>
    ensures { IfOk result (λ choices. map choice_made choices.items ≡ map choice_said shards.now) }
{
    let mut choices = Vec::new(alloc);
    for shard in shards {
        let replicas = replicas_of(alloc, &shard.cells)?;
        choices.push(Choice {
            shard: shard.shard,
            replicas,
        })?;
    }
    Ok(choices)
}

/// The number of the shard that a value names: one that no shard has for a name that nobody knows.
fn shard_told(numbering: &Config, name: &Tree<'_>) -> ShardId
    ensures { result ≡ shard_told numbering.now name.now }
{
    let unknown = ShardId::new(u32::MAX);
    match name.as_str() {
        Some(name) => numbering.shard_named(name).unwrap_or(unknown),
        None => unknown,
    }
}

/// The numbers of the shards that values name.
fn shards_told(
    alloc: Global,
    numbering: &Config,
    names: &[Tree<'_>],
) -> Result<Vec<ShardId>, AllocError>
    ensures { IfOk result (λ shards. shards.items ≡ map (shard_told numbering.now) names.now) }
{
    let mut shards = Vec::new(alloc);
    for name in names {
        shards.push(shard_told(numbering, name))?;
    }
    Ok(shards)
}

/// Confirms what was chosen.
fn confirm(
    reopening: &mut DocumentReopening,
    alloc: Global,
    shards: &[ShardChoice],
    lost: &[Tree<'_>],
) -> Result<ReopeningOutcome<'static>, AllocError>
    ensures { IfOk result (λ came. (cells : List Tree)
        → AreChoicesSaid reopening.old.document.config (items_view cells) shards.now
        → DoesConfirm (net_reopening reopening.old.ongoing).base cells lost.now reopening.old came reopening.new) }
{
    let chosen = choices_of(alloc, shards)?;
    let named = shards_told(alloc, reopening.numbering(), lost)?;
    match reopening.confirm(alloc, chosen.as_slice(), named.as_slice()) {
        Ok(()) => Ok(ReopeningOutcome::Confirmed),
        Err(ConfirmRefusal::NoMemory) => Err(AllocError),
        Err(refusal) => Ok(ReopeningOutcome::Refused(refusal)),
    }
}

/// Confirms what is proposed, but for the shards whose cells are given. The shards that may be lost are named.
pub fn take_confirm<'a>(
    reopening: &mut DocumentReopening,
    alloc: Global,
    base: u64,
    cells: &[Tree<'a>],
    lost: &[Tree<'a>],
) -> Result<ReopeningOutcome<'a>, AllocError>
    ensures { IfOk result (λ came. DoesConfirm base cells.now lost.now reopening.old came reopening.new) }
{
    if base != reopening.base() || reopening.is_confirmed() {
        return Ok(ReopeningOutcome::Old);
    }
    match read_choices(alloc, reopening.documented(), cells)? {
        Ok(shards) => confirm(reopening, alloc, shards.as_slice(), lost),
        Err(bad) => Ok(ReopeningOutcome::Bad(bad)),
    }
}

/// Takes the answer of a party to its settle.
fn settle(reopening: &mut DocumentReopening, party: Party, base: u64) -> ReopeningOutcome<'static>
    ensures { DoesSettledOf base (net_party party) reopening.old result reopening.new }
{
    match reopening.settled(party, base) {
        SettledEffect::Old => ReopeningOutcome::Old,
        SettledEffect::Waiting => ReopeningOutcome::Settled,
        SettledEffect::Complete => ReopeningOutcome::Complete,
    }
}

/// Takes the answer to a settle from a server, or from the map's owner.
pub fn take_settled(
    reopening: &mut DocumentReopening,
    server: Option<&str>,
    base: u64,
) -> ReopeningOutcome<'static>
    ensures { DoesSettled server.entry base reopening.old result reopening.new }
{
    match party_named(reopening, server) {
        Some(party) => settle(reopening, party, base),
        None => ReopeningOutcome::Old,
    }
}
