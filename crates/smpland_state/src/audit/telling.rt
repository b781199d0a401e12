//! The reply to an audit.
ghost use Rattle.std.specs.Prelude.{◌≡◌, ◌++◌, [], OnOk, Some, codes};
ghost use Rattle.std.specs.Option.{option_map_or};
ghost use Rattle.smpland_lines.specs.Members.{number_member, object, object_member};
ghost use Rattle.smpland_lines.specs.Slots.{cell_word};
ghost use Rattle.smpland_state.specs.Cells.{cell_members};
ghost use Rattle.smpland_state.specs.Audit.{audited_member, difference_members, found_members, told_party};
ghost use Rattle.smpland_state.specs.Audit.{word_members};

use crate::cells::write_cell;
use sm_placement::Config;
use sm_server::Cell;
use smpland_lines::{CellKind, PartyText, SlotText, Writer, write_name, write_number, write_text};
use std::alloc::AllocError;

/// The word for what a slot tells.
fn kind_word(kind: CellKind) -> &'static str
    ensures { result.now ≡ cell_word kind }
{
    match kind {
        CellKind::Absent => "absent",
        CellKind::Prepared => "prepared",
        CellKind::Secondary => "secondary",
        CellKind::Primary => "primary",
        CellKind::Forwarding => "forwarding",
    }
}

/// Writes, as a member, the other party of a handover as it is told.
fn write_told_party(writer: &mut Writer, party: PartyText<'_>) -> Result<(), AllocError>
    ensures { OnOk result (writer.new.tokens ≡ writer.old.tokens ++ told_party party.entry) }
{
    match party {
        PartyText::Missing => Ok(()),
        PartyText::Null => write_name(writer, "party", None),
        PartyText::Name(name) => write_text(writer, "party", name),
    }
}

/// Writes, as a member, the number of a handover as it is told.
fn write_told_number(writer: &mut Writer, handover: Option<u64>) -> Result<(), AllocError>
    ensures { OnOk result (writer.new.tokens
        ≡ writer.old.tokens ++ option_map_or (number_member (codes "handover")) handover []) }
{
    match handover {
        Some(number) => write_number(writer, "handover", number),
        None => Ok(()),
    }
}

/// Writes the members of a slot as it is told.
fn write_told_slot(writer: &mut Writer, slot: SlotText<'_>) -> Result<(), AllocError>
    ensures { OnOk result (writer.new.tokens ≡ writer.old.tokens ++ found_members (Some slot.entry)) }
{
    write_text(writer, "cell", kind_word(slot.cell))?;
    write_told_party(writer, slot.party)?;
    write_told_number(writer, slot.handover)?;
    Ok(())
}

/// Writes the same, also of a shard without a told slot.
fn write_found_members(writer: &mut Writer, slot: Option<SlotText<'_>>) -> Result<(), AllocError>
    ensures { OnOk result (writer.new.tokens ≡ writer.old.tokens ++ found_members slot.entry) }
{
    match slot {
        Some(slot) => write_told_slot(writer, slot),
        None => write_text(writer, "cell", "absent"),
    }
}

/// Writes them, as a member.
fn write_found(writer: &mut Writer, slot: Option<SlotText<'_>>) -> Result<(), AllocError>
    ensures { OnOk result (writer.new.tokens
        ≡ writer.old.tokens ++ object_member (codes "found") (found_members slot.entry)) }
{
    writer.key("found")?;
    writer.begin_object()?;
    write_found_members(writer, slot)?;
    writer.end_object()?;
    Ok(())
}

/// Writes, as a member, what is recorded.
fn write_recorded_cell(writer: &mut Writer, config: &Config, cell: Cell) -> Result<(), AllocError>
    ensures { OnOk result (writer.new.tokens
        ≡ writer.old.tokens ++ object_member (codes "recorded") (cell_members config.now (codes "cell") cell)) }
{
    writer.key("recorded")?;
    writer.begin_object()?;
    write_cell(writer, config, "cell", cell)?;
    writer.end_object()?;
    Ok(())
}

/// Writes the members of a difference.
fn write_difference_members(
    writer: &mut Writer,
    config: &Config,
    shard: &str,
    recorded: Cell,
    slot: Option<SlotText<'_>>,
) -> Result<(), AllocError>
    ensures { OnOk result (writer.new.tokens
        ≡ writer.old.tokens ++ difference_members config.now shard.now recorded slot.entry) }
{
    write_text(writer, "shard", shard)?;
    write_recorded_cell(writer, config, recorded)?;
    write_found(writer, slot)?;
    Ok(())
}

/// Writes a difference.
pub fn write_difference(
    writer: &mut Writer,
    config: &Config,
    shard: &str,
    recorded: Cell,
    slot: Option<SlotText<'_>>,
) -> Result<(), AllocError>
    ensures { OnOk result (writer.new.tokens
        ≡ writer.old.tokens ++ object (difference_members config.now shard.now recorded slot.entry)) }
{
    writer.begin_object()?;
    write_difference_members(writer, config, shard, recorded, slot)?;
    writer.end_object()?;
    Ok(())
}

/// Writes the members of a server of which something is found, in a word.
pub fn write_word(writer: &mut Writer, server: &str, word: &str) -> Result<(), AllocError>
    ensures { OnOk result (writer.new.tokens ≡ writer.old.tokens ++ word_members server.now word.now) }
{
    write_text(writer, "server", server)?;
    write_text(writer, "is", word)?;
    Ok(())
}

/// Writes, as a member of a reply, what an audit of a server has found, in a word.
pub fn write_audited(writer: &mut Writer, server: &str, word: &str) -> Result<(), AllocError>
    ensures { OnOk result (writer.new.tokens ≡ writer.old.tokens ++ audited_member server.now word.now) }
{
    writer.key("audit")?;
    writer.begin_object()?;
    write_word(writer, server, word)?;
    writer.end_object()?;
    Ok(())
}
