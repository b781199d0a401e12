//! Fences as they go out.
ghost use Rattle.std.specs.Prelude.{◌≡◌, ◌++◌, OnOk, option_map};
ghost use Rattle.std.specs.List.{flat_map};
ghost use Rattle.smpland_reopening_lines.specs.Parties.{addressed_members, fence_text, fences_member, party_name};

use sm_reopening::Party;
use smpland_lines::{Writer, server_name, write_name, write_number, write_text};
use smpland_reopening::DocumentReopening;
use std::alloc::{AllocError, Global};

/// The name of a party; the map's owner has none.
pub(crate) fn party_name<'r>(reopening: &'r DocumentReopening, party: Party) -> Option<&'r str>
    ensures { option_map (λ name. name.now) result ≡ party_name reopening.now.numbering party }
{
    match party {
        Party::Server(server) => Some(server_name(reopening.numbering(), server)),
        Party::MapOwner => None,
    }
}

/// Writes the head of a message to a party: the party, and the journal and the base of the reopening.
pub(crate) fn write_head(
    writer: &mut Writer,
    reopening: &DocumentReopening,
    journal: &str,
    party: Party,
) -> Result<(), AllocError>
    ensures { OnOk result (writer.new.tokens ≡ writer.old.tokens ++ addressed_members journal.now reopening.now party) }
{
    write_name(writer, "server", party_name(reopening, party))?;
    write_text(writer, "journal", journal)?;
    write_number(writer, "base", reopening.base())?;
    Ok(())
}

/// Writes the fence to a party.
fn write_fence(
    writer: &mut Writer,
    reopening: &DocumentReopening,
    journal: &str,
    party: Party,
) -> Result<(), AllocError>
    ensures { OnOk result (writer.new.tokens ≡ writer.old.tokens ++ fence_text journal.now reopening.now party) }
{
    writer.begin_object()?;
    write_head(writer, reopening, journal, party)?;
    writer.end_object()?;
    Ok(())
}

/// Writes the fences to parties.
fn write_each_fence(
    writer: &mut Writer,
    reopening: &DocumentReopening,
    journal: &str,
    parties: &[Party],
) -> Result<(), AllocError>
    ensures { OnOk result (writer.new.tokens ≡ writer.old.tokens
        ++ flat_map (fence_text journal.now reopening.now) parties.now) }
{
    for party in parties {
        write_fence(writer, reopening, journal, *party)?;
    }
    Ok(())
}

/// Writes, as a member, the fences that are not answered.
pub fn write_fences(
    writer: &mut Writer,
    alloc: Global,
    reopening: &DocumentReopening,
    journal: &str,
) -> Result<(), AllocError>
    ensures { OnOk result (writer.new.tokens ≡ writer.old.tokens ++ fences_member journal.now reopening.now) }
{
    let parties = reopening.unanswered(alloc)?;
    writer.key("fence")?;
    writer.begin_array()?;
    write_each_fence(writer, reopening, journal, parties.as_slice())?;
    writer.end_array()?;
    Ok(())
}
