//! Why a reopening does not begin, and why nothing is confirmed.
ghost use Rattle.std.specs.Prelude.{OnOk};
ghost use Rattle.smpland_lines.specs.Refusals.{TellsRefused};

use crate::fences::party_name;
use sm_placement::{Config, OpenFault};
use sm_reopening::{ConfirmFault, Party};
use sm_server::{ServerId, ShardId};
use smpland_lines::{Field, Writer, refuse, refuse_log, refuse_open, server_name, shard_name};
use smpland_reopening::{ConfirmRefusal, DocumentReopening, ReopenFault};
use std::alloc::{AllocError, Global};

/// Writes why a reopening under a document does not begin.
pub fn refuse_reopen(
    writer: &mut Writer,
    alloc: Global,
    document: &Config,
    fault: ReopenFault,
) -> Result<(), AllocError>
    ensures { OnOk result (TellsRefused writer.old.tokens writer.new.tokens) }
{
    match fault {
        ReopenFault::NoMemory => Err(AllocError),
        ReopenFault::DoubleCell { shard, server } => {
            let fault = OpenFault::DoubleCell { shard, server };
            refuse_open(writer, alloc, document, fault)
        }
        ReopenFault::BadLead { shard } => {
            refuse_open(writer, alloc, document, OpenFault::BadLead { shard })
        }
        ReopenFault::LostServer { server } => {
            let server = Field::Name("server", server_name(document, server));
            refuse(writer, alloc, "LostServer", &[server])
        }
        ReopenFault::TooMany => refuse(writer, alloc, "TooMany", &[]),
    }
}

/// Writes that a party has to answer the fence before.
fn refuse_missing(
    writer: &mut Writer,
    alloc: Global,
    reopening: &DocumentReopening,
    party: Party,
) -> Result<(), AllocError>
    ensures { OnOk result (TellsRefused writer.old.tokens writer.new.tokens) }
{
    match party_name(reopening, party) {
        Some(name) => refuse(writer, alloc, "Missing", &[Field::Name("server", name)]),
        None => refuse(writer, alloc, "Missing", &[Field::MapOwner("server")]),
    }
}

/// The place of a cell: a shard, and a server.
#[derive(Clone, Copy)]
struct CellPlace {
    shard: ShardId,
    server: ServerId,
}

/// Writes what is wrong with a cell.
fn refuse_cell(
    writer: &mut Writer,
    alloc: Global,
    numbering: &Config,
    kind: &str,
    at: CellPlace,
) -> Result<(), AllocError>
    ensures { OnOk result (TellsRefused writer.old.tokens writer.new.tokens) }
{
    let shard = Field::Name("shard", shard_name(numbering, at.shard));
    let server = Field::Name("server", server_name(numbering, at.server));
    refuse(writer, alloc, kind, &[shard, server])
}

/// Writes why cells may not be settled.
fn refuse_cells(
    writer: &mut Writer,
    alloc: Global,
    reopening: &DocumentReopening,
    fault: ConfirmFault,
) -> Result<(), AllocError>
    ensures { OnOk result (TellsRefused writer.old.tokens writer.new.tokens) }
{
    let numbering = reopening.numbering();
    match fault {
        ConfirmFault::Confirmed => refuse(writer, alloc, "Confirmed", &[]),
        ConfirmFault::Missing { party } => refuse_missing(writer, alloc, reopening, party),
        ConfirmFault::LogFull => refuse_log(writer, alloc),
        ConfirmFault::CarriedUp { server } => {
            let server = Field::Name("server", server_name(numbering, server));
            refuse(writer, alloc, "CarriedUp", &[server])
        }
        ConfirmFault::CarriedOver { shard, server } => {
            let at = CellPlace { shard, server };
            refuse_cell(writer, alloc, numbering, "CarriedOver", at)
        }
        ConfirmFault::AtLost { shard, server } => {
            let at = CellPlace { shard, server };
            refuse_cell(writer, alloc, numbering, "AtLost", at)
        }
        ConfirmFault::StillThere { shard, server } => {
            let at = CellPlace { shard, server };
            refuse_cell(writer, alloc, numbering, "StillThere", at)
        }
        ConfirmFault::Primary { shard, server } => {
            let at = CellPlace { shard, server };
            refuse_cell(writer, alloc, numbering, "Primary", at)
        }
        ConfirmFault::Moved { shard, server } => {
            let at = CellPlace { shard, server };
            refuse_cell(writer, alloc, numbering, "Moved", at)
        }
        ConfirmFault::LowerChoice { shard, server } => {
            let at = CellPlace { shard, server };
            refuse_cell(writer, alloc, numbering, "LowerChoice", at)
        }
        ConfirmFault::NoPrimary { shard } => {
            let shard = Field::Name("shard", shard_name(numbering, shard));
            refuse(writer, alloc, "NoPrimary", &[shard])
        }
    }
}

/// Writes that a server has a shard that nobody knows.
fn refuse_unknown_shard(
    writer: &mut Writer,
    alloc: Global,
    reopening: &DocumentReopening,
) -> Result<(), AllocError>
    ensures { OnOk result (TellsRefused writer.old.tokens writer.new.tokens) }
{
    match reopening.first_unknown_shard() {
        Some(unknown_shard) => {
            let shard = Field::Name("shard", unknown_shard.shard.as_str());
            let server = server_name(reopening.numbering(), unknown_shard.server);
            refuse(
                writer,
                alloc,
                "StillThere",
                &[shard, Field::Name("server", server)],
            )
        }
        None => refuse(writer, alloc, "StillThere", &[]),
    }
}

/// Writes that a shard may be lost and is not named, or is named and not among those.
fn refuse_unnamed(
    writer: &mut Writer,
    alloc: Global,
    reopening: &DocumentReopening,
    shard: ShardId,
) -> Result<(), AllocError>
    ensures { OnOk result (TellsRefused writer.old.tokens writer.new.tokens) }
{
    let numbering = reopening.numbering();
    if shard.number() >= numbering.shard_count() {
        return refuse(writer, alloc, "Unnamed", &[]);
    }
    let shard = Field::Name("shard", shard_name(numbering, shard));
    refuse(writer, alloc, "Unnamed", &[shard])
}

/// Writes why nothing is confirmed.
pub fn refuse_confirm(
    writer: &mut Writer,
    alloc: Global,
    reopening: &DocumentReopening,
    refusal: ConfirmRefusal,
) -> Result<(), AllocError>
    ensures { OnOk result (TellsRefused writer.old.tokens writer.new.tokens) }
{
    match refusal {
        ConfirmRefusal::NoMemory => Err(AllocError),
        ConfirmRefusal::Missing { party } => refuse_missing(writer, alloc, reopening, party),
        ConfirmRefusal::Unnamed { shard } => refuse_unnamed(writer, alloc, reopening, shard),
        ConfirmRefusal::Placement(fault) => {
            refuse_open(writer, alloc, reopening.numbering(), fault)
        }
        ConfirmRefusal::Cells(fault) => refuse_cells(writer, alloc, reopening, fault),
        ConfirmRefusal::UnknownShard => refuse_unknown_shard(writer, alloc, reopening),
    }
}
