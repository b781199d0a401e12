//! Replies that tell how far a reopening is.
ghost use Rattle.std.specs.Prelude.{◌≡◌, ◌++◌, IfOk, OnOk};
ghost use Rattle.smpland_reopening.specs.Stages.{stage_of};
ghost use Rattle.smpland_reopening_lines.specs.Progress.{parties_left, progress_member, progress_members, proposal_at};
ghost use Rattle.smpland_reopening_lines.specs.Progress.{stage_text};

use crate::proposed::{write_proposal, write_waiting};
use sm_reopening::Party;
use smpland_lines::{Writer, write_number, write_text};
use smpland_reopening::{DocumentReopening, Stage};
use std::alloc::{AllocError, Global};

/// The word for a stage.
fn stage_word(stage: Stage) -> &'static str
    ensures { result.now ≡ stage_text stage }
{
    match stage {
        Stage::Fence => "fence",
        Stage::Confirm => "confirm",
        Stage::Settle => "settle",
    }
}

/// The parties whose answers are missing: those to settles, or otherwise those to fences.
fn parties_left(
    reopening: &DocumentReopening,
    alloc: Global,
    stage: Stage,
) -> Result<Vec<Party>, AllocError>
    ensures { IfOk result (λ parties. parties.items ≡ parties_left reopening.now stage) }
{
    match stage {
        Stage::Settle => reopening.unsettled(alloc),
        Stage::Fence | Stage::Confirm => reopening.unanswered(alloc),
    }
}

/// Writes, as a member, what may be confirmed, if something may be at this stage.
fn write_proposal_at(
    writer: &mut Writer,
    alloc: Global,
    reopening: &DocumentReopening,
    stage: Stage,
) -> Result<(), AllocError>
    ensures { OnOk result (writer.new.tokens ≡ writer.old.tokens ++ proposal_at reopening.now stage) }
{
    match stage {
        Stage::Confirm => write_proposal(writer, alloc, reopening),
        Stage::Fence | Stage::Settle => Ok(()),
    }
}

/// Writes the members of a reopening at this stage.
fn write_progress_members(
    writer: &mut Writer,
    alloc: Global,
    reopening: &DocumentReopening,
    stage: Stage,
) -> Result<(), AllocError>
    ensures { OnOk result (writer.new.tokens ≡ writer.old.tokens ++ progress_members reopening.now stage) }
{
    let parties = parties_left(reopening, alloc, stage)?;
    write_number(writer, "base", reopening.base())?;
    write_text(writer, "is", stage_word(stage))?;
    write_waiting(writer, reopening, &parties)?;
    write_proposal_at(writer, alloc, reopening, stage)
}

/// Writes, as a member, how far a reopening is.
pub fn write_progress(
    writer: &mut Writer,
    alloc: Global,
    reopening: &DocumentReopening,
) -> Result<(), AllocError>
    ensures { OnOk result (writer.new.tokens ≡ writer.old.tokens ++ progress_member reopening.now) }
{
    let stage = reopening.stage(alloc)?;
    writer.key("reopening")?;
    writer.begin_object()?;
    write_progress_members(writer, alloc, reopening, stage)?;
    writer.end_object()?;
    Ok(())
}
