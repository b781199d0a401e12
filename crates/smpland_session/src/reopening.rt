//! Lines on the reopening that is under way.
ghost use Rattle.std.specs.Prelude.{◌≡◌, IfOk, OnOk, is_some, true};
ghost use Rattle.sm_reopening.specs.Ongoing.{net_reopening};
ghost use Rattle.smpland_reopening_lines.specs.Outcomes.{DoesConfirm, DoesFenced};
ghost use Rattle.smpland_session.specs.Changes.{OpensFrom, OpensOf};
ghost use Rattle.smpland_session.specs.Reopenings.{DoesSettle, DoesUnderWay};

use crate::command_context::CommandContext;
use crate::under_way::UnderWay;
use json_tree::Tree;
use smpland_lines::InventoryText;
use smpland_reopening_lines::{ReopeningOutcome, take_confirm, take_fenced, take_settled};
use smpland_state::JournalState;
use std::alloc::{AllocError, Global};

/// Takes the answer of a server to a fence, or of the map's owner.
pub(crate) fn take_answer<'a>(
    under_way: &mut Option<UnderWay>,
    alloc: Global,
    server: Option<&str>,
    base: u64,
    told: InventoryText<'_, 'a>,
) -> Result<ReopeningOutcome<'a>, AllocError>
    ensures { IfOk result (λ came.
        DoesUnderWay (DoesFenced server.entry base told.entry) under_way.old came under_way.new) }
{
    match under_way {
        Some(current) => take_fenced(&mut current.reopening, alloc, server, base, told),
        None => Ok(ReopeningOutcome::Old),
    }
}

/// Confirms what is proposed, or what is chosen. The shards that may be lost are named.
pub(crate) fn confirm_cells<'a>(
    under_way: &mut Option<UnderWay>,
    alloc: Global,
    base: u64,
    cells: &[Tree<'a>],
    lost: &[Tree<'a>],
) -> Result<ReopeningOutcome<'a>, AllocError>
    ensures { IfOk result (λ came.
        DoesUnderWay (DoesConfirm base cells.now lost.now) under_way.old came under_way.new) }
{
    match under_way {
        Some(current) => take_confirm(&mut current.reopening, alloc, base, cells, lost),
        None => Ok(ReopeningOutcome::Old),
    }
}

/// Puts a reopening in force whose settlement all parties have taken.
fn put_in_force(
    opened: &mut Option<JournalState>,
    under_way: UnderWay,
    place: u64,
    alloc: Global,
) -> Result<(), AllocError>
    requires { is_some (net_reopening under_way.reopening.ongoing).settlement ≡ true }
    ensures in_force { OnOk result (OpensOf under_way.reopening opened.new) }
    ensures opened { OnOk result (OpensFrom under_way.reopening opened.new) }
{
    let UnderWay { reopening } = under_way;
    let log_room = reopening.log_room();
    let driver = reopening.put_in_force(alloc)?;
    let next = JournalState::reopened(alloc, opened.take(), driver, log_room, place)?;
    match opened.replace(next) {
        Some(before) => before.close(),
        None => {}
    }
    Ok(())
}

/// The answer to a settle: of a server, or of the map's owner, under a base.
#[derive(Clone, Copy)]
pub(crate) struct SettleAnswer<'s> {
    pub server: Option<&'s str>,
    pub base: u64,
}

/// Takes the answer to a settle. With the last one the next epoch is open.
pub(crate) fn take_settle(
    opened: &mut Option<JournalState>,
    under_way: &mut Option<UnderWay>,
    at: CommandContext,
    alloc: Global,
    answer: SettleAnswer<'_>,
) -> Result<ReopeningOutcome<'static>, AllocError>
    ensures { IfOk result (λ came.
        DoesSettle answer.entry.server answer.entry.base opened.old under_way.old came opened.new under_way.new) }
{
    let Some(mut current) = under_way.take() else {
        return Ok(ReopeningOutcome::Old);
    };
    let came = take_settled(&mut current.reopening, answer.server, answer.base);
    match came {
        ReopeningOutcome::Complete => put_in_force(opened, current, at.place, alloc)?,
        ReopeningOutcome::Fenced
        | ReopeningOutcome::Confirmed
        | ReopeningOutcome::Settled
        | ReopeningOutcome::Old
        | ReopeningOutcome::Bad(_)
        | ReopeningOutcome::Refused(_) => *under_way = Some(current),
    }
    Ok(came)
}
