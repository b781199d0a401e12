//! Answers to orders and publications.
ghost use Rattle.std.specs.Prelude.{◌≡◌, ◌++◌, IfOk, OnOk, codes};
ghost use Rattle.smpland_lines.specs.Members.{text_member};
ghost use Rattle.sm_driver.specs.Driver.{record_of};
ghost use Rattle.smpland_state.specs.Replies.{gone_on};
ghost use Rattle.smpland_session.specs.Outcomes.{AnsweredOutcome, HasMovedWith};

use crate::command_context::CommandContext;
use crate::decline::{Decline, Ignored};
use crate::driver_outcome::DriverOutcome;
use sm_driver::{AnswerEffect, StreamMessage};
use sm_reservation::StreamId;
use smpland_lines::{Writer, write_text};
use smpland_state::{JournalState, note_answered};
use std::alloc::{AllocError, Global};

/// Writes that a command tells nothing new.
pub fn write_ignored(writer: &mut Writer, why: &str) -> Result<(), AllocError>
    ensures { OnOk result (writer.new.tokens ≡ writer.old.tokens ++ text_member (codes "ignored") why.now) }
{
    write_text(writer, "ignored", why)
}

/// Notes at a place that a message was answered, if there was one, and which streams have gone on.
fn note(
    opened: &mut JournalState,
    place: u64,
    message: Option<StreamMessage>,
    gone_on: &[StreamId],
) -> Result<(), AllocError>
    ensures driver { opened.new.driver ≡ opened.old.driver }
{
    match message {
        Some(message) => {
            note_answered(&mut opened.history, &opened.driver, place, message, gone_on)
        }
        None => Ok(()),
    }
}

/// The outcome of an answer whose stream has made its step: the streams that do not stand as they stood have gone on.
fn moved(
    opened: &mut JournalState,
    place: u64,
    alloc: Global,
    message: Option<StreamMessage>,
    id: StreamId,
    sinces: &[u32],
) -> Result<DriverOutcome, AllocError>
    ensures driver { opened.new.driver ≡ opened.old.driver }
    ensures outcome { IfOk result (HasMovedWith id (gone_on (record_of opened.old.driver) id.plan sinces.now)) }
{
    let gone_on = opened.messages(alloc).gone_on(id.plan, sinces)?;
    note(opened, place, message, gone_on.as_slice())?;
    Ok(DriverOutcome::Moved {
        stream: id,
        gone_on,
    })
}

/// Takes the answer to an order or a publication.
pub fn answered(
    opened: &mut JournalState,
    at: CommandContext,
    alloc: Global,
    id: StreamId,
    number: u64,
) -> Result<DriverOutcome, AllocError>
    ensures { IfOk result (λ outcome. AnsweredOutcome id number at.is_reopening opened.old outcome opened.new) }
{
    if at.is_reopening {
        return Ok(DriverOutcome::Declined(Decline::Ignored(Ignored::Old)));
    }
    let sinces = opened.messages(alloc).sinces(id.plan)?;
    let message = opened.driver.message(id);
    match opened.driver.answered(id, number) {
        AnswerEffect::Moved => moved(opened, at.place, alloc, message, id, sinces.as_slice()),
        AnswerEffect::Old => Ok(DriverOutcome::Declined(Decline::Ignored(Ignored::Old))),
        AnswerEffect::Unknown => Ok(DriverOutcome::Declined(Decline::Ignored(Ignored::Unknown))),
    }
}
