//! Advice about a present order that its server did not take.
ghost use Rattle.std.specs.Prelude.{◌≡◌, ◌++◌, OnOk, codes, option_map};
ghost use Rattle.std.specs.Option.{option_copied};
ghost use Rattle.smpland_lines.specs.Members.{object_member};
ghost use Rattle.sm_driver.specs.Orders.{net_message};
ghost use Rattle.smpland_state.specs.Failed.{cause_members, failed_member, failure_members, nonce_above, nonce_for};
ghost use Rattle.smpland_state.specs.Failed.{nonce_members, nonce_now, unknown_members};

use crate::bits::write_bits;
use crate::journal_state::JournalState;
use crate::known::kept_restore;
use sm_driver::{AnswerEffect, Driver, ServerRestore, StreamMessage};
use sm_reservation::StreamId;
use sm_server::ServerId;
use smpland_lines::{FailedAnswer, Writer, write_text};
use std::alloc::{AllocError, Global};

/// An order that its server did not take: its stream, the number under which it was sent, and the server's answer.
#[derive(Clone, Copy)]
pub struct FailedOrder {
    pub stream: StreamId,
    pub number: u64,
    pub answer: FailedAnswer,
}

/// The nonce of a restore, if it was in the epoch of this base.
fn nonce_above(base: u64, restore: Option<&ServerRestore>) -> Option<u64>
    ensures { result ≡ nonce_above base (option_copied restore.entry) }
{
    let restore = restore?;
    if base <= restore.number() {
        Some(restore.nonce())
    } else {
        None
    }
}

/// The nonce under which a server was restored in the present epoch, if it was.
fn nonce_now(driver: &Driver, server: ServerId) -> Option<u64>
    ensures { result ≡ nonce_now driver.now server }
{
    nonce_above(driver.base(), kept_restore(driver, server))
}

/// The same of the server of an order.
fn nonce_for(driver: &Driver, message: Option<StreamMessage>) -> Option<u64>
    ensures { result ≡ nonce_for driver.now (option_map net_message message) }
{
    match message {
        Some(StreamMessage::Order(order)) => nonce_now(driver, order.call.server),
        Some(StreamMessage::Publication(_)) | None => None,
    }
}

/// Writes the member `nonce`, if there is one.
fn write_nonce(writer: &mut Writer, alloc: Global, nonce: Option<u64>) -> Result<(), AllocError>
    ensures { OnOk result (writer.new.tokens ≡ writer.old.tokens ++ nonce_members nonce) }
{
    match nonce {
        Some(nonce) => write_bits(writer, alloc, "nonce", nonce),
        None => Ok(()),
    }
}

/// Writes what an order that failed points to, and what is to be done then.
fn write_cause(
    writer: &mut Writer,
    alloc: Global,
    cause: &str,
    then: &str,
    nonce: Option<u64>,
) -> Result<(), AllocError>
    ensures { OnOk result (writer.new.tokens ≡ writer.old.tokens ++ cause_members cause.now then.now nonce) }
{
    write_text(writer, "cause", cause)?;
    write_text(writer, "then", then)?;
    write_nonce(writer, alloc, nonce)?;
    Ok(())
}

/// Writes the same of an order whose server has lost its slots.
fn write_unknown(writer: &mut Writer, alloc: Global, nonce: Option<u64>) -> Result<(), AllocError>
    ensures { OnOk result (writer.new.tokens ≡ writer.old.tokens ++ unknown_members nonce) }
{
    match nonce {
        Some(nonce) => write_cause(writer, alloc, "unknown", "restore", Some(nonce)),
        None => write_cause(writer, alloc, "unknown", "reopen", None),
    }
}

/// Writes the same by the server's answer.
fn write_failure_members(
    writer: &mut Writer,
    alloc: Global,
    answer: FailedAnswer,
    nonce: Option<u64>,
) -> Result<(), AllocError>
    ensures { OnOk result (writer.new.tokens ≡ writer.old.tokens ++ failure_members answer nonce) }
{
    match answer {
        FailedAnswer::Old => write_cause(writer, alloc, "ahead", "audit", None),
        FailedAnswer::Refused => write_cause(writer, alloc, "differs", "audit", None),
        FailedAnswer::Foreign => write_cause(writer, alloc, "foreign", "reopen", None),
        FailedAnswer::NotReady => write_unknown(writer, alloc, nonce),
    }
}

/// Writes the member `failed`.
fn write_failure(
    writer: &mut Writer,
    alloc: Global,
    answer: FailedAnswer,
    nonce: Option<u64>,
) -> Result<(), AllocError>
    ensures { OnOk result (writer.new.tokens ≡ writer.old.tokens
        ++ object_member (codes "failed") (failure_members answer nonce)) }
{
    writer.key("failed")?;
    writer.begin_object()?;
    write_failure_members(writer, alloc, answer, nonce)?;
    writer.end_object()?;
    Ok(())
}

/// Writes what is to be done about a present order that has failed, or that there is no such order.
pub fn write_failed(
    opened: &JournalState,
    alloc: Global,
    writer: &mut Writer,
    failed: FailedOrder,
) -> Result<(), AllocError>
    ensures { OnOk result (writer.new.tokens
        ≡ writer.old.tokens ++ failed_member opened.now.driver failed.stream failed.number failed.answer) }
{
    match opened.driver.due(failed.stream, failed.number) {
        AnswerEffect::Moved => {
            let nonce = nonce_for(&opened.driver, opened.driver.message(failed.stream));
            write_failure(writer, alloc, failed.answer, nonce)
        }
        AnswerEffect::Old => write_text(writer, "ignored", "old"),
        AnswerEffect::Unknown => write_text(writer, "ignored", "unknown"),
    }
}
