//! The plans of the present epoch, with how far their streams are: all, or one in a reply of its own.
ghost use Rattle.std.specs.Prelude.{◌≡◌, ◌∷◌, ◌++◌, OnOk, codes, length, min, true};
ghost use Rattle.std.specs.List.{flat_map, range_with_len};
ghost use Rattle.json.specs.Token.{key};
ghost use Rattle.sm_protocol.specs.State.{is_begun, stream_count, stream_id, stream_parts};
ghost use Rattle.sm_machine.specs.State.{state_of};
ghost use Rattle.sm_driver.specs.Driver.{record_of};
ghost use Rattle.smpland_state.specs.State.{TellsPlanState, number_now, plan_state, plan_state_member};
ghost use Rattle.smpland_state.specs.State.{plan_state_members, plan_word, stage_members, stream_members};
ghost use Rattle.smpland_state.specs.State.{stream_state, streams_state, plans_state, waits_members};

use crate::journal_state::JournalState;
use crate::messages::stream_count;
use sm_driver::Driver;
use sm_machine::Machine;
use sm_reservation::StreamId;
use smpland_lines::{Field, Writer, refuse, write_name, write_number, write_text};
use std::alloc::{AllocError, Global};

/// The number of instructions of a stream.
fn code_length(machine: &Machine, id: StreamId) -> u64
    requires { is_begun (state_of machine.now) id ≡ true }
    ensures { result ≡ length (stream_parts (state_of machine.now) id).code }
{
    let stream = &machine.plan(id.plan).streams()[id.stream as usize];
    stream.code.len() as u64
}

/// The number of the order or the publication that a stream stands before, if it stands before one.
fn number_now(driver: &Driver, id: StreamId) -> Option<u64>
    ensures { result ≡ number_now driver.now id }
{
    match driver.message(id) {
        Some(message) => Some(message.number()),
        None => None,
    }
}

/// Writes what a stream waits for: a signal, or the answer to a message.
fn write_waiting(
    writer: &mut Writer,
    signal: Option<u32>,
    number: Option<u64>,
) -> Result<(), AllocError>
    ensures { OnOk result (writer.new.tokens ≡ writer.old.tokens ++ waits_members signal number) }
{
    match (signal, number) {
        (Some(signal), _) => {
            write_text(writer, "is", "waiting")?;
            write_number(writer, "signal", u64::from(signal))?;
        }
        (None, Some(number)) => {
            write_text(writer, "is", "ordered")?;
            write_number(writer, "number", number)?;
        }
        (None, None) => {}
    }
    Ok(())
}

/// Writes whether a stream has ended, and otherwise what it waits for. A reopening has broken it off, if it had not
/// ended.
fn write_stage(
    opened: &JournalState,
    is_reopening: bool,
    writer: &mut Writer,
    id: StreamId,
) -> Result<(), AllocError>
    requires { is_begun (record_of opened.now.driver) id ≡ true }
    ensures { OnOk result (writer.new.tokens
        ≡ writer.old.tokens ++ stage_members opened.now.driver is_reopening id) }
{
    let machine = opened.driver.machine();
    if machine.is_done(id) {
        write_text(writer, "is", "done")
    } else if is_reopening {
        write_text(writer, "is", "broken_off")
    } else {
        let number = number_now(&opened.driver, id);
        write_waiting(writer, machine.blocked_on(id), number)
    }
}

/// Writes the members of a stream of a plan.
fn write_stream_members(
    opened: &JournalState,
    is_reopening: bool,
    writer: &mut Writer,
    id: StreamId,
) -> Result<(), AllocError>
    requires { is_begun (record_of opened.now.driver) id ≡ true }
    ensures { OnOk result (writer.new.tokens
        ≡ writer.old.tokens ++ stream_members opened.now.driver is_reopening id) }
{
    let machine = opened.driver.machine();
    write_number(writer, "at", machine.position(id) as u64)?;
    write_number(writer, "of", code_length(machine, id))?;
    write_stage(opened, is_reopening, writer, id)?;
    Ok(())
}

/// Writes a stream of a plan: where it is, and what it waits for.
fn write_stream(
    opened: &JournalState,
    is_reopening: bool,
    writer: &mut Writer,
    id: StreamId,
) -> Result<(), AllocError>
    requires { is_begun (record_of opened.now.driver) id ≡ true }
    ensures { OnOk result (writer.new.tokens
        ≡ writer.old.tokens ++ stream_state opened.now.driver is_reopening id) }
{
    writer.begin_object()?;
    write_stream_members(opened, is_reopening, writer, id)?;
    writer.end_object()?;
    Ok(())
}

/// Writes the streams of a plan.
fn write_each_stream(
    opened: &JournalState,
    is_reopening: bool,
    writer: &mut Writer,
    plan: u32,
) -> Result<(), AllocError>
    ensures { OnOk result (writer.new.tokens ≡ writer.old.tokens
        ++ flat_map (λ i. stream_state opened.now.driver is_reopening (stream_id plan i))
        (range_with_len 0 (stream_count (record_of opened.now.driver) plan))) }
{
    for stream in 0..stream_count(opened.driver.machine(), plan) {
        write_stream(opened, is_reopening, writer, StreamId { plan, stream })?;
    }
    Ok(())
}

/// Writes them, as a member.
fn write_streams(
    opened: &JournalState,
    is_reopening: bool,
    writer: &mut Writer,
    plan: u32,
) -> Result<(), AllocError>
    ensures { OnOk result (writer.new.tokens
        ≡ writer.old.tokens ++ streams_state opened.now.driver is_reopening plan) }
{
    writer.key("streams")?;
    writer.begin_array()?;
    write_each_stream(opened, is_reopening, writer, plan)?;
    writer.end_array()?;
    Ok(())
}

/// The word for whether a plan goes on.
fn plan_word(opened: &JournalState, is_reopening: bool, number: u32) -> &'static str
    ensures { result.now ≡ plan_word (record_of opened.now.driver) is_reopening number }
{
    if is_reopening {
        "broken_off"
    } else if opened.driver.machine().unfinished().contains(&number) {
        "running"
    } else {
        "ended"
    }
}

/// Writes the members of a plan of the present epoch.
fn write_plan_members(
    opened: &JournalState,
    is_reopening: bool,
    writer: &mut Writer,
    number: u32,
) -> Result<(), AllocError>
    ensures { OnOk result (writer.new.tokens ≡ writer.old.tokens ++ plan_state_members opened.now is_reopening number) }
{
    write_number(writer, "plan", u64::from(number))?;
    write_name(writer, "name", opened.plans.present_at(number as usize))?;
    write_text(writer, "is", plan_word(opened, is_reopening, number))?;
    write_streams(opened, is_reopening, writer, number)?;
    Ok(())
}

/// Writes a plan of the present epoch: its name, and how far its streams are.
fn write_plan(
    opened: &JournalState,
    is_reopening: bool,
    writer: &mut Writer,
    number: u32,
) -> Result<(), AllocError>
    ensures { OnOk result (writer.new.tokens ≡ writer.old.tokens ++ plan_state opened.now is_reopening number) }
{
    writer.begin_object()?;
    write_plan_members(opened, is_reopening, writer, number)?;
    writer.end_object()?;
    Ok(())
}

/// Writes all plans of the present epoch.
fn write_each_plan(
    opened: &JournalState,
    is_reopening: bool,
    writer: &mut Writer,
) -> Result<(), AllocError>
    ensures { OnOk result (writer.new.tokens ≡ writer.old.tokens ++ flat_map (plan_state opened.now is_reopening)
        (range_with_len 0 (min (length (record_of opened.now.driver).plans) 4294967295))) }
{
    for number in 0..opened.plan_count() {
        write_plan(opened, is_reopening, writer, number)?;
    }
    Ok(())
}

/// Writes them, as a member.
pub fn write_plans(
    opened: &JournalState,
    is_reopening: bool,
    writer: &mut Writer,
) -> Result<(), AllocError>
    ensures { OnOk result (writer.new.tokens ≡ writer.old.tokens ++ plans_state opened.now is_reopening) }
{
    writer.key("plans")?;
    writer.begin_array()?;
    write_each_plan(opened, is_reopening, writer)?;
    writer.end_array()?;
    Ok(())
}

/// Writes, as a member, a plan.
fn write_plan_member(
    opened: &JournalState,
    is_reopening: bool,
    writer: &mut Writer,
    number: u32,
) -> Result<(), AllocError>
    ensures { OnOk result (writer.new.tokens
        ≡ writer.old.tokens ++ (key (codes "plan") ∷ plan_state opened.now is_reopening number)) }
{
    writer.key("plan")?;
    write_plan(opened, is_reopening, writer, number)?;
    Ok(())
}

/// Writes, as a member of a reply, the state of a plan.
fn write_plan_state(
    opened: &JournalState,
    is_reopening: bool,
    writer: &mut Writer,
    number: u32,
) -> Result<(), AllocError>
    ensures { OnOk result (writer.new.tokens ≡ writer.old.tokens ++ plan_state_member opened.now is_reopening number) }
{
    writer.key("state")?;
    writer.begin_object()?;
    write_plan_member(opened, is_reopening, writer, number)?;
    writer.end_object()?;
    Ok(())
}

/// Writes, as a member of a reply, how far a plan of the present epoch is, or that there is none.
pub fn write_plan_of(
    opened: &JournalState,
    is_reopening: bool,
    alloc: Global,
    writer: &mut Writer,
    number: u32,
) -> Result<(), AllocError>
    ensures { OnOk result (TellsPlanState opened.now is_reopening number writer.old.tokens writer.new.tokens) }
{
    if u64::from(number) < opened.driver.machine().plan_count() {
        write_plan_state(opened, is_reopening, writer, number)
    } else {
        let plan = Field::Number("plan", u64::from(number));
        refuse(writer, alloc, "UnknownPlan", &[plan])
    }
}
