//! Plans that are not begun: whether one would begin now, and plans that are made.
ghost use Rattle.std.specs.Prelude.{◌≡◌, ◌++◌, IfErr, IfOk, None, OnOk, count_by, length, sum_by};
ghost use Rattle.json_tree.specs.View.{view};
ghost use Rattle.sm_placement.specs.Setup.{server_named, sizes_of};
ghost use Rattle.sm_plan_code.specs.Instr.{is_call};
ghost use Rattle.sm_plan_code.specs.Plan.{IsKnownPlan};
ghost use Rattle.sm_verifier.specs.Plan.{IsSound};
ghost use Rattle.smpland_state.specs.Known.{unknown_called};
ghost use Rattle.smpland_session.specs.Asked.{SaysPlan};
ghost use Rattle.smpland_session.specs.Checks.{IsUnchecked, IsUnready, TellsCheck, TellsVerdict, accepted_member};
ghost use Rattle.smpland_session.specs.Checks.{accepted_members};
ghost use Rattle.smpland_session.specs.Planned.{TellsDrain, TellsMade, TellsMoves, plan_member};

use crate::decline::Decline;
use json_tree::Tree;
use sm_machine::Machine;
use sm_placement::Config;
use sm_plan_code::Plan;
use sm_plan_text::{TextFault, read_plan_value, write_plan};
use sm_planner::{NoPlan, drain, moves};
use sm_verifier::{Checked, Fault, check};
use smpland_lines::{
    BadLine, CommandMember, LinePart, Writer, read_moves_in, refuse_begin, write_bad, write_number,
    write_refusal,
};
use smpland_state::{JournalState, calls_of, copy_text, unknown_called};
use std::alloc::{AllocError, Global};

/// The plan that a value says over the names of a journal's servers and shards, if it passes the check.
fn check_plan(
    opened: &JournalState,
    alloc: Global,
    value: &Tree<'_>,
) -> Result<Result<Checked, Decline>, AllocError>
    ensures setup { IfOk result (λ found. IfOk found (λ checked.
        checked.setup ≡ opened.now.driver.machine.placement.setup)) }
    ensures said { IfOk result (λ found. IfOk found (λ checked.
        SaysPlan opened.now.driver.machine.placement.setup (view value.now) checked.plan)) }
    ensures sound { IfOk result (λ found. IfOk found (λ checked.
        IsSound (sizes_of opened.now.driver.machine.placement.setup) checked.plan)) }
    ensures unchecked { IfOk result (λ found. IfErr found
        (IsUnchecked opened.now.driver.machine.placement.setup (view value.now))) }
{
    let config = opened.driver.machine().config();
    let plan = match read_plan_value(alloc, config, value) {
        Ok(plan) => plan,
        Err(TextFault::NoMemory) => return Err(AllocError),
        Err(fault) => return Ok(Err(Decline::NoPlan(fault))),
    };
    match check(alloc, config, plan) {
        Ok(checked) => Ok(Ok(checked)),
        Err((_, Fault::NoMemory)) => Err(AllocError),
        Err((_, fault)) => Ok(Err(Decline::Unchecked(fault))),
    }
}

/// The same, if it calls no server that is not known.
pub fn known_plan(
    opened: &JournalState,
    alloc: Global,
    value: &Tree<'_>,
) -> Result<Result<Checked, Decline>, AllocError>
    ensures setup { IfOk result (λ found. IfOk found (λ checked.
        checked.setup ≡ opened.now.driver.machine.placement.setup)) }
    ensures said { IfOk result (λ found. IfOk found (λ checked.
        SaysPlan opened.now.driver.machine.placement.setup (view value.now) checked.plan)) }
    ensures sound { IfOk result (λ found. IfOk found (λ checked.
        IsSound (sizes_of opened.now.driver.machine.placement.setup) checked.plan)) }
    ensures known { IfOk result (λ found. IfOk found (λ checked.
        unknown_called opened.now.driver checked.plan ≡ None)) }
    ensures unready { IfOk result (λ found. IfErr found (IsUnready opened.now.driver (view value.now))) }
{
    let checked = match check_plan(opened, alloc, value)? {
        Ok(checked) => checked,
        Err(why) => return Ok(Err(why)),
    };
    match unknown_called(&opened.driver, checked.plan()) {
        Some(server) => Ok(Err(Decline::Unknown(server))),
        None => Ok(Ok(checked)),
    }
}

/// Writes, as a member of a reply, a plan.
fn write_made(
    alloc: Global,
    writer: &mut Writer,
    config: &Config,
    plan: &Plan,
) -> Result<(), AllocError>
    requires { IsKnownPlan (length config.now.shards) (length config.now.servers) plan.now }
    ensures { OnOk result (writer.new.tokens ≡ writer.old.tokens ++ plan_member config.now plan.now) }
{
    let text = write_plan(alloc, config, plan)?;
    writer.key("plan")?;
    copy_text(alloc, writer, text.as_slice())
}

/// Writes what a planner has answered.
fn write_answer(
    alloc: Global,
    writer: &mut Writer,
    config: &Config,
    answer: Result<Checked, NoPlan>,
) -> Result<(), AllocError>
    requires { IfOk answer (λ checked. checked.setup ≡ config.now) }
    ensures { OnOk result (TellsMade config.now answer writer.old.tokens writer.new.tokens) }
{
    match answer {
        Ok(checked) => write_made(alloc, writer, config, checked.plan()),
        Err(NoPlan::NoMemory) => Err(AllocError),
        Err(why) => write_refusal(writer, alloc, &why.refusal(config)),
    }
}

/// Writes a plan of moves, or why there is none.
pub fn write_moves(
    opened: &JournalState,
    alloc: Global,
    writer: &mut Writer,
    entries: &[Tree<'_>],
) -> Result<(), AllocError>
    ensures { OnOk result (TellsMoves opened.now.driver.machine writer.old.tokens writer.new.tokens) }
{
    let machine = opened.driver.machine();
    match read_moves_in(alloc, machine.config(), entries)? {
        Ok(list) => {
            let answer = moves(alloc, machine, list.as_slice());
            write_answer(alloc, writer, machine.config(), answer)
        }
        Err(bad) => write_bad(writer, alloc, bad),
    }
}

/// Writes a plan that empties a server, or why there is none.
pub fn write_drain(
    opened: &JournalState,
    alloc: Global,
    writer: &mut Writer,
    name: &str,
) -> Result<(), AllocError>
    ensures { OnOk result (TellsDrain opened.now.driver.machine
        (server_named opened.now.driver.machine.placement.setup name.now) writer.old.tokens writer.new.tokens) }
{
    let machine = opened.driver.machine();
    match machine.config().server_named(name) {
        Some(server) => {
            let answer = drain(alloc, machine, server);
            write_answer(alloc, writer, machine.config(), answer)
        }
        None => write_bad(
            writer,
            alloc,
            BadLine::UnknownName(LinePart::Line, CommandMember::Server),
        ),
    }
}

/// The number of calls of a plan.
fn call_count(plan: &Plan) -> u64
    ensures { result ≡ sum_by (λ stream. count_by is_call stream.code) plan.now.streams }
{
    calls_of(plan.streams()) as u64
}

/// The number of streams of a plan.
fn stream_count(plan: &Plan) -> u64
    ensures { result ≡ length plan.now.streams }
{
    plan.streams().len() as u64
}

/// Writes how many calls and streams a plan has.
fn write_accepted_members(writer: &mut Writer, plan: &Plan) -> Result<(), AllocError>
    ensures { OnOk result (writer.new.tokens ≡ writer.old.tokens ++ accepted_members plan.now) }
{
    write_number(writer, "calls", call_count(plan))?;
    write_number(writer, "streams", stream_count(plan))?;
    Ok(())
}

/// Writes that a plan is accepted.
fn write_accepted(writer: &mut Writer, plan: &Plan) -> Result<(), AllocError>
    ensures { OnOk result (writer.new.tokens ≡ writer.old.tokens ++ accepted_member plan.now) }
{
    writer.key("accepted")?;
    writer.begin_object()?;
    write_accepted_members(writer, plan)?;
    writer.end_object()?;
    Ok(())
}

/// Writes whether a plan that passed the check would begin now.
fn write_verdict(
    machine: &Machine,
    alloc: Global,
    writer: &mut Writer,
    checked: &Checked,
) -> Result<(), AllocError>
    requires { checked.now.setup ≡ machine.now.placement.setup }
    ensures { OnOk result (TellsVerdict machine.now checked.now.plan writer.old.tokens writer.new.tokens) }
{
    match machine.begin_fault(checked) {
        Some(fault) => refuse_begin(writer, alloc, machine.config(), fault),
        None => write_accepted(writer, checked.plan()),
    }
}

/// Writes whether a plan would begin now.
pub fn write_check(
    opened: &JournalState,
    alloc: Global,
    writer: &mut Writer,
    value: &Tree<'_>,
) -> Result<(), AllocError>
    ensures { OnOk result (TellsCheck opened.now.driver (view value.now) writer.old.tokens writer.new.tokens) }
{
    match known_plan(opened, alloc, value)? {
        Ok(checked) => write_verdict(opened.driver.machine(), alloc, writer, &checked),
        Err(why) => why.write(opened, alloc, writer),
    }
}
