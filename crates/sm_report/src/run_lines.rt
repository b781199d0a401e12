//! The lines of a plan that was run, and of what was asked beside it.
ghost use Rattle.std.specs.Prelude.{◌≡◌, ◌++◌, All, OnOk, string_bytes, length, true};
ghost use Rattle.sm_protocol.specs.State.{is_begun};
ghost use Rattle.sm_executor.specs.Clients.{IsClient};
ghost use Rattle.sm_machine.specs.State.{state_of};
ghost use Rattle.sm_report.specs.RunLines.{stream_end_line, end_line, end_lines, ask_front, asked_line, ask_line};
ghost use Rattle.sm_report.specs.RunLines.{client_line, client_lines};

use sm_executor::{Client, Naming};
use sm_machine::Machine;
use sm_placement::Config;
use sm_report_text::{push_executed, push_word, server_name};
use sm_reservation::StreamId;
use sm_router::Asked;
use std::alloc::AllocError;
use std::sync::ledger::Ledger;

/// Adds the line of a stream that has finished.
fn push_stream_end(
    out: &mut String,
    stream: u32,
    steps: u64,
    calls: u64,
    budget: u64,
) -> Result<(), AllocError>
    ensures { OnOk result (string_bytes out.new ≡ string_bytes out.old ++ stream_end_line stream steps calls budget) }
{
    writeln!(
        out,
        "stream {stream}: steps {steps} calls {calls} budget {budget}"
    )
}

/// Adds the line of a stream as it stands.
fn push_end(out: &mut String, machine: &Machine, id: StreamId) -> Result<(), AllocError>
    requires { is_begun (state_of machine.now) id ≡ true }
    ensures { OnOk result (string_bytes out.new ≡ string_bytes out.old ++ end_line (state_of machine.now) id) }
{
    push_stream_end(
        out,
        id.stream,
        machine.steps_at_end(id),
        machine.calls(id),
        machine.allowance(id),
    )
}

/// Adds the lines of the streams of the first plan, which has begun.
pub fn push_ends(out: &mut String, machine: &Machine) -> Result<(), AllocError>
    requires { length (state_of machine.now).plans ≡ 1 }
    ensures { OnOk result (string_bytes out.new ≡ string_bytes out.old ++ end_lines (state_of machine.now) 0) }
{
    let streams = machine.plan(0).streams();
    for i in 0..streams.len() {
        let id = StreamId {
            plan: 0,
            stream: i as u32,
        };
        push_end(out, machine, id)?;
    }
    Ok(())
}

/// Adds an ask in front of its answer.
fn push_ask_front(out: &mut String, i: usize) -> Result<(), AllocError>
    ensures { OnOk result (string_bytes out.new ≡ string_bytes out.old ++ ask_front i) }
{
    write!(out, "ask {i}: ")
}

/// Adds the line of what an ask was answered.
fn push_asked(out: &mut String, config: &Config, asked: Asked) -> Result<(), AllocError>
    ensures { OnOk result (string_bytes out.new ≡ string_bytes out.old ++ asked_line config.now asked) }
{
    match asked {
        Asked::Executed { server } => push_executed(out, server_name(config, server)),
        Asked::NotListed => push_word(out, "not listed"),
        Asked::Unavailable => push_word(out, "unavailable"),
        Asked::TooManyHops => push_word(out, "too many hops"),
        Asked::LogFull => push_word(out, "log full"),
    }
}

/// Adds the line of an ask.
fn push_ask(out: &mut String, config: &Config, i: usize, asked: Asked) -> Result<(), AllocError>
    ensures { OnOk result (string_bytes out.new ≡ string_bytes out.old ++ ask_line config.now i asked) }
{
    push_ask_front(out, i)?;
    push_asked(out, config, asked)
}

/// Adds the line of a client's answer, if it has asked.
fn push_client(
    out: &mut String,
    config: &Config,
    i: usize,
    asked: Option<Asked>,
) -> Result<(), AllocError>
    ensures { OnOk result (string_bytes out.new ≡ string_bytes out.old ++ client_line config.now i asked) }
{
    match asked {
        Some(asked) => push_ask(out, config, i, asked),
        None => Ok(()),
    }
}

/// Adds the lines of what clients were answered.
pub fn push_clients<B: Ledger, C: Ledger, N: Naming>(
    out: &mut String,
    config: &Config,
    clients: &[Client<B, C, N>],
) -> Result<(), AllocError>
    ensures lines { OnOk result (string_bytes out.new ≡ string_bytes out.old ++ client_lines config.now 0 clients.now) }
    // Each answer is one that the client's ask may come to.
    ensures ways { OnOk result (All (IsClient N.setup N.opened) clients.now) }
{
    for (i, client) in clients.iter().enumerate() {
        push_client(out, config, i, client.asked())?;
    }
    Ok(())
}
