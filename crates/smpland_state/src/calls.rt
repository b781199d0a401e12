//! Calls in replies.
ghost use Rattle.std.specs.Prelude.{◌≡◌, ◌++◌, OnOk};
ghost use Rattle.smpland_state.specs.Calls.{call_members, word_of_call, change_members, handover_members};
ghost use Rattle.smpland_state.specs.Calls.{word_of_role};

use sm_placement::Config;
use sm_server::{Call, Role, ServerId};
use smpland_lines::{Writer, server_name, write_number, write_text};
use std::alloc::AllocError;

/// The word for a call.
pub fn call_word(call: &Call) -> &'static str
    ensures { result.now ≡ word_of_call call.now }
{
    match call {
        Call::Add(_) => "add",
        Call::Drop => "drop",
        Call::Change { .. } => "change",
        Call::PrepareAdd { .. } => "prepare_add",
        Call::PrepareDrop { .. } => "prepare_drop",
    }
}

/// The word for a role.
fn role_word(role: Role) -> &'static str
    ensures { result.now ≡ word_of_role role }
{
    match role {
        Role::Primary => "primary",
        Role::Secondary => "secondary",
    }
}

/// Writes a handover: its other server, and its number.
pub fn write_handover(
    writer: &mut Writer,
    config: &Config,
    end: &str,
    other: ServerId,
    number: u64,
) -> Result<(), AllocError>
    ensures { OnOk result (writer.new.tokens ≡ writer.old.tokens ++ handover_members config.now end.now other number) }
{
    write_text(writer, end, server_name(config, other))?;
    write_number(writer, "handover", number)?;
    Ok(())
}

/// Writes a change of roles.
fn write_change(writer: &mut Writer, from: Role, to: Role) -> Result<(), AllocError>
    ensures { OnOk result (writer.new.tokens ≡ writer.old.tokens ++ change_members from to) }
{
    write_text(writer, "from", role_word(from))?;
    write_text(writer, "to", role_word(to))?;
    Ok(())
}

/// Writes what a call needs to say beside its word.
pub fn write_call(writer: &mut Writer, config: &Config, call: &Call) -> Result<(), AllocError>
    ensures { OnOk result (writer.new.tokens ≡ writer.old.tokens ++ call_members config.now call.now) }
{
    match call {
        Call::Add(role) => write_text(writer, "role", role_word(*role)),
        Call::Drop => Ok(()),
        Call::Change { from, to } => write_change(writer, *from, *to),
        Call::PrepareAdd { owner, number } => {
            write_handover(writer, config, "from", *owner, *number)
        }
        Call::PrepareDrop { new_owner, number } => {
            write_handover(writer, config, "to", *new_owner, *number)
        }
    }
}
