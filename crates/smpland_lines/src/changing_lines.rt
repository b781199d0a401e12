//! Lines of plans and restarts, which change something.
ghost use Rattle.std.specs.Prelude.{IfOk, codes};
ghost use Rattle.json_tree.specs.View.{view};
ghost use Rattle.smpland_lines.specs.Commands.{IsKnownAnywhere, IsKnownCommand};
ghost use Rattle.smpland_lines.specs.Lines.{OfWord};

use crate::bad_line::BadLine;
use crate::command::{DriverCommand, LineCommand};
use crate::command_member::CommandMember;
use crate::form::MOST_EXACT;
use crate::reader::Reader;
use crate::row::Row;
use json_tree::Tree;
use sm_placement::Config;

/// Reads an opening.
pub fn read_open<'t, 'a>(line: &'t Tree<'a>) -> Result<LineCommand<'t, 'a>, BadLine<'a>>
    ensures known { IfOk result IsKnownAnywhere }
    ensures told { OfWord (codes "open") (view line.now) result }
{
    let names = &[
        CommandMember::Document,
        CommandMember::Journal,
        CommandMember::Epoch,
    ];
    let mut reader = Reader::of_line(line, names);
    let document = reader.object(Row::One(CommandMember::Document));
    let journal = reader.bits(Row::One(CommandMember::Journal));
    let epoch = reader.small(Row::One(CommandMember::Epoch));
    match (document, journal, epoch) {
        (Some(document), Some(journal), Some(epoch)) => reader.finish(LineCommand::Open {
            document,
            journal,
            epoch,
        }),
        _ => Err(reader.fault()),
    }
}

/// Reads the begin of a plan.
pub fn read_begin<'t, 'a>(line: &'t Tree<'a>) -> Result<LineCommand<'t, 'a>, BadLine<'a>>
    ensures known { IfOk result IsKnownAnywhere }
    ensures told { OfWord (codes "begin") (view line.now) result }
{
    let mut reader = Reader::of_line(line, &[CommandMember::Plan, CommandMember::Name]);
    let plan = reader.object(Row::One(CommandMember::Plan));
    let name = reader.label(Row::One(CommandMember::Name));
    match (plan, name) {
        (Some(plan), Some(name)) => reader.finish(LineCommand::Driver(DriverCommand::Begin {
            plan,
            name,
        })),
        _ => Err(reader.fault()),
    }
}

/// Reads an answer to an order or a publication.
pub fn read_answered<'t, 'a>(line: &'t Tree<'a>) -> Result<LineCommand<'t, 'a>, BadLine<'a>>
    ensures known { IfOk result IsKnownAnywhere }
    ensures told { OfWord (codes "answered") (view line.now) result }
{
    let names = &[
        CommandMember::Plan,
        CommandMember::Stream,
        CommandMember::Number,
    ];
    let mut reader = Reader::of_line(line, names);
    let plan = reader.small(Row::One(CommandMember::Plan));
    let stream = reader.small(Row::One(CommandMember::Stream));
    let number = reader.number(Row::One(CommandMember::Number), MOST_EXACT);
    match (plan, stream, number) {
        (Some(plan), Some(stream), Some(number)) => reader.finish(LineCommand::Driver(
            DriverCommand::Answered {
                plan,
                stream,
                number,
            },
        )),
        _ => Err(reader.fault()),
    }
}

/// Reads the question for leave to restart a server.
pub fn read_approve<'t, 'a>(
    line: &'t Tree<'a>,
    config: Option<&Config>,
) -> Result<LineCommand<'t, 'a>, BadLine<'a>>
    ensures known { IfOk result (IsKnownCommand config.entry) }
    ensures told { OfWord (codes "approve") (view line.now) result }
{
    let mut reader = Reader::of_line(line, &[CommandMember::Server, CommandMember::By]);
    let server = reader.server_name(Row::One(CommandMember::Server), config);
    let by = reader.label(Row::One(CommandMember::By));
    match (server, by) {
        (Some(server), Some(by)) => reader.finish(LineCommand::Driver(DriverCommand::Approve {
            server,
            by,
        })),
        _ => Err(reader.fault()),
    }
}

/// Reads the end of a restart.
pub fn read_restarted<'t, 'a>(line: &'t Tree<'a>) -> Result<LineCommand<'t, 'a>, BadLine<'a>>
    ensures known { IfOk result IsKnownAnywhere }
    ensures told { OfWord (codes "restarted") (view line.now) result }
{
    let mut reader = Reader::of_line(line, &[CommandMember::Permit, CommandMember::Base]);
    let permit = reader.number(Row::One(CommandMember::Permit), MOST_EXACT);
    let base = reader.number_unless_null(Row::One(CommandMember::Base), MOST_EXACT);
    match permit {
        Some(permit) => reader.finish(LineCommand::Driver(DriverCommand::Restarted {
            permit,
            base,
        })),
        None => Err(reader.fault()),
    }
}

/// Reads a server's question for its slots.
pub fn read_restore<'t, 'a>(
    line: &'t Tree<'a>,
    config: Option<&Config>,
) -> Result<LineCommand<'t, 'a>, BadLine<'a>>
    ensures known { IfOk result (IsKnownCommand config.entry) }
    ensures told { OfWord (codes "restore") (view line.now) result }
{
    let mut reader = Reader::of_line(line, &[CommandMember::Server, CommandMember::Nonce]);
    let server = reader.server_name(Row::One(CommandMember::Server), config);
    let nonce = reader.bits(Row::One(CommandMember::Nonce));
    match (server, nonce) {
        (Some(server), Some(nonce)) => reader.finish(LineCommand::Driver(DriverCommand::Restore {
            server,
            nonce,
        })),
        _ => Err(reader.fault()),
    }
}
