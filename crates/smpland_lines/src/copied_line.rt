//! The line that says on how many replicas of a shard each acknowledged write is.
ghost use Rattle.std.specs.Prelude.{IfOk, codes};
ghost use Rattle.json_tree.specs.View.{view};
ghost use Rattle.smpland_lines.specs.Commands.{IsKnownCommand};
ghost use Rattle.smpland_lines.specs.Lines.{OfWord};

use crate::bad_line::BadLine;
use crate::command::{DriverCommand, LineCommand};
use crate::command_member::CommandMember;
use crate::form::MOST_EXACT;
use crate::reader::Reader;
use crate::row::Row;
use json_tree::Tree;
use sm_placement::Config;

/// Reads how many replicas of a shard have each acknowledged write.
pub fn read_copied<'t, 'a>(
    line: &'t Tree<'a>,
    config: Option<&Config>,
) -> Result<LineCommand<'t, 'a>, BadLine<'a>>
    ensures known { IfOk result (IsKnownCommand config.entry) }
    ensures told { OfWord (codes "copied") (view line.now) result }
{
    let names = &[
        CommandMember::Journal,
        CommandMember::Fence,
        CommandMember::Shard,
        CommandMember::Copies,
    ];
    let mut reader = Reader::of_line(line, names);
    let journal = reader.bits(Row::One(CommandMember::Journal));
    let fence = reader.number(Row::One(CommandMember::Fence), MOST_EXACT);
    let shard = reader.shard_name(Row::One(CommandMember::Shard), config);
    let copies = reader.small(Row::One(CommandMember::Copies));
    match (journal, fence, shard, copies) {
        (Some(journal), Some(fence), Some(shard), Some(copies)) => reader.finish(
            LineCommand::Driver(DriverCommand::Copied {
                shard,
                journal,
                fence,
                copies,
            }),
        ),
        _ => Err(reader.fault()),
    }
}
