//! The moves of a line, over the names of a configuration.
ghost use Rattle.std.specs.Prelude.{◌<◌, All, IfOk, length};
ghost use Rattle.sm_plan_code.specs.Move.{IsKnownMove};

use crate::bad_line::BadLine;
use crate::command_member::CommandMember;
use crate::faults::Faults;
use crate::line_part::LinePart;
use crate::reader::Reader;
use crate::row::Row;
use json_tree::Tree;
use sm_placement::Config;
use sm_plan_code::Move;
use std::alloc::{AllocError, Global};

const NAMES: &[CommandMember] = &[CommandMember::Shard, CommandMember::From, CommandMember::To];

/// Returns the move that an entry is.
fn read_move<'a>(config: &Config, entry: &Tree<'a>, part: LinePart) -> Result<Move, BadLine<'a>>
    ensures { IfOk result (IsKnownMove (length config.now.shards) (length config.now.servers)) }
{
    let mut reader = Reader::new(entry, part, NAMES);
    let shard = reader.shard(Row::One(CommandMember::Shard), config);
    let from = reader.server(Row::One(CommandMember::From), config);
    let to = reader.server(Row::One(CommandMember::To), config);
    match (shard, from, to) {
        (Some(shard), Some(from), Some(to)) => reader.finish(Move { shard, from, to }),
        _ => Err(reader.fault()),
    }
}

/// Returns the moves of a list, or what is wrong with it.
pub fn read_moves_in<'a>(
    alloc: Global,
    config: &Config,
    entries: &[Tree<'a>],
) -> Result<Result<Vec<Move>, BadLine<'a>>, AllocError>
    ensures { IfOk result (λ read. IfOk read (λ moves.
        All (IsKnownMove (length config.now.shards) (length config.now.servers)) moves.items)) }
{
    let mut faults = Faults::new();
    let mut moves = Vec::with_capacity(alloc, entries.len())?;
    for at in 0..entries.len() {
        match read_move(
            config,
            &entries[at],
            LinePart::Entry(CommandMember::Moves, at),
        ) {
            Ok(found) => moves.push(found)?,
            Err(fault) => faults.note(fault),
        }
    }
    Ok(faults.finish(moves))
}
