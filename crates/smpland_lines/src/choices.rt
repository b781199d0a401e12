//! The cells that a confirmation chooses, over the names of a configuration.
ghost use Rattle.std.specs.Prelude.{◌≡◌, All, IfOk, IfSome, OnOk, Some, true};
ghost use Rattle.json_tree.specs.View.{items_view, view};
ghost use Rattle.smpland_lines.specs.Choices.{AreCellsSaid, AreChoicesSaid, HasKnownServer, IsCellSaid, IsChoiceSaid};
ghost use Rattle.smpland_lines.specs.Choices.{IsKnownChoice, role_chosen_word};
ghost use Rattle.smpland_lines.specs.Reading.{ReadsOn, is_clean, object_data};
ghost use Rattle.smpland_lines.specs.Values.{text_at};
ghost use Rattle.smpland_lines.specs.declared.command_member.CommandMember.TheVariants as members;

use crate::bad_line::BadLine;
use crate::command_member::CommandMember;
use crate::faults::Faults;
use crate::line_part::LinePart;
use crate::reader::Reader;
use crate::row::Row;
use json_tree::Tree;
use sm_placement::Config;
use sm_server::{Role, ServerId, ShardId};
use std::alloc::{AllocError, Global};

/// The replica that a server is to have.
#[derive(Clone, Copy, Debug, PartialEq, Eq)]
pub struct CellChoice {
    pub server: ServerId,
    pub role: Role,
}

/// All replicas that there are to be of a shard.
#[derive(Debug, Drop)]
pub struct ShardChoice {
    pub shard: ShardId,
    pub cells: Vec<CellChoice>,
}

/// Returns the role that a word names.
fn role_named(word: &str) -> Option<Role>
    ensures { IfSome result (λ role. role_chosen_word role ≡ word.now) }
{
    match word {
        "primary" => Some(Role::Primary),
        "secondary" => Some(Role::Secondary),
        _ => None,
    }
}

/// Returns the role that a cell has to tell.
fn role_in(reader: &mut Reader<'_, '_>) -> Option<Role>
    ensures on { ReadsOn reader.old reader.new }
    ensures told { is_clean reader.new.faults ≡ true
        → IfSome result (λ role. text_at members.State (object_data reader.old) ≡ Some (role_chosen_word role)) }
{
    let row = Row::One(CommandMember::State);
    let value = reader.value(row)?;
    reader.shaped(row, value.as_str().and_then(role_named))
}

/// Returns the replica that an entry is.
fn read_cell<'a>(
    config: &Config,
    entry: &Tree<'a>,
    part: LinePart,
) -> Result<CellChoice, BadLine<'a>>
    ensures known { IfOk result (HasKnownServer config.now) }
    ensures said { IfOk result (IsCellSaid config.now (view entry.now)) }
{
    let names = &[CommandMember::Server, CommandMember::State];
    let mut reader = Reader::new(entry, part, names);
    let server = reader.server(Row::One(CommandMember::Server), config);
    let role = role_in(&mut reader);
    match (server, role) {
        (Some(server), Some(role)) => reader.finish(CellChoice { server, role }),
        _ => Err(reader.fault()),
    }
}

/// Returns the replicas that the entries of a shard's list are, and notes what is wrong with them.
fn read_cells<'a>(
    alloc: Global,
    config: &Config,
    entries: &[Tree<'a>],
    part: LinePart,
    faults: &mut Faults<'a>,
) -> Result<Vec<CellChoice>, AllocError>
    ensures known { IfOk result (λ cells. All (HasKnownServer config.now) cells.items) }
    ensures kept { OnOk result (is_clean faults.new ≡ true → is_clean faults.old ≡ true) }
    ensures said { IfOk result (λ cells. is_clean faults.new ≡ true
        → AreCellsSaid config.now (items_view entries.now) cells.items) }
{
    let mut cells = Vec::with_capacity(alloc, entries.len())?;
    for at in 0..entries.len() {
        match read_cell(config, &entries[at], part.entry(CommandMember::Cells, at)) {
            Ok(found) => cells.push(found)?,
            Err(fault) => faults.note(fault),
        }
    }
    Ok(cells)
}

/// Returns the choice that an entry is.
fn read_choice<'a>(
    alloc: Global,
    config: &Config,
    entry: &Tree<'a>,
    part: LinePart,
) -> Result<Result<ShardChoice, BadLine<'a>>, AllocError>
    ensures known { IfOk result (λ read. IfOk read (IsKnownChoice config.now)) }
    ensures said { IfOk result (λ read. IfOk read (IsChoiceSaid config.now (view entry.now))) }
{
    let names = &[CommandMember::Shard, CommandMember::Cells];
    let mut reader = Reader::new(entry, part, names);
    let shard = reader.shard(Row::One(CommandMember::Shard), config);
    let _listed = reader.keyed(alloc, Row::One(CommandMember::Cells), CommandMember::Server)?;
    let cells = match reader.find(CommandMember::Cells).and_then(Tree::as_array) {
        Some(entries) => read_cells(alloc, config, entries, part, &mut reader.faults)?,
        None => Vec::new(alloc),
    };
    match shard {
        Some(shard) => Ok(reader.finish(ShardChoice { shard, cells })),
        None => Ok(Err(reader.fault())),
    }
}

/// Returns the choices of a list, or what is wrong with it.
pub fn read_choices<'a>(
    alloc: Global,
    config: &Config,
    entries: &[Tree<'a>],
) -> Result<Result<Vec<ShardChoice>, BadLine<'a>>, AllocError>
    ensures known { IfOk result (λ read. IfOk read (λ choices. All (IsKnownChoice config.now) choices.items)) }
    ensures said { IfOk result (λ read. IfOk read (λ choices.
        AreChoicesSaid config.now (items_view entries.now) choices.items)) }
{
    let mut faults = Faults::new();
    let mut choices = Vec::with_capacity(alloc, entries.len())?;
    for at in 0..entries.len() {
        let part = LinePart::Entry(CommandMember::Cells, at);
        let read = read_choice(alloc, config, &entries[at], part)?;
        match read {
            Ok(found) => choices.push(found)?,
            Err(fault) => faults.note(fault),
        }
    }
    Ok(faults.finish(choices))
}
