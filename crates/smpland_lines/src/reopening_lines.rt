//! Lines of reopenings, which change something.
ghost use Rattle.std.specs.Prelude.{◌≡◌, ◌≢◌, ◌≤◌, IfNone, IfOk, IfSome, codes, length};
ghost use Rattle.std.specs.Option.{ForSome};
ghost use Rattle.sm_plan_code.specs.declared.limits.TheConstants.{MOST_RIGHTS};
ghost use Rattle.json_tree.specs.View.{view};
ghost use Rattle.smpland_lines.specs.Commands.{IsKnownAnywhere, IsToldBy};
ghost use Rattle.smpland_lines.specs.Lines.{TellsFound, OfWord};
ghost use Rattle.smpland_lines.specs.Reading.{IsValueOf, ReadsOn};
ghost use Rattle.smpland_lines.specs.Values.{whole_at};
ghost use Rattle.smpland_lines.specs.declared.command_member.CommandMember.TheVariants as members;
ghost use Rattle.smpland_lines.specs.declared.row.Row.TheVariants as rows;

use crate::bad_line::BadLine;
use crate::command::{InventoryText, LineCommand, ReopeningCommand};
use crate::command_member::CommandMember;
use crate::form::MOST_EXACT;
use crate::line_part::LinePart;
use crate::reader::Reader;
use crate::row::Row;
use json_tree::Tree;
use sm_placement::{MOST_SERVERS, MOST_SHARDS};
use std::alloc::{AllocError, Global};

/// The highest number of bytes of a reopening's reason.
const MOST_WHY: usize = 4_096;

/// Checks the reason of a reopening.
fn check_why(reader: &mut Reader<'_, '_>)
    ensures { ReadsOn reader.old reader.new }
{
    match reader.text(Row::Maybe(CommandMember::Why)) {
        Some(why) if why.len() > MOST_WHY => {
            reader.note(BadLine::TooMany(LinePart::Line, CommandMember::Why));
        }
        _ => {}
    }
}

/// Returns the epoch of a reopening, if there is one. It is not 0, since nobody takes a fence of base 0.
fn epoch_in(reader: &mut Reader<'_, '_>) -> Option<u32>
    ensures on { ReadsOn reader.old reader.new }
    ensures told { IsValueOf reader.old reader.new whole_at (rows.Maybe members.Epoch) result }
    ensures any { IfSome result (λ epoch. epoch ≢ 0) }
{
    match reader.small(Row::Maybe(CommandMember::Epoch)) {
        Some(0) => {
            reader.note(BadLine::Number(LinePart::Line, CommandMember::Epoch));
            None
        }
        found => found,
    }
}

/// Returns the entries of a list, and none of a list that is missing.
fn entries_or_none<'t, 'a>(list: Option<&'t [Tree<'a>]>) -> &'t [Tree<'a>]
    ensures entries { IfSome list.entry (λ entries. result.now ≡ entries.now) }
    ensures none { IfNone list.entry (length result.now ≡ 0) }
{
    match list {
        Some(entries) => entries,
        None => &[],
    }
}

/// Reads the begin of a reopening.
pub fn read_reopen<'t, 'a>(line: &'t Tree<'a>) -> Result<LineCommand<'t, 'a>, BadLine<'a>>
    ensures known { IfOk result IsKnownAnywhere }
    ensures told { OfWord (codes "reopen") (view line.now) result }
{
    let names = &[
        CommandMember::Document,
        CommandMember::Lost,
        CommandMember::Why,
        CommandMember::Journal,
        CommandMember::Epoch,
    ];
    let mut reader = Reader::of_line(line, names);
    let document = reader.object(Row::One(CommandMember::Document));
    let lost = reader.names(Row::Maybe(CommandMember::Lost), MOST_SERVERS);
    check_why(&mut reader);
    let journal = reader.bits(Row::Maybe(CommandMember::Journal));
    let epoch = epoch_in(&mut reader);
    match document {
        Some(document) => reader.finish(LineCommand::Reopening(ReopeningCommand::Reopen {
            document,
            lost: entries_or_none(lost),
            journal,
            epoch,
        })),
        None => Err(reader.fault()),
    }
}

/// Notes what is wrong with the members of an answer to a fence beside each other.
fn note_told(reader: &mut Reader<'_, '_>)
    ensures { ReadsOn reader.old reader.new }
{
    let has_slots = reader.find(CommandMember::Slots).is_some();
    let has_nonce = reader.find(CommandMember::Unknown).is_some();
    let is_map = reader
        .find(CommandMember::Server)
        .is_some_and(Tree::is_null);
    match (is_map, has_slots, has_nonce) {
        (true, true, _) => reader.note(BadLine::Shape(LinePart::Line, CommandMember::Slots)),
        (true, false, true) | (false, true, true) => {
            reader.note(BadLine::Shape(LinePart::Line, CommandMember::Unknown));
        }
        (false, false, false) => {
            reader.note(BadLine::Missing(LinePart::Line, CommandMember::Slots));
        }
        _ => {}
    }
}

/// Returns what a server tells, or the map's owner, if it tells one thing.
fn told_in<'t, 'a>(
    server: Option<Option<&str>>,
    slots: Option<&'t [Tree<'a>]>,
    nonce: Option<u64>,
) -> Option<InventoryText<'t, 'a>>
    requires few { ForSome slots (λ slots. length slots.now ≤ MOST_RIGHTS) }
    requires random { ForSome nonce (λ nonce. nonce ≢ 0) }
    ensures known { IfSome server.entry (λ server. IfSome result (IsToldBy server)) }
    ensures told { IfSome result (TellsFound slots.entry nonce) }
{
    match (server, slots, nonce) {
        (Some(None), None, None) => Some(InventoryText::Map),
        (Some(Some(_)), Some(slots), None) => Some(InventoryText::Slots(slots)),
        (Some(Some(_)), None, Some(nonce)) => Some(InventoryText::Unknown { nonce }),
        _ => None,
    }
}

/// Reads an answer to a fence.
pub fn read_fenced<'t, 'a>(
    alloc: Global,
    line: &'t Tree<'a>,
) -> Result<Result<LineCommand<'t, 'a>, BadLine<'a>>, AllocError>
    ensures known { IfOk result (λ read. IfOk read IsKnownAnywhere) }
    ensures told { IfOk result (OfWord (codes "fenced") (view line.now)) }
{
    let names = &[
        CommandMember::Server,
        CommandMember::Base,
        CommandMember::Slots,
        CommandMember::Unknown,
    ];
    let mut reader = Reader::of_line(line, names);
    let server = reader.name_or_null(Row::One(CommandMember::Server));
    let base = reader.number(Row::One(CommandMember::Base), MOST_EXACT);
    let slots = reader.keyed(
        alloc,
        Row::Maybe(CommandMember::Slots),
        CommandMember::Shard,
    )?;
    let nonce = reader.bits(Row::Maybe(CommandMember::Unknown));
    note_told(&mut reader);
    let told = told_in(server, slots, nonce);
    match (server, base, told) {
        (Some(server), Some(base), Some(told)) => {
            Ok(reader.finish(LineCommand::Reopening(ReopeningCommand::Fenced {
                server,
                base,
                told,
            })))
        }
        _ => Ok(Err(reader.fault())),
    }
}

/// Reads a confirmation.
pub fn read_confirm<'t, 'a>(
    alloc: Global,
    line: &'t Tree<'a>,
) -> Result<Result<LineCommand<'t, 'a>, BadLine<'a>>, AllocError>
    ensures known { IfOk result (λ read. IfOk read IsKnownAnywhere) }
    ensures told { IfOk result (OfWord (codes "confirm") (view line.now)) }
{
    let names = &[
        CommandMember::Base,
        CommandMember::Cells,
        CommandMember::Lost,
    ];
    let mut reader = Reader::of_line(line, names);
    let base = reader.number(Row::One(CommandMember::Base), MOST_EXACT);
    let cells = reader.keyed(
        alloc,
        Row::Maybe(CommandMember::Cells),
        CommandMember::Shard,
    )?;
    let lost = reader.names(Row::Maybe(CommandMember::Lost), MOST_SHARDS);
    match base {
        Some(base) => Ok(reader.finish(LineCommand::Reopening(ReopeningCommand::Confirm {
            base,
            cells: entries_or_none(cells),
            lost: entries_or_none(lost),
        }))),
        None => Ok(Err(reader.fault())),
    }
}

/// Reads an answer to a settle.
pub fn read_settled<'t, 'a>(line: &'t Tree<'a>) -> Result<LineCommand<'t, 'a>, BadLine<'a>>
    ensures known { IfOk result IsKnownAnywhere }
    ensures told { OfWord (codes "settled") (view line.now) result }
{
    let mut reader = Reader::of_line(line, &[CommandMember::Server, CommandMember::Base]);
    let server = reader.name_or_null(Row::One(CommandMember::Server));
    let base = reader.number(Row::One(CommandMember::Base), MOST_EXACT);
    match (server, base) {
        (Some(server), Some(base)) => reader.finish(LineCommand::Reopening(
            ReopeningCommand::Settled { server, base },
        )),
        _ => Err(reader.fault()),
    }
}
