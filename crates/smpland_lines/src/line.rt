//! Lines, and what they ask for.
ghost use Rattle.std.specs.Prelude.{◌≡◌, IfOk, IfSome, None, Some, true};
ghost use Rattle.json_tree.specs.View.{view};
ghost use Rattle.sm_plan_text.specs.Reading.{data_of};
ghost use Rattle.smpland_lines.specs.Commands.{IsKnownCommand};
ghost use Rattle.smpland_lines.specs.Ids.{line_id};
ghost use Rattle.smpland_lines.specs.Lines.{OfWord, Says, command_word, is_command_word};
ghost use Rattle.smpland_lines.specs.Members.{id_members};

use crate::asking_lines::{
    read_audit, read_check, read_drain, read_failed, read_moves, read_plain, read_since, read_state,
};
use crate::bad_line::BadLine;
use crate::changing_lines::{
    read_answered, read_approve, read_begin, read_open, read_restarted, read_restore,
};
use crate::command::{DriverCommand, Id, LineCommand, Question};
use crate::command_member::CommandMember;
use crate::copied_line::read_copied;
use crate::form::id_in;
use crate::line_part::LinePart;
use crate::reopening_lines::{read_confirm, read_fenced, read_reopen, read_settled};
use json::Scratch;
use json_tree::{ReadFault, Tree};
use sm_placement::Config;
use std::alloc::{AllocError, Global};

/// Reads a line as JSON. Returns None if it is none.
pub fn parse_line<'a>(
    alloc: Global,
    line: &'a [u8],
    scratch: &'a mut Scratch,
) -> Result<Option<Tree<'a>>, AllocError>
    ensures value { IfOk result (λ found. IfSome found (λ tree. data_of line.now ≡ Some (view tree))) }
    ensures none { IfOk result (λ found. found ≡ None → data_of line.now ≡ None) }
{
    let Ok(text) = str::from_utf8(line) else {
        return Ok(None);
    };
    match Tree::read(alloc, text, scratch) {
        Ok(tree) => Ok(Some(tree)),
        Err(ReadFault::NoMemory) => Err(AllocError),
        Err(ReadFault::NotJson) => Ok(None),
    }
}

/// Returns the id of a line, if it has one that is in its form.
pub fn id_of<'a>(line: &Tree<'a>) -> Option<Id<'a>>
    ensures { id_members result ≡ line_id (view line.now) }
{
    line.get("id").and_then(id_in)
}

/// Returns what a line with this word asks for. Names are those of the configuration; without one any name may be one.
fn read_worded<'t, 'a>(
    word: &str,
    line: &'t Tree<'a>,
    config: Option<&Config>,
) -> Result<LineCommand<'t, 'a>, BadLine<'a>>
    ensures known { IfOk result (IsKnownCommand config.entry) }
    ensures told { OfWord word.now (view line.now) result }
{
    match word {
        "open" => read_open(line),
        "begin" => read_begin(line),
        "answered" => read_answered(line),
        "approve" => read_approve(line, config),
        "restarted" => read_restarted(line),
        "restore" => read_restore(line, config),
        "new_epoch" => read_plain(line, LineCommand::Driver(DriverCommand::NewEpoch)),
        "copied" => read_copied(line, config),
        "reopen" => read_reopen(line),
        "settled" => read_settled(line),
        "check" => read_check(line),
        "moves" => read_moves(line),
        "drain" => read_drain(line, config),
        "map" => read_plain(line, LineCommand::Question(Question::Map)),
        "document" => read_plain(line, LineCommand::Question(Question::Document)),
        "orders" => read_plain(line, LineCommand::Question(Question::Orders)),
        "hello" => read_plain(line, LineCommand::Question(Question::Hello)),
        "state" => read_state(line, config),
        "since" => read_since(line),
        "failed" => read_failed(line),
        _ => Err(BadLine::Shape(LinePart::Line, CommandMember::Do)),
    }
}

/// Returns what a line asks for. Names are those of the configuration; without one any name may be one.
pub fn read_command<'t, 'a>(
    alloc: Global,
    line: &'t Tree<'a>,
    config: Option<&Config>,
) -> Result<Result<LineCommand<'t, 'a>, BadLine<'a>>, AllocError>
    ensures known { IfOk result (λ read. IfOk read (IsKnownCommand config.entry)) }
    ensures told { IfOk result (λ read. IfOk read (Says (view line.now))) }
    ensures word { IfOk result (λ read. IfOk read (λ command. is_command_word (command_word command) ≡ true)) }
{
    if !line.is_object() {
        return Ok(Err(BadLine::Malformed(LinePart::Line)));
    }
    let Some(word) = line.get("do") else {
        return Ok(Err(BadLine::Missing(LinePart::Line, CommandMember::Do)));
    };
    match word.as_str() {
        Some("fenced") => read_fenced(alloc, line),
        Some("confirm") => read_confirm(alloc, line),
        Some("audit") => read_audit(alloc, line, config),
        Some(word) => Ok(read_worded(word, line, config)),
        None => Ok(Err(BadLine::Shape(LinePart::Line, CommandMember::Do))),
    }
}
