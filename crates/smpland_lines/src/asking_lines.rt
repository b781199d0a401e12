//! Lines that ask, and change nothing.
ghost use Rattle.std.specs.Prelude.{◌≡◌, IfOk, IfSome, Some, codes, true};
ghost use Rattle.json_tree.specs.View.{view};
ghost use Rattle.smpland_lines.specs.Commands.{IsKnownAnywhere, IsKnownCommand};
ghost use Rattle.smpland_lines.specs.Lines.{OfWord, failed_word};
ghost use Rattle.smpland_lines.specs.Reading.{ReadsOn, is_clean, object_data};
ghost use Rattle.smpland_lines.specs.Values.{text_at};
ghost use Rattle.smpland_lines.specs.declared.command_member.CommandMember.TheVariants as members;

use crate::bad_line::BadLine;
use crate::command::{FailedAnswer, LineCommand, PlanQuestion, Question, StateOf};
use crate::command_member::CommandMember;
use crate::form::MOST_EXACT;
use crate::line_part::LinePart;
use crate::reader::Reader;
use crate::row::Row;
use json_tree::Tree;
use sm_placement::Config;
use sm_plan_code::MOST_MOVES;
use std::alloc::{AllocError, Global};

/// Reads a line that has no members of its own, and asks for this.
pub fn read_plain<'t, 'a>(
    line: &'t Tree<'a>,
    command: LineCommand<'t, 'a>,
) -> Result<LineCommand<'t, 'a>, BadLine<'a>>
    ensures { IfOk result (λ read. read ≡ command.entry) }
{
    Reader::of_line(line, &[]).finish(command)
}

/// Reads the question whether a plan would begin.
pub fn read_check<'t, 'a>(line: &'t Tree<'a>) -> Result<LineCommand<'t, 'a>, BadLine<'a>>
    ensures known { IfOk result IsKnownAnywhere }
    ensures told { OfWord (codes "check") (view line.now) result }
{
    let mut reader = Reader::of_line(line, &[CommandMember::Plan]);
    let plan = reader.object(Row::One(CommandMember::Plan));
    match plan {
        Some(plan) => reader.finish(LineCommand::Question(Question::InForce(PlanQuestion::Check {
            plan,
        }))),
        None => Err(reader.fault()),
    }
}

/// Reads the question for a plan of moves.
pub fn read_moves<'t, 'a>(line: &'t Tree<'a>) -> Result<LineCommand<'t, 'a>, BadLine<'a>>
    ensures known { IfOk result IsKnownAnywhere }
    ensures told { OfWord (codes "moves") (view line.now) result }
{
    let mut reader = Reader::of_line(line, &[CommandMember::Moves]);
    let moves = reader.list(Row::One(CommandMember::Moves), MOST_MOVES);
    match moves {
        Some(moves) => reader.finish(LineCommand::Question(Question::InForce(PlanQuestion::Moves {
            moves,
        }))),
        None => Err(reader.fault()),
    }
}

/// Reads the question for a plan that empties a server.
pub fn read_drain<'t, 'a>(
    line: &'t Tree<'a>,
    config: Option<&Config>,
) -> Result<LineCommand<'t, 'a>, BadLine<'a>>
    ensures known { IfOk result (IsKnownCommand config.entry) }
    ensures told { OfWord (codes "drain") (view line.now) result }
{
    let mut reader = Reader::of_line(line, &[CommandMember::Server]);
    let server = reader.server_name(Row::One(CommandMember::Server), config);
    match server {
        Some(server) => reader.finish(LineCommand::Question(Question::InForce(PlanQuestion::Drain {
            server,
        }))),
        None => Err(reader.fault()),
    }
}

/// Reads the question for the state: of a shard or of a plan, if one is named.
pub fn read_state<'t, 'a>(
    line: &'t Tree<'a>,
    config: Option<&Config>,
) -> Result<LineCommand<'t, 'a>, BadLine<'a>>
    ensures known { IfOk result (IsKnownCommand config.entry) }
    ensures told { OfWord (codes "state") (view line.now) result }
{
    let mut reader = Reader::of_line(line, &[CommandMember::Shard, CommandMember::Plan]);
    let shard = reader.shard_name(Row::Maybe(CommandMember::Shard), config);
    let plan = reader.small(Row::Maybe(CommandMember::Plan));
    let of = match (shard, plan) {
        (Some(shard), None) => StateOf::Shard(shard),
        (None, Some(plan)) => StateOf::Plan(plan),
        (None, None) => StateOf::Whole,
        (Some(_), Some(_)) => {
            reader.note(BadLine::Shape(LinePart::Line, CommandMember::Plan));
            StateOf::Whole
        }
    };
    reader.finish(LineCommand::Question(Question::State { of }))
}

/// Reads the question for what has come up since a place.
pub fn read_since<'t, 'a>(line: &'t Tree<'a>) -> Result<LineCommand<'t, 'a>, BadLine<'a>>
    ensures known { IfOk result IsKnownAnywhere }
    ensures told { OfWord (codes "since") (view line.now) result }
{
    let mut reader = Reader::of_line(line, &[CommandMember::Place]);
    let place = reader.number(Row::One(CommandMember::Place), MOST_EXACT);
    match place {
        Some(place) => reader.finish(LineCommand::Question(Question::Since { place })),
        None => Err(reader.fault()),
    }
}

/// Reads the slots of a server that are to be compared with the record.
pub fn read_audit<'t, 'a>(
    alloc: Global,
    line: &'t Tree<'a>,
    config: Option<&Config>,
) -> Result<Result<LineCommand<'t, 'a>, BadLine<'a>>, AllocError>
    ensures known { IfOk result (λ read. IfOk read (IsKnownCommand config.entry)) }
    ensures told { IfOk result (OfWord (codes "audit") (view line.now)) }
{
    let names = &[
        CommandMember::Server,
        CommandMember::Place,
        CommandMember::Slots,
    ];
    let mut reader = Reader::of_line(line, names);
    let server = reader.server_name(Row::One(CommandMember::Server), config);
    let place = reader.number(Row::One(CommandMember::Place), MOST_EXACT);
    let slots = reader.keyed(alloc, Row::One(CommandMember::Slots), CommandMember::Shard)?;
    match (server, place, slots) {
        (Some(server), Some(place), Some(slots)) => Ok(reader.finish(LineCommand::Question(
            Question::InForce(PlanQuestion::Audit {
                server,
                place,
                slots,
            }),
        ))),
        _ => Ok(Err(reader.fault())),
    }
}

/// Returns the answer that a word names.
fn failed_answer(word: &str) -> Option<FailedAnswer>
    ensures { IfSome result (λ answer. failed_word answer ≡ word.now) }
{
    match word {
        "old" => Some(FailedAnswer::Old),
        "refused" => Some(FailedAnswer::Refused),
        "foreign" => Some(FailedAnswer::Foreign),
        "not_ready" => Some(FailedAnswer::NotReady),
        _ => None,
    }
}

/// Returns the answer that a line has to name.
fn answer_in(reader: &mut Reader<'_, '_>) -> Option<FailedAnswer>
    ensures on { ReadsOn reader.old reader.new }
    ensures told { is_clean reader.new.faults ≡ true
        → IfSome result (λ answer. text_at members.Answer (object_data reader.old) ≡ Some (failed_word answer)) }
{
    let row = Row::One(CommandMember::Answer);
    let value = reader.value(row)?;
    reader.shaped(row, value.as_str().and_then(failed_answer))
}

/// Reads the question what to do about an order that has failed.
pub fn read_failed<'t, 'a>(line: &'t Tree<'a>) -> Result<LineCommand<'t, 'a>, BadLine<'a>>
    ensures known { IfOk result IsKnownAnywhere }
    ensures told { OfWord (codes "failed") (view line.now) result }
{
    let names = &[
        CommandMember::Plan,
        CommandMember::Stream,
        CommandMember::Number,
        CommandMember::Answer,
    ];
    let mut reader = Reader::of_line(line, names);
    let plan = reader.small(Row::One(CommandMember::Plan));
    let stream = reader.small(Row::One(CommandMember::Stream));
    let number = reader.number(Row::One(CommandMember::Number), MOST_EXACT);
    let answer = answer_in(&mut reader);
    match (plan, stream, number, answer) {
        (Some(plan), Some(stream), Some(number), Some(answer)) => reader.finish(
            LineCommand::Question(Question::InForce(PlanQuestion::Failed {
                plan,
                stream,
                number,
                answer,
            })),
        ),
        _ => Err(reader.fault()),
    }
}
