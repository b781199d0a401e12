//! The lines of a player's answers, and of how far its plans have come.
ghost use Rattle.std.specs.Prelude.{◌≡◌, ◌≢◌, ◌<◌, ◌++◌, All, OnOk, length, string_bytes, true};
ghost use Rattle.sm_placement.specs.Setup.{sizes_of};
ghost use Rattle.sm_protocol.specs.declared.event.Played.TheVariants as played;
ghost use Rattle.sm_protocol.specs.State.{is_begun, progress_of};
ghost use Rattle.sm_protocol.specs.Laws.{NamesKnown};
ghost use Rattle.sm_machine.specs.State.{state_of};
ghost use Rattle.sm_report.specs.Playing.{event_turn, scene_after};
ghost use Rattle.sm_report.specs.PlayLines.{begun_line, progress_line_of, progress_lines, played_line, outcome_line};
ghost use Rattle.sm_report.specs.PlayLines.{event_lines, plan_lines, all_plan_lines};
ghost use Rattle.sm_report_text.specs.EventLines.{stream_text};
ghost use Rattle.sm_report.specs.Player.{scene_of, IsSetUp, IsBegunThere};

use crate::player::Player;
use sm_placement::Config;
use sm_plan_code::{Plan, Stream};
use sm_protocol::{Event, Played};
use sm_report_text::{
    call_count, push_at, push_begun, push_blocked, push_denied, push_done, push_event_front,
    push_executed, push_not_begun, push_passed, push_refill_fault, push_stream_text, push_waiting,
    push_word, server_name,
};
use sm_reservation::StreamId;
use std::alloc::{AllocError, Global};

/// Adds the line of a plan that has begun.
fn push_begun_plan(out: &mut String, plan: &Plan) -> Result<(), AllocError>
    ensures { OnOk result (string_bytes out.new ≡ string_bytes out.old ++ begun_line plan.now) }
{
    push_begun(out, call_count(plan), plan.streams().len())
}

/// Adds the line of an answer.
fn push_answer(
    out: &mut String,
    config: &Config,
    many: bool,
    player: &Player,
    answer: Played,
) -> Result<(), AllocError>
    requires running { answer ≢ played.Halted }
    requires begun { IsBegunThere (scene_of player.now) answer }
    ensures { OnOk result (string_bytes out.new
        ≡ string_bytes out.old ++ played_line config.now many (scene_of player.now) answer) }
{
    match answer {
        Played::Moved => push_word(out, "moved"),
        Played::Blocked { signal } => push_blocked(out, signal),
        Played::Done => push_word(out, "done"),
        Played::Halted => unreachable!(),
        Played::Lost => push_word(out, "lost"),
        Played::Spent => push_word(out, "spent"),
        Played::Refilled => push_word(out, "refilled"),
        Played::RefillRefused(fault) => push_refill_fault(out, fault),
        Played::Executed { server } => push_executed(out, server_name(config, server)),
        Played::Passed { to, number, place } => {
            push_passed(out, server_name(config, to), number, place)
        }
        Played::NotOwner => push_word(out, "not owner"),
        Played::Unavailable => push_word(out, "unavailable"),
        Played::LogFull => push_word(out, "log full"),
        Played::Approved => push_word(out, "approved"),
        Played::Denied(denied) => push_denied(out, config, many, player.places(), denied),
        Played::Up => push_word(out, "up"),
        Played::Begun { number } => push_begun_plan(out, player.machine().plan(number)),
        Played::NotBegun(fault) => push_not_begun(out, config, fault),
        Played::Unknown => push_word(out, "unknown"),
    }
}

/// Plays an event, and adds its line.
fn play_event(
    alloc: Global,
    out: &mut String,
    config: &Config,
    many: bool,
    player: &mut Player,
    i: usize,
    event: Event,
) -> Result<(), AllocError>
    requires ready { IsSetUp player.old }
    requires setup { player.old.director.placement.setup ≡ config.now }
    requires known { NamesKnown (sizes_of config.now) event }
    ensures line { OnOk result (string_bytes out.new
        ≡ string_bytes out.old ++ outcome_line config.now many i (event_turn (scene_of player.old) event).1
        (event_turn (scene_of player.old) event).0) }
    ensures scene { OnOk result (scene_of player.new ≡ (event_turn (scene_of player.old) event).1) }
    ensures setup { OnOk result (player.new.director.placement.setup ≡ player.old.director.placement.setup) }
    ensures ready { OnOk result (IsSetUp player.new) }
{
    push_event_front(out, i)?;
    match player.play(alloc, event) {
        Ok(answer) => push_answer(out, config, many, player, answer),
        Err(error) => Err(error),
    }
}

/// Plays events one after the other, and adds their lines and those of the plans after them.
pub fn play_events(
    alloc: Global,
    out: &mut String,
    config: &Config,
    many: bool,
    player: &mut Player,
    events: &[Event],
) -> Result<(), AllocError>
    requires ready { IsSetUp player.old }
    requires setup { player.old.director.placement.setup ≡ config.now }
    requires known { All (NamesKnown (sizes_of config.now)) events.now }
    ensures text { OnOk result (string_bytes out.new
        ≡ string_bytes out.old ++ event_lines config.now many (scene_of player.old) 0 events.now
        ++ all_plan_lines many (scene_after events.now (scene_of player.old))) }
    ensures scene { OnOk result (scene_of player.new ≡ scene_after events.now (scene_of player.old)) }
    ensures setup { OnOk result (player.new.director.placement.setup ≡ player.old.director.placement.setup) }
{
    for (i, event) in events.iter().enumerate() {
        play_event(alloc, out, config, many, player, i, *event)?;
    }
    push_plans(out, many, player)
}

/// Adds the line of how far a stream has come, whose plan is at this place and whose code has this length.
fn push_stream(
    out: &mut String,
    many: bool,
    player: &Player,
    place: usize,
    id: StreamId,
    length: usize,
) -> Result<(), AllocError>
    requires { is_begun (state_of player.now.director) id ≡ true }
    ensures { OnOk result (string_bytes out.new
        ≡ string_bytes out.old ++ progress_line_of (stream_text many place id.stream) length
        (progress_of (state_of player.now.director) id)) }
{
    push_stream_text(out, many, place, id.stream)?;
    let machine = player.machine();
    if machine.is_done(id) {
        push_done(out)
    } else {
        push_at(out, machine.position(id), length)
    }
}

/// Returns the number of instructions of a stream.
fn code_length(stream: &Stream) -> usize
    ensures { result ≡ length stream.now.code }
{
    stream.code.len()
}

/// Adds the lines of the streams of a plan that has begun with a number.
fn push_streams(
    out: &mut String,
    many: bool,
    player: &Player,
    place: usize,
    number: u32,
) -> Result<(), AllocError>
    requires { number < length (state_of player.now.director).plans }
    ensures { OnOk result (string_bytes out.new
        ≡ string_bytes out.old ++ progress_lines many place (state_of player.now.director) number) }
{
    let streams = player.machine().plan(number).streams();
    for (i, parts) in streams.iter().enumerate() {
        let id = StreamId {
            plan: number,
            stream: i as u32,
        };
        push_stream(out, many, player, place, id, code_length(parts))?;
    }
    Ok(())
}

/// Adds the lines of the plan at a place.
fn push_plan(out: &mut String, many: bool, player: &Player, place: usize) -> Result<(), AllocError>
    requires { IsSetUp player.now }
    ensures { OnOk result (string_bytes out.new ≡ string_bytes out.old ++ plan_lines many (scene_of player.now) place) }
{
    match player.number_of(place) {
        Some(number) => push_streams(out, many, player, place, number),
        None => push_waiting(out, place),
    }
}

/// Adds the lines of all plans.
fn push_plans(out: &mut String, many: bool, player: &Player) -> Result<(), AllocError>
    requires { IsSetUp player.now }
    ensures { OnOk result (string_bytes out.new ≡ string_bytes out.old ++ all_plan_lines many (scene_of player.now)) }
{
    for place in 0..player.plan_count() {
        push_plan(out, many, player, place)?;
    }
    Ok(())
}
