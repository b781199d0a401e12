//! The events of a document: those of the protocol, whose streams name a plan by its place among the plans of the
//! document.
ghost use Rattle.std.specs.Prelude.{◌≡◌, ◌++◌, map, option_map, IfOk, IfSome, OnOk};
ghost use Rattle.std.specs.List.{flat_map};
ghost use Rattle.sm_plan_text.specs.Words.{view, noted, Scope, row_of, worded_faults, event_word, event_table};
ghost use Rattle.sm_plan_text.specs.Words.{event_in};
ghost use Rattle.sm_plan_text.specs.Tables.{one, maybe, whole, row_faults};
ghost use Rattle.sm_plan_text.specs.Events.{stream_id_in, event_of};
ghost use Rattle.sm_plan_text.specs.declared.member.Member.TheVariants as members;

use crate::cursor::after_of;
use crate::rule::{Form, Rule, SERVER, SHARD};
use crate::{Cursor, Entry, Faults, Member};
use sm_plan_code::{MOST_CALLS, MOST_NUMBER};
use sm_protocol::Event;
use sm_reservation::StreamId;
use std::alloc::AllocError;

const PLAN: Rule = Rule::Maybe(Member::Plan, Form::Whole(MOST_NUMBER));

/// The plan that begins.
const BEGUN: Rule = Rule::One(Member::Plan, Form::Whole(MOST_NUMBER));

const STREAM: Rule = Rule::One(Member::Stream, Form::Whole(MOST_NUMBER));

const TICKET: Rule = Rule::One(Member::Ticket, Form::Whole(MOST_NUMBER));

const WHEN: Rule = Rule::One(Member::When, Form::When);

const MORE: Rule = Rule::One(Member::More, Form::Whole(MOST_CALLS));

/// Returns the members of an event with this word.
fn rules_of(word: &str) -> Option<&'static [Rule]>
    ensures { (scope : Scope) → option_map (λ rules. map (row_of scope) rules.now) result
        ≡ option_map (event_table scope.shards.now scope.servers.now) (event_word word.now) }
{
    match word {
        "step" => Some(&[PLAN, STREAM]),
        "request" => Some(&[SHARD, SERVER]),
        "pass_on" => Some(&[TICKET]),
        "approve" | "done" => Some(&[SERVER]),
        "lose" => Some(&[PLAN, STREAM, WHEN]),
        "refill" => Some(&[PLAN, STREAM, MORE]),
        "begin" => Some(&[BEGUN]),
        _ => None,
    }
}

/// Returns the stream that an event is of, and notes what is wrong with its members.
#[tactic(auto, using(crate::proofs::WalkLemmas::noted_append))]
fn take_stream(cursor: &Cursor<'_, '_>, faults: &mut Faults) -> StreamId
    ensures stream { result ≡ stream_id_in (view cursor.now.tree.now) }
    ensures faults { faults.new.lowest ≡ noted faults.old.lowest
        (row_faults (view cursor.now.tree.now) (maybe members.Plan (whole MOST_NUMBER))
        ++ row_faults (view cursor.now.tree.now) (one members.Stream (whole MOST_NUMBER))) }
{
    StreamId {
        plan: cursor.take_number_or(Member::Plan, MOST_NUMBER, 0, faults),
        stream: cursor.take_number(Member::Stream, MOST_NUMBER, faults),
    }
}

/// Returns the event that an object says by its word, which is one of an event, and notes what is wrong with its
/// members.
#[tactic(auto, using(crate::proofs::WalkLemmas::noted_append))]
fn event_of(word: &str, cursor: &Cursor<'_, '_>, faults: &mut Faults) -> Result<Event, AllocError>
    ensures event { IfOk result (λ event. IfSome (event_word word.now)
        (λ w. event ≡ event_of cursor.now.scope.shards.now cursor.now.scope.servers.now (view cursor.now.tree.now) w)) }
    ensures faults { OnOk result (IfSome (event_word word.now) (λ w. faults.new.lowest ≡ noted faults.old.lowest
        (flat_map (row_faults (view cursor.now.tree.now))
        (event_table cursor.now.scope.shards.now cursor.now.scope.servers.now w)))) }
{
    let event = match word {
        "step" => Event::Step {
            stream: take_stream(cursor, faults),
        },
        "request" => Event::Arrive {
            shard: cursor.take_shard(Member::Shard, faults),
            server: cursor.take_server(Member::Server, faults),
        },
        "pass_on" => Event::PassOn {
            place: cursor.take_number(Member::Ticket, MOST_NUMBER, faults),
        },
        "approve" => Event::Approve {
            server: cursor.take_server(Member::Server, faults),
        },
        "done" => Event::Done {
            server: cursor.take_server(Member::Server, faults),
        },
        "lose" => {
            let stream = take_stream(cursor, faults);
            cursor.note_row(&WHEN, faults)?;
            let after = after_of(cursor.text(Member::When)).unwrap_or(false);
            Event::Lose { stream, after }
        }
        "refill" => Event::Refill {
            stream: take_stream(cursor, faults),
            more: cursor.take_number(Member::More, MOST_CALLS, faults),
        },
        _ => Event::Begin {
            plan: cursor.take_number(Member::Plan, MOST_NUMBER, faults),
        },
    };
    Ok(event)
}

impl Entry for Event {
    ghost value = { λ scope entry. event_in scope.shards.now scope.servers.now entry };

    ghost faults_of = { λ scope parent entry. worded_faults parent members.Event event_word (event_table scope.shards.now scope.servers.now) entry };

    fn read(cursor: &Cursor<'_, '_>, faults: &mut Faults) -> Result<Self, AllocError> {
        let word = cursor.text(Member::Event);
        let Some(rules) = rules_of(word) else {
            cursor.note_worded(Member::Event, None, faults)?;
            return Ok(Event::Begin { plan: 0 });
        };
        cursor.note_unknown(Some(Member::Event), rules, faults);
        let event = event_of(word, cursor, faults)?;
        Ok(event)
    }
}
