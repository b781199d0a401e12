//! Plans, of a document or of a text of their own.
ghost use Rattle.std.specs.Prelude.{◌≡◌, ◌++◌, [], map};
ghost use Rattle.sm_plan_text.specs.Words.{view, found, entries_in, Scope, row_of, own_faults, walked, parts_of};
ghost use Rattle.sm_plan_text.specs.Words.{IsPlan, parcel_faults, instr_faults, faults_within, knows_retries};
ghost use Rattle.sm_plan_text.specs.Words.{stream_table, stream_in, plan_faults, plan_in};
ghost use Rattle.sm_plan_text.specs.declared.member.Member.TheVariants as members;

use crate::cursor::Scope;
use crate::parcel::empty_parcel;
use crate::{Cursor, Entry, Faults, Form, Member, Rule};
use sm_plan_code::{
    MOST_CALLS, MOST_INSTRUCTIONS, MOST_SIGNALS, MOST_STREAMS, Parts, Plan, Stream,
};
use std::alloc::{AllocError, Global};

const BUDGET: Rule = Rule::One(Member::Budget, Form::Whole(MOST_CALLS));

const HOLDS: Rule = Rule::One(Member::Holds, Form::Object);

const CODE: Rule = Rule::One(Member::Code, Form::List(MOST_INSTRUCTIONS));

const RETRIES: Rule = Rule::Maybe(Member::Retries, Form::Whole(MOST_CALLS));

const PLAN: &[Rule] = &[
    Rule::Maybe(Member::Format, Form::Format),
    BUDGET,
    Rule::Maybe(Member::Signals, Form::List(MOST_SIGNALS)),
    Rule::One(Member::Streams, Form::List(MOST_STREAMS)),
];

/// Tells whether the streams of a plan may say how many retries they have. They may in each format but 1, which a plan
/// has that names no format.
fn knows_retries(plan: &Cursor<'_, '_>) -> bool
    ensures { result ≡ knows_retries (view plan.now.tree.now) }
{
    plan.find(Member::Format)
        .is_some_and(|format| format.as_u64() != Some(1))
}

fn stream_rules(retries: bool) -> &'static [Rule]
    ensures { (scope : Scope) → map (row_of scope) result.now ≡ stream_table retries }
{
    if retries {
        &[BUDGET, HOLDS, CODE, RETRIES]
    } else {
        &[BUDGET, HOLDS, CODE]
    }
}

impl Entry for Stream {
    ghost value = { λ scope entry. stream_in scope.shards.now scope.servers.now scope.signals scope.retries entry };

    ghost faults_of = { λ scope parent entry. own_faults parent (stream_table scope.retries) entry
        ++ faults_within (parcel_faults members.Holds scope.shards.now scope.servers.now []) (found members.Holds entry)
        ++ walked (instr_faults scope.shards.now scope.servers.now scope.signals) [] (entries_in members.Code entry) };

    fn read(cursor: &Cursor<'_, '_>, faults: &mut Faults) -> Result<Self, AllocError> {
        cursor.note_own(stream_rules(cursor.scope.retries), faults)?;
        let held = cursor.inner(Member::Holds, faults)?;
        let empty = empty_parcel(cursor.alloc)?;
        let holds = held.unwrap_or(empty);
        let code = cursor.list(Member::Code, faults)?;
        let budget = cursor.number(Member::Budget, MOST_CALLS);
        let retries = if cursor.scope.retries {
            cursor.number(Member::Retries, MOST_CALLS)
        } else {
            0
        };
        Ok(Stream {
            budget,
            retries,
            holds,
            code,
        })
    }
}

/// Returns the plan of parts that are one, and an empty one of others.
#[tactic(auto, using(crate::proofs::PlanLemmas::empty_is_plan))]
fn plan_of(alloc: Global, parts: Parts) -> Plan
    ensures { IsPlan (parts_of parts) → result ≡ parts_of parts }
{
    let empty = Parts {
        budget: 0,
        streams: Vec::new(alloc),
        signals: Vec::new(alloc),
    };
    match Plan::new(parts).or(Plan::new(empty)) {
        Ok(plan) => plan,
        Err(_) => unreachable!(),
    }
}

/// If something is wrong with it, which is noted, the plan may be empty.
impl Entry for Plan {
    ghost value = { λ scope entry. plan_in scope.shards.now scope.servers.now entry };

    ghost faults_of = { λ scope parent entry. plan_faults parent scope.shards.now scope.servers.now [] entry };

    fn read(cursor: &Cursor<'_, '_>, faults: &mut Faults) -> Result<Self, AllocError> {
        cursor.note_own(PLAN, faults)?;
        let scope = Scope {
            signals: cursor.entries(Member::Signals).len(),
            retries: knows_retries(cursor),
            ..cursor.scope
        };
        let within = Cursor { scope, ..*cursor };
        let signals = within.list(Member::Signals, faults)?;
        let streams = within.list(Member::Streams, faults)?;
        let parts = Parts {
            budget: cursor.number(Member::Budget, MOST_CALLS),
            streams,
            signals,
        };
        Ok(plan_of(cursor.alloc, parts))
    }
}
