//! The calls of a document.
ghost use Rattle.std.specs.Prelude.{◌≡◌, map, option_map, IfSome};
ghost use Rattle.sm_plan_text.specs.Words.{view, Scope, row_of, worded_faults, call_word, call_table, call_worded};
ghost use Rattle.sm_plan_text.specs.Words.{call_in};
ghost use Rattle.sm_plan_text.specs.declared.member.Member.TheVariants as members;

use crate::rule::{Form, OTHER, ROLE, Rule, SERVER, SHARD};
use crate::{Cursor, Entry, Faults, Member};
use sm_plan_code::MOST_NUMBER;
use sm_server::{Call, ServerId, ShardId};
use std::alloc::AllocError;

const FROM: Rule = Rule::One(Member::From, Form::Role);

const TO: Rule = Rule::One(Member::To, Form::Role);

const NUMBER: Rule = Rule::One(Member::Number, Form::Whole(MOST_NUMBER));

/// Returns the members of a call with this word.
fn rules_of(word: &str) -> Option<&'static [Rule]>
    ensures { (scope : Scope) → option_map (λ rules. map (row_of scope) rules.now) result
        ≡ option_map (call_table scope.shards.now scope.servers.now) (call_word word.now) }
{
    match word {
        "add" => Some(&[SHARD, SERVER, ROLE]),
        "drop" => Some(&[SHARD, SERVER]),
        "change" => Some(&[SHARD, SERVER, FROM, TO]),
        "prepare_add" | "prepare_drop" => Some(&[SHARD, SERVER, OTHER, NUMBER]),
        _ => None,
    }
}

/// Reads the call that an object says by its word, which is one of a call.
fn call_of(word: &str, cursor: &Cursor<'_, '_>) -> Call
    ensures { IfSome (call_word word.now) (λ w. result
        ≡ call_worded cursor.now.scope.servers.now (view cursor.now.tree.now) w) }
{
    let other = cursor.server(Member::Other);
    let number = u64::from(cursor.number(Member::Number, MOST_NUMBER));
    match word {
        "add" => Call::Add(cursor.role(Member::Role)),
        "change" => Call::Change {
            from: cursor.role(Member::From),
            to: cursor.role(Member::To),
        },
        "prepare_add" => Call::PrepareAdd {
            owner: other,
            number,
        },
        "prepare_drop" => Call::PrepareDrop {
            new_owner: other,
            number,
        },
        _ => Call::Drop,
    }
}

/// A call with the shard that it is for and the server that it is made at.
impl Entry for (ShardId, ServerId, Call) {
    ghost value = { λ scope entry. call_in scope.shards.now scope.servers.now entry };

    ghost faults_of = { λ scope parent entry. worded_faults parent members.Call call_word (call_table scope.shards.now scope.servers.now) entry };

    fn read(cursor: &Cursor<'_, '_>, faults: &mut Faults) -> Result<Self, AllocError> {
        let word = cursor.text(Member::Call);
        cursor.note_worded(Member::Call, rules_of(word), faults)?;
        let (shard, server) = (cursor.shard(Member::Shard), cursor.server(Member::Server));
        Ok((shard, server, call_of(word, cursor)))
    }
}
