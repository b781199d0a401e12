//! The instructions of a plan.
ghost use Rattle.std.specs.Prelude.{◌≡◌, ◌++◌, map, option_map, IfOk, IfSome, OnOk};
ghost use Rattle.std.specs.List.{flat_map};
ghost use Rattle.sm_plan_text.specs.Words.{view, noted, id_in, Scope, row_of, worded_faults, instr_word, instr_table};
ghost use Rattle.sm_plan_text.specs.Words.{instr_of, instr_in};
ghost use Rattle.sm_plan_text.specs.Tables.{one, known, row_faults};
ghost use Rattle.sm_plan_text.specs.declared.member.Member.TheVariants as members;

use crate::rule::{Form, OTHER, ROLE, Rule, SERVER, SHARD};
use crate::{Cursor, Entry, Faults, Member};
use sm_plan_code::Instr;
use sm_server::{ServerId, ShardId};
use std::alloc::AllocError;

const CHANGED: Rule = Rule::One(Member::To, Form::Role);

const SIGNAL: Rule = Rule::One(Member::Signal, Form::Signal);

/// Returns the members of an instruction with this word.
fn rules_of(word: &str) -> Option<&'static [Rule]>
    ensures { (scope : Scope) → option_map (λ rules. map (row_of scope) rules.now) result
        ≡ option_map (instr_table scope.shards.now scope.servers.now scope.signals) (instr_word word.now) }
{
    match word {
        "prepare_add" | "prepare_drop" => Some(&[SHARD, SERVER, OTHER]),
        "add" => Some(&[SHARD, SERVER, ROLE]),
        "drop" => Some(&[SHARD, SERVER]),
        "change" => Some(&[SHARD, SERVER, CHANGED]),
        "publish" | "unlist" => Some(&[SHARD]),
        "signal" | "wait" => Some(&[SIGNAL]),
        _ => None,
    }
}

/// Returns the shard and the server that an instruction is to name, and notes what is wrong with these members.
#[tactic(auto, using(crate::proofs::WalkLemmas::noted_append))]
fn take_cell(cursor: &Cursor<'_, '_>, faults: &mut Faults) -> (ShardId, ServerId)
    ensures shard { result.0 ≡ id_in cursor.now.scope.shards.now members.Shard (view cursor.now.tree.now) }
    ensures server { result.1 ≡ id_in cursor.now.scope.servers.now members.Server (view cursor.now.tree.now) }
    ensures faults { faults.new.lowest ≡ noted faults.old.lowest
        (row_faults (view cursor.now.tree.now) (one members.Shard (known cursor.now.scope.shards.now))
        ++ row_faults (view cursor.now.tree.now) (one members.Server (known cursor.now.scope.servers.now))) }
{
    let shard = cursor.take_shard(Member::Shard, faults);
    (shard, cursor.take_server(Member::Server, faults))
}

/// Returns the instruction that an object says by its word, which is one of an instruction, and notes what is wrong
/// with its members.
#[tactic(auto, using(crate::proofs::WalkLemmas::noted_append))]
fn instr_of(word: &str, cursor: &Cursor<'_, '_>, faults: &mut Faults) -> Result<Instr, AllocError>
    ensures instr { IfOk result (λ instr. IfSome (instr_word word.now)
        (λ w. instr ≡ instr_of cursor.now.scope.shards.now cursor.now.scope.servers.now cursor.now.scope.signals
        (view cursor.now.tree.now) w)) }
    ensures faults { OnOk result (IfSome (instr_word word.now) (λ w. faults.new.lowest ≡ noted faults.old.lowest
        (flat_map (row_faults (view cursor.now.tree.now))
        (instr_table cursor.now.scope.shards.now cursor.now.scope.servers.now cursor.now.scope.signals w)))) }
{
    let instr = match word {
        "prepare_add" => {
            let (shard, server) = take_cell(cursor, faults);
            let owner = cursor.take_server(Member::Other, faults);
            Instr::PrepareAdd {
                shard,
                server,
                owner,
            }
        }
        "prepare_drop" => {
            let (shard, server) = take_cell(cursor, faults);
            let new_owner = cursor.take_server(Member::Other, faults);
            Instr::PrepareDrop {
                shard,
                server,
                new_owner,
            }
        }
        "add" => {
            let (shard, server) = take_cell(cursor, faults);
            cursor.note_row(&ROLE, faults)?;
            let role = cursor.role(Member::Role);
            Instr::Add {
                shard,
                server,
                role,
            }
        }
        "drop" => {
            let (shard, server) = take_cell(cursor, faults);
            Instr::Drop { shard, server }
        }
        "change" => {
            let (shard, server) = take_cell(cursor, faults);
            cursor.note_row(&CHANGED, faults)?;
            let to = cursor.role(Member::To);
            Instr::Change { shard, server, to }
        }
        "publish" => Instr::Publish {
            shard: cursor.take_shard(Member::Shard, faults),
        },
        "unlist" => Instr::Unlist {
            shard: cursor.take_shard(Member::Shard, faults),
        },
        "signal" => {
            cursor.note_row(&SIGNAL, faults)?;
            let signal = cursor.signal(Member::Signal);
            Instr::Signal { signal }
        }
        _ => {
            cursor.note_row(&SIGNAL, faults)?;
            let signal = cursor.signal(Member::Signal);
            Instr::Wait { signal }
        }
    };
    Ok(instr)
}

impl Entry for Instr {
    ghost value = { λ scope entry. instr_in scope.shards.now scope.servers.now scope.signals entry };

    ghost faults_of = { λ scope parent entry. worded_faults parent members.Do instr_word (instr_table scope.shards.now scope.servers.now scope.signals) entry };

    fn read(cursor: &Cursor<'_, '_>, faults: &mut Faults) -> Result<Self, AllocError> {
        let word = cursor.text(Member::Do);
        let Some(rules) = rules_of(word) else {
            cursor.note_worded(Member::Do, None, faults)?;
            return Ok(Instr::Signal { signal: 0 });
        };
        cursor.note_unknown(Some(Member::Do), rules, faults);
        let instr = instr_of(word, cursor, faults)?;
        Ok(instr)
    }
}
