//! The moves of a document.
ghost use Rattle.sm_plan_text.specs.Words.{own_faults, move_table, move_in};

use crate::rule::{FROM, SHARD, TO};
use crate::{Cursor, Entry, Faults, Member};
use sm_plan_code::Move;
use std::alloc::AllocError;

impl Entry for Move {
    ghost value = { λ scope entry. move_in scope.shards.now scope.servers.now entry };

    ghost faults_of = { λ scope parent entry. own_faults parent (move_table scope.shards.now scope.servers.now) entry };

    fn read(cursor: &Cursor<'_, '_>, faults: &mut Faults) -> Result<Self, AllocError> {
        cursor.note_own(&[SHARD, FROM, TO], faults)?;
        Ok(Move {
            shard: cursor.shard(Member::Shard),
            from: cursor.server(Member::From),
            to: cursor.server(Member::To),
        })
    }
}
