//! The parcels of a plan.
ghost use Rattle.std.specs.Prelude.{◌≡◌, [], map, option_map, IfOk, IfSome};
ghost use Rattle.sm_plan_text.specs.Words.{view, Scope, row_of, own_faults, worded_faults, no_rights, IsOnce};
ghost use Rattle.sm_plan_text.specs.Words.{rights_of, in_order, right_table, right_in, lead_word, crown_table};
ghost use Rattle.sm_plan_text.specs.Words.{lead_worded, crown_in, room_table, room_in, spare_table, spare_in};
ghost use Rattle.sm_plan_text.specs.Words.{parcel_faults, parcel_in};
ghost use Rattle.sm_plan_text.specs.declared.member.Member.TheVariants as members;

use crate::cursor::state_of;
use crate::limits::AMOUNT_LIMIT;
use crate::rule::{FROM, Form, LISTED, Rule, SERVER, SHARD, TO};
use crate::{Cursor, Entry, Faults, Member};
use sm_placement::Lead;
use sm_reservation::{CellRight, Crown, Hold, Lists, Parcel, ParcelFault, PlainCell, Room, Spare};
use std::alloc::{AllocError, Global};

const AMOUNT: Rule = Rule::One(Member::Amount, Form::Whole(AMOUNT_LIMIT));

const STATE: Rule = Rule::One(Member::State, Form::State);

/// The members of a parcel, in each of whose lists a key stands once.
const PARCEL: &[Rule] = &[
    Rule::Maybe(Member::Cells, Form::ByCell),
    Rule::Maybe(Member::Crowns, Form::ByShard),
    Rule::Maybe(Member::Room, Form::ByServer),
    Rule::Maybe(Member::Spare, Form::ByShard),
];

impl Entry for CellRight {
    ghost value = { λ scope entry. right_in scope.shards.now scope.servers.now entry };

    ghost faults_of = { λ scope parent entry. own_faults parent (right_table scope.shards.now scope.servers.now) entry };

    fn read(cursor: &Cursor<'_, '_>, faults: &mut Faults) -> Result<Self, AllocError> {
        cursor.note_own(&[SHARD, SERVER, STATE], faults)?;
        Ok(CellRight {
            shard: cursor.shard(Member::Shard),
            server: cursor.server(Member::Server),
            state: state_of(cursor.text(Member::State)).unwrap_or(PlainCell::Absent),
        })
    }
}

/// Returns the members of a crown with this word.
fn rules_of(word: &str) -> Option<&'static [Rule]>
    ensures { (scope : Scope) → option_map (λ rules. map (row_of scope) rules.now) result
        ≡ option_map (crown_table scope.shards.now scope.servers.now) (lead_word word.now) }
{
    match word {
        "gone" => Some(&[SHARD, LISTED]),
        "at" => Some(&[SHARD, LISTED, SERVER]),
        "ready" | "handing" | "handed" => Some(&[SHARD, LISTED, FROM, TO]),
        _ => None,
    }
}

/// Returns the lead that a crown says by its word, which is one of a lead.
fn lead_of(word: &str, cursor: &Cursor<'_, '_>) -> Lead
    ensures { IfSome (lead_word word.now) (λ w. result
        ≡ lead_worded cursor.now.scope.servers.now (view cursor.now.tree.now) w) }
{
    let from = cursor.server(Member::From);
    let to = cursor.server(Member::To);
    match word {
        "at" => Lead::At(cursor.server(Member::Server)),
        "ready" => Lead::Ready(from, to),
        "handing" => Lead::Handing(from, to),
        "handed" => Lead::Handed(from, to),
        _ => Lead::Gone,
    }
}

impl Entry for Crown {
    ghost value = { λ scope entry. crown_in scope.shards.now scope.servers.now entry };

    ghost faults_of = { λ scope parent entry. worded_faults parent members.Lead lead_word (crown_table scope.shards.now scope.servers.now) entry };

    fn read(cursor: &Cursor<'_, '_>, faults: &mut Faults) -> Result<Self, AllocError> {
        let word = cursor.text(Member::Lead);
        cursor.note_worded(Member::Lead, rules_of(word), faults)?;
        Ok(Crown {
            shard: cursor.shard(Member::Shard),
            lead: lead_of(word, cursor),
            listed: cursor.server_found(Member::Listed),
        })
    }
}

impl Entry for Room {
    ghost value = { λ scope entry. room_in scope.servers.now entry };

    ghost faults_of = { λ scope parent entry. own_faults parent (room_table scope.servers.now) entry };

    fn read(cursor: &Cursor<'_, '_>, faults: &mut Faults) -> Result<Self, AllocError> {
        cursor.note_own(&[SERVER, AMOUNT], faults)?;
        Ok(Room {
            server: cursor.server(Member::Server),
            amount: u64::from(cursor.number(Member::Amount, AMOUNT_LIMIT)),
        })
    }
}

impl Entry for Spare {
    ghost value = { λ scope entry. spare_in scope.shards.now entry };

    ghost faults_of = { λ scope parent entry. own_faults parent (spare_table scope.shards.now) entry };

    fn read(cursor: &Cursor<'_, '_>, faults: &mut Faults) -> Result<Self, AllocError> {
        cursor.note_own(&[SHARD, AMOUNT], faults)?;
        Ok(Spare {
            shard: cursor.shard(Member::Shard),
            amount: u64::from(cursor.number(Member::Amount, AMOUNT_LIMIT)),
        })
    }
}

/// Makes a parcel of no rights.
pub fn empty_parcel(alloc: Global) -> Result<Parcel, AllocError>
    ensures { IfOk result (λ parcel. parcel ≡ no_rights) }
{
    Ok(Hold::empty(alloc, 0)?.into_parcel())
}

/// Returns the parcel of rights no two of which have the same key, and an empty one of others.
fn parcel_of(alloc: Global, lists: Lists) -> Result<Parcel, AllocError>
    ensures { IfOk result (λ parcel. IsOnce (rights_of lists) → parcel ≡ in_order (rights_of lists)) }
{
    match Parcel::new(alloc, lists) {
        Ok(parcel) => Ok(parcel),
        Err((_, ParcelFault::NoMemory)) => Err(AllocError),
        Err((_, ParcelFault::Double { .. })) => empty_parcel(alloc),
    }
}

/// If two of its rights have the same key, which is noted, the parcel is empty.
impl Entry for Parcel {
    ghost value = { λ scope entry. parcel_in scope.shards.now scope.servers.now entry };

    ghost faults_of = { λ scope parent entry. parcel_faults parent scope.shards.now scope.servers.now [] entry };

    fn read(cursor: &Cursor<'_, '_>, faults: &mut Faults) -> Result<Self, AllocError> {
        cursor.note_own(PARCEL, faults)?;
        let lists = Lists {
            cells: cursor.list(Member::Cells, faults)?,
            crowns: cursor.list(Member::Crowns, faults)?,
            room: cursor.list(Member::Room, faults)?,
            spare: cursor.list(Member::Spare, faults)?,
        };
        let parcel = parcel_of(cursor.alloc, lists)?;
        Ok(parcel)
    }
}
