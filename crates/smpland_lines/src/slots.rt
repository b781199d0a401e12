//! The slots that a server tells.
ghost use Rattle.std.specs.Prelude.{◌≡◌, All, IfOk, IfSome, Some, true};
ghost use Rattle.json_tree.specs.View.{view};
ghost use Rattle.smpland_lines.specs.Reading.{ReadsOn, is_clean, object_data};
ghost use Rattle.smpland_lines.specs.Slots.{IsSlotFor, TellSlots, TellsParty, TellsSlot, cell_word, is_handover};
ghost use Rattle.smpland_lines.specs.Slots.{is_named, needs_position, needs_reached};
ghost use Rattle.smpland_lines.specs.Values.{text_at};
ghost use Rattle.smpland_lines.specs.declared.command_member.CommandMember.TheVariants as members;

use crate::bad_line::BadLine;
use crate::command_member::CommandMember;
use crate::faults::Faults;
use crate::form::MOST_EXACT;
use crate::line_part::LinePart;
use crate::reader::Reader;
use crate::row::Row;
use json_tree::Tree;
use std::alloc::{AllocError, Global};

/// The kind of a server's cell of a shard, without the other party of a handover.
#[derive(Clone, Copy, Debug, PartialEq, Eq)]
pub enum CellKind {
    Absent,
    Prepared,
    Secondary,
    Primary,
    Forwarding,
}

/// The other party of a handover, as a slot tells it.
#[derive(Clone, Copy)]
pub enum PartyText<'a> {
    Missing,
    Null,
    Name(&'a str),
}

/// A slot that a server tells. Its names need not be known.
#[derive(Clone, Copy)]
pub struct SlotText<'a> {
    pub shard: &'a str,
    pub cell: CellKind,
    pub party: PartyText<'a>,
    pub handover: Option<u64>,
    pub last: Option<u64>,
    pub load: Option<u32>,
    pub cut: Option<u64>,
    pub position: Option<u64>,
    pub view: Option<u64>,
    pub reached: Option<bool>,
}

/// The party that asks for slots, which decides what they have to tell.
#[derive(Clone, Copy, Debug, PartialEq, Eq)]
pub enum SlotNeeds {
    /// A fence needs positions, and of a prepared cell whether its cut is reached.
    Fence,
    Audit,
}

impl CellKind {
    /// Tells whether the cell is in a handover, which has another party and a number.
    const fn is_handover(self) -> bool
        ensures { result ≡ is_handover self }
    {
        matches!(self, CellKind::Prepared | CellKind::Forwarding)
    }
}

impl SlotNeeds {
    /// Tells whether a cell has to tell how far the shard's writes are.
    const fn position(self, cell: CellKind) -> bool
        ensures { result ≡ needs_position self cell }
    {
        match (self, cell) {
            (SlotNeeds::Audit, _) | (SlotNeeds::Fence, CellKind::Absent) => false,
            (SlotNeeds::Fence, _) => true,
        }
    }

    /// Tells whether a cell has to tell if its cut is reached.
    const fn reached(self, cell: CellKind) -> bool
        ensures { result ≡ needs_reached self cell }
    {
        matches!((self, cell), (SlotNeeds::Fence, CellKind::Prepared))
    }
}

const NAMES: &[CommandMember] = &[
    CommandMember::Shard,
    CommandMember::Cell,
    CommandMember::Party,
    CommandMember::Handover,
    CommandMember::Last,
    CommandMember::Load,
    CommandMember::Cut,
    CommandMember::Position,
    CommandMember::View,
    CommandMember::Reached,
];

/// Returns the kind of cell that a word names.
fn cell_kind(word: &str) -> Option<CellKind>
    ensures { IfSome result (λ kind. cell_word kind ≡ word.now) }
{
    match word {
        "absent" => Some(CellKind::Absent),
        "prepared" => Some(CellKind::Prepared),
        "secondary" => Some(CellKind::Secondary),
        "primary" => Some(CellKind::Primary),
        "forwarding" => Some(CellKind::Forwarding),
        _ => None,
    }
}

/// Returns the cell that a slot has to tell. If it tells none, which is noted, returns the cell that needs nothing
/// else.
fn cell_in(reader: &mut Reader<'_, '_>) -> CellKind
    ensures on { ReadsOn reader.old reader.new }
    ensures told { is_clean reader.new.faults ≡ true
        → text_at members.Cell (object_data reader.old) ≡ Some (cell_word result) }
{
    let row = Row::One(CommandMember::Cell);
    match reader.value(row) {
        Some(value) => match reader.shaped(row, value.as_str().and_then(cell_kind)) {
            Some(cell) => cell,
            None => CellKind::Absent,
        },
        None => CellKind::Absent,
    }
}

/// Returns the other party as a slot tells it. In a handover it has to be named.
fn party_in<'a>(reader: &mut Reader<'_, 'a>, in_handover: bool) -> PartyText<'a>
    ensures on { ReadsOn reader.old reader.new }
    ensures named { is_clean reader.new.faults ≡ true → in_handover ≡ true → is_named result ≡ true }
    ensures told { is_clean reader.new.faults ≡ true → TellsParty (object_data reader.old) result }
{
    if in_handover {
        return match reader.name(Row::One(CommandMember::Party)) {
            Some(name) => PartyText::Name(name),
            None => PartyText::Missing,
        };
    }
    match reader.name_or_null(Row::Maybe(CommandMember::Party)) {
        Some(Some(name)) => PartyText::Name(name),
        Some(None) => PartyText::Null,
        None => PartyText::Missing,
    }
}

/// Returns the slot that an entry is.
fn read_slot<'a>(
    entry: &Tree<'a>,
    part: LinePart,
    needs: SlotNeeds,
) -> Result<SlotText<'a>, BadLine<'a>>
    ensures needed { IfOk result (IsSlotFor needs) }
    ensures told { IfOk result (TellsSlot (view entry.now)) }
{
    let mut reader = Reader::new(entry, part, NAMES);
    let shard = reader.name(Row::One(CommandMember::Shard));
    let cell = cell_in(&mut reader);
    let party = party_in(&mut reader, cell.is_handover());
    let handover = Row::needed_if(cell.is_handover(), CommandMember::Handover);
    let handover = reader.number(handover, MOST_EXACT);
    let last = reader.number(Row::Maybe(CommandMember::Last), MOST_EXACT);
    let load = reader.small(Row::Maybe(CommandMember::Load));
    let cut = reader.number_unless_null(Row::Maybe(CommandMember::Cut), MOST_EXACT);
    let position = Row::needed_if(needs.position(cell), CommandMember::Position);
    let position = reader.number(position, MOST_EXACT);
    let view = reader.number(Row::Maybe(CommandMember::View), MOST_EXACT);
    let reached = Row::needed_if(needs.reached(cell), CommandMember::Reached);
    let reached = reader.flag(reached);
    match shard {
        Some(shard) => reader.finish(SlotText {
            shard,
            cell,
            party,
            handover,
            last,
            load,
            cut,
            position,
            view,
            reached,
        }),
        None => Err(reader.fault()),
    }
}

/// Returns the slots of a list, or what is wrong with it.
pub fn read_slots<'a>(
    alloc: Global,
    entries: &[Tree<'a>],
    needs: SlotNeeds,
) -> Result<Result<Vec<SlotText<'a>>, BadLine<'a>>, AllocError>
    ensures needed { IfOk result (λ read. IfOk read (λ slots. All (IsSlotFor needs) slots.items)) }
    ensures told { IfOk result (λ read. IfOk read (λ slots. TellSlots entries.now slots.items)) }
{
    let mut faults = Faults::new();
    let mut slots = Vec::with_capacity(alloc, entries.len())?;
    for at in 0..entries.len() {
        let part = LinePart::Entry(CommandMember::Slots, at);
        match read_slot(&entries[at], part, needs) {
            Ok(found) => slots.push(found)?,
            Err(fault) => faults.note(fault),
        }
    }
    Ok(faults.finish(slots))
}
