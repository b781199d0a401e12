//! Cells, a byte for each, with the parties of those that have one beside them.
ghost use Rattle.std.specs.Prelude.{◌≡◌, ◌<◌, ◌≤◌, ◌+◌, ◌*◌, ◌^◌, length, replicate, slice_set, IfOk};
ghost use Rattle.sm_placement.specs.Layout.{entries_of};
ghost use Rattle.sm_placement.specs.Lead.{has_part};

use crate::parties::{Parties, Party, no_party};
use sm_server::Cell;
use std::alloc::{AllocError, Global};
use std::marker::Model;

/// The state of a cell, without the party that it may have.
#[derive(Clone, Copy)]
pub enum State {
    Absent,
    Prepared,
    Secondary,
    Primary,
    Forwarding,
}

/// A list of cells: the state of each, and the party of each whose state has one. Beside any other state a party means
/// nothing.
pub struct Cells {
    states: Vec<State>,
    parties: Parties,
}

/// Drops everything in one call, instead of one call for each list.
impl Drop for Cells {
    fn drop(self) {
        let Cells { states, parties } = self;
        drop(states);
        drop(parties);
    }
}

impl Model for Cells {
    ghost use Rattle.std.specs.Prelude.{◌≤◌, ◌*◌, length, List};
    ghost use Rattle.sm_server.specs.declared.call.Cell.{Cell};
    ghost use Rattle.sm_placement.specs.declared.parties.TheConstants.{BLOCK};
    ghost use Rattle.sm_placement.specs.Parties.{party_at};
    ghost use Rattle.sm_placement.specs.Cells.{with_parties};

    ghost Value = { List Cell };

    ghost view = { λ c. with_parties c.states.items (party_at c.parties.starts c.parties.parties) };

    ghost invariant = { λ c. length c.states.items ≤ length c.parties.starts * BLOCK };
}

/// The servers' cells of one shard, in a list with the same number of cells for each shard.
#[derive(Clone, Copy)]
pub struct Row<'a> {
    pub cells: &'a Cells,
    pub shard: usize,
    pub servers: usize,
    ghost inside: { shard * servers + servers ≤ length cells.now },
    ghost small: { shard * servers + servers < 2 ^ 64 },
}

ghost use Rattle.sm_placement.specs.Cells.{cell_of, state_of_cell, named_party, has_party};

/// Returns the state of a cell.
fn state_of_cell(cell: &Cell) -> State
    ensures { result ≡ state_of_cell cell.now }
{
    match cell {
        Cell::Absent => State::Absent,
        Cell::Prepared { .. } => State::Prepared,
        Cell::Secondary => State::Secondary,
        Cell::Primary => State::Primary,
        Cell::Forwarding { .. } => State::Forwarding,
    }
}

/// Returns the party that a cell names, if it names one.
fn named_party(cell: &Cell) -> Option<Party>
    ensures { result ≡ named_party cell.now }
{
    match cell {
        Cell::Prepared { from, number } => Some(Party {
            server: *from,
            number: *number,
        }),
        Cell::Forwarding { to, number } => Some(Party {
            server: *to,
            number: *number,
        }),
        _ => None,
    }
}

/// Tells whether the cell of a state has a party.
fn has_party(state: State) -> bool
    ensures { result ≡ has_party state }
{
    matches!(state, State::Prepared | State::Forwarding)
}

/// Returns the cell of a state, with a party if it has one.
fn cell_of(state: State, party: Party) -> Cell
    ensures { result ≡ cell_of state party }
{
    match state {
        State::Absent => Cell::Absent,
        State::Prepared => Cell::Prepared {
            from: party.server,
            number: party.number,
        },
        State::Secondary => Cell::Secondary,
        State::Primary => Cell::Primary,
        State::Forwarding => Cell::Forwarding {
            to: party.server,
            number: party.number,
        },
    }
}

/// Tells whether a server with a cell of the state has a part in the shard's lead.
fn is_part(state: State) -> bool
    ensures { (party : Party) → result ≡ has_part (cell_of state party) }
{
    match state {
        State::Absent | State::Secondary => false,
        State::Prepared | State::Primary | State::Forwarding => true,
    }
}

impl Cells {
    /// Makes this many cells, with nothing in each. There is room for the parties of all, but none is written.
    pub fn new(alloc: Global, count: usize) -> Result<Cells, AllocError>
        requires { count < 2 ^ 32 }
        ensures { IfOk result (λ cells. cells ≡ replicate count Cell.Absent) }
    {
        Ok(Cells {
            states: vec![in alloc; State::Absent; count]?,
            parties: Parties::new(alloc, count)?,
        })
    }

    /// Copies the cells.
    pub fn copy(&self, alloc: Global) -> Result<Cells, AllocError>
        ensures { IfOk result (λ cells. cells ≡ self.now) }
    {
        Ok(Cells {
            states: Vec::from_slice(alloc, &self.states)?,
            parties: self.parties.copy(alloc)?,
        })
    }

    /// Returns the cell at a slot.
    #[inline(always)]
    pub fn get(&self, slot: usize) -> Cell
        requires { slot < length self.now }
        ensures { result ≡ entries_of Cell.Absent self.now slot }
    {
        let state = self.states[slot];
        if !has_party(state) {
            return cell_of(state, no_party());
        }
        cell_of(state, self.parties.get(slot))
    }

    /// Tells whether the server of a slot's cell has a part in the shard's lead.
    #[inline]
    pub fn has_part(&self, slot: usize) -> bool
        requires { slot < length self.now }
        ensures { result ≡ has_part (entries_of Cell.Absent self.now slot) }
    {
        is_part(self.states[slot])
    }

    /// Sets the cell at a slot. Takes no memory.
    pub fn set(&mut self, slot: usize, cell: Cell)
        requires { slot < length self.old }
        ensures { self.new ≡ slice_set self.old slot cell }
    {
        self.states[slot] = state_of_cell(&cell);
        match named_party(&cell) {
            Some(party) => self.parties.set(slot, party),
            None => {}
        }
    }

    /// Returns the cells of one shard.
    #[inline]
    pub fn row(&self, shard: usize, servers: usize) -> Row<'_>
        requires { shard * servers + servers ≤ length self.now }
        ensures cells { result.cells.now ≡ self.now }
        ensures shard { result.shard ≡ shard }
        ensures servers { result.servers ≡ servers }
    {
        prove!(servers <= self.states.len());
        Row {
            cells: self,
            shard,
            servers,
        }
    }
}
