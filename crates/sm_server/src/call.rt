//! The cell of a shard at a server, and the five calls that change it.
ghost use Rattle.std.specs.Prelude.{◌≡◌, ◌≤◌};
ghost use Rattle.sm_server.specs.Call.{led_to, refusal_of, served, served_numbered};
ghost use Rattle.sm_server.specs.Call.{LeadsWhereLed, ServedWhereAllowed, ServedOnce};

use crate::server_id::ServerId;
use thiserror::Error;

/// A cell: the state of one shard at one server.
#[derive(Clone, Copy, Debug, PartialEq, Eq)]
pub enum Cell {
    /// Nothing.
    Absent,
    /// The place for a primary that `from` is handing over: requests are taken only as `from` forwards them.
    Prepared { from: ServerId, number: u64 },
    /// A secondary replica.
    Secondary,
    /// The primary replica.
    Primary,
    /// A primary that is being handed over: requests are forwarded to `to`.
    Forwarding { to: ServerId, number: u64 },
}

impl Cell {
    ghost use Rattle.sm_server.specs.Cell.{is_absent};

    /// Tells whether the server has nothing of the shard, and no load by it.
    pub const fn is_absent(&self) -> bool
        ensures { result ≡ is_absent self.now }
    {
        matches!(self, Cell::Absent)
    }
}

/// The role of a replica.
#[derive(Clone, Copy, Debug, PartialEq, Eq)]
pub enum Role {
    Primary,
    Secondary,
}

/// A call at a server, for one shard.
#[derive(Clone, Copy, Debug, PartialEq, Eq)]
pub enum Call {
    /// `add_shard`: hold a replica in this role.
    Add(Role),
    /// `drop_shard`: give up whatever is held.
    Drop,
    /// `change_role`.
    Change { from: Role, to: Role },
    /// `prepare_add_shard`, at the new server of a handover.
    PrepareAdd { owner: ServerId, number: u64 },
    /// `prepare_drop_shard`, at the old server of a handover.
    PrepareDrop { new_owner: ServerId, number: u64 },
}

/// Why a server refuses a call: of the reasons that apply, the first in this order.
#[derive(Clone, Copy, Debug, PartialEq, Eq, Error)]
pub enum Refusal {
    /// The server is down, and answers no call.
    #[error("the server is down")]
    Down,
    /// A replica is to be added or prepared, and the server's cell is one to which it can't come: as a rule, one that
    /// isn't absent.
    #[error("the server holds the shard already")]
    AlreadyHeld,
    /// A replica is to be dropped, changed or handed over, and the server has nothing of the shard.
    #[error("the server does not hold the shard")]
    NotHeld,
    /// The server has something of the shard, but not what the call needs.
    #[error("the replica is not in the role that the call needs")]
    WrongRole,
    /// The server has nothing of the shard, and less room left than the shard's load.
    #[error("the server has no room for the shard")]
    NoRoom,
}

/// A server's answer to a numbered call.
#[derive(Clone, Copy, Debug, PartialEq, Eq)]
pub struct Served {
    /// The cell after the call.
    pub cell: Cell,
    /// The number of the last call that had an effect on the cell.
    pub last: u64,
    /// The call had its effect now, and not at an earlier try.
    pub fresh: bool,
}

/// Returns the cell after a replica is added in a role.
fn added(role: Role, cell: Cell) -> Option<Cell>
    ensures { result ≡ led_to (Call.Add role) cell }
{
    match (role, cell) {
        (Role::Secondary, Cell::Absent) => Some(Cell::Secondary),
        (Role::Primary, Cell::Absent | Cell::Prepared { .. }) => Some(Cell::Primary),
        _ => None,
    }
}

/// Returns the cell after a change of role.
fn changed(from: Role, to: Role, cell: Cell) -> Option<Cell>
    ensures { result ≡ led_to (Call.Change from to) cell }
{
    match (from, to, cell) {
        (Role::Secondary, Role::Primary, Cell::Secondary) => Some(Cell::Primary),
        (Role::Primary, Role::Secondary, Cell::Primary) => Some(Cell::Secondary),
        _ => None,
    }
}

/// Returns the cell that a call leads to, if the cell alone decides.
fn next_cell(call: Call, cell: Cell) -> Option<Cell>
    ensures { result ≡ led_to call cell }
{
    match call {
        Call::Add(role) => added(role, cell),
        Call::Drop => match cell {
            Cell::Absent => None,
            _ => Some(Cell::Absent),
        },
        Call::Change { from, to } => changed(from, to, cell),
        Call::PrepareAdd { owner, number } => match cell {
            Cell::Absent => Some(Cell::Prepared {
                from: owner,
                number,
            }),
            _ => None,
        },
        Call::PrepareDrop { new_owner, number } => match cell {
            Cell::Primary => Some(Cell::Forwarding {
                to: new_owner,
                number,
            }),
            _ => None,
        },
    }
}

/// Returns why a call that leads nowhere is refused.
fn refusal_for(call: &Call, cell: &Cell) -> Refusal
    ensures { result ≡ refusal_of call.now cell.now }
{
    match call {
        Call::Add(_) | Call::PrepareAdd { .. } => Refusal::AlreadyHeld,
        _ => match cell {
            Cell::Absent => Refusal::NotHeld,
            _ => Refusal::WrongRole,
        },
    }
}

/// Returns what a server answers to a call for a shard: the cell after it, or why it is refused. `free_room` is what
/// the server has left, and `load` what the shard needs if the server has nothing of it yet.
pub fn serve(cell: Cell, free_room: u64, load: u64, up: bool, call: Call) -> Result<Cell, Refusal>
    ensures { result ≡ served cell free_room load up call }
{
    if !up {
        return Err(Refusal::Down);
    }
    let Some(next) = next_cell(call, cell) else {
        return Err(refusal_for(&call, &cell));
    };
    if cell.is_absent() && load > free_room {
        return Err(Refusal::NoRoom);
    }
    Ok(next)
}

/// Returns what a server answers to a call that is tried until its answer comes. `last` is the number of the last call
/// that had an effect on the cell, 0 for none. A call with that number has had its effect, and nothing happens again.
pub fn serve_numbered(
    cell: Cell,
    last: u64,
    number: u64,
    free_room: u64,
    load: u64,
    up: bool,
    call: Call,
) -> Result<Served, Refusal>
    requires { 1 ≤ number }
    ensures { result ≡ served_numbered cell last number free_room load up call }
{
    if up && number == last {
        return Ok(Served {
            cell,
            last,
            fresh: false,
        });
    }
    let cell = serve(cell, free_room, load, up, call)?;
    Ok(Served {
        cell,
        last: number,
        fresh: true,
    })
}

/// States that the function by which calls are answered has the triples of the calls' relation, and no others.
pub fn leads_where_led()
    ensures { LeadsWhereLed }
{}

/// States that a call is served exactly if it is allowed.
pub fn served_where_allowed()
    ensures { ServedWhereAllowed }
{}

/// States that a numbered call that had its effect has none when it is tried again.
pub fn served_once()
    ensures { ServedOnce }
{}
