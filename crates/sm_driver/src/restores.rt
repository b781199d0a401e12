//! Restores: the messages to servers that have lost all they had.
ghost use Rattle.std.specs.Prelude.{◌≡◌, ◌≤◌, ◌<◌, IfOk, Some, None, length, replicate, slice_set};
ghost use Rattle.std.specs.Option.{option_copied};
ghost use Rattle.sm_protocol.specs.State.{numbers_end};
ghost use Rattle.laws_network.specs.Net.{cell_above};
ghost use Rattle.sm_machine.specs.State.{state_of};
ghost use Rattle.sm_driver.specs.Orders.{bases_end};
ghost use Rattle.sm_driver.specs.Restores.{cells_told, handover_in_cell, restore_at, is_last_restore};

use sm_machine::Machine;
use sm_reservation::StreamId;
use sm_server::{Cell, ServerId, ShardId};
use std::alloc::{AllocError, Global};
use std::marker::Model;
use thiserror::Error;

/// The reason why a server is not restored. Want of memory comes last.
#[derive(Clone, Copy, Debug, PartialEq, Eq, Error)]
pub enum RestoreFault {
    /// An unfinished stream names the server.
    #[error("{stream} engages the server, and is not finished")]
    Engaged {
        /// The lowest such stream.
        stream: StreamId,
    },
    /// Memory was short.
    #[error("out of memory")]
    NoMemory,
}

/// The restore of a server that has lost all it had: its cells, and the number up to which orders are old to it.
#[derive(Drop)]
pub struct ServerRestore {
    nonce: u64,
    number: u64,
    cells: Vec<Cell>,
}

impl Model for ServerRestore {
    ghost use Rattle.sm_driver.specs.Restores.{RestoreModel};

    ghost Value = { RestoreModel };

    ghost view = { λ r. record { nonce = r.nonce; number = r.number; cells = r.cells.items } };
}

impl ServerRestore {
    /// A restore of its parts.
    pub(crate) fn new(nonce: u64, number: u64, cells: Vec<Cell>) -> ServerRestore
        ensures { result ≡ record { nonce = nonce; number = number; cells = cells.items } }
    {
        ServerRestore {
            nonce,
            number,
            cells,
        }
    }

    /// The nonce under which the server asked.
    pub fn nonce(&self) -> u64
        ensures { result ≡ self.now.nonce }
    {
        self.nonce
    }

    /// The number at or below which all orders are old to the server.
    pub fn number(&self) -> u64
        ensures { result ≡ self.now.number }
    {
        self.number
    }

    /// What is recorded of the server's cells, by the shards' numbers, with the base in handover numbers.
    pub fn cells(&self) -> &[Cell]
        ensures { result.now ≡ self.now.cells }
    {
        self.cells.as_slice()
    }
}

/// The last restore of each server, by the servers' numbers.
#[derive(Drop)]
pub(crate) struct Restores {
    told: Vec<Option<ServerRestore>>,
}

impl Model for Restores {
    ghost use Rattle.std.specs.Prelude.{List, Option};
    ghost use Rattle.sm_driver.specs.Restores.{RestoreModel};

    ghost Value = { List (Option RestoreModel) };

    ghost view = { λ r. r.told.items };
}

impl Restores {
    /// The restores of a number of servers: none was told anything.
    pub fn none(alloc: Global, servers: u32) -> Result<Restores, AllocError>
        ensures { IfOk result (λ restores. restores ≡ replicate servers None) }
    {
        let mut told = Vec::new(alloc);
        for _ in 0..servers {
            told.push(None)?;
        }
        Ok(Restores { told })
    }

    /// What a server was told last.
    pub fn get(&self, server: ServerId) -> Option<&ServerRestore>
        requires { server < length self.now }
        ensures { option_copied result ≡ restore_at self.now server }
    {
        self.told[server.number() as usize].as_ref()
    }

    /// Whether a server was told under this nonce last.
    pub fn is_last_restore(&self, server: ServerId, nonce: u64) -> bool
        requires { server < length self.now }
        ensures { result ≡ is_last_restore self.now server nonce }
    {
        match self.get(server) {
            None => false,
            Some(restore) => restore.nonce() == nonce,
        }
    }

    /// Keeps the latest restore of a server.
    pub fn set(&mut self, server: ServerId, restore: ServerRestore)
        requires { server < length self.old }
        ensures { self.new ≡ slice_set self.old server (Some restore) }
    {
        self.told[server.number() as usize] = Some(restore);
    }
}

/// A cell with the base added to its handover number, if it has one.
fn cell_above(base: u64, cell: Cell) -> Cell
    requires base { base < bases_end }
    requires number { handover_in_cell cell ≤ numbers_end }
    ensures { result ≡ cell_above base cell }
{
    match cell {
        Cell::Prepared { from, number } => Cell::Prepared {
            from,
            number: base + number,
        },
        Cell::Forwarding { to, number } => Cell::Forwarding {
            to,
            number: base + number,
        },
        Cell::Absent | Cell::Secondary | Cell::Primary => cell,
    }
}

/// What is recorded of a server's cell of a shard, with the base in its handover number.
pub(crate) fn recorded_cell(machine: &Machine, base: u64, shard: ShardId, server: ServerId) -> Cell
    requires base { base < bases_end }
    requires shard { shard < (state_of machine.now).sizes.shards }
    requires server { server < (state_of machine.now).sizes.servers }
    ensures { result ≡ cell_above base ((state_of machine.now).place.cells shard server) }
{
    machine.is_reached();
    cell_above(base, machine.placement().cell(shard, server))
}

/// What is recorded of a server's cells, by the shards' numbers, with the base in handover numbers.
pub(crate) fn cells_told(
    alloc: Global,
    machine: &Machine,
    base: u64,
    server: ServerId,
) -> Result<Vec<Cell>, AllocError>
    requires base { base < bases_end }
    requires server { server < (state_of machine.now).sizes.servers }
    ensures { IfOk result (λ cells. cells.items ≡ cells_told base (state_of machine.now) server) }
{
    let mut cells = Vec::new(alloc);
    for number in 0..machine.config().shard_count() {
        let shard = ShardId::new(number);
        cells.push(recorded_cell(machine, base, shard, server))?;
    }
    Ok(cells)
}
