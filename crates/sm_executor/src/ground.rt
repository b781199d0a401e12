//! The ground on which a board is opened.
ghost use Rattle.std.specs.Prelude.{◌≡◌, ◌<◌, ◌≤◌, ◌*◌, [], All, IfOk, IfErr, length, map, slice_get, vec_capacity};
ghost use Rattle.std.specs.Prelude.{Some, ℕ};
ghost use Rattle.sm_placement.specs.Place.{entry_at};
ghost use Rattle.sm_map.specs.Entry.{IsInRange};
ghost use Rattle.sm_machine.specs.State.{state_of};
ghost use Rattle.sm_executor.specs.Names.{IsLedgerOf};
ghost use Rattle.sm_executor.specs.Tied.{IsMapOf};
ghost use Rattle.sm_executor.specs.Views.{held_model, running};
ghost use Rattle.sm_executor.specs.declared.limits.TheConstants.{MOST_UNFINISHED};
ghost use Rattle.sm_plan_code.specs.declared.limits.TheConstants.{MOST_STREAMS};

use crate::board::Board;
use crate::held::Held;
use crate::limits::{MOST_UNFINISHED, PARTS};
use crate::names::Naming;
use crate::runner::Runner;
use sm_machine::{Machine, StreamToken};
use sm_map::{Entry, Publisher, Words};
use sm_placement::Config;
use sm_reservation::StreamId;
use sm_server::ShardId;
use std::alloc::{AllocError, Global};
use std::marker::Model;
use std::sync::ledger::{Blank, Ledger};

/// The words of a machine's map with their publisher, a copy of its configuration, and three ledgers that have counted
/// nothing.
///
/// A contract sees the words, the configuration, and the names of the ledgers.
pub struct Ground {
    words: Words,
    publisher: Publisher,
    config: Config,
    steps: Blank,
    executed: Blank,
    refused: Blank,
}

impl Drop for Ground {
    fn drop(self) {
        let Ground {
            words,
            publisher,
            config,
            steps,
            executed,
            refused,
        } = self;
        drop(words);
        drop(publisher);
        drop(config);
        drop(steps);
        drop(executed);
        drop(refused);
    }
}

impl Model for Ground {
    ghost use Rattle.std.specs.Prelude.{◌≡◌, []};
    ghost use Rattle.sm_executor.specs.Names.{Bases, bases};
    ghost use Rattle.sm_executor.specs.declared.limits.TheConstants.{PARTS};

    ghost Value = { Bases };

    ghost view = { λ g. bases g.words g.config g.steps.name g.executed.name g.refused.name };

    ghost invariant = { λ g.
        (g.publisher ≡ record { words = g.words; stores = [] })
        × (g.steps.parts ≡ PARTS) × (g.executed.parts ≡ PARTS) × (g.refused.parts ≡ PARTS) };
}

/// Returns the map's entry of each shard.
fn entries_of(alloc: Global, machine: &Machine) -> Result<Vec<Entry>, AllocError>
    ensures count { IfOk result (λ entries. length entries.items ≡ (state_of machine.now).sizes.shards) }
    ensures each { IfOk result (λ entries. (s : ℕ) → s < (state_of machine.now).sizes.shards
        → slice_get entries.items s ≡ Some (entry_at (state_of machine.now).place s)) }
    ensures in_range { IfOk result (λ entries. All (IsInRange (state_of machine.now).sizes.servers) entries.items) }
{
    machine.is_reached();
    let count = machine.config().shard_count();
    let mut entries = Vec::with_capacity(alloc, count as usize)?;
    for number in 0..count {
        let Entry { server, version } = machine.entry(ShardId::new(number));
        entries.push_reserved(Entry { server, version });
    }
    Ok(entries)
}

/// Returns the words of a machine's map as it stands, and their publisher.
fn words_of(alloc: Global, machine: &Machine) -> Result<(Words, Publisher), AllocError>
    ensures map { IfOk result (λ opened. IsMapOf opened.0 (state_of machine.now)) }
    ensures publisher { IfOk result (λ opened. opened.1 ≡ record { words = opened.0; stores = [] }) }
{
    let entries = entries_of(alloc, machine)?;
    let servers = machine.config().server_count();
    Words::open(alloc, servers, entries.as_slice())
}

impl Ground {
    /// Makes the ground of a machine as it stands. It takes memory, and fails only for want of it.
    pub fn new(alloc: Global, machine: &Machine) -> Result<Ground, AllocError>
        ensures map { IfOk result (λ ground. IsMapOf ground.words (state_of machine.now)) }
        ensures setup { IfOk result (λ ground. ground.setup ≡ machine.now.placement.setup) }
    {
        let config = machine.config().copy(alloc)?;
        let (words, publisher) = words_of(alloc, machine)?;
        Ok(Ground {
            words,
            publisher,
            config,
            steps: Blank::new(PARTS),
            executed: Blank::new(PARTS),
            refused: Blank::new(PARTS),
        })
    }

    /// Makes what is to lie behind the lock of a board over its machine, with the words and the configuration.
    fn laid<A: Ledger, B: Ledger, C: Ledger, N: Naming>(
        self,
        machine: Machine,
    ) -> (Held<A, B, C, N>, Words, Config)
        requires map { IsMapOf self.words (state_of machine) }
        requires setup { self.setup ≡ machine.placement.setup }
        requires names { (self.words ≡ N.words) × (self.setup ≡ N.setup) × (state_of machine ≡ N.opened) }
        requires steps { IsLedgerOf self.steps A.name A.parts }
        requires executed { IsLedgerOf self.executed B.name B.parts }
        requires refused { IsLedgerOf self.refused C.name C.parts }
        ensures held { result.0 ≡ held_model machine 0 0 }
        ensures words { result.1 ≡ N.words }
        ensures config { result.2 ≡ N.setup }
        ensures map { IsMapOf N.words N.opened }
    {
        let Ground {
            words,
            publisher,
            config,
            steps,
            executed,
            refused,
        } = self;
        let held = Held::open(machine, publisher, steps, executed, refused);
        (held, words, config)
    }
}

/// A board over running streams for which there is no memory, with all that it was to be opened with.
pub struct NotOpened {
    pub machine: Machine,
    pub ground: Ground,
    /// The tokens of the streams that were to get runners.
    pub tokens: Vec<StreamToken>,
}

/// Makes room for what a board lists if it is not closed, and for `count` runners.
fn rooms<A: Ledger>(
    alloc: Global,
    count: usize,
) -> Result<(Vec<(StreamId, u32)>, Vec<Runner<A>>), AllocError>
    ensures positions { IfOk result (λ rooms. MOST_UNFINISHED ≤ vec_capacity rooms.0) }
    ensures runners { IfOk result (λ rooms. (rooms.1.items ≡ []) × (count ≤ vec_capacity rooms.1)) }
{
    let positions = Vec::with_capacity(alloc, MOST_UNFINISHED)?;
    let runners = Vec::with_capacity(alloc, count)?;
    Ok((positions, runners))
}

impl<A: Ledger, B: Ledger, C: Ledger, N: Naming> Board<A, B, C, N> {
    /// Opens a board over a machine, on the ground of this machine as it stands, under the names of that ground. It has
    /// given out no runner: `begin` gives those of a plan. If there is no memory, both come back.
    pub fn open(
        alloc: Global,
        machine: Machine,
        ground: Ground,
    ) -> Result<Board<A, B, C, N>, (Machine, Ground, AllocError)>
        requires map { IsMapOf ground.words (state_of machine) }
        requires setup { ground.setup ≡ machine.placement.setup }
        requires names { (ground.words ≡ N.words) × (ground.setup ≡ N.setup) × (state_of machine ≡ N.opened) }
        requires steps { IsLedgerOf ground.steps A.name A.parts }
        requires executed { IsLedgerOf ground.executed B.name B.parts }
        requires refused { IsLedgerOf ground.refused C.name C.parts }
        ensures back { IfErr result (λ e. (e.0 ≡ machine) × (e.1 ≡ ground)) }
    {
        match Vec::with_capacity(alloc, MOST_UNFINISHED) {
            Ok(positions) => {
                let (held, words, config) = ground.laid(machine);
                Ok(Board::of(held, words, config, positions))
            }
            Err(error) => Err((machine, ground, error)),
        }
    }

    /// Opens a board as `open` does, over a machine on which the streams of these tokens have begun: there is a runner
    /// for each, in their order.
    pub fn open_running(
        alloc: Global,
        machine: Machine,
        ground: Ground,
        tokens: Vec<StreamToken>,
    ) -> Result<(Board<A, B, C, N>, Vec<Runner<A>>), NotOpened>
        requires map { IsMapOf ground.words (state_of machine) }
        requires setup { ground.setup ≡ machine.placement.setup }
        requires names { (ground.words ≡ N.words) × (ground.setup ≡ N.setup) × (state_of machine ≡ N.opened) }
        requires few { length tokens.items ≤ MOST_STREAMS * length (state_of machine).plans }
        requires steps { IsLedgerOf ground.steps A.name A.parts }
        requires executed { IsLedgerOf ground.executed B.name B.parts }
        requires refused { IsLedgerOf ground.refused C.name C.parts }
        ensures runners { IfOk result (λ opened. opened.1.items ≡ map (λ token. running token 0) tokens.items) }
        ensures back { IfErr result (λ e. (e.machine ≡ machine) × (e.ground ≡ ground) × (e.tokens ≡ tokens)) }
    {
        let Ok((positions, mut runners)) = rooms(alloc, tokens.len()) else {
            return Err(NotOpened {
                machine,
                ground,
                tokens,
            });
        };
        let (mut held, words, config) = ground.laid(machine);
        held.take_on(&mut runners, tokens);
        Ok((Board::of(held, words, config, positions), runners))
    }
}
