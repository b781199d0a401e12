//! Marks and amounts by number: nothing is marked beyond a list, and there is none of anything.
ghost use Rattle.std.specs.Prelude.{◌≡◌, ◌<◌, ◌+◌, ◌-◌, ◌^◌, false, All, IfOk, length, map, slice_index};
ghost use Rattle.std.specs.Prelude.{slice_index_or, slice_set};
ghost use Rattle.std.specs.List.{range_with_len};
ghost use Rattle.sm_placement.specs.Setup.{IsSetup};
ghost use Rattle.sm_reservation.specs.Pool.{pool_hold};
ghost use Rattle.sm_planner.specs.Accounts.{no_amounts};

use sm_placement::Config;
use sm_reservation::Pool;
use sm_server::ServerId;
use std::alloc::{AllocError, Global};
use std::marker::Model;

/// Tells whether the number is marked.
pub(crate) fn is_marked(marks: &[bool], number: usize) -> bool
    ensures { result ≡ slice_index_or marks.now number false }
{
    marks.get(number).copied().unwrap_or(false)
}

/// Marks a number, or takes its mark away.
pub(crate) fn mark(marks: &mut [bool], number: usize, marked: bool)
    ensures { marks.new ≡ slice_set marks.old number marked }
{
    if number < marks.len() {
        marks[number] = marked;
    }
}

/// An amount for each server.
#[derive(Drop)]
pub(crate) struct Amounts {
    by_server: Vec<u128>,
}

impl Model for Amounts {
    ghost use Rattle.std.specs.Prelude.{ℕ, List};

    ghost Value = { List ℕ };

    ghost view = { λ a. a.by_server.items };
}

impl Amounts {
    /// Makes a list with nothing of any server.
    pub(crate) fn none(alloc: Global, config: &Config) -> Result<Amounts, AllocError>
        ensures setup { IsSetup config.now }
        ensures none { IfOk result (λ amounts. amounts ≡ no_amounts (length config.now.servers)) }
    {
        let by_server = vec![in alloc; 0u128; config.server_count() as usize]?;
        Ok(Amounts { by_server })
    }

    /// Returns the room of each server that the pool has.
    pub(crate) fn of_pool(
        alloc: Global,
        config: &Config,
        pool: &Pool,
    ) -> Result<Amounts, AllocError>
        ensures small { IfOk result (λ amounts. All (λ x. x < 2 ^ 64) amounts) }
        ensures room { IfOk result (λ amounts. amounts
            ≡ map (pool_hold pool.now).room (range_with_len 0 (length config.now.servers))) }
    {
        let mut by_server = Vec::with_capacity(alloc, config.server_count() as usize)?;
        for number in 0..config.server_count() {
            by_server.push(u128::from(pool.room(ServerId::new(number))))?;
        }
        Ok(Amounts { by_server })
    }

    /// Returns the amount of a server.
    pub(crate) fn at(&self, server: ServerId) -> u128
        ensures { result ≡ slice_index self.now server }
    {
        let number = server.number() as usize;
        self.by_server.get(number).copied().unwrap_or(0)
    }

    /// Sets the amount of a server.
    fn set(&mut self, server: ServerId, amount: u128)
        ensures { self.new ≡ slice_set self.old server amount }
    {
        let number = server.number() as usize;
        if number < self.by_server.len() {
            self.by_server[number] = amount;
        }
    }

    /// Takes an amount away.
    pub(crate) fn take(&mut self, server: ServerId, amount: u128)
        ensures { self.new ≡ slice_set self.old server (slice_index self.old server - amount) }
    {
        let left = self.at(server).saturating_sub(amount);
        self.set(server, left);
    }

    /// Puts an amount in.
    pub(crate) fn put(&mut self, server: ServerId, amount: u128)
        requires { slice_index self.old server + amount < 2 ^ 128 }
        ensures { self.new ≡ slice_set self.old server (slice_index self.old server + amount) }
    {
        let sum = self.at(server) + amount;
        self.set(server, sum);
    }
}
