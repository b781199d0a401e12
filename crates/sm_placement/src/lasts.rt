//! The numbers of the last calls, which are written at the first one.
ghost use Rattle.std.specs.Prelude.{◌≡◌, ◌<◌, ◌≤◌, length, replicate, slice_set, vec_capacity, IfOk};
ghost use Rattle.sm_placement.specs.Layout.{entries_of};
ghost use Rattle.sm_placement.specs.Lasts.{padded};

use std::alloc::{AllocError, Global};
use std::marker::Model;

/// A number for each slot, 0 at first. There is room for all of them from the beginning, and none is written before
/// the first is set.
#[derive(Drop)]
pub struct Lasts {
    numbers: Vec<u64>,
    count: usize,
}

impl Model for Lasts {
    ghost use Rattle.std.specs.Prelude.{◌≤◌, ℕ, List, length, vec_capacity};
    ghost use Rattle.sm_placement.specs.Lasts.{padded};

    ghost Value = { List ℕ };

    ghost view = { λ l. padded l.count l.numbers.items };

    ghost invariant = { λ l. record { within : length l.numbers.items ≤ l.count; room : l.count ≤ vec_capacity l.numbers } };
}

/// Writes 0 behind the numbers that are written, until there are this many.
fn write_all(numbers: &mut Vec<u64>, count: usize)
    requires within { length numbers.old.items ≤ count }
    requires room { count ≤ vec_capacity numbers.old }
    ensures items { numbers.new.items ≡ padded count numbers.old.items }
    ensures room { count ≤ vec_capacity numbers.new }
{
    match numbers.resize(count, 0) {
        Ok(()) => {}
        Err(_) => unreachable!(),
    }
}

/// Returns the number of a slot, 0 behind those that are written.
#[tactic(auto, unfolding(crate::specs::Layout::entries_of))]
fn number_at(numbers: &[u64], slot: usize) -> u64
    ensures { result ≡ entries_of 0 numbers.now slot }
{
    match numbers.get(slot) {
        Some(number) => *number,
        None => 0,
    }
}

impl Lasts {
    /// Makes room for this many numbers.
    pub fn new(alloc: Global, count: usize) -> Result<Lasts, AllocError>
        ensures { IfOk result (λ lasts. lasts ≡ replicate count 0) }
    {
        Ok(Lasts {
            numbers: Vec::with_capacity(alloc, count)?,
            count,
        })
    }

    /// Copies the numbers.
    pub fn copy(&self, alloc: Global) -> Result<Lasts, AllocError>
        ensures { IfOk result (λ lasts. lasts ≡ self.now) }
    {
        let mut numbers = Vec::with_capacity(alloc, self.count)?;
        numbers.extend_from_slice(&self.numbers)?;
        Ok(Lasts {
            numbers,
            count: self.count,
        })
    }

    /// Returns the number of a slot.
    pub fn get(&self, slot: usize) -> u64
        ensures { result ≡ entries_of 0 self.now slot }
    {
        number_at(&self.numbers, slot)
    }

    /// Sets the number of a slot. Takes no memory.
    pub fn set(&mut self, slot: usize, number: u64)
        requires { slot < length self.old }
        ensures { self.new ≡ slice_set self.old slot number }
    {
        write_all(&mut self.numbers, self.count);
        self.numbers[slot] = number;
    }

    /// Sets all numbers to 0. Takes no memory.
    pub fn forget(&mut self)
        ensures { self.new ≡ replicate (length self.old) 0 }
    {
        self.numbers.clear();
    }
}
