//! Rows in the order of their keys: the row at a key, and rows worked in.
ghost use Rattle.std.specs.Prelude.{◌≡◌, ◌↔◌, IsTrue, IfOk, OnOk, ℕ, ◌+◌, ◌≤◌, [], ◌∷◌, length, vec_capacity};
ghost use Rattle.sm_reservation.specs.Rows.{same, before, row_at, Rises, count_before};
ghost use Rattle.sm_reservation.specs.Edits.{edited, edited_all, StaysAt, new_rows};

use crate::merge::{Edit, edit_row, edit_rows};
use std::alloc::{AllocError, Global};
use std::marker::Model;

/// A row of an ordered list, which its key tells apart from the others.
pub trait Row: Copy {
    ghost key: { Self → ℕ × ℕ };

    /// Returns the row's key: a shard and a server, or one of them and 0.
    fn key(&self) -> (u32, u32)
        ensures { result ≡ key self.now };
}

/// Tells whether two keys are the same.
pub fn is_same(a: (u32, u32), b: (u32, u32)) -> bool
    ensures { result ≡ same a b }
{
    a.0 == b.0 && a.1 == b.1
}

/// Tells whether the first key comes before the second one.
pub fn is_before(a: (u32, u32), b: (u32, u32)) -> bool
    ensures { result ≡ before a b }
{
    a.0 < b.0 || (a.0 == b.0 && a.1 < b.1)
}

/// Returns the number of rows before a key.
pub fn count_before<T: Row>(rows: &[T], key: (u32, u32)) -> usize
    requires { Rises T.key rows.now }
    ensures { result ≡ count_before T.key key rows.now }
{
    rows.partition_point(|row| is_before(row.key(), key))
}

/// Returns the row at a key.
pub fn row_at<T: Row>(rows: &[T], key: (u32, u32)) -> Option<T>
    requires { Rises T.key rows.now }
    ensures { result ≡ row_at T.key rows.now key }
{
    let i = count_before(rows, key);
    if i >= rows.len() {
        return None;
    }
    let row = rows[i];
    if is_same(row.key(), key) {
        Some(row)
    } else {
        None
    }
}

/// A row with an amount.
pub trait Amount: Row {
    ghost amount: { Self → ℕ };

    fn amount(&self) -> u64
        ensures { result ≡ amount self.now };
}

/// Rows in the order of their keys, each key once.
#[derive(Drop)]
pub struct Rows<T: Row> {
    list: Vec<T>,
}

impl<T: Row> Model for Rows<T> {
    ghost use Rattle.std.specs.Prelude.{vec_capacity};
    ghost use Rattle.sm_reservation.specs.Rows.{RowsModel, Rises};

    ghost Value = { RowsModel T };

    ghost view = { λ r. record { items = r.list.items; capacity = vec_capacity r.list } };

    ghost invariant = { λ r. Rises T.key r.list.items };
}

impl<T: Row> Rows<T> {
    /// Makes a list of no rows, with capacity for a number of them.
    pub fn empty(alloc: Global, capacity: usize) -> Result<Rows<T>, AllocError>
        ensures items { IfOk result (λ rows. rows.items ≡ []) }
        ensures capacity { IfOk result (λ rows. capacity ≤ rows.capacity) }
    {
        Ok(Rows {
            list: Vec::with_capacity(alloc, capacity)?,
        })
    }

    /// Copies rows, with capacity for a number of rows in all.
    pub fn copied(alloc: Global, rows: &[T], capacity: usize) -> Result<Rows<T>, AllocError>
        requires order { Rises T.key rows.now }
        requires capacity { length rows.now ≤ capacity }
        ensures items { IfOk result (λ copy. copy.items ≡ rows.now) }
        ensures capacity { IfOk result (λ copy. capacity ≤ copy.capacity) }
    {
        let mut list = Vec::with_capacity(alloc, capacity)?;
        list.extend_from_slice(rows)?;
        Ok(Rows { list })
    }

    /// Makes the capacity enough for a number of rows in all.
    pub fn reserve(&mut self, capacity: usize) -> Result<(), AllocError>
        requires { length self.old.items ≤ capacity }
        ensures items { self.new.items ≡ self.old.items }
        ensures capacity { self.old.capacity ≤ self.new.capacity }
        ensures ok { OnOk result (capacity ≤ self.new.capacity) }
    {
        self.list.reserve(capacity - self.list.len())
    }

    /// Returns the rows.
    pub fn as_slice(&self) -> &[T]
        ensures value { result.now ≡ self.now.items }
        ensures order { Rises T.key result.now }
    {
        self.list.as_slice()
    }

    /// Returns the rows as a plain list.
    pub fn into_list(self) -> Vec<T>
        ensures value { result.items ≡ self.items }
        ensures order { Rises T.key result.items }
    {
        let Rows { list } = self;
        list
    }

    /// Tells whether there are no rows.
    pub fn is_empty(&self) -> bool
        ensures { IsTrue result ↔ (self.now.items ≡ []) }
    {
        self.list.is_empty()
    }

    /// Returns the row at a key.
    pub fn at(&self, key: (u32, u32)) -> Option<T>
        ensures { result ≡ row_at T.key self.now.items key }
    {
        row_at(&self.list, key)
    }

    /// Works one row in, by a search for its key. Takes no memory.
    pub fn edit<E: Edit<T>>(&mut self, row: &T, edit: &E)
        requires stays { StaysAt T.key E.edit }
        requires capacity { length self.old.items + new_rows T.key E.edit self.old.items
            (row.now ∷ []) ≤ self.old.capacity }
        ensures order { Rises T.key self.old.items }
        ensures items { self.new.items ≡ edited T.key E.edit self.old.items row.now }
        ensures capacity { self.old.capacity ≤ self.new.capacity }
    {
        edit_row(&mut self.list, row, edit);
    }

    /// Works the rows of a list in: more than one go in one pass over both. Takes no memory.
    pub fn edit_all<E: Edit<T>>(&mut self, list: &[T], edit: &E)
        requires list { Rises T.key list.now }
        requires stays { StaysAt T.key E.edit }
        requires capacity { length self.old.items + new_rows T.key E.edit self.old.items list.now ≤ self.old.capacity }
        ensures order { Rises T.key self.old.items }
        ensures items { self.new.items ≡ edited_all T.key E.edit self.old.items list.now }
        ensures capacity { self.old.capacity ≤ self.new.capacity }
    {
        match list {
            [row] => edit_row(&mut self.list, row, edit),
            _ => edit_rows(&mut self.list, list, edit),
        }
    }
}
