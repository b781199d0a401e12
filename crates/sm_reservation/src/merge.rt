//! Rows of a list worked into rows in order, in one pass over both.
ghost use Rattle.std.specs.Prelude.{◌≡◌, ℕ, ◌+◌, ◌≤◌, ◌<◌, ◌&&◌, true, IsSome, is_some, is_none, length, vec_len};
ghost use Rattle.std.specs.Prelude.{vec_capacity, [], ◌∷◌, ◌++◌, take, drop};
ghost use Rattle.sm_placement.specs.Sums.{bit};
ghost use Rattle.sm_reservation.specs.Rows.{Rises, count_before};
ghost use Rattle.sm_reservation.specs.Edits.{in_front, edited, edited_all, left_at, StaysAt, head_at, new_rows};

use crate::rows::{Row, count_before, is_before, is_same};

/// An edit of a row: what stands at the row's key afterwards.
pub trait Edit<T> {
    ghost use Rattle.std.specs.Prelude.{Option};

    ghost edit: { Option T → T → Option T };

    fn edit(&self, held: Option<T>, row: &T) -> Option<T>
        ensures { result ≡ edit held row.now };
}

/// Works one row into rows in order, by a search for its key. Takes no memory.
pub fn edit_row<T: Row, E: Edit<T>>(rows: &mut Vec<T>, row: &T, edit: &E)
    requires order { Rises T.key rows.old.items }
    requires stays { StaysAt T.key E.edit }
    requires capacity { vec_len rows.old + new_rows T.key E.edit rows.old.items (row.now ∷ []) ≤ vec_capacity rows.old }
    ensures items { rows.new.items ≡ edited T.key E.edit rows.old.items row.now }
    ensures order { Rises T.key rows.new.items }
    ensures capacity { vec_capacity rows.old ≤ vec_capacity rows.new }
{
    let key = row.key();
    let number = count_before(rows, key);
    let held = row_here(rows, number, key);
    let left = edit.edit(held, row);
    leave(rows, number, held, left);
}

/// Leaves a row, or none, at a number where one stood, or none did.
fn leave<T: Row>(rows: &mut Vec<T>, number: usize, held: Option<T>, left: Option<T>)
    requires number { number ≤ vec_len rows.old }
    requires here { IsSome held → number < vec_len rows.old }
    requires capacity { is_none held && is_some left ≡ true → vec_len rows.old < vec_capacity rows.old }
    ensures items { rows.new.items ≡ left_at held left number rows.old.items }
    ensures capacity { vec_capacity rows.old ≤ vec_capacity rows.new }
{
    match held {
        None => match left {
            None => {}
            Some(row) => rows.insert(number, row).unwrap(),
        },
        Some(_) => match left {
            None => {
                let _ = rows.remove(number);
            }
            Some(row) => rows[number] = row,
        },
    }
}

/// Works the rows of a list into rows in order, in one pass over both. Takes no memory.
pub fn edit_rows<T: Row, E: Edit<T>>(rows: &mut Vec<T>, list: &[T], edit: &E)
    requires order { Rises T.key rows.old.items }
    requires list { Rises T.key list.now }
    requires stays { StaysAt T.key E.edit }
    requires capacity { vec_len rows.old + new_rows T.key E.edit rows.old.items list.now ≤ vec_capacity rows.old }
    ensures items { rows.new.items ≡ edited_all T.key E.edit rows.old.items list.now }
    ensures order { Rises T.key rows.new.items }
    ensures capacity { vec_capacity rows.old ≤ vec_capacity rows.new }
{
    let gap = list.len().min(rows.capacity() - rows.len());
    open_gap(rows, &list[..gap]);
    merge(rows, gap, list, edit);
}

/// Puts rows in front, within the capacity.
fn open_gap<T: Row>(rows: &mut Vec<T>, front: &[T])
    requires { vec_len rows.old + length front.now ≤ vec_capacity rows.old }
    ensures items { rows.new.items ≡ front.now ++ rows.old.items }
    ensures capacity { vec_capacity rows.old ≤ vec_capacity rows.new }
{
    rows.extend_from_slice(front).unwrap();
    rows.rotate_right(front.len());
}

/// Works the rows of a list into those behind a gap, which is as long as rows come in.
fn merge<T: Row, E: Edit<T>>(rows: &mut Vec<T>, gap: usize, list: &[T], edit: &E)
    requires gap { gap ≤ vec_len rows.old }
    requires order { Rises T.key (drop gap rows.old.items) }
    requires list { Rises T.key list.now }
    requires stays { StaysAt T.key E.edit }
    requires capacity { new_rows T.key E.edit (drop gap rows.old.items) list.now ≤ gap }
    ensures items { rows.new.items ≡ edited_all T.key E.edit (drop gap rows.old.items) list.now }
    ensures capacity { vec_capacity rows.new ≡ vec_capacity rows.old }
{
    let mut write = 0;
    let mut read = gap;
    for row in list {
        let key = row.key();
        let count = shift_before(rows, write, read, key);
        let held = row_here(rows, read + count, key);
        read += count + number_of(&held);
        let left = edit.edit(held, row);
        write += count;
        write += put_over(rows, write, left);
    }
    close_gap(rows, write, read);
}

/// Moves the rows from `read` on that come before a key down to `write`, and counts them.
fn shift_before<T: Row>(rows: &mut Vec<T>, write: usize, read: usize, key: (u32, u32)) -> usize
    requires write { write ≤ read }
    requires read { read ≤ vec_len rows.old }
    ensures count { result ≡ count_before T.key key (drop read rows.old.items) }
    ensures done { take (write + result) rows.new.items
        ≡ take write rows.old.items ++ take result (drop read rows.old.items) }
    ensures rest { drop (read + result) rows.new.items ≡ drop result (drop read rows.old.items) }
    ensures within { read + result ≤ vec_len rows.old }
    ensures len { vec_len rows.new ≡ vec_len rows.old }
    ensures capacity { vec_capacity rows.new ≡ vec_capacity rows.old }
{
    let mut count = 0;
    while read + count < rows.len() {
        let row = rows[read + count];
        if !is_before(row.key(), key) {
            return count;
        }
        rows[write + count] = row;
        count += 1;
    }
    count
}

/// Returns the row at a number, if it stands at a key.
fn row_here<T: Row>(rows: &[T], number: usize, key: (u32, u32)) -> Option<T>
    ensures value { result ≡ head_at T.key (drop number rows.now) key }
    ensures within { IsSome result → number < length rows.now }
{
    if number >= rows.len() {
        return None;
    }
    let row = rows[number];
    if is_same(row.key(), key) {
        Some(row)
    } else {
        None
    }
}

/// Returns the number of rows: one or none.
fn number_of<T>(row: &Option<T>) -> usize
    ensures { result ≡ bit (is_some row.now) }
{
    match row {
        None => 0,
        Some(_) => 1,
    }
}

/// Writes a row over the one at a number, if there is one to write, and counts it.
fn put_over<T: Row>(rows: &mut Vec<T>, number: usize, row: Option<T>) -> usize
    requires { IsSome row → number < vec_len rows.old }
    ensures count { result ≡ bit (is_some row) }
    ensures done { take (number + result) rows.new.items ≡ take number rows.old.items ++ in_front row [] }
    ensures rest { (k : ℕ) → number + result ≤ k → drop k rows.new.items ≡ drop k rows.old.items }
    ensures len { vec_len rows.new ≡ vec_len rows.old }
    ensures capacity { vec_capacity rows.new ≡ vec_capacity rows.old }
{
    match row {
        None => 0,
        Some(row) => {
            rows[number] = row;
            1
        }
    }
}

/// Drops the rows from `write` to `read`.
fn close_gap<T: Row>(rows: &mut Vec<T>, write: usize, read: usize)
    requires write { write ≤ read }
    requires read { read ≤ vec_len rows.old }
    ensures items { rows.new.items ≡ take write rows.old.items ++ drop read rows.old.items }
    ensures capacity { vec_capacity rows.new ≡ vec_capacity rows.old }
{
    if write == read {
        return;
    }
    let mut count = 0;
    while read + count < rows.len() {
        rows[write + count] = rows[read + count];
        count += 1;
    }
    rows.truncate(write + count);
}
