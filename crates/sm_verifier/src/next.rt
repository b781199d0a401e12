//! The next number at which streams declare something.
ghost use Rattle.std.specs.Prelude.{◌≡◌, ℕ};
ghost use Rattle.sm_reservation.specs.Rows.{Rises};
ghost use Rattle.sm_verifier.specs.Admission.{declared_room, declared_spare};
ghost use Rattle.sm_verifier.specs.Next.{next_number, IsNextOrNone};

use crate::downs::lower;
use sm_plan_code::Stream;
use sm_reservation::{Room, Spare};

/// A row of a list that says how much there is at each number.
trait Numbered: Copy {
    ghost number: { Self → ℕ };

    /// Returns the number: a server's or a shard's.
    fn number(&self) -> u32
        ensures { result ≡ number self.now };
}

impl Numbered for Room {
    ghost number = { λ x. x.server };

    fn number(&self) -> u32 {
        self.server.number()
    }
}

impl Numbered for Spare {
    ghost number = { λ x. x.shard };

    fn number(&self) -> u32 {
        self.shard.number()
    }
}

/// Returns the lowest number, from a given one on, of which there is a row. It is found by halves.
fn next_row<T: Numbered>(rows: &[T], from: u64) -> Option<u32>
    requires { Rises (λ x. (T.number x, 0)) rows.now }
    ensures { result ≡ next_number T.number rows.now from }
{
    let i = rows.partition_point(|row| u64::from(row.number()) < from);
    if i >= rows.len() {
        return None;
    }
    let row = rows[i];
    Some(row.number())
}

/// Returns the lowest server, from a number on, of which a stream declares room.
pub(crate) fn next_room(streams: &[Stream], from: u64) -> Option<u32>
    ensures { IsNextOrNone (declared_room streams.now) from result }
{
    let mut next = None;
    for stream in streams {
        next = lower(next, next_row(stream.holds.room(), from));
    }
    next
}

/// Returns the lowest shard, from a number on, of which a stream declares spare replicas.
pub(crate) fn next_spare(streams: &[Stream], from: u64) -> Option<u32>
    ensures { IsNextOrNone (declared_spare streams.now) from result }
{
    let mut next = None;
    for stream in streams {
        next = lower(next, next_row(stream.holds.spare(), from));
    }
    next
}
