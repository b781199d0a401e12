//! A server's decisions on copies, as `sm_copies` makes them, for C.
ghost use Rattle.std.specs.Prelude.{◌≡◌, ◌↔◌, Bool, IsTrue};
ghost use Rattle.std.specs.Ordering.{MatchOrdering};
ghost use Rattle.std.specs.declared.cmp.Ordering.{Ordering};
ghost use Rattle.sm_copies.specs.Counting.{HaveEnough, IsAcknowledged};
ghost use Rattle.sm_copies.specs.Order.{IsLesser};
ghost use Rattle.sm_copies.specs.Views.{Resumes};
ghost use Rattle.sm_agent_c.specs.Code.{done_if};
ghost use Rattle.sm_agent_c.specs.Copies.{order_code};

use crate::code;
use sm_copies::{ToldCopy, ViewStart, acknowledged, compare, is_copied, resumes};
use std::cmp::Ordering;

/// The number of an answer to a comparison.
const fn code_of(order: Ordering) -> u32
    ensures { result ≡ order_code order }
{
    match order {
        Ordering::Less => code::LESS,
        Ordering::Equal => code::EQUAL,
        Ordering::Greater => code::GREATER,
    }
}

/// Compares two copies.
#[unsafe(no_mangle)]
pub extern "C" fn sm_compare(one: &ToldCopy, other: &ToldCopy) -> u32
    ensures { (order : Ordering) × (result ≡ order_code order)
        × MatchOrdering order (IsLesser one.now other.now) (one.now ≡ other.now) (IsLesser other.now one.now) }
{
    code_of(compare(one, other))
}

/// Whether a copy may go on behind a source.
#[unsafe(no_mangle)]
pub extern "C" fn sm_resumes(copy: &ToldCopy, views: &[ViewStart], end: u64) -> u32
    ensures { (is_so : Bool) × (result ≡ done_if is_so) × (IsTrue is_so ↔ Resumes copy.now views.now end) }
{
    code::done_if(resumes(copy, views, end))
}

/// Whether `copies` copies have the writes up to a position.
#[unsafe(no_mangle)]
pub extern "C" fn sm_copied(copies: u64, own: &ToldCopy, told: &[ToldCopy], position: u64) -> u32
    ensures { (is_so : Bool) × (result ≡ done_if is_so) × (IsTrue is_so ↔ HaveEnough copies own.now told.now position) }
{
    code::done_if(is_copied(copies, own, told, position))
}

/// The position up to which a primary acknowledges.
#[unsafe(no_mangle)]
pub extern "C" fn sm_acknowledged(copies: u64, own: &ToldCopy, told: &[ToldCopy]) -> u64
    ensures { IsAcknowledged copies own.now told.now result }
{
    acknowledged(copies, own, told)
}
