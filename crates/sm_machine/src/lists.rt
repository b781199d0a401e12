//! Lists with room for what is put into them.
ghost use Rattle.std.specs.Prelude.{◌≡◌, ◌≤◌, ◌<◌, ◌+◌, ◌++◌, ◌∷◌, [], ◌==◌, not, length, Some, slice_set, vec_len};
ghost use Rattle.std.specs.Prelude.{vec_capacity, if◌then◌else◌};
ghost use Rattle.std.specs.List.{filter};
ghost use Rattle.sm_machine.specs.Hand.{put_behind};

use crate::ready_plan::ReadyPlan;
use crate::token::StreamToken;

/// Puts a number behind the others, if `is_one`.
pub(crate) fn add_number(numbers: &mut Vec<u32>, number: u32, is_one: bool)
    requires room { length numbers.old.items < vec_capacity numbers.old }
    ensures items { numbers.new.items ≡ (if is_one then numbers.old.items ++ number ∷ [] else numbers.old.items) }
    ensures capacity { vec_capacity numbers.old ≤ vec_capacity numbers.new }
{
    if is_one {
        numbers.push_reserved(number);
    }
}

/// Takes a number out.
pub(crate) fn take_out(numbers: &mut Vec<u32>, number: u32)
    ensures items { numbers.new.items ≡ filter (λ other. not (other == number)) numbers.old.items }
    ensures capacity { vec_capacity numbers.old ≤ vec_capacity numbers.new }
{
    numbers.retain(|other| *other != number);
}

/// Puts an element behind the others, if there is one.
pub(crate) fn add_left<T>(list: &mut Vec<T>, left: Option<T>)
    requires room { vec_len list.old < vec_capacity list.old }
    ensures items { list.new.items ≡ put_behind list.old.items left }
    ensures capacity { vec_capacity list.new ≡ vec_capacity list.old }
{
    match left {
        None => {}
        Some(value) => list.push_reserved(value),
    }
}

/// Puts the tokens of a plan behind the others.
pub(crate) fn add_tokens(list: &mut Vec<StreamToken>, tokens: Vec<StreamToken>)
    requires room { vec_len list.old + vec_len tokens ≤ vec_capacity list.old }
    ensures items { list.new.items ≡ list.old.items ++ tokens.items }
    ensures capacity { vec_capacity list.old ≤ vec_capacity list.new }
{
    let mut tokens = tokens;
    match list.append(&mut tokens) {
        Ok(()) => {}
        Err(_) => unreachable!(),
    }
    tokens.destroy_empty();
}

/// Puts a plan into its place, which is empty.
pub(crate) fn put_plan(plans: &mut Vec<Option<ReadyPlan>>, at: usize, ready: ReadyPlan)
    requires within { at < vec_len plans.old }
    ensures items { plans.new.items ≡ slice_set plans.old.items at (Some ready) }
    ensures capacity { vec_capacity plans.old ≤ vec_capacity plans.new }
{
    match plans[at].replace(ready) {
        None => {}
        Some(other) => {
            let _checked = other.back();
        }
    }
}
