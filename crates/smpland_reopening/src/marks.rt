//! Marks by number.
ghost use Rattle.std.specs.Prelude.{◌≡◌, ◌<◌, ◌||◌, ◌==◌, ℕ, false, length, slice_index_or};

/// Returns whether a number is marked.
pub(crate) fn is_marked(marks: &[bool], number: u32) -> bool
    ensures { result ≡ slice_index_or marks.now number false }
{
    match marks.get(number as usize) {
        Some(is_marked) => *is_marked,
        None => false,
    }
}

/// Marks a number, if there is one for it.
#[tactic(auto, using(crate::proofs::Marking::one_marked))]
pub(crate) fn mark(marks: &mut Vec<bool>, number: u32)
    ensures length { length marks.new.items ≡ length marks.old.items }
    ensures marked { (k : ℕ) → k < length marks.old.items
        → slice_index_or marks.new.items k false ≡ (slice_index_or marks.old.items k false || number == k) }
{
    let place = number as usize;
    if place < marks.len() {
        marks[place] = true;
    }
}
