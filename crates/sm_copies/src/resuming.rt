//! Where a copy may go on.
ghost use Rattle.std.specs.Prelude.{◌≡◌, ◌↔◌, IsTrue};
ghost use Rattle.std.specs.Option.{option_copied};
ghost use Rattle.sm_copies.specs.Views.{Resumes, view_end};

use crate::order::ToldCopy;

/// A view of a list of writes, and the position at which it began there.
#[repr(C)]
#[derive(Clone, Copy, Debug, PartialEq, Eq)]
pub struct ViewStart {
    pub view: u64,
    pub position: u64,
}

/// The position at which a view ended: where the next one began, or the end of the list.
fn end_of_view(next: Option<&ViewStart>, end: u64) -> u64
    ensures { result ≡ view_end (option_copied next.entry) end }
{
    match next {
        Some(start) => start.position,
        None => end,
    }
}

/// Whether a copy may go on behind a source: it is a beginning of the source's list, which has these views, in rising
/// order, and this length. Otherwise another copy is made, beside it.
pub fn resumes(copy: &ToldCopy, views: &[ViewStart], end: u64) -> bool
    ensures { IsTrue result ↔ Resumes copy.now views.now end }
{
    for (index, start) in views.iter().enumerate() {
        if start.view == copy.view && copy.position <= end_of_view(views.get(index + 1), end) {
            return true;
        }
    }
    false
}
