//! How far copies have a shard's writes, as replicas have told the primary.
ghost use Rattle.std.specs.Prelude.{◌≡◌, ◌↔◌, ◌≤◌, ◌⊎◌, IsTrue};
ghost use Rattle.sm_copies.specs.Counting.{HaveEnough, IsAcknowledged, counts};

use crate::order::ToldCopy;

/// Whether a copy counts for the writes up to a position: it is of this view, and has them.
fn is_counted(copy: &ToldCopy, view: u64, position: u64) -> bool
    ensures { result ≡ counts view position copy.now }
{
    copy.view == view && position <= copy.position
}

/// Whether `copies` copies have the writes up to a position: the primary's own, and those that other replicas have told
/// it on their present connections, of whom none leaves. A replica gets leave to go if this is so without it.
pub fn is_copied(copies: u64, own: &ToldCopy, told: &[ToldCopy], position: u64) -> bool
    ensures { IsTrue result ↔ HaveEnough copies own.now told.now position }
{
    let others = told
        .iter()
        .filter(|copy| is_counted(copy, own.view, position))
        .count();
    position <= own.position && copies <= others as u64 + 1
}

/// The greater of two positions, if enough copies have the other one, too.
fn raised(copies: u64, own: &ToldCopy, told: &[ToldCopy], greatest: u64, other: u64) -> u64
    ensures stays { greatest ≤ result }
    ensures found { (result ≡ greatest) ⊎ ((result ≡ other) × HaveEnough copies own.now told.now other) }
    ensures reaches { HaveEnough copies own.now told.now other → other ≤ result }
{
    if greatest < other && is_copied(copies, own, told, other) {
        other
    } else {
        greatest
    }
}

/// The position up to which a primary acknowledges: the greatest that `copies` copies have, its own among them; 0 if
/// there is none. `told` is as for `is_copied`.
pub fn acknowledged(copies: u64, own: &ToldCopy, told: &[ToldCopy]) -> u64
    ensures { IsAcknowledged copies own.now told.now result }
{
    let mut greatest = raised(copies, own, told, 0, own.position);
    for copy in told {
        greatest = raised(copies, own, told, greatest, copy.position);
    }
    greatest
}
