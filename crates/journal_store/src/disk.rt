//! The calls by which a store reaches a disk, and what they promise.
ghost use Rattle.std.specs.Prelude.{◌≡◌, ◌≤◌, ◌-◌, ◌⊎◌, ℕ, List, ◌++◌, length, take, IfOk, OnOk};
ghost use Rattle.journal_store.specs.Store.{written_now, MayLeave, IsTorn, IsCut, StepsTo, IsPiece};
ghost use Rattle.journal_store.specs.Disk.{DiskPasses, IsBrought};

use crate::store::StoreFailure;
use std::io;

/// A file on a disk, and the folder that names it.
///
/// After a call that failed nothing more is promised of what is read or written, but what a crash may leave. A sync
/// brings to the disk what was written through the same `Disk`: what an earlier process wrote and failed to sync may be
/// nowhere but in memory, and a sync may leave it there.
pub trait Disk {
    /// Holds of a disk as long as it does what is said of bytes below.
    ghost keeps_word: { Self → Type 0 };

    /// The latest moment.
    ghost moment: { Self → ℕ };

    /// The bytes that the file had at a moment, whatever of them was on the disk.
    ghost written_at: { Self → ℕ → List ℕ };

    /// The contents of the file that a crash at a moment may leave.
    ghost left_at: { Self → ℕ → List ℕ → Type 0 };

    /// Whether a crash at a moment may leave no file under its name.
    ghost nameless_at: { Self → ℕ → Type 0 };

    /// The place from which on all bytes were written through this disk.
    ghost own_from: { Self → ℕ };

    /// Reads bytes from a place on. Their number.
    fn read(&mut self, at: u64, piece: &mut [u8]) -> io::Result<usize>
        ensures room { IfOk result (λ n. n ≤ length piece.old) }
        ensures bytes { keeps_word self.old
            → IfOk result (λ n. IsPiece (written_now moment written_at self.old) at piece.new n) }
        ensures time { keeps_word self.old → DiskPasses moment written_at left_at nameless_at self.old self.new
            (written_now moment written_at self.old) (MayLeave moment left_at self.old) }
        ensures same { keeps_word self.old
            → written_now moment written_at self.new ≡ written_now moment written_at self.old }
        ensures own { keeps_word self.old → OnOk result (own_from self.new ≡ own_from self.old) }
        ensures word { keeps_word self.old → OnOk result (keeps_word self.new) };

    /// Writes bytes behind the last. Until a sync, a crash may leave any bytes in their range.
    fn append(&mut self, bytes: &[u8]) -> io::Result<()>
        ensures written { keeps_word self.old → OnOk result
            (written_now moment written_at self.new ≡ written_now moment written_at self.old ++ bytes.now) }
        ensures time { keeps_word self.old → DiskPasses moment written_at left_at nameless_at self.old self.new
            (written_now moment written_at self.old ++ bytes.now)
            (StepsTo (MayLeave moment left_at self.old) (IsTorn bytes.now)) }
        ensures own { keeps_word self.old → OnOk result (own_from self.new ≡ own_from self.old) }
        ensures word { keeps_word self.old → OnOk result (keeps_word self.new) };

    /// Cuts to a length.
    fn cut(&mut self, least: u64) -> io::Result<()>
        ensures written { keeps_word self.old → OnOk result
            (written_now moment written_at self.new ≡ take least (written_now moment written_at self.old)) }
        ensures time { keeps_word self.old → DiskPasses moment written_at left_at nameless_at self.old self.new
            (take least (written_now moment written_at self.old))
            (StepsTo (MayLeave moment left_at self.old) (IsCut least)) }
        ensures own { keeps_word self.old → OnOk result (own_from self.new ≤ own_from self.old) }
        ensures within { keeps_word self.old → OnOk result (own_from self.new ≤ least) }
        ensures word { keeps_word self.old → OnOk result (keeps_word self.new) };

    /// Writes the last bytes anew as they stand, as many as `most`, or all.
    fn renew(&mut self, most: u64) -> Result<(), StoreFailure>
        ensures same { keeps_word self.old
            → written_now moment written_at self.new ≡ written_now moment written_at self.old }
        ensures time { keeps_word self.old → DiskPasses moment written_at left_at nameless_at self.old self.new
            (written_now moment written_at self.old) (MayLeave moment left_at self.old) }
        ensures own { keeps_word self.old
            → OnOk result (own_from self.new ≤ length (written_now moment written_at self.old) - most) }
        ensures word { keeps_word self.old → OnOk result (keeps_word self.new) };

    /// Brings to the disk what was written through this disk. The file's name may still be missing there.
    fn sync(&mut self) -> io::Result<()>
        ensures synced { keeps_word self.old → OnOk result ((content : List ℕ)
            → MayLeave moment left_at self.new content
            → StepsTo (MayLeave moment left_at self.old)
            (IsBrought (own_from self.old) (written_now moment written_at self.old)) content) }
        ensures same { keeps_word self.old
            → written_now moment written_at self.new ≡ written_now moment written_at self.old }
        ensures time { keeps_word self.old → DiskPasses moment written_at left_at nameless_at self.old self.new
            (written_now moment written_at self.old)
            (λ content. MayLeave moment left_at self.old content
            ⊎ StepsTo (MayLeave moment left_at self.old)
            (IsBrought (own_from self.old) (written_now moment written_at self.old)) content) }
        ensures own { keeps_word self.old → OnOk result (own_from self.new ≡ own_from self.old) }
        ensures word { keeps_word self.old → OnOk result (keeps_word self.new) };

    /// Brings the file's name to the disk.
    fn sync_folder(&mut self) -> io::Result<()>
        ensures named { keeps_word self.old → OnOk result (nameless_at self.new (moment self.new) → ⊥) }
        ensures same { keeps_word self.old
            → written_now moment written_at self.new ≡ written_now moment written_at self.old }
        ensures time { keeps_word self.old → DiskPasses moment written_at left_at nameless_at self.old self.new
            (written_now moment written_at self.old) (MayLeave moment left_at self.old) }
        ensures own { keeps_word self.old → OnOk result (own_from self.new ≡ own_from self.old) }
        ensures word { keeps_word self.old → OnOk result (keeps_word self.new) };
}
