//! A disk in memory, which keeps its word, fails if it is told to, and says what a crash may leave.
ghost use Rattle.std.specs.Prelude.{◌≡◌, ◌≤◌, ◌<◌, ◌-◌, ℕ, List, [], ◌∷◌, ◌++◌, false, length, IfOk, IfSome, OnOk};
ghost use Rattle.std.specs.Prelude.{Some, slice_get, ◌⊎◌};

use crate::disk::Disk;
use crate::shot::Shot;
use crate::store::StoreFailure;
use std::alloc::{AllocError, Global};
use std::io;

/// The cause of each failure of a disk that was told to fail.
fn told() -> io::Error {
    io::Error::other("the disk was told to fail")
}

/// A file on a disk in memory. It has each moment of its past.
#[derive(Drop)]
pub struct MemoryDisk {
    alloc: Global,
    shots: Vec<Shot>,
    /// The number of further calls that do not fail.
    left: u64,
    failed: bool,
    ghost some: { 0 < length shots.items },
}

impl MemoryDisk {
    ghost use Rattle.journal_store.specs.Shot.{IsLeft};
    ghost use Rattle.journal_store.specs.Disk.{IsFirmBut, DiskPasses};
    ghost use Rattle.journal_store.specs.MemoryDisk.{memory_moment, memory_written, memory_left, memory_nameless};
    ghost use Rattle.journal_store.specs.MemoryDisk.{memory_own};

    /// A disk with a file of these bytes, of which an earlier process failed to sync the last `lost`. It fails at the
    /// call that changes something after `left` others.
    pub fn new(
        alloc: Global,
        bytes: &[u8],
        lost: usize,
        left: u64,
    ) -> Result<MemoryDisk, AllocError>
        ensures word { IfOk result (λ disk. disk.failed ≡ false) }
        ensures written { IfOk result (λ disk. memory_written disk (memory_moment disk) ≡ bytes.now) }
        ensures firm { IfOk result (λ disk. IsFirmBut memory_moment memory_written memory_left disk lost) }
    {
        let mut shots = Vec::new(alloc);
        let shot = Shot::found(alloc, bytes, lost)?;
        shots.push(shot)?;
        Ok(MemoryDisk {
            alloc,
            shots,
            left,
            failed: false,
        })
    }

    fn present(&self) -> &Shot
        ensures { slice_get self.now.shots.items (memory_moment self.now) ≡ Some result.now }
    {
        &self.shots[self.shots.len() - 1]
    }

    /// The bytes that were written.
    pub fn written(&self) -> &[u8]
        ensures { result.now ≡ memory_written self.now (memory_moment self.now) }
    {
        &self.present().written
    }

    /// The number of bytes that were appended since the last sync.
    pub fn unsynced(&self) -> usize {
        self.present().loose
    }

    /// Whether the file's name is on the disk.
    pub fn is_named(&self) -> bool {
        self.present().is_named
    }

    /// The bytes left by a crash now that keeps `front` bytes of what is on the disk, and these bytes in the range that
    /// was appended. None if no crash leaves that.
    pub fn crash(
        &self,
        alloc: Global,
        front: usize,
        torn: &[u8],
    ) -> Result<Option<Vec<u8>>, AllocError>
        ensures { IfOk result (λ found. IfSome found (λ content.
            memory_left self.now (memory_moment self.now) content.items)) }
    {
        self.present().crash(alloc, front, torn)
    }

    /// Goes on to the next moment. Fails if the disk is told to.
    fn go_on(&mut self, next: Shot) -> io::Result<()>
        ensures ok { OnOk result (self.new.shots.items ≡ self.old.shots.items ++ next ∷ []) }
        ensures word { OnOk result (self.new.failed ≡ self.old.failed) }
        ensures shots { (self.new.shots.items ≡ self.old.shots.items ++ next ∷ [])
            ⊎ (self.new.shots.items ≡ self.old.shots.items) }
    {
        self.shots.push(next)?;
        if self.left == 0 {
            self.failed = true;
            return Err(told());
        }
        self.left -= 1;
        Ok(())
    }

    /// Writes the last bytes anew as they stand, as many as `most`, or all.
    fn renew_last(&mut self, most: usize) -> io::Result<()>
        ensures same { memory_written self.new (memory_moment self.new)
            ≡ memory_written self.old (memory_moment self.old) }
        ensures time { DiskPasses memory_moment memory_written memory_left memory_nameless self.old self.new
            (memory_written self.old (memory_moment self.old)) (memory_left self.old (memory_moment self.old)) }
        ensures own { OnOk result
            (memory_own self.new ≤ length (memory_written self.old (memory_moment self.old)) - most) }
        ensures word { OnOk result (self.new.failed ≡ self.old.failed) }
    {
        let next = self.present().renewed(self.alloc, most)?;
        self.go_on(next)
    }
}

impl Disk for MemoryDisk {
    ghost use Rattle.journal_store.specs.MemoryDisk.{memory_moment, memory_written, memory_left, memory_nameless};
    ghost use Rattle.journal_store.specs.MemoryDisk.{memory_own};

    ghost keeps_word = { λ disk. disk.failed ≡ false };

    ghost moment = { memory_moment };

    ghost written_at = { memory_written };

    ghost left_at = { memory_left };

    ghost nameless_at = { memory_nameless };

    ghost own_from = { memory_own };

    fn read(&mut self, at: u64, piece: &mut [u8]) -> io::Result<usize> {
        let written = self.present().written.as_slice();
        let at = usize::try_from(at).unwrap_or(usize::MAX).min(written.len());
        let count = piece.len().min(written.len() - at);
        piece[..count].copy_from_slice(&written[at..at + count]);
        Ok(count)
    }

    fn append(&mut self, bytes: &[u8]) -> io::Result<()> {
        let next = self.present().appended(self.alloc, bytes)?;
        self.go_on(next)
    }

    fn cut(&mut self, least: u64) -> io::Result<()> {
        let next = self.present().cut(self.alloc, least as usize)?;
        self.go_on(next)
    }

    fn renew(&mut self, most: u64) -> Result<(), StoreFailure> {
        match self.renew_last(most as usize) {
            Ok(()) => Ok(()),
            Err(cause) => Err(StoreFailure::Append { cause }),
        }
    }

    /// A sync that is told to fail brings nothing to the disk.
    fn sync(&mut self) -> io::Result<()> {
        if self.left == 0 {
            self.failed = true;
            return Err(told());
        }
        let next = self.present().brought(self.alloc)?;
        self.go_on(next)
    }

    fn sync_folder(&mut self) -> io::Result<()> {
        let next = self.present().named(self.alloc)?;
        self.go_on(next)
    }
}
