//! A store in a file. It keeps its word if the disk under it does.
ghost use Rattle.std.specs.Prelude.{◌≡◌, ◌⊎◌, true, OnOk};
ghost use Rattle.journal_store.specs.Store.{written_now, MayLeave, IsSynced, Passes};
ghost use Rattle.journal_store.specs.Disk.{IsFirmBut, DiskPasses, file_left};
ghost use Rattle.journal_store.specs.FileStore.{KeepsFile};

use crate::disk::Disk;
use crate::store::{Store, StoreFailure, StoreFault};
use std::io;

/// The number of last bytes that are written anew before the first sync: more than the lines of one turn, as a rule.
pub const RENEWED: u64 = 1 << 23;

/// The cause of a change that comes before the first sync.
fn unsynced() -> io::Error {
    io::Error::other("the file was not synced before")
}

/// A file whose bytes and whose name are brought to the disk. It is only read until the first sync.
#[derive(Drop)]
pub struct FileStore<D: Disk + Drop> {
    pub disk: D,
    /// Whether the last bytes of an earlier process were written anew.
    is_renewed: bool,
    /// Whether this store has synced the folder.
    is_named: bool,
}

impl<D: Disk + Drop> FileStore<D> {
    /// Takes a file. All but its last 8 MiB has to be on the disk.
    pub fn new(disk: D) -> FileStore<D>
        ensures word { D.keeps_word disk → IsFirmBut D.moment D.written_at D.left_at disk 8388608
            → KeepsFile D.keeps_word D.moment D.written_at D.left_at D.nameless_at D.own_from result }
        ensures disk { result.disk ≡ disk }
    {
        FileStore {
            disk,
            is_renewed: false,
            is_named: false,
        }
    }

    /// Writes the last 8 MiB anew before the first sync: a sync that failed in an earlier process may have left the
    /// last append in memory alone, where a later sync does not look for it.
    fn renew(&mut self) -> Result<(), StoreFault>
        ensures word { KeepsFile D.keeps_word D.moment D.written_at D.left_at D.nameless_at D.own_from self.old
            → OnOk result (KeepsFile D.keeps_word D.moment D.written_at D.left_at D.nameless_at D.own_from self.new) }
        ensures renewed { OnOk result (self.new.is_renewed ≡ true) }
        ensures named { self.new.is_named ≡ self.old.is_named }
        ensures same { D.keeps_word self.old.disk
            → written_now D.moment D.written_at self.new.disk ≡ written_now D.moment D.written_at self.old.disk }
        ensures time { D.keeps_word self.old.disk
            → DiskPasses D.moment D.written_at D.left_at D.nameless_at self.old.disk self.new.disk
            (written_now D.moment D.written_at self.old.disk) (MayLeave D.moment D.left_at self.old.disk) }
    {
        if self.is_renewed {
            return Ok(());
        }
        self.disk.renew(RENEWED)?;
        self.is_renewed = true;
        Ok(())
    }

    /// Brings all to the disk once the last bytes were written anew.
    fn sync_renewed(&mut self) -> Result<(), StoreFault>
        requires { self.old.is_renewed ≡ true }
        ensures synced { KeepsFile D.keeps_word D.moment D.written_at D.left_at D.nameless_at D.own_from self.old
            → OnOk result (IsSynced (λ store. D.moment store.disk) (λ store. D.written_at store.disk)
            (λ store. file_left D.left_at D.nameless_at store.disk) self.new) }
        ensures written { D.keeps_word self.old.disk
            → written_now D.moment D.written_at self.new.disk ≡ written_now D.moment D.written_at self.old.disk }
        ensures time { KeepsFile D.keeps_word D.moment D.written_at D.left_at D.nameless_at D.own_from self.old
            → Passes (λ store. D.moment store.disk) (λ store. D.written_at store.disk)
            (λ store. file_left D.left_at D.nameless_at store.disk)
            self.old self.new (written_now D.moment D.written_at self.old.disk)
            (λ content. file_left D.left_at D.nameless_at self.old.disk (D.moment self.old.disk) content
            ⊎ (content ≡ written_now D.moment D.written_at self.old.disk)) }
        ensures word { KeepsFile D.keeps_word D.moment D.written_at D.left_at D.nameless_at D.own_from self.old
            → OnOk result (KeepsFile D.keeps_word D.moment D.written_at D.left_at D.nameless_at D.own_from self.new) }
    {
        if let Err(cause) = self.disk.sync() {
            return Err(StoreFault::Failed(StoreFailure::Sync { cause }));
        }
        if self.is_named {
            return Ok(());
        }
        if let Err(cause) = self.disk.sync_folder() {
            return Err(StoreFault::Failed(StoreFailure::Sync { cause }));
        }
        self.is_named = true;
        Ok(())
    }
}

impl<D: Disk + Drop> Store for FileStore<D> {
    ghost keeps_word = { KeepsFile D.keeps_word D.moment D.written_at D.left_at D.nameless_at D.own_from };

    ghost moment = { λ store. D.moment store.disk };

    ghost written_at = { λ store. D.written_at store.disk };

    ghost left_at = { λ store. file_left D.left_at D.nameless_at store.disk };

    fn read(&mut self, at: u64, piece: &mut [u8]) -> Result<usize, StoreFault> {
        match self.disk.read(at, piece) {
            Ok(count) => Ok(count),
            Err(cause) => Err(StoreFault::Failed(StoreFailure::Read { cause })),
        }
    }

    fn append(&mut self, bytes: &[u8]) -> Result<(), StoreFault> {
        if !self.is_renewed {
            return Err(StoreFault::Failed(StoreFailure::Append { cause: unsynced() }));
        }
        match self.disk.append(bytes) {
            Ok(()) => Ok(()),
            Err(cause) => Err(StoreFault::Failed(StoreFailure::Append { cause })),
        }
    }

    fn cut(&mut self, least: u64) -> Result<(), StoreFault> {
        if !self.is_renewed {
            return Err(StoreFault::Failed(StoreFailure::Cut { cause: unsynced() }));
        }
        match self.disk.cut(least) {
            Ok(()) => Ok(()),
            Err(cause) => Err(StoreFault::Failed(StoreFailure::Cut { cause })),
        }
    }

    fn sync(&mut self) -> Result<(), StoreFault> {
        self.renew()?;
        self.sync_renewed()
    }
}
