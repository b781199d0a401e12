//! The content of a disk in memory at a moment.
ghost use Rattle.std.specs.Prelude.{◌≡◌, ◌≤◌, ◌-◌, ℕ, List, [], ◌++◌, true, length, take, IfOk, IfSome};

use std::alloc::{AllocError, Global};
use std::io::{self, ErrorKind};

/// The bytes on the disk, and those that were written.
#[derive(Drop)]
pub struct Shot {
    /// The bytes that the last sync brought to the disk.
    pub synced: Vec<u8>,
    /// The least length to which cuts since then may have brought it.
    pub floor: usize,
    /// The number of bytes that were appended since then.
    pub loose: usize,
    pub written: Vec<u8>,
    /// The place from which on all bytes were written by this process.
    pub own: usize,
    /// Whether the file's name is on the disk.
    pub is_named: bool,
    ghost own_first: { own ≤ floor },
    ghost on_disk: { floor ≤ length synced.items },
    ghost within: { floor ≤ length written.items },
}

impl Shot {
    ghost use Rattle.journal_store.specs.Store.{IsTorn, IsCut, StepsTo};
    ghost use Rattle.journal_store.specs.Disk.{IsBrought};
    ghost use Rattle.journal_store.specs.Shot.{IsLeft};

    /// The shot of a file with these bytes, of which an earlier process failed to sync the last `lost`: on the disk
    /// they are zeros.
    pub fn found(alloc: Global, bytes: &[u8], lost: usize) -> Result<Shot, AllocError>
        ensures written { IfOk result (λ shot. shot.written.items ≡ bytes.now) }
        ensures firm { IfOk result (λ shot. (content : List ℕ) → IsLeft shot content
            → take (length bytes.now - lost) content ≡ take (length bytes.now - lost) bytes.now) }
    {
        let mut synced = bytes.to_vec(alloc)?;
        synced.truncate(bytes.len().saturating_sub(lost));
        synced.resize(bytes.len(), 0)?;
        let written = bytes.to_vec(alloc)?;
        Ok(Shot {
            synced,
            floor: bytes.len(),
            loose: 0,
            written,
            own: bytes.len(),
            is_named: false,
        })
    }

    /// The same shot.
    pub fn copy(&self, alloc: Global) -> Result<Shot, AllocError>
        ensures synced { IfOk result (λ shot. shot.synced.items ≡ self.now.synced.items) }
        ensures floor { IfOk result (λ shot. shot.floor ≡ self.now.floor) }
        ensures loose { IfOk result (λ shot. shot.loose ≡ self.now.loose) }
        ensures written { IfOk result (λ shot. shot.written.items ≡ self.now.written.items) }
        ensures own { IfOk result (λ shot. shot.own ≡ self.now.own) }
        ensures named { IfOk result (λ shot. shot.is_named ≡ self.now.is_named) }
    {
        let synced = self.synced.to_vec(alloc)?;
        let written = self.written.to_vec(alloc)?;
        Ok(Shot {
            synced,
            floor: self.floor,
            loose: self.loose,
            written,
            own: self.own,
            is_named: self.is_named,
        })
    }

    /// The shot once these bytes were appended.
    pub fn appended(&self, alloc: Global, bytes: &[u8]) -> io::Result<Shot>
        ensures written { IfOk result (λ shot. shot.written.items ≡ self.now.written.items ++ bytes.now) }
        ensures left { IfOk result (λ shot. (content : List ℕ) → IsLeft shot content
            → StepsTo (IsLeft self.now) (IsTorn bytes.now) content) }
        ensures own { IfOk result (λ shot. shot.own ≡ self.now.own) }
        ensures named { IfOk result (λ shot. shot.is_named ≡ self.now.is_named) }
    {
        if bytes.len() > usize::MAX - self.loose {
            return Err(io::Error::from(ErrorKind::FileTooLarge));
        }
        let mut next = self.copy(alloc)?;
        next.loose += bytes.len();
        next.written.extend_from_slice(bytes)?;
        Ok(next)
    }

    /// The shot after a cut, if nothing was appended since the last sync.
    pub fn cut(&self, alloc: Global, least: usize) -> io::Result<Shot>
        ensures written { IfOk result (λ shot. shot.written.items ≡ take least self.now.written.items) }
        ensures left { IfOk result (λ shot. (content : List ℕ) → IsLeft shot content
            → StepsTo (IsLeft self.now) (IsCut least) content) }
        ensures own { IfOk result (λ shot. shot.own ≤ self.now.own) }
        ensures short { IfOk result (λ shot. shot.own ≤ least) }
        ensures named { IfOk result (λ shot. shot.is_named ≡ self.now.is_named) }
    {
        if self.loose > 0 {
            return Err(io::Error::other("bytes were appended since the last sync"));
        }
        let synced = self.synced.to_vec(alloc)?;
        let mut written = self.written.to_vec(alloc)?;
        written.truncate(least);
        Ok(Shot {
            synced,
            floor: self.floor.min(least),
            loose: 0,
            written,
            own: self.own.min(least),
            is_named: self.is_named,
        })
    }

    /// The shot once the last bytes, as many as `most`, were written anew.
    pub fn renewed(&self, alloc: Global, most: usize) -> Result<Shot, AllocError>
        ensures written { IfOk result (λ shot. shot.written.items ≡ self.now.written.items) }
        ensures left { IfOk result (λ shot. (content : List ℕ) → IsLeft shot content → IsLeft self.now content) }
        ensures own { IfOk result (λ shot. shot.own ≤ length self.now.written.items - most) }
        ensures named { IfOk result (λ shot. shot.is_named ≡ self.now.is_named) }
    {
        let mut next = self.copy(alloc)?;
        next.own = next.own.min(next.written.len().saturating_sub(most));
        Ok(next)
    }

    /// The shot once the file was synced: in front of `own` the disk is as it was.
    pub fn brought(&self, alloc: Global) -> Result<Shot, AllocError>
        ensures written { IfOk result (λ shot. shot.written.items ≡ self.now.written.items) }
        ensures left { IfOk result (λ shot. (content : List ℕ) → IsLeft shot content
            → StepsTo (IsLeft self.now) (IsBrought self.now.own self.now.written.items) content) }
        ensures own { IfOk result (λ shot. shot.own ≡ self.now.own) }
        ensures named { IfOk result (λ shot. shot.is_named ≡ self.now.is_named) }
    {
        let mut synced = self.synced.to_vec(alloc)?;
        synced.truncate(self.own);
        synced.extend_from_slice(&self.written[self.own..])?;
        let written = self.written.to_vec(alloc)?;
        Ok(Shot {
            synced,
            floor: self.written.len(),
            loose: 0,
            written,
            own: self.own,
            is_named: self.is_named,
        })
    }

    /// The shot once the folder was synced.
    pub fn named(&self, alloc: Global) -> Result<Shot, AllocError>
        ensures written { IfOk result (λ shot. shot.written.items ≡ self.now.written.items) }
        ensures left { IfOk result (λ shot. (content : List ℕ) → IsLeft shot content → IsLeft self.now content) }
        ensures own { IfOk result (λ shot. shot.own ≡ self.now.own) }
        ensures named { IfOk result (λ shot. shot.is_named ≡ true) }
    {
        let mut next = self.copy(alloc)?;
        next.is_named = true;
        Ok(next)
    }

    /// The bytes left by a crash that keeps `front` bytes of what is on the disk, and these bytes in the range that was
    /// appended. None if no crash leaves that.
    pub fn crash(
        &self,
        alloc: Global,
        front: usize,
        torn: &[u8],
    ) -> Result<Option<Vec<u8>>, AllocError>
        ensures { IfOk result (λ found. IfSome found (λ content. IsLeft self.now content.items)) }
    {
        if front < self.floor || torn.len() > self.loose {
            return Ok(None);
        }
        let mut content = self.synced.to_vec(alloc)?;
        content.truncate(front);
        content.extend_from_slice(torn)?;
        Ok(Some(content))
    }
}
