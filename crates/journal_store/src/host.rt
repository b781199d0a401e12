//! A disk of the machine. Nothing is claimed of its bytes, as std claims nothing of files: its methods have to be read.
ghost use Rattle.std.specs.Prelude.{◌≤◌, length, IfOk};

use crate::disk::Disk;
use crate::store::StoreFailure;
use std::fs::{self, File, OpenOptions, TryLockError};
use std::io::{self, ErrorKind, Read, Seek, SeekFrom, Write};
use std::os::unix::fs::MetadataExt;
use std::path::Path;
use thiserror::Error;

/// Why a file was not opened.
#[derive(Clone, Copy, Debug, Drop, Error)]
pub enum OpenFailure {
    #[error("another process has the journal")]
    InUse,
    #[error("this is no journal of format 2")]
    Foreign,
    #[error("the journal was not read: {cause}")]
    Read { cause: io::Error },
    #[error("the journal was not opened: {cause}")]
    File { cause: io::Error },
    #[error("the journal was not locked: {cause}")]
    Lock { cause: io::Error },
    #[error("the folder of the journal was not opened: {cause}")]
    Folder { cause: io::Error },
}

/// The number of bytes that are written anew at once.
const PIECE: usize = 1 << 16;

/// The number of bytes that are looked at when a file is opened: more than a head has.
const FRONT: usize = 64;

/// Whether a file may go on from this front: it begins with the head, or is no longer and has no byte but the
/// head's and zeros, as a crash may leave of it.
fn may_begin(front: &[u8], head: &[u8]) -> bool {
    let torn = front
        .iter()
        .zip(head)
        .all(|(byte, due)| byte == due || *byte == 0);
    front.starts_with(head) || (front.len() <= head.len() && torn)
}

/// A file that this process alone has locked, and the folder that names it.
#[derive(Drop)]
pub struct HostDisk<'a> {
    rt: &'a HostRuntime,
    path: &'a str,
    file: File,
    folder: File,
    /// The length of the file if nobody else changes it.
    length: u64,
}

impl<'a> HostDisk<'a> {
    /// Opens a file, which is made if there is none, and locks it. One that does not begin with this head, as a crash
    /// may leave it, is refused, and stays as it is.
    pub fn open(
        rt: &'a HostRuntime,
        path: &'a str,
        head: &[u8],
    ) -> Result<HostDisk<'a>, OpenFailure> {
        let file = OpenOptions::new()
            .read(true)
            .write(true)
            .create(true)
            .open(rt, path)
            .map_err(|cause| OpenFailure::File { cause })?;
        match file.try_lock() {
            Ok(()) => {}
            Err(TryLockError::WouldBlock) => return Err(OpenFailure::InUse),
            Err(TryLockError::Error(cause)) => return Err(OpenFailure::Lock { cause }),
        }
        let name = match Path::new(path).parent().and_then(|folder| folder.to_str()) {
            Some("") | None => ".",
            Some(folder) => folder,
        };
        let folder = File::open(rt, name).map_err(|cause| OpenFailure::Folder { cause })?;
        let length = 0;
        let mut disk = HostDisk {
            rt,
            path,
            file,
            folder,
            length,
        };
        match disk.begins_with(head) {
            Ok(true) => Ok(disk),
            Ok(false) => Err(OpenFailure::Foreign),
            Err(cause) => Err(OpenFailure::Read { cause }),
        }
    }

    /// Notes the length of the file, and tells whether it begins with this head, as a crash may leave it.
    fn begins_with(&mut self, head: &[u8]) -> io::Result<bool> {
        self.length = self.file.metadata()?.len();
        let count = usize::try_from(self.length).unwrap_or(FRONT).min(FRONT);
        let mut front = [0u8; FRONT];
        self.file.seek(SeekFrom::Start(0))?;
        self.file.read_exact(&mut front[..count])?;
        Ok(may_begin(&front[..count], head))
    }

    /// Refuses if the path names another file by now, or another process has written to the file, or cut it.
    fn check_place(&self) -> io::Result<()> {
        let named = fs::metadata(self.rt, self.path)?;
        let held = self.file.metadata()?;
        if named.dev() != held.dev() || named.ino() != held.ino() {
            return Err(io::Error::other("the path names another file by now"));
        }
        if held.len() != self.length {
            return Err(io::Error::other("another process has changed the file's length"));
        }
        Ok(())
    }

    /// Reads bytes from a place on. Their number.
    fn read_from(&mut self, at: u64, piece: &mut [u8]) -> io::Result<usize>
        ensures { IfOk result (λ n. n ≤ length piece.old) }
    {
        self.file.seek(SeekFrom::Start(at))?;
        self.file.read(piece)
    }

    /// Writes bytes from a place on.
    fn write_at(&mut self, at: u64, bytes: &[u8]) -> io::Result<()> {
        self.file.seek(SeekFrom::Start(at))?;
        self.file.write_all(bytes)
    }
}

impl Disk for HostDisk<'_> {
    ghost use Rattle.std.specs.Prelude.{[]};

    ghost keeps_word = { λ _. ⊥ };

    ghost moment = { λ _. 0 };

    ghost written_at = { λ _ _. [] };

    ghost left_at = { λ _ _ _. ⊥ };

    ghost nameless_at = { λ _ _. ⊥ };

    ghost own_from = { λ _. 0 };

    fn read(&mut self, at: u64, piece: &mut [u8]) -> io::Result<usize> {
        self.read_from(at, piece)
    }

    fn append(&mut self, bytes: &[u8]) -> io::Result<()> {
        self.check_place()?;
        self.file.seek(SeekFrom::End(0))?;
        self.file.write_all(bytes)?;
        self.length = self.length.saturating_add(bytes.len() as u64);
        Ok(())
    }

    /// Cuts to a length, and says on standard error how much goes.
    fn cut(&mut self, least: u64) -> io::Result<()> {
        self.file.set_len(least)?;
        let gone = self.length.saturating_sub(least);
        if gone > 0 {
            let _ = eprintln!(self.rt;
                "{}: the last {gone} bytes were torn, and are cut off: {least} are left",
                self.path
            );
        }
        self.length = least;
        Ok(())
    }

    fn renew(&mut self, most: u64) -> Result<(), StoreFailure> {
        let end = match self.file.seek(SeekFrom::End(0)) {
            Ok(end) => end,
            Err(cause) => return Err(StoreFailure::Read { cause }),
        };
        let mut at = end.saturating_sub(most);
        let mut piece = [0u8; PIECE];
        while at < end {
            let count = match self.read_from(at, &mut piece) {
                Ok(0) => return Err(StoreFailure::Read {
                    cause: io::Error::from(ErrorKind::UnexpectedEof),
                }),
                Ok(count) => count,
                Err(cause) => return Err(StoreFailure::Read { cause }),
            };
            if let Err(cause) = self.write_at(at, &piece[..count]) {
                return Err(StoreFailure::Append { cause });
            }
            at = at.saturating_add(count as u64);
        }
        Ok(())
    }

    fn sync(&mut self) -> io::Result<()> {
        self.file.sync_all()
    }

    fn sync_folder(&mut self) -> io::Result<()> {
        self.folder.sync_all()
    }
}
