//! Replies, written.
ghost use Rattle.std.specs.Prelude.{◌≤◌, length, take, IfOk, OnOk, OnErr};
ghost use Rattle.std.specs.Io.KnownBytes.{Appends, Keeps};
ghost use Rattle.journal_serve.specs.Faults.{TakesNoByte};
ghost use Rattle.journal_serve.specs.Session.{GrowsWithin};

use crate::fault::ServeFault;
use std::io::{self, ErrorKind, Write};

/// The fault of an output that takes no byte.
fn nothing_written() -> ServeFault
    ensures { TakesNoByte result }
{
    ServeFault::WriteFailed {
        cause: io::Error::from(ErrorKind::WriteZero),
    }
}

/// Flushes what was written.
fn flush<W: Write>(writer: &mut W) -> Result<(), ServeFault>
    ensures { Keeps (W.contents writer.old) (W.contents writer.new) }
{
    match writer.flush() {
        Ok(()) => Ok(()),
        Err(cause) => Err(ServeFault::WriteFailed { cause }),
    }
}

/// Writes some of these bytes. Returns their number, or 0 if the call was interrupted.
fn write_some<W: Write>(writer: &mut W, bytes: &[u8]) -> Result<usize, ServeFault>
    ensures some { IfOk result (λ n. (n ≤ length bytes.now)
        × Appends (W.contents writer.old) (W.contents writer.new) (take n bytes.now)) }
    ensures none { OnErr result (Keeps (W.contents writer.old) (W.contents writer.new)) }
{
    match writer.write(bytes) {
        Ok(0) => Err(nothing_written()),
        Ok(count) => Ok(count),
        Err(cause) => {
            if cause.kind() == ErrorKind::Interrupted {
                Ok(0)
            } else {
                Err(ServeFault::WriteFailed { cause })
            }
        }
    }
}

/// Writes all of these bytes.
pub fn write_out<W: Write>(writer: &mut W, bytes: &[u8]) -> Result<(), ServeFault>
    ensures part { GrowsWithin (W.contents writer.old) (W.contents writer.new) bytes.now }
    ensures whole { OnOk result (Appends (W.contents writer.old) (W.contents writer.new) bytes.now) }
{
    let mut rest = bytes;
    for _ in 0..u64::MAX {
        if rest.is_empty() {
            return flush(writer);
        }
        let count = write_some(writer, rest)?;
        rest = &rest[count..];
    }
    Err(nothing_written())
}
