//! All that a reader gives.
ghost use Rattle.std.specs.Prelude.{◌≡◌, ◌≤◌, ◌<◌, length, IfOk, IfSome, Err, vec_len};

use std::alloc::Global;
use std::io::{ErrorKind, Read};
use thiserror::Error;

/// Why there is no input.
#[derive(Clone, Copy, Debug, PartialEq, Eq, Error)]
pub enum InputFault {
    #[error("out of memory")]
    NoMemory,
    #[error("a read failed, or the input did not come to an end")]
    Read,
    #[error("the input is too long")]
    TooLong,
}

const PIECE: usize = 65_536;

/// Reads to the end, by at most `turns` reads, if there are at most `most` bytes.
///
/// A read that is interrupted is tried again, and counts.
pub fn take_input<R: Read>(
    alloc: Global,
    reader: &mut R,
    turns: u32,
    most: u32,
) -> Result<Vec<u8>, InputFault>
    ensures all { IfOk result (λ v. IfSome (R.remaining reader.old) (λ input. v.items ≡ input)) }
    ensures within { IfOk result (λ v. vec_len v ≤ most) }
    ensures too_long { result ≡ Err InputFault.TooLong
        → IfSome (R.remaining reader.old) (λ input. most < length input) }
{
    let mut bytes = Vec::new(alloc);
    let mut piece = [0u8; PIECE];
    for _turn in 0..turns {
        match reader.read(&mut piece) {
            Ok(0) => return Ok(bytes),
            Ok(n) => {
                if bytes.len() + n > most as usize {
                    return Err(InputFault::TooLong);
                }
                if bytes.extend_from_slice(&piece[..n]).is_err() {
                    return Err(InputFault::NoMemory);
                }
            }
            Err(fault) => {
                if fault.kind() != ErrorKind::Interrupted {
                    return Err(InputFault::Read);
                }
            }
        }
    }
    Err(InputFault::Read)
}
