//! A text, to a writer.
ghost use Rattle.std.specs.Prelude.{◌≡◌, ◌<◌, ℕ, length, take, true, false};
ghost use Rattle.std.specs.Io.KnownBytes.{Appends};

use std::io::Write;

/// Writes the bytes, or if the writer fails a front of them that is shorter, and says whether all were written.
pub fn deliver<W: Write>(writer: &mut W, bytes: &[u8]) -> bool
    ensures all { result ≡ true → Appends (W.contents writer.old) (W.contents writer.new) bytes.now }
    ensures front { result ≡ false → (k : ℕ) × (k < length bytes.now)
        × Appends (W.contents writer.old) (W.contents writer.new) (take k bytes.now) }
{
    let mut at = 0;
    while at < bytes.len() {
        match writer.write(&bytes[at..]) {
            Ok(0) => return false,
            Ok(n) => at += n,
            Err(_) => return false,
        }
    }
    true
}
