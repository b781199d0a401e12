//! The entries of a line.
ghost use Rattle.std.specs.Prelude.{◌↔◌, IsTrue};
ghost use Rattle.journal_lines.specs.Lines.{IsBody};

use crate::objects::object_length;

/// Tells whether the bytes are one object or more, with a comma between each two.
pub(crate) fn is_body(bytes: &[u8]) -> bool
    ensures { IsTrue result ↔ IsBody bytes.now }
{
    let mut rest = bytes;
    'objects: while let Some(length) = object_length(rest) {
        let size = rest.len();
        if length >= size {
            return true;
        }
        if rest[length] != b',' {
            return false;
        }
        rest = &rest[length + 1..];
    }
    false
}
