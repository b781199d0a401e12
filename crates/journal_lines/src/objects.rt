//! The object at the front of a text.
ghost use Rattle.std.specs.Prelude.{◌≡◌, ◌<◌, ◌≤◌, ◌↔◌, length, IfSome, IsTrue};
ghost use Rattle.journal_lines.specs.declared.objects.Quoting.TheVariants.{Outside};
ghost use Rattle.journal_lines.specs.Objects.{closed_length, is_last, object_length, depth_after, quoting_after};
ghost use Rattle.journal_lines.specs.Objects.{IsObject};

/// The place of a byte in a text of JSON.
#[derive(Clone, Copy, Debug, PartialEq, Eq)]
enum Quoting {
    Outside,
    Inside,
    Escaped,
}

impl Quoting {
    /// Returns where the byte behind this one stands.
    fn after(self, byte: u8) -> Quoting
        ensures { result ≡ quoting_after self byte }
    {
        match self {
            Quoting::Outside if byte == b'"' => Quoting::Inside,
            Quoting::Outside => Quoting::Outside,
            Quoting::Inside if byte == b'\\' => Quoting::Escaped,
            Quoting::Inside if byte == b'"' => Quoting::Outside,
            Quoting::Inside | Quoting::Escaped => Quoting::Inside,
        }
    }

    /// Returns how many braces are open behind a byte.
    fn depth_after(self, depth: usize, byte: u8) -> usize
        requires { depth < usize.MAX }
        ensures { result ≡ depth_after self depth byte }
    {
        match self {
            Quoting::Outside if byte == b'{' => depth + 1,
            Quoting::Outside if byte == b'}' => depth.saturating_sub(1),
            Quoting::Outside | Quoting::Inside | Quoting::Escaped => depth,
        }
    }

    /// Tells whether a byte closes the only brace that is open.
    fn is_last(self, depth: usize, byte: u8) -> bool
        ensures { result ≡ is_last self depth byte }
    {
        self == Quoting::Outside && byte == b'}' && depth == 1
    }
}

/// Returns how many bytes there are up to the one that closes a brace before them.
fn closed_length(bytes: &[u8]) -> Option<usize>
    ensures value { result ≡ closed_length Outside 1 bytes.now }
    ensures within { IfSome result (λ n. n ≤ length bytes.now) }
{
    let mut quoting = Quoting::Outside;
    let mut depth: usize = 1;
    for (i, byte) in bytes.iter().enumerate() {
        if *byte == b'\n' {
            return None;
        }
        if quoting.is_last(depth, *byte) {
            return Some(i + 1);
        }
        depth = quoting.depth_after(depth, *byte);
        quoting = quoting.after(*byte);
    }
    None
}

/// Returns the length of the object at the front of the bytes, if there is one on its first line.
///
/// An object is known by its braces alone. Those who carry the command out read what stands within it.
pub fn object_length(bytes: &[u8]) -> Option<usize>
    ensures value { result ≡ object_length bytes.now }
    ensures within { IfSome result (λ n. n ≤ length bytes.now) }
{
    let (first, rest) = bytes.split_first()?;
    if *first != b'{' {
        return None;
    }
    Some(closed_length(rest)? + 1)
}

/// Tells whether a text is one object, on one line: what a journal can take as an entry.
pub fn is_object(text: &[u8]) -> bool
    ensures { IsTrue result ↔ IsObject text.now }
{
    object_length(text) == Some(text.len())
}
