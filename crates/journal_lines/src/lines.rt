//! The lines of entries.
ghost use Rattle.std.specs.Prelude.{◌≡◌, ◌↔◌, List, ℕ, IfOk, IfSome, IfNone, IsTrue};
ghost use Rattle.hex.specs.Hex.{encode_lower};
ghost use Rattle.sha2.specs.Sha256.{sha256};
ghost use Rattle.journal_lines.specs.Lines.{head, journal_line, no_sum, sum_of, IsBody, IsRight};

use crate::bodies::is_body;
use sha2::{Digest, Sha256};
use std::alloc::{AllocError, Global};

const SUM_LENGTH: usize = 64;

/// The number of bytes of a line before its entries, and the number of those behind them.
const BEFORE_BODY: usize = 12;

const BEHIND_BODY: usize = 150;

/// The number of bytes from the sum of the line before to the end of a line, and the number of those behind that sum.
const FROM_AFTER: usize = 139;

const FROM_QUOTE: usize = 75;

/// Returns the first line of a journal, with its line feed.
#[tactic(auto, unfolding(crate::specs::Lines::head))]
pub fn journal_head() -> &'static [u8]
    ensures { result.now ≡ head }
{
    b"{\"journal\":\"smpland\",\"format\":2}\n"
}

/// The sum of a line, in hex.
#[derive(Clone, Copy, Debug, PartialEq, Eq)]
pub struct Sum {
    pub text: [u8; 64],
}

impl Sum {
    /// Returns what the first line of entries has for the sum of the line before it.
    pub fn none() -> Sum
        ensures { result.text ≡ no_sum }
    {
        Sum {
            text: [b'0'; SUM_LENGTH],
        }
    }
}

/// A line that was made, without its line feed.
#[derive(Debug, Drop)]
pub struct Line {
    pub text: Vec<u8>,
    pub sum: Sum,
}

/// The parts of a line that goes on from the line before it.
#[derive(Clone, Copy, Debug)]
pub struct Entries<'a> {
    pub body: &'a [u8],
    pub sum: Sum,
}

/// Returns the sum of a text.
fn sum_text(text: &[u8]) -> Sum
    ensures { result.text ≡ encode_lower (sha256 text.now) }
{
    let digest = Sha256::digest(text);
    let mut sum = Sum::none();
    hex::encode_to_slice(digest.as_slice(), &mut sum.text).unwrap();
    sum
}

#[tactic(auto, unfolding(crate::specs::Lines::journal_line, crate::specs::Lines::sum_of, crate::specs::Lines::summed))]
/// Makes the line of these entries, behind the line that has this sum.
pub fn write_line(alloc: Global, after: &Sum, body: &[u8]) -> Result<Line, AllocError>
    ensures text { IfOk result (λ line. line.text.items ≡ journal_line after.now.text body.now) }
    ensures sum { IfOk result (λ line. line.sum.text ≡ sum_of after.now.text body.now) }
{
    let mut text = Vec::new(alloc);
    text.extend_from_slice(b"{\"entries\":[")?;
    text.extend_from_slice(body)?;
    text.extend_from_slice(b"],\"after\":\"")?;
    text.extend_from_slice(&after.text)?;
    text.extend_from_slice(b"\"")?;
    let sum = sum_text(text.as_slice());
    text.extend_from_slice(b",\"sum\":\"")?;
    text.extend_from_slice(&sum.text)?;
    text.extend_from_slice(b"\"}")?;
    Ok(Line { text, sum })
}

/// Returns the entries of a line, if it is right and goes on from the line that has this sum.
pub fn read_line<'a>(
    alloc: Global,
    after: &Sum,
    line: &'a [u8],
) -> Result<Option<Entries<'a>>, AllocError>
    ensures found { IfOk result (λ found. IfSome found
        (λ entries. IsBody entries.body.now × (line.now ≡ journal_line after.now.text entries.body.now))) }
    ensures sum { IfOk result (λ found. IfSome found
        (λ entries. entries.sum.text ≡ sum_of after.now.text entries.body.now)) }
    ensures none { IfOk result (λ found. IfNone found
        ((body : List ℕ) → IsBody body → line.now ≡ journal_line after.now.text body → ⊥)) }
{
    if line.len() < BEFORE_BODY + BEHIND_BODY {
        return Ok(None);
    }
    let body = &line[BEFORE_BODY..line.len() - BEHIND_BODY];
    if !is_body(body) {
        return Ok(None);
    }
    let made = write_line(alloc, after, body)?;
    if made.text.as_slice() != line {
        return Ok(None);
    }
    Ok(Some(Entries {
        body,
        sum: made.sum,
    }))
}

/// Tells whether a line is right by itself, behind whatever line.
pub fn is_right(alloc: Global, line: &[u8]) -> Result<bool, AllocError>
    ensures { IfOk result (λ right. IsTrue right ↔ IsRight line.now) }
{
    if line.len() < BEFORE_BODY + BEHIND_BODY {
        return Ok(false);
    }
    let mut after = Sum::none();
    after
        .text
        .copy_from_slice(&line[line.len() - FROM_AFTER..line.len() - FROM_QUOTE]);
    Ok(read_line(alloc, &after, line)?.is_some())
}
