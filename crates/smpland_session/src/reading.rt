//! Lines, as they are read before their commands.
ghost use Rattle.std.specs.Prelude.{IfOk};
ghost use Rattle.smpland_session.specs.Exchanges.{ReadsObject};

use journal_lines::is_object;
use json::Scratch;
use json_tree::Tree;
use smpland_lines::{BadLine, LinePart, parse_line};
use std::alloc::{AllocError, Global};

/// The highest number of bytes of a line.
const MOST_BYTES: usize = 67_108_864;

/// The object that a line is, or what is wrong with it.
pub fn read_object<'a>(
    alloc: Global,
    line: &'a [u8],
    scratch: &'a mut Scratch,
) -> Result<Result<Tree<'a>, BadLine<'a>>, AllocError>
    ensures { IfOk result (λ read. ReadsObject line.now read) }
{
    if line.len() > MOST_BYTES {
        return Ok(Err(BadLine::TooLong));
    }
    let Some(tree) = parse_line(alloc, line, scratch)? else {
        return Ok(Err(BadLine::NotJson));
    };
    if !tree.is_object() {
        return Ok(Err(BadLine::Malformed(LinePart::Line)));
    }
    if !is_object(line) {
        return Ok(Err(BadLine::NotJson));
    }
    Ok(Ok(tree))
}
