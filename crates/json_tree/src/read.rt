//! From a text to its tree.
ghost use Rattle.std.specs.Prelude.{◌≡◌, ◌<◌, length, Some, None, Err, IfOk, OnOk};
ghost use Rattle.json.specs.Json.{value, items, members};
ghost use Rattle.serde_json.specs.Data.{no_members};
ghost use Rattle.serde_json.specs.Read.{of_json, of_items, of_members, converted, read as read_text};
ghost use Rattle.json_tree.specs.View.{view, items_view, members_view};
ghost use Rattle.json_tree.specs.declared.read.ReadFault.TheVariants.{NoMemory, NotJson};

use crate::number::number_of;
use crate::tree::Tree;
use json::{Invalid, Reader, Scratch, Token};
use std::alloc::{AllocError, Global};
use thiserror::Error;

/// The greatest depth to which arrays and objects may nest.
pub const MAX_DEPTH: usize = 127;

/// The number of members that an object has room for from its start: most have no more. A list that is given back in
/// the size in which it was taken is there at once for the next object.
const FEW_MEMBERS: usize = 3;

/// Why a text was not read.
#[derive(Clone, Copy, Debug, Drop, PartialEq, Eq, Error)]
pub enum ReadFault {
    #[error("out of memory")]
    NoMemory,
    /// The text is no JSON, nests too deep or has a number that no float is near.
    #[error("no JSON")]
    NotJson,
}

impl From<AllocError> for ReadFault {
    ghost from_gives = { λ _ why. why ≡ NoMemory };

    fn from(_refused: AllocError) -> ReadFault {
        ReadFault::NoMemory
    }
}

impl From<Invalid> for ReadFault {
    ghost from_gives = { λ _ why. why ≡ NotJson };

    fn from(_invalid: Invalid) -> ReadFault {
        ReadFault::NotJson
    }
}

impl<'a> Tree<'a> {
    /// Reads a text. Its strings with escapes are kept in the scratch, which grows to the length of the text.
    pub fn read(
        alloc: Global,
        text: &'a str,
        scratch: &'a mut Scratch,
    ) -> Result<Tree<'a>, ReadFault>
        ensures ok { IfOk result (λ tree. read_text text.now ≡ Some (view tree)) }
        ensures not_json { result ≡ Err ReadFault.NotJson → read_text text.now ≡ None }
        ensures no_memory { result ≡ Err ReadFault.NoMemory → 0 < length text.now }
    {
        let mut reader = Reader::new(text, scratch)?;
        let tree = read_value(alloc, &mut reader, MAX_DEPTH)?;
        if reader.next().is_some() {
            return Err(ReadFault::NotJson);
        }
        Ok(tree)
    }
}

/// Returns the next value of the reader, in which arrays and objects nest at most `depth` deep.
#[cycle(read)]
#[inline(always)]
pub fn read_value<'a>(
    alloc: Global,
    reader: &mut Reader<'a>,
    depth: usize,
) -> Result<Tree<'a>, ReadFault>
    ensures ok { IfOk result (λ tree. converted of_json (value depth reader.old) ≡ Some (view tree, reader.new)) }
    ensures shorter { OnOk result (length reader.new < length reader.old) }
    ensures not_json { result ≡ Err ReadFault.NotJson → converted of_json (value depth reader.old) ≡ None }
    ensures no_memory { result ≡ Err ReadFault.NoMemory → 0 < length reader.old }
{
    let token = reader.next().ok_or(ReadFault::NotJson)?;
    match token {
        Token::String(text) => Ok(Tree::String(text)),
        Token::Number(text) => Ok(Tree::Number(number_of(text).ok_or(ReadFault::NotJson)?)),
        Token::Bool(b) => Ok(Tree::Bool(b)),
        Token::Null => Ok(Tree::Null),
        Token::BeginArray if depth > 0 => Ok(Tree::Array(read_items(alloc, reader, depth - 1)?)),
        Token::BeginObject if depth > 0 => {
            Ok(Tree::Object(read_members(alloc, reader, depth - 1)?))
        }
        _ => Err(ReadFault::NotJson),
    }
}

/// Returns the entries of an array, to its end.
#[cycle(read)]
#[inline(never)]
fn read_items<'a>(
    alloc: Global,
    reader: &mut Reader<'a>,
    depth: usize,
) -> Result<Vec<Tree<'a>>, ReadFault>
    ensures ok { IfOk result (λ found. converted of_items (items (value depth) (length reader.old) reader.old)
        ≡ Some (items_view found.items, reader.new)) }
    ensures shorter { OnOk result (length reader.new < length reader.old) }
    ensures not_json { result ≡ Err ReadFault.NotJson
        → converted of_items (items (value depth) (length reader.old) reader.old) ≡ None }
{
    let mut found = Vec::new(alloc);
    'items: while !reader.take_end_array() {
        let item = read_value(alloc, reader, depth)?;
        found.push(item).or(Err(ReadFault::NoMemory))?;
    }
    found.shrink_to_fit();
    Ok(found)
}

/// Gives back the room that no member stands in, unless it is no more than each object has from its start.
fn trim(members: &mut Vec<(&str, Tree<'_>)>)
    ensures { members.new.items ≡ members.old.items }
{
    if members.len() > FEW_MEMBERS {
        members.shrink_to_fit();
    }
}

/// Returns the members of an object, to its end.
#[cycle(read)]
#[inline(never)]
fn read_members<'a>(
    alloc: Global,
    reader: &mut Reader<'a>,
    depth: usize,
) -> Result<Vec<(&'a str, Tree<'a>)>, ReadFault>
    ensures ok { IfOk result (λ found. converted (λ ms. of_members ms no_members)
        (members (value depth) (length reader.old) reader.old)
        ≡ Some (members_view found.items, reader.new)) }
    ensures shorter { OnOk result (length reader.new < length reader.old) }
    ensures not_json { result ≡ Err ReadFault.NotJson
        → converted (λ ms. of_members ms no_members) (members (value depth) (length reader.old) reader.old) ≡ None }
{
    let mut found = Vec::with_capacity(alloc, FEW_MEMBERS)?;
    'members: while let Some(name) = reader.next_key()? {
        let member = read_value(alloc, reader, depth)?;
        found.push((name, member)).or(Err(ReadFault::NoMemory))?;
    }
    trim(&mut found);
    Ok(found)
}
