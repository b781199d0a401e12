//! The entries of a line's lists.
ghost use Rattle.std.specs.Prelude.{◌≡◌, IfOk, IfSome, length, option_map, position, unwrap_or};
ghost use Rattle.json_tree.specs.View.{view};
ghost use Rattle.smpland_lines.specs.Entries.{AreSingle, IsDouble, is_nameless};
ghost use Rattle.smpland_lines.specs.Values.{text_at};

use crate::command_member::CommandMember;
use indexmap::IndexSet;
use json_tree::Tree;
use sm_placement::is_name;
use std::alloc::{AllocError, Global};

/// Returns the text that an entry has in a member, if it has one.
fn text_in<'a>(entry: &Tree<'a>, key: CommandMember) -> Option<&'a str>
    ensures { option_map (λ text. text.now) result ≡ text_at key (view entry.now) }
{
    entry.get(key.text())?.as_str()
}

/// Returns the place of the first entry whose text in a member stands in an earlier one.
pub fn first_double(
    alloc: Global,
    entries: &[Tree<'_>],
    key: CommandMember,
) -> Result<Option<usize>, AllocError>
    ensures double { IfOk result (λ found. IfSome found (IsDouble key entries.now)) }
    ensures first { IfOk result (λ found. AreSingle key entries.now (unwrap_or found (length entries.now))) }
{
    let mut seen = IndexSet::new(alloc);
    for at in 0..entries.len() {
        if let Some(text) = text_in(&entries[at], key) {
            if !seen.insert(text)? {
                return Ok(Some(at));
            }
        }
    }
    Ok(None)
}

/// Tells whether an entry is no name.
fn is_nameless(entry: &Tree<'_>) -> bool
    ensures { result ≡ is_nameless (view entry.now) }
{
    match entry.as_str() {
        Some(text) => !is_name(text),
        None => true,
    }
}

/// Returns the place of the first entry that is no name.
pub fn first_nameless(entries: &[Tree<'_>]) -> Option<usize>
    ensures { result ≡ position (λ entry. is_nameless (view entry)) entries.now }
{
    entries.iter().position(is_nameless)
}
