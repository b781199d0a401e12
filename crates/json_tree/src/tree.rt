//! The tree, and what it holds.
ghost use Rattle.std.specs.Prelude.{◌≡◌, option_map, option_and_then, is_some};
ghost use Rattle.serde_json.specs.Find.{get, get_member, as_bool, as_number, as_u64, as_str, as_array, as_object};
ghost use Rattle.serde_json.specs.Find.{as_null};
ghost use Rattle.json_tree.specs.View.{view, items_view, members_view};

use serde_json::Number;

/// A JSON value. Its texts are borrowed, and an object has all its members, doubled ones too, in the order of the text.
#[derive(Debug)]
pub enum Tree<'a> {
    Null,
    Bool(bool),
    Number(Number),
    String(&'a str),
    Array(Vec<Tree<'a>>),
    Object(Vec<(&'a str, Tree<'a>)>),
}

impl Drop for Tree<'_> {
    fn drop(self) {
        match self {
            Tree::Array(_items) => {}
            Tree::Object(_members) => {}
            Tree::Null | Tree::Bool(_) | Tree::Number(_) | Tree::String(_) => {}
        }
    }
}

impl<'a> Tree<'a> {
    /// Tells whether this is `null`.
    pub fn is_null(&self) -> bool
        ensures { result ≡ is_some (as_null (view self.now)) }
    {
        matches!(self, Tree::Null)
    }

    /// Tells whether this is a number.
    pub fn is_number(&self) -> bool
        ensures { result ≡ is_some (as_number (view self.now)) }
    {
        matches!(self, Tree::Number(_))
    }

    /// Tells whether this is an object.
    pub fn is_object(&self) -> bool
        ensures { result ≡ is_some (as_object (view self.now)) }
    {
        matches!(self, Tree::Object(_))
    }

    /// Returns the flag that this is, if it is true or false.
    pub fn as_bool(&self) -> Option<bool>
        ensures { result ≡ as_bool (view self.now) }
    {
        match self {
            Tree::Bool(b) => Some(*b),
            _ => None,
        }
    }

    /// Returns the number that this is, if it is written as a whole one from 0 on, below 2^64.
    pub fn as_u64(&self) -> Option<u64>
        ensures { result ≡ option_and_then as_u64 (as_number (view self.now)) }
    {
        match self {
            Tree::Number(number) => number.as_u64(),
            _ => None,
        }
    }

    /// Returns the text that this is if it is one.
    pub fn as_str(&self) -> Option<&'a str>
        ensures { option_map (λ s. s.now) result ≡ as_str (view self.now) }
    {
        match self {
            Tree::String(text) => Some(*text),
            _ => None,
        }
    }

    /// Returns the entries of this, if it is an array.
    pub fn as_array(&self) -> Option<&[Tree<'a>]>
        ensures { option_map (λ items. items_view items.now) result ≡ as_array (view self.now) }
    {
        match self {
            Tree::Array(items) => Some(items.as_slice()),
            _ => None,
        }
    }

    /// Returns the members of this, if it is an object.
    pub fn as_object(&self) -> Option<&[(&'a str, Tree<'a>)]>
        ensures { option_map (λ members. members_view members.now) result ≡ as_object (view self.now) }
    {
        match self {
            Tree::Object(members) => Some(members.as_slice()),
            _ => None,
        }
    }

    /// Returns the member of that name, if this is an object: the last, if it has more than one.
    pub fn get(&self, name: &str) -> Option<&Tree<'a>>
        ensures { option_map (λ tree. view tree.now) result ≡ get name.now (view self.now) }
    {
        match self {
            Tree::Object(members) => find_member(members.as_slice(), name),
            _ => None,
        }
    }
}

/// Returns the value of the last member of that name.
pub fn find_member<'t, 'a>(members: &'t [(&'a str, Tree<'a>)], name: &str) -> Option<&'t Tree<'a>>
    ensures { option_map (λ tree. view tree.now) result ≡ get_member name.now (members_view members.now) }
{
    let mut left = members.len();
    'members: while left > 0 {
        left -= 1;
        let member = &members[left];
        if member.0 == name {
            return Some(&member.1);
        }
    }
    None
}
