//! Cursors: places where a text is read. A member that is not in its form is read as 0, false or an empty value; a
//! missing one is read as that, or as a default.
ghost use Rattle.std.specs.Prelude.{◌≡◌, [], option_map, option_and_then, map, false, IfOk, string_bytes};
ghost use Rattle.sm_plan_text.specs.Words.{view, found, whole_number_of, text_in, role_named, role_in, after_named};
ghost use Rattle.sm_plan_text.specs.Words.{flag_in, number_in, number_or, number_below, items_of, entries_in, id_of};
ghost use Rattle.sm_plan_text.specs.Words.{id_named, id_in, plain_named};

use crate::{Member, Names};
use json_tree::Tree;
use sm_reservation::PlainCell;
use sm_server::{Role, ServerId, ShardId};
use std::alloc::{AllocError, Global};

/// The names of the shards and servers, how many signals the plan has, and whether its streams may say how many retries
/// they have.
#[derive(Clone, Copy)]
pub struct Scope<'p> {
    pub shards: &'p Names,
    pub servers: &'p Names,
    pub signals: usize,
    pub retries: bool,
}

/// A place where a text is read: a JSON value, the member that it stands in, and what it may name.
#[derive(Clone, Copy)]
pub struct Cursor<'p, 't> {
    pub alloc: Global,
    pub tree: &'p Tree<'t>,
    pub member: Member,
    pub scope: Scope<'p>,
}

impl<'p, 't> Cursor<'p, 't> {
    /// Makes a cursor at a value in a member, over these names, outside a plan.
    pub fn new(
        alloc: Global,
        tree: &'p Tree<'t>,
        member: Member,
        shards: &'p Names,
        servers: &'p Names,
    ) -> Self
        ensures { result ≡ record {
          alloc = alloc;
          tree = tree.entry;
          member = member;
          scope = record { shards = shards.entry; servers = servers.entry; signals = 0; retries = false };
        } }
    {
        Cursor {
            alloc,
            tree,
            member,
            scope: Scope {
                shards,
                servers,
                signals: 0,
                retries: false,
            },
        }
    }

    /// Returns the value of a member, where it stands.
    pub fn find(&self, member: Member) -> Option<&'p Tree<'t>>
        ensures { option_map (λ v. view v.now) result ≡ found member (view self.now.tree.now) }
    {
        self.tree.get(member.text())
    }

    /// Returns the text of a member.
    pub fn text(&self, member: Member) -> &'t str
        ensures { result.now ≡ text_in member (view self.now.tree.now) }
    {
        self.find(member).and_then(Tree::as_str).unwrap_or("")
    }

    /// Copies the text of a member.
    pub fn name(&self, member: Member) -> Result<String, AllocError>
        ensures { IfOk result (λ s. string_bytes s ≡ text_in member (view self.now.tree.now)) }
    {
        String::from_str(self.alloc, self.text(member))
    }

    /// Returns a replica's role.
    pub fn role(&self, member: Member) -> Role
        ensures { result ≡ role_in member (view self.now.tree.now) }
    {
        role_of(self.text(member)).unwrap_or(Role::Secondary)
    }

    /// Returns whether a member is true.
    pub fn flag(&self, member: Member) -> bool
        ensures { result ≡ flag_in member (view self.now.tree.now) }
    {
        self.find(member).and_then(Tree::as_bool).unwrap_or(false)
    }

    /// Returns the whole number that a member is.
    pub fn whole_number(&self, member: Member) -> Option<u64>
        ensures { result ≡ option_and_then whole_number_of (found member (view self.now.tree.now)) }
    {
        self.find(member)?.as_u64()
    }

    /// Returns a whole number up to a limit, or the default if it is missing.
    pub fn number_or(&self, member: Member, limit: u32, default: u32) -> u32
        ensures { result ≡ number_or default member limit (view self.now.tree.now) }
    {
        let Some(value) = self.find(member) else {
            return default;
        };
        match value.as_u64() {
            Some(n) if n <= u64::from(limit) => n as u32,
            _ => 0,
        }
    }

    /// Returns a whole number up to a limit.
    pub fn number(&self, member: Member, limit: u32) -> u32
        ensures { result ≡ number_in member limit (view self.now.tree.now) }
    {
        self.number_or(member, limit, 0)
    }

    /// Returns the signal whose number a member is.
    pub fn signal(&self, member: Member) -> u32
        ensures { result ≡ number_below self.now.scope.signals member (view self.now.tree.now) }
    {
        match self.whole_number(member) {
            Some(n) if n < self.scope.signals as u64 => id(n as usize),
            _ => 0,
        }
    }

    /// Returns the server that a member names, if it names one.
    pub fn server_found(&self, member: Member) -> Option<ServerId>
        ensures { result ≡ option_and_then (id_named self.now.scope.servers.now)
            (found member (view self.now.tree.now)) }
    {
        let server = id_named(self.find(member)?, self.scope.servers)?;
        Some(ServerId::new(server))
    }

    /// Returns the server that a member names.
    pub fn server(&self, member: Member) -> ServerId
        ensures { result ≡ id_in self.now.scope.servers.now member (view self.now.tree.now) }
    {
        self.server_found(member).unwrap_or(ServerId::new(0))
    }

    /// Returns the shard that a member names.
    pub fn shard(&self, member: Member) -> ShardId
        ensures { result ≡ id_in self.now.scope.shards.now member (view self.now.tree.now) }
    {
        match self.find(member) {
            Some(value) => ShardId::new(id_named(value, self.scope.shards).unwrap_or(0)),
            None => ShardId::new(0),
        }
    }

    /// Returns the entries of a list.
    pub fn entries(&self, member: Member) -> &'p [Tree<'t>]
        ensures { map view result.now ≡ entries_in member (view self.now.tree.now) }
    {
        let Some(value) = self.find(member) else {
            return no_entries();
        };
        items_of(value)
    }
}

/// Returns a number as an id, which has 32 bits.
pub fn id(n: usize) -> u32
    ensures { result ≡ id_of n }
{
    u32::try_from(n).unwrap_or(0)
}

/// Returns the number of what a value names.
pub fn id_named(value: &Tree<'_>, names: &Names) -> Option<u32>
    ensures { result ≡ id_named names.now (view value.now) }
{
    let text = value.as_str()?;
    let number = names.find(text)?;
    Some(id(number))
}

/// Returns the entries of what is no list.
fn no_entries<'p, 't>() -> &'p [Tree<'t>]
    ensures { result.now ≡ [] }
{
    &[]
}

/// Returns the entries of a list.
#[tactic(auto, using(crate::proofs::ObjectLemmas::entries_view))]
pub fn items_of<'p, 't>(value: &'p Tree<'t>) -> &'p [Tree<'t>]
    ensures { map view result.now ≡ items_of (view value.now) }
{
    let Some(items) = value.as_array() else {
        return no_entries();
    };
    items
}

/// Returns the role that a word says.
pub fn role_of(text: &str) -> Option<Role>
    ensures { result ≡ role_named text.now }
{
    match text {
        "primary" => Some(Role::Primary),
        "secondary" => Some(Role::Secondary),
        _ => None,
    }
}

/// Tells whether a word says that a call is lost after it was made, or before.
pub fn after_of(text: &str) -> Option<bool>
    ensures { result ≡ after_named text.now }
{
    match text {
        "before" => Some(false),
        "after" => Some(true),
        _ => None,
    }
}

/// Returns the state of a cell right that a word says.
pub fn state_of(text: &str) -> Option<PlainCell>
    ensures { result ≡ plain_named text.now }
{
    match text {
        "absent" => Some(PlainCell::Absent),
        "secondary" => Some(PlainCell::Secondary),
        _ => None,
    }
}
