//! A document's text, read so that its longest lists are never kept as trees: each of their entries is read as it
//! comes.
ghost use Rattle.std.specs.Prelude.{◌≡◌, ◌<◌, ◌≤◌, [], None, Some, map, length, IfOk, IfSome, OnOk};
ghost use Rattle.sm_plan_text.specs.Words.{view, members_view, answered, entries, names_in, walked, HasIds, IsEarly};
ghost use Rattle.sm_plan_text.specs.Words.{IsPartialOutline, IsOutline};
ghost use Rattle.json.specs.Json.{value, items, members};
ghost use Rattle.serde_json.specs.Data.{Data, Items, Members, array, put};
ghost use Rattle.serde_json.specs.Read.{of_json, of_members, converted, read as read_text};

use crate::cursor::{Scope, items_of};
use crate::limits::{MOST_DEPTH, MOST_EVENTS};
use crate::{Cursor, Entry, Faults, Member, Names};
use json_tree::{ReadFault, Reader, Scratch, Token, Tree, find_member, read_value};
use sm_protocol::Event;
use sm_server::{Call, ServerId, ShardId};
use std::alloc::{AllocError, Global};

/// A list that was read early: the values of its entries, and their faults.
#[derive(Drop)]
pub struct EarlyList<T> {
    pub values: Vec<T>,
    pub faults: Faults,
}

/// The parts of a document that were read early: the names of its shards and servers, and the lists that came behind
/// these.
#[derive(Drop)]
pub struct Early {
    pub shards: Names,
    pub servers: Names,
    pub calls: Option<EarlyList<(ShardId, ServerId, Call)>>,
    pub events: Option<EarlyList<Event>>,
}

/// A document's tree, in which a list that was read early is empty.
#[derive(Drop)]
pub struct Outline<'a> {
    pub tree: Tree<'a>,
    pub early: Option<Early>,
}

/// The members of a document that have been read so far.
#[derive(Drop)]
struct PartialOutline<'a> {
    members: Vec<(&'a str, Tree<'a>)>,
    early: Option<Early>,
}

/// Reads the list that stands in this member, if it is one that has no more entries than it may.
fn read_list<T: Entry>(
    alloc: Global,
    reader: &mut Reader<'_>,
    member: Member,
    scope: Scope<'_>,
) -> Result<EarlyList<T>, ReadFault>
    ensures ok { IfOk result (λ list. (ds : Items)
        × (converted of_json (value MOST_DEPTH reader.old) ≡ Some (array ds, reader.new))
        × (list.faults.lowest ≡ answered (walked (λ _ entry. T.faults_of scope.entry member entry) [] (entries ds)))
        × (length (entries ds) ≤ MOST_EVENTS)
        × (HasIds scope.entry → list.faults.lowest ≡ None
        → list.values.items ≡ map (T.value scope.entry) (entries ds))) }
    ensures shorter { OnOk result (length reader.new < length reader.old) }
{
    let Some(Token::BeginArray) = reader.next() else {
        return Err(ReadFault::NotJson);
    };
    let mut values = Vec::new(alloc);
    let mut faults = Faults { lowest: None };
    'entries: while !reader.take_end_array() {
        let tree = read_value(alloc, reader, MOST_DEPTH - 1)?;
        let cursor = Cursor {
            alloc,
            tree: &tree,
            member,
            scope,
        };
        let entry = T::read(&cursor, &mut faults)?;
        values.push(entry).or(Err(ReadFault::NoMemory))?;
    }
    if values.len() > MOST_EVENTS {
        return Err(ReadFault::NotJson);
    }
    Ok(EarlyList { values, faults })
}

/// Returns the names of the objects of a list.
fn names_of(alloc: Global, items: &[Tree<'_>]) -> Result<Names, AllocError>
    ensures { IfOk result (λ names. names ≡ names_in (map view items.now)) }
{
    let none = Names::new(alloc);
    let mut names = Names::new(alloc);
    for item in items {
        let cursor = Cursor::new(alloc, item, Member::Document, &none, &none);
        names.insert(cursor.name(Member::Name)?)?;
    }
    Ok(names)
}

impl Early {
    /// Returns the names of the shards and servers among these members, if both stand there.
    fn begin<'a>(alloc: Global, members: &[(&'a str, Tree<'a>)]) -> Result<Option<Self>, AllocError>
        ensures { IfOk result (λ found. IfSome found
            (λ early. IsEarly early (members_view members.now) (members_view members.now))) }
    {
        let shards = find_member(members, "shards");
        let (Some(shards), Some(servers)) = (shards, find_member(members, "servers")) else {
            return Ok(None);
        };
        Ok(Some(Early {
            shards: names_of(alloc, items_of(shards))?,
            servers: names_of(alloc, items_of(servers))?,
            calls: None,
            events: None,
        }))
    }

    /// Reads the member of this name, and returns what is kept of it: an empty list in place of one that is read early.
    /// If the shards or servers of the names come once more, nothing can be read early.
    fn read_member<'a>(
        &mut self,
        alloc: Global,
        reader: &mut Reader<'a>,
        name: &str,
    ) -> Result<Tree<'a>, ReadFault>
        ensures ok { IfOk result (λ tree. (d : Data)
            × (converted of_json (value MOST_DEPTH reader.old) ≡ Some (d, reader.new))
            × ((kept whole : Members) → IsEarly self.old kept whole
            → IsEarly self.new (put name.now (view tree) kept) (put name.now d whole))) }
        ensures shorter { OnOk result (length reader.new < length reader.old) }
    {
        let scope = Scope {
            shards: &self.shards,
            servers: &self.servers,
            signals: 0,
            retries: false,
        };
        match name {
            "calls" => self.calls = Some(read_list(alloc, reader, Member::Calls, scope)?),
            "events" => self.events = Some(read_list(alloc, reader, Member::Events, scope)?),
            "servers" | "shards" => return Err(ReadFault::NotJson),
            _ => return read_value(alloc, reader, MOST_DEPTH),
        }
        Ok(Tree::Array(Vec::new(alloc)))
    }
}

impl<'a> PartialOutline<'a> {
    /// Finds the names that a list with this name needs, if they have been read.
    fn find_names(&mut self, alloc: Global, name: &str) -> Result<(), AllocError>
        ensures members { self.new.members ≡ self.old.members }
        ensures same { OnOk result ((whole : Members) → IsPartialOutline self.old whole
            → IsPartialOutline self.new whole) }
    {
        if self.early.is_none() && (name == "calls" || name == "events") {
            self.early = Early::begin(alloc, self.members.as_slice())?;
        }
        Ok(())
    }

    /// Reads the member of this name.
    fn read_member(
        &mut self,
        alloc: Global,
        reader: &mut Reader<'a>,
        name: &'a str,
    ) -> Result<(), ReadFault>
        ensures ok { OnOk result ((d : Data) × (converted of_json (value MOST_DEPTH reader.old) ≡ Some (d, reader.new))
            × ((whole : Members) → IsPartialOutline self.old whole
            → IsPartialOutline self.new (put name.now d whole))) }
        ensures shorter { OnOk result (length reader.new < length reader.old) }
    {
        self.find_names(alloc, name)?;
        let tree = match &mut self.early {
            Some(early) => early.read_member(alloc, reader, name)?,
            None => read_value(alloc, reader, MOST_DEPTH)?,
        };
        self.members
            .push((name, tree))
            .or(Err(ReadFault::NoMemory))?;
        Ok(())
    }

    /// Reads all members, to the end of the object.
    fn read_members(&mut self, alloc: Global, reader: &mut Reader<'a>) -> Result<(), ReadFault>
        ensures { OnOk result ((whole : Members) → IsPartialOutline self.old whole
            → (found : Members) × IsPartialOutline self.new found
            × (converted (λ ms. of_members ms whole) (members (value MOST_DEPTH) (length reader.old) reader.old)
            ≡ Some (found, reader.new))) }
    {
        'members: while let Some(name) = reader.next_key()? {
            self.read_member(alloc, reader, name)?;
        }
        Ok(())
    }
}

impl<'a> Outline<'a> {
    /// Reads a text that is one object: calls and events early if servers and shards stand before them, and all others
    /// as trees. It returns `NotJson` also if servers or shards come once more behind such a list, or if that is no
    /// list or has more entries than it may.
    pub fn read_early(
        alloc: Global,
        text: &'a str,
        scratch: &'a mut Scratch,
    ) -> Result<Outline<'a>, ReadFault>
        ensures { IfOk result (λ outline. (d : Data) × (read_text text.now ≡ Some d) × IsOutline outline d) }
    {
        let mut reader = Reader::new(text, scratch)?;
        let Some(Token::BeginObject) = reader.next() else {
            return Err(ReadFault::NotJson);
        };
        let mut partial = PartialOutline {
            members: Vec::new(alloc),
            early: None,
        };
        partial.read_members(alloc, &mut reader)?;
        if reader.next().is_some() {
            return Err(ReadFault::NotJson);
        }
        Ok(Outline {
            tree: Tree::Object(partial.members),
            early: partial.early,
        })
    }
}
