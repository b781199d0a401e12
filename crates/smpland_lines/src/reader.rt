//! An object of a line, with the faults that are met on the way.
ghost use Rattle.std.specs.Prelude.{◌≡◌, ◌≢◌, ◌≤◌, ◌<◌, IfOk, IfSome, false, is_some, length};
ghost use Rattle.std.specs.Prelude.{option_and_then, option_map, true, unwrap_or};
ghost use Rattle.sm_placement.specs.Names.{is_name};
ghost use Rattle.sm_placement.specs.Setup.{server_named, shard_named};
ghost use Rattle.sm_plan_code.specs.declared.limits.TheConstants.{MOST_RIGHTS};
ghost use Rattle.smpland_lines.specs.Commands.{IsServerOf, IsShardOf};
ghost use Rattle.json_tree.specs.View.{items_view, view};
ghost use Rattle.smpland_lines.specs.Ids.{id_fault};
ghost use Rattle.smpland_lines.specs.Lines.{IsNameOrNull};
ghost use Rattle.smpland_lines.specs.Reading.{IsRead, IsValueOf, ReadsOn, is_clean, object_data, row_member};
ghost use Rattle.smpland_lines.specs.Values.{bits_at, truth_at, list_at, text_at, value_at, whole_at};
ghost use Rattle.smpland_lines.specs.declared.bad_line.BadLine.TheVariants.{Malformed};

use crate::bad_line::BadLine;
use crate::command_member::CommandMember;
use crate::entries::{first_double, first_nameless};
use crate::faults::Faults;
use crate::form::{id_in, is_label, random_bits};
use crate::line_part::LinePart;
use crate::row::{Row, object_fault};
use json_tree::Tree;
use sm_placement::{Config, is_name};
use sm_plan_code::MOST_RIGHTS;
use sm_server::{ServerId, ShardId};
use std::alloc::{AllocError, Global};

/// Returns what is wrong with the id of a line, if it has one.
fn id_fault<'a>(line: &Tree<'a>) -> Option<BadLine<'a>>
    ensures { result ≡ id_fault (view line.now) }
{
    let id = line.get("id")?;
    match id_in(id) {
        Some(_) => None,
        None if id.is_number() => Some(BadLine::Number(LinePart::Line, CommandMember::Id)),
        None => Some(BadLine::Shape(LinePart::Line, CommandMember::Id)),
    }
}

/// An object that is read, the part of the line that it is, and the faults that were met.
#[derive(Clone, Copy)]
pub struct Reader<'t, 'a> {
    object: &'t Tree<'a>,
    part: LinePart,
    pub faults: Faults<'a>,
}

/// Each call that reads a member notes what is wrong with it, and answers None then, and for one that may be missing
/// and is.
impl<'t, 'a> Reader<'t, 'a> {
    /// Begins to read a part of a line, whose members have these names.
    pub fn new(object: &'t Tree<'a>, part: LinePart, names: &[CommandMember]) -> Self
        ensures { object_data result ≡ view object.now }
    {
        let mut reader = Reader {
            object,
            part,
            faults: Faults::new(),
        };
        if let Some(fault) = object_fault(object, part, names) {
            reader.note(fault);
        }
        reader
    }

    /// Begins to read a line, whose members beside those of each command have these names.
    pub fn of_line(line: &'t Tree<'a>, names: &[CommandMember]) -> Self
        ensures { object_data result ≡ view line.now }
    {
        let mut reader = Reader::new(line, LinePart::Line, names);
        if let Some(fault) = id_fault(line) {
            reader.note(fault);
        }
        reader
    }

    /// Takes the next fault.
    pub fn note(&mut self, fault: BadLine<'a>)
        ensures on { ReadsOn self.old self.new }
        ensures fault { is_clean self.new.faults ≡ false }
    {
        self.faults.note(fault);
    }

    /// Returns what was read, unless a fault was met.
    pub fn finish<T: Drop>(self, read: T) -> Result<T, BadLine<'a>>
        ensures read { IfOk result (λ found. found ≡ read) }
        ensures clean { IfOk result (λ _. is_clean self.entry.faults ≡ true) }
    {
        self.faults.finish(read)
    }

    /// Returns the fault to tell of an object of which something is missing.
    pub fn fault(self) -> BadLine<'a>
        ensures { result ≡ unwrap_or self.entry.faults.lowest (Malformed self.entry.part) }
    {
        match self.faults.lowest() {
            Some(fault) => fault,
            None => BadLine::Malformed(self.part),
        }
    }

    /// Returns a member as it stands.
    pub fn find(&self, member: CommandMember) -> Option<&'t Tree<'a>>
        ensures { option_map (λ value. view value.now) result ≡ value_at member (object_data self.now) }
    {
        self.object.get(member.text())
    }

    /// Returns a member, and notes if it has to be there and is missing.
    pub fn value(&mut self, row: Row) -> Option<&'t Tree<'a>>
        ensures read { IsRead self.old self.new row (is_some result) }
        ensures told { option_map (λ value. view value.now) result ≡ value_at (row_member row) (object_data self.old) }
    {
        let found = self.find(row.member());
        if found.is_none()
            && let Row::One(member) = row
        {
            self.note(BadLine::Missing(self.part, member));
        }
        found
    }

    /// Returns what was found in a member, and notes that the member is not in its form if that is nothing.
    pub fn shaped<T: Copy>(&mut self, row: Row, found: Option<T>) -> Option<T>
        ensures found { result ≡ found }
        ensures on { ReadsOn self.old self.new }
        ensures there { is_clean self.new.faults ≡ true → is_some found ≡ true }
    {
        if found.is_none() {
            self.note(BadLine::Shape(self.part, row.member()));
        }
        found
    }

    /// Returns the object that a member has to be.
    pub fn object(&mut self, row: Row) -> Option<&'t Tree<'a>>
        ensures read { IsRead self.old self.new row (is_some result) }
        ensures told { IsValueOf self.old self.new value_at row (option_map (λ value. view value.now) result) }
    {
        let value = self.value(row)?;
        self.shaped(row, if value.is_object() { Some(value) } else { None })
    }

    /// Returns the text that a member has to be.
    pub fn text(&mut self, row: Row) -> Option<&'a str>
        ensures read { IsRead self.old self.new row (is_some result) }
        ensures told { IsValueOf self.old self.new text_at row (option_map (λ text. text.now) result) }
    {
        let value = self.value(row)?;
        self.shaped(row, value.as_str())
    }

    /// Returns the flag that a member has to be.
    pub fn flag(&mut self, row: Row) -> Option<bool>
        ensures read { IsRead self.old self.new row (is_some result) }
        ensures told { IsValueOf self.old self.new truth_at row result }
    {
        let value = self.value(row)?;
        self.shaped(row, value.as_bool())
    }

    /// Returns the label that a member has to be.
    pub fn label(&mut self, row: Row) -> Option<&'a str>
        ensures read { IsRead self.old self.new row (is_some result) }
        ensures told { IsValueOf self.old self.new text_at row (option_map (λ text. text.now) result) }
    {
        let value = self.value(row)?;
        self.shaped(row, value.as_str().filter(|text| is_label(text)))
    }

    /// Returns the name, known or not, that a member has to be.
    pub fn name(&mut self, row: Row) -> Option<&'a str>
        ensures read { IsRead self.old self.new row (is_some result) }
        ensures told { IsValueOf self.old self.new text_at row (option_map (λ text. text.now) result) }
        ensures name { IfSome result (λ name. is_name name.now ≡ true) }
    {
        let value = self.value(row)?;
        self.shaped(row, value.as_str().filter(|text| is_name(text)))
    }

    /// Returns the name, known or not, that a member has to be, and None within for null.
    pub fn name_or_null(&mut self, row: Row) -> Option<Option<&'a str>>
        ensures read { IsRead self.old self.new row (is_some result) }
        ensures told { is_clean self.new.faults ≡ true
            → IfSome result (IsNameOrNull (row_member row) (object_data self.old)) }
    {
        match self.find(row.member()) {
            Some(value) if value.is_null() => Some(None),
            _ => Some(Some(self.name(row)?)),
        }
    }

    /// Returns the number, not 0, that a member has to be as 1 to 16 hexadecimal digits.
    pub fn bits(&mut self, row: Row) -> Option<u64>
        ensures read { IsRead self.old self.new row (is_some result) }
        ensures told { IsValueOf self.old self.new bits_at row result }
        ensures random { IfSome result (λ bits. bits ≢ 0) }
    {
        let value = self.value(row)?;
        self.shaped(row, value.as_str().and_then(random_bits))
    }

    /// Returns the whole number up to a limit that a member has to be.
    pub fn number(&mut self, row: Row, most: u64) -> Option<u64>
        ensures read { IsRead self.old self.new row (is_some result) }
        ensures told { IsValueOf self.old self.new whole_at row result }
        ensures most { IfSome result (λ number. number ≤ most) }
    {
        let value = self.value(row)?;
        if !value.is_number() {
            self.note(BadLine::Shape(self.part, row.member()));
            return None;
        }
        match value.as_u64() {
            Some(number) if number <= most => Some(number),
            _ => {
                self.note(BadLine::Number(self.part, row.member()));
                None
            }
        }
    }

    /// Returns the whole number up to a limit that a member has to be unless it is null.
    pub fn number_unless_null(&mut self, row: Row, most: u64) -> Option<u64>
        ensures on { ReadsOn self.old self.new }
        ensures told { IsValueOf self.old self.new whole_at row result }
        ensures most { IfSome result (λ number. number ≤ most) }
    {
        match self.find(row.member()) {
            Some(value) if value.is_null() => None,
            _ => self.number(row, most),
        }
    }

    /// Returns the whole number below 2^32 that a member has to be.
    pub fn small(&mut self, row: Row) -> Option<u32>
        ensures read { IsRead self.old self.new row (is_some result) }
        ensures told { IsValueOf self.old self.new whole_at row result }
    {
        let number = self.number(row, u64::from(u32::MAX))?;
        u32::try_from(number).ok()
    }

    /// Returns the list, up to a number of entries, that a member has to be.
    pub fn list(&mut self, row: Row, most: usize) -> Option<&'t [Tree<'a>]>
        ensures read { IsRead self.old self.new row (is_some result) }
        ensures told { IsValueOf self.old self.new list_at row (option_map (λ entries. items_view entries.now) result) }
        ensures most { IfSome result (λ entries. length entries.now ≤ most) }
    {
        let value = self.value(row)?;
        let entries = self.shaped(row, value.as_array())?;
        if entries.len() > most {
            self.note(BadLine::TooMany(self.part, row.member()));
            return None;
        }
        Some(entries)
    }

    /// Returns the list, up to a number of names, known or not, that a member has to be.
    pub fn names(&mut self, row: Row, most: usize) -> Option<&'t [Tree<'a>]>
        ensures read { IsRead self.old self.new row (is_some result) }
        ensures told { IsValueOf self.old self.new list_at row (option_map (λ entries. items_view entries.now) result) }
        ensures most { IfSome result (λ entries. length entries.now ≤ most) }
    {
        let found = self.list(row, most);
        let Some(entries) = self.find(row.member()).and_then(Tree::as_array) else {
            return found;
        };
        if let Some(at) = first_nameless(entries) {
            self.note(BadLine::Malformed(self.part.entry(row.member(), at)));
        }
        found
    }

    /// Returns the list that a member has to be, no two entries of which have the same text in a member of theirs.
    pub fn keyed(
        &mut self,
        alloc: Global,
        row: Row,
        key: CommandMember,
    ) -> Result<Option<&'t [Tree<'a>]>, AllocError>
        ensures read { IfOk result (λ found. IsRead self.old self.new row (is_some found)) }
        ensures told { IfOk result (λ found. IsValueOf self.old self.new list_at row
            (option_map (λ entries. items_view entries.now) found)) }
        ensures most { IfOk result (λ found. IfSome found (λ entries. length entries.now ≤ MOST_RIGHTS)) }
    {
        let found = self.list(row, MOST_RIGHTS);
        let Some(entries) = self.find(row.member()).and_then(Tree::as_array) else {
            return Ok(found);
        };
        if let Some(at) = first_double(alloc, entries, key)? {
            self.note(BadLine::Malformed(self.part.entry(row.member(), at)));
        }
        Ok(found)
    }

    /// Returns the server that a member has to name.
    pub fn server(&mut self, row: Row, config: &Config) -> Option<ServerId>
        ensures read { IsRead self.old self.new row (is_some result) }
        ensures known { IfSome result (λ server. server < length config.now.servers) }
        ensures told { IsValueOf self.old self.new
            (λ member d. option_and_then (server_named config.now) (text_at member d)) row result }
    {
        let name = self.text(row)?;
        let found = config.server_named(name);
        if found.is_none() {
            self.note(BadLine::UnknownName(self.part, row.member()));
        }
        found
    }

    /// Returns the shard that a member has to name.
    pub fn shard(&mut self, row: Row, config: &Config) -> Option<ShardId>
        ensures read { IsRead self.old self.new row (is_some result) }
        ensures known { IfSome result (λ shard. shard < length config.now.shards) }
        ensures told { IsValueOf self.old self.new
            (λ member d. option_and_then (shard_named config.now) (text_at member d)) row result }
    {
        let name = self.text(row)?;
        let found = config.shard_named(name);
        if found.is_none() {
            self.note(BadLine::UnknownName(self.part, row.member()));
        }
        found
    }

    /// Returns the name that a member has to be: that of a server of the configuration, if there is one.
    pub fn server_name(&mut self, row: Row, config: Option<&Config>) -> Option<&'a str>
        ensures read { IsRead self.old self.new row (is_some result) }
        ensures told { IsValueOf self.old self.new text_at row (option_map (λ text. text.now) result) }
        ensures known { IfSome result (λ name. IsServerOf config.entry name.now) }
    {
        let name = self.text(row)?;
        match config {
            Some(config) if config.server_named(name).is_none() => {
                self.note(BadLine::UnknownName(self.part, row.member()));
                None
            }
            _ => Some(name),
        }
    }

    /// Returns the name that a member has to be: that of a shard of the configuration, if there is one.
    pub fn shard_name(&mut self, row: Row, config: Option<&Config>) -> Option<&'a str>
        ensures read { IsRead self.old self.new row (is_some result) }
        ensures told { IsValueOf self.old self.new text_at row (option_map (λ text. text.now) result) }
        ensures known { IfSome result (λ name. IsShardOf config.entry name.now) }
    {
        let name = self.text(row)?;
        match config {
            Some(config) if config.shard_named(name).is_none() => {
                self.note(BadLine::UnknownName(self.part, row.member()));
                None
            }
            _ => Some(name),
        }
    }
}
