//! Lines that are no commands.
ghost use Rattle.std.specs.Prelude.{◌≡◌, ◌++◌, IfOk, OnOk, codes, option_map, string_bytes};
ghost use Rattle.smpland_lines.specs.Members.{object_member};
ghost use Rattle.smpland_lines.specs.BadLines.{bad_kind, bad_path, bad_words, below_path, inner_text, kind_words};
ghost use Rattle.smpland_lines.specs.BadLines.{command_choices, member_choices, member_words, path_in, text_fault_kind};
ghost use Rattle.smpland_lines.specs.BadLines.{told_bad};
ghost use Rattle.smpland_lines.specs.Refusals.{bad_members};

use crate::command_member::CommandMember;
use crate::line_part::LinePart;
use crate::writer::Writer;
use crate::writing::write_text;
use sm_plan_text::{Member, TextFault};
use std::alloc::{AllocError, Global};

/// The fault for which a line is no command: of several the one of the lowest number, and of one number the first.
#[derive(Clone, Copy, Debug, PartialEq, Eq)]
pub enum BadLine<'a> {
    /// The line is not one JSON text in UTF-8, with nothing round it.
    NotJson,
    /// The line is longer than any may be.
    TooLong,
    /// The part is no object, or is an entry that may not stand in its list.
    Malformed(LinePart),
    /// The part has a member of this name, and may have none.
    UnknownMember(LinePart, &'a str),
    /// The part lacks the member.
    Missing(LinePart, CommandMember),
    /// The part's member is not in its form.
    Shape(LinePart, CommandMember),
    /// The part's member names what is not in the document.
    UnknownName(LinePart, CommandMember),
    /// The part's member is a list of too many entries, or a text that is too long.
    TooMany(LinePart, CommandMember),
    /// The part's member is not a whole number within its limit.
    Number(LinePart, CommandMember),
    /// The member's value is no document, or no plan.
    Within(CommandMember, TextFault),
}

/// Returns the kind of a fault in a document or a plan.
fn text_kind(fault: TextFault) -> &'static str
    ensures { result.now ≡ text_fault_kind fault }
{
    match fault {
        TextFault::NoMemory => "NoMemory",
        TextFault::NotJson => "NotJson",
        TextFault::Shape { .. } => "Shape",
        TextFault::UnknownName { .. } => "UnknownName",
        TextFault::TooMany { .. } => "TooMany",
        TextFault::Number { .. } => "Number",
    }
}

/// Returns the member in which a fault in a document or a plan lies, unless that is all of it.
fn inner_member(fault: TextFault) -> Option<&'static str>
    ensures { option_map (λ name. name.now) result ≡ inner_text fault }
{
    match fault {
        TextFault::NoMemory | TextFault::NotJson => None,
        TextFault::Shape { member }
        | TextFault::UnknownName { member }
        | TextFault::TooMany { member }
        | TextFault::Number { member } => match member {
            Member::Document => None,
            _ => Some(member.text()),
        },
    }
}

impl BadLine<'_> {
    ghost use Rattle.std.specs.Prelude.{◌≡◌, ◌++◌, OnOk, option_map, string_bytes};
    ghost use Rattle.smpland_lines.specs.BadLines.{bad_kind, bad_member, bad_number, bad_path, bad_words, plain_words};
    ghost use Rattle.smpland_lines.specs.BadLines.{choices_words, unknown_words};

    /// Returns the kind of the fault.
    pub fn kind(self) -> &'static str
        ensures { result.now ≡ bad_kind self.entry }
    {
        match self {
            BadLine::NotJson => "NotJson",
            BadLine::Malformed(_)
            | BadLine::UnknownMember(..)
            | BadLine::Missing(..)
            | BadLine::Shape(..) => "Shape",
            BadLine::UnknownName(..) => "UnknownName",
            BadLine::TooMany(..) => "TooMany",
            BadLine::Number(..) => "Number",
            BadLine::Within(_, fault) => text_kind(fault),
            BadLine::TooLong => "TooLong",
        }
    }

    /// Returns the number of the fault's kind, which is that of `smplan`.
    pub fn number(self) -> u8
        ensures { result ≡ bad_number self.entry }
    {
        match self {
            BadLine::NotJson => 2,
            BadLine::Malformed(_)
            | BadLine::UnknownMember(..)
            | BadLine::Missing(..)
            | BadLine::Shape(..) => 3,
            BadLine::UnknownName(..) => 4,
            BadLine::TooMany(..) => 5,
            BadLine::Number(..) => 6,
            BadLine::Within(_, fault) => fault.number(),
            BadLine::TooLong => 7,
        }
    }

    /// Returns the name of the member that is told, if one is.
    pub fn member(self) -> Option<&'static str>
        ensures { option_map (λ name. name.now) result ≡ bad_member self.entry }
    {
        match self {
            BadLine::NotJson | BadLine::TooLong => None,
            BadLine::Malformed(part) | BadLine::UnknownMember(part, _) => Some(
                part.member().text(),
            ),
            BadLine::Missing(_, member)
            | BadLine::Shape(_, member)
            | BadLine::UnknownName(_, member)
            | BadLine::TooMany(_, member)
            | BadLine::Number(_, member) => Some(member.text()),
            BadLine::Within(member, fault) => match inner_member(fault) {
                Some(inner) => Some(inner),
                None => Some(member.text()),
            },
        }
    }

    /// Adds where the fault lies, as a path: a member that is missing lies in its object.
    pub fn push_path(self, out: &mut String) -> Result<(), AllocError>
        ensures { OnOk result (string_bytes out.new ≡ string_bytes out.old ++ bad_path self.entry) }
    {
        match self {
            BadLine::NotJson | BadLine::TooLong => write!(out, "$"),
            BadLine::Malformed(part) | BadLine::Missing(part, _) => part.push_path(out),
            BadLine::UnknownMember(part, name) => push_member(out, part, name),
            BadLine::Shape(part, member)
            | BadLine::UnknownName(part, member)
            | BadLine::TooMany(part, member)
            | BadLine::Number(part, member) => push_member(out, part, member.text()),
            BadLine::Within(member, fault) => {
                push_member(out, LinePart::Line, member.text())?;
                push_inner(out, inner_member(fault))
            }
        }
    }

    /// Adds the words for the fault, which are those of `smplan`, of a member that is not known its name, and of a
    /// line's `do` the words that there are.
    pub fn push_words(self, out: &mut String) -> Result<(), AllocError>
        ensures { OnOk result (string_bytes out.new ≡ string_bytes out.old ++ bad_words self.entry) }
    {
        self.push_plain(out)?;
        self.push_unknown(out)?;
        self.push_choices(out)
    }

    /// Adds the words for the fault that `smplan` has, too.
    fn push_plain(self, out: &mut String) -> Result<(), AllocError>
        ensures { OnOk result (string_bytes out.new ≡ string_bytes out.old ++ plain_words self.entry) }
    {
        push_kind(out, self.number(), self.kind())?;
        push_told(out, self.member())
    }

    /// Adds the name of a member that is not known, if that is the fault.
    fn push_unknown(self, out: &mut String) -> Result<(), AllocError>
        ensures { OnOk result (string_bytes out.new ≡ string_bytes out.old ++ unknown_words self.entry) }
    {
        match self {
            BadLine::UnknownMember(_, name) => write!(out, " has no member {name}"),
            _ => Ok(()),
        }
    }

    /// Adds what the member has to be that is missing, or not in its form.
    fn push_choices(self, out: &mut String) -> Result<(), AllocError>
        ensures { OnOk result (string_bytes out.new ≡ string_bytes out.old ++ choices_words self.entry) }
    {
        match self {
            BadLine::Missing(_, member) | BadLine::Shape(_, member) => push_member_choices(
                out, member,
            ),
            _ => Ok(()),
        }
    }
}

/// Adds what a line's `do` has to be: one of the words that there are.
fn push_command_choices(out: &mut String) -> Result<(), AllocError>
    ensures { OnOk result (string_bytes out.new ≡ string_bytes out.old ++ command_choices) }
{
    write!(
        out,
        " has to be one of open begin answered approve restarted restore"
    )?;
    write!(
        out,
        " new_epoch copied reopen fenced confirm settled hello orders map document"
    )?;
    write!(out, " state moves drain check since audit failed")?;
    Ok(())
}

/// Adds what a member has to be, if that is told.
fn push_member_choices(out: &mut String, member: CommandMember) -> Result<(), AllocError>
    ensures { OnOk result (string_bytes out.new ≡ string_bytes out.old ++ member_choices member) }
{
    match member {
        CommandMember::Do => push_command_choices(out),
        _ => Ok(()),
    }
}

/// Adds a kind with its number.
fn push_kind(out: &mut String, number: u8, kind: &str) -> Result<(), AllocError>
    ensures { OnOk result (string_bytes out.new ≡ string_bytes out.old ++ kind_words number kind.now) }
{
    write!(out, "bad input: {number} {kind}")
}

/// Adds a member behind a space, if one is told.
fn push_told(out: &mut String, member: Option<&str>) -> Result<(), AllocError>
    ensures { OnOk result (string_bytes out.new
        ≡ string_bytes out.old ++ member_words (option_map (λ name. name.now) member.entry)) }
{
    match member {
        Some(name) => write!(out, " {name}"),
        None => Ok(()),
    }
}

/// Adds the path of a member of a part.
fn push_member(out: &mut String, part: LinePart, name: &str) -> Result<(), AllocError>
    ensures { OnOk result (string_bytes out.new ≡ string_bytes out.old ++ path_in part name.now) }
{
    part.push_path(out)?;
    write!(out, ".{name}")
}

/// Adds behind the path of a document or a plan that a member stands somewhere below.
fn push_inner(out: &mut String, member: Option<&str>) -> Result<(), AllocError>
    ensures { OnOk result (string_bytes out.new
        ≡ string_bytes out.old ++ below_path (option_map (λ name. name.now) member.entry)) }
{
    match member {
        Some(name) => write!(out, "..{name}"),
        None => Ok(()),
    }
}

/// Writes the members of what is wrong with a line.
fn write_bad_members(
    writer: &mut Writer,
    kind: &str,
    at: &str,
    text: &str,
) -> Result<(), AllocError>
    ensures { OnOk result (writer.new.tokens ≡ writer.old.tokens ++ bad_members kind.now at.now text.now) }
{
    write_text(writer, "kind", kind)?;
    write_text(writer, "at", at)?;
    write_text(writer, "text", text)?;
    Ok(())
}

/// Writes what is wrong with a line, as a member of its reply, from its kind, its path and its words.
fn write_told(writer: &mut Writer, kind: &str, at: &str, text: &str) -> Result<(), AllocError>
    ensures { OnOk result (writer.new.tokens ≡ writer.old.tokens
        ++ object_member (codes "bad") (bad_members kind.now at.now text.now)) }
{
    writer.key("bad")?;
    writer.begin_object()?;
    write_bad_members(writer, kind, at, text)?;
    writer.end_object()?;
    Ok(())
}

/// Returns where a fault lies.
fn path_of(alloc: Global, bad: BadLine<'_>) -> Result<String, AllocError>
    ensures { IfOk result (λ path. string_bytes path ≡ bad_path bad.entry) }
{
    let mut path = String::new(alloc);
    bad.push_path(&mut path)?;
    Ok(path)
}

/// Returns the words for a fault.
fn words_of(alloc: Global, bad: BadLine<'_>) -> Result<String, AllocError>
    ensures { IfOk result (λ words. string_bytes words ≡ bad_words bad.entry) }
{
    let mut words = String::new(alloc);
    bad.push_words(&mut words)?;
    Ok(words)
}

/// Writes what is wrong with a line, as a member of its reply.
pub fn write_bad(writer: &mut Writer, alloc: Global, bad: BadLine<'_>) -> Result<(), AllocError>
    ensures { OnOk result (writer.new.tokens ≡ writer.old.tokens ++ told_bad bad.entry) }
{
    let path = path_of(alloc, bad)?;
    let words = words_of(alloc, bad)?;
    write_told(writer, bad.kind(), path.as_str(), words.as_str())
}
