//! The members that an object may have, and those that it needs.
ghost use Rattle.std.specs.Prelude.{◌≡◌, IfSome, option_map};
ghost use Rattle.smpland_lines.specs.Reading.{IsObjectFault, first_unknown, is_name_of, may_stand};

use crate::bad_line::BadLine;
use crate::command_member::CommandMember;
use crate::line_part::LinePart;
use json_tree::Tree;

/// A member that has to be there, or one that may be missing.
#[derive(Clone, Copy)]
pub enum Row {
    One(CommandMember),
    Maybe(CommandMember),
}

impl Row {
    ghost use Rattle.smpland_lines.specs.Reading.{is_needed, row_member};

    /// Returns the row of a member that has to be there if it is needed.
    pub const fn needed_if(needed: bool, member: CommandMember) -> Row
        ensures needed { is_needed result ≡ needed }
        ensures member { row_member result ≡ member }
    {
        if needed {
            Row::One(member)
        } else {
            Row::Maybe(member)
        }
    }

    /// Returns the row's member.
    pub const fn member(self) -> CommandMember
        ensures { result ≡ row_member self }
    {
        match self {
            Row::One(member) | Row::Maybe(member) => member,
        }
    }
}

/// Tells whether a text is one of the names.
fn is_named(text: &str, names: &[CommandMember]) -> bool
    ensures { result ≡ is_name_of names.now text.now }
{
    names.iter().any(|name| text == name.text())
}

/// Tells whether a member of this name may stand in a part: one of these, and in a line what each command has.
fn may_stand(name: &str, part: LinePart, names: &[CommandMember]) -> bool
    ensures { result ≡ may_stand part names.now name.now }
{
    is_named(name, names)
        || (part.is_line() && is_named(name, &[CommandMember::Do, CommandMember::Id]))
}

/// Returns the first name of a member that may not stand in the part, if there is one.
fn first_unknown<'a>(
    members: &[(&'a str, Tree<'a>)],
    part: LinePart,
    names: &[CommandMember],
) -> Option<&'a str>
    ensures { option_map (λ name. name.now) result ≡ first_unknown part names.now members.now }
{
    let member = members
        .iter()
        .find(|member| !may_stand(member.0, part, names))?;
    Some(member.0)
}

/// Returns what is wrong with a part that has to be an object of members with these names.
pub fn object_fault<'a>(
    value: &Tree<'a>,
    part: LinePart,
    names: &[CommandMember],
) -> Option<BadLine<'a>>
    ensures { IfSome result (IsObjectFault part names.now) }
{
    let Some(members) = value.as_object() else {
        return Some(BadLine::Malformed(part));
    };
    let name = first_unknown(members, part, names)?;
    Some(BadLine::UnknownMember(part, name))
}
