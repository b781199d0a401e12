//! The parts of a line in which a fault may lie.

use crate::command_member::CommandMember;
use std::alloc::AllocError;

/// An object of a line, or an entry of a list that has to be a name.
#[derive(Clone, Copy, Debug, PartialEq, Eq)]
pub enum LinePart {
    /// The line itself.
    Line,
    /// The entry at this place of one of the line's lists.
    Entry(CommandMember, usize),
    /// The entry at a place of a list, which stands in an entry of one of the line's lists.
    InnerEntry(CommandMember, usize, CommandMember, usize),
}

impl LinePart {
    ghost use Rattle.std.specs.Prelude.{◌≡◌, ◌++◌, OnOk, string_bytes};
    ghost use Rattle.smpland_lines.specs.BadLines.{part_entry, part_member, part_path};
    ghost use Rattle.smpland_lines.specs.Reading.{is_whole_line};

    /// Returns the entry at a place of a list that stands in the part. No list stands deeper than in an entry of the
    /// line's lists.
    pub const fn entry(self, list: CommandMember, at: usize) -> LinePart
        ensures { result ≡ part_entry self list at }
    {
        match self {
            LinePart::Line => LinePart::Entry(list, at),
            LinePart::Entry(outer, outer_at) => LinePart::InnerEntry(outer, outer_at, list, at),
            LinePart::InnerEntry(..) => self,
        }
    }

    /// Tells whether the part is the line itself.
    pub(crate) const fn is_line(self) -> bool
        ensures { result ≡ is_whole_line self }
    {
        matches!(self, LinePart::Line)
    }

    /// Returns the member whose entry the part is.
    pub const fn member(self) -> CommandMember
        ensures { result ≡ part_member self }
    {
        match self {
            LinePart::Line => CommandMember::Command,
            LinePart::Entry(list, _) | LinePart::InnerEntry(_, _, list, _) => list,
        }
    }

    /// Adds the path of the part.
    pub fn push_path(self, out: &mut String) -> Result<(), AllocError>
        ensures { OnOk result (string_bytes out.new ≡ string_bytes out.old ++ part_path self) }
    {
        match self {
            LinePart::Line => write!(out, "$"),
            LinePart::Entry(list, at) => {
                let list = list.text();
                write!(out, "$.{list}[{at}]")
            }
            LinePart::InnerEntry(outer, outer_at, list, at) => {
                let outer = outer.text();
                let list = list.text();
                write!(out, "$.{outer}[{outer_at}].{list}[{at}]")
            }
        }
    }
}
