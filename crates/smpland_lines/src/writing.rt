//! Members of replies.
ghost use Rattle.std.specs.Prelude.{◌≡◌, ◌++◌, OnOk, option_map};
ghost use Rattle.smpland_lines.specs.Members.{id_members, name_member, number_member, text_member};

use crate::command::Id;
use crate::writer::Writer;
use std::alloc::AllocError;

/// Writes a member that is a text.
pub fn write_text(writer: &mut Writer, name: &str, text: &str) -> Result<(), AllocError>
    ensures { OnOk result (writer.new.tokens ≡ writer.old.tokens ++ text_member name.now text.now) }
{
    writer.key(name)?;
    writer.string(text)
}

/// Writes a member that is a whole number.
pub fn write_number(writer: &mut Writer, name: &str, number: u64) -> Result<(), AllocError>
    ensures { OnOk result (writer.new.tokens ≡ writer.old.tokens ++ number_member name.now number) }
{
    writer.key(name)?;
    writer.u64(number)
}

/// Writes a member that is a name, or null for none.
pub fn write_name(writer: &mut Writer, name: &str, found: Option<&str>) -> Result<(), AllocError>
    ensures { OnOk result (writer.new.tokens ≡ writer.old.tokens
        ++ name_member name.now (option_map (λ text. text.now) found.entry)) }
{
    writer.key(name)?;
    match found {
        Some(text) => writer.string(text),
        None => writer.null(),
    }
}

/// Writes the id of a line, as a member of its reply.
pub fn write_id(writer: &mut Writer, id: Option<Id<'_>>) -> Result<(), AllocError>
    ensures { OnOk result (writer.new.tokens ≡ writer.old.tokens ++ id_members id.entry) }
{
    match id {
        Some(Id::Text(text)) => write_text(writer, "id", text),
        Some(Id::Number(number)) => write_number(writer, "id", number),
        None => Ok(()),
    }
}
