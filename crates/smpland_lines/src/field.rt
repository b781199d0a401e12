//! Refusals in replies: their members, and the same in words.
ghost use Rattle.std.specs.Prelude.{◌≡◌, ◌++◌, IfOk, OnOk, string_bytes};
ghost use Rattle.std.specs.List.{flat_map};
ghost use Rattle.sm_refusals.specs.Refusals.{field_of, field_words, fields_of, refusal_model, refusal_words};
ghost use Rattle.smpland_lines.specs.Members.{list_member};
ghost use Rattle.smpland_lines.specs.Refusals.{TellsRefused, field_member, number_item, own_refusal, refusal_members};
ghost use Rattle.smpland_lines.specs.Refusals.{refused_member, shared_refusal};

use crate::writer::Writer;
use crate::writing::{write_name, write_number, write_text};
use sm_refusals::{Field, Fields, RefusalText};
use std::alloc::{AllocError, Global};

/// Writes numbers.
fn write_each_number(writer: &mut Writer, numbers: &[u32]) -> Result<(), AllocError>
    ensures { OnOk result (writer.new.tokens ≡ writer.old.tokens ++ flat_map number_item numbers.now) }
{
    for number in numbers {
        writer.u64(u64::from(*number))?;
    }
    Ok(())
}

/// Writes a member that is a list of numbers.
fn write_numbers(writer: &mut Writer, name: &str, numbers: &[u32]) -> Result<(), AllocError>
    ensures { OnOk result (writer.new.tokens ≡ writer.old.tokens
        ++ list_member name.now (flat_map number_item numbers.now)) }
{
    writer.key(name)?;
    writer.begin_array()?;
    write_each_number(writer, numbers)?;
    writer.end_array()?;
    Ok(())
}

/// Writes a field as a member.
fn write_field(writer: &mut Writer, field: &Field<'_>) -> Result<(), AllocError>
    ensures { OnOk result (writer.new.tokens ≡ writer.old.tokens ++ field_member (field_of field.now)) }
{
    match field {
        Field::MapOwner(label) => write_name(writer, label, None),
        Field::Name(label, name) => write_text(writer, label, name),
        Field::Number(label, number) => write_number(writer, label, *number),
        Field::Numbers(label, numbers) => write_numbers(writer, label, numbers),
        Field::Word(label, word) => write_text(writer, label, word),
    }
}

/// Writes the fields of a refusal as members.
fn write_fields(writer: &mut Writer, fields: &Fields<'_>) -> Result<(), AllocError>
    ensures { OnOk result (writer.new.tokens ≡ writer.old.tokens ++ flat_map field_member (fields_of fields.now)) }
{
    match fields {
        Fields::None => Ok(()),
        Fields::One(first) => write_field(writer, first),
        Fields::Two(first, second) => {
            write_field(writer, first)?;
            write_field(writer, second)
        }
        Fields::Three(first, second, third) => {
            write_field(writer, first)?;
            write_field(writer, second)?;
            write_field(writer, third)
        }
    }
}

/// Writes fields as members.
fn write_each_field(writer: &mut Writer, fields: &[Field<'_>]) -> Result<(), AllocError>
    ensures { OnOk result (writer.new.tokens ≡ writer.old.tokens
        ++ flat_map (λ f. field_member (field_of f)) fields.now) }
{
    for field in fields {
        write_field(writer, field)?;
    }
    Ok(())
}

/// Adds the words of fields.
fn push_fields(out: &mut String, fields: &[Field<'_>]) -> Result<(), AllocError>
    ensures { OnOk result (string_bytes out.new
        ≡ string_bytes out.old ++ flat_map (λ f. field_words (field_of f)) fields.now) }
{
    for field in fields {
        field.push_words(out)?;
    }
    Ok(())
}

/// The words of a refusal that `smplan` has not.
fn own_words(alloc: Global, kind: &str, fields: &[Field<'_>]) -> Result<String, AllocError>
    ensures { IfOk result (λ words. string_bytes words ≡ (own_refusal kind.now fields.now).text) }
{
    let mut words = String::new(alloc);
    write!(words, "refused: {kind}")?;
    push_fields(&mut words, fields)?;
    Ok(words)
}

/// The words of a refusal that `smplan` has too.
fn shared_words(alloc: Global, refusal: &RefusalText<'_>) -> Result<String, AllocError>
    ensures { IfOk result (λ words. string_bytes words ≡ refusal_words (refusal_model refusal.now)) }
{
    let mut words = String::new(alloc);
    refusal.push_words(&mut words)?;
    Ok(words)
}

/// Writes the members of a refusal that `smplan` has not.
fn write_own_members(
    writer: &mut Writer,
    words: &str,
    kind: &str,
    fields: &[Field<'_>],
) -> Result<(), AllocError>
    ensures { words.now ≡ (own_refusal kind.now fields.now).text
        → OnOk result (writer.new.tokens ≡ writer.old.tokens ++ refusal_members (own_refusal kind.now fields.now)) }
{
    write_text(writer, "kind", kind)?;
    write_each_field(writer, fields)?;
    write_text(writer, "text", words)?;
    Ok(())
}

/// Writes the members of a refusal that `smplan` has too.
fn write_shared_members(
    writer: &mut Writer,
    words: &str,
    refusal: &RefusalText<'_>,
) -> Result<(), AllocError>
    ensures { words.now ≡ refusal_words (refusal_model refusal.now)
        → OnOk result (writer.new.tokens ≡ writer.old.tokens
        ++ refusal_members (shared_refusal (refusal_model refusal.now))) }
{
    write_text(writer, "kind", refusal.kind)?;
    write_number(writer, "number", u64::from(refusal.number))?;
    write_fields(writer, &refusal.fields)?;
    write_text(writer, "text", words)?;
    Ok(())
}

/// Writes a refusal that `smplan` has not, as a member.
fn write_own(
    writer: &mut Writer,
    alloc: Global,
    kind: &str,
    fields: &[Field<'_>],
) -> Result<(), AllocError>
    ensures { OnOk result (writer.new.tokens ≡ writer.old.tokens ++ refused_member (own_refusal kind.now fields.now)) }
{
    let words = own_words(alloc, kind, fields)?;
    writer.key("refused")?;
    writer.begin_object()?;
    write_own_members(writer, words.as_str(), kind, fields)?;
    writer.end_object()?;
    Ok(())
}

/// Writes a refusal that `smplan` has too, as a member.
fn write_shared(
    writer: &mut Writer,
    alloc: Global,
    refusal: &RefusalText<'_>,
) -> Result<(), AllocError>
    ensures { OnOk result (writer.new.tokens ≡ writer.old.tokens
        ++ refused_member (shared_refusal (refusal_model refusal.now))) }
{
    let words = shared_words(alloc, refusal)?;
    writer.key("refused")?;
    writer.begin_object()?;
    write_shared_members(writer, words.as_str(), refusal)?;
    writer.end_object()?;
    Ok(())
}

/// Writes a refusal that `smplan` has not.
pub fn refuse(
    writer: &mut Writer,
    alloc: Global,
    kind: &str,
    fields: &[Field<'_>],
) -> Result<(), AllocError>
    ensures told { OnOk result (writer.new.tokens
        ≡ writer.old.tokens ++ refused_member (own_refusal kind.now fields.now)) }
    ensures refused { OnOk result (TellsRefused writer.old.tokens writer.new.tokens) }
{
    write_own(writer, alloc, kind, fields)?;
    Ok(())
}

/// Writes a refusal that `smplan` has too, in its very words.
pub fn write_refusal(
    writer: &mut Writer,
    alloc: Global,
    refusal: &RefusalText<'_>,
) -> Result<(), AllocError>
    ensures told { OnOk result (writer.new.tokens
        ≡ writer.old.tokens ++ refused_member (shared_refusal (refusal_model refusal.now))) }
    ensures refused { OnOk result (TellsRefused writer.old.tokens writer.new.tokens) }
{
    write_shared(writer, alloc, refusal)?;
    Ok(())
}
