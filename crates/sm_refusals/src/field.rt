//! What a refusal names beside its kind.
ghost use Rattle.std.specs.Prelude.{◌≡◌, ◌++◌, OnOk, string_bytes};
ghost use Rattle.std.specs.List.{flat_map};
ghost use Rattle.sm_refusals.specs.Refusals.{field_words, spaced_number};

use crate::names::{server_name, shard_name};
use sm_placement::Config;
use sm_server::{ServerId, ShardId};
use std::alloc::AllocError;

/// A part of a refusal: a label, and what it stands before.
#[derive(Clone, Copy, Debug)]
pub enum Field<'a> {
    /// The map's owner, who has no name.
    MapOwner(&'a str),
    Name(&'a str, &'a str),
    Number(&'a str, u64),
    Numbers(&'a str, &'a [u32]),
    /// A word that stands without its label in the text.
    Word(&'a str, &'a str),
}

/// The parts of a refusal.
#[derive(Clone, Copy, Debug)]
pub enum Fields<'a> {
    None,
    One(Field<'a>),
    Two(Field<'a>, Field<'a>),
    Three(Field<'a>, Field<'a>, Field<'a>),
}

/// Adds a number behind a space.
fn push_number(out: &mut String, number: u64) -> Result<(), AllocError>
    ensures { OnOk result (string_bytes out.new ≡ string_bytes out.old ++ spaced_number number) }
{
    write!(out, " {number}")
}

/// Adds numbers, each behind a space.
fn push_numbers(out: &mut String, numbers: &[u32]) -> Result<(), AllocError>
    ensures { OnOk result (string_bytes out.new ≡ string_bytes out.old ++ flat_map spaced_number numbers.now) }
{
    for number in numbers {
        push_number(out, u64::from(*number))?;
    }
    Ok(())
}

impl<'a> Field<'a> {
    ghost use Rattle.sm_refusals.specs.Refusals.{field_of, server_field, shard_field};

    /// A server by its name.
    pub fn server(config: &'a Config, server: ServerId) -> Field<'a>
        ensures { field_of result ≡ server_field config.now server }
    {
        Field::Name("server", server_name(config, server))
    }

    /// A shard by its name.
    pub fn shard(config: &'a Config, shard: ShardId) -> Field<'a>
        ensures { field_of result ≡ shard_field config.now shard }
    {
        Field::Name("shard", shard_name(config, shard))
    }

    /// Adds the field's words.
    pub fn push_words(&self, out: &mut String) -> Result<(), AllocError>
        ensures { OnOk result (string_bytes out.new ≡ string_bytes out.old ++ field_words (field_of self.now)) }
    {
        match self {
            Field::MapOwner(_) => write!(out, " map"),
            Field::Name(label, name) => write!(out, " {label} {name}"),
            Field::Number(label, number) => write!(out, " {label} {number}"),
            Field::Numbers(label, numbers) => {
                write!(out, " {label}")?;
                push_numbers(out, numbers)
            }
            Field::Word(_, word) => write!(out, " {word}"),
        }
    }
}

impl Fields<'_> {
    ghost use Rattle.sm_refusals.specs.Refusals.{fields_of};

    /// Adds the words of each.
    pub fn push_words(&self, out: &mut String) -> Result<(), AllocError>
        ensures { OnOk result (string_bytes out.new
            ≡ string_bytes out.old ++ flat_map field_words (fields_of self.now)) }
    {
        match self {
            Fields::None => Ok(()),
            Fields::One(first) => first.push_words(out),
            Fields::Two(first, second) => {
                first.push_words(out)?;
                second.push_words(out)
            }
            Fields::Three(first, second, third) => {
                first.push_words(out)?;
                second.push_words(out)?;
                third.push_words(out)
            }
        }
    }
}
