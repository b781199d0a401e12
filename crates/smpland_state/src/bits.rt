//! Journals and nonces in replies: 64 bits in hexadecimal digits.
ghost use Rattle.std.specs.Prelude.{◌≡◌, ◌++◌, IfOk, OnOk, string_bytes};
ghost use Rattle.smpland_state.specs.Bits.{bits_member, hexadecimal};

use smpland_lines::{Writer, write_text};
use std::alloc::{AllocError, Global};

/// The digits of a number, in lower case.
pub fn hexadecimal(alloc: Global, bits: u64) -> Result<String, AllocError>
    ensures { IfOk result (λ text. string_bytes text ≡ hexadecimal bits) }
{
    Ok(format!(in alloc; "{bits:x}")?)
}

/// Writes such a number, as a member.
pub fn write_bits(
    writer: &mut Writer,
    alloc: Global,
    name: &str,
    bits: u64,
) -> Result<(), AllocError>
    ensures { OnOk result (writer.new.tokens ≡ writer.old.tokens ++ bits_member name.now bits) }
{
    let text = hexadecimal(alloc, bits)?;
    write_text(writer, name, text.as_str())
}
