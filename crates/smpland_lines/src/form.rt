//! The forms of values in lines.
ghost use Rattle.std.specs.Prelude.{◌≡◌, ◌≢◌, IfSome};
ghost use Rattle.std.specs.List.{list_all};
ghost use Rattle.std.specs.Str.Parse.{digits_value};
ghost use Rattle.json_tree.specs.View.{view};
ghost use Rattle.sm_placement.specs.Names.{is_name_byte};
ghost use Rattle.smpland_lines.specs.Ids.{is_label, told_id};
ghost use Rattle.smpland_lines.specs.Members.{id_members};
ghost use Rattle.smpland_lines.specs.Values.{is_hexadecimal};

use crate::command::Id;
use json_tree::Tree;

/// The greatest number in a line, so that a float of 64 bits holds each.
pub const MOST_EXACT: u64 = 9_007_199_254_740_991;

/// The highest number of bytes of a label.
const MOST_LABEL: usize = 64;

/// Returns whether a byte may stand in a label.
fn is_label_byte(byte: u8) -> bool
    ensures { result ≡ is_name_byte byte }
{
    byte.is_ascii_alphanumeric() || matches!(byte, b'-' | b'.' | b'_')
}

/// Returns whether all bytes of a text may stand in a label.
fn are_label_bytes(text: &str) -> bool
    ensures { result ≡ list_all is_name_byte text.now }
{
    text.bytes().all(is_label_byte)
}

/// Returns whether a text is a label: 1 to 64 letters, digits, dots, underscores and dashes.
pub fn is_label(text: &str) -> bool
    ensures { result ≡ is_label text.now }
{
    !text.is_empty() && text.len() <= MOST_LABEL && are_label_bytes(text)
}

/// Returns what a value tells a line by, if it is a label or a whole number.
pub fn id_in<'a>(value: &Tree<'a>) -> Option<Id<'a>>
    ensures { id_members result ≡ told_id (view value.now) }
{
    match value.as_str() {
        Some(text) if is_label(text) => Some(Id::Text(text)),
        Some(_) => None,
        None => match value.as_u64() {
            Some(number) if number <= MOST_EXACT => Some(Id::Number(number)),
            _ => None,
        },
    }
}

/// Returns whether a byte is a hexadecimal digit as lines write them.
fn is_digit(byte: u8) -> bool
    ensures { result ≡ is_hexadecimal byte }
{
    matches!(byte, b'0'..=b'9' | b'a'..=b'f')
}

/// Returns the number that 1 to 16 hexadecimal digits write.
fn hexadecimal(text: &str) -> Option<u64>
    ensures { IfSome result (λ number. number ≡ digits_value 16 text.now) }
{
    let bytes = text.as_bytes();
    if bytes.len() > 16 || !bytes.iter().all(|&byte| is_digit(byte)) {
        return None;
    }
    u64::from_str_radix(text, 16).ok()
}

/// Returns the number, not 0, that 1 to 16 hexadecimal digits write.
pub fn random_bits(text: &str) -> Option<u64>
    ensures random { IfSome result (λ bits. bits ≢ 0) }
    ensures written { IfSome result (λ bits. bits ≡ digits_value 16 text.now) }
{
    match hexadecimal(text) {
        Some(0) | None => None,
        found => found,
    }
}
