//! Copies of JSON from a text.
ghost use Rattle.std.specs.Prelude.{◌≡◌, ◌++◌, OnOk};
ghost use Rattle.std.specs.Str.{IsUtf8};
ghost use Rattle.json.specs.Lex.{tokens};
ghost use Rattle.smpland_state.specs.Copies.{good_tokens};

use json::{Reader, Scratch, Token};
use smpland_lines::Writer;
use std::alloc::{AllocError, Global};

/// Writes the tokens that a reader has, up to the first that is bad.
fn copy_tokens(writer: &mut Writer, reader: &mut Reader<'_>) -> Result<(), AllocError>
    ensures { OnOk result (writer.new.tokens ≡ writer.old.tokens ++ good_tokens reader.old) }
{
    'tokens: while let Some(token) = reader.next() {
        if let Token::Bad = token {
            return Ok(());
        }
        writer.token(token)?;
    }
    Ok(())
}

/// Writes the tokens of a text of JSON, up to the first that is bad.
pub fn copy_text(alloc: Global, writer: &mut Writer, text: &[u8]) -> Result<(), AllocError>
    ensures { OnOk result (IsUtf8 text.now → writer.new.tokens ≡ writer.old.tokens ++ good_tokens (tokens text.now)) }
{
    let mut scratch = Scratch::new(alloc);
    let Ok(text) = str::from_utf8(text) else {
        return Ok(());
    };
    let mut reader = Reader::new(text, &mut scratch)?;
    copy_tokens(writer, &mut reader)
}
