//! Refusals.
ghost use Rattle.std.specs.Prelude.{◌≡◌, ◌++◌, OnOk, string_bytes};
ghost use Rattle.sm_refusals.specs.Refusals.{refusal_front};

use crate::field::Fields;
use std::alloc::AllocError;

/// A refusal: its number and kind, the words in front of them, and what is refused.
#[derive(Clone, Copy, Debug)]
pub struct RefusalText<'a> {
    pub front: &'a str,
    pub number: u32,
    pub kind: &'a str,
    pub fields: Fields<'a>,
}

impl RefusalText<'_> {
    ghost use Rattle.sm_refusals.specs.Refusals.{refusal_model, refusal_words};

    /// Adds the front, the number and the kind.
    fn push_front(&self, out: &mut String) -> Result<(), AllocError>
        ensures { OnOk result (string_bytes out.new ≡ string_bytes out.old ++ refusal_front (refusal_model self.now)) }
    {
        let (front, number, kind) = (self.front, self.number, self.kind);
        write!(out, "{front}{number} {kind}")
    }

    /// Adds the refusal in words.
    pub fn push_words(&self, out: &mut String) -> Result<(), AllocError>
        ensures { OnOk result (string_bytes out.new ≡ string_bytes out.old ++ refusal_words (refusal_model self.now)) }
    {
        self.push_front(out)?;
        self.fields.push_words(out)
    }
}
