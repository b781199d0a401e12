//! The line of a refusal.
ghost use Rattle.std.specs.Prelude.{◌≡◌, ◌++◌, OnOk, string_bytes};
ghost use Rattle.sm_refusals.specs.Refusals.{refusal_model};
ghost use Rattle.sm_report_text.specs.Lines.{refusal_line};

use sm_refusals::RefusalText;
use std::alloc::AllocError;

/// Adds the line of a refusal.
pub fn push_refusal(out: &mut String, refusal: &RefusalText<'_>) -> Result<(), AllocError>
    ensures { OnOk result (string_bytes out.new ≡ string_bytes out.old ++ refusal_line (refusal_model refusal.now)) }
{
    refusal.push_words(out)?;
    writeln!(out)
}
