//! The line of a placement that is not opened.
ghost use Rattle.std.specs.Prelude.{◌≡◌, ◌++◌, OnOk, string_bytes};
ghost use Rattle.sm_report_text.specs.Opening.{open_fault_line};

use crate::refusal_line::push_refusal;
use sm_placement::{Config, OpenFault};
use sm_refusals::open_refusal;
use std::alloc::AllocError;

/// Adds the line that says why a placement is not opened.
pub fn push_open_fault(
    out: &mut String,
    config: &Config,
    fault: OpenFault,
) -> Result<(), AllocError>
    ensures { OnOk result (string_bytes out.new ≡ string_bytes out.old ++ open_fault_line config.now fault) }
{
    push_refusal(out, &open_refusal(config, fault))
}
