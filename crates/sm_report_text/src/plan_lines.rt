//! The line that says why there is no plan.
ghost use Rattle.std.specs.Prelude.{◌≡◌, ◌++◌, OnOk, string_bytes};
ghost use Rattle.sm_report_text.specs.PlanLines.{no_plan_line};

use crate::refusal_line::push_refusal;
use sm_placement::Config;
use sm_planner::NoPlan;
use std::alloc::AllocError;

/// Adds the line that says why there is no plan.
pub fn push_no_plan(out: &mut String, config: &Config, why: NoPlan) -> Result<(), AllocError>
    ensures { OnOk result (string_bytes out.new ≡ string_bytes out.old ++ no_plan_line config.now why) }
{
    push_refusal(out, &why.refusal(config))
}
