//! A report that is made and not yet written.
ghost use Rattle.std.specs.Prelude.{◌≡◌, ◌≢◌, ◌<◌, ◌++◌, ℕ, length, take, IfOk, string_bytes};
ghost use Rattle.std.specs.Io.KnownBytes.{Appends};
ghost use Rattle.sm_report_text.specs.BadInput.{text_fault_line, too_long_line};
ghost use Rattle.sm_report_text.specs.Opening.{open_fault_line};
ghost use Rattle.sm_report_text.specs.Checking.{accepted_line, fault_line, holding_line};
ghost use Rattle.sm_report.specs.Stages.{log_refused_line};
ghost use Rattle.sm_report_text.specs.EventLines.{not_begun_line};
ghost use Rattle.sm_plan_code.specs.Plan.{IsKnownPlan};
ghost use Rattle.sm_report.specs.Planning.{made_line};
ghost use Rattle.sm_report_text.specs.PlanLines.{no_plan_line};
ghost use Rattle.sm_report.specs.Report.{bad_input, refused, done};
ghost use Rattle.sm_report.specs.Status.{code_of};

use crate::delivery::deliver;
use crate::status::Status;
use sm_placement::{Config, OpenFault};
use sm_plan_code::Plan;
use sm_plan_text::{TextFault, write_plan};
use sm_planner::NoPlan;
use sm_protocol::BeginFault;
use sm_report_text::{
    push_accepted, push_fault, push_holding, push_no_plan, push_not_begun, push_open_fault,
    push_text_fault, push_too_long, push_word,
};
use sm_verifier::{Fault, Holding};
use std::alloc::{AllocError, Global};
use std::io::Write;
use std::marker::Model;

/// A report that is made and not yet written: the bytes of its text, and how it ends once these are written.
#[derive(Drop)]
pub struct MadeReport {
    text: Vec<u8>,
    status: Status,
}

impl Model for MadeReport {
    ghost use Rattle.std.specs.Prelude.{◌<◌};
    ghost use Rattle.sm_report.specs.Status.{code_of};
    ghost use Rattle.sm_report.specs.Report.{Output};

    ghost Value = { Output };

    ghost view = { λ made. record { text = made.text.items; status = made.status } };

    ghost invariant = { λ made. code_of made.status < 3 };
}

impl MadeReport {
    /// Returns the report of an input that is no document for the command.
    pub fn bad_input(alloc: Global, fault: TextFault) -> Result<Self, AllocError>
        ensures { IfOk result (λ made. made ≡ bad_input (text_fault_line fault)) }
    {
        let mut text = String::new(alloc);
        push_text_fault(&mut text, fault)?;
        Ok(MadeReport {
            text: text.into_bytes(),
            status: Status::BadInput,
        })
    }

    /// Returns the report of an input that is longer than any document may be.
    pub fn too_long(alloc: Global) -> Result<Self, AllocError>
        ensures { IfOk result (λ made. made ≡ bad_input too_long_line) }
    {
        let mut text = String::new(alloc);
        push_too_long(&mut text)?;
        Ok(MadeReport {
            text: text.into_bytes(),
            status: Status::BadInput,
        })
    }

    /// Returns the report of a command whose placement or plan is refused.
    fn refused(text: String) -> Self
        ensures { result ≡ refused (string_bytes text) }
    {
        MadeReport {
            text: text.into_bytes(),
            status: Status::Refused,
        }
    }

    /// Returns the report of a placement that is not opened.
    pub fn unopened(alloc: Global, config: &Config, fault: OpenFault) -> Result<Self, AllocError>
        ensures { IfOk result (λ made. made ≡ refused (open_fault_line config.now fault)) }
    {
        let mut text = String::new(alloc);
        push_open_fault(&mut text, config, fault)?;
        Ok(MadeReport::refused(text))
    }

    /// Returns the report of a plan that does not pass the check, behind a front.
    pub fn unsound(alloc: Global, front: &str, fault: &Fault) -> Result<Self, AllocError>
        ensures { IfOk result (λ made. made ≡ refused (front.now ++ fault_line fault.now)) }
    {
        let mut text = String::new(alloc);
        text.push_str(front)?;
        push_fault(&mut text, fault)?;
        Ok(MadeReport::refused(text))
    }

    /// Returns the report of a log that has no room for the restarts under way.
    pub fn log_full(alloc: Global) -> Result<Self, AllocError>
        ensures { IfOk result (λ made. made ≡ refused log_refused_line) }
    {
        let mut text = String::new(alloc);
        push_word(&mut text, "log refused: 2 LogFull")?;
        Ok(MadeReport::refused(text))
    }

    /// Returns the report of a plan that does not start.
    pub fn not_begun(alloc: Global, config: &Config, fault: BeginFault) -> Result<Self, AllocError>
        ensures { IfOk result (λ made. made ≡ refused (not_begun_line config.now fault)) }
    {
        let mut text = String::new(alloc);
        push_not_begun(&mut text, config, fault)?;
        Ok(MadeReport::refused(text))
    }

    /// Returns the report of a plan that may not start.
    pub fn held(alloc: Global, config: &Config, holding: Holding) -> Result<Self, AllocError>
        ensures { IfOk result (λ made. made ≡ refused (holding_line config.now holding)) }
    {
        let mut text = String::new(alloc);
        push_holding(&mut text, config, holding)?;
        Ok(MadeReport::refused(text))
    }

    /// Returns the report of a plan that is accepted.
    pub fn accepted(alloc: Global, plan: &Plan) -> Result<Self, AllocError>
        ensures { IfOk result (λ made. made ≡ done (accepted_line plan.now)) }
    {
        let mut text = String::new(alloc);
        push_accepted(&mut text, plan)?;
        Ok(MadeReport::done(text))
    }

    /// Returns the report of a plan that was made.
    pub fn planned(alloc: Global, config: &Config, plan: &Plan) -> Result<Self, AllocError>
        requires { IsKnownPlan (length config.now.shards) (length config.now.servers) plan.now }
        ensures { IfOk result (λ made. made ≡ done (made_line config.now plan.now)) }
    {
        let mut text = write_plan(alloc, config, plan)?;
        text.push(b'\n')?;
        Ok(MadeReport {
            text,
            status: Status::Done,
        })
    }

    /// Returns the report of a plan that was not made, with the reason.
    pub fn unplanned(alloc: Global, config: &Config, why: NoPlan) -> Result<Self, AllocError>
        ensures { IfOk result (λ made. made ≡ refused (no_plan_line config.now why)) }
    {
        let mut text = String::new(alloc);
        push_no_plan(&mut text, config, why)?;
        Ok(MadeReport::refused(text))
    }

    /// Returns the report of a command that was carried out.
    pub fn done(text: String) -> Self
        ensures { result ≡ done (string_bytes text) }
    {
        MadeReport {
            text: text.into_bytes(),
            status: Status::Done,
        }
    }

    /// Writes the report, and says how it ends.
    pub fn write<W: Write>(self, writer: &mut W) -> Status
        ensures status { result ≢ Status.WriteFailed → result ≡ self.status }
        ensures made { code_of self.status < 3 }
        ensures text { result ≢ Status.WriteFailed → Appends (W.contents writer.old) (W.contents writer.new) self.text }
        ensures front { result ≡ Status.WriteFailed
            → (k : ℕ) × (k < length self.text) × Appends (W.contents writer.old) (W.contents writer.new)
            (take k self.text) }
    {
        if deliver(writer, self.text.as_slice()) {
            self.status
        } else {
            Status::WriteFailed
        }
    }
}
