//! Refusals of openings, plans and restarts, in the words of `smplan`.
ghost use Rattle.std.specs.Prelude.{◌≡◌, ◌++◌, OnOk};
ghost use Rattle.sm_refusals.specs.Openings.{open_refusal};
ghost use Rattle.sm_refusals.specs.Plans.{begin_refusal, check_refusal};
ghost use Rattle.sm_refusals.specs.Restarts.{denied_refusal};
ghost use Rattle.smpland_lines.specs.Refusals.{TellsRefused, plan_denying, refused_member, shared_refusal};

use crate::field::write_refusal;
use crate::writer::Writer;
use sm_placement::{Config, OpenFault};
use sm_protocol::BeginFault;
use sm_refusals::{
    Fields, RefusalText, begin_refusal, check_refusal, denied_refusal, open_refusal,
};
use sm_task_controller::Denied;
use sm_verifier::Fault;
use std::alloc::{AllocError, Global};

/// Writes why a placement is not opened.
pub fn refuse_open(
    writer: &mut Writer,
    alloc: Global,
    config: &Config,
    fault: OpenFault,
) -> Result<(), AllocError>
    ensures told { OnOk result (writer.new.tokens
        ≡ writer.old.tokens ++ refused_member (shared_refusal (open_refusal config.now fault))) }
    ensures refused { OnOk result (TellsRefused writer.old.tokens writer.new.tokens) }
{
    write_refusal(writer, alloc, &open_refusal(config, fault))
}

/// Writes that a log has no room for the restarts under way.
pub fn refuse_log(writer: &mut Writer, alloc: Global) -> Result<(), AllocError>
    ensures { OnOk result (TellsRefused writer.old.tokens writer.new.tokens) }
{
    let refusal = RefusalText {
        front: "log refused: ",
        number: 2,
        kind: "LogFull",
        fields: Fields::None,
    };
    write_refusal(writer, alloc, &refusal)
}

/// Writes why a plan does not pass the check.
pub fn refuse_check(writer: &mut Writer, alloc: Global, fault: &Fault) -> Result<(), AllocError>
    ensures told { OnOk result (writer.new.tokens
        ≡ writer.old.tokens ++ refused_member (shared_refusal (check_refusal fault.now))) }
    ensures refused { OnOk result (TellsRefused writer.old.tokens writer.new.tokens) }
{
    write_refusal(writer, alloc, &check_refusal(fault))
}

/// Writes why a plan that passed the check does not begin.
pub fn refuse_begin(
    writer: &mut Writer,
    alloc: Global,
    config: &Config,
    fault: BeginFault,
) -> Result<(), AllocError>
    ensures told { OnOk result (writer.new.tokens
        ≡ writer.old.tokens ++ refused_member (shared_refusal (begin_refusal config.now fault))) }
    ensures refused { OnOk result (TellsRefused writer.old.tokens writer.new.tokens) }
{
    write_refusal(writer, alloc, &begin_refusal(config, fault))
}

/// The plan whose stream denies a restart.
fn plan_denying(why: &Denied) -> Option<u64>
    ensures { result ≡ plan_denying why.now }
{
    match why {
        Denied::Engaged { stream } => Some(u64::from(stream.plan)),
        Denied::AlreadyDown | Denied::GlobalCap | Denied::ShardCap { .. } | Denied::LogFull => None,
    }
}

/// Writes why a server may not be restarted.
pub fn refuse_restart(
    writer: &mut Writer,
    alloc: Global,
    config: &Config,
    why: Denied,
) -> Result<(), AllocError>
    ensures told { OnOk result (writer.new.tokens ≡ writer.old.tokens
        ++ refused_member (shared_refusal (denied_refusal config.now (plan_denying why) why))) }
    ensures refused { OnOk result (TellsRefused writer.old.tokens writer.new.tokens) }
{
    let plan = plan_denying(&why);
    write_refusal(writer, alloc, &denied_refusal(config, plan, why))
}
