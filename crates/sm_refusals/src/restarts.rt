//! Restarts that are denied.
ghost use Rattle.std.specs.Prelude.{◌≡◌};
ghost use Rattle.sm_refusals.specs.Refusals.{fields_of, refusal_model};
ghost use Rattle.sm_refusals.specs.Restarts.{denied_as, denied_refusal, stream_fields};

use crate::field::{Field, Fields};
use crate::refusal::RefusalText;
use sm_placement::Config;
use sm_task_controller::Denied;

fn denied<'a>(number: u32, kind: &'a str, fields: Fields<'a>) -> RefusalText<'a>
    ensures { refusal_model result ≡ denied_as number kind.now (fields_of fields.entry) }
{
    RefusalText {
        front: "denied ",
        number,
        kind,
        fields,
    }
}

/// A stream, behind its plan if that is named.
fn stream_fields<'a>(plan: Option<u64>, stream: u32) -> Fields<'a>
    ensures { fields_of result ≡ stream_fields plan stream }
{
    let stream = Field::Number("stream", u64::from(stream));
    match plan {
        Some(plan) => Fields::Two(Field::Number("plan", plan), stream),
        None => Fields::One(stream),
    }
}

/// Why a server may not be restarted. The plan of a stream is named so, or not at all.
pub fn denied_refusal<'a>(config: &'a Config, plan: Option<u64>, why: Denied) -> RefusalText<'a>
    ensures { refusal_model result ≡ denied_refusal config.now plan why }
{
    match why {
        Denied::AlreadyDown => denied(1, "AlreadyDown", Fields::None),
        Denied::Engaged { stream } => denied(2, "Engaged", stream_fields(plan, stream.stream)),
        Denied::GlobalCap => denied(3, "GlobalCap", Fields::None),
        Denied::ShardCap { shard } => denied(
            4,
            "ShardCap",
            Fields::One(Field::shard(config, shard)),
        ),
        Denied::LogFull => denied(5, "LogFull", Fields::None),
    }
}
