//! Plans that do not pass the check, or do not begin.
ghost use Rattle.std.specs.Prelude.{◌≡◌};
ghost use Rattle.sm_refusals.specs.Refusals.{field_of, fields_of, refusal_model};
ghost use Rattle.sm_refusals.specs.Plans.{begin_refusal, budget_refusal, check_refusal, checked_refusal, held_refusal};
ghost use Rattle.sm_refusals.specs.Plans.{holding_refusal, key_refusal, misused_refusal, short_refusal, stream_refusal};
ghost use Rattle.sm_refusals.specs.Plans.{stuck_refusal, why_name};

use crate::field::{Field, Fields};
use crate::names::{server_name, shard_name};
use crate::refusal::RefusalText;
use sm_placement::Config;
use sm_plan_code::Why;
use sm_protocol::BeginFault;
use sm_reservation::Key;
use sm_verifier::{Fault, Holding};

/// The name of a reason.
fn why_name(why: Why) -> &'static str
    ensures { result.now ≡ why_name why }
{
    match why {
        Why::NoRight => "NoRight",
        Why::WrongState => "WrongState",
        Why::NoCrown => "NoCrown",
        Why::WrongLead => "WrongLead",
        Why::StillListed => "StillListed",
        Why::NoRoom => "NoRoom",
        Why::NoSpare => "NoSpare",
        Why::NotCarried => "NotCarried",
        Why::Twice => "Twice",
        Why::Unsettled => "Unsettled",
        Why::OverBudget => "OverBudget",
    }
}

fn checked<'a>(number: u32, kind: &'a str, fields: Fields<'a>) -> RefusalText<'a>
    ensures { refusal_model result ≡ checked_refusal number kind.now (fields_of fields.entry) }
{
    RefusalText {
        front: "refused: ",
        number,
        kind,
        fields,
    }
}

fn over_budget(streams: u64, plan: u32) -> RefusalText<'static>
    ensures { refusal_model result ≡ budget_refusal streams plan }
{
    let streams = Field::Number("streams", streams);
    let plan = Field::Number("plan", u64::from(plan));
    checked(2, "Budget", Fields::Two(streams, plan))
}

fn misused(signal: u32, posts: u32, waits: u32) -> RefusalText<'static>
    ensures { refusal_model result ≡ misused_refusal signal posts waits }
{
    let signal = Field::Number("signal", u64::from(signal));
    let posts = Field::Number("posts", u64::from(posts));
    let waits = Field::Number("waits", u64::from(waits));
    checked(3, "SignalNotOnce", Fields::Three(signal, posts, waits))
}

fn broken_off(stream: u32, at: u32, why: Why) -> RefusalText<'static>
    ensures { refusal_model result ≡ stream_refusal stream at why }
{
    let stream = Field::Number("stream", u64::from(stream));
    let at = Field::Number("at", u64::from(at));
    let why = Field::Word("why", why_name(why));
    checked(4, "Stream", Fields::Three(stream, at, why))
}

fn stuck<'a>(positions: &'a [u32]) -> RefusalText<'a>
    ensures { refusal_model result ≡ stuck_refusal positions.now }
{
    let positions = Field::Numbers("positions", positions);
    checked(5, "Stuck", Fields::One(positions))
}

/// Why a plan does not pass the check.
pub fn check_refusal<'a>(fault: &'a Fault) -> RefusalText<'a>
    ensures { refusal_model result ≡ check_refusal fault.now }
{
    match fault {
        Fault::NoMemory => checked(1, "NoMemory", Fields::None),
        Fault::Budget { streams, plan } => over_budget(*streams, *plan),
        Fault::SignalNotOnce {
            signal,
            posts,
            waits,
        } => misused(*signal, *posts, *waits),
        Fault::Stream { stream, at, why } => broken_off(*stream, *at, *why),
        Fault::Stuck { positions } => stuck(positions),
    }
}

fn held<'a>(number: u32, kind: &'a str, fields: Fields<'a>) -> RefusalText<'a>
    ensures { refusal_model result ≡ held_refusal number kind.now (fields_of fields.entry) }
{
    RefusalText {
        front: "held: ",
        number,
        kind,
        fields,
    }
}

/// A right that is declared, and is untrue or taken.
fn key_refusal<'a>(config: &'a Config, number: u32, kind: &'a str, key: Key) -> RefusalText<'a>
    ensures { refusal_model result ≡ key_refusal config.now number kind.now key }
{
    match key {
        Key::CellRight { shard, server } => {
            let right = Field::Word("right", "cell");
            let shard = Field::Word("shard", shard_name(config, shard));
            let server = Field::Word("server", server_name(config, server));
            held(number, kind, Fields::Three(right, shard, server))
        }
        Key::Crown { shard } => {
            let right = Field::Word("right", "crown");
            let shard = Field::Word("shard", shard_name(config, shard));
            held(number, kind, Fields::Two(right, shard))
        }
        Key::Room { server } => {
            let right = Field::Word("right", "room");
            let server = Field::Word("server", server_name(config, server));
            held(number, kind, Fields::Two(right, server))
        }
        Key::Spare { shard } => {
            let right = Field::Word("right", "spare");
            let shard = Field::Word("shard", shard_name(config, shard));
            held(number, kind, Fields::Two(right, shard))
        }
    }
}

/// Less that is free than all streams declare together.
fn short_refusal<'a>(
    number: u32,
    kind: &'a str,
    of: Field<'a>,
    free: u64,
    declared: u64,
) -> RefusalText<'a>
    ensures { refusal_model result ≡ short_refusal number kind.now (field_of of.entry) free declared }
{
    let free = Field::Number("free", free);
    let declared = Field::Number("declared", declared);
    held(number, kind, Fields::Three(of, free, declared))
}

/// Why a plan may not start now.
pub fn holding_refusal<'a>(config: &'a Config, holding: Holding) -> RefusalText<'a>
    ensures { refusal_model result ≡ holding_refusal config.now holding }
{
    match holding {
        Holding::Untrue { key } => key_refusal(config, 1, "Untrue", key),
        Holding::Taken { key } => key_refusal(config, 2, "Taken", key),
        Holding::ShortRoom {
            server,
            free,
            declared,
        } => short_refusal(
            3,
            "ShortRoom",
            Field::server(config, server),
            free,
            declared,
        ),
        Holding::ShortSpare {
            shard,
            free,
            declared,
        } => short_refusal(4, "ShortSpare", Field::shard(config, shard), free, declared),
        Holding::ServerDown { server } => held(
            5,
            "ServerDown",
            Fields::One(Field::server(config, server)),
        ),
    }
}

/// Why a plan that passed the check does not begin.
pub fn begin_refusal<'a>(config: &'a Config, fault: BeginFault) -> RefusalText<'a>
    ensures { refusal_model result ≡ begin_refusal config.now fault }
{
    let front = "not begun: ";
    let fields = Fields::None;
    match fault {
        BeginFault::NoMemory => RefusalText {
            front,
            number: 1,
            kind: "NoMemory",
            fields,
        },
        BeginFault::Holding(holding) => holding_refusal(config, holding),
        BeginFault::LogFull => RefusalText {
            front,
            number: 4,
            kind: "LogFull",
            fields,
        },
        BeginFault::TooManyPlans => RefusalText {
            front,
            number: 5,
            kind: "TooManyPlans",
            fields,
        },
    }
}
