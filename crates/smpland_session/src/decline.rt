//! The reasons why nothing comes of commands on an open journal.
ghost use Rattle.std.specs.Prelude.{◌≡◌, ◌++◌, OnOk};
ghost use Rattle.sm_driver.specs.Copies.{shard_want};
ghost use Rattle.smpland_lines.specs.Refusals.{TellsRefused, refused_member};
ghost use Rattle.smpland_session.specs.Begins.{other_plan};
ghost use Rattle.smpland_session.specs.Checks.{unknown_refusal};
ghost use Rattle.smpland_session.specs.Declines.{Declines};
ghost use Rattle.smpland_session.specs.Outcomes.{TellsDecline, above_want, ignored_word};

use sm_driver::EpochFault;
use sm_placement::Config;
use sm_plan_text::TextFault;
use sm_protocol::BeginFault;
use sm_reservation::StreamId;
use sm_server::{ServerId, ShardId};
use sm_task_controller::Denied;
use sm_verifier::Fault;
use smpland_lines::{
    BadLine, CommandMember, Field, LinePart, Writer, refuse, refuse_begin, refuse_check,
    server_name, shard_name, write_bad, write_text,
};
use smpland_state::{GivenAt, JournalState};
use std::alloc::{AllocError, Global};

/// The reason why a command tells nothing new.
#[derive(Clone, Copy, Debug, PartialEq, Eq)]
pub enum Ignored {
    /// What it tells was told before, or is of no epoch that goes on.
    Old,
    /// Nobody waits for what it tells.
    Unknown,
}

impl Ignored {
    /// The word of the reply.
    fn word(self) -> &'static str
        ensures { result.now ≡ ignored_word self }
    {
        match self {
            Ignored::Old => "old",
            Ignored::Unknown => "unknown",
        }
    }
}

/// The reason why nothing comes of a command on an open journal.
#[derive(Drop)]
pub enum Decline {
    /// The value is no plan.
    NoPlan(TextFault),
    /// The plan does not pass the check.
    Unchecked(Fault),
    /// The plan passed the check, and does not begin now.
    NotBegun(BeginFault),
    /// The plan passed the check, and calls this server, which is not known.
    Unknown(ServerId),
    /// Another plan has begun under this name.
    OtherPlan(String),
    /// No server has the name.
    UnknownServer,
    /// No shard has the name.
    UnknownShard,
    /// The restart of the server is not approved.
    Denied { server: ServerId, why: Denied },
    /// Another server's restart was approved under this name.
    OtherServer(GivenAt),
    /// The server was not settled at or above the fence.
    Unsettled(ServerId),
    /// A stream engages the server.
    Engaged { server: ServerId, stream: StreamId },
    /// The next epoch does not open.
    NoEpoch(EpochFault),
    /// More copies are told than the shard wants.
    AboveWant(ShardId),
    /// A reopening is under way.
    Reopening,
    /// The command tells nothing new.
    Ignored(Ignored),
}

/// Writes that nothing has the name that stands in this member of a line.
fn tell_unknown(writer: &mut Writer, alloc: Global, member: CommandMember) -> Result<(), AllocError>
    ensures { OnOk result (Declines writer.old.tokens writer.new.tokens) }
{
    write_bad(writer, alloc, BadLine::UnknownName(LinePart::Line, member))
}

/// Writes that a stream engages a server.
fn refuse_engaged(
    writer: &mut Writer,
    alloc: Global,
    server: &str,
    stream: StreamId,
) -> Result<(), AllocError>
    ensures { OnOk result (Declines writer.old.tokens writer.new.tokens) }
{
    let server = Field::Name("server", server);
    let plan = Field::Number("plan", u64::from(stream.plan));
    let number = Field::Number("stream", u64::from(stream.stream));
    refuse(writer, alloc, "Engaged", &[server, plan, number])
}

/// Writes why the next epoch does not open.
fn refuse_epoch(
    opened: &JournalState,
    alloc: Global,
    writer: &mut Writer,
    fault: EpochFault,
) -> Result<(), AllocError>
    ensures { OnOk result (Declines writer.old.tokens writer.new.tokens) }
{
    match fault {
        EpochFault::NotAtRest { plan } => {
            let plan = Field::Number("plan", u64::from(plan));
            refuse(writer, alloc, "Running", &[plan])
        }
        EpochFault::LastEpoch => refuse(writer, alloc, "LastEpoch", &[]),
        EpochFault::VersionsSpent { shard } => {
            let config = opened.driver.machine().config();
            let shard = Field::Name("shard", shard_name(config, shard));
            refuse(writer, alloc, "VersionsSpent", &[shard])
        }
        EpochFault::NoMemory => Err(AllocError),
    }
}

/// Writes that another plan has begun under a name.
fn refuse_other_plan(writer: &mut Writer, alloc: Global, name: &str) -> Result<(), AllocError>
    ensures { OnOk result (writer.new.tokens ≡ writer.old.tokens ++ refused_member (other_plan name.now)) }
{
    refuse(writer, alloc, "OtherPlan", &[Field::Name("name", name)])
}

/// Writes that a plan calls a server that is not known.
fn refuse_unknown(
    writer: &mut Writer,
    alloc: Global,
    config: &Config,
    server: ServerId,
) -> Result<(), AllocError>
    ensures { OnOk result (writer.new.tokens
        ≡ writer.old.tokens ++ refused_member (unknown_refusal config.now server)) }
{
    let server = Field::Name("server", server_name(config, server));
    refuse(writer, alloc, "Unknown", &[server])
}

/// The replicas that a shard wants, none if there is no such shard.
fn wanted(config: &Config, shard: ShardId) -> u32
    ensures { result ≡ shard_want config.now shard }
{
    match config.shards().get(shard.number() as usize) {
        Some(shard) => shard.want,
        None => 0,
    }
}

/// Writes that more copies are told than a shard wants.
fn refuse_above_want(
    writer: &mut Writer,
    alloc: Global,
    config: &Config,
    shard: ShardId,
) -> Result<(), AllocError>
    ensures { OnOk result (writer.new.tokens ≡ writer.old.tokens ++ refused_member (above_want config.now shard)) }
{
    let want = Field::Number("want", u64::from(wanted(config, shard)));
    let shard = Field::Name("shard", shard_name(config, shard));
    refuse(writer, alloc, "AboveWant", &[shard, want])
}

/// Writes that another server's restart was approved under the name of a command.
fn refuse_other(
    opened: &JournalState,
    alloc: Global,
    writer: &mut Writer,
    at: GivenAt,
) -> Result<(), AllocError>
    ensures { OnOk result (TellsRefused writer.old.tokens writer.new.tokens) }
{
    match opened.permits.get(at) {
        Some(given) => {
            let other = Field::Name("server", given.server.as_str());
            refuse(writer, alloc, "OtherServer", &[other])
        }
        None => refuse(writer, alloc, "OtherServer", &[]),
    }
}

impl Decline {
    /// Writes the reply.
    pub fn write(
        &self,
        opened: &JournalState,
        alloc: Global,
        writer: &mut Writer,
    ) -> Result<(), AllocError>
        ensures { OnOk result (TellsDecline opened.now.driver.machine.placement.setup self.now
            writer.old.tokens writer.new.tokens) }
    {
        let config = opened.driver.machine().config();
        match self {
            Decline::NoPlan(fault) => {
                write_bad(writer, alloc, BadLine::Within(CommandMember::Plan, *fault))
            }
            Decline::Unchecked(fault) => refuse_check(writer, alloc, fault),
            Decline::NotBegun(fault) => refuse_begin(writer, alloc, config, *fault),
            Decline::Unknown(server) => refuse_unknown(writer, alloc, config, *server),
            Decline::OtherPlan(name) => refuse_other_plan(writer, alloc, name.as_str()),
            Decline::UnknownServer => tell_unknown(writer, alloc, CommandMember::Server),
            Decline::UnknownShard => tell_unknown(writer, alloc, CommandMember::Shard),
            Decline::Denied { server, why } => opened.write_denied(alloc, writer, *server, why),
            Decline::OtherServer(at) => refuse_other(opened, alloc, writer, *at),
            Decline::Unsettled(server) => {
                let server = Field::Name("server", opened.name_of(*server));
                refuse(writer, alloc, "Unsettled", &[server])
            }
            Decline::Engaged { server, stream } => {
                refuse_engaged(writer, alloc, opened.name_of(*server), *stream)
            }
            Decline::NoEpoch(fault) => refuse_epoch(opened, alloc, writer, *fault),
            Decline::AboveWant(shard) => refuse_above_want(writer, alloc, config, *shard),
            Decline::Reopening => refuse(writer, alloc, "Reopening", &[]),
            Decline::Ignored(why) => write_text(writer, "ignored", why.word()),
        }
    }
}
