//! Plans as JSON texts.
ghost use Rattle.std.specs.Prelude.{◌≡◌, ◌<◌, ◌++◌, ◌∷◌, ℕ, Bool, List, length, map, All, IfOk, OnOk, Ok};
ghost use Rattle.std.specs.Prelude.{if◌then◌else◌};
ghost use Rattle.json.specs.Token.{key};
ghost use Rattle.serde_json.specs.Data.{object};
ghost use Rattle.sm_plan_text.specs.Words.{Data, Member, Setup, IsSetup, names_of_servers, names_of_shards, PlanModel};
ghost use Rattle.sm_plan_text.specs.Words.{IsPlan, IsKnownPlan, IsKnownStream, IsKnownInstr, IsKnownParcel};
ghost use Rattle.sm_plan_text.specs.Words.{IsKnownCrown, IsKnownCellRight, read_plan};
ghost use Rattle.sm_plan_text.specs.PlanTexts.{name_data, whole_data, scalar_data, scalars_said, tokens_of, list_data};
ghost use Rattle.sm_plan_text.specs.PlanTexts.{role_text, plain_text, lead_text, right_data, crown_data, room_data};
ghost use Rattle.sm_plan_text.specs.PlanTexts.{spare_data, parcel_data, prepare_data, signal_data, instr_data};
ghost use Rattle.sm_plan_text.specs.PlanTexts.{stream_data, has_retries, plan_data, plan_text, IsReadBack};

use self::Scalar::{Null, Number, Text};
use sm_placement::{Config, Lead};
use sm_plan_code::{Instr, Plan, Stream};
use sm_reservation::{CellRight, Crown, Parcel, PlainCell, Room, Spare};
use sm_server::{Role, ServerId, ShardId};
use std::alloc::{AllocError, Global};

/// A member's value that is neither a list nor an object.
#[derive(Clone, Copy)]
enum Scalar<'a> {
    Null,
    Text(&'a str),
    Number(u64),
}

/// Writes a value that is neither a list nor an object.
fn write_scalar(value: Scalar<'_>, out: &mut json::Writer) -> Result<(), AllocError>
    ensures tokens { OnOk result (out.new.tokens ≡ out.old.tokens ++ tokens_of (scalar_data value.entry)) }
    ensures before { out.new.before ≡ out.old.before }
{
    match value {
        Null => out.null(),
        Text(text) => out.string(text),
        Number(number) => out.u64(number),
    }
}

/// Writes an object of members that are neither lists nor objects, in this order.
fn write_object(members: &[(&str, Scalar<'_>)], out: &mut json::Writer) -> Result<(), AllocError>
    ensures tokens { OnOk result (out.new.tokens ≡ out.old.tokens ++ tokens_of (object (scalars_said members.now))) }
    ensures before { out.new.before ≡ out.old.before }
{
    out.begin_object()?;
    for member in members {
        out.key(member.0)?;
        write_scalar(member.1, out)?;
    }
    out.end_object()
}

/// Writes a member that is a whole number.
fn write_count(name: &str, count: u32, out: &mut json::Writer) -> Result<(), AllocError>
    ensures tokens { OnOk result (out.new.tokens ≡ out.old.tokens ++ key name.now ∷ tokens_of (whole_data count)) }
    ensures before { out.new.before ≡ out.old.before }
{
    out.key(name)?;
    out.u64(u64::from(count))
}

/// Writes an instruction of a signal.
fn write_signal(word: &str, signal: u32, out: &mut json::Writer) -> Result<(), AllocError>
    ensures tokens { OnOk result (out.new.tokens ≡ out.old.tokens ++ tokens_of (signal_data word.now signal)) }
    ensures before { out.new.before ≡ out.old.before }
{
    let signal = ("signal", Number(u64::from(signal)));
    write_object(&[("do", Text(word)), signal], out)
}

/// Writes over the names of a configuration, with the retries of streams or without.
#[derive(Clone, Copy)]
struct Writer<'c> {
    config: &'c Config,
    retries: bool,
}

impl<'c> Writer<'c> {
    #[tactic(auto, using(crate::proofs::Written::shard_name_at))]
    fn shard(&self, shard: ShardId) -> Scalar<'c>
        requires { shard < length self.now.config.now.shards }
        ensures { scalar_data result ≡ name_data (names_of_shards self.now.config.now) shard }
    {
        Text(self.config.shard(shard).name.as_str())
    }

    #[tactic(auto, using(crate::proofs::Written::server_name_at))]
    fn server(&self, server: ServerId) -> Scalar<'c>
        requires { server < length self.now.config.now.servers }
        ensures { scalar_data result ≡ name_data (names_of_servers self.now.config.now) server }
    {
        Text(self.config.server(server).name.as_str())
    }

    /// Writes a step of a handover for a shard at a server, with the other server.
    fn prepare(
        &self,
        word: &str,
        shard: ShardId,
        server: ServerId,
        other: ServerId,
        out: &mut json::Writer,
    ) -> Result<(), AllocError>
        requires shard { shard < length self.now.config.now.shards }
        requires server { server < length self.now.config.now.servers }
        requires other { other < length self.now.config.now.servers }
        ensures tokens { OnOk result (out.new.tokens ≡ out.old.tokens
            ++ tokens_of (prepare_data (names_of_shards self.now.config.now) (names_of_servers self.now.config.now)
            word.now shard server other)) }
        ensures before { out.new.before ≡ out.old.before }
    {
        let other = ("other", self.server(other));
        let server = ("server", self.server(server));
        let shard = ("shard", self.shard(shard));
        write_object(&[("do", Text(word)), other, server, shard], out)
    }

    /// Writes a list.
    fn list<T: PlanPart>(&self, items: &[T], out: &mut json::Writer) -> Result<(), AllocError>
        requires { All (T.fits (length self.now.config.now.shards) (length self.now.config.now.servers)) items.now }
        ensures tokens { OnOk result (out.new.tokens ≡ out.old.tokens
            ++ tokens_of (list_data (map (T.written_as (names_of_shards self.now.config.now)
            (names_of_servers self.now.config.now) self.now.retries) items.now))) }
        ensures before { out.new.before ≡ out.old.before }
    {
        out.begin_array()?;
        for item in items {
            item.write(self, out)?;
        }
        out.end_array()
    }

    /// Writes a member that is a list.
    fn member<T: PlanPart>(
        &self,
        name: &str,
        items: &[T],
        out: &mut json::Writer,
    ) -> Result<(), AllocError>
        requires { All (T.fits (length self.now.config.now.shards) (length self.now.config.now.servers)) items.now }
        ensures tokens { OnOk result (out.new.tokens ≡ out.old.tokens
            ++ key name.now ∷ tokens_of (list_data (map (T.written_as (names_of_shards self.now.config.now)
            (names_of_servers self.now.config.now) self.now.retries) items.now))) }
        ensures before { out.new.before ≡ out.old.before }
    {
        out.key(name)?;
        self.list(items, out)
    }
}

fn role_word(role: Role) -> &'static str
    ensures { result.now ≡ role_text role }
{
    match role {
        Role::Primary => "primary",
        Role::Secondary => "secondary",
    }
}

fn state_word(state: PlainCell) -> &'static str
    ensures { result.now ≡ plain_text state }
{
    match state {
        PlainCell::Absent => "absent",
        PlainCell::Secondary => "secondary",
    }
}

fn lead_word(lead: Lead) -> &'static str
    ensures { result.now ≡ lead_text lead }
{
    match lead {
        Lead::Gone => "gone",
        Lead::At(_) => "at",
        Lead::Ready(..) => "ready",
        Lead::Handing(..) => "handing",
        Lead::Handed(..) => "handed",
    }
}

/// A part of a plan, which is written over the names of a configuration.
trait PlanPart {
    /// The parts whose ids are below these numbers of shards and servers.
    ghost fits: { ℕ → ℕ → Self → Type 0 };

    /// The data that it is written as over the names of the shards and of the servers, with retries or without.
    ghost written_as: { List (List ℕ) → List (List ℕ) → Bool → Self → Data };

    fn write(&self, writer: &Writer<'_>, out: &mut json::Writer) -> Result<(), AllocError>
        requires { fits (length writer.now.config.now.shards) (length writer.now.config.now.servers) self.now }
        ensures tokens { OnOk result (out.new.tokens ≡ out.old.tokens
            ++ tokens_of (written_as (names_of_shards writer.now.config.now)
            (names_of_servers writer.now.config.now) writer.now.retries self.now)) }
        ensures before { out.new.before ≡ out.old.before };
}

impl PlanPart for CellRight {
    ghost fits = { IsKnownCellRight };

    ghost written_as = { λ shards servers retries right. right_data shards servers right };

    fn write(&self, writer: &Writer<'_>, out: &mut json::Writer) -> Result<(), AllocError> {
        let (server, shard) = (writer.server(self.server), writer.shard(self.shard));
        let state = Text(state_word(self.state));
        write_object(
            &[("server", server), ("shard", shard), ("state", state)],
            out,
        )
    }
}

impl PlanPart for Crown {
    ghost fits = { IsKnownCrown };

    ghost written_as = { λ shards servers retries crown. crown_data shards servers crown };

    fn write(&self, writer: &Writer<'_>, out: &mut json::Writer) -> Result<(), AllocError> {
        let lead = ("lead", Text(lead_word(self.lead)));
        let listed = match self.listed {
            Some(server) => ("listed", writer.server(server)),
            None => ("listed", Null),
        };
        let shard = ("shard", writer.shard(self.shard));
        match self.lead {
            Lead::Gone => write_object(&[lead, listed, shard], out),
            Lead::At(server) => {
                let server = ("server", writer.server(server));
                write_object(&[lead, listed, server, shard], out)
            }
            Lead::Ready(from, to) | Lead::Handing(from, to) | Lead::Handed(from, to) => {
                let (from, to) = (("from", writer.server(from)), ("to", writer.server(to)));
                write_object(&[from, lead, listed, shard, to], out)
            }
        }
    }
}

impl PlanPart for Room {
    ghost fits = { λ shards servers room. room.server < servers };

    ghost written_as = { λ shards servers retries room. room_data servers room };

    fn write(&self, writer: &Writer<'_>, out: &mut json::Writer) -> Result<(), AllocError> {
        let server = writer.server(self.server);
        write_object(&[("amount", Number(self.amount)), ("server", server)], out)
    }
}

impl PlanPart for Spare {
    ghost fits = { λ shards servers spare. spare.shard < shards };

    ghost written_as = { λ shards servers retries spare. spare_data shards spare };

    fn write(&self, writer: &Writer<'_>, out: &mut json::Writer) -> Result<(), AllocError> {
        let shard = writer.shard(self.shard);
        write_object(&[("amount", Number(self.amount)), ("shard", shard)], out)
    }
}

impl PlanPart for Parcel {
    ghost fits = { IsKnownParcel };

    ghost written_as = { λ shards servers retries parcel. parcel_data shards servers parcel };

    fn write(&self, writer: &Writer<'_>, out: &mut json::Writer) -> Result<(), AllocError> {
        out.begin_object()?;
        writer.member("cells", self.cells(), out)?;
        writer.member("crowns", self.crowns(), out)?;
        writer.member("room", self.room(), out)?;
        writer.member("spare", self.spare(), out)?;
        out.end_object()
    }
}

impl PlanPart for Instr {
    ghost fits = { IsKnownInstr };

    ghost written_as = { λ shards servers retries instr. instr_data shards servers instr };

    fn write(&self, writer: &Writer<'_>, out: &mut json::Writer) -> Result<(), AllocError> {
        match *self {
            Instr::PrepareAdd {
                shard,
                server,
                owner,
            } => writer.prepare("prepare_add", shard, server, owner, out),
            Instr::PrepareDrop {
                shard,
                server,
                new_owner,
            } => writer.prepare("prepare_drop", shard, server, new_owner, out),
            Instr::Add {
                shard,
                server,
                role,
            } => {
                let (word, role) = (("do", Text("add")), ("role", Text(role_word(role))));
                let server = ("server", writer.server(server));
                write_object(&[word, role, server, ("shard", writer.shard(shard))], out)
            }
            Instr::Drop { shard, server } => {
                let server = ("server", writer.server(server));
                let shard = ("shard", writer.shard(shard));
                write_object(&[("do", Text("drop")), server, shard], out)
            }
            Instr::Change { shard, server, to } => {
                let server = ("server", writer.server(server));
                let shard = ("shard", writer.shard(shard));
                let to = ("to", Text(role_word(to)));
                write_object(&[("do", Text("change")), server, shard, to], out)
            }
            Instr::Publish { shard } => {
                let shard = ("shard", writer.shard(shard));
                write_object(&[("do", Text("publish")), shard], out)
            }
            Instr::Unlist { shard } => {
                let shard = ("shard", writer.shard(shard));
                write_object(&[("do", Text("unlist")), shard], out)
            }
            Instr::Signal { signal } => write_signal("signal", signal, out),
            Instr::Wait { signal } => write_signal("wait", signal, out),
        }
    }
}

impl PlanPart for Stream {
    ghost fits = { IsKnownStream };

    ghost written_as = { stream_data };

    fn write(&self, writer: &Writer<'_>, out: &mut json::Writer) -> Result<(), AllocError> {
        out.begin_object()?;
        write_count("budget", self.budget, out)?;
        writer.member("code", self.code.as_slice(), out)?;
        out.key("holds")?;
        self.holds.write(writer, out)?;
        if !writer.retries {
            return out.end_object();
        }
        write_count("retries", self.retries, out)?;
        out.end_object()
    }
}

/// Tells whether a stream of the plan has retries.
fn has_retries(plan: &Plan) -> bool
    ensures { result ≡ has_retries plan.now }
{
    plan.streams().iter().any(|stream| stream.retries > 0)
}

/// Returns the format that is written, with retries or without.
fn format_of(retries: bool) -> u32
    ensures { result ≡ if retries then 2 else 1 }
{
    if retries { 2 } else { 1 }
}

/// Writes a plan as an object.
fn write_members(config: &Config, plan: &Plan, out: &mut json::Writer) -> Result<(), AllocError>
    requires { IsKnownPlan (length config.now.shards) (length config.now.servers) plan.now }
    ensures tokens { OnOk result (out.new.tokens ≡ out.old.tokens
        ++ tokens_of (plan_data (names_of_shards config.now) (names_of_servers config.now) plan.now)) }
    ensures before { out.new.before ≡ out.old.before }
{
    let retries = has_retries(plan);
    let writer = Writer { config, retries };
    out.begin_object()?;
    write_count("budget", plan.budget(), out)?;
    write_count("format", format_of(retries), out)?;
    writer.member("signals", plan.signals(), out)?;
    writer.member("streams", plan.streams(), out)?;
    out.end_object()
}

/// States that the text of a plan is read as that plan.
fn read_back(config: &Config, plan: &Plan)
    requires { IsKnownPlan (length config.now.shards) (length config.now.servers) plan.now }
    ensures { read_plan (names_of_shards config.now) (names_of_servers config.now)
        (plan_text (names_of_shards config.now) (names_of_servers config.now) plan.now) ≡ Ok plan.now }
{
    let _shards = config.shard_count();
    let _budget = plan.budget();
}

/// Writes a plan as compact JSON over the names of a configuration, without a line feed. Each object has all its
/// members in the order of their bytes. A plan without retries is of format 1, and one with retries of format 2.
pub fn write_plan(alloc: Global, config: &Config, plan: &Plan) -> Result<Vec<u8>, AllocError>
    requires { IsKnownPlan (length config.now.shards) (length config.now.servers) plan.now }
    ensures text { IfOk result (λ text. text.items
        ≡ plan_text (names_of_shards config.now) (names_of_servers config.now) plan.now) }
    ensures reads_back { IfOk result (λ text. read_plan (names_of_shards config.now)
        (names_of_servers config.now) text.items ≡ Ok plan.now) }
{
    read_back(config, plan);
    let mut out = json::Writer::new(Vec::new(alloc));
    write_members(config, plan, &mut out)?;
    Ok(out.into_inner())
}

/// States that what is written for a plan is read as that plan: no fault is found in it, in whatever member it stands.
pub fn written_plan_is_read()
    ensures { (parent : Member) (setup : Setup) (p : PlanModel) → IsSetup setup → IsPlan p
        → IsKnownPlan (length setup.shards) (length setup.servers) p
        → IsReadBack parent (names_of_shards setup) (names_of_servers setup) p }
{}

/// States that the text of a plan is read as that plan: its bytes, over the names of a configuration.
pub fn plan_text_is_read()
    ensures { (setup : Setup) (p : PlanModel) → IsSetup setup → IsPlan p
        → IsKnownPlan (length setup.shards) (length setup.servers) p
        → read_plan (names_of_shards setup) (names_of_servers setup)
        (plan_text (names_of_shards setup) (names_of_servers setup) p) ≡ Ok p }
{}
