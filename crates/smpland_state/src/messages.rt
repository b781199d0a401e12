//! The orders and publications of streams as they go out.
ghost use Rattle.std.specs.Prelude.{◌≡◌, ◌<◌, ◌++◌, ◌∷◌, [], ℕ, IfOk, OnOk, if◌then◌else◌, slice_get, true};
ghost use Rattle.std.specs.List.{flat_map};
ghost use Rattle.sm_protocol.specs.State.{is_begun, stream_count, stream_id};
ghost use Rattle.sm_machine.specs.State.{state_of};
ghost use Rattle.sm_driver.specs.Driver.{record_of};
ghost use Rattle.sm_driver.specs.Orders.{awaiting_of};
ghost use Rattle.smpland_state.specs.Messages.{stream_message, orders_member};
ghost use Rattle.smpland_state.specs.Replies.{ended_member, ended_text, gone_on, plan_told, sinces_of, stands_else};

use sm_driver::Driver;
use sm_machine::Machine;
use sm_reservation::StreamId;
use smpland_lines::Writer;
use std::alloc::{AllocError, Global};

/// Writes orders and publications of a driver.
#[derive(Clone, Copy)]
pub struct Messages<'d> {
    pub driver: &'d Driver,
    pub alloc: Global,
}

/// The number of streams of a plan that has begun: 0 if it has not.
pub fn stream_count(machine: &Machine, plan: u32) -> u32
    ensures count { result ≡ stream_count (state_of machine.now) plan }
    ensures begun { (i : ℕ) → i < result → is_begun (state_of machine.now) (stream_id plan i) ≡ true }
{
    if u64::from(plan) >= machine.plan_count() {
        return 0;
    }
    machine.plan(plan).streams().len() as u32
}

/// The log's length when the stream with a number came to where it stood, if it stood anywhere.
fn since_at(sinces: &[u32], stream: u32) -> Option<u32>
    ensures { result ≡ slice_get sinces.now stream }
{
    sinces.get(stream as usize).copied()
}

/// Whether a stream does not stand where it stood since then, if it stood anywhere.
fn stands_else(machine: &Machine, id: StreamId, since: Option<u32>) -> bool
    requires { is_begun (state_of machine.now) id ≡ true }
    ensures { result ≡ stands_else (state_of machine.now) id since }
{
    match since {
        Some(since) => since != machine.since(id),
        None => true,
    }
}

/// Adds a stream that has begun to a list, if it does not stand where it stood since then.
fn push_if_new(
    machine: &Machine,
    id: StreamId,
    since: Option<u32>,
    ids: &mut Vec<StreamId>,
) -> Result<(), AllocError>
    requires { is_begun (state_of machine.now) id ≡ true }
    ensures { OnOk result (ids.new.items ≡ ids.old.items
        ++ (if stands_else (state_of machine.now) id since then id ∷ [] else [])) }
{
    if stands_else(machine, id, since) {
        ids.push(id)?;
    }
    Ok(())
}

impl Messages<'_> {
    /// The log's lengths when the streams of a plan came to where they stand: none if the plan has not begun.
    pub fn sinces(&self, plan: u32) -> Result<Vec<u32>, AllocError>
        ensures { IfOk result (λ sinces. sinces.items ≡ sinces_of (record_of self.now.driver.now) plan) }
    {
        let machine = self.driver.machine();
        let mut sinces = Vec::new(self.alloc);
        for stream in 0..stream_count(machine, plan) {
            sinces.push(machine.since(StreamId { plan, stream }))?;
        }
        Ok(sinces)
    }

    /// The streams of a plan that have come to where they stand since they stood so: all of them, where nothing is
    /// known.
    pub fn gone_on(&self, plan: u32, sinces: &[u32]) -> Result<Vec<StreamId>, AllocError>
        ensures { IfOk result (λ ids. ids.items ≡ gone_on (record_of self.now.driver.now) plan sinces.now) }
    {
        let machine = self.driver.machine();
        let mut ids = Vec::new(self.alloc);
        for stream in 0..stream_count(machine, plan) {
            let since = since_at(sinces, stream);
            push_if_new(machine, StreamId { plan, stream }, since, &mut ids)?;
        }
        Ok(ids)
    }

    /// Writes the messages of streams.
    fn write_each(&self, writer: &mut Writer, ids: &[StreamId]) -> Result<(), AllocError>
        ensures { OnOk result (writer.new.tokens ≡ writer.old.tokens
            ++ flat_map (stream_message self.now.driver.now) ids.now) }
    {
        for id in ids {
            self.write_of(writer, *id)?;
        }
        Ok(())
    }

    /// Writes the member `orders`: the messages of streams.
    pub fn write_orders(&self, writer: &mut Writer, ids: &[StreamId]) -> Result<(), AllocError>
        ensures { OnOk result (writer.new.tokens ≡ writer.old.tokens ++ orders_member self.now.driver.now ids.now) }
    {
        writer.key("orders")?;
        writer.begin_array()?;
        self.write_each(writer, ids)?;
        writer.end_array()?;
        Ok(())
    }

    /// Writes the member `orders`: all messages, by plan, then by stream.
    pub fn write_all(&self, writer: &mut Writer) -> Result<(), AllocError>
        ensures { OnOk result (writer.new.tokens ≡ writer.old.tokens
            ++ orders_member self.now.driver.now (awaiting_of (record_of self.now.driver.now))) }
    {
        let mut waiting = Vec::new(self.alloc);
        self.driver.awaiting(&mut waiting)?;
        self.write_orders(writer, waiting.as_slice())
    }

    /// Writes the number of a plan, if it has ended.
    fn write_if_ended(&self, writer: &mut Writer, plan: u32) -> Result<(), AllocError>
        ensures { OnOk result (writer.new.tokens ≡ writer.old.tokens
            ++ ended_text (record_of self.now.driver.now) plan) }
    {
        if !self.driver.machine().unfinished().contains(&plan) {
            writer.u64(u64::from(plan))?;
        }
        Ok(())
    }

    /// Writes, as a member, the plan if it has ended.
    fn write_ended(&self, writer: &mut Writer, plan: u32) -> Result<(), AllocError>
        ensures { OnOk result (writer.new.tokens ≡ writer.old.tokens
            ++ ended_member (record_of self.now.driver.now) plan) }
    {
        writer.key("ended")?;
        writer.begin_array()?;
        self.write_if_ended(writer, plan)?;
        writer.end_array()?;
        Ok(())
    }

    /// Writes the messages of these streams of a plan, and whether the plan has ended.
    pub fn write_plan(
        &self,
        writer: &mut Writer,
        plan: u32,
        ids: &[StreamId],
    ) -> Result<(), AllocError>
        ensures { OnOk result (writer.new.tokens ≡ writer.old.tokens ++ plan_told self.now.driver.now plan ids.now) }
    {
        self.write_orders(writer, ids)?;
        self.write_ended(writer, plan)?;
        Ok(())
    }
}
