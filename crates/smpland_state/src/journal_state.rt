//! A journal that is open.
ghost use Rattle.std.specs.Prelude.{◌≡◌, ◌++◌, [], IfOk, OnOk, length, min};
ghost use Rattle.sm_driver.specs.Driver.{record_of};
ghost use Rattle.smpland_lines.specs.Members.{list_member};
ghost use Rattle.smpland_state.specs.Replies.{moved_members, plan_members};
ghost use Rattle.smpland_state.specs.Begun.{begun_again_members, begun_member, begun_members, begun_plan};
ghost use Rattle.smpland_state.specs.Begun.{nothing_new, plan_members_again, size_of_plan};
ghost use Rattle.smpland_state.specs.Carryovers.{CarriesOver};

use crate::begun_plan::BegunPlan;
use crate::given_permits::{GivenAt, GivenPermits};
use crate::history::History;
use crate::messages::Messages;
use crate::names::Names;
use crate::restored::{LastRestore, last_restores, told_last};
use crate::streams::calls_of;
use sm_driver::Driver;
use sm_reservation::StreamId;
use smpland_lines::{Writer, write_number};
use std::alloc::{AllocError, Global};

/// A journal that is open: its driver, and what was given names.
pub struct JournalState {
    pub driver: Driver,
    /// The number of the log's places.
    pub log_room: u32,
    /// The plans that have begun, each under its name.
    pub plans: Names<BegunPlan>,
    /// The approvals of restarts, each under its name.
    pub approvals: Names<GivenAt>,
    pub permits: GivenPermits,
    pub history: History,
    /// The restores of earlier epochs, of each server the last one.
    pub told: Vec<LastRestore>,
}

/// The parts that are kept of a journal that is opened anew.
#[derive(Drop)]
struct Carryover {
    plans: Names<BegunPlan>,
    approvals: Names<GivenAt>,
    permits: GivenPermits,
    told: Vec<LastRestore>,
}

/// Writes a member that is a list of nothing.
pub fn write_no_list(writer: &mut Writer, name: &str) -> Result<(), AllocError>
    ensures { OnOk result (writer.new.tokens ≡ writer.old.tokens ++ list_member name.now []) }
{
    writer.key(name)?;
    writer.begin_array()?;
    writer.end_array()?;
    Ok(())
}

/// Writes, as members of a reply, that no orders came up and no plan has ended.
fn write_nothing_new(writer: &mut Writer) -> Result<(), AllocError>
    ensures { OnOk result (writer.new.tokens ≡ writer.old.tokens ++ nothing_new) }
{
    write_no_list(writer, "orders")?;
    write_no_list(writer, "ended")?;
    Ok(())
}

impl JournalState {
    /// A journal that opens with a driver at a place: nothing was given a name yet.
    pub fn new(
        alloc: Global,
        driver: Driver,
        log_room: u32,
        place: u64,
    ) -> Result<JournalState, AllocError>
        ensures { IfOk result (λ opened. opened.driver ≡ driver) }
    {
        let kept = Carryover {
            plans: Names::new(alloc),
            approvals: Names::new(alloc),
            permits: GivenPermits::new(alloc, driver.epoch()),
            told: Vec::new(alloc),
        };
        JournalState::with_carryover(alloc, driver, log_room, kept, place)
    }

    /// A journal that is opened anew with a driver at a place. The names of the epoch before are still known.
    pub fn reopened(
        alloc: Global,
        before: Option<JournalState>,
        driver: Driver,
        log_room: u32,
        place: u64,
    ) -> Result<JournalState, AllocError>
        ensures { IfOk result (λ opened. opened.driver ≡ driver) }
    {
        let Some(before) = before else {
            return JournalState::new(alloc, driver, log_room, place);
        };
        let Ok(mut kept) = before.into_carryover(alloc) else {
            let _ = driver.give_up();
            return Err(AllocError);
        };
        kept.plans.begin_epoch();
        kept.approvals.begin_epoch();
        kept.permits.begin_epoch(driver.epoch());
        JournalState::with_carryover(alloc, driver, log_room, kept, place)
    }

    /// A journal that opens with a driver at a place, with what is kept of it.
    fn with_carryover(
        alloc: Global,
        driver: Driver,
        log_room: u32,
        kept: Carryover,
        place: u64,
    ) -> Result<JournalState, AllocError>
        ensures { IfOk result (λ opened. opened.driver ≡ driver) }
    {
        let shards = driver.machine().config().shard_count();
        let Ok(history) = History::new(alloc, shards, place) else {
            let _ = driver.give_up();
            return Err(AllocError);
        };
        let Carryover {
            plans,
            approvals,
            permits,
            told,
        } = kept;
        Ok(JournalState {
            driver,
            log_room,
            plans,
            approvals,
            permits,
            history,
            told,
        })
    }

    /// Ends the driver, and returns what is kept when the journal is opened anew.
    fn into_carryover(self, alloc: Global) -> Result<Carryover, AllocError>
        ensures { IfOk result (CarriesOver self) }
    {
        let told_now = last_restores(&self, alloc);
        let JournalState {
            driver,
            log_room: _,
            plans,
            approvals,
            permits,
            history: _history,
            told,
        } = self;
        let _ = driver.give_up();
        let told = told_last(told_now?, told)?;
        Ok(Carryover {
            plans,
            approvals,
            permits,
            told,
        })
    }

    /// Turns to the next epoch, which the driver has opened.
    pub fn begin_epoch(&mut self)
        ensures { self.new.driver ≡ self.old.driver }
    {
        self.plans.begin_epoch();
        self.approvals.begin_epoch();
        self.permits.begin_epoch(self.driver.epoch());
        self.history.begin_epoch();
    }

    /// Ends the driver.
    pub fn close(self) {
        let JournalState {
            driver,
            log_room: _,
            plans: _plans,
            approvals: _approvals,
            permits: _permits,
            history: _history,
            told: _told,
        } = self;
        let _ = driver.give_up();
    }

    /// Who writes the driver's messages.
    pub fn messages(&self, alloc: Global) -> Messages<'_>
        ensures { result.driver.now ≡ self.now.driver }
    {
        Messages {
            driver: &self.driver,
            alloc,
        }
    }

    /// The number of plans that have begun in the present epoch.
    pub fn plan_count(&self) -> u32
        ensures { result ≡ min (length (record_of self.now.driver).plans) 4294967295 }
    {
        let count = self.driver.machine().plan_count();
        u32::try_from(count).unwrap_or(u32::MAX)
    }

    /// A plan of the present epoch: one of no streams, if it has not begun.
    pub fn begun_plan(&self, number: u32) -> BegunPlan
        ensures { result ≡ begun_plan self.now.driver number }
    {
        let machine = self.driver.machine();
        let epoch = self.driver.epoch();
        if u64::from(number) >= machine.plan_count() {
            return BegunPlan {
                epoch,
                number,
                calls: 0,
                streams: 0,
            };
        }
        let streams = machine.plan(number).streams();
        BegunPlan {
            epoch,
            number,
            calls: calls_of(streams) as u64,
            streams: streams.len() as u64,
        }
    }

    /// Writes, as members of a reply, the orders that a plan has now, and whether it has ended.
    fn write_plan_now(
        &self,
        alloc: Global,
        writer: &mut Writer,
        number: u32,
    ) -> Result<(), AllocError>
        ensures { OnOk result (writer.new.tokens ≡ writer.old.tokens ++ plan_members self.now.driver number []) }
    {
        let messages = self.messages(alloc);
        let streams = messages.gone_on(number, &[])?;
        messages.write_plan(writer, number, streams.as_slice())
    }

    /// Writes that a stream has made its step, and which streams of its plan have gone on.
    pub fn write_taken(
        &self,
        alloc: Global,
        writer: &mut Writer,
        id: StreamId,
        gone_on: &[StreamId],
    ) -> Result<(), AllocError>
        ensures { OnOk result (writer.new.tokens ≡ writer.old.tokens ++ moved_members self.now.driver id gone_on.now) }
    {
        self.messages(alloc).write_taken(writer, id, gone_on)?;
        Ok(())
    }

    /// Writes, as members of a reply, that a plan has begun, with its orders.
    pub fn write_begun(
        &self,
        alloc: Global,
        writer: &mut Writer,
        plan: BegunPlan,
    ) -> Result<(), AllocError>
        ensures { OnOk result (writer.new.tokens ≡ writer.old.tokens ++ begun_members self.now.driver plan) }
    {
        write_begun_plan(writer, plan)?;
        self.write_plan_now(alloc, writer, plan.number)?;
        Ok(())
    }

    /// Writes, as members of a reply, the orders that a plan has now, if it is one of the present epoch, and that
    /// goes on.
    fn write_plan_again(
        &self,
        alloc: Global,
        writer: &mut Writer,
        plan: BegunPlan,
        goes_on: bool,
    ) -> Result<(), AllocError>
        ensures { OnOk result (writer.new.tokens ≡ writer.old.tokens
            ++ plan_members_again self.now.driver plan goes_on) }
    {
        if goes_on && plan.epoch == self.driver.epoch() {
            self.write_plan_now(alloc, writer, plan.number)
        } else {
            write_nothing_new(writer)
        }
    }

    /// Writes, as members of a reply, that a plan has begun before. If it is one of the present epoch, and that goes
    /// on, the reply has its orders as they are now.
    pub fn write_begun_again(
        &self,
        alloc: Global,
        writer: &mut Writer,
        plan: BegunPlan,
        goes_on: bool,
    ) -> Result<(), AllocError>
        ensures { OnOk result (writer.new.tokens
            ≡ writer.old.tokens ++ begun_again_members self.now.driver plan goes_on) }
    {
        write_begun_plan(writer, plan)?;
        writer.key("again")?;
        writer.boolean(true)?;
        self.write_plan_again(alloc, writer, plan, goes_on)?;
        Ok(())
    }
}

/// Writes the members of a plan that has begun.
fn write_begun_members(writer: &mut Writer, plan: BegunPlan) -> Result<(), AllocError>
    ensures { OnOk result (writer.new.tokens ≡ writer.old.tokens ++ size_of_plan plan) }
{
    write_number(writer, "plan", u64::from(plan.number))?;
    write_number(writer, "calls", plan.calls)?;
    write_number(writer, "streams", plan.streams)?;
    write_number(writer, "epoch", u64::from(plan.epoch))?;
    Ok(())
}

/// Writes, as a member of a reply, a plan that has begun.
fn write_begun_plan(writer: &mut Writer, plan: BegunPlan) -> Result<(), AllocError>
    ensures { OnOk result (writer.new.tokens ≡ writer.old.tokens ++ begun_member plan) }
{
    writer.key("begun")?;
    writer.begin_object()?;
    write_begun_members(writer, plan)?;
    writer.end_object()?;
    Ok(())
}
