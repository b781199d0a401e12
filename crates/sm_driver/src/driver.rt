//! Drivers.
ghost use Rattle.std.specs.Prelude.{◌≡◌, ◌≢◌, ◌<◌, ◌⊎◌, ◌+◌, IfOk, OnOk, IfErr, IfSome, OnErr, Some, None, option_map};
ghost use Rattle.std.specs.Prelude.{not, slice_get, true, false};
ghost use Rattle.std.specs.Option.{option_copied};
ghost use Rattle.sm_placement.specs.Layout.{place_of};
ghost use Rattle.sm_protocol.specs.declared.event.BeginFault.TheVariants as begin_fault;
ghost use Rattle.sm_protocol.specs.declared.event.Played.TheVariants as played;
ghost use Rattle.sm_protocol.specs.State.{free_places, is_begun, pool};
ghost use Rattle.sm_protocol.specs.Next.{unfinished_plans};
ghost use Rattle.sm_protocol.specs.Steps.{Answered};
ghost use Rattle.sm_protocol.specs.Happens.{Approve, Begin, engaged, happens};
ghost use Rattle.sm_task_controller.specs.Decision.{denial};
ghost use Rattle.laws_network.specs.Net.{cell_above, order_of};
ghost use Rattle.laws_network.specs.World.{publication_of};
ghost use Rattle.sm_driver.specs.Advance.{next_free};
ghost use Rattle.sm_driver.specs.Orders.{awaiting_of, bases_end, epoch_base, message_number, message_of, net_message};
ghost use Rattle.sm_driver.specs.Orders.{net_order, net_publication};
ghost use Rattle.sm_driver.specs.Carried.{AreCarriedDown};
ghost use Rattle.sm_driver.specs.Permits.{AreEarlierPermits, ArePermitsOfDown, restart_effect, server_permitted};
ghost use Rattle.sm_driver.specs.Epochs.{HasOpenedEpoch, epoch_fault};
ghost use Rattle.sm_driver.specs.Restores.{restore_at, is_last_restore};
ghost use Rattle.sm_driver.specs.Driver.{HasRestored, HasApproved, HasCome, HasBegunPlan, HasTakenStep, base};
ghost use Rattle.sm_driver.specs.Driver.{answer_effect, is_due, is_past, awaits_answer, order_number, record_of};
ghost use Rattle.sm_driver.specs.declared.driver.AnswerEffect.TheVariants as answer;
ghost use Rattle.sm_driver.specs.declared.epoch.EpochFault.TheVariants as refusal;
ghost use Rattle.sm_driver.specs.declared.restores.RestoreFault.TheVariants as fault;

mod keeping;
mod opening;

use crate::carried::CarriedServers;
use crate::copies::Copies;
use crate::epoch::{EpochFault, epoch_after, fault_by, shard_spent};
use crate::local_steps::{advance, advance_plan};
use crate::order::{StreamMessage, StreamOrder, StreamPublication};
use crate::ordering::{awaiting, awaits, message_of, order_number, order_of, publication_of};
use crate::permits::Permits;
use crate::restart::{RestartEffect, is_settled};
use crate::restores::{RestoreFault, Restores, ServerRestore, cells_told, recorded_cell};
use sm_machine::{BeginFault, Director, Event, Machine, ReadyPlan};
use sm_placement::Placement;
use sm_reservation::StreamId;
use sm_server::{Cell, ServerId, ShardId};
use sm_task_controller::{Denied, decide};
use std::alloc::{AllocError, Global};
use std::marker::Model;

/// The distance of the bases of two epochs: twice the places of the longest log.
pub const EPOCH_STEP: u64 = 2_097_152;

/// The effect of an answer.
#[derive(Clone, Copy, Debug, PartialEq, Eq)]
pub enum AnswerEffect {
    /// The stream has made its step.
    Moved,
    /// The stream has gone on since.
    Old,
    /// No stream waits for such an answer.
    Unknown,
}

/// A controller of real servers: a machine whose calls and publications are orders, each of which is recorded once its
/// answer has come.
pub struct Driver {
    director: Director,
    room: u32,
    journal: u64,
    epoch: u32,
    fence: u64,
    permits: Permits,
    carried: CarriedServers,
    restores: Restores,
    copies: Copies,
}

impl Model for Driver {
    ghost use Rattle.sm_driver.specs.Epochs.{HasOpenedEpoch, epoch_fault};
    ghost use Rattle.sm_driver.specs.Restores.{restore_at, is_last_restore};
    ghost use Rattle.sm_driver.specs.Driver.{HasRestored, DriverModel, IsDriving};

    ghost Value = { DriverModel };

    ghost view = { λ d. record { machine = d.director; journal = d.journal; epoch = d.epoch; fence = d.fence; permits = d.permits; carried = d.carried; restores = d.restores; copies = d.copies } };

    ghost invariant = { λ d. IsDriving d.room (record { machine = d.director; journal = d.journal; epoch = d.epoch; fence = d.fence; permits = d.permits; carried = d.carried; restores = d.restores; copies = d.copies }) };
}

impl Driver {
    /// The machine, whose state is what is recorded.
    pub fn machine(&self) -> &Machine
        ensures { result.now ≡ self.now.machine }
    {
        self.director.machine()
    }

    /// The journal that the driver belongs to.
    pub fn journal(&self) -> u64
        ensures { result ≡ self.now.journal }
    {
        self.journal
    }

    /// The driver's epoch in its journal.
    pub fn epoch(&self) -> u32
        ensures { result ≡ self.now.epoch }
    {
        self.epoch
    }

    /// The number above which all numbers of the driver are.
    pub fn base(&self) -> u64
        ensures base { result ≡ base self.now }
        ensures small { result < bases_end }
    {
        self.epoch as u64 * EPOCH_STEP
    }

    /// The base of the journal's last reopening, 0 before any.
    pub fn fence(&self) -> u64
        ensures { result ≡ self.now.fence }
    {
        self.fence
    }

    /// The order of a running stream that stands before a call.
    pub fn order(&self, id: StreamId) -> Option<StreamOrder>
        ensures { option_map net_order result ≡ order_of (base self.now) (record_of self.now) id }
    {
        order_of(self.machine(), self.base(), id)
    }

    /// The publication of a running stream that stands before one.
    pub fn publication(&self, id: StreamId) -> Option<StreamPublication>
        ensures publication { option_map net_publication result
            ≡ publication_of (base self.now) (record_of self.now) id }
        ensures number { IfSome result (λ p. p.number ≡ order_number self.now id) }
    {
        publication_of(self.machine(), self.base(), id)
    }

    /// The order or the publication that a running stream stands before.
    pub fn message(&self, id: StreamId) -> Option<StreamMessage>
        ensures message { option_map net_message result ≡ message_of (base self.now) (record_of self.now) id }
        ensures number { IfSome result (λ m. message_number m ≡ order_number self.now id) }
    {
        message_of(self.machine(), self.base(), id)
    }

    /// Writes all streams that stand before orders or publications into a list, by plan, then by stream. The list's old
    /// entries are gone.
    pub fn awaiting(&self, list: &mut Vec<StreamId>) -> Result<(), AllocError>
        ensures { OnOk result (list.new.items ≡ awaiting_of (record_of self.now)) }
    {
        awaiting(self.machine(), list)
    }

    /// States that no stream stands before a local step.
    pub fn is_advanced(&self)
        ensures { next_free (record_of self.now) ≡ None }
    {
        let _ = &self.director;
    }

    /// Begins a plan that is ready and was checked for the configuration, and makes every local step. Returns the
    /// plan's number. If the plan does not begin, it comes back ready, and nothing changes.
    pub fn begin(&mut self, ready: ReadyPlan) -> Result<u32, (ReadyPlan, BeginFault)>
        requires { ready.setup ≡ self.old.machine.placement.setup }
        ensures begun { IfOk result (λ number. HasBegunPlan ready.plan number self.old self.new) }
        ensures refused { IfErr result (λ e. (happens (record_of self.old) (Begin ready.plan)).0
            ≡ Answered (played.NotBegun e.1)) }
        ensures memory { IfErr result (λ e. e.1 ≢ begin_fault.NoMemory) }
        ensures back { IfErr result (λ e. e.0 ≡ ready) }
        ensures unchanged { OnErr result (self.new ≡ self.old) }
    {
        let number = self.director.start(ready)?;
        advance_plan(&mut self.director, number);
        Ok(number)
    }

    /// Whether an answer is the one that a stream waits for.
    fn is_due(&self, id: StreamId, number: u64) -> bool
        ensures { result ≡ is_due self.now id number }
    {
        let machine = self.machine();
        awaits(machine, id) && number == order_number(machine, self.base(), id)
    }

    /// Whether an answer is one of a stream that has gone on since.
    fn is_past(&self, id: StreamId, number: u64) -> bool
        ensures { result ≡ is_past self.now id number }
    {
        let machine = self.machine();
        let base = self.base();
        machine.is_begun(id) && (machine.is_done(id) || number < order_number(machine, base, id))
    }

    /// The effect that an answer to an order or a publication of a stream would have now.
    pub fn due(&self, id: StreamId, number: u64) -> AnswerEffect
        ensures { result ≡ answer_effect self.now id number }
    {
        if self.is_due(id, number) {
            AnswerEffect::Moved
        } else if self.is_past(id, number) {
            AnswerEffect::Old
        } else {
            AnswerEffect::Unknown
        }
    }

    /// Makes the step of a stream that waits for an answer, and every local step.
    fn take_step(&mut self, id: StreamId)
        requires { awaits_answer self.old id ≡ true }
        ensures { HasTakenStep id self.old self.new }
    {
        self.machine().is_reached();
        let _ = self.director.play(Event::Step { stream: id });
        advance(&mut self.director, id);
    }

    /// Takes the answer to an order or a publication of a stream. If the stream waits for it, it makes its step, and
    /// every local step is made: neither the log's room nor the stream's allowance is in the way. Otherwise nothing
    /// changes.
    pub fn answered(&mut self, id: StreamId, number: u64) -> AnswerEffect
        ensures effect { result ≡ answer_effect self.old id number }
        ensures moved { result ≡ answer.Moved → HasTakenStep id self.old self.new }
        ensures unchanged { (result ≡ answer.Moved) ⊎ (self.new ≡ self.old) }
    {
        match self.due(id, number) {
            AnswerEffect::Moved => {
                self.take_step(id);
                AnswerEffect::Moved
            }
            AnswerEffect::Old => AnswerEffect::Old,
            AnswerEffect::Unknown => AnswerEffect::Unknown,
        }
    }

    /// The permits of restarts, by the servers' numbers: those of the servers that are down.
    pub fn permits(&self) -> &[Option<u64>]
        ensures permits { result.now ≡ self.now.permits }
        ensures down { ArePermitsOfDown (record_of self.now) self.now.permits }
        ensures apart { AreEarlierPermits (epoch_base (self.now.epoch + 1)) self.now.permits }
    {
        self.machine().is_reached();
        self.permits.as_slice()
    }

    /// Which servers a reopening has carried over, by the servers' numbers: such a server is down, did not answer the
    /// reopening, and its restart has not ended since.
    pub fn carried(&self) -> &[bool]
        ensures carried { result.now ≡ self.now.carried }
        ensures down { AreCarriedDown (record_of self.now) self.now.carried }
    {
        self.carried.as_slice()
    }

    /// Why the restart of a server is not approved now.
    fn denial(&self, server: ServerId) -> Option<Denied>
        requires { server < (record_of self.now).sizes.servers }
        ensures { result ≡ denial (record_of self.now).sizes (record_of self.now).place (pool (record_of self.now))
            (engaged (record_of self.now) server) (free_places (record_of self.now)) server }
    {
        let machine = self.machine();
        machine.is_reached();
        let free = machine.free_places() as u32;
        let engaged = machine.engaged(server);
        decide(machine.placement(), machine.pool(), engaged, free, server).err()
    }

    /// Approves the restart of a server, if nothing is against it, and returns its permit. The server is down then.
    /// Otherwise nothing changes.
    pub fn approve(&mut self, server: ServerId) -> Result<u64, Denied>
        requires { server < (record_of self.old).sizes.servers }
        ensures approved { IfOk result (λ permit. HasApproved server permit self.old self.new) }
        ensures denied { IfErr result (λ why. (happens (record_of self.old) (Approve server)).0
            ≡ Answered (played.Denied why)) }
        ensures unchanged { OnErr result (self.new ≡ self.old) }
    {
        if let Some(why) = self.denial(server) {
            return Err(why);
        }
        let permit = self.base() + self.machine().log().len() as u64 + 1;
        let _ = self.director.play(Event::Approve { server });
        self.director.machine().is_reached();
        self.permits.set(server, Some(permit));
        Ok(permit)
    }

    /// Ends the restart that has this permit, if the number of the server's base is at or above the fence: the server
    /// is up, and no longer carried over. A server has no base if it is Unknown, or fenced. No other permit ends
    /// anything. A full log is no hindrance.
    pub fn restarted(&mut self, permit: u64, base: Option<u64>) -> RestartEffect
        ensures effect { result ≡ restart_effect self.old.fence base (server_permitted self.old.permits permit) }
        ensures come { HasCome result permit base self.old self.new }
    {
        let servers = self.machine().config().server_count();
        let Some(server) = self.permits.server(servers, permit) else {
            return RestartEffect::Old;
        };
        if !is_settled(self.fence, base) {
            return RestartEffect::Unsettled(server);
        }
        let _ = self.director.play(Event::Done { server });
        self.permits.set(server, None);
        self.carried.clear(server);
        RestartEffect::Up(server)
    }

    /// Restores a server that has lost all it had, and asks under a nonce: keeps what it is told, and returns true.
    /// Returns false if it was told under this nonce last; then nothing changes.
    pub fn restore(
        &mut self,
        alloc: Global,
        server: ServerId,
        nonce: u64,
    ) -> Result<bool, RestoreFault>
        requires { server < (record_of self.old).sizes.servers }
        ensures again { IfOk result (λ is_new. is_new ≡ not (is_last_restore self.old.restores server nonce)) }
        ensures restored { IfOk result (λ is_new. is_new ≡ true → HasRestored server nonce self.old self.new) }
        ensures known { IfOk result (λ is_new. is_new ≡ false → self.new ≡ self.old) }
        ensures engaged { IfErr result (λ why. why ≢ fault.NoMemory
            → option_map fault.Engaged (engaged (record_of self.old) server) ≡ Some why) }
        ensures unknown { OnErr result (is_last_restore self.old.restores server nonce ≡ false) }
        ensures unchanged { OnErr result (self.new ≡ self.old) }
    {
        if self.restores.is_last_restore(server, nonce) {
            return Ok(false);
        }
        if let Some(stream) = self.machine().engaged(server) {
            return Err(RestoreFault::Engaged { stream });
        }
        let number = self.base() + self.machine().log().len() as u64;
        let Ok(cells) = cells_told(alloc, self.machine(), self.base(), server) else {
            return Err(RestoreFault::NoMemory);
        };
        self.restores
            .set(server, ServerRestore::new(nonce, number, cells));
        Ok(true)
    }

    /// What is recorded of a server's cell of a shard, with the base in its handover number.
    pub fn cell(&self, shard: ShardId, server: ServerId) -> Cell
        requires shard { shard < (record_of self.now).sizes.shards }
        requires server { server < (record_of self.now).sizes.servers }
        ensures { result ≡ cell_above (base self.now) ((record_of self.now).place.cells shard server) }
    {
        recorded_cell(self.machine(), self.base(), shard, server)
    }

    /// What a server was told last after it had lost all it had.
    pub fn restored(&self, server: ServerId) -> Option<&ServerRestore>
        requires { server < (record_of self.now).sizes.servers }
        ensures { option_copied result ≡ restore_at self.now.restores server }
    {
        self.restores.get(server)
    }

    /// The lowest plan that is unfinished.
    fn lowest_unfinished(&self) -> Option<u32>
        ensures { result ≡ slice_get (unfinished_plans (record_of self.now)) 0 }
    {
        self.machine().unfinished().first().copied()
    }

    /// Why the next epoch does not open now.
    fn epoch_fault(&self) -> Option<EpochFault>
        ensures { result ≡ epoch_fault self.now }
    {
        let is_last = self.epoch == u32::MAX;
        fault_by(
            self.lowest_unfinished(),
            is_last,
            shard_spent(self.machine()),
        )
    }

    /// Opens the next epoch over the placement as it is recorded, if no plan is unfinished: the log is empty again.
    /// Fence, permits, carried servers, restores and copies stay.
    pub fn new_epoch(&mut self, alloc: Global) -> Result<(), EpochFault>
        ensures opened { OnOk result (HasOpenedEpoch self.old self.new) }
        ensures fits { OnOk result (epoch_fault self.old ≡ None) }
        ensures refused { IfErr result (λ why. why ≢ refusal.NoMemory → epoch_fault self.old ≡ Some why) }
        ensures memory { IfErr result (λ why. why ≡ refusal.NoMemory → epoch_fault self.old ≡ None) }
        ensures unchanged { OnErr result (self.new ≡ self.old) }
    {
        if let Some(why) = self.epoch_fault() {
            return Err(why);
        }
        let machine = self.machine();
        machine.is_reached();
        machine.is_safe();
        let Ok(placement) = machine.placement().copy(alloc) else {
            return Err(EpochFault::NoMemory);
        };
        match Director::open(alloc, placement, self.room) {
            Err((placement, _)) => {
                drop(placement);
                Err(EpochFault::NoMemory)
            }
            Ok(director) => {
                let old = std::mem::replace(&mut self.director, director);
                drop(old.give_up());
                self.epoch = epoch_after(self.epoch);
                Ok(())
            }
        }
    }

    /// Ends the driver, and returns its placement as it is recorded. Takes no memory.
    pub fn give_up(self) -> Placement
        ensures place { place_of result ≡ (record_of self).place }
        ensures setup { result.setup ≡ self.machine.placement.setup }
    {
        let Driver {
            director,
            room: _,
            journal: _,
            epoch: _,
            fence: _,
            permits,
            carried,
            restores,
            copies,
        } = self;
        drop(permits);
        drop(carried);
        drop(restores);
        drop(copies);
        director.give_up()
    }
}
