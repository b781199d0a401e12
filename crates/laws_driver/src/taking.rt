//! The commands of a driver, with what they write.
ghost use Rattle.std.specs.Prelude.{◌≡◌, ◌<◌, ℕ, IfOk, OnOk, true};
ghost use Rattle.sm_driver.specs.Driver.{record_of};
ghost use Rattle.sm_driver.specs.declared.copies.CopiesEffect.TheVariants.{Noted};
ghost use Rattle.sm_driver.specs.declared.driver.AnswerEffect.TheVariants as answer;
ghost use Rattle.sm_driver.specs.declared.restart.RestartEffect.TheVariants.{Up};
ghost use Rattle.laws_driver.specs.Control.{ApproveRestart, BeginPlan, EndRestart, IsWritten, NoteCopies, OpenEpoch};
ghost use Rattle.laws_driver.specs.Control.{RestoreServer, TakeAnswer};

use sm_driver::{
    AnswerEffect, CopiesEffect, Driver, EpochFault, RestartEffect, RestoreFault, ToldCopies,
};
use sm_machine::{BeginFault, ReadyPlan};
use sm_reservation::StreamId;
use sm_server::{ServerId, ShardId};
use sm_task_controller::Denied;
use std::alloc::Global;

/// Begins a plan as `Driver::begin` does: its start is written, and the steps behind it that are local.
pub fn begin(driver: &mut Driver, ready: ReadyPlan) -> Result<u32, (ReadyPlan, BeginFault)>
    requires { ready.setup ≡ driver.old.machine.placement.setup }
    ensures { IfOk result (λ number. IsWritten (BeginPlan ready.plan) driver.old driver.new) }
{
    driver.begin(ready)
}

/// Takes an answer as `Driver::answered` does: one that a stream waits for is written, and the steps behind it that are
/// local.
pub fn answered(driver: &mut Driver, id: StreamId, number: u64) -> AnswerEffect
    ensures { result ≡ answer.Moved → IsWritten (TakeAnswer id number) driver.old driver.new }
{
    driver.answered(id, number)
}

/// Approves a restart as `Driver::approve` does: the approval is written.
pub fn approve(driver: &mut Driver, server: ServerId) -> Result<u64, Denied>
    requires { server < (record_of driver.old).sizes.servers }
    ensures { IfOk result (λ permit. IsWritten (ApproveRestart server) driver.old driver.new) }
{
    driver.approve(server)
}

/// Ends a restart as `Driver::restarted` does: its end is written.
pub fn restarted(driver: &mut Driver, permit: u64, base: Option<u64>) -> RestartEffect
    ensures { (v : ℕ) → result ≡ Up v → IsWritten (EndRestart permit base) driver.old driver.new }
{
    driver.restarted(permit, base)
}

/// Restores a server as `Driver::restore` does: a new restore is written.
pub fn restore(
    driver: &mut Driver,
    alloc: Global,
    server: ServerId,
    nonce: u64,
) -> Result<bool, RestoreFault>
    requires { server < (record_of driver.old).sizes.servers }
    ensures { IfOk result (λ is_new. is_new ≡ true → IsWritten (RestoreServer server nonce) driver.old driver.new) }
{
    driver.restore(alloc, server, nonce)
}

/// Notes the copies of a shard as `Driver::copied` does: nothing is written.
pub fn copied(driver: &mut Driver, shard: ShardId, told: ToldCopies) -> CopiesEffect
    requires { shard < (record_of driver.old).sizes.shards }
    ensures { result ≡ Noted → IsWritten (NoteCopies shard told.copies) driver.old driver.new }
{
    driver.copied(shard, told)
}

/// Opens the next epoch as `Driver::new_epoch` does: it is written.
pub fn new_epoch(driver: &mut Driver, alloc: Global) -> Result<(), EpochFault>
    ensures { OnOk result (IsWritten OpenEpoch driver.old driver.new) }
{
    driver.new_epoch(alloc)
}
