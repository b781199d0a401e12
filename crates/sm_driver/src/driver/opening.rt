//! Openings of drivers: the first one of a journal, and the one that a reopening comes to.
ghost use Rattle.std.specs.Prelude.{◌≡◌, ◌≤◌, ◌<◌, ◌↔◌, ◌⊎◌, IfOk, OnOk, IfErr, None, [], length, replicate, false};
ghost use Rattle.sm_placement.specs.Setup.{sizes_of};
ghost use Rattle.sm_placement.specs.Place.{down_count};
ghost use Rattle.sm_placement.specs.Layout.{place_of};
ghost use Rattle.sm_placement.specs.Lead.{IsSettled};
ghost use Rattle.sm_plan_code.specs.declared.limits.TheConstants.{MOST_PLACES};
ghost use Rattle.sm_protocol.specs.State.{opened};
ghost use Rattle.sm_machine.specs.declared.open_fault.OpenFault.TheVariants.{LogFull};
ghost use Rattle.sm_driver.specs.Carried.{carried_down};
ghost use Rattle.sm_driver.specs.Orders.{epoch_base};
ghost use Rattle.sm_driver.specs.Permits.{AreEarlierPermits, opening_permits};
ghost use Rattle.sm_driver.specs.Driver.{base, record_of};

use super::{Driver, EPOCH_STEP};
use crate::carried::CarriedServers;
use crate::copies::Copies;
use crate::permits::Permits;
use crate::restores::Restores;
use sm_machine::{Director, OpenFault};
use sm_placement::Placement;
use sm_plan_code::MOST_PLACES;
use std::alloc::Global;

impl Driver {
    /// Opens a driver over a settled placement, with these permits and these carried servers as far as they are of
    /// servers that are down. Its fence is 0.
    fn over(
        alloc: Global,
        placement: Placement,
        log_room: u32,
        journal: u64,
        epoch: u32,
        permits: &[Option<u64>],
        carried: &[bool],
    ) -> Result<Driver, (Placement, OpenFault)>
        requires settled { IsSettled (sizes_of placement.setup) (place_of placement) }
        requires permits { AreEarlierPermits (epoch_base epoch) permits.now }
        ensures state { IfOk result (λ d. record_of d
            ≡ opened (sizes_of placement.setup) (place_of placement) log_room) }
        ensures setup { IfOk result (λ d. d.machine.placement.setup ≡ placement.setup) }
        ensures journal { IfOk result (λ d. d.journal ≡ journal) }
        ensures epoch { IfOk result (λ d. d.epoch ≡ epoch) }
        ensures fence { IfOk result (λ d. d.fence ≡ 0) }
        ensures permits { IfOk result (λ d. d.permits
            ≡ opening_permits (base d) permits.now (length placement.setup.servers) (place_of placement).down) }
        ensures carried { IfOk result (λ d. d.carried
            ≡ carried_down carried.now (length placement.setup.servers) (place_of placement).down) }
        ensures restores { IfOk result (λ d. d.restores ≡ replicate (length placement.setup.servers) None) }
        ensures copies { IfOk result (λ d. d.copies ≡ replicate (length placement.setup.shards) 1) }
        ensures fits { OnOk result ((log_room ≤ MOST_PLACES)
            × (down_count (sizes_of placement.setup) (place_of placement) ≤ log_room)) }
        ensures back { IfErr result (λ e. e.0 ≡ placement) }
        ensures full { IfErr result (λ e. (e.1 ≡ LogFull) ↔
            ((MOST_PLACES < log_room) ⊎ (log_room < down_count (sizes_of placement.setup)
            (place_of placement)))) }
    {
        if log_room > MOST_PLACES || log_room < placement.down_count() {
            return Err((placement, OpenFault::LogFull));
        }
        let base = epoch as u64 * EPOCH_STEP;
        let Ok(permits) = Permits::at_opening(alloc, &placement, base, permits) else {
            return Err((placement, OpenFault::NoMemory));
        };
        let Ok(carried) = CarriedServers::at_opening(alloc, &placement, carried) else {
            return Err((placement, OpenFault::NoMemory));
        };
        let Ok(restores) = Restores::none(alloc, placement.config().server_count()) else {
            return Err((placement, OpenFault::NoMemory));
        };
        let Ok(copies) = Copies::at_opening(alloc, placement.config().shard_count()) else {
            return Err((placement, OpenFault::NoMemory));
        };
        let director = Director::open(alloc, placement, log_room)?;
        Ok(Driver {
            director,
            room: log_room,
            journal,
            epoch,
            fence: 0,
            permits,
            carried,
            restores,
            copies,
        })
    }

    /// Opens a driver over a settled placement, for a journal and one of its epochs, as `Director::open` does. Each
    /// server that is down has a new permit, and none is carried over. The fence is 0.
    pub fn open(
        alloc: Global,
        placement: Placement,
        log_room: u32,
        journal: u64,
        epoch: u32,
    ) -> Result<Driver, (Placement, OpenFault)>
        requires { IsSettled (sizes_of placement.setup) (place_of placement) }
        ensures state { IfOk result (λ d. record_of d
            ≡ opened (sizes_of placement.setup) (place_of placement) log_room) }
        ensures setup { IfOk result (λ d. d.machine.placement.setup ≡ placement.setup) }
        ensures journal { IfOk result (λ d. d.journal ≡ journal) }
        ensures epoch { IfOk result (λ d. d.epoch ≡ epoch) }
        ensures fence { IfOk result (λ d. d.fence ≡ 0) }
        ensures permits { IfOk result (λ d. d.permits
            ≡ opening_permits (base d) [] (length placement.setup.servers) (place_of placement).down) }
        ensures carried { IfOk result (λ d. d.carried ≡ replicate (length placement.setup.servers) false) }
        ensures restores { IfOk result (λ d. d.restores ≡ replicate (length placement.setup.servers) None) }
        ensures copies { IfOk result (λ d. d.copies ≡ replicate (length placement.setup.shards) 1) }
        ensures fits { OnOk result ((log_room ≤ MOST_PLACES)
            × (down_count (sizes_of placement.setup) (place_of placement) ≤ log_room)) }
        ensures back { IfErr result (λ e. e.0 ≡ placement) }
        ensures full { IfErr result (λ e. (e.1 ≡ LogFull) ↔
            ((MOST_PLACES < log_room) ⊎ (log_room < down_count (sizes_of placement.setup)
            (place_of placement)))) }
    {
        Driver::over(alloc, placement, log_room, journal, epoch, &[], &[])
    }

    /// Opens a driver over the settled placement that a reopening has come to, in the reopening's epoch, whose base is
    /// the fence. Each server that is down keeps its permit of an earlier epoch, or has a new one, and stays carried
    /// over if it is marked so.
    pub fn reopen(
        alloc: Global,
        placement: Placement,
        log_room: u32,
        journal: u64,
        epoch: u32,
        permits: &[Option<u64>],
        carried: &[bool],
    ) -> Result<Driver, (Placement, OpenFault)>
        requires settled { IsSettled (sizes_of placement.setup) (place_of placement) }
        requires permits { AreEarlierPermits (epoch_base epoch) permits.now }
        ensures state { IfOk result (λ d. record_of d
            ≡ opened (sizes_of placement.setup) (place_of placement) log_room) }
        ensures setup { IfOk result (λ d. d.machine.placement.setup ≡ placement.setup) }
        ensures journal { IfOk result (λ d. d.journal ≡ journal) }
        ensures epoch { IfOk result (λ d. d.epoch ≡ epoch) }
        ensures fence { IfOk result (λ d. d.fence ≡ base d) }
        ensures permits { IfOk result (λ d. d.permits
            ≡ opening_permits (base d) permits.now (length placement.setup.servers) (place_of placement).down) }
        ensures carried { IfOk result (λ d. d.carried
            ≡ carried_down carried.now (length placement.setup.servers) (place_of placement).down) }
        ensures restores { IfOk result (λ d. d.restores ≡ replicate (length placement.setup.servers) None) }
        ensures copies { IfOk result (λ d. d.copies ≡ replicate (length placement.setup.shards) 1) }
        ensures fits { OnOk result ((log_room ≤ MOST_PLACES)
            × (down_count (sizes_of placement.setup) (place_of placement) ≤ log_room)) }
        ensures back { IfErr result (λ e. e.0 ≡ placement) }
        ensures full { IfErr result (λ e. (e.1 ≡ LogFull) ↔
            ((MOST_PLACES < log_room) ⊎ (log_room < down_count (sizes_of placement.setup)
            (place_of placement)))) }
    {
        let mut driver = Driver::over(
            alloc, placement, log_room, journal, epoch, permits, carried,
        )?;
        driver.fence = driver.base();
        Ok(driver)
    }
}
