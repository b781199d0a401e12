//! The driver that comes of a reopening.
ghost use Rattle.std.specs.Prelude.{◌≡◌, ◌≢◌, ◌≤◌, IfOk, Some, is_some, map, not, true};
ghost use Rattle.sm_placement.specs.Layout.{place_of};
ghost use Rattle.sm_placement.specs.Lead.{IsSettled};
ghost use Rattle.sm_placement.specs.Place.{down_count};
ghost use Rattle.sm_placement.specs.Setup.{sizes_of};
ghost use Rattle.laws_network.specs.Reopening.{Server, Settlement};
ghost use Rattle.sm_reopening.specs.Ongoing.{net_reopening};
ghost use Rattle.sm_driver.specs.Orders.{epoch_base};
ghost use Rattle.sm_driver.specs.Permits.{AreEarlierPermits, permit_of};
ghost use Rattle.smpland_reopening.specs.InForce.{IsInForce, IsOpenedFrom, IsOpenedOver};

use crate::reopening::{DocumentReopening, OpenedEpoch};
use sm_driver::Driver;
use sm_machine::OpenFault;
use sm_placement::Placement;
use sm_plan_code::MOST_PLACES;
use sm_server::ServerId;
use std::alloc::{AllocError, Global};

/// Returns the permit of a server, if it has one.
fn permit_of(permits: &[Option<u64>], server: &ServerId) -> Option<u64>
    ensures { result ≡ permit_of permits.now server.now }
{
    match permits.get(server.number() as usize) {
        Some(permit) => *permit,
        None => None,
    }
}

/// Returns the want of memory for which a driver was not opened.
fn want_of_memory(fault: OpenFault) -> AllocError
    requires { fault ≢ OpenFault.LogFull }
{
    match fault {
        OpenFault::NoMemory => AllocError,
        OpenFault::LogFull => unreachable!(),
    }
}

/// What the next driver keeps of servers: the permits of earlier epochs, and who is carried over.
#[derive(Clone, Copy)]
struct KeptServers<'k> {
    permits: &'k [Option<u64>],
    carried: &'k [bool],
}

/// Opens the driver that a reopening comes to.
fn driver_over(
    alloc: Global,
    next: Placement,
    opened: OpenedEpoch,
    log: u32,
    kept: KeptServers<'_>,
) -> Result<Driver, AllocError>
    requires settled { IsSettled (sizes_of next.setup) (place_of next) }
    requires permits { AreEarlierPermits (epoch_base opened.epoch) kept.permits.now }
    requires room { down_count (sizes_of next.setup) (place_of next) ≤ log }
    requires most { log ≤ MOST_PLACES }
    ensures { IfOk result (λ d.
        IsOpenedOver next log opened.journal opened.epoch kept.entry.permits.now kept.entry.carried.now d) }
{
    let OpenedEpoch { journal, epoch } = opened;
    match Driver::reopen(alloc, next, log, journal, epoch, kept.permits, kept.carried) {
        Ok(driver) => Ok(driver),
        Err((next, fault)) => {
            drop(next);
            Err(want_of_memory(fault))
        }
    }
}

impl DocumentReopening {
    /// Returns the permits of the document's servers that had one, in the document's order.
    fn kept_permits(&self, alloc: Global) -> Result<Vec<Option<u64>>, AllocError>
        ensures { IfOk result (λ kept. kept.items ≡ map (permit_of self.now.permits) self.now.servers) }
    {
        self.servers
            .iter()
            .map(|server| permit_of(&self.permits, server))
            .collect(alloc)
    }

    /// Returns which of the document's servers did not answer, in the document's order.
    fn carried_marks(&self, alloc: Global) -> Result<Vec<bool>, AllocError>
        ensures { IfOk result (λ marks. marks.items
            ≡ map (λ v. not (is_some ((net_reopening self.now.ongoing).told (Server v)))) self.now.servers) }
    {
        self.servers
            .iter()
            .map(|server| !self.ongoing.has_told(*server))
            .collect(alloc)
    }

    /// Puts the settlement in force: opens the driver of the next epoch, in which servers and shards have the numbers
    /// of the document's order.
    pub fn put_in_force(self, alloc: Global) -> Result<Driver, AllocError>
        requires { is_some (net_reopening self.ongoing).settlement ≡ true }
        ensures in_force { IfOk result (λ driver. (s : Settlement) → (net_reopening self.ongoing).settlement ≡ Some s
            → IsInForce self s driver) }
        ensures opened { IfOk result (λ driver. IsOpenedFrom self driver) }
    {
        let permits = self.kept_permits(alloc)?;
        let carried = self.carried_marks(alloc)?;
        self.document.config.server_count();
        let (journal, epoch, log) = (self.journal, self.epoch, self.document.log);
        let opened = OpenedEpoch { journal, epoch };
        match self.into_next() {
            Some(next) => {
                let kept = KeptServers {
                    permits: &permits,
                    carried: &carried,
                };
                let driver = driver_over(alloc, next, opened, log, kept)?;
                Ok(driver)
            }
            None => unreachable!(),
        }
    }
}
