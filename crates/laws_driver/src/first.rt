//! The first driver of a journal, as code.
ghost use Rattle.std.specs.Prelude.{IfOk};
ghost use Rattle.sm_placement.specs.Setup.{sizes_of};
ghost use Rattle.sm_placement.specs.Layout.{place_of};
ghost use Rattle.sm_placement.specs.Lead.{IsSettled};
ghost use Rattle.laws_driver.specs.DrivenLaws.{HasFleet};

use sm_driver::Driver;
use sm_machine::OpenFault;
use sm_placement::Placement;
use std::alloc::Global;

/// Opens a driver as `Driver::open` does: it is the controller of a fleet that opens.
pub fn open_with_fleet(
    alloc: Global,
    placement: Placement,
    log_room: u32,
    journal: u64,
    epoch: u32,
) -> Result<Driver, (Placement, OpenFault)>
    requires { IsSettled (sizes_of placement.setup) (place_of placement) }
    ensures { IfOk result HasFleet }
{
    let driver = Driver::open(alloc, placement, log_room, journal, epoch)?;
    driver.machine().is_reached();
    Ok(driver)
}
