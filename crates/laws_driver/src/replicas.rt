//! Drivers that take the same commands.
ghost use Rattle.sm_driver.specs.Alike.{EachAlike};
ghost use Rattle.laws_driver.specs.Replicas.{ReplicasOpenAlike, StayAlike};

use sm_driver::drivers_go_alike;

/// States that drivers that open alike are alike: journal, epoch, placement and earlier permits determine a driver.
pub fn replicas_open_alike()
    ensures { ReplicasOpenAlike }
{}

/// States that a list of commands makes of drivers that are alike drivers that are alike, which reply alike from there
/// on (`drivers_go_alike`).
pub fn replicas_stay_alike()
    ensures { EachAlike StayAlike }
{
    drivers_go_alike();
}
