//! The laws of a driver and its service.
ghost use Rattle.laws_service.specs.Controlled.{EachControlled};
ghost use Rattle.laws_service.specs.ControlledLaws.{ControlledOpens, DriverCanOpen, DriverCanReopen};
ghost use Rattle.laws_service.specs.ControlledLaws.{IsControlledSafely, IsServiceControlled, VersionsStayBelow};

use laws_driver::{
    commands_are_events, driven_is_controlled, driven_is_safe, drivers_open, opened_controls,
};
use laws_network::{fleet_can_reopen, fleet_is_reached};
use laws_reopening::{
    fleet_is_there_as, fleet_opens_as, laws_hold, old_orders_rest, order_acts_once,
    permit_ends_once, service_is_safe,
};

/// States that whatever commands come, reopenings among them, and whatever else happens to servers and network, the
/// service is one that its laws are about, and the driver is its controller, which after each reopening has numbers of
/// its own.
pub fn service_is_controlled()
    ensures { EachControlled IsServiceControlled }
{
    commands_are_events();
    driven_is_controlled();
    fleet_is_reached();
    fleet_opens_as();
    laws_hold();
}

/// States that all laws of the service hold of the driver's service, and between reopenings all laws of the fleet hold
/// of its fleet.
pub fn controlled_is_safe()
    ensures { EachControlled IsControlledSafely }
{
    service_is_controlled();
    driven_is_safe();
    service_is_safe();
    permit_ends_once();
    order_acts_once();
    old_orders_rest();
}

/// States that the versions of an epoch stay below the base of the next one, so that a later publication has the higher
/// version.
pub fn versions_stay_below()
    ensures { EachControlled VersionsStayBelow }
{
    commands_are_events();
    driven_is_controlled();
    fleet_is_reached();
    fleet_opens_as();
    laws_hold();
}

/// States that the first driver of a journal has a service.
pub fn controlled_opens()
    ensures { ControlledOpens }
{
    drivers_open();
}

/// States that a driver that runs plans can reopen.
pub fn driver_can_reopen()
    ensures { EachControlled DriverCanReopen }
{
    service_is_controlled();
    fleet_can_reopen();
    laws_hold();
}

/// States that once all have taken a settlement, a driver that opens on it has a fleet, whatever numbers it gives.
pub fn driver_can_open()
    ensures { EachControlled DriverCanOpen }
{
    service_is_controlled();
    laws_hold();
    fleet_is_there_as();
    opened_controls();
}
