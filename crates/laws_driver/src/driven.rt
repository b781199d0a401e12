//! A driver and its fleet.
ghost use Rattle.laws_driver.specs.Driven.{EachDriven};
ghost use Rattle.laws_driver.specs.DrivenLaws.{CommandsAreEvents, DriversOpen, FleetDrivenIsSafe, IsDrivenSafely};
ghost use Rattle.laws_driver.specs.DrivenLaws.{IsFleetDriven, OpenedControls, SendsAsDriven};

use laws_network::{
    beginnings_are_harmless, commits_once_per_number, commits_where_up, executes_at_one_server,
    fleet_can_finish, fleet_is_reached, fleet_is_safe, map_is_right, no_letter_is_refused,
    only_present_commits, permits_end_once, present_is_heard, servers_are_at_ends,
    servers_are_near, servers_are_recorded, some_fleet_can_go_on,
};

/// States that the fleet is one that its laws are about, and the driver is its controller, whatever commands come, and
/// whatever else happens to servers and network.
pub fn driven_is_controlled()
    ensures { EachDriven IsFleetDriven }
{
    fleet_is_reached();
}

/// States that each command writes events of the fleet that all fit.
pub fn commands_are_events()
    ensures { EachDriven CommandsAreEvents }
{
    driven_is_controlled();
    fleet_is_reached();
}

/// States that all laws of the fleet hold of a fleet that events lead to, and that a driver is the controller of.
pub fn fleet_driven_is_safe()
    ensures { FleetDrivenIsSafe }
{
    fleet_is_reached();
    fleet_is_safe();
    executes_at_one_server();
    no_letter_is_refused();
    present_is_heard();
    only_present_commits();
    commits_once_per_number();
    commits_where_up();
    permits_end_once();
    servers_are_near();
    servers_are_recorded();
    servers_are_at_ends();
    map_is_right();
    beginnings_are_harmless();
    some_fleet_can_go_on();
    fleet_can_finish();
}

/// States that all laws of the fleet hold of the fleet of a driver.
pub fn driven_is_safe()
    ensures { EachDriven IsDrivenSafely }
{
    driven_is_controlled();
    fleet_driven_is_safe();
}

/// States that the fleet's controller sends exactly the driver's messages.
pub fn sends_as_driven()
    ensures { EachDriven SendsAsDriven }
{
    driven_is_controlled();
}

/// States that the first driver of a journal is the controller of a fleet that opens.
pub fn drivers_open()
    ensures { DriversOpen }
{}

/// States that a driver that has just been opened, with permits of before, is a controller.
pub fn opened_controls()
    ensures { OpenedControls }
{}
