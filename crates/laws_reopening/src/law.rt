//! The laws.
ghost use Rattle.laws_network.specs.FleetLaws.{EachFleet};
ghost use Rattle.laws_network.specs.ReopeningLaws.{EachSettling};
ghost use Rattle.laws_reopening.specs.Floors.{FloorsStay};
ghost use Rattle.laws_reopening.specs.FloorsBegun.{FloorsRemain};
ghost use Rattle.laws_reopening.specs.OrderLaws.{OldOrdersRest, OrderActsOnce};
ghost use Rattle.laws_reopening.specs.FloorRules.{RulesKeepFloors};
ghost use Rattle.laws_reopening.specs.Service.{EachService};
ghost use Rattle.laws_reopening.specs.PermitLaws.{PermitEndsOnce};
ghost use Rattle.laws_reopening.specs.ServiceLaws.{CanOpen, IsWithinLaws, ServiceIsSafe};

use crate::in_force::{fleet_is_there_as, fleet_opens_as};
use laws_network::{
    executes_at_one_server, executes_safely, fleet_is_safe, loads_fit, map_is_right,
    no_letter_is_refused, opens_with_past, permits_end_once, refuses_none, shown_executes,
    some_fleet_can_go_on,
};

/// States that until a settlement is confirmed no shard has fewer live replicas than the floor of the record that the
/// reopening began over.
pub fn floors_remain()
    ensures { EachSettling FloorsRemain }
{}

/// States that from the moment when a settlement is confirmed no shard has fewer replicas than the floor of the opening
/// that comes of it.
pub fn floors_stay()
    ensures { EachSettling FloorsStay }
{
    opens_with_past();
}

/// States that no shard has fewer live replicas than its floor, if servers lose their slots only while they are down,
/// and come up only with slots.
pub fn rules_keep_floors()
    ensures { EachFleet RulesKeepFloors }
{
    fleet_is_safe();
}

/// States that wherever events lead, reopenings among them, the service is in one of two states: at a fleet of which
/// all laws of the fleet hold, or in a reopening of which all laws of reopenings hold.
pub fn laws_hold()
    ensures { EachService IsWithinLaws }
{
    fleet_opens_as();
}

/// States that once all parties of a reopening have taken its settlement, a controller can open on the fleet that comes
/// of it, in whatever numbers.
pub fn can_open()
    ensures { EachService CanOpen }
{
    laws_hold();
    fleet_is_there_as();
}

/// States that wherever events lead, reopenings among them, the service is safe.
pub fn service_is_safe()
    ensures { EachService ServiceIsSafe }
{
    fleet_opens_as();
    fleet_is_safe();
    executes_at_one_server();
    no_letter_is_refused();
    map_is_right();
    some_fleet_can_go_on();
    loads_fit();
    floors_remain();
    floors_stay();
    executes_safely();
    refuses_none();
    shown_executes();
}

/// States that a permit ends at most one restart, over all epochs and reopenings.
pub fn permit_ends_once()
    ensures { EachService PermitEndsOnce }
{
    fleet_opens_as();
    permits_end_once();
}

/// States that no number has its effect twice on a cell, over all epochs, crashes, restores and reopenings.
pub fn order_acts_once()
    ensures { EachService OrderActsOnce }
{
    fleet_opens_as();
}

/// States that once a controller opens on what a reopening has settled, no order that was sent before has an effect any
/// more, on whatever cell.
pub fn old_orders_rest()
    ensures { EachService OldOrdersRest }
{
    fleet_opens_as();
}
