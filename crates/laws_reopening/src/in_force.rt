//! The fleet once a settlement is in force, by the numbers of the next controller.
ghost use Rattle.laws_network.specs.ReopeningLaws.{EachSettling};
ghost use Rattle.laws_reopening.specs.Renumbering.{FleetIsThereAs, FleetOpensAs, NumbersMayStay};

use laws_network::opens_with_past;

/// States that once a settlement is in force, the whole fleet opens on it, whatever numbers the next controller gives
/// its servers and shards.
pub fn fleet_opens_as()
    ensures { EachSettling FleetOpensAs }
{
    opens_with_past();
}

/// States that there is such a fleet.
pub fn fleet_is_there_as()
    ensures { EachSettling FleetIsThereAs }
{
    opens_with_past();
}

/// States that numbers may stay: a settlement on which a controller may open is itself in its own numbers.
pub fn numbers_may_stay()
    ensures { NumbersMayStay }
{}
