//! The laws.
ghost use Rattle.laws_network.specs.FleetLaws.{EachFleet};
ghost use Rattle.laws_decisions.specs.Decisions.{ApprovesAlike, EffectsAreTold, StartsAlike};

/// States that the question for a restart is answered as if all effects were recorded, whichever orders and
/// publications have had theirs.
pub fn approves_alike()
    ensures { EachFleet ApprovesAlike }
{}

/// States that a checked plan begins exactly if it would with all effects recorded, whichever orders and publications
/// have had theirs.
pub fn starts_alike()
    ensures { EachFleet StartsAlike }
{}

/// States that the servers that have their slots have what the record says with the effects of some streams. So the
/// other two laws are about what is so.
pub fn effects_are_told()
    ensures { EachFleet EffectsAreTold }
{}
