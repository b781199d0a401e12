//! The laws.
ghost use Rattle.laws_network.specs.FleetLaws.{EachFleet};
ghost use Rattle.laws_rounds.specs.Round.{RoundCanCome, RoundsEndPlans};

use laws_network::{no_letter_is_refused, some_fleet_can_go_on};

/// States that if whatever is outstanding comes once in each round, a plan is done after at most as many rounds as its
/// streams have steps left.
pub fn rounds_end_plans()
    ensures { EachFleet RoundsEndPlans }
{
    no_letter_is_refused();
    some_fleet_can_go_on();
}

/// States that a round can come wherever events lead, while each server that an unfinished plan names has its slots.
pub fn round_can_come()
    ensures { EachFleet RoundCanCome }
{}
