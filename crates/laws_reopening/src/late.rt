//! Fences, settles and restores that come late.
ghost use Rattle.laws_network.specs.FleetLaws.{EachFleet};
ghost use Rattle.laws_reopening.specs.Late.{CarriedExecutesSafely, HeardIsSettled, LateChangesNothing};
ghost use Rattle.laws_reopening.specs.Late.{LateFenceForgets, LateIsOvertaken, OvertakenCommitsNothing};

use laws_network::fleet_is_safe;
use sm_agent::executes_at_owner;

/// States that a server that has its slots and is not fenced changes nothing by what a reopening at or below its number
/// has sent, or by a restore.
pub fn late_changes_nothing()
    ensures { LateChangesNothing }
{}

/// States that a late fence makes of an Unknown server what a loss of memory makes of it.
pub fn late_fence_forgets()
    ensures { LateFenceForgets }
{}

/// States that a server that takes something late is overtaken by the last reopening.
pub fn late_is_overtaken()
    ensures { LateIsOvertaken }
{}

/// States that a server that is overtaken commits no order of the last reopening's controller, and is Unknown once it
/// has heard of it.
pub fn overtaken_commits_nothing()
    ensures { OvertakenCommitsNothing }
{}

/// States that a server that was carried over executes requests by its old slots only as the one server that serves.
pub fn carried_executes_safely()
    ensures { EachFleet CarriedExecutesSafely }
{
    executes_at_owner();
    fleet_is_safe();
}

/// States that if a server still has its slots once it has heard of the last reopening, it stands above it, or was
/// settled at it.
pub fn heard_is_settled()
    ensures { HeardIsSettled }
{}
