//! The published map over all epochs and reopenings.
ghost use Rattle.laws_reopening.specs.Service.{EachService};
ghost use Rattle.laws_reopening.specs.Versions.{VersionsNeverGoBack};

use crate::in_force::fleet_opens_as;
use laws_network::map_never_goes_back;

/// States that wherever events lead, reopenings among them, no version that the map shows goes back.
pub fn versions_never_go_back()
    ensures { EachService VersionsNeverGoBack }
{
    fleet_opens_as();
    map_never_goes_back();
}
