//! The laws of the fleet: what holds wherever events lead controller, servers and the map's owner.
ghost use Rattle.laws_network.specs.FleetLaws.{BeginningsAreHarmless, CommitsOncePerNumber, CommitsWhereUp, EachFleet};
ghost use Rattle.laws_network.specs.FleetLaws.{ExecutesAtOneServer, FleetCanFinish, FleetIsReached, FleetIsSafe};
ghost use Rattle.laws_network.specs.FleetLaws.{FleetOpens, MapIsRight, MapNeverGoesBack, NoLetterIsRefused};
ghost use Rattle.laws_network.specs.FleetLaws.{OnlyPresentCommits, PermitsEndOnce, PresentIsHeard, ServersAreAtEnds};
ghost use Rattle.laws_network.specs.FleetLaws.{ServersAreNear, ServersAreRecorded, SomeFleetCanGoOn};

/// States that what the controller has recorded is a state of the protocol that events lead to.
pub fn fleet_is_reached()
    ensures { EachFleet FleetIsReached }
{}

/// States that no server refuses an order, however late or often it comes, and whoever has sent it.
pub fn no_letter_is_refused()
    ensures { EachFleet NoLetterIsRefused }
{}

/// States that a present order is begun, goes on or is answered again, unless its server has lost its slots.
pub fn present_is_heard()
    ensures { EachFleet PresentIsHeard }
{}

/// States that only present orders have an effect, of all that were ever sent, by deposed controllers too.
pub fn only_present_commits()
    ensures { EachFleet OnlyPresentCommits }
{}

/// States that at most one server serves each shard, loads are within room, and floors are kept if only servers that
/// are down have lost their slots.
pub fn fleet_is_safe()
    ensures { EachFleet FleetIsSafe }
{}

/// States that the server that executes a request, which may have been passed on long ago, is the one server that
/// serves its shard.
pub fn executes_at_one_server()
    ensures { EachFleet ExecutesAtOneServer }
{}

/// States that no number has its effect twice on a cell, over all epochs, crashes and restores.
pub fn commits_once_per_number()
    ensures { EachFleet CommitsOncePerNumber }
{}

/// States that each cell of a server that has its slots is as recorded, or one call further.
pub fn servers_are_near()
    ensures { EachFleet ServersAreNear }
{}

/// States that once all plans are done, servers that have their slots have the end of the plans.
pub fn servers_are_at_ends()
    ensures { EachFleet ServersAreAtEnds }
{}

/// States that what the map shows of a shard never goes back.
pub fn map_never_goes_back()
    ensures { MapNeverGoesBack }
{}

/// States that the server that the map shows serves the shard, or forwards to the one that does.
pub fn map_is_right()
    ensures { EachFleet MapIsRight }
{}

/// States that a permit ends at most one restart, over all epochs.
pub fn permits_end_once()
    ensures { EachFleet PermitsEndOnce }
{}

/// States that if each server that unfinished plans name has its slots, some stream of each can go on, by itself or by
/// its order or publication.
pub fn some_fleet_can_go_on()
    ensures { EachFleet SomeFleetCanGoOn }
{}

/// States that if nothing is under way, servers that have their slots have what is recorded.
pub fn servers_are_recorded()
    ensures { EachFleet ServersAreRecorded }
{}

/// States that an order of a controller with any beginning of the journal is present, or has no effect any more, and
/// that its restores are among those of the whole journal.
pub fn beginnings_are_harmless()
    ensures { EachFleet BeginningsAreHarmless }
{}

/// States that if each server that unfinished plans name has its slots, events can lead on until all plans are done.
pub fn fleet_can_finish()
    ensures { EachFleet FleetCanFinish }
{}

/// States that a fleet can open on each placement that a machine can open on.
pub fn fleet_opens()
    ensures { FleetOpens }
{}

/// States that no server that is recorded as down commits an order.
pub fn commits_where_up()
    ensures { EachFleet CommitsWhereUp }
{}
