//! The laws of a reopening: what holds while a controller fences and settles the servers anew.
ghost use Rattle.laws_network.specs.FleetLaws.{EachFleet};
ghost use Rattle.laws_network.specs.FleetReopening.{AgentsDoSo, FleetCanReopen, FleetOpensInForce};
ghost use Rattle.laws_network.specs.ReopeningLaws.{CanBegin, CanBeginAgain, EachSettling, ExecutesSafely, LoadsFit};
ghost use Rattle.laws_network.specs.ReopeningLaws.{OpensWithPast, RefusesNone, SendsFromBeginnings, SettlesFairly};
ghost use Rattle.laws_network.specs.ReopeningLaws.{ShownExecutes, ToldIsHad};

/// States that a settlement keeps the cells of a shard with no handover under way whose primary is there, and gives one
/// with a handover to a party, or to the server that has more of it.
pub fn settles_fairly()
    ensures { SettlesFairly }
{}

/// States that whatever a controller with any beginning of a journal sends is among what the whole journal sends.
pub fn sends_from_beginnings()
    ensures { SendsFromBeginnings }
{}

/// States that at most one server executes requests of a shard, whatever comes while servers are fenced and settled.
pub fn executes_safely()
    ensures { EachSettling ExecutesSafely }
{}

/// States that the loads of each server that has its slots are within its room.
pub fn loads_fit()
    ensures { EachSettling LoadsFit }
{}

/// States that what a server has told is what it has until a settlement is confirmed, unless it forgets.
pub fn told_is_had()
    ensures { EachSettling ToldIsHad }
{}

/// States that the server that the map shows executes, or forwards to the one that does, if neither it nor the map's
/// owner is fenced.
pub fn shown_executes()
    ensures { EachSettling ShownExecutes }
{}

/// States that once all have taken a settlement, it opens an epoch with a past, so that all laws of the network hold
/// from there on.
pub fn opens_with_past()
    ensures { EachSettling OpensWithPast }
{}

/// States that a reopening can begin wherever the network leads.
pub fn can_begin()
    ensures { CanBegin }
{}

/// States that once a settlement is in force, and no server waits for a restore, the next reopening can begin.
pub fn can_begin_again()
    ensures { EachSettling CanBeginAgain }
{}

/// States that no server refuses an order of before, however late it comes.
pub fn refuses_none()
    ensures { EachSettling RefusesNone }
{}

/// States that a reopening can begin wherever the whole fleet leads, whatever is under way or was lost.
pub fn fleet_can_reopen()
    ensures { EachFleet FleetCanReopen }
{}

/// States that what an agent does with fences, settles, restores, orders and requests is what the laws of a reopening
/// say of servers.
pub fn agents_do_so()
    ensures { AgentsDoSo }
{}

/// States that once a settlement is in force, the whole fleet opens on it.
pub fn fleet_opens_in_force()
    ensures { EachSettling FleetOpensInForce }
{}
