//! The laws of the network: what holds wherever events lead.
ghost use Rattle.laws_network.specs.Laws.{CanFinish, CanReopen, EachNet, ExecutesWhereServing, HasEffectsOnce};
ghost use Rattle.laws_network.specs.Laws.{NoneIsRefused, RealIsAtEnds, RealIsNear, RealIsRecorded, RealIsSafe};
ghost use Rattle.laws_network.specs.Laws.{RecordIsReached, ServesWhereUp, SomeCanGoOn};
ghost use Rattle.laws_network.specs.WorldLaws.{CanFinishOnward, CanReopenOnward, EachWorld, FollowsNet, NetIsReached};
ghost use Rattle.laws_network.specs.WorldLaws.{ShownIsNear, ShownIsRecorded, ShownIsRight, ShownNeverGoesBack};
ghost use Rattle.laws_network.specs.WorldLaws.{SomeCanGoOnward};

/// States that what the controller has recorded is a state of the protocol that events lead to.
pub fn record_is_reached()
    ensures { EachNet RecordIsReached }
{}

/// States that no server refuses an order, however late or often it comes.
pub fn none_is_refused()
    ensures { EachNet NoneIsRefused }
{}

/// States that no server that is recorded as down serves an order.
pub fn serves_where_up()
    ensures { EachNet ServesWhereUp }
{}

/// States that the placement as the servers have it is safe, whatever is under way.
pub fn real_is_safe()
    ensures { EachNet RealIsSafe }
{}

/// States that no number has its effect twice on a cell, and no instruction has its effect twice, however often its
/// order comes.
pub fn is_once()
    ensures { EachNet HasEffectsOnce }
{}

/// States that each cell at the servers is as it is recorded, or one call further, whose answer is outstanding.
pub fn real_is_near()
    ensures { EachNet RealIsNear }
{}

/// States that if no answer is outstanding, the servers have what is recorded.
pub fn real_is_recorded()
    ensures { EachNet RealIsRecorded }
{}

/// States that once all plans are done, the servers have the end of the plans.
pub fn real_is_at_ends()
    ensures { EachNet RealIsAtEnds }
{}

/// States that once all plans are done, another controller can open on what the servers have, while old orders and
/// answers still come.
pub fn can_reopen()
    ensures { EachNet CanReopen }
{}

/// States that some stream of each plan that isn't done can go on.
pub fn some_can_go_on()
    ensures { EachNet SomeCanGoOn }
{}

/// States that the server that executes a request is the one server that serves its shard.
pub fn executes_where_serving()
    ensures { EachNet ExecutesWhereServing }
{}

/// States that wherever events lead, steps, orders and answers can lead on until all plans are done.
pub fn can_finish()
    ensures { EachNet CanFinish }
{}

/// States that with the map's owner beside them, controller and servers still come only to what events of the network
/// lead to. So all laws above hold of them.
pub fn net_is_reached()
    ensures { EachWorld NetIsReached }
{}

/// States that whatever comes leaves controller and servers as they are, or does what one event of the network does.
pub fn follows_net()
    ensures { FollowsNet }
{}

/// States that what the map shows of a shard never goes back, however late or often publications come.
pub fn shown_never_goes_back()
    ensures { ShownNeverGoesBack }
{}

/// States that the server that the map shows serves the shard, or forwards to the one that does.
pub fn shown_is_right()
    ensures { EachWorld ShownIsRight }
{}

/// States that each entry of the map is as it is recorded, or one publication further, whose answer is outstanding.
pub fn shown_is_near()
    ensures { EachWorld ShownIsNear }
{}

/// States that if no answer is outstanding, the map shows what is recorded.
pub fn shown_is_recorded()
    ensures { EachWorld ShownIsRecorded }
{}

/// States that some stream of each plan that isn't done can go on.
pub fn some_can_go_onward()
    ensures { EachWorld SomeCanGoOnward }
{}

/// States that wherever events lead, steps, orders, publications and answers can lead on until all plans are done.
pub fn can_finish_onward()
    ensures { EachWorld CanFinishOnward }
{}

/// States that once all plans are done, another controller can open on what the servers have and the map shows, while
/// old messages still come.
pub fn can_reopen_onward()
    ensures { EachWorld CanReopenOnward }
{}
