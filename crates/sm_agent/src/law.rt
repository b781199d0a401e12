//! The laws that the definitions come to, in the words of those who rely on a server.
ghost use Rattle.sm_agent.specs.Laws.{CommitsCall, CommitsInOrder, CommitsOnce, ExecutesAtOwner, FencedCommitsNothing};
ghost use Rattle.sm_agent.specs.Laws.{MapGoesOn, OldHasNoEffect, RestoresOnce, SettlesOnce, TakesOverAtCut};
ghost use Rattle.sm_agent.specs.Laws.{UnknownDoesNothing, WorkGoesOn};
ghost use Rattle.sm_agent.specs.Laws.{DeletedSaysTheSame, HasItsPart, HeedsReopenings, LeavesTheRest, PassesOnAtCut};
ghost use Rattle.sm_agent.specs.Laws.{RequestsWait, TakesWhole};

/// States that a commit makes the call of the table.
pub fn commits_call()
    ensures { CommitsCall }
{}

/// States that a commit raises the slot's last number to the order's, which is above the base.
pub fn commits_in_order()
    ensures { CommitsInOrder }
{}

/// States that an order with a number at or below the slot's last one, or the base's, has no effect, whatever is at
/// work.
pub fn old_has_no_effect()
    ensures { OldHasNoEffect }
{}

/// States that a server answers a committed order again until it commits the next one, and that the order has no effect
/// again.
pub fn commits_once()
    ensures { CommitsOnce }
{}

/// States that work that is begun goes on, until it is committed or given up; then it begins anew.
pub fn work_goes_on()
    ensures { WorkGoesOn }
{}

/// States that an Unknown server takes no order, commits none and executes nothing.
pub fn unknown_does_nothing()
    ensures { UnknownDoesNothing }
{}

/// States that a fence raises the server's base above all earlier ones; until its settle nothing is committed.
pub fn fenced_commits_nothing()
    ensures { FencedCommitsNothing }
{}

/// States that a settle is taken once, and then answered again: for the fence that the server stands at, and the nonce
/// that it answered with.
pub fn settles_once()
    ensures { SettlesOnce }
{}

/// States that a restore is taken once, by an Unknown server, for the nonce under which it asks and no other.
pub fn restores_once()
    ensures { RestoresOnce }
{}

/// States that a request is executed at a primary at which nothing is at work, or passed on to a new owner. That owner
/// has applied all writes up to the cut, and is not frozen.
pub fn executes_at_owner()
    ensures { ExecutesAtOwner }
{}

/// States that a new owner takes over only once its cut is known and reached.
pub fn takes_over_at_cut()
    ensures { TakesOverAtCut }
{}

/// States that what the map shows of a shard is replaced by what has a higher version alone.
pub fn map_goes_on()
    ensures { MapGoesOn }
{}

/// States that from Begin until it is committed or given up, an order at a primary makes the shard's requests wait.
pub fn requests_wait()
    ensures { RequestsWait }
{}

/// States that requests are passed on by an old owner alone, with its cut, and by none that is fenced.
pub fn passes_on_at_cut()
    ensures { PassesOnAtCut }
{}

/// States that if a server still has its slots once it has heard of its journal's last reopening, it is as it was, and
/// its base is not below that reopening's.
pub fn heeds_reopenings()
    ensures { HeedsReopenings }
{}

/// States that a slot that may be deleted says the same of orders and requests as one that is not there.
pub fn deleted_says_the_same()
    ensures { DeletedSaysTheSame }
{}

/// States that whoever takes an assignment was given a part for each slot that it brings, and has slots afterwards.
pub fn takes_whole()
    ensures { TakesWhole }
{}

/// States that a slot of which an assignment brings a part has that cell and load, and nothing at work. Its last number
/// stays, and is 0 at a server that was Unknown.
pub fn has_its_part()
    ensures { HasItsPart }
{}

/// States that a server that has taken an assignment executes and passes on nothing of a shard of which it was brought
/// nothing, however late a request comes.
pub fn leaves_the_rest()
    ensures { LeavesTheRest }
{}
