//! The laws of the protocol: what holds of every state that events lead to.
ghost use Rattle.sm_protocol.specs.Laws.{ApprovedWhereReserved, BegunIsKnown, BegunWhereAccepted, CountsEffects};
ghost use Rattle.sm_protocol.specs.Laws.{EachReached, EffectsOnce, EndsAreReached, ExecutedServes, FollowsEntries};
ghost use Rattle.sm_protocol.specs.Laws.{Headline, IsConserved, IsSmall, PlaysAreRuns, PlaysAreSafe, RunsAreSafe};
ghost use Rattle.sm_protocol.specs.Laws.{TicketsOnce, TriesAreAllowed, UnlostIsUnspent, UnrecordedChangesNothing};
ghost use Rattle.sm_protocol.specs.Laws.{WithLosses};
ghost use Rattle.sm_protocol.specs.Log.{IsLegal};
ghost use Rattle.sm_protocol.specs.Unchecked.{RefusalsCome};

use sm_placement::answered_where_allowed;

/// States that a checked plan is begun exactly if it is accepted, the log has its places and another plan may run.
pub fn begun_where_accepted()
    ensures { BegunWhereAccepted }
{}

/// States that a restart is approved exactly if five things are so: the server is up, no unfinished stream's code
/// mentions it, fewer servers are down than the limit, each shard that is live at it keeps its floor and what is
/// reserved, and the log has two free places.
pub fn approved_where_reserved()
    ensures { ApprovedWhereReserved }
{}

/// States that, from a state in whose log no unfinished stream has a lost call, three things hold after any list of
/// starts of checked plans, stream steps, refills, requests and restart events. No call of it is refused, nor one by an
/// event that comes next; the state is safe; and some stream of each plan that isn't done can step.
pub fn headline()
    ensures { Headline }
{}

/// States that, if calls may be lost, no try is one that its server must refuse, and the state is safe. Some stream of
/// each plan that isn't done can step, or one that hasn't finished has spent its allowance.
pub fn with_losses()
    ensures { WithLosses }
{}

/// States that the server has to serve the call of each try that a running stream may make next, be it lost or not. The
/// server is up, and the call is allowed, or it repeats the number of the last call that had an effect on its cell.
pub fn tries_are_allowed()
    ensures { EachReached TriesAreAllowed }
{
    answered_where_allowed();
}

/// States that a plan that was not checked has its call refused, in a worked play. So it means something that no call
/// of a checked one is refused.
pub fn refusals_come()
    ensures { RefusalsCome }
{}

/// States that if no call is lost, no stream has spent its allowance, and its tries are within its budget.
pub fn unlost_is_unspent()
    ensures { UnlostIsUnspent }
{}

/// States that no step of a stream that was begun is Unknown.
pub fn begun_is_known()
    ensures { BegunIsKnown }
{}

/// States that no number of a call has its effect twice, neither along one list of events nor along lists one after the
/// other.
pub fn effects_once()
    ensures { EffectsOnce }
{}

/// States that a stream has had one effect for each call among the instructions that it has made, and one more if a
/// call has had its effect and was not answered.
pub fn effects_are_counted()
    ensures { EachReached CountsEffects }
{}

/// States that the server that executes a request is the one server that serves its shard.
pub fn executed_serves()
    ensures { EachReached ExecutedServes }
{}

/// States that the recorded events and starts lead from the opening to the state, with the recorded answers. No pass is
/// passed on twice, and what is passed on is an earlier pass, with its shard, sender, target and number.
pub fn log_replays()
    ensures { EachReached IsLegal }
{}

/// States that each ticket is spent by one answer at most.
pub fn tickets_once()
    ensures { TicketsOnce }
{}

/// States that the published map is that of the opening with the entries added that the state has of publications.
/// Along those of a shard the versions rise by one.
pub fn map_follows_entries()
    ensures { EachReached FollowsEntries }
{}

/// States that an event that is not recorded and starts no plan changes nothing.
pub fn unrecorded_changes_nothing()
    ensures { UnrecordedChangesNothing }
{}

/// States what is so once all plans are done. The log has each stream's instructions in their order, each once, lost
/// tries and refills aside, and then its end. The placement is the end of the plans in the order of their starts, with
/// servers down as the recorded restarts leave them, whatever the schedule was.
pub fn ends_are_reached()
    ensures { EndsAreReached }
{}

/// States that a list of events that is played with a hand is the run of those for which the hand has something. All
/// others are Unknown.
pub fn plays_are_runs()
    ensures { PlaysAreRuns }
{}

/// States the headline, and the laws on lost calls, on the effects of calls, on requests and on tickets, of every list
/// of events that fit.
pub fn runs_are_safe()
    ensures { RunsAreSafe }
{}

/// States the headline, and the laws on lost calls, on the effects of calls, on requests and on tickets, of every list
/// of events that is played with a hand of checked plans.
pub fn plays_are_safe()
    ensures { PlaysAreSafe }
{}

/// States that all room of each server and all live replicas of each shard are accounted for: free in the pool, held or
/// under way, or not to be used by anybody.
pub fn room_is_conserved()
    ensures { EachReached IsConserved }
{}

/// States that versions and numbers stay below 2^47, and the log within its room.
pub fn numbers_stay_small()
    ensures { EachReached IsSmall }
{}
