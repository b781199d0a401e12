//! The laws.
ghost use Rattle.laws_network.specs.ReopeningLaws.{EachSettling};
ghost use Rattle.laws_reopening.specs.Service.{EachService};
ghost use Rattle.laws_settling.specs.Ending.{CanEnd, CanSettle, CanTell};

use laws_network::{executes_safely, told_is_had};
use laws_reopening::{can_open, laws_hold, numbers_may_stay};

/// States that another reopening may begin whatever is under way, and that all can tell then.
pub fn can_tell()
    ensures { EachSettling CanTell }
{}

/// States that once all have told what they have, what comes of it may be confirmed under each configuration that has
/// place for it, and all can take it.
pub fn can_settle()
    ensures { EachSettling CanSettle }
{
    executes_safely();
    told_is_had();
}

/// States that once all have told what they have, events lead on until a controller runs plans again.
pub fn reopening_can_end()
    ensures { EachService CanEnd }
{
    can_settle();
    can_open();
    numbers_may_stay();
    laws_hold();
}
