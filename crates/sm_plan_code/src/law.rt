//! The laws of effects: what a stream that holds the rights for an instruction may count on.
ghost use Rattle.sm_plan_code.specs.Effects.{HasEffects, HasNumberedEffects, LastsAreUnseen, SignalGives, WaitTakes};
ghost use Rattle.sm_plan_code.specs.Known.{HoldsStayKnown, StaysReachable};
ghost use Rattle.sm_plan_code.specs.Reach.{ReachIsExclusive};
ghost use Rattle.sm_plan_code.specs.Table.{LinesExchange};

/// States that if the table of rights gives a hold after an instruction, its call is served. The amount of each right
/// that there is then moves as the amount that is held does.
pub fn has_effects()
    ensures { HasEffects }
{}

/// States that a signal leaves the placement as it is, and takes its parcel out of the hold.
pub fn signal_gives()
    ensures { SignalGives }
{}

/// States that a wait leaves the placement as it is, and puts the parcel of its signal into the hold.
pub fn wait_takes()
    ensures { WaitTakes }
{}

/// States that if the table of rights gives a hold after an instruction, that is the hold before it, less what the
/// instruction needs, with what it gives.
pub fn lines_exchange()
    ensures { LinesExchange }
{}

/// States that two holds that can both be true of a placement, each beside the other, reach no cell together.
pub fn reach_is_exclusive()
    ensures { ReachIsExclusive }
{}

/// States that last numbers make no difference to three things: whether it is a placement, how much there is of each
/// right, and what a hold says of it.
pub fn lasts_are_unseen()
    ensures { LastsAreUnseen }
{}

/// States that if the table of rights gives a hold after an instruction, its call has its effect under each number that
/// isn't the last one of its cell.
pub fn has_numbered_effects()
    ensures { HasNumberedEffects }
{}

/// States that what is held stays of known shards and servers along the code of a plan that fits.
pub fn holds_stay_known()
    ensures { HoldsStayKnown }
{}

/// States that an instruction of a plan that fits is reachable while the servers that it mentions are up.
pub fn stays_reachable()
    ensures { StaysReachable }
{}
