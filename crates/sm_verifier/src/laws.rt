//! Laws of plans that are checked and admitted, for those who run them.
ghost use Rattle.sm_verifier.specs.Within.{AdmittedIsWithin, WithinIsAdmitted};
ghost use Rattle.sm_verifier.specs.Progress.{SomeGoesOn};
ghost use Rattle.sm_verifier.specs.Signals.{SignalsStandOnce, SignalsAreOfPlan};
ghost use Rattle.sm_verifier.specs.Turn.{GoodStreamsGoOn, InstrsAreReachable};

/// States that a signal that is used once is posted at one step and waited for at one. Each signal of an instruction is
/// the plan's.
pub fn signals_stand_once()
    ensures once { SignalsStandOnce }
    ensures known { SignalsAreOfPlan }
{}

/// States that wherever the streams of a sound plan stand, one of them can make its next step, unless all have
/// finished.
pub fn some_goes_on()
    ensures { SomeGoesOn }
{}

/// States that a plan is admitted exactly if the servers that it mentions are up, and its streams declare of each right
/// no more than a pool has that is true of the placement. Each cell right and crown is then declared by one stream.
pub fn admitted_is_within()
    ensures within { AdmittedIsWithin }
    ensures admitted { WithinIsAdmitted }
{}

/// States that each instruction of a good stream leads from the hold before it to the hold before the next one, within
/// the budget.
pub fn good_streams_go_on()
    ensures { GoodStreamsGoOn }
{}

/// States that each instruction of a plan of the configuration can be made if the servers that the plan mentions are
/// up.
pub fn instrs_are_reachable()
    ensures { InstrsAreReachable }
{}
