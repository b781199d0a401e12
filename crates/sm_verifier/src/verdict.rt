//! The verdict on a plan is one: its fault, and what holds it up, follow from the plan and the placement alone.
ghost use Rattle.std.specs.Prelude.{◌≡◌, ◌≢◌};
ghost use Rattle.sm_placement.specs.Setup.{Sizes};
ghost use Rattle.sm_placement.specs.Place.{Place};
ghost use Rattle.sm_reservation.specs.Hold.{Hold};
ghost use Rattle.sm_plan_code.specs.Plan.{PlanModel};
ghost use Rattle.sm_verifier.specs.declared.checking.Fault.{Fault};
ghost use Rattle.sm_verifier.specs.declared.checking.Fault.TheVariants.{NoMemory};
ghost use Rattle.sm_verifier.specs.declared.admission.Holding.{Holding};
ghost use Rattle.sm_verifier.specs.Plan.{IsSound, IsFault};
ghost use Rattle.sm_verifier.specs.Admission.{IsAdmitted, IsHolding};
ghost use Rattle.sm_verifier.specs.FirstHolding.{FindsHolding};
ghost use Rattle.sm_verifier.specs.Verdict.{IsSameFault, FindsFault};

/// States that a plan has one fault at most, and a sound plan has none, if memory is not short.
pub fn one_fault()
    ensures same { (c : Sizes) (plan : PlanModel) (f g : Fault) → IsFault c plan f → IsFault c plan g → f ≢ NoMemory
        → g ≢ NoMemory → IsSameFault f g }
    ensures sound { (c : Sizes) (plan : PlanModel) (f : Fault) → IsSound c plan → IsFault c plan f → f ≡ NoMemory }
{}

/// States that a plan is sound or has a fault, by the definitions alone.
pub fn finds_fault()
    ensures { FindsFault }
{}

/// States that one thing at most holds a plan up, and nothing holds up a plan that is admitted.
pub fn one_holding()
    ensures same { (c : Sizes) (p : Place) (pool : Hold) (plan : PlanModel) (h k : Holding)
        → IsHolding c p pool plan h → IsHolding c p pool plan k → h ≡ k }
    ensures admitted { (c : Sizes) (p : Place) (pool : Hold) (plan : PlanModel) (h : Holding)
        → IsAdmitted c p pool plan → ¬ IsHolding c p pool plan h }
{}

/// States that what holds a plan up is found by a search: nothing is found exactly if the plan is admitted.
pub fn finds_holding()
    ensures { FindsHolding }
{}
