//! Laws of holds, as the machine uses them.
ghost use Rattle.sm_reservation.specs.Laws.{NoRightsAreNoHold, SpentIsNothing, NotShortIsCovered, RightsStayKnown};
ghost use Rattle.sm_reservation.specs.Laws.{JoinsInPlacement, CapacityByHold};

/// States that no rights are a hold of nothing.
pub fn no_rights_are_no_hold()
    ensures { NoRightsAreNoHold }
{}

/// States that a grant that was given back, or joined to another one, has nothing left: rights less themselves are
/// nothing.
pub fn a_spent_grant_has_nothing()
    ensures { SpentIsNothing }
{}

/// States that a hold is short of nothing of a parcel exactly if it has all of it.
pub fn not_short_is_covered()
    ensures { NotShortIsCovered }
{}

/// States that rights of known shards and servers stay so, as parcels go in and out.
pub fn rights_stay_known()
    ensures { RightsStayKnown }
{}

/// States that two holds that have together no more of each right than there is in a placement can be put together.
pub fn joins_in_placement()
    ensures { JoinsInPlacement }
{}

/// States that if what is held then has no more keys than the capacity, there is capacity for the change.
pub fn capacity_by_hold()
    ensures { CapacityByHold }
{}
