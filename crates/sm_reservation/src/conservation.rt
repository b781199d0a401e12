//! Laws of all calls of a pool and its grants, whatever their order.
ghost use Rattle.sm_reservation.specs.Conservation.{RightsAddUp, RightsKeepOneHolder};

/// States that the pool and all grants have together, of each right, what they had, less what trades gave up and with
/// what they got.
pub fn rights_add_up()
    ensures { RightsAddUp }
{}

/// States that a right to a cell or a crown is in at most one of the pool and all grants, unless a trade brings one
/// that is elsewhere.
pub fn rights_keep_one_holder()
    ensures { RightsKeepOneHolder }
{}
