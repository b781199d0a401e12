//! Worked plays, computed by the definitions.
ghost use Rattle.laws_service_data.specs.CutPlays.{HandoverCutsAtEnd};
ghost use Rattle.laws_service_data.specs.LeadPlays.{LeadMoves};
ghost use Rattle.laws_service_data.specs.Plays.{HandoverKeepsWrites, RestartKeepsWrites};
ghost use Rattle.laws_service_data.specs.ReopenedPlays.{FormerServesAgain, PrimaryServesOn, SecondaryIsChosen};

/// Shows that the premises can be met: a shard moves, and a write before the cut and one behind it are with the new
/// owner.
pub fn handover_keeps_writes()
    ensures { HandoverKeepsWrites }
{}

/// Shows that a primary that has lost its slots, but not its data, executes with all that was acknowledged once it is
/// restored.
pub fn restart_keeps_writes()
    ensures { RestartKeepsWrites }
{}

/// Shows that if a secondary is lost, the primary is left in a reopening, and serves with all that was acknowledged.
pub fn primary_serves_on()
    ensures { PrimaryServesOn }
{}

/// Shows that if the primary is lost, and the shard is not named, the secondary is chosen in a reopening, and serves
/// with all that was acknowledged.
pub fn secondary_is_chosen()
    ensures { SecondaryIsChosen }
{}

/// Shows that if the primary has become a secondary, and the other one is lost, a reopening can make it the primary
/// again, with all that was acknowledged.
pub fn former_serves_again()
    ensures { FormerServesAgain }
{}

/// Shows that an old owner can make its cut at the end of its list, and the new one take over there.
pub fn handover_cuts_at_end()
    ensures { HandoverCutsAtEnd }
{}

/// Shows that the premises can be met if no rule is on orders' numbers: a primary becomes a secondary, and its secondary
/// the primary, by orders with later numbers.
pub fn lead_moves()
    ensures { LeadMoves }
{}
