//! Worked plays of the fleet, computed by its definitions.
ghost use Rattle.laws_network.specs.FleetPlays.{CrashesAreHarmless, CrossingIsHarmless, LateRestoreIsHarmless};
ghost use Rattle.laws_network.specs.FleetPlays.{LostAnswerIsHarmless, OldMessagesAreHarmless, UncheckedPlanIsRefused};

/// Shows that a lost answer does no harm: the order comes again, and is answered again.
pub fn lost_answer_is_harmless()
    ensures { LostAnswerIsHarmless }
{}

/// Shows that crashes do no harm: of a server while an order is at work, and of the controller between its effect and
/// its answer.
pub fn crashes_are_harmless()
    ensures { CrashesAreHarmless }
{}

/// Shows that it does no harm if the orders of two streams cross.
pub fn crossing_is_harmless()
    ensures { CrossingIsHarmless }
{}

/// Shows that a late restore does no harm: a server forgets twice, and the first restore comes after the second one was
/// recorded.
pub fn late_restore_is_harmless()
    ensures { LateRestoreIsHarmless }
{}

/// Shows that old messages do no harm: an order and a passed request of an earlier epoch come in the middle of the same
/// handover of a later one.
pub fn old_messages_are_harmless()
    ensures { OldMessagesAreHarmless }
{}

/// Shows that a server refuses an order of a plan that was not checked.
pub fn unchecked_plan_is_refused()
    ensures { UncheckedPlanIsRefused }
{}
