//! Worked plays, computed by the definitions.
ghost use Rattle.laws_reopening.specs.FloorsPlays.{KeepsTwo};

/// Shows that if a server is lost in the middle of a handover, the other party and a secondary are the two replicas
/// that the shard wants.
pub fn keeps_two()
    ensures { KeepsTwo }
{}
