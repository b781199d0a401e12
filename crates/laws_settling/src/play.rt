//! Worked plays, computed by the definitions.
ghost use Rattle.laws_settling.specs.EndingPlays.{CarriedBlocks, HasEnd};

/// Shows that if a server is lost in the middle of a handover, and all others have told, what they told can be settled.
pub fn has_end()
    ensures { HasEnd }
{}

/// Shows that nothing may be confirmed while a server is carried over that an earlier reopening gave up, and whose
/// shard went on: it has to tell, or to be given up again.
pub fn carried_blocks()
    ensures { CarriedBlocks }
{}
