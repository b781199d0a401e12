//! A worked play, computed by the definitions.
ghost use Rattle.laws_rounds.specs.RoundPlays.{EndsInSixRounds};

/// Shows that a handover whose stream has six steps left is done after six rounds.
pub fn ends_in_six_rounds()
    ensures { EndsInSixRounds }
{}
