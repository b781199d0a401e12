//! The law of settles.
ghost use Rattle.smpland_reopening_lines.specs.Laws.{SettlesBringAll};

/// States that a server that makes each slot what its settle brings, and leaves all others as they are, has what was
/// confirmed.
pub fn settles_bring_all()
    ensures { SettlesBringAll }
{}
