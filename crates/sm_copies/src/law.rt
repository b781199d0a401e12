//! What the decisions come to, in the words of those who rely on them.
ghost use Rattle.sm_copies.specs.Laws.{AcknowledgesOnePosition, ComparesInOneOrder, ResumesAtABeginning};

/// States that all copies stand in one order.
pub fn compares_in_one_order()
    ensures { ComparesInOneOrder }
{}

/// States that a copy goes on behind a source exactly if it is a beginning of the source's list, as long as each view
/// is one list.
pub fn resumes_at_a_beginning()
    ensures { ResumesAtABeginning }
{}

/// States that there is one position up to which a primary acknowledges.
pub fn acknowledges_one_position()
    ensures { AcknowledgesOnePosition }
{}
