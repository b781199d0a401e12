//! The laws.
ghost use Rattle.sm_protocol.specs.Laws.{EachReached};
ghost use Rattle.laws_calls.specs.Tries.{CallsStay, FurtherTriesRepeat, LeavesNumbers};

/// States that a further try is the same call. If a try of a stream is lost, before its effect or behind it, the next
/// one is of the same instruction: the same call at the same server, with the same handover number, under the same
/// number. This stays so, whatever happens, until the stream makes its step.
pub fn further_tries_repeat()
    ensures { FurtherTriesRepeat }
{}

/// States that the call that a running stream stands before, its server and handover number included, stays the same
/// until the stream makes its step, tried or not, whatever happens.
pub fn calls_stay()
    ensures { CallsStay }
{}

/// States that a try that comes to its server leaves its number there as the last one of the cell. So the number of
/// which the other laws speak is the one that the server has heard.
pub fn tries_leave_numbers()
    ensures { EachReached LeavesNumbers }
{}
