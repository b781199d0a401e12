//! Sessions that take the same entries.
ghost use Rattle.laws_session.specs.Alike.{AreSessionsAlike, EachSessionAlike, IsEquivalence};
ghost use Rattle.laws_session.specs.Plays.{AnswerIsAnEntry, NextEpochIsAnEntry};
ghost use Rattle.laws_session.specs.Replays.{EachReopeningAlike, EntriesGoAlike, ReopeningsGoAlike, ReplaysAgree};
ghost use Rattle.laws_session.specs.Replays.{ReplaysStayAlike};

use sm_driver::drivers_go_alike;

/// States that being alike is an equivalence of sessions.
pub fn alike_is_equivalence()
    ensures { IsEquivalence AreSessionsAlike }
{}

/// States that if two sessions are alike, and take the same entry, they are alike again. An entry is a line that is no
/// question.
pub fn entries_go_alike()
    ensures { EachSessionAlike EntriesGoAlike }
{
    drivers_go_alike();
}

/// States the same of lists of entries.
pub fn replays_stay_alike()
    ensures { EachSessionAlike ReplaysStayAlike }
{
    entries_go_alike();
}

/// States that sessions that begin with nothing, and take the same entries, are alike.
pub fn replays_agree()
    ensures { ReplaysAgree }
{
    replays_stay_alike();
}

/// States that if two reopenings are alike, and take the same answer to a fence, the same confirmation, or the same
/// answer to a settle, they are alike again.
pub fn reopenings_go_alike()
    ensures { EachReopeningAlike ReopeningsGoAlike }
{}

/// States that the premises of these laws can be met: whenever a driver can open the next epoch, the line that asks
/// for it can be an entry.
pub fn next_epoch_is_an_entry()
    ensures { NextEpochIsAnEntry }
{}

/// States the same of a line of a reopening: whenever a reopening can take an answer to a fence, the line that says it
/// can be an entry.
pub fn answer_is_an_entry()
    ensures { AnswerIsAnEntry }
{}
