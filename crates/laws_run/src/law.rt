//! The laws.
ghost use Rattle.laws_run.specs.Renumbers.{KeptIsRenumbered, OpensOnKept};
ghost use Rattle.laws_run.specs.Runs.{EachRun};
ghost use Rattle.laws_run.specs.RunLaws.{FloorsHold, IsRunSafe, LinesGoOn, RunsBegin};

use laws_driver::{answers_have_entries, drivers_open, fleet_driven_is_safe};
use laws_network::fleet_is_reached;
use laws_reopening::rules_keep_floors;
use laws_session::replays_agree;

/// States that in a run each line that changes something and is true is a command of the driver, whose entries tell the
/// truth.
pub fn lines_go_on()
    ensures { EachRun LinesGoOn }
{
    answers_have_entries();
    fleet_is_reached();
    replays_agree();
}

/// States that if each line that changes something is true when it comes, all laws of the fleet hold, whatever happens
/// to servers and network between two lines, and however often a process is killed and another one goes on.
pub fn run_is_safe()
    ensures { EachRun IsRunSafe }
{
    fleet_is_reached();
    replays_agree();
    fleet_driven_is_safe();
}

/// States that no shard has fewer live replicas than its floor, if servers lose their slots only while they are down,
/// and each line is true.
pub fn true_lines_keep_floors()
    ensures { EachRun FloorsHold }
{
    fleet_is_reached();
    replays_agree();
    rules_keep_floors();
}

/// States that a line that opens a journal begins a run as users begin it: every server is Unknown, and asks for its
/// slots.
pub fn runs_begin()
    ensures { RunsBegin }
{
    drivers_open();
}

/// States that what a confirmation keeps for the next driver is what it settles, in the numbers of the document.
pub fn kept_is_renumbered()
    ensures { KeptIsRenumbered }
{}

/// States that the driver that comes of a reopening has just been opened on that, with the permits of before.
pub fn opens_on_kept()
    ensures { OpensOnKept }
{}
