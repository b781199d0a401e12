//! Why there is no report of a plan that was run to its end.
ghost use Rattle.std.specs.Prelude.{◌≡◌};
ghost use Rattle.sm_report.specs.RunStop.{not_finished_text};

use crate::stop::Stop;
use std::alloc::AllocError;

/// Why a plan that has begun was not run to its end. Nothing halts the board of a report, no call is lost on it, and no
/// server is restarted: so each but the first would be a fault of this program.
#[derive(Clone, Copy, Debug, PartialEq, Eq)]
pub enum NotFinished {
    /// A thread could not be started, and no stream has stepped.
    NoThread,
    /// The board was halted.
    Halted,
    /// A stream has spent its allowance.
    Spent,
    /// The board has given out no caller for an ask.
    NoCaller,
    /// A client has asked for another shard than its ask names.
    OtherAsk,
    /// The board could not be closed.
    NotClosed,
    /// Another plan has begun on the board, or an event has happened on it that is no step of a stream and no request.
    OtherEvents,
}

impl NotFinished {
    /// Returns the report that is written then.
    pub fn text(self) -> &'static str
        ensures { result.now ≡ not_finished_text self }
    {
        match self {
            NotFinished::NoThread => "not run: 2 NoThread\n",
            NotFinished::Halted => "not run: 3 Halted\n",
            NotFinished::Spent => "not run: 4 Spent\n",
            NotFinished::NoCaller => "not run: 5 NoCaller\n",
            NotFinished::OtherAsk => "not run: 6 OtherAsk\n",
            NotFinished::NotClosed => "not run: 7 NotClosed\n",
            NotFinished::OtherEvents => "not run: 8 OtherEvents\n",
        }
    }
}

/// Why there is no report of a plan that was run to its end.
#[derive(Drop)]
pub enum RunStop {
    /// A stage ended the report, as it ends others.
    Stop(Stop),
    /// The plan was not run to its end.
    NotFinished(NotFinished),
}

impl From<AllocError> for RunStop {
    ghost use Rattle.sm_report.specs.declared.stop.Stop.TheVariants.{NoMemory};
    ghost use Rattle.sm_report.specs.declared.run_stop.RunStop.TheVariants as run_stop;

    ghost from_gives = { λ _ why. why ≡ run_stop.Stop NoMemory };

    fn from(_error: AllocError) -> RunStop {
        RunStop::Stop(Stop::NoMemory)
    }
}

impl From<Stop> for RunStop {
    ghost use Rattle.sm_report.specs.declared.run_stop.RunStop.TheVariants as run_stop;

    ghost from_gives = { λ stop why. why ≡ run_stop.Stop stop };

    fn from(stop: Stop) -> RunStop {
        RunStop::Stop(stop)
    }
}
