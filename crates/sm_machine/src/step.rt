//! Answers to steps of streams.
use sm_protocol::Played;

/// The answer to a step of a stream.
#[derive(Clone, Copy, Debug, PartialEq, Eq)]
pub enum Step {
    /// The step was made.
    Moved,
    /// The signal that the stream waits for is not posted.
    Blocked { signal: u32 },
    /// The stream has finished, now or before.
    Done,
    /// The machine is halted.
    Halted,
    /// The stream was not begun.
    Unknown,
    /// The call was lost, or its answer.
    Lost,
    /// The next step is a call, and the tries of the stream equal its allowance.
    Spent,
}

/// The answer, as the log and lists of events have it.
impl From<Step> for Played {
    ghost use Rattle.std.specs.Prelude.{◌≡◌};
    ghost use Rattle.sm_machine.specs.Played.{played_of};

    ghost from_gives = { λ step answer. answer ≡ played_of step };

    fn from(step: Step) -> Played {
        match step {
            Step::Moved => Played::Moved,
            Step::Blocked { signal } => Played::Blocked { signal },
            Step::Done => Played::Done,
            Step::Halted => Played::Halted,
            Step::Unknown => Played::Unknown,
            Step::Lost => Played::Lost,
            Step::Spent => Played::Spent,
        }
    }
}
