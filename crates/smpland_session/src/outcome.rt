//! The outcomes of lines: what their replies tell.
ghost use Rattle.std.specs.Prelude.{◌≡◌};
ghost use Rattle.smpland_session.specs.Exchanges.{is_change};

use crate::closed::Closed;
use crate::driver_outcome::DriverOutcome;
use crate::opening::OpenOutcome;
use crate::reopen_outcome::ReopenOutcome;
use smpland_lines::{BadLine, Question};
use smpland_reopening_lines::ReopeningOutcome;

/// The outcome of a line.
#[derive(Drop)]
pub enum Outcome<'t, 'a> {
    /// The line is no command.
    Bad(BadLine<'a>),
    /// The line opens a journal.
    Open(OpenOutcome),
    /// The line is on the journal that is open.
    Driver(DriverOutcome),
    /// The line is on a journal, and none is open.
    Closed(Closed),
    /// The line asks for a reopening.
    Reopen(ReopenOutcome),
    /// The line is on the reopening under way.
    Reopening(ReopeningOutcome<'a>),
    /// The line asks a question, which is answered by the session as it is.
    Answered(Question<'t, 'a>),
}

impl Outcome<'_, '_> {
    /// Whether something has changed.
    pub fn has_changed(&self) -> bool
        ensures { result ≡ is_change self.now }
    {
        match self {
            Outcome::Open(came) => came.has_opened(),
            Outcome::Driver(came) => came.has_changed(),
            Outcome::Reopen(came) => came.has_begun(),
            Outcome::Reopening(came) => came.has_counted(),
            Outcome::Bad(_) | Outcome::Closed(_) | Outcome::Answered(_) => false,
        }
    }
}
