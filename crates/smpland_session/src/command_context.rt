//! The context of a command.
ghost use Rattle.std.specs.Prelude.{◌≡◌};
ghost use Rattle.smpland_session.specs.Closed.{closed_word};

/// The context of a command: its place if it changes something, and whether a reopening is under way.
#[derive(Clone, Copy, Debug, PartialEq, Eq)]
pub struct CommandContext {
    pub place: u64,
    pub is_reopening: bool,
}

impl CommandContext {
    /// The word for why nothing may be done to a journal that is not open.
    pub fn closed_word(self) -> &'static str
        ensures { result.now ≡ closed_word self.is_reopening }
    {
        if self.is_reopening {
            "Reopening"
        } else {
            "NotOpened"
        }
    }
}
