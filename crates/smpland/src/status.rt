//! The end of the program.
ghost use Rattle.std.specs.Prelude.{◌≡◌};
ghost use Rattle.smpland.specs.Endings.{exit_status_of};

/// The end of the program.
#[derive(Clone, Copy, Debug, PartialEq, Eq)]
pub enum Status {
    /// Each line has its reply.
    Done,
    /// The command line asks for nothing.
    BadWords,
    /// Memory was short.
    NoMemory,
    /// The journal, the input or the output failed.
    Failed,
    /// Another process has the journal.
    InUse,
    /// The journal is damaged, or is none.
    Damaged,
}

impl Status {
    /// The exit status of a program that ends so.
    pub const fn code(self) -> u8
        ensures { result ≡ exit_status_of self }
    {
        match self {
            Status::Done => 0,
            Status::BadWords => 2,
            Status::NoMemory => 3,
            Status::Failed => 4,
            Status::InUse => 5,
            Status::Damaged => 6,
        }
    }
}
