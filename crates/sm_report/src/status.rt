//! The end of a report.
ghost use Rattle.std.specs.Prelude.{◌≡◌};
ghost use Rattle.sm_report.specs.Status.{code_of};

/// The end of a report.
#[derive(Clone, Copy, Debug, PartialEq, Eq)]
pub enum Status {
    /// The report was made and written.
    Done,
    /// The task is refused, and the report says why.
    Refused,
    /// The document is not one, and the report says why.
    BadInput,
    /// Memory ran out. Nothing was written.
    NoMemory,
    /// The plan had begun, and was not run to its end, for example if a thread could not be started. The report says
    /// why. Only `report_run` ends so.
    NoThread,
    /// A read failed, or the document did not come to an end. Nothing was written.
    ReadFailed,
    /// A write failed. The text that was written is a front of the report, and not all of it.
    WriteFailed,
}

impl Status {
    /// Returns the exit status of a program that ends so.
    pub const fn code(self) -> u8
        ensures { result ≡ code_of self }
    {
        match self {
            Status::Done => 0,
            Status::Refused => 1,
            Status::BadInput => 2,
            Status::NoMemory | Status::NoThread => 3,
            Status::ReadFailed | Status::WriteFailed => 4,
        }
    }
}
