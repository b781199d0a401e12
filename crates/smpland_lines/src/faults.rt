//! The fault to tell, of those that are met.
ghost use Rattle.std.specs.Prelude.{◌≡◌, false, true, IfErr, IfOk, Some};

use crate::bad_line::BadLine;

/// The fault to tell of those that were met: of those of the lowest number the first.
#[derive(Clone, Copy)]
pub struct Faults<'a> {
    lowest: Option<BadLine<'a>>,
}

impl<'a> Faults<'a> {
    ghost use Rattle.smpland_lines.specs.BadLines.{told_first};
    ghost use Rattle.smpland_lines.specs.Reading.{is_clean};

    /// Returns no faults.
    pub const fn new() -> Self
        ensures { is_clean result ≡ true }
    {
        Faults { lowest: None }
    }

    /// Takes the next fault.
    pub fn note(&mut self, fault: BadLine<'a>)
        ensures fault { is_clean self.new ≡ false }
        ensures told { self.new.lowest ≡ Some (told_first self.old.lowest fault.entry) }
    {
        match self.lowest {
            Some(best) if best.number() <= fault.number() => {}
            _ => self.lowest = Some(fault),
        }
    }

    /// Returns the fault to tell, if one was met.
    pub const fn lowest(self) -> Option<BadLine<'a>>
        ensures { result ≡ self.entry.lowest }
    {
        self.lowest
    }

    /// Returns what was read, unless a fault was met.
    pub fn finish<T: Drop>(self, read: T) -> Result<T, BadLine<'a>>
        ensures read { IfOk result (λ found. found ≡ read) }
        ensures clean { IfOk result (λ _. is_clean self.entry ≡ true) }
        ensures told { IfErr result (λ fault. self.entry.lowest ≡ Some fault) }
    {
        match self.lowest {
            Some(fault) => Err(fault),
            None => Ok(read),
        }
    }
}
