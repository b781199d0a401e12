//! A session under a journal.
ghost use Rattle.smpland_session.specs.Changes.{IsNew};

use journal_serve::{Applied, Applies};
use smpland_session::{LineEffect, Session};
use std::alloc::{AllocError, Global};

/// A session whose lines a journal keeps.
pub struct Keeper {
    pub session: Session,
}

impl Keeper {
    /// A session before its first line.
    pub fn new() -> Self
        ensures { IsNew result.session }
    {
        Keeper {
            session: Session::new(),
        }
    }
}

impl Applies for Keeper {
    ghost use Rattle.smpland.specs.Serving.{KeeperTakes};

    ghost takes = { KeeperTakes };

    fn apply(
        &mut self,
        alloc: Global,
        line: &[u8],
        reply: &mut Vec<u8>,
    ) -> Result<Applied, AllocError> {
        match self.session.apply(alloc, line, reply)? {
            LineEffect::Changed => Ok(Applied::Changed),
            LineEffect::Unchanged => Ok(Applied::Unchanged),
        }
    }

    /// Applies an entry again. One that changes nothing, as only a damaged journal has, is declined as a line is.
    fn replay(&mut self, alloc: Global, entry: &[u8]) -> Result<Applied, AllocError> {
        if let LineEffect::Changed = self.session.replay(alloc, entry)? {
            return Ok(Applied::Changed);
        }
        let mut unread = Vec::new(alloc);
        self.apply(alloc, entry, &mut unread)
    }
}
