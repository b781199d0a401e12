//! Whether a server's slots are as recorded.
ghost use Rattle.std.specs.Prelude.{OnOk, nat_lt};
ghost use Rattle.smpland_session.specs.Questions.{TellsAudit, TellsOf, TellsUnlessLater, journal_in_force};

use crate::session::Session;
use json_tree::Tree;
use smpland_lines::{SlotNeeds, Writer, read_slots, write_bad};
use smpland_state::{JournalState, ReadSlots, write_audit, write_audited};
use std::alloc::{AllocError, Global};

/// The line that asks for an audit: a server, the place at which its slots were read, and the rows that tell them.
#[derive(Clone, Copy)]
pub(super) struct AuditLine<'t, 'a> {
    pub(super) server: &'t str,
    pub(super) place: u64,
    pub(super) slots: &'t [Tree<'a>],
}

impl Session {
    /// Writes whether the slots of a server, read at a place that is not to come, are as recorded.
    fn tell_compared(
        &self,
        alloc: Global,
        line: AuditLine<'_, '_>,
        writer: &mut Writer,
    ) -> Result<(), AllocError>
        ensures { OnOk result (TellsOf (journal_in_force self.now)
            (λ o. TellsAudit o line.entry.server.now line.entry.place line.entry.slots.now)
            writer.old.tokens writer.new.tokens) }
    {
        match self.in_force() {
            Some(opened) => write_audit_of(opened, alloc, writer, line),
            None => self.refuse_closed(alloc, writer),
        }
    }

    /// Writes the same, or that the place is still to come.
    pub(super) fn tell_audit(
        &self,
        alloc: Global,
        line: AuditLine<'_, '_>,
        writer: &mut Writer,
    ) -> Result<(), AllocError>
        ensures { OnOk result (TellsUnlessLater (nat_lt self.now.place line.entry.place) (journal_in_force self.now)
            line.entry.server.now line.entry.place line.entry.slots.now writer.old.tokens writer.new.tokens) }
    {
        if self.place < line.place {
            write_audited(writer, line.server, "later")
        } else {
            self.tell_compared(alloc, line, writer)
        }
    }
}

/// Writes whether the slots that a line tells of a server are as recorded, or that a row tells none.
fn write_audit_of(
    opened: &JournalState,
    alloc: Global,
    writer: &mut Writer,
    line: AuditLine<'_, '_>,
) -> Result<(), AllocError>
    ensures { OnOk result (TellsAudit opened.now line.entry.server.now line.entry.place line.entry.slots.now
        writer.old.tokens writer.new.tokens) }
{
    match read_slots(alloc, line.slots, SlotNeeds::Audit)? {
        Ok(slots) => {
            let read = ReadSlots {
                server: line.server,
                place: line.place,
                slots: slots.as_slice(),
            };
            write_audit(opened, alloc, writer, read)
        }
        Err(bad) => write_bad(writer, alloc, bad),
    }
}
