//! What the program is, and where its journal stands.
ghost use Rattle.std.specs.Prelude.{◌≡◌, ◌++◌, OnOk, codes};
ghost use Rattle.smpland_lines.specs.Members.{object_member};
ghost use Rattle.smpland_session.specs.Questions.{epoch_member, hello_members, journal_member, place_members};
ghost use Rattle.smpland_session.specs.Questions.{present_journal};

use crate::session::Session;
use smpland_lines::{Writer, write_name, write_number, write_text};
use smpland_state::write_bits;
use std::alloc::{AllocError, Global};

/// The number of the form of lines and replies, which rises if lines that were right no longer are.
const FORMAT: u64 = 3;

impl Session {
    /// The journal, if there is one.
    fn journal(&self) -> Option<u64>
        ensures { result ≡ present_journal self.now.opened self.now.under_way }
    {
        match (&self.opened, &self.under_way) {
            (Some(opened), _) => Some(opened.driver.journal()),
            (None, Some(current)) => Some(current.reopening.journal()),
            (None, None) => None,
        }
    }

    /// Writes, as a member, the journal.
    fn write_journal(&self, alloc: Global, writer: &mut Writer) -> Result<(), AllocError>
        ensures { OnOk result (writer.new.tokens
            ≡ writer.old.tokens ++ journal_member (present_journal self.now.opened self.now.under_way)) }
    {
        match self.journal() {
            Some(journal) => write_bits(writer, alloc, "journal", journal),
            None => write_name(writer, "journal", None),
        }
    }

    /// Writes, as a member, the epoch that is open.
    fn write_epoch(&self, writer: &mut Writer) -> Result<(), AllocError>
        ensures { OnOk result (writer.new.tokens ≡ writer.old.tokens ++ epoch_member self.now.opened) }
    {
        match &self.opened {
            Some(opened) => write_number(writer, "epoch", u64::from(opened.driver.epoch())),
            None => write_name(writer, "epoch", None),
        }
    }

    /// Writes, as members, where the journal stands.
    pub(super) fn write_place(&self, alloc: Global, writer: &mut Writer) -> Result<(), AllocError>
        ensures { OnOk result (writer.new.tokens ≡ writer.old.tokens ++ place_members self.now) }
    {
        self.write_journal(alloc, writer)?;
        self.write_epoch(writer)?;
        write_number(writer, "place", self.place)?;
        Ok(())
    }

    /// Writes, as members, what the program is, and where its journal stands.
    fn write_hello_members(&self, alloc: Global, writer: &mut Writer) -> Result<(), AllocError>
        ensures { OnOk result (writer.new.tokens ≡ writer.old.tokens ++ hello_members self.now) }
    {
        write_text(writer, "program", "smpland")?;
        write_number(writer, "format", FORMAT)?;
        self.write_place(alloc, writer)?;
        Ok(())
    }

    /// Writes the same as a member.
    pub(super) fn write_hello(&self, alloc: Global, writer: &mut Writer) -> Result<(), AllocError>
        ensures { OnOk result (writer.new.tokens
            ≡ writer.old.tokens ++ object_member (codes "hello") (hello_members self.now)) }
    {
        writer.key("hello")?;
        writer.begin_object()?;
        self.write_hello_members(alloc, writer)?;
        writer.end_object()?;
        Ok(())
    }
}
