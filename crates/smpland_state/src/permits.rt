//! Permits of restarts in replies.
ghost use Rattle.std.specs.Prelude.{◌≡◌, ◌++◌, OnOk, length};
ghost use Rattle.std.specs.List.{flat_map, range_with_len};
ghost use Rattle.sm_driver.specs.Permits.{permit_of};
ghost use Rattle.smpland_lines.specs.Members.{server_text};
ghost use Rattle.smpland_state.specs.Permits.{approved_member, approved_members, given_member, opened_member};
ghost use Rattle.smpland_state.specs.Permits.{opened_members, permit_member, permit_members, permit_text};
ghost use Rattle.smpland_state.specs.Permits.{permits_member, server_under};

use crate::bits::write_bits;
use crate::journal_state::JournalState;
use crate::unserved::write_unserved;
use sm_server::ServerId;
use smpland_lines::{Writer, server_name, write_number, write_text};
use std::alloc::{AllocError, Global};

/// Writes the members of a server's permit.
fn write_permit_members(writer: &mut Writer, server: &str, permit: u64) -> Result<(), AllocError>
    ensures { OnOk result (writer.new.tokens ≡ writer.old.tokens ++ permit_members server.now permit) }
{
    write_text(writer, "server", server)?;
    write_number(writer, "permit", permit)?;
    Ok(())
}

/// Writes a server's permit, as a member of a reply.
fn write_permit(
    writer: &mut Writer,
    word: &str,
    server: &str,
    permit: u64,
) -> Result<(), AllocError>
    ensures { OnOk result (writer.new.tokens ≡ writer.old.tokens ++ permit_member word.now server.now permit) }
{
    writer.key(word)?;
    writer.begin_object()?;
    write_permit_members(writer, server, permit)?;
    writer.end_object()?;
    Ok(())
}

impl JournalState {
    /// The permit under which a server is down, if it is.
    pub(crate) fn permit_of(&self, server: ServerId) -> Option<u64>
        ensures { result ≡ permit_of self.now.driver.permits server }
    {
        self.driver
            .permits()
            .get(server.number() as usize)
            .copied()
            .flatten()
    }

    /// The server of this name, if it is down under this permit.
    fn server_under(&self, name: &str, permit: u64) -> Option<ServerId>
        ensures { result ≡ server_under self.now.driver name.now permit }
    {
        let server = self.driver.machine().config().server_named(name)?;
        if self.permit_of(server) == Some(permit) {
            Some(server)
        } else {
            None
        }
    }

    /// Writes the members of an approved restart.
    fn write_approved_members(
        &self,
        writer: &mut Writer,
        server: ServerId,
        permit: u64,
    ) -> Result<(), AllocError>
        ensures { OnOk result (writer.new.tokens ≡ writer.old.tokens
            ++ approved_members self.now.driver server permit) }
    {
        write_permit_members(writer, self.name_of(server), permit)?;
        write_unserved(writer, self.driver.machine().placement(), server)?;
        Ok(())
    }

    /// Writes, as a member of a reply, that the restart of a server is approved.
    pub fn write_approved(
        &self,
        writer: &mut Writer,
        server: ServerId,
        permit: u64,
    ) -> Result<(), AllocError>
        ensures { OnOk result (writer.new.tokens ≡ writer.old.tokens ++ approved_member self.now.driver server permit) }
    {
        writer.key("approved")?;
        writer.begin_object()?;
        self.write_approved_members(writer, server, permit)?;
        writer.end_object()?;
        Ok(())
    }

    /// Writes, as a member, a permit that was given to a server before, and what came of it.
    pub fn write_given(
        &self,
        writer: &mut Writer,
        server: &str,
        permit: u64,
    ) -> Result<(), AllocError>
        ensures { OnOk result (writer.new.tokens ≡ writer.old.tokens
            ++ given_member self.now.driver server.now permit) }
    {
        match self.server_under(server, permit) {
            Some(server) => self.write_approved(writer, server, permit),
            None => write_permit(writer, "ended", server, permit),
        }
    }

    /// The name of a server.
    pub fn name_of(&self, server: ServerId) -> &str
        ensures { result.now ≡ server_text self.now.driver.machine.placement.setup server }
    {
        server_name(self.driver.machine().config(), server)
    }

    /// Writes the permit under which a server is down, if it is.
    fn write_permit_of(&self, writer: &mut Writer, server: ServerId) -> Result<(), AllocError>
        ensures { OnOk result (writer.new.tokens ≡ writer.old.tokens ++ permit_text self.now.driver server) }
    {
        if let Some(permit) = self.permit_of(server) {
            writer.begin_object()?;
            write_permit_members(writer, self.name_of(server), permit)?;
            writer.end_object()?;
        }
        Ok(())
    }

    /// Writes the permits under which servers are down.
    fn write_each_permit(&self, writer: &mut Writer) -> Result<(), AllocError>
        ensures { OnOk result (writer.new.tokens
            ≡ writer.old.tokens ++ flat_map (permit_text self.now.driver)
            (range_with_len 0 (length self.now.driver.machine.placement.setup.servers))) }
    {
        for number in 0..self.driver.machine().config().server_count() {
            self.write_permit_of(writer, ServerId::new(number))?;
        }
        Ok(())
    }

    /// Writes them, as a member.
    fn write_permits(&self, writer: &mut Writer) -> Result<(), AllocError>
        ensures { OnOk result (writer.new.tokens ≡ writer.old.tokens ++ permits_member self.now.driver) }
    {
        writer.key("permits")?;
        writer.begin_array()?;
        self.write_each_permit(writer)?;
        writer.end_array()?;
        Ok(())
    }

    /// Writes the members of the reply that the journal is open.
    fn write_opened_members(&self, alloc: Global, writer: &mut Writer) -> Result<(), AllocError>
        ensures { OnOk result (writer.new.tokens ≡ writer.old.tokens ++ opened_members self.now.driver) }
    {
        write_bits(writer, alloc, "journal", self.driver.journal())?;
        write_number(writer, "epoch", u64::from(self.driver.epoch()))?;
        self.write_permits(writer)?;
        self.write_unknown_servers(writer)?;
        Ok(())
    }

    /// Writes, as a member of a reply, that the journal is open.
    pub fn write_opened(&self, alloc: Global, writer: &mut Writer) -> Result<(), AllocError>
        ensures { OnOk result (writer.new.tokens ≡ writer.old.tokens ++ opened_member self.now.driver) }
    {
        writer.key("opened")?;
        writer.begin_object()?;
        self.write_opened_members(alloc, writer)?;
        writer.end_object()?;
        Ok(())
    }
}
