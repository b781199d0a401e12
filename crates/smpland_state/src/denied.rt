//! Restarts that are denied: who is down, and for whom.
ghost use Rattle.std.specs.Prelude.{◌≡◌, ◌++◌, IfOk, OnOk, codes, length, string_bytes};
ghost use Rattle.std.specs.List.{flat_map, range_with_len};
ghost use Rattle.sm_refusals.specs.Refusals.{refusal_model, refusal_words};
ghost use Rattle.smpland_lines.specs.Members.{list_member};
ghost use Rattle.smpland_lines.specs.Refusals.{TellsRefused, refusal_members, refused_member};
ghost use Rattle.smpland_state.specs.Denied.{by_text, denied_by_down, denied_reply, down_text, of_servers};

use crate::journal_state::JournalState;
use sm_refusals::{RefusalText, denied_refusal};
use sm_server::ServerId;
use sm_task_controller::Denied;
use smpland_lines::{Writer, refuse_restart, write_number, write_text};
use std::alloc::{AllocError, Global};

/// A refusal in words.
fn denied_words(alloc: Global, refusal: &RefusalText<'_>) -> Result<String, AllocError>
    ensures { IfOk result (λ words. string_bytes words ≡ refusal_words (refusal_model refusal.now)) }
{
    let mut words = String::new(alloc);
    refusal.push_words(&mut words)?;
    Ok(words)
}

impl JournalState {
    /// Writes the name of a server, if it is down.
    fn write_down_name(&self, writer: &mut Writer, server: ServerId) -> Result<(), AllocError>
        ensures { OnOk result (writer.new.tokens ≡ writer.old.tokens ++ down_text self.now server) }
    {
        match self.permit_of(server) {
            Some(_) => writer.string(self.name_of(server)),
            None => Ok(()),
        }
    }

    /// Writes the names of the servers that are down.
    fn write_each_down(&self, writer: &mut Writer) -> Result<(), AllocError>
        ensures { OnOk result (writer.new.tokens ≡ writer.old.tokens ++ flat_map (down_text self.now)
            (range_with_len 0 (length self.now.driver.machine.placement.setup.servers))) }
    {
        for number in 0..self.driver.machine().config().server_count() {
            self.write_down_name(writer, ServerId::new(number))?;
        }
        Ok(())
    }

    /// Writes them, or that of this server alone.
    fn write_down_names(
        &self,
        writer: &mut Writer,
        only: &Option<ServerId>,
    ) -> Result<(), AllocError>
        ensures { OnOk result (writer.new.tokens
            ≡ writer.old.tokens ++ of_servers self.now only.now (down_text self.now)) }
    {
        match only {
            Some(server) => self.write_down_name(writer, *server),
            None => self.write_each_down(writer),
        }
    }

    /// Writes them, as a member.
    fn write_down(&self, writer: &mut Writer, only: &Option<ServerId>) -> Result<(), AllocError>
        ensures { OnOk result (writer.new.tokens ≡ writer.old.tokens
            ++ list_member (codes "down") (of_servers self.now only.now (down_text self.now))) }
    {
        writer.key("down")?;
        writer.begin_array()?;
        self.write_down_names(writer, only)?;
        writer.end_array()?;
        Ok(())
    }

    /// Writes the name under which the restart of a server was approved, if it is down.
    fn write_by_name(&self, writer: &mut Writer, server: ServerId) -> Result<(), AllocError>
        ensures { OnOk result (writer.new.tokens ≡ writer.old.tokens ++ by_text self.now server) }
    {
        let Some(permit) = self.permit_of(server) else {
            return Ok(());
        };
        match self.permits.by(permit) {
            Some(by) => writer.string(by),
            None => writer.null(),
        }
    }

    /// Writes the names under which the restarts of the servers that are down were approved.
    fn write_each_by(&self, writer: &mut Writer) -> Result<(), AllocError>
        ensures { OnOk result (writer.new.tokens ≡ writer.old.tokens ++ flat_map (by_text self.now)
            (range_with_len 0 (length self.now.driver.machine.placement.setup.servers))) }
    {
        for number in 0..self.driver.machine().config().server_count() {
            self.write_by_name(writer, ServerId::new(number))?;
        }
        Ok(())
    }

    /// Writes them, or that of this server alone.
    fn write_by_names(&self, writer: &mut Writer, only: &Option<ServerId>) -> Result<(), AllocError>
        ensures { OnOk result (writer.new.tokens
            ≡ writer.old.tokens ++ of_servers self.now only.now (by_text self.now)) }
    {
        match only {
            Some(server) => self.write_by_name(writer, *server),
            None => self.write_each_by(writer),
        }
    }

    /// Writes them, as a member.
    fn write_by(&self, writer: &mut Writer, only: &Option<ServerId>) -> Result<(), AllocError>
        ensures { OnOk result (writer.new.tokens ≡ writer.old.tokens
            ++ list_member (codes "by") (of_servers self.now only.now (by_text self.now))) }
    {
        writer.key("by")?;
        writer.begin_array()?;
        self.write_by_names(writer, only)?;
        writer.end_array()?;
        Ok(())
    }

    /// Writes the members of a refusal with these words, since servers are down.
    fn write_by_down_members(
        &self,
        writer: &mut Writer,
        words: &str,
        refusal: &RefusalText<'_>,
        only: &Option<ServerId>,
    ) -> Result<(), AllocError>
        ensures { words.now ≡ refusal_words (refusal_model refusal.now)
            → OnOk result (writer.new.tokens ≡ writer.old.tokens
            ++ refusal_members (denied_by_down self.now only.now (refusal_model refusal.now))) }
    {
        write_text(writer, "kind", refusal.kind)?;
        write_number(writer, "number", u64::from(refusal.number))?;
        self.write_down(writer, only)?;
        self.write_by(writer, only)?;
        write_text(writer, "text", words)?;
        Ok(())
    }

    /// Writes a refusal, since servers are down.
    fn write_by_down(
        &self,
        alloc: Global,
        writer: &mut Writer,
        refusal: &RefusalText<'_>,
        only: &Option<ServerId>,
    ) -> Result<(), AllocError>
        ensures { OnOk result (writer.new.tokens ≡ writer.old.tokens
            ++ refused_member (denied_by_down self.now only.now (refusal_model refusal.now))) }
    {
        let words = denied_words(alloc, refusal)?;
        writer.key("refused")?;
        writer.begin_object()?;
        self.write_by_down_members(writer, words.as_str(), refusal, only)?;
        writer.end_object()?;
        Ok(())
    }

    /// Writes why the restart of a server is denied, in the words of `smplan`.
    fn write_why_denied(
        &self,
        alloc: Global,
        writer: &mut Writer,
        server: ServerId,
        why: &Denied,
    ) -> Result<(), AllocError>
        ensures { OnOk result (writer.new.tokens
            ≡ writer.old.tokens ++ refused_member (denied_reply self.now server why.now)) }
    {
        let config = self.driver.machine().config();
        match why {
            Denied::AlreadyDown => {
                let refusal = denied_refusal(config, None, Denied::AlreadyDown);
                self.write_by_down(alloc, writer, &refusal, &Some(server))
            }
            Denied::GlobalCap => {
                let refusal = denied_refusal(config, None, Denied::GlobalCap);
                self.write_by_down(alloc, writer, &refusal, &None)
            }
            Denied::Engaged { .. } | Denied::ShardCap { .. } | Denied::LogFull => {
                refuse_restart(writer, alloc, config, *why)
            }
        }
    }

    /// Writes why the restart of a server is denied, in the words of `smplan`. If it is down, or too many are, the
    /// refusal has who is.
    pub fn write_denied(
        &self,
        alloc: Global,
        writer: &mut Writer,
        server: ServerId,
        why: &Denied,
    ) -> Result<(), AllocError>
        ensures told { OnOk result (writer.new.tokens
            ≡ writer.old.tokens ++ refused_member (denied_reply self.now server why.now)) }
        ensures refused { OnOk result (TellsRefused writer.old.tokens writer.new.tokens) }
    {
        self.write_why_denied(alloc, writer, server, why)?;
        Ok(())
    }
}
