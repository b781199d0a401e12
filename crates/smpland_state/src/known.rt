//! Servers that are known, and the others: calls of plans at them, and whom to restore.
ghost use Rattle.std.specs.Prelude.{◌≡◌, ◌++◌, OnOk, length, option_map};
ghost use Rattle.std.specs.List.{find, flat_map, range_with_len};
ghost use Rattle.std.specs.Option.{option_copied};
ghost use Rattle.smpland_state.specs.Known.{calls_unknown, has_unknown, is_known, kept_restore, unknown_member};
ghost use Rattle.smpland_state.specs.Known.{unknown_called, unknown_text};

use crate::journal_state::JournalState;
use sm_driver::{Driver, ServerRestore};
use sm_plan_code::{Instr, Plan, Stream, names};
use sm_server::ServerId;
use smpland_lines::Writer;
use std::alloc::AllocError;

/// The restore that the driver keeps for a server.
pub fn kept_restore(driver: &Driver, server: ServerId) -> Option<&ServerRestore>
    ensures { option_copied result ≡ kept_restore driver.now server }
{
    if server.number() < driver.machine().config().server_count() {
        driver.restored(server)
    } else {
        None
    }
}

/// Whether a server is known: a reopening has settled the journal, or a restore of the server is kept.
fn is_known(driver: &Driver, server: ServerId) -> bool
    ensures { result ≡ is_known driver.now server }
{
    driver.fence() > 0 || kept_restore(driver, server).is_some()
}

/// Whether an instruction is a call at a server that is not known.
fn calls_unknown(driver: &Driver, instr: &Instr) -> bool
    ensures { result ≡ calls_unknown driver.now instr.now }
{
    match names(instr).first {
        Some(server) => !is_known(driver, server),
        None => false,
    }
}

/// Whether a stream has such a call.
fn has_unknown(driver: &Driver, stream: &Stream) -> bool
    ensures { result ≡ has_unknown driver.now stream.now }
{
    stream.code.iter().any(|instr| calls_unknown(driver, instr))
}

/// The first of these streams that has such a call.
fn first_with_unknown<'a>(driver: &Driver, streams: &'a [Stream]) -> Option<&'a Stream>
    ensures { option_map (λ stream. stream.now) result ≡ find (has_unknown driver.now) streams.now }
{
    streams.iter().find(|stream| has_unknown(driver, stream))
}

/// The first such call of these instructions.
fn first_unknown_call<'a>(driver: &Driver, code: &'a [Instr]) -> Option<&'a Instr>
    ensures { option_map (λ instr. instr.now) result ≡ find (calls_unknown driver.now) code.now }
{
    code.iter().find(|instr| calls_unknown(driver, instr))
}

/// The server of the first call of a plan that is at a server that is not known.
pub fn unknown_called(driver: &Driver, plan: &Plan) -> Option<ServerId>
    ensures { result ≡ unknown_called driver.now plan.now }
{
    let stream = first_with_unknown(driver, plan.streams())?;
    let instr = first_unknown_call(driver, stream.code.as_slice())?;
    names(instr).first
}

impl JournalState {
    /// Writes the name of a server, if it is not known.
    fn write_unknown_name(&self, writer: &mut Writer, server: ServerId) -> Result<(), AllocError>
        ensures { OnOk result (writer.new.tokens ≡ writer.old.tokens ++ unknown_text self.now.driver server) }
    {
        if is_known(&self.driver, server) {
            Ok(())
        } else {
            writer.string(self.name_of(server))
        }
    }

    /// Writes the names of the servers that are not known.
    fn write_each_unknown(&self, writer: &mut Writer) -> Result<(), AllocError>
        ensures { OnOk result (writer.new.tokens
            ≡ writer.old.tokens ++ flat_map (unknown_text self.now.driver)
            (range_with_len 0 (length self.now.driver.machine.placement.setup.servers))) }
    {
        for number in 0..self.driver.machine().config().server_count() {
            self.write_unknown_name(writer, ServerId::new(number))?;
        }
        Ok(())
    }

    /// Writes them, as a member: whom to restore.
    pub(crate) fn write_unknown_servers(&self, writer: &mut Writer) -> Result<(), AllocError>
        ensures { OnOk result (writer.new.tokens ≡ writer.old.tokens ++ unknown_member self.now.driver) }
    {
        writer.key("restore")?;
        writer.begin_array()?;
        self.write_each_unknown(writer)?;
        writer.end_array()?;
        Ok(())
    }
}
