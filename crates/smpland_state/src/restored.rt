//! Restores in replies.
ghost use Rattle.std.specs.Prelude.{◌≡◌, ◌<◌, ◌++◌, IfOk, OnOk, not};
ghost use Rattle.std.specs.List.{filter};
ghost use Rattle.std.specs.Option.{option_copied};
ghost use Rattle.std.specs.Str.{IsUtf8};
ghost use Rattle.json.specs.Lex.{tokens};
ghost use Rattle.smpland_lines.specs.Members.{server_text};
ghost use Rattle.sm_driver.specs.Driver.{record_of};
ghost use Rattle.smpland_state.specs.Restores.{TellsAgain, TellsKept, is_told, latest_told, restore_members};
ghost use Rattle.smpland_state.specs.Restores.{last_told, restore_object, told_in_epoch, told_to, told_under, was_told};

use crate::bits::write_bits;
use crate::cells::write_slots;
use crate::copying::copy_text;
use crate::journal_state::JournalState;
use sm_driver::ServerRestore;
use sm_server::ServerId;
use smpland_lines::{Writer, write_number, write_text};
use std::alloc::{AllocError, Global};
use std::marker::Model;

/// Writes the members of the restore of a server that has lost all it had.
fn write_restore_members(
    opened: &JournalState,
    alloc: Global,
    writer: &mut Writer,
    server: ServerId,
    restore: &ServerRestore,
) -> Result<(), AllocError>
    ensures { OnOk result (writer.new.tokens
        ≡ writer.old.tokens ++ restore_members opened.now.driver server restore.now) }
{
    write_text(writer, "server", opened.name_of(server))?;
    write_bits(writer, alloc, "nonce", restore.nonce())?;
    write_bits(writer, alloc, "journal", opened.driver.journal())?;
    write_number(writer, "fence", opened.driver.fence())?;
    write_number(writer, "base", restore.number())?;
    write_slots(writer, opened.driver.machine().config(), restore.cells())?;
    Ok(())
}

/// Writes the restore of a server that has lost all it had.
fn write_restore(
    opened: &JournalState,
    alloc: Global,
    writer: &mut Writer,
    server: ServerId,
    restore: &ServerRestore,
) -> Result<(), AllocError>
    ensures { OnOk result (writer.new.tokens
        ≡ writer.old.tokens ++ restore_object opened.now.driver server restore.now) }
{
    writer.begin_object()?;
    write_restore_members(opened, alloc, writer, server, restore)?;
    writer.end_object()?;
    Ok(())
}

/// The last restore of a server in an earlier epoch.
#[derive(Drop)]
pub struct LastRestore {
    server: String,
    nonce: u64,
    /// The restore as it was told, in JSON.
    text: Vec<u8>,
}

impl Model for LastRestore {
    ghost use Rattle.std.specs.Prelude.{string_bytes};
    ghost use Rattle.std.specs.Str.{IsUtf8};
    ghost use Rattle.json.specs.Lex.{tokens};
    ghost use Rattle.smpland_state.specs.Copies.{good_tokens};
    ghost use Rattle.smpland_state.specs.Told.{ToldModel};

    ghost Value = { ToldModel };

    ghost view = { λ r. record { server = string_bytes r.server; nonce = r.nonce; restore = good_tokens (tokens r.text.items) } };

    ghost invariant = { λ r. IsUtf8 r.text.items };
}

/// The text of the restore of a server.
fn restore_text(
    opened: &JournalState,
    alloc: Global,
    server: ServerId,
    restore: &ServerRestore,
) -> Result<Vec<u8>, AllocError>
    ensures reads { IfOk result (λ text. tokens text.items ≡ restore_object opened.now.driver server restore.now) }
    ensures utf8 { IfOk result (λ text. IsUtf8 text.items) }
{
    let mut writer = Writer::new(alloc);
    write_restore(opened, alloc, &mut writer, server, restore)?;
    let text = writer.into_text();
    Ok(text)
}

/// A restore with its reply's text.
fn told_restore(
    opened: &JournalState,
    alloc: Global,
    server: ServerId,
    restore: &ServerRestore,
) -> Result<LastRestore, AllocError>
    ensures { IfOk result (λ told. told ≡ last_told opened.now.driver server restore.now) }
{
    let text = restore_text(opened, alloc, server, restore)?;
    let name = String::from_str(alloc, opened.name_of(server))?;
    Ok(LastRestore {
        server: name,
        nonce: restore.nonce(),
        text,
    })
}

/// Adds what a server was told last in the present epoch of a journal, if it was told something.
fn push_told(
    told: &mut Vec<LastRestore>,
    opened: &JournalState,
    alloc: Global,
    server: ServerId,
) -> Result<(), AllocError>
    requires { server < (record_of opened.now.driver).sizes.servers }
    ensures { OnOk result (told.new.items ≡ told.old.items ++ told_to opened.now.driver server) }
{
    if let Some(restore) = opened.driver.restored(server) {
        told.push(told_restore(opened, alloc, server, restore)?)?;
    }
    Ok(())
}

/// The restores that servers were told last in the present epoch of a journal.
pub fn last_restores(opened: &JournalState, alloc: Global) -> Result<Vec<LastRestore>, AllocError>
    ensures { IfOk result (λ told. told.items ≡ told_in_epoch opened.now.driver) }
{
    let mut told = Vec::new(alloc);
    for number in 0..opened.driver.machine().config().server_count() {
        push_told(&mut told, opened, alloc, ServerId::new(number))?;
    }
    Ok(told)
}

/// Whether one of these restores is of the server of this name.
fn was_told(told: &[LastRestore], name: &str) -> bool
    ensures { result ≡ was_told told.now name.now }
{
    told.iter().any(|told| told.server.as_str() == name)
}

/// Keeps those of earlier restores whose servers were told nothing later.
fn keep_earlier(earlier: &mut Vec<LastRestore>, later: &[LastRestore])
    ensures { earlier.new.items ≡ filter (λ t. not (was_told later.now t.server)) earlier.old.items }
{
    earlier.retain(|told| !was_told(later, told.server.as_str()));
}

/// The latest restores of servers: those of the present epoch, and for other servers those before.
pub fn told_last(
    now: Vec<LastRestore>,
    before: Vec<LastRestore>,
) -> Result<Vec<LastRestore>, AllocError>
    ensures { IfOk result (λ told. told.items ≡ latest_told now.items before.items) }
{
    let mut told = now;
    let mut earlier = before;
    keep_earlier(&mut earlier, told.as_slice());
    told.append(&mut earlier)?;
    Ok(told)
}

/// The restore that a server of this name was told under a nonce in an earlier epoch.
fn told_under<'a>(told: &'a [LastRestore], name: &str, nonce: u64) -> Option<&'a LastRestore>
    ensures { option_copied result ≡ told_under told.now name.now nonce }
{
    told.iter()
        .find(|told| told.server.as_str() == name && told.nonce == nonce)
}

impl JournalState {
    /// The restore that a server was told under this nonce in an earlier epoch.
    fn told_before(&self, server: ServerId, nonce: u64) -> Option<&LastRestore>
        requires { server < (record_of self.now.driver).sizes.servers }
        ensures { option_copied result
            ≡ told_under self.now.told.items (server_text self.now.driver.machine.placement.setup server) nonce }
    {
        told_under(self.told.as_slice(), self.name_of(server), nonce)
    }

    /// Whether a server was told under this nonce last.
    pub fn is_told(&self, server: ServerId, nonce: u64) -> bool
        requires { server < (record_of self.now.driver).sizes.servers }
        ensures { result ≡ is_told self.now server nonce }
    {
        match self.driver.restored(server) {
            Some(restore) => restore.nonce() == nonce,
            None => self.told_before(server, nonce).is_some(),
        }
    }

    /// Writes, as a member of a reply, what a server was told last under this nonce.
    pub fn write_told(
        &self,
        alloc: Global,
        writer: &mut Writer,
        server: ServerId,
        nonce: u64,
    ) -> Result<(), AllocError>
        requires { server < (record_of self.now.driver).sizes.servers }
        ensures kept { OnOk result (TellsKept self.now.driver server writer.old.tokens writer.new.tokens) }
        ensures again { OnOk result (TellsAgain self.now server nonce writer.old.tokens writer.new.tokens) }
    {
        writer.key("restore")?;
        match self.driver.restored(server) {
            Some(restore) => write_restore(self, alloc, writer, server, restore),
            None => match self.told_before(server, nonce) {
                Some(told) => copy_text(alloc, writer, told.text.as_slice()),
                None => writer.null(),
            },
        }
    }
}
