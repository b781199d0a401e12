//! The first opening of a journal.
ghost use Rattle.std.specs.Prelude.{◌≡◌, IfOk, OnOk, Ok, Some};
ghost use Rattle.json_tree.specs.View.{view};
ghost use Rattle.sm_plan_text.specs.Reading.{read_data, rows_of};
ghost use Rattle.smpland_session.specs.Asked.{IsOpenedBy};
ghost use Rattle.smpland_session.specs.Changes.{HasOpened, driver_of};
ghost use Rattle.smpland_session.specs.Openings.{DoesOpen, TellsNotOpened, TellsOpen, has_opened};

use crate::command_context::CommandContext;
use json_tree::Tree;
use sm_driver::Driver;
use sm_placement::OpenFault;
use sm_plan_text::{Document, TextFault, read_document_value};
use smpland_lines::{BadLine, CommandMember, Writer, refuse, refuse_log, refuse_open, write_bad};
use smpland_state::JournalState;
use std::alloc::{AllocError, Global};

/// The line that opens a journal.
#[derive(Clone, Copy)]
pub(crate) struct OpenLine<'t, 'a> {
    pub document: &'t Tree<'a>,
    pub journal: u64,
    pub epoch: u32,
}

/// The first driver of a journal, and the number of places of its log.
struct FirstDriver {
    driver: Driver,
    log_room: u32,
}

/// The reason why no journal has opened.
#[derive(Drop)]
pub enum NotOpened {
    NoMemory,
    /// A journal is open, or a reopening is under way.
    AlreadyOpened,
    /// The document is malformed.
    Malformed(TextFault),
    /// The placement that the document names does not open.
    Refused(Document, OpenFault),
    /// The log has too few places, or too many.
    LogFull,
}

/// The outcome of a line that opens a journal.
#[derive(Drop)]
pub enum OpenOutcome {
    Opened,
    NotOpened(NotOpened),
}

impl From<AllocError> for NotOpened {
    ghost use Rattle.smpland_session.specs.declared.opening.NotOpened.TheVariants.{NoMemory};

    ghost from_gives = { λ _ why. why ≡ NoMemory };

    fn from(_error: AllocError) -> Self
        ensures { result ≡ NotOpened.NoMemory }
    {
        NotOpened::NoMemory
    }
}

/// The document that a line brings.
fn read_document(alloc: Global, value: &Tree<'_>) -> Result<Document, NotOpened>
    ensures { IfOk result (λ document. read_data (Some (view value.now)) ≡ Ok (rows_of document)) }
{
    match read_document_value(alloc, value) {
        Ok(document) => Ok(document),
        Err(TextFault::NoMemory) => Err(NotOpened::NoMemory),
        Err(fault) => Err(NotOpened::Malformed(fault)),
    }
}

/// The driver that opens over the placement of a line's document.
fn first_driver(alloc: Global, line: OpenLine<'_, '_>) -> Result<FirstDriver, NotOpened>
    ensures settled { IfOk result (λ first. HasOpened first.driver) }
    ensures asked { IfOk result (λ first.
        IsOpenedBy (view line.entry.document.now) line.entry.journal line.entry.epoch first.driver) }
{
    let document = read_document(alloc, line.document)?;
    let placement = match document.open(alloc) {
        Ok(placement) => placement,
        Err(OpenFault::NoMemory) => return Err(NotOpened::NoMemory),
        Err(fault) => return Err(NotOpened::Refused(document, fault)),
    };
    let log_room = document.log;
    match Driver::open(alloc, placement, log_room, line.journal, line.epoch) {
        Ok(driver) => {
            driver.machine().is_reached();
            Ok(FirstDriver { driver, log_room })
        }
        Err((_, sm_machine::OpenFault::NoMemory)) => Err(NotOpened::NoMemory),
        Err((_, sm_machine::OpenFault::LogFull)) => Err(NotOpened::LogFull),
    }
}

/// Takes a driver that is open.
fn take(
    opened: &mut Option<JournalState>,
    place: u64,
    alloc: Global,
    first: FirstDriver,
) -> Result<(), AllocError>
    ensures { OnOk result (driver_of opened.new ≡ Some first.driver) }
{
    let FirstDriver { driver, log_room } = first;
    let taken = JournalState::new(alloc, driver, log_room, place)?;
    match opened.replace(taken) {
        Some(before) => before.close(),
        None => {}
    }
    Ok(())
}

/// Opens a journal over the placement of a document, unless one is open or a reopening is under way.
pub(crate) fn open(
    opened: &mut Option<JournalState>,
    at: CommandContext,
    alloc: Global,
    line: OpenLine<'_, '_>,
) -> Result<OpenOutcome, AllocError>
    ensures { IfOk result (λ came. DoesOpen line.entry at.is_reopening opened.old came opened.new) }
{
    if opened.is_some() || at.is_reopening {
        return Ok(OpenOutcome::NotOpened(NotOpened::AlreadyOpened));
    }
    match first_driver(alloc, line) {
        Ok(first) => {
            take(opened, at.place, alloc, first)?;
            Ok(OpenOutcome::Opened)
        }
        Err(NotOpened::NoMemory) => Err(AllocError),
        Err(why) => Ok(OpenOutcome::NotOpened(why)),
    }
}

impl NotOpened {
    /// Writes the reply.
    fn write(&self, alloc: Global, writer: &mut Writer) -> Result<(), AllocError>
        ensures { OnOk result (TellsNotOpened self.now writer.old.tokens writer.new.tokens) }
    {
        match self {
            NotOpened::NoMemory => Err(AllocError),
            NotOpened::AlreadyOpened => refuse(writer, alloc, "AlreadyOpened", &[]),
            NotOpened::Malformed(fault) => write_bad(
                writer,
                alloc,
                BadLine::Within(CommandMember::Document, *fault),
            ),
            NotOpened::Refused(document, fault) => {
                refuse_open(writer, alloc, &document.config, *fault)
            }
            NotOpened::LogFull => refuse_log(writer, alloc),
        }
    }
}

impl OpenOutcome {
    /// Whether a journal has opened.
    pub fn has_opened(&self) -> bool
        ensures { result ≡ has_opened self.now }
    {
        match self {
            OpenOutcome::Opened => true,
            OpenOutcome::NotOpened(_) => false,
        }
    }

    /// Writes the reply, after the change.
    pub fn write(
        &self,
        opened: &Option<JournalState>,
        alloc: Global,
        writer: &mut Writer,
    ) -> Result<(), AllocError>
        ensures { OnOk result (TellsOpen opened.now self.now writer.old.tokens writer.new.tokens) }
    {
        match self {
            OpenOutcome::Opened => match opened {
                Some(opened) => opened.write_opened(alloc, writer),
                None => Ok(()),
            },
            OpenOutcome::NotOpened(why) => why.write(alloc, writer),
        }
    }
}
