//! The line that asks for a reopening.
ghost use Rattle.std.specs.Prelude.{◌≡◌, ◌+◌, IfOk, IfSome, Ok, Some, None, is_some, map, true};
ghost use Rattle.std.specs.Option.{ForSome};
ghost use Rattle.json_tree.specs.View.{view};
ghost use Rattle.sm_plan_text.specs.Reading.{read_data, rows_of};
ghost use Rattle.smpland_session.specs.Asked.{texts_among};
ghost use Rattle.smpland_session.specs.Changes.{BeginsReopening, driver_of, reopening_under_way};
ghost use Rattle.smpland_session.specs.Reopenings.{DoesReopen, unknown_lost};

use crate::lost::unknown_lost;
use crate::reopen_outcome::{NotBegun, ReopenOutcome};
use crate::under_way::UnderWay;
use json_tree::Tree;
use sm_plan_text::{Document, TextFault, read_document_value};
use smpland_reopening::{DocumentReopening, ReopenFault};
use smpland_state::JournalState;
use std::alloc::{AllocError, Global};

/// The epoch that a reopening opens, and its journal.
#[derive(Clone, Copy)]
struct NextEpoch {
    journal: u64,
    epoch: u32,
}

/// The servers that a reopening gives up as lost, and the epoch that it opens.
#[derive(Clone, Copy)]
struct ReopeningStart<'l, 'n> {
    lost: &'l [&'n str],
    next: NextEpoch,
}

/// The line that asks for a reopening.
#[derive(Clone, Copy)]
pub(crate) struct ReopenLine<'t, 'a> {
    pub document: &'t Tree<'a>,
    pub lost: &'t [Tree<'a>],
    pub journal: Option<u64>,
    pub epoch: Option<u32>,
}

/// The epoch of a journal that was begun last, in force or not.
fn last_epoch(opened: &Option<JournalState>, under_way: &Option<UnderWay>) -> Option<NextEpoch>
    ensures replaced { IfSome under_way.now (λ u. IfSome result (λ last. last.epoch ≡ u.reopening.epoch)) }
    ensures some { IfSome under_way.now (λ u. is_some result ≡ true) }
    ensures recorded { under_way.now ≡ None
        → IfSome opened.now (λ o. IfSome result (λ last. last.epoch ≡ o.driver.epoch)) }
    ensures opened { under_way.now ≡ None → IfSome opened.now (λ o. is_some result ≡ true) }
    ensures nothing { under_way.now ≡ None → opened.now ≡ None → result ≡ None }
{
    match (under_way, opened) {
        (Some(current), _) => Some(NextEpoch {
            journal: current.reopening.journal(),
            epoch: current.reopening.epoch(),
        }),
        (None, Some(opened)) => Some(NextEpoch {
            journal: opened.driver.journal(),
            epoch: opened.driver.epoch(),
        }),
        (None, None) => None,
    }
}

/// The epoch that a reopening would open, or why it opens none.
fn next_epoch(
    last: Option<NextEpoch>,
    journal: Option<u64>,
    epoch: Option<u32>,
) -> Result<NextEpoch, NotBegun>
    ensures next { IfOk result (λ next. ForSome last (λ l. next.epoch ≡ l.epoch + 1)) }
    ensures named { last ≡ None → IfOk result (λ next. (journal ≡ Some next.journal) × (epoch ≡ Some next.epoch)) }
{
    match (last, journal, epoch) {
        (None, Some(journal), Some(epoch)) => Ok(NextEpoch { journal, epoch }),
        (None, _, _) => Err(NotBegun::NotOpened),
        (Some(last), Some(journal), _) if journal != last.journal => Err(NotBegun::OtherJournal),
        (Some(last), _, _) if last.epoch == u32::MAX => Err(NotBegun::LastEpoch),
        (Some(last), _, _) => Ok(NextEpoch {
            journal: last.journal,
            epoch: last.epoch + 1,
        }),
    }
}

/// The document that a line brings.
fn document_of(alloc: Global, value: &Tree<'_>) -> Result<Document, NotBegun>
    ensures { IfOk result (λ document. read_data (Some (view value.now)) ≡ Ok (rows_of document)) }
{
    match read_document_value(alloc, value) {
        Ok(document) => Ok(document),
        Err(TextFault::NoMemory) => Err(NotBegun::NoMemory),
        Err(fault) => Err(NotBegun::Malformed(fault)),
    }
}

/// The names of a list.
fn names_in<'a>(alloc: Global, entries: &[Tree<'a>]) -> Result<Vec<&'a str>, AllocError>
    ensures { IfOk result (λ names. map (λ name. name.now) names.items ≡ texts_among entries.now) }
{
    let mut names = Vec::new(alloc);
    for entry in entries {
        if let Some(name) = entry.as_str() {
            names.push(name)?;
        }
    }
    Ok(names)
}

/// The reopening that begins under a document over what is recorded. If it does not begin, the document is returned.
fn begun_over(
    opened: &Option<JournalState>,
    alloc: Global,
    document: Document,
    lost: &[&str],
    next: NextEpoch,
) -> Result<DocumentReopening, (Document, ReopenFault)>
    requires { IfSome opened.now (λ o. next.epoch ≡ o.driver.epoch + 1) }
    ensures begun { IfOk result (λ r.
        BeginsReopening (map (λ name. name.now) lost.now) (driver_of opened.now) None (Some r)) }
    ensures under { IfOk result (λ r. r.document ≡ document) }
    ensures named { opened.now ≡ None → IfOk result (λ r. (r.journal ≡ next.journal) × (r.epoch ≡ next.epoch)) }
{
    match opened {
        Some(opened) => {
            DocumentReopening::begin(alloc, &opened.driver, document, lost, next.epoch)
        }
        None => DocumentReopening::begin_anew(alloc, document, lost, next.journal, next.epoch),
    }
}

/// The reopening that begins under a document over what is recorded, or replaces the one under way. If it does not
/// begin, the document is returned.
fn begun_under(
    opened: &Option<JournalState>,
    under_way: &Option<UnderWay>,
    alloc: Global,
    document: Document,
    start: ReopeningStart<'_, '_>,
) -> Result<DocumentReopening, (Document, ReopenFault)>
    requires replaced { IfSome under_way.now (λ u. start.next.epoch ≡ u.reopening.epoch + 1) }
    requires recorded { under_way.now ≡ None → IfSome opened.now (λ o. start.next.epoch ≡ o.driver.epoch + 1) }
    ensures begun { IfOk result (λ r. BeginsReopening (map (λ name. name.now) start.entry.lost.now)
        (driver_of opened.now) (reopening_under_way under_way.now) (Some r)) }
    ensures under { IfOk result (λ r. r.document ≡ document) }
    ensures named { under_way.now ≡ None → opened.now ≡ None
        → IfOk result (λ r. (r.journal ≡ start.entry.next.journal) × (r.epoch ≡ start.entry.next.epoch)) }
{
    match under_way {
        Some(current) => current
            .reopening
            .replace(alloc, document, start.lost, start.next.epoch),
        None => begun_over(opened, alloc, document, start.lost, start.next),
    }
}

/// The reopening that a line asks for, over what is recorded, or in place of the one under way.
fn begun_by(
    opened: &Option<JournalState>,
    under_way: &Option<UnderWay>,
    alloc: Global,
    line: ReopenLine<'_, '_>,
) -> Result<DocumentReopening, NotBegun>
    ensures begun { IfOk result (λ r.
        BeginsReopening (texts_among line.entry.lost.now) (driver_of opened.now)
        (reopening_under_way under_way.now) (Some r)) }
    ensures under { IfOk result (λ r. read_data (Some (view line.entry.document.now)) ≡ Ok (rows_of r.document)) }
    ensures named { under_way.now ≡ None → opened.now ≡ None
        → IfOk result (λ r. (line.entry.journal ≡ Some r.journal) × (line.entry.epoch ≡ Some r.epoch)) }
    ensures known { IfOk result (λ _. unknown_lost line.entry opened.now under_way.now ≡ None) }
{
    let last = last_epoch(opened, under_way);
    let next = next_epoch(last, line.journal, line.epoch)?;
    let document = document_of(alloc, line.document)?;
    let lost = names_in(alloc, line.lost)?;
    if let Some(name) = unknown_lost(opened, under_way, lost.as_slice()) {
        return Err(NotBegun::UnknownLost(String::from_str(alloc, name)?));
    }
    let start = ReopeningStart {
        lost: lost.as_slice(),
        next,
    };
    match begun_under(opened, under_way, alloc, document, start) {
        Ok(reopening) => Ok(reopening),
        Err((document, ReopenFault::NoMemory)) => {
            drop(document);
            Err(NotBegun::NoMemory)
        }
        Err((document, fault)) => Err(NotBegun::Refused(document, fault)),
    }
}

/// Begins the reopening that a line asks for, or replaces the one under way.
pub(crate) fn reopen(
    opened: &Option<JournalState>,
    under_way: &mut Option<UnderWay>,
    alloc: Global,
    line: ReopenLine<'_, '_>,
) -> Result<ReopenOutcome, AllocError>
    ensures { IfOk result (λ came. DoesReopen line.entry opened.now under_way.old came under_way.new) }
{
    match begun_by(opened, under_way, alloc, line) {
        Ok(reopening) => {
            *under_way = Some(UnderWay { reopening });
            Ok(ReopenOutcome::Begun)
        }
        Err(NotBegun::NoMemory) => Err(AllocError),
        Err(why) => Ok(ReopenOutcome::NotBegun(why)),
    }
}
