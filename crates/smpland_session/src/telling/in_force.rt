//! Replies to questions about plans and slots, which tell of the journal in force.
ghost use Rattle.std.specs.Prelude.{◌≡◌, OnOk, option_map};
ghost use Rattle.json_tree.specs.View.{view};
ghost use Rattle.smpland_lines.specs.declared.command.Question.TheVariants as asked;
ghost use Rattle.smpland_session.specs.Checks.{TellsCheck};
ghost use Rattle.smpland_session.specs.Planned.{TellsMoves};
ghost use Rattle.smpland_session.specs.Questions.{TellsAnswer, TellsDrainOf, TellsFailed, TellsOf, journal_in_force};

use crate::answering::write_ignored;
use crate::planning::{write_check, write_drain, write_moves};
use crate::session::Session;
use crate::telling::audit::AuditLine;
use json_tree::Tree;
use sm_reservation::StreamId;
use smpland_lines::{PlanQuestion, Writer};
use smpland_state::{FailedOrder, JournalState, write_failed};
use std::alloc::{AllocError, Global};

impl Session {
    /// The journal in force: the one that is open, as long as no reopening is under way.
    pub(super) fn in_force(&self) -> Option<&JournalState>
        ensures { option_map (λ opened. opened.now) result ≡ journal_in_force self.now }
    {
        match (&self.opened, &self.under_way) {
            (_, Some(_)) => None,
            (Some(opened), None) => Some(opened),
            (None, None) => None,
        }
    }

    /// Writes whether a plan would begin now.
    fn tell_check(
        &self,
        alloc: Global,
        plan: &Tree<'_>,
        writer: &mut Writer,
    ) -> Result<(), AllocError>
        ensures { OnOk result (TellsOf (journal_in_force self.now) (λ o. TellsCheck o.driver (view plan.now))
            writer.old.tokens writer.new.tokens) }
    {
        match self.in_force() {
            Some(opened) => write_check(opened, alloc, writer, plan),
            None => self.refuse_closed(alloc, writer),
        }
    }

    /// Writes a plan of moves, or why there is none.
    fn tell_moves(
        &self,
        alloc: Global,
        moves: &[Tree<'_>],
        writer: &mut Writer,
    ) -> Result<(), AllocError>
        ensures { OnOk result (TellsOf (journal_in_force self.now) (λ o. TellsMoves o.driver.machine)
            writer.old.tokens writer.new.tokens) }
    {
        match self.in_force() {
            Some(opened) => write_moves(opened, alloc, writer, moves),
            None => self.refuse_closed(alloc, writer),
        }
    }

    /// Writes a plan that empties a server, or why there is none.
    fn tell_drain(&self, alloc: Global, server: &str, writer: &mut Writer) -> Result<(), AllocError>
        ensures { OnOk result (TellsOf (journal_in_force self.now) (TellsDrainOf server.now)
            writer.old.tokens writer.new.tokens) }
    {
        match self.in_force() {
            Some(opened) => write_drain(opened, alloc, writer, server),
            None => self.refuse_closed(alloc, writer),
        }
    }

    /// Writes what to do about an order that has failed.
    fn tell_failed(
        &self,
        alloc: Global,
        failed: FailedOrder,
        writer: &mut Writer,
    ) -> Result<(), AllocError>
        ensures { OnOk result (TellsFailed failed.stream failed.number failed.answer self.now.opened
            self.now.under_way writer.old.tokens writer.new.tokens) }
    {
        match (&self.opened, &self.under_way) {
            (_, Some(_)) => write_ignored(writer, "old"),
            (Some(opened), None) => write_failed(opened, alloc, writer, failed),
            (None, None) => self.refuse_closed(alloc, writer),
        }
    }

    /// Writes the reply to a question about plans and slots.
    pub(super) fn tell_in_force(
        &self,
        alloc: Global,
        question: PlanQuestion<'_, '_>,
        writer: &mut Writer,
    ) -> Result<(), AllocError>
        ensures { OnOk result (TellsAnswer (asked.InForce question.entry) self.now
            writer.old.tokens writer.new.tokens) }
    {
        match question {
            PlanQuestion::Check { plan } => self.tell_check(alloc, plan, writer),
            PlanQuestion::Moves { moves } => self.tell_moves(alloc, moves, writer),
            PlanQuestion::Drain { server } => self.tell_drain(alloc, server, writer),
            PlanQuestion::Failed {
                plan,
                stream,
                number,
                answer,
            } => {
                let stream = StreamId { plan, stream };
                let failed = FailedOrder {
                    stream,
                    number,
                    answer,
                };
                self.tell_failed(alloc, failed, writer)
            }
            PlanQuestion::Audit {
                server,
                place,
                slots,
            } => {
                let line = AuditLine {
                    server,
                    place,
                    slots,
                };
                self.tell_audit(alloc, line, writer)
            }
        }
    }
}
