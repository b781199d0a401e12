//! Replies to questions.
ghost use Rattle.std.specs.Prelude.{OnOk};
ghost use Rattle.smpland_lines.specs.Refusals.{TellsRefused};
ghost use Rattle.smpland_lines.specs.declared.command.Question.TheVariants as asked;
ghost use Rattle.smpland_session.specs.Questions.{TellsAnswer};

mod audit;
mod hello;
mod in_force;
mod orders;
mod state;

use crate::session::Session;
use smpland_lines::{Question, Writer, refuse};
use smpland_state::{LaterPlaces, write_document, write_map, write_since};
use std::alloc::{AllocError, Global};

impl Session {
    /// Writes the reply to a question.
    pub(crate) fn tell(
        &self,
        alloc: Global,
        question: Question<'_, '_>,
        writer: &mut Writer,
    ) -> Result<(), AllocError>
        ensures { OnOk result (TellsAnswer question.entry self.now writer.old.tokens writer.new.tokens) }
    {
        match question {
            Question::Hello => self.write_hello(alloc, writer),
            Question::Orders => self.write_orders(alloc, writer),
            Question::State { of } => self.tell_state(alloc, of, writer),
            Question::Map => self.tell_map(alloc, writer),
            Question::Document => self.tell_document(alloc, writer),
            Question::Since { place } => self.tell_since(alloc, place, writer),
            Question::InForce(question) => self.tell_in_force(alloc, question, writer),
        }
    }

    /// Writes that there is no journal to tell of.
    fn refuse_closed(&self, alloc: Global, writer: &mut Writer) -> Result<(), AllocError>
        ensures { OnOk result (TellsRefused writer.old.tokens writer.new.tokens) }
    {
        refuse(writer, alloc, self.context().closed_word(), &[])
    }

    /// Writes the published map.
    fn tell_map(&self, alloc: Global, writer: &mut Writer) -> Result<(), AllocError>
        ensures { OnOk result (TellsAnswer asked.Map self.now writer.old.tokens writer.new.tokens) }
    {
        match &self.opened {
            Some(opened) => write_map(opened, writer),
            None => self.refuse_closed(alloc, writer),
        }
    }

    /// Writes the service as a document.
    fn tell_document(&self, alloc: Global, writer: &mut Writer) -> Result<(), AllocError>
        ensures { OnOk result (TellsAnswer asked.Document self.now writer.old.tokens writer.new.tokens) }
    {
        match &self.opened {
            Some(opened) => write_document(opened, writer),
            None => self.refuse_closed(alloc, writer),
        }
    }

    /// Writes what came up after a place.
    fn tell_since(&self, alloc: Global, place: u64, writer: &mut Writer) -> Result<(), AllocError>
        ensures { OnOk result (TellsAnswer (asked.Since place) self.now writer.old.tokens writer.new.tokens) }
    {
        let is_reopening = self.under_way.is_some();
        let places = LaterPlaces {
            after: place,
            present: self.place,
        };
        match &self.opened {
            Some(opened) => write_since(opened, is_reopening, alloc, writer, places),
            None => self.refuse_closed(alloc, writer),
        }
    }
}
