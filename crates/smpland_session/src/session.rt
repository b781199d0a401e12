//! Sessions.
ghost use Rattle.std.specs.Prelude.{◌≡◌, ℕ, List, ◌∷◌, ◌++◌, [], IfOk, OnOk};
ghost use Rattle.journal_lines.specs.Objects.{IsObject};
ghost use Rattle.smpland_session.specs.Changes.{count_after};
ghost use Rattle.smpland_session.specs.declared.session.LineEffect.TheVariants as did;

use crate::changing::change;
use crate::closed::Closed;
use crate::command_context::CommandContext;
use crate::opening::{OpenLine, open};
use crate::outcome::Outcome;
use crate::reading::read_object;
use crate::reopen_line::{ReopenLine, reopen};
use crate::reopening::{SettleAnswer, confirm_cells, take_answer, take_settle};
use crate::under_way::{UnderWay, write_outcome};
use json::Scratch;
use json_tree::Tree;
use sm_placement::Config;
use smpland_lines::{
    DriverCommand, Id, LineCommand, ReopeningCommand, Writer, id_of, read_command, write_bad,
    write_id,
};
use smpland_state::JournalState;
use std::alloc::{AllocError, Global};

/// The effect of a line.
#[derive(Clone, Copy, Debug, PartialEq, Eq)]
pub enum LineEffect {
    Changed,
    Unchanged,
}

impl LineEffect {
    ghost use Rattle.smpland_session.specs.Exchanges.{effect_if};

    /// The effect of a line that has changed something, or has not.
    pub(crate) fn of(has_changed: bool) -> LineEffect
        ensures { result ≡ effect_if has_changed }
    {
        if has_changed {
            LineEffect::Changed
        } else {
            LineEffect::Unchanged
        }
    }
}

/// The number of commands that have changed something, after one that has, or has not.
fn count_after(has_changed: bool, place: u64) -> u64
    ensures { result ≡ count_after has_changed place }
{
    if has_changed {
        place.saturating_add(1)
    } else {
        place
    }
}

/// Adds these members, in braces, behind what is there.
fn push_object(out: &mut Vec<u8>, members: &[u8]) -> Result<(), AllocError>
    ensures { OnOk result (out.new.items ≡ out.old.items ++ 123 ∷ (members.now ++ 125 ∷ [])) }
{
    out.push(b'{')?;
    out.extend_from_slice(members)?;
    out.push(b'}')?;
    Ok(())
}

/// A driver under commands, from the first line on.
pub struct Session {
    pub(crate) opened: Option<JournalState>,
    /// The reopening that is under way. As long as it is, what was opened before it stays, for questions alone.
    pub(crate) under_way: Option<UnderWay>,
    /// The number of commands that have changed something.
    pub(crate) place: u64,
}

impl Session {
    ghost use Rattle.std.specs.Prelude.{None, false, is_some, option_map};
    ghost use Rattle.json_tree.specs.View.{view};
    ghost use Rattle.smpland_lines.specs.Members.{id_members};
    ghost use Rattle.smpland_lines.specs.declared.command.LineCommand.TheVariants as line;
    ghost use Rattle.smpland_session.specs.Asked.{DoesAsSaid, setup_in_force};
    ghost use Rattle.smpland_session.specs.Changes.{IsNew, SessionChanges};
    ghost use Rattle.smpland_session.specs.Declines.{DeclinesBy};
    ghost use Rattle.smpland_session.specs.Exchanges.{Comes, ComesTo, Exchanges, KnowsAll, Replies, Takes, TakesAgain};
    ghost use Rattle.smpland_session.specs.Exchanges.{TellsExchange, is_change};
    ghost use Rattle.smpland_session.specs.Replies.{IsLineReply};

    /// A session before its first line.
    pub fn new() -> Self
        ensures { IsNew result }
    {
        Session {
            opened: None,
            under_way: None,
            place: 0,
        }
    }

    /// Ends a session.
    pub fn close(self) {
        let Session {
            opened,
            under_way: _under_way,
            place: _,
        } = self;
        match opened {
            Some(opened) => opened.close(),
            None => {}
        }
    }

    /// Applies a line, and writes the reply to it, without a line feed, behind what is there. If memory is short, the
    /// session is to end.
    pub fn apply(
        &mut self,
        alloc: Global,
        line: &[u8],
        reply: &mut Vec<u8>,
    ) -> Result<LineEffect, AllocError>
        ensures taken { IfOk result (λ applied. applied ≡ did.Changed
            → TakesAgain line.now self.old did.Changed self.new) }
        ensures changed { IfOk result (λ applied. applied ≡ did.Changed → SessionChanges self.old self.new) }
        ensures asked { IfOk result (λ applied. applied ≡ did.Changed → DoesAsSaid line.now self.old self.new) }
        ensures unchanged { IfOk result (λ applied. applied ≡ did.Unchanged → self.new ≡ self.old) }
        // A journal can take a line that changed something as an entry.
        ensures object { IfOk result (λ applied. applied ≡ did.Changed → IsObject line.now) }
        ensures behind { OnOk result ((text : List ℕ) × (reply.new.items ≡ reply.old.items ++ text)) }
        ensures told { IfOk result (λ applied. (text : List ℕ) × (reply.new.items ≡ reply.old.items ++ text)
            × IsLineReply line.now self.old self.new applied text) }
        // No reply tells a change that was not made.
        ensures declined { IfOk result (λ applied. applied ≡ did.Unchanged → (text : List ℕ)
            × (reply.new.items ≡ reply.old.items ++ text) × DeclinesBy text line.now self.old) }
    {
        let mut scratch = Scratch::new(alloc);
        let read = read_object(alloc, line, &mut scratch)?;
        match read {
            Ok(tree) => self.answer(alloc, &tree, reply),
            Err(bad) => {
                self.write_reply(alloc, None, &Outcome::Bad(bad), reply)?;
                Ok(LineEffect::Unchanged)
            }
        }
    }

    /// Takes a line that is an object, and writes the reply, after the change.
    fn answer(
        &mut self,
        alloc: Global,
        line: &Tree<'_>,
        reply: &mut Vec<u8>,
    ) -> Result<LineEffect, AllocError>
        ensures { IfOk result (λ effect.
            Exchanges (view line.now) self.old effect self.new reply.old.items reply.new.items) }
    {
        match self.take(alloc, line) {
            Ok(came) => {
                self.write_reply(alloc, id_of(line), &came, reply)?;
                Ok(LineEffect::of(came.has_changed()))
            }
            Err(error) => Err(error),
        }
    }

    /// Takes a line that is an object: its command, or what is wrong with it.
    pub(crate) fn take<'t, 'a>(
        &mut self,
        alloc: Global,
        line: &'t Tree<'a>,
    ) -> Result<Outcome<'t, 'a>, AllocError>
        ensures { IfOk result (λ came. Takes (view line.now) self.old came self.new) }
    {
        match read_command(alloc, line, self.config())? {
            Ok(command) => self.take_command(alloc, command),
            Err(bad) => Ok(Outcome::Bad(bad)),
        }
    }

    /// Carries out a command, and counts it if it has changed something.
    fn take_command<'t, 'a>(
        &mut self,
        alloc: Global,
        command: LineCommand<'t, 'a>,
    ) -> Result<Outcome<'t, 'a>, AllocError>
        ensures { IfOk result (λ came. Comes command.entry self.old came self.new) }
    {
        match self.carry_out(alloc, command) {
            Ok(came) => {
                self.count(&came);
                Ok(came)
            }
            Err(error) => Err(error),
        }
    }

    /// Counts a command that has changed something.
    fn count(&mut self, came: &Outcome<'_, '_>)
        ensures opened { self.new.opened ≡ self.old.opened }
        ensures under_way { self.new.under_way ≡ self.old.under_way }
        ensures place { self.new.place ≡ count_after (is_change came.now) self.old.place }
    {
        self.place = count_after(came.has_changed(), self.place);
    }

    /// The servers and shards of the document in force, if there is one.
    pub(crate) fn config(&self) -> Option<&Config>
        ensures { option_map (λ config. config.now) result ≡ setup_in_force self.now }
    {
        match &self.opened {
            Some(opened) => Some(opened.driver.machine().config()),
            None => None,
        }
    }

    /// The place of a command that changes something now, and whether a reopening is under way.
    pub(crate) fn context(&self) -> CommandContext
        ensures { result.is_reopening ≡ is_some self.now.under_way }
    {
        CommandContext {
            place: self.place.saturating_add(1),
            is_reopening: self.under_way.is_some(),
        }
    }

    /// Carries out a command.
    fn carry_out<'t, 'a>(
        &mut self,
        alloc: Global,
        command: LineCommand<'t, 'a>,
    ) -> Result<Outcome<'t, 'a>, AllocError>
        ensures came { IfOk result (λ came. ComesTo command.entry
            self.old.opened self.old.under_way came self.new.opened self.new.under_way) }
        ensures place { self.new.place ≡ self.old.place }
    {
        let at = self.context();
        match command {
            LineCommand::Open {
                document,
                journal,
                epoch,
            } => {
                let line = OpenLine {
                    document,
                    journal,
                    epoch,
                };
                Ok(Outcome::Open(open(&mut self.opened, at, alloc, line)?))
            }
            LineCommand::Driver(command) => self.drive(at, alloc, command),
            LineCommand::Reopening(command) => self.go_on(at, alloc, command),
            LineCommand::Question(question) => Ok(Outcome::Answered(question)),
        }
    }

    /// Carries out a command on the journal that is open.
    fn drive<'t, 'a>(
        &mut self,
        at: CommandContext,
        alloc: Global,
        command: DriverCommand<'t, 'a>,
    ) -> Result<Outcome<'t, 'a>, AllocError>
        requires { at.is_reopening ≡ is_some self.old.under_way }
        ensures came { IfOk result (λ came. ComesTo (line.Driver command.entry)
            self.old.opened self.old.under_way came self.new.opened self.new.under_way) }
        ensures place { self.new.place ≡ self.old.place }
    {
        match &mut self.opened {
            Some(opened) => Ok(Outcome::Driver(change(opened, at, alloc, command)?)),
            None => Ok(Outcome::Closed(Closed::of(command, at.is_reopening))),
        }
    }

    /// Carries out a command of a reopening.
    fn go_on<'t, 'a>(
        &mut self,
        at: CommandContext,
        alloc: Global,
        command: ReopeningCommand<'t, 'a>,
    ) -> Result<Outcome<'t, 'a>, AllocError>
        ensures came { IfOk result (λ came. ComesTo (line.Reopening command.entry)
            self.old.opened self.old.under_way came self.new.opened self.new.under_way) }
        ensures place { self.new.place ≡ self.old.place }
    {
        match command {
            ReopeningCommand::Reopen {
                document,
                lost,
                journal,
                epoch,
            } => {
                let line = ReopenLine {
                    document,
                    lost,
                    journal,
                    epoch,
                };
                let came = reopen(&self.opened, &mut self.under_way, alloc, line)?;
                Ok(Outcome::Reopen(came))
            }
            ReopeningCommand::Fenced { server, base, told } => {
                match take_answer(&mut self.under_way, alloc, server, base, told) {
                    Ok(came) => Ok(Outcome::Reopening(came)),
                    Err(error) => Err(error),
                }
            }
            ReopeningCommand::Confirm { base, cells, lost } => {
                match confirm_cells(&mut self.under_way, alloc, base, cells, lost) {
                    Ok(came) => Ok(Outcome::Reopening(came)),
                    Err(error) => Err(error),
                }
            }
            ReopeningCommand::Settled { server, base } => {
                let (opened, under_way) = (&mut self.opened, &mut self.under_way);
                let answer = SettleAnswer { server, base };
                match take_settle(opened, under_way, at, alloc, answer) {
                    Ok(came) => Ok(Outcome::Reopening(came)),
                    Err(error) => Err(error),
                }
            }
        }
    }

    /// Writes the reply to a line with this id, in braces, behind what is there.
    fn write_reply(
        &self,
        alloc: Global,
        id: Option<Id<'_>>,
        came: &Outcome<'_, '_>,
        reply: &mut Vec<u8>,
    ) -> Result<(), AllocError>
        requires { KnowsAll self.now came.now }
        ensures { OnOk result (Replies self.now came.now (id_members id.entry) reply.old.items reply.new.items) }
    {
        let mut writer = Writer::new(alloc);
        write_id(&mut writer, id)?;
        self.write(alloc, came, &mut writer)?;
        let members = writer.into_text();
        push_object(reply, members.as_slice())
    }

    /// Writes what has come of a line.
    fn write(
        &self,
        alloc: Global,
        came: &Outcome<'_, '_>,
        writer: &mut Writer,
    ) -> Result<(), AllocError>
        requires { KnowsAll self.now came.now }
        ensures { OnOk result (TellsExchange self.now came.now writer.old.tokens writer.new.tokens) }
    {
        match came {
            Outcome::Bad(bad) => write_bad(writer, alloc, *bad),
            Outcome::Open(came) => came.write(&self.opened, alloc, writer),
            Outcome::Driver(came) => match &self.opened {
                Some(opened) => came.write(opened, alloc, writer),
                None => Ok(()),
            },
            Outcome::Closed(why) => why.write(alloc, writer),
            Outcome::Reopen(came) => came.write(&self.under_way, alloc, writer),
            Outcome::Reopening(came) => {
                write_outcome(came, &self.opened, &self.under_way, alloc, writer)
            }
            Outcome::Answered(question) => self.tell(alloc, *question, writer),
        }
    }
}
