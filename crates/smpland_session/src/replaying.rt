//! The entries of a journal, applied again.
ghost use Rattle.std.specs.Prelude.{◌≡◌, ℕ, List, IfOk};
ghost use Rattle.journal_lines.specs.Objects.{IsObject};
ghost use Rattle.smpland_session.specs.declared.session.LineEffect.TheVariants as did;
ghost use Rattle.smpland_session.specs.Asked.{DoesAsSaid};
ghost use Rattle.smpland_session.specs.Changes.{SessionChanges};
ghost use Rattle.smpland_session.specs.Exchanges.{TakesAgain};
ghost use Rattle.smpland_session.specs.Replies.{RepliesTo};

use crate::session::{LineEffect, Session};
use json::Scratch;
use smpland_lines::parse_line;
use std::alloc::{AllocError, Global};

impl Session {
    /// Applies an entry of a journal again: it does what `apply` does, and writes no reply. If memory is short, the
    /// session is to end.
    pub fn replay(&mut self, alloc: Global, entry: &[u8]) -> Result<LineEffect, AllocError>
        requires { IsObject entry.now }
        ensures taken { IfOk result (λ applied. TakesAgain entry.now self.old applied self.new) }
        ensures changed { IfOk result (λ applied. applied ≡ did.Changed → SessionChanges self.old self.new) }
        ensures asked { IfOk result (λ applied. applied ≡ did.Changed → DoesAsSaid entry.now self.old self.new) }
        ensures unchanged { IfOk result (λ applied. applied ≡ did.Unchanged → self.new ≡ self.old) }
        // There is a reply that would tell it.
        ensures told { IfOk result (λ applied. (reply : List ℕ) × RepliesTo entry.now self.old self.new applied reply) }
    {
        let mut scratch = Scratch::new(alloc);
        let Some(tree) = parse_line(alloc, entry, &mut scratch)? else {
            return Ok(LineEffect::Unchanged);
        };
        match self.take(alloc, &tree) {
            Ok(came) => Ok(LineEffect::of(came.has_changed())),
            Err(error) => Err(error),
        }
    }
}
