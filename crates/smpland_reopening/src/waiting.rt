//! Awaited answers.
ghost use Rattle.std.specs.Prelude.{◌≡◌, ◌<◌, ◌∷◌, ◌++◌, ℕ, [], IfOk, OnOk, false, is_some, slice_index_or};
ghost use Rattle.std.specs.List.{filter};
ghost use Rattle.sm_reopening.specs.Ongoing.{is_missing, net_reopening};
ghost use Rattle.sm_reopening.specs.Proposal.{is_the};
ghost use Rattle.sm_reopening.specs.Settles.{is_unsettled, net_party};
ghost use Rattle.smpland_reopening.specs.Proposal.{awaited_parties, has_silent_lead, is_silent_primary};
ghost use Rattle.smpland_reopening.specs.Proposal.{parties_waited_for, silent_leaders};
ghost use Rattle.smpland_reopening.specs.Stages.{stage_of};
ghost use Rattle.smpland_reopening.specs.Waiting.{is_unanswered, unanswered_parties, unsettled_parties};

use crate::marks::{is_marked, mark};
use crate::reopening::DocumentReopening;
use sm_reopening::Party;
use sm_server::{ServerId, ShardId};
use std::alloc::{AllocError, Global};

/// The stage of a reopening.
#[derive(Clone, Copy, Debug, PartialEq, Eq)]
pub enum Stage {
    /// Answers to the fence are awaited.
    Fence,
    /// The proposal may be confirmed.
    Confirm,
    /// It is confirmed, and answers to the settles are awaited.
    Settle,
}

impl DocumentReopening {
    /// Returns whether a party is asked, and has not answered the fence.
    pub fn is_unanswered(&self, party: &Party) -> bool
        ensures { result ≡ is_unanswered (net_reopening self.now.ongoing) (net_party party.now) }
    {
        match party {
            Party::Server(server) => {
                self.ongoing.is_asked(*server) && !self.ongoing.has_told(*server)
            }
            Party::MapOwner => !self.ongoing.has_answered(party),
        }
    }

    /// Adds a party if it is asked, and has not answered the fence.
    fn push_unanswered(&self, parties: &mut Vec<Party>, party: Party) -> Result<(), AllocError>
        ensures { OnOk result (parties.new.items ≡ parties.old.items
            ++ filter (λ p. is_unanswered (net_reopening self.now.ongoing) (net_party p)) (party ∷ [])) }
    {
        if self.is_unanswered(&party) {
            parties.push(party)?;
        }
        Ok(())
    }

    /// Returns the parties, in their order, that have not answered the fence.
    pub fn unanswered(&self, alloc: Global) -> Result<Vec<Party>, AllocError>
        ensures { IfOk result (λ parties. parties.items ≡ unanswered_parties (net_reopening self.now.ongoing)) }
    {
        let mut parties = Vec::new(alloc);
        self.push_unanswered(&mut parties, Party::MapOwner)?;
        for number in 0..self.ongoing.server_count() {
            self.push_unanswered(&mut parties, Party::Server(ServerId::new(number)))?;
        }
        Ok(parties)
    }

    /// Returns whether a party has to answer the fence whatever the others tell.
    fn is_awaited(&self, party: &Party) -> bool
        ensures { result ≡ is_missing self.now.ongoing (net_party party.now) }
    {
        match party {
            Party::Server(server) => self.ongoing.is_awaited(*server),
            Party::MapOwner => !self.ongoing.has_answered(party),
        }
    }

    /// Adds a party if it has to answer the fence whatever the others tell.
    fn push_awaited(&self, parties: &mut Vec<Party>, party: Party) -> Result<(), AllocError>
        ensures { OnOk result (parties.new.items ≡ parties.old.items
            ++ filter (λ p. is_missing self.now.ongoing (net_party p)) (party ∷ [])) }
    {
        if self.is_awaited(&party) {
            parties.push(party)?;
        }
        Ok(())
    }

    /// Returns the parties, in their order, that have to answer the fence whatever the others tell.
    fn awaited(&self, alloc: Global) -> Result<Vec<Party>, AllocError>
        ensures { IfOk result (λ parties. parties.items ≡ awaited_parties self.now) }
    {
        let mut parties = Vec::new(alloc);
        self.push_awaited(&mut parties, Party::MapOwner)?;
        for number in 0..self.ongoing.server_count() {
            self.push_awaited(&mut parties, Party::Server(ServerId::new(number)))?;
        }
        Ok(parties)
    }

    /// Returns the server that would be a shard's primary, if it has not answered, and is not recorded so.
    fn silent_primary(&self, shard: ShardId) -> Option<ServerId>
        ensures { (v : ℕ) → is_the result v ≡ is_silent_primary self.now v shard }
    {
        let primary = self.proposed_primary(shard)?;
        if self.ongoing.is_silent_successor(shard, primary) {
            Some(primary)
        } else {
            None
        }
    }

    /// Returns by number which servers would be primaries of shards of the document, have not answered, and are not
    /// recorded so.
    fn silent_marks(&self, alloc: Global) -> Result<Vec<bool>, AllocError>
        ensures { IfOk result (λ marks. (v : ℕ) → v < (net_reopening self.now.ongoing).servers
            → slice_index_or marks.items v false ≡ has_silent_lead self.now v) }
    {
        let mut marks = vec![in alloc; false; self.ongoing.server_count() as usize]?;
        for shard in &self.shards {
            if let Some(primary) = self.silent_primary(*shard) {
                mark(&mut marks, primary.number());
            }
        }
        Ok(marks)
    }

    /// Returns the servers, in their order, that would be primaries of shards of the document, have not answered, and
    /// are not recorded so.
    fn silent_leaders(&self, alloc: Global) -> Result<Vec<Party>, AllocError>
        ensures { IfOk result (λ parties. parties.items ≡ silent_leaders self.now) }
    {
        let marks = self.silent_marks(alloc)?;
        let mut parties = Vec::new(alloc);
        for number in 0..self.ongoing.server_count() {
            if is_marked(&marks, number) {
                parties.push(Party::Server(ServerId::new(number)))?;
            }
        }
        Ok(parties)
    }

    /// Returns the parties, in their order, that have to answer the fence before anything can be confirmed. They are
    /// those that are not carried over, or otherwise those that would be primaries and are not recorded so.
    pub fn waits_for(&self, alloc: Global) -> Result<Vec<Party>, AllocError>
        ensures { IfOk result (λ parties. parties.items ≡ parties_waited_for self.now) }
    {
        let parties = self.awaited(alloc)?;
        if parties.is_empty() {
            self.silent_leaders(alloc)
        } else {
            Ok(parties)
        }
    }

    /// Adds a party if it was sent a settle, and has not answered it.
    fn push_unsettled(&self, parties: &mut Vec<Party>, party: Party) -> Result<(), AllocError>
        ensures { OnOk result (parties.new.items ≡ parties.old.items
            ++ filter (λ p. is_unsettled (net_reopening self.now.ongoing) (net_party p)) (party ∷ [])) }
    {
        if self.ongoing.is_unsettled(&party) {
            parties.push(party)?;
        }
        Ok(())
    }

    /// Returns the parties, in their order, that were sent a settle and have not answered it.
    pub fn unsettled(&self, alloc: Global) -> Result<Vec<Party>, AllocError>
        ensures { IfOk result (λ parties. parties.items ≡ unsettled_parties (net_reopening self.now.ongoing)) }
    {
        let mut parties = Vec::new(alloc);
        self.push_unsettled(&mut parties, Party::MapOwner)?;
        for number in 0..self.ongoing.server_count() {
            self.push_unsettled(&mut parties, Party::Server(ServerId::new(number)))?;
        }
        Ok(parties)
    }

    /// Returns whether a settlement is confirmed.
    pub fn is_confirmed(&self) -> bool
        ensures { result ≡ is_some (net_reopening self.now.ongoing).settlement }
    {
        self.ongoing.settlement().is_some()
    }

    /// The stage of the reopening.
    pub fn stage(&self, alloc: Global) -> Result<Stage, AllocError>
        ensures { IfOk result (λ stage. stage ≡ stage_of self.now) }
    {
        if self.is_confirmed() {
            return Ok(Stage::Settle);
        }
        if self.waits_for(alloc)?.is_empty() {
            Ok(Stage::Confirm)
        } else {
            Ok(Stage::Fence)
        }
    }
}
