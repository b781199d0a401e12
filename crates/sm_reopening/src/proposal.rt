//! Proposals of what may be settled.
ghost use Rattle.std.specs.Prelude.{◌≡◌, None, slice_index_or};
ghost use Rattle.sm_placement.specs.Layout.{grid_of};
ghost use Rattle.sm_placement.specs.Lead.{has_part};
ghost use Rattle.sm_placement.specs.Opening.{first_below};
ghost use Rattle.sm_reopening.specs.Ongoing.{net_reopening};
ghost use Rattle.sm_reopening.specs.Proposal.{IsProposedPrimary, has_known_lead, has_no_slots, has_replica_role};
ghost use Rattle.sm_reopening.specs.Proposal.{has_told_part, has_told_replica, has_whole, holds_replica};
ghost use Rattle.sm_reopening.specs.Proposal.{is_documented, is_held, is_led, is_primary_role, is_silent_successor};
ghost use Rattle.sm_reopening.specs.Proposal.{keeps_replica, leads_shard, primary_of, proposed_cell, role_counted};

use crate::ongoing::OngoingReopening;
use crate::party::{FoundSlot, Membership};
use sm_server::{Cell, Role, ServerId, ShardId};

/// Returns whether a cell is a replica.
fn is_replica(cell: &Cell) -> bool
    ensures { result ≡ has_replica_role cell.now }
{
    matches!(cell, Cell::Primary | Cell::Secondary)
}

/// Returns whether a cell has a part in its shard's lead.
pub(crate) fn has_part(cell: &Cell) -> bool
    ensures { result ≡ has_part cell.now }
{
    !matches!(cell, Cell::Absent | Cell::Secondary)
}

/// Returns whether what was told is a replica.
fn has_told_replica(slot: Option<FoundSlot>) -> bool
    ensures { result ≡ has_told_replica slot }
{
    match slot {
        Some(slot) => is_replica(&slot.cell),
        None => false,
    }
}

/// Returns whether what was told is a part in the shard's lead.
fn has_told_part(slot: Option<FoundSlot>) -> bool
    ensures { result ≡ has_told_part slot }
{
    match slot {
        Some(slot) => has_part(&slot.cell),
        None => false,
    }
}

/// Returns whether a role is that of a primary.
fn is_primary_role(role: Option<Role>) -> bool
    ensures { result ≡ is_primary_role role }
{
    matches!(role, Some(Role::Primary))
}

/// Returns the role at a place of a list.
fn role_at(documented: &[Option<Role>], place: usize) -> Option<Role>
    ensures { result ≡ slice_index_or documented.now place None }
{
    match documented.get(place) {
        Some(role) => *role,
        None => None,
    }
}

impl OngoingReopening {
    /// Returns whether a server is lost.
    pub(crate) fn is_lost(&self, server: ServerId) -> bool
        ensures { result ≡ (net_reopening self.now).lost server }
    {
        match self.servers.get(server.number() as usize) {
            Some(state) => state.membership == Membership::Lost,
            None => false,
        }
    }

    /// Returns the role that the document gives a server for a shard.
    pub(crate) fn documented_role(
        &self,
        documented: &[Option<Role>],
        shard: ShardId,
        server: ServerId,
    ) -> Option<Role>
        ensures { result ≡ grid_of (net_reopening self.now).servers None documented.now shard server }
    {
        let column = server.number() as usize;
        let count = self.server_count() as usize;
        if column >= count {
            return None;
        }
        role_at(documented, shard.number() as usize * count + column)
    }

    /// Returns the role that the document gives a server that is Unknown.
    fn role_counted(
        &self,
        documented: &[Option<Role>],
        shard: ShardId,
        server: ServerId,
    ) -> Option<Role>
        ensures { result ≡ role_counted self.now (grid_of (net_reopening self.now).servers None documented.now)
            shard server }
    {
        if self.nonce(server).is_none() {
            return None;
        }
        self.documented_role(documented, shard, server)
    }

    /// Whether a server is recorded, or has told, that it has a part in a shard's lead.
    fn leads(&self, shard: ShardId, server: ServerId) -> bool
        ensures { result ≡ leads_shard self.now shard server }
    {
        has_part(&self.recorded_cell(shard, server)) || has_told_part(self.slot(shard, server))
    }

    /// The lowest such server.
    #[tactic(auto, using(sm_placement::proofs::Searches::find_range_more))]
    fn first_leading(&self, shard: ShardId) -> Option<ServerId>
        ensures { result ≡ first_below (net_reopening self.now).servers (leads_shard self.now shard) }
    {
        for number in 0..self.server_count() {
            if self.leads(shard, ServerId::new(number)) {
                return Some(ServerId::new(number));
            }
        }
        None
    }

    /// Whether a shard has a lead.
    pub(crate) fn has_known_lead(&self, shard: ShardId) -> bool
        ensures { result ≡ has_known_lead self.now shard }
    {
        self.first_leading(shard).is_some()
    }

    /// Whether a server holds a replica of a shard, as it has told, or as it is recorded and carried over.
    fn holds_replica(&self, shard: ShardId, server: ServerId) -> bool
        ensures { result ≡ holds_replica self.now shard server }
    {
        (self.is_carried(server) && is_replica(&self.recorded_cell(shard, server)))
            || has_told_replica(self.slot(shard, server))
    }

    /// The lowest server that holds a replica of a shard.
    #[tactic(auto, using(sm_placement::proofs::Searches::find_range_more))]
    fn first_holder(&self, shard: ShardId) -> Option<ServerId>
        ensures { result ≡ first_below (net_reopening self.now).servers (holds_replica self.now shard) }
    {
        for number in 0..self.server_count() {
            if self.holds_replica(shard, ServerId::new(number)) {
                return Some(ServerId::new(number));
            }
        }
        None
    }

    /// Whether some server holds a replica of a shard.
    fn is_held(&self, shard: ShardId) -> bool
        ensures { result ≡ is_held self.now shard }
    {
        self.first_holder(shard).is_some()
    }

    /// The lowest server that the document has as a shard's primary.
    #[tactic(auto, using(sm_placement::proofs::Searches::find_range_more))]
    fn first_documented(&self, documented: &[Option<Role>], shard: ShardId) -> Option<ServerId>
        ensures { result ≡ first_below (net_reopening self.now).servers
            (λ v. is_primary_role (grid_of (net_reopening self.now).servers None documented.now shard v)) }
    {
        for number in 0..self.server_count() {
            let server = ServerId::new(number);
            if is_primary_role(self.documented_role(documented, shard, server)) {
                return Some(server);
            }
        }
        None
    }

    /// Whether the document has a primary for a shard.
    fn is_documented(&self, documented: &[Option<Role>], shard: ShardId) -> bool
        ensures { result
            ≡ is_documented self.now (grid_of (net_reopening self.now).servers None documented.now) shard }
    {
        self.first_documented(documented, shard).is_some()
    }

    /// Whether a shard gets a primary.
    fn is_led(&self, documented: &[Option<Role>], shard: ShardId) -> bool
        ensures { result ≡ is_led self.now (grid_of (net_reopening self.now).servers None documented.now) shard }
    {
        self.has_known_lead(shard)
            || (!self.is_held(shard) && self.is_documented(documented, shard))
    }

    /// Returns the lowest Unknown server that the document has as a shard's primary.
    #[tactic(auto, using(sm_placement::proofs::Searches::find_range_more))]
    fn documented_primary(&self, documented: &[Option<Role>], shard: ShardId) -> Option<ServerId>
        ensures { result ≡ first_below (net_reopening self.now).servers
            (λ v. is_primary_role (role_counted self.now
            (grid_of (net_reopening self.now).servers None documented.now) shard v)) }
    {
        for number in 0..self.server_count() {
            let server = ServerId::new(number);
            if is_primary_role(self.role_counted(documented, shard, server)) {
                return Some(server);
            }
        }
        None
    }

    /// Returns the primary that is proposed for a shard. `documented` has the document's roles, shard after shard, with
    /// one for each number of a server.
    pub fn proposed_primary(&self, documented: &[Option<Role>], shard: ShardId) -> Option<ServerId>
        ensures proposed { IsProposedPrimary self.now
            (grid_of (net_reopening self.now).servers None documented.now) shard result }
        ensures exact { result ≡ primary_of self.now
            (grid_of (net_reopening self.now).servers None documented.now) shard }
    {
        if !self.is_led(documented, shard) {
            return None;
        }
        let successor = self.successor(shard);
        if successor.is_some() {
            return successor;
        }
        self.documented_primary(documented, shard)
    }

    /// Returns whether a server keeps a replica of a shard.
    fn keeps_replica(&self, documented: &[Option<Role>], shard: ShardId, server: ServerId) -> bool
        ensures { result ≡ keeps_replica self.now
            (grid_of (net_reopening self.now).servers None documented.now) shard server }
    {
        self.holds_replica(shard, server) || self.role_counted(documented, shard, server).is_some()
    }

    /// Returns the cell that is proposed for a server, if the shard goes to this primary.
    pub fn proposed_cell(
        &self,
        documented: &[Option<Role>],
        shard: ShardId,
        primary: Option<ServerId>,
        server: ServerId,
    ) -> Cell
        ensures { result ≡ proposed_cell self.now
            (grid_of (net_reopening self.now).servers None documented.now) shard primary server }
    {
        if self.is_left_out(server) || self.is_lost(server) {
            return Cell::Absent;
        }
        if primary == Some(server) {
            return Cell::Primary;
        }
        if self.keeps_replica(documented, shard, server) {
            Cell::Secondary
        } else {
            Cell::Absent
        }
    }

    /// Returns whether a server has all of a shard.
    pub(crate) fn has_whole(&self, shard: ShardId, server: ServerId) -> bool
        ensures { result ≡ has_whole self.now shard server }
    {
        self.standing(shard, server).claim > 1
    }

    /// Returns the lowest server that has all of a shard.
    #[tactic(auto, using(sm_placement::proofs::Searches::find_range_more))]
    pub(crate) fn first_whole(&self, shard: ShardId) -> Option<ServerId>
        ensures { result ≡ first_below (net_reopening self.now).servers (has_whole self.now shard) }
    {
        for number in 0..self.server_count() {
            if self.has_whole(shard, ServerId::new(number)) {
                return Some(ServerId::new(number));
            }
        }
        None
    }

    /// Whether a server has no slots any more: it is lost, or Unknown.
    pub(crate) fn has_no_slots(&self, server: ServerId) -> bool
        ensures { result ≡ has_no_slots self.now server }
    {
        self.is_lost(server) || self.nonce(server).is_some()
    }

    /// Returns whether a server that would be a shard's primary has not answered, and is not recorded as one.
    pub fn is_silent_successor(&self, shard: ShardId, server: ServerId) -> bool
        ensures { result ≡ is_silent_successor self.now shard server }
    {
        self.is_carried(server) && !matches!(self.recorded_cell(shard, server), Cell::Primary)
    }
}
