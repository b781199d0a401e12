//! Shards that may have lost acknowledged writes.
ghost use Rattle.std.specs.Prelude.{◌≡◌, None};
ghost use Rattle.sm_placement.specs.Layout.{grid_of};
ghost use Rattle.sm_placement.specs.Opening.{first_below};
ghost use Rattle.sm_reopening.specs.Losses.{gone_members, had_something, has_gone, has_gone_late, has_lost_settled};
ghost use Rattle.sm_reopening.specs.Losses.{has_recorded_part, is_bare, is_gone_member, is_named_lost};
ghost use Rattle.sm_reopening.specs.Losses.{is_primary_still};
ghost use Rattle.sm_reopening.specs.Losses.{is_untold};
ghost use Rattle.sm_reopening.specs.Losses.{is_settled_lost, may_be_first, may_have_order, may_have_served};
ghost use Rattle.sm_reopening.specs.Losses.{may_have_served_any, may_lack_copies, may_lack_writes, tells_whole};
ghost use Rattle.sm_reopening.specs.Ongoing.{net_reopening};

use crate::ongoing::OngoingReopening;
use crate::proposal::has_part;
use sm_server::{Cell, Role, ServerId, ShardId};

impl OngoingReopening {
    /// Whether a server to which a reopening that was replaced has sent a settle has no slots any more.
    fn has_lost_settled(&self, server: ServerId) -> bool
        ensures { result ≡ has_lost_settled self.now server }
    {
        self.was_sent(server) && self.has_no_slots(server)
    }

    /// The lowest such server.
    #[tactic(auto, using(sm_placement::proofs::Searches::find_range_more))]
    fn first_lost_settled(&self) -> Option<ServerId>
        ensures { result ≡ first_below (net_reopening self.now).servers (has_lost_settled self.now) }
    {
        for number in 0..self.server_count() {
            if self.has_lost_settled(ServerId::new(number)) {
                return Some(ServerId::new(number));
            }
        }
        None
    }

    /// Whether there is one.
    fn is_settled_lost(&self) -> bool
        ensures { result ≡ is_settled_lost self.now }
    {
        self.first_lost_settled().is_some()
    }

    /// Whether a server is a shard's primary still, as it has told, or as it is recorded and carried over; and no other
    /// one may have been primary since.
    fn is_primary_still(&self, shard: ShardId, server: ServerId) -> bool
        ensures { result ≡ is_primary_still self.now shard server }
    {
        self.standing(shard, server).claim > 3 && (self.was_sent(server) || !self.is_settled_lost())
    }

    /// The lowest server that is a shard's primary still.
    #[tactic(auto, using(sm_placement::proofs::Searches::find_range_more))]
    fn first_primary(&self, shard: ShardId) -> Option<ServerId>
        ensures { result ≡ first_below (net_reopening self.now).servers (is_primary_still self.now shard) }
    {
        for number in 0..self.server_count() {
            if self.is_primary_still(shard, ServerId::new(number)) {
                return Some(ServerId::new(number));
            }
        }
        None
    }

    /// Whether a server is recorded with a part in a shard's lead.
    fn has_recorded_part(&self, shard: ShardId, server: ServerId) -> bool
        ensures { result ≡ has_recorded_part self.now shard server }
    {
        has_part(&self.recorded_cell(shard, server))
    }

    /// The lowest server that is recorded with a part in a shard's lead.
    #[tactic(auto, using(sm_placement::proofs::Searches::find_range_more))]
    fn first_recorded_part(&self, shard: ShardId) -> Option<ServerId>
        ensures { result ≡ first_below (net_reopening self.now).servers (has_recorded_part self.now shard) }
    {
        for number in 0..self.server_count() {
            if self.has_recorded_part(shard, ServerId::new(number)) {
                return Some(ServerId::new(number));
            }
        }
        None
    }

    /// Whether a server may have served a shard, as it is recorded.
    fn may_have_served(&self, shard: ShardId, server: ServerId) -> bool
        ensures { result ≡ may_have_served self.now shard server }
    {
        match self.recorded_cell(shard, server) {
            Cell::Absent => false,
            Cell::Secondary => self.first_recorded_part(shard).is_none(),
            Cell::Primary | Cell::Prepared { .. } | Cell::Forwarding { .. } => true,
        }
    }

    /// Whether a server may have served any shard, whatever is recorded.
    fn may_have_served_any(&self, server: ServerId) -> bool
        ensures { result ≡ may_have_served_any self.now server }
    {
        self.was_sent(server) || self.past.config().server_count() == 0
    }

    /// Whether a server and a shard are recorded, so that an order may have added the one to the other.
    fn may_have_order(&self, shard: ShardId, server: ServerId) -> bool
        ensures { result ≡ may_have_order self.now shard server }
    {
        let recorded = self.past.config();
        server.number() < recorded.server_count() && shard.number() < recorded.shard_count()
    }

    /// Whether a server may have been a shard's first primary, which nobody has recorded.
    fn may_be_first(&self, shard: ShardId, server: ServerId) -> bool
        ensures { result ≡ may_be_first self.now shard server }
    {
        self.has_no_slots(server)
            && self.first_recorded_part(shard).is_none()
            && (self.may_have_served_any(server) || self.may_have_order(shard, server))
    }

    /// Whether a server that may have served a shard is lost or Unknown, or tells nothing of it.
    fn has_gone(&self, shard: ShardId, server: ServerId) -> bool
        ensures { result ≡ has_gone self.now shard server }
    {
        let is_absent = self.standing(shard, server).claim == 0;
        (self.may_have_served(shard, server) && is_absent)
            || (self.may_have_served_any(server) && self.has_no_slots(server))
            || self.may_be_first(shard, server)
    }

    /// The lowest server that may have served a shard, and is gone.
    #[tactic(auto, using(sm_placement::proofs::Searches::find_range_more))]
    fn first_gone(&self, shard: ShardId) -> Option<ServerId>
        ensures { result ≡ first_below (net_reopening self.now).servers (has_gone self.now shard) }
    {
        for number in 0..self.server_count() {
            if self.has_gone(shard, ServerId::new(number)) {
                return Some(ServerId::new(number));
            }
        }
        None
    }

    /// Whether a server has answered that it has a whole copy of a shard.
    fn tells_whole(&self, shard: ShardId, server: ServerId) -> bool
        ensures { result ≡ tells_whole self.now shard server }
    {
        let standing = self.standing(shard, server);
        self.has_told(server)
            && !self.is_lost(server)
            && self.has_whole(shard, server)
            && (standing.copy.view > 0 || standing.copy.position > 0)
    }

    /// Whether a server is recorded with something of a shard, and tells no whole copy.
    fn is_gone_member(&self, shard: ShardId, server: ServerId) -> bool
        ensures { result ≡ is_gone_member self.now shard server }
    {
        !self.recorded_cell(shard, server).is_absent() && !self.tells_whole(shard, server)
    }

    /// The number of such servers.
    fn gone_members(&self, shard: ShardId) -> u32
        ensures { result ≡ gone_members self.now shard }
    {
        let mut gone = 0;
        for number in 0..self.server_count() {
            if self.is_gone_member(shard, ServerId::new(number)) {
                gone += 1;
            }
        }
        gone
    }

    /// Whether a server that may have served a shard is gone, but has answered.
    fn has_gone_late(&self, shard: ShardId, server: ServerId) -> bool
        ensures { result ≡ has_gone_late self.now shard server }
    {
        self.has_gone(shard, server) && self.has_told(server)
    }

    /// The lowest such server.
    #[tactic(auto, using(sm_placement::proofs::Searches::find_range_more))]
    fn first_gone_late(&self, shard: ShardId) -> Option<ServerId>
        ensures { result ≡ first_below (net_reopening self.now).servers (has_gone_late self.now shard) }
    {
        for number in 0..self.server_count() {
            if self.has_gone_late(shard, ServerId::new(number)) {
                return Some(ServerId::new(number));
            }
        }
        None
    }

    /// The lowest server that has answered that it has a whole copy of a shard.
    #[tactic(auto, using(sm_placement::proofs::Searches::find_range_more))]
    fn first_told_whole(&self, shard: ShardId) -> Option<ServerId>
        ensures { result ≡ first_below (net_reopening self.now).servers (tells_whole self.now shard) }
    {
        for number in 0..self.server_count() {
            if self.tells_whole(shard, ServerId::new(number)) {
                return Some(ServerId::new(number));
            }
        }
        None
    }

    /// Whether nobody has.
    fn is_untold(&self, shard: ShardId) -> bool
        ensures { result ≡ is_untold self.now shard }
    {
        self.first_told_whole(shard).is_none()
    }

    /// Whether a write of a shard may be gone that had this many copies when it was acknowledged.
    fn may_lack_copies(&self, copies: u32, shard: ShardId) -> bool
        ensures { result ≡ may_lack_copies self.now copies shard }
    {
        copies < 2
            || copies <= self.gone_members(shard)
            || self.is_untold(shard)
            || self.first_gone_late(shard).is_some()
    }

    /// Whether acknowledged writes of a shard may be lost.
    fn may_lack_writes(&self, copies: u32, shard: ShardId) -> bool
        ensures { result ≡ may_lack_writes self.now copies shard }
    {
        self.first_primary(shard).is_none()
            && self.first_gone(shard).is_some()
            && self.may_lack_copies(copies, shard)
    }

    /// Whether a server has, had, or may have had something of a shard.
    fn had_something(&self, documented: &[Option<Role>], shard: ShardId, server: ServerId) -> bool
        ensures { result
            ≡ had_something self.now (grid_of (net_reopening self.now).servers None documented.now) shard server }
    {
        !self.recorded_cell(shard, server).is_absent()
            || self.may_be_first(shard, server)
            || self.documented_role(documented, shard, server).is_some()
            || self.standing(shard, server).claim > 0
    }

    /// The lowest server that has, had, or may have had something of a shard.
    #[tactic(auto, using(sm_placement::proofs::Searches::find_range_more))]
    fn first_with_something(&self, documented: &[Option<Role>], shard: ShardId) -> Option<ServerId>
        ensures { result ≡ first_below (net_reopening self.now).servers
            (had_something self.now (grid_of (net_reopening self.now).servers None documented.now) shard) }
    {
        for number in 0..self.server_count() {
            if self.had_something(documented, shard, ServerId::new(number)) {
                return Some(ServerId::new(number));
            }
        }
        None
    }

    /// Whether some server had something of a shard, and none is left that has all of it.
    fn is_bare(&self, documented: &[Option<Role>], shard: ShardId) -> bool
        ensures { result ≡ is_bare self.now (grid_of (net_reopening self.now).servers None documented.now) shard }
    {
        self.first_whole(shard).is_none() && self.first_with_something(documented, shard).is_some()
    }

    /// Whether the proposal names a shard as lost, each of whose acknowledged writes surely had this many copies.
    /// `documented` has the document's roles, shard after shard, with one for each number of a server.
    pub fn is_named_lost(&self, documented: &[Option<Role>], copies: u32, shard: ShardId) -> bool
        ensures { result ≡ is_named_lost self.now
            (grid_of (net_reopening self.now).servers None documented.now) copies shard }
    {
        self.is_bare(documented, shard)
            || (self.first_whole(shard).is_some() && self.may_lack_writes(copies, shard))
    }
}
