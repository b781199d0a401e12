//! Why a settlement may not be confirmed.
ghost use Rattle.std.specs.Prelude.{◌≡◌, ◌<◌, ◌≤◌, ◌↔◌, ◌&&◌, ℕ, IfSome, IfErr, true, false, not, is_some, OnOk, OnErr};
ghost use Rattle.std.specs.Prelude.{IsTrue, length};
ghost use Rattle.sm_server.specs.Cell.{is_absent, is_primary, is_secondary};
ghost use Rattle.sm_placement.specs.Layout.{place_of};
ghost use Rattle.sm_placement.specs.Lead.{IsSettled};
ghost use Rattle.sm_placement.specs.Opening.{first_below, is_handing};
ghost use Rattle.sm_placement.specs.Setup.{sizes_of};
ghost use Rattle.laws_network.specs.Reopening.{Confirm, entered};
ghost use Rattle.laws_network.specs.ReopeningLaws.{Keeps, is_carried};
ghost use Rattle.sm_reopening.specs.Ongoing.{IsSameButTold, told_copies, past_state, recorded_place, net_reopening};
ghost use Rattle.sm_reopening.specs.Ongoing.{shards_of};
ghost use Rattle.sm_reopening.specs.Faults.{IsFairAt, IsFairCell, IsFairSlot, IsFaultOf, IsTimely, KeepsSlot};
ghost use Rattle.sm_reopening.specs.Faults.{MayConfirm};
ghost use Rattle.sm_reopening.specs.Faults.{is_appointed, is_barred, is_carried_up, is_stranger, moved_fault};
ghost use Rattle.sm_reopening.specs.Survivors.{standing_of, stands_above};

use crate::ongoing::OngoingReopening;
use crate::party::Party;
use crate::state::Confirmed;
use sm_placement::Placement;
use sm_plan_code::MOST_PLACES;
use sm_server::{Cell, ServerId, ShardId};

/// Why a settlement may not be confirmed.
#[derive(Clone, Copy, Debug, PartialEq, Eq)]
pub enum ConfirmFault {
    /// One was confirmed before.
    Confirmed,
    /// The party has not answered the fence, and is not carried over.
    Missing { party: Party },
    /// More servers are down than the log has places for, or it has more places than a log may have.
    LogFull,
    /// The server is carried over, and would be recorded as up.
    CarriedUp { server: ServerId },
    /// The server is carried over, and would have another cell than is recorded.
    CarriedOver { shard: ShardId, server: ServerId },
    /// The server is lost, and would have something of the shard.
    AtLost { shard: ShardId, server: ServerId },
    /// The server has something of the shard, and the document leaves it out, or it is no server of the record.
    StillThere { shard: ShardId, server: ServerId },
    /// The server is the shard's primary, and would not be.
    Primary { shard: ShardId, server: ServerId },
    /// The server's replica of the shard would be dropped, or it would get one; or it would become the primary of a
    /// shard that has none. Plans do that.
    Moved { shard: ShardId, server: ServerId },
    /// The server would be the shard's primary, and another one has a better claim, or more of the writes.
    LowerChoice { shard: ShardId, server: ServerId },
    /// A party of the shard's handover is left, and the shard would have no primary.
    NoPrimary { shard: ShardId },
}

/// Returns a cell of a placement, which has none beyond its servers and shards.
fn settled_cell(placement: &Placement, shard: ShardId, server: ServerId) -> Cell
    ensures { result ≡ (place_of placement.now).cells shard server }
{
    let config = placement.config();
    if shard.number() >= config.shard_count() || server.number() >= config.server_count() {
        return Cell::Absent;
    }
    placement.cell(shard, server)
}

/// Returns whether a server that told one cell may be settled with the other one.
fn keeps(told: &Cell, next: &Cell) -> bool
    ensures { IsTrue result ↔ Keeps told.now next.now }
{
    match told {
        Cell::Primary => matches!(next, Cell::Primary),
        Cell::Secondary => matches!(next, Cell::Secondary | Cell::Primary),
        Cell::Absent => matches!(next, Cell::Absent),
        Cell::Prepared { .. } | Cell::Forwarding { .. } => {
            matches!(next, Cell::Primary | Cell::Absent)
        }
    }
}

/// Whether a secondary becomes the primary.
fn is_appointed(told: &Cell, next: &Cell) -> bool
    ensures { result ≡ is_appointed told.now next.now }
{
    matches!(told, Cell::Secondary) && matches!(next, Cell::Primary)
}

/// Returns the fault of a cell that is not kept.
fn moved(told: &Cell, shard: ShardId, server: ServerId) -> ConfirmFault
    ensures { result ≡ moved_fault told.now shard server }
{
    match told {
        Cell::Primary => ConfirmFault::Primary { shard, server },
        _ => ConfirmFault::Moved { shard, server },
    }
}

/// Returns whether a cell has a part in a handover.
fn is_handing(cell: &Cell) -> bool
    ensures { result ≡ is_handing cell.now }
{
    matches!(cell, Cell::Prepared { .. } | Cell::Forwarding { .. })
}

/// Returns whether a shard has a primary in a placement.
fn has_primary(placement: &Placement, shard: ShardId) -> bool
    ensures { IsTrue result ↔ ((u : ℕ) × ((place_of placement.now).cells shard u ≡ Cell.Primary)) }
{
    for number in 0..placement.config().server_count() {
        if matches!(
            settled_cell(placement, shard, ServerId::new(number)),
            Cell::Primary
        ) {
            return true;
        }
    }
    false
}

/// Returns whether a cell has a part in a handover of a shard that has no primary in a placement.
fn needs_primary(told: &Cell, placement: &Placement, shard: ShardId) -> bool
    ensures needed { IsTrue result → (is_handing told.now ≡ true)
        × (((u : ℕ) × ((place_of placement.now).cells shard u ≡ Cell.Primary)) → ⊥) }
    ensures there { result ≡ false → is_handing told.now ≡ true
        → (u : ℕ) × ((place_of placement.now).cells shard u ≡ Cell.Primary) }
{
    if !is_handing(told) {
        return false;
    }
    !has_primary(placement, shard)
}

impl OngoingReopening {
    /// Returns the lowest server that stands above another one for a shard.
    #[tactic(auto, using(sm_placement::proofs::Searches::find_range_more))]
    fn first_better(&self, shard: ShardId, server: ServerId) -> Option<ServerId>
        ensures { result ≡ first_below (net_reopening self.now).servers
            (λ u. stands_above (standing_of self.now shard u) (standing_of self.now shard server)) }
    {
        let standing = self.standing(shard, server);
        for number in 0..self.server_count() {
            let other = ServerId::new(number);
            if self.standing(shard, other).is_above(&standing) {
                return Some(other);
            }
        }
        None
    }

    /// Returns whether a server that is lost would have a cell.
    fn is_at_lost(&self, next: &Cell, server: ServerId) -> bool
        ensures { result ≡ ((net_reopening self.now).lost server && not (is_absent next.now)) }
    {
        self.is_lost(server) && !next.is_absent()
    }

    /// Returns whether a server is not carried over, or would have the cell that is recorded.
    fn is_as_recorded(&self, next: &Cell, shard: ShardId, server: ServerId) -> bool
        ensures { IsTrue result ↔ (is_carried (net_reopening self.now) (past_state self.now) server ≡ true
            → next.now ≡ (recorded_place self.now).cells shard server) }
    {
        if !self.is_carried(server) {
            return true;
        }
        *next == self.recorded_cell(shard, server)
    }

    /// Returns whether a server would be a shard's primary above which another one stands.
    fn is_lower(&self, next: &Cell, shard: ShardId, server: ServerId) -> bool
        ensures { result ≡ (is_primary next.now && is_some
            (first_below (net_reopening self.now).servers
            (λ u. stands_above (standing_of self.now shard u) (standing_of self.now shard server)))) }
    {
        matches!(next, Cell::Primary) && self.first_better(shard, server).is_some()
    }

    /// Returns what is wrong with the cell of a server and a shard, whatever the server has told.
    fn fault_of_cell(
        &self,
        settlement: &Placement,
        shard: ShardId,
        server: ServerId,
    ) -> Option<ConfirmFault>
        ensures none { (result ≡ None) ↔ IsFairCell self.now (place_of settlement.now) shard server }
        ensures fault { (room : ℕ) → IfSome result
            (IsFaultOf self.now (record {
              setup = settlement.now.setup;
              place = place_of settlement.now;
              room =
                  room;
            })) }
    {
        let next = settled_cell(settlement, shard, server);
        if self.is_at_lost(&next, server) {
            return Some(ConfirmFault::AtLost { shard, server });
        }
        if !self.is_as_recorded(&next, shard, server) {
            return Some(ConfirmFault::CarriedOver { shard, server });
        }
        if self.is_lower(&next, shard, server) {
            return Some(ConfirmFault::LowerChoice { shard, server });
        }
        None
    }

    /// Whether a server is no server of the record, and was sent no settle by a reopening that was replaced.
    fn is_stranger(&self, server: ServerId) -> bool
        ensures { result ≡ is_stranger self.now server }
    {
        let recorded = self.past.config().server_count();
        recorded > 0 && server.number() >= recorded && !self.was_sent(server)
    }

    /// Whether a server has to have nothing.
    fn is_barred(&self, server: ServerId) -> bool
        ensures { result ≡ is_barred self.now server }
    {
        self.is_left_out(server) || self.is_stranger(server)
    }

    /// Whether a server that has to have nothing has told a cell.
    fn is_still_there(&self, told: &Cell, server: ServerId) -> bool
        ensures { result ≡ (is_barred self.now server && not (is_absent told.now)) }
    {
        self.is_barred(server) && !told.is_absent()
    }

    /// Whether a server that told one cell of a shard may be settled with the other one.
    fn keeps_slot(&self, told: &Cell, next: &Cell, shard: ShardId) -> bool
        ensures { IsTrue result ↔ KeepsSlot self.now shard told.now next.now }
    {
        keeps(told, next) && (!is_appointed(told, next) || self.has_known_lead(shard))
    }

    /// Returns what is wrong with the cell of a server and a shard, by what the server has told.
    fn fault_of_slot(
        &self,
        settlement: &Placement,
        shard: ShardId,
        server: ServerId,
    ) -> Option<ConfirmFault>
        ensures none { (result ≡ None) ↔ IsFairSlot self.now (place_of settlement.now) shard server }
        ensures fault { (room : ℕ) → IfSome result
            (IsFaultOf self.now (record {
              setup = settlement.now.setup;
              place = place_of settlement.now;
              room =
                  room;
            })) }
    {
        let Some(slot) = self.slot(shard, server) else {
            return None;
        };
        if self.is_still_there(&slot.cell, server) {
            return Some(ConfirmFault::StillThere { shard, server });
        }
        if !self.keeps_slot(&slot.cell, &settled_cell(settlement, shard, server), shard) {
            return Some(moved(&slot.cell, shard, server));
        }
        if needs_primary(&slot.cell, settlement, shard) {
            return Some(ConfirmFault::NoPrimary { shard });
        }
        None
    }

    /// Returns what is wrong with the cell of a server and a shard.
    fn fault_at(
        &self,
        settlement: &Placement,
        shard: ShardId,
        server: ServerId,
    ) -> Option<ConfirmFault>
        ensures none { (result ≡ None) ↔ IsFairAt self.now (place_of settlement.now) shard server }
        ensures fault { (room : ℕ) → IfSome result
            (IsFaultOf self.now (record {
              setup = settlement.now.setup;
              place = place_of settlement.now;
              room =
                  room;
            })) }
    {
        let fault = self.fault_of_cell(settlement, shard, server);
        if fault.is_some() {
            return fault;
        }
        self.fault_of_slot(settlement, shard, server)
    }

    /// Returns the first fault of the cells of a shard.
    fn fault_of_shard(&self, settlement: &Placement, shard: ShardId) -> Option<ConfirmFault>
        ensures none { (result ≡ None) ↔ ((v : ℕ) → v < (net_reopening self.now).servers
            → IsFairAt self.now (place_of settlement.now) shard v) }
        ensures fault { (room : ℕ) → IfSome result
            (IsFaultOf self.now (record {
              setup = settlement.now.setup;
              place = place_of settlement.now;
              room =
                  room;
            })) }
    {
        for number in 0..self.server_count() {
            let fault = self.fault_at(settlement, shard, ServerId::new(number));
            if fault.is_some() {
                return fault;
            }
        }
        None
    }

    /// Returns the first fault of the cells of all shards.
    fn fault_of_cells(&self, settlement: &Placement) -> Option<ConfirmFault>
        ensures none { (result ≡ None) ↔ ((k v : ℕ) → k < shards_of self.now → v < (net_reopening self.now).servers
            → IsFairAt self.now (place_of settlement.now) k v) }
        ensures fault { (room : ℕ) → IfSome result
            (IsFaultOf self.now (record {
              setup = settlement.now.setup;
              place = place_of settlement.now;
              room =
                  room;
            })) }
    {
        for number in 0..self.shards {
            let fault = self.fault_of_shard(settlement, ShardId::new(number));
            if fault.is_some() {
                return fault;
            }
        }
        None
    }

    /// Returns the lowest server that is carried over, and that a settlement has as up.
    #[tactic(auto, using(sm_placement::proofs::Searches::find_range_more))]
    fn first_carried_up(&self, settlement: &Placement) -> Option<ServerId>
        ensures { result ≡ first_below (length settlement.now.setup.servers)
            (is_carried_up self.now (place_of settlement.now)) }
    {
        for number in 0..settlement.config().server_count() {
            let server = ServerId::new(number);
            if self.is_carried(server) && !settlement.is_down(server) {
                return Some(server);
            }
        }
        None
    }

    /// Returns what stands against any settlement as yet, or against this one but for its cells.
    fn fault_of_parties(&self, settlement: &Placement, log_room: u32) -> Option<ConfirmFault>
        ensures none { (result ≡ None) ↔ IsTimely self.now
            (record { setup = settlement.now.setup; place = place_of settlement.now; room = log_room }) }
        ensures fault { IfSome result (IsFaultOf self.now
            (record { setup = settlement.now.setup; place = place_of settlement.now; room = log_room })) }
    {
        if self.confirmed.is_some() {
            return Some(ConfirmFault::Confirmed);
        }
        if !self.map_told {
            return Some(ConfirmFault::Missing {
                party: Party::MapOwner,
            });
        }
        if let Some(server) = self.first_awaited() {
            return Some(ConfirmFault::Missing {
                party: Party::Server(server),
            });
        }
        if settlement.down_count() > log_room || log_room > MOST_PLACES {
            return Some(ConfirmFault::LogFull);
        }
        if let Some(server) = self.first_carried_up(settlement) {
            return Some(ConfirmFault::CarriedUp { server });
        }
        None
    }

    /// Returns why a settlement may not be confirmed, or nothing if it may. It is a settled placement of the document,
    /// with the floors that are met, and `log_room` is the room of its log.
    pub fn fault_of(&self, settlement: &Placement, log_room: u32) -> Option<ConfirmFault>
        requires settled { IsSettled (sizes_of settlement.now.setup) (place_of settlement.now) }
        requires servers { length settlement.now.setup.servers ≤ (net_reopening self.now).servers }
        requires shards { length settlement.now.setup.shards ≤ shards_of self.now }
        ensures none { (result ≡ None) ↔ MayConfirm self.now
            (record { setup = settlement.now.setup; place = place_of settlement.now; room = log_room }) }
        ensures fault { IfSome result (IsFaultOf self.now
            (record { setup = settlement.now.setup; place = place_of settlement.now; room = log_room })) }
    {
        settlement.config().server_count();
        self.past.config();
        let fault = self.fault_of_parties(settlement, log_room);
        if fault.is_some() {
            return fault;
        }
        self.fault_of_cells(settlement)
    }

    /// Confirms a settlement: its settles are to be sent. If it may not be confirmed it comes back, with what stands
    /// against it, and nothing changes.
    pub fn confirm(
        &mut self,
        settlement: Placement,
        log_room: u32,
    ) -> Result<(), (Placement, ConfirmFault)>
        requires settled { IsSettled (sizes_of settlement.setup) (place_of settlement) }
        requires servers { length settlement.setup.servers ≤ (net_reopening self.old).servers }
        requires shards { length settlement.setup.shards ≤ shards_of self.old }
        ensures may { OnOk result (MayConfirm self.old
            (record { setup = settlement.setup; place = place_of settlement; room = log_room })) }
        ensures reopening { OnOk result ((net_reopening self.new)
            ≡ entered (Confirm (record { setup = settlement.setup; place = place_of settlement; room = log_room }))
            (net_reopening self.old)) }
        ensures copies { told_copies self.new ≡ told_copies self.old }
        ensures same { IsSameButTold self.old self.new }
        ensures back { IfErr result (λ e. e.0 ≡ settlement) }
        ensures fault { IfErr result (λ e. IsFaultOf self.old
            (record { setup = settlement.setup; place = place_of settlement; room = log_room }) e.1) }
        ensures unchanged { OnErr result (self.new ≡ self.old) }
    {
        if let Some(fault) = self.fault_of(&settlement, log_room) {
            return Err((settlement, fault));
        }
        self.confirmed = Some(Confirmed {
            placement: settlement,
            log_room,
        });
        Ok(())
    }
}
